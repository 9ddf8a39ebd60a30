//! Laws that state values of the definitions in `specs/`, worked out by hand: crossings of a comb,
//! weights at leaves, and bounds of small trees of cases and their bad branches. No code calls
//! them. If someone makes the same mistake in a definition and in the code, every contract still
//! holds, but one of these laws fails.

ghost use Rattle.std.specs.Prelude.{◌≡◌, ℕ, ℤ, List, [], ◌∷◌, true, false, pos, ◌-ℤ◌, ◌+ℤ◌, ◌+◌, ◌-◌, ◌*◌, ◌^◌, negsuc};
ghost use Rattle.tsp_format.specs.Steps as listed;
ghost use Rattle.tsp_cases.specs.ListedCases.{IsFirstBadBranch, AreGoodNumbers, IsListedStep, listed_steps};
ghost use Rattle.tsp_cases.specs.Examples.{AreOnce, AreNotOnce, branched, small_comb, PairCrosses, CrossesInAll, large, no_numbers, one_at_two, WeighsAt, WeighsUnderComb, four_rows, six_rows, LengthIs, FourHave, SixHave, IsTreeOf, IsNoTree, with_pair, without_pair, one_set_twice, beside_all_six, all_six, IsCrossed, IsNoFamily, by_differences, by_numbers, two_combs, known_three, crossed_by, multiplied_by, moved_at_three, cost_of_three, ThreeHave, LeafOfThreeHas, one_set_times, single_sets, IsNotGood, IsGood, three_teeth, TwiceAt, branches, branches_apart, on_both_sides};
ghost use Rattle.tsp_cases.specs.Cases.{Branch, Leaf, decided_number};
ghost use Rattle.tsp_cases.specs.Families.{least_crossings, least_crossings_of};
ghost use Rattle.tsp_cases.specs.Crossings.{AreTooMany};
ghost use Rattle.tsp_cases.specs.CaseTrees.{IsAllowed, HasNoLink, IsRowBound};

use crate::decision::DECIDED;
use crate::laws::{cycles_cross_families, numbers_are_unique, unlike_nodes_need_parts};
use tsp_theory::lengths_add_up;

/// How often edges between some nodes cross the sets of a comb, and how often two cycles do. The
/// first cycle does so as seldom as any can.
pub fn examples_of_crossings()
    ensures least { least_crossings small_comb ≡ pos 10 }
    ensures least_of_three_teeth { least_crossings_of 3 ≡ 10 }
    ensures least_of_lone_set { least_crossings_of 0 ≡ 2 }
    ensures itself { PairCrosses 1 1 0 }
    ensures handle_alone { PairCrosses 1 4 1 }
    ensures handle_alone_turned { PairCrosses 4 1 1 }
    ensures two_teeth_inside { PairCrosses 1 2 2 }
    ensures two_teeth_outside { PairCrosses 4 6 2 }
    ensures all_three { PairCrosses 1 5 3 }
    ensures outside_all { PairCrosses 7 8 0 }
    ensures handle_and_tooth { PairCrosses 1 7 2 }
    ensures tooth_alone { PairCrosses 4 7 1 }
    ensures best_cycle { CrossesInAll (1 ∷ 2 ∷ 3 ∷ 6 ∷ 5 ∷ 4 ∷ []) 10 }
    ensures other_cycle { CrossesInAll (1 ∷ 2 ∷ 3 ∷ 4 ∷ 5 ∷ 6 ∷ []) 14 }
{}

/// The number on each decided pair, which is the one in the code; and what some pairs weigh at the
/// leaves of two certificates.
pub fn examples_of_weights()
    ensures number { decided_number ≡ large }
    ensures code { DECIDED ≡ decided_number }
    ensures taken { WeighsAt (with_pair 1 2 ∷ []) 1 2 (pos 2 -ℤ large) }
    ensures taken_turned { WeighsAt (with_pair 2 1 ∷ []) 1 2 (pos 2 -ℤ large) }
    ensures avoided { WeighsAt (without_pair 1 2 ∷ []) 1 2 (pos 2 +ℤ large) }
    ensures at_node_two { WeighsAt (with_pair 1 2 ∷ []) 2 3 (pos 2) }
    ensures elsewhere { WeighsAt (with_pair 1 2 ∷ []) 3 4 (pos 3) }
    ensures both { WeighsAt (without_pair 3 4 ∷ with_pair 1 2 ∷ []) 4 3 (pos 3 +ℤ large) }
    ensures in_handle { WeighsUnderComb 1 2 (pos 2) }
    ensures in_tooth { WeighsUnderComb 1 4 (pos 1) }
    ensures across { WeighsUnderComb 1 5 (pos 15) }
{}

/// The bounds of some certificates, and tours that are as long as the highest of them.
pub fn examples_of_bounds()
    ensures potentials_alone { FourHave (Leaf (no_numbers 4) ∷ []) (pos 5) }
    ensures branch { FourHave (Branch (1, 2) ∷ Leaf one_at_two ∷ Leaf one_at_two ∷ []) (pos 6) }
    ensures no_multiplier { SixHave [] (pos 9) }
    ensures comb { SixHave (pos 1 ∷ []) (pos 10) }
    ensures tour_of_four { LengthIs four_rows (1 ∷ 3 ∷ 2 ∷ 4 ∷ []) (pos 6) }
    ensures tour_of_six { LengthIs six_rows (1 ∷ 2 ∷ 3 ∷ 6 ∷ 5 ∷ 4 ∷ []) (pos 10) }
{}

/// Which steps are a tree, and the cases of its leaves.
pub fn examples_of_trees()
    ensures leaf { IsTreeOf (Leaf (no_numbers 4) ∷ []) ([] ∷ []) }
    ensures branch { IsTreeOf (Branch (1, 2) ∷ Leaf one_at_two ∷ Leaf one_at_two ∷ [])
        ((with_pair 1 2 ∷ []) ∷ (without_pair 1 2 ∷ []) ∷ []) }
    ensures first_deeper { IsTreeOf (Branch (1, 2) ∷ Branch (1, 3) ∷ Leaf one_at_two ∷ Leaf one_at_two ∷ Leaf one_at_two ∷ [])
        ((with_pair 1 3 ∷ with_pair 1 2 ∷ []) ∷ (without_pair 1 3 ∷ with_pair 1 2 ∷ []) ∷ (without_pair 1 2 ∷ []) ∷ []) }
    ensures second_deeper { IsTreeOf (Branch (1, 2) ∷ Leaf one_at_two ∷ Branch (1, 3) ∷ Leaf one_at_two ∷ Leaf one_at_two ∷ [])
        ((with_pair 1 2 ∷ []) ∷ (with_pair 1 3 ∷ without_pair 1 2 ∷ []) ∷ (without_pair 1 3 ∷ without_pair 1 2 ∷ []) ∷ []) }
    ensures nothing { IsNoTree [] }
    ensures one_leaf_missing { IsNoTree (Branch (1, 2) ∷ Leaf one_at_two ∷ []) }
    ensures one_leaf_more { IsNoTree (Leaf (no_numbers 4) ∷ Leaf (no_numbers 4) ∷ []) }
{}

/// Sets that are neither a lone set nor those of a comb, and branches that come twice.
pub fn examples_of_verdicts()
    ensures no_sets { IsNotGood [] }
    ensures one_tooth { IsNotGood ((1 ∷ 2 ∷ 3 ∷ []) ∷ (1 ∷ 4 ∷ []) ∷ []) }
    ensures two_teeth { IsNotGood ((1 ∷ 2 ∷ 3 ∷ []) ∷ (1 ∷ 4 ∷ []) ∷ (2 ∷ 5 ∷ []) ∷ []) }
    ensures node_twice { IsNotGood ((1 ∷ 2 ∷ 3 ∷ 1 ∷ []) ∷ three_teeth) }
    ensures teeth_meet { IsNotGood ((1 ∷ 2 ∷ 3 ∷ []) ∷ (1 ∷ 4 ∷ []) ∷ (2 ∷ 4 ∷ []) ∷ (3 ∷ 6 ∷ []) ∷ []) }
    ensures tooth_inside { IsNotGood ((1 ∷ 2 ∷ 3 ∷ 4 ∷ []) ∷ three_teeth) }
    ensures tooth_outside { IsNotGood ((1 ∷ 2 ∷ []) ∷ three_teeth) }
    ensures lone_set { IsGood ((1 ∷ 2 ∷ []) ∷ []) }
    ensures no_node { IsNotGood ([] ∷ []) }
    ensures all_nodes { IsNotGood ((1 ∷ 2 ∷ 3 ∷ 4 ∷ 5 ∷ 6 ∷ []) ∷ []) }
    ensures lone_node_twice { IsNotGood ((1 ∷ 2 ∷ 1 ∷ []) ∷ []) }
    ensures again { TwiceAt false [] (branches 1 2 1 2) 2 }
    ensures again_turned { TwiceAt false [] (branches 1 2 2 1) 2 }
    ensures given { TwiceAt false (with_pair 3 4 ∷ []) (branches 1 2 4 3) 2 }
    ensures arc_again { TwiceAt true [] (branches 1 2 1 2) 2 }
    ensures other_arc { (branch : ℕ) → ¬ TwiceAt true [] (branches 1 2 2 1) branch }
    ensures without_it { (changes : List (ℕ × ℤ)) → TwiceAt false [] (branches_apart 1 2 1 2 changes) 2 }
    ensures sides { (changes : List (ℕ × ℤ)) → TwiceAt false [] (on_both_sides changes) 4 }
{}

/// Which branches are bad if they may be on a pair of four nodes, and which if they may be on one
/// of two families; and which branches a file may have.
pub fn examples_of_bad_branches()
    ensures family { IsFirstBadBranch 1 4 (branches 1 2 5 1) 2 }
    ensures family_first { IsFirstBadBranch 1 4 (branches 5 1 6 1) 1 }
    ensures after_a_leaf { (changes : List (ℕ × ℤ)) → IsFirstBadBranch 1 4 (branches_apart 1 2 5 1 changes) 2 }
    ensures last_node { (branch : ℕ) → ¬ IsFirstBadBranch 1 4 (branches 4 1 1 2) branch }
    ensures pair { IsFirstBadBranch 5 6 (branches 6 1 1 2) 2 }
    ensures third_family { IsFirstBadBranch 5 6 (branches 7 1 5 1) 1 }
    ensures both_families { (branch : ℕ) → ¬ IsFirstBadBranch 5 6 (branches 5 4 6 1) branch }
    ensures listed_pair { IsListedStep 4 (listed.Branch 4 3) }
    ensures listed_node_twice { ¬ IsListedStep 4 (listed.Branch 4 4) }
    ensures listed_family { IsListedStep 4 (listed.Branch 5 5) }
{}

/// Cases that decide each pair once, and some that don't.
pub fn examples_of_cases()
    ensures once { AreOnce false [] (branched 1 2 3 4) }
    ensures turned { AreNotOnce false [] (branched 1 2 2 1) }
    ensures arcs { AreOnce true [] (branched 1 2 2 1) }
    ensures given { AreNotOnce false (with_pair 2 1 ∷ []) (branched 1 2 3 4) }
{}

/// How often sets are crossed, and which sets are no family.
pub fn examples_of_families()
    ensures lone_set { IsCrossed 2 3 ((1 ∷ 2 ∷ 3 ∷ []) ∷ []) }
    ensures set_twice { IsCrossed 4 2 one_set_twice }
    ensures not_as_a_lone_set { ¬ IsCrossed 2 3 one_set_twice }
    ensures not_more { ¬ IsCrossed 5 2 one_set_twice }
    ensures not_fewer { ¬ IsCrossed 3 2 one_set_twice }
    ensures not_one_set { ¬ IsCrossed 4 1 one_set_twice }
    ensures crossed_by_one_set { IsCrossed 2 1 beside_all_six }
    ensures all_nodes { IsNoFamily all_six }
    ensures node_twice { IsNoFamily ((1 ∷ 2 ∷ 1 ∷ []) ∷ (1 ∷ 3 ∷ []) ∷ []) }
{
    cycles_cross_families();
    lengths_add_up();
    numbers_are_unique();
    unlike_nodes_need_parts();
}

/// Numbers at their limits, and past them by one.
pub fn examples_of_good_numbers()
    ensures largest_sum { AreGoodNumbers 3 two_combs (multiplied_by (pos (3 * 10 ^ 17 - 1)) (pos 1)) }
    ensures larger_sum { ¬ AreGoodNumbers 3 two_combs (multiplied_by (pos (3 * 10 ^ 17)) (pos 1)) }
    ensures largest_of_five { AreGoodNumbers 3 (crossed_by 5 ∷ crossed_by 2 ∷ [])
        (multiplied_by (pos (18 * 10 ^ 16 - 2)) (pos 5)) }
    ensures larger_of_five { ¬ AreGoodNumbers 3 (crossed_by 5 ∷ crossed_by 2 ∷ [])
        (multiplied_by (pos (18 * 10 ^ 16 - 2)) (pos 6)) }
    ensures below_zero { ¬ AreGoodNumbers 3 two_combs (multiplied_by (pos 5) (negsuc 0)) }
    ensures fewer_families { ¬ AreGoodNumbers 3 (known_three ∷ []) (multiplied_by (pos 5) (pos 1)) }
    ensures largest_potential { AreGoodNumbers 3 [] (moved_at_three (pos (10 ^ 15))) }
    ensures larger_potential { ¬ AreGoodNumbers 3 [] (moved_at_three (pos (10 ^ 15 + 1))) }
    ensures lowest_potential { AreGoodNumbers 3 [] (moved_at_three (negsuc (10 ^ 15 - 1))) }
    ensures lower_potential { ¬ AreGoodNumbers 3 [] (moved_at_three (negsuc (10 ^ 15))) }
{}

/// Each leaf has the numbers of the leaf before it, plus its differences. Before the first leaf,
/// all numbers are 0.
pub fn examples_of_differences()
    ensures { listed_steps 3 1 by_differences ≡ by_numbers }
{}

/// Which links are allowed by a taken arc, by an avoided one, and without decisions.
pub fn examples_of_links()
    ensures taken { IsAllowed 3 (with_pair 1 3 ∷ []) 1 3 }
    ensures row_of_taken { ¬ IsAllowed 3 (with_pair 1 3 ∷ []) 1 2 }
    ensures column_of_taken { ¬ IsAllowed 3 (with_pair 1 3 ∷ []) 2 3 }
    ensures beside_taken { IsAllowed 3 (with_pair 1 3 ∷ []) 2 1 }
    ensures avoided { ¬ IsAllowed 3 (without_pair 1 3 ∷ []) 1 3 }
    ensures avoided_turned { IsAllowed 3 (without_pair 1 3 ∷ []) 3 1 }
    ensures row_of_avoided { IsAllowed 3 (without_pair 1 3 ∷ []) 1 2 }
    ensures column_of_avoided { IsAllowed 3 (without_pair 1 3 ∷ []) 2 3 }
    ensures second_decision { ¬ IsAllowed 3 (with_pair 1 2 ∷ without_pair 2 3 ∷ []) 2 3 }
    ensures no_decision { IsAllowed 3 [] 2 3 }
    ensures itself { ¬ IsAllowed 3 [] 2 2 }
    ensures past_the_last { ¬ IsAllowed 3 [] 2 4 }
{}

/// Bounds by rows: the costs of the least allowed links, and no bound if some node has none. The
/// arcs from node 1 lead to the nodes 2 and 3, which two taken arcs enter from elsewhere.
pub fn examples_of_rows()
    ensures none_left { HasNoLink 3 (with_pair 3 2 ∷ with_pair 2 3 ∷ []) }
    ensures some_left { ¬ HasNoLink 3 [] }
    ensures no_decision { ThreeHave [] (pos 1) (pos 6) }
    ensures taken { ThreeHave (with_pair 1 3 ∷ []) (pos 1) (pos 23) }
    ensures avoided { ThreeHave (without_pair 1 2 ∷ []) (pos 1) (pos 15) }
    ensures rounded_up { ThreeHave (with_pair 1 3 ∷ []) (pos 2) (pos 12) }
    ensures given_back { IsRowBound 3 cost_of_three (with_pair 1 3 ∷ []) (pos 2) (pos 5) (pos 14) }
{}

/// Bounds of leaves by rows. With a potential of 3 at node 1 and of 1 at node 3, and a multiplier
/// of 2 on the lone set of node 1, the least weights are 2, 3 and 5 at scale 1. The two crossings
/// of each cycle add 4, and the potentials take away 8.
pub fn examples_of_leaves()
    ensures alone { LeafOfThreeHas [] (pos 1) (pos 6) }
    ensures taken { LeafOfThreeHas (with_pair 1 3 ∷ []) (pos 2) (pos 24) }
{}

/// Two arcs with the same last node are two pairs, and a lone set may have one node.
pub fn examples_of_arcs()
    ensures one_head { (branch : ℕ) → ¬ TwiceAt true [] (branches 1 2 3 2) branch }
    ensures one_tail { (branch : ℕ) → ¬ TwiceAt true [] (branches 1 2 1 3) branch }
    ensures lone_node { IsGood ((1 ∷ []) ∷ []) }
{}

/// A family may have 63 sets and 14 parts, and no more of either.
pub fn examples_of_limits()
    ensures most_sets { ¬ AreTooMany 3 (one_set_times 63) }
    ensures more_sets { AreTooMany 3 (one_set_times 64) }
    ensures most_parts { ¬ AreTooMany 14 (single_sets 13) }
    ensures more_parts { AreTooMany 15 (single_sets 14) }
{
    unlike_nodes_need_parts();
}
