//! Laws that state values of the definitions in `specs/`, worked out by hand for a rectangle: how
//! many routes its customers need, their loads, walks, limits, and the bounds of small
//! certificates. No code calls them. If someone makes the same mistake in a definition and in the
//! code, every contract still holds, but one of these laws fails.

ghost use Rattle.tsp_routing.specs.Prelude.{[], true, false, None, Some, pos, negsuc, Branch, Leaf, has};
ghost use Rattle.std.specs.Prelude.{◌≡◌, ◌+◌, ◌-◌, ◌*◌, ◌^◌, ◌∷◌, replicate};
ghost use Rattle.tsp_routing.specs.Examples.{rectangle_with, lone_cut, at_most, above, IsQRouteByDemand, IsQRouteInFives, AreGoodMultipliers, LeafHas, three_potentials, CertificateHas, branch_on_two};
ghost use Rattle.tsp_routing.specs.PlanBounds.{least_product, least_times, low_of, high_of};
ghost use Rattle.tsp_routing.specs.PlanLinks.{IsFewest, IsCapacityCut, IsCutFamily, IsWithinLimit, AreUnits, load_in, capacity_in_parts, set_at};
ghost use Rattle.tsp_routing.specs.PlanVerdicts.{AreGoodBranches, IsGoodSet, IsFirstBadPlanBranch, most_of_multipliers, most_entries, HasTooManyLoads};
ghost use Rattle.tsp_routing.specs.RunExamples.{of_three, of_four, given_row, AreRun, AreNoRun, RunWeighs, KeptRunWeighs, KeepsKeys, HasMember, HasWord, StartWeighs, RectangleHas};
ghost use Rattle.tsp_routing.specs.RunTrees.{IsGoodList, IsGoodRow, FitsMemory, number_place};
ghost use Rattle.tsp_routing.specs.KeptStates.{most_states};
ghost use Rattle.tsp_routing.specs.RunVerdicts.{is_by_runs};
ghost use Rattle.tsp_routing.specs.Runs.{half};

/// Which certificates are judged by runs, and the places of the numbers of a leaf with 4 nodes and
/// 2 families: rows follow families, and an index between them has no place.
pub fn examples_of_places()
    ensures neither { is_by_runs [] [] ≡ false }
    ensures list { is_by_runs ([] ∷ []) [] ≡ true }
    ensures row { is_by_runs [] (of_three ∷ []) ≡ true }
    ensures node { number_place 4 2 4 ≡ 4 }
    ensures family { number_place 4 2 6 ≡ 6 }
    ensures between { number_place 4 2 7 ≡ 0 }
    ensures last_between { number_place 4 2 10004 ≡ 0 }
    ensures first_row { number_place 4 2 10005 ≡ 7 }
    ensures second_row { number_place 4 2 10006 ≡ 8 }
{}

/// How many routes carry a demand of 12, how many a set of these customers needs, and the least
/// number of times that a plan crosses the set.
pub fn examples_of_needs()
    ensures fewest { IsFewest (rectangle_with (pos 8)) 2 }
    ensures fewest_of_full { IsFewest (rectangle_with (pos 4)) 3 }
    ensures fewest_of_one { IsFewest (rectangle_with (pos 12)) 1 }
    ensures need { IsCapacityCut (rectangle_with (pos 8)) (has (2 ∷ 3 ∷ 4 ∷ [])) 2 }
    ensures need_of_two { IsCapacityCut (rectangle_with (pos 8)) (has (3 ∷ 4 ∷ [])) 1 }
    ensures need_of_small_routes { IsCapacityCut (rectangle_with (pos 7)) (has (3 ∷ 4 ∷ [])) 2 }
    ensures crossed { IsCutFamily (rectangle_with (pos 8)) (lone_cut 4 (2 ∷ 3 ∷ 4 ∷ [])) }
    ensures crossed_of_two { IsCutFamily (rectangle_with (pos 8)) (lone_cut 2 (3 ∷ 4 ∷ [])) }
{}

/// The sets of two families by their place, which counts from 0; after the last there is a set
/// without nodes.
pub fn examples_of_sets()
    ensures first { set_at (lone_cut 2 (3 ∷ 4 ∷ []) ∷ lone_cut 2 (2 ∷ []) ∷ []) 0 3 ≡ true }
    ensures not_in_the_first { set_at (lone_cut 2 (3 ∷ 4 ∷ []) ∷ lone_cut 2 (2 ∷ []) ∷ []) 0 2 ≡ false }
    ensures second { set_at (lone_cut 2 (3 ∷ 4 ∷ []) ∷ lone_cut 2 (2 ∷ []) ∷ []) 1 2 ≡ true }
    ensures not_in_the_second { set_at (lone_cut 2 (3 ∷ 4 ∷ []) ∷ lone_cut 2 (2 ∷ []) ∷ []) 1 3 ≡ false }
    ensures past_the_last { set_at (lone_cut 2 (3 ∷ 4 ∷ []) ∷ []) 1 3 ≡ false }
{}

/// The two limits with t = 1, and how often a plan crosses the set 5 at least and at most: by the
/// limits on it, and by what holds for all plans.
pub fn examples_of_limits()
    ensures two { IsWithinLimit (pos 2) true 1 }
    ensures more_than_two { ¬ IsWithinLimit (pos 3) true 1 }
    ensures four { IsWithinLimit (pos 4) false 1 }
    ensures fewer_than_four { ¬ IsWithinLimit (pos 3) false 1 }
    ensures low { low_of 5 (above 5 1 ∷ []) 2 ≡ 4 }
    ensures high { high_of 5 (at_most 5 1 ∷ []) 6 ≡ 2 }
    ensures low_without { low_of 5 [] 2 ≡ 2 }
    ensures high_without { high_of 5 [] 6 ≡ 6 }
    ensures low_of_all { low_of 5 (above 5 1 ∷ []) 6 ≡ 6 }
    ensures high_of_all { high_of 5 (at_most 5 4 ∷ []) 6 ≡ 6 }
    ensures greatest_low { low_of 5 (above 5 1 ∷ above 5 2 ∷ []) 2 ≡ 6 }
    ensures least_high { high_of 5 (at_most 5 2 ∷ at_most 5 1 ∷ []) 6 ≡ 2 }
    ensures low_beside_high { low_of 5 (at_most 5 2 ∷ above 5 1 ∷ []) 2 ≡ 4 }
    ensures high_beside_low { high_of 5 (at_most 5 2 ∷ above 5 1 ∷ []) 6 ≡ 4 }
    ensures low_of_another { low_of 5 (above 6 1 ∷ []) 2 ≡ 2 }
    ensures high_of_another { high_of 5 (at_most 6 1 ∷ []) 6 ≡ 6 }
{}

/// What each route adds counts for the fewest routes, or for the most if it is below 0. A
/// multiplier counts for the fewest crossings of its set, or for the most if it is below 0.
pub fn examples_of_products()
    ensures fewest_routes { least_product 2 3 (pos 6) ≡ pos 12 }
    ensures most_routes { least_product 1 3 (negsuc 11) ≡ negsuc 35 }
    ensures low { least_times 2 6 (pos 5) ≡ pos 10 }
    ensures high { least_times 2 6 (negsuc 0) ≡ negsuc 5 }
{}

/// The load of a customer who demands 4 and the capacity of a route that carries 8: in units of 4,
/// of 1, and of 5, if all customers load a part of a unit.
pub fn examples_of_loads()
    ensures none_light { AreUnits (rectangle_with (pos 8)) 4 0 }
    ensures load { load_in (rectangle_with (pos 8)) 4 0 2 ≡ 1 }
    ensures room { capacity_in_parts (rectangle_with (pos 8)) 4 0 ≡ 2 }
    ensures load_of_demands { load_in (rectangle_with (pos 8)) 1 0 2 ≡ 4 }
    ensures room_of_demands { capacity_in_parts (rectangle_with (pos 8)) 1 0 ≡ 8 }
    ensures all_light { AreUnits (rectangle_with (pos 8)) 5 3 }
    ensures light_load { load_in (rectangle_with (pos 8)) 5 3 2 ≡ 1 }
    ensures room_of_light { capacity_in_parts (rectangle_with (pos 8)) 5 3 ≡ 7 }
    ensures load_beside_light { load_in (rectangle_with (pos 8)) 4 3 2 ≡ 4 }
{}

/// Walks, and lists of nodes that aren't walks: they load too much, turn back, stay at a node, or
/// pass the depot.
pub fn examples_of_q_routes()
    ensures two { IsQRouteByDemand (2 ∷ 3 ∷ []) }
    ensures three { ¬ IsQRouteByDemand (2 ∷ 3 ∷ 4 ∷ []) }
    ensures again { IsQRouteInFives (2 ∷ 3 ∷ 4 ∷ 2 ∷ 3 ∷ 4 ∷ 2 ∷ []) }
    ensures too_many { ¬ IsQRouteInFives (2 ∷ 3 ∷ 4 ∷ 2 ∷ 3 ∷ 4 ∷ 2 ∷ 3 ∷ []) }
    ensures back { ¬ IsQRouteInFives (2 ∷ 3 ∷ 2 ∷ []) }
    ensures back_later { ¬ IsQRouteInFives (2 ∷ 3 ∷ 4 ∷ 3 ∷ []) }
    ensures stays { ¬ IsQRouteInFives (2 ∷ 2 ∷ []) }
    ensures depot { ¬ IsQRouteInFives (2 ∷ 1 ∷ 3 ∷ []) }
    ensures none { ¬ IsQRouteInFives [] }
{}

/// A table may have 10,000,000 entries, and the sizes of multipliers may sum to 3 * 10^17.
pub fn examples_of_most()
    ensures entries { most_entries ≡ 10 ^ 7 }
    ensures as_many_loads { ¬ HasTooManyLoads (rectangle_with (pos 2499999)) 1 }
    ensures more_loads { HasTooManyLoads (rectangle_with (pos 2500000)) 1 }
    ensures multipliers { most_of_multipliers ≡ 3 * 10 ^ 17 }
    ensures largest { AreGoodMultipliers (pos (3 * 10 ^ 17) ∷ []) 1 }
    ensures larger { ¬ AreGoodMultipliers (pos (3 * 10 ^ 17 + 1) ∷ []) 1 }
    ensures both_signs { AreGoodMultipliers (pos (2 * 10 ^ 17) ∷ negsuc (10 ^ 17 - 1) ∷ []) 2 }
    ensures larger_of_both_signs { ¬ AreGoodMultipliers (pos (2 * 10 ^ 17) ∷ negsuc (10 ^ 17) ∷ []) 2 }
{}

/// With four nodes, the first number of a branch on family k is 4 + k, which isn't a node.
pub fn examples_of_branches()
    ensures family { AreGoodBranches 4 1 (Branch 5 1 ∷ Leaf [] ∷ Leaf [] ∷ []) }
    ensures second_family { AreGoodBranches 4 2 (Branch 6 1 ∷ Leaf [] ∷ Leaf [] ∷ []) }
    ensures family_more { IsFirstBadPlanBranch 4 1 (Branch 6 1 ∷ Leaf [] ∷ Leaf [] ∷ []) 1 }
    ensures last_node { IsFirstBadPlanBranch 4 1 (Branch 4 1 ∷ Leaf [] ∷ Leaf [] ∷ []) 1 }
    ensures no_family { IsFirstBadPlanBranch 4 0 (Branch 5 1 ∷ Leaf [] ∷ Leaf [] ∷ []) 1 }
{}

/// The bounds of leaves with one set, from the least weight of a walk. The multiplier is given back
/// for each crossing. Two routes are the fewest, and three the most.
pub fn examples_of_leaves()
    ensures low { LeafHas [] (pos 1) (pos 6) (pos 14) }
    ensures high { LeafHas [] (negsuc 0) (pos 6) (pos 6) }
    ensures low_of_case { LeafHas (above 5 1 ∷ []) (pos 1) (pos 6) (pos 16) }
    ensures high_of_case { LeafHas (at_most 5 1 ∷ []) (negsuc 0) (pos 6) (pos 10) }
    ensures most_routes { LeafHas [] (pos 0) (negsuc 11) (negsuc 35) }
{}

/// The bounds of certificates for the rectangle, whose shortest plan has the length 18: the routes
/// 2 and 3 4.
pub fn examples_of_bounds()
    ensures no_numbers { CertificateHas (pos 8) [] (Leaf [] ∷ []) (Some (pos 12)) }
    ensures potentials { CertificateHas (pos 8) [] (three_potentials (negsuc 2)) (Some (pos 18)) }
    ensures branch { CertificateHas (pos 8) (((3 ∷ 4 ∷ []) ∷ []) ∷ []) branch_on_two (Some (pos 10)) }
    ensures no_q_route { CertificateHas (pos 3) [] (Leaf [] ∷ []) None }
{}

/// Customer 3 remembers customer 2, and no other customer remembers any. So a run may come back to
/// customer 2 from customer 4, also if it had customer 3 before, but not from customer 3.
pub fn examples_of_runs()
    ensures lone { AreRun (2 ∷ []) }
    ensures back { AreRun (2 ∷ 4 ∷ 2 ∷ []) }
    ensures forgotten { AreRun (2 ∷ 3 ∷ 4 ∷ 2 ∷ []) }
    ensures remembered { AreNoRun (2 ∷ 3 ∷ 2 ∷ []) }
    ensures twice_in_a_row { AreNoRun (2 ∷ 2 ∷ []) }
    ensures too_heavy { AreNoRun (2 ∷ 4 ∷ 2 ∷ 4 ∷ 2 ∷ []) }
    ensures depot { AreNoRun (2 ∷ 1 ∷ []) }
    ensures nobody { AreNoRun [] }
{}

/// Each link weighs 10, and a run pays 7 for each second customer of the set 2 3 4. Customer 5
/// forgets the parity, unless the row says that it keeps it.
pub fn examples_of_run_weights()
    ensures lone { RunWeighs (2 ∷ []) (pos 20) }
    ensures second { RunWeighs (2 ∷ 3 ∷ []) (pos 37) }
    ensures third { RunWeighs (2 ∷ 3 ∷ 4 ∷ []) (pos 47) }
    ensures fourth { RunWeighs (2 ∷ 3 ∷ 4 ∷ 2 ∷ []) (pos 64) }
    ensures forgotten { RunWeighs (2 ∷ 5 ∷ 3 ∷ []) (pos 40) }
    ensures kept { KeptRunWeighs (2 ∷ 5 ∷ 3 ∷ []) (pos 47) }
{}

/// Customer 3 keeps customer 2 in the lowest bit, and the row in the next one; customer 5 keeps
/// nothing, and so forgets both.
pub fn examples_of_memories()
    ensures keys { KeepsKeys 3 (2 ∷ 6 ∷ []) }
    ensures row { KeepsKeys 4 (6 ∷ []) }
    ensures nothing { KeepsKeys 5 [] }
    ensures member { HasMember 6 3 true }
    ensures no_member { HasMember 6 5 false }
    ensures no_row { HasMember 2 3 false }
    ensures first { HasWord 3 [] 2 }
    ensures second { HasWord 3 (2 ∷ []) 1 }
    ensures third { HasWord 4 (3 ∷ 2 ∷ []) 1 }
    ensures forgotten { HasWord 3 (5 ∷ 2 ∷ []) 2 }
{}

/// Each link weighs 10, and the second customer of the set pays 7.
pub fn examples_of_starts()
    ensures lone { StartWeighs 2 [] (pos 10) }
    ensures charged { StartWeighs 3 (2 ∷ []) (pos 27) }
    ensures forgotten { StartWeighs 3 (5 ∷ 2 ∷ []) (pos 30) }
{}

/// Which families, rows and lists of the customers 2 to 5 are good, with the depot 1. A family is
/// one set. A row has two customers or more in its set. The first customer of a list remembers the
/// others, and has no earlier list.
pub fn examples_of_good_lists()
    ensures set { IsGoodSet 5 1 ((2 ∷ 3 ∷ []) ∷ []) }
    ensures no_set { ¬ IsGoodSet 5 1 [] }
    ensures empty_set { ¬ IsGoodSet 5 1 ([] ∷ []) }
    ensures two_sets { ¬ IsGoodSet 5 1 ((2 ∷ []) ∷ (3 ∷ []) ∷ []) }
    ensures depot_in_a_set { ¬ IsGoodSet 5 1 ((2 ∷ 1 ∷ []) ∷ []) }
    ensures customer_twice { ¬ IsGoodSet 5 1 ((2 ∷ 2 ∷ []) ∷ []) }
    ensures row { IsGoodRow 5 1 (given_row (2 ∷ 3 ∷ []) (4 ∷ [])) }
    ensures lone { ¬ IsGoodRow 5 1 (given_row (2 ∷ []) (3 ∷ 4 ∷ [])) }
    ensures further_depot { ¬ IsGoodRow 5 1 (given_row (2 ∷ 3 ∷ []) (1 ∷ [])) }
    ensures further_of_the_set { ¬ IsGoodRow 5 1 (given_row (2 ∷ 3 ∷ []) (2 ∷ [])) }
    ensures list { IsGoodList 5 1 ((2 ∷ 3 ∷ []) ∷ []) 0 }
    ensures list_of_another { IsGoodList 5 1 ((2 ∷ 3 ∷ []) ∷ (3 ∷ 2 ∷ []) ∷ []) 1 }
    ensures second_list { ¬ IsGoodList 5 1 ((2 ∷ 3 ∷ []) ∷ (2 ∷ 4 ∷ []) ∷ []) 1 }
    ensures depot_in_a_list { ¬ IsGoodList 5 1 ((2 ∷ 1 ∷ []) ∷ []) 0 }
    ensures owner_again { ¬ IsGoodList 5 1 ((2 ∷ 2 ∷ []) ∷ []) 0 }
{}

/// A customer keeps at most 64 customers and rows, and a leaf at most 10,000,000 states.
pub fn examples_of_full_memories()
    ensures most { FitsMemory ((2 ∷ replicate 64 3) ∷ []) [] 2 }
    ensures more { ¬ FitsMemory ((2 ∷ replicate 65 3) ∷ []) [] 2 }
    ensures most_with_a_row { FitsMemory ((2 ∷ replicate 63 3) ∷ []) (of_three ∷ []) 2 }
    ensures more_with_a_row { ¬ FitsMemory ((2 ∷ replicate 64 3) ∷ []) (of_three ∷ []) 2 }
    ensures row_of_others { FitsMemory ((5 ∷ replicate 64 3) ∷ []) (of_three ∷ []) 5 }
    ensures states { most_states ≡ 10 ^ 7 }
{}

/// How often the routes of a plan are charged for a row at most.
pub fn examples_of_halves()
    ensures three { half of_three ≡ 1 }
    ensures four { half of_four ≡ 2 }
{}

/// The three customers have potentials of -3, -5 and -4. Without a charge the least run weighs -6,
/// so the bound is 24 - 3 * 6. With a charge of 6 no run weighs less than 0, and the bound is
/// 24 - 6: the length of the shortest plan.
pub fn examples_of_run_bounds()
    ensures no_charge { RectangleHas (pos 0) (pos 6) }
    ensures small_charge { RectangleHas (pos 2) (pos 10) }
    ensures charge { RectangleHas (pos 6) (pos 18) }
{}
