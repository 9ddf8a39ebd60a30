//! The theorems on branching: each cycle is at a leaf, crosses families as often as their numbers
//! say, and is no shorter than the bound of a leaf or of a tree of cases. tsp_branch and
//! tsp_verdict call `case_trees_bound_cycles`. docs/proof.md ("Families", "Cases", "Arcs") has the
//! arguments.

ghost use Rattle.tsp_cases.specs.CaseTrees.{CaseTreesBoundCycles, CaseTreesBoundTours, NoBoundNoTour, CaseTreeBoundsAreUnique, LeafBoundsBoundCycles, UncombedBoundsAreAdjustedBounds, RowLeafBoundsBoundCycles, LinksAreAllowed, NoLinkNoCycle, SumsAreBelowCycles};
ghost use Rattle.tsp_cases.specs.Cases.{CyclesKeepLeaves, StacksBegin, StacksBranch, StacksHoldCases, DecidedBoundsBoundCycles, FixedBoundsBoundTours};
ghost use Rattle.tsp_cases.specs.Families.{CyclesCrossCombs, CyclesCrossFamilies, NumbersAreUnique};
ghost use Rattle.tsp_cases.specs.Crossings.{MembershipsTellSets, PartsBoundCycles, PartsTellCycles, DivisionsBoundCycles, LeastLengthsAreUnique, MostCostsAreUnique, UnlikeNodesNeedParts};
ghost use Rattle.tsp_cases.specs.states.Sets.{SetsTellCombs, SetsGiveLeaves};

use tsp_theory::{
    adjusted_bounds_bound_cycles, cycles_are_permutations, cycles_have_no_loops, lengths_add_up,
};

/// The bound of potentials and decisions is at most the length of every cycle that keeps the
/// decisions.
///
/// No code calls it. It is here for readers: any number on the decided pairs gives a bound.
pub fn decided_bounds_bound_cycles()
    ensures { DecidedBoundsBoundCycles }
{
    adjusted_bounds_bound_cycles();
}

/// The bound of potentials and of numbers on fixed pairs is at most the length of every tour.
///
/// No code calls it. It is here for readers: any multipliers of fixed edges give a bound.
pub fn fixed_bounds_bound_tours()
    ensures { FixedBoundsBoundTours }
{
    adjusted_bounds_bound_cycles();
}

/// Each cycle crosses a comb of k teeth at least 3k + 1 times.
pub fn cycles_cross_combs()
    ensures { CyclesCrossCombs }
{
    cycles_are_permutations();
    lengths_add_up();
    cycles_have_no_loops();
}

/// Each cycle crosses a family at least as often as its number says: a lone set twice, and a comb
/// of k teeth 3k + 1 times.
pub fn cycles_cross_families()
    ensures { CyclesCrossFamilies }
{
    cycles_are_permutations();
    lengths_add_up();
    cycles_have_no_loops();
    cycles_cross_combs();
}

/// The bound of potentials, of numbers on pairs and of families is at most the length of every
/// cycle that uses each taken pair and no avoided one. With no family it is the bound of
/// tsp_theory.
pub fn leaf_bounds_bound_cycles()
    ensures cycles { LeafBoundsBoundCycles }
    ensures uncombed { UncombedBoundsAreAdjustedBounds }
{
    cycles_are_permutations();
    lengths_add_up();
    cycles_have_no_loops();
    cycles_cross_families();
}

/// The decisions that a cycle keeps allow each of its links. So if some node has no allowed link,
/// no cycle keeps the decisions.
pub fn links_are_allowed()
    ensures links { LinksAreAllowed }
    ensures none { NoLinkNoCycle }
{
    cycles_are_permutations();
    lengths_add_up();
    cycles_have_no_loops();
}

/// The sum over all nodes of the least weight of an allowed link is at most the weight of any cycle
/// that keeps the decisions.
pub fn sums_are_below_cycles()
    ensures { SumsAreBelowCycles }
{
    cycles_are_permutations();
    lengths_add_up();
    cycles_have_no_loops();
    links_are_allowed();
}

/// The bound of a leaf by rows is at most the length of every cycle that keeps its decisions, for
/// any costs.
pub fn row_leaf_bounds_bound_cycles()
    ensures { RowLeafBoundsBoundCycles }
{
    cycles_are_permutations();
    lengths_add_up();
    cycles_have_no_loops();
    cycles_cross_families();
    sums_are_below_cycles();
}

/// Each cycle that keeps the given decisions keeps those of a leaf.
///
/// No code calls it. It is here for readers: the leaves of a tree of cases miss no cycle.
pub fn cycles_keep_leaves()
    ensures { CyclesKeepLeaves }
{}

/// A stack of decisions stands for the open cases: the given one at first, after a branch two in
/// place of the first, and after a leaf all but the first.
///
/// No code calls it. It is here for readers: one stack of decisions is enough for all open cases.
pub fn stacks_hold_cases()
    ensures start { StacksBegin }
    ensures branch { StacksBranch }
    ensures leaf { StacksHoldCases }
{}

/// The bound of a certificate is at most the length of every cycle that keeps the given decisions,
/// and of every tour if the fixed pairs are given. If no leaf has a bound, there is no such cycle
/// or tour.
pub fn case_trees_bound_cycles()
    ensures cycles { CaseTreesBoundCycles }
    ensures tours { CaseTreesBoundTours }
    ensures none { NoBoundNoTour }
{
    leaf_bounds_bound_cycles();
    row_leaf_bounds_bound_cycles();
    links_are_allowed();
}

/// A certificate has one bound, or none, whichever minimum 1-trees are found.
pub fn case_tree_bounds_are_unique()
    ensures { CaseTreeBoundsAreUnique }
{}

/// The two numbers of a family, its crossings, are unique.
pub fn numbers_are_unique()
    ensures { NumbersAreUnique }
{
    least_lengths_are_unique();
    most_costs_are_unique();
}

/// Code that goes through the sets of families finds what an edge crosses, and the weights of a
/// leaf.
pub fn sets_tell_combs()
    ensures combs { SetsTellCombs }
    ensures leaves { SetsGiveLeaves }
{}

/// Every cycle crosses sets at least as often as the best cyclic order of their parts.
///
/// No code calls it. It is here for readers: this is the half of [`parts_tell_cycles`] that a bound
/// needs.
pub fn parts_bound_cycles()
    ensures { PartsBoundCycles }
{}

/// Every cycle crosses sets at least as often as the best cyclic order of their parts, and some
/// cycle crosses them no more often.
pub fn parts_tell_cycles()
    ensures { PartsTellCycles }
{}

/// Every cycle crosses sets at least as often as the best cyclic order of any parts whose nodes are
/// in the same sets.
///
/// No code calls it. It is here for readers: parts finer than those of the sets give a bound, too.
pub fn divisions_bound_cycles()
    ensures { DivisionsBoundCycles }
{}

/// The least length of a cycle is unique.
pub fn least_lengths_are_unique()
    ensures { LeastLengthsAreUnique }
{}

/// The greatest cost is unique.
pub fn most_costs_are_unique()
    ensures { MostCostsAreUnique }
{}

/// If no two of some nodes are in the same sets, there are at least as many parts as nodes.
pub fn unlike_nodes_need_parts()
    ensures { UnlikeNodesNeedParts }
{}

/// Two nodes have one membership exactly if they are in the same sets.
///
/// No code calls it. It is here for readers: the numbers by which code finds parts do tell parts
/// apart.
pub fn memberships_tell_sets()
    ensures { MembershipsTellSets }
{}
