//! Judges a branches file for a TSP or an ATSP: its families, then its branches, then its leaves.
//! tsp_verdict calls `judge_branches`. This order decides the reason in a report (`IsBranchVerdict`
//! in `specs/BranchVerdicts.antt`), so keep it; the estimates of whether boxes or rows are faster
//! affect only speed.

ghost use Rattle.tsp_branch.specs.Prelude.{All, IfOk, false, length, IsFoundAt, DecideOnce, decided_number, marks_in, IsOpenCase, decisions_in, good_in, lent_in};
ghost use Rattle.std.specs.Prelude.{◌≡◌, ◌≤◌, ◌<◌, ◌^◌, ◌+◌};
ghost use Rattle.tsp_format.specs.states.TreeSteps.{steps_of};
ghost use Rattle.tsp_format.specs.Words.{IsSymmetric};
ghost use Rattle.tsp_cases.specs.Families.{IsFamily};
ghost use Rattle.tsp_cases.specs.Crossings.{families_in};
ghost use Rattle.tsp_cases.specs.ListedCases.{AreGoodNumbers};
ghost use Rattle.tsp_cases.specs.JudgedLeaves.{IsFoundOfCase, IsSizedLeaf, IsSizedVerdict};
ghost use Rattle.tsp_branch.specs.states.KeptRows.{HoldsRows, IsScratch};
ghost use Rattle.tsp_branch.specs.BranchVerdicts.{IsBranchVerdict, BoundsCycles, AreJudgedLeaves};

use crate::case_leaf::CaseLeaf;
use crate::kept_rows::{LeafContext, Scratch};
use crate::leaf_numbers::judge_numbers;
use std::alloc::Global;
use tsp_cases::{
    BranchingCertificate, CheckedTree, Decision, Families, JudgedCases, JudgedFamilies, JudgedLeaf,
    LeafJudge, Multipliers, OpenCase, SetPlace, TreeVerdict, WholeTree, case_trees_bound_cycles,
    fill_moved, judge_cases, judge_families, judge_leaves, sets_by_node,
};
use tsp_io::Refused;
use tsp_theory::Costs;

/// Judges a branches file, and returns its bound or the first reason against it.
///
/// The reasons, in this order: a family that isn't good, a branch that isn't on two nodes, a branch
/// on a pair that is given or decided above it, a leaf that isn't good. The bound is at most the
/// length of every cycle that keeps the given decisions, and small enough for sums with it to fit
/// 128 bits. If no leaf has a bound, no cycle keeps the given decisions.
///
/// The bound of a leaf is that of a minimum 1-tree or, if pairs have a direction, the sum of the
/// least arcs from each node. If nodes have points, boxes rule out most pairs.
///
/// # Errors
///
/// If memory runs out. It allocates an entry for each node, each comb, each node of a set, and each
/// decision of a case. For a tree with several leaves and up to 2,000 nodes, it also tries to
/// allocate an entry for each pair, but doesn't need it.
pub fn judge_branches<C: Costs>(
    alloc: Global,
    tree: &BranchingCertificate<C>,
) -> Result<TreeVerdict, Refused>
    ensures verdict { IfOk result (IsBranchVerdict tree.now.directed (C.nodes tree.now.costs.now) (C.at tree.now.costs.now)
        tree.now.scale (families_in tree.now.families.now) tree.now.given.now (steps_of tree.now.steps.now)) }
    ensures cycles { IfOk result (BoundsCycles tree.now.directed (C.nodes tree.now.costs.now) (C.at tree.now.costs.now)
        tree.now.given.now) }
    ensures size { IfOk result IsSizedVerdict }
{
    let families = match judge_families(alloc, tree)? {
        JudgedFamilies::Good(families) => families,
        JudgedFamilies::Bad(family) => return Ok(TreeVerdict::BadFamily(family)),
    };
    let cases = match judge_cases(alloc, tree)? {
        JudgedCases::Good(cases) => cases,
        JudgedCases::BadBranch(branch) => return Ok(TreeVerdict::BadBranch(branch)),
        JudgedCases::Twice(branch) => return Ok(TreeVerdict::BranchTwice(branch)),
    };
    branch_bound(alloc, tree.costs, &families, &cases)
}

// ---- the bound of a branches file

/// The least bound of the leaves, which is at most the length of every cycle that keeps the given
/// decisions; `None` if no leaf has a bound. Or the first leaf that isn't good: one with an index
/// past those of the nodes and families, with a potential above 10^15 in size, with a negative
/// multiplier, or with multipliers that, each times the largest number of its family's sets that
/// one edge crosses, sum to more than 9 * 10^17.
///
/// The bound of a leaf is that of a minimum 1-tree or, if pairs have a direction, that of the least
/// arc from each node.
///
/// # Requires
///
/// Three or more nodes, costs that are symmetric if pairs have no direction, and families and cases
/// of these nodes.
///
/// # Errors
///
/// If memory runs out. It allocates an entry for each node, each comb, each node of a set, and each
/// decision of a case. For a tree with several leaves and up to 2,000 nodes, it also tries to
/// allocate an entry for each pair, but doesn't need it.
pub fn branch_bound<C: Costs>(
    alloc: Global,
    costs: &C,
    families: &Families,
    cases: &CheckedTree,
) -> Result<TreeVerdict, Refused>
    requires some { 3 ≤ C.nodes costs.now }
    requires even { cases.now.directed ≡ false → IsSymmetric (C.at costs.now) }
    requires families { families.now.nodes ≡ C.nodes costs.now }
    requires cases { cases.now.nodes ≡ C.nodes costs.now }
    ensures judged { IfOk result (λ judged. All (IsFamily (C.nodes costs.now)) (good_in families.now)
        → AreJudgedLeaves cases.now.directed (C.nodes costs.now) (C.at costs.now) cases.now.scale (good_in families.now)
        families.now.crossed.items cases.now.given.now (steps_of cases.now.steps.now) judged) }
    ensures cycles { IfOk result
        (BoundsCycles cases.now.directed (C.nodes costs.now) (C.at costs.now) cases.now.given.now) }
    ensures size { IfOk result IsSizedVerdict }
{
    case_trees_bound_cycles();
    let by_node = sets_by_node(alloc, families)?;
    let context = LeafContext {
        costs,
        cases,
        families,
        by_node: &by_node,
    };
    judge_context(alloc, &context)
}

/// The least of the bounds of the leaves, or the first leaf that isn't good.
///
/// # Errors
///
/// Out of memory.
fn judge_context<C: Costs>(alloc: Global, context: &LeafContext<C>) -> Result<TreeVerdict, Refused>
    ensures judged { IfOk result (λ judged. All (IsFamily (C.nodes context.now.costs.now)) (good_in context.now.families.now)
        → AreJudgedLeaves context.now.cases.now.directed (C.nodes context.now.costs.now) (C.at context.now.costs.now)
        context.now.cases.now.scale (good_in context.now.families.now) context.now.families.now.crossed.items
        context.now.cases.now.given.now (steps_of context.now.cases.now.steps.now) judged) }
    ensures size { IfOk result IsSizedVerdict }
{
    let mut room = Scratch::new(alloc, context, keeps_rows(context))?;
    let steps = WholeTree {
        places: context.cases.nodes,
        directed: context.cases.directed,
        given: context.cases.given,
        steps: context.cases.steps,
    };
    let count = context.costs.count() as usize + context.families.crossed.len();
    let judge = CycleJudge { context };
    judge_leaves(alloc, &judge, &steps, &mut room, count)
}

// ---- estimates of how long leaves take by boxes and by rows

// Times are in nanoseconds, as measured. They affect only speed, never a bound.

/// For each node, by boxes without sets. Measured on 20 leaves over 2,001 random points.
const NODE_BY_BOXES: u64 = 1_900;

/// For each comparison of two sets, by boxes. Measured on a leaf over 5,000 points in 100 nested
/// sets. A node meets several others, and each time all its sets are compared with all of theirs.
const COMPARED_SETS: u64 = 20;

/// For each pair, by kept rows. Measured on 20 leaves over 2,000 random points.
const PAIR_BY_KEPT_ROWS: u64 = 2;

/// For each pair, once, to compute the cost in a kept row. Measured on the same leaves.
const PAIR_OF_COSTS: u64 = 11;

/// For each pair, by rows that aren't kept. Measured on 20 leaves over 2,001 points in 88 sets
/// each.
const PAIR_BY_ROWS: u64 = 9;

/// Whether a tree of cases keeps rows: it does if it has several leaves, unless boxes are expected
/// to be faster for all of them.
fn keeps_rows<C: Costs>(context: &LeafContext<C>) -> bool {
    let steps = context.cases.steps.len() as u64;
    if steps <= 1 {
        return false;
    }
    if context.cases.directed || context.costs.site(1).is_none() {
        return true;
    }
    let leaves = steps / 2 + 1;
    let nodes = context.by_node.len() as u64;
    let pair = PAIR_OF_COSTS.saturating_add(PAIR_BY_KEPT_ROWS.saturating_mul(leaves));
    let boxes = NODE_BY_BOXES.saturating_mul(nodes);
    let leaf = boxes.saturating_add(time_of_comparing(context.by_node));
    pair.saturating_mul(squared(nodes)) < leaves.saturating_mul(leaf)
}

/// Whether boxes are expected to be at least as fast as rows for a leaf without kept rows, given
/// the sets by node and the sets of each family.
///
/// The time that boxes take without sets isn't counted. It exceeds that of rows only below some 200
/// nodes, where both take less than a millisecond.
pub(crate) fn prefers_boxes(by_node: &[Vec<SetPlace>], families: &[Vec<Vec<u32>>]) -> bool {
    let rows = PAIR_BY_ROWS.saturating_mul(squared(by_node.len() as u64));
    time_of_comparing(by_node) <= rows.saturating_add(steps_of_sets(families))
}

/// The time for comparing the sets of nodes, by boxes.
fn time_of_comparing(by_node: &[Vec<SetPlace>]) -> u64 {
    COMPARED_SETS.saturating_mul(compared(by_node))
}

fn squared(number: u64) -> u64 {
    number.saturating_mul(number)
}

/// The number of comparisons if the sets of each node are compared with as many others.
fn compared(by_node: &[Vec<SetPlace>]) -> u64 {
    let mut steps: u64 = 0;
    'nodes: for places in by_node {
        steps = steps.saturating_add(squared(places.len() as u64));
    }
    steps
}

/// The number of steps, of a nanosecond each, in which the sets of all nodes are added to rows.
fn steps_of_sets(families: &[Vec<Vec<u32>>]) -> u64 {
    let mut steps: u64 = 0;
    'families: for sets in families {
        steps = steps.saturating_add(steps_of_family(sets));
    }
    steps
}

/// The number of steps in which the sets of a family are added to rows.
fn steps_of_family(sets: &[Vec<u32>]) -> u64 {
    let mut steps: u64 = 0;
    'sets: for set in sets {
        steps = steps.saturating_add(squared(set.len() as u64));
    }
    steps
}

// ---- the judge of the leaves of a certificate for tours

/// The judge of the leaves for tours: by minimum 1-trees, or by least arcs if pairs have a
/// direction.
#[derive(Drop)]
pub(crate) struct CycleJudge<'a, C: Costs> {
    pub(crate) context: &'a LeafContext<'a, C>,
}

impl<C: Costs> LeafJudge for CycleJudge<'_, C> {
    ghost use Rattle.tsp_branch.specs.Prelude.{length, DecideOnce, decided_number, IsFoundAt, lent_in, good_in, marks_in};
    ghost use Rattle.tsp_cases.specs.ListedCases.{AreGoodNumbers};
    ghost use Rattle.tsp_branch.specs.states.KeptRows.{HoldsRows, IsScratch};

    type Memory = Scratch;

    ghost nodes = { λ judge. C.nodes judge.context.now.costs.now };

    ghost family_count = { λ judge. length judge.context.now.families.now.crossed.items };

    ghost places = { λ judge. C.nodes judge.context.now.costs.now };

    ghost directed = { λ judge. judge.context.now.cases.now.directed };

    ghost fits = { λ judge case. DecideOnce judge.context.now.cases.now.directed case };

    ghost good = { λ judge numbers. AreGoodNumbers (C.nodes judge.context.now.costs.now)
        judge.context.now.families.now.crossed.items numbers };

    ghost found = { λ judge. IsFoundAt judge.context.now.cases.now.directed (C.nodes judge.context.now.costs.now)
        (C.at judge.context.now.costs.now) judge.context.now.cases.now.scale decided_number
        (good_in judge.context.now.families.now) };

    ghost holds = { λ judge room case. IsScratch (C.nodes judge.context.now.costs.now)
        (length judge.context.now.families.now.crossed.items) room
        × HoldsRows (C.nodes judge.context.now.costs.now) (length judge.context.now.families.now.crossed.items)
        judge.context.now.cases.now.scale (lent_in judge.context.now.families.now) (C.at judge.context.now.costs.now)
        (marks_in judge.context.now.cases.now.directed case) room.kept };

    fn enter(&self, memory: &mut Scratch, decision: Decision) {
        memory.kept.mark(self.context.cases.directed, decision);
    }

    fn leave(&self, memory: &mut Scratch, stack: &[Decision]) {
        memory.kept.leave(self.context.cases.directed, stack);
    }

    fn judge(
        &self,
        alloc: Global,
        case: &OpenCase,
        numbers: &[i128],
        memory: &mut Scratch,
    ) -> Result<JudgedLeaf, Refused> {
        // Reborrowed: the leaf borrows the case, which changes before the next leaf.
        judge_tour_leaf(alloc, &*self.context, case, numbers, memory)
    }
}

/// The bound of the leaf with these numbers, if they are good.
///
/// # Errors
///
/// Out of memory.
fn judge_tour_leaf<C: Costs>(
    alloc: Global,
    context: &LeafContext<C>,
    case: &OpenCase,
    numbers: &[i128],
    room: &mut Scratch,
) -> Result<JudgedLeaf, Refused>
    requires case { IsOpenCase (C.nodes context.now.costs.now) case.now }
    requires direction { case.now.by_node.directed ≡ context.now.cases.now.directed }
    requires once { DecideOnce context.now.cases.now.directed (decisions_in case.now) }
    requires few { length (decisions_in case.now) < 2 ^ 33 }
    requires numbers { length numbers.now
        ≡ C.nodes context.now.costs.now + length context.now.families.now.crossed.items }
    requires room { IsScratch (C.nodes context.now.costs.now)
        (length context.now.families.now.crossed.items) room.old }
    requires kept { HoldsRows (C.nodes context.now.costs.now)
        (length context.now.families.now.crossed.items) context.now.cases.now.scale
        (lent_in context.now.families.now) (C.at context.now.costs.now)
        (marks_in context.now.cases.now.directed (decisions_in case.now)) room.old.kept }
    ensures judged { IfOk result (IsFoundOfCase (IsFoundAt context.now.cases.now.directed
        (C.nodes context.now.costs.now) (C.at context.now.costs.now)
        context.now.cases.now.scale decided_number (good_in context.now.families.now))
        (AreGoodNumbers (C.nodes context.now.costs.now) context.now.families.now.crossed.items)
        (C.nodes context.now.costs.now) (decisions_in case.now) numbers.now) }
    ensures room { IfOk result (λ own. IsScratch (C.nodes context.now.costs.now)
        (length context.now.families.now.crossed.items) room.new) }
    ensures kept { IfOk result (λ own. HoldsRows (C.nodes context.now.costs.now)
        (length context.now.families.now.crossed.items) context.now.cases.now.scale
        (lent_in context.now.families.now) (C.at context.now.costs.now)
        (marks_in context.now.cases.now.directed (decisions_in case.now)) room.new.kept) }
    ensures size { IfOk result IsSizedLeaf }
{
    if !judge_numbers(
        numbers,
        context.families,
        &mut room.potentials,
        &mut room.multipliers,
    ) {
        return Ok(JudgedLeaf::Bad);
    }
    let multipliers = Multipliers {
        families: context.families,
        numbers: &room.multipliers,
    };
    room.kept.bring_to(&multipliers, context.by_node);
    fill_moved(&mut room.moved, &room.potentials, &room.kept.ends);
    let leaf = CaseLeaf {
        context: &*context,
        case,
        potentials: &room.potentials,
        multipliers: &room.multipliers,
        moved: &room.moved,
        kept: &room.kept.rows,
    };
    let bound = leaf.bound(alloc, &mut room.row)?;
    Ok(JudgedLeaf::Found(bound))
}
