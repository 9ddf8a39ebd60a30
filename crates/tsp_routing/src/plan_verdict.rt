//! Judges a branches file for routes: its families and memories, then its branches, then its
//! leaves. tsp_verdict calls `judge_plans`. This order decides the reason in a report, so keep it
//! (`IsPlanVerdict` in `specs/RunVerdicts.antt`).

ghost use Rattle.tsp_routing.specs.Prelude.{All, true, [], length, nat_abs, IfOk, map, ℕ, ℤ, families_with, family_with, families_in, AreSetsOf, lists_of, are_whole, IsStepOf, lent_in};
ghost use Rattle.std.specs.Prelude.{◌≡◌, ◌≤◌, ◌<◌, ◌+◌, ◌*◌, ◌^◌};
ghost use Rattle.tsp_format.specs.states.TreeSteps.{steps_of, subset_row_of};
ghost use Rattle.tsp_cases.specs.Crossings.{AreFamiliesOf};
ghost use Rattle.tsp_cases.specs.JudgedLeaves.{AreJudgedBy, IsFoundOfCase, IsSizedLeaf, IsSizedVerdict};
ghost use Rattle.tsp_cases.specs.states.GoodFamilies.{AreUnmarked, AddsNoOther};
ghost use Rattle.tsp_cases.specs.states.OpenCases.{IsOpenCase, decisions_in};
ghost use Rattle.tsp_routing.specs.PlanLinks.{IsCutFamily};
ghost use Rattle.tsp_routing.specs.PlanVerdicts.{ArePlanNumbers, AreCapacityCuts, IsGoodSet, routing_with};
ghost use Rattle.tsp_routing.specs.PlanBounds.{most_capacity_in_parts};
ghost use Rattle.tsp_routing.specs.RunTrees.{IsGoodMemory};
ghost use Rattle.tsp_routing.specs.RunVerdicts.{is_by_runs, IsPlanVerdict, VerdictBoundsPlans};
ghost use Rattle.tsp_routing.specs.states.Demands.{loads_problem, AreDemands};
ghost use Rattle.tsp_routing.specs.states.Judged.{AreCutsJudged, AreCutNumbers, IsFewCrossed, IsFoundOfFew, IsLeafVerdict, IsPlanScratch};
ghost use Rattle.tsp_routing.specs.states.JudgedMemory.{IsNearTable};
ghost use Rattle.tsp_routing.specs.states.RunTables.{item_lists};

use crate::demands::{Demands, unit_loads};
use crate::judged_memory::{JudgedMemory, judge_memory};
use crate::laws::{plan_trees_bound_plans, run_trees_bound_plans};
use crate::plan_leaf::{PlanLeaf, judge_plan_numbers, moved_of, plan_leaf_bound};
use crate::plan_tree::{PlanContext, PlanTree};
use crate::run_verdict::run_leaf_verdict;
use std::alloc::Global;
use tsp_cases::{
    Crossings, Decision, Families, JudgedLeaf, LeafJudge, OpenCase, TreeVerdict, WholeTree,
    first_bad_branch, judge_leaves, mark_nodes, sets_by_node,
};
use tsp_format::{RowSets, TreeStep};
use tsp_io::{Refused, filled, push};
use tsp_theory::Costs;

/// The most entries of a table by node and load.
pub(crate) const MOST_ENTRIES: u128 = 10_000_000;

/// Judges a branches file for routes: returns its bound, or the first reason against it.
///
/// The reasons, in this order: a family that isn't a single set of customers, a bad list of what a
/// customer remembers, a bad subset row, a customer that keeps too much, a branch that isn't on a
/// family, a bad leaf, too many loads, a leaf with too many kept states. The bound is at most the
/// length of every plan without empty routes, and sums with it fit 128 bits. If no leaf has a
/// bound, there is no such plan.
///
/// # Errors
///
/// If memory runs out. It allocates an entry for each node, each family, each decision of a case,
/// each pair of up to 5,000 nodes, and each node and load; with lists or rows, also for each step,
/// each node and row, and each kept state of a leaf.
pub fn judge_plans<C: Costs>(alloc: Global, tree: &PlanTree<C>) -> Result<TreeVerdict, Refused>
    ensures verdict { IfOk result (IsPlanVerdict (routing_with (C.nodes tree.now.costs.now) (C.at tree.now.costs.now)
        tree.now.depot tree.now.demands.now tree.now.capacity) tree.now.scale (nat_abs tree.now.unit)
        (families_in tree.now.families.now) (item_lists tree.now.near.now) (map subset_row_of tree.now.rows.now)
        (steps_of tree.now.steps.now)) }
    ensures plans { IfOk result (VerdictBoundsPlans (routing_with (C.nodes tree.now.costs.now) (C.at tree.now.costs.now)
        tree.now.depot tree.now.demands.now tree.now.capacity)) }
    ensures size { IfOk result IsSizedVerdict }
{
    plan_trees_bound_plans();
    run_trees_bound_plans();
    judged_plans(alloc, tree)
}

/// [`judge_plans`] without the laws by which it promises that the bound holds for plans.
///
/// # Errors
///
/// Out of memory.
fn judged_plans<C: Costs>(alloc: Global, tree: &PlanTree<C>) -> Result<TreeVerdict, Refused>
    ensures verdict { IfOk result (IsPlanVerdict (routing_with (C.nodes tree.now.costs.now) (C.at tree.now.costs.now)
        tree.now.depot tree.now.demands.now tree.now.capacity) tree.now.scale (nat_abs tree.now.unit)
        (families_in tree.now.families.now) (item_lists tree.now.near.now) (map subset_row_of tree.now.rows.now)
        (steps_of tree.now.steps.now)) }
    ensures size { IfOk result IsSizedVerdict }
{
    let demands = Demands {
        nodes: tree.costs.count(),
        depot: tree.depot,
        demands: tree.demands,
        capacity: tree.capacity,
    };
    let (families, crossed) = match judge_cuts(alloc, &demands, tree.families)? {
        JudgedCuts::Good(families, crossed) => (families, crossed),
        JudgedCuts::Bad(family) => return Ok(TreeVerdict::BadFamily(family)),
    };
    let near = match judge_memory(alloc, &demands, tree.near, tree.rows)? {
        JudgedMemory::Good(near) => near,
        JudgedMemory::BadMemory(customer) => return Ok(TreeVerdict::BadMemory(customer)),
        JudgedMemory::BadRow(row) => return Ok(TreeVerdict::BadRow(row)),
    };
    tree_verdict(alloc, tree, demands, &families, &crossed, &near)
}

/// The verdict on branches and leaves, if families, memories and rows are good.
///
/// # Errors
///
/// Out of memory.
fn tree_verdict<C: Costs>(
    alloc: Global,
    tree: &PlanTree<C>,
    demands: Demands,
    families: &Families,
    crossed: &[Crossings],
    near: &[Vec<u32>],
) -> Result<TreeVerdict, Refused>
    requires demands { AreDemands demands }
    requires same { C.nodes tree.now.costs.now ≡ demands.nodes }
    requires own { families.now.nodes ≡ demands.nodes }
    requires lent { families.now.lent.now ≡ tree.now.families.now }
    requires few { All IsFewCrossed crossed.now }
    requires cuts { AreCapacityCuts (loads_problem demands (C.at tree.now.costs.now)) (families_in tree.now.families.now) crossed.now }
    requires memory { IsGoodMemory demands.nodes demands.depot (item_lists tree.now.near.now) (map subset_row_of tree.now.rows.now) }
    requires near { IsNearTable demands.nodes (item_lists tree.now.near.now) near.now }
    ensures verdict { IfOk result (IsPlanVerdict (loads_problem demands.entry (C.at tree.now.costs.now)) tree.now.scale
        (nat_abs tree.now.unit) (families_in tree.now.families.now) (item_lists tree.now.near.now)
        (map subset_row_of tree.now.rows.now) (steps_of tree.now.steps.now)) }
    ensures size { IfOk result IsSizedVerdict }
{
    let nodes = demands.nodes;
    let last = nodes + tree.families.len() as u32;
    if let Some(branch) = first_bad_branch(tree.steps, nodes + 1, last) {
        return Ok(TreeVerdict::BadBranch(branch));
    }
    let by_node = sets_by_node(alloc, families)?;
    let unit = tree.unit as u64;
    let units = unit_loads(alloc, &demands, unit)?;
    let context = &PlanContext {
        costs: tree.costs,
        demands,
        scale: tree.scale,
        families,
        crossed,
        by_node: &by_node,
        unit,
        units: &units,
    };
    if is_by_runs(tree.near, tree.rows) {
        return run_leaf_verdict(alloc, context, tree, near);
    }
    leaf_verdict(alloc, context, tree.steps)
}

/// Whether a certificate lists a memory or a subset row.
fn is_by_runs(near: &[Vec<u32>], rows: &[RowSets]) -> bool
    ensures { result ≡ is_by_runs (item_lists near.now) (map subset_row_of rows.now) }
{
    !near.is_empty() || !rows.is_empty()
}

/// The verdict on leaves, if families and branches are good.
///
/// # Errors
///
/// Out of memory.
fn leaf_verdict<C: Costs>(
    alloc: Global,
    context: &PlanContext<C>,
    steps: &[TreeStep],
) -> Result<TreeVerdict, Refused>
    requires few { length steps.now < 2 ^ 32 }
    requires steps { ∥ All (IsStepOf (context.now.demands.nodes + length context.now.crossed.now)) (steps_of steps.now) ∥₁ }
    requires whole { are_whole 1 (steps_of steps.now) ≡ true }
    ensures verdict { IfOk result (IsLeafVerdict (loads_problem context.now.demands (C.at context.now.costs.now))
        context.now.scale context.now.unit context.now.units.now.light (length context.now.crossed.now)
        (families_with context.now.crossed.now (lent_in context.now.families.now)) (steps_of steps.now)) }
    ensures size { IfOk result IsSizedVerdict }
{
    let few = entries(context.demands.nodes, context.units.room) <= MOST_ENTRIES;
    let judged = judge_all(alloc, context, few, steps)?;
    match judged {
        TreeVerdict::Bound(found) => {
            if few {
                return Ok(TreeVerdict::Bound(found));
            }
            Ok(TreeVerdict::TooManyLoads)
        }
        fault => Ok(fault),
    }
}

/// How many entries a table by node and load has, up to the capacity of a route.
pub(crate) fn entries(nodes: u32, room: u64) -> u128
    ensures { result ≡ nodes * (room + 1) }
{
    u128::from(nodes) * (u128::from(room) + 1)
}

/// The least bound of a leaf, or the first bad leaf.
///
/// # Errors
///
/// Out of memory.
fn judge_all<C: Costs>(
    alloc: Global,
    context: &PlanContext<C>,
    few: bool,
    steps: &[TreeStep],
) -> Result<TreeVerdict, Refused>
    requires room { few ≡ true → context.now.units.now.room ≤ most_capacity_in_parts }
    requires few { length steps.now < 2 ^ 32 }
    requires steps { ∥ All (IsStepOf (context.now.demands.nodes + length context.now.crossed.now)) (steps_of steps.now) ∥₁ }
    requires whole { are_whole 1 (steps_of steps.now) ≡ true }
    ensures judged { IfOk result (AreJudgedBy (IsFoundOfFew few
        (loads_problem context.now.demands (C.at context.now.costs.now)) context.now.scale
        context.now.unit context.now.units.now.light
        (families_with context.now.crossed.now (lent_in context.now.families.now)))
        (ArePlanNumbers context.now.demands.nodes (length context.now.crossed.now))
        context.now.demands.nodes (length context.now.crossed.now) [] (steps_of steps.now)) }
    ensures size { IfOk result IsSizedVerdict }
{
    let nodes = context.demands.nodes as usize;
    let family_count = context.crossed.len();
    let mut room = PlanScratch {
        potentials: filled(alloc, 0, nodes)?,
        multipliers: filled(alloc, 0, family_count)?,
        row: filled(alloc, 0, nodes + 1)?,
    };
    let tree = WholeTree {
        places: context.demands.nodes + family_count as u32,
        directed: true,
        given: &[],
        steps,
    };
    let judge = PlanJudge { context, few };
    judge_leaves(alloc, &judge, &tree, &mut room, nodes + family_count)
}

// ---- judges the families of a certificate for routes

/// The judgement on the families of a certificate for routes: all of them, or the first bad one.
#[derive(Drop)]
pub(crate) enum JudgedCuts<'a> {
    /// Each family is one set of customers: the families, and the least number of times that a plan
    /// crosses each.
    Good(Families<'a>, Vec<Crossings>),
    /// The first other family, counted from 1.
    Bad(usize),
}

/// The families, or the first one, counted from 1, that isn't a single set of customers without
/// repetition.
///
/// # Errors
///
/// If memory runs out. It allocates an entry for each node and for each family.
fn judge_cuts<'a>(
    alloc: Global,
    demands: &Demands,
    lent: &'a [Vec<Vec<u32>>],
) -> Result<JudgedCuts<'a>, Refused>
    requires demands { AreDemands demands.now }
    requires few { length lent.now ≤ 10000 }
    requires inside { AreFamiliesOf demands.now.nodes lent.now }
    ensures { IfOk result (AreCutsJudged demands.now lent.now) }
{
    let mut marks = filled(alloc, 0, demands.nodes as usize + 1)?;
    let mut crossed = Vec::new(alloc);
    'families: for number in 0..lent.len() {
        // Marks count from 1, because 0 means no mark.
        let found = cut_crossings(demands, &mut marks, number as u32 + 1, &lent[number]);
        let Some(own) = found else {
            return Ok(JudgedCuts::Bad(number + 1));
        };
        push(&mut crossed, own)?;
    }
    // `Families` requires numbers that hold for cycles. Those for plans are in `crossed`.
    let known = filled(alloc, Crossings { least: 2, most: 3 }, lent.len())?;
    let families = Families {
        nodes: demands.nodes,
        lent,
        crossed: known,
    };
    Ok(JudgedCuts::Good(families, crossed))
}

/// The least number of times that a plan crosses these sets, if they are a single set of customers
/// without repetition: twice for each route that the set needs. `None` if they aren't.
fn cut_crossings(
    demands: &Demands,
    marks: &mut [u32],
    mark: u32,
    sets: &[Vec<u32>],
) -> Option<Crossings>
    requires demands { AreDemands demands.now }
    requires inside { AreSetsOf demands.now.nodes sets.now }
    requires places { length marks.old ≡ demands.now.nodes + 1 }
    requires fresh { AreUnmarked marks.old mark }
    ensures found { AreCutNumbers demands.now (lists_of sets.now) result }
    ensures others { AddsNoOther mark marks.old marks.new }
    ensures length { length marks.new ≡ length marks.old }
{
    if sets.len() != 1 {
        return None;
    }
    let customers = sets[0].as_slice();
    if customers.is_empty() {
        return None;
    }
    if !mark_nodes(marks, mark, customers) {
        return None;
    }
    if marks[demands.depot as usize] == mark {
        return None;
    }
    Some(Crossings {
        least: 2 * u64::from(demands.need(customers)),
        most: 1,
    })
}

// ---- the judge of the leaves of a certificate for routes

/// The numbers of a leaf, and a row, which the next leaf overwrites.
#[derive(Drop)]
pub(crate) struct PlanScratch {
    pub(crate) potentials: Vec<i64>,
    pub(crate) multipliers: Vec<i64>,
    pub(crate) row: Vec<i64>,
}

/// Judges leaves by least q-routes if there are `few` loads; otherwise only finds the first bad
/// leaf.
#[derive(Drop)]
pub(crate) struct PlanJudge<'a, C: Costs> {
    pub(crate) context: &'a PlanContext<'a, C>,
    pub(crate) few: bool,
    ghost room: { few ≡ true → context.now.units.now.room ≤ most_capacity_in_parts },
}

impl<C: Costs> LeafJudge for PlanJudge<'_, C> {
    ghost use Rattle.tsp_routing.specs.Prelude.{true, length, families_with, lent_in};
    ghost use Rattle.std.specs.Prelude.{◌+◌};
    ghost use Rattle.tsp_routing.specs.PlanVerdicts.{ArePlanNumbers};
    ghost use Rattle.tsp_routing.specs.states.Demands.{loads_problem};
    ghost use Rattle.tsp_routing.specs.states.Judged.{IsPlanScratch, IsFoundOfFew};

    type Memory = PlanScratch;

    ghost nodes = { λ judge. judge.context.now.demands.nodes };

    ghost family_count = { λ judge. length judge.context.now.crossed.now };

    ghost places = { λ judge. judge.context.now.demands.nodes + length judge.context.now.crossed.now };

    ghost directed = { λ judge. true };

    ghost fits = { λ judge case. Unit {0} };

    ghost good = { λ judge numbers. ArePlanNumbers judge.context.now.demands.nodes (length judge.context.now.crossed.now)
        numbers };

    ghost found = { λ judge. IsFoundOfFew judge.few
        (loads_problem judge.context.now.demands (C.at judge.context.now.costs.now)) judge.context.now.scale
        judge.context.now.unit judge.context.now.units.now.light
        (families_with judge.context.now.crossed.now (lent_in judge.context.now.families.now)) };

    ghost holds = { λ judge room case. IsPlanScratch judge.context.now.demands.nodes
        (length judge.context.now.crossed.now) room };

    fn enter(&self, memory: &mut PlanScratch, decision: Decision) {}

    fn leave(&self, memory: &mut PlanScratch, stack: &[Decision]) {}

    fn judge(
        &self,
        alloc: Global,
        case: &OpenCase,
        numbers: &[i128],
        memory: &mut PlanScratch,
    ) -> Result<JudgedLeaf, Refused> {
        // Reborrowed: the leaf borrows the case, which changes before the next leaf.
        judge_plan_leaf(alloc, &*self.context, self.few, case, numbers, memory)
    }
}

/// The bound of the leaf with these numbers, if they are good and there are few loads.
///
/// # Errors
///
/// Out of memory.
fn judge_plan_leaf<C: Costs>(
    alloc: Global,
    context: &PlanContext<C>,
    few: bool,
    case: &OpenCase,
    numbers: &[i128],
    room: &mut PlanScratch,
) -> Result<JudgedLeaf, Refused>
    requires few { few ≡ true → context.now.units.now.room ≤ most_capacity_in_parts }
    requires case { IsOpenCase (context.now.demands.nodes + length context.now.crossed.now) case.now }
    requires direction { case.now.by_node.directed ≡ true }
    requires numbers { length numbers.now ≡ context.now.demands.nodes + length context.now.crossed.now }
    requires room { IsPlanScratch context.now.demands.nodes (length context.now.crossed.now) room.old }
    ensures judged { IfOk result (IsFoundOfCase (IsFoundOfFew few
        (loads_problem context.now.demands (C.at context.now.costs.now)) context.now.scale
        context.now.unit context.now.units.now.light
        (families_with context.now.crossed.now (lent_in context.now.families.now)))
        (ArePlanNumbers context.now.demands.nodes (length context.now.crossed.now))
        context.now.demands.nodes (decisions_in case.now) numbers.now) }
    ensures room { IfOk result (λ own. IsPlanScratch context.now.demands.nodes (length context.now.crossed.now) room.new) }
    ensures size { IfOk result IsSizedLeaf }
{
    if !judge_plan_numbers(numbers, &mut room.potentials, &mut room.multipliers) {
        return Ok(JudgedLeaf::Bad);
    }
    if !few {
        return Ok(JudgedLeaf::Found(None));
    }
    let moved = moved_of(alloc, context, &room.potentials, &room.multipliers)?;
    let leaf = PlanLeaf {
        context: &*context,
        potentials: &room.potentials,
        multipliers: &room.multipliers,
        moved: &moved,
    };
    let bound = plan_leaf_bound(alloc, &leaf, case, &mut room.row)?;
    Ok(JudgedLeaf::Found(bound))
}
