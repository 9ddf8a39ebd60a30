//! The verdict on the leaves of a certificate for routes that lists memories or subset rows.
//! `plan_verdict.rt` comes here once families, memories and branches are good. The numbers of all
//! leaves are judged before any bound, in two passes over the tree, each with its own `LeafJudge`
//! of tsp_cases. This order decides the reason in the report, so keep it
//! (`specs/RunVerdicts.antt`).

ghost use Rattle.std.specs.Prelude.{◌≡◌, ◌<◌, ◌≤◌, ◌+◌, ◌^◌, ◌∷◌, ◌↔◌, ◌≤ℤ◌};
ghost use Rattle.tsp_format.specs.states.TreeSteps.{steps_of, subset_row_of, step_of};
ghost use Rattle.tsp_cases.specs.JudgedLeaves.{AreJudgedBy, IsSizedVerdict, IsFoundOfCase, IsSizedLeaf};
ghost use Rattle.tsp_cases.specs.states.OpenCases.{IsOpenCase, decisions_in};
ghost use Rattle.tsp_routing.specs.PlanBounds.{most_capacity_in_parts};
ghost use Rattle.tsp_routing.specs.Prelude.{All, [], ℕ, length, true, map, IfOk, are_whole, IsStepOf, lent_in, ℤ, List, take, most_nodes, pos, IsTrue, drop, as_leaf_numbers};
ghost use Rattle.tsp_routing.specs.RunTrees.{IsGoodMemory, AreRunNumbers, placed_steps, number_place, placed_changes, step_with_places, AreFewNumbers, IsFoundByRuns};
ghost use Rattle.tsp_routing.specs.states.JudgedMemory.{IsNearTable};
ghost use Rattle.tsp_routing.specs.states.RunJudged.{IsSmallRow, IsRunScratch, tree_in, AreRunsJudged, IsRunLeafVerdict, AreTablesFor};
ghost use Rattle.tsp_routing.specs.states.RunTables.{item_lists};

use crate::memories::{Memories, memories_of};
use crate::plan_leaf::{PlanLeaf, judge_plan_numbers, moved_of};
use crate::plan_tree::{PlanContext, PlanTree};
use crate::plan_verdict::{MOST_ENTRIES, entries};
use crate::run_bound::{PricedRows, leaf_run_bound};
use std::alloc::Global;
use tsp_cases::{Decision, JudgedLeaf, LeafJudge, OpenCase, TreeVerdict, WholeTree, judge_leaves};
use tsp_format::TreeStep;
use tsp_io::{Refused, filled, push};
use tsp_theory::Costs;

/// The verdict on leaves, if families, memories, rows and branches are good. `near` is what each
/// node remembers, at the node's place.
///
/// # Errors
///
/// Out of memory.
pub(crate) fn run_leaf_verdict<C: Costs>(
    alloc: Global,
    context: &PlanContext<C>,
    tree: &PlanTree<C>,
    near: &[Vec<u32>],
) -> Result<TreeVerdict, Refused>
    requires memory { IsGoodMemory context.now.demands.nodes context.now.demands.depot (item_lists tree.now.near.now)
        (map subset_row_of tree.now.rows.now) }
    requires near { IsNearTable context.now.demands.nodes (item_lists tree.now.near.now) near.now }
    requires steps { ∥ All (IsStepOf (context.now.demands.nodes + length context.now.crossed.now)) (steps_of tree.now.steps.now) ∥₁ }
    ensures verdict { IfOk result (IsRunLeafVerdict (tree_in context.now.demands (C.at context.now.costs.now) context.now.scale
        context.now.unit context.now.units.now.light context.now.crossed.now (lent_in context.now.families.now)
        tree.now.near.now tree.now.rows.now) (steps_of tree.now.steps.now)) }
    ensures size { IfOk result IsSizedVerdict }
{
    let families = context.crossed.len() as u32;
    let steps = placed_steps(alloc, context.demands.nodes, families, tree.steps)?;
    let numbers = judge_all_numbers(alloc, context, tree, &steps)?;
    if let TreeVerdict::BadLeaf(leaf) = numbers {
        return Ok(TreeVerdict::BadLeaf(leaf));
    }
    if entries(context.demands.nodes, context.units.room) > MOST_ENTRIES {
        return Ok(TreeVerdict::TooManyLoads);
    }
    judge_all_runs(alloc, context, tree, near, &steps)
}

/// The first leaf whose numbers are bad, or no bound. The steps contain places of numbers.
///
/// # Errors
///
/// Out of memory.
fn judge_all_numbers<C: Costs>(
    alloc: Global,
    context: &PlanContext<C>,
    tree: &PlanTree<C>,
    steps: &[TreeStep],
) -> Result<TreeVerdict, Refused>
    requires few { length steps.now < 2 ^ 32 }
    requires steps { ∥ All (IsStepOf (context.now.demands.nodes + length context.now.crossed.now)) (steps_of steps.now) ∥₁ }
    requires whole { are_whole 1 (steps_of steps.now) ≡ true }
    ensures { IfOk result (AreJudgedBy (λ leaf own. Unit {0})
        (AreRunNumbers context.now.demands.nodes (length context.now.crossed.now) (length tree.now.rows.now))
        context.now.demands.nodes (length context.now.crossed.now + length tree.now.rows.now) [] (steps_of steps.now)) }
{
    let nodes = context.demands.nodes;
    let judge = NumbersJudge {
        nodes,
        families: context.crossed.len(),
        rows: tree.rows.len(),
    };
    let whole = WholeTree {
        places: nodes + context.crossed.len() as u32,
        directed: true,
        given: &[],
        steps,
    };
    let mut room = scratch(alloc, nodes as usize, judge.families + judge.rows)?;
    judge_leaves(
        alloc,
        &judge,
        &whole,
        &mut room,
        nodes as usize + judge.families + judge.rows,
    )
}

/// The least bound of a leaf by runs, or the first leaf with too many kept states, if the numbers
/// of all leaves are good. The steps contain places of numbers.
///
/// # Errors
///
/// Out of memory.
fn judge_all_runs<C: Costs>(
    alloc: Global,
    context: &PlanContext<C>,
    tree: &PlanTree<C>,
    near: &[Vec<u32>],
    steps: &[TreeStep],
) -> Result<TreeVerdict, Refused>
    requires room { context.now.units.now.room ≤ most_capacity_in_parts }
    requires memory { IsGoodMemory context.now.demands.nodes context.now.demands.depot (item_lists tree.now.near.now)
        (map subset_row_of tree.now.rows.now) }
    requires near { IsNearTable context.now.demands.nodes (item_lists tree.now.near.now) near.now }
    requires few { length steps.now < 2 ^ 32 }
    requires steps { ∥ All (IsStepOf (context.now.demands.nodes + length context.now.crossed.now)) (steps_of steps.now) ∥₁ }
    requires whole { are_whole 1 (steps_of steps.now) ≡ true }
    ensures judged { IfOk result (AreRunsJudged (tree_in context.now.demands (C.at context.now.costs.now) context.now.scale
        context.now.unit context.now.units.now.light context.now.crossed.now (lent_in context.now.families.now)
        tree.now.near.now tree.now.rows.now) (steps_of steps.now)) }
    ensures size { IfOk result IsSizedVerdict }
{
    let nodes = context.demands.nodes;
    let memories = memories_of(alloc, nodes, near, tree.rows)?;
    let judge = RunJudge {
        context,
        tree,
        memories: &memories,
    };
    let numbers = context.crossed.len() + tree.rows.len();
    let whole = WholeTree {
        places: nodes + context.crossed.len() as u32,
        directed: true,
        given: &[],
        steps,
    };
    let mut room = scratch(alloc, nodes as usize, numbers)?;
    let judged = judge_leaves(alloc, &judge, &whole, &mut room, nodes as usize + numbers)?;
    match judged {
        // All numbers were good in the first pass, so a bad leaf here has too many kept states.
        TreeVerdict::BadLeaf(leaf) => Ok(TreeVerdict::TooManyStates(leaf)),
        bound => Ok(bound),
    }
}

/// Numbers of a leaf, all 0.
///
/// # Errors
///
/// Out of memory.
fn scratch(alloc: Global, nodes: usize, numbers: usize) -> Result<RunScratch, Refused>
    ensures { IfOk result (IsRunScratch nodes numbers) }
{
    Ok(RunScratch {
        potentials: filled(alloc, 0, nodes)?,
        multipliers: filled(alloc, 0, numbers)?,
    })
}

// ---- the steps, with the places of numbers in place of indexes

// A file leaves room for 10,000 families before the first subset row. Branches and the order of
// steps stay as they are (`placed_steps` in `specs/RunTrees.antt`).

/// The steps with places, if the numbers of rows follow those of this many families.
///
/// # Errors
///
/// If memory runs out. It allocates an entry for each step and each difference.
fn placed_steps(
    alloc: Global,
    nodes: u32,
    families: u32,
    steps: &[TreeStep],
) -> Result<Vec<TreeStep>, Refused>
    requires nodes { nodes ≤ most_nodes }
    requires families { families ≤ 10000 }
    ensures { IfOk result (λ placed. steps_of placed.items ≡ placed_steps nodes families (steps_of steps.now)) }
{
    let mut placed = Vec::new(alloc);
    'steps: for step in steps {
        let own = step_with_places(alloc, nodes, families, step)?;
        push(&mut placed, own)?;
    }
    Ok(placed)
}

/// One step with places.
///
/// # Errors
///
/// Out of memory.
fn step_with_places(
    alloc: Global,
    nodes: u32,
    families: u32,
    step: &TreeStep,
) -> Result<TreeStep, Refused>
    requires nodes { nodes ≤ most_nodes }
    requires families { families ≤ 10000 }
    ensures { IfOk result (λ placed. step_of placed ≡ step_with_places nodes families (step_of step.now)) }
{
    match step {
        TreeStep::Branch(first, second) => Ok(TreeStep::Branch(*first, *second)),
        TreeStep::Leaf(changes) => {
            let placed = placed_changes(alloc, nodes, families, changes)?;
            Ok(TreeStep::Leaf(placed))
        }
    }
}

/// The differences of a leaf with places.
///
/// # Errors
///
/// Out of memory.
fn placed_changes(
    alloc: Global,
    nodes: u32,
    families: u32,
    changes: &[(u32, i64)],
) -> Result<Vec<(u32, i64)>, Refused>
    requires nodes { nodes ≤ most_nodes }
    requires families { families ≤ 10000 }
    ensures { IfOk result (λ placed. placed.items ≡ placed_changes nodes families changes.now) }
{
    let mut placed = Vec::new(alloc);
    'changes: for change in changes {
        push(
            &mut placed,
            (number_place(nodes, families, change.0), change.1),
        )?;
    }
    Ok(placed)
}

/// The place of an index among the numbers of a leaf, counted from 1; 0 if it has none.
fn number_place(nodes: u32, families: u32, index: u32) -> u32
    requires nodes { nodes ≤ most_nodes }
    requires families { families ≤ 10000 }
    ensures { result ≡ number_place nodes families index }
{
    if index <= nodes + families {
        return index;
    }
    if index <= nodes + 10_000 {
        return 0;
    }
    index - 10_000 + families
}

/// The numbers of a leaf, which the next leaf overwrites. The charges of rows come after the
/// multipliers of families.
#[derive(Drop)]
pub(crate) struct RunScratch {
    pub(crate) potentials: Vec<i64>,
    pub(crate) multipliers: Vec<i64>,
}

// ---- whether the numbers of a leaf are good

/// Judges only the numbers of leaves: for this judge, no leaf has a bound.
#[derive(Drop)]
pub(crate) struct NumbersJudge {
    pub(crate) nodes: u32,
    pub(crate) families: usize,
    pub(crate) rows: usize,
}

impl LeafJudge for NumbersJudge {
    ghost use Rattle.tsp_routing.specs.Prelude.{true};
    ghost use Rattle.std.specs.Prelude.{◌+◌};
    ghost use Rattle.tsp_routing.specs.RunTrees.{AreRunNumbers};
    ghost use Rattle.tsp_routing.specs.states.RunJudged.{IsRunScratch};

    type Memory = RunScratch;

    ghost nodes = { λ judge. judge.nodes };

    ghost family_count = { λ judge. judge.families + judge.rows };

    ghost places = { λ judge. judge.nodes + judge.families };

    ghost directed = { λ judge. true };

    ghost fits = { λ judge case. Unit {0} };

    ghost good = { λ judge numbers. AreRunNumbers judge.nodes judge.families judge.rows numbers };

    ghost found = { λ judge leaf own. Unit {0} };

    ghost holds = { λ judge room case. IsRunScratch judge.nodes (judge.families + judge.rows) room };

    fn enter(&self, memory: &mut RunScratch, decision: Decision) {}

    fn leave(&self, memory: &mut RunScratch, stack: &[Decision]) {}

    fn judge(
        &self,
        alloc: Global,
        case: &OpenCase,
        numbers: &[i128],
        memory: &mut RunScratch,
    ) -> Result<JudgedLeaf, Refused> {
        if judge_run_numbers(self.families, numbers, memory) {
            return Ok(JudgedLeaf::Found(None));
        }
        Ok(JudgedLeaf::Bad)
    }
}

/// Copies the numbers of a leaf with this many families if they are good, and returns whether they
/// are: as for a leaf without rows, and no charge is negative.
fn judge_run_numbers(families: usize, numbers: &[i128], room: &mut RunScratch) -> bool
    requires families { families ≤ length room.old.multipliers.items }
    requires long { length numbers.now ≡ length room.old.potentials.items + length room.old.multipliers.items }
    ensures good { (rows : ℕ) → families + rows ≡ length room.old.multipliers.items
        → (IsTrue result ↔ AreRunNumbers (length room.old.potentials.items) families rows
        (as_leaf_numbers (take (length room.old.potentials.items) numbers.now) (drop (length room.old.potentials.items) numbers.now))) }
    ensures potentials { result ≡ true → room.new.potentials.items ≡ take (length room.old.potentials.items) numbers.now }
    ensures multipliers { result ≡ true → room.new.multipliers.items ≡ drop (length room.old.potentials.items) numbers.now }
    ensures potentials_len { length room.new.potentials.items ≡ length room.old.potentials.items }
    ensures multipliers_len { length room.new.multipliers.items ≡ length room.old.multipliers.items }
{
    if !judge_plan_numbers(numbers, &mut room.potentials, &mut room.multipliers) {
        return false;
    }
    are_charges(&room.multipliers[families..])
}

/// Whether none of these numbers is below 0.
fn are_charges(numbers: &[i64]) -> bool
    ensures { IsTrue result ↔ All (λ number. pos 0 ≤ℤ number) numbers.now }
{
    'numbers: for number in numbers {
        if *number < 0 {
            return false;
        }
    }
    true
}

// ---- the bound of a leaf by its least run

/// Judges leaves by their least runs. A leaf is bad if it has too many kept states.
#[derive(Drop)]
pub(crate) struct RunJudge<'a, C: Costs> {
    pub(crate) context: &'a PlanContext<'a, C>,
    pub(crate) tree: &'a PlanTree<'a, C>,
    /// The memories of what the tree lists.
    pub(crate) memories: &'a Memories,
    ghost room: { context.now.units.now.room ≤ most_capacity_in_parts },
    ghost same: { memories.now.nodes ≡ context.now.demands.nodes },
    ghost many: { memories.now.count ≡ length tree.now.rows.now },
    ghost small: { All IsSmallRow tree.now.rows.now },
    ghost tables: { ∥ AreTablesFor (tree_in context.now.demands (C.at context.now.costs.now) context.now.scale
        context.now.unit context.now.units.now.light context.now.crossed.now (lent_in context.now.families.now)
        tree.now.near.now tree.now.rows.now) memories.now.count memories.now.keys.items memories.now.places.items ∥₁ },
}

impl<C: Costs> LeafJudge for RunJudge<'_, C> {
    ghost use Rattle.tsp_routing.specs.Prelude.{true, length, lent_in};
    ghost use Rattle.std.specs.Prelude.{◌+◌};
    ghost use Rattle.tsp_routing.specs.RunTrees.{AreFewNumbers, IsFoundByRuns};
    ghost use Rattle.tsp_routing.specs.states.RunJudged.{IsRunScratch, tree_in};

    type Memory = RunScratch;

    ghost nodes = { λ judge. judge.context.now.demands.nodes };

    ghost family_count = { λ judge. length judge.context.now.crossed.now + length judge.tree.now.rows.now };

    ghost places = { λ judge. judge.context.now.demands.nodes + length judge.context.now.crossed.now };

    ghost directed = { λ judge. true };

    ghost fits = { λ judge case. Unit {0} };

    ghost good = { λ judge. AreFewNumbers (tree_in judge.context.now.demands (C.at judge.context.now.costs.now)
        judge.context.now.scale judge.context.now.unit judge.context.now.units.now.light
        judge.context.now.crossed.now (lent_in judge.context.now.families.now) judge.tree.now.near.now judge.tree.now.rows.now) };

    ghost found = { λ judge. IsFoundByRuns (tree_in judge.context.now.demands (C.at judge.context.now.costs.now)
        judge.context.now.scale judge.context.now.unit judge.context.now.units.now.light
        judge.context.now.crossed.now (lent_in judge.context.now.families.now) judge.tree.now.near.now judge.tree.now.rows.now) };

    ghost holds = { λ judge room case. IsRunScratch judge.context.now.demands.nodes
        (length judge.context.now.crossed.now + length judge.tree.now.rows.now) room };

    fn enter(&self, memory: &mut RunScratch, decision: Decision) {}

    fn leave(&self, memory: &mut RunScratch, stack: &[Decision]) {}

    fn judge(
        &self,
        alloc: Global,
        case: &OpenCase,
        numbers: &[i128],
        memory: &mut RunScratch,
    ) -> Result<JudgedLeaf, Refused> {
        judge_run_leaf(alloc, self, case, numbers, memory)
    }
}

/// The bound of the leaf with these numbers, if they are good and there aren't too many kept
/// states.
///
/// # Errors
///
/// Out of memory.
fn judge_run_leaf<C: Costs>(
    alloc: Global,
    judge: &RunJudge<C>,
    case: &OpenCase,
    numbers: &[i128],
    room: &mut RunScratch,
) -> Result<JudgedLeaf, Refused>
    requires case { IsOpenCase (judge.now.context.now.demands.nodes + length judge.now.context.now.crossed.now) case.now }
    requires direction { case.now.by_node.directed ≡ true }
    requires numbers { length numbers.now ≡ judge.now.context.now.demands.nodes
        + (length judge.now.context.now.crossed.now + length judge.now.tree.now.rows.now) }
    requires room { IsRunScratch judge.now.context.now.demands.nodes
        (length judge.now.context.now.crossed.now + length judge.now.tree.now.rows.now) room.old }
    ensures judged { IfOk result (IsFoundOfCase
        (IsFoundByRuns (tree_in judge.now.context.now.demands (C.at judge.now.context.now.costs.now)
        judge.now.context.now.scale judge.now.context.now.unit judge.now.context.now.units.now.light
        judge.now.context.now.crossed.now (lent_in judge.now.context.now.families.now)
        judge.now.tree.now.near.now judge.now.tree.now.rows.now))
        (AreFewNumbers (tree_in judge.now.context.now.demands (C.at judge.now.context.now.costs.now)
        judge.now.context.now.scale judge.now.context.now.unit judge.now.context.now.units.now.light
        judge.now.context.now.crossed.now (lent_in judge.now.context.now.families.now)
        judge.now.tree.now.near.now judge.now.tree.now.rows.now))
        judge.now.context.now.demands.nodes (decisions_in case.now) numbers.now) }
    ensures room { IfOk result (λ own. IsRunScratch judge.now.context.now.demands.nodes
        (length judge.now.context.now.crossed.now + length judge.now.tree.now.rows.now) room.new) }
    ensures size { IfOk result IsSizedLeaf }
{
    let context = judge.context;
    let families = context.crossed.len();
    if !judge_run_numbers(families, numbers, room) {
        return Ok(JudgedLeaf::Bad);
    }
    let (multipliers, charges) = room.multipliers.split_at(families);
    let moved = moved_of(alloc, context, &room.potentials, multipliers)?;
    let leaf = PlanLeaf {
        context,
        potentials: &room.potentials,
        multipliers,
        moved: &moved,
    };
    let priced = PricedRows {
        memories: judge.memories,
        rows: judge.tree.rows,
        charges,
    };
    let Some(bound) = leaf_run_bound(alloc, &leaf, case, priced)? else {
        return Ok(JudgedLeaf::Bad);
    };
    Ok(JudgedLeaf::Found(Some(bound)))
}
