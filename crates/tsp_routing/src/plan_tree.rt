//! A certificate for routes along with its instance, as tsp_verdict passes them to `judge_plans`,
//! and what all leaves share (`PlanContext`). The `ghost` facts of `PlanTree` are what a valid file
//! ensures, so a new one must follow from the definitions of files.

ghost use Rattle.std.specs.Prelude.{◌≡◌, ◌≤◌, ◌<◌, ◌^◌};
ghost use Rattle.tsp_format.specs.states.TreeSteps.{steps_of};
ghost use Rattle.tsp_routing.specs.Prelude.{All, true, length, pos, most_demand, most_capacity, IsNode, IsFromTo, are_whole, IsScale, AreFamiliesOf, IsSetTable, lent_in};
ghost use Rattle.tsp_routing.specs.states.Demands.{AreDemands, AreUnitLoads};
ghost use Rattle.tsp_routing.specs.states.Judged.{IsFewCrossed};
ghost use Rattle.tsp_routing.specs.states.JudgedMemory.{AreListsOf, AreRowsOf};
ghost use Rattle.tsp_routing.specs.states.LeafWeights.{IsPlanStep};

use crate::demands::{Demands, UnitLoads};
use tsp_cases::{Crossings, Families, SetPlace};
use tsp_format::{RowSets, TreeStep};
use tsp_theory::Costs;

/// A tree of cases for routes, and the instance that it is for: costs, a depot, demands, and the
/// capacity of a route.
///
/// There are two or more nodes. Sets, lists and rows are of these nodes, no list is empty, and the
/// steps are one whole tree.
#[derive(Drop)]
pub struct PlanTree<'a, C: Costs> {
    pub costs: &'a C,
    /// The depot, a node from 1 on.
    pub depot: u32,
    /// The demand of each node, in order: 0 to 10^9.
    pub demands: &'a [i64],
    /// The capacity of a route: 1 to 10^12.
    pub capacity: i64,
    /// Potentials and multipliers are counts of 1 / scale.
    pub scale: i64,
    /// The unit in which loads are counted, 1 to 10^12.
    pub unit: i64,
    /// The families, each by its sets.
    pub families: &'a [Vec<Vec<u32>>],
    /// What customers remember: each list is a customer, followed by those that it remembers.
    pub near: &'a [Vec<u32>],
    /// The subset rows.
    pub rows: &'a [RowSets],
    /// The branches and leaves. A branch whose first number is n + k is on family k.
    pub steps: &'a [TreeStep],
    pub ghost some: { 2 ≤ C.nodes costs.now },
    pub ghost depot_in: { IsNode (C.nodes costs.now) depot },
    pub ghost each: { length demands.now ≡ C.nodes costs.now },
    pub ghost demands_are: { All (IsFromTo (pos 0) (pos most_demand)) demands.now },
    pub ghost capacity_is: { IsFromTo (pos 1) (pos most_capacity) capacity },
    pub ghost scaled: { IsScale scale },
    pub ghost united: { IsFromTo (pos 1) (pos 1000000000000) unit },
    pub ghost few_families: { length families.now ≤ 10000 },
    pub ghost few_steps: { length steps.now < 2 ^ 32 },
    pub ghost sets_are: { AreFamiliesOf (C.nodes costs.now) families.now },
    pub ghost few_lists: { length near.now ≤ 1000000 },
    pub ghost few_rows: { length rows.now ≤ 10000 },
    pub ghost lists_are: { AreListsOf (C.nodes costs.now) near.now },
    pub ghost rows_are: { AreRowsOf (C.nodes costs.now) rows.now },
    pub ghost steps_are: { ∥ All (IsPlanStep (C.nodes costs.now)) (steps_of steps.now) ∥₁ },
    pub ghost whole: { are_whole 1 (steps_of steps.now) ≡ true },
}

// ---- what all leaves share

/// Costs, demands and loads, the families with the least number of times that a plan crosses each,
/// and the sets of each node.
#[derive(Drop)]
pub(crate) struct PlanContext<'a, C: Costs> {
    pub(crate) costs: &'a C,
    pub(crate) demands: Demands<'a>,
    /// Potentials and multipliers are counts of 1 / scale.
    pub(crate) scale: i64,
    /// The families, each a single set of customers.
    pub(crate) families: &'a Families<'a>,
    /// How often plans cross each set. (`families.crossed` is about cycles, and isn't used here.)
    pub(crate) crossed: &'a [Crossings],
    /// For each node from 0 on, the sets that contain it.
    pub(crate) by_node: &'a [Vec<SetPlace>],
    /// The unit in which loads are counted.
    pub(crate) unit: u64,
    /// The loads and the capacity in that unit.
    pub(crate) units: &'a UnitLoads,
    ghost some: { 2 ≤ demands.nodes },
    ghost same: { C.nodes costs.now ≡ demands.nodes },
    ghost are: { AreDemands demands },
    ghost scaled: { IsScale scale },
    ghost own: { families.now.nodes ≡ demands.nodes },
    ghost single: { All (λ sets. length sets ≡ 1) (lent_in families.now) },
    ghost table: { IsSetTable demands.nodes (lent_in families.now) by_node.now },
    ghost many: { length crossed.now ≡ length families.now.lent.now },
    ghost few: { All IsFewCrossed crossed.now },
    ghost few_families: { length crossed.now ≤ 10000 },
    ghost loads: { AreUnitLoads demands unit units.now },
}
