//! The bound of a leaf for routes by q-routes: from the least weight of a q-route, what the
//! multipliers give back within the limits of the case, and the number of routes. `plan_verdict.rt`
//! asks for it if there are no memories and no subset rows; bounds by runs use the sums, too.
//! `IsPlanBound` in `specs/PlanBounds.antt` pins the bound, and `ArePlanNumbers` in
//! `specs/PlanVerdicts.antt` the limits of potentials and multipliers.

ghost use Rattle.std.specs.Prelude.{◌≡◌, ◌≤◌, ◌+◌, ◌-◌, ◌^◌, ◌-ℤ◌, ◌*ℤ◌, ◌*◌, ◌<◌, ◌≤ℤ◌, ◌==◌, if◌then◌else◌, ◌∷◌, ◌↔◌};
ghost use Rattle.tsp_cases.specs.states.Sets.{AreMoved};
ghost use Rattle.tsp_cases.specs.states.OpenCases.{stack_of, IsOpenCase, decisions_in};
ghost use Rattle.tsp_routing.specs.PlanBounds.{limits_total, least_product, IsPlanBound, low_of, high_of, least_times, IsFoundByQRoutes, IsLeastQRoute, most_capacity_in_parts, most_surplus};
ghost use Rattle.tsp_routing.specs.PlanLinks.{IsFewest, sum_of_customers};
ghost use Rattle.tsp_routing.specs.PlanVerdicts.{ArePlanNumbers, most_of_multipliers, sizes_total};
ghost use Rattle.tsp_routing.specs.Prelude.{All, ℕ, ℤ, length, true, pos, neg_ℤ, IfOk, IfSome, List, unsigned_abs, [], most_nodes, most_potential, IsNode, IsFromTo, IsBoundSized, entry, IsScale, ArePotentials, RoutingProblem, Family, families_with, as_leaf_numbers, Decision, lent_in, IsTrue, take, drop};
ghost use Rattle.tsp_routing.specs.states.Demands.{loads_problem};
ghost use Rattle.tsp_routing.specs.states.Judged.{IsFewCrossed};
ghost use Rattle.tsp_routing.specs.states.LeafWeights.{numbers_total};

use crate::leaf_weights::{KeptWeights, LeafWeights, kept_rows};
use crate::least_q_route::{QRoutes, least_q_route};
use crate::plan_tree::PlanContext;
use std::alloc::Global;
use tsp_cases::{
    Crossings, Decision, MultipliedFamilies, OpenCase, copy_within, fill_moved, take_multipliers,
};
use tsp_format::MOST_POTENTIAL;
use tsp_io::{Refused, filled};
use tsp_theory::{Costs, least_bound};

/// A leaf with good numbers.
#[derive(Drop)]
pub(crate) struct PlanLeaf<'a, C: Costs> {
    /// What it shares with all other leaves.
    pub(crate) context: &'a PlanContext<'a, C>,
    pub(crate) potentials: &'a [i64],
    pub(crate) multipliers: &'a [i64],
    /// For each node, its potential less the multipliers of its sets; place 0 is unused.
    pub(crate) moved: &'a [i64],
    ghost numbers: { ArePlanNumbers context.now.demands.nodes (length context.now.crossed.now)
        (as_leaf_numbers potentials.now multipliers.now) },
    ghost places: { length moved.now ≡ context.now.demands.nodes + 1 },
    ghost are_moved: { AreMoved context.now.demands.nodes potentials.now multipliers.now
        (lent_in context.now.families.now) moved.now },
}

/// The bound of a leaf in a case; `None` if there is no q-route. `row` is scratch space.
///
/// # Errors
///
/// Out of memory.
pub(crate) fn plan_leaf_bound<C: Costs>(
    alloc: Global,
    leaf: &PlanLeaf<C>,
    case: &OpenCase,
    row: &mut [i64],
) -> Result<Option<i128>, Refused>
    requires case { IsOpenCase (leaf.now.context.now.demands.nodes + length leaf.now.context.now.crossed.now) case.now }
    requires direction { case.now.by_node.directed ≡ true }
    requires row { length row.old ≡ leaf.now.context.now.demands.nodes + 1 }
    requires few { leaf.now.context.now.units.now.room ≤ most_capacity_in_parts }
    ensures found { IfOk result (IsFoundByQRoutes
        (loads_problem leaf.now.context.now.demands (C.at leaf.now.context.now.costs.now)) leaf.now.context.now.scale
        leaf.now.context.now.unit leaf.now.context.now.units.now.light
        (families_with leaf.now.context.now.crossed.now (lent_in leaf.now.context.now.families.now))
        (decisions_in case.now, as_leaf_numbers leaf.now.potentials.now leaf.now.multipliers.now)) }
    ensures size { IfOk result (λ found. IfSome found IsBoundSized) }
    ensures row { length row.new ≡ length row.old }
{
    let found = least_of_q_routes(alloc, leaf, row)?;
    let Some(each) = found else {
        return Ok(None);
    };
    let context = leaf.context;
    let nodes = context.demands.nodes;
    let limits = limits_total(case, nodes, context.crossed, leaf.multipliers);
    let sum = LeafSum {
        nodes,
        scale: context.scale,
        back: limits - 2 * customers_total(context.demands.depot, leaf.potentials),
        own: leaf.potentials[context.demands.depot as usize - 1],
        fewest: context.demands.fewest(),
    };
    Ok(Some(plan_bound(sum, each)))
}

/// The least weight of a walk under the numbers of a leaf; `None` if there is none.
///
/// # Errors
///
/// If memory runs out. It allocates an entry for each pair of up to 5,000 nodes, and for each node
/// and load.
fn least_of_q_routes<C: Costs>(
    alloc: Global,
    leaf: &PlanLeaf<C>,
    row: &mut [i64],
) -> Result<Option<i128>, Refused>
    requires row { length row.old ≡ leaf.now.context.now.demands.nodes + 1 }
    requires few { leaf.now.context.now.units.now.room ≤ most_capacity_in_parts }
    ensures least { IfOk result (IsLeastQRoute
        (loads_problem leaf.now.context.now.demands (C.at leaf.now.context.now.costs.now)) leaf.now.context.now.scale
        leaf.now.context.now.unit leaf.now.context.now.units.now.light
        (families_with leaf.now.context.now.crossed.now (lent_in leaf.now.context.now.families.now))
        (as_leaf_numbers leaf.now.potentials.now leaf.now.multipliers.now)) }
    ensures size { IfOk result (λ found. IfSome found (IsFromTo (neg_ℤ (pos (2 ^ 83))) (pos (2 ^ 83)))) }
    ensures row { length row.new ≡ length row.old }
{
    let weights = LeafWeights::of(leaf);
    let rows = kept_rows(alloc, &weights)?;
    let kept = KeptWeights {
        weights: &weights,
        rows: &rows,
    };
    let q_routes = QRoutes {
        nodes: leaf.context.demands.nodes,
        depot: leaf.context.demands.depot,
        loads: &leaf.context.units.loads,
        weights: &kept,
    };
    let room = leaf.context.units.room as usize;
    if kept.are_narrow(row) {
        return least_q_route::<i64, KeptWeights<C>>(alloc, &q_routes, room, row);
    }
    least_q_route::<i128, KeptWeights<C>>(alloc, &q_routes, room, row)
}

/// For each node, its potential less the multipliers of its sets, wrapped to 64 bits.
///
/// # Errors
///
/// If memory runs out. It allocates an entry for each node.
pub(crate) fn moved_of<C: Costs>(
    alloc: Global,
    context: &PlanContext<C>,
    potentials: &[i64],
    multipliers: &[i64],
) -> Result<Vec<i64>, Refused>
    requires numbers { ArePlanNumbers context.now.demands.nodes (length context.now.crossed.now)
        (as_leaf_numbers potentials.now multipliers.now) }
    ensures long { IfOk result (λ moved. length moved.items ≡ context.now.demands.nodes + 1) }
    ensures moved { IfOk result (λ moved. AreMoved context.now.demands.nodes potentials.now multipliers.now
        (lent_in context.now.families.now) moved.items) }
{
    let places = context.demands.nodes as usize + 1;
    let mut ends = filled(alloc, 0, places)?;
    let multiplied = MultipliedFamilies {
        families: context.families,
        numbers: multipliers,
    };
    take_multipliers(&mut ends, &multiplied);
    let mut moved = filled(alloc, 0, places)?;
    fill_moved(&mut moved, potentials, &ends);
    Ok(moved)
}

// ---- from the least weight of a q-route to the bound of a leaf

/// What a leaf adds to the weight of every plan to get its bound, the potential of the depot, and
/// the least number of routes.
#[derive(Clone, Copy)]
pub(crate) struct LeafSum {
    pub(crate) nodes: u32,
    pub(crate) scale: i64,
    /// At most 2^97 in size.
    pub(crate) back: i128,
    pub(crate) own: i64,
    pub(crate) fewest: u32,
    ghost scaled: { IsScale scale },
    ghost some: { 1 ≤ nodes },
    ghost few_nodes: { nodes ≤ most_nodes },
    ghost back_size: { IsFromTo (neg_ℤ (pos (2 ^ 97))) (pos (2 ^ 97)) back },
    ghost own_size: { IsFromTo (neg_ℤ (pos most_potential)) (pos most_potential) own },
    ghost few: { fewest ≤ most_nodes },
}

/// The bound of a leaf if each route weighs at least `each`.
fn plan_bound(sum: LeafSum, each: i128) -> i128
    requires { IsFromTo (neg_ℤ (pos (2 ^ 83))) (pos (2 ^ 83)) each }
    ensures bound { (problem : RoutingProblem) (potentials : List ℤ) (families : List Family) (multipliers : List ℤ)
        (case : List Decision) → problem.nodes ≡ sum.nodes → IsFewest problem sum.fewest
        → sum.back ≡ limits_total case (2 * (problem.nodes - 1)) (problem.nodes + 1) families multipliers
        -ℤ (pos 2 *ℤ sum_of_customers problem.nodes problem.depot (entry potentials))
        → sum.own ≡ entry potentials problem.depot
        → IsPlanBound problem sum.scale potentials families multipliers case each result }
    ensures size { IsBoundSized result }
{
    let surplus = each - 2 * i128::from(sum.own);
    let routes = of_routes(sum.fewest, sum.nodes - 1, surplus);
    least_bound(sum.scale, sum.back + routes)
}

/// The smaller product of a number with two counts.
fn of_routes(fewest: u32, most: u32, surplus: i128) -> i128
    requires fewest { fewest ≤ most_nodes }
    requires most { most ≤ most_nodes }
    requires surplus { IsFromTo (neg_ℤ (pos most_surplus)) (pos most_surplus) surplus }
    ensures value { result ≡ least_product fewest most surplus }
    ensures size { IsFromTo (neg_ℤ (pos (most_nodes * most_surplus))) (pos (most_nodes * most_surplus)) result }
{
    let few = times(fewest, surplus);
    let many = times(most, surplus);
    if many < few { many } else { few }
}

/// A number times a count.
pub(crate) fn times(count: u32, number: i128) -> i128
    requires count { count ≤ most_nodes }
    requires number { IsFromTo (neg_ℤ (pos most_surplus)) (pos most_surplus) number }
    ensures value { result ≡ pos count *ℤ number }
    ensures size { IsFromTo (neg_ℤ (pos (most_nodes * most_surplus))) (pos (most_nodes * most_surplus)) result }
{
    i128::from(count) * number
}

// ---- what the multipliers of sets and the potentials of customers give back

/// The least and the largest number of times that a plan crosses a set.
#[derive(Clone, Copy)]
struct Limits {
    low: u64,
    high: u64,
}

/// What the multipliers of sets give back: a multiplier of at least 0 times the least number of
/// crossings in this case, a negative one times the largest.
pub(crate) fn limits_total(
    case: &OpenCase,
    nodes: u32,
    crossed: &[Crossings],
    multipliers: &[i64],
) -> i128
    requires some { 1 ≤ nodes }
    requires nodes { nodes ≤ most_nodes }
    requires case { IsOpenCase (nodes + length multipliers.now) case.now }
    requires direction { case.now.by_node.directed ≡ true }
    requires few_families { length multipliers.now ≤ 10000 }
    requires as_many { length crossed.now ≡ length multipliers.now }
    requires few { All IsFewCrossed crossed.now }
    requires sizes { sizes_total multipliers.now ≤ℤ pos most_of_multipliers }
    ensures value { result ≡ numbers_total (decisions_in case.now) (2 * (nodes - 1)) (nodes + 1) crossed.now multipliers.now }
    ensures size { IsFromTo (neg_ℤ (pos (2 ^ 96))) (pos (2 ^ 96)) result }
{
    let mut sum = 0;
    'families: for index in 0..multipliers.len() {
        let limits = Limits {
            low: crossed[index].least,
            high: 2 * u64::from(nodes - 1),
        };
        sum += given_by(case, nodes + 1 + index as u32, limits, multipliers[index]);
    }
    sum
}

/// What the multiplier of one set gives back.
fn given_by(case: &OpenCase, place: u32, limits: Limits, multiplier: i64) -> i128
    requires case { (places : ℕ) × IsOpenCase places case.now × (place ≤ places) }
    requires direction { case.now.by_node.directed ≡ true }
    requires low { limits.low ≤ 2 ^ 33 }
    requires high { limits.high ≤ 2 ^ 33 }
    ensures value { result ≡ least_times (low_of place (decisions_in case.now) limits.low)
        (high_of place (decisions_in case.now) limits.high) multiplier }
    ensures size { IsFromTo (neg_ℤ (pos (unsigned_abs multiplier * 2 ^ 33))) (pos (unsigned_abs multiplier * 2 ^ 33)) result }
{
    let decisions = case.at(place);
    if multiplier < 0 {
        return times_given_back(highest(place, decisions, limits.high), multiplier);
    }
    times_given_back(lowest(place, decisions, limits.low), multiplier)
}

/// A number times a count.
pub(crate) fn times_given_back(count: u64, number: i64) -> i128
    requires { count ≤ 2 ^ 33 }
    ensures value { result ≡ pos count *ℤ number }
    ensures size { IsFromTo (neg_ℤ (pos (unsigned_abs number * 2 ^ 33))) (pos (unsigned_abs number * 2 ^ 33)) result }
{
    i128::from(count) * i128::from(number)
}

/// The sum of the potentials of the customers.
pub(crate) fn customers_total(depot: u32, potentials: &[i64]) -> i128
    requires few { length potentials.now ≤ most_nodes }
    requires depot { IsNode (length potentials.now) depot }
    requires potentials { ArePotentials potentials.now }
    ensures value { result ≡ sum_of_customers (length potentials.now) depot (entry potentials.now) }
    ensures size { IsFromTo (neg_ℤ (pos (2 ^ 70))) (pos (2 ^ 70)) result }
{
    let mut sum = 0;
    'nodes: for index in 0..potentials.len() {
        sum += of_customer(depot, index as u32 + 1, potentials[index]);
    }
    sum
}

/// The potential of a customer; 0 for the depot.
fn of_customer(depot: u32, node: u32, potential: i64) -> i128
    requires { IsFromTo (neg_ℤ (pos most_potential)) (pos most_potential) potential }
    ensures value { result ≡ (if node == depot then pos 0 else potential) }
    ensures size { IsFromTo (neg_ℤ (pos most_potential)) (pos most_potential) result }
{
    if node == depot {
        return 0;
    }
    i128::from(potential)
}

// ---- how often the limits of a case let plans cross a set

/// The least number of times that plans of a case cross a set. `own` is the least number without
/// the case. Only the decisions on this place count.
fn lowest(place: u32, decisions: &[Decision], own: u64) -> u64
    requires { own ≤ 2 ^ 33 }
    ensures value { result ≡ low_of place (stack_of decisions.now) own }
    ensures most { result ≤ 2 ^ 33 }
{
    let mut low = own;
    'limits: for limit in decisions {
        low = raised(place, *limit, low);
    }
    low
}

/// The least number of crossings with one more limit.
fn raised(place: u32, limit: Decision, own: u64) -> u64
    requires { own ≤ 2 ^ 33 }
    ensures value { result ≡ low_of place (limit ∷ []) own }
    ensures most { result ≤ 2 ^ 33 }
{
    if limit.taken || limit.pair.0 != place {
        return own;
    }
    let low = 2 * u64::from(limit.pair.1) + 2;
    if low < own { own } else { low }
}

/// The largest number of times that plans of a case cross a set. `own` is the largest number
/// without the case.
fn highest(place: u32, decisions: &[Decision], own: u64) -> u64
    ensures value { result ≡ high_of place (stack_of decisions.now) own }
    ensures most { result ≤ own }
{
    let mut high = own;
    'limits: for limit in decisions {
        high = lowered(place, *limit, high);
    }
    high
}

/// The largest number of crossings with one more limit.
fn lowered(place: u32, limit: Decision, own: u64) -> u64
    ensures value { result ≡ high_of place (limit ∷ []) own }
    ensures most { result ≤ own }
{
    if !limit.taken || limit.pair.0 != place {
        return own;
    }
    let high = 2 * u64::from(limit.pair.1);
    if high < own { high } else { own }
}

// ---- whether the potentials and multipliers of a leaf are within their limits

/// The most that the sizes of multipliers sum to.
const MOST_MULTIPLIERS: i64 = 300_000_000_000_000_000;

/// Copies the numbers of a leaf (of the nodes, then of the families) if they are good, and returns
/// whether they are: no potential is above 10^15 in size, and the sizes of the multipliers sum to
/// at most 3 * 10^17.
pub(crate) fn judge_plan_numbers(
    numbers: &[i128],
    potentials: &mut [i64],
    multipliers: &mut [i64],
) -> bool
    requires long { length numbers.now ≡ length potentials.old + length multipliers.old }
    ensures good { IsTrue result ↔ ArePlanNumbers (length potentials.old) (length multipliers.old)
        (as_leaf_numbers (take (length potentials.old) numbers.now) (drop (length potentials.old) numbers.now)) }
    ensures potentials { result ≡ true → potentials.new ≡ take (length potentials.old) numbers.now }
    ensures multipliers { result ≡ true → multipliers.new ≡ drop (length potentials.old) numbers.now }
    ensures potentials_len { length potentials.new ≡ length potentials.old }
    ensures multipliers_len { length multipliers.new ≡ length multipliers.old }
{
    let (of_nodes, of_families) = numbers.split_at(potentials.len());
    if !copy_within(of_nodes, -MOST_POTENTIAL, MOST_POTENTIAL, potentials) {
        return false;
    }
    if !copy_within(
        of_families,
        -MOST_MULTIPLIERS,
        MOST_MULTIPLIERS,
        multipliers,
    ) {
        return false;
    }
    sizes_total(multipliers) <= i128::from(MOST_MULTIPLIERS)
}

/// The sum of the sizes of multipliers.
fn sizes_total(multipliers: &[i64]) -> i128
    requires { All (IsFromTo (neg_ℤ (pos most_of_multipliers)) (pos most_of_multipliers)) multipliers.now }
    ensures { result ≡ sizes_total multipliers.now }
{
    let mut sum = 0;
    'multipliers: for multiplier in multipliers {
        sum += i128::from(multiplier.unsigned_abs());
    }
    sum
}
