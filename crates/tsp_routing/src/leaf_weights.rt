//! The weights of a leaf for routes, row by row: costs at the scale, potentials, and multipliers of
//! sets. `plan_leaf.rt` and `run_bound.rt` find least q-routes and runs over them. `q_route_weight`
//! in `specs/PlanBounds.antt` pins the weights; whether rows are kept affects only speed.

ghost use Rattle.std.specs.Prelude.{◌≡◌, ◌≤◌, ◌+◌, ◌+ℤ◌, ◌<◌, ◌^◌};
ghost use Rattle.tsp_cases.specs.states.Sets.{AreMoved};
ghost use Rattle.tsp_routing.specs.Prelude.{ℕ, length, pos, neg_ℤ, IsNode, IsFromTo, IsScale, ArePotentials, least_at, IsMoved, IsSetTable, lent_in, AreSmallDifferences, true, IfOk, IfSome, set_weight};
ghost use Rattle.tsp_routing.specs.states.LeafWeights.{AreSignedCrossings, IsWeightRow, AreFirstRows, AreKeptRows};

use crate::plan_leaf::PlanLeaf;
use crate::sums::MOST_NARROW;
use std::alloc::Global;
use tsp_cases::{Families, MultipliedFamilies, SetPlace, add_sets, scale_row, shift_row};
use tsp_io::{Refused, filled, push};
use tsp_theory::{Costs, Weights, weight_in};

/// Costs, a scale, potentials, and sets of customers with the multiplier of each.
///
/// An edge crosses a set if exactly one of its nodes is in it: as often as it has nodes there, less
/// 2 if both are. So each multiplier is subtracted from the potentials of the nodes in its set, and
/// a row only has to add it back, twice, at the nodes that share a set with its own node.
#[derive(Drop)]
pub(crate) struct LeafWeights<'a, C: Costs> {
    pub(crate) costs: &'a C,
    pub(crate) scale: i64,
    pub(crate) potentials: &'a [i64],
    pub(crate) multipliers: &'a [i64],
    pub(crate) families: &'a Families<'a>,
    pub(crate) by_node: &'a [Vec<SetPlace>],
    pub(crate) moved: &'a [i64],
    ghost scaled: { IsScale scale },
    ghost small: { AreSmallDifferences multipliers.now },
    ghost same: { families.now.nodes ≡ C.nodes costs.now },
    ghost as_many: { length multipliers.now ≡ length families.now.lent.now },
    ghost table: { IsSetTable (C.nodes costs.now) (lent_in families.now) by_node.now },
    ghost places: { length moved.now ≡ C.nodes costs.now + 1 },
    ghost are_moved: { AreMoved (C.nodes costs.now) potentials.now multipliers.now (lent_in families.now) moved.now },
    ghost long: { length potentials.now ≡ C.nodes costs.now },
    ghost potentials_are: { ArePotentials potentials.now },
    ghost crossed: { AreSignedCrossings (C.nodes costs.now) multipliers.now (lent_in families.now) },
}

impl<'a, C: Costs> LeafWeights<'a, C> {
    ghost use Rattle.tsp_routing.specs.Prelude.{ℕ, length, pos, neg_ℤ, IsNode, IsFromTo, weight_between, most_between, least_at, IsMoved, lent_in, multipliers_at, set_weight};
    ghost use Rattle.std.specs.Prelude.{◌≡◌, ◌+◌, ◌+ℤ◌};
    ghost use Rattle.tsp_routing.specs.PlanBounds.{most_link};

    /// The weights of a leaf.
    pub(crate) fn of(leaf: &PlanLeaf<'a, C>) -> LeafWeights<'a, C>
        ensures nodes { C.nodes result.costs.now ≡ C.nodes leaf.now.context.now.costs.now }
        ensures weights { (i j : ℕ) → set_weight result.scale result.potentials.now result.multipliers.now
            (lent_in result.families.now) (C.at result.costs.now) i j
            ≡ set_weight leaf.now.context.now.scale leaf.now.potentials.now leaf.now.multipliers.now
            (lent_in leaf.now.context.now.families.now) (C.at leaf.now.context.now.costs.now) i j }
    {
        LeafWeights {
            costs: leaf.context.costs,
            scale: leaf.context.scale,
            potentials: leaf.potentials,
            multipliers: leaf.multipliers,
            families: leaf.context.families,
            by_node: leaf.context.by_node,
            moved: leaf.moved,
        }
    }

    /// Writes a row as if no set had two nodes. The contract also bounds the weights without sets.
    fn fill_apart(&self, from: u32, row: &mut [i64])
        requires from { IsNode (C.nodes self.now.costs.now) from }
        requires room { length row.old ≡ C.nodes self.now.costs.now + 1 }
        ensures values { (x : ℕ) → IsNode (C.nodes self.now.costs.now) x
            → IsMoved (neg_ℤ (multipliers_at self.now.multipliers.now (lent_in self.now.families.now) from)
            +ℤ neg_ℤ (multipliers_at self.now.multipliers.now (lent_in self.now.families.now) x))
            (weight_between self.now.scale self.now.potentials.now (C.at self.now.costs.now) from x)
            (least_at row.new x) }
        ensures sizes { (x : ℕ) → IsNode (C.nodes self.now.costs.now) x
            → IsFromTo (neg_ℤ (pos most_between)) (pos most_between)
            (weight_between self.now.scale self.now.potentials.now (C.at self.now.costs.now) from x) }
    {
        self.costs.costs_from(from, row);
        scale_row(row, self.scale);
        shift_row(row, self.moved, weight_in(self.moved, from));
    }

    /// Writes the row of a node: its weights to all nodes, at their places.
    pub(crate) fn fill_row(&self, from: u32, row: &mut [i64])
        requires from { IsNode (C.nodes self.now.costs.now) from }
        requires room { length row.old ≡ C.nodes self.now.costs.now + 1 }
        ensures values { (x : ℕ) → IsNode (C.nodes self.now.costs.now) x → least_at row.new x
            ≡ set_weight self.now.scale self.now.potentials.now self.now.multipliers.now
            (lent_in self.now.families.now) (C.at self.now.costs.now) from x }
        ensures sizes { (x : ℕ) → IsNode (C.nodes self.now.costs.now) x
            → IsFromTo (neg_ℤ (pos most_link)) (pos most_link) (least_at row.new x) }
    {
        self.fill_apart(from, row);
        let multiplied = MultipliedFamilies {
            families: self.families,
            numbers: self.multipliers,
        };
        add_sets(row, &self.by_node[from as usize], &multiplied);
    }
}

// ---- the weights with the rows that are kept

/// The most nodes for which rows are kept, which takes 200 MB.
const MOST_KEPT: u32 = 5_000;

/// Weights whose rows may be kept.
pub(crate) trait LentRows: Weights {
    /// The row of a node, if it is kept.
    fn kept_row(&self, from: u32) -> Option<&[i64]>
        requires { IsNode (Self.nodes self.now) from }
        ensures { IfSome result (λ row. IsWeightRow (Self.nodes self.now) (Self.at self.now from) row.now) };
}

/// The weights of a leaf, and their rows, if any are kept. Keeping them helps because each row is
/// needed for every load.
#[derive(Drop)]
pub(crate) struct KeptWeights<'a, C: Costs> {
    pub(crate) weights: &'a LeafWeights<'a, C>,
    pub(crate) rows: &'a [Vec<i64>],
    ghost are: { AreKeptRows (C.nodes weights.now.costs.now) (set_weight weights.now.scale weights.now.potentials.now
        weights.now.multipliers.now (lent_in weights.now.families.now) (C.at weights.now.costs.now)) rows.now },
}

/// A row of weights for each node, or no row if there are more than 5,000 nodes.
///
/// # Errors
///
/// If memory runs out. It allocates an entry for each pair of up to 5,000 nodes.
pub(crate) fn kept_rows<C: Costs>(
    alloc: Global,
    weights: &LeafWeights<C>,
) -> Result<Vec<Vec<i64>>, Refused>
    ensures { IfOk result (λ rows. AreKeptRows (C.nodes weights.now.costs.now) (set_weight weights.now.scale
        weights.now.potentials.now weights.now.multipliers.now (lent_in weights.now.families.now) (C.at weights.now.costs.now))
        rows.items) }
{
    let count = weights.costs.count();
    if count > MOST_KEPT {
        return Ok(Vec::new(alloc));
    }
    rows_of(alloc, weights, count)
}

/// The rows of all nodes.
///
/// # Errors
///
/// Out of memory.
pub(crate) fn rows_of<C: Costs>(
    alloc: Global,
    weights: &LeafWeights<C>,
    count: u32,
) -> Result<Vec<Vec<i64>>, Refused>
    requires { count ≡ C.nodes weights.now.costs.now }
    ensures { IfOk result (λ rows. AreFirstRows (C.nodes weights.now.costs.now) (set_weight weights.now.scale
        weights.now.potentials.now weights.now.multipliers.now (lent_in weights.now.families.now) (C.at weights.now.costs.now))
        (C.nodes weights.now.costs.now) rows.items) }
{
    let mut rows = Vec::new(alloc);
    'rows: for index in 0..count {
        let row = row_of(alloc, weights, count, index + 1)?;
        push(&mut rows, row)?;
    }
    Ok(rows)
}

/// The row of a node.
///
/// # Errors
///
/// Out of memory.
fn row_of<C: Costs>(
    alloc: Global,
    weights: &LeafWeights<C>,
    count: u32,
    from: u32,
) -> Result<Vec<i64>, Refused>
    requires count { count ≡ C.nodes weights.now.costs.now }
    requires from { IsNode (C.nodes weights.now.costs.now) from }
    ensures { IfOk result (λ row. IsWeightRow (C.nodes weights.now.costs.now) (set_weight weights.now.scale
        weights.now.potentials.now weights.now.multipliers.now (lent_in weights.now.families.now) (C.at weights.now.costs.now)
        from) row.items) }
{
    let mut row = filled(alloc, 0, count as usize + 1)?;
    weights.fill_row(from, &mut row);
    Ok(row)
}

impl<C: Costs> KeptWeights<'_, C> {
    ghost use Rattle.tsp_routing.specs.Prelude.{length, true, pos, neg_ℤ, IsNode, lent_in, set_weight};
    ghost use Rattle.std.specs.Prelude.{◌≡◌, ◌+◌, ◌^◌};
    ghost use Rattle.tsp_routing.specs.PlanBounds.{most_link};
    ghost use Rattle.tsp_routing.specs.states.LeafWeights.{IsWeightRow};
    ghost use Rattle.tsp_routing.specs.states.Demands.{AreLinks};

    /// Writes a row: the kept one, if there is one.
    fn fill_kept(&self, from: u32, row: &mut [i64])
        requires from { IsNode (C.nodes self.now.weights.now.costs.now) from }
        requires room { length row.old ≡ C.nodes self.now.weights.now.costs.now + 1 }
        ensures { IsWeightRow (C.nodes self.now.weights.now.costs.now) (set_weight self.now.weights.now.scale
            self.now.weights.now.potentials.now self.now.weights.now.multipliers.now (lent_in self.now.weights.now.families.now)
            (C.at self.now.weights.now.costs.now) from) row.new }
    {
        if self.rows.is_empty() {
            self.weights.fill_row(from, row);
            return;
        }
        copy_row(row, &self.rows[from as usize - 1]);
    }

    /// Whether all weights are small enough for sums of 64 bits. `row` is scratch space.
    pub(crate) fn are_narrow(&self, row: &mut [i64]) -> bool
        requires { length row.old ≡ C.nodes self.now.weights.now.costs.now + 1 }
        ensures wide { AreLinks most_link (C.nodes self.now.weights.now.costs.now) (set_weight self.now.weights.now.scale
            self.now.weights.now.potentials.now self.now.weights.now.multipliers.now (lent_in self.now.weights.now.families.now)
            (C.at self.now.weights.now.costs.now)) }
        ensures narrow { result ≡ true → AreLinks (2 ^ 38) (C.nodes self.now.weights.now.costs.now) (set_weight
            self.now.weights.now.scale self.now.weights.now.potentials.now self.now.weights.now.multipliers.now
            (lent_in self.now.weights.now.families.now) (C.at self.now.weights.now.costs.now)) }
        ensures row { length row.new ≡ length row.old }
    {
        let mut narrow = true;
        'nodes: for index in 0..self.weights.costs.count() {
            self.fill_kept(index + 1, row);
            narrow = is_narrow_row(narrow, row);
        }
        narrow
    }
}

/// A row that is kept.
fn copy_row(row: &mut [i64], kept: &[i64])
    requires { length kept.now ≡ length row.old }
    ensures { row.new ≡ kept.now }
{
    row.copy_from_slice(kept);
}

/// Whether this holds and all of a row are at most 2^38 in size.
fn is_narrow_row(others: bool, row: &[i64]) -> bool
    ensures others { result ≡ true → others ≡ true }
    ensures own { result ≡ true → (x : ℕ) → 1 ≤ x → x < length row.now
        → IsFromTo (neg_ℤ (pos (2 ^ 38))) (pos (2 ^ 38)) (least_at row.now x) }
{
    'places: for place in 1..row.len() {
        if row[place] < -MOST_NARROW || MOST_NARROW < row[place] {
            return false;
        }
    }
    others
}

impl<C: Costs> Weights for KeptWeights<'_, C> {
    ghost use Rattle.tsp_routing.specs.Prelude.{lent_in, set_weight};

    ghost nodes = { λ w. C.nodes w.weights.now.costs.now };

    ghost at = { λ w. set_weight w.weights.now.scale w.weights.now.potentials.now w.weights.now.multipliers.now
        (lent_in w.weights.now.families.now) (C.at w.weights.now.costs.now) };

    #[inline]
    fn count(&self) -> u32 {
        self.weights.costs.count()
    }

    fn fill(&self, from: u32, row: &mut [i64]) {
        self.fill_kept(from, row);
    }
}

impl<C: Costs> LentRows for KeptWeights<'_, C> {
    fn kept_row(&self, from: u32) -> Option<&[i64]> {
        if self.rows.is_empty() {
            return None;
        }
        Some(self.rows[from as usize - 1].as_slice())
    }
}
