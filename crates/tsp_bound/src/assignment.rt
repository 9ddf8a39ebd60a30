//! The bound of a potentials file for an ATSP: the sum of the duals, if no arc costs less than its
//! two duals. Otherwise the first arc that does is reported (`DualInfeasible`). tsp_verdict calls
//! `dual_bound`. `IsDualBound` and `IsFirstBroken` in tsp_theory pin the bound and the arc.

ghost use Rattle.tsp_bound.specs.Prelude.{ℕ, List, length, IsTrue, IfOk, MatchOption, MatchResult, IsNode, IsBoundSized, entry, AreGood, IsFirstBroken, IsDualBound};
ghost use Rattle.std.specs.Prelude.{◌≡◌, ◌≢◌, ◌↔◌, ◌≤◌, ◌<◌, ◌≤ℤ◌, ◌<ℤ◌};
ghost use Rattle.tsp_theory.specs.Tour.{IsCycle, length_of};
ghost use Rattle.tsp_bound.specs.states.Duals.{dual_scale, rows_of, columns_of, dual_of, scaled};

use crate::potentials::{Duals, scaled_cost, total};
use tsp_theory::{Costs, duals_bound_cycles, least_bound};

/// The first pair of different nodes, by rows, whose duals sum to more than the scaled cost.
#[derive(Clone, Copy, Debug, PartialEq, Eq)]
pub struct Infeasible {
    /// The row, from 1 on.
    pub i: u32,
    /// The column, from 1 on.
    pub j: u32,
}

/// The bound of the duals: the least integer that, times their scale, is at least their sum. For
/// all different nodes i and j, the duals of row i and column j may sum to at most the cost from i
/// to j.
///
/// With two or more nodes, no cycle is shorter than the bound. The costs from a node to itself
/// don't matter. No memory is taken. Source: the dual of the assignment problem, H. W. Kuhn, The
/// Hungarian method for the assignment problem, 1955.
///
/// # Requires
///
/// As many duals as nodes.
///
/// # Errors
///
/// The first pair i, j, by rows, whose duals sum to more than the cost.
pub fn dual_bound<C: Costs>(c: &C, d: &Duals) -> Result<i128, Infeasible>
    requires { length (rows_of d.now) ≡ C.nodes c.now }
    ensures value { MatchResult result
        (λ bound.
        AreGood (C.nodes c.now) (C.at c.now) (dual_scale d.now) (rows_of d.now) (columns_of d.now)
        × IsDualBound (dual_scale d.now) (rows_of d.now) (columns_of d.now) bound)
        (λ e. IsFirstBroken (C.nodes c.now) (C.at c.now)
        (dual_scale d.now) (rows_of d.now) (columns_of d.now) e.i e.j) }
    ensures size { IfOk result IsBoundSized }
    ensures cycles { IfOk result (λ bound. 2 ≤ C.nodes c.now
        → (nodes : List ℕ) → IsCycle (C.nodes c.now) nodes → bound ≤ℤ length_of (C.at c.now) nodes) }
{
    'rows: for i in 1..c.count() + 1 {
        if let Some(j) = first_broken_of_row(c, d, i) {
            return Err(Infeasible { i, j });
        }
    }
    duals_bound_cycles();
    let rows = total(d.rows);
    let columns = total(d.columns);
    Ok(least_bound(d.scale, rows + columns))
}

/// The first node other than i whose column's dual, added to that of row i, exceeds the cost.
fn first_broken_of_row<C: Costs>(c: &C, d: &Duals, i: u32) -> Option<u32>
    requires count { length (rows_of d.now) ≡ C.nodes c.now }
    requires row { IsNode (C.nodes c.now) i }
    ensures { MatchOption result
        ((j : ℕ) → IsNode (C.nodes c.now) j → i ≢ j
        → dual_of d.now i j ≤ℤ scaled d.now (C.at c.now) i j)
        (λ j. IsNode (C.nodes c.now) j × (i ≢ j)
        × (scaled d.now (C.at c.now) i j <ℤ dual_of d.now i j)
        × ((b : ℕ) → 1 ≤ b → b < j → i ≢ b
        → dual_of d.now i b ≤ℤ scaled d.now (C.at c.now) i b)) }
{
    let row = d.rows[i as usize - 1];
    // (the node's own pair is compared, too, and only left out afterwards, so that the loop has no
    // branch for it)
    'columns: for j in 1..c.count() + 1 {
        if !fits(c, d, row, i, j) && i != j {
            return Some(j);
        }
    }
    None
}

/// Whether the dual of row i, which the caller passes, and that of column j sum to at most the
/// cost.
///
/// The limits of certificates and of weights let both sides fit 64 bits.
#[inline]
fn fits<C: Costs>(c: &C, d: &Duals, row: i64, i: u32, j: u32) -> bool
    requires count { length (rows_of d.now) ≡ C.nodes c.now }
    requires number { row ≡ entry (rows_of d.now) i }
    requires row { IsNode (C.nodes c.now) i }
    requires column { IsNode (C.nodes c.now) j }
    ensures { IsTrue result ↔ (dual_of d.now i j ≤ℤ scaled d.now (C.at c.now) i j) }
{
    row + d.columns[j as usize - 1] <= scaled_cost(c, d.scale, i, j)
}
