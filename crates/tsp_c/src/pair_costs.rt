//! The C calls `tsp_weights` and `tsp_matrix`, and the same on a handle: they fill in costs of
//! pairs and rows of the matrix. `lib.rt` and `handle_calls.rt` export them, and
//! `specs/NumberCalls.antt` pins the numbers.

ghost use Rattle.std.specs.List.{All};
ghost use Rattle.std.specs.Prelude.{◌+◌, ◌≤◌, ◌*◌, ◌↔◌, IsTrue, length, ◌≡◌, ◌<◌, ℕ, ℤ, List};
ghost use Rattle.tsp_format.specs.Nodes.{IsNode};
ghost use Rattle.tsp_file.specs.Fields.{nodes_of};
ghost use Rattle.tsp_c.specs.NumberCalls.{ArePairs, EndsWeights, EndsMatrix, FillsWeights, FillsMatrix, IsFilled, pair_count, pair_cost, row_cost};

use crate::call_end::CallEnd;
use crate::text_instance::instance_of;
use std::alloc::Global;
use tsp_cost::{Costs, Instance};

/// Fills in the costs of pairs of nodes of a text's instance, and returns the status.
pub(crate) fn fill_weights(alloc: Global, text: &[u8], pairs: &[u32], out: &mut [i64]) -> CallEnd
    ensures { FillsWeights text.now pairs.now out.old out.new result }
{
    match instance_of(alloc, text) {
        Err(error) => CallEnd::of_fault(error),
        Ok(instance) => {
            let status = weights_of(&instance, pairs, out);
            drop(instance);
            status
        }
    }
}

/// Fills in the costs of pairs of nodes of an instance, and returns the status.
pub(crate) fn weights_of(instance: &Instance, pairs: &[u32], out: &mut [i64]) -> CallEnd
    ensures { EndsWeights instance.now pairs.now out.old out.new result }
{
    if !are_pairs(instance.count(), pairs) {
        return CallEnd::refused();
    }
    if out.len() < pairs.len() / 2 {
        return CallEnd::too_small();
    }
    put_weights(instance, pairs, out);
    CallEnd::done()
}

/// Whether numbers are pairs of nodes up to `count`.
fn are_pairs(count: u32, pairs: &[u32]) -> bool
    ensures { IsTrue result ↔ ArePairs pairs.now count }
{
    pairs.len() == 2 * (pairs.len() / 2) && are_nodes(count, pairs)
}

/// Whether numbers are nodes up to `count`.
fn are_nodes(count: u32, nodes: &[u32]) -> bool
    ensures { IsTrue result ↔ All (IsNode count) nodes.now }
{
    nodes.iter().all(|node| *node >= 1 && *node <= count)
}

/// Puts the costs of pairs at the start of a buffer that has a place for each.
fn put_weights(instance: &Instance, pairs: &[u32], out: &mut [i64])
    requires pairs { ArePairs pairs.now (nodes_of instance.now) }
    requires room { pair_count pairs.now ≤ length out.old }
    ensures { IsFilled (pair_count pairs.now) (pair_cost pairs.now instance.now) out.old out.new }
{
    'pairs: for k in 0..pairs.len() / 2 {
        put(out, k, instance.cost(pairs[2 * k], pairs[2 * k + 1]));
    }
}

/// Fills in rows of the cost matrix of a text's instance, and returns the status.
pub(crate) fn fill_matrix(alloc: Global, text: &[u8], first_row: u32, out: &mut [i64]) -> CallEnd
    ensures { FillsMatrix text.now first_row out.old out.new result }
{
    match instance_of(alloc, text) {
        Err(error) => CallEnd::of_fault(error),
        Ok(instance) => {
            let status = rows_of(&instance, first_row, out);
            drop(instance);
            status
        }
    }
}

/// Fills in rows of the cost matrix of an instance, and returns the status.
pub(crate) fn rows_of(instance: &Instance, first_row: u32, out: &mut [i64]) -> CallEnd
    ensures { EndsMatrix instance.now first_row out.old out.new result }
{
    let count = instance.count();
    if first_row < 1 || first_row > count {
        return CallEnd::refused();
    }
    if out.len() < count as usize {
        return CallEnd::too_small();
    }
    let rows = (out.len() / count as usize).min((count + 1 - first_row) as usize);
    put_rows(instance, first_row, rows, out);
    CallEnd::done()
}

/// Puts rows of costs at the start of a buffer that has a place for each.
fn put_rows(instance: &Instance, first_row: u32, rows: usize, out: &mut [i64])
    requires first { 1 ≤ first_row }
    requires last { first_row + rows ≤ nodes_of instance.now + 1 }
    requires room { rows * nodes_of instance.now ≤ length out.old }
    ensures { IsFilled (rows * nodes_of instance.now) (row_cost first_row instance.now) out.old out.new }
{
    let count = instance.count() as usize;
    'places: for k in 0..rows * count {
        let from = first_row as usize + k / count;
        let to = k % count + 1;
        put(out, k, instance.cost(from as u32, to as u32));
    }
}

// ---- puts a number into a caller's buffer

/// Puts a number into a place of a buffer whose earlier places are filled.
#[inline(always)]
pub(crate) fn put(out: &mut [i64], place: usize, number: i64)
    requires { place < length out.old }
    ensures { (numbers : ℕ → ℤ) (start : List ℤ) → number ≡ numbers place → IsFilled place numbers start out.old
        → IsFilled (place + 1) numbers start out.new }
{
    out[place] = number;
}
