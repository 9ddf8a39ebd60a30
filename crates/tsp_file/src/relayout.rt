//! `tsp convert --layout`: puts the weights of a file into another layout, or finds the first cost
//! that the new layout would lose. tsp_judge calls it. `IsRelayout` and `IsRefused` in
//! `specs/Relayout.antt` pin the result. Half of a matrix becomes a full one block by block; only
//! this order is free.

ghost use Rattle.tsp_file.specs.Prelude.{MatchResult, length, most_matrix_nodes, IsNode, cells, line_len_of, FullMatrix, ℕ, ℤ, List, take, true, OnErr, OnOk, IsSymmetric};
ghost use Rattle.std.specs.Prelude.{◌≡◌, ◌≤◌, ◌+◌, ◌-◌, ◌*◌, ◌≢◌, ◌<◌, ◌⊎◌};
ghost use Rattle.tsp_file.specs.Cost.{listed_cost};
ghost use Rattle.tsp_file.specs.Relayout.{CanGo, IsRefused, IsRelayout, HoldsPairs, costs_in};
ghost use Rattle.tsp_file.specs.states.Drafts.{LeadsTo, line_start_of, goes_above, is_on_side, IsCostOfCell, HasLaterLines, HasSide, Fills};

use crate::file::File;
use std::alloc::{AllocError, Global};
use std::fmt;
use thiserror::Error;
use tsp_format::Layout;

impl File {
    /// This file with its weights in another layout.
    ///
    /// Every cost stays as it is, even from a node to itself, and so does every field except the
    /// format and the weights. No memory is taken if the file has the layout already, or if a full
    /// matrix becomes half of one, in its own memory. If half of a matrix becomes a full one, only
    /// the memory of the full one is taken.
    ///
    /// # Errors
    ///
    /// The first that applies, along with the file:
    ///
    /// - `NotExplicit`: the weight type isn't EXPLICIT, or there are no weights.
    /// - `NotSymmetric`: the layout lists half of a matrix, and this is the first pair, the smaller
    ///   node first, by rows, whose two costs differ.
    /// - `DiagonalLost`: the layout lists no diagonal, and this is the first node whose cost to
    ///   itself isn't 0.
    /// - `OutOfMemory`.
    pub fn relayout(self, alloc: Global, to: Layout) -> Result<File, (RelayoutFault, File)>
        ensures { IsRelayout self to result }
    {
        match self.way(alloc, to) {
            Err(fault) => Err((fault, self)),
            Ok(Way::Already) => Ok(self),
            Ok(Way::Within) => Ok(self.with_half(to)),
            Ok(Way::Across(from)) => match self.with_whole(from) {
                Ok(file) => Ok(file),
                Err(back) => Err((RelayoutFault::OutOfMemory, back)),
            },
            Ok(Way::Anew(weights)) => Ok(self.with_weights(to, weights)),
        }
    }

    /// Chooses how the weights of this file get into another layout.
    fn way(&self, alloc: Global, to: Layout) -> Result<Way, RelayoutFault>
        ensures { MatchResult result
            (λ way. CanGo self.now to × LeadsTo self.now to way)
            (λ fault. IsRefused self.now to fault) }
    {
        let Some(listed) = self.as_matrix() else {
            return Err(RelayoutFault::NotExplicit);
        };
        if listed.are_in(to) {
            return Ok(Way::Already);
        }
        if let Some((i, j)) = listed.lost_pair(to) {
            return Err(RelayoutFault::NotSymmetric { i, j });
        }
        if let Some(i) = listed.lost_diagonal(to) {
            return Err(RelayoutFault::DiagonalLost { i });
        }
        if listed.are_in(Layout::FullMatrix) {
            return Ok(Way::Within);
        }
        if to == Layout::FullMatrix {
            return Ok(Way::Across(listed.layout));
        }
        match listed.laid_out(alloc, to) {
            Ok(weights) => Ok(Way::Anew(weights)),
            Err(_) => Err(RelayoutFault::OutOfMemory),
        }
    }
}

// ---- the four ways to put the weights of a file into another layout

/// How the weights of a file get into another layout.
#[derive(Drop)]
pub(crate) enum Way {
    /// They have that layout already.
    Already,
    /// They are a full matrix. What the layout lists is moved to the front.
    Within,
    /// They are half of a matrix, in this layout. The full matrix is made in the same vector.
    Across(Layout),
    /// They go into a new vector, which is here.
    Anew(Vec<i64>),
}

// ---- why the weights of a file can't be put into another layout

/// Why the weights of a file can't have another layout, in the order in which this is judged.
#[derive(Clone, Copy, Debug, PartialEq, Eq, Error)]
pub enum RelayoutFault {
    /// The weight type isn't EXPLICIT, or there are no weights.
    NotExplicit,
    /// The layout lists half of a matrix, but the costs between these two nodes differ. This is the
    /// first such pair by rows, the smaller node first.
    NotSymmetric { i: u32, j: u32 },
    /// The layout lists no diagonal, but the cost from this node to itself isn't 0. This is the
    /// first such node.
    DiagonalLost { i: u32 },
    /// Out of memory.
    OutOfMemory,
}

impl fmt::Display for RelayoutFault {
    ghost use Rattle.std.specs.Prelude.{Some};
    ghost use Rattle.tsp_file.specs.Relayout.{relayout_fault_text};

    ghost output = { λ fault. Some (relayout_fault_text fault) };

    fn fmt<W: fmt::Write>(&self, f: &mut fmt::Formatter<W>) -> fmt::Result {
        match *self {
            RelayoutFault::NotExplicit => f.write_str("NotExplicit"),
            RelayoutFault::NotSymmetric { i, j } => write!(f, "NotSymmetric {i} {j}"),
            RelayoutFault::DiagonalLost { i } => write!(f, "DiagonalLost {i}"),
            RelayoutFault::OutOfMemory => f.write_str("OutOfMemory"),
        }
    }
}

// ---- half of a full symmetric matrix, moved to the beginning of its vector

/// Moves what a layout lists of a full matrix to the front, in the layout's order, and drops the
/// rest.
///
/// No line of the layout begins before its place in the result, so none is overwritten before it
/// has been moved. For a layout by columns, the row across the diagonal is moved, whose costs are
/// the same. No memory is taken.
pub(crate) fn keep_half(to: Layout, nodes: u32, weights: &mut Vec<i64>)
    requires few { nodes ≤ most_matrix_nodes }
    requires filled { length weights.old.items ≡ length (cells FullMatrix nodes) }
    requires pairs { HoldsPairs to (listed_cost FullMatrix nodes weights.old.items) }
    ensures { weights.new.items
        ≡ costs_in to nodes (listed_cost FullMatrix nodes weights.old.items) }
{
    let mut kept = 0;
    'lines: for line in 1..nodes + 1 {
        let start = line_start(to, nodes, line);
        let end = start + to.line_len(nodes, line) as usize;
        weights.copy_within(start..end, kept);
        kept += end - start;
    }
    weights.truncate(kept);
}

/// Where a line of a layout, or the row across the diagonal from it, begins in a full matrix.
fn line_start(layout: Layout, nodes: u32, line: u32) -> usize
    requires few { nodes ≤ most_matrix_nodes }
    requires line { IsNode nodes line }
    ensures value { result ≡ line_start_of layout nodes line }
    ensures within { result + line_len_of layout nodes line ≤ line * nodes }
{
    let before = match layout {
        Layout::UpperRow | Layout::LowerCol => line,
        Layout::UpperDiagRow | Layout::LowerDiagCol => line - 1,
        _ => 0,
    };
    (line as usize - 1) * nodes as usize + before as usize
}

// ---- a full matrix, made of its listed half in the same vector

/// How many columns are filled at a time. What is read across the diagonal then stays in the cache.
const BAND: u32 = 64;

/// Turns a listed half into the full matrix: moves the lines to their rows, from the last to the
/// first, and then fills in the costs across the diagonal.
///
/// # Errors
///
/// Out of memory. The weights are then unchanged. No more memory is taken than the full matrix
/// needs.
pub(crate) fn make_whole(from: Layout, nodes: u32, weights: &mut Vec<i64>) -> Result<(), AllocError>
    requires few { nodes ≤ most_matrix_nodes }
    requires half { from ≢ FullMatrix }
    requires filled { length weights.old.items ≡ length (cells from nodes) }
    ensures ok { OnOk result (weights.new.items
        ≡ costs_in FullMatrix nodes (listed_cost from nodes weights.old.items)) }
    ensures err { OnErr result (weights.new.items ≡ weights.old.items) }
{
    let count = weights.len();
    let whole = nodes as usize * nodes as usize;
    weights.reserve_exact(whole.saturating_sub(count))?;
    weights.resize(whole, 0)?;
    spread_lines(from, nodes, weights, count);
    clear_diagonal(from, nodes, weights);
    fill_across(is_above(from), nodes, weights);
    Ok(())
}

/// Whether a line of a layout, or the row across the diagonal from it, lies above the diagonal.
fn is_above(layout: Layout) -> bool
    ensures { result ≡ goes_above layout }
{
    matches!(
        layout,
        Layout::UpperRow | Layout::UpperDiagRow | Layout::LowerCol | Layout::LowerDiagCol
    )
}

/// Moves the lines of a layout from the front of the vector to their rows in a full matrix, from
/// the last to the first. No row begins before its line did, so no line is overwritten before it
/// has been moved.
fn spread_lines(from: Layout, nodes: u32, weights: &mut Vec<i64>, count: usize)
    requires few { nodes ≤ most_matrix_nodes }
    requires size { length weights.old.items ≡ nodes * nodes }
    requires count { count ≡ length (cells from nodes) }
    ensures size { length weights.new.items ≡ nodes * nodes }
    ensures lines { (half : List ℤ) → length half ≡ count → take count weights.old.items ≡ half
        → HasLaterLines from nodes 0 half weights.new.items }
{
    let mut line = nodes;
    let mut kept = count;
    'lines: while line > 0 {
        let len = from.line_len(nodes, line) as usize;
        kept -= len;
        weights.copy_within(kept..kept + len, line_start(from, nodes, line));
        line -= 1;
    }
}

/// Sets the diagonal to 0 if a layout doesn't list it.
fn clear_diagonal(from: Layout, nodes: u32, weights: &mut Vec<i64>)
    requires few { nodes ≤ most_matrix_nodes }
    requires size { length weights.old.items ≡ nodes * nodes }
    ensures size { length weights.new.items ≡ nodes * nodes }
    ensures side { (half : List ℤ) → length half ≡ length (cells from nodes) → from ≢ FullMatrix
        → HasLaterLines from nodes 0 half weights.old.items
        → HasSide (goes_above from) (listed_cost from nodes half) nodes weights.new.items }
{
    if from.lists(1, 1) {
        return;
    }
    'nodes: for node in 1..nodes + 1 {
        weights[Layout::FullMatrix.place(nodes, node, node)] = 0;
    }
}

/// Fills in the costs across the diagonal, band by band of columns.
fn fill_across(above: bool, nodes: u32, weights: &mut Vec<i64>)
    requires few { nodes ≤ most_matrix_nodes }
    requires size { length weights.old.items ≡ nodes * nodes }
    ensures size { length weights.new.items ≡ nodes * nodes }
    ensures costs { (cost : ℕ → ℕ → ℤ)
        → IsSymmetric cost → HasSide above cost nodes weights.old.items
        → (i j : ℕ) → IsNode nodes i → IsNode nodes j → IsCostOfCell cost nodes weights.new.items i j }
{
    'bands: for band in 0..nodes / BAND + 1 {
        fill_band(above, nodes, weights, band * BAND + 1);
    }
}

/// Fills in the costs across the diagonal, in the band of columns that begins with this one.
fn fill_band(above: bool, nodes: u32, weights: &mut Vec<i64>, left: u32)
    requires few { nodes ≤ most_matrix_nodes }
    requires left { 1 ≤ left }
    requires left_most { left ≤ nodes + 1 }
    requires size { length weights.old.items ≡ nodes * nodes }
    ensures size { length weights.new.items ≡ nodes * nodes }
    ensures costs { (cost : ℕ → ℕ → ℤ)
        → IsSymmetric cost → HasSide above cost nodes weights.old.items → Fills cost
        nodes weights.old.items weights.new.items (λ _ j. (left ≤ j) × (j < left + 64)) }
{
    'rows: for row in 1..nodes + 1 {
        fill_in_band(above, nodes, weights, row, left);
    }
}

/// The columns of a row that lie across the diagonal in the band that begins with a column: the
/// first of them, and the one after the last.
#[inline]
fn across_in_band(above: bool, nodes: u32, row: u32, left: u32) -> (u32, u32)
    requires few { nodes ≤ most_matrix_nodes }
    requires row { IsNode nodes row }
    requires left { 1 ≤ left }
    requires left_most { left ≤ nodes + 1 }
    ensures some { 1 ≤ result.0 }
    ensures most { result.1 ≤ nodes + 1 }
    ensures turned { (j : ℕ) → result.0 ≤ j → j < result.1 → is_on_side above j row ≡ true }
    ensures others { (j : ℕ) → left ≤ j → j < left + 64 → j ≤ nodes
        → ((result.0 ≤ j) × (j < result.1)) ⊎ (is_on_side above row j ≡ true) }
{
    let past = if left + BAND <= nodes {
        left + BAND
    } else {
        nodes + 1
    };
    if above {
        (left, past.min(row))
    } else {
        (left.max(row + 1), past)
    }
}

/// Fills in the costs across the diagonal, in one row of the band.
#[inline]
fn fill_in_band(above: bool, nodes: u32, weights: &mut Vec<i64>, row: u32, left: u32)
    requires few { nodes ≤ most_matrix_nodes }
    requires row { IsNode nodes row }
    requires left { 1 ≤ left }
    requires left_most { left ≤ nodes + 1 }
    requires size { length weights.old.items ≡ nodes * nodes }
    ensures size { length weights.new.items ≡ nodes * nodes }
    ensures costs { (cost : ℕ → ℕ → ℤ)
        → IsSymmetric cost → HasSide above cost nodes weights.old.items → Fills cost nodes
        weights.old.items weights.new.items (λ i j. (i ≡ row) × (left ≤ j) × (j < left + 64)) }
{
    let (first, past) = across_in_band(above, nodes, row, left);
    'columns: for column in first..past {
        let turned = weights[Layout::FullMatrix.place(nodes, column, row)];
        weights[Layout::FullMatrix.place(nodes, row, column)] = turned;
    }
}
