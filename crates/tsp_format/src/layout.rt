//! The layouts in which G. Reinelt's TSPLIB 95 lists a matrix, such as UPPER_ROW: which pairs of
//! nodes each contains, in which order, and by arithmetic at which place the weight of a pair is.
//! The order is `cells` in `specs/Nodes.antt`. Every lookup of a listed cost takes its place by
//! `place_of` in `specs/Place.antt`, and the contracts here tie that formula to the order.

ghost use Rattle.std.specs.List.{Contains, AllPairs, flat_map};
ghost use Rattle.std.specs.Prelude.{◌≡◌, ◌≢◌, ℕ, ◌≤◌, ◌↔◌, IsTrue, IsNone, length, ◌<◌, ◌^◌, ◌+◌, ◌*◌, Some, None, slice_index_or};
ghost use Rattle.tsp_format.specs.Nodes.{nodes_to, IsNode, is_listed, goes_by_columns, cells, cells_of_line, cell_count_of, line_len_of};
ghost use Rattle.tsp_format.specs.Place.{place_of, place_by_table, upper_place, lower_place, upper_diag_place, lower_diag_place};
ghost use Rattle.tsp_format.specs.Words.{layout_word, layouts, layout_found};
ghost use Rattle.tsp_format.specs.declared.layout.Layout.{Layout};

use crate::word::{Word, value_of};

/// Which weights of a matrix a file lists, and in which order.
///
/// A layout lists all cells of the matrix, those above the diagonal (`Upper`) or those below it
/// (`Lower`), with the diagonal (`Diag`) or without, by rows (`Row`) or by columns (`Col`).
#[derive(Clone, Copy, Debug, PartialEq, Eq)]
pub enum Layout {
    FullMatrix,
    UpperRow,
    LowerRow,
    UpperDiagRow,
    LowerDiagRow,
    UpperCol,
    LowerCol,
    UpperDiagCol,
    LowerDiagCol,
}

impl Layout {
    /// Each layout.
    pub const ALL: [Layout; 9] = [
        Layout::FullMatrix,
        Layout::UpperRow,
        Layout::LowerRow,
        Layout::UpperDiagRow,
        Layout::LowerDiagRow,
        Layout::UpperCol,
        Layout::LowerCol,
        Layout::UpperDiagCol,
        Layout::LowerDiagCol,
    ];

    /// The layout with this word, byte by byte, or `None` if no layout has it.
    pub fn of_word(word: &str) -> Option<Layout>
        ensures known { (layout : Layout) →
            (result ≡ Some layout) ↔ (word.now ≡ layout_word layout) }
        ensures unknown { IsNone result ↔ ((layout : Layout) → word.now ≢ layout_word layout) }
    {
        value_of(word.as_bytes())
    }

    /// Whether the cells are listed by columns.
    pub fn goes_by_columns(self) -> bool
        ensures { result ≡ goes_by_columns self }
    {
        matches!(
            self,
            Layout::UpperCol | Layout::LowerCol | Layout::UpperDiagCol | Layout::LowerDiagCol
        )
    }

    /// The number of cells that it lists for this many nodes.
    #[tactic(auto, using(crate::proofs::Pairs::cells_counted))]
    pub fn cell_count(self, nodes: u32) -> u64
        ensures count { result ≡ length (cells self nodes) }
        ensures table { result ≡ cell_count_of self nodes }
    {
        let nodes = u64::from(nodes);
        match self {
            Layout::FullMatrix => nodes * nodes,
            Layout::UpperRow | Layout::LowerRow | Layout::UpperCol | Layout::LowerCol => {
                nodes * nodes.saturating_sub(1) / 2
            }
            Layout::UpperDiagRow
            | Layout::LowerDiagRow
            | Layout::UpperDiagCol
            | Layout::LowerDiagCol => nodes * (nodes + 1) / 2,
        }
    }

    /// The number of cells in one row, or in one column for a layout by columns.
    #[tactic(auto, using(crate::proofs::Pairs::line_counted))]
    pub fn line_len(self, nodes: u32, line: u32) -> u32
        requires from_one { 1 ≤ line }
        requires to_nodes { line ≤ nodes }
        ensures count { result ≡ length (cells_of_line self nodes line) }
        ensures table { result ≡ line_len_of self nodes line }
    {
        match self {
            Layout::FullMatrix => nodes,
            Layout::UpperRow | Layout::LowerCol => nodes - line,
            Layout::LowerRow | Layout::UpperCol => line - 1,
            Layout::UpperDiagRow | Layout::LowerDiagCol => nodes - line + 1,
            Layout::LowerDiagRow | Layout::UpperDiagCol => line,
        }
    }
}

impl Word for Layout {
    ghost text = { layout_word };

    ghost values = { layouts };

    ghost found = { layout_found };

    fn all() -> &'static [Layout] {
        &Layout::ALL
    }

    fn word(self) -> &'static str {
        match self {
            Layout::FullMatrix => "FULL_MATRIX",
            Layout::UpperRow => "UPPER_ROW",
            Layout::LowerRow => "LOWER_ROW",
            Layout::UpperDiagRow => "UPPER_DIAG_ROW",
            Layout::LowerDiagRow => "LOWER_DIAG_ROW",
            Layout::UpperCol => "UPPER_COL",
            Layout::LowerCol => "LOWER_COL",
            Layout::UpperDiagCol => "UPPER_DIAG_COL",
            Layout::LowerDiagCol => "LOWER_DIAG_COL",
        }
    }
}

/// No cell of a layout appears twice in its list.
///
/// No code calls it. It is here for readers: the definition `cells` lists no weight twice.
pub fn cells_are_distinct()
    ensures { (layout : Layout) (n : ℕ) → AllPairs (λ a b. a ≢ b) (cells layout n) }
{}

/// The cells of a layout are the pairs of nodes that pass its test, and no others.
pub fn cells_are_the_listed_pairs()
    ensures { (layout : Layout) (n i j : ℕ) →
        Contains (cells layout n) (i, j) ↔
        (IsNode n i × IsNode n j × IsTrue (is_listed layout (i, j))) }
{}

/// The cells of a layout are those of its lines, from line 1 to line n, one line after the other.
///
/// No code calls it. It is here for readers: the definition `cells` has the order of the format.
pub fn cells_go_line_by_line()
    ensures { (layout : Layout) (n : ℕ) →
        cells layout n ≡ flat_map (cells_of_line layout n) (nodes_to n) }
{}

// ---- where the weight of a pair is in the list of a matrix

impl Layout {
    /// Whether the layout lists the pair (i, j). A full matrix lists all pairs, the halves those
    /// with i below j, above it, at most j, or at least j.
    #[inline]
    pub fn lists(self, i: u32, j: u32) -> bool
        ensures { result ≡ is_listed self (i, j) }
    {
        match self {
            Layout::FullMatrix => true,
            Layout::UpperRow | Layout::UpperCol => i < j,
            Layout::LowerRow | Layout::LowerCol => i > j,
            Layout::UpperDiagRow | Layout::UpperDiagCol => i <= j,
            Layout::LowerDiagRow | Layout::LowerDiagCol => i >= j,
        }
    }

    /// The index of the cell (i, j) among the weights of a matrix, from 0 on.
    ///
    /// # Requires
    ///
    /// A pair of nodes that the layout lists.
    #[inline]
    #[tactic(auto, using(crate::proofs::Places::placed, crate::proofs::Places::place_within))]
    pub fn place(self, nodes: u32, i: u32, j: u32) -> usize
        requires row { IsNode nodes i }
        requires column { IsNode nodes j }
        requires listed { IsTrue (is_listed self (i, j)) }
        ensures value { place_of self nodes (i, j) ≡ Some result }
        ensures within { result < length (cells self nodes) }
        ensures table { result ≡ place_by_table self nodes i j }
    {
        place_by_table(self, nodes as usize, i as usize, j as usize)
    }

    /// The cell at an index in one row, counted from 0; in one column for a layout by columns.
    ///
    /// # Requires
    ///
    /// A line of 1 to `nodes`, and an index below the line's number of cells.
    #[inline]
    #[tactic(auto, using(crate::proofs::Places::line_at))]
    pub fn line_cell(self, nodes: u32, line: u32, index: u32) -> (u32, u32)
        requires line { IsNode nodes line }
        requires index { index < line_len_of self nodes line }
        ensures value { (default : ℕ × ℕ) →
            slice_index_or (cells_of_line self nodes line) index default ≡ result }
        ensures row { IsNode nodes result.0 }
        ensures column { IsNode nodes result.1 }
    {
        match self {
            Layout::FullMatrix | Layout::LowerRow | Layout::LowerDiagRow => (line, 1 + index),
            Layout::UpperRow => (line, line + 1 + index),
            Layout::UpperDiagRow => (line, line + index),
            Layout::UpperCol | Layout::UpperDiagCol => (1 + index, line),
            Layout::LowerCol => (line + 1 + index, line),
            Layout::LowerDiagCol => (line + index, line),
        }
    }
}

/// A pair that the layout doesn't list has no place.
pub fn only_cells_have_places()
    ensures { (layout : Layout) (n : ℕ) (pair : ℕ × ℕ)
        → ¬ Contains (cells layout n) pair → place_of layout n pair ≡ None }
{}

/// The place of a cell by the table of places.
#[inline]
fn place_by_table(layout: Layout, n: usize, i: usize, j: usize) -> usize
    requires row { IsNode n i }
    requires column { IsNode n j }
    requires listed { IsTrue (is_listed layout (i, j)) }
    requires few { n < 2 ^ 32 }
    ensures { result ≡ place_by_table layout n i j }
{
    match layout {
        Layout::FullMatrix => (i - 1) * n + (j - 1),
        Layout::UpperRow => place_above(n, i, j),
        Layout::LowerRow => place_below(i, j),
        Layout::UpperDiagRow => place_from_diagonal(n, i, j),
        Layout::LowerDiagRow => place_to_diagonal(i, j),
        Layout::UpperCol => place_below(j, i),
        Layout::LowerCol => place_above(n, j, i),
        Layout::UpperDiagCol => place_to_diagonal(j, i),
        Layout::LowerDiagCol => place_from_diagonal(n, j, i),
    }
}

/// The place among the pairs above the diagonal, by rows.
#[inline]
#[tactic(auto, using(crate::proofs::Places::half_below))]
fn place_above(n: usize, i: usize, j: usize) -> usize
    requires first { 1 ≤ i }
    requires above { i < j }
    requires last { j ≤ n }
    requires few { n < 2 ^ 32 }
    ensures { result ≡ upper_place n i j }
{
    (i - 1) * n - i * (i - 1) / 2 + (j - i - 1)
}

/// The place among the pairs below the diagonal, by rows.
#[inline]
fn place_below(i: usize, j: usize) -> usize
    requires first { 1 ≤ j }
    requires below { j < i }
    requires few { i < 2 ^ 32 }
    ensures { result ≡ lower_place i j }
{
    (i - 1) * (i - 2) / 2 + (j - 1)
}

/// The place among the pairs on the diagonal and above it, by rows.
#[inline]
#[tactic(auto, using(crate::proofs::Places::half_below))]
fn place_from_diagonal(n: usize, i: usize, j: usize) -> usize
    requires first { 1 ≤ i }
    requires above { i ≤ j }
    requires last { j ≤ n }
    requires few { n < 2 ^ 32 }
    ensures { result ≡ upper_diag_place n i j }
{
    (i - 1) * (n + 1) - i * (i - 1) / 2 + (j - i)
}

/// The place among the pairs on the diagonal and below it, by rows.
#[inline]
fn place_to_diagonal(i: usize, j: usize) -> usize
    requires first { 1 ≤ j }
    requires below { j ≤ i }
    requires few { i < 2 ^ 32 }
    ensures { result ≡ lower_diag_place i j }
{
    i * (i - 1) / 2 + (j - 1)
}
