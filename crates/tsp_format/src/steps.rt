//! A step of a tree of cases, as BRANCH_SECTION lists it, and a subset row, as SUBSET_ROW_SECTION
//! lists it. tsp_read makes them, and tsp_cases and tsp_routing judge them. Contracts see them as
//! in `specs/Steps.antt`.

/// A step of a tree of cases. Steps follow each other, and each is about the first open case.
#[derive(Debug, Drop)]
pub enum TreeStep {
    /// Divides a case by a pair of nodes: the next tree is for the cycles that use it, and the one
    /// after that for those that don't. Or by a family and a limit, written n + k and t: the next
    /// tree is for the solutions that cross family k at most 2t times, and the one after that for
    /// the others.
    Branch(u32, u32),
    /// Closes a case by numbers, given as differences to those of the leaf before it, which are 0
    /// before the first leaf. The indexes 1 to n are the nodes' potentials, n + k is the multiplier
    /// of family k, and n + 10,000 + r that of subset row r.
    Leaf(Vec<(u32, i64)>),
}

/// A limited-memory subset row: a set of nodes, and further nodes that also keep its parity. Judges
/// decide whether they are customers.
#[derive(Debug, Drop)]
pub struct RowSets {
    pub set: Vec<u32>,
    pub further: Vec<u32>,
}
