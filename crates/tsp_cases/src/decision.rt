//! A decision of a branch: a pair of nodes that cycles use, or one that they avoid. Also `DECIDED`,
//! the large number on such a pair, which makes a minimum 1-tree keep the decision: with a smaller
//! number every bound would still hold, but most would be weaker.

/// The number on each decided pair. It cancels in the bound, so any number would do. This one is
/// far above all other parts of a weight, but small enough for weights to fit 64 bits.
pub const DECIDED: i64 = 4_000_000_000_000_000_000;

/// A pair of nodes, and whether a cycle is to use it.
#[derive(Clone, Copy, Debug, PartialEq, Eq)]
pub struct Decision {
    /// The two nodes, from the first to the second if pairs have a direction.
    pub pair: (u32, u32),
    /// Whether cycles use the pair (true) or avoid it.
    pub taken: bool,
}
