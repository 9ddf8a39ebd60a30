//! The theorems: a cycle has each node once and no loop, lengths add up, and no cycle is shorter
//! than the bound by a minimum 1-tree or by duals. Crates above are proved to compute such a bound;
//! these laws say why it is one. docs/proof.md has the arguments.

ghost use Rattle.std.specs.List.Sorted.{IsPermutation};
ghost use Rattle.std.specs.Prelude.{◌≡◌, ◌≢◌, ◌≤◌, ℕ, ℤ, List, pos, ◌+ℤ◌, ◌*ℤ◌, ◌≤ℤ◌};
ghost use Rattle.tsp_format.specs.Nodes.{IsNode, nodes_to};
ghost use Rattle.tsp_theory.specs.Bounds.{LeastOneTreesAreBelowCycles, AdjustedBoundsBoundCycles, UnadjustedBoundsAreNodeBounds, DualsBoundCycles, IsLeastBound, IsNodeBound, NodeBoundsBoundCycles};
ghost use Rattle.tsp_theory.specs.Tour.{IsCycle, sum_int_by, length_of};

/// A cycle is a permutation of 1..n, so a sum over its nodes is the sum over 1..n.
pub fn cycles_are_permutations()
    ensures permutation { (n : ℕ) (nodes : List ℕ) → IsCycle n nodes
        → IsPermutation nodes (nodes_to n) }
    ensures sum { (n : ℕ) (nodes : List ℕ) (f : ℕ → ℤ) → IsCycle n nodes
        → sum_int_by f nodes ≡ sum_int_by f (nodes_to n) }
{}

/// Lengths under special costs: those that depend only on a link's first node or only on its
/// second, sums of two costs, and costs times a scale.
pub fn lengths_add_up()
    ensures by_first { (f : ℕ → ℤ) (nodes : List ℕ)
        → length_of (λ i j. f i) nodes ≡ sum_int_by f nodes }
    ensures by_second { (f : ℕ → ℤ) (nodes : List ℕ)
        → length_of (λ i j. f j) nodes ≡ sum_int_by f nodes }
    ensures sum { (first second : ℕ → ℕ → ℤ) (nodes : List ℕ)
        → length_of (λ i j. first i j +ℤ second i j) nodes
        ≡ length_of first nodes +ℤ length_of second nodes }
    ensures scale { (scale : ℕ) (cost : ℕ → ℕ → ℤ) (nodes : List ℕ)
        → length_of (λ i j. pos scale *ℤ cost i j) nodes ≡ pos scale *ℤ length_of cost nodes }
{}

/// A cycle of two or more nodes has no link from a node to itself. So if costs between different
/// nodes don't exceed others, neither does the length.
pub fn cycles_have_no_loops()
    ensures { (n : ℕ) (nodes : List ℕ) (lower upper : ℕ → ℕ → ℤ) → 2 ≤ n → IsCycle n nodes
        → ((i j : ℕ) → IsNode n i → IsNode n j → i ≢ j → lower i j ≤ℤ upper i j)
        → length_of lower nodes ≤ℤ length_of upper nodes }
{}

/// The bound of good duals is at most the length of every cycle of two or more nodes.
pub fn duals_bound_cycles()
    ensures { DualsBoundCycles }
{
    cycles_are_permutations();
    lengths_add_up();
    cycles_have_no_loops();
}

/// The bound of potentials is at most the length of every cycle of three or more nodes.
///
/// No code calls it. It is here for readers: the bound of Held and Karp, without numbers on pairs.
pub fn node_bounds_bound_cycles()
    ensures { NodeBoundsBoundCycles }
{
    cycles_are_permutations();
    lengths_add_up();
    cycles_have_no_loops();
}

/// The cut argument: under symmetric weights a minimum 1-tree weighs no more than a cycle of three
/// or more nodes.
///
/// No code calls it. It is here for readers, because all bounds by 1-trees rest on this argument.
pub fn least_trees_are_below_cycles()
    ensures { LeastOneTreesAreBelowCycles }
{
    cycles_are_permutations();
    lengths_add_up();
    cycles_have_no_loops();
}

/// The bound of potentials, with numbers on taken and avoided pairs, is at most the length of every
/// cycle of three or more nodes that uses each taken pair and no avoided one. Without such numbers
/// it is the bound of the potentials.
pub fn adjusted_bounds_bound_cycles()
    ensures cycles { AdjustedBoundsBoundCycles }
    ensures unadjusted { UnadjustedBoundsAreNodeBounds }
{
    cycles_are_permutations();
    lengths_add_up();
    cycles_have_no_loops();
}

/// A sum has one bound at a scale, and potentials have one bound.
pub fn bounds_are_unique()
    ensures sum { (scale sum a b : ℤ) → IsLeastBound scale sum a → IsLeastBound scale sum b
        → a ≡ b }
    ensures potentials { (n : ℕ) (cost : ℕ → ℕ → ℤ) (scale : ℤ) (potentials : List ℤ) (a b : ℤ)
        → IsNodeBound n cost scale potentials a → IsNodeBound n cost scale potentials b → a ≡ b }
{}
