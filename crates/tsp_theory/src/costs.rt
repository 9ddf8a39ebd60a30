//! `Costs` and `Symmetric`, the traits through which every bound and verdict sees an instance: a
//! cost for each ordered pair of nodes, and perhaps a place in space for each node. tsp_cost
//! implements them. Shortcuts such as `is_beyond` are pinned by their contracts, which tie them to
//! `cost`. The lengths of tours are added up here, too. `Weights` is a trait for weights that are
//! asked for row by row, so that no algorithm needs a whole matrix; tsp_bound grows trees over it.

ghost use Rattle.std.specs.Bool.{OnTrue};
ghost use Rattle.std.specs.Int.{w64, int_wrap};
ghost use Rattle.std.specs.List.{All};
ghost use Rattle.std.specs.Prelude.{◌≡◌, ◌≤◌, ◌+◌, ℕ, ℤ, length, pos, neg_ℤ, ◌≤ℤ◌, IfSome, ◌-ℤ◌, unsigned_abs, ◌++◌, ◌∷◌, [], map, IfOk, OnOk, ◌≢◌, ◌<◌, ◌+ℤ◌, ◌<ℤ◌, slice_index};
ghost use Rattle.tsp_number.specs.Distances.{on_plane};
ghost use Rattle.tsp_number.specs.declared.decimal.Point.{Point};
ghost use Rattle.tsp_format.specs.Limits.{most_nodes, most_tour_nodes, most_weight};
ghost use Rattle.tsp_format.specs.Nodes.{IsNode, nodes_to};
ghost use Rattle.tsp_theory.specs.Costs.{IsCostRow, IsIn, IsSite};
ghost use Rattle.tsp_theory.specs.Tour.{length_of};
ghost use Rattle.tsp_theory.specs.states.Nearest.{least_at};

use std::alloc::{AllocError, Global};
use tsp_io::{Refused, push, with_capacity};
use tsp_number::{Decimal, Point};

/// Costs between the nodes 1 to `count`, which needn't be symmetric.
///
/// Nodes may have places in space. Then a region can rule out all nodes in it at once, because they
/// are too far away. By default no node has a place, nothing is known about a region, and the order
/// is empty.
pub trait Costs {
    ghost nodes: { Self → ℕ };

    ghost at: { Self → ℕ → ℕ → ℤ };

    ghost place: { Self → ℕ → Point } = { λ _ _. on_plane (pos 0) (pos 0) };

    /// How many nodes there are: 1 to 100,000.
    fn count(&self) -> u32
        ensures value { result ≡ nodes self.now }
        ensures some { 1 ≤ result }
        ensures most { result ≤ most_nodes };

    /// The cost from one node to another, at most 10^12 in size; the same at each call.
    ///
    /// # Requires
    ///
    /// Nodes of 1 to `count`. They may be the same node.
    fn cost(&self, i: u32, j: u32) -> i64
        requires from { IsNode (nodes self.now) i }
        requires to { IsNode (nodes self.now) j }
        ensures value { result ≡ at self.now i j }
        ensures low { neg_ℤ (pos most_weight) ≤ℤ result }
        ensures high { result ≤ℤ pos most_weight };

    /// Whether the costs from a node are next to each other in memory, so that a whole row costs
    /// little more to read than a single entry. Only a hint: the contract promises nothing.
    fn has_rows(&self) -> bool {
        false
    }

    /// Writes the row of a node: the costs from it to all nodes, at their places.
    ///
    /// # Requires
    ///
    /// A node of 1 to `count`, and a row of one place more than there are nodes.
    fn costs_from(&self, i: u32, row: &mut [i64])
        requires from { IsNode (nodes self.now) i }
        requires room { length row.old ≡ nodes self.now + 1 }
        ensures values { IsCostRow (nodes self.now) (at self.now i) row.new }
    {
        'nodes: for j in 1..self.count() + 1 {
            row[j as usize] = self.cost(i, j);
        }
    }

    /// The length of a list of nodes, as [`tour_length`](crate::tour_length) gives it.
    ///
    /// # Requires
    ///
    /// Nodes of 1 to `count`, and at most 1,000,000 of them.
    fn length(&self, tour: &[u32]) -> i64
        requires range { All (IsNode (nodes self.now)) tour.now }
        requires size { length tour.now ≤ most_tour_nodes }
        ensures { result ≡ length_of (at self.now) tour.now }
    {
        let Some((first, others)) = tour.split_first() else {
            return 0;
        };
        let mut from = *first;
        let mut length = 0;
        'nodes: for node in others {
            length += self.cost(from, *node);
            from = *node;
        }
        length + self.cost(from, *first)
    }

    /// An order of the nodes 2..n in which near nodes are close together.
    ///
    /// Only a hint: the contract promises nothing. In a tree of boxes in which box v has the halves
    /// 2v and 2v + 1, the node at place i is the leaf n - 1 + i.
    ///
    /// # Errors
    ///
    /// Out of memory.
    fn order(&self, alloc: Global) -> Result<Vec<u32>, Refused> {
        Ok(Vec::new(alloc))
    }

    /// The node with its place, if it has one.
    fn site(&self, node: u32) -> Option<Site>
        requires { IsNode (nodes self.now) node }
        ensures { IfSome result (λ site. (site.node ≡ node) × IsSite (nodes self.now) (place self.now) site) }
    {
        None
    }

    /// The cost from one node to another, given both with their places, from which it may be
    /// computed.
    fn cost_between(&self, from: &Site, to: &Site) -> i64
        requires from { IsSite (nodes self.now) (place self.now) from.now }
        requires to { IsSite (nodes self.now) (place self.now) to.now }
        ensures value { result ≡ at self.now from.now.node to.now.node }
        ensures low { neg_ℤ (pos most_weight) ≤ℤ result }
        ensures high { result ≤ℤ pos most_weight }
    {
        self.cost(from.node, to.node)
    }

    /// Whether every node in the region is known to cost at least `least` from a node.
    fn is_beyond(&self, from: &Site, region: &Region, least: i64) -> bool
        requires { IsSite (nodes self.now) (place self.now) from.now }
        ensures { OnTrue result ((to : ℕ) → IsNode (nodes self.now) to
            → IsIn region.now (place self.now to) → least ≤ℤ at self.now from.now.node to) }
    {
        false
    }
}

/// Costs that are symmetric between different nodes.
pub trait Symmetric: Costs {
    ghost use Rattle.tsp_format.specs.Words.{IsSymmetric};

    ghost even: { (costs : Self) → IsSymmetric (Self.at costs) };
}

// ---- regions of space: boxes along the axes

/// A box in space, given by the corner with the lowest coordinates and the one with the highest.
#[derive(Clone, Copy, Debug)]
pub struct Region {
    /// Its lowest coordinates.
    pub low: Point,
    /// Its highest coordinates.
    pub high: Point,
}

impl Region {
    ghost use Rattle.tsp_number.specs.declared.decimal.Point.{Point};
    ghost use Rattle.tsp_number.specs.Distances.{dx, dy, dz};
    ghost use Rattle.tsp_theory.specs.Costs.{IsIn};

    /// The region of a single point.
    #[inline]
    pub fn of(point: Point) -> Region
        ensures { IsIn result point }
    {
        let high = point;
        Region { low: point, high }
    }

    /// The smallest region around both regions.
    #[inline]
    pub fn joined(self, other: Region) -> Region
        ensures left { (p : Point) → IsIn self p → IsIn result p }
        ensures right { (p : Point) → IsIn other p → IsIn result p }
    {
        Region {
            low: Point {
                x: smaller(self.low.x, other.low.x),
                y: smaller(self.low.y, other.low.y),
                z: smaller(self.low.z, other.low.z),
            },
            high: Point {
                x: larger(self.high.x, other.high.x),
                y: larger(self.high.y, other.high.y),
                z: larger(self.high.z, other.high.z),
            },
        }
    }

    /// The point of the region that is nearest to a point, along each axis.
    #[inline]
    pub fn nearest(self, from: &Point) -> Point
        ensures dx { (p : Point) → IsIn self p → dx from.now result ≤ dx from.now p }
        ensures dy { (p : Point) → IsIn self p → dy from.now result ≤ dy from.now p }
        ensures dz { (p : Point) → IsIn self p → dz from.now result ≤ dz from.now p }
        ensures inside { (p : Point) → IsIn self p → IsIn self result }
    {
        let Region { low, high } = self;
        Point {
            x: clamped(from.x, low.x, high.x),
            y: clamped(from.y, low.y, high.y),
            z: clamped(from.z, low.z, high.z),
        }
    }
}

/// The smaller of two numbers.
#[inline]
fn smaller(a: Decimal, b: Decimal) -> Decimal
    ensures first { result ≤ℤ a }
    ensures second { result ≤ℤ b }
{
    if a.count() < b.count() { a } else { b }
}

/// The larger of two numbers.
#[inline]
fn larger(a: Decimal, b: Decimal) -> Decimal
    ensures first { a ≤ℤ result }
    ensures second { b ≤ℤ result }
{
    if a.count() < b.count() { b } else { a }
}

/// The number in a range that is nearest to `x`.
#[inline]
fn clamped(x: Decimal, low: Decimal, high: Decimal) -> Decimal
    ensures nearest { (p : ℤ) → low ≤ℤ p → p ≤ℤ high
        → unsigned_abs (x -ℤ result) ≤ unsigned_abs (x -ℤ p) }
    ensures inside { low ≤ℤ high → (low ≤ℤ result) × (result ≤ℤ high) }
{
    if x.count() < low.count() {
        low
    } else if high.count() < x.count() {
        high
    } else {
        x
    }
}

// ---- a node with the point in space that is its place, as costs give it

/// A node, and the point in space that is its place.
#[derive(Clone, Copy, Debug)]
pub struct Site {
    /// The node.
    pub node: u32,
    /// Its place.
    pub place: Point,
}

// ---- the lengths of lists of nodes

/// The length of a list of nodes: the sum of the costs from each node to the next, and from the
/// last to the first.
///
/// The length of one node is the cost from it to itself, and that of an empty list is 0.
///
/// # Requires
///
/// Nodes of 1 to `count`, and at most 1,000,000 of them.
pub fn tour_length<C: Costs>(c: &C, tour: &[u32]) -> i64
    requires range { All (IsNode (C.nodes c.now)) tour.now }
    requires size { length tour.now ≤ most_tour_nodes }
    ensures { result ≡ length_of (C.at c.now) tour.now }
{
    c.length(tour)
}

/// The length of the list 1, 2, .., n of all nodes.
pub fn canonical_length<C: Costs>(c: &C) -> i64
    ensures { result ≡ length_of (C.at c.now) (nodes_to (C.nodes c.now)) }
{
    let count = c.count();
    let mut length = 0;
    'nodes: for node in 1..count {
        length += c.cost(node, node + 1);
    }
    length + c.cost(count, 1)
}

/// The length of each of several lists of nodes, as [`tour_length`] gives it.
///
/// # Errors
///
/// Out of memory for the vector of lengths; nothing else takes memory.
pub fn trace_tours<C: Costs>(
    alloc: Global,
    c: &C,
    tours: &[Vec<u32>],
) -> Result<Vec<i64>, AllocError>
    requires range { All (λ tour. All (IsNode (C.nodes c.now)) tour.items) tours.now }
    requires size { All (λ tour. length tour.items ≤ most_tour_nodes) tours.now }
    ensures { IfOk result (λ lengths. lengths.items
        ≡ map (λ tour. length_of (C.at c.now) tour.items) tours.now) }
{
    let mut lengths = with_capacity(alloc, tours.len())?;
    'tours: for tour in tours {
        push_length(c, tour, &mut lengths)?;
    }
    Ok(lengths)
}

/// Adds the length of one list of nodes.
///
/// # Errors
///
/// Out of memory.
fn push_length<C: Costs>(c: &C, tour: &[u32], lengths: &mut Vec<i64>) -> Result<(), Refused>
    requires range { All (IsNode (C.nodes c.now)) tour.now }
    requires size { length tour.now ≤ most_tour_nodes }
    ensures { OnOk result (lengths.new.items
        ≡ lengths.old.items ++ length_of (C.at c.now) tour.now ∷ []) }
{
    push(lengths, tour_length(c, tour))
}

// ---- weights that are asked for row by row

/// Weights between the nodes 1 to `count`, given row by row.
pub trait Weights {
    ghost nodes: { Self → ℕ };

    ghost at: { Self → ℕ → ℕ → ℤ };

    /// How many nodes there are: at most 100,000.
    fn count(&self) -> u32
        ensures value { result ≡ nodes self.now }
        ensures most { result ≤ most_nodes };

    /// Writes the row of a node: its weights to all nodes, at their places.
    ///
    /// Weights are below `i64::MAX`, and each call writes the same ones.
    ///
    /// # Requires
    ///
    /// A node of 1 to `count`, and a row of one place more than there are nodes.
    fn fill(&self, from: u32, row: &mut [i64])
        requires from { IsNode (nodes self.now) from }
        requires room { length row.old ≡ nodes self.now + 1 }
        ensures values { (x : ℕ) → IsNode (nodes self.now) x
            → least_at row.new x ≡ at self.now from x }
        ensures small { (x : ℕ) → IsNode (nodes self.now) x
            → least_at row.new x <ℤ i64.MAX };

    /// Writes some entries of the row of a node: the weights to these nodes.
    ///
    /// Each is written at the place of its node. Other places are unspecified afterwards.
    ///
    /// # Requires
    ///
    /// Nodes of 1 to `count`, and a row of one place more than there are nodes.
    fn fill_at(&self, from: u32, to: &[u32], row: &mut [i64])
        requires from { IsNode (nodes self.now) from }
        requires to { (k : ℕ) → k < length to.now → IsNode (nodes self.now) (slice_index to.now k) }
        requires room { length row.old ≡ nodes self.now + 1 }
        ensures values { (k : ℕ) → k < length to.now → least_at row.new (slice_index to.now k)
            ≡ at self.now from (slice_index to.now k) }
        ensures small { (k : ℕ)
            → k < length to.now → least_at row.new (slice_index to.now k) <ℤ i64.MAX }
    {
        self.fill(from, row);
    }
}

/// The weight at a node's place in a row.
#[inline]
pub fn weight_in(row: &[i64], node: u32) -> i64
    requires { node < length row.now }
    ensures { result ≡ least_at row.now node }
{
    row[node as usize]
}

/// Adds a number at a place; the sum is wrapped to 64 bits.
#[inline]
pub fn add_at(row: &mut [i64], node: u32, number: i64)
    requires { node < length row.old }
    ensures here { least_at row.new node ≡ int_wrap w64 (least_at row.old node +ℤ number) }
    ensures others { (x : ℕ) → x ≢ node → least_at row.new x ≡ least_at row.old x }
{
    let old = weight_in(row, node);
    row[node as usize] = old.wrapping_add(number);
}
