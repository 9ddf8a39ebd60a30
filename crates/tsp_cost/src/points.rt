//! Costs computed from the points of a file whenever they are asked for, and an order of the nodes
//! in which near nodes are close together. `instance.rt` makes them. Contracts pin the costs and
//! say nothing about the order, so you can improve it freely: it affects only the speed of
//! searches.

ghost use Rattle.tsp_cost.specs.Prelude.{ℕ, length, map, Point, distance, point_of};
ghost use Rattle.std.specs.Prelude.{◌≡◌, ◌≤◌, ◌-◌, ◌<◌, ◌*◌, ◌^◌};
ghost use Rattle.tsp_format.specs.Limits.{most_nodes};
ghost use Rattle.tsp_cost.specs.declared.metric.Metric.TheVariants.{Euc2d};
ghost use Rattle.tsp_cost.specs.states.Metrics.{weight_kind_of};

use crate::metric::Metric;
use std::alloc::{AllocError, Global};
use tsp_io::{Refused, filled, push, with_capacity};
use tsp_number::{Decimal, InSpace, PlanePoint, Point, distance_laws, monotone_laws};
use tsp_theory::{Costs, Region, Site, Symmetric};

/// How many points are looked up before their distances are computed.
const BLOCK: usize = 32;

/// The costs of an instance whose weight type is a distance: the distances of its nodes' points.
///
/// The points lie in the plane or in space, and take no more memory than they need.
#[derive(Debug)]
pub struct Points<'a, P> {
    pub(crate) metric: Metric,
    pub(crate) points: &'a [P],
    ghost some: { 1 ≤ length points.now },
    ghost most: { length points.now ≤ most_nodes },
    ghost symmetric: { (a b : Point) → distance (weight_kind_of metric) a b ≡ distance (weight_kind_of metric) b a },
}

impl<'a, P: InSpace> Points<'a, P> {
    ghost use Rattle.tsp_cost.specs.Prelude.{IsNode, length_of};
    ghost use Rattle.std.specs.List.{All};
    ghost use Rattle.tsp_format.specs.Limits.{most_tour_nodes};
    ghost use Rattle.tsp_cost.specs.states.Views.{points_nodes, points_cost, points_place};
    ghost use Rattle.tsp_cost.specs.states.Metrics.{ArePlaces, IsSumOfCosts, IsWayThrough};

    /// The distances of these points, one for each node.
    pub(crate) fn of(metric: Metric, points: &'a [P]) -> Points<'a, P>
        requires some { 1 ≤ length points.now }
        requires most { length points.now ≤ most_nodes }
        ensures nodes { points_nodes result ≡ length points.now }
        ensures costs { (i j : ℕ) → points_cost P.place result i j
            ≡ distance (weight_kind_of metric) (point_of (map P.place points.now) i) (point_of (map P.place points.now) j) }
    {
        distance_laws();
        Points { metric, points }
    }

    /// The point of a node.
    #[inline]
    pub(crate) fn place(&self, node: u32) -> Point
        requires { IsNode (points_nodes self.now) node }
        ensures { result ≡ points_place P.place self.now node }
    {
        self.points[node as usize - 1].in_space()
    }

    /// Looks up the point of a node, and after it those of a few other nodes.
    #[inline(always)]
    fn look_up(&self, from: u32, nodes: &[u32], places: &mut [Point; BLOCK + 1])
        requires from { IsNode (points_nodes self.now) from }
        requires range { All (IsNode (points_nodes self.now)) nodes.now }
        requires few { length nodes.now ≤ 32 }
        ensures { ArePlaces (points_place P.place self.now) from nodes.now (length nodes.now) places.new }
    {
        places[0] = self.place(from);
        'nodes: for k in 0..nodes.len() {
            places[k + 1] = self.place(nodes[k]);
        }
    }

    /// The sum of the costs from a node through a few others, and the last of these. `places` is
    /// scratch space for their points.
    // (if points are looked up first, the processor waits for several of them at once)
    #[inline(always)]
    fn through(&self, from: u32, nodes: &[u32], places: &mut [Point; BLOCK + 1]) -> (i64, u32)
        requires from { IsNode (points_nodes self.now) from }
        requires range { All (IsNode (points_nodes self.now)) nodes.now }
        requires few { length nodes.now ≤ 32 }
        ensures sum { IsWayThrough (points_cost P.place self.now) from nodes.now result.0 result.1 }
        ensures last { IsNode (points_nodes self.now) result.1 }
        ensures size { IsSumOfCosts (length nodes.now) result.0 }
    {
        self.look_up(from, nodes, places);
        let mut last = from;
        let mut sum = 0;
        'nodes: for k in 0..nodes.len() {
            sum += self.metric.onward(places[k], places[k + 1]);
            last = nodes[k];
        }
        (sum, last)
    }

    /// The length of a list of nodes, as [`Costs::length`] gives it.
    // (called from `length`, so that the compiler knows the metric if `length` does)
    #[inline(always)]
    fn along(&self, tour: &[u32]) -> i64
        requires range { All (IsNode (points_nodes self.now)) tour.now }
        requires size { length tour.now ≤ most_tour_nodes }
        ensures { result ≡ length_of (points_cost P.place self.now) tour.now }
    {
        let Some((first, others)) = tour.split_first() else {
            return 0;
        };
        let mut from = *first;
        let mut rest = others;
        let mut length = 0;
        // (once and not for each block, because clearing and moving it takes time)
        let mut places = [self.place(from); BLOCK + 1];
        'parts: while !rest.is_empty() {
            let (block, later) = rest.split_at(rest.len().min(BLOCK));
            let (way, last) = self.through(from, block, &mut places);
            length += way;
            from = last;
            rest = later;
        }
        length + self.cost(from, *first)
    }

    /// The same costs, under their own metric, which the compiler then knows.
    #[inline(always)]
    pub(crate) fn with(&self, metric: Metric) -> Points<'a, P>
        requires { metric ≡ self.now.metric }
        ensures nodes { points_nodes result ≡ points_nodes self.now }
        ensures costs { points_cost P.place result ≡ points_cost P.place self.now }
    {
        Points {
            metric,
            points: self.points,
        }
    }
}

impl<P> Clone for Points<'_, P> {
    ghost use Rattle.std.specs.Prelude.{◌≡◌};

    ghost is_clone = { λ x y. y ≡ x };

    ghost is_infallible = { λ _. Unit {0} };

    fn clone(&self) -> Result<Self, AllocError> {
        Ok(*self)
    }
}

impl<P> Copy for Points<'_, P> {}

impl<P: InSpace> Costs for Points<'_, P> {
    ghost use Rattle.tsp_cost.specs.states.Views.{points_nodes, points_cost, points_place};

    ghost nodes = { points_nodes };

    ghost at = { points_cost P.place };

    ghost place = { points_place P.place };

    #[inline]
    fn count(&self) -> u32 {
        self.points.len() as u32
    }

    #[inline]
    fn cost(&self, i: u32, j: u32) -> i64 {
        let (from, to) = (self.points[i as usize - 1], self.points[j as usize - 1]);
        self.metric.between(from.in_space(), to.in_space())
    }

    fn length(&self, tour: &[u32]) -> i64 {
        // (choosing the metric for each pair took 16 more instructions)
        match self.metric {
            Metric::Euc2d => self.with(Metric::Euc2d).along(tour),
            _ => self.along(tour),
        }
    }

    fn order(&self, alloc: Global) -> Result<Vec<u32>, Refused> {
        by_halves(alloc, self.points)
    }

    #[inline]
    fn site(&self, node: u32) -> Option<Site> {
        let place = self.place(node);
        Some(Site { node, place })
    }

    #[inline(always)]
    fn cost_between(&self, from: &Site, to: &Site) -> i64 {
        self.metric.between(from.place, to.place)
    }

    // (as a separate call it took a tenth more instructions)
    #[inline(always)]
    fn is_beyond(&self, from: &Site, region: &Region, least: i64) -> bool {
        self.is_beyond_by(self.metric, from, region, least)
    }
}

impl<P: InSpace> Symmetric for Points<'_, P> {
    ghost even = { λ points i j different. points.symmetric _ _ };
}

// ---- the costs of points in the plane under EUC_2D

/// Points in the plane under EUC_2D.
///
/// The metric is known here: a search that chose among all metrics for each box took a sixth more
/// instructions.
#[derive(Debug, Drop)]
pub struct Euclidean<'a> {
    points: Points<'a, PlanePoint>,
    ghost metric: { points.metric ≡ Euc2d },
}

impl<'a> Points<'a, PlanePoint> {
    ghost use Rattle.std.specs.Prelude.{◌≡◌, IfSome};
    ghost use Rattle.tsp_cost.specs.states.Views.{euclidean_points};

    /// These costs, if their metric is EUC_2D.
    pub fn euclidean(&self) -> Option<Euclidean<'a>>
        ensures { IfSome result (λ euclidean. euclidean_points euclidean ≡ self.now) }
    {
        match self.metric {
            Metric::Euc2d => Some(Euclidean { points: *self }),
            _ => None,
        }
    }
}

impl Costs for Euclidean<'_> {
    ghost use Rattle.tsp_number.specs.Distances.{on_plane};
    ghost use Rattle.tsp_cost.specs.states.Views.{points_nodes, points_cost, points_place};

    ghost nodes = { λ e. points_nodes e.points };

    ghost at = { λ e. points_cost (λ point. on_plane point.x point.y) e.points };

    ghost place = { λ e. points_place (λ point. on_plane point.x point.y) e.points };

    #[inline]
    fn count(&self) -> u32 {
        self.points.count()
    }

    #[inline]
    fn cost(&self, i: u32, j: u32) -> i64 {
        self.points.with(Metric::Euc2d).cost(i, j)
    }

    fn order(&self, alloc: Global) -> Result<Vec<u32>, Refused> {
        self.points.order(alloc)
    }

    #[inline]
    fn site(&self, node: u32) -> Option<Site> {
        self.points.site(node)
    }

    #[inline(always)]
    fn cost_between(&self, from: &Site, to: &Site) -> i64 {
        Metric::Euc2d.between(from.place, to.place)
    }

    // (as a separate call it took a tenth more instructions)
    #[inline(always)]
    fn is_beyond(&self, from: &Site, region: &Region, least: i64) -> bool {
        self.points.is_beyond_by(Metric::Euc2d, from, region, least)
    }
}

impl Symmetric for Euclidean<'_> {
    ghost even = { λ e i j different. e.points.symmetric _ _ };
}

// ---- whether a whole region of points is at least so far from a point

impl<P: InSpace> Points<'_, P> {
    ghost use Rattle.std.specs.Prelude.{◌≡◌, ◌≤ℤ◌, ℕ};
    ghost use Rattle.std.specs.Bool.{OnTrue};
    ghost use Rattle.tsp_format.specs.Nodes.{IsNode};
    ghost use Rattle.tsp_theory.specs.Costs.{IsIn, IsSite};
    ghost use Rattle.tsp_cost.specs.states.Views.{points_nodes, points_cost, points_place};

    /// What [`Costs::is_beyond`](tsp_theory::Costs::is_beyond) says, by the metric of the points.
    #[inline(always)]
    pub(crate) fn is_beyond_by(
        &self,
        metric: Metric,
        from: &Site,
        region: &Region,
        least: i64,
    ) -> bool
        requires metric { metric ≡ self.now.metric }
        requires from { IsSite (points_nodes self.now) (points_place P.place self.now) from.now }
        ensures { OnTrue result ((to : ℕ) → IsNode (points_nodes self.now) to
            → IsIn region.now (points_place P.place self.now to)
            → least ≤ℤ points_cost P.place self.now from.now.node to) }
    {
        monotone_laws();
        metric.is_at_least(from.place, region.nearest(&from.place), least)
    }
}

// ---- an order of nodes in which neighbours are near each other

/// A node and its point.
#[derive(Clone, Copy)]
struct Item {
    point: Point,
    node: u32,
}

/// All nodes except the first, in the order of the leaves of a tree of boxes. A line across the
/// longest side of each box divides its nodes into two halves (J. L. Bentley, 1975). Node i has the
/// point i - 1.
///
/// # Errors
///
/// Out of memory.
fn by_halves<P: InSpace>(alloc: Global, points: &[P]) -> Result<Vec<u32>, Refused>
    requires some { 1 ≤ length points.now }
    requires few { length points.now < 2 ^ 31 }
{
    let mut items: Vec<Item> = with_capacity(alloc, points.len())?;
    'points: for i in 1..points.len() {
        let item = Item {
            point: points[i].in_space(),
            node: i as u32 + 1,
        };
        push(&mut items, item)?;
    }
    let mut order = filled(alloc, 0, points.len() - 1)?;
    if points.len() > 1 {
        arrange(&mut items, 1, &mut order);
    }
    Ok(order)
}

/// Puts the nodes of the box `v` in order. Its halves are the boxes `2 * v` and `2 * v + 1`. Boxes
/// from `order.len()` on are leaves, each with its place.
fn arrange(items: &mut [Item], v: usize, order: &mut [u32])
    requires low { 1 ≤ v }
    requires high { v < 2 * length order.old }
    requires few { length order.old < 2 ^ 31 }
    ensures { length order.new ≡ length order.old }
{
    let count = order.len();
    if v >= count {
        if let Some(item) = items.first() {
            order[v - count] = item.node;
        }
        return;
    }
    if items.len() < 2 {
        return;
    }
    let middle = first_half(items.len());
    part(items, middle);
    let (first, second) = items.split_at_mut(middle);
    arrange(first, 2 * v, order);
    arrange(second, 2 * v + 1, order);
}

/// How many leaves of a box are in its first half, if the last level is filled from the left.
fn first_half(leaves: usize) -> usize
    requires { 2 ≤ leaves }
    ensures { result < leaves }
{
    let whole = 1usize << leaves.ilog2();
    let half = whole / 2;
    let more = leaves.wrapping_sub(whole);
    half.wrapping_add(more.min(half)).min(leaves - 1)
}

/// Moves nodes so that those before the middle lie on one side of a line across the longest side of
/// their box.
fn part(items: &mut [Item], middle: usize)
    requires { middle < length items.old }
    ensures { length items.new ≡ length items.old }
{
    let Region { low, high } = region_of(items);
    let dx = gap(low.x, high.x);
    let dy = gap(low.y, high.y);
    let dz = gap(low.z, high.z);
    if dx >= dy && dx >= dz {
        items.select_nth_unstable_by_key(middle, |item| item.point.x.nanos());
    } else if dy >= dz {
        items.select_nth_unstable_by_key(middle, |item| item.point.y.nanos());
    } else {
        items.select_nth_unstable_by_key(middle, |item| item.point.z.nanos());
    }
}

/// The smallest region around all points.
fn region_of(items: &[Item]) -> Region
    requires { 1 ≤ length items.now }
{
    let mut region = Region::of(items[0].point);
    'items: for item in items {
        region = region.joined(Region::of(item.point));
    }
    region
}

/// How far apart two coordinates are, in counts of 10^-9.
fn gap(a: Decimal, b: Decimal) -> u64 {
    a.nanos().abs_diff(b.nanos())
}
