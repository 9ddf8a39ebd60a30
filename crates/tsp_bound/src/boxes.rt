//! `Labelled` implements `Components` (`rounds.rt`) for nodes with points: a tree of boxes finds
//! the nearest node outside a component, and a tag on each box says whether one component fills it.
//! (Without points, `all_pairs.rt` does this.) `IsNearest` pins the nodes found; how many boxes are
//! looked at affects only speed. `BoxedWeights`, the public trait at the end, is what a box needs
//! to know about weights; tsp_branch implements it, too.

ghost use Rattle.tsp_bound.specs.Prelude.{ℕ, true, length, IfOk, ℤ, List, Bool, None, Some, pos, neg_ℤ, IfSome, IsNode, IsFromTo, most_number, IsScale};
ghost use Rattle.std.specs.Bool.{OnTrue};
ghost use Rattle.std.specs.Prelude.{◌≡◌, ◌<◌, ◌*◌, ◌⊎◌, ◌≤◌, ◌+◌, ◌≤ℤ◌, ◌^◌, ◌≢◌, ◌+ℤ◌, ◌*ℤ◌, ◌<ℤ◌};
ghost use Rattle.tsp_number.specs.declared.decimal.Point.{Point};
ghost use Rattle.tsp_theory.specs.Costs.{IsIn, IsSite};
ghost use Rattle.tsp_bound.specs.states.Boxes.{HoldsNode, AreHeld, AreHeld-prop, area_at, node_of, IsRefit, AreNumberedSites, IsNumberedSite};
ghost use Rattle.tsp_bound.specs.states.ByNode.{node_in};
ghost use Rattle.tsp_bound.specs.states.Components.{AreTags, is_in_other_component, label_at, seen_area, IsTagOf};

use crate::area::Area;
use crate::rounds::Components;
use crate::search::{Link, Placed, Seen};
use std::alloc::Global;
use tsp_io::{Refused, filled, push, with_capacity};
use tsp_theory::{Region, Site, Weights};

/// The nodes in an order, each with the label of its component, and a tree of boxes over all of
/// them. The tag of a box says which component fills it, if a single one does.
#[derive(Drop)]
pub(crate) struct Labelled<'a, W: BoxedWeights> {
    placed: Placed<'a, W>,
    sites: Vec<NumberedSite>,
    labels: Vec<u32>,
    tags: Vec<u32>,
    areas: Vec<Option<Area>>,
    ghost as_many_sites: { length sites.items ≡ length placed.order.now },
    ghost sites_are: { AreNumberedSites (W.nodes placed.w.now) (W.place_of placed.w.now) (W.number_of placed.w.now)
        placed.order.now sites.items },
    ghost as_many: { length labels.items ≡ length placed.order.now },
    ghost low: { (x : ℕ) → x < length placed.order.now → label_at labels.items x < length placed.order.now },
    ghost as_many_tags: { length tags.items ≡ 2 * length placed.order.now },
    ghost tagged: { AreTags labels.items tags.items },
    ghost boxes: { length areas.items ≡ 2 * length placed.order.now },
    ghost held: { AreHeld (HoldsNode (W.place_of placed.w.now) (W.number_of placed.w.now))
        placed.order.now (λ _. true) (area_at areas.items) } by { AreHeld-prop (W.place_of placed.w.now) (W.number_of placed.w.now) placed.order.now (λ _. true) (area_at areas.items) },
}

/// A label for each node, all different: 0, 1, .., count - 1.
///
/// # Errors
///
/// Out of memory.
pub(crate) fn own_labels(alloc: Global, count: u32) -> Result<Vec<u32>, Refused>
    ensures len { IfOk result (λ labels. length labels.items ≡ count) }
    ensures own { IfOk result (λ labels. (x : ℕ) → x < count → label_at labels.items x ≡ x) }
{
    let mut labels = with_capacity(alloc, count as usize)?;
    'labels: for label in 0..count {
        push(&mut labels, label)?;
    }
    Ok(labels)
}

/// Replaces each label by the entry of `list` at that index.
pub(crate) fn rename(labels: &mut [u32], list: &[u32])
    requires low { (x : ℕ) → x < length labels.old → label_at labels.old x < length list.now }
    ensures len { length labels.new ≡ length labels.old }
    ensures renamed { (x : ℕ) → x < length labels.old → label_at labels.new x ≡ label_at list.now (label_at labels.old x) }
{
    'labels: for i in 0..labels.len() {
        labels[i] = list[labels[i] as usize];
    }
}

impl<'a, W: BoxedWeights> Labelled<'a, W> {
    ghost use Rattle.std.specs.Prelude.{IfSome};

    /// A forest without edges, in which each node is a component; `None` if the costs give some
    /// node no place.
    ///
    /// # Errors
    ///
    /// Out of memory.
    pub(crate) fn new(
        alloc: Global,
        placed: Placed<'a, W>,
    ) -> Result<Option<Labelled<'a, W>>, Refused>
        ensures order { IfOk result (λ made. IfSome made (λ labelled. labelled.placed.order.now ≡ placed.entry.order.now)) }
        ensures weights { IfOk result (λ made. IfSome made (λ labelled. labelled.placed.w.now ≡ placed.entry.w.now)) }
        ensures own { IfOk result (λ made. IfSome made (λ labelled. (x : ℕ) → x < length placed.entry.order.now
            → label_at labelled.labels.items x ≡ x)) }
    {
        let Some(sites) = numbered_sites_of(alloc, &placed)? else {
            return Ok(None);
        };
        let areas = boxes_of(alloc, &placed, &sites)?;
        let count = placed.order.len();
        let labels = own_labels(alloc, count as u32)?;
        let mut tags = filled(alloc, 0, 2 * count)?;
        tag_boxes(&labels, &mut tags);
        Ok(Some(Labelled {
            placed,
            sites,
            labels,
            tags,
            areas,
        }))
    }
}

/// The boxes as one component sees them: the boxes that it fills look empty.
#[derive(Drop)]
struct Apart<'a> {
    labels: &'a [u32],
    tags: &'a [u32],
    areas: &'a [Option<Area>],
    own: u32,
    ghost as_many_tags: { length tags.now ≡ 2 * length labels.now },
    ghost boxes: { length areas.now ≡ 2 * length labels.now },
}

impl Seen for Apart<'_> {
    ghost count_of = { λ s. length s.labels.now };

    ghost outside_of = { λ s x. is_in_other_component (label_at s.labels.now) s.own x };

    ghost area_of = { λ s v. seen_area s.tags.now (area_at s.areas.now) s.own v };

    #[inline]
    fn is_outside(&self, place: usize) -> bool {
        self.labels[place] != self.own
    }

    #[inline]
    fn area(&self, v: usize) -> Option<&Area> {
        if self.tags[v] == self.own {
            return None;
        }
        match &self.areas[v] {
            None => None,
            Some(area) => Some(area),
        }
    }
}

impl<W: BoxedWeights> Components for Labelled<'_, W> {
    ghost count_of = { λ s. length s.placed.order.now };

    ghost weight_of = { λ s i j. W.at s.placed.w.now (node_of s.placed.order.now i) (node_of s.placed.order.now j) };

    ghost label_of = { λ s x. label_at s.labels.items x };

    fn count(&self) -> u32 {
        self.placed.order.len() as u32
    }

    #[inline]
    fn label(&self, node: u32) -> u32 {
        self.labels[node as usize]
    }

    fn nearest(&self, from: u32, near: u32, most: i64, steps: &mut u64) -> Option<Link> {
        let apart = Apart {
            labels: &self.labels,
            tags: &self.tags,
            areas: &self.areas,
            own: self.labels[from as usize],
        };
        self.placed.nearest(&self.sites, &apart, from, near, steps)
    }

    fn relabel(&mut self, labels: &[u32]) {
        rename(&mut self.labels, labels);
        tag_boxes(&self.labels, &mut self.tags);
    }
}

// ---- a tree of boxes over the nodes of an order: each box encloses its two halves

/// The smaller number.
#[inline]
pub(crate) fn lesser(a: i64, b: i64) -> i64
    ensures first { result ≤ℤ a }
    ensures second { result ≤ℤ b }
    ensures one { (result ≡ a) ⊎ (result ≡ b) }
{
    if a < b { a } else { b }
}

/// The smallest box around both boxes.
#[inline]
fn joined(first: &Option<Area>, second: &Option<Area>) -> Option<Area>
    ensures left { (place : ℕ → Point) (number : ℕ → ℤ) (node : ℕ) → HoldsNode place number first.now node
        → HoldsNode place number result node }
    ensures right { (place : ℕ → Point) (number : ℕ → ℤ) (node : ℕ) → HoldsNode place number second.now node
        → HoldsNode place number result node }
{
    match first {
        None => *second,
        Some(left) => match second {
            None => *first,
            Some(right) => Some(Area {
                region: left.region.joined(right.region),
                least: lesser(left.least, right.least),
            }),
        },
    }
}

/// Recomputes the box `v` from its two halves.
fn refit(areas: &mut Vec<Option<Area>>, count: usize, v: usize)
    requires low { 1 ≤ v }
    requires high { v < count }
    requires len { length areas.old.items ≡ 2 * count }
    ensures len { length areas.new.items ≡ 2 * count }
    ensures refit { (place : ℕ → Point) (number : ℕ → ℤ)
        → IsRefit None (HoldsNode place number) areas.old.items areas.new.items v }
{
    let area = joined(&areas[2 * v], &areas[2 * v + 1]);
    areas[v] = area;
}

/// The box around a single node.
fn area_of(numbered: NumberedSite) -> Area
    requires { IsFromTo (neg_ℤ (pos most_number)) (pos most_number) numbered.number }
    ensures { (nodes : ℕ) (place : ℕ → Point) (number : ℕ → ℤ) → IsNumberedSite nodes place number numbered
        → HoldsNode place number (Some result) numbered.site.node }
{
    Area {
        region: Region::of(numbered.site.place),
        least: numbered.number,
    }
}

/// The tree of boxes over all nodes of an order.
///
/// # Errors
///
/// Out of memory.
fn boxes_of<W: BoxedWeights>(
    alloc: Global,
    placed: &Placed<W>,
    sites: &[NumberedSite],
) -> Result<Vec<Option<Area>>, Refused>
    requires as_many { length sites.now ≡ length placed.now.order.now }
    requires sites { AreNumberedSites (W.nodes placed.now.w.now) (W.place_of placed.now.w.now)
        (W.number_of placed.now.w.now) placed.now.order.now sites.now }
    ensures len { IfOk result (λ areas. length areas.items ≡ 2 * length placed.now.order.now) }
    ensures held { IfOk result (λ areas. (outside : ℕ → Bool)
        → AreHeld (HoldsNode (W.place_of placed.now.w.now) (W.number_of placed.now.w.now))
        placed.now.order.now outside (area_at areas.items)) }
{
    let count = placed.order.len();
    let mut areas: Vec<Option<Area>> = filled(alloc, None, 2 * count)?;
    'leaves: for place in 0..count {
        areas[count + place] = Some(area_of(sites[place]));
    }
    let mut v = count;
    'halves: while v > 1 {
        v -= 1;
        refit(&mut areas, count, v);
    }
    Ok(areas)
}

// ---- the label of the component of all nodes in a box, if it is one component

/// The tag of a box whose nodes have several labels. It isn't a label, because there are fewer
/// nodes.
const MIXED: u32 = u32::MAX;

/// The tag of a box, from those of its halves.
#[inline]
fn shared(first: u32, second: u32) -> u32
    ensures left { (label : ℕ) → IsTagOf first label → IsTagOf result label }
    ensures right { (label : ℕ) → IsTagOf second label → IsTagOf result label }
{
    if first == second { first } else { MIXED }
}

/// Recomputes the tag of a box from those of its halves.
#[inline]
fn retag(tags: &mut Vec<u32>, count: usize, v: usize)
    requires low { 1 ≤ v }
    requires high { v < count }
    requires few { count < 2 ^ 31 }
    requires len { length tags.old.items ≡ 2 * count }
    ensures len { length tags.new.items ≡ 2 * count }
    ensures refit { IsRefit 0 IsTagOf tags.old.items tags.new.items v }
{
    let tag = shared(tags[2 * v], tags[2 * v + 1]);
    tags[v] = tag;
}

/// Tags each box: a leaf by the label of its node, any other box by its halves.
fn tag_boxes(labels: &[u32], tags: &mut Vec<u32>)
    requires few { length labels.now < 2 ^ 31 }
    requires len { length tags.old.items ≡ 2 * length labels.now }
    ensures len { length tags.new.items ≡ 2 * length labels.now }
    ensures tags { AreTags labels.now tags.new.items }
{
    let count = labels.len();
    'leaves: for place in 0..count {
        tags[count + place] = labels[place];
    }
    let mut v = count;
    'halves: while v > 1 {
        v -= 1;
        retag(tags, count, v);
    }
}

// ---- a node with its point and its potential, or another number that it adds to the weights

/// A node with its point, and the number that it adds to the weight of each of its edges: its
/// potential, less the multipliers of the sets that contain it.
#[derive(Clone, Copy, Debug)]
pub struct NumberedSite {
    /// The node and its place.
    pub site: Site,
    /// Its number.
    pub number: i64,
}

// ---- the nodes of an order with their points and numbers, next to each other in memory

/// The nodes of an order with their places and numbers, next to each other in memory, as a search
/// reads them; `None` if some node has no place.
///
/// # Errors
///
/// Out of memory.
fn numbered_sites_of<W: BoxedWeights>(
    alloc: Global,
    placed: &Placed<W>,
) -> Result<Option<Vec<NumberedSite>>, Refused>
    ensures len { IfOk result (λ made. IfSome made (λ sites. length sites.items ≡ length placed.now.order.now)) }
    ensures sites { IfOk result (λ made. IfSome made (λ sites. AreNumberedSites (W.nodes placed.now.w.now)
        (W.place_of placed.now.w.now) (W.number_of placed.now.w.now) placed.now.order.now sites.items)) }
{
    let mut sites = with_capacity(alloc, placed.order.len())?;
    'places: for place in 0..placed.order.len() {
        let node = placed.order[place];
        let Some(site) = placed.w.site(node) else {
            return Ok(None);
        };
        let number = placed.w.number(node);
        push(&mut sites, NumberedSite { site, number })?;
    }
    Ok(Some(sites))
}

// ---- the trait for weights that a box bounds for all its nodes at once

/// Weights that are at least the cost at the scale plus the numbers of both nodes, except for some
/// pairs whose weights are lower, and which are listed by node.
///
/// So a region, together with the least number of its nodes, gives a lower bound on the weights to
/// all of them. A search looks at single pairs only in regions that this bound doesn't rule out.
pub trait BoxedWeights: Weights {
    ghost place_of: { Self → ℕ → Point };

    ghost scale_of: { Self → ℤ };

    ghost cost_of: { Self → ℕ → ℕ → ℤ };

    ghost number_of: { Self → ℕ → ℤ };

    ghost unlowered: { Self → ℕ → ℕ → ℤ };

    ghost lowered_of: { Self → ℕ → List ℕ };

    /// The scale of the costs.
    fn scale(&self) -> i64
        ensures value { result ≡ scale_of self.now }
        ensures scale { IsScale result };

    /// The number of a node: at most 4 * 10^18 in size.
    fn number(&self, node: u32) -> i64
        requires { IsNode (Self.nodes self.now) node }
        ensures value { result ≡ number_of self.now node }
        ensures size { IsFromTo (neg_ℤ (pos most_number)) (pos most_number) result };

    /// An order of the nodes 2..n in which near nodes are close together.
    ///
    /// Only a hint: the contract promises nothing.
    ///
    /// # Errors
    ///
    /// Out of memory.
    fn order(&self, alloc: Global) -> Result<Vec<u32>, Refused>;

    /// Whether the costs from a node are next to each other in memory. Only a hint: the contract
    /// promises nothing.
    fn has_rows(&self) -> bool {
        false
    }

    /// The node with its place, if it has one.
    fn site(&self, node: u32) -> Option<Site>
        requires { IsNode (Self.nodes self.now) node }
        ensures { IfSome result (λ site. (site.node ≡ node)
            × IsSite (Self.nodes self.now) (place_of self.now) site) };

    /// Whether every node in the region is known to cost at least `least` from a node.
    fn is_beyond(&self, from: &Site, region: &Region, least: i64) -> bool
        requires { IsSite (Self.nodes self.now) (place_of self.now) from.now }
        ensures beyond { OnTrue result ((to : ℕ) → IsNode (Self.nodes self.now) to
            → IsIn region.now (place_of self.now to) → least ≤ℤ cost_of self.now from.now.node to) }
        ensures above { (to : ℕ) → IsNode (Self.nodes self.now) to
            → ((scale_of self.now *ℤ cost_of self.now from.now.node to)
            +ℤ (number_of self.now from.now.node +ℤ number_of self.now to))
            ≤ℤ unlowered self.now from.now.node to };

    /// The weight between two nodes before any lowering, if it is less than `most`; otherwise some
    /// number that isn't less than `most`.
    fn weight_within(&self, from: &NumberedSite, to: &NumberedSite, most: i64) -> i64
        requires from { IsNumberedSite (Self.nodes self.now) (place_of self.now) (number_of self.now) from.now }
        requires to { IsNumberedSite (Self.nodes self.now) (place_of self.now) (number_of self.now) to.now }
        ensures less { result <ℤ most → result ≡ unlowered self.now from.now.site.node to.now.site.node }
        ensures no_less { most ≤ℤ result
            → most ≤ℤ unlowered self.now from.now.site.node to.now.site.node };

    /// How many nodes are listed for a node: those to which its weight may be lower.
    fn count_lowered(&self, from: u32) -> usize
        requires { IsNode (Self.nodes self.now) from }
        ensures value { result ≡ length (lowered_of self.now from) }
        ensures no_more { (to : ℕ) → IsNode (Self.nodes self.now) to
            → Self.at self.now from to ≤ℤ unlowered self.now from to }
        ensures others { (to : ℕ) → IsNode (Self.nodes self.now) to
            → ((k : ℕ) → k < length (lowered_of self.now from) → node_in (lowered_of self.now from) k ≢ to)
            → Self.at self.now from to ≡ unlowered self.now from to };

    /// One of the listed nodes, and the weight to it.
    fn lowered(&self, from: u32, index: usize) -> (u32, i64)
        requires from { IsNode (Self.nodes self.now) from }
        requires index { index < length (lowered_of self.now from) }
        ensures node { IsNode (Self.nodes self.now) result.0 }
        ensures listed { node_in (lowered_of self.now from) index ≡ result.0 }
        ensures weight { result.1 ≡ Self.at self.now from result.0 };

    /// The weight between two nodes.
    fn weight(&self, from: u32, to: u32) -> i64
        requires from { IsNode (Self.nodes self.now) from }
        requires to { IsNode (Self.nodes self.now) to }
        ensures { result ≡ Self.at self.now from to };
}
