//! `Listed` implements `Components` (`rounds.rt`) for nodes without points: one pass over all pairs
//! keeps the twelve lightest edges of each node, and a node looks at all its pairs again only if
//! these don't suffice. The number twelve affects only speed.

ghost use Rattle.std.specs.Prelude.{◌≡◌, ◌≤◌, ◌<◌, ◌+◌, ◌*◌, ◌^◌, ℕ, length};
ghost use Rattle.tsp_bound.specs.states.Components.{label_at, weight_over, AreOffered, IsPut, IsTaken, links_kept};
ghost use Rattle.tsp_bound.specs.states.Boxes.{no_weight};

use crate::boxes::{BoxedWeights, lesser, own_labels, rename};
use crate::rounds::{Components, better};
use crate::search::{Link, Placed};
use std::alloc::Global;
use tsp_io::{Refused, filled};
use tsp_theory::weight_in;

/// How many links are kept for each place. `links_kept` in `specs/states/Components.antt` is the same
/// number, so change both together.
const LINKS_KEPT: usize = 12;

/// How many columns of the rows are passed over at a time.
///
/// If a matrix lists its lower half, a row is a column of memory, and the next rows read the same
/// cache lines again.
const COLUMNS: usize = 256;

/// The columns of one pass: the places from `first` on and before `last`.
#[derive(Clone, Copy)]
struct Columns {
    first: usize,
    last: usize,
}

/// The index of the heaviest of the links of a place, which begin at `first`.
fn heaviest(links: &[Link], first: usize) -> usize
    requires { first + links_kept ≤ length links.now }
    ensures low { first ≤ result }
    ensures high { result < first + links_kept }
{
    let mut found = first;
    'links: for k in first + 1..first + LINKS_KEPT {
        if links[found].weight < links[k].weight {
            found = k;
        }
    }
    found
}

/// Replaces the heaviest link of the link's own place. The bound of that place is then no more than
/// the weight of any link that isn't kept.
fn put(links: &mut [Link], bounds: &mut [i64], link: Link)
    requires long { length links.old ≡ links_kept * length bounds.old }
    requires from { link.from < length bounds.old }
    requires few { length bounds.old < 2 ^ 31 }
    ensures { IsPut link links.old bounds.old links.new bounds.new }
{
    let place = link.from as usize;
    let slot = heaviest(links, LINKS_KEPT * place);
    let old = links[slot];
    let dropped = lesser(bounds[place], old.weight);
    links[slot] = link;
    let left = links[heaviest(links, LINKS_KEPT * place)].weight;
    bounds[place] = lesser(dropped, left);
}

/// Keeps a link if it weighs less than one of those kept for its place.
#[inline]
fn take(links: &mut [Link], bounds: &mut [i64], link: Link)
    requires long { length links.old ≡ links_kept * length bounds.old }
    requires from { link.from < length bounds.old }
    requires few { length bounds.old < 2 ^ 31 }
    ensures { IsTaken link links.old bounds.old links.new bounds.new }
{
    if link.weight < bounds[link.from as usize] {
        put(links, bounds, link);
    }
}

/// Offers the links between a place and each later place of the columns, in both directions.
fn take_row<W: BoxedWeights>(
    placed: &Placed<W>,
    row: &mut [i64],
    links: &mut [Link],
    bounds: &mut [i64],
    from: usize,
    columns: Columns,
)
    requires room { length row.old ≡ W.nodes placed.now.w.now + 1 }
    requires long { length links.old ≡ links_kept * length bounds.old }
    requires as_many { length bounds.old ≡ length placed.now.order.now }
    requires even { (i j : ℕ) → W.at placed.now.w.now i j ≡ W.at placed.now.w.now j i }
    requires from { from < columns.last }
    requires first { columns.first ≤ columns.last }
    requires last { columns.last ≤ length placed.now.order.now }
    requires listed { AreOffered (length placed.now.order.now)
        (weight_over (W.at placed.now.w.now) placed.now.order.now)
        columns.first columns.last from 0 links.old bounds.old }
    ensures { AreOffered (length placed.now.order.now)
        (weight_over (W.at placed.now.w.now) placed.now.order.now)
        columns.first columns.last (from + 1) 0 links.new bounds.new }
{
    let start = columns.first.max(from + 1);
    let (front, _) = placed.order.split_at(columns.last);
    let (_, part) = front.split_at(start);
    placed.w.fill_at(placed.order[from], part, row);
    'places: for place in start..columns.last {
        let weight = weight_in(row, placed.order[place]);
        take(
            links,
            bounds,
            Link {
                weight,
                from: from as u32,
                to: place as u32,
            },
        );
        take(
            links,
            bounds,
            Link {
                weight,
                from: place as u32,
                to: from as u32,
            },
        );
    }
}

/// Offers all links whose later place is in the columns.
fn take_columns<W: BoxedWeights>(
    placed: &Placed<W>,
    row: &mut [i64],
    links: &mut [Link],
    bounds: &mut [i64],
    columns: Columns,
)
    requires room { length row.old ≡ W.nodes placed.now.w.now + 1 }
    requires long { length links.old ≡ links_kept * length bounds.old }
    requires as_many { length bounds.old ≡ length placed.now.order.now }
    requires even { (i j : ℕ) → W.at placed.now.w.now i j ≡ W.at placed.now.w.now j i }
    requires first { columns.first ≤ columns.last }
    requires last { columns.last ≤ length placed.now.order.now }
    requires listed { AreOffered (length placed.now.order.now)
        (weight_over (W.at placed.now.w.now) placed.now.order.now)
        columns.first columns.last 0 0 links.old bounds.old }
    ensures { AreOffered (length placed.now.order.now)
        (weight_over (W.at placed.now.w.now) placed.now.order.now)
        columns.first columns.last columns.last 0 links.new bounds.new }
{
    'rows: for from in 0..columns.last {
        take_row(placed, row, links, bounds, from, columns);
    }
}

/// Offers the links of all pairs, columns by columns.
fn take_all<W: BoxedWeights>(
    placed: &Placed<W>,
    row: &mut [i64],
    links: &mut [Link],
    bounds: &mut [i64],
)
    requires room { length row.old ≡ W.nodes placed.now.w.now + 1 }
    requires long { length links.old ≡ links_kept * length bounds.old }
    requires as_many { length bounds.old ≡ length placed.now.order.now }
    requires even { (i j : ℕ) → W.at placed.now.w.now i j ≡ W.at placed.now.w.now j i }
    requires none { AreOffered (length placed.now.order.now)
        (weight_over (W.at placed.now.w.now) placed.now.order.now) 0 0 0 0 links.old bounds.old }
    ensures { AreOffered (length placed.now.order.now) (weight_over (W.at placed.now.w.now) placed.now.order.now)
        (length placed.now.order.now) 0 0 0 links.new bounds.new }
{
    let mut first = 0;
    'columns: while first < placed.order.len() {
        let last = placed.order.len().min(first + COLUMNS);
        take_columns(placed, row, links, bounds, Columns { first, last });
        first = last;
    }
}

// ---- the forest of nodes without points

/// The nodes in an order, each with the label of its component, its lightest links, and a number
/// that no other link of it is below.
#[derive(Drop)]
pub(crate) struct Listed<'a, W: BoxedWeights> {
    placed: Placed<'a, W>,
    labels: Vec<u32>,
    links: Vec<Link>,
    bounds: Vec<i64>,
    ghost as_many: { length labels.items ≡ length placed.order.now },
    ghost low: { (x : ℕ) → x < length placed.order.now → label_at labels.items x < length placed.order.now },
    ghost long: { length links.items ≡ links_kept * length placed.order.now },
    ghost as_many_bounds: { length bounds.items ≡ length placed.order.now },
    ghost listed: { AreOffered (length placed.order.now) (weight_over (W.at placed.w.now) placed.order.now)
        (length placed.order.now) 0 0 0 links.items bounds.items },
}

impl<'a, W: BoxedWeights> Listed<'a, W> {
    ghost use Rattle.std.specs.Prelude.{◌≢◌, ◌≤ℤ◌, pos, IfOk, IfSome};
    ghost use Rattle.tsp_bound.specs.states.Components.{IsKeptLink};
    ghost use Rattle.tsp_bound.specs.states.Components.{kept_at, IsOwnLink};

    /// A forest without edges, in which each node is a component, along with each node's lightest
    /// links. `row` is scratch space and is overwritten.
    ///
    /// # Errors
    ///
    /// Out of memory.
    pub(crate) fn new(
        alloc: Global,
        placed: Placed<'a, W>,
        row: &mut [i64],
    ) -> Result<Listed<'a, W>, Refused>
        requires room { length row.old ≡ W.nodes placed.w.now + 1 }
        requires even { (i j : ℕ) → W.at placed.w.now i j ≡ W.at placed.w.now j i }
        ensures order { IfOk result (λ made. made.placed.order.now ≡ placed.entry.order.now) }
        ensures weights { IfOk result (λ made. made.placed.w.now ≡ placed.entry.w.now) }
        ensures own { IfOk result (λ made. (x : ℕ) → x < length placed.entry.order.now
            → label_at made.labels.items x ≡ x) }
    {
        let count = placed.order.len();
        let none = Link {
            weight: i64::MAX,
            from: 0,
            to: 0,
        };
        let labels = own_labels(alloc, count as u32)?;
        let mut links = filled(alloc, none, LINKS_KEPT * count)?;
        let mut bounds = filled(alloc, i64::MAX, count)?;
        take_all(&placed, row, &mut links, &mut bounds);
        Ok(Listed {
            placed,
            labels,
            links,
            bounds,
        })
    }

    /// The lightest kept link from a place to another component; if there is none, its heaviest
    /// link.
    fn best_kept(&self, from: u32) -> Link
        requires { from < length self.now.placed.order.now }
        ensures own { IsOwnLink (length self.now.placed.order.now)
            (weight_over (W.at self.now.placed.w.now) self.now.placed.order.now) from result }
        ensures least { (k : ℕ) → k < links_kept
            → (kept_at self.now.links.items from k).weight ≢ no_weight
            → label_at self.now.labels.items (kept_at self.now.links.items from k).to ≢ label_at self.now.labels.items from
            → result.weight ≤ℤ (kept_at self.now.links.items from k).weight }
    {
        let own = self.labels[from as usize];
        let first = LINKS_KEPT * from as usize;
        let mut best = None;
        'links: for k in 0..LINKS_KEPT {
            let link = self.links[first + k];
            if link.weight != i64::MAX && self.labels[link.to as usize] != own {
                best = Some(better(best, link));
            }
        }
        match best {
            None => self.links[heaviest(&self.links, first)],
            Some(link) => link,
        }
    }

    /// The lightest link from a place to another component, found by looking at all its pairs.
    fn least_of_all(&self, from: u32) -> Option<Link>
        requires { from < length self.now.placed.order.now }
        ensures { IfSome result (IsKeptLink (length self.now.placed.order.now)
            (weight_over (W.at self.now.placed.w.now) self.now.placed.order.now) (label_at self.now.labels.items) from) }
    {
        let own = self.labels[from as usize];
        let node = self.placed.order[from as usize];
        let mut best = None;
        'places: for place in 0..self.placed.order.len() {
            if self.labels[place] != own {
                let weight = self.placed.w.weight(node, self.placed.order[place]);
                best = Some(better(
                    best,
                    Link {
                        weight,
                        from,
                        to: place as u32,
                    },
                ));
            }
        }
        best
    }
}

impl<W: BoxedWeights> Components for Listed<'_, W> {
    ghost use Rattle.tsp_bound.specs.states.Boxes.{node_of};

    ghost count_of = { λ s. length s.placed.order.now };

    ghost weight_of = { λ s i j. W.at s.placed.w.now (node_of s.placed.order.now i) (node_of s.placed.order.now j) };

    ghost label_of = { λ s x. label_at s.labels.items x };

    fn count(&self) -> u32 {
        self.placed.order.len() as u32
    }

    #[inline]
    fn label(&self, node: u32) -> u32 {
        self.labels[node as usize]
    }

    /// The lightest link to another component: a kept one if no other can weigh less, otherwise the
    /// result of looking at all pairs.
    fn nearest(&self, from: u32, near: u32, most: i64, steps: &mut u64) -> Option<Link> {
        let link = self.best_kept(from);
        if link.weight != i64::MAX
            && link.weight <= self.bounds[from as usize]
            && (most <= link.weight || self.label(link.to) != self.label(from))
        {
            return Some(link);
        }
        *steps = steps.wrapping_add(self.placed.order.len() as u64);
        self.least_of_all(from)
    }

    fn relabel(&mut self, labels: &[u32]) {
        rename(&mut self.labels, labels);
    }
}
