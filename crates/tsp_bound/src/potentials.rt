//! The numbers of a potentials file: `Potentials` and `Multipliers` for a TSP, `Duals` for an ATSP.
//! `new` tests their limits, so that no later sum or weight overflows. tsp_verdict makes them.

ghost use Rattle.tsp_bound.specs.Prelude.{All, IsTrue, length, pos, neg_ℤ, most_nodes, most_potential, most_triples, most_multiplier, most_scale, most_weight, IsNode, IsFromTo, triples_total, AreNodePotentials, IsMultiplier, AreMultipliers, IsScale, ArePotentials, total, AreDuals};
ghost use Rattle.std.specs.Prelude.{◌↔◌, ◌≡◌, ◌≤◌, ◌*◌, ◌*ℤ◌, ◌≤ℤ◌};

use tsp_format::{MOST_MULTIPLIER, MOST_MULTIPLIERS, MOST_POTENTIAL, MOST_SCALE};
use tsp_theory::Costs;

/// Potentials: a number for each node, as a multiple of 1 / scale.
#[derive(Clone, Copy, Debug)]
pub struct Potentials<'a> {
    pub(crate) scale: i64,
    pub(crate) numbers: &'a [i64],
    ghost are: { AreNodePotentials scale numbers.now },
}

impl<'a> Potentials<'a> {
    ghost use Rattle.tsp_bound.specs.Prelude.{length, pos, neg_ℤ, MatchOption, IsNode, IsFromTo, entry, most_between};
    ghost use Rattle.std.specs.Prelude.{◌≡◌};
    ghost use Rattle.tsp_bound.specs.states.Potentials.{scale_of, numbers_of, weight_under};

    /// The potentials of these numbers, each a count of 1 / scale.
    ///
    /// `None` exactly if the scale isn't from 1 to 1,000,000 or a number is larger than 10^15 in
    /// size.
    pub fn new(scale: i64, p: &'a [i64]) -> Option<Potentials<'a>>
        ensures { MatchOption result (AreNodePotentials scale p.now → ⊥)
            (λ made. AreNodePotentials scale p.now × (scale_of made ≡ scale)
            × (numbers_of made ≡ p.now)) }
    {
        if !is_scale(scale) || !are_potentials(p) {
            return None;
        }
        Some(Potentials { scale, numbers: p })
    }

    /// The number of a node.
    #[inline]
    pub(crate) fn number(&self, node: u32) -> i64
        requires { IsNode (length (numbers_of self.now)) node }
        ensures { result ≡ entry (numbers_of self.now) node }
    {
        self.numbers[node as usize - 1]
    }

    /// The weight between two nodes: the cost at the scale, and the potentials of both.
    ///
    /// It fits 64 bits because certificates and weights have limits.
    #[inline]
    pub(crate) fn weight<C: Costs>(&self, c: &C, i: u32, j: u32) -> i64
        requires count { length (numbers_of self.now) ≡ C.nodes c.now }
        requires from { IsNode (C.nodes c.now) i }
        requires to { IsNode (C.nodes c.now) j }
        ensures value { result ≡ weight_under self.now (C.at c.now) i j }
        ensures size { IsFromTo (neg_ℤ (pos most_between)) (pos most_between) result }
    {
        self.weight_from(c, self.number(i), i, j)
    }

    /// The weight between two nodes, when the caller passes the potential of the first one: a loop
    /// over all pairs of one node reads it once.
    #[inline]
    pub(crate) fn weight_from<C: Costs>(&self, c: &C, own: i64, i: u32, j: u32) -> i64
        requires count { length (numbers_of self.now) ≡ C.nodes c.now }
        requires number { own ≡ entry (numbers_of self.now) i }
        requires from { IsNode (C.nodes c.now) i }
        requires to { IsNode (C.nodes c.now) j }
        ensures value { result ≡ weight_under self.now (C.at c.now) i j }
        ensures size { IsFromTo (neg_ℤ (pos most_between)) (pos most_between) result }
    {
        let both = own + self.numbers[j as usize - 1];
        scaled_cost(c, self.scale, i, j) + both
    }
}

// ---- multipliers of fixed edges

/// Multipliers: numbers on some pairs of nodes, as triples of two nodes and the number.
#[derive(Clone, Copy, Debug)]
pub struct Multipliers<'a> {
    pub(crate) triples: &'a [(u32, u32, i64)],
    ghost are: { AreMultipliers triples.now },
}

impl<'a> Multipliers<'a> {
    ghost use Rattle.std.specs.Prelude.{◌≡◌, MatchOption};
    ghost use Rattle.tsp_bound.specs.states.Potentials.{triples_of};

    /// The multipliers of these triples, each number a count of 1 / scale.
    ///
    /// `None` exactly if there are more than 100,000, a number isn't from 0 to 10^15, or the two
    /// nodes of a triple are the same. No memory is taken.
    pub fn new(l: &'a [(u32, u32, i64)]) -> Option<Multipliers<'a>>
        ensures { MatchOption result (AreMultipliers l.now → ⊥)
            (λ made. AreMultipliers l.now × (triples_of made ≡ l.now)) }
    {
        if l.len() > MOST_MULTIPLIERS || !are_each(l) {
            return None;
        }
        Some(Multipliers { triples: l })
    }
}

/// Whether each triple has two different nodes and a number that multipliers may have.
fn are_each(triples: &[(u32, u32, i64)]) -> bool
    ensures { IsTrue result ↔ All IsMultiplier triples.now }
{
    triples.iter().all(|(a, b, number)| a != b && 0 <= *number && *number <= MOST_MULTIPLIER)
}

// ---- the numbers of a certificate: their ranges, their sums, and the least bound of a sum

/// Whether a certificate may have this scale.
fn is_scale(scale: i64) -> bool
    ensures { IsTrue result ↔ IsScale scale }
{
    1 <= scale && scale <= MOST_SCALE
}

/// Whether a certificate may have these numbers.
fn are_potentials(numbers: &[i64]) -> bool
    ensures { IsTrue result ↔ ArePotentials numbers.now }
{
    numbers.iter().all(|number| -MOST_POTENTIAL <= *number && *number <= MOST_POTENTIAL)
}

/// The sum of a certificate's numbers.
pub(crate) fn total(numbers: &[i64]) -> i128
    requires few { length numbers.now ≤ most_nodes }
    requires sizes { ArePotentials numbers.now }
    ensures value { result ≡ total numbers.now }
    ensures size { IsFromTo (neg_ℤ (pos (most_nodes * most_potential)))
        (pos (most_nodes * most_potential)) result }
{
    let mut sum = 0;
    'numbers: for number in numbers {
        sum += i128::from(*number);
    }
    sum
}

/// The sum of the numbers of multipliers.
pub(crate) fn total_of(triples: &[(u32, u32, i64)]) -> i128
    requires { AreMultipliers triples.now }
    ensures value { result ≡ triples_total triples.now }
    ensures size { IsFromTo (pos 0) (pos (most_triples * most_multiplier)) result }
{
    let mut sum = 0;
    'triples: for triple in triples {
        sum += i128::from(triple.2);
    }
    sum
}

// ---- costs as counts of 1 / SCALE of a certificate

/// The cost from one node to another, as a count of 1 / scale: at most 10^18 in size.
#[inline]
pub(crate) fn scaled_cost<C: Costs>(c: &C, scale: i64, i: u32, j: u32) -> i64
    requires scale { IsScale scale }
    requires from { IsNode (C.nodes c.now) i }
    requires to { IsNode (C.nodes c.now) j }
    ensures value { result ≡ scale *ℤ C.at c.now i j }
    ensures size { IsFromTo (neg_ℤ (pos (most_scale * most_weight)))
        (pos (most_scale * most_weight)) result }
{
    scaled(scale, c.cost(i, j))
}

/// A cost as a count of 1 / scale.
#[inline]
pub(crate) fn scaled(scale: i64, cost: i64) -> i64
    requires scale { IsScale scale }
    requires low { neg_ℤ (pos most_weight) ≤ℤ cost }
    requires high { cost ≤ℤ pos most_weight }
    ensures value { result ≡ scale *ℤ cost }
    ensures size { IsFromTo (neg_ℤ (pos (most_scale * most_weight)))
        (pos (most_scale * most_weight)) result }
{
    scale * cost
}

// ---- duals of an assignment

/// A number for each row and one for each column, at a scale.
#[derive(Clone, Copy, Debug)]
pub struct Duals<'a> {
    pub(crate) scale: i64,
    pub(crate) rows: &'a [i64],
    pub(crate) columns: &'a [i64],
    ghost are: { AreDuals scale rows.now columns.now },
}

impl<'a> Duals<'a> {
    ghost use Rattle.std.specs.Prelude.{◌≡◌, MatchOption};
    ghost use Rattle.tsp_bound.specs.states.Duals.{dual_scale, rows_of, columns_of};

    /// The duals of these numbers of rows and of columns, each a count of 1 / scale.
    ///
    /// `None` exactly if the scale isn't from 1 to 1,000,000, a number is larger than 10^15 in
    /// size, or the numbers of rows and columns differ in length.
    pub fn new(scale: i64, u: &'a [i64], v: &'a [i64]) -> Option<Duals<'a>>
        ensures { MatchOption result (AreDuals scale u.now v.now → ⊥)
            (λ d. AreDuals scale u.now v.now × (dual_scale d ≡ scale)
            × (rows_of d ≡ u.now) × (columns_of d ≡ v.now)) }
    {
        if !is_scale(scale) || u.len() != v.len() || !are_potentials(u) || !are_potentials(v) {
            return None;
        }
        Some(Duals {
            scale,
            rows: u,
            columns: v,
        })
    }
}
