//! `Metric`: a weight type that is a distance, and the function of tsp_number for it. `points.rt`
//! gets its costs here. For points on a coarse grid, EUC_2D has a shortcut through floats, whose
//! result is checked in integers, so it affects only speed.

ghost use Rattle.tsp_cost.specs.Prelude.{IsTrue, pos, MatchOption, IfSome, unsigned_abs, squared, euc_2d_of, distance};
ghost use Rattle.std.specs.Prelude.{◌≡◌, ◌↔◌, ◌≤ℤ◌, ◌<◌, ◌≤◌, ◌*◌, ◌^◌, ◌*ℤ◌, ◌-ℤ◌};
ghost use Rattle.tsp_format.specs.declared.kinds.WeightKind.TheVariants.{Explicit};
ghost use Rattle.tsp_cost.specs.states.Metrics.{RoundsTo, weight_kind_of};

use std::num;
use tsp_format::WeightKind;
use tsp_number::{
    Decimal, Point, att, ceil_2d, distance_laws, euc_2d, euc_3d, is_att_at_least,
    is_ceil_2d_at_least, is_euc_2d_at_least, is_euc_3d_at_least, man_2d, man_3d, max_2d, max_3d,
};

/// A weight type that is a distance of points.
#[derive(Clone, Copy, Debug)]
pub(crate) enum Metric {
    /// EUC_2D.
    Euc2d,
    /// EUC_3D.
    Euc3d,
    /// CEIL_2D.
    Ceil2d,
    /// MAN_2D.
    Man2d,
    /// MAN_3D.
    Man3d,
    /// MAX_2D.
    Max2d,
    /// MAX_3D.
    Max3d,
    /// ATT.
    Att,
}

impl Metric {
    /// The distance that a weight type stands for; `None` for EXPLICIT.
    pub(crate) fn of(kind: WeightKind) -> Option<Metric>
        ensures { MatchOption result (kind ≡ Explicit) (λ metric. weight_kind_of metric ≡ kind) }
    {
        match kind {
            WeightKind::Euc2d => Some(Metric::Euc2d),
            WeightKind::Euc3d => Some(Metric::Euc3d),
            WeightKind::Ceil2d => Some(Metric::Ceil2d),
            WeightKind::Man2d => Some(Metric::Man2d),
            WeightKind::Man3d => Some(Metric::Man3d),
            WeightKind::Max2d => Some(Metric::Max2d),
            WeightKind::Max3d => Some(Metric::Max3d),
            WeightKind::Att => Some(Metric::Att),
            WeightKind::Explicit => None,
        }
    }

    /// The distance between two points.
    // (without `inline` the call took 65 instructions for each pair)
    #[inline(always)]
    #[tactic(auto, unfolding(tsp_file::specs::Cost::distance))]
    pub(crate) fn between(self, a: Point, b: Point) -> i64
        ensures value { result ≡ distance (weight_kind_of self) a b }
        ensures low { pos 0 ≤ℤ result }
        ensures high { result ≤ℤ pos 6000000000 }
    {
        match self {
            Metric::Euc2d => euc_2d(a, b),
            Metric::Ceil2d => ceil_2d(a, b),
            Metric::Man2d => man_2d(a, b),
            Metric::Max2d => max_2d(a, b),
            Metric::Att => att(a, b),
            Metric::Euc3d => euc_3d(a, b),
            Metric::Man3d => man_3d(a, b),
            Metric::Max3d => max_3d(a, b),
        }
    }

    /// The distance between two points that follow each other on a tour.
    #[inline(always)]
    #[tactic(auto, unfolding(tsp_file::specs::Cost::distance))]
    pub(crate) fn onward(self, a: Point, b: Point) -> i64
        ensures value { result ≡ distance (weight_kind_of self) a b }
        ensures low { pos 0 ≤ℤ result }
        ensures high { result ≤ℤ pos 6000000000 }
    {
        match self {
            Metric::Euc2d => quick_euc_2d(a, b),
            _ => self.between(a, b),
        }
    }

    /// Whether the distance between two points is at least `least`.
    #[inline(always)]
    #[tactic(auto, unfolding(tsp_file::specs::Cost::distance))]
    pub(crate) fn is_at_least(self, a: Point, b: Point, least: i64) -> bool
        ensures { IsTrue result ↔ (least ≤ℤ distance (weight_kind_of self) a b) }
    {
        match self {
            Metric::Euc2d => is_euc_2d_at_least(a, b, least),
            Metric::Ceil2d => is_ceil_2d_at_least(a, b, least),
            Metric::Man2d => man_2d(a, b) >= least,
            Metric::Max2d => max_2d(a, b) >= least,
            Metric::Att => is_att_at_least(a, b, least),
            Metric::Euc3d => is_euc_3d_at_least(a, b, least),
            Metric::Man3d => man_3d(a, b) >= least,
            Metric::Max3d => max_3d(a, b) >= least,
        }
    }
}

// ---- EUC_2D in 64 bits

/// The inverse of 5^9, modulo 2^64.
const INVERSE: i64 = -8_194_354_213_138_031_507;

/// The longest way that is measured in steps.
const MOST_STEPS: i64 = 0x4000_0000;

/// The length of a way in steps, if it is a whole number of them, and not too many.
#[inline(always)]
fn steps_of(way: i64) -> Option<i64>
    ensures { IfSome result (λ steps. (steps *ℤ pos 1953125 ≡ way) × (unsigned_abs steps ≤ 2 ^ 30)) }
{
    let steps = way.wrapping_mul(INVERSE);
    if steps < -MOST_STEPS || steps > MOST_STEPS {
        return None;
    }
    Some(steps)
}

/// The way from one coordinate to another in steps, under the same conditions.
#[inline(always)]
fn steps_between(a: Decimal, b: Decimal) -> Option<i64>
    ensures { IfSome result (λ steps. (steps *ℤ pos 1953125 ≡ a -ℤ b) × (unsigned_abs steps ≤ 2 ^ 30)) }
{
    steps_of(a.nanos() - b.nanos())
}

/// The square of a way in steps.
#[inline(always)]
fn square_of(steps: i64) -> u64
    requires { unsigned_abs steps ≤ 2 ^ 30 }
    ensures value { result ≡ squared (unsigned_abs steps) }
    ensures most { result ≤ 2 ^ 60 }
{
    (steps * steps) as u64
}

/// Half the root of a whole number, estimated in floats. It may be wrong.
#[inline(always)]
fn half_root(square: u64) -> u64
    requires { square ≤ 2 ^ 45 }
    ensures { result < 2 ^ 31 }
{
    let near = ((square as i64) as f64).sqrt() * 0.5;
    // A sum with 2^52 has no bits for a fraction, and its low bits are the whole number nearby.
    num::f64_to_bits_with_nan(near + 4_503_599_627_370_496.0) & 0x7fff_ffff
}

/// The root of a square of steps, rounded to whole units, if the estimate is right.
#[inline(always)]
fn nearest_root(square: u64) -> Option<u32>
    requires { square ≤ 2 ^ 61 }
    ensures { IfSome result (λ root. RoundsTo square root) }
{
    // The square of root + 1/2 is a whole number of these.
    let halves = square >> 16;
    let root = half_root(halves);
    let odd = 2 * root + 1;
    let next = odd * odd;
    if next <= halves || next - halves > 8 * root {
        return None;
    }
    Some(root as u32)
}

/// The distance EUC_2D if both ways are whole numbers of steps, and not too many.
#[inline(always)]
fn coarse_euc_2d(a: Point, b: Point) -> Option<u32>
    ensures { IfSome result (λ root. root ≡ euc_2d_of a b) }
{
    distance_laws();
    let (Some(dx), Some(dy)) = (steps_between(a.x, b.x), steps_between(a.y, b.y)) else {
        return None;
    };
    nearest_root(square_of(dx) + square_of(dy))
}

/// The distance EUC_2D, from `coarse_euc_2d` if possible.
// (this saves a third of the instructions between points with whole coordinates)
#[inline(always)]
fn quick_euc_2d(a: Point, b: Point) -> i64
    ensures distance { result ≡ pos (euc_2d_of a b) }
    ensures high { result ≤ℤ pos 4294967295 }
{
    quick_between(&a, &b)
}

/// The distance EUC_2D, for points behind references.
#[inline(always)]
fn quick_between(a: &Point, b: &Point) -> i64
    ensures distance { result ≡ pos (euc_2d_of a.now b.now) }
    ensures high { result ≤ℤ pos 4294967295 }
{
    match coarse_euc_2d(*a, *b) {
        Some(root) => i64::from(root),
        None => euc_2d(*a, *b),
    }
}
