//! Exact rounded roots, for `distance.rt` and `at_least.rt`. A root is estimated in floats, checked
//! in integers, and searched by bisection if the check fails. `Covers` and `IsLeastCover` in
//! `specs/states/Rounding.antt` pin the result, so a worse estimate costs only time.

ghost use Rattle.std.specs.Prelude.{◌≡◌, ◌+◌, ◌-◌, ◌*◌, ◌<◌, ◌≤◌, ◌≤ℤ◌, ◌^◌, ◌↔◌, ℕ, IsTrue, pos, unsigned_abs};
ghost use Rattle.std.specs.Bool.{OnTrue};
ghost use Rattle.tsp_number.specs.Distances.{squared};
ghost use Rattle.tsp_number.specs.declared.root.Rounding.TheVariants.{Nearest};
ghost use Rattle.tsp_number.specs.states.Rounding.{Covers, IsLeastCover, estimate_limit};

use crate::decimal::UNIT;
use std::num;

/// The largest rounded root in the plane: the diagonal of the square that contains all points is
/// 2,828,427,124.7 long.
const MOST_ROOT: u32 = 2_828_427_125;

/// The largest root in space, to the nearest: the diagonal of the cube that contains all points is
/// 3,464,101,615.1 long.
const MOST_ROOT_IN_SPACE: u32 = 3_464_101_615;

/// The number 1 in counts of 10^-18, the unit of squares.
const SQUARE_UNIT: u128 = 1_000_000_000_000_000_000;

/// How a root is rounded to an integer.
#[derive(Clone, Copy)]
pub(crate) enum Rounding {
    /// The root, to the nearest integer, halves up.
    Nearest,
    /// The root, rounded up.
    Up,
    /// The root of a tenth, rounded up.
    TenthUp,
}

/// Whether `whole` is at least the rounded root of `square`, if both count 10^-9.
#[inline(always)]
fn covers(rounding: Rounding, square: u128, whole: u32) -> bool
    requires { square ≤ 12 * 10 ^ 36 }
    ensures { IsTrue result ↔ Covers rounding square whole }
{
    match rounding {
        Rounding::Nearest => {
            let edge = u128::from((2 * u64::from(whole) + 1) * UNIT);
            4 * square < edge * edge
        }
        Rounding::Up => {
            let edge = u128::from(u64::from(whole) * UNIT);
            square <= edge * edge
        }
        Rounding::TenthUp => {
            let edge = u128::from(u64::from(whole) * UNIT);
            square <= 10 * (edge * edge)
        }
    }
}

/// Whether the rounded root of a square is at least `least`. No root is taken: it is if the number
/// before `least` doesn't cover the square.
#[inline(always)]
pub(crate) fn is_root_at_least(rounding: Rounding, square: u128, least: i64) -> bool
    requires { square ≤ 12 * 10 ^ 36 }
    ensures { (root : ℕ) → IsLeastCover rounding square root → IsTrue result ↔ (least ≤ℤ pos root) }
{
    if least < 1 {
        return true;
    }
    if least > 0xffff_ffff {
        return false;
    }
    !covers(rounding, square, (least - 1) as u32)
}

/// The least number that covers the square, by bisection of the range up to `most`, which covers
/// it.
#[cold]
#[inline(never)]
fn exact_root(rounding: Rounding, square: u128, most: u32) -> u32
    requires size { square ≤ 12 * 10 ^ 36 }
    requires covered { Covers rounding square most }
    ensures enough { Covers rounding square result }
    ensures least { 0 < result → ¬ Covers rounding square (result - 1) }
    ensures most { result ≤ most }
{
    let mut low = 0;
    let mut high = most;
    while low < high {
        let middle = low + (high - low) / 2;
        if covers(rounding, square, middle) {
            high = middle;
        } else {
            low = middle + 1;
        }
    }
    low
}

/// The square of a difference of coordinates, in counts of 10^-18.
#[inline(always)]
pub(crate) fn square_of(way: i64) -> u128
    requires { unsigned_abs way ≤ 2 * 10 ^ 18 }
    ensures value { result ≡ squared (unsigned_abs way) }
    ensures most { result ≤ 4 * 10 ^ 36 }
{
    let wide = i128::from(way);
    (wide * wide) as u128
}

/// The square of a way, estimated in floats, in counts of 2^18 * 10^-18.
#[inline(always)]
fn coarse_square(way: i64) -> f64
    requires { unsigned_abs way ≤ 2 * 10 ^ 18 }
{
    // 10^9 is 5^9 * 2^9, so for a whole number nothing is lost here.
    let coarse = (way >> 9) as f64;
    coarse * coarse
}

/// The root, estimated in floats. It may be wrong.
#[inline(always)]
fn estimate(rounding: Rounding, square: f64) -> u32
    ensures { result < estimate_limit rounding }
{
    let (near, most) = match rounding {
        Rounding::Nearest => (square.sqrt() * 5.12e-7, 0xffff_ffff),
        Rounding::Up => (square.sqrt() * 5.12e-7 + 0.499_999_999, 0xffff_ffff),
        Rounding::TenthUp => ((square * 0.1).sqrt() * 5.12e-7 + 0.499_999_999, 0x3fff_ffff),
    };
    // A sum with 2^52 has no bits for a fraction, and its low bits are the whole number nearby.
    let bits = num::f64_to_bits_with_nan(near + 4_503_599_627_370_496.0);
    (bits & most) as u32
}

/// Whether `whole` is certainly the least number that covers the square.
///
/// The number before it doesn't cover the square if the gap between the square and the edge of
/// `whole` is smaller than the gap between the edges of both numbers.
#[inline(always)]
fn is_least_cover(rounding: Rounding, square: u128, whole: u32) -> bool
    requires size { square ≤ 12 * 10 ^ 36 }
    requires limit { whole < estimate_limit rounding }
    ensures { OnTrue result (IsLeastCover rounding square whole) }
{
    let count = u64::from(whole);
    match rounding {
        Rounding::Nearest => {
            let edge = u128::from((2 * count + 1) * UNIT);
            let (high, low) = (edge * edge, 4 * square);
            low < high && (high - low <= u128::from(count) * (8 * SQUARE_UNIT) || count == 0)
        }
        Rounding::Up => {
            let edge = u128::from(count * UNIT);
            let high = edge * edge;
            square <= high && high - square < u128::from((2 * count).wrapping_sub(1)) * SQUARE_UNIT
        }
        Rounding::TenthUp => {
            let edge = count * UNIT;
            let high = u128::from(edge) * u128::from(10 * edge);
            square <= high
                && high - square < u128::from((20 * count).wrapping_sub(10)) * SQUARE_UNIT
        }
    }
}

/// The least number that covers the square: next to the estimate, or else by bisection.
#[cold]
#[inline(never)]
fn corrected_root(rounding: Rounding, square: u128, near: u32, most: u32) -> u32
    requires size { square ≤ 12 * 10 ^ 36 }
    requires covered { Covers rounding square most }
    ensures enough { Covers rounding square result }
    ensures least { 0 < result → ¬ Covers rounding square (result - 1) }
    ensures most { result ≤ most }
{
    let low = near.min(most);
    if covers(rounding, square, low) {
        if low == 0 || !covers(rounding, square, low - 1) {
            return low;
        }
    } else if low < most && covers(rounding, square, low + 1) {
        return low + 1;
    }
    exact_root(rounding, square, most)
}

/// The least number that covers the square, from an estimate and a number that covers it.
///
/// The estimate is used only if a check in whole numbers shows that it is right.
#[inline(always)]
fn settled_root(rounding: Rounding, square: u128, near: u32, most: u32) -> u32
    requires size { square ≤ 12 * 10 ^ 36 }
    requires limit { near < estimate_limit rounding }
    requires covered { Covers rounding square most }
    ensures enough { Covers rounding square result }
    ensures least { 0 < result → ¬ Covers rounding square (result - 1) }
    ensures most { result ≤ most }
{
    if is_least_cover(rounding, square, near) {
        return near;
    }
    corrected_root(rounding, square, near, most)
}

/// The rounded length of a way in the plane, from the ways along both axes in counts of 10^-9.
#[inline(always)]
pub(crate) fn rounded_root(rounding: Rounding, dx: i64, dy: i64) -> u32
    requires dx { unsigned_abs dx ≤ 2 * 10 ^ 18 }
    requires dy { unsigned_abs dy ≤ 2 * 10 ^ 18 }
    ensures enough { Covers rounding (squared (unsigned_abs dx) + squared (unsigned_abs dy)) result }
    ensures least { 0 < result
        → ¬ Covers rounding (squared (unsigned_abs dx) + squared (unsigned_abs dy)) (result - 1) }
    ensures most { result ≤ 2828427125 }
{
    let square = square_of(dx) + square_of(dy);
    let near = estimate(rounding, coarse_square(dx) + coarse_square(dy));
    settled_root(rounding, square, near, MOST_ROOT)
}

/// The length of a way in space, rounded to the nearest integer, halves up, from the ways along the
/// axes in counts of 10^-9.
#[inline(always)]
pub(crate) fn nearest_root_in_space(dx: i64, dy: i64, dz: i64) -> u32
    requires dx { unsigned_abs dx ≤ 2 * 10 ^ 18 }
    requires dy { unsigned_abs dy ≤ 2 * 10 ^ 18 }
    requires dz { unsigned_abs dz ≤ 2 * 10 ^ 18 }
    ensures enough { Covers Nearest (squared (unsigned_abs dx) + squared (unsigned_abs dy)
        + squared (unsigned_abs dz)) result }
    ensures least { 0 < result → ¬ Covers Nearest (squared (unsigned_abs dx)
        + squared (unsigned_abs dy) + squared (unsigned_abs dz)) (result - 1) }
    ensures most { result ≤ 3464101615 }
{
    // Each square is at most 4 * 10^36, so that their sum is at most 12 * 10^36, and 4 times the
    // sum at most 4.8 * 10^37: far below 2^128, which is above 3.4 * 10^38.
    let square = square_of(dx) + square_of(dy) + square_of(dz);
    let coarse = coarse_square(dx) + coarse_square(dy) + coarse_square(dz);
    let near = estimate(Rounding::Nearest, coarse);
    settled_root(Rounding::Nearest, square, near, MOST_ROOT_IN_SPACE)
}
