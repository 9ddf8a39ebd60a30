//! The eight distances of TSPLIB 95, each from two points to an integer: five in the plane, three
//! in space. tsp_cost gets the cost of each pair of points from here. `specs/Distances.antt` pins
//! every distance by inequalities taken from Reinelt's formulas, so only speed is free.

ghost use Rattle.std.specs.Prelude.{◌≡◌, pos, ◌≤ℤ◌, ◌<◌, ◌≤◌, ◌-ℤ◌, ◌+◌, ◌-◌, ◌*◌, ◌^◌, unsigned_abs};
ghost use Rattle.tsp_number.specs.Decimal.{unit};
ghost use Rattle.tsp_number.specs.Distances.{IsEuc2d, IsCeil2d, IsMan2d, IsMax2d, IsAtt, square_apart, euc_2d_of, ceil_2d_of, man_2d_of, max_2d_of, att_of, IsEuc3d, IsMan3d, IsMax3d, euc_3d_of, man_3d_of, max_3d_of};
ghost use Rattle.tsp_number.specs.states.Rounding.{IsLeastCover};

use crate::decimal::{Decimal, Point, UNIT};
use crate::root::{Rounding, nearest_root_in_space, rounded_root};

/// The signed difference from one coordinate to another, in counts of 10^-9.
#[inline(always)]
pub(crate) fn way(a: Decimal, b: Decimal) -> i64
    ensures value { result ≡ a -ℤ b }
    ensures most { unsigned_abs result ≤ 2 * 10 ^ 18 }
{
    a.nanos() - b.nanos()
}

/// How far apart two coordinates are, in counts of 10^-9.
#[inline(always)]
fn gap(a: Decimal, b: Decimal) -> u64
    ensures value { result ≡ unsigned_abs (a -ℤ b) }
    ensures most { result ≤ 2 * 10 ^ 18 }
{
    a.nanos().abs_diff(b.nanos())
}

/// The count divided by 10^9, rounded to the nearest integer, halves up.
#[inline(always)]
fn nearest_whole(count: u64) -> i64
    requires { count ≤ 6 * 10 ^ 18 }
    ensures below_next_half { 2 * count < (2 * unsigned_abs result + 1) * unit }
    ensures from_last_half { 0 < unsigned_abs result → (2 * unsigned_abs result - 1) * unit ≤ 2 * count }
    ensures low { pos 0 ≤ℤ result }
    ensures high { result ≤ℤ pos 6000000000 }
{
    ((count + UNIT / 2) / UNIT) as i64
}

/// The Euclidean distance in the plane, rounded by `rounding`: from 0 to 2,828,427,125.
#[inline(always)]
fn straight(rounding: Rounding, a: Point, b: Point) -> i64
    ensures value { IsLeastCover rounding (square_apart a b) (unsigned_abs result) }
    ensures apart { square_apart a b ≤ 8 * 10 ^ 36 }
    ensures low { pos 0 ≤ℤ result }
    ensures high { result ≤ℤ pos 2828427125 }
{
    i64::from(rounded_root(rounding, way(a.x, b.x), way(a.y, b.y)))
}

/// The EUC_2D distance: Euclidean, rounded to the nearest integer, halves up.
///
/// It is `nint(sqrt(dx^2 + dy^2))` of Reinelt's TSPLIB 95, over the exact coordinates: from 0 to
/// 2,828,427,125.
pub fn euc_2d(a: Point, b: Point) -> i64
    ensures value { IsEuc2d a b (unsigned_abs result) }
    ensures distance { result ≡ pos (euc_2d_of a b) }
    ensures low { pos 0 ≤ℤ result }
    ensures high { result ≤ℤ pos 2828427125 }
{
    straight(Rounding::Nearest, a, b)
}

/// The CEIL_2D distance: Euclidean, rounded up.
///
/// It is `sqrt(dx^2 + dy^2)` of Reinelt's TSPLIB 95, rounded up to an integer, over the exact
/// coordinates: from 0 to 2,828,427,125.
pub fn ceil_2d(a: Point, b: Point) -> i64
    ensures value { IsCeil2d a b (unsigned_abs result) }
    ensures distance { result ≡ pos (ceil_2d_of a b) }
    ensures low { pos 0 ≤ℤ result }
    ensures high { result ≤ℤ pos 2828427125 }
{
    straight(Rounding::Up, a, b)
}

/// The ATT distance: the root of a tenth of the squared Euclidean distance, rounded up.
///
/// Reinelt's TSPLIB 95 rounds `sqrt((dx^2 + dy^2) / 10)` to the nearest integer and adds 1 if the
/// result is less, which rounds it up. It is from 0 to 894,427,191.
pub fn att(a: Point, b: Point) -> i64
    ensures value { IsAtt a b (unsigned_abs result) }
    ensures distance { result ≡ pos (att_of a b) }
    ensures low { pos 0 ≤ℤ result }
    ensures high { result ≤ℤ pos 894427191 }
{
    straight(Rounding::TenthUp, a, b)
}

/// The MAN_2D distance: Manhattan, rounded to the nearest integer, halves up.
///
/// It is `nint(|dx| + |dy|)` of Reinelt's TSPLIB 95, over the exact coordinates: from 0 to
/// 4,000,000,000.
pub fn man_2d(a: Point, b: Point) -> i64
    ensures value { IsMan2d a b (unsigned_abs result) }
    ensures distance { result ≡ pos (man_2d_of a b) }
    ensures low { pos 0 ≤ℤ result }
    ensures high { result ≤ℤ pos 4000000000 }
{
    nearest_whole(gap(a.x, b.x) + gap(a.y, b.y))
}

/// The MAX_2D distance: the larger coordinate difference, rounded to the nearest integer, halves
/// up.
///
/// It is `max(nint(|dx|), nint(|dy|))` of Reinelt's TSPLIB 95, over the exact coordinates: from 0
/// to 2,000,000,000.
pub fn max_2d(a: Point, b: Point) -> i64
    ensures value { IsMax2d a b (unsigned_abs result) }
    ensures distance { result ≡ pos (max_2d_of a b) }
    ensures low { pos 0 ≤ℤ result }
    ensures high { result ≤ℤ pos 2000000000 }
{
    nearest_whole(gap(a.x, b.x).max(gap(a.y, b.y)))
}

// ---- the three distances of TSPLIB 95 between points in space

/// The EUC_3D distance: Euclidean in space, rounded to the nearest integer, halves up.
///
/// It is `nint(sqrt(dx^2 + dy^2 + dz^2))` of Reinelt's TSPLIB 95, over the exact coordinates: from
/// 0 to 3,464,101,615.
pub fn euc_3d(a: Point, b: Point) -> i64
    ensures value { IsEuc3d a b (unsigned_abs result) }
    ensures distance { result ≡ pos (euc_3d_of a b) }
    ensures low { pos 0 ≤ℤ result }
    ensures high { result ≤ℤ pos 3464101615 }
{
    i64::from(nearest_root_in_space(way(a.x, b.x), way(a.y, b.y), way(a.z, b.z)))
}

/// The MAN_3D distance: Manhattan in space, rounded to the nearest integer, halves up.
///
/// It is `nint(|dx| + |dy| + |dz|)` of Reinelt's TSPLIB 95, over the exact coordinates: from 0 to
/// 6,000,000,000.
pub fn man_3d(a: Point, b: Point) -> i64
    ensures value { IsMan3d a b (unsigned_abs result) }
    ensures distance { result ≡ pos (man_3d_of a b) }
    ensures low { pos 0 ≤ℤ result }
    ensures high { result ≤ℤ pos 6000000000 }
{
    // Each gap is at most 2 * 10^18, and their sum 6 * 10^18: below 2^64, which is above 18 *
    // 10^18.
    nearest_whole(gap(a.x, b.x) + gap(a.y, b.y) + gap(a.z, b.z))
}

/// The MAX_3D distance: the largest coordinate difference in space, rounded to the nearest integer,
/// halves up.
///
/// It is `max(nint(|dx|), nint(|dy|), nint(|dz|))` of Reinelt's TSPLIB 95, over the exact
/// coordinates: from 0 to 2,000,000,000.
pub fn max_3d(a: Point, b: Point) -> i64
    ensures value { IsMax3d a b (unsigned_abs result) }
    ensures distance { result ≡ pos (max_3d_of a b) }
    ensures low { pos 0 ≤ℤ result }
    ensures high { result ≤ℤ pos 2000000000 }
{
    nearest_whole(gap(a.x, b.x).max(gap(a.y, b.y)).max(gap(a.z, b.z)))
}
