//! Whether a distance is at least a number, decided by comparing squares, without a root. With this
//! quick test (`is_beyond` in tsp_cost), a search for near nodes skips those too far away.
//! `specs/Distances.antt` pins every answer, so only speed is free.

ghost use Rattle.std.specs.Prelude.{◌≤ℤ◌, ◌↔◌, ℕ, IsTrue, pos};
ghost use Rattle.tsp_number.specs.Distances.{square_apart, euc_2d_of, ceil_2d_of, att_of, euc_3d_of};
ghost use Rattle.tsp_number.specs.states.Rounding.{IsLeastCover};

use crate::decimal::Point;
use crate::distance::way;
use crate::root::{Rounding, is_root_at_least, square_of};

/// Whether the Euclidean distance in the plane, rounded by `rounding`, is at least `least`.
#[inline(always)]
fn is_straight_at_least(rounding: Rounding, a: Point, b: Point, least: i64) -> bool
    ensures { (root : ℕ) → IsLeastCover rounding (square_apart a b) root → IsTrue result ↔ (least ≤ℤ pos root) }
{
    let square = square_of(way(a.x, b.x)) + square_of(way(a.y, b.y));
    is_root_at_least(rounding, square, least)
}

/// Whether the distance [`euc_2d`](crate::euc_2d) is at least `least`.
#[inline(always)]
pub fn is_euc_2d_at_least(a: Point, b: Point, least: i64) -> bool
    ensures { IsTrue result ↔ (least ≤ℤ pos (euc_2d_of a b)) }
{
    is_straight_at_least(Rounding::Nearest, a, b, least)
}

/// Whether the distance [`ceil_2d`](crate::ceil_2d) is at least `least`.
#[inline(always)]
pub fn is_ceil_2d_at_least(a: Point, b: Point, least: i64) -> bool
    ensures { IsTrue result ↔ (least ≤ℤ pos (ceil_2d_of a b)) }
{
    is_straight_at_least(Rounding::Up, a, b, least)
}

/// Whether the distance [`att`](crate::att) is at least `least`.
#[inline(always)]
pub fn is_att_at_least(a: Point, b: Point, least: i64) -> bool
    ensures { IsTrue result ↔ (least ≤ℤ pos (att_of a b)) }
{
    is_straight_at_least(Rounding::TenthUp, a, b, least)
}

/// Whether the distance [`euc_3d`](crate::euc_3d) is at least `least`.
#[inline(always)]
pub fn is_euc_3d_at_least(a: Point, b: Point, least: i64) -> bool
    ensures { IsTrue result ↔ (least ≤ℤ pos (euc_3d_of a b)) }
{
    let plane = square_of(way(a.x, b.x)) + square_of(way(a.y, b.y));
    let square = plane + square_of(way(a.z, b.z));
    is_root_at_least(Rounding::Nearest, square, least)
}
