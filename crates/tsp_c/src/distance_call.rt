//! The C call `tsp_distance`: the distance between two points, for the number of a weight type.
//! `lib.rt` exports it. The numbers, which `bindings/c/tsp.h` lists, too, never change.

ghost use Rattle.tsp_c.specs.Prelude.{Some, option_map, SomeIff, Point, distance};
ghost use Rattle.std.specs.Prelude.{◌≡◌};
ghost use Rattle.tsp_number.specs.Distances.{IsInSpace};
ghost use Rattle.tsp_c.specs.NumberCalls.{nth, GivesDistance, distance_kinds};

use tsp_number::{Decimal, Point, att, ceil_2d, euc_2d, euc_3d, man_2d, man_3d, max_2d, max_3d};

/// There is no such distance.
const NO_DISTANCE: i64 = -1;

/// The coordinates of a point, as counts of 10^-9.
#[derive(Clone, Copy)]
pub(crate) struct Counts {
    pub(crate) x: i64,
    pub(crate) y: i64,
    pub(crate) z: i64,
}

/// The point with these coordinates, or `None` if one is too large.
fn point_of(counts: Counts) -> Option<Point>
    ensures { let p : Point = record { x = counts.x; y = counts.y; z = counts.z } in SomeIff result (IsInSpace p) p }
{
    let x = Decimal::of_count(i128::from(counts.x))?;
    let y = Decimal::of_count(i128::from(counts.y))?;
    let z = Decimal::of_count(i128::from(counts.z))?;
    Some(Point { x, y, z })
}

/// The distance between two points for a number, or -1.
pub(crate) fn distance_of(number: u32, from: Counts, to: Counts) -> i64
    ensures { let a : Point = record { x = from.x; y = from.y; z = from.z } in
        let b : Point = record { x = to.x; y = to.y; z = to.z } in GivesDistance number a b result }
{
    let Some(a) = point_of(from) else {
        return NO_DISTANCE;
    };
    let Some(b) = point_of(to) else {
        return NO_DISTANCE;
    };
    match between(number, a, b) {
        Some(distance) => distance,
        None => NO_DISTANCE,
    }
}

/// The distance by a number, if there is one.
#[tactic(auto, unfolding(tsp_file::specs::Cost::distance))]
fn between(number: u32, a: Point, b: Point) -> Option<i64>
    ensures { result ≡ option_map (λ kind. distance kind a b) (nth number distance_kinds) }
{
    match number {
        1 => Some(euc_2d(a, b)),
        2 => Some(ceil_2d(a, b)),
        3 => Some(man_2d(a, b)),
        4 => Some(max_2d(a, b)),
        5 => Some(att(a, b)),
        6 => Some(euc_3d(a, b)),
        7 => Some(man_3d(a, b)),
        8 => Some(max_3d(a, b)),
        _ => None,
    }
}
