//! Coordinates as exact decimals with nine places, and the points that they make. Don't widen their
//! range, 10^9 in either direction (`most_count` in `specs/Decimal.antt`, and docs/format.md):
//! `distance.rt` and `root.rt` would overflow.

ghost use Rattle.std.specs.Prelude.{◌≡◌, ◌≤◌, unsigned_abs, SomeIff};
ghost use Rattle.tsp_number.specs.Decimal.{most_count};

use std::marker::Model;

/// The number 1, in counts of 10^-9.
pub const UNIT: u64 = 1_000_000_000;

/// The largest size of a count: 10^9 in counts of 10^-9.
const MOST_COUNT: i64 = 1_000_000_000_000_000_000;

/// A decimal number from -10^9 to 10^9 with at most nine places after the point.
///
/// It is kept exactly, as a count of 10^-9, and contracts see it as that count.
#[derive(Clone, Copy, Debug, PartialEq, Eq)]
pub struct Decimal {
    nanos: i64,
}

impl Model for Decimal {
    ghost use Rattle.std.specs.Prelude.{ℤ, ◌≤◌, unsigned_abs};
    ghost use Rattle.tsp_number.specs.Decimal.{most_count};

    ghost Value = { ℤ };

    ghost view = { λ d. d.nanos };

    ghost invariant = { λ d. unsigned_abs d.nanos ≤ most_count };

    ghost inverse = { λ k. record { nanos = k } };
}

impl Decimal {
    /// The count of 10^-9: 1.5 has the count 1,500,000,000.
    pub fn count(self) -> i128
        ensures value { result ≡ self }
        ensures size { unsigned_abs result ≤ most_count }
    {
        i128::from(self.nanos)
    }

    /// The decimal with this count of 10^-9, or `None` if the count is larger than 10^18 in
    /// size.
    pub fn of_count(count: i128) -> Option<Decimal>
        ensures { SomeIff result (unsigned_abs count ≤ most_count) count }
    {
        let most = i128::from(MOST_COUNT);
        if count < -most || count > most {
            return None;
        }
        Some(Decimal {
            nanos: count as i64,
        })
    }

    /// The decimal with this count of 10^-9, which is at most 10^18 in size.
    #[inline(always)]
    pub fn of_nanos(nanos: i64) -> Decimal
        requires { unsigned_abs nanos ≤ most_count }
        ensures { result ≡ nanos }
    {
        Decimal { nanos }
    }

    /// The count of 10^-9, in 64 bits.
    pub fn nanos(self) -> i64
        ensures value { result ≡ self }
        ensures size { unsigned_abs result ≤ most_count }
    {
        self.nanos
    }
}

/// A point in space, by its coordinates. A point in the plane has the third coordinate 0.
#[derive(Clone, Copy, Debug, PartialEq, Eq)]
pub struct Point {
    /// The first coordinate.
    pub x: Decimal,
    /// The second coordinate.
    pub y: Decimal,
    /// The third coordinate.
    pub z: Decimal,
}

/// A point in the plane, by its coordinates. It takes less memory than a `Point`.
#[derive(Clone, Copy, Debug, PartialEq, Eq)]
pub struct PlanePoint {
    /// The first coordinate.
    pub x: Decimal,
    /// The second coordinate.
    pub y: Decimal,
}

/// A point in the plane or in space, as a point in space.
pub trait InSpace: Copy {
    ghost use Rattle.tsp_number.specs.declared.decimal.Point.{Point};

    ghost place: { Self → Point };

    /// The point by its three coordinates.
    fn in_space(self) -> Point
        ensures { result ≡ place self };
}

impl InSpace for Point {
    ghost place = { λ point. point };

    #[inline(always)]
    fn in_space(self) -> Point {
        self
    }
}

impl InSpace for PlanePoint {
    ghost use Rattle.tsp_number.specs.Distances.{on_plane};

    ghost place = { λ point. on_plane point.x point.y };

    #[inline(always)]
    fn in_space(self) -> Point {
        Point {
            x: self.x,
            y: self.y,
            z: Decimal { nanos: 0 },
        }
    }
}
