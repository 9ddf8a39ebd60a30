//! `Coords`, the points of a coordinate section in a `Draft`: 16 bytes each in the plane, and 24 in
//! space. Contracts see a single list of points (`points_of` in `specs/states/Drafts.antt`), so the
//! two forms only save memory.

ghost use Rattle.std.specs.Prelude.{◌≡◌, length, slice_index_or, ◌<◌, SomeIff};
ghost use Rattle.tsp_file.specs.states.Drafts.{points_of};
ghost use Rattle.tsp_file.specs.Cost.{origin};

use tsp_number::{InSpace, PlanePoint, Point};

/// A point for each node, in order.
#[derive(Debug, Drop, PartialEq, Eq)]
pub enum Coords {
    /// Points in the plane; the third coordinate of each is 0.
    Plane(Vec<PlanePoint>),
    /// Points in space.
    Space(Vec<Point>),
}

impl Coords {
    /// How many points there are.
    pub fn len(&self) -> usize
        ensures { result ≡ length (points_of self.now) }
    {
        match self {
            Coords::Plane(points) => points.len(),
            Coords::Space(points) => points.len(),
        }
    }

    /// The point at an index, from 0 on, by its three coordinates.
    pub fn get(&self, index: usize) -> Option<Point>
        ensures { SomeIff result (index
            < length (points_of self.now)) (slice_index_or (points_of self.now) index origin) }
    {
        match self {
            Coords::Plane(points) => points.get(index).map(|point| point.in_space()),
            Coords::Space(points) => points.get(index).copied(),
        }
    }
}
