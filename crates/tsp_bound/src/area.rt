//! `Area`: a box in space, and a number that is at most that of each node in it. A search
//! (`search.rt`) uses an area to skip its nodes without looking at them; `boxes.rt` makes the
//! areas. By `HoldsNode` in `specs/states/Boxes.antt`, no area excludes one of its nodes.

ghost use Rattle.tsp_bound.specs.Prelude.{pos, neg_ℤ, IsFromTo, most_number};

use tsp_theory::Region;

/// A region, and a number that is at most the number of each node in it.
#[derive(Clone, Copy)]
pub(crate) struct Area {
    pub(crate) region: Region,
    pub(crate) least: i64,
    ghost size: { IsFromTo (neg_ℤ (pos most_number)) (pos most_number) least },
}
