//! Lookups in the tours of a file: the node at a place, the place of a node, a missing or repeated
//! node. `refusal.rt` looks up again what tsp_verdict has found, and no answer rests on it.

use tsp_format::MOST_NODES;

/// One mark for each node of the largest instance, and one for 0.
const MARKS: usize = MOST_NODES as usize + 1;

/// The element with this number, counted from 1.
pub(crate) fn count_at_place<T: Copy>(items: &[T], number: u32) -> Option<T> {
    let index = (number as usize).checked_sub(1)?;
    items.get(index).copied()
}

/// The node at a place, counted from 1 through all tours.
pub(crate) fn node_at(tours: &[Vec<u32>], place: u32) -> Option<u32> {
    let mut left = place as usize;
    'tours: for tour in tours {
        if left <= tour.len() {
            let index = left.checked_sub(1)?;
            return tour.get(index).copied();
        }
        left -= tour.len();
    }
    None
}

/// The first place of a node, counted from 1 through all tours.
pub(crate) fn first_place_of(tours: &[Vec<u32>], node: u32) -> Option<i64> {
    let mut before = 0i64;
    'tours: for tour in tours {
        match index_of(tour, node) {
            Some(index) => return Some(before.saturating_add(index)),
            None => {
                before = before.saturating_add(i64::try_from(tour.len()).unwrap_or(i64::MAX));
            }
        }
    }
    None
}

/// The first place of a node in a tour, counted from 1.
fn index_of(tour: &[u32], node: u32) -> Option<i64> {
    let mut place = 0i64;
    'nodes: for other in tour {
        place = place.saturating_add(1);
        if *other == node {
            return Some(place);
        }
    }
    None
}

/// The sum of the demands of the nodes of a route, counted from 1. A node without a demand has
/// none.
pub(crate) fn sum_of(tours: &[Vec<u32>], route: u32, demands: &[i64]) -> Option<i64> {
    let index = (route as usize).checked_sub(1)?;
    let tour = tours.get(index)?;
    let mut sum = 0i64;
    'nodes: for node in tour {
        sum = sum.saturating_add(count_at_place(demands, *node).unwrap_or(0));
    }
    Some(sum)
}

/// The least node from 1 to `nodes` that no tour has and that isn't the depot.
pub(crate) fn least_missing(tours: &[Vec<u32>], nodes: u32, depot: Option<u32>) -> Option<u32> {
    let mut marks = [false; MARKS];
    'tours: for tour in tours {
        mark(&mut marks, tour);
    }
    first_unmarked(&marks, nodes, depot)
}

/// Marks the nodes of a tour.
fn mark(marks: &mut [bool], tour: &[u32]) {
    'nodes: for node in tour {
        if let Some(is_marked) = marks.get_mut(*node as usize) {
            *is_marked = true;
        }
    }
}

/// The least node from 1 to `nodes` without a mark that isn't the depot.
fn first_unmarked(marks: &[bool], nodes: u32, depot: Option<u32>) -> Option<u32> {
    'nodes: for node in 1..=nodes {
        if marks.get(node as usize).copied() == Some(false) && depot != Some(node) {
            return Some(node);
        }
    }
    None
}

/// The first place of a tour, counted from 1, whose node is at an earlier place too.
pub(crate) fn first_repeated(tour: &[u32]) -> Option<u32> {
    let mut marks = [false; MARKS];
    let mut place = 0u32;
    'nodes: for node in tour {
        place = place.saturating_add(1);
        if let Some(is_marked) = marks.get_mut(*node as usize) {
            if *is_marked {
                return Some(place);
            }
            *is_marked = true;
        }
    }
    None
}
