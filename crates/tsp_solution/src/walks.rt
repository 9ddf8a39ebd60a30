//! Reads what OR-Tools' examples print: for each vehicle a walk such as `0 -> 5 -> 0`, and
//! distances. `by_form.rt` calls it; its answers are tested, not proved.

use crate::fault::{FormFault, SolutionFault};
use crate::number_groups::{NumberGroups, is_closed_at};
use crate::word_place::{Place, after_prefix, has_pair, number_of, split_digits, without_blanks};
use std::alloc::Global;
use tsp_format::{is_blank, is_letter};
use tsp_number::parse_whole;

/// Walks, and the distances that are printed with them.
#[derive(Drop)]
pub(crate) struct Walks {
    /// A group for each walk, from the depot to the depot.
    pub(crate) groups: NumberGroups,
    /// The depot, where each of them begins.
    pub(crate) depot: u32,
    /// Whether a walk names the load after each node.
    pub(crate) has_loads: bool,
    /// The sum of the distances of the walks, and how many are printed.
    sum: i64,
    distances: usize,
    /// The distance of all walks, if that is printed.
    total: Option<i64>,
}

/// Whether a line is a walk: it begins with a number, and has `->`.
pub(crate) fn is_walk(line: &[u8]) -> bool {
    let (digits, rest) = split_digits(without_blanks(line));
    !digits.is_empty() && !goes_on(rest) && has_pair(rest, b'-', b'>')
}

/// Whether a number goes on with letters.
fn goes_on(rest: &[u8]) -> bool {
    match rest.first() {
        Some(byte) => is_letter(*byte) || *byte == b'_',
        None => false,
    }
}

/// Reads the walks of a text, whose nodes count from 0.
///
/// # Errors
///
/// `NotANode` and `OutOfRange` at a stop that isn't a node; `NotClosed` at a walk that doesn't
/// begin and end at the depot, as the first one does.
pub(crate) fn read_walks(alloc: Global, text: &[u8]) -> Result<Walks, SolutionFault> {
    let mut walks = Walks {
        groups: NumberGroups::new(alloc),
        depot: 0,
        has_loads: false,
        sum: 0,
        distances: 0,
        total: None,
    };
    let mut line = 0u32;
    'lines: for bytes in text.split(|byte| *byte == b'\n') {
        line = line.saturating_add(1);
        walks.take_line(alloc, bytes, line)?;
    }
    Ok(walks)
}

impl Walks {
    /// Takes the next line.
    fn take_line(&mut self, alloc: Global, bytes: &[u8], line: u32) -> Result<(), SolutionFault> {
        if has_pair(bytes, b'-', b'>') {
            return self.take_walk(alloc, bytes, Place::of_line(line));
        }
        let rest = without_blanks(bytes);
        if let Some(after) = after_prefix(rest, b"total distance of all routes:") {
            self.total = distance_in(after);
        } else if let Some(after) = after_prefix(rest, b"distance of the route:") {
            self.add_distance(after);
        } else if let Some(after) = after_prefix(rest, b"route distance:") {
            self.add_distance(after);
        }
        Ok(())
    }

    /// Adds the distance of a walk.
    fn add_distance(&mut self, text: &[u8]) {
        if let Some(distance) = distance_in(text) {
            self.sum = self.sum.saturating_add(distance);
            self.distances = self.distances.saturating_add(1);
        }
    }

    /// Takes a walk.
    fn take_walk(
        &mut self,
        alloc: Global,
        bytes: &[u8],
        first: Place,
    ) -> Result<(), SolutionFault> {
        self.groups.open(alloc)?;
        let mut place = first;
        'stops: for stop in bytes.split(|byte| *byte == b'>') {
            let (digits, rest) = split_digits(without_blanks(stop));
            if goes_on(rest) {
                return Err(place.fault(FormFault::NotANode));
            }
            self.has_loads = self.has_loads
                || after_prefix(without_blanks(rest), b"load(").is_some();
            self.groups.push(number_of(digits, place)?, place)?;
            place = place_after(stop, place);
        }
        self.end_walk(first)
    }

    /// Ends a walk, which begins at this place.
    fn end_walk(&mut self, first: Place) -> Result<(), SolutionFault> {
        if let [walk] = self.groups.groups.as_slice() {
            self.depot = match walk.first() {
                Some(depot) => *depot,
                None => 0,
            };
        }
        match self.groups.groups.last() {
            Some(walk) if is_closed_at(walk, self.depot) => Ok(()),
            _ => Err(first.fault(FormFault::NotClosed)),
        }
    }

    /// The distance of all walks, if it is printed or the distance of each is.
    pub(crate) fn cost(&self) -> Option<i64> {
        match self.total {
            Some(total) => Some(total),
            None if self.distances > 0 && self.distances == self.groups.groups.len() => {
                Some(self.sum)
            }
            None => None,
        }
    }
}

/// The whole number that a text begins with, if there is one.
fn distance_in(text: &[u8]) -> Option<i64> {
    let (digits, _) = split_digits(without_blanks(text));
    match parse_whole(digits, 0, i64::MAX) {
        Ok(distance) => Some(distance),
        Err(_) => None,
    }
}

/// The place after the words of a part of a line.
fn place_after(part: &[u8], first: Place) -> Place {
    let mut place = first;
    'words: for word in part.split(|byte| is_blank(*byte)) {
        if !word.is_empty() {
            place = place.next();
        }
    }
    place
}
