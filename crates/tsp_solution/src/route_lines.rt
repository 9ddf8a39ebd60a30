//! Reads the routes in CVRPLIB's .sol files and in LKH-3's MTSP_SOLUTION_FILE, a line for each
//! route, and the routes of a tour with copies of the depot. `by_form.rt` calls it, and so does
//! `tour_file.rt` for files of TYPE TOUR; its answers are tested, not proved.

use crate::fault::{FormFault, SolutionFault};
use crate::number_groups::NumberGroups;
use crate::word_place::{Place, after_prefix, has_pair, is_mark, number_of, without_blanks};
use std::alloc::Global;
use tsp_format::is_letter;
use tsp_io::{Refused, copied, push};
use tsp_number::parse_decimal;

/// Routes, and what their file claims as their cost.
#[derive(Drop)]
pub(crate) struct CostedGroups {
    pub(crate) groups: NumberGroups,
    /// The cost as it is written, if the file has one.
    pub(crate) cost: Option<Vec<u8>>,
}

/// The routes of a .sol file as far as they are read.
#[derive(Drop)]
struct Routes {
    found: CostedGroups,
    /// The number of the depot, which routes may have at both ends.
    depot: u32,
    /// Where the depot stands at the beginning of the open route, and where at its end.
    start: Option<Place>,
    end: Option<Place>,
}

/// Whether a line begins a route: `Route`, and a colon behind it.
pub(crate) fn is_route_line(line: &[u8]) -> bool {
    match after_prefix(without_blanks(line), b"route") {
        Some(rest) => !begins_with_letter(rest) && rest.iter().any(|byte| *byte == b':'),
        None => false,
    }
}

/// Whether a text begins with a letter.
fn begins_with_letter(text: &[u8]) -> bool {
    match text.first() {
        Some(byte) => is_letter(*byte),
        None => false,
    }
}

/// Reads the routes of a .sol file, without the depot, whose number is `depot`.
///
/// # Errors
///
/// `UnknownLine` at a line that is neither a route nor the cost, and has numbers without a colon;
/// `NotANode` and `OutOfRange` at a word of a route that is no customer, such as a depot inside.
pub(crate) fn read_routes(
    alloc: Global,
    text: &[u8],
    depot: u32,
) -> Result<CostedGroups, SolutionFault> {
    let mut routes = Routes {
        found: CostedGroups {
            groups: NumberGroups::new(alloc),
            cost: None,
        },
        depot,
        start: None,
        end: None,
    };
    let mut line = 0u32;
    'lines: for bytes in text.split(|byte| *byte == b'\n') {
        line = line.saturating_add(1);
        routes.take_line(alloc, bytes, line)?;
    }
    Ok(routes.found)
}

impl Routes {
    /// Takes the next line.
    fn take_line(&mut self, alloc: Global, bytes: &[u8], line: u32) -> Result<(), SolutionFault> {
        let place = Place::of_line(line);
        if is_route_line(bytes) {
            return self.take_routes(alloc, bytes, place);
        }
        let rest = without_blanks(bytes);
        match after_prefix(rest, b"cost") {
            Some(after) if !begins_with_letter(after) => {
                self.found.cost = cost_in(alloc, after)?;
                Ok(())
            }
            _ if says_nothing(rest) => Ok(()),
            _ => Err(place.fault(FormFault::UnknownLine)),
        }
    }

    /// Takes a line of routes. Before each colon is the head of one.
    fn take_routes(
        &mut self,
        alloc: Global,
        bytes: &[u8],
        first: Place,
    ) -> Result<(), SolutionFault> {
        let mut place = first;
        let mut is_first = true;
        let mut is_head = true;
        'parts: for part in bytes.split(|byte| *byte == b':') {
            if !is_first {
                self.found.groups.open(alloc)?;
            }
            (is_head, place) = self.take_part(part, place, is_first)?;
            self.end_route()?;
            is_first = false;
        }
        if is_head {
            return Err(first.fault(FormFault::UnknownLine));
        }
        Ok(())
    }

    /// Takes what stands before a colon or the end of the line: customers, and the head of the next
    /// route.
    fn take_part(
        &mut self,
        part: &[u8],
        first: Place,
        begins_in_head: bool,
    ) -> Result<(bool, Place), SolutionFault> {
        let mut place = first;
        let mut is_head = begins_in_head;
        'words: for word in part.split(|byte| is_mark(*byte)) {
            if word.is_empty() {
                continue;
            }
            is_head = is_head || after_prefix(word, b"route").is_some();
            if !is_head {
                self.take_customer(number_of(word, place)?, place)?;
            }
            place = place.next();
        }
        Ok((is_head, place))
    }

    /// Takes a customer, or the depot at an end of a route.
    fn take_customer(&mut self, number: u32, place: Place) -> Result<(), SolutionFault> {
        if let Some(depot) = self.end {
            return Err(depot.fault(FormFault::NotANode));
        }
        if number != self.depot {
            return self.found.groups.push(number, place);
        }
        match (self.start, self.found.groups.groups.last()) {
            (None, Some(route)) if route.is_empty() => self.start = Some(place),
            _ => self.end = Some(place),
        }
        Ok(())
    }

    /// Ends the open route, which has the depot at both ends or at none.
    fn end_route(&mut self) -> Result<(), SolutionFault> {
        let ends = (self.start, self.end);
        self.start = None;
        self.end = None;
        match ends {
            (None, None) | (Some(_), Some(_)) => Ok(()),
            (Some(depot), None) | (None, Some(depot)) => Err(depot.fault(FormFault::NotANode)),
        }
    }
}

/// The number that follows `Cost`, as it is written; nothing if none does.
fn cost_in(alloc: Global, rest: &[u8]) -> Result<Option<Vec<u8>>, Refused> {
    'words: for word in rest.split(|byte| is_mark(*byte) || *byte == b'=') {
        if !word.is_empty() {
            return match parse_decimal(word) {
                Ok(_) => Ok(Some(copied(alloc, word)?)),
                Err(_) => Ok(None),
            };
        }
    }
    Ok(None)
}

/// Whether a line beside the routes says nothing of them: it has no digit, or it is a comment, or it
/// is a name with a value, such as `Time: 3.2`.
fn says_nothing(line: &[u8]) -> bool {
    let has_digit = line.iter().any(|byte| byte.is_ascii_digit());
    let has_colon = line.iter().any(|byte| *byte == b':' || *byte == b'=');
    !has_digit || line.starts_with(b"#") || (has_colon && begins_with_letter(line))
}

// ---- routes of LKH-3

/// Whether a line is a route of LKH-3: its length follows the nodes behind a `(#`.
pub(crate) fn is_lkh_line(line: &[u8]) -> bool {
    has_pair(line, b'(', b'#')
}

/// The nodes of LKH-3's routes, one route after the other, in one group.
///
/// # Errors
///
/// `NotANode` and `OutOfRange` at a word that isn't a node.
pub(crate) fn read_lkh_routes(alloc: Global, text: &[u8]) -> Result<NumberGroups, SolutionFault> {
    let mut groups = NumberGroups::new(alloc);
    groups.open(alloc)?;
    let mut line = 0u32;
    'lines: for bytes in text.split(|byte| *byte == b'\n') {
        line = line.saturating_add(1);
        if is_lkh_line(bytes) {
            take_nodes(&mut groups, bytes, Place::of_line(line))?;
        }
    }
    Ok(groups)
}

/// Takes the nodes of a line up to its first bracket.
fn take_nodes(groups: &mut NumberGroups, bytes: &[u8], first: Place) -> Result<(), SolutionFault> {
    let mut place = first;
    'words: for word in bytes.split(|byte| is_mark(*byte) && *byte != b'(') {
        if word.starts_with(b"(") {
            return Ok(());
        }
        if !word.is_empty() {
            groups.push(number_of(word, place)?, place)?;
            place = place.next();
        }
    }
    Ok(())
}

/// The routes of a round trip in which the depot, and each number above those of the nodes, is the
/// depot; or `None` if it has no depot.
pub(crate) fn split_at_depots(
    alloc: Global,
    trip: &[u32],
    depot: u32,
    nodes: u32,
) -> Result<Option<Vec<Vec<u32>>>, Refused> {
    let Some(start) = trip.iter().position(|node| is_depot(*node, depot, nodes)) else {
        return Ok(None);
    };
    if start > trip.len() {
        return Ok(None);
    }
    let (before, after) = trip.split_at(start);
    let mut routes = Vec::new(alloc);
    let mut open = take_trip(alloc, &mut routes, Vec::new(alloc), after, (depot, nodes))?;
    open = take_trip(alloc, &mut routes, open, before, (depot, nodes))?;
    if open.is_empty() {
        drop(open);
    } else {
        push(&mut routes, open)?;
    }
    Ok(Some(routes))
}

/// Whether a number is the depot or a copy of it.
fn is_depot(number: u32, depot: u32, nodes: u32) -> bool {
    number == depot || number > nodes
}

/// Adds a part of a round trip to routes, of which `open` is the last, and returns the open one at
/// the end of the part.
fn take_trip(
    alloc: Global,
    routes: &mut Vec<Vec<u32>>,
    open: Vec<u32>,
    trip: &[u32],
    shape: (u32, u32),
) -> Result<Vec<u32>, Refused> {
    let mut open = open;
    'nodes: for node in trip {
        if !is_depot(*node, shape.0, shape.1) {
            push(&mut open, *node)?;
        } else if !open.is_empty() {
            push(routes, open)?;
            open = Vec::new(alloc);
        }
    }
    Ok(open)
}
