//! The numbers of a text in groups, one for each tour or route. All readers of forms except
//! `edges.rt` return their numbers in this way, and `meaning.rt` turns them into nodes.

use crate::fault::{FormFault, SolutionFault};
use crate::word_place::Place;
use std::alloc::Global;
use tsp_io::push;

/// A number, and where it stands.
#[derive(Clone, Copy)]
pub(crate) struct Number {
    pub(crate) value: u32,
    pub(crate) place: Place,
}

/// Numbers in groups, in the order in which they are listed.
#[derive(Drop)]
pub(crate) struct NumberGroups {
    /// The groups.
    pub(crate) groups: Vec<Vec<u32>>,
    /// The first of the least numbers.
    pub(crate) least: Option<Number>,
    /// The first of the largest numbers.
    pub(crate) largest: Option<Number>,
    /// Where the last number stands.
    pub(crate) last: Place,
}

impl NumberGroups {
    /// No group.
    pub(crate) fn new(alloc: Global) -> NumberGroups {
        NumberGroups {
            groups: Vec::new(alloc),
            least: None,
            largest: None,
            last: Place::first(),
        }
    }

    /// Begins a group.
    pub(crate) fn open(&mut self, alloc: Global) -> Result<(), SolutionFault> {
        push(&mut self.groups, Vec::new(alloc))?;
        Ok(())
    }

    /// Adds a number to the last group.
    pub(crate) fn push(&mut self, value: u32, place: Place) -> Result<(), SolutionFault> {
        let Some(group) = self.groups.last_mut() else {
            return Err(place.fault(FormFault::NoForm));
        };
        push(group, value)?;
        self.note(value, place);
        Ok(())
    }

    /// Notes the place of a number, if it is the least or the largest so far.
    fn note(&mut self, value: u32, place: Place) {
        let number = Number { value, place };
        self.least = match self.least {
            Some(least) if least.value <= value => Some(least),
            _ => Some(number),
        };
        self.largest = match self.largest {
            Some(largest) if largest.value >= value => Some(largest),
            _ => Some(number),
        };
        self.last = place;
    }

    /// Whether some group lists a number.
    pub(crate) fn lists(&self, number: u32) -> bool {
        self.groups.iter().any(|group| has(group, number))
    }

    /// Whether each group begins and ends with a number, which is listed twice at least.
    pub(crate) fn are_closed_at(&self, depot: u32) -> bool {
        self.groups.iter().all(|group| is_closed_at(group, depot))
    }
}

/// Whether a list has a number.
pub(crate) fn has(list: &[u32], number: u32) -> bool {
    list.iter().any(|other| *other == number)
}

/// Whether a list begins and ends with a number, which is listed twice at least.
pub(crate) fn is_closed_at(list: &[u32], depot: u32) -> bool {
    match list {
        [first, .., last] => *first == depot && *last == depot,
        _ => false,
    }
}
