//! Reads lines of numbers: a list of nodes, a table of nodes and their positions, a tour that R
//! printed, or a Concorde tour. `by_form.rt` calls it; its answers are tested, not proved.

use crate::fault::{FormFault, SolutionFault};
use crate::number_groups::NumberGroups;
use crate::word_place::{Place, is_mark, is_name, number_of, split_digits, without_blanks};
use std::alloc::Global;
use tsp_io::{Refused, filled, push};

/// The most columns that a table has.
const MOST_COLUMNS: u32 = 2;

/// The numbers of a text, and how its lines list them. Blank lines and comments with `#` aren't
/// counted.
#[derive(Drop)]
pub(crate) struct Rows {
    /// One group, with all the numbers.
    pub(crate) list: NumberGroups,
    /// How many numbers there are.
    count: usize,
    /// How many lines have numbers.
    rows: usize,
    /// Whether the first of these lines has one number, and nothing else.
    begins_with_one: bool,
    /// Whether each of these lines has one number.
    are_single: bool,
    /// Whether each of these lines has two numbers.
    are_pairs: bool,
    /// Whether a line of names comes before the numbers.
    has_names: bool,
    /// The place of that line, if it has more names than a table has columns.
    too_many: Option<Place>,
}

/// Reads the lines of numbers of a text. If it is `printed` by R, each may begin with the index of
/// its first number, as in `[19] 4 7`.
///
/// # Errors
///
/// `NoForm` if the text doesn't begin with numbers, below one line of names at most;
/// `TooManyColumns` if there are more than two names; `NotANode` and `OutOfRange` at a word that
/// isn't a node's number.
pub(crate) fn read_rows(alloc: Global, text: &[u8], printed: bool) -> Result<Rows, SolutionFault> {
    let mut rows = Rows::new(alloc);
    rows.list.open(alloc)?;
    let mut line = 0u32;
    'lines: for bytes in text.split(|byte| *byte == b'\n') {
        line = line.saturating_add(1);
        rows.take_line(bytes, line, printed)?;
    }
    if rows.count == 0 {
        drop(rows);
        return Err(Place::first().fault(FormFault::NoForm));
    }
    Ok(rows)
}

impl Rows {
    /// No lines.
    fn new(alloc: Global) -> Rows {
        Rows {
            list: NumberGroups::new(alloc),
            count: 0,
            rows: 0,
            begins_with_one: false,
            are_single: true,
            are_pairs: true,
            has_names: false,
            too_many: None,
        }
    }

    /// Takes the next line.
    fn take_line(&mut self, bytes: &[u8], line: u32, printed: bool) -> Result<(), SolutionFault> {
        let rest = without_blanks(bytes);
        if rest.starts_with(b"#") {
            return Ok(());
        }
        if self.rows == 0 && !self.has_names && self.take_names(rest, line) {
            return Ok(());
        }
        let before = self.count;
        match after_index(rest) {
            Some(numbers) if printed => self.take_words(numbers, Place::of_line(line).next())?,
            _ => self.take_words(rest, Place::of_line(line))?,
        }
        self.count_row(self.count.saturating_sub(before));
        Ok(())
    }

    /// Takes a line of names, or returns `false` if it is none.
    fn take_names(&mut self, bytes: &[u8], line: u32) -> bool {
        let names = count_names(bytes);
        self.has_names = names > 0;
        if names > MOST_COLUMNS {
            self.too_many = Some(Place::of_line(line));
        }
        self.has_names
    }

    /// Takes the words of a line, of which the first stands at this place.
    fn take_words(&mut self, line: &[u8], first: Place) -> Result<(), SolutionFault> {
        let mut place = first;
        'words: for word in line.split(|byte| is_mark(*byte)) {
            if word.is_empty() {
                continue;
            }
            let number = match number_of(word, place) {
                Err(
                    SolutionFault::Place {
                        line: _,
                        word: _,
                        fault: FormFault::NotANode,
                    },
                ) if self.count == 0 => return Err(place.fault(FormFault::NoForm)),
                found => found?,
            };
            if let Some(names) = self.too_many {
                return Err(names.fault(FormFault::TooManyColumns));
            }
            self.list.push(number, place)?;
            self.count = self.count.saturating_add(1);
            place = place.next();
        }
        Ok(())
    }

    /// Counts a line with this many numbers, if it has any.
    fn count_row(&mut self, numbers: usize) {
        if numbers == 0 {
            return;
        }
        if self.rows == 0 {
            self.begins_with_one = numbers == 1;
        }
        self.rows = self.rows.saturating_add(1);
        self.are_single = self.are_single && numbers == 1;
        self.are_pairs = self.are_pairs && numbers == 2;
    }

    /// The numbers.
    pub(crate) fn numbers(&self) -> &[u32] {
        match self.list.groups.first() {
            Some(group) => group.as_slice(),
            None => &[],
        }
    }

    /// Whether the numbers are those of a tour of Concorde: how many nodes there are, alone in its
    /// line, and then each node from 0 on.
    pub(crate) fn is_concorde(&self, alloc: Global, nodes: Option<u32>) -> Result<bool, Refused> {
        let [count, rest @ ..] = self.numbers() else {
            return Ok(false);
        };
        if !self.begins_with_one || *count as usize != rest.len() {
            return Ok(false);
        }
        match nodes {
            Some(nodes) if nodes != *count => Ok(false),
            _ => lists_each(alloc, rest, 0),
        }
    }

    /// Whether a tour of Concorde is as likely a list of one node more: one number in each line.
    pub(crate) fn is_ambiguous(&self, nodes: Option<u32>) -> bool {
        self.are_single && self.rows > 2 && nodes.is_none()
    }

    /// The nodes of a table by their position, which is in the other column; or `None` if the
    /// numbers are no such table.
    pub(crate) fn ordered(&self, alloc: Global) -> Result<Option<Vec<u32>>, Refused> {
        if self.rows < 2 || !self.are_pairs {
            return Ok(None);
        }
        let first = column(alloc, self.numbers(), 0)?;
        let second = column(alloc, self.numbers(), 1)?;
        if counts_up(&first) && lists_all(alloc, &second)? {
            return Ok(Some(second));
        }
        if counts_up(&second) && lists_all(alloc, &first)? {
            return Ok(Some(first));
        }
        Ok(None)
    }
}

/// How many names a line consists of, or 0 if a word of it isn't one.
fn count_names(line: &[u8]) -> u32 {
    let mut names = 0u32;
    'words: for word in line.split(|byte| is_mark(*byte)) {
        if !word.is_empty() && !is_name(word) {
            return 0;
        }
        if !word.is_empty() {
            names = names.saturating_add(1);
        }
    }
    names
}

/// What follows an index in brackets, if a line begins with one.
pub(crate) fn after_index(line: &[u8]) -> Option<&[u8]> {
    let (mark, rest) = line.split_first()?;
    let (digits, after) = split_digits(rest);
    let (end, numbers) = after.split_first()?;
    if *mark == b'[' && !digits.is_empty() && *end == b']' {
        Some(numbers)
    } else {
        None
    }
}

/// Every second number, from this one on.
fn column(alloc: Global, numbers: &[u32], first: usize) -> Result<Vec<u32>, Refused> {
    let mut column = Vec::new(alloc);
    'numbers: for (index, number) in numbers.iter().enumerate() {
        if index % 2 == first {
            push(&mut column, *number)?;
        }
    }
    Ok(column)
}

/// Whether numbers count up by 1, from 0 or from 1.
fn counts_up(numbers: &[u32]) -> bool {
    let Some(first) = numbers.first() else {
        return false;
    };
    let mut wanted = u64::from(*first);
    'numbers: for number in numbers {
        if u64::from(*number) != wanted {
            return false;
        }
        wanted = wanted.saturating_add(1);
    }
    *first <= 1
}

/// Whether numbers are those from 0 on, or those from 1 on, each once.
fn lists_all(alloc: Global, numbers: &[u32]) -> Result<bool, Refused> {
    Ok(lists_each(alloc, numbers, 0)? || lists_each(alloc, numbers, 1)?)
}

/// Whether numbers are those from `least` on, each once.
fn lists_each(alloc: Global, numbers: &[u32], least: u32) -> Result<bool, Refused> {
    let mut seen = filled(alloc, false, numbers.len())?;
    'numbers: for number in numbers {
        if *number < least {
            return Ok(false);
        }
        match seen.get_mut((*number - least) as usize) {
            Some(place) if !*place => *place = true,
            _ => return Ok(false),
        }
    }
    Ok(true)
}
