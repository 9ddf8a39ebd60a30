//! The fast path for long sections (`Intake::take_items`, which `feed.rt` calls): takes a run of
//! plain numbers in a matrix, in tours, in points or in numbers by node. It may leave any word to
//! `Intake::take_next` in `items.rt`, which reads everything, so it affects only speed.
//!
//! Most words of these sections are plain numbers, in a matrix mostly of a few digits. They are
//! read in a single pass, which finds the end of a word while it reads the digits. A run looks up
//! the list of its section once. One loop serves all lists (`PlainNumberList`), with the counts of
//! lines and words in one struct (`Count`), so that they can stay in registers.

ghost use Rattle.tsp_read.specs.Prelude.{option_map, ℕ, Bool, true, List, length, Some, IfSome, Ok, pos, slice_index_or, false, decimal_of, most_file_bytes, NumberWord, IsWhole};
ghost use Rattle.std.specs.Prelude.{◌≡◌, ◌+◌, ◌<◌, ◌≤◌, ◌-◌};
ghost use Rattle.tsp_read.specs.declared.section_builder.SectionBuilder.{SectionBuilder};
ghost use Rattle.tsp_read.specs.declared.section_builder.SectionBuilder.TheVariants as parts;
ghost use Rattle.tsp_read.specs.states.Onward.{GivesNext};
ghost use Rattle.tsp_read.specs.states.HeldParts.{TakesRead, in_group, groups_left, marks_of, KeepsWords};
ghost use Rattle.tsp_read.specs.states.Parts.{IsNodeOf};
ghost use Rattle.tsp_read.specs.states.PlainNumbers.{RunsTo, StepsTo, front_word, left_from, IsFrontWord, LeavesEnd};

use crate::items::{Intake, without_start};
use crate::list_sections::{Gathered, GatheredNodes, TourList, WeightList};
use crate::node_sections::{NumberList, PointList};
use crate::reading::Reading;
use crate::section_builder::SectionBuilder;
use std::alloc::Global;
use tsp_format::is_blank;
use tsp_number::{Decimal, front_decimal, front_few, front_whole};

// ---- a number at the beginning of a text

/// The byte that ends a word, and the text after it.
#[derive(Clone, Copy)]
pub(crate) enum End<'a> {
    /// A blank.
    Blank(&'a [u8]),
    /// A byte 10, which also ends the line.
    Line(&'a [u8]),
}

/// What ends a word in front of a text; `None` if no word ends here.
#[inline(always)]
fn word_end(rest: &[u8]) -> Option<End<'_>>
    ensures left { IfSome result (λ end. LeavesEnd rest.now (left_from end)) }
    ensures within { IfSome result (λ end. length (left_from end) ≤ length rest.now) }
{
    match rest.split_first() {
        Some((end, left)) if is_blank(*end) => Some(End::Blank(left)),
        Some((b'\n', left)) => Some(End::Line(left)),
        _ => None,
    }
}

/// What ends a word in front of a text, if it is a byte 10; `None` if it isn't.
#[inline(always)]
fn line_end(rest: &[u8]) -> Option<End<'_>>
    ensures left { IfSome result (λ end. LeavesEnd rest.now (left_from end)) }
    ensures within { IfSome result (λ end. length (left_from end) ≤ length rest.now) }
{
    match rest.split_first() {
        Some((b'\n', later)) => Some(End::Line(later)),
        _ => None,
    }
}

/// The whole number of a few digits at the front of a text, and the end of its word; `None` if
/// there is no such word, or if its end hasn't come.
#[inline(always)]
fn few_number(text: &[u8]) -> Option<(i64, End<'_>)>
    ensures { IfSome result (λ found.
        IsFrontWord text.now (IsWhole (front_word text.now) found.0) (left_from found.1)) }
{
    let Some((number, end)) = front_few(text) else {
        return None;
    };
    let rest = text.split_at(end).1;
    match word_end(rest) {
        Some(end) => Some((number, end)),
        None => None,
    }
}

/// What `few_number` returns, for words that a byte 10 ends.
#[inline(always)]
fn last_number(text: &[u8]) -> Option<(i64, End<'_>)>
    ensures { IfSome result (λ found.
        IsFrontWord text.now (IsWhole (front_word text.now) found.0) (left_from found.1)) }
{
    let Some((number, end)) = front_few(text) else {
        return None;
    };
    let rest = text.split_at(end).1;
    match line_end(rest) {
        Some(end) => Some((number, end)),
        None => None,
    }
}

/// The whole number at the front of a text, and the end of its word; `None` if there is no word of
/// at most 18 digits, or if its end hasn't come.
#[inline(never)]
fn front_number(text: &[u8]) -> Option<(i64, End<'_>)>
    ensures { IfSome result (λ found.
        IsFrontWord text.now (IsWhole (front_word text.now) found.0) (left_from found.1)) }
{
    let filled = without_start(text);
    let Some((number, end)) = front_whole(filled) else {
        return None;
    };
    let rest = filled.split_at(end).1;
    match word_end(rest) {
        Some(end) => Some((number, end)),
        None => None,
    }
}

/// The coordinate at the front of a text, and the end of its word; `None` if there is no word of at
/// most nine digits, a point and nine more digits, or if its end hasn't come.
#[inline(always)]
fn front_coordinate(text: &[u8]) -> Option<(Decimal, End<'_>)>
    ensures { IfSome result (λ found.
        IsFrontWord text.now (decimal_of (front_word text.now) ≡ Ok found.0) (left_from found.1)) }
{
    let filled = without_start(text);
    let Some(found) = front_decimal(filled) else {
        return None;
    };
    let rest = filled.split_at(found.1).1;
    match word_end(rest) {
        Some(end) => Some((found.0, end)),
        None => None,
    }
}

// ---- one item, taken

/// Counts a word that was taken, and the end of the line if that ends the word. Returns the text
/// after it.
#[inline(always)]
fn count_word<'a>(count: &mut Count, end: End<'a>) -> &'a [u8]
    requires line { count.old.line + length (left_from end) ≤ most_file_bytes }
    requires words { count.old.words + length (left_from end) < most_file_bytes }
    ensures { (old new : SectionBuilder) (text word : List ℕ) → TakesRead old new word
        → ((inside : Bool) → GivesNext inside text (NumberWord word) true (left_from end.entry))
        → length (left_from end.entry) < length text
        → StepsTo old count.old text new count.new (Some result.now) }
{
    match end {
        End::Blank(rest) => {
            count.words += 1;
            count.inside = true;
            rest
        }
        End::Line(rest) => {
            count.line += 1;
            count.words = 0;
            count.inside = false;
            rest
        }
    }
}

/// Takes the whole number that was found at the front of a text, if there is one and the list
/// accepts it, and returns the rest.
#[inline(always)]
fn take_number<'a, L: PlainNumberList>(
    list: &mut L,
    count: &mut Count,
    text: &[u8],
    found: Option<(i64, End<'a>)>,
) -> Option<&'a [u8]>
    requires line { count.old.line + length text.now ≤ most_file_bytes + 1 }
    requires words { count.old.words + length text.now ≤ most_file_bytes }
    requires found { IfSome found (λ found.
        IsFrontWord text.now (IsWhole (front_word text.now) found.0) (left_from found.1)) }
    ensures { StepsTo (L.part list.old) count.old text.now (L.part list.new) count.new
        (option_map (λ rest. rest.now) result) }
{
    let Some((number, end)) = found else {
        return None;
    };
    if !list.take_whole(number) {
        return None;
    }
    Some(count_word(count, end))
}

/// Takes the coordinate at the front of a text, if the list accepts it, and returns the rest.
#[inline(always)]
fn take_coordinate<'a, L: PlainNumberList>(
    list: &mut L,
    count: &mut Count,
    text: &'a [u8],
) -> Option<&'a [u8]>
    requires line { count.old.line + length text.now ≤ most_file_bytes + 1 }
    requires words { count.old.words + length text.now ≤ most_file_bytes }
    ensures { StepsTo (L.part list.old) count.old text.now (L.part list.new) count.new
        (option_map (λ rest. rest.now) result) }
{
    let Some(found) = front_coordinate(text) else {
        return None;
    };
    if !list.take_coordinate(found.0) {
        return None;
    }
    Some(count_word(count, found.1))
}

/// Counts the end of a line at the front of a text, and returns the rest.
#[inline(always)]
fn take_line_end<'a>(count: &mut Count, text: &'a [u8]) -> Option<&'a [u8]>
    requires { count.old.line + length text.now ≤ most_file_bytes + 1 }
    ensures { (part : SectionBuilder) → StepsTo part count.old text.now part count.new
        (option_map (λ rest. rest.now) result) }
{
    match text.split_first() {
        Some((b'\n', rest)) => {
            count.line += 1;
            count.words = 0;
            count.inside = false;
            Some(rest)
        }
        _ => None,
    }
}

/// Takes the end of a line or the number at the front of a text, if it isn't a number of a few
/// digits.
#[inline(always)]
fn take_other<'a, L: PlainNumberList>(
    list: &mut L,
    count: &mut Count,
    text: &'a [u8],
) -> Option<&'a [u8]>
    requires line { count.old.line + length text.now ≤ most_file_bytes + 1 }
    requires words { count.old.words + length text.now ≤ most_file_bytes }
    ensures { StepsTo (L.part list.old) count.old text.now (L.part list.new) count.new
        (option_map (λ rest. rest.now) result) }
{
    match take_line_end(count, text) {
        Some(rest) => Some(rest),
        None => take_number(list, count, text, front_number(text)),
    }
}

/// Takes the number of a few digits at the front of a text. If most words end their line
/// (`by_line`), it first tries a word that does.
// (so that the line is counted without testing for other ends of the word)
#[inline(always)]
fn take_few<'a, L: PlainNumberList>(
    list: &mut L,
    count: &mut Count,
    text: &'a [u8],
    by_line: bool,
) -> Option<&'a [u8]>
    requires line { count.old.line + length text.now ≤ most_file_bytes + 1 }
    requires words { count.old.words + length text.now ≤ most_file_bytes }
    ensures { StepsTo (L.part list.old) count.old text.now (L.part list.new) count.new
        (option_map (λ rest. rest.now) result) }
{
    if !by_line {
        return take_number(list, count, text, few_number(text));
    }
    match take_number(list, count, text, last_number(text)) {
        Some(rest) => Some(rest),
        None => take_number(list, count, text, few_number(text)),
    }
}

/// Takes the word or the end of a line at the front of a text, if the list accepts it, and returns
/// the rest.
#[inline(always)]
fn take_one<'a, L: PlainNumberList>(
    list: &mut L,
    count: &mut Count,
    text: &'a [u8],
    by_line: bool,
) -> Option<&'a [u8]>
    requires line { count.old.line + length text.now ≤ most_file_bytes + 1 }
    requires words { count.old.words + length text.now ≤ most_file_bytes }
    ensures { StepsTo (L.part list.old) count.old text.now (L.part list.new) count.new
        (option_map (λ rest. rest.now) result) }
{
    if list.awaits_coordinate() {
        return take_coordinate(list, count, text);
    }
    match take_few(list, count, text, by_line) {
        Some(rest) => Some(rest),
        None => take_other(list, count, text),
    }
}

// ---- a run

/// Takes words and line ends at the front of a text, as many as the list accepts. Returns the new
/// counts and the rest.
#[inline(always)]
fn take_all<'a, L: PlainNumberList>(
    list: &mut L,
    count: Count,
    text: &'a [u8],
    by_line: bool,
) -> (Count, &'a [u8])
    requires line { count.line + length text.now ≤ most_file_bytes + 1 }
    requires words { count.words + length text.now ≤ most_file_bytes }
    ensures { RunsTo (L.part list.old) count text.now (L.part list.new) result.0 result.1.now }
{
    let mut counted = count;
    let mut rest = text;
    'run: while let Some(after) = take_one(list, &mut counted, rest, by_line) {
        rest = after;
    }
    (counted, rest)
}

/// What `take_all` does, for a list that is passed by value.
// (so that everything that changes in the loop can stay in registers)
#[inline(never)]
fn take_gathered<'a, L: PlainNumberList>(
    list: L,
    count: Count,
    text: &'a [u8],
    by_line: bool,
) -> (L, Count, &'a [u8])
    requires line { count.line + length text.now ≤ most_file_bytes + 1 }
    requires words { count.words + length text.now ≤ most_file_bytes }
    ensures { RunsTo (L.part list) count text.now (L.part result.0) result.1 result.2.now }
{
    let mut own = list;
    let (counted, rest) = take_all(&mut own, count, text, by_line);
    (own, counted, rest)
}

/// What `take_all` does, for the weights of a matrix, with memory reserved first: a word and its
/// end take at least two bytes.
fn take_weights<'a>(
    list: &mut WeightList,
    alloc: Global,
    count: Count,
    text: &'a [u8],
) -> (Count, &'a [u8])
    requires line { count.line + length text.now ≤ most_file_bytes + 1 }
    requires words { count.words + length text.now ≤ most_file_bytes }
    ensures { RunsTo (parts.Weights list.old) count text.now
        (parts.Weights list.new) result.0 result.1.now }
{
    let gathered = list.gather(alloc, text.len() / 2);
    let (gathered, counted, rest) = take_gathered(gathered, count, text, false);
    list.put_back(gathered);
    (counted, rest)
}

/// What `take_all` does, for the nodes of tours, with memory reserved first.
fn take_tours<'a>(
    list: &mut TourList,
    alloc: Global,
    count: Count,
    text: &'a [u8],
) -> (Count, &'a [u8])
    requires line { count.line + length text.now ≤ most_file_bytes + 1 }
    requires words { count.words + length text.now ≤ most_file_bytes }
    ensures { RunsTo (parts.Tours list.old) count text.now
        (parts.Tours list.new) result.0 result.1.now }
{
    let gathered = list.gather(alloc);
    let (gathered, counted, rest) = take_gathered(gathered, count, text, true);
    list.put_back(gathered);
    (counted, rest)
}

/// What `take_all` does, for the list of any section. Sections without runs take nothing.
fn take_part<'a>(
    part: &mut SectionBuilder,
    alloc: Global,
    count: Count,
    text: &'a [u8],
) -> (Count, &'a [u8])
    requires line { count.line + length text.now ≤ most_file_bytes + 1 }
    requires words { count.words + length text.now ≤ most_file_bytes }
    ensures { RunsTo part.old count text.now part.new result.0 result.1.now }
{
    match part {
        SectionBuilder::Numbers(list) => take_all(list, count, text, false),
        SectionBuilder::Weights(list) => take_weights(list, alloc, count, text),
        SectionBuilder::Tours(list) => take_tours(list, alloc, count, text),
        SectionBuilder::Points(list) => take_all(list, count, text, false),
        _ => (count, text),
    }
}

impl Reading {
    ghost use Rattle.std.specs.Prelude.{ℕ, List};
    ghost use Rattle.tsp_read.specs.states.Onward.{IsReadTo};
    ghost use Rattle.tsp_read.specs.states.PlainNumbers.{counted};

    /// What `take_part` does, for the open section, if there is one.
    fn take_run<'a>(&mut self, alloc: Global, count: Count, text: &'a [u8]) -> (Count, &'a [u8])
        requires line { count.line + length text.now ≤ most_file_bytes + 1 }
        requires words { count.words + length text.now ≤ most_file_bytes }
        ensures read { (bytes : List ℕ) → IsReadTo (counted self.old count) bytes text.now
            → IsReadTo (counted self.new result.0) bytes result.1.now }
        ensures line { result.0.line + length result.1.now ≤ count.line + length text.now }
        ensures words { result.0.words + length result.1.now ≤ count.words + length text.now }
        ensures shorter { length result.1.now ≤ length text.now }
    {
        match &mut self.opened {
            Some(section) => take_part(&mut section.part, alloc, count, text),
            None => (count, text),
        }
    }
}

impl Intake {
    ghost use Rattle.std.specs.Prelude.{ℕ, List};
    ghost use Rattle.tsp_read.specs.states.Onward.{IsReadTo};

    /// Takes a run of plain numbers at the front of a text, and returns the rest.
    ///
    /// Nothing is taken unless the open section lists weights, tours, points or numbers by node.
    pub(crate) fn take_run<'a>(&mut self, alloc: Global, text: &'a [u8]) -> &'a [u8]
        requires line { self.old.line + length text.now ≤ most_file_bytes + 1 }
        requires words { self.old.words + length text.now ≤ most_file_bytes }
        ensures read { (bytes : List ℕ) → IsReadTo self.old bytes text.now
            → IsReadTo self.new bytes result.now }
        ensures line { self.new.line + length result.now ≤ self.old.line + length text.now }
        ensures words { self.new.words + length result.now ≤ self.old.words + length text.now }
        ensures shorter { length result.now ≤ length text.now }
    {
        let count = Count {
            line: self.line,
            words: self.words,
            inside: self.inside,
        };
        let (counted, rest) = self.reading.take_run(alloc, count, text);
        self.line = counted.line;
        self.words = counted.words;
        self.inside = counted.inside;
        rest
    }
}

// ---- the number of the line and of its words, while many words are taken at once

/// The counts of an `Intake` during a run of words.
#[derive(Clone, Copy)]
pub(crate) struct Count {
    /// The number of the line, from 1 on.
    pub(crate) line: u32,
    /// How many words of the line were taken.
    pub(crate) words: u32,
    /// An item of the line was taken.
    pub(crate) inside: bool,
}

// ---- the trait of lists that take the numbers of many words in one pass

/// A list that takes the numbers of a run of words, which have been read already.
pub trait PlainNumberList {
    /// The list as the `SectionBuilder` of its section.
    ghost part: { Self → SectionBuilder };

    /// Whether the next word is a coordinate.
    fn awaits_coordinate(&self) -> bool
        ensures { result ≡ in_group (part self.now) };

    /// Takes the number of a word, if the list accepts it at its place, and returns whether it did.
    fn take_whole(&mut self, number: i64) -> bool
        ensures taken { result ≡ true → (word : List ℕ) → IsWhole word number
            → TakesRead (part self.old) (part self.new) word }
        ensures kept { result ≡ false → KeepsWords (part self.old) (part self.new) }
        ensures refused { result ≡ false → 0 < groups_left (part self.old)
            → in_group (part self.old) ≡ false → (k : ℕ) → number ≡ pos k
            → IsNodeOf (length (marks_of (part self.old))) k
            → slice_index_or (marks_of (part self.old)) (k - 1) false ≡ true };

    /// Takes the coordinate of a word, if a group of points has begun, and returns whether it did.
    fn take_coordinate(&mut self, coordinate: Decimal) -> bool
        ensures taken { result ≡ true → (word : List ℕ) → decimal_of word ≡ Ok coordinate
            → TakesRead (part self.old) (part self.new) word }
        ensures kept { result ≡ false → KeepsWords (part self.old) (part self.new) }
        ensures refused { result ≡ false → 0 < groups_left (part self.old)
            → in_group (part self.old) ≡ false };
}

impl PlainNumberList for Gathered {
    ghost part = { λ run. parts.Weights run.list };

    #[inline(always)]
    fn awaits_coordinate(&self) -> bool {
        false
    }

    #[inline(always)]
    fn take_whole(&mut self, number: i64) -> bool {
        self.push_read(number)
    }

    #[inline(always)]
    fn take_coordinate(&mut self, _coordinate: Decimal) -> bool {
        false
    }
}

impl PlainNumberList for GatheredNodes {
    ghost part = { λ run. parts.Tours run.list };

    #[inline(always)]
    fn awaits_coordinate(&self) -> bool {
        false
    }

    #[inline(always)]
    fn take_whole(&mut self, number: i64) -> bool {
        self.push_read(number)
    }

    #[inline(always)]
    fn take_coordinate(&mut self, _coordinate: Decimal) -> bool {
        false
    }
}

impl PlainNumberList for NumberList {
    ghost part = { λ list. parts.Numbers list };

    #[inline(always)]
    fn awaits_coordinate(&self) -> bool {
        false
    }

    #[inline(always)]
    fn take_whole(&mut self, number: i64) -> bool {
        self.push_read(number)
    }

    #[inline(always)]
    fn take_coordinate(&mut self, _coordinate: Decimal) -> bool {
        false
    }
}

impl PlainNumberList for PointList {
    ghost part = { λ list. parts.Points list };

    #[inline(always)]
    fn awaits_coordinate(&self) -> bool {
        self.wants_coordinate()
    }

    #[inline(always)]
    fn take_whole(&mut self, number: i64) -> bool {
        self.push_read(number)
    }

    #[inline(always)]
    fn take_coordinate(&mut self, coordinate: Decimal) -> bool {
        self.push_coordinate(coordinate)
    }
}
