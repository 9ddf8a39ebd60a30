//! Cuts the bytes of a piece into lines and words, and keeps the one that the piece's end has cut
//! in two (`Begun`). `feed.rt` passes the pieces in. `Intake` hands each line or word to
//! `reading.rt` and counts them, so the places in printed faults come from here.

ghost use Rattle.tsp_read.specs.Prelude.{position, [], List, ℕ, length, IfOk, IfSome, Err, true, IsTrue, Ok, false, MatchOption, most_file_bytes, Item, NumberWord, line_item, WordLine, Line, is_end_line, line_number, words_before, word_number, without_start};
ghost use Rattle.std.specs.Prelude.{◌≡◌, ◌+◌, ◌≤◌, ◌<◌, ◌∷◌};
ghost use Rattle.tsp_read.specs.states.Holds.{Holds};
ghost use Rattle.tsp_read.specs.states.Onward.{ReadsOn, is_over_long, is_line_end, GivesNext, TakesItem};
ghost use Rattle.tsp_read.specs.states.Left.{items_left, item_next, is_in_line, up_to_first, from, is_settled, token_item, token_at, ends_token, most_bytes};

use crate::line::CutLine;
pub(crate) use crate::line::without_start;
use crate::reading::{ReadError, Reading};
use crate::step_fault::StepFault;
use arrayvec::ArrayVec;
use std::alloc::Global;
use tsp_format::{Keyword, MOST_LINE_BYTES, MOST_WORD_BYTES, is_blank, is_letter};
use tsp_number::NumberFault;
use tsp_text::LineFault;

/// A word that is too long.
const LONG_WORD: [u8; MOST_WORD_BYTES + 1] = [b'1'; MOST_WORD_BYTES + 1];

/// The state of the reader at a place in a text, with the numbers of the line and word there.
#[derive(Drop)]
pub(crate) struct Intake {
    pub(crate) reading: Reading,
    /// The number of the line, from 1 on.
    pub(crate) line: u32,
    /// How many words of the line were taken.
    pub(crate) words: u32,
    /// An item of the line was taken.
    pub(crate) inside: bool,
}

impl Intake {
    ghost use Rattle.tsp_read.specs.states.Onward.{HasTakenItems, TakesNext, IsReadTo, ReadsOn};

    /// The start of a text.
    pub(crate) fn new(alloc: Global) -> Intake
        ensures start { HasTakenItems result [] }
        ensures read { IsReadTo result [] [] }
        ensures line { result.line ≡ 1 }
        ensures words { result.words ≡ 0 }
    {
        Intake {
            reading: Reading::new(alloc),
            line: 1,
            words: 0,
            inside: false,
        }
    }

    /// The fields so far, and the open section.
    pub(crate) fn into_reading(self) -> Reading
        ensures { result ≡ self.reading }
    {
        let Intake {
            reading,
            line: _,
            words: _,
            inside: _,
        } = self;
        reading
    }

    /// Takes the next item. Returns whether it is the EOF line.
    pub(crate) fn take_next(&mut self, alloc: Global, next: &Next<'_>) -> Result<bool, ReadError>
        requires line { self.old.line ≤ most_file_bytes }
        requires words { self.old.words < most_file_bytes }
        ensures item { (earlier : List Item) → HasTakenItems self.old earlier
            → TakesNext earlier (item_next next.now) self.new result }
        ensures inside { IfOk result (λ _. self.new.inside ≡ is_in_line next.now) }
        ensures line { self.new.line ≤ self.old.line + 1 }
        ensures words { self.new.words ≤ self.old.words + 1 }
    {
        self.words = word_of(self.words, next);
        match take(&mut self.reading, alloc, next) {
            Ok(ended) => {
                self.line = line_after(self.line, next);
                self.inside = next.is_inside();
                Ok(ended)
            }
            Err(StepFault::Memory(refused)) => Err(ReadError::refused(refused)),
            Err(StepFault::Fault(fault)) => Err(ReadError::at(self.line, self.words, fault)),
        }
    }

    /// The fault of a word line that is too long.
    fn long_line(&self) -> ReadError
        ensures { (earlier : List Item) → HasTakenItems self.now earlier → (text : List ℕ)
            → is_over_long (line_item text) ≡ true
            → TakesNext earlier (line_item text) self.now (Err result) }
    {
        ReadError::at(self.line, 0, LineFault::LongLine)
    }

    /// The fault of a word that is too long, whatever its bytes are.
    fn long_word(&mut self, alloc: Global) -> ReadError
        requires line { self.old.line ≤ most_file_bytes }
        requires words { self.old.words < most_file_bytes }
        ensures { (earlier : List Item) → HasTakenItems self.old earlier → (word : List ℕ)
            → is_over_long (NumberWord word) ≡ true
            → TakesNext earlier (NumberWord word) self.new (Err result) }
    {
        match self.take_next(alloc, &Next::Word(&LONG_WORD)) {
            Err(fault) => fault,
            // Such a word is never taken.
            Ok(_) => {
                let fault = LineFault::Number(NumberFault::LongWord);
                ReadError::at(self.line, self.words, fault)
            }
        }
    }

    /// The fault of a line or a word that is too long, whatever its bytes are.
    pub(crate) fn too_long(&mut self, alloc: Global, token: Token) -> ReadError
        requires line { self.old.line ≤ most_file_bytes }
        requires words { self.old.words < most_file_bytes }
        ensures { (earlier : List Item) → HasTakenItems self.old earlier → (text : List ℕ)
            → is_over_long (token_item token text) ≡ true
            → TakesNext earlier (token_item token text) self.new (Err result) }
    {
        match token {
            Token::Line => self.long_line(),
            Token::Word => self.long_word(alloc),
        }
    }

    /// Takes the complete items of a piece, and returns the rest of the piece.
    ///
    /// An item is complete if no further byte can change it. Returns `None` after the EOF line.
    ///
    /// # Errors
    ///
    /// The first fault, or that memory was refused.
    pub(crate) fn take_items<'a>(
        &mut self,
        alloc: Global,
        piece: &'a [u8],
    ) -> Result<Option<&'a [u8]>, ReadError>
        requires line { self.old.line + length piece.now ≤ most_file_bytes + 1 }
        requires words { self.old.words + length piece.now ≤ most_file_bytes }
        ensures items { (bytes : List ℕ) → IsReadTo self.old bytes piece.now
            → ReadsOn bytes self.new.reading (λ rest. IsReadTo self.new bytes rest.now) result }
        ensures left { IfOk result (λ left. IfSome left (λ rest.
            items_left true self.new.inside rest.now ≡ [])) }
        ensures room { IfOk result (λ left. IfSome left (λ rest.
            (self.new.line + length rest.now ≤ self.old.line + length piece.now)
            × (self.new.words + length rest.now ≤ self.old.words + length piece.now))) }
    {
        let mut rest = self.take_run(alloc, piece);
        'items: while let Some((next, after)) = next_item(rest, self.inside, true) {
            if self.take_next(alloc, &next)? {
                return Ok(None);
            }
            rest = self.take_run(alloc, after);
        }
        Ok(Some(rest))
    }
}

// ---- take one item: a word line, a word or a line end

/// Takes an item into the state. Returns whether it is the EOF line.
fn take(reading: &mut Reading, alloc: Global, next: &Next<'_>) -> Result<bool, StepFault>
    ensures item { (earlier : List Item) → Holds reading.old earlier
        → TakesItem earlier (item_next next.now) reading.new result }
    ensures line_end { IsTrue (is_line_end (item_next next.now)) → result ≡ Ok false }
{
    match next {
        Next::LineEnd => Ok(false),
        Next::Word(word) => {
            reading.word(alloc, word)?;
            Ok(false)
        }
        Next::Line(text) => take_line(reading, alloc, text),
    }
}

/// Whether a keyword is that of the end line.
fn is_end(key: Keyword) -> bool
    ensures { (line : WordLine) → result ≡ is_end_line (Line key line) }
{
    match key {
        Keyword::Known(_) => false,
        Keyword::EdgeDataFormat => false,
        Keyword::EdgeDataSection => false,
        Keyword::Eof => true,
        Keyword::Unknown => false,
    }
}

/// Takes a word line, given from its first byte that isn't blank. Returns whether it is the EOF
/// line.
fn take_line(reading: &mut Reading, alloc: Global, text: &[u8]) -> Result<bool, StepFault>
    ensures { (earlier : List Item) → Holds reading.old earlier
        → TakesItem earlier (line_item text.now) reading.new result }
{
    let line = CutLine::of(text);
    reading.line(alloc, &line)?;
    Ok(is_end(line.key))
}

/// The number of the word that an item is, after this many words of its line; 0 if it isn't a word.
fn word_of(words: u32, next: &Next<'_>) -> u32
    requires { words ≤ most_file_bytes }
    ensures number { (earlier : List Item) → words ≡ words_before earlier
        → result ≡ word_number earlier (item_next next.now) }
    ensures more { result ≤ words + 1 }
{
    match next {
        Next::Word(_) => words + 1,
        _ => 0,
    }
}

/// The number of the line after an item of this one.
fn line_after(line: u32, next: &Next<'_>) -> u32
    requires { line ≤ most_file_bytes + 1 }
    ensures number { (earlier : List Item) → line ≡ line_number earlier
        → result ≡ line_number (item_next next.now ∷ earlier) }
    ensures more { result ≤ line + 1 }
{
    match next {
        Next::LineEnd => line + 1,
        _ => line,
    }
}

// ---- cut a text into word lines, the words of number lines, and line ends

/// The next part of a text.
#[derive(Clone, Copy)]
pub(crate) enum Next<'a> {
    /// A word line, from its first byte that isn't blank to its end.
    Line(&'a [u8]),
    /// A word of a number line.
    Word(&'a [u8]),
    /// The end of a line.
    LineEnd,
}

impl<'a> Next<'a> {
    /// A line or a word of this text.
    #[inline(always)]
    pub(crate) fn of(token: Token, text: &'a [u8]) -> Next<'a>
        ensures item { item_next result ≡ token_item token text.now }
        ensures inside { is_in_line result ≡ true }
    {
        match token {
            Token::Line => Next::Line(text),
            Token::Word => Next::Word(text),
        }
    }

    /// Whether what follows is in the same line.
    #[inline(always)]
    pub(crate) fn is_inside(&self) -> bool
        ensures { result ≡ is_in_line self.now }
    {
        match self {
            Next::Line(_) | Next::Word(_) => true,
            Next::LineEnd => false,
        }
    }
}

/// The next part of a text, and what is left after it; `None` at its end.
///
/// `inside` says that an item of the first line was already taken. `goes_on` says that more bytes
/// follow: then an item counts only if no further byte can change it, or if it is already too long.
#[inline(always)]
fn next_item(text: &[u8], inside: bool, goes_on: bool) -> Option<(Next<'_>, &[u8])>
    ensures items { MatchOption result (items_left goes_on inside text.now ≡ [])
        (λ found. items_left goes_on inside text.now
        ≡ item_next found.0 ∷ items_left goes_on (is_in_line found.0) found.1.now) }
    ensures follows { IfSome result (λ found. goes_on ≡ true → is_over_long (item_next found.0)
        ≡ false → GivesNext inside text.now (item_next found.0) (is_in_line found.0) found.1.now) }
    ensures shorter { IfSome result (λ found. length found.1.now < length text.now) }
{
    let filled = without_start(text);
    let Some((first, after)) = filled.split_first() else {
        return None;
    };
    if *first == b'\n' {
        return Some((Next::LineEnd, after));
    }
    let token = Token::begun_by(*first, inside);
    let (front, rest) = token.take(filled, goes_on)?;
    Some((Next::of(token, front), rest))
}

// ---- a word line or a word of a number line: where it ends in a text, and how long it may be

/// A part of a text that is neither a blank nor a line end.
#[derive(Clone, Copy)]
pub(crate) enum Token {
    /// A word line, from its first byte that isn't blank to its end.
    Line,
    /// A word of a number line.
    Word,
}

impl Token {
    /// What a byte that isn't blank begins: a word line if it is a letter and the first in its
    /// line, otherwise a word.
    #[inline(always)]
    pub(crate) fn begun_by(first: u8, inside: bool) -> Token
        ensures { result ≡ token_at inside first }
    {
        if !inside && is_letter(first) {
            Token::Line
        } else {
            Token::Word
        }
    }

    /// The most bytes that it may have.
    #[inline(always)]
    pub(crate) fn most_bytes(self) -> usize
        ensures { result ≡ most_bytes self }
    {
        match self {
            Token::Line => MOST_LINE_BYTES,
            Token::Word => MOST_WORD_BYTES,
        }
    }

    /// Where it ends in a text that it begins, or in which it continues: at a byte 10, and for a
    /// word also at a blank.
    #[inline(always)]
    fn end(self, text: &[u8]) -> Option<usize>
        ensures { result ≡ position (ends_token self) text.now }
    {
        match self {
            Token::Line => text.iter().position(|byte| *byte == b'\n'),
            Token::Word => text
                .iter()
                .position(|byte| is_blank(*byte) || *byte == b'\n'),
        }
    }

    /// The text up to its end, and the rest.
    #[inline(always)]
    pub(crate) fn cut(self, text: &[u8]) -> (&[u8], &[u8])
        ensures before { result.0.now ≡ up_to_first (ends_token self) text.now }
        ensures from { result.1.now ≡ from (ends_token self) text.now }
    {
        match self.end(text) {
            Some(end) => text.split_at(end),
            None => text.split_at(text.len()),
        }
    }

    /// The parts that `cut` returns; `None` if the text goes on and doesn't contain the end, unless
    /// it is already too long.
    #[inline(always)]
    pub(crate) fn take(self, text: &[u8], goes_on: bool) -> Option<(&[u8], &[u8])>
        ensures { MatchOption result (is_settled (most_bytes self) goes_on
            (up_to_first (ends_token self) text.now) (from (ends_token self) text.now) ≡ false) (λ cut.
            (cut.0.now ≡ up_to_first (ends_token self) text.now) × (cut.1.now ≡ from (ends_token self) text.now)
            × (is_settled (most_bytes self) goes_on cut.0.now cut.1.now ≡ true)) }
    {
        let (front, rest) = self.cut(text);
        if rest.is_empty() && goes_on && front.len() <= self.most_bytes() {
            return None;
        }
        Some((front, rest))
    }
}

// ---- a line or a word that the end of a piece has cut

/// The bytes so far of a word line or word whose end hasn't come, from its first byte that isn't
/// blank; empty if nothing has begun.
#[derive(Drop)]
pub(crate) struct Begun {
    /// What has begun, if anything has.
    pub(crate) token: Token,
    pub(crate) bytes: ArrayVec<u8, MOST_LINE_BYTES>,
}

impl Begun {
    ghost use Rattle.tsp_read.specs.states.Onward.{IsPaused, TakesAll};
    ghost use Rattle.tsp_read.specs.states.Onward.{HasBegun, kept, IsFedTo, IsJoinedTo, most_lines, most_words, KeepRoom};

    /// Nothing has begun.
    pub(crate) fn new() -> Begun
        ensures { kept result ≡ [] }
    {
        Begun {
            token: Token::Word,
            bytes: ArrayVec::new(),
        }
    }

    /// Keeps what is left of a piece: either only blanks, or a line or word without its end.
    pub(crate) fn keep(&mut self, rest: &[u8], inside: bool)
        requires { items_left true inside rest.now ≡ [] }
        ensures begins { HasBegun inside self.new.token self.new.bytes.items }
        ensures kept { kept self.new ≡ without_start rest.now }
    {
        self.bytes.clear();
        let filled = without_start(rest);
        let Some((first, _)) = filled.split_first() else {
            return;
        };
        self.token = Token::begun_by(*first, inside);
        // It fits, because a longer one has been refused.
        let _ = self.bytes.try_extend_from_slice(filled);
    }

    /// Completes the item that was cut, if any, from the front of the next piece.
    ///
    /// It is taken if its end is in the piece. Returns the rest of the piece, or `None` after the
    /// EOF line.
    ///
    /// # Errors
    ///
    /// The first fault, or that memory was refused.
    pub(crate) fn join<'a>(
        &mut self,
        intake: &mut Intake,
        alloc: Global,
        piece: &'a [u8],
    ) -> Result<Option<&'a [u8]>, ReadError>
        requires lines { most_lines intake.old self.old (length piece.now) ≤ most_file_bytes + 1 }
        requires words { most_words intake.old self.old (length piece.now) ≤ most_file_bytes }
        ensures joined { (bytes : List ℕ)
            → IsFedTo intake.old self.old bytes piece.now → ReadsOn bytes intake.new.reading
            (λ rest. IsJoinedTo intake.new self.new bytes rest.now) result }
        ensures room { IfOk result (λ left. IfSome left (λ rest. KeepRoom intake.old self.old
            (length piece.now) intake.new self.new (length rest.now))) }
    {
        if self.bytes.is_empty() {
            return Ok(Some(piece));
        }
        let (front, rest) = self.token.cut(piece);
        if self.bytes.len() + front.len() > self.token.most_bytes() {
            return Err(intake.too_long(alloc, self.token));
        }
        // It fits, because nothing may be longer than a line.
        let _ = self.bytes.try_extend_from_slice(front);
        if rest.is_empty() {
            return Ok(Some(rest));
        }
        if intake.take_next(alloc, &Next::of(self.token, self.bytes.as_slice()))? {
            return Ok(None);
        }
        self.bytes.clear();
        Ok(Some(rest))
    }

    /// Takes the item that was cut, if there is one, as the last item of the text.
    ///
    /// Returns whether it is the EOF line.
    ///
    /// # Errors
    ///
    /// The first fault, or that memory was refused.
    pub(crate) fn take_last(&self, intake: &mut Intake, alloc: Global) -> Result<bool, ReadError>
        requires lines { most_lines intake.old self.now 0 ≤ most_file_bytes + 1 }
        requires words { most_words intake.old self.now 0 ≤ most_file_bytes }
        ensures { (bytes : List ℕ) → IsPaused intake.old self.now bytes
            → TakesAll bytes intake.new.reading result }
    {
        if self.bytes.is_empty() {
            return Ok(false);
        }
        intake.take_next(alloc, &Next::of(self.token, self.bytes.as_slice()))
    }
}
