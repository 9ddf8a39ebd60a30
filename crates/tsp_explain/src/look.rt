//! A second look at a faulty file: the text at the fault's place, counts of words, and the keywords
//! before it. `file_fault.rt` calls it and explains the fault by what it finds. It runs after the
//! answer is known, and can't change it.

ghost use Rattle.std.specs.Prelude.{◌≤◌, length};

use crate::excerpt::Excerpt;
use crate::groups::{Groups, Shift};
use crate::near::{is_in_other_letters, is_near};
use arrayvec::ArrayVec;
use std::io;
use std::io::Read;
use tsp_format::{
    Field, Keyword, Kind, MOST_FILE_BYTES, MOST_NODES, Word, is_blank, is_keyword_byte, is_letter,
    is_spatial, value_of,
};
use tsp_number::parse_whole;

/// The most bytes that the reader is asked for at once.
const MOST_SEEN_AT_ONCE: usize = 4_096;

/// The line and word that a look seeks in a file.
#[derive(Clone, Copy)]
pub(crate) enum Sought {
    /// A line, counted from 1, and a word of it, counted from 1, or the whole line if it is 0.
    Place { line: u32, word: u32 },
    /// The words of a section, or of the keyword that is missing, in the whole file.
    Field(Field),
    /// Nothing but whether the file can be read.
    Nothing,
}

/// The line that is being read.
#[derive(Drop)]
struct Line {
    /// Its number, counted from 1.
    number: u32,
    /// How many words have begun in it.
    words: u32,
    /// Whether the last byte is of a word.
    is_in_word: bool,
    /// Its first bytes, from the first on that isn't blank.
    front: ArrayVec<u8, 128>,
}

/// The findings of a look at a file.
#[derive(Drop)]
pub(crate) struct Look {
    sought: Sought,
    line: Line,
    /// The first bytes of the file.
    pub(crate) head: ArrayVec<u8, 8>,
    /// The shown part of the line that was sought.
    pub(crate) excerpt: Excerpt,
    /// The field of the last word line, up to the line that was looked for and with it.
    pub(crate) field: Option<Field>,
    /// The field before the last word line.
    pub(crate) open: Option<Field>,
    /// The unknown keyword of the last line that has one.
    pub(crate) other: ArrayVec<u8, 40>,
    /// The groups of the open section, or of the one that is sought.
    pub(crate) groups: Groups,
    /// The line that puts the sought word into the place of another one.
    pub(crate) shift: Option<Shift>,
    /// How many words the line after the one that was looked for has, as far as they are counted.
    pub(crate) next_words: u32,
    /// Whether the line that was looked for has `->`, as a route of OR-Tools.
    pub(crate) has_arrow: bool,
    /// Whether that line has `(#`, as a route of LKH-3.
    pub(crate) has_count: bool,
    /// The value of DIMENSION, if such a line was seen.
    pub(crate) dimension: Option<i64>,
    /// The value of TYPE, if such a line was seen.
    pub(crate) kind: Option<Kind>,
    /// Whether a line says that each node has three coordinates.
    pub(crate) is_spatial: bool,
    /// How many words the sought section has.
    pub(crate) words: u64,
    /// Whether the sought keyword is there in other letters, as `type`.
    pub(crate) has_small_letters: bool,
    /// The first unknown keyword that is near the one that is missing.
    pub(crate) near: ArrayVec<u8, 40>,
    /// The line that has it.
    pub(crate) near_line: u32,
    /// Whether a byte 13 is anywhere but before a byte 10 or at the end.
    pub(crate) has_returns: bool,
    /// Whether there is a byte that a text hasn't: a control byte other than a tab, an escape or
    /// the end of a line or page.
    pub(crate) has_controls: bool,
    /// The last byte.
    last: u8,
    is_done: bool,
}

/// The most words that are counted of the line after the one that is looked for.
const MOST_NEXT_WORDS: u32 = 4;

/// Looks at a file, up to what is sought and the line after it, or to its line `EOF`.
///
/// # Errors
///
/// Those of the reader.
pub(crate) fn look_for<R: Read>(reader: &mut R, sought: Sought) -> io::Result<Look> {
    let mut look = Look::new(sought);
    let mut taken = 0usize;
    let mut piece = [0u8; MOST_SEEN_AT_ONCE];
    'pieces: while taken <= MOST_FILE_BYTES {
        if look.is_done {
            return Ok(look);
        }
        let count = reader.read(&mut piece)?;
        if count == 0 {
            look.end_line();
            return Ok(look);
        }
        look.take_all(&piece[..count]);
        taken += count;
    }
    Ok(look)
}

impl Look {
    fn new(sought: Sought) -> Look {
        Look {
            sought,
            line: Line {
                number: 1,
                words: 0,
                is_in_word: false,
                front: ArrayVec::new(),
            },
            head: ArrayVec::new(),
            excerpt: Excerpt::new(),
            field: None,
            open: None,
            other: ArrayVec::new(),
            groups: Groups::none(),
            shift: None,
            next_words: 0,
            has_arrow: false,
            has_count: false,
            dimension: None,
            kind: None,
            is_spatial: false,
            words: 0,
            has_small_letters: false,
            near: ArrayVec::new(),
            near_line: 0,
            has_returns: false,
            has_controls: false,
            last: b'\n',
            is_done: false,
        }
    }

    fn take_all(&mut self, piece: &[u8]) {
        'bytes: for byte in piece {
            self.take(*byte);
        }
    }

    /// Takes the next byte of the file.
    fn take(&mut self, byte: u8) {
        if self.is_done {
            return;
        }
        let _ = self.head.try_push(byte);
        self.has_returns = self.has_returns || (self.last == 13 && byte != b'\n' && byte != 13);
        self.has_controls = self.has_controls || is_control(byte);
        let before = self.last;
        self.last = byte;
        if byte == b'\n' {
            self.end_line();
            return;
        }
        if self.line.take(byte) && self.is_counted() {
            self.words = self.words.saturating_add(1);
        }
        if let Sought::Place { line, word } = self.sought
            && line == self.line.number
        {
            self.excerpt.take(byte, self.line.is_in(word));
            self.has_arrow = self.has_arrow || (before == b'-' && byte == b'>');
            self.has_count = self.has_count || (before == b'(' && byte == b'#');
        }
        if self.is_past() && (self.line.words >= MOST_NEXT_WORDS || self.line.front.is_full()) {
            self.end_line();
        }
    }

    /// Whether the line's words are of the section that was looked for.
    fn is_counted(&self) -> bool {
        match self.sought {
            Sought::Field(field) => self.field == Some(field) && !self.line.is_of_words(),
            Sought::Place { .. } | Sought::Nothing => false,
        }
    }

    /// Ends the line, and begins the next one. In the line after the sought one, only the number of
    /// words matters.
    fn end_line(&mut self) {
        if self.is_past() {
            self.next_words = self.line.words;
            self.is_done = true;
            return;
        }
        if self.line.is_of_words() {
            self.take_keyword();
        } else if self.line.words > 0 {
            self.take_numbers();
        }
        self.line.begin_next();
    }

    /// Takes the words of a line of the open section.
    fn take_numbers(&mut self) {
        let Line { number, words, .. } = self.line;
        match self.sought {
            Sought::Place { line, word } if line == number => {
                self.shift = self.groups.shift_of(number, words, word);
            }
            Sought::Field(field) if self.field != Some(field) => return,
            Sought::Place { .. } | Sought::Field(_) | Sought::Nothing => {}
        }
        self.groups.take(number, words);
    }

    /// Whether the line comes after the one that was looked for.
    fn is_past(&self) -> bool {
        match self.sought {
            Sought::Place { line, word: _ } => line < self.line.number,
            Sought::Field(_) | Sought::Nothing => false,
        }
    }

    /// Takes the line's keyword, and its value if that is the TYPE, the number of nodes, or the
    /// number of coordinates of a node.
    fn take_keyword(&mut self) {
        let (keyword, rest) = first_run(self.line.front.as_slice());
        self.open = self.field;
        match Keyword::of(keyword) {
            Keyword::Eof => self.is_done = true,
            Keyword::Known(field) => {
                self.field = Some(field);
                self.groups = groups_in(self.sought, field, self.is_spatial).unwrap_or(self.groups);
                let (value, _) = first_run(after_colon(rest));
                self.is_spatial = self.is_spatial || says_space(field, value);
                match field {
                    Field::TypeKey => self.kind = value_of(value),
                    Field::DimensionKey => {
                        self.dimension = parse_whole(value, 1, i64::from(MOST_NODES)).ok();
                    }
                    _ => {}
                }
            }
            Keyword::EdgeDataFormat | Keyword::EdgeDataSection => self.field = None,
            Keyword::Unknown => {
                self.field = None;
                self.other.clear();
                let _ = self.other.try_extend_from_slice(keyword);
                if self.near.is_empty() && may_be_meant(self.sought, keyword) {
                    self.near_line = self.line.number;
                    let _ = self.near.try_extend_from_slice(keyword);
                }
            }
        }
        self.has_small_letters = self.has_small_letters
            || is_in_small_letters(self.sought, keyword);
    }
}

impl Line {
    /// Takes its next byte, and returns whether a word begins with it.
    fn take(&mut self, byte: u8) -> bool {
        if is_blank(byte) {
            self.is_in_word = false;
            if !self.front.is_empty() {
                let _ = self.front.try_push(byte);
            }
            return false;
        }
        let _ = self.front.try_push(byte);
        if self.is_in_word {
            return false;
        }
        self.is_in_word = true;
        self.words = self.words.saturating_add(1);
        true
    }

    /// Whether the last byte is of this word; if it is 0, of the line from its first word on.
    fn is_in(&self, word: u32) -> bool {
        if word == 0 {
            self.words > 0
        } else {
            self.is_in_word && word == self.words
        }
    }

    /// Whether the line begins with a letter.
    fn is_of_words(&self) -> bool {
        match self.front.first() {
            Some(byte) => is_letter(*byte),
            None => false,
        }
    }

    fn begin_next(&mut self) {
        self.number = self.number.saturating_add(1);
        self.words = 0;
        self.is_in_word = false;
        self.front.clear();
    }
}

/// Whether a text hasn't the byte.
fn is_control(byte: u8) -> bool {
    match byte {
        9..=13 | 26 | 27 | 32..=126 | 128..=255 => false,
        _ => true,
    }
}

/// The groups of a section that begins; none if another section is sought, whose groups stay.
fn groups_in(sought: Sought, field: Field, is_spatial: bool) -> Option<Groups> {
    match sought {
        Sought::Field(wanted) if wanted != field => None,
        Sought::Place { .. } | Sought::Field(_) | Sought::Nothing => {
            Some(Groups::of(field, is_spatial))
        }
    }
}

/// The keyword that may be missing if something is sought. At a place it is DIMENSION, which a
/// section may come before.
fn sought_word(sought: Sought) -> &'static [u8] {
    match sought {
        Sought::Field(field) => field.word().as_bytes(),
        Sought::Place { line: _, word: _ } => b"DIMENSION",
        Sought::Nothing => &[],
    }
}

/// Whether an unknown keyword may have been meant as the one that may be missing.
fn may_be_meant(sought: Sought, keyword: &[u8]) -> bool {
    let word = sought_word(sought);
    is_near(keyword, word) || is_in_other_letters(keyword, word)
}

/// Whether a keyword is the sought one in other letters.
fn is_in_small_letters(sought: Sought, keyword: &[u8]) -> bool {
    match sought {
        Sought::Field(field) => {
            let word = field.word().as_bytes();
            keyword != word && is_in_other_letters(keyword, word)
        }
        Sought::Place { .. } | Sought::Nothing => false,
    }
}

/// Whether a keyword's value says that the nodes have three coordinates each.
fn says_space(field: Field, value: &[u8]) -> bool {
    match field {
        Field::EdgeWeightTypeKey => is_spatial(None, value_of(value)),
        Field::NodeCoordTypeKey => is_spatial(value_of(value), None),
        _ => false,
    }
}

/// The first bytes that may be part of a keyword, and the rest.
pub(crate) fn first_run(text: &[u8]) -> (&[u8], &[u8]) {
    'bytes: for (index, byte) in text.iter().enumerate() {
        if !is_keyword_byte(*byte) {
            return text.split_at(index);
        }
    }
    (text, &[])
}

/// What follows the blanks and colons at the front.
fn after_colon(text: &[u8]) -> &[u8] {
    'bytes: for (index, byte) in text.iter().enumerate() {
        if is_keyword_byte(*byte) {
            return &text[index..];
        }
    }
    &[]
}
