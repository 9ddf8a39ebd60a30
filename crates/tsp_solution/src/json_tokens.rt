//! Cuts JSON into tokens with their places, for `json.rt`. Its answers are tested, not proved.

use crate::word_place::Place;
use tsp_format::is_blank;

/// A token of JSON.
#[derive(Clone, Copy)]
pub(crate) enum JsonToken<'a> {
    /// `[`
    OpenList,
    /// `]`
    CloseList,
    /// `{`
    OpenObject,
    /// `}`
    CloseObject,
    /// `,`
    Comma,
    /// `:`
    Colon,
    /// A text, without its quotation marks.
    Text(&'a [u8]),
    /// A number, or one of `true`, `false` and `null`, as it is written.
    Plain(&'a [u8]),
    /// A byte that no token begins with, or a text without an end.
    Bad,
}

/// The tokens of a text that haven't been taken.
#[derive(Clone, Copy)]
pub(crate) struct JsonTokens<'a> {
    rest: &'a [u8],
    /// The place of the next word: of a text, a number or the like.
    pub(crate) place: Place,
}

impl<'a> JsonTokens<'a> {
    /// All tokens of a text.
    pub(crate) fn of(text: &'a [u8]) -> JsonTokens<'a> {
        JsonTokens {
            rest: text,
            place: Place::first(),
        }
    }

    /// Takes the next token, and returns it with its place; or `None` at the end.
    pub(crate) fn take(&mut self) -> Option<(JsonToken<'a>, Place)> {
        self.skip_blanks();
        let (byte, rest) = self.rest.split_first()?;
        let place = self.place;
        let (token, rest) = match *byte {
            b'[' => (JsonToken::OpenList, rest),
            b']' => (JsonToken::CloseList, rest),
            b'{' => (JsonToken::OpenObject, rest),
            b'}' => (JsonToken::CloseObject, rest),
            b',' => (JsonToken::Comma, rest),
            b':' => (JsonToken::Colon, rest),
            b'"' => text_in(rest),
            _ => plain_in(self.rest),
        };
        self.rest = rest;
        if let JsonToken::Text(_) | JsonToken::Plain(_) | JsonToken::Bad = token {
            self.place = place.next();
        }
        Some((token, place))
    }

    /// Skips blanks and ends of lines.
    fn skip_blanks(&mut self) {
        let text = self.rest;
        'bytes: for (index, byte) in text.iter().enumerate() {
            if *byte == b'\n' {
                self.place = Place::of_line(self.place.line.saturating_add(1));
            } else if !is_blank(*byte) {
                self.rest = &text[index..];
                return;
            }
        }
        self.rest = &[];
    }
}

/// The text that begins behind a quotation mark, and what follows its end.
fn text_in(bytes: &[u8]) -> (JsonToken<'_>, &[u8]) {
    let mut is_escaped = false;
    'bytes: for (index, byte) in bytes.iter().enumerate() {
        if *byte == b'"' && !is_escaped {
            return (JsonToken::Text(&bytes[..index]), &bytes[index + 1..]);
        }
        is_escaped = *byte == b'\\' && !is_escaped;
    }
    (JsonToken::Bad, &[])
}

/// The number or word that bytes begin with, and what follows it.
fn plain_in(bytes: &[u8]) -> (JsonToken<'_>, &[u8]) {
    'bytes: for (index, byte) in bytes.iter().enumerate() {
        if !is_plain(*byte) {
            return if index == 0 {
                (JsonToken::Bad, &[])
            } else {
                (JsonToken::Plain(&bytes[..index]), &bytes[index..])
            };
        }
    }
    (JsonToken::Plain(bytes), &[])
}

/// Whether a byte may be in a number, or in `true`, `false` or `null`.
fn is_plain(byte: u8) -> bool {
    byte.is_ascii_alphanumeric() || matches!(byte, b'+' | b'-' | b'.')
}
