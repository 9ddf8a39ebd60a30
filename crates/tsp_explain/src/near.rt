//! Words that differ from one of TSPLIB 95 by a letter or two, or only by upper and lower case, for
//! `guess.rt` and `look.rt`.

use tsp_format::{Field, Word};

/// The fewest letters of a word that another one may differ from by two.
const LONG: usize = 6;

/// The keyword that differs by small and capital letters alone.
pub(crate) fn keyword_in_capitals(word: &[u8]) -> Option<&'static str> {
    if is_in_other_letters(word, b"EOF") {
        Some("EOF")
    } else {
        but_others(in_capitals::<Field>(word))
    }
}

/// The first keyword that is near.
pub(crate) fn nearest_keyword(word: &[u8]) -> Option<&'static str> {
    but_others(nearest::<Field>(word))
}

/// A known keyword. The name for all unknown ones isn't one.
fn but_others(known: Option<&'static str>) -> Option<&'static str> {
    match known {
        Some(known) if known == Field::OtherKey.word() => None,
        known => known,
    }
}

/// The value whose word differs by small and capital letters alone.
pub(crate) fn in_capitals<W: Word>(word: &[u8]) -> Option<&'static str> {
    'values: for value in W::all() {
        let known = value.word();
        if is_in_other_letters(word, known.as_bytes()) {
            return Some(known);
        }
    }
    None
}

/// The first value whose word is near.
pub(crate) fn nearest<W: Word>(word: &[u8]) -> Option<&'static str> {
    'values: for value in W::all() {
        let known = value.word();
        if is_near(word, known.as_bytes()) {
            return Some(known);
        }
    }
    None
}

/// Whether the two words are the same but for small and capital letters.
pub(crate) fn is_in_other_letters(left: &[u8], right: &[u8]) -> bool {
    left.eq_ignore_ascii_case(right)
}

/// Whether a word comes from a known one by leaving out, adding or changing a letter, or two
/// letters of a long word.
pub(crate) fn is_near(word: &[u8], known: &[u8]) -> bool {
    if known.len() < LONG {
        is_within_one(word, known)
    } else {
        is_within_two(word, known)
    }
}

/// Whether at most two letters are left out, added or changed.
fn is_within_two(left: &[u8], right: &[u8]) -> bool {
    let (left, right) = after_common(left, right);
    is_within_one(tail(left), right)
        || is_within_one(left, tail(right))
        || is_within_one(tail(left), tail(right))
}

/// Whether at most one letter is left out, added or changed.
fn is_within_one(left: &[u8], right: &[u8]) -> bool {
    let (left, right) = after_common(left, right);
    tail(left) == right || left == tail(right) || tail(left) == tail(right)
}

/// What follows the letters that both words begin with.
fn after_common<'a>(left: &'a [u8], right: &'a [u8]) -> (&'a [u8], &'a [u8]) {
    'bytes: for (index, byte) in left.iter().enumerate() {
        if right.get(index) != Some(byte) {
            return (tail_from(left, index), tail_from(right, index));
        }
    }
    (&[], tail_from(right, left.len()))
}

/// All but the first letter.
fn tail(word: &[u8]) -> &[u8] {
    tail_from(word, 1)
}

/// The rest after this many letters.
fn tail_from(word: &[u8], count: usize) -> &[u8] {
    word.get(count..).unwrap_or(&[])
}
