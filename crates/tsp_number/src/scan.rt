//! The first half of reading any number word: cuts it into sign, digits, point and exponent.
//! `number_word.rt` comes here with words that its shortcuts can't read. `numeral_in` in
//! `specs/NumberWord.antt` pins the parts.

ghost use Rattle.std.specs.Prelude.{◌≡◌, ◌+◌, ◌<◌, ◌≤◌, length, MatchOption, ℕ, None, Some};
ghost use Rattle.std.specs.Option.{option_map};
ghost use Rattle.std.specs.Str.Parse.{digits_value_after};
ghost use Rattle.tsp_number.specs.NumberWord.{has_minus, after_sign, after_point, front_digits, after_digits, exponent_in, numeral_in};
ghost use Rattle.tsp_number.specs.states.Digits.{saturated, clamped, HoldsWord};

/// Larger exponents are read as this one, because with any such exponent, a word of at most 64
/// bytes means 0, or a number that is too fine or too large.
const MOST_EXPONENT: u64 = 10_000;

/// The sign, digits and exponent of a number word.
#[derive(Clone, Copy)]
pub(crate) struct Written<'a> {
    pub(crate) negative: bool,
    /// The digits before and after the point.
    pub(crate) whole: &'a [u8],
    pub(crate) fraction: &'a [u8],
    /// All these digits as one number, at most `u64::MAX`.
    pub(crate) size: u64,
    /// The exponent, at most 10,000 in size.
    pub(crate) exponent: i64,
}

/// The digits that some bytes begin with.
#[derive(Clone, Copy)]
pub(crate) struct Digits<'a> {
    pub(crate) digits: &'a [u8],
    /// What follows the digits.
    pub(crate) rest: &'a [u8],
    /// The digits as a number, at most `u64::MAX`.
    pub(crate) value: u64,
}

/// Whether the bytes begin with `-`, and what follows the sign, if there is one.
#[inline(always)]
fn split_sign(bytes: &[u8]) -> (bool, &[u8])
    ensures negative { result.0 ≡ has_minus bytes.now }
    ensures rest { result.1.now ≡ after_sign bytes.now }
{
    match bytes.split_first() {
        Some((b'-', rest)) => (true, rest),
        Some((b'+', rest)) => (false, rest),
        _ => (false, bytes),
    }
}

/// The bytes after a point, if they begin with one; otherwise all of them.
#[inline(always)]
fn skip_point(bytes: &[u8]) -> &[u8]
    ensures { result.now ≡ after_point bytes.now }
{
    match bytes.split_first() {
        Some((b'.', rest)) => rest,
        _ => bytes,
    }
}

/// Splits off the digits at the front. Their value continues that of the digits before them.
#[inline(always)]
pub(crate) fn split_digits(bytes: &[u8], before: u64) -> Digits<'_>
    ensures digits { result.digits.now ≡ front_digits bytes.now }
    ensures rest { result.rest.now ≡ after_digits bytes.now }
    ensures value { (n : ℕ) → before ≡ saturated n
        → result.value ≡ saturated (digits_value_after 10 n (front_digits bytes.now)) }
{
    let mut value = before;
    let mut end = 0;
    while end < bytes.len() {
        let byte = bytes[end];
        if !byte.is_ascii_digit() {
            break;
        }
        value = value
            .saturating_mul(10)
            .saturating_add(u64::from(byte - b'0'));
        end += 1;
    }
    Digits {
        digits: &bytes[..end],
        rest: &bytes[end..],
        value,
    }
}

/// The exponent that the bytes after a mantissa write, or `None` if they write none.
#[inline(always)]
fn exponent_of(bytes: &[u8]) -> Option<i64>
    ensures { result ≡ option_map clamped (exponent_in bytes.now) }
{
    let Some((mark, signed)) = bytes.split_first() else {
        return Some(0);
    };
    if *mark != b'e' && *mark != b'E' {
        return None;
    }
    let (negative, unsigned) = split_sign(signed);
    let size = split_digits(unsigned, 0);
    if size.digits.is_empty() || !size.rest.is_empty() {
        return None;
    }
    let most = size.value.min(MOST_EXPONENT) as i64;
    Some(if negative { -most } else { most })
}

/// The parts of a number word, or `None` if the word isn't one.
#[inline(always)]
pub(crate) fn split_word(word: &[u8]) -> Option<Written<'_>>
    requires { length word.now ≤ 64 }
    ensures { MatchOption result (numeral_in word.now ≡ None) (HoldsWord word.now) }
{
    let (negative, unsigned) = split_sign(word);
    let whole = split_digits(unsigned, 0);
    let fraction = split_digits(skip_point(whole.rest), whole.value);
    if whole.digits.is_empty() && fraction.digits.is_empty() {
        return None;
    }
    let exponent = exponent_of(fraction.rest)?;
    Some(Written {
        negative,
        whole: whole.digits,
        fraction: fraction.digits,
        size: fraction.value,
        exponent,
    })
}
