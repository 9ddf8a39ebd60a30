//! Reads number words such as `12`, `-0.5` and `1.5e+02`, for tsp_read. `ReadsDecimal` and
//! `ReadsWhole` in `specs/NumberWord.antt` pin which words are numbers and which fault comes first.
//! The functions `front_..` are shortcuts for plain words, and affect only speed.

ghost use Rattle.std.specs.Char.{is_ascii_digit};
ghost use Rattle.std.specs.Int.{to_le_bytes, w64};
ghost use Rattle.std.specs.Int.Digits.{AllBelowBase, number_from_digits};
ghost use Rattle.std.specs.List.{prefix_len};
ghost use Rattle.std.specs.Option.{option_map};
ghost use Rattle.std.specs.Prelude.{◌≡◌, ◌≤ℤ◌, SomeIff, ◌+◌, ◌*◌, ◌^◌, ◌<◌, ◌≤◌, ◌*ℤ◌, pos, length, take, unsigned_abs, IfSome};
ghost use Rattle.std.specs.Str.Parse.{AllDigits, digits_value};
ghost use Rattle.tsp_number.specs.Decimal.{unit, most_count};
ghost use Rattle.tsp_number.specs.NumberWord.{ReadsDecimal, ReadsWhole, with_sign as signed_of, IsSign, decimal_of, whole_of};
ghost use Rattle.tsp_number.specs.states.Digits.{BeginsWithNumber, sign_count, digit_count, whole_end, few_end, decimal_end};

use crate::decimal::{Decimal, UNIT};
use crate::scan::split_word;
use crate::shift::{power_of_ten, shifted};
use std::fmt;
use std::simd::prelude::*;
use thiserror::Error;

/// The most bytes that a number word has.
const MOST_BYTES: usize = 64;

/// The number with this sign and absolute value.
#[inline(always)]
fn signed(negative: bool, size: u64) -> i128
    ensures { result ≡ signed_of negative size }
{
    if negative {
        -i128::from(size)
    } else {
        i128::from(size)
    }
}

/// The number, if it is from `low` to `high`.
#[inline(always)]
fn within(value: i128, low: i64, high: i64) -> Option<i64>
    ensures { SomeIff result ((low ≤ℤ value) × (value ≤ℤ high)) value }
{
    if value < i128::from(low) || value > i128::from(high) {
        return None;
    }
    Some(value as i64)
}

/// Reads a number word as a decimal.
///
/// A number word, as decimal notation has it and TSPLIB 95 files write it, is an optional sign,
/// digits with at most one point and at least one digit, and optionally `e` or `E`, a sign and
/// digits. It means the number that it writes, exactly.
///
/// # Errors
///
/// The first of these that holds:
///
/// - `LongWord`: the word has more than 64 bytes.
/// - `BadNumber`: it isn't a number word.
/// - `TooFine`: its number isn't a whole count of 10^-9. Zeros past the ninth place do no harm.
/// - `OutOfRange`: its number is larger than 10^9 in size.
pub fn parse_decimal(word: &[u8]) -> Result<Decimal, NumberFault>
    ensures reads { ReadsDecimal word.now result }
    ensures computed { result ≡ decimal_of word.now }
{
    if let Some((decimal, end)) = front_decimal(word)
        && end == word.len()
    {
        return Ok(decimal);
    }
    any_decimal(word)
}

/// Like `parse_decimal`, but without the shortcut `front_decimal`.
#[cold]
#[inline(never)]
fn any_decimal(word: &[u8]) -> Result<Decimal, NumberFault>
    ensures reads { ReadsDecimal word.now result }
    ensures computed { result ≡ decimal_of word.now }
{
    if word.len() > MOST_BYTES {
        return Err(NumberFault::LongWord);
    }
    let Some(written) = split_word(word) else {
        return Err(NumberFault::BadNumber);
    };
    let Some(size) = shifted(&written, 9) else {
        return Err(NumberFault::TooFine);
    };
    match Decimal::of_count(signed(written.negative, size)) {
        Some(decimal) => Ok(decimal),
        None => Err(NumberFault::OutOfRange),
    }
}

/// Reads a number word as a whole number from `low` to `high`. `12.0` and `1.2e1` are 12.
///
/// # Errors
///
/// The first of these that holds:
///
/// - `LongWord`: the word has more than 64 bytes.
/// - `BadNumber`: it isn't a number word, as `parse_decimal` says.
/// - `TooFine`: its number isn't a whole count of 10^-9.
/// - `NotWhole`: its number isn't whole.
/// - `OutOfRange`: its number is less than `low` or more than `high`.
pub fn parse_whole(word: &[u8], low: i64, high: i64) -> Result<i64, NumberFault>
    ensures reads { ReadsWhole word.now low high result }
    ensures computed { result ≡ whole_of word.now low high }
{
    if let Some((whole, end)) = front_whole(word)
        && end == word.len()
    {
        if whole < low || whole > high {
            return Err(NumberFault::OutOfRange);
        }
        return Ok(whole);
    }
    any_whole(word, low, high)
}

/// Like `parse_whole`, but without the shortcut `front_whole`.
#[cold]
#[inline(never)]
fn any_whole(word: &[u8], low: i64, high: i64) -> Result<i64, NumberFault>
    ensures reads { ReadsWhole word.now low high result }
    ensures computed { result ≡ whole_of word.now low high }
{
    if word.len() > MOST_BYTES {
        return Err(NumberFault::LongWord);
    }
    let Some(written) = split_word(word) else {
        return Err(NumberFault::BadNumber);
    };
    let Some(size) = shifted(&written, 0) else {
        return match shifted(&written, 9) {
            Some(_) => Err(NumberFault::NotWhole),
            None => Err(NumberFault::TooFine),
        };
    };
    match within(signed(written.negative, size), low, high) {
        Some(whole) => Ok(whole),
        None => Err(NumberFault::OutOfRange),
    }
}

// ---- the faults of a number word

/// Why a word isn't read as a number: the first that applies, in this order.
#[derive(Clone, Copy, Debug, PartialEq, Eq, Error)]
pub enum NumberFault {
    /// The word has more than 64 bytes.
    LongWord,
    /// The word isn't a number word.
    BadNumber,
    /// The number isn't a whole count of 10^-9.
    TooFine,
    /// The number is outside the range that is wanted.
    OutOfRange,
    /// A whole number is wanted, and this one isn't whole.
    NotWhole,
}

impl fmt::Display for NumberFault {
    ghost use Rattle.std.specs.Prelude.{Some};
    ghost use Rattle.tsp_number.specs.NumberWord.{number_fault_text};

    ghost output = { λ fault. Some (number_fault_text fault) };

    fn fmt<W: fmt::Write>(&self, f: &mut fmt::Formatter<W>) -> fmt::Result {
        match *self {
            NumberFault::LongWord => f.write_str("LongWord"),
            NumberFault::BadNumber => f.write_str("BadNumber"),
            NumberFault::TooFine => f.write_str("TooFine"),
            NumberFault::OutOfRange => f.write_str("OutOfRange"),
            NumberFault::NotWhole => f.write_str("NotWhole"),
        }
    }
}

// ---- the number at the beginning of some bytes, if it is a plain sign, digits and a point

/// The most digits that the shortcut reads before the point of a decimal, or after it.
const MOST_PLACES: usize = 9;

/// The most digits of a whole number that the shortcut reads: any such number fits 64 bits.
const MOST_DIGITS: usize = 18;

/// Whether the bytes begin with `-`, and how long the sign is, if there is one.
#[inline(always)]
fn front_sign(bytes: &[u8]) -> (bool, usize)
    ensures within { result.1 ≤ length bytes.now }
    ensures short { result.1 ≤ 1 }
    ensures sign { IsSign (take result.1 bytes.now) result.0 }
    ensures count { result.1 ≡ sign_count bytes.now }
{
    match bytes.first() {
        Some(b'-') => (true, 1),
        Some(b'+') => (false, 1),
        _ => (false, 0),
    }
}

/// Like `front_digits`, but digit by digit.
#[inline(always)]
fn single_digits(bytes: &[u8], most: usize) -> (u64, usize)
    requires { most ≤ 18 }
    ensures within { result.1 ≤ length bytes.now }
    ensures few { result.1 ≤ most }
    ensures count { result.1 ≡ digit_count most bytes.now }
    ensures digits { AllDigits 10 (take result.1 bytes.now) }
    ensures value { result.0 ≡ digits_value 10 (take result.1 bytes.now) }
    ensures size { result.0 < 10 ^ result.1 }
{
    let end = bytes.len().min(most);
    let mut value = 0;
    let mut count = 0;
    while count < end {
        let byte = bytes[count];
        if !byte.is_ascii_digit() {
            break;
        }
        value = 10 * value + u64::from(byte - b'0');
        count += 1;
    }
    (value, count)
}

/// The digits that the bytes begin with, at most this many, as a number, and how many they are.
#[inline(always)]
fn front_digits(bytes: &[u8], most: usize) -> (u64, usize)
    requires { most ≤ 18 }
    ensures within { result.1 ≤ length bytes.now }
    ensures few { result.1 ≤ most }
    ensures count { result.1 ≡ digit_count most bytes.now }
    ensures digits { AllDigits 10 (take result.1 bytes.now) }
    ensures value { result.0 ≡ digits_value 10 (take result.1 bytes.now) }
    ensures size { result.0 < 10 ^ result.1 }
{
    if most < EIGHT {
        return single_digits(bytes, most);
    }
    let Some(eight) = bytes.first_chunk::<EIGHT>() else {
        return single_digits(bytes, most);
    };
    let (value, count) = front_of_eight(eight);
    if count < EIGHT {
        return (value, count);
    }
    let (more, places) = single_digits(&bytes[EIGHT..], most - EIGHT);
    (value * power_of_ten(places as u64) + more, EIGHT + places)
}

/// The number with this sign and absolute value.
#[inline(always)]
fn signed_front(negative: bool, size: u64) -> i64
    requires { size ≤ most_count }
    ensures { result ≡ signed_of negative size }
{
    if negative {
        -(size as i64)
    } else {
        size as i64
    }
}

/// The whole number that the bytes begin with, and how many bytes write it: an optional sign and
/// up to 18 digits. `None` if they begin otherwise.
///
/// What follows isn't looked at. So if a number word ends where the result says, it has been read
/// in full; if it goes on, read it with [`parse_whole`](crate::parse_whole).
#[inline(always)]
pub fn front_whole(bytes: &[u8]) -> Option<(i64, usize)>
    ensures number { IfSome result
        (λ found. BeginsWithNumber bytes.now found.1 (found.0 *ℤ pos unit)) }
    ensures end { option_map (λ found. found.1) result ≡ whole_end bytes.now }
{
    let (negative, sign) = front_sign(bytes);
    let (size, count) = front_digits(&bytes[sign..], MOST_DIGITS);
    if count == 0 {
        return None;
    }
    Some((signed_front(negative, size), sign + count))
}

/// The whole number of one to seven digits that the bytes begin with, without a sign, and how many
/// digits it has. `None` if they begin otherwise, or if there are fewer than eight bytes.
///
/// This is the shortcut for most words of a matrix. All digits and the byte after them are among
/// the first eight bytes, so it looks only at these. Like [`front_whole`], it doesn't judge what
/// follows the digits.
#[inline(always)]
pub fn front_few(bytes: &[u8]) -> Option<(i64, usize)>
    ensures number { IfSome result
        (λ found. BeginsWithNumber bytes.now found.1 (found.0 *ℤ pos unit)) }
    ensures within { IfSome result (λ found. found.1 < length bytes.now) }
    ensures end { option_map (λ found. found.1) result ≡ few_end bytes.now }
{
    let Some(eight) = bytes.first_chunk::<EIGHT>() else {
        return None;
    };
    let (size, count) = front_of_eight(eight);
    if count == 0 || count == EIGHT {
        return None;
    }
    Some((signed_front(false, size), count))
}

/// The decimal that the bytes begin with, and how many bytes write it: an optional sign, up to
/// nine digits and, if a point follows, up to nine more. `None` if they begin otherwise.
///
/// What follows isn't looked at. So if a number word ends where the result says, it has been read
/// in full; if it goes on, read it with [`parse_decimal`](crate::parse_decimal).
#[inline(always)]
pub fn front_decimal(bytes: &[u8]) -> Option<(Decimal, usize)>
    ensures number { IfSome result (λ found. BeginsWithNumber bytes.now found.1 found.0) }
    ensures size { IfSome result (λ found. unsigned_abs found.0 ≤ most_count) }
    ensures end { option_map (λ found. found.1) result ≡ decimal_end bytes.now }
{
    let (negative, sign) = front_sign(bytes);
    let (whole, count) = front_digits(&bytes[sign..], MOST_PLACES);
    let point = sign + count;
    if point < bytes.len() && bytes[point] == b'.' {
        let (part, places) = front_digits(&bytes[point + 1..], MOST_PLACES);
        if count == 0 && places == 0 {
            return None;
        }
        let size = whole * UNIT + part * power_of_ten(9 - places as u64);
        let decimal = Decimal::of_nanos(signed_front(negative, size));
        return Some((decimal, point + 1 + places));
    }
    if count == 0 {
        return None;
    }
    let decimal = Decimal::of_nanos(signed_front(negative, whole * UNIT));
    Some((decimal, point))
}

// ---- the digits at the beginning of eight bytes, read together in one word

/// How many bytes are looked at together.
const EIGHT: usize = 8;

/// Eight bytes `0`, as a number.
const EIGHT_ZEROS: u64 = 0x3030_3030_3030_3030;

// Multiplying by one of these, and dropping the lowest part, leaves in each part ten, a hundred or
// ten thousand times that part plus the next one, for parts of one, two or four bytes. Every second
// part is wanted; the others are masked out.
const TENS: u64 = 0x0a01;

const HUNDREDS: u64 = 0x64_0001;

const TEN_THOUSANDS: u64 = 0x2710_0000_0001;

const EVEN_BYTES: u64 = 0x00ff_00ff_00ff_00ff;

const EVEN_PAIRS: u64 = 0x0000_ffff_0000_ffff;

/// How many digits these bytes begin with.
#[inline(always)]
fn count_in(eight: u8x8) -> usize
    ensures { result ≡ prefix_len is_ascii_digit eight }
{
    let digits = eight - u8x8::splat(b'0');
    let others = digits.simd_ge(u8x8::splat(10)).to_bitmask();
    if others == 0 {
        EIGHT
    } else {
        others.trailing_zeros() as usize
    }
}

/// The number with eight digits, given as the bytes of `digits`, the first one lowest.
#[inline(always)]
fn value_of(digits: u64) -> u64
    requires { AllBelowBase 10 (to_le_bytes w64 digits) }
    ensures { result ≡ number_from_digits 10 (to_le_bytes w64 digits) }
{
    let pairs = digits.wrapping_mul(TENS) / 0x100 & EVEN_BYTES;
    let fours = pairs.wrapping_mul(HUNDREDS) / 0x1_0000 & EVEN_PAIRS;
    fours.wrapping_mul(TEN_THOUSANDS) / 0x1_0000_0000
}

/// The number that the first `count` of these bytes write, which are digits.
#[inline(always)]
fn value_in(eight: &[u8; EIGHT], count: usize) -> u64
    requires some { 0 < count }
    requires within { count ≤ 8 }
    requires digits { AllDigits 10 (take count eight.now) }
    ensures { result ≡ digits_value 10 (take count eight.now) }
{
    let text = u64::from_le_bytes(*eight);
    // The bytes after the digits are shifted out, and zeros come in before them.
    let digits = text.wrapping_sub(EIGHT_ZEROS) << (64 - 8 * count);
    value_of(digits)
}

/// The digits that these bytes begin with, as a number, and how many they are.
#[inline(always)]
fn front_of_eight(eight: &[u8; EIGHT]) -> (u64, usize)
    ensures count { result.1 ≡ prefix_len is_ascii_digit eight.now }
    ensures within { result.1 ≤ 8 }
    ensures digits { AllDigits 10 (take result.1 eight.now) }
    ensures value { result.0 ≡ digits_value 10 (take result.1 eight.now) }
{
    let count = count_in(u8x8::from_array(*eight));
    if count == 0 {
        return (0, 0);
    }
    (value_in(eight, count), count)
}
