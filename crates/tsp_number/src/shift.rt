//! The second half of reading any number word: shifts its digits by its exponent, in integers, so
//! nothing is rounded. A value past 64 bits becomes `u64::MAX`, which `number_word.rt`, the caller,
//! refuses as out of range.

ghost use Rattle.std.specs.Prelude.{◌≡◌, ◌+◌, ◌*◌, ◌^◌, ◌<◌, ◌≤◌, ◌++◌, length, ◌==◌, pos, ◌+ℤ◌, ◌-ℤ◌};
ghost use Rattle.std.specs.List.{list_all};
ghost use Rattle.std.specs.Str.Parse.{AllDigits, digits_value};
ghost use Rattle.tsp_number.specs.NumberWord.{Numeral, digits_of, shift_of as places_of};
ghost use Rattle.tsp_number.specs.states.Digits.{saturated, clamped, KeepsNumeral, ShiftsTo, DropsZeros};

use crate::scan::{Written, split_digits};

/// A power of ten, which fits 64 bits.
#[inline(always)]
pub(crate) fn power_of_ten(exponent: u64) -> u64
    requires { exponent < 20 }
    ensures { result ≡ 10 ^ exponent }
{
    match exponent {
        0 => 1,
        1 => 10,
        2 => 100,
        3 => 1_000,
        4 => 10_000,
        5 => 100_000,
        6 => 1_000_000,
        7 => 10_000_000,
        8 => 100_000_000,
        9 => 1_000_000_000,
        10 => 10_000_000_000,
        11 => 100_000_000_000,
        12 => 1_000_000_000_000,
        13 => 10_000_000_000_000,
        14 => 100_000_000_000_000,
        15 => 1_000_000_000_000_000,
        16 => 10_000_000_000_000_000,
        17 => 100_000_000_000_000_000,
        18 => 1_000_000_000_000_000_000,
        _ => 10_000_000_000_000_000_000,
    }
}

/// The number with this many zeros appended, at most `u64::MAX`.
#[inline(always)]
fn add_zeros(size: u64, count: u64) -> u64
    ensures { result ≡ saturated (size * 10 ^ count) }
{
    if size == 0 {
        return 0;
    }
    if count >= 20 {
        return u64::MAX;
    }
    size.saturating_mul(power_of_ten(count))
}

/// The number with this many zeros removed from its end; `None` if it has fewer.
#[inline(always)]
fn drop_zeros(size: u64, count: u64) -> Option<u64>
    ensures { DropsZeros size count result }
{
    if size == 0 {
        return Some(0);
    }
    if count >= 20 {
        return None;
    }
    let power = power_of_ten(count);
    if size % power != 0 {
        return None;
    }
    Some(size / power)
}

/// Whether all bytes are the digit 0.
fn are_zeros(bytes: &[u8]) -> bool
    ensures { result ≡ list_all (λ c. c == 48) bytes.now }
{
    bytes.iter().all(|byte| *byte == b'0')
}

/// What `drop_zeros` does, on the digits of a number that doesn't fit 64 bits.
#[cold]
#[inline(never)]
fn drop_long_zeros(whole: &[u8], fraction: &[u8], count: u64) -> Option<u64>
    requires all_digits { AllDigits 10 (whole.now ++ fraction.now) }
    requires few_digits { length (whole.now ++ fraction.now) ≤ 64 }
    requires above_zero { 0 < digits_value 10 (whole.now ++ fraction.now) }
    ensures { DropsZeros (digits_value 10 (whole.now ++ fraction.now)) count result }
{
    let digits = whole.len() + fraction.len();
    if count >= digits as u64 {
        return None;
    }
    let kept = digits - count as usize;
    if kept <= whole.len() {
        let (front, back) = whole.split_at(kept);
        if are_zeros(back) && are_zeros(fraction) {
            return Some(split_digits(front, 0).value);
        }
        return None;
    }
    let (front, back) = fraction.split_at(kept - whole.len());
    if are_zeros(back) {
        let before = split_digits(whole, 0).value;
        return Some(split_digits(front, before).value);
    }
    None
}

/// By how many places the mantissa has to be shifted to the left to count 10^-scale. Its exponent
/// is the one kept, at most 10,000 in size.
#[inline(always)]
fn places(written: &Written<'_>, scale: u32) -> i64
    requires scale { scale ≤ 9 }
    requires parts { (n : Numeral) × KeepsNumeral written.now n }
    ensures { (n : Numeral) → KeepsNumeral written.now n
        → result ≡ pos scale +ℤ clamped n.exponent -ℤ pos (length n.fraction) }
{
    i64::from(scale) + written.exponent - written.fraction.len() as i64
}

/// The absolute value of a number word, in counts of 10^-scale, at most `u64::MAX`. `None` if it
/// isn't a whole count.
#[inline(always)]
pub(crate) fn shifted(written: &Written<'_>, scale: u32) -> Option<u64>
    requires scale { scale ≤ 9 }
    requires parts { (n : Numeral) × KeepsNumeral written.now n }
    ensures { (n : Numeral)
        → KeepsNumeral written.now n → ShiftsTo (digits_of n) (places_of scale n) result }
{
    let places = places(written, scale);
    let count = places.unsigned_abs();
    if places >= 0 {
        return Some(add_zeros(written.size, count));
    }
    if written.size < u64::MAX {
        return drop_zeros(written.size, count);
    }
    drop_long_zeros(written.whole, written.fraction, count)
}
