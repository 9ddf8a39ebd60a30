//! Writes a decimal as canonical texts spell it, backwards from its last byte, for the writer of
//! tsp_file. `spelling` in `specs/NumberWord.antt` pins each byte; taking three digits at a time
//! affects only speed.

ghost use Rattle.std.specs.Prelude.{◌≡◌, ◌+◌, ◌<◌, ◌≤◌, ◌++◌, length, drop, ◌-◌, ◌/◌, ◌%◌, ◌∷◌};
ghost use Rattle.tsp_number.specs.Decimal.{unit};
ghost use Rattle.arrayvec.specs.ArrayVec.{array_vec_len};
ghost use Rattle.tsp_number.specs.NumberWord.{StandsFor, decimals, fraction_spelling, spelling, three_digits};

use crate::decimal::{Decimal, UNIT};
use arrayvec::ArrayVec;
use itoa::write_digits;

/// The most bytes of a decimal's text.
pub const MOST_SPELLING: usize = 21;

/// Writes three decimals, without trailing zeros, so that they end at a place, and returns where
/// they begin.
#[inline(always)]
fn write_last(group: u32, block: &mut [u8], end: usize) -> usize
    requires some { 0 < group }
    requires few { group < 1000 }
    requires room { 3 ≤ end }
    requires within { end ≤ length block.old }
    ensures start { result + length (decimals 3 group) ≡ end }
    ensures short { end ≤ result + 3 }
    ensures written { drop result block.new ≡ decimals 3 group ++ drop end block.old }
{
    if group % 10 > 0 {
        write_group(group, block, end);
        return end - 3;
    }
    if group % 100 > 0 {
        write_pair(group / 10, block, end - 2);
        return end - 2;
    }
    block[end - 1] = b'0' + (group / 100) as u8;
    end - 1
}

/// Writes the nine decimals of a fraction, without trailing zeros, so that they end at a place, and
/// returns where they begin.
#[inline(always)]
fn write_decimals(rest: u32, block: &mut [u8], end: usize) -> usize
    requires some { 0 < rest }
    requires part { rest < unit }
    requires room { 9 ≤ end }
    requires within { end ≤ length block.old }
    ensures start { result + length (decimals 9 rest) ≡ end }
    ensures short { end ≤ result + 9 }
    ensures written { drop result block.new ≡ decimals 9 rest ++ drop end block.old }
{
    if rest % 1_000_000 == 0 {
        return write_last(rest / 1_000_000, block, end);
    }
    if rest % 10 > 0 {
        write_nine(rest, block, end);
        return end - 9;
    }
    if rest % 1000 == 0 {
        let start = write_last(rest / 1000 % 1000, block, end);
        write_group(rest / 1_000_000, block, start);
        return start - 3;
    }
    let start = write_last(rest % 1000, block, end);
    write_group(rest / 1000 % 1000, block, start);
    write_group(rest / 1_000_000, block, start - 3);
    start - 6
}

/// Writes a point and the decimals, or nothing for a whole number, so that they end at a place,
/// and returns where they begin.
#[inline(always)]
fn write_fraction(rest: u32, block: &mut [u8], end: usize) -> usize
    requires part { rest < unit }
    requires room { 10 ≤ end }
    requires within { end ≤ length block.old }
    ensures start { result + length (fraction_spelling rest) ≡ end }
    ensures short { end ≤ result + 10 }
    ensures written { drop result block.new ≡ fraction_spelling rest ++ drop end block.old }
{
    if rest == 0 {
        return end;
    }
    let start = write_decimals(rest, block, end) - 1;
    block[start] = b'.';
    start
}

/// Writes the text of a decimal, as [`write_decimal`] returns it, so that it ends at a place in a
/// block, and returns where it begins. It has at most 21 bytes.
///
/// # Requires
///
/// A place in the block with at least 21 bytes before it.
#[inline(always)]
pub fn write_spelling(d: Decimal, block: &mut [u8], end: usize) -> usize
    requires room { 21 ≤ end }
    requires within { end ≤ length block.old }
    ensures start { result + length (spelling d) ≡ end }
    ensures short { length (spelling d) ≤ 21 }
    ensures written { drop result block.new ≡ spelling d ++ drop end block.old }
    ensures stands { StandsFor (spelling d) d }
{
    let count = d.nanos();
    let size = count.unsigned_abs();
    let point = write_fraction((size % UNIT) as u32, block, end);
    let start = write_digits(size / UNIT, block, point);
    if count >= 0 {
        return start;
    }
    block[start - 1] = b'-';
    start - 1
}

/// Writes a decimal as text.
///
/// The text is `-` for a negative number; the whole part without leading zeros, at least `0`; and,
/// if the number isn't whole, a point and its decimals without trailing zeros. It has at most 21
/// bytes.
pub fn write_decimal(d: Decimal) -> ArrayVec<u8, 64>
    ensures items { result.items ≡ spelling d }
    ensures stands { StandsFor result.items d }
    ensures short { array_vec_len result ≤ 21 }
{
    let mut text = ArrayVec::new();
    let mut block = [0; MOST_SPELLING];
    let start = write_spelling(d, &mut block, MOST_SPELLING);
    text.try_extend_from_slice(&block[start..]).unwrap();
    text
}

// ---- two, three or nine digits of a number, written into a block of bytes

/// The two digits of each number below 100.
static PAIRS: [u8; 200] = *b"\
    0001020304050607080910111213141516171819202122232425262728293031323334353637383940414243444546474849\
    5051525354555657585960616263646566676869707172737475767778798081828384858687888990919293949596979899";

/// Writes the two digits of a number below 100 at a place of a block.
///
/// # Requires
///
/// A block with room for both at the place.
#[inline(always)]
pub fn write_pair(pair: u32, block: &mut [u8], at: usize)
    requires few { pair < 100 }
    requires room { at + 2 ≤ length block.old }
    ensures { drop at block.new ≡ (48 + pair / 10) ∷ (48 + pair % 10) ∷ drop (at + 2) block.old }
{
    let from = pair as usize * 2;
    let (tens, ones) = (PAIRS[from], PAIRS[from + 1]);
    block[at] = tens;
    block[at + 1] = ones;
}

/// Writes the three digits of a number below 1000 so that they end at a place.
#[inline(always)]
fn write_group(group: u32, block: &mut [u8], end: usize)
    requires few { group < 1000 }
    requires room { 3 ≤ end }
    requires within { end ≤ length block.old }
    ensures { drop (end - 3) block.new ≡ three_digits group ++ drop end block.old }
{
    write_pair(group % 100, block, end - 2);
    block[end - 3] = b'0' + (group / 100) as u8;
}

/// Writes the nine digits of a number below 10^9 so that they end at a place.
#[inline(always)]
fn write_nine(number: u32, block: &mut [u8], end: usize)
    requires few { number < 1000000000 }
    requires room { 9 ≤ end }
    requires within { end ≤ length block.old }
    ensures { drop (end - 9) block.new
        ≡ three_digits (number / 1000000) ++ three_digits (number / 1000 % 1000)
        ++ three_digits (number % 1000) ++ drop end block.old }
{
    let (eight, last) = (number / 10, number % 10);
    let (high, low) = (eight / 10_000, eight % 10_000);
    block[end - 1] = b'0' + last as u8;
    write_pair(low % 100, block, end - 3);
    write_pair(low / 100, block, end - 5);
    write_pair(high % 100, block, end - 7);
    write_pair(high / 100, block, end - 9);
}
