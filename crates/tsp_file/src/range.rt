//! Whether a number, or each number of a list, is in a range, for `table.rt` and `validity.rt`.
//! Long lists are tested without branches, for speed. `is_from_to` in `specs/Validity.antt` pins
//! the answers.

ghost use Rattle.std.specs.Prelude.{◌≡◌, ◌<◌, ◌^◌, pos, ◌≤ℤ◌};
ghost use Rattle.std.specs.List.{All, list_all};
ghost use Rattle.tsp_file.specs.Validity.{is_from_to};

/// Whether a number is from low to high.
pub(crate) fn is_from_to(number: i64, low: i64, high: i64) -> bool
    ensures { result ≡ is_from_to low high number }
{
    low <= number && number <= high
}

/// Whether every number is from low to high.
///
/// A number that isn't negative is at most the bitwise or of all numbers. So for most files one
/// pass without branches shows that all numbers are in the range.
pub(crate) fn are_from_to(numbers: &[i64], low: i64, high: i64) -> bool
    ensures { result ≡ list_all (is_from_to low high) numbers.now }
{
    if low <= 0 && high >= 0 && all_bits(numbers) <= high.cast_unsigned() {
        return true;
    }
    numbers
        .iter()
        .all(|number| low <= *number && *number <= high)
}

/// The bitwise or of all numbers. If its highest bit isn't set, no number is negative, and none is
/// larger than the result.
fn all_bits(numbers: &[i64]) -> u64
    ensures { result < 2 ^ 63
        → All (λ number. (pos 0 ≤ℤ number) × (number ≤ℤ pos result)) numbers.now }
{
    let mut bits = 0;
    'numbers: for number in numbers {
        bits |= number.cast_unsigned();
    }
    bits
}
