//! Which potentials and multipliers of a leaf are good, and the sums of multipliers that limits and
//! bounds are made of. docs/format.md lists the limits. `AreGoodNumbers` in tsp_cases pins which
//! numbers are good.

ghost use Rattle.std.specs.Prelude.{◌≡◌, ◌+◌, ◌↔◌};
ghost use Rattle.tsp_branch.specs.Prelude.{IsTrue, drop, length, take, true};
ghost use Rattle.tsp_cases.specs.Families.{most_or_least, sum_with};
ghost use Rattle.tsp_cases.specs.ListedCases.{AreGoodNumbers, as_leaf_numbers};

use tsp_cases::{Crossings, Families, Multipliers, copy_within};
use tsp_format::MOST_POTENTIAL;

/// The limit on how often one edge crosses the sets of all families, each crossing counted by its
/// multiplier.
const MOST_CROSSED: i64 = 900_000_000_000_000_000;

/// Copies the numbers of a leaf if they are good, and returns whether they are.
///
/// `numbers` contains the potentials of the nodes, then the multipliers of the families. They are
/// good if no potential is above 10^15 in size, no multiplier is negative, and the multipliers,
/// each times the largest number of its family's sets that one edge crosses, sum to at most 9 *
/// 10^17.
pub(crate) fn judge_numbers(
    numbers: &[i128],
    families: &Families,
    potentials: &mut [i64],
    multipliers: &mut [i64],
) -> bool
    requires long { length numbers.now ≡ length potentials.old + length multipliers.old }
    requires as_many { length multipliers.old ≡ length families.now.crossed.items }
    ensures good { IsTrue result ↔ AreGoodNumbers (length potentials.old) families.now.crossed.items
        (as_leaf_numbers (take (length potentials.old) numbers.now) (drop (length potentials.old) numbers.now)) }
    ensures potentials { result ≡ true → potentials.new ≡ take (length potentials.old) numbers.now }
    ensures multipliers { result ≡ true → multipliers.new ≡ drop (length potentials.old) numbers.now }
    ensures potentials_len { length potentials.new ≡ length potentials.old }
    ensures multipliers_len { length multipliers.new ≡ length multipliers.old }
{
    let (of_nodes, of_families) = numbers.split_at(potentials.len());
    if !copy_within(of_nodes, -MOST_POTENTIAL, MOST_POTENTIAL, potentials) {
        return false;
    }
    if !copy_within(of_families, 0, MOST_CROSSED, multipliers) {
        return false;
    }
    let copied = Multipliers {
        families,
        numbers: multipliers,
    };
    sum_with(true, &copied) <= i128::from(MOST_CROSSED)
}

/// A sum over the families: the multiplier of each, times the most of its sets that one edge
/// crosses, or the least number of times that a cycle crosses them.
pub(crate) fn sum_with(is_most: bool, multipliers: &Multipliers) -> i128
    ensures { result ≡ sum_with is_most multipliers.now.families.now.crossed.items multipliers.now.numbers.now }
{
    let mut sum = 0;
    'families: for index in 0..multipliers.numbers.len() {
        let number = most_or_least(is_most, multipliers.families.crossed[index]);
        sum += i128::from(multipliers.numbers[index]) * i128::from(number);
    }
    sum
}

/// The most sets that one edge crosses, or the least number of times that a cycle crosses them.
fn most_or_least(is_most: bool, own: Crossings) -> u64
    ensures { result ≡ most_or_least is_most own }
{
    if is_most { own.most } else { own.least }
}
