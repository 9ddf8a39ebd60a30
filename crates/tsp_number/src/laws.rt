//! Laws about the definitions in `specs/`, whatever the code does: a distance is one number,
//! symmetric and bounded, and grows with the way along each axis; a number word means one number; a
//! spelling is read back. Proofs in crates above rest on them.

ghost use Rattle.std.specs.Prelude.{◌≡◌, ◌≤◌, ℕ, ℤ, List, Result, Ok, unsigned_abs};
ghost use Rattle.tsp_number.specs.Decimal.{most_count};
ghost use Rattle.tsp_number.specs.Distances.{IsEuc2d, IsCeil2d, IsMan2d, IsMax2d, IsAtt, IsEuc3d, IsMan3d, IsMax3d, euc_2d_of, ceil_2d_of, man_2d_of, max_2d_of, att_of, euc_3d_of, man_3d_of, max_3d_of, IsDistance, IsDistanceInSpace, IsMonotone};
ghost use Rattle.tsp_number.specs.NumberWord.{StandsFor, ReadsDecimal, ReadsWhole, decimal_of, whole_of, spelling};
ghost use Rattle.tsp_number.specs.declared.number_word.NumberFault.{NumberFault};

/// Each distance is exactly one number for any two points. It is symmetric, 0 between equal points,
/// and at most 4 * 10^9 in the plane and 6 * 10^9 in space.
pub fn distance_laws()
    ensures euc_2d { IsDistance IsEuc2d euc_2d_of }
    ensures ceil_2d { IsDistance IsCeil2d ceil_2d_of }
    ensures man_2d { IsDistance IsMan2d man_2d_of }
    ensures max_2d { IsDistance IsMax2d max_2d_of }
    ensures att { IsDistance IsAtt att_of }
    ensures euc_3d { IsDistanceInSpace IsEuc3d euc_3d_of }
    ensures man_3d { IsDistanceInSpace IsMan3d man_3d_of }
    ensures max_3d { IsDistanceInSpace IsMax3d max_3d_of }
{}

/// A word means at most one number, and reading it has exactly one result, as a decimal and as a
/// whole number.
pub fn number_word_laws()
    ensures one_number { (word : List ℕ) (j k : ℤ) → StandsFor word j → StandsFor word k → j ≡ k }
    ensures one_decimal { (word : List ℕ) (r s : Result ℤ NumberFault)
        → ReadsDecimal word r → ReadsDecimal word s → r ≡ s }
    ensures some_decimal { (word : List ℕ) → ReadsDecimal word (decimal_of word) }
    ensures one_whole { (word : List ℕ) (low high : ℤ) (r s : Result ℤ NumberFault)
        → ReadsWhole word low high r → ReadsWhole word low high s → r ≡ s }
    ensures some_whole { (word : List ℕ) (low high : ℤ)
        → ReadsWhole word low high (whole_of word low high) }
{}

/// The text of a decimal means that decimal, and reading it gives back that decimal.
pub fn spelling_laws()
    ensures stands { (k : ℤ) → unsigned_abs k ≤ most_count → StandsFor (spelling k) k }
    ensures round_trip { (k : ℤ) (r : Result ℤ NumberFault) → unsigned_abs k ≤ most_count
        → ReadsDecimal (spelling k) r → r ≡ Ok k }
{}

/// If two points are no farther apart than two others along each axis, no distance between them is
/// larger.
///
/// So the distance to the nearest point of a box is at most that to any other point of the box.
pub fn monotone_laws()
    ensures euc_2d { IsMonotone euc_2d_of }
    ensures ceil_2d { IsMonotone ceil_2d_of }
    ensures man_2d { IsMonotone man_2d_of }
    ensures max_2d { IsMonotone max_2d_of }
    ensures att { IsMonotone att_of }
    ensures euc_3d { IsMonotone euc_3d_of }
    ensures man_3d { IsMonotone man_3d_of }
    ensures max_3d { IsMonotone max_3d_of }
{}
