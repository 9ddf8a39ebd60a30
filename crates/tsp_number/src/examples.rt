//! Laws that state values of the definitions in `specs/`, worked out by hand: distances, number
//! words and spellings. No code calls them. If someone makes the same mistake in a definition and
//! in the code, every contract still holds, but one of these laws fails.

ghost use Rattle.std.specs.Prelude.{pos, negsuc, ◌≡◌, Some, None, codes, ◌++◌, replicate};
ghost use Rattle.tsp_number.specs.Distances.{IsEuc2d, IsCeil2d, IsMan2d, IsMax2d, IsAtt, IsEuc3d, IsMan3d, IsMax3d};
ghost use Rattle.tsp_number.specs.Examples.{FromZero, FromZeroToSpace, FromLeastToLargest, IsDecimalCount, IsNoDecimal, WholeIs, WholeIsRefused, IsSpelled};
ghost use Rattle.tsp_number.specs.NumberWord.{number_fault_text};
ghost use Rattle.tsp_number.specs.declared.number_word.NumberFault.TheVariants.{LongWord, BadNumber, TooFine, OutOfRange, NotWhole};
ghost use Rattle.tsp_number.specs.states.Digits.{whole_end, decimal_end, few_end};

/// Distances between the point (0, 0) and others, with coordinates in thousandths: at the points
/// where the rounded distance steps up to the next whole number, and just before. The third
/// coordinate is ignored.
pub fn examples_of_distances()
    ensures euc_along_two_axes { FromZero IsEuc2d (pos 3000) (negsuc 3999) 5 }
    ensures euc_below_a_half { FromZero IsEuc2d (pos 499) (pos 0) 0 }
    ensures euc_at_a_half { FromZero IsEuc2d (pos 500) (pos 0) 1 }
    ensures euc_at_the_next_half { FromZero IsEuc2d (pos 1500) (pos 0) 2 }
    ensures euc_at_an_even_half { FromZero IsEuc2d (pos 0) (pos 2500) 3 }
    ensures euc_of_two { FromZero IsEuc2d (pos 1000) (pos 1000) 1 }
    ensures ceil_at_a_step { FromZero IsCeil2d (pos 1000) (pos 0) 1 }
    ensures ceil_past_a_step { FromZero IsCeil2d (pos 1001) (pos 0) 2 }
    ensures ceil_of_two { FromZero IsCeil2d (pos 1000) (pos 1000) 2 }
    ensures man_below_a_half { FromZero IsMan2d (pos 250) (pos 249) 0 }
    ensures man_at_a_half { FromZero IsMan2d (pos 250) (pos 250) 1 }
    ensures man_of_both { FromZero IsMan2d (negsuc 2999) (pos 4000) 7 }
    ensures max_below_a_half { FromZero IsMax2d (pos 1499) (pos 400) 1 }
    ensures max_at_a_half { FromZero IsMax2d (pos 1500) (pos 400) 2 }
    ensures max_along_the_other_axis { FromZero IsMax2d (pos 3000) (pos 4000) 4 }
    ensures att_at_a_step { FromZero IsAtt (pos 1000) (pos 3000) 1 }
    ensures att_past_a_step { FromZero IsAtt (pos 1000) (pos 3001) 2 }
    ensures att_of_thirteen { FromZero IsAtt (pos 2000) (pos 3000) 2 }
    ensures att_of_forty_one { FromZero IsAtt (pos 4000) (pos 5000) 3 }
    ensures euc_looks_at_the_plane { FromZeroToSpace IsEuc2d (pos 3000) (negsuc 3999) (pos 9000) 5 }
    ensures ceil_looks_at_the_plane { FromZeroToSpace IsCeil2d (pos 1000) (pos 0) (pos 9000) 1 }
    ensures man_looks_at_the_plane { FromZeroToSpace IsMan2d (negsuc 2999) (pos 4000) (pos 9000) 7 }
    ensures max_looks_at_the_plane { FromZeroToSpace IsMax2d (pos 3000) (pos 4000) (negsuc 8999) 4 }
    ensures att_looks_at_the_plane { FromZeroToSpace IsAtt (pos 1000) (pos 3000) (pos 9000) 1 }
{}

/// Distances in space between the point (0, 0, 0) and some others, with coordinates in thousandths,
/// and between the two corners of space.
pub fn examples_of_distances_in_space()
    ensures euc_along_three_axes { FromZeroToSpace IsEuc3d (pos 1000) (pos 2000) (pos 2000) 3 }
    ensures euc_turned { FromZeroToSpace IsEuc3d (pos 2000) (negsuc 1999) (negsuc 999) 3 }
    ensures euc_of_halves { FromZeroToSpace IsEuc3d (pos 500) (pos 500) (pos 500) 1 }
    ensures euc_below_a_half { FromZeroToSpace IsEuc3d (pos 0) (pos 0) (pos 499) 0 }
    ensures euc_at_a_half { FromZeroToSpace IsEuc3d (pos 0) (pos 0) (pos 500) 1 }
    ensures euc_below_the_next_half { FromZeroToSpace IsEuc3d (pos 500) (pos 1000) (pos 999) 1 }
    ensures euc_at_the_next_half { FromZeroToSpace IsEuc3d (pos 500) (pos 1000) (pos 1000) 2 }
    ensures euc_at_an_even_half { FromZeroToSpace IsEuc3d (pos 0) (pos 0) (pos 2500) 3 }
    ensures euc_at_most { FromLeastToLargest IsEuc3d 3464101615 }
    ensures man_along_three_axes { FromZeroToSpace IsMan3d (pos 1000) (pos 2000) (pos 2000) 5 }
    ensures man_of_halves { FromZeroToSpace IsMan3d (pos 500) (pos 500) (pos 500) 2 }
    ensures man_below_a_half { FromZeroToSpace IsMan3d (pos 200) (negsuc 199) (pos 99) 0 }
    ensures man_at_a_half { FromZeroToSpace IsMan3d (pos 200) (negsuc 199) (pos 100) 1 }
    ensures man_at_most { FromLeastToLargest IsMan3d 6000000000 }
    ensures max_along_three_axes { FromZeroToSpace IsMax3d (pos 1000) (pos 2000) (pos 2000) 2 }
    ensures max_of_halves { FromZeroToSpace IsMax3d (pos 500) (pos 500) (pos 500) 1 }
    ensures max_below_a_half { FromZeroToSpace IsMax3d (pos 400) (pos 300) (negsuc 1498) 1 }
    ensures max_at_a_half { FromZeroToSpace IsMax3d (pos 400) (pos 300) (negsuc 1499) 2 }
    ensures max_along_the_second_axis { FromZeroToSpace IsMax3d (pos 1000) (pos 4000) (pos 3000) 4 }
    ensures max_along_the_first_axis { FromZeroToSpace IsMax3d (negsuc 4999) (pos 4000) (pos 3000) 5 }
    ensures max_at_most { FromLeastToLargest IsMax3d 2000000000 }
{}

/// What some words are read as when a decimal is wanted, in counts of 10^-9.
#[tactic(auto, unfolding(crate::specs::NumberWord::decimal_of))]
pub fn examples_of_decimals()
    ensures one { IsDecimalCount (codes "1") (pos 1000000000) }
    ensures plus { IsDecimalCount (codes "+7") (pos 7000000000) }
    ensures minus { IsDecimalCount (codes "-07.50") (negsuc 7499999999) }
    ensures minus_zero { IsDecimalCount (codes "-0.0") (pos 0) }
    ensures no_digit_before_the_point { IsDecimalCount (codes ".5") (pos 500000000) }
    ensures no_digit_after_the_point { IsDecimalCount (codes "5.") (pos 5000000000) }
    ensures small_e { IsDecimalCount (codes "1.50e+01") (pos 15000000000) }
    ensures large_e { IsDecimalCount (codes "1E3") (pos 1000000000000) }
    ensures below { IsDecimalCount (codes "25E-1") (pos 2500000000) }
    ensures zero_far_up { IsDecimalCount (codes "0e999") (pos 0) }
    ensures finest { IsDecimalCount (codes "1e-9") (pos 1) }
    ensures finest_of_ten { IsDecimalCount (codes "10e-10") (pos 1) }
    ensures too_fine { IsNoDecimal (codes "1e-10") TooFine }
    ensures largest { IsDecimalCount (codes "1000000000") (pos 1000000000000000000) }
    ensures least { IsDecimalCount (codes "-1e9") (negsuc 999999999999999999) }
    ensures past_the_largest { IsNoDecimal (codes "1000000000.000000001") OutOfRange }
    ensures past_the_least { IsNoDecimal (codes "-1000000000.000000001") OutOfRange }
    ensures other_mark { IsNoDecimal (codes "1D3") BadNumber }
    ensures two_points { IsNoDecimal (codes "1.2.3") BadNumber }
    ensures two_signs { IsNoDecimal (codes "+-1") BadNumber }
    ensures point_alone { IsNoDecimal (codes ".") BadNumber }
    ensures empty { IsNoDecimal (codes "") BadNumber }
    ensures no_exponent { IsNoDecimal (codes "1e") BadNumber }
    ensures point_in_the_exponent { IsNoDecimal (codes "1e1.") BadNumber }
    ensures longest { IsDecimalCount (replicate 62 48 ++ codes "12") (pos 12000000000) }
    ensures too_long { IsNoDecimal (replicate 63 48 ++ codes "12") LongWord }
{}

/// What some words are read as when a whole number from -2 to 12 is wanted.
#[tactic(auto, unfolding(crate::specs::NumberWord::whole_of))]
pub fn examples_of_whole_numbers()
    ensures plus { WholeIs (codes "+7") (pos 7) }
    ensures point { WholeIs (codes "12.0") (pos 12) }
    ensures exponent { WholeIs (codes "0.1e2") (pos 10) }
    ensures least { WholeIs (codes "-2") (negsuc 1) }
    ensures largest { WholeIs (codes "12") (pos 12) }
    ensures past_the_least { WholeIsRefused (codes "-3") OutOfRange }
    ensures past_the_largest { WholeIsRefused (codes "13") OutOfRange }
    ensures a_half { WholeIsRefused (codes "0.5") NotWhole }
    ensures a_half_past_the_largest { WholeIsRefused (codes "13.5") NotWhole }
    ensures too_fine { WholeIsRefused (codes "1e-10") TooFine }
    ensures no_number { WholeIsRefused (codes "x") BadNumber }
    ensures too_long { WholeIsRefused (replicate 65 49) LongWord }
{}

/// The texts of some counts of 10^-9.
pub fn examples_of_spellings()
    ensures zero { IsSpelled (pos 0) (codes "0") }
    ensures whole { IsSpelled (pos 10000000000) (codes "10") }
    ensures half { IsSpelled (pos 1500000000) (codes "1.5") }
    ensures below_one { IsSpelled (pos 20000000) (codes "0.02") }
    ensures finest { IsSpelled (pos 1) (codes "0.000000001") }
    ensures negative { IsSpelled (negsuc 1499999999) (codes "-1.5") }
    ensures largest { IsSpelled (pos 1000000000000000000) (codes "1000000000") }
{}

/// How many bytes the number at the beginning of some bytes has.
pub fn examples_of_fronts()
    ensures whole { whole_end (codes "+12 7") ≡ Some 3 }
    ensures whole_before_a_point { whole_end (codes "-12.5") ≡ Some 3 }
    ensures eighteen_digits { whole_end (replicate 19 49) ≡ Some 18 }
    ensures sign_alone { whole_end (codes "-x") ≡ None }
    ensures seven_digits { few_end (codes "1234567 ") ≡ Some 7 }
    ensures few_among_seven_bytes { few_end (codes "123456 ") ≡ None }
    ensures more_than_few { few_end (codes "12345678 ") ≡ None }
    ensures few_after_a_sign { few_end (codes "-1234567 ") ≡ None }
    ensures decimal { decimal_end (codes "-1.50 7") ≡ Some 5 }
    ensures no_digit_before_the_point { decimal_end (codes ".5") ≡ Some 2 }
    ensures no_digit_after_the_point { decimal_end (codes "5.") ≡ Some 2 }
    ensures point_alone { decimal_end (codes "+.") ≡ None }
    ensures nine_digits { decimal_end (replicate 10 49) ≡ Some 9 }
{}

/// The text of each fault.
pub fn examples_of_fault_texts()
    ensures long_word { number_fault_text LongWord ≡ codes "LongWord" }
    ensures bad_number { number_fault_text BadNumber ≡ codes "BadNumber" }
    ensures too_fine { number_fault_text TooFine ≡ codes "TooFine" }
    ensures out_of_range { number_fault_text OutOfRange ≡ codes "OutOfRange" }
    ensures not_whole { number_fault_text NotWhole ≡ codes "NotWhole" }
{}
