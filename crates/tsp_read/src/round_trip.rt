//! Laws that promise to users of `tsp convert` that the canonical text of a valid file parses to
//! that file, and that each number in it is read back unchanged. No code calls them.

ghost use Rattle.tsp_read.specs.Prelude.{ℕ, ℤ, List, true, None, Result, Ok, unsigned_abs, decimal_of, whole_of, spelling, Fields, ReadFault, ParsesTo};
ghost use Rattle.std.specs.Prelude.{◌≡◌, ◌≤◌, ◌<◌, ◌^◌};
ghost use Rattle.std.specs.Fmt.{signed_decimal};
ghost use Rattle.tsp_number.specs.Decimal.{most_count};
ghost use Rattle.tsp_file.specs.Rules.{fault_of};
ghost use Rattle.tsp_file.specs.Validity.{is_from_to};
ghost use Rattle.tsp_file.specs.CanonicalText.{text_of};
ghost use Rattle.tsp_read.specs.Reads.{Reads};
ghost use Rattle.tsp_read.specs.Answers.{IsThisFile};

use tsp_file::a_valid_text_is_short;
use tsp_number::{number_word_laws, spelling_laws};
use tsp_text::{spelled_files_are_valid, texts_have_one_answer};

/// Each number that a canonical text contains is read back: a whole number of less than 2^63 in
/// size if its range is wanted, and a coordinate of at most 10^18 counts of 10^-9.
pub fn written_numbers_are_read_back()
    ensures whole { (z low high : ℤ) → unsigned_abs z < 2 ^ 63 → is_from_to low high z ≡ true
        → whole_of (signed_decimal z) low high ≡ Ok z }
    ensures coordinate { (k : ℤ) → unsigned_abs k ≤ most_count → decimal_of (spelling k) ≡ Ok k }
{
    number_word_laws();
    spelling_laws();
}

/// The canonical text of every valid file parses to that file, and to no other.
///
/// So reading it returns that file, or out of memory. Two valid files never have the same canonical
/// text. If a text parses to a file, so does the canonical text of that file.
pub fn canonical_texts_are_read_back()
    ensures spelled { (f : Fields) → fault_of f ≡ None → ParsesTo (text_of f) f }
    ensures alone { (f other : Fields) → fault_of f ≡ None → ParsesTo (text_of f) other → other ≡ f }
    ensures read { (f : Fields) (answer : Result Fields ReadFault) → fault_of f ≡ None
        → Reads (text_of f) answer → IsThisFile f answer }
    ensures told_apart { (f other : Fields) → fault_of f ≡ None → fault_of other ≡ None
        → text_of f ≡ text_of other → f ≡ other }
    ensures again { (bytes : List ℕ) (f : Fields) → ParsesTo bytes f → ParsesTo (text_of f) f }
{
    written_numbers_are_read_back();
    a_valid_text_is_short();
    texts_have_one_answer();
    spelled_files_are_valid();
}
