//! Laws that state values of the definitions in `specs/Reads.antt`, worked out by hand: which texts
//! are blank, how many bytes a read takes at most, and when reading goes on. No code calls them. If
//! someone makes the same mistake in a definition and in the code, every contract still holds, but
//! one of these laws fails.

ghost use Rattle.std.specs.Prelude.{◌≡◌, ◌+◌, ◌^◌, true, false, [], ◌∷◌, replicate};
ghost use Rattle.tsp_read.specs.states.Onward.{is_bare};
ghost use Rattle.tsp_read.specs.Reads.{most_taken, before_last, may_go_on};
ghost use Rattle.tsp_read.specs.declared.feed.Stage.TheVariants as stages;
ghost use Rattle.tsp_text.specs.declared.fault.ReadFault.{ReadFault};

/// Which texts consist of blanks and line ends, how many bytes are taken at most, and which bytes
/// come before the last piece: none up to 4,096 bytes, and the first one if there is one more. A
/// reader is read on while the text goes on, and not after its EOF line or a refusal.
pub fn examples_of_reading()
    ensures nothing { is_bare [] ≡ true }
    ensures blanks { is_bare (9 ∷ 10 ∷ 11 ∷ 12 ∷ 13 ∷ 32 ∷ []) ≡ true }
    ensures colon { is_bare (32 ∷ 58 ∷ []) ≡ false }
    ensures digit { is_bare (10 ∷ 49 ∷ 10 ∷ []) ≡ false }
    ensures taken { most_taken ≡ 2 ^ 30 + 4096 }
    ensures one_piece { before_last (replicate 4096 7) ≡ [] }
    ensures one_more { before_last (5 ∷ replicate 4096 7) ≡ 5 ∷ [] }
    ensures going { may_go_on stages.Going ≡ true }
    ensures ended { may_go_on stages.Ended ≡ false }
    ensures refused { (found : ReadFault) → may_go_on (stages.Refused found) ≡ false }
{}
