//! Laws that state values of `write_fails` and `write_fault_text`, worked out by hand: which
//! results of a write are failures, and the text of each fault. No code calls them. If someone
//! makes the same mistake in a definition and in the code, every contract still holds, but one of
//! these laws fails.

ghost use Rattle.std.specs.Prelude.{◌≡◌, true, false, [], ◌∷◌, Ok, Err, codes};
ghost use Rattle.std.specs.declared.io.Error.{Error};
ghost use Rattle.tsp_io.specs.declared.piece.WriteFault.TheVariants as faults;
ghost use Rattle.tsp_io.specs.Streams.{write_fault_text};
ghost use Rattle.tsp_io.specs.Writing.{write_fails};

/// Which writes fail: those that return an error, even for an empty text, and those that take no
/// byte of a text that has some. Taking a part isn't a failure, and neither is taking nothing of an
/// empty text.
pub fn examples_of_failed_writes()
    ensures nothing_of_nothing { write_fails {E = Error} (Ok 0) [] ≡ false }
    ensures nothing_of_a_byte { write_fails {E = Error} (Ok 0) (1 ∷ []) ≡ true }
    ensures a_byte { write_fails {E = Error} (Ok 1) (1 ∷ []) ≡ false }
    ensures part { write_fails {E = Error} (Ok 1) (1 ∷ 2 ∷ []) ≡ false }
    ensures error_of_nothing { (error : Error) → write_fails (Err error) [] ≡ true }
    ensures error { (error : Error) → write_fails (Err error) (1 ∷ []) ≡ true }
{}

/// The text of each fault.
pub fn examples_of_fault_texts()
    ensures device { write_fault_text faults.Device ≡ codes "device" }
    ensures out_of_memory { write_fault_text faults.OutOfMemory ≡ codes "out of memory" }
{}
