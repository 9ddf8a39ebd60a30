//! Laws that state values of the definitions in `specs/`, worked out by hand: how bytes and names
//! of files are shown, and which comments are on an optimal solution. No code calls them. If someone makes the same mistake in a definition and in
//! the code, every contract still holds, but one of these laws fails.

ghost use Rattle.std.specs.Prelude.{◌≡◌, [], ◌∷◌, codes, true, false};
ghost use Rattle.tsp_explain.specs.CommentClaims.{is_on_optimum};
ghost use Rattle.tsp_explain.specs.ShownBytes.{shown_byte, all_shown, name_shown};

/// How bytes of each sort are shown.
pub fn examples_of_shown_bytes()
    ensures zero { shown_byte 0 ≡ codes "^@" }
    ensures before_tab { shown_byte 8 ≡ codes "^H" }
    ensures tab { shown_byte 9 ≡ 9 ∷ [] }
    ensures line_end { shown_byte 10 ≡ codes "^J" }
    ensures escape { shown_byte 27 ≡ codes "^[" }
    ensures last_control { shown_byte 31 ≡ codes "^_" }
    ensures blank { shown_byte 32 ≡ codes " " }
    ensures letter { shown_byte 65 ≡ codes "A" }
    ensures before_delete { shown_byte 126 ≡ codes "~" }
    ensures delete { shown_byte 127 ≡ codes "^?" }
    ensures high_zero { shown_byte 128 ≡ codes "M-^@" }
    ensures high_tab { shown_byte 137 ≡ codes "M-^I" }
    ensures high_line_end { shown_byte 138 ≡ codes "M-^J" }
    ensures high_blank { shown_byte 160 ≡ codes "M- " }
    ensures high_letter { shown_byte 193 ≡ codes "M-A" }
    ensures before_last { shown_byte 254 ≡ codes "M-~" }
    ensures last { shown_byte 255 ≡ codes "M-^?" }
    ensures in_order { all_shown (65 ∷ 9 ∷ 195 ∷ 164 ∷ []) ≡ 65 ∷ 9 ∷ codes "M-CM-$" }
    ensures nothing { all_shown [] ≡ [] }
{}

/// A file's name stays in one line, and is as it is if it has no control byte.
pub fn examples_of_shown_names()
    ensures plain { name_shown (codes "a b.tsp") ≡ codes "a b.tsp" }
    ensures line_end { name_shown (97 ∷ 10 ∷ codes "b.tsp:1") ≡ codes "a^Jb.tsp:1" }
    ensures escape { name_shown (27 ∷ codes "[2J") ≡ codes "^[[2J" }
    ensures delete { name_shown (127 ∷ []) ≡ codes "^?" }
    ensures letter { name_shown (195 ∷ 164 ∷ []) ≡ 195 ∷ 164 ∷ [] }
{}

/// Comments of TSPLIB's files of optimal tours, and comments of others that end with a year.
pub fn examples_of_comments()
    ensures solution { is_on_optimum (codes "Optimal solution of bayg29 (1610)") ≡ true }
    ensures tour { is_on_optimum (codes "Optimum tour for ch130 (6110)") ≡ true }
    ensures small { is_on_optimum (codes "optimal tour (16)") ≡ true }
    ensures small_optimum { is_on_optimum (codes "optimum (16)") ≡ true }
    ensures author { is_on_optimum (codes "Smith (2024)") ≡ false }
    ensures later_word { is_on_optimum (codes "Near Optimal (2024)") ≡ false }
    ensures longer_word { is_on_optimum (codes "Optimality by Smith (2024)") ≡ false }
    ensures nothing { is_on_optimum [] ≡ false }
{}
