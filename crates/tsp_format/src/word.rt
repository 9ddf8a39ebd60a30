//! `Word`, the trait of values that have a word in TSPLIB 95, and `value_of`, which finds the value
//! of a word. Also which bytes are blanks, letters or part of a keyword. tsp_read cuts every text
//! by these, and `specs/Words.antt` pins them.

ghost use Rattle.std.specs.List.{find};
ghost use Rattle.std.specs.Prelude.{◌≡◌, ◌≢◌, ℕ, List, ◌↔◌, IsNone, Some};
ghost use Rattle.std.specs.Str.{bytes_eq};
ghost use Rattle.tsp_format.specs.Words.{is_blank, is_letter, is_keyword_byte};

/// A value that TSPLIB 95 has a word for.
pub trait Word: Copy + 'static {
    ghost text: { Self → List ℕ };

    ghost values: { List Self };

    /// All values that have a word, in the order of the enum.
    fn all() -> &'static [Self]
        ensures { result.now ≡ values };

    /// The word that TSPLIB 95 has for the value.
    fn word(self) -> &'static str
        ensures { result.now ≡ text self };

    ghost found: { (value : Self)
        → find (λ other. bytes_eq (text value) (text other)) values ≡ Some value };
}

/// The value with this word, byte by byte, or `None` if no value has it.
pub fn value_of<V: Word>(word: &[u8]) -> Option<V>
    ensures known { (value : V) → (result ≡ Some value) ↔ (word.now ≡ V.text value) }
    ensures unknown { IsNone result ↔ ((value : V) → word.now ≢ V.text value) }
    ensures first { result ≡ find (λ value. bytes_eq word.now (V.text value)) V.values }
{
    first_with(word, V::all())
}

/// The first of some values with this word.
fn first_with<V: Word>(word: &[u8], values: &[V]) -> Option<V>
    ensures { result ≡ find (λ value. bytes_eq word.now (V.text value)) values.now }
{
    for value in values {
        if word == value.word().as_bytes() {
            return Some(*value);
        }
    }
    None
}

// ---- which bytes are blanks, letters, and bytes of a keyword

/// Whether a byte is a blank: 9, 11, 12, 13 or 32.
pub fn is_blank(byte: u8) -> bool
    ensures { result ≡ is_blank byte }
{
    byte == 9 || byte == 11 || byte == 12 || byte == 13 || byte == 32
}

/// Whether a byte is an ASCII letter.
pub fn is_letter(byte: u8) -> bool
    ensures { result ≡ is_letter byte }
{
    (65 <= byte && byte <= 90) || (97 <= byte && byte <= 122)
}

/// Whether a byte may be part of a keyword: it isn't a blank, a byte 10 or a colon.
pub fn is_keyword_byte(byte: u8) -> bool
    ensures { result ≡ is_keyword_byte byte }
{
    !(is_blank(byte) || byte == b'\n' || byte == b':')
}
