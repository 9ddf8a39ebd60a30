//! Appends the lines of an explanation, each indented by two blanks, for all files of this crate.
//! `push_shown` and `push_name` show a file's bytes without sending control bytes to a terminal,
//! which `specs/ShownBytes.antt` pins.

ghost use Rattle.std.specs.Prelude.{◌≡◌, ◌++◌, ◌≤◌, ◌<◌, OnOk, [], ◌∷◌, codes, map};
ghost use Rattle.std.specs.List.{concat};
ghost use Rattle.std.specs.Io.{StartsWith};
ghost use Rattle.tsp_explain.specs.ShownBytes.{shown_byte, shown_low, shown_high, all_shown, named_byte, name_shown, indented, indented_byte};

use itoa::{Buffer, Integer};
use std::alloc::{AllocError, Global};

/// What a line begins with.
const INDENT: &[u8] = b"  ";

/// Appends words as they are.
pub(crate) fn push(text: &mut Vec<u8>, words: &str) -> Result<(), AllocError>
    ensures { OnOk result (text.new.items ≡ text.old.items ++ words.now) }
{
    text.extend_from_slice(words.as_bytes())
}

/// Appends the digits of a number.
pub(crate) fn push_number<N: Integer>(text: &mut Vec<u8>, number: N) -> Result<(), AllocError>
    ensures { OnOk result (text.new.items ≡ text.old.items ++ N.text number) }
{
    let mut buffer = Buffer::new();
    text.extend_from_slice(buffer.format(number).as_bytes())
}

/// Begins a line.
pub(crate) fn begin(text: &mut Vec<u8>) -> Result<(), AllocError>
    ensures { OnOk result (text.new.items ≡ text.old.items ++ codes "  ") }
{
    text.extend_from_slice(INDENT)
}

/// Ends a line.
pub(crate) fn end(text: &mut Vec<u8>) -> Result<(), AllocError>
    ensures { OnOk result (text.new.items ≡ text.old.items ++ 10 ∷ []) }
{
    text.extend_from_slice(b"\n")
}

/// A part of a line.
#[derive(Clone, Copy)]
pub(crate) enum LinePart<'a> {
    /// Words as they are.
    Words(&'a str),
    /// The digits of a number.
    Number(i64),
    /// Bytes of a file as they are shown.
    Shown(&'a [u8]),
    /// The name of a file, in one line.
    Name(&'a str),
}

/// Appends a line of these parts.
pub(crate) fn push_line(text: &mut Vec<u8>, parts: &[LinePart<'_>]) -> Result<(), AllocError> {
    begin(text)?;
    push_parts(text, parts)?;
    end(text)
}

/// Appends parts one after the other.
pub(crate) fn push_parts(text: &mut Vec<u8>, parts: &[LinePart<'_>]) -> Result<(), AllocError> {
    'parts: for part in parts {
        push_part(text, *part)?;
    }
    Ok(())
}

/// Appends a part.
fn push_part(text: &mut Vec<u8>, part: LinePart<'_>) -> Result<(), AllocError> {
    match part {
        LinePart::Words(words) => push(text, words),
        LinePart::Number(number) => push_number(text, number),
        LinePart::Shown(bytes) => push_shown(text, bytes),
        LinePart::Name(name) => push_name(text, name),
    }
}

/// Appends sentences. Byte 10 between two of them begins a new line.
pub fn push_lines(text: &mut Vec<u8>, sentences: &str) -> Result<(), AllocError>
    ensures { OnOk result (text.new.items ≡ text.old.items ++ indented sentences.now) }
{
    begin(text)?;
    push_indented(text, sentences.as_bytes())?;
    end(text)
}

/// Appends bytes, and after each byte 10 what a line begins with.
fn push_indented(text: &mut Vec<u8>, bytes: &[u8]) -> Result<(), AllocError>
    ensures { OnOk result
        (text.new.items ≡ text.old.items ++ concat (map indented_byte bytes.now)) }
{
    'bytes: for byte in bytes {
        push_indented_byte(text, *byte)?;
    }
    Ok(())
}

/// Appends a byte, and after a byte 10 what a line begins with.
fn push_indented_byte(text: &mut Vec<u8>, byte: u8) -> Result<(), AllocError>
    ensures { OnOk result (text.new.items ≡ text.old.items ++ indented_byte byte) }
{
    match byte {
        10 => text.extend_from_slice(b"\n  "),
        _ => text.extend_from_slice(&[byte]),
    }
}

/// Appends the explanation, whole or in part. The text from before stays in front.
pub(crate) fn append(
    text: &mut Vec<u8>,
    explanation: Vec<u8>,
    answer: Result<(), AllocError>,
) -> Result<(), AllocError>
    ensures { StartsWith text.new.items text.old.items }
{
    text.extend_from_slice(&explanation)?;
    answer
}

/// Appends sentences, as `push_lines` does.
///
/// # Errors
///
/// Out of memory; part of the lines may be appended then.
pub fn explain_lines(alloc: Global, text: &mut Vec<u8>, sentences: &str) -> Result<(), AllocError>
    ensures { StartsWith text.new.items text.old.items }
{
    let mut explanation = Vec::new(alloc);
    let answer = push_lines(&mut explanation, sentences);
    append(text, explanation, answer)
}

/// Appends bytes of a file as `cat -v` shows them, so that none of them reaches a terminal as a
/// control byte, but for tabs.
pub(crate) fn push_shown(text: &mut Vec<u8>, bytes: &[u8]) -> Result<(), AllocError>
    ensures { OnOk result (text.new.items ≡ text.old.items ++ all_shown bytes.now) }
{
    'bytes: for byte in bytes {
        push_byte(text, *byte)?;
    }
    Ok(())
}

/// Appends the name of a file: control bytes as `cat -v` shows them, so that a name with a byte 10
/// can't begin another line, and all others as they are.
pub(crate) fn push_name(text: &mut Vec<u8>, name: &str) -> Result<(), AllocError>
    ensures { OnOk result (text.new.items ≡ text.old.items ++ name_shown name.now) }
{
    push_named(text, name.as_bytes())
}

/// Appends the bytes of a name as `push_name` does.
fn push_named(text: &mut Vec<u8>, bytes: &[u8]) -> Result<(), AllocError>
    ensures { OnOk result (text.new.items ≡ text.old.items ++ name_shown bytes.now) }
{
    'bytes: for byte in bytes {
        push_named_byte(text, *byte)?;
    }
    Ok(())
}

/// Appends a byte of a name.
fn push_named_byte(text: &mut Vec<u8>, byte: u8) -> Result<(), AllocError>
    ensures { OnOk result (text.new.items ≡ text.old.items ++ named_byte byte) }
{
    if byte < 128 {
        push_low(text, byte)
    } else {
        text.extend_from_slice(&[byte])
    }
}

/// Appends a byte as it is shown.
fn push_byte(text: &mut Vec<u8>, byte: u8) -> Result<(), AllocError>
    ensures { OnOk result (text.new.items ≡ text.old.items ++ shown_byte byte) }
{
    if byte < 128 {
        push_low(text, byte)
    } else {
        push_high(text, byte - 128)
    }
}

/// Appends a byte below 128 as it is shown.
fn push_low(text: &mut Vec<u8>, byte: u8) -> Result<(), AllocError>
    requires { byte < 128 }
    ensures { OnOk result (text.new.items ≡ text.old.items ++ shown_low byte) }
{
    match byte {
        9 => text.extend_from_slice(&[byte]),
        0..=31 => text.extend_from_slice(&[b'^', byte + 64]),
        127 => text.extend_from_slice(b"^?"),
        _ => text.extend_from_slice(&[byte]),
    }
}

/// Appends a byte from 128 on as it is shown; `low` is the byte less 128.
fn push_high(text: &mut Vec<u8>, low: u8) -> Result<(), AllocError>
    requires { low < 128 }
    ensures { OnOk result (text.new.items ≡ text.old.items ++ shown_high low) }
{
    text.extend_from_slice(b"M-")?;
    match low {
        9 => text.extend_from_slice(b"^I"),
        _ => push_low(text, low),
    }
}
