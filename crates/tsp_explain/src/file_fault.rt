//! Explains why a file can't be read: the place, the rule, and a likely cause. tsp_judge and
//! tsp_tool call it. Its contract says only that text is appended, so you can change the words
//! freely.

ghost use Rattle.std.specs.Io.{StartsWith};

use crate::cause::{cause, cause_of_first_byte};
use crate::foreign::{begins, foreign_form, push_foreign};
use crate::groups::push_uneven;
use crate::guess::{UNKNOWN, guess_at, push_guess};
use crate::look::{Look, Sought, look_for};
use crate::sentences::{end_sentence, line_sentence};
use crate::text::{LinePart, append, push_line, push_lines, push_parts};
use crate::wanted::{asked, group, wanted};
use std::alloc::{AllocError, Global};
use std::io::{self, Read};
use tsp_file::EndFault;
use tsp_format::{Field, Word};
use tsp_report::Role;
use tsp_text::{LineFault, ReadFault};

/// Appends why a file isn't read. `name` is what the user calls it, `given` what it is given for in
/// a check, and `again` the file opened once more, if it can be. The text at the fault is shown
/// as far as that second look shows it.
///
/// # Errors
///
/// Out of memory; part of the explanation may be appended then.
pub fn explain_file<R: Read + Drop>(
    alloc: Global,
    text: &mut Vec<u8>,
    name: &str,
    given: Option<Role>,
    again: Option<R>,
    fault: ReadFault,
) -> Result<(), AllocError>
    ensures { StartsWith text.new.items text.old.items }
{
    let seen = match again {
        None => None,
        Some(mut reader) => Some(look_for(&mut reader, sought_for(fault))),
    };
    let mut explanation = Vec::new(alloc);
    let answer = match &seen {
        Some(Ok(seen)) => explain_seen(alloc, &mut explanation, name, given, seen, fault),
        Some(Err(error)) => explain_failed(alloc, &mut explanation, name, error, fault),
        None => explain_unseen(alloc, &mut explanation, name, fault),
    };
    drop(seen);
    append(text, explanation, answer)
}

/// What a second look is for.
fn sought_for(fault: ReadFault) -> Sought {
    match fault {
        ReadFault::Line {
            line,
            word,
            fault: _,
        } => Sought::Place { line, word },
        ReadFault::End(EndFault::Missing(field) | EndFault::Incomplete(field)) => {
            Sought::Field(field)
        }
        ReadFault::End(EndFault::WrongCount) => Sought::Field(Field::EdgeWeightPart),
        ReadFault::End(EndFault::WrongFormat)
        | ReadFault::OutOfMemory
        | ReadFault::Device
        | ReadFault::TooLong => Sought::Nothing,
    }
}

/// Appends the explanation of a file that was seen a second time.
fn explain_seen(
    alloc: Global,
    text: &mut Vec<u8>,
    name: &str,
    given: Option<Role>,
    seen: &Look,
    fault: ReadFault,
) -> Result<(), AllocError> {
    push_place(alloc, text, name, fault)?;
    push_excerpt(text, seen, fault)?;
    if let (ReadFault::End(_), None) = (fault, seen.head.first()) {
        return push_beginning(text, "The file is empty.", given);
    }
    match (cause(seen, fault), foreign_form(seen, given, fault)) {
        (None, Some(form)) => {
            push_lines(text, short_rule(fault))?;
            push_foreign(text, name, form, given)
        }
        (cause, _) => push_meaning(
            text,
            given,
            seen,
            fault,
            cause.or(cause_of_first_byte(seen, fault)),
        ),
    }
}

/// Appends a sentence, and what a file begins with that is given for this.
fn push_beginning(
    text: &mut Vec<u8>,
    sentence: &str,
    given: Option<Role>,
) -> Result<(), AllocError> {
    push_lines(text, sentence)?;
    push_lines(text, begins(given))
}

/// Appends the rule, or what explains the fault better than that.
fn push_meaning(
    text: &mut Vec<u8>,
    given: Option<Role>,
    seen: &Look,
    fault: ReadFault,
    cause: Option<&'static str>,
) -> Result<(), AllocError> {
    match (cause, guess_at(seen, fault), fault) {
        (None, None, _) if is_unknown_beginning(fault) => push_beginning(text, UNKNOWN, given),
        (
            None,
            Some(guess),
            ReadFault::Line {
                line: _,
                word: _,
                fault,
            },
        ) => push_guess(text, guess, seen, fault),
        _ => push_rules(text, seen, fault, cause),
    }
}

/// Appends the line that has the fault, if one has it.
fn push_excerpt(text: &mut Vec<u8>, seen: &Look, fault: ReadFault) -> Result<(), AllocError> {
    match fault {
        ReadFault::Line {
            line: _,
            word,
            fault: _,
        } => seen.excerpt.push_to(text, word > 0),
        ReadFault::End(_) | ReadFault::TooLong | ReadFault::Device | ReadFault::OutOfMemory => {
            Ok(())
        }
    }
}

/// Whether a file begins with an unknown word.
fn is_unknown_beginning(fault: ReadFault) -> bool {
    match fault {
        ReadFault::Line {
            line: 1,
            word: _,
            fault: LineFault::UnknownLine,
        } => true,
        _ => false,
    }
}

/// The rule of a fault that a form of another program has.
fn short_rule(fault: ReadFault) -> &'static str {
    match fault {
        ReadFault::Line {
            line: _,
            word: _,
            fault: LineFault::StrayNumber,
        } => line_sentence(LineFault::StrayNumber),
        _ => UNKNOWN,
    }
}

/// Appends the broken rule, the counts, and the likely cause.
fn push_rules(
    text: &mut Vec<u8>,
    seen: &Look,
    fault: ReadFault,
    cause: Option<&'static str>,
) -> Result<(), AllocError> {
    push_rule(text, fault, seen.field)?;
    push_counts(text, seen, fault)?;
    match cause {
        Some(cause) => push_lines(text, cause),
        None => push_near(text, seen, fault),
    }
}

/// Appends which unknown keyword may have been meant as the one that is missing.
fn push_near(text: &mut Vec<u8>, seen: &Look, fault: ReadFault) -> Result<(), AllocError> {
    let field = match fault {
        ReadFault::Line {
            line: _,
            word: _,
            fault: LineFault::SectionEarly,
        } => Field::DimensionKey,
        ReadFault::End(EndFault::Missing(field)) => field,
        _ => return Ok(()),
    };
    if seen.near.is_empty() {
        return Ok(());
    }
    push_line(
        text,
        &[
            LinePart::Words("Line "),
            LinePart::Number(i64::from(seen.near_line)),
            LinePart::Words(" has "),
            LinePart::Shown(seen.near.as_slice()),
            LinePart::Words(": did you mean "),
            LinePart::Words(field.word()),
            LinePart::Words("?"),
        ],
    )
}

/// Appends the explanation of a file that can't be read a second time, with what the system says.
/// What the system says comes first if the file couldn't be read the first time either.
fn explain_failed(
    alloc: Global,
    text: &mut Vec<u8>,
    name: &str,
    error: &io::Error,
    fault: ReadFault,
) -> Result<(), AllocError> {
    match fault {
        ReadFault::Device => {
            let words = words_of(alloc, error)?;
            push_after(text, name, ": ", words.as_str())?;
            push_rule(text, fault, None)
        }
        _ => {
            explain_unseen(alloc, text, name, fault)?;
            push_system(alloc, text, error)
        }
    }
}

/// Appends what the system says of a failure.
///
/// # Errors
///
/// Out of memory; part of the line may be appended then.
pub fn push_error(alloc: Global, text: &mut Vec<u8>, error: &io::Error) -> Result<(), AllocError>
    ensures { StartsWith text.new.items text.old.items }
{
    let mut explanation = Vec::new(alloc);
    let answer = push_system(alloc, &mut explanation, error);
    append(text, explanation, answer)
}

/// Appends what the system says of a failure, as a line.
fn push_system(alloc: Global, text: &mut Vec<u8>, error: &io::Error) -> Result<(), AllocError> {
    let words = words_of(alloc, error)?;
    push_line(
        text,
        &[
            LinePart::Words("The system says: "),
            LinePart::Words(words.as_str()),
        ],
    )
}

/// The system's words for a failure.
fn words_of(alloc: Global, error: &io::Error) -> Result<String, AllocError> {
    format!(in alloc; "{error}")
}

/// Appends a line that isn't indented: the file's name, a mark, and words.
fn push_after<'a>(
    text: &mut Vec<u8>,
    name: &'a str,
    mark: &'a str,
    words: &'a str,
) -> Result<(), AllocError> {
    push_parts(
        text,
        &[
            LinePart::Name(name),
            LinePart::Words(mark),
            LinePart::Words(words),
            LinePart::Words("\n"),
        ],
    )
}

/// Explains a file that couldn't be read at all.
fn explain_unseen(
    alloc: Global,
    text: &mut Vec<u8>,
    name: &str,
    fault: ReadFault,
) -> Result<(), AllocError> {
    push_place(alloc, text, name, fault)?;
    push_rule(text, fault, None)
}

/// Appends where the fault is, as compilers do: the path, the line, and the fault. Editors jump to
/// it.
fn push_place(
    alloc: Global,
    text: &mut Vec<u8>,
    name: &str,
    fault: ReadFault,
) -> Result<(), AllocError> {
    let place = place_of(alloc, fault)?;
    push_after(text, name, ":", place.as_str())
}

/// The line, the word and the fault, as they follow the path.
fn place_of(alloc: Global, fault: ReadFault) -> Result<String, AllocError> {
    match fault {
        ReadFault::Line {
            line,
            word: 0,
            fault,
        } => format!(in alloc; "{line}: {fault}"),
        ReadFault::Line { line, word, fault } => {
            format!(in alloc; "{line}: word {word}: {fault}")
        }
        ReadFault::End(fault) => format!(in alloc; " {fault}"),
        ReadFault::OutOfMemory | ReadFault::Device | ReadFault::TooLong => {
            format!(in alloc; " {fault}")
        }
    }
}

/// Appends the rule that is broken. `field` is the keyword or the section that the line is of.
fn push_rule(text: &mut Vec<u8>, fault: ReadFault, field: Option<Field>) -> Result<(), AllocError> {
    match fault {
        ReadFault::Line {
            line: _,
            word: _,
            fault,
        } => {
            push_lines(text, line_sentence(fault))?;
            match field {
                Some(field) if is_of_a_field(fault) => push_lines(text, wanted(field)),
                Some(_) | None => Ok(()),
            }
        }
        ReadFault::End(fault) => push_end_rule(text, fault),
        ReadFault::OutOfMemory => push_lines(
            text,
            "There isn't enough memory for the file's contents.",
        ),
        ReadFault::Device => push_lines(text, "The file can't be opened, or a read failed."),
        ReadFault::TooLong => push_lines(
            text,
            "Only the first 1,073,741,824 bytes count. They have neither a fault nor a line EOF.",
        ),
    }
}

/// Whether what the keyword or the section takes says more of the fault.
fn is_of_a_field(fault: LineFault) -> bool {
    match fault {
        LineFault::Outside
        | LineFault::BadValue
        | LineFault::Number(_)
        | LineFault::RepeatedNode
        | LineFault::SelfEdge
        | LineFault::Surplus
        | LineFault::AfterEnd => true,
        LineFault::LongLine
        | LineFault::UnknownLine
        | LineFault::Repeated
        | LineFault::SectionValue
        | LineFault::SectionEarly
        | LineFault::TooManyNodes
        | LineFault::StrayNumber
        | LineFault::LateSpace => false,
    }
}

/// Appends the rule of an end fault.
fn push_end_rule(text: &mut Vec<u8>, fault: EndFault) -> Result<(), AllocError> {
    push_lines(text, end_sentence(fault))?;
    match fault {
        EndFault::Missing(field) => push_lines(text, asked(field)),
        EndFault::Incomplete(field) => push_lines(text, wanted(field)),
        EndFault::WrongFormat | EndFault::WrongCount => Ok(()),
    }
}

/// Appends how many groups a section has that isn't whole, or how many weights there are.
fn push_counts(text: &mut Vec<u8>, seen: &Look, fault: ReadFault) -> Result<(), AllocError> {
    match (fault, seen.dimension) {
        (ReadFault::End(EndFault::Incomplete(field)), Some(nodes)) => {
            push_groups(text, seen.words, group(field, seen.is_spatial), nodes)?;
            match seen.groups.shift() {
                Some(shift) => push_uneven(text, field, shift),
                None => Ok(()),
            }
        }
        (ReadFault::End(EndFault::WrongCount), Some(nodes)) => {
            push_weights(text, count_of(seen.words), nodes)
        }
        _ => Ok(()),
    }
}

/// A count as a number to be printed.
fn count_of(count: u64) -> i64 {
    i64::try_from(count).unwrap_or(i64::MAX)
}

/// Appends how many weights there are, and which layouts list as many for this number of nodes.
fn push_weights(text: &mut Vec<u8>, weights: i64, nodes: i64) -> Result<(), AllocError> {
    push_line(
        text,
        &[
            LinePart::Words("There are "),
            LinePart::Number(weights),
            LinePart::Words(" weights, and n is "),
            LinePart::Number(nodes),
            LinePart::Words("."),
        ],
    )?;
    match layouts_with(weights, nodes) {
        Some(layouts) => push_lines(text, layouts),
        None => Ok(()),
    }
}

/// The layouts that list this number of weights for this number of nodes, if there are some.
fn layouts_with(weights: i64, nodes: i64) -> Option<&'static str> {
    let all = nodes.saturating_mul(nodes);
    let twice = weights.saturating_mul(2);
    if weights == all {
        Some("FULL_MATRIX lists this many.")
    } else if twice == all.saturating_sub(nodes) {
        Some("UPPER_ROW, LOWER_ROW, UPPER_COL and LOWER_COL list this many.")
    } else if twice == all.saturating_add(nodes) {
        Some("UPPER_DIAG_ROW, LOWER_DIAG_ROW, UPPER_DIAG_COL and LOWER_DIAG_COL list this many.")
    } else {
        None
    }
}

/// Appends how many groups a section has, of this many words each, and how many are wanted.
fn push_groups(
    text: &mut Vec<u8>,
    words: u64,
    size: Option<u64>,
    nodes: i64,
) -> Result<(), AllocError> {
    let groups = match size {
        Some(4) => words / 4,
        Some(3) => words / 3,
        Some(2) => words / 2,
        Some(_) | None => return Ok(()),
    };
    push_line(
        text,
        &[
            LinePart::Words("The section has "),
            LinePart::Number(count_of(groups)),
            LinePart::Words(" complete groups, but DIMENSION is "),
            LinePart::Number(nodes),
            LinePart::Words("."),
        ],
    )
}
