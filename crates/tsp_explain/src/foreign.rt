//! Recognizes files in the forms of other programs, and names the command that reads them.
//! `file_fault.rt` asks for it, because a user with such a file needs the command more than a rule.

use crate::look::Look;
use crate::text::{LinePart, push_line, push_lines};
use std::alloc::AllocError;
use tsp_format::is_blank;
use tsp_report::Role;
use tsp_text::{LineFault, ReadFault};

/// A form in which another program writes.
#[derive(Clone, Copy)]
pub(crate) enum Form {
    /// A list in JSON.
    JsonList,
    /// Other JSON.
    Json,
    /// HTML.
    Html,
    /// XML.
    Xml,
    /// A comment with `#`.
    Hash,
    /// Values with commas or semicolons between them.
    Csv,
    /// Coordinates without keywords.
    Points,
    /// Nodes without keywords.
    Nodes,
    /// Numbers of another sort without keywords.
    Numbers,
    /// A tour of Concorde.
    ConcordeTour,
    /// A tour's edges of Concorde.
    ConcordeEdges,
    /// LKH's potentials.
    LkhPotentials,
    /// A tour that R printed.
    RTour,
    /// Routes of OR-Tools.
    OrTools,
    /// Routes of LKH-3.
    LkhRoutes,
    /// Routes of CVRPLIB.
    Routes,
}

/// The form of another program that a file seems to have, which is given for this, if it has
/// one.
pub(crate) fn foreign_form(look: &Look, given: Option<Role>, fault: ReadFault) -> Option<Form> {
    match fault {
        ReadFault::Line {
            line,
            word: _,
            fault: LineFault::StrayNumber,
        } => form_of_numbers(look, given, line),
        ReadFault::Line {
            line,
            word: _,
            fault: LineFault::UnknownLine,
        } => form_of_words(look, line),
        _ => None,
    }
}

/// The form of a file whose line begins with an unknown word.
fn form_of_words(look: &Look, line: u32) -> Option<Form> {
    let text = look.excerpt.marked();
    if text.starts_with(b"PI_SECTION") {
        Some(Form::LkhPotentials)
    } else if text.starts_with(b"Route for vehicle") {
        Some(Form::OrTools)
    } else if text.starts_with(b"Route") || text.starts_with(b"Cost") {
        Some(Form::Routes)
    } else if line == 1 && has_part(text, b", Cost:") {
        Some(Form::LkhRoutes)
    } else if line == 1 && has_mark(text) {
        Some(Form::Csv)
    } else {
        None
    }
}

/// The form of a file with a number, or a sign, if no section is open.
fn form_of_numbers(look: &Look, given: Option<Role>, line: u32) -> Option<Form> {
    if look.other.as_slice() == b"PI_SECTION".as_slice() {
        return Some(Form::LkhPotentials);
    }
    let word = look.excerpt.marked();
    if word.starts_with(b"->") || (is_number(word) && look.has_arrow) {
        return Some(Form::OrTools);
    }
    if is_number(word) && look.has_count {
        return Some(Form::LkhRoutes);
    }
    if word.starts_with(b"#") {
        return Some(Form::Hash);
    }
    if line > 1 {
        return None;
    }
    form_of_first_line(look, given, word)
}

/// The form of a file whose first line has a number, or a sign.
fn form_of_first_line(look: &Look, given: Option<Role>, word: &[u8]) -> Option<Form> {
    match form_of_sign(word) {
        Some(form) => Some(form),
        None if has_mark(word) && given != Some(Role::Solution) => Some(Form::Csv),
        None if is_number(word) => Some(form_of_counts(
            given,
            words_in(look.excerpt.after()).saturating_add(1),
            look.next_words,
        )),
        None => None,
    }
}

/// The form of a file that begins with a sign.
fn form_of_sign(word: &[u8]) -> Option<Form> {
    if word == b"[1]".as_slice() {
        Some(Form::RTour)
    } else if word.starts_with(b"[") {
        Some(Form::JsonList)
    } else if word.starts_with(b"{") {
        Some(Form::Json)
    } else if word.starts_with(b"<!") || word.starts_with(b"<html") || word.starts_with(b"<HTML") {
        Some(Form::Html)
    } else if word.starts_with(b"<") {
        Some(Form::Xml)
    } else {
        None
    }
}

/// The form of a file with these counts of numbers in its first line and in its second.
fn form_of_counts(given: Option<Role>, first: u32, second: u32) -> Form {
    match (given, first, second) {
        (Some(Role::Solution), 1, 2..) | (None, 1, 4..) => Form::ConcordeTour,
        (Some(Role::Solution) | None, 2, 3) => Form::ConcordeEdges,
        (Some(Role::Potentials) | None, 1, 2) => Form::LkhPotentials,
        (Some(Role::Instance), 2 | 3, _) | (Some(Role::Instance), 1, 2 | 3) | (None, 3, _) => {
            Form::Points
        }
        (Some(Role::Solution) | None, _, _) => Form::Nodes,
        (Some(Role::Instance | Role::Potentials | Role::Branches), _, _) => Form::Numbers,
    }
}

/// Whether a word may be a number.
fn is_number(word: &[u8]) -> bool {
    match word.first() {
        Some(byte) => byte.is_ascii_digit() || *byte == b'-' || *byte == b'+' || *byte == b'.',
        None => false,
    }
}

/// How many words a text has.
fn words_in(text: &[u8]) -> u32 {
    let mut count = 0u32;
    let mut is_in_word = false;
    'bytes: for byte in text {
        if !is_blank(*byte) && !is_in_word {
            count = count.saturating_add(1);
        }
        is_in_word = !is_blank(*byte);
    }
    count
}

/// Whether a text has these bytes, one after the other.
fn has_part(text: &[u8], part: &[u8]) -> bool {
    'bytes: for index in 0..text.len() {
        if text[index..].starts_with(part) {
            return true;
        }
    }
    false
}

/// Whether a text has a comma or a semicolon.
fn has_mark(text: &[u8]) -> bool {
    'bytes: for byte in text {
        if *byte == b',' || *byte == b';' {
            return true;
        }
    }
    false
}

/// The command that reads a file of another program.
#[derive(Clone, Copy)]
enum Remedy {
    /// A check reads it with `--form auto`.
    Check,
    /// `tsp solution` writes it as a file of TYPE TOUR.
    Solution,
    /// The same, with the instance named.
    SolutionOf,
    /// A recipe converts LKH's potentials.
    Recipe,
}

/// Appends what a file looks like, which command reads it, and what a file begins with that is given
/// for this. `name` is what the user calls the file.
pub(crate) fn push_foreign(
    text: &mut Vec<u8>,
    name: &str,
    form: Form,
    given: Option<Role>,
) -> Result<(), AllocError> {
    push_lines(text, looks_like(form))?;
    if let Some(remedy) = remedy_for(form, given) {
        push_remedy(text, remedy, name)?;
    }
    push_lines(text, begins(given))
}

/// Appends a command with the name of the file.
fn push_remedy(text: &mut Vec<u8>, remedy: Remedy, name: &str) -> Result<(), AllocError> {
    let (sentence, before, after) = match remedy {
        Remedy::Check => (
            "With --form auto, tsp check reads it as it is:",
            "  tsp check INSTANCE ",
            " --form auto",
        ),
        Remedy::Solution => (
            "tsp solution writes it as a file of TYPE TOUR:",
            "  tsp solution ",
            " > NEW.tour",
        ),
        Remedy::SolutionOf => (
            "tsp solution writes it as a file of TYPE TOUR:",
            "  tsp solution ",
            " --of INSTANCE > NEW.tour",
        ),
        Remedy::Recipe => (
            "The recipe lkh-pi.awk converts it:",
            "  awk -f examples/recipes/lkh-pi.awk ",
            " > NEW.potentials",
        ),
    };
    push_lines(text, sentence)?;
    push_line(
        text,
        &[
            LinePart::Words(before),
            LinePart::Words(if is_plain(name) { name } else { "FILE" }),
            LinePart::Words(after),
        ],
    )
}

/// Whether a shell takes a name as it is.
fn is_plain(name: &str) -> bool {
    'bytes: for byte in name.as_bytes() {
        match *byte {
            b'0'..=b'9' | b'A'..=b'Z' | b'a'..=b'z' | b'_' | b'.' | b'/' | b'-' => {}
            _ => return false,
        }
    }
    !name.is_empty() && !name.as_bytes().starts_with(b"-")
}

/// What a form looks like.
fn looks_like(form: Form) -> &'static str {
    match form {
        Form::JsonList | Form::Json => "This looks like JSON.",
        Form::Html => "This looks like HTML: a download may have failed.",
        Form::Xml => "This looks like XML.",
        Form::Hash => "TSPLIB has no comments with #. Write a line COMMENT : .. instead.",
        Form::Csv => "This looks like CSV. TSPLIB has blanks between numbers.",
        Form::Points => "This looks like points without keywords.",
        Form::Nodes => "This looks like a list of nodes without keywords.",
        Form::Numbers => "This looks like numbers without keywords.",
        Form::ConcordeTour =>
            "This looks like a tour of Concorde (.sol), whose nodes count from 0.",
        Form::ConcordeEdges =>
            "This looks like the edges of a tour of Concorde, whose nodes count from 0.",
        Form::LkhPotentials => "This looks like a PI_FILE of LKH.",
        Form::RTour => "This looks like a tour that R printed.",
        Form::OrTools =>
            "This looks like routes of OR-Tools, whose nodes count from 0. Here they count from 1.",
        Form::LkhRoutes => "This looks like routes of LKH-3.",
        Form::Routes => {
            "This looks like routes of CVRPLIB (.sol), which leave the depot out and count customers from 1."
        }
    }
}

/// The command that reads a file of this form, if there is one for what the file is given for.
fn remedy_for(form: Form, given: Option<Role>) -> Option<Remedy> {
    match (given, form) {
        (Some(Role::Potentials) | None, Form::LkhPotentials) => Some(Remedy::Recipe),
        (Some(Role::Solution), _) if is_of_solutions(form) => Some(Remedy::Check),
        (None, Form::LkhRoutes) => Some(Remedy::SolutionOf),
        (None, Form::JsonList | Form::Json | Form::Csv) => None,
        (None, _) if is_of_solutions(form) => Some(Remedy::Solution),
        _ => None,
    }
}

/// Whether `tsp solution` reads files of this form.
fn is_of_solutions(form: Form) -> bool {
    match form {
        Form::JsonList
        | Form::Json
        | Form::Csv
        | Form::Nodes
        | Form::ConcordeTour
        | Form::ConcordeEdges
        | Form::RTour
        | Form::OrTools
        | Form::LkhRoutes
        | Form::Routes => true,
        Form::Html | Form::Xml | Form::Hash | Form::Points | Form::Numbers | Form::LkhPotentials =>
            false,
    }
}

/// What a file begins with that is given for this.
pub(crate) fn begins(given: Option<Role>) -> &'static str {
    match given {
        None => "A file of TSPLIB begins with lines such as TYPE : TSP.",
        Some(Role::Instance) => {
            "An instance begins with lines such as TYPE : TSP, DIMENSION : 4 and EDGE_WEIGHT_TYPE : EUC_2D."
        }
        Some(Role::Solution) => {
            "A solution begins with the line TYPE : TOUR. Its nodes follow the line TOUR_SECTION."
        }
        Some(Role::Potentials) => {
            "A file of potentials begins with lines such as TYPE : POTENTIALS and DIMENSION : 4."
        }
        Some(Role::Branches) => {
            "A tree of cases begins with lines such as TYPE : BRANCHES and DIMENSION : 4."
        }
    }
}
