//! `solution_of`: the file of TYPE TOUR as which a text is read. `solution_writer.rt` calls it. By
//! its contract, a file of TYPE TOUR stays unchanged, unless it has LKH-3's copies of the depot;
//! that other forms are understood correctly is only tested.

ghost use Rattle.std.specs.Prelude.{◌≡◌, ◌⊎◌, IfOk, IfSome, Some, None, Err, Ok, true, nat_le};
ghost use Rattle.std.specs.List.{list_all};
ghost use Rattle.tsp_file.specs.Fields.{Fields};
ghost use Rattle.tsp_format.specs.declared.kinds.Kind.TheVariants.{Tour};
ghost use Rattle.tsp_text.specs.ParsesTo.{ParsesTo};
ghost use Rattle.tsp_solution.specs.SolutionRun.{HasNoCopies, IsLeft, are_within};
ghost use Rattle.tsp_solution.specs.declared.fault.SolutionFault.TheVariants.{OutOfMemory};

use crate::by_form::found_in;
use crate::fault::{FormFault, SolutionFault};
use crate::form::Form;
use crate::hints::Hints;
use crate::meaning::ListedTours;
use crate::route_lines::split_at_depots;
use crate::word_place::{Place, without_blanks};
use std::alloc::Global;
use tsp_file::{Draft, File};
use tsp_format::Kind;
use tsp_io::{Refused, copied, push};
use tsp_read::{ReadFault, file_of_bytes};

/// Reads a solution as a file of TYPE TOUR.
///
/// A text that is a file of TYPE TOUR stays as it is, but for a single tour with LKH-3's copies of
/// the depot, which is split into its routes if the instance has a depot. Every other text is read
/// by the form that the hints name, or else by the first that it has. A length that it claims is
/// kept in a COMMENT.
///
/// # Errors
///
/// `Place` with the first fault that is found; `File` with the fault of a text that has the
/// keywords of TYPE TOUR; `OutOfMemory`.
pub fn solution_of(alloc: Global, text: &[u8], hints: Hints) -> Result<File, SolutionFault>
    ensures tour { IfOk result (λ file. file.kind ≡ Some Tour) }
    ensures left { (file : Fields) → ParsesTo text.now file → IsLeft hints file
        → (result ≡ Ok file) ⊎ (result ≡ Err OutOfMemory) }
{
    if may_be(hints, Form::Tour)
        && let Some(answer) = read_tour(alloc, text, hints)
    {
        return answer;
    }
    let found = found_in(alloc, without_mark(text), hints)?;
    file_of(alloc, found)
}

/// Reads a file of TYPE TOUR, or returns `None` if the text isn't one and may have another form.
///
/// # Errors
///
/// Those of `solution_of` for a file of TYPE TOUR.
fn read_tour(alloc: Global, text: &[u8], hints: Hints) -> Option<Result<File, SolutionFault>>
    ensures tour { IfSome result (λ answer. IfOk answer (λ file. file.kind ≡ Some Tour)) }
    ensures left { (file : Fields) → ParsesTo text.now file → file.kind ≡ Some Tour → HasNoCopies hints file
        → (result ≡ Some (Ok file)) ⊎ (result ≡ Some (Err OutOfMemory)) }
{
    let fault = match file_of_bytes(alloc, text) {
        Ok(file) => return Some(with_routes(alloc, file, hints)),
        Err(unread) => unread.fault(),
    };
    match fault {
        ReadFault::OutOfMemory => Some(Err(SolutionFault::OutOfMemory)),
        _ if hints.form.is_some() || has_keywords(text) => Some(Err(SolutionFault::File(fault))),
        _ => None,
    }
}

/// Whether a text may have a form: the hints name it, or none.
fn may_be(hints: Hints, form: Form) -> bool
    ensures { hints.form ≡ None ⊎ (hints.form ≡ Some form) → result ≡ true }
{
    match hints.form {
        Some(named) => named == form,
        None => true,
    }
}

/// What follows the mark of UTF-8, which some programs for Windows write before a text.
fn without_mark(text: &[u8]) -> &[u8] {
    match text {
        [0xef, 0xbb, 0xbf, rest @ ..] => rest,
        _ => text,
    }
}

/// Whether a line begins with a keyword that files of TYPE TOUR have.
fn has_keywords(text: &[u8]) -> bool {
    'lines: for line in text.split(|byte| *byte == b'\n') {
        if let [b'T', ..] = without_blanks(line)
            && begins_with_keyword(without_blanks(line))
        {
            return true;
        }
    }
    false
}

/// Whether a line begins with one of these keywords.
fn begins_with_keyword(line: &[u8]) -> bool {
    match line.strip_prefix(b"TYPE".as_slice()) {
        Some(rest) => without_blanks(rest).starts_with(b":"),
        None => line.starts_with(b"TOUR_SECTION"),
    }
}

// ---- a file of TYPE TOUR, with copies of the depot or without

/// The file, or that of the routes of its one tour, in which nodes above those of the instance are
/// copies of the depot.
fn with_routes(alloc: Global, file: File, hints: Hints) -> Result<File, SolutionFault>
    ensures tour { IfOk result (λ found. found.kind ≡ Some Tour) }
    ensures left { file.kind ≡ Some Tour → HasNoCopies hints file → result ≡ Ok file }
{
    if file.kind() != Kind::Tour {
        drop(file);
        return Err(Place::first().fault(FormFault::NotATour));
    }
    let Some(nodes) = hints.nodes() else {
        return Ok(file);
    };
    let Some(trip) = trip_of(&file, nodes) else {
        return Ok(file);
    };
    if hints.are_routes() != Some(true) {
        return Ok(file);
    }
    match split_at_depots(alloc, trip, hints.depot(), nodes)? {
        Some(routes) => {
            drop(file);
            file_of(alloc, ListedTours::of(routes))
        }
        None => Ok(file),
    }
}

/// The one tour of a file, if it has nodes above those of the instance; otherwise `None`.
fn trip_of(file: &File, nodes: u32) -> Option<&[u32]>
    ensures { IfSome file.now.tours (λ tours. are_within nodes tours ≡ true) → result ≡ None }
{
    match file.tours() {
        Some(tours) if !are_within(tours, nodes) => only(tours),
        _ => None,
    }
}

/// The only tour of some; `None` if there are more or fewer.
fn only(tours: &[Vec<u32>]) -> Option<&[u32]> {
    match tours {
        [tour] => Some(tour.as_slice()),
        _ => None,
    }
}

/// Whether no tour has a number above those of nodes.
fn are_within(tours: &[Vec<u32>], nodes: u32) -> bool
    ensures { result ≡ list_all (λ tour. list_all (λ node. nat_le node nodes) tour.items) tours.now }
{
    tours.iter().all(|tour| is_within(tour, nodes))
}

/// Whether no number of a list is above those of nodes.
fn is_within(list: &[u32], nodes: u32) -> bool
    ensures { result ≡ list_all (λ node. nat_le node nodes) list.now }
{
    list.iter().all(|node| *node <= nodes)
}

// ---- the file of tours that were found

/// The file of tours, with what is said of them in COMMENTs. Routes without customers are left out.
fn file_of(alloc: Global, found: ListedTours) -> Result<File, SolutionFault>
    ensures { IfOk result (λ file. file.kind ≡ Some Tour) }
{
    let ListedTours {
        mut tours,
        cost,
        customers,
    } = found;
    tours.retain(|tour| !tour.is_empty());
    if tours.is_empty() {
        drop(tours);
        return Err(Place::first().fault(FormFault::NoNodes));
    }
    let comments = comments_of(alloc, cost, customers)?;
    let mut draft = Draft::new(alloc);
    draft.kind = Some(Kind::Tour);
    draft.comments = comments;
    draft.tours = Some(tours);
    match File::of(draft) {
        Ok(file) => Ok(file),
        Err((_, draft)) => {
            drop(draft);
            Err(Place::first().fault(FormFault::TooManyNodes))
        }
    }
}

/// What is said of tours: the length that their text claims, and how it counts customers.
fn comments_of(
    alloc: Global,
    cost: Option<Vec<u8>>,
    customers: Option<&'static str>,
) -> Result<Vec<Vec<u8>>, Refused> {
    let mut comments = Vec::new(alloc);
    if let Some(cost) = cost {
        let comment = joined(alloc, &[b"Cost ", &cost])?;
        push(&mut comments, comment)?;
    }
    if let Some(program) = customers {
        let parts: [&[u8]; 3] = [b"Customer k of ", program.as_bytes(), b" is node k + 1"];
        let comment = joined(alloc, &parts)?;
        push(&mut comments, comment)?;
    }
    Ok(comments)
}

/// Texts, one after the other.
fn joined(alloc: Global, parts: &[&[u8]]) -> Result<Vec<u8>, Refused> {
    let mut text = Vec::new(alloc);
    'parts: for part in parts {
        append(&mut text, part)?;
    }
    Ok(text)
}

/// Adds bytes to a text.
fn append(text: &mut Vec<u8>, part: &[u8]) -> Result<(), Refused> {
    'bytes: for byte in part {
        push(text, *byte)?;
    }
    Ok(())
}
