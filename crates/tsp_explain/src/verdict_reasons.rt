//! Explains a verdict or a bound: the reason against it, or a doubt about an accepted solution.
//! tsp_judge calls it after a run. Its contract says only that text is appended, so you can change
//! the words freely.

ghost use Rattle.std.specs.Io.{StartsWith};
ghost use Rattle.std.specs.Prelude.{◌≡◌, is_some, true};
ghost use Rattle.tsp_explain.specs.CommentClaims.{is_on_optimum};

use crate::look::{Sought, look_for};
use crate::refusal::{explain_reason, push_details};
use crate::text::{LinePart, append, push, push_line, push_lines, push_name, push_parts};
use std::alloc::{AllocError, Global};
use std::io::Read;
use tsp_cost::{Costs, Instance};
use tsp_file::{Coords, File};
use tsp_format::{Kind, Word};
use tsp_number::{NumberFault, parse_whole};
use tsp_report::{BoundVerdict, Reason, Role, Verdict, blamed};

/// What a user calls the files of a check, or of a bound.
#[derive(Clone, Copy)]
pub struct Names<'a> {
    pub instance: &'a str,
    pub solution: &'a str,
    pub certificate: &'a str,
}

/// The files that were judged, as far as they were read, and what a user calls them.
#[derive(Clone, Copy)]
pub struct Files<'a> {
    pub names: Names<'a>,
    pub instance: &'a Instance,
    pub solution: Option<&'a File>,
    pub certificate: Option<&'a File>,
}

/// What the first file of a check is.
const KINDS: &str =
    "The first file of a check has to be of TYPE TSP, ATSP or CVRP (with --potentials, TSP or\n\
    ATSP). The second file is the solution, of TYPE TOUR.";

/// What the first file of a bound is.
const BOUND_KINDS: &str =
    "The first file of a bound has to be of TYPE TSP or ATSP (with --branches, also CVRP).\n\
    The certificate is the file that the option names.";

/// What it means that a certificate gives no bound.
const WITHOUT_TOURS: &str =
    "The instance has no tour: at each leaf of the tree, the decisions and the fixed arcs leave\n\
    some node without an arc.";

/// What it means that a certificate gives routes no bound.
const NO_ROUTES: &str = "The instance has no routes: no customer's load fits into a vehicle.";

/// Appends why a solution is rejected; of an accepted one whether one of its comments claims
/// another length, and whether rounding leaves distances of 0 and 1 alone.
///
/// # Errors
///
/// Out of memory; part of the explanation may be appended then.
pub fn explain_verdict(
    alloc: Global,
    text: &mut Vec<u8>,
    files: Files<'_>,
    verdict: Verdict,
) -> Result<(), AllocError>
    ensures { StartsWith text.new.items text.old.items }
{
    let mut explanation = Vec::new(alloc);
    let answer = match length_of(verdict) {
        Ok(length) => push_yes(alloc, &mut explanation, files, length),
        Err(reason) => push_no(alloc, &mut explanation, files, reason),
    };
    append(text, explanation, answer)
}

/// Appends what a user has to know of a solution that is accepted.
fn push_yes(
    alloc: Global,
    text: &mut Vec<u8>,
    files: Files<'_>,
    length: i64,
) -> Result<(), AllocError> {
    let Some(solution) = files.solution else {
        return Ok(());
    };
    let names = files.names;
    push_claim(alloc, text, names.solution, solution.comments(), length)?;
    push_rounding(text, names.instance, files.instance, solution)
}

/// The length of a solution that is accepted, or the reason against it.
fn length_of(verdict: Verdict) -> Result<i64, Reason> {
    match verdict {
        Verdict::Tour { length, bound: _ } => Ok(length),
        Verdict::Routes {
            length,
            routes: _,
            least: _,
            bound: _,
        } => Ok(length),
        Verdict::No(reason) => Err(reason),
    }
}

/// Appends what explains that there is no bound: the reason, or that the instance has no solution.
///
/// # Errors
///
/// Out of memory; part of the explanation may be appended then.
pub fn explain_bound(
    alloc: Global,
    text: &mut Vec<u8>,
    files: Files<'_>,
    found: BoundVerdict,
) -> Result<(), AllocError>
    ensures { StartsWith text.new.items text.old.items }
{
    let mut explanation = Vec::new(alloc);
    let answer = match found {
        Ok(Some(_)) => Ok(()),
        Ok(None) => push_lines(&mut explanation, none_of(files.instance.kind())),
        Err(reason) => push_no(alloc, &mut explanation, files, reason),
    };
    append(text, explanation, answer)
}

/// Appends what explains that files aren't judged, or don't bound tours, because of the TYPE of the
/// first one. `name` is what the user calls that file, and `again` is the file opened once more, if
/// it can be.
///
/// # Errors
///
/// Out of memory; part of the explanation may be appended then.
pub fn explain_wrong_kind<R: Read + Drop>(
    alloc: Global,
    text: &mut Vec<u8>,
    name: &str,
    is_bound: bool,
    again: Option<R>,
) -> Result<(), AllocError>
    ensures { StartsWith text.new.items text.old.items }
{
    let kind = match again {
        None => None,
        Some(mut reader) => kind_in(&mut reader),
    };
    let mut explanation = Vec::new(alloc);
    let kinds = if is_bound { BOUND_KINDS } else { KINDS };
    let answer = push_wrong_kind(&mut explanation, name, kind, kinds);
    append(text, explanation, answer)
}

/// What it means that a certificate gives an instance of this TYPE no bound.
fn none_of(kind: Kind) -> &'static str {
    match kind {
        Kind::Cvrp => NO_ROUTES,
        _ => WITHOUT_TOURS,
    }
}

/// Appends that a file is of the wrong kind, its TYPE if that was seen, and what the files are.
fn push_wrong_kind(
    text: &mut Vec<u8>,
    name: &str,
    kind: Option<Kind>,
    kinds: &str,
) -> Result<(), AllocError> {
    push_parts(
        text,
        &[LinePart::Name(name), LinePart::Words(": wrong kind\n")],
    )?;
    if let Some(kind) = kind {
        push_kind(text, kind)?;
    }
    push_lines(text, kinds)
}

/// Appends the TYPE of the first file, and asks about the order of the files if it isn't that of an
/// instance.
fn push_kind(text: &mut Vec<u8>, kind: Kind) -> Result<(), AllocError> {
    let question = match kind {
        Kind::Tsp | Kind::Atsp | Kind::Cvrp => "",
        Kind::Tour | Kind::Potentials | Kind::Branches => " Did you swap the two files?",
    };
    push_line(
        text,
        &[
            LinePart::Words("It is of TYPE "),
            LinePart::Words(kind.word()),
            LinePart::Words("."),
            LinePart::Words(question),
        ],
    )
}

/// The TYPE that a file has, or `None` if it isn't seen.
fn kind_in<R: Read>(reader: &mut R) -> Option<Kind> {
    match look_for(reader, Sought::Nothing) {
        Ok(seen) => seen.kind,
        Err(_) => None,
    }
}

/// Appends the reason why a solution is rejected, and what the files show of it.
fn push_no(
    alloc: Global,
    text: &mut Vec<u8>,
    files: Files<'_>,
    reason: Reason,
) -> Result<(), AllocError> {
    let name = match blamed(reason) {
        Role::Instance => files.names.instance,
        Role::Solution => files.names.solution,
        Role::Potentials | Role::Branches => files.names.certificate,
    };
    explain_reason(alloc, text, name, reason)?;
    push_details(
        alloc,
        text,
        reason,
        files.instance,
        files.solution,
        files.certificate,
    )
}

// ---- the line of `--explain` on a tour whose distances are all rounded to 0 or 1

/// What it means that distances are rounded, and what helps.
const ROUNDED: &str =
    ": every distance along the solution is 0 or 1, because TSPLIB rounds distances to whole numbers; \
    multiply the coordinates by a power of ten, and say so when you publish the length.\n";

/// Appends that distances are rounded, if each one along the solution is 0 or 1 and some points
/// of it differ. `name` is what the user calls the instance.
fn push_rounding(
    text: &mut Vec<u8>,
    name: &str,
    instance: &Instance,
    solution: &File,
) -> Result<(), AllocError> {
    let (Some(points), Some(tours)) = (points_of(instance), solution.tours()) else {
        return Ok(());
    };
    if are_rounded(instance, points, tours) {
        push_name(text, name)?;
        push(text, ROUNDED)?;
    }
    Ok(())
}

/// The points that the costs are distances of.
fn points_of(instance: &Instance) -> Option<&Coords> {
    let file = instance.file();
    match file.as_matrix() {
        Some(_) => None,
        None => file.coords(),
    }
}

/// Whether each distance along the tours is 0 or 1, and one of them is between points that differ.
fn are_rounded(instance: &Instance, points: &Coords, tours: &[Vec<u32>]) -> bool {
    let mut some_differ = false;
    'tours: for tour in tours {
        match step_of_tour(instance, points, tour) {
            None => return false,
            Some(differ) => some_differ = some_differ || differ,
        }
    }
    some_differ
}

/// Whether points differ along a tour, or `None` if a distance is more than 1. A route begins
/// and ends at the depot.
fn step_of_tour(instance: &Instance, points: &Coords, tour: &[u32]) -> Option<bool> {
    let (first, last) = (*tour.first()?, *tour.last()?);
    let mut some_differ = closing_step(instance, points, first, last)?;
    let mut before = first;
    'nodes: for node in tour {
        some_differ = step(instance, points, before, *node)? || some_differ;
        before = *node;
    }
    Some(some_differ)
}

/// Whether points differ on the way from the last node to the first one, through the depot if
/// there is one, or `None` if a distance is more than 1.
fn closing_step(instance: &Instance, points: &Coords, first: u32, last: u32) -> Option<bool> {
    match depot_of(instance) {
        Some(depot) => {
            let from_depot = step(instance, points, depot, first)?;
            Some(step(instance, points, last, depot)? || from_depot)
        }
        None => step(instance, points, last, first),
    }
}

/// The depot of an instance of TYPE CVRP.
fn depot_of(instance: &Instance) -> Option<u32> {
    match instance.kind() {
        Kind::Cvrp => instance.file().depots()?.first().copied(),
        _ => None,
    }
}

/// Whether two nodes have different points, or `None` if their distance is more than 1.
fn step(instance: &Instance, points: &Coords, from: u32, to: u32) -> Option<bool> {
    let nodes = 1..=instance.count();
    if !nodes.contains(&from) || !nodes.contains(&to) || instance.cost(from, to) > 1 {
        return None;
    }
    match points {
        Coords::Plane(points) => differ(points, from, to),
        Coords::Space(points) => differ(points, from, to),
    }
}

/// Whether two points of a list differ, which are counted from 1.
fn differ<P: PartialEq>(points: &[P], from: u32, to: u32) -> Option<bool> {
    let from = points.get((from as usize).checked_sub(1)?)?;
    let to = points.get((to as usize).checked_sub(1)?)?;
    Some(from != to)
}

// ---- the line of `--explain` on a comment that claims another length

/// A length that a comment claims.
#[derive(Clone, Copy)]
enum CommentClaim<'a> {
    Whole(i64),
    /// A number that isn't whole, as it is written.
    Real(&'a [u8]),
}

/// Appends one sentence if a comment of a solution claims another length than its own: the first
/// comment that ends in `Length = N`, `Cost N` or, after `Optimal` or `Optimum`, in `(N)`, with
/// another number. `name` is what the user calls the solution.
///
/// # Errors
///
/// Out of memory; part of the sentence may be appended then.
pub fn push_claim(
    alloc: Global,
    text: &mut Vec<u8>,
    name: &str,
    comments: &[Vec<u8>],
    length: i64,
) -> Result<(), AllocError>
    ensures { StartsWith text.new.items text.old.items }
{
    let mut explanation = Vec::new(alloc);
    let answer = match other_claim(comments, length) {
        None => Ok(()),
        Some(CommentClaim::Whole(claim)) => push_sentence(&mut explanation, name, claim, length),
        Some(CommentClaim::Real(claim)) => push_real(&mut explanation, name, claim),
    };
    append(text, explanation, answer)
}

/// Appends that a comment claims a length.
fn push_sentence(
    text: &mut Vec<u8>,
    name: &str,
    claim: i64,
    length: i64,
) -> Result<(), AllocError> {
    push_parts(
        text,
        &[
            LinePart::Name(name),
            LinePart::Words(": a COMMENT claims the length "),
            LinePart::Number(claim),
            LinePart::Words(", but the length is "),
            LinePart::Number(length),
            LinePart::Words(".\n"),
        ],
    )
}

/// Appends that a comment claims a length that isn't whole.
fn push_real<'a>(text: &mut Vec<u8>, name: &'a str, claim: &'a [u8]) -> Result<(), AllocError> {
    push_parts(
        text,
        &[
            LinePart::Name(name),
            LinePart::Words(": a COMMENT claims the length "),
            LinePart::Shown(claim),
            LinePart::Words(
                ". TSPLIB's lengths are whole, so a real one can't be compared with them.\n",
            ),
        ],
    )
}

/// The first length that a comment claims and that isn't this one.
fn other_claim(comments: &[Vec<u8>], length: i64) -> Option<CommentClaim<'_>> {
    'comments: for comment in comments {
        match claim_in(comment) {
            Some(CommentClaim::Whole(claim)) if claim == length => {}
            Some(claim) => return Some(claim),
            None => {}
        }
    }
    None
}

/// The length that a comment claims at its end.
fn claim_in(comment: &[u8]) -> Option<CommentClaim<'_>> {
    let text = comment.trim_ascii_end();
    if let Some(inner) = text.strip_suffix(b")") {
        return claim_in_brackets(comment, inner);
    }
    let (before, number) = split_number(text);
    let before = before.trim_ascii_end();
    let is_claim = match before.strip_suffix(b"=") {
        Some(words) => words.trim_ascii_end().ends_with(b"Length"),
        None => before
            .strip_suffix(b":")
            .unwrap_or(before)
            .trim_ascii_end()
            .ends_with(b"Cost"),
    };
    if is_claim {
        length_claimed(number)
    } else {
        None
    }
}

/// The length that a comment claims in brackets at its end. `inner` comes before the closing one.
/// Only comments on an optimal solution claim a length so: `Smith (2024)` ends with a year.
fn claim_in_brackets<'a>(comment: &[u8], inner: &'a [u8]) -> Option<CommentClaim<'a>>
    ensures { is_some result ≡ true → is_on_optimum comment.now ≡ true }
{
    if !is_on_optimum(comment) {
        return None;
    }
    match split_number(inner) {
        (before, number) if before.ends_with(b"(") => length_claimed(number),
        _ => None,
    }
}

/// Whether a comment is on an optimal solution, by its first word.
fn is_on_optimum(comment: &[u8]) -> bool
    ensures { result ≡ is_on_optimum comment.now }
{
    comment.starts_with(b"Optimal ")
        || comment.starts_with(b"Optimum ")
        || comment.starts_with(b"optimal ")
        || comment.starts_with(b"optimum ")
}

/// What comes before the number at the end of a text, and the number.
fn split_number(text: &[u8]) -> (&[u8], &[u8]) {
    let mut start = 0usize;
    'bytes: for (index, byte) in text.iter().enumerate() {
        if !byte.is_ascii_digit() && *byte != b'-' && *byte != b'.' {
            start = index.saturating_add(1);
        }
    }
    (
        text.get(..start).unwrap_or(text),
        text.get(start..).unwrap_or(&[]),
    )
}

/// The length that a word is.
fn length_claimed(word: &[u8]) -> Option<CommentClaim<'_>> {
    match parse_whole(word, i64::MIN, i64::MAX) {
        Ok(length) => Some(CommentClaim::Whole(length)),
        Err(NumberFault::NotWhole) => Some(CommentClaim::Real(word)),
        Err(_) => None,
    }
}
