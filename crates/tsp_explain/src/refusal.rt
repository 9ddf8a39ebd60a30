//! Explains a reason against a solution or an instance: the rule, and the nodes and numbers that
//! the reason names. `verdict_reasons.rt` comes here.

ghost use Rattle.std.specs.Io.{StartsWith};

use crate::certificate_reasons::push_certificate;
use crate::sentences::reason_sentence;
use crate::solution::{
    count_at_place, first_place_of, first_repeated, least_missing, node_at, sum_of,
};
use crate::text::{LinePart, append, begin, push, push_line, push_lines, push_parts};
use std::alloc::{AllocError, Global};
use tsp_cost::{Costs, Instance};
use tsp_file::File;
use tsp_format::{Kind, Word};
use tsp_report::Reason;

/// The end of the comment that recipes write whose customers count from 1 without the depot.
const CONVERTED: &[u8] = b" is node k + 1";

/// Appends why a solution is refused. `name` is what the user calls the file that is to blame.
///
/// # Errors
///
/// Out of memory; part of the explanation may be appended then.
pub fn explain_reason(
    alloc: Global,
    text: &mut Vec<u8>,
    name: &str,
    reason: Reason,
) -> Result<(), AllocError>
    ensures { StartsWith text.new.items text.old.items }
{
    let mut explanation = Vec::new(alloc);
    let answer = push_reason(&mut explanation, name, reason);
    append(text, explanation, answer)
}

/// Appends the file that is to blame, and the rule of the reason.
fn push_reason(text: &mut Vec<u8>, name: &str, reason: Reason) -> Result<(), AllocError> {
    push_line(text, &[LinePart::Name(name), LinePart::Words(":")])?;
    push_lines(text, reason_sentence(reason))
}

/// Appends the nodes and numbers that a reason is about, as the files show them: the instance, the
/// solution and the certificate, if they are there. The caller may have read them a second time,
/// so they may be others than those that were judged.
///
/// # Errors
///
/// Out of memory; part of the lines may be appended then.
pub fn push_details(
    alloc: Global,
    text: &mut Vec<u8>,
    reason: Reason,
    instance: &Instance,
    solution: Option<&File>,
    certificate: Option<&File>,
) -> Result<(), AllocError>
    ensures { StartsWith text.new.items text.old.items }
{
    let mut explanation = Vec::new(alloc);
    let answer = push_all(&mut explanation, reason, instance, solution, certificate);
    append(text, explanation, answer)
}

/// Appends what the files show of a reason.
fn push_all(
    text: &mut Vec<u8>,
    reason: Reason,
    instance: &Instance,
    solution: Option<&File>,
    certificate: Option<&File>,
) -> Result<(), AllocError> {
    push_of_instance(text, reason, instance)?;
    if let Some(solution) = solution {
        push_of_solution(text, reason, instance.file(), solution)?;
    }
    match certificate {
        Some(certificate) => push_certificate(text, reason, instance.file(), certificate),
        None => Ok(()),
    }
}

/// Appends what the instance shows of a reason.
fn push_of_instance(
    text: &mut Vec<u8>,
    reason: Reason,
    instance: &Instance,
) -> Result<(), AllocError> {
    let file = instance.file();
    match reason {
        Reason::TooFewNodes => say(text, &[("DIMENSION is ", nodes_of(file))]),
        Reason::DepotCount => say(text, &[("The number of depots is ", depots_in(file))]),
        Reason::NotSymmetric { i, j } => {
            push_cost(text, instance, i, j)?;
            push_cost(text, instance, j, i)
        }
        Reason::DualInfeasible { i, j } => push_cost(text, instance, i, j),
        Reason::FixedEdgeUnused { index } => push_pair(text, index, file),
        _ => Ok(()),
    }
}

/// Appends what the solution shows of a reason.
fn push_of_solution(
    text: &mut Vec<u8>,
    reason: Reason,
    instance: &File,
    solution: &File,
) -> Result<(), AllocError> {
    match reason {
        Reason::NotASolution => push_type(text, solution),
        Reason::Dimension => push_dimensions(text, instance, "solution ", solution),
        Reason::TourCount => say(text, &[("The number of tours is ", tours_in(solution))]),
        Reason::TourLength => push_lengths(text, instance, solution),
        Reason::NodeOutOfRange { place } => push_node(text, place, instance, solution),
        Reason::RepeatedNode { place } => {
            push_repeated(text, place, solution)?;
            push_missing(text, instance, solution)
        }
        Reason::DepotInRoute { place } => push_depot(text, place, instance, solution),
        Reason::Overload { route } => push_load(text, route, instance, solution),
        Reason::Unserved { node } => push_unserved(text, node, solution),
        Reason::LengthClaimed { length } => say(text, &[("Its length is ", length)]),
        _ => Ok(()),
    }
}

/// Appends a node that is in no route, and which customer it was if the solution was converted.
fn push_unserved(text: &mut Vec<u8>, node: u32, solution: &File) -> Result<(), AllocError> {
    say(text, &[("No route contains node ", i64::from(node))])?;
    push_customer(text, node, solution)
}

/// Appends which customer a node was, if the solution was converted.
fn push_customer(text: &mut Vec<u8>, node: u32, solution: &File) -> Result<(), AllocError> {
    if !is_converted(solution.comments()) {
        return Ok(());
    }
    say(
        text,
        &[(
            "In the original file, this is customer ",
            i64::from(node).saturating_sub(1),
        )],
    )
}

/// Whether a comment says that customers were counted without the depot, as the recipe writes it.
fn is_converted(comments: &[Vec<u8>]) -> bool {
    'comments: for comment in comments {
        if comment.trim_ascii_end().ends_with(CONVERTED) {
            return true;
        }
    }
    false
}

/// Appends a line of words with a number after each.
pub(crate) fn say(text: &mut Vec<u8>, parts: &[(&str, i64)]) -> Result<(), AllocError> {
    begin(text)?;
    'parts: for (words, number) in parts {
        push_parts(text, &[LinePart::Words(words), LinePart::Number(*number)])?;
    }
    push(text, ".\n")
}

/// Appends the cost from a node to another.
fn push_cost(
    text: &mut Vec<u8>,
    instance: &Instance,
    from: u32,
    to: u32,
) -> Result<(), AllocError> {
    let nodes = 1..=instance.count();
    if !nodes.contains(&from) || !nodes.contains(&to) {
        return Ok(());
    }
    say(
        text,
        &[
            ("The cost from ", i64::from(from)),
            (" to ", i64::from(to)),
            (" is ", instance.cost(from, to)),
        ],
    )
}

/// Appends the TYPE of a file that isn't of the right one.
pub(crate) fn push_type(text: &mut Vec<u8>, file: &File) -> Result<(), AllocError> {
    push_line(
        text,
        &[
            LinePart::Words("It is of TYPE "),
            LinePart::Words(file.kind().word()),
            LinePart::Words("."),
        ],
    )
}

/// The value of DIMENSION, and 0 if it is missing.
fn nodes_of(file: &File) -> i64 {
    i64::from(file.dimension().unwrap_or(0))
}

/// How many tours a file holds.
fn tours_in(solution: &File) -> i64 {
    count_of(solution.tours().unwrap_or(&[]).len())
}

/// How many depots an instance lists.
fn depots_in(instance: &File) -> i64 {
    count_of(instance.depots().unwrap_or(&[]).len())
}

/// A count as a number to be printed.
fn count_of(count: usize) -> i64 {
    i64::try_from(count).unwrap_or(i64::MAX)
}

/// Appends both values of DIMENSION. `role` is what the other file is given for.
pub(crate) fn push_dimensions(
    text: &mut Vec<u8>,
    instance: &File,
    role: &str,
    other: &File,
) -> Result<(), AllocError> {
    push_line(
        text,
        &[
            LinePart::Words("In the instance it is "),
            LinePart::Number(nodes_of(instance)),
            LinePart::Words(", but in the "),
            LinePart::Words(role),
            LinePart::Number(nodes_of(other)),
            LinePart::Words("."),
        ],
    )
}

/// Appends how many nodes the tour has and how many the instance, and which are missing or
/// repeated.
fn push_lengths(text: &mut Vec<u8>, instance: &File, solution: &File) -> Result<(), AllocError> {
    let Some(tour) = solution.tours().unwrap_or(&[]).first() else {
        return Ok(());
    };
    say(
        text,
        &[
            ("The tour has ", count_of(tour.len())),
            (" nodes, but DIMENSION is ", nodes_of(instance)),
        ],
    )?;
    push_of_length(text, tour, instance, solution)
}

/// Appends which node is missing in a tour that is too short, or repeated in one that is too long.
fn push_of_length(
    text: &mut Vec<u8>,
    tour: &[u32],
    instance: &File,
    solution: &File,
) -> Result<(), AllocError> {
    let nodes = nodes_of(instance);
    if count_of(tour.len()) < nodes {
        return push_missing(text, instance, solution);
    }
    if is_closed(tour, nodes) {
        return push_lines(
            text,
            "The first node is repeated at the end: leave it out there.",
        );
    }
    match first_repeated(tour) {
        Some(place) => push_repeated(text, place, solution),
        None => Ok(()),
    }
}

/// Whether a tour of one node too many ends with its first node.
fn is_closed(tour: &[u32], nodes: i64) -> bool {
    tour.len() > 1 && count_of(tour.len()) == nodes.saturating_add(1) && tour.first() == tour.last()
}

/// Appends the least node of the instance that the tours don't have. The depot isn't missing.
fn push_missing(text: &mut Vec<u8>, instance: &File, solution: &File) -> Result<(), AllocError> {
    let tours = solution.tours().unwrap_or(&[]);
    let nodes = instance.dimension().unwrap_or(0);
    match least_missing(tours, nodes, depot_of(instance)) {
        None => Ok(()),
        Some(node) => {
            push_of_node(text, node, " is missing.")?;
            push_customer(text, node, solution)
        }
    }
}

/// The depot of an instance of routes.
fn depot_of(instance: &File) -> Option<u32> {
    match instance.kind() {
        Kind::Cvrp => instance.depots().unwrap_or(&[]).first().copied(),
        _ => None,
    }
}

/// Appends a line with a node and what is so of it.
fn push_of_node(text: &mut Vec<u8>, node: u32, words: &str) -> Result<(), AllocError> {
    push_line(
        text,
        &[
            LinePart::Words("Node "),
            LinePart::Number(i64::from(node)),
            LinePart::Words(words),
        ],
    )
}

/// Appends the place of a route that has the depot, and that customers may be counted from 1. No
/// route has the last node then.
fn push_depot(
    text: &mut Vec<u8>,
    place: u32,
    instance: &File,
    solution: &File,
) -> Result<(), AllocError> {
    let tours = solution.tours().unwrap_or(&[]);
    let Some(node) = node_at(tours, place) else {
        return Ok(());
    };
    say(
        text,
        &[
            ("Place ", i64::from(place)),
            (" has node ", i64::from(node)),
        ],
    )?;
    let last = instance.dimension().unwrap_or(0);
    if node == 1 && first_place_of(tours, last).is_none() {
        push_of_node(
            text,
            node,
            " is the depot. CVRPLIB counts only the customers, from 1: add 1 to each.",
        )
    } else {
        push_of_node(text, node, " is the depot.")
    }
}

/// Appends the node at a place of the tours.
fn push_node(
    text: &mut Vec<u8>,
    place: u32,
    instance: &File,
    solution: &File,
) -> Result<(), AllocError> {
    let Some(node) = node_at(solution.tours().unwrap_or(&[]), place) else {
        return Ok(());
    };
    say(
        text,
        &[
            ("Place ", i64::from(place)),
            (" has node ", i64::from(node)),
            (", but DIMENSION is ", nodes_of(instance)),
        ],
    )?;
    push_customer(text, node, solution)
}

/// Appends the node at a place of the tours, and the first place that has it.
fn push_repeated(text: &mut Vec<u8>, place: u32, solution: &File) -> Result<(), AllocError> {
    let tours = solution.tours().unwrap_or(&[]);
    let Some(node) = node_at(tours, place) else {
        return Ok(());
    };
    let Some(first) = first_place_of(tours, node) else {
        return Ok(());
    };
    say(
        text,
        &[
            ("Place ", i64::from(place)),
            (" has node ", i64::from(node)),
            (", which is also at place ", first),
        ],
    )?;
    push_customer(text, node, solution)
}

/// Appends a fixed pair, counted from 1.
fn push_pair(text: &mut Vec<u8>, index: u32, instance: &File) -> Result<(), AllocError> {
    let pairs = instance.fixed().unwrap_or(&[]);
    match count_at_place(pairs, index) {
        None => Ok(()),
        Some((from, to)) => say(
            text,
            &[
                ("Pair ", i64::from(index)),
                (" is ", i64::from(from)),
                (" and ", i64::from(to)),
            ],
        ),
    }
}

/// Appends what a route carries, and the capacity.
fn push_load(
    text: &mut Vec<u8>,
    route: u32,
    instance: &File,
    solution: &File,
) -> Result<(), AllocError> {
    let (Some(demands), Some(capacity)) = (instance.demands(), instance.capacity()) else {
        return Ok(());
    };
    match sum_of(solution.tours().unwrap_or(&[]), route, demands) {
        None => Ok(()),
        Some(load) => say(
            text,
            &[
                ("The demands in route ", i64::from(route)),
                (" add up to ", load),
                (", but CAPACITY is ", capacity),
            ],
        ),
    }
}
