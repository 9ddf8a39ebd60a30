//! The tours of a text, by the form that was named or else the first that fits. `tour_file.rt`
//! calls it for a text that isn't a file of TYPE TOUR, and it calls the reader of each form, in the
//! order of `tsp solution --forms`. Its answers are tested, not proved.

use crate::edges::{begins_as_edges, read_edges};
use crate::fault::{FormFault, SolutionFault};
use crate::form::Form;
use crate::hints::{Hints, Numbering};
use crate::json::{JsonList, read_json};
use crate::meaning::{
    ListedTours, add_to_all, check_nodes, nodes_of_customers, numbering_of_routes, tours_of_list,
    without_ends,
};
use crate::number_groups::{NumberGroups, has};
use crate::numbers::{Rows, after_index, read_rows};
use crate::route_lines::{
    CostedGroups, is_lkh_line, is_route_line, read_lkh_routes, read_routes, split_at_depots,
};
use crate::walks::{Walks, is_walk, read_walks};
use crate::word_place::Place;
use itoa::Buffer;
use std::alloc::Global;
use tsp_format::{MOST_NODES, is_blank};
use tsp_io::{Refused, copied, push};

/// The tours of a text: by the form that the hints name, or else by the first that it has.
///
/// # Errors
///
/// The first fault of the form.
pub(crate) fn found_in(
    alloc: Global,
    text: &[u8],
    hints: Hints,
) -> Result<ListedTours, SolutionFault> {
    match hints.form {
        Some(form) => read_as(alloc, form, text, hints),
        None if begins_as_json(text) => found_in_json(alloc, text, hints),
        None => found_in_lines(alloc, text, hints),
    }
}

/// Whether a text begins as JSON.
fn begins_as_json(text: &[u8]) -> bool {
    'bytes: for byte in text {
        if !is_blank(*byte) && *byte != b'\n' {
            return *byte == b'{' || *byte == b'[';
        }
    }
    false
}

/// The tours of a text that begins as JSON. Brackets may also be those of R or numpy.
fn found_in_json(alloc: Global, text: &[u8], hints: Hints) -> Result<ListedTours, SolutionFault> {
    match read_json(alloc, text) {
        Ok(list) => found_in_list(list, hints),
        Err(
            SolutionFault::Place {
                line: _,
                word: _,
                fault: FormFault::BadJson,
            },
        ) if !begins_as_object(text) => found_in_lines(alloc, text, hints),
        Err(fault) => Err(fault),
    }
}

/// Whether a text begins as an object of JSON.
fn begins_as_object(text: &[u8]) -> bool {
    'bytes: for byte in text {
        if !is_blank(*byte) && *byte != b'\n' {
            return *byte == b'{';
        }
    }
    false
}

/// The tours of a text that isn't JSON.
fn found_in_lines(alloc: Global, text: &[u8], hints: Hints) -> Result<ListedTours, SolutionFault> {
    match form_of_lines(text) {
        Some(form) => read_as(alloc, form, text, hints),
        None if begins_as_edges(text) => read_as(alloc, Form::ConcordeEdges, text, hints),
        None => {
            let rows = read_rows(alloc, text, false)?;
            found_in_rows(alloc, rows, hints)
        }
    }
}

/// The form that a line of a text shows: a walk, or else a route of CVRPLIB, of LKH-3, or what R
/// prints.
fn form_of_lines(text: &[u8]) -> Option<Form> {
    let found = if has_mark_of_routes(text) {
        form_of_routes(text)
    } else {
        None
    };
    match found {
        None if after_index(without_space(text)).is_some() => Some(Form::RTour),
        _ => found,
    }
}

/// Whether a text has a byte that each walk has, or each line of routes: a look at every line takes
/// much longer.
fn has_mark_of_routes(text: &[u8]) -> bool {
    text.iter().any(|byte| matches!(*byte, b'>' | b':' | b'#'))
}

/// The form of the walks or routes in a text, if a line has one.
fn form_of_routes(text: &[u8]) -> Option<Form> {
    let mut found = None;
    'lines: for line in text.split(|byte| *byte == b'\n') {
        if is_walk(line) {
            return Some(Form::OrTools);
        }
        found = match found {
            Some(Form::Cvrplib) => found,
            _ if is_route_line(line) => Some(Form::Cvrplib),
            None if is_lkh_line(line) => Some(Form::LkhRoutes),
            _ => found,
        };
    }
    found
}

/// What follows blanks and ends of lines.
fn without_space(text: &[u8]) -> &[u8] {
    'bytes: for (index, byte) in text.iter().enumerate() {
        if !is_blank(*byte) && *byte != b'\n' {
            return &text[index..];
        }
    }
    &[]
}

/// The tours of a text with this form.
fn read_as(
    alloc: Global,
    form: Form,
    text: &[u8],
    hints: Hints,
) -> Result<ListedTours, SolutionFault> {
    match form {
        Form::Tour => Err(Place::first().fault(FormFault::NoForm)),
        Form::Json => found_in_list(read_json(alloc, text)?, hints),
        Form::OrTools => found_in_walks(alloc, read_walks(alloc, text)?, hints),
        Form::Cvrplib => found_in_routes(alloc, text, hints),
        Form::LkhRoutes => found_in_lkh_routes(alloc, text, hints),
        Form::RTour => {
            let rows = read_rows(alloc, text, true)?;
            Ok(ListedTours::of(tours_of_list(rows.list, hints)?))
        }
        Form::ConcordeEdges => {
            let tour = read_edges(alloc, text)?;
            found_from_zero(alloc, tour)
        }
        Form::ConcordeTour => found_in_concorde(alloc, read_rows(alloc, text, false)?),
        Form::Table => found_in_table(alloc, read_rows(alloc, text, false)?, hints),
        Form::List => {
            let rows = read_rows(alloc, text, false)?;
            Ok(ListedTours::of(tours_of_list(rows.list, hints)?))
        }
    }
}

// ---- numbers in lines

/// The tours of lines of numbers: a table, a tour of Concorde, or a list.
fn found_in_rows(alloc: Global, rows: Rows, hints: Hints) -> Result<ListedTours, SolutionFault> {
    if let Some(nodes) = rows.ordered(alloc)? {
        drop(rows);
        return found_in_column(alloc, nodes, hints);
    }
    if hints.numbering.is_none() && rows.is_concorde(alloc, hints.nodes())? {
        if rows.is_ambiguous(hints.nodes()) {
            drop(rows);
            return Err(Place::first().fault(FormFault::Ambiguous));
        }
        return found_in_concorde(alloc, rows);
    }
    Ok(ListedTours::of(tours_of_list(rows.list, hints)?))
}

/// The tour of a table.
fn found_in_table(alloc: Global, rows: Rows, hints: Hints) -> Result<ListedTours, SolutionFault> {
    let nodes = rows.ordered(alloc)?;
    drop(rows);
    match nodes {
        Some(nodes) => found_in_column(alloc, nodes, hints),
        None => Err(Place::first().fault(FormFault::NoForm)),
    }
}

/// The tour of a column, which has each node once: from 0 on or from 1 on.
fn found_in_column(
    alloc: Global,
    nodes: Vec<u32>,
    hints: Hints,
) -> Result<ListedTours, SolutionFault> {
    if !has(&nodes, 0) {
        let mut tours = Vec::new(alloc);
        push(&mut tours, nodes)?;
        return Ok(ListedTours::of(tours));
    }
    if hints.numbering == Some(Numbering::FromOne) {
        drop(nodes);
        return Err(Place::first().fault(FormFault::NotANode));
    }
    found_from_zero(alloc, nodes)
}

/// The tour of nodes that count from 0.
fn found_from_zero(alloc: Global, nodes: Vec<u32>) -> Result<ListedTours, SolutionFault> {
    let mut tours = Vec::new(alloc);
    push(&mut tours, nodes)?;
    add_to_all(&mut tours, 1);
    Ok(ListedTours::of(tours))
}

/// The tour of Concorde behind the number of its nodes.
fn found_in_concorde(alloc: Global, rows: Rows) -> Result<ListedTours, SolutionFault> {
    if !rows.is_concorde(alloc, None)? {
        drop(rows);
        return Err(Place::first().fault(FormFault::WrongCount));
    }
    let nodes = match rows.numbers() {
        [_, nodes @ ..] => copied(alloc, nodes)?,
        [] => Vec::new(alloc),
    };
    drop(rows);
    found_from_zero(alloc, nodes)
}

// ---- walks, routes and JSON

/// The tours of walks. A single one without loads is a tour, if no instance of routes is known.
fn found_in_walks(alloc: Global, walks: Walks, hints: Hints) -> Result<ListedTours, SolutionFault> {
    let cost = match walks.cost() {
        Some(cost) => Some(copied(alloc, Buffer::new().format(cost).as_bytes())?),
        None => None,
    };
    let is_tour = match hints.are_routes() {
        Some(are_routes) => !are_routes,
        None => !walks.has_loads,
    };
    check_nodes(&walks.groups, Numbering::FromZero)?;
    let mut tours = walks.groups.groups;
    let is_tour = is_tour && tours.len() == 1;
    if is_tour {
        without_last(&mut tours);
    } else {
        without_ends(&mut tours);
    }
    add_to_all(&mut tours, 1);
    Ok(ListedTours {
        tours,
        cost,
        customers: if is_tour { None } else { Some("OR-Tools") },
    })
}

/// The routes of a .sol file of CVRPLIB.
fn found_in_routes(alloc: Global, text: &[u8], hints: Hints) -> Result<ListedTours, SolutionFault> {
    let depot = hints.depot();
    let lists_nodes = hints.numbering == Some(Numbering::FromOne);
    let CostedGroups { groups, cost } = read_routes(
        alloc,
        text,
        if lists_nodes { depot } else { 0 },
    )?;
    if lists_nodes {
        check_nodes(&groups, Numbering::FromOne)?;
        return Ok(ListedTours {
            tours: groups.groups,
            cost,
            customers: None,
        });
    }
    Ok(ListedTours {
        tours: nodes_of_customers(groups, depot)?,
        cost,
        customers: if depot == 1 { Some("CVRPLIB") } else { None },
    })
}

/// The routes of LKH-3.
fn found_in_lkh_routes(
    alloc: Global,
    text: &[u8],
    hints: Hints,
) -> Result<ListedTours, SolutionFault> {
    let Some(nodes) = hints.nodes() else {
        return Err(Place::first().fault(FormFault::NoInstance));
    };
    let groups = read_lkh_routes(alloc, text)?;
    let routes = match groups.groups.first() {
        Some(trip) => split_at_depots(alloc, trip, hints.depot(), nodes)?,
        None => None,
    };
    match routes {
        Some(routes) => Ok(ListedTours::of(routes)),
        None => Err(Place::first().fault(FormFault::NoDepot)),
    }
}

/// The tours of the list of a text in JSON.
fn found_in_list(list: JsonList, hints: Hints) -> Result<ListedTours, SolutionFault> {
    let JsonList {
        groups,
        has_lists,
        cost,
    } = list;
    let is_tour = !has_lists || (groups.groups.len() == 1 && hints.are_routes() == Some(false));
    if !is_tour {
        return routes_in_list(groups, cost, hints);
    }
    Ok(ListedTours {
        tours: tours_of_list(groups, hints)?,
        cost,
        customers: None,
    })
}

/// The routes of a list in JSON, which may have the depot at both ends of each.
fn routes_in_list(
    groups: NumberGroups,
    cost: Option<Vec<u8>>,
    hints: Hints,
) -> Result<ListedTours, SolutionFault> {
    let mut groups = groups;
    let depot = hints.depot();
    let closed = numbering_of_ends(&groups, depot);
    if closed.is_some() {
        without_ends(&mut groups.groups);
    }
    let place = match groups.least {
        Some(least) => least.place,
        None => Place::first(),
    };
    if groups.lists(0) {
        return Err(place.fault(FormFault::NotANode));
    }
    let known = hints.numbering.or(closed);
    let Some(numbering) = known.or(numbering_of_routes(&groups, hints)) else {
        return Err(place.fault(FormFault::Ambiguous));
    };
    let tours = match numbering {
        Numbering::FromZero => nodes_of_customers(groups, depot)?,
        Numbering::FromOne => nodes_of_routes(groups)?,
    };
    Ok(ListedTours {
        tours,
        cost,
        customers: if numbering == Numbering::FromZero && depot == 1 {
            Some("the file")
        } else {
            None
        },
    })
}

/// How routes count that begin and end at the depot; or `None` if they don't.
fn numbering_of_ends(groups: &NumberGroups, depot: u32) -> Option<Numbering> {
    if groups.are_closed_at(0) {
        Some(Numbering::FromZero)
    } else if groups.are_closed_at(depot) {
        Some(Numbering::FromOne)
    } else {
        None
    }
}

/// The nodes of routes that list nodes.
fn nodes_of_routes(groups: NumberGroups) -> Result<Vec<Vec<u32>>, SolutionFault> {
    match groups.largest {
        Some(largest) if largest.value > MOST_NODES => {
            drop(groups);
            Err(largest.place.fault(FormFault::OutOfRange))
        }
        _ => Ok(groups.groups),
    }
}

/// Leaves the last number out of each list.
fn without_last(lists: &mut [Vec<u32>]) {
    'lists: for list in lists {
        let _ = list.pop();
    }
}
