//! Turns the numbers of a solution into nodes: which node a number stands for, and where the depot
//! is left out. `by_form.rt` comes here with the numbers of each form; its answers are tested, not
//! proved.

use crate::fault::{FormFault, SolutionFault};
use crate::hints::{Hints, Numbering};
use crate::number_groups::NumberGroups;
use tsp_format::MOST_NODES;

/// Tours or routes, whose nodes count from 1, and what is said of them.
#[derive(Drop)]
pub(crate) struct ListedTours {
    /// The tours, or the routes without the depot. Some may be empty.
    pub(crate) tours: Vec<Vec<u32>>,
    /// The length that is claimed, as it is written.
    pub(crate) cost: Option<Vec<u8>>,
    /// The program whose customer k is node k + 1, if customers were listed.
    pub(crate) customers: Option<&'static str>,
}

impl ListedTours {
    /// Tours about which nothing more is known.
    pub(crate) fn of(tours: Vec<Vec<u32>>) -> ListedTours {
        ListedTours {
            tours,
            cost: None,
            customers: None,
        }
    }
}

/// The tour of a list of nodes, which may repeat its first node at the end. It counts from 0 if it
/// has a node 0, unless the hints say how it counts.
///
/// # Errors
///
/// `NotANode` at a node 0 if nodes count from 1; `OutOfRange` at a number above those of nodes.
pub(crate) fn tours_of_list(
    list: NumberGroups,
    hints: Hints,
) -> Result<Vec<Vec<u32>>, SolutionFault> {
    let mut list = list;
    let numbering = match hints.numbering {
        Some(numbering) => numbering,
        None if list.lists(0) => Numbering::FromZero,
        None => Numbering::FromOne,
    };
    check_nodes(&list, numbering)?;
    'tours: for tour in list.groups.iter_mut() {
        if is_closed(tour) {
            let _ = tour.pop();
        }
    }
    if numbering == Numbering::FromZero {
        add_to_all(&mut list.groups, 1);
    }
    Ok(list.groups)
}

/// Whether the first node of a tour comes again at its end.
fn is_closed(tour: &[u32]) -> bool {
    match tour {
        [first, .., last] => first == last,
        _ => false,
    }
}

/// Tests that numbers are nodes, which count from 0 or from 1.
///
/// # Errors
///
/// As `tours_of_list` says.
pub(crate) fn check_nodes(list: &NumberGroups, numbering: Numbering) -> Result<(), SolutionFault> {
    let most = match numbering {
        Numbering::FromZero => MOST_NODES - 1,
        Numbering::FromOne => MOST_NODES,
    };
    if let (Some(least), Numbering::FromOne) = (list.least, numbering)
        && least.value == 0
    {
        return Err(least.place.fault(FormFault::NotANode));
    }
    match list.largest {
        Some(largest) if largest.value > most => Err(largest.place.fault(FormFault::OutOfRange)),
        _ => Ok(()),
    }
}

/// Adds a number to each of those in lists.
pub(crate) fn add_to_all(lists: &mut [Vec<u32>], more: u32) {
    'lists: for list in lists {
        add_to_each(list, more);
    }
}

/// Adds a number to each.
fn add_to_each(numbers: &mut [u32], more: u32) {
    'numbers: for number in numbers {
        *number = number.saturating_add(more);
    }
}

// ---- routes

/// The nodes of routes that list customers: the customer with the number k is the k-th node beside
/// the depot.
///
/// # Errors
///
/// `OutOfRange` at a number above those of customers.
pub(crate) fn nodes_of_customers(
    routes: NumberGroups,
    depot: u32,
) -> Result<Vec<Vec<u32>>, SolutionFault> {
    let mut routes = routes;
    check_nodes(&routes, Numbering::FromZero)?;
    'routes: for route in routes.groups.iter_mut() {
        skip_depot(route, depot);
    }
    Ok(routes.groups)
}

/// Makes nodes of customers.
fn skip_depot(route: &mut [u32], depot: u32) {
    'customers: for number in route {
        if *number >= depot {
            *number = number.saturating_add(1);
        }
    }
}

/// Leaves the first and the last number out of each list.
pub(crate) fn without_ends(lists: &mut [Vec<u32>]) {
    'lists: for list in lists {
        let _ = list.pop();
        if !list.is_empty() {
            let _ = list.remove(0);
        }
    }
}

/// How routes count, of which it isn't known whether they list customers or nodes: by the reading
/// that serves each customer; or `None` if that decides nothing.
///
/// The depot has no number among nodes, and the largest number is that of a node. If the instance
/// isn't known, node 1 is the depot and node 2 a customer.
pub(crate) fn numbering_of_routes(routes: &NumberGroups, hints: Hints) -> Option<Numbering> {
    let depot = hints.depot();
    let has_depot = routes.lists(depot);
    let has_last = match hints.nodes() {
        Some(nodes) if nodes == depot => return Some(Numbering::FromOne),
        Some(nodes) => routes.lists(nodes),
        None => !has_depot && routes.lists(if depot == 2 { 3 } else { 2 }),
    };
    match (has_depot, has_last) {
        (true, false) => Some(Numbering::FromZero),
        (false, true) => Some(Numbering::FromOne),
        _ => None,
    }
}
