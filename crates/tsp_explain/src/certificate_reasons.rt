//! Explains a reason against a certificate: the potentials, multiplier, family or branch that it
//! names. `refusal.rt` comes here. A new reason against a certificate needs its lines here.

use crate::refusal::{push_dimensions, push_type, say};
use crate::solution::{count_at_place, first_repeated};
use crate::text::{LinePart, push_line, push_lines};
use std::alloc::AllocError;
use tsp_file::File;
use tsp_format::{Kind, TreeStep, Word};
use tsp_report::Reason;

/// The most sets of a family that is neither a lone set nor a comb.
const MOST_SETS: i64 = 63;

/// Appends the numbers and nodes of a certificate that a reason names.
pub(crate) fn push_certificate(
    text: &mut Vec<u8>,
    reason: Reason,
    instance: &File,
    certificate: &File,
) -> Result<(), AllocError> {
    match reason {
        Reason::NotPotentials | Reason::NotBranches => push_kind(text, certificate),
        Reason::PotentialsDimension => {
            push_dimensions(text, instance, "potentials ", certificate)
        }
        Reason::BranchesDimension => {
            push_dimensions(text, instance, "tree of cases ", certificate)
        }
        Reason::PotentialsKind => push_sections(text, instance, certificate),
        Reason::MultiplierNotFixed { index } | Reason::MultiplierRepeated { index } => {
            push_triple(text, index, certificate)
        }
        Reason::DualInfeasible { i, j } => push_sum(text, i, j, certificate),
        Reason::BadFamily { index } if instance.kind() != Kind::Cvrp => {
            push_family(text, index, certificate)
        }
        Reason::BadBranch { index } | Reason::BranchTwice { index } => {
            push_branch(text, index, certificate)
        }
        _ => Ok(()),
    }
}

/// Appends the TYPE of a certificate that isn't of the right one, and the option that takes it.
fn push_kind(text: &mut Vec<u8>, certificate: &File) -> Result<(), AllocError> {
    match certificate.kind() {
        Kind::Potentials => push_lines(text, "It is of TYPE POTENTIALS: use --potentials."),
        Kind::Branches => push_lines(text, "It is of TYPE BRANCHES: use --branches."),
        _ => push_type(text, certificate),
    }
}

/// Appends the TYPE of the instance, and which potentials a file has.
fn push_sections(
    text: &mut Vec<u8>,
    instance: &File,
    certificate: &File,
) -> Result<(), AllocError> {
    let potentials = match certificate.node_potentials() {
        Some(_) => ", but the potentials are for nodes.",
        None => ", but the potentials are for rows and columns.",
    };
    push_line(
        text,
        &[
            LinePart::Words("The instance is of TYPE "),
            LinePart::Words(instance.kind().word()),
            LinePart::Words(potentials),
        ],
    )
}

/// Appends a pair with a multiplier, counted from 1.
fn push_triple(text: &mut Vec<u8>, index: u32, certificate: &File) -> Result<(), AllocError> {
    let triples = certificate.fixed_potentials().unwrap_or(&[]);
    match count_at_place(triples, index) {
        None => Ok(()),
        Some((from, to, _)) => say(
            text,
            &[
                ("Multiplier ", i64::from(index)),
                (" is on ", i64::from(from)),
                (" and ", i64::from(to)),
            ],
        ),
    }
}

/// Appends the potentials of a row and of a column, and the scale.
fn push_sum(text: &mut Vec<u8>, i: u32, j: u32, certificate: &File) -> Result<(), AllocError> {
    let row = count_at_place(certificate.row_potentials().unwrap_or(&[]), i);
    let column = count_at_place(certificate.column_potentials().unwrap_or(&[]), j);
    match (row, column) {
        (Some(row), Some(column)) => say(
            text,
            &[
                ("The potential of row ", i64::from(i)),
                (" is ", row),
                (", that of column ", i64::from(j)),
                (" is ", column),
                (", and SCALE is ", certificate.scale().unwrap_or(1)),
            ],
        ),
        _ => Ok(()),
    }
}

/// Appends what is wrong with a family of sets, counted from 1: a node that a set has twice, or how
/// many sets there are, and how many parts their nodes make.
fn push_family(text: &mut Vec<u8>, index: u32, certificate: &File) -> Result<(), AllocError> {
    let families = certificate.families().unwrap_or(&[]);
    let Some(place) = (index as usize).checked_sub(1) else {
        return Ok(());
    };
    let Some(sets) = families.get(place) else {
        return Ok(());
    };
    if let Some((set, node)) = node_twice(sets) {
        return say(
            text,
            &[
                ("In family ", i64::from(index)),
                (", set ", i64::from(set)),
                (" lists this node twice: ", i64::from(node)),
            ],
        );
    }
    push_parts(text, index, sets, certificate.dimension().unwrap_or(0))
}

/// Appends how many sets a family has in which no node is twice, and how many parts it makes.
fn push_parts(
    text: &mut Vec<u8>,
    index: u32,
    sets: &[Vec<u32>],
    nodes: u32,
) -> Result<(), AllocError> {
    let count = i64::try_from(sets.len()).unwrap_or(i64::MAX);
    say(
        text,
        &[
            ("The number of sets in family ", i64::from(index)),
            (" is ", count),
        ],
    )?;
    if count > MOST_SETS {
        return Ok(());
    }
    if have_all(sets, nodes) {
        return push_lines(text, "Their nodes form a single part.");
    }
    push_lines(text, "Their nodes form more than 14 parts.")
}

/// Whether each of these sets, in which no node is twice, has all nodes.
fn have_all(sets: &[Vec<u32>], nodes: u32) -> bool {
    'sets: for set in sets {
        if set.len() != nodes as usize {
            return false;
        }
    }
    true
}

/// The first set with a node twice, counted from 1, and that node.
fn node_twice(sets: &[Vec<u32>]) -> Option<(u32, u32)> {
    let mut number = 0u32;
    'sets: for set in sets {
        number = number.saturating_add(1);
        if let Some(place) = first_repeated(set) {
            let node = count_at_place(set, place)?;
            return Some((number, node));
        }
    }
    None
}

/// Appends the pair of a branch, counted from 1.
fn push_branch(text: &mut Vec<u8>, index: u32, certificate: &File) -> Result<(), AllocError> {
    match branch_at(certificate.branches().unwrap_or(&[]), index) {
        None => Ok(()),
        Some((from, to)) => say(
            text,
            &[
                ("Branch ", i64::from(index)),
                (" is on ", i64::from(from)),
                (" and ", i64::from(to)),
            ],
        ),
    }
}

/// The pair of the branch with this number, counted from 1.
fn branch_at(steps: &[TreeStep], index: u32) -> Option<(u32, u32)> {
    let mut count = 0u32;
    'steps: for step in steps {
        if let TreeStep::Branch(from, to) = step {
            count = count.saturating_add(1);
            if count == index {
                return Some((*from, *to));
            }
        }
    }
    None
}
