//! The end table: rules about several fields, such as the sections that a TYPE requires. tsp_read
//! checks them once a file has been read. `end_fault` in `specs/Rules.antt` pins the rules and
//! their order, which decides the fault that a user sees.

ghost use Rattle.std.specs.Prelude.{◌≡◌, None};
ghost use Rattle.tsp_file.specs.Rules.{standing_of, is_instance, is_routing, is_tour_file, is_potentials_file, has_explicit_weights, has_distances, has_row_or_column, has_node_or_multiplier, is_branches_file, is_asked, is_there, has_wrong_format, has_wrong_count, end_fault};
ghost use Rattle.tsp_file.specs.Validity.{first_failing};
ghost use Rattle.tsp_file.specs.states.Drafts.{fields_of};

use crate::draft::Draft;
use std::fmt;
use thiserror::Error;
use tsp_format::{Field, Kind, WeightFormat, WeightKind};

/// The fields that some TYPE requires, in the order in which a missing one is reported.
const ASKED: [Field; 14] = [
    Field::TypeKey,
    Field::DimensionKey,
    Field::EdgeWeightTypeKey,
    Field::EdgeWeightFormatKey,
    Field::CapacityKey,
    Field::NodeCoordPart,
    Field::EdgeWeightPart,
    Field::DemandPart,
    Field::DepotPart,
    Field::TourPart,
    Field::NodePotentialPart,
    Field::RowPotentialPart,
    Field::ColumnPotentialPart,
    Field::BranchPart,
];

/// The fault at the end of a file: the first row of the end table that applies.
///
/// It depends on which fields are present, and on the first incomplete section.
///
/// A draft's lists are never incomplete, so for a draft pass `None`. A reader passes the first
/// section in canonical order that has fewer words than it needs. Such sections count as present,
/// whatever is in their lists.
pub fn end_fault(draft: &Draft, incomplete: Option<Field>) -> Option<EndFault>
    ensures { result ≡ end_fault (standing_of (fields_of draft.now)) incomplete }
{
    if let Some(field) = first_missing(draft, &ASKED) {
        return Some(EndFault::Missing(field));
    }
    if let Some(field) = incomplete {
        return Some(EndFault::Incomplete(field));
    }
    if has_wrong_format(draft) {
        return Some(EndFault::WrongFormat);
    }
    if has_wrong_count(draft) {
        return Some(EndFault::WrongCount);
    }
    None
}

/// The first of these fields that is required and missing.
fn first_missing(draft: &Draft, fields: &[Field]) -> Option<Field>
    ensures { result ≡ first_failing (is_there (standing_of (fields_of draft.now))) fields.now }
{
    for field in fields {
        if !is_there(draft, *field) {
            return Some(*field);
        }
    }
    None
}

/// Whether a field is present in this draft.
fn is_there(draft: &Draft, field: Field) -> bool
    ensures { result ≡ is_there (standing_of (fields_of draft.now)) field }
{
    !is_asked(draft, field) || draft.stands(field)
}

/// Whether the TYPE of this draft, or another field of it, requires this field.
fn is_asked(draft: &Draft, field: Field) -> bool
    ensures { result ≡ is_asked (standing_of (fields_of draft.now)) field }
{
    match field {
        Field::TypeKey => true,
        Field::DimensionKey => !is_tour_file(draft),
        Field::EdgeWeightTypeKey => is_instance(draft),
        Field::EdgeWeightFormatKey => has_explicit_weights(draft) || draft.weights.is_some(),
        Field::NodeCoordPart => has_distances(draft),
        Field::EdgeWeightPart => has_explicit_weights(draft),
        Field::CapacityKey | Field::DemandPart | Field::DepotPart => is_routing(draft),
        Field::TourPart => is_tour_file(draft),
        Field::NodePotentialPart => is_potentials_file(draft) && !has_row_or_column(draft),
        Field::RowPotentialPart => is_potentials_file(draft) && draft.column_potentials.is_some(),
        Field::ColumnPotentialPart => is_potentials_file(draft) && draft.row_potentials.is_some(),
        Field::BranchPart => is_branches_file(draft),
        _ => false,
    }
}

/// Whether the file is an instance.
fn is_instance(draft: &Draft) -> bool
    ensures { result ≡ is_instance (fields_of draft.now).kind }
{
    matches!(
        draft.kind,
        Some(Kind::Tsp) | Some(Kind::Atsp) | Some(Kind::Cvrp)
    )
}

/// Whether the file is of TYPE CVRP.
fn is_routing(draft: &Draft) -> bool
    ensures { result ≡ is_routing (fields_of draft.now).kind }
{
    matches!(draft.kind, Some(Kind::Cvrp))
}

/// Whether the file is of TYPE TOUR.
fn is_tour_file(draft: &Draft) -> bool
    ensures { result ≡ is_tour_file (fields_of draft.now).kind }
{
    matches!(draft.kind, Some(Kind::Tour))
}

/// Whether the file is of TYPE POTENTIALS.
fn is_potentials_file(draft: &Draft) -> bool
    ensures { result ≡ is_potentials_file (fields_of draft.now).kind }
{
    matches!(draft.kind, Some(Kind::Potentials))
}

/// Whether the file is of TYPE BRANCHES.
fn is_branches_file(draft: &Draft) -> bool
    ensures { result ≡ is_branches_file (fields_of draft.now).kind }
{
    matches!(draft.kind, Some(Kind::Branches))
}

/// Whether an instance's weights are listed.
fn has_explicit_weights(draft: &Draft) -> bool
    ensures { result ≡ has_explicit_weights (standing_of (fields_of draft.now)) }
{
    is_instance(draft) && matches!(draft.weight_kind, Some(WeightKind::Explicit))
}

/// Whether an instance's weights are distances.
fn has_distances(draft: &Draft) -> bool
    ensures { result ≡ has_distances (standing_of (fields_of draft.now)) }
{
    is_instance(draft)
        && draft.weight_kind.is_some()
        && !matches!(draft.weight_kind, Some(WeightKind::Explicit))
}

/// Whether potentials of rows or of columns are present.
fn has_row_or_column(draft: &Draft) -> bool
    ensures { result ≡ has_row_or_column (standing_of (fields_of draft.now)) }
{
    draft.row_potentials.is_some() || draft.column_potentials.is_some()
}

/// Whether potentials of nodes or multipliers of fixed edges are present.
fn has_node_or_multiplier(draft: &Draft) -> bool
    ensures { result ≡ has_node_or_multiplier (standing_of (fields_of draft.now)) }
{
    draft.node_potentials.is_some() || draft.fixed_potentials.is_some()
}

/// Whether weights are listed and the format is FUNCTION, or the file has potentials for a TSP as
/// well as for an ATSP.
fn has_wrong_format(draft: &Draft) -> bool
    ensures { result ≡ has_wrong_format (standing_of (fields_of draft.now)) }
{
    let by_function = matches!(draft.weight_format, Some(WeightFormat::ByFunction));
    (by_function && (has_explicit_weights(draft) || draft.weights.is_some()))
        || (is_potentials_file(draft) && has_node_or_multiplier(draft) && has_row_or_column(draft))
}

/// Whether the number of weights differs from the number of cells of their layout.
fn has_wrong_count(draft: &Draft) -> bool
    ensures { result ≡ has_wrong_count (standing_of (fields_of draft.now)) }
{
    match (draft.dimension, draft.weight_format, &draft.weights) {
        (Some(nodes), Some(WeightFormat::Listed(layout)), Some(weights)) => {
            weights.len() as u64 != layout.cell_count(nodes)
        }
        _ => false,
    }
}

// ---- the faults of a draft

/// What is wrong with the fields of a file taken together, in the order in which it is judged.
#[derive(Clone, Copy, Debug, PartialEq, Eq, Error)]
pub enum EndFault {
    /// A keyword or a section that the TYPE requires is missing.
    Missing(Field),
    /// A section has fewer words than it needs. Only readers find this, because a draft's lists are
    /// always whole.
    Incomplete(Field),
    /// The format doesn't fit the weights, or potentials of nodes appear along with those of rows
    /// or columns.
    WrongFormat,
    /// The number of weights differs from the number of cells of the layout.
    WrongCount,
}

impl fmt::Display for EndFault {
    ghost use Rattle.std.specs.Prelude.{Some};
    ghost use Rattle.tsp_file.specs.Rules.{end_fault_text};

    ghost output = { λ fault. Some (end_fault_text fault) };

    fn fmt<W: fmt::Write>(&self, f: &mut fmt::Formatter<W>) -> fmt::Result {
        match *self {
            EndFault::Missing(field) => write!(f, "Missing {field}"),
            EndFault::Incomplete(field) => write!(f, "Incomplete {field}"),
            EndFault::WrongFormat => f.write_str("WrongFormat"),
            EndFault::WrongCount => f.write_str("WrongCount"),
        }
    }
}

/// Why a draft isn't a valid file, in the order in which drafts are judged.
#[derive(Clone, Copy, Debug, PartialEq, Eq, Error)]
pub enum DraftFault {
    /// The first field, in canonical order, that isn't valid on its own.
    BadField(Field),
    /// The first rule over several fields that fails.
    Rule(EndFault),
}

impl fmt::Display for DraftFault {
    ghost use Rattle.std.specs.Prelude.{Some};
    ghost use Rattle.tsp_file.specs.Rules.{draft_fault_text};

    ghost output = { λ fault. Some (draft_fault_text fault) };

    fn fmt<W: fmt::Write>(&self, f: &mut fmt::Formatter<W>) -> fmt::Result {
        match *self {
            DraftFault::BadField(field) => write!(f, "BadField {field}"),
            DraftFault::Rule(fault) => f.write(fault),
        }
    }
}
