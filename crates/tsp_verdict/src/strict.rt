//! Applies `--strict` to a verdict or a bound that tsp_judge or tsp_c got without it: rejects an
//! instance with a line that the verdict ignores, because of an unknown keyword or a field that the
//! TYPE or the weight type doesn't use. `specs/Strict.antt` (circle 2) pins which fields an
//! instance uses.

ghost use Rattle.tsp_verdict.specs.Prelude.{All, Option, map, None, Some, true, false, [], pos, Fields, is_yes, is_clear, Verdict, Ok, Err, is_ok, BoundVerdict};
ghost use Rattle.std.specs.Prelude.{◌≡◌, ◌∷◌};
ghost use Rattle.std.specs.List.{find};
ghost use Rattle.tsp_format.specs.declared.keyword.Field.TheVariants as fields;
ghost use Rattle.tsp_format.specs.declared.kinds.Kind.TheVariants as kinds;
ghost use Rattle.tsp_format.specs.declared.kinds.WeightFormat.TheVariants as formats;
ghost use Rattle.tsp_format.specs.declared.kinds.WeightKind.TheVariants as weight_kinds;
ghost use Rattle.tsp_format.specs.declared.layout.Layout.TheVariants as layouts;
ghost use Rattle.tsp_file.specs.Rules.{is_explicit};
ghost use Rattle.tsp_file.specs.states.Drafts.{fields_of};
ghost use Rattle.tsp_verdict.specs.Strict.{IsJudgedWhole, leaves_unused, stands_unused, first_unused, reason_by, strict_reason, strict_verdict, strict_bound, strict_found, strict_known_bound};
ghost use Rattle.tsp_verdict.specs.Examples.{carrying, instance_with, weighing, with_capacity, with_unknown};
ghost use Rattle.tsp_report.specs.declared.verdict.KnownBound.{KnownBound};
ghost use Rattle.tsp_report.specs.declared.verdict.Reason.TheVariants as reasons;
ghost use Rattle.tsp_report.specs.declared.verdict.Verdict.TheVariants as verdicts;

use tsp_cost::Instance;
use tsp_file::Draft;
use tsp_format::{Field, Kind, WeightFormat, WeightKind};
use tsp_report::{BoundVerdict, KnownBound, Reason, Verdict};

/// Applies `--strict`: if `strict` is set and the instance has a line that the verdict ignores, an
/// accepted solution is rejected with `NotJudged` or `NotUsed`. Every other verdict is returned
/// unchanged.
pub fn strict_verdict(strict: bool, instance: &Instance, verdict: Verdict) -> Verdict
    ensures { result ≡ strict_verdict (strict_reason strict instance.now) verdict }
{
    match (strict_reason(strict, instance), verdict) {
        (Some(reason), Verdict::Tour { .. } | Verdict::Routes { .. }) => Verdict::No(reason),
        (_, verdict) => verdict,
    }
}

/// Applies `--strict` to a bound, as [`strict_verdict`] does to a verdict.
pub fn strict_bound(strict: bool, instance: &Instance, found: BoundVerdict) -> BoundVerdict
    ensures { result ≡ strict_bound (strict_reason strict instance.now) found }
{
    match (strict_reason(strict, instance), found) {
        (Some(reason), Ok(_)) => Err(reason),
        (_, found) => found,
    }
}

/// Applies `--strict` to what is known about all solutions, as [`strict_verdict`] does to a
/// verdict.
pub fn strict_known_bound(strict: bool, instance: &Instance, known_bound: KnownBound) -> KnownBound
    ensures { result ≡ strict_known_bound (strict_reason strict instance.now) known_bound }
{
    KnownBound {
        least: known_bound.least,
        found: strict_found(strict_reason(strict, instance), known_bound.found),
    }
}

/// What was found for all solutions, after this reason, if there is one.
fn strict_found(strict: Option<Reason>, found: Option<BoundVerdict>) -> Option<BoundVerdict>
    ensures { result ≡ strict_found strict found }
{
    match (strict, found) {
        (Some(reason), None | Some(Ok(_))) => Some(Err(reason)),
        (_, found) => found,
    }
}

// ---- the first line that the verdict ignores

/// With `strict`, the reason against an instance with a line that the verdict ignores. Unknown
/// keywords come first.
fn strict_reason(strict: bool, instance: &Instance) -> Option<Reason>
    ensures { result ≡ strict_reason strict instance.now }
{
    if !strict {
        return None;
    }
    let field = first_unused(instance.file().fields());
    reason_by(instance.file().others(), field)
}

/// The reason for these lines of unknown keywords and this unused field, if there are any.
fn reason_by(others: &[(Vec<u8>, Vec<u8>)], field: Option<Field>) -> Option<Reason>
    ensures { result ≡ reason_by (map (λ line. (line.0.items, line.1.items)) others.now) field }
{
    match others {
        [] => match field {
            Some(field) => Some(Reason::NotUsed { field }),
            None => None,
        },
        [_, ..] => Some(Reason::NotJudged),
    }
}

/// The first field, in canonical order, that an instance has but doesn't use.
fn first_unused(instance: &Draft) -> Option<Field>
    ensures { result ≡ first_unused (fields_of instance.now) }
{
    first_unused_of(instance, &Field::ALL)
}

/// The first of some fields that an instance has but doesn't use.
fn first_unused_of(instance: &Draft, fields: &[Field]) -> Option<Field>
    ensures { result ≡ find (stands_unused (fields_of instance.now)) fields.now }
{
    for field in fields {
        if instance.stands(*field) && leaves_unused(instance, *field) {
            return Some(*field);
        }
    }
    None
}

/// Whether an instance doesn't use a field: by its TYPE, its weight type and its weight format.
fn leaves_unused(instance: &Draft, field: Field) -> bool
    ensures { result ≡ leaves_unused (fields_of instance.now) field }
{
    match field {
        Field::CapacityKey | Field::DemandPart | Field::DepotPart => {
            !matches!(instance.kind, Some(Kind::Cvrp))
        }
        Field::EdgeWeightPart => !is_explicit(instance),
        Field::EdgeWeightFormatKey => {
            !is_explicit(instance)
                && !matches!(instance.weight_format, Some(WeightFormat::ByFunction))
        }
        Field::NameKey
        | Field::TypeKey
        | Field::CommentKey
        | Field::OtherKey
        | Field::DimensionKey
        | Field::EdgeWeightTypeKey
        | Field::NodeCoordTypeKey
        | Field::DisplayDataTypeKey
        | Field::NodeCoordPart
        | Field::DisplayDataPart
        | Field::FixedEdgesPart => false,
        _ => true,
    }
}

/// Whether the weights of an instance are listed.
fn is_explicit(instance: &Draft) -> bool
    ensures { result ≡ is_explicit instance.now.weight_kind }
{
    matches!(instance.weight_kind, Some(WeightKind::Explicit))
}

// ---- laws

/// With `strict`, the verdict ignores no line of the instance if a solution is accepted, if the
/// instance has a bound, or if solutions are judged one by one; and the answer is the same without
/// `strict`.
pub fn strict_yes_leaves_nothing_unjudged()
    ensures verdict { (instance : Fields) (plain : Verdict)
        → is_yes (strict_verdict (strict_reason true instance) plain) ≡ true
        → IsJudgedWhole instance × (strict_verdict (strict_reason true instance) plain ≡ plain) }
    ensures bound { (instance : Fields) (plain : BoundVerdict)
        → is_ok (strict_bound (strict_reason true instance) plain) ≡ true
        → IsJudgedWhole instance × (strict_bound (strict_reason true instance) plain ≡ plain) }
    ensures known_bound { (instance : Fields) (plain : KnownBound)
        → is_clear (strict_known_bound (strict_reason true instance) plain) ≡ true
        → IsJudgedWhole instance × (strict_known_bound (strict_reason true instance) plain ≡ plain) }
{}

/// Which ignored lines are a reason, and which of them comes first.
///
/// No code calls it: it evaluates the definitions of `specs/Strict.antt` on examples.
pub fn examples_of_strict_reasons()
    ensures unknown { strict_reason true (with_unknown kinds.Tsp 4) ≡ Some reasons.NotJudged }
    ensures unknown_not_asked { strict_reason false (with_unknown kinds.Tsp 4) ≡ None }
    ensures none { strict_reason true (instance_with kinds.Tsp 4 []) ≡ None }
    ensures tour { strict_reason true (with_capacity kinds.Tsp) ≡ Some (reasons.NotUsed fields.CapacityKey) }
    ensures arcs { strict_reason true (with_capacity kinds.Atsp) ≡ Some (reasons.NotUsed fields.CapacityKey) }
    ensures routes { strict_reason true (with_capacity kinds.Cvrp) ≡ None }
    ensures plans { strict_reason true (carrying (pos 8)) ≡ None }
    ensures not_asked { strict_reason false (with_capacity kinds.Tsp) ≡ None }
    ensures no_coordinates_asked { strict_reason true (weighing weight_kinds.Explicit (Some (formats.Listed layouts.FullMatrix))) ≡ None }
    ensures no_matrix { strict_reason true (weighing weight_kinds.Euc2d (Some formats.ByFunction)) ≡ None }
    ensures layout { strict_reason true (weighing weight_kinds.Euc2d (Some (formats.Listed layouts.FullMatrix)))
        ≡ Some (reasons.NotUsed fields.EdgeWeightFormatKey) }
    ensures first { strict_reason true (record (with_capacity kinds.Tsp) { scale = Some (pos 2) })
        ≡ Some (reasons.NotUsed fields.CapacityKey) }
    ensures memory { strict_reason true (record (instance_with kinds.Cvrp 4 []) { memories = Some [] })
        ≡ Some (reasons.NotUsed fields.MemoryPart) }
    ensures rows { strict_reason true (record (instance_with kinds.Cvrp 4 []) { subset_rows = Some [] })
        ≡ Some (reasons.NotUsed fields.SubsetRowPart) }
    ensures load_unit { strict_reason true (record (instance_with kinds.Cvrp 4 []) { load_unit = Some (pos 5) })
        ≡ Some (reasons.NotUsed fields.LoadUnitKey) }
    ensures scale { strict_reason true (record (instance_with kinds.Cvrp 4 []) { scale = Some (pos 5) })
        ≡ Some (reasons.NotUsed fields.ScaleKey) }
    ensures unknown_first { strict_reason true (record (with_unknown kinds.Tsp 4) { capacity = Some (pos 8) })
        ≡ Some reasons.NotJudged }
{}

/// Which fields an instance uses, by its TYPE, its weight type and its weight format.
///
/// No code calls it: it evaluates the definitions of `specs/Strict.antt` on examples.
pub fn examples_of_fields_in_use()
    ensures every_instance { All (λ field. leaves_unused (instance_with kinds.Tsp 4 []) field ≡ false) (fields.NameKey ∷ fields.TypeKey
        ∷ fields.CommentKey ∷ fields.OtherKey ∷ fields.DimensionKey ∷ fields.EdgeWeightTypeKey ∷ fields.NodeCoordTypeKey
        ∷ fields.DisplayDataTypeKey ∷ fields.NodeCoordPart ∷ fields.DisplayDataPart ∷ fields.FixedEdgesPart ∷ []) }
    ensures no_instance { All (λ field. leaves_unused (instance_with kinds.Cvrp 4 []) field ≡ true) (fields.ScaleKey ∷ fields.LoadUnitKey
        ∷ fields.TourPart ∷ fields.NodePotentialPart ∷ fields.RowPotentialPart ∷ fields.ColumnPotentialPart
        ∷ fields.FixedEdgePotentialPart ∷ fields.FamilyPart ∷ fields.MemoryPart ∷ fields.SubsetRowPart ∷ fields.BranchPart ∷ []) }
    ensures routes { All (λ field. leaves_unused (instance_with kinds.Cvrp 4 []) field ≡ false) (fields.CapacityKey ∷ fields.DemandPart
        ∷ fields.DepotPart ∷ []) }
    ensures tours { All (λ field. leaves_unused (instance_with kinds.Tsp 4 []) field ≡ true) (fields.CapacityKey ∷ fields.DemandPart
        ∷ fields.DepotPart ∷ []) }
    ensures arcs { All (λ field. leaves_unused (instance_with kinds.Atsp 4 []) field ≡ true) (fields.CapacityKey ∷ fields.DemandPart
        ∷ fields.DepotPart ∷ []) }
    ensures matrix { All (λ field. leaves_unused (weighing weight_kinds.Explicit (Some (formats.Listed layouts.UpperRow))) field ≡ false)
        (fields.EdgeWeightFormatKey ∷ fields.EdgeWeightPart ∷ fields.NodeCoordPart ∷ []) }
    ensures distances { All (λ field. leaves_unused (weighing weight_kinds.Ceil2d (Some (formats.Listed layouts.UpperRow))) field ≡ true)
        (fields.EdgeWeightFormatKey ∷ fields.EdgeWeightPart ∷ []) }
    ensures by_function { leaves_unused (weighing weight_kinds.Ceil2d (Some formats.ByFunction)) fields.EdgeWeightFormatKey ≡ false }
{}

/// What such a reason does to verdicts, bounds and known bounds. A reason that was found before
/// stays.
///
/// No code calls it: it evaluates the definitions of `specs/Strict.antt` on examples.
pub fn examples_of_strictness()
    ensures tour { strict_verdict (Some reasons.NotJudged) (verdicts.Tour (pos 14) (Some (pos 14))) ≡ verdicts.No reasons.NotJudged }
    ensures routes { strict_verdict (Some (reasons.NotUsed fields.ScaleKey)) (verdicts.Routes (pos 14) 3 2 None)
        ≡ verdicts.No (reasons.NotUsed fields.ScaleKey) }
    ensures other { strict_verdict (Some reasons.NotJudged) (verdicts.No reasons.TourCount) ≡ verdicts.No reasons.TourCount }
    ensures kept { strict_verdict None (verdicts.Tour (pos 14) None) ≡ verdicts.Tour (pos 14) None }
    ensures bound { strict_bound (Some reasons.NotJudged) (Ok (Some (pos 14))) ≡ Err reasons.NotJudged }
    ensures no_solution { strict_bound (Some (reasons.NotUsed fields.ScaleKey)) (Ok None)
        ≡ Err (reasons.NotUsed fields.ScaleKey) }
    ensures other_of_bounds { strict_bound (Some reasons.NotJudged) (Err reasons.NotPotentials) ≡ Err reasons.NotPotentials }
    ensures kept_bound { strict_bound None (Ok None) ≡ Ok None }
    ensures tours { strict_found (Some reasons.NotJudged) None ≡ Some (Err reasons.NotJudged) }
    ensures no_solution_of_all { strict_found (Some reasons.NotJudged) (Some (Ok None)) ≡ Some (Err reasons.NotJudged) }
    ensures plans { strict_known_bound (Some (reasons.NotUsed fields.ScaleKey)) (record { least = Some 2; found = None })
        ≡ record { least = Some 2; found = Some (Err (reasons.NotUsed fields.ScaleKey)) } }
    ensures other_of_all { strict_found (Some reasons.NotJudged) (Some (Err reasons.DepotCount))
        ≡ Some (Err reasons.DepotCount) }
    ensures kept_known_bound { strict_found None None ≡ None }
{}
