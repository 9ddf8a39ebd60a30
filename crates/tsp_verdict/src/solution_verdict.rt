//! The verdict on a solution, with or without a certificate and a claimed length. tsp_judge calls
//! `judge` for a check, and `judge_next` for each solution of a comparison. `IsVerdictWith` in
//! `specs/SolutionVerdict.antt` pins the verdict.

ghost use Rattle.tsp_verdict.specs.Prelude.{IsTrue, MatchResult, Option, option_map, true, false, None, Some, MatchOption, Fields, CertificateKind};
ghost use Rattle.std.specs.Prelude.{◌≡◌, ◌⊎◌};
ghost use Rattle.tsp_format.specs.declared.kinds.Kind.TheVariants as kinds;
ghost use Rattle.tsp_verdict.specs.Certified.{AppliesToTouring, NoneAgainstTouring};
ghost use Rattle.tsp_verdict.specs.SolutionVerdict.{IsKnownBound, IsFoundWith, IsVerdictFrom, IsVerdictOn, is_judged, NoneBeforeRepeatsOn, IsVerdictWith, HasLength, HasNoLength, IsAsClaimed, IsOtherClaimed};
ghost use Rattle.tsp_verdict.specs.SolutionReasons.{IsFirstReason, IsTourVerdict, NoneOfTourBeforeRepeats, NoneOfRoutesBeforeRepeats};
ghost use Rattle.tsp_verdict.specs.states.TourKnownBounds.{KnowsInstance, with_found};

use crate::certificate::bound_by;
use crate::known_bound::{against_instance, costs_of_tours, judge_bound};
use crate::routes::verdict_on_routes;
use crate::tour::{first_against_nodes, first_unused_by, is_directed, solution_tours, the_tour};
use std::alloc::Global;
use tsp_cost::{Costs, Instance, tour_length};
use tsp_file::File;
use tsp_format::Kind;
use tsp_io::Refused;
use tsp_report::{BoundVerdict, CertificateKind, KnownBound, Reason, Verdict};

/// The verdict on a solution of an instance: a tour or, for a CVRP, routes.
///
/// The reasons of [`crate::judge_tour`] or of [`crate::judge_routes`] come first. Then a solution
/// whose length isn't the claimed one is rejected with `LengthClaimed`. The reasons against the
/// certificate come last.
///
/// # Requires
///
/// An instance whose TYPE the certificate, if there is one, can bound ([`crate::is_bounded`]).
///
/// # Errors
///
/// Out of memory. Then no reason up to `NodeOutOfRange`, in the order for the TYPE, applies.
pub fn judge(
    alloc: Global,
    instance: &Instance,
    solution: &File,
    certificate: Option<(CertificateKind, &File)>,
    claimed: Option<i64>,
) -> Result<Verdict, Refused>
    requires { IsTrue
        (is_judged (option_map (λ given. (given.0, given.1.now)) certificate) instance.now.kind) }
    ensures { MatchResult result (λ verdict. IsVerdictWith
        (option_map (λ given. (given.0, given.1.now)) certificate.entry) claimed instance.now
        solution.now verdict) (λ refused. NoneBeforeRepeatsOn instance.now solution.now) }
{
    match instance.kind() {
        Kind::Cvrp => judge_plan(alloc, instance, solution, certificate, claimed),
        _ => judge_cycle(alloc, instance, solution, certificate, claimed),
    }
}

/// The verdict of [`judge`] with the certificate that [`crate::judge_known_bound`] has judged,
/// given what it found. Neither the instance's costs nor the certificate are judged again.
///
/// # Requires
///
/// The known bound of this instance, with any certificate or without one.
///
/// # Errors
///
/// Out of memory. Then no reason up to `NodeOutOfRange`, in the order for the TYPE, applies.
pub fn judge_next(
    alloc: Global,
    instance: &Instance,
    known_bound: KnownBound,
    solution: &File,
    claimed: Option<i64>,
) -> Result<Verdict, Refused>
    requires { (given : Option (CertificateKind × Fields)) × IsKnownBound given instance.now known_bound }
    ensures { MatchResult result
        (λ verdict. IsVerdictFrom known_bound claimed instance.now solution.now verdict)
        (λ refused. NoneBeforeRepeatsOn instance.now solution.now) }
{
    let verdict = verdict_alone(alloc, instance, known_bound.found, solution)?;
    Ok(with_found(as_claimed(claimed, verdict), known_bound.found))
}

/// The verdict on a tour. The certificate is judged last, and only if the tour is accepted without
/// it.
fn judge_cycle(
    alloc: Global,
    instance: &Instance,
    solution: &File,
    certificate: Option<(CertificateKind, &File)>,
    claimed: Option<i64>,
) -> Result<Verdict, Refused>
    requires { (instance.now.kind ≡ Some kinds.Tsp) ⊎ (instance.now.kind ≡ Some kinds.Atsp) }
    ensures { MatchResult result (λ verdict. IsVerdictWith
        (option_map (λ given. (given.0, given.1.now)) certificate.entry) claimed instance.now
        solution.now verdict) (λ refused. NoneOfTourBeforeRepeats instance.now solution.now) }
{
    let costs = match costs_of_tours(instance) {
        Ok(costs) => costs,
        Err(reason) => return Ok(verdict_against(reason, solution)),
    };
    let verdict = as_claimed(claimed, verdict_on_tour(alloc, instance, solution)?);
    let Some((by, file)) = certificate else {
        return Ok(verdict);
    };
    if !verdict.is_yes() {
        return Ok(verdict);
    }
    match bound_by(alloc, by, instance, costs, file) {
        Ok(found) => Ok(with_found(verdict, Some(found))),
        Err(refused) => Err(refused),
    }
}

/// The verdict on routes. The certificate is judged last, and only if the routes are accepted
/// without it.
fn judge_plan(
    alloc: Global,
    instance: &Instance,
    solution: &File,
    certificate: Option<(CertificateKind, &File)>,
    claimed: Option<i64>,
) -> Result<Verdict, Refused>
    requires kind { instance.now.kind ≡ Some kinds.Cvrp }
    requires judged { IsTrue
        (is_judged (option_map (λ given. (given.0, given.1.now)) certificate) instance.now.kind) }
    ensures { MatchResult result (λ verdict. IsVerdictWith
        (option_map (λ given. (given.0, given.1.now)) certificate.entry) claimed instance.now
        solution.now verdict) (λ refused. NoneOfRoutesBeforeRepeats instance.now solution.now) }
{
    let verdict = as_claimed(claimed, verdict_on_routes(alloc, instance, solution)?);
    let Some((by, file)) = certificate else {
        return Ok(verdict);
    };
    if !verdict.is_yes() {
        return Ok(verdict);
    }
    match judge_bound(alloc, by, instance, file) {
        Ok(found) => Ok(with_found(verdict, Some(found))),
        Err(refused) => Err(refused),
    }
}

// ---- the verdict on a solution without a certificate

/// The verdict on a solution without a certificate, given what was found for its instance, whose
/// costs aren't judged again.
///
/// # Errors
///
/// Out of memory. Then no reason up to `NodeOutOfRange`, in the order for the TYPE, applies.
fn verdict_alone(
    alloc: Global,
    instance: &Instance,
    found: Option<BoundVerdict>,
    solution: &File,
) -> Result<Verdict, Refused>
    requires { (given : Option (CertificateKind × Fields))
        × IsTrue (is_judged given instance.now.kind) × IsFoundWith given instance.now found }
    ensures { MatchResult result (λ verdict. IsVerdictOn instance.now solution.now verdict)
        (λ refused. NoneBeforeRepeatsOn instance.now solution.now) }
{
    match instance.kind() {
        Kind::Cvrp => verdict_on_routes(alloc, instance, solution),
        _ => match against_instance(found) {
            Some(reason) => Ok(verdict_against(reason, solution)),
            None => verdict_on_tour(alloc, instance, solution),
        },
    }
}

/// The verdict on a tour if this reason applies to its instance. Only `NotASolution` comes before
/// such a reason.
fn verdict_against(reason: Reason, solution: &File) -> Verdict
    ensures refused { HasNoLength result }
    ensures first { (instance : Fields) → IsFirstReason (AppliesToTouring instance) reason
        → IsTourVerdict instance solution.now result }
{
    match solution_tours(solution) {
        Some(_) => Verdict::No(reason),
        None => Verdict::No(Reason::NotASolution),
    }
}

/// The verdict on a tour if neither `TooFewNodes` nor `NotSymmetric` applies to its instance. The
/// other reasons are judged in the order of [`Reason`].
///
/// # Errors
///
/// Out of memory. Then no reason up to `NodeOutOfRange` applies.
fn verdict_on_tour(alloc: Global, instance: &Instance, solution: &File) -> Result<Verdict, Refused>
    requires kind { (instance.now.kind ≡ Some kinds.Tsp) ⊎ (instance.now.kind ≡ Some kinds.Atsp) }
    requires none { NoneAgainstTouring instance.now }
    ensures { MatchResult result (λ verdict. IsTourVerdict instance.now solution.now verdict)
        (λ refused. NoneOfTourBeforeRepeats instance.now solution.now) }
{
    let Some(tours) = solution_tours(solution) else {
        return Ok(Verdict::No(Reason::NotASolution));
    };
    let nodes = instance.count();
    if solution.dimension().is_some_and(|stated| stated != nodes) {
        return Ok(Verdict::No(Reason::Dimension));
    }
    // `TourCount`, `TourLength`
    let tour = match the_tour(instance, solution, tours) {
        Ok(tour) => tour,
        Err(reason) => return Ok(Verdict::No(reason)),
    };
    // `NodeOutOfRange`, `RepeatedNode`
    if let Some(reason) = first_against_nodes(alloc, instance, solution, tour)? {
        return Ok(Verdict::No(reason));
    }
    let directed = is_directed(instance.kind());
    if let Some(index) = first_unused_by(alloc, tour, nodes, instance.fixed(), directed)? {
        return Ok(Verdict::No(Reason::FixedEdgeUnused { index }));
    }
    let length = tour_length(instance, tour);
    Ok(Verdict::Tour {
        length,
        bound: None,
    })
}

// ---- a verdict by a certificate, and by a claimed length

/// Adds to the verdict on a solution what was found for all solutions of the instance: an accepted
/// solution gets the bound, or is rejected with the reason against the certificate.
fn with_found(verdict: Verdict, found: Option<BoundVerdict>) -> Verdict
    ensures { result ≡ with_found verdict found }
{
    match (verdict, found) {
        // `Ok(None)` doesn't occur here: by `FindsBound`, the instance would have no solution.
        (Verdict::Tour { length, .. }, Some(Ok(bound))) => Verdict::Tour { length, bound },
        (
            Verdict::Routes {
                length,
                routes,
                least,
                ..
            },
            Some(Ok(bound)),
        ) => Verdict::Routes {
            length,
            routes,
            least,
            bound,
        },
        (Verdict::Tour { .. } | Verdict::Routes { .. }, Some(Err(reason))) => Verdict::No(reason),
        (verdict, _) => verdict,
    }
}

/// The verdict with a claimed length: an accepted solution of another length is rejected with
/// `LengthClaimed`.
fn as_claimed(claimed: Option<i64>, verdict: Verdict) -> Verdict
    ensures { (instance solution : Fields) → IsVerdictOn instance solution verdict
        → IsVerdictWith None claimed instance solution result }
{
    let Some(length) = length_in(verdict) else {
        return verdict;
    };
    if is_other(claimed, length) {
        return Verdict::No(Reason::LengthClaimed { length });
    }
    verdict
}

// ---- whether the claimed length of a solution differs from its own

/// The length of an accepted solution, or `None` if it is rejected.
fn length_in(verdict: Verdict) -> Option<i64>
    ensures { MatchOption result (HasNoLength verdict) (λ length. HasLength verdict length) }
{
    match verdict {
        Verdict::Tour { length, .. } | Verdict::Routes { length, .. } => Some(length),
        Verdict::No(_) => None,
    }
}

/// Whether a length other than this one is claimed.
fn is_other(claimed: Option<i64>, length: i64) -> bool
    ensures other { result ≡ true → IsOtherClaimed claimed length }
    ensures same { result ≡ false → IsAsClaimed claimed length }
{
    match claimed {
        None => false,
        Some(claim) => claim != length,
    }
}
