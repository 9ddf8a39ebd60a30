//! What holds for all solutions of an instance: a bound, or a reason against all of them. tsp_judge
//! calls `judge_bound` for `tsp bound`, and `judge_known_bound` before it reads the solutions of a
//! comparison. The order of the tests decides the reason, so keep it (`IsBoundVerdict` in
//! `specs/Certified.antt`).

ghost use Rattle.tsp_verdict.specs.Prelude.{IsTrue, None, Some, MatchResult, option_map, Fields, nodes_of, capacity_of, IsLeastRoutes, CertificateKind};
ghost use Rattle.std.specs.Prelude.{◌≡◌, ◌⊎◌, ◌≤◌};
ghost use Rattle.tsp_format.specs.declared.kinds.Kind.TheVariants as kinds;
ghost use Rattle.tsp_verdict.specs.SolutionVerdict.{IsKnownBound, IsKnownBoundWith, IsFoundWith, IsLeastKnownBy, NoneOfKnownBoundWithoutMemory, is_judged};
ghost use Rattle.tsp_verdict.specs.Certified.{IsBoundVerdict, AppliesToTouring, NoneAgainstTouring, NoneAgainstInstance, is_bounded, NoneWithoutMemory};
ghost use Rattle.tsp_verdict.specs.SolutionReasons.{total_of, IsFirstReason};
ghost use Rattle.tsp_verdict.specs.states.TourKnownBounds.{against_instance, AreTourCosts};
ghost use Rattle.tsp_report.specs.declared.task.CertificateKind.TheVariants as certificates;

use crate::certificate::bound_by;
use crate::routes::{depot_of_routes, least_routes, plan_tree_bound};
use crate::tour::{FEWEST_NODES_OF_TOURS, TourCosts, routing, tour_costs};
use std::alloc::Global;
use tsp_cost::{Costs, Instance};
use tsp_file::File;
use tsp_format::Kind;
use tsp_io::Refused;
use tsp_report::{BoundVerdict, CertificateKind, KnownBound, Reason};

/// The bound of all solutions of an instance, or the reason against all of them.
///
/// The reason is the first one that applies to every solution: `TooFewNodes` and `NotSymmetric` for
/// tours; `TooFewNodes`, `DepotCount`, `DepotDemand` and `FixedEdgesInRoutes` for routes; then
/// those against the certificate. If none applies, the bound is the certificate's, as
/// [`judge_bound`] finds it. For a CVRP, the least number of routes comes with it.
///
/// # Requires
///
/// An instance whose TYPE the certificate, if there is one, can bound ([`crate::is_bounded`]).
///
/// # Errors
///
/// Out of memory, as in [`judge_bound`]. Without a certificate, no memory is taken.
pub fn judge_known_bound(
    alloc: Global,
    instance: &Instance,
    certificate: Option<(CertificateKind, &File)>,
) -> Result<KnownBound, Refused>
    requires { IsTrue
        (is_judged (option_map (λ given. (given.0, given.1.now)) certificate) instance.now.kind) }
    ensures { MatchResult result (λ known_bound. IsKnownBound (option_map (λ given. (given.0, given.1.now))
        certificate.entry) instance.now known_bound) (λ refused. NoneOfKnownBoundWithoutMemory
        (option_map (λ given. (given.0, given.1.now)) certificate.entry) instance.now) }
{
    match certificate {
        None => Ok(known_bound_alone(instance)),
        Some((by, file)) => Ok(known_bound_of(instance, judge_bound(alloc, by, instance, file)?)),
    }
}

/// What [`judge_known_bound`] finds without a certificate. No memory is taken.
pub fn known_bound_alone(instance: &Instance) -> KnownBound
    ensures { IsKnownBound None instance.now result }
{
    KnownBound {
        least: least_of(instance),
        found: found_alone(instance),
    }
}

/// The first reason that applies to every solution of an instance.
fn found_alone(instance: &Instance) -> Option<BoundVerdict>
    ensures judged { IsTrue (is_judged None instance.now.kind) }
    ensures found { IsFoundWith None instance.now result }
{
    match instance.kind() {
        Kind::Cvrp => match depot_of_routes(instance) {
            Ok(_) => None,
            Err(reason) => Some(Err(reason)),
        },
        _ => match costs_of_tours(instance) {
            Ok(_) => None,
            Err(reason) => Some(Err(reason)),
        },
    }
}

/// What [`judge_known_bound`] finds with a certificate, given what [`judge_bound`] has found.
pub fn known_bound_of(instance: &Instance, found: BoundVerdict) -> KnownBound
    ensures { (by : CertificateKind) (certificate : Fields)
        → IsBoundVerdict by instance.now certificate found
        → IsKnownBoundWith (Some (by, certificate)) instance.now result }
{
    let least = least_of(instance);
    KnownBound {
        least,
        found: Some(found),
    }
}

/// The least number of routes that carry all demands of an instance; `None` if its solutions are
/// tours.
fn least_of(instance: &Instance) -> Option<u64>
    ensures { IsLeastKnownBy instance.now.kind instance.now result }
{
    match instance.kind() {
        Kind::Cvrp => Some(least_routes_of(instance)),
        _ => None,
    }
}

/// The least number of routes that carry all demands of an instance.
fn least_routes_of(instance: &Instance) -> u64
    requires { instance.now.kind ≡ Some kinds.Cvrp }
    ensures { IsLeastRoutes (total_of instance.now) (capacity_of instance.now) result }
{
    let routing = routing(instance);
    let nodes = instance.count();
    prove!(routing.demands.len() == nodes as usize);
    least_routes(routing.demands, routing.capacity)
}

/// The reason that was found against all tours, if it is against the instance and not the
/// certificate.
pub(crate) fn against_instance(found: Option<BoundVerdict>) -> Option<Reason>
    ensures { result ≡ against_instance found }
{
    match found {
        Some(Err(Reason::TooFewNodes)) => Some(Reason::TooFewNodes),
        Some(Err(Reason::NotSymmetric { i, j })) => Some(Reason::NotSymmetric { i, j }),
        _ => None,
    }
}

// ---- the verdict on an instance and a certificate, without a solution

/// The bound that a certificate gives for the tours or the routes of an instance, or the first
/// reason against the instance or the certificate. No tour, or no plan without empty routes, is
/// shorter than the bound.
///
/// The reasons are `TooFewNodes` and `NotSymmetric` for tours, or `TooFewNodes`, `DepotCount`,
/// `DepotDemand` and `FixedEdgesInRoutes` for routes, and then those against the certificate. A
/// tree in which no leaf has a bound shows that the instance has no solution.
///
/// # Requires
///
/// An instance whose TYPE the certificate can bound ([`crate::is_bounded`]).
///
/// # Errors
///
/// Out of memory. Then no reason applies to the instance, and none that is found without memory
/// applies to the certificate: `NotPotentials` to `PotentialsKind`, or `NotBranches` and
/// `BranchesDimension`.
pub fn judge_bound(
    alloc: Global,
    by: CertificateKind,
    instance: &Instance,
    certificate: &File,
) -> Result<BoundVerdict, Refused>
    requires { IsTrue (is_bounded by instance.now.kind) }
    ensures { MatchResult result
        (λ found. IsBoundVerdict by instance.now certificate.now found)
        (λ refused. NoneAgainstInstance instance.now
        × NoneWithoutMemory by instance.now certificate.now) }
{
    match instance.kind() {
        Kind::Cvrp => routes_bound(alloc, instance, certificate),
        _ => tours_bound(alloc, by, instance, certificate),
    }
}

/// The bound that a certificate gives for tours, or the first reason against the instance or the
/// certificate.
///
/// # Errors
///
/// Out of memory, as in [`judge_bound`].
fn tours_bound(
    alloc: Global,
    by: CertificateKind,
    instance: &Instance,
    certificate: &File,
) -> Result<BoundVerdict, Refused>
    requires { (instance.now.kind ≡ Some kinds.Tsp) ⊎ (instance.now.kind ≡ Some kinds.Atsp) }
    ensures { MatchResult result
        (λ found. IsBoundVerdict by instance.now certificate.now found)
        (λ refused. NoneAgainstInstance instance.now
        × NoneWithoutMemory by instance.now certificate.now) }
{
    match costs_of_tours(instance) {
        Ok(costs) => bound_by(alloc, by, instance, costs, certificate),
        Err(reason) => Ok(Err(reason)),
    }
}

/// The bound that a branches file gives for routes, or the first reason against the instance or the
/// file.
///
/// # Errors
///
/// Out of memory, as in [`judge_bound`].
fn routes_bound(
    alloc: Global,
    instance: &Instance,
    certificate: &File,
) -> Result<BoundVerdict, Refused>
    requires { instance.now.kind ≡ Some kinds.Cvrp }
    ensures { MatchResult result
        (λ found. IsBoundVerdict certificates.Branches instance.now certificate.now found)
        (λ refused. NoneAgainstInstance instance.now
        × NoneWithoutMemory certificates.Branches instance.now certificate.now) }
{
    match depot_of_routes(instance) {
        Ok(depot) => plan_tree_bound(alloc, instance, depot, certificate),
        Err(reason) => Ok(Err(reason)),
    }
}

/// The costs of an instance whose tours are judged.
///
/// # Errors
///
/// `TooFewNodes` or `NotSymmetric`, which apply to every tour.
pub(crate) fn costs_of_tours(instance: &Instance) -> Result<TourCosts<'_>, Reason>
    requires { (instance.now.kind ≡ Some kinds.Tsp) ⊎ (instance.now.kind ≡ Some kinds.Atsp) }
    ensures { MatchResult result
        (λ costs. (3 ≤ nodes_of instance.now) × AreTourCosts instance.now costs
        × NoneAgainstTouring instance.now)
        (λ reason. IsFirstReason (AppliesToTouring instance.now) reason) }
{
    if instance.count() < FEWEST_NODES_OF_TOURS {
        return Err(Reason::TooFewNodes);
    }
    match tour_costs(instance) {
        Ok(costs) => Ok(costs),
        Err((i, j)) => Err(Reason::NotSymmetric { i, j }),
    }
}
