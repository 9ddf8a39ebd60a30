//! The bound that a potentials file gives for tours, or the first reason against the file.
//! `certificate.rt` calls it. The order of the tests decides the reason, so keep it
//! (`specs/Certificates.antt`).

ghost use Rattle.tsp_verdict.specs.Prelude.{All, AllPairs, false, true, length, Some, IfOk, IsErr, MatchOption, MatchResult, ℕ, List, most_triples, IsNode, cost, fixed_of, multipliers_in, HoldsNodeNumbers, HoldsDuals, nodes_of, is_potentials_file, AreOnPairs, pair_of, is_same_pair, IsSymmetric};
ghost use Rattle.std.specs.Prelude.{◌≡◌, ◌≤◌, ◌^◌, ◌<◌};
ghost use Rattle.tsp_format.specs.declared.kinds.Kind.TheVariants as kinds;
ghost use Rattle.tsp_cost.specs.states.Views.{HasCosts, IsViewOf, ShowsSymmetric};
ghost use Rattle.tsp_bound.specs.states.Duals.{dual_scale as scale_of_duals, rows_of, columns_of};
ghost use Rattle.tsp_bound.specs.states.Potentials.{triples_of, scale_of, numbers_of};
ghost use Rattle.tsp_verdict.specs.Certified.{IsCertified, FindsBound, NoneWithoutMemory};
ghost use Rattle.tsp_verdict.specs.Certificates.{AreListed, IsUnlisted, IsPairRepeated, has_wanted, BreaksDuals, AppliesToPotentials};
ghost use Rattle.tsp_theory.specs.First.{IsFirstPlace};
ghost use Rattle.tsp_verdict.specs.SolutionReasons.{IsFirstReason};
ghost use Rattle.tsp_verdict.specs.states.PairSets.{HasPairs};
ghost use Rattle.tsp_report.specs.declared.task.CertificateKind.TheVariants as certificates;

use crate::certificate::key_of;
use std::alloc::Global;
use std::collections::BTreeSet;
use tsp_bound::{Duals, Infeasible, Multipliers, Potentials, dual_bound, least_one_tree};
use tsp_cost::{Costs, Instance, Symmetric, SymmetricView, View};
use tsp_file::File;
use tsp_format::Kind;
use tsp_io::{Refused, insert};
use tsp_report::{BoundVerdict, Reason};
use tsp_theory::{adjusted_bounds_bound_cycles, duals_bound_cycles};

/// A certificate's potentials of nodes, and its multipliers of fixed pairs.
#[derive(Clone, Copy)]
struct NodeNumbers<'a> {
    potentials: Potentials<'a>,
    multipliers: Multipliers<'a>,
    /// The multipliers, each with the two nodes of its pair.
    triples: &'a [(u32, u32, i64)],
}

/// The bound that potentials of nodes give for a TSP, or the first reason against them.
///
/// # Errors
///
/// Out of memory. Then no reason up to `PotentialsKind` applies to the certificate.
pub(crate) fn bound_by_nodes(
    alloc: Global,
    inst: &Instance,
    view: SymmetricView<'_>,
    pot: &File,
) -> Result<BoundVerdict, Refused>
    requires kind { inst.now.kind ≡ Some kinds.Tsp }
    requires some { 3 ≤ nodes_of inst.now }
    requires shows { ShowsSymmetric inst.now view }
    requires even { IsSymmetric (cost inst.now) }
    ensures found { IfOk result
        (λ found. FindsBound certificates.Potentials inst.now pot.now found) }
    ensures refused { IsErr result → NoneWithoutMemory certificates.Potentials inst.now pot.now }
{
    if let Some(reason) = first_against_file(inst, pot) {
        return Ok(Err(reason));
    }
    let Some(numbers) = node_numbers(pot) else {
        return Ok(Err(Reason::PotentialsKind));
    };
    if let Some(reason) = first_against_multipliers(alloc, inst, pot, numbers.triples)? {
        return Ok(Err(reason));
    }
    let bound = bound_of_potentials(alloc, inst, view, pot, &numbers)?;
    Ok(Ok(Some(bound)))
}

/// The bound that potentials of rows and columns give for an ATSP, or the first reason against the
/// certificate.
pub(crate) fn bound_by_duals(inst: &Instance, view: View<'_>, pot: &File) -> BoundVerdict
    requires kind { inst.now.kind ≡ Some kinds.Atsp }
    requires some { 3 ≤ nodes_of inst.now }
    requires shows { IsViewOf inst.now view }
    ensures { FindsBound certificates.Potentials inst.now pot.now result }
{
    if let Some(reason) = first_against_file(inst, pot) {
        return Err(reason);
    }
    let Some(duals) = duals_of(pot) else {
        return Err(Reason::PotentialsKind);
    };
    match bound_of_duals(inst, view, pot, &duals) {
        Ok(bound) => Ok(Some(bound)),
        Err(pair) => Err(Reason::DualInfeasible {
            i: pair.i,
            j: pair.j,
        }),
    }
}

/// The first reason against a certificate that shows before its potentials are read.
fn first_against_file(inst: &Instance, pot: &File) -> Option<Reason>
    ensures { MatchOption result
        ((is_potentials_file pot.now.kind ≡ true) × (pot.now.kind ≡ Some kinds.Potentials)
        × (nodes_of pot.now ≡ nodes_of inst.now))
        (λ reason. IsFirstReason (AppliesToPotentials inst.now pot.now) reason) }
{
    if pot.kind() != Kind::Potentials {
        return Some(Reason::NotPotentials);
    }
    if pot.dimension() != Some(inst.count()) {
        return Some(Reason::PotentialsDimension);
    }
    None
}

/// The duals in a certificate, if there are any.
fn duals_of(pot: &File) -> Option<Duals<'_>>
    requires { pot.now.kind ≡ Some kinds.Potentials }
    ensures { MatchOption result
        (has_wanted (Some kinds.Atsp) pot.now ≡ false)
        (λ duals. (has_wanted (Some kinds.Atsp) pot.now ≡ true)
        × HoldsDuals pot.now (scale_of_duals duals) (rows_of duals) (columns_of duals)) }
{
    let held = pot.as_duals()?;
    Duals::new(held.scale, held.rows, held.columns)
}

/// The potentials of nodes in a certificate, if there are any.
fn node_numbers(pot: &File) -> Option<NodeNumbers<'_>>
    requires { pot.now.kind ≡ Some kinds.Potentials }
    ensures { MatchOption result
        (has_wanted (Some kinds.Tsp) pot.now ≡ false)
        (λ numbers. (has_wanted (Some kinds.Tsp) pot.now ≡ true)
        × HoldsNodeNumbers pot.now (scale_of numbers.potentials) (numbers_of numbers.potentials)
        numbers.triples.now × (triples_of numbers.multipliers ≡ numbers.triples.now)) }
{
    let held = pot.as_node_potentials()?;
    Some(NodeNumbers {
        potentials: Potentials::new(held.scale, held.numbers)?,
        multipliers: Multipliers::new(held.multipliers)?,
        triples: held.multipliers,
    })
}

/// The first reason against the multipliers of a certificate for a TSP. If none applies, they are
/// on different pairs, each of which is fixed.
///
/// # Errors
///
/// Out of memory for the fixed pairs and for those of the multipliers; none is taken if there
/// are no multipliers.
fn first_against_multipliers(
    alloc: Global,
    inst: &Instance,
    pot: &File,
    triples: &[(u32, u32, i64)],
) -> Result<Option<Reason>, Refused>
    requires kind { inst.now.kind ≡ Some kinds.Tsp }
    requires sort { is_potentials_file pot.now.kind ≡ true }
    requires count { nodes_of pot.now ≡ nodes_of inst.now }
    requires wanted { has_wanted (Some kinds.Tsp) pot.now ≡ true }
    requires value { triples.now ≡ multipliers_in pot.now }
    requires few { length triples.now ≤ most_triples }
    requires nodes { All (λ triple. IsNode (nodes_of pot.now) triple.0
        × IsNode (nodes_of pot.now) triple.1) triples.now }
    ensures { IfOk result (λ found. MatchOption found
        (AreOnPairs (nodes_of inst.now) (multipliers_in pot.now)
        × AreListed (fixed_of inst.now) (multipliers_in pot.now))
        (λ reason. IsFirstReason (AppliesToPotentials inst.now pot.now) reason)) }
{
    if triples.is_empty() {
        return Ok(None);
    }
    if let Some(index) = first_unlisted(alloc, inst.fixed(), triples)? {
        return Ok(Some(Reason::MultiplierNotFixed { index }));
    }
    if let Some(index) = first_repeated_pair(alloc, triples)? {
        return Ok(Some(Reason::MultiplierRepeated { index }));
    }
    Ok(None)
}

/// The bound that the duals of a certificate give for an ATSP, or the first pair whose cost is too
/// low for them.
fn bound_of_duals(
    inst: &Instance,
    view: View<'_>,
    pot: &File,
    duals: &Duals<'_>,
) -> Result<i128, Infeasible>
    requires kind { inst.now.kind ≡ Some kinds.Atsp }
    requires some { 3 ≤ nodes_of inst.now }
    requires shows { IsViewOf inst.now view }
    requires count { nodes_of pot.now ≡ nodes_of inst.now }
    requires held { HoldsDuals pot.now
        (scale_of_duals duals.now) (rows_of duals.now) (columns_of duals.now) }
    ensures { MatchResult result
        (λ bound. IsCertified certificates.Potentials inst.now pot.now bound)
        (λ pair. BreaksDuals inst.now pot.now pair.i pair.j) }
{
    // Each view is its own type, so that no lookup of a cost has to find out where the costs are.
    match view {
        View::Plane(points) => assignment_bound(inst, &points, pot, duals),
        View::Space(points) => assignment_bound(inst, &points, pot, duals),
        View::Triangle(triangle) => assignment_bound(inst, &triangle, pot, duals),
        View::Matrix(matrix) => assignment_bound(inst, &matrix, pot, duals),
    }
}

/// The bound that duals give over these costs, or the first pair whose cost is too low for them.
fn assignment_bound<C: Costs>(
    inst: &Instance,
    c: &C,
    pot: &File,
    duals: &Duals<'_>,
) -> Result<i128, Infeasible>
    requires keeps { HasCosts inst.now (C.nodes c.now) (C.at c.now) }
    requires kind { inst.now.kind ≡ Some kinds.Atsp }
    requires some { 3 ≤ nodes_of inst.now }
    requires count { nodes_of pot.now ≡ nodes_of inst.now }
    requires held { HoldsDuals pot.now
        (scale_of_duals duals.now) (rows_of duals.now) (columns_of duals.now) }
    ensures { MatchResult result
        (λ bound. IsCertified certificates.Potentials inst.now pot.now bound)
        (λ pair. BreaksDuals inst.now pot.now pair.i pair.j) }
{
    duals_bound_cycles();
    match dual_bound(c, duals) {
        Ok(bound) => Ok(bound),
        Err(pair) => Err(pair),
    }
}

/// The bound that the potentials of a certificate give for a TSP.
fn bound_of_potentials(
    alloc: Global,
    inst: &Instance,
    view: SymmetricView<'_>,
    pot: &File,
    numbers: &NodeNumbers<'_>,
) -> Result<i128, Refused>
    requires kind { inst.now.kind ≡ Some kinds.Tsp }
    requires some { 3 ≤ nodes_of inst.now }
    requires shows { ShowsSymmetric inst.now view }
    requires count { nodes_of pot.now ≡ nodes_of inst.now }
    requires held { HoldsNodeNumbers pot.now (scale_of numbers.now.potentials)
        (numbers_of numbers.now.potentials) (triples_of numbers.now.multipliers) }
    requires even { IsSymmetric (cost inst.now) }
    requires on_pairs { AreOnPairs (nodes_of inst.now) (multipliers_in pot.now) }
    requires listed { AreListed (fixed_of inst.now) (multipliers_in pot.now) }
    ensures { IfOk result (λ bound. IsCertified certificates.Potentials inst.now pot.now bound) }
{
    match view {
        SymmetricView::Plane(points) => match points.euclidean() {
            Some(euclidean) => tree_bound(alloc, inst, &euclidean, pot, numbers),
            None => tree_bound(alloc, inst, &points, pot, numbers),
        },
        SymmetricView::Space(points) => tree_bound(alloc, inst, &points, pot, numbers),
        SymmetricView::Triangle(triangle) => tree_bound(alloc, inst, &triangle, pot, numbers),
        SymmetricView::Matrix(matrix) => tree_bound(alloc, inst, &matrix, pot, numbers),
    }
}

/// The bound that potentials of nodes and multipliers give over these costs.
fn tree_bound<C: Symmetric>(
    alloc: Global,
    inst: &Instance,
    c: &C,
    pot: &File,
    numbers: &NodeNumbers<'_>,
) -> Result<i128, Refused>
    requires keeps { HasCosts inst.now (C.nodes c.now) (C.at c.now) }
    requires kind { inst.now.kind ≡ Some kinds.Tsp }
    requires some { 3 ≤ nodes_of inst.now }
    requires count { nodes_of pot.now ≡ nodes_of inst.now }
    requires held { HoldsNodeNumbers pot.now (scale_of numbers.now.potentials)
        (numbers_of numbers.now.potentials) (triples_of numbers.now.multipliers) }
    requires even { IsSymmetric (cost inst.now) }
    requires on_pairs { AreOnPairs (nodes_of inst.now) (multipliers_in pot.now) }
    requires listed { AreListed (fixed_of inst.now) (multipliers_in pot.now) }
    ensures { IfOk result (λ bound. IsCertified certificates.Potentials inst.now pot.now bound) }
{
    adjusted_bounds_bound_cycles();
    match least_one_tree(alloc, c, &numbers.potentials, &numbers.multipliers) {
        Ok(found) => Ok(found.bound),
        Err(refused) => Err(refused),
    }
}

// ---- the first multiplier on a pair that isn't fixed, or on the pair of an earlier one

/// The first triple, counted from 1, whose pair isn't among the fixed ones, in either direction.
///
/// # Errors
///
/// Out of memory for the fixed pairs.
fn first_unlisted(
    alloc: Global,
    fixed: &[(u32, u32)],
    triples: &[(u32, u32, i64)],
) -> Result<Option<u32>, Refused>
    requires { length triples.now < 2 ^ 32 }
    ensures { IfOk result (λ found. MatchOption found
        (AreListed fixed.now triples.now)
        (λ index. IsFirstPlace (IsUnlisted fixed.now triples.now) triples.now index)) }
{
    let listed = set_of(alloc, fixed)?;
    Ok(first_outside(&listed, triples))
}

/// The first triple, counted from 1, with the same pair as an earlier one, in either direction.
///
/// # Errors
///
/// Out of memory for the pairs.
fn first_repeated_pair(alloc: Global, triples: &[(u32, u32, i64)]) -> Result<Option<u32>, Refused>
    requires { length triples.now < 2 ^ 32 }
    ensures { IfOk result (λ found. MatchOption found
        (AllPairs (λ s t. is_same_pair (pair_of s) (pair_of t) ≡ false) triples.now)
        (λ index. IsFirstPlace (IsPairRepeated triples.now) triples.now index)) }
{
    let mut seen = BTreeSet::new(alloc);
    let mut index = 0;
    'triples: for triple in triples {
        index += 1;
        let is_new = insert(&mut seen, key_of(false, (triple.0, triple.1)))?;
        if !is_new {
            return Ok(Some(index));
        }
    }
    Ok(None)
}

/// The pairs, each with its smaller node first.
fn set_of(alloc: Global, pairs: &[(u32, u32)]) -> Result<BTreeSet<(u32, u32)>, Refused>
    ensures { IfOk result (λ set. HasPairs (λ pair. pair) set pairs.now) }
{
    let mut set = BTreeSet::new(alloc);
    'pairs: for pair in pairs {
        insert(&mut set, key_of(false, *pair))?;
    }
    Ok(set)
}

/// The first triple, counted from 1, whose pair isn't in a set.
fn first_outside(set: &BTreeSet<(u32, u32)>, triples: &[(u32, u32, i64)]) -> Option<u32>
    requires { length triples.now < 2 ^ 32 }
    ensures { (pairs : List (ℕ × ℕ)) → HasPairs (λ pair. pair) set.now pairs → MatchOption result
        (AreListed pairs triples.now)
        (λ index. IsFirstPlace (IsUnlisted pairs triples.now) triples.now index) }
{
    let mut index = 0;
    'triples: for triple in triples {
        index += 1;
        let pair = key_of(false, (triple.0, triple.1));
        if !set.contains(&pair) {
            return Some(index);
        }
    }
    None
}
