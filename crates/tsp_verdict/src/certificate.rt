//! The bound that a certificate gives for tours, and which TYPEs it can bound (`is_bounded`, which
//! tsp_judge calls). Judges branches files for tours here, and sends potentials to
//! `potentials_certificate.rt`; `routes.rt` judges branches files for routes. `solution_verdict.rt`
//! and `known_bound.rt` call `bound_by`. `IsBoundBy` in `specs/Certified.antt` pins the bound.

ghost use Rattle.tsp_verdict.specs.Prelude.{All, Some, IfOk, IsOk, IsErr, true, length, map, MatchResult, nodes_of, is_branches_file, HoldsCases, HoldsMemory, take_pairs};
ghost use Rattle.std.specs.Prelude.{◌≡◌, ◌⊎◌, ◌≤◌};
ghost use Rattle.tsp_format.specs.declared.kinds.Kind.TheVariants as kinds;
ghost use Rattle.tsp_format.specs.states.TreeSteps.{steps_of, subset_rows_of};
ghost use Rattle.tsp_cases.specs.Crossings.{families_in};
ghost use Rattle.tsp_file.specs.states.Drafts.{families_of};
ghost use Rattle.tsp_cost.specs.states.Views.{HasCosts};
ghost use Rattle.tsp_verdict.specs.Certificates.{each_once};
ghost use Rattle.tsp_verdict.specs.Certified.{is_bounded, FindsBound, NoneWithoutMemory, AppliesToCertificate};
ghost use Rattle.tsp_verdict.specs.SolutionReasons.{IsFirstReason};
ghost use Rattle.tsp_verdict.specs.states.MemoryReasons.{IsMemoryReason, IsBadFamilyIfAny, family_or};
ghost use Rattle.tsp_verdict.specs.states.PairSets.{key_of};
ghost use Rattle.tsp_verdict.specs.states.TourKnownBounds.{AreTourCosts, IsSymmetricTsp};
ghost use Rattle.tsp_verdict.specs.states.TreeFound.{IsNumbered, found_by_tree};
ghost use Rattle.tsp_report.specs.declared.task.CertificateKind.TheVariants as certificates;

use crate::potentials_certificate::{bound_by_duals, bound_by_nodes};
use crate::tour::{TourCosts, is_directed};
use std::alloc::Global;
use std::collections::BTreeSet;
use tsp_branch::judge_branches;
use tsp_cases::{
    BranchingCertificate, Decision, JudgedFamilies, TreeVerdict, case_trees_bound_cycles,
    judge_families, numbers_are_unique,
};
use tsp_cost::{Costs, Instance, View};
use tsp_file::{File, TreeData};
use tsp_format::{Kind, RowSets};
use tsp_io::{Refused, insert, push};
use tsp_report::{BoundVerdict, CertificateKind, Reason};

/// Whether a certificate can bound the solutions of instances of this TYPE.
pub fn is_bounded(by: CertificateKind, kind: Kind) -> bool
    ensures { result ≡ is_bounded by (Some kind) }
{
    match (by, kind) {
        (CertificateKind::Potentials | CertificateKind::Branches, Kind::Tsp | Kind::Atsp) => true,
        (CertificateKind::Branches, Kind::Cvrp) => true,
        (CertificateKind::Potentials, Kind::Cvrp) => false,
        (_, Kind::Tour | Kind::Potentials | Kind::Branches) => false,
    }
}

/// The bound that a certificate gives for tours, or that the instance has no tour, or the first
/// reason against the certificate.
///
/// Duals take no memory.
///
/// # Errors
///
/// Out of memory. Then no reason that is found without memory applies to the certificate.
pub(crate) fn bound_by(
    alloc: Global,
    by: CertificateKind,
    instance: &Instance,
    costs: TourCosts<'_>,
    certificate: &File,
) -> Result<BoundVerdict, Refused>
    requires some { 3 ≤ nodes_of instance.now }
    requires kind { (instance.now.kind ≡ Some kinds.Tsp) ⊎ (instance.now.kind ≡ Some kinds.Atsp) }
    requires costs { AreTourCosts instance.now costs }
    requires even { IsSymmetricTsp instance.now }
    ensures found { IfOk result (λ found. FindsBound by instance.now certificate.now found) }
    ensures refused { IsErr result → NoneWithoutMemory by instance.now certificate.now }
    ensures memory { by ≡ certificates.Potentials
        → instance.now.kind ≡ Some kinds.Atsp → IsOk result }
{
    match (by, costs) {
        (CertificateKind::Potentials, TourCosts::Undirected(view)) => {
            bound_by_nodes(alloc, instance, view, certificate)
        }
        (CertificateKind::Potentials, TourCosts::Directed(view)) => {
            Ok(bound_by_duals(instance, view, certificate))
        }
        (CertificateKind::Branches, _) => tour_tree_bound(alloc, instance, certificate),
    }
}

// ---- the bound that a tree of cases gives tours, or the first reason against it

/// The bound that a branches file gives for a TSP or an ATSP, or that the instance has no tour, or
/// the first reason against the file.
///
/// # Errors
///
/// Out of memory. Then neither `NotBranches` nor `BranchesDimension` applies to the certificate.
fn tour_tree_bound(
    alloc: Global,
    instance: &Instance,
    branches: &File,
) -> Result<BoundVerdict, Refused>
    requires kind { (instance.now.kind ≡ Some kinds.Tsp) ⊎ (instance.now.kind ≡ Some kinds.Atsp) }
    requires some { 3 ≤ nodes_of instance.now }
    requires even { IsSymmetricTsp instance.now }
    ensures found { IfOk result
        (λ found. FindsBound certificates.Branches instance.now branches.now found) }
    ensures refused { IsErr result
        → NoneWithoutMemory certificates.Branches instance.now branches.now }
{
    let tree = match tree_of(instance, branches) {
        Ok(tree) => tree,
        Err(reason) => return Ok(Err(reason)),
    };
    // Each view is its own type, so that no lookup of a cost has to find out where the costs are.
    match instance.view() {
        View::Plane(points) => match points.euclidean() {
            Some(euclidean) => judge_tour_tree(alloc, instance, branches, &tree, &euclidean),
            None => judge_tour_tree(alloc, instance, branches, &tree, &points),
        },
        View::Space(points) => judge_tour_tree(alloc, instance, branches, &tree, &points),
        View::Triangle(triangle) => judge_tour_tree(alloc, instance, branches, &tree, &triangle),
        View::Matrix(matrix) => judge_tour_tree(alloc, instance, branches, &tree, &matrix),
    }
}

/// The tree in a branches file.
///
/// # Errors
///
/// `NotBranches` or `BranchesDimension`, the reasons that come before the tree.
pub(crate) fn tree_of<'a>(instance: &Instance, branches: &'a File) -> Result<TreeData<'a>, Reason>
    ensures { MatchResult result (λ tree. (is_branches_file branches.now.kind ≡ true)
        × (nodes_of branches.now ≡ nodes_of instance.now)
        × HoldsCases branches.now tree.scale tree.load_unit (families_of tree.families.now)
        (steps_of tree.steps.now)
        × HoldsMemory branches.now (map (λ list. list.items) tree.memories.now) (subset_rows_of tree.subset_rows.now))
        (λ reason. IsFirstReason
        (AppliesToCertificate certificates.Branches instance.now branches.now) reason) }
{
    let Some(tree) = branches.as_tree() else {
        return Err(Reason::NotBranches);
    };
    if branches.dimension() != Some(instance.count()) {
        return Err(Reason::BranchesDimension);
    }
    Ok(tree)
}

/// The bound over these costs, or the first reason against the families, the branches or the
/// leaves.
///
/// # Errors
///
/// Out of memory.
fn judge_tour_tree<C: Costs>(
    alloc: Global,
    instance: &Instance,
    branches: &File,
    tree: &TreeData<'_>,
    costs: &C,
) -> Result<BoundVerdict, Refused>
    requires keeps { HasCosts instance.now (C.nodes costs.now) (C.at costs.now) }
    requires kind { (instance.now.kind ≡ Some kinds.Tsp) ⊎ (instance.now.kind ≡ Some kinds.Atsp) }
    requires some { 3 ≤ nodes_of instance.now }
    requires even { IsSymmetricTsp instance.now }
    requires sort { is_branches_file branches.now.kind ≡ true }
    requires count { nodes_of branches.now ≡ nodes_of instance.now }
    requires held { HoldsCases branches.now tree.now.scale tree.now.load_unit
        (families_of tree.now.families.now) (steps_of tree.now.steps.now) }
    requires memory { HoldsMemory branches.now (map (λ list. list.items) tree.now.memories.now)
        (subset_rows_of tree.now.subset_rows.now) }
    ensures { IfOk result
        (λ found. FindsBound certificates.Branches instance.now branches.now found) }
{
    case_trees_bound_cycles();
    numbers_are_unique();
    let directed = is_directed(instance.kind());
    let given = taken_once(alloc, directed, instance.fixed())?;
    let cases = &BranchingCertificate {
        costs,
        directed,
        scale: tree.scale,
        families: tree.families,
        given: &given,
        steps: tree.steps,
    };
    if let Some(reason) = memory_reason(tree.memories, tree.subset_rows) {
        let family = first_bad_family(alloc, cases)?;
        return Ok(Err(family_or(family, reason)));
    }
    let verdict = judge_branches(alloc, cases)?;
    Ok(found_by_tree(verdict))
}

/// What a certificate gives, by the verdict on its tree of cases. Tours and routes share this
/// table.
pub(crate) fn found_by_tree(verdict: TreeVerdict) -> BoundVerdict
    requires { IsNumbered verdict }
    ensures { result ≡ found_by_tree verdict }
{
    match verdict {
        TreeVerdict::Bound(bound) => Ok(bound),
        TreeVerdict::BadFamily(index) => Err(Reason::BadFamily {
            index: index as u32,
        }),
        TreeVerdict::BadMemory(node) => Err(Reason::BadMemory { node }),
        TreeVerdict::BadRow(index) => Err(Reason::BadRow {
            index: index as u32,
        }),
        TreeVerdict::BadBranch(index) => Err(Reason::BadBranch {
            index: index as u32,
        }),
        TreeVerdict::BranchTwice(index) => Err(Reason::BranchTwice {
            index: index as u32,
        }),
        TreeVerdict::BadLeaf(index) => Err(Reason::BadLeaf {
            index: index as u32,
        }),
        TreeVerdict::TooManyLoads => Err(Reason::TooManyLoads),
        TreeVerdict::TooManyStates(index) => Err(Reason::TooManyStates {
            index: index as u32,
        }),
    }
}

// ---- memories and subset rows, which are only for routes

/// The reason against a branches file for tours that lists memories or subset rows; `None` if it
/// lists neither.
fn memory_reason(memories: &[Vec<u32>], rows: &[RowSets]) -> Option<Reason>
    requires { All (λ list. 1 ≤ length list.items) memories.now }
    ensures { IsMemoryReason (map (λ list. list.items) memories.now) (subset_rows_of rows.now) result }
{
    if !memories.is_empty() {
        return Some(Reason::BadMemory {
            node: memories[0][0],
        });
    }
    if !rows.is_empty() {
        return Some(Reason::BadRow { index: 1 });
    }
    None
}

/// The first bad family of a branches file for tours, counted from 1.
///
/// # Errors
///
/// Out of memory.
fn first_bad_family<C: Costs>(
    alloc: Global,
    cases: &BranchingCertificate<C>,
) -> Result<Option<u32>, Refused>
    ensures { IfOk result (IsBadFamilyIfAny (C.nodes cases.now.costs.now) (families_in cases.now.families.now)) }
{
    match judge_families(alloc, cases)? {
        JudgedFamilies::Good(_) => Ok(None),
        JudgedFamilies::Bad(family) => Ok(Some(family as u32)),
    }
}

/// `BadFamily` if a family is bad, otherwise the other reason.
fn family_or(family: Option<u32>, reason: Reason) -> Reason
    ensures { result ≡ family_or family reason }
{
    match family {
        Some(index) => Reason::BadFamily { index },
        None => reason,
    }
}

// ---- the fixed pairs of an instance as decisions of all cases, each once

/// Decisions that take these pairs, each pair once. Without a direction, (i, j) and (j, i) are one
/// pair.
///
/// # Errors
///
/// Out of memory for the pairs.
fn taken_once(alloc: Global, directed: bool, pairs: &[(u32, u32)]) -> Result<Vec<Decision>, Refused>
    ensures { IfOk result (λ taken. taken.items ≡ take_pairs (each_once directed pairs.now)) }
{
    let mut seen = BTreeSet::new(alloc);
    let mut taken = Vec::new(alloc);
    'pairs: for pair in pairs {
        let is_new = insert(&mut seen, key_of(directed, *pair))?;
        if is_new {
            push(
                &mut taken,
                Decision {
                    pair: *pair,
                    taken: true,
                },
            )?;
        }
    }
    Ok(taken)
}

// ---- a pair of nodes as the key of a set of pairs

/// A pair as the key of a set: unchanged, or with its smaller node first if pairs have no
/// direction.
pub(crate) fn key_of(directed: bool, pair: (u32, u32)) -> (u32, u32)
    ensures { result ≡ key_of directed pair }
{
    if directed || pair.0 <= pair.1 {
        pair
    } else {
        (pair.1, pair.0)
    }
}
