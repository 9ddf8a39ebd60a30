//! Calls for other Rattle programs, such as example_check: verdicts on tours and routes. Each is a
//! special case of `judge` in `solution_verdict.rt`, and returns std's `AllocError` if memory runs
//! out. tsp_judge re-exports them.

ghost use Rattle.std.specs.Prelude.{◌≡◌, ◌⊎◌, Some, MatchResult};
ghost use Rattle.tsp_format.specs.declared.kinds.Kind.TheVariants as kinds;
ghost use Rattle.tsp_report.specs.declared.task.CertificateKind.TheVariants as certificates;
ghost use Rattle.tsp_verdict.specs.Certified.{IsCertifiedVerdict};
ghost use Rattle.tsp_verdict.specs.SolutionReasons.{IsRoutesVerdict, NoneOfRoutesBeforeRepeats, IsTourVerdict, NoneOfTourBeforeRepeats};

use crate::solution_verdict::judge;
use std::alloc::{AllocError, Global};
use tsp_cost::Instance;
use tsp_file::File;
use tsp_report::{CertificateKind, Verdict};

/// The verdict on a solution of a TSP or an ATSP: accepted with its length if it is one tour of the
/// instance, otherwise rejected with the first reason.
///
/// A tour visits each node of the instance once and uses every fixed pair (TSPLIB 95): as
/// neighbours in either direction or, for an ATSP, from the pair's first to its second node. The
/// reasons are judged in the order of [`Reason`], up to `FixedEdgeUnused`. The bound is `None`.
///
/// # Requires
///
/// An instance of TYPE TSP or ATSP.
///
/// # Errors
///
/// Out of memory. It allocates a mark and a number for each node, after the reasons up to
/// `NodeOutOfRange`, none of which applies then.
pub fn judge_tour(alloc: Global, inst: &Instance, sol: &File) -> Result<Verdict, AllocError>
    requires { (inst.now.kind ≡ Some kinds.Tsp) ⊎ (inst.now.kind ≡ Some kinds.Atsp) }
    ensures { MatchResult result
        (λ verdict. IsTourVerdict inst.now sol.now verdict)
        (λ refused. NoneOfTourBeforeRepeats inst.now sol.now) }
{
    Ok(judge(alloc, inst, sol, None, None)?)
}

/// The verdict on a solution of a CVRP: accepted with its length and its number of routes if it is
/// a plan, otherwise rejected with the first reason.
///
/// A plan's routes contain each node other than the depot exactly once and nothing else, and no
/// route's demands exceed the capacity (TSPLIB 95). Each route goes from the depot through its
/// nodes and back. `least` is the least L with `L * capacity` at least the sum of all demands, so
/// no plan has fewer routes. The reasons are judged in the order of [`Reason`].
///
/// For routes with a branches file, call [`crate::judge`].
///
/// # Requires
///
/// An instance of TYPE CVRP.
///
/// # Errors
///
/// Out of memory. It allocates a mark for each node, after the reasons up to `NodeOutOfRange` in
/// that order, none of which applies then.
pub fn judge_routes(alloc: Global, inst: &Instance, sol: &File) -> Result<Verdict, AllocError>
    requires { inst.now.kind ≡ Some kinds.Cvrp }
    ensures { MatchResult result
        (λ verdict. IsRoutesVerdict inst.now sol.now verdict)
        (λ refused. NoneOfRoutesBeforeRepeats inst.now sol.now) }
{
    Ok(judge(alloc, inst, sol, None, None)?)
}

/// The verdict on a solution of a TSP or an ATSP with a potentials file: accepted with the tour's
/// length and a bound, or rejected with the first reason against either. No tour of the instance is
/// shorter than the bound.
///
/// The reasons of [`judge_tour`] come first, then those against the certificate. For a TSP, the
/// bound is that of a minimum 1-tree under the potentials (Held and Karp, 1970) and the multipliers
/// of fixed pairs; for an ATSP, that of duals of the assignment problem.
///
/// # Requires
///
/// An instance of TYPE TSP or ATSP.
///
/// # Errors
///
/// Out of memory. Then no reason up to `NodeOutOfRange` applies.
pub fn judge_tour_bound(
    alloc: Global,
    inst: &Instance,
    sol: &File,
    pot: &File,
) -> Result<Verdict, AllocError>
    requires { (inst.now.kind ≡ Some kinds.Tsp) ⊎ (inst.now.kind ≡ Some kinds.Atsp) }
    ensures { MatchResult result
        (λ verdict. IsCertifiedVerdict certificates.Potentials inst.now sol.now pot.now verdict)
        (λ refused. NoneOfTourBeforeRepeats inst.now sol.now) }
{
    let by = Some((CertificateKind::Potentials, pot));
    Ok(judge(alloc, inst, sol, by, None)?)
}

/// The verdict on a solution of a TSP or an ATSP with a branches file, like that of
/// [`judge_tour_bound`].
///
/// The reasons against the certificate are those from `NotBranches` to `BadLeaf`. The bound is the
/// smallest one of a leaf. For a TSP, a leaf's bound is that of a minimum 1-tree under its
/// potentials, its multipliers of families of sets, and the decisions above it. For an ATSP, it is
/// that of the least arc from each node, and a leaf whose decisions leave some node without an arc
/// has no bound. The fixed pairs are taken in all cases. For a CVRP, call [`crate::judge`].
///
/// # Requires
///
/// An instance of TYPE TSP or ATSP.
///
/// # Errors
///
/// Out of memory. Then no reason up to `NodeOutOfRange` applies.
pub fn judge_tour_branches(
    alloc: Global,
    instance: &Instance,
    solution: &File,
    branches: &File,
) -> Result<Verdict, AllocError>
    requires { (instance.now.kind ≡ Some kinds.Tsp) ⊎ (instance.now.kind ≡ Some kinds.Atsp) }
    ensures { MatchResult result
        (λ verdict. IsCertifiedVerdict certificates.Branches instance.now solution.now
        branches.now verdict) (λ refused. NoneOfTourBeforeRepeats instance.now solution.now) }
{
    let by = Some((CertificateKind::Branches, branches));
    Ok(judge(alloc, instance, solution, by, None)?)
}
