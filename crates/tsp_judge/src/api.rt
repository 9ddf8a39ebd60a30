//! Calls for other Rattle programs, such as `run_check`. Each is a special case of a verb's run,
//! such as `check_solution` in `check_run.rt`, and returns its fault as a plain `RunFault`.

ghost use Rattle.tsp_judge.specs.Prelude.{None, Some, false, TakesAtMost, FailsByWrite, sink_of, read_trace_of, IsReadOn, most_taken};
ghost use Rattle.std.specs.Prelude.{◌≡◌};
ghost use Rattle.tsp_report.specs.declared.task.CertificateKind.TheVariants as certificates;
ghost use Rattle.tsp_judge.specs.CheckRun.{acceptance, IsCheck, IsCheckBy, IsRunOf};
ghost use Rattle.tsp_judge.specs.ConvertRun.{IsConvertRun, IsShowRun};

use crate::check_run::{Judged, check_solution, judge_read, read_file};
use crate::convert_run::{convert_file, show_file};
use crate::run_status::{RunError, RunFault};
use std::alloc::Global;
use tsp_format::Layout;
use tsp_io::{Gives, Output, Takes, Watched};
use tsp_verdict::CertificateKind;

/// Judges a solution of an instance, and writes the report.
///
/// Returns `true` if the solution is a tour of the instance, or, for a CVRP, a plan of routes, and
/// `false` if the report has the line `no` with the first reason. In both cases the whole report
/// was written. Each file is read completely before the next. The first one that isn't valid ends
/// the run. Nothing is written before the verdict exists.
///
/// # Errors
///
/// `File` if a file isn't valid or can't be read. `WrongKind` if both are valid, but the first
/// isn't an instance. `OutOfMemory` if memory runs out while the solution is judged; then no reason
/// up to `NodeOutOfRange`, in the order for the TYPE, applies to it. `Write` if the writer fails.
/// From each file, at most 4,096 bytes past `MOST_FILE_BYTES` are read.
pub fn run_check<I: Gives, S: Gives, W: Takes>(
    alloc: Global,
    inst: &mut Watched<I>,
    sol: &mut Watched<S>,
    out: &mut Output<W>,
) -> Result<bool, RunFault>
    ensures answer { TakesAtMost most_taken (read_trace_of I.remaining inst.old inst.new) (λ first.
        TakesAtMost most_taken (read_trace_of S.remaining sol.old sol.new) (λ second.
        IsCheck first second (sink_of W.contents out.old out.new) result)) }
    ensures asked { IsReadOn I.gives inst.old inst.new × IsReadOn S.gives sol.old sol.new }
    ensures cause { FailsByWrite W.takes out.new }
{
    let mut none: Option<(CertificateKind, Watched<&[u8]>)> = None;
    acceptance(check_solution(alloc, inst, sol, &mut none, None, false, out))
}

/// Judges a tour for a TSP or an ATSP with a potentials file, and writes the report.
///
/// Returns `true` if the second file's only tour visits every node once and uses every fixed edge,
/// and the third file's potentials give a bound. Returns `false` if the report has the line `no`
/// with the first reason. In both cases the whole report was written. At `Ok(true)`, no tour of the
/// instance is shorter than the printed bound, so a tour of this length, which the report calls
/// optimal, is a shortest one. For a TSP, the bound is that of a minimum 1-tree under node
/// potentials (Held and Karp, 1970); for an ATSP, that of duals of the assignment problem.
///
/// Each file is read completely before the next. The first one that isn't valid ends the run.
/// Nothing is written before the verdict exists.
///
/// # Errors
///
/// `File` if a file isn't valid or can't be read. `WrongKind` if all three are valid, but the first
/// is neither a TSP nor an ATSP. `OutOfMemory` if memory runs out while the files are judged; then
/// no reason up to `NodeOutOfRange` applies to the tour. `Write` if the writer fails. From each
/// file, at most 4,096 bytes past `MOST_FILE_BYTES` are read.
pub fn run_bound_check<I: Gives, S: Gives, P: Gives, W: Takes>(
    alloc: Global,
    inst: &mut Watched<I>,
    sol: &mut Watched<S>,
    pot: &mut Watched<P>,
    out: &mut Output<W>,
) -> Result<bool, RunFault>
    ensures answer { TakesAtMost most_taken (read_trace_of I.remaining inst.old inst.new) (λ first.
        TakesAtMost most_taken (read_trace_of S.remaining sol.old sol.new) (λ second.
        TakesAtMost most_taken (read_trace_of P.remaining pot.old pot.new) (λ third.
        IsCheckBy certificates.Potentials first second third (sink_of W.contents out.old out.new) result))) }
    ensures asked { IsReadOn I.gives inst.old inst.new × IsReadOn S.gives sol.old sol.new
        × IsReadOn P.gives pot.old pot.new }
    ensures cause { FailsByWrite W.takes out.new }
{
    let by = CertificateKind::Potentials;
    acceptance(run_by(alloc, inst, sol, by, pot, out))
}

/// Judges a tour for a TSP or an ATSP with a branches file, and writes the report.
///
/// Returns `true` if the second file's only tour visits every node once and uses every fixed edge,
/// and the third file's leaves give a bound. Returns `false` if the report has the line `no` with
/// the first reason. In both cases the whole report was written. At `Ok(true)`, no tour of the
/// instance is shorter than the printed bound, so a tour of this length, which the report calls
/// optimal, is a shortest one. The bound is the smallest one of a leaf. A leaf's bound holds for
/// the tours that keep the decisions above it: for a TSP it is that of a minimum 1-tree, for an
/// ATSP that of the least arc from each node, under the leaf's potentials and its multipliers of
/// families such as combs (Grötschel and Padberg, 1979).
///
/// Each file is read completely before the next. The first one that isn't valid ends the run.
/// Nothing is written before the verdict exists.
///
/// # Errors
///
/// `File` if a file isn't valid or can't be read. `WrongKind` if all three are valid, but the first
/// is neither a TSP nor an ATSP. `OutOfMemory` if memory runs out while the files are judged; then
/// no reason up to `NodeOutOfRange` applies to the tour. `Write` if the writer fails. From each
/// file, at most 4,096 bytes past `MOST_FILE_BYTES` are read.
pub fn run_branch_check<I: Gives, S: Gives, B: Gives, W: Takes>(
    alloc: Global,
    inst: &mut Watched<I>,
    sol: &mut Watched<S>,
    tree: &mut Watched<B>,
    out: &mut Output<W>,
) -> Result<bool, RunFault>
    ensures answer { TakesAtMost most_taken (read_trace_of I.remaining inst.old inst.new) (λ first.
        TakesAtMost most_taken (read_trace_of S.remaining sol.old sol.new) (λ second.
        TakesAtMost most_taken (read_trace_of B.remaining tree.old tree.new) (λ third.
        IsCheckBy certificates.Branches first second third (sink_of W.contents out.old out.new) result))) }
    ensures asked { IsReadOn I.gives inst.old inst.new × IsReadOn S.gives sol.old sol.new
        × IsReadOn B.gives tree.old tree.new }
    ensures cause { FailsByWrite W.takes out.new }
{
    let by = CertificateKind::Branches;
    acceptance(run_by(alloc, inst, sol, by, tree, out))
}

/// Writes what a file contains: its name, its TYPE, its number of nodes, and its unknown keywords.
/// For an instance, also the weight type, the length of the tour 1, 2, .., n and the number of
/// fixed pairs; for tours, how many nodes each has; for potentials, their scale; for branches, the
/// scale and how many families and leaves there are.
///
/// The file is read completely before anything is written, and writing takes no memory.
///
/// # Errors
///
/// `File` if the file isn't valid or can't be read; then nothing is written. `Write` if the writer
/// fails. At most 4,096 bytes past `MOST_FILE_BYTES` are read.
pub fn run_show<R: Gives, W: Takes>(
    alloc: Global,
    r: &mut Watched<R>,
    out: &mut Output<W>,
) -> Result<(), RunFault>
    ensures answer { TakesAtMost most_taken (read_trace_of R.remaining r.old r.new) (λ read_trace.
        IsShowRun read_trace (sink_of W.contents out.old out.new) result) }
    ensures asked { IsReadOn R.gives r.old r.new }
    ensures cause { FailsByWrite W.takes out.new }
{
    Ok(show_file(alloc, r, out)?)
}

/// Writes the canonical text of a file, with its weights in the layout `to` if one is given.
///
/// The file is read completely, and its weights are put into the layout, before anything is
/// written. The text is never in memory as a whole.
///
/// # Errors
///
/// `File` if the file isn't valid or can't be read, and `Relayout` if the weights can't go into the
/// layout or there is no memory for that; in both cases nothing is written. `Write` if the writer
/// fails. `OutOfMemory` is never returned. At most 4,096 bytes past `MOST_FILE_BYTES` are read.
pub fn run_convert<R: Gives, W: Takes>(
    alloc: Global,
    r: &mut Watched<R>,
    to: Option<Layout>,
    out: &mut Output<W>,
) -> Result<(), RunFault>
    ensures answer { TakesAtMost most_taken (read_trace_of R.remaining r.old r.new) (λ read_trace.
        IsConvertRun to read_trace (sink_of W.contents out.old out.new) result) }
    ensures asked { IsReadOn R.gives r.old r.new }
    ensures cause { FailsByWrite W.takes out.new }
{
    Ok(convert_file(alloc, r, to, out)?)
}

/// Whether the solution is accepted, if there is a verdict.
fn acceptance(ended: Result<Judged, RunError>) -> Result<bool, RunFault>
    ensures { result ≡ acceptance ended }
{
    let judged = ended?;
    let answer = judged.verdict.is_yes();
    drop(judged);
    Ok(answer)
}

/// Does what `check_solution` does, for a borrowed reader of the certificate, and without a claimed
/// length.
///
/// # Errors
///
/// Those of `check_solution`.
fn run_by<I: Gives, S: Gives, C: Gives, W: Takes>(
    alloc: Global,
    inst: &mut Watched<I>,
    sol: &mut Watched<S>,
    by: CertificateKind,
    cert: &mut Watched<C>,
    out: &mut Output<W>,
) -> Result<Judged, RunError>
    ensures answer { TakesAtMost most_taken (read_trace_of I.remaining inst.old inst.new) (λ first.
        TakesAtMost most_taken (read_trace_of S.remaining sol.old sol.new) (λ second.
        TakesAtMost most_taken (read_trace_of C.remaining cert.old cert.new) (λ third.
        IsRunOf (Some (by, third)) None false first second (sink_of W.contents out.old out.new) result))) }
    ensures asked { IsReadOn I.gives inst.old inst.new × IsReadOn S.gives sol.old sol.new
        × IsReadOn C.gives cert.old cert.new }
    ensures cause { FailsByWrite W.takes out.new }
{
    let instance = read_file(alloc, 1, inst)?;
    let solution = read_file(alloc, 2, sol)?;
    let certificate = Some((by, read_file(alloc, 3, cert)?));
    judge_read(alloc, instance, solution, certificate, None, false, out)
}
