//! `perform` runs a show, convert, check or bound task on open readers; `compare` runs a
//! comparison. tsp_tool runs every task by these two calls. A new verb is added here.

ghost use Rattle.tsp_judge.specs.Prelude.{FailsByWrite, length, sink_of};
ghost use Rattle.std.specs.Prelude.{◌≡◌};
ghost use Rattle.tsp_judge.specs.CompareRun.{IsFollowed};
ghost use Rattle.tsp_judge.specs.TaskRun.{AreComparedOn, AreReadOn, IsCompared, IsDone, is_yes_outcome, outcome_of_writing, outcome_of_check, outcome_of_bound};

use crate::bound_run::{Bounded, run_bound};
use crate::check_run::{Judged, check_solution};
use crate::compare_run::{Compared, Follow, Solutions, run_compare};
use crate::convert_run::{convert_file, show_file};
use crate::run_status::RunError;
use std::alloc::Global;
use tsp_io::{Gives, Output, Takes, Watched};
use tsp_report::{Comparison, FileTask};

/// The result of a task: a verdict, a bound, or that a file was shown or converted.
#[derive(Drop)]
pub enum Outcome {
    /// A file was shown or converted.
    Done,
    /// A solution was judged.
    Judged(Judged),
    /// A bound was found without a solution, or a reason against it.
    Bounded(Bounded),
}

/// Whether nothing is rejected.
pub fn is_yes_outcome(outcome: &Outcome) -> bool
    ensures { result ≡ is_yes_outcome outcome.now }
{
    match outcome {
        Outcome::Done => true,
        Outcome::Judged(judged) => judged.verdict.is_yes(),
        Outcome::Bounded(bounded) => bounded.found.is_ok(),
    }
}

/// Runs the verb of a task: reads its files, and writes the result.
///
/// The outcome contains the files that were judged.
///
/// # Errors
///
/// Those of the run: `show_file`, `convert_file`, `check_solution` or `run_bound`.
pub fn perform<R: Gives, W: Takes>(
    alloc: Global,
    task: &mut FileTask<Watched<R>>,
    out: &mut Output<W>,
) -> Result<Outcome, RunError>
    ensures done { IsDone R.remaining task.old task.new (sink_of W.contents out.old out.new) result }
    ensures asked { AreReadOn R.gives task.old task.new }
    ensures cause { FailsByWrite W.takes out.new }
{
    match task {
        FileTask::Show { file } => done(show_file(alloc, file, out)),
        FileTask::Convert { file, layout } => done(convert_file(alloc, file, *layout, out)),
        FileTask::Check {
            instance,
            solution,
            certificate,
            claimed,
            strict,
        } => {
            let claimed = *claimed;
            let ended = check_solution(
                alloc,
                instance,
                solution,
                certificate,
                claimed,
                *strict,
                out,
            );
            judged(ended)
        }
        FileTask::Bound {
            instance,
            certificate: (by, file),
            strict,
        } => bounded(run_bound(alloc, instance, *by, file, *strict, out)),
    }
}

/// Compares solutions by the instance and the certificate from these readers, and writes a line for
/// each. Each solution is opened just before it is read. The follower may write to `to`.
///
/// # Errors
///
/// Those of `run_compare`.
pub fn compare<R: Gives + Drop, E, S: Solutions<R> + Follow<E>, W: Takes>(
    alloc: Global,
    comparison: &mut Comparison<'_, Watched<R>>,
    solutions: &S,
    out: &mut Output<W>,
    to: &mut E,
) -> Result<Compared, RunError>
    ensures text { IsCompared R.remaining R.gives (S.opens solutions.now) (S.names solutions.now)
        comparison.old comparison.new (sink_of W.contents out.old out.new) result }
    ensures asked { AreComparedOn R.gives comparison.old comparison.new }
    ensures reported { IsFollowed (S.tells solutions.now) (length (S.names solutions.now)) to.old to.new result }
    ensures cause { FailsByWrite W.takes out.new }
{
    let Comparison {
        instance,
        certificate,
        solutions: _,
        strict,
    } = comparison;
    run_compare(alloc, instance, certificate, solutions, *strict, out, to)
}

/// A file was shown or converted.
fn done(ended: Result<(), RunError>) -> Result<Outcome, RunError>
    ensures { result ≡ outcome_of_writing ended }
{
    ended?;
    Ok(Outcome::Done)
}

/// A solution was judged.
fn judged(ended: Result<Judged, RunError>) -> Result<Outcome, RunError>
    ensures { result ≡ outcome_of_check ended }
{
    Ok(Outcome::Judged(ended?))
}

/// A bound was found without a solution, or a reason against it.
fn bounded(ended: Result<Bounded, RunError>) -> Result<Outcome, RunError>
    ensures { result ≡ outcome_of_bound ended }
{
    Ok(Outcome::Bounded(ended?))
}
