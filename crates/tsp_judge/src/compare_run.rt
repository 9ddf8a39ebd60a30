//! The run of `tsp compare`: reads, judges and drops one solution after the other. `task_run.rt`
//! calls it. The laws `lines_of_..` in `laws.rt` say what a line means.

ghost use Rattle.tsp_judge.specs.Prelude.{max, false, true, [], length, MatchResult, ℕ, List, slice_index_or, ReadTrace, TakesAtMost, FailsByWrite, output_failed, sink_of, read_trace_of, IsReadOn, IsFile, most_taken, IsProblem, IsKnownBound, IsKnownBoundAsked, is_clear};
ghost use Rattle.std.specs.Prelude.{◌≡◌, ◌<◌, Result};
ghost use Rattle.std.specs.declared.alloc.AllocError.{AllocError};
ghost use Rattle.tsp_judge.specs.CheckRun.{Given, IsFileIn, TakesNamed, IsNamedReadOn};
ghost use Rattle.tsp_judge.specs.CompareRun.{IsReadTraceAt, ComparesOne, ComparesAll, ComparesBy, IsCompareRun, LacksKnownBound, Finds, result_of, status_of_found, IsFollowedBy, IsFollowed};

use crate::check_run::{is_judged, lent, read_certificate, read_file};
use crate::run_status::{RunError, RunFault, Status, status_of};
use std::alloc::{AllocError, Global};
use tsp_cost::Instance;
use tsp_file::File;
use tsp_io::{Gives, Output, Takes, Watched};
use tsp_read::{ReadFault, file_of_reader};
use tsp_report::{write_head, write_line};
use tsp_verdict::{
    CertificateKind, KnownBound, Verdict, judge_known_bound, judge_next, strict_known_bound,
};

/// The result of a comparison.
#[derive(Drop)]
pub struct Compared {
    /// The files by which the solutions were judged. If the known bound is a reason, no solution
    /// was opened.
    pub common: ComparisonContext,
    /// The exit status: the largest one of a solution.
    pub status: u8,
}

/// Judges solutions of an instance, writes a line for each, and returns the largest status.
///
/// The instance and the certificate, if there is one, are read and judged once. The head of the
/// text says what they are. If a reason applies to one of them, the text ends with the reason, and
/// no solution is opened. Otherwise each solution is opened, read, and judged as a check of the
/// three files would judge it. Its line is written, the follower is told, and the solution is
/// dropped. If a solution isn't valid or can't be read, its line has the fault, and the comparison
/// goes on. A line has the fault `device` only if a read returned an error. The follower is told of
/// each line once, in order.
///
/// With `strict`, the reason `NotJudged` or `NotUsed` applies if the verdict ignores a line of the
/// instance: after all others against the instance or the certificate.
///
/// # Errors
///
/// `File` if the instance (1) or the certificate (2) isn't valid or can't be read. `WrongKind` if
/// both are valid, but the first isn't an instance, or is a CVRP and the certificate holds
/// potentials. In these cases nothing is written. `OutOfMemory` if memory runs out while files are
/// judged or a solution is opened or read; if that happens at a solution, the head and the lines of the
/// earlier solutions were written. `Write` if the writer fails, after a prefix of the text. From
/// each reader, at most 4,096 bytes past `MOST_FILE_BYTES` are read.
pub fn run_compare<I: Gives, C: Gives, R: Gives + Drop, E, S: Solutions<R> + Follow<E>, W: Takes>(
    alloc: Global,
    inst: &mut Watched<I>,
    certificate: &mut Option<(CertificateKind, Watched<C>)>,
    solutions: &S,
    strict: bool,
    out: &mut Output<W>,
    to: &mut E,
) -> Result<Compared, RunError>
    ensures text { TakesAtMost most_taken (read_trace_of I.remaining inst.old inst.new) (λ first.
        TakesNamed C.remaining certificate.old certificate.new (λ given.
        IsCompareRun strict R.remaining R.gives (S.opens solutions.now) (S.names solutions.now) given first
        (sink_of W.contents out.old out.new) result)) }
    ensures asked { IsReadOn I.gives inst.old inst.new × IsNamedReadOn C.gives certificate.old certificate.new }
    ensures reported { IsFollowed (S.tells solutions.now) (length (S.names solutions.now)) to.old to.new result }
    ensures cause { FailsByWrite W.takes out.new }
{
    let instance = read_file(alloc, 1, inst)?;
    let certificate = read_certificate(alloc, 2, certificate)?;
    compare_read(alloc, instance, certificate, solutions, strict, out, to)
}

/// Runs `tsp compare` on an instance and a certificate that have been read.
///
/// # Errors
///
/// Those of [`run_compare`], except `File`.
pub(crate) fn compare_read<R: Gives + Drop, E, S: Solutions<R> + Follow<E>, W: Takes>(
    alloc: Global,
    instance: File,
    certificate: Option<(CertificateKind, File)>,
    solutions: &S,
    strict: bool,
    out: &mut Output<W>,
    to: &mut E,
) -> Result<Compared, RunError>
    ensures text { (given : Given) (first : ReadTrace) → IsFile first instance → IsFileIn given certificate
        → IsCompareRun strict R.remaining R.gives (S.opens solutions.now) (S.names solutions.now) given first
        (sink_of W.contents out.old out.new) result }
    ensures reported { IsFollowed (S.tells solutions.now) (length (S.names solutions.now)) to.old to.new result }
{
    let Ok(instance) = Instance::of(instance) else {
        return Err(RunError::wrong_kind());
    };
    let common = comparison_context_of(alloc, instance, certificate, strict)?;
    match compare_with(alloc, &common, solutions, out, to) {
        Ok(status) => Ok(Compared { common, status }),
        Err(error) => Err(error),
    }
}

/// Writes the head, and compares the solutions if no reason applies to all of them.
fn compare_with<R: Gives + Drop, E, S: Solutions<R> + Follow<E>, W: Takes>(
    alloc: Global,
    common: &ComparisonContext,
    solutions: &S,
    out: &mut Output<W>,
    to: &mut E,
) -> Result<u8, RunError>
    requires known_bound { is_clear common.now.known_bound ≡ true
        → IsKnownBound common.now.certificate common.now.instance common.now.known_bound }
    requires problem { IsProblem common.now.instance }
    ensures text { ComparesBy (is_clear common.now.known_bound) (IsReadTraceAt R.remaining R.gives (S.opens solutions.now))
        (S.names solutions.now) common.now (sink_of W.contents out.old out.new) result }
    ensures reported { IsFollowedBy (is_clear common.now.known_bound) (S.tells solutions.now) (length (S.names solutions.now))
        to.old to.new result }
{
    match write_head(common.instance.file(), common.known_bound, out) {
        Ok(()) => {}
        Err(fault) => return Err(RunError::unwritten(fault)),
    }
    if !common.known_bound.is_clear() {
        return Ok(Status::No as u8);
    }
    compare_all(alloc, common, solutions, out, to)
}

/// Compares all solutions, in order.
fn compare_all<R: Gives + Drop, E, S: Solutions<R> + Follow<E>, W: Takes>(
    alloc: Global,
    common: &ComparisonContext,
    solutions: &S,
    out: &mut Output<W>,
    to: &mut E,
) -> Result<u8, RunError>
    requires known_bound { IsKnownBound common.now.certificate common.now.instance common.now.known_bound }
    requires problem { IsProblem common.now.instance }
    requires sound { output_failed out.old ≡ false }
    ensures text { ComparesAll (IsReadTraceAt R.remaining R.gives (S.opens solutions.now)) (S.names solutions.now) common.now []
        (sink_of W.contents out.old out.new) result }
    ensures reported { IsFollowedBy true (S.tells solutions.now) (length (S.names solutions.now)) to.old to.new result }
{
    let mut status = 0;
    'solutions: for index in 0..solutions.count() {
        let found = compare_one(alloc, common, solutions, index, out)?;
        status = larger(status_of_found(found.result()), status);
        solutions.written(to, common, index, &found);
    }
    Ok(status)
}

/// The larger of two statuses.
fn larger(a: u8, b: u8) -> u8
    ensures { result ≡ max a b }
{
    a.max(b)
}

/// Opens a solution, reads and judges it, and writes its line.
fn compare_one<R: Gives + Drop, S: Solutions<R>, W: Takes>(
    alloc: Global,
    common: &ComparisonContext,
    solutions: &S,
    index: usize,
    out: &mut Output<W>,
) -> Result<Found, RunError>
    requires known_bound { IsKnownBound common.now.certificate common.now.instance common.now.known_bound }
    requires problem { IsProblem common.now.instance }
    requires index { index < length (S.names solutions.now) }
    ensures { ComparesOne (IsReadTraceAt R.remaining R.gives (S.opens solutions.now)) (S.names solutions.now) common.now index
        (sink_of W.contents out.old out.new) result }
{
    let reader = match solutions.open(index) {
        Ok(reader) => reader,
        Err(refused) => return Err(RunError::unopened(refused)),
    };
    let mut reader = Watched::new(reader);
    let found = find(alloc, common, &mut reader)?;
    match write_line(found.result(), solutions.name(index), out) {
        Ok(()) => Ok(found),
        Err(fault) => Err(RunError::unwritten(fault)),
    }
}

// ---- the files by which all solutions of a comparison are judged

/// The files by which all solutions of a comparison are judged, and the known bound that they give.
#[derive(Drop)]
pub struct ComparisonContext {
    /// What is known before any solution is read: the bound of the certificate, the least number of
    /// routes, or the reason why no solution is opened.
    pub known_bound: KnownBound,
    /// The first file.
    pub instance: Instance,
    /// The second file, if a certificate was asked for.
    pub certificate: Option<(CertificateKind, File)>,
}

/// The verdict on one solution, or the fault of its file.
#[derive(Drop)]
pub enum Found {
    /// The file is valid, and this is the verdict on it.
    Solution { verdict: Verdict, solution: File },
    /// The file isn't valid or can't be read.
    Fault(ReadFault),
}

impl Found {
    /// The verdict on the solution, or the fault of its file.
    pub(crate) fn result(&self) -> Result<Verdict, ReadFault>
        ensures { result ≡ result_of self.now }
    {
        match self {
            Found::Solution { verdict, .. } => Ok(*verdict),
            Found::Fault(fault) => Err(*fault),
        }
    }
}

/// The exit status for a solution: that of a check.
fn status_of_found(found: Result<Verdict, ReadFault>) -> u8
    ensures { result ≡ status_of_found found }
{
    match found {
        Ok(verdict) => status_of(&Ok(verdict.is_yes())),
        Err(fault) => status_of(&Err(RunFault::File { file: 2, fault })),
    }
}

/// Judges an instance and a certificate for all solutions. With `strict`, a line of the instance
/// that the verdict ignores is a reason against all of them.
///
/// # Errors
///
/// `WrongKind` if the certificate can't bound solutions of this TYPE (`is_bounded`), and
/// `OutOfMemory`.
fn comparison_context_of(
    alloc: Global,
    instance: Instance,
    certificate: Option<(CertificateKind, File)>,
    strict: bool,
) -> Result<ComparisonContext, RunError>
    ensures { MatchResult result
        (λ common. (common.instance ≡ instance) × (common.certificate ≡ certificate)
        × IsKnownBoundAsked strict common.certificate common.instance common.known_bound)
        (λ fault. LacksKnownBound certificate instance fault) }
{
    if !is_judged(&certificate, &instance) {
        return Err(RunError::wrong_kind());
    }
    match judge_known_bound(alloc, &instance, lent(&certificate)) {
        Ok(plain) => Ok(ComparisonContext {
            known_bound: strict_known_bound(strict, &instance, plain),
            instance,
            certificate,
        }),
        Err(refused) => Err(RunError::refused(refused)),
    }
}

/// Reads and judges a solution.
///
/// # Errors
///
/// `OutOfMemory`, while reading or judging.
fn find<R: Gives>(
    alloc: Global,
    common: &ComparisonContext,
    reader: &mut Watched<R>,
) -> Result<Found, RunError>
    requires known_bound { IsKnownBound common.now.certificate common.now.instance common.now.known_bound }
    requires problem { IsProblem common.now.instance }
    ensures found { TakesAtMost most_taken (read_trace_of R.remaining reader.old reader.new) (λ read_trace. Finds common.now read_trace result) }
    ensures asked { IsReadOn R.gives reader.old reader.new }
{
    let solution = match file_of_reader(alloc, reader) {
        Ok(solution) => solution,
        Err(unread) => {
            return match unread.fault() {
                ReadFault::OutOfMemory => Err(RunError::unread_solution(unread)),
                fault => Ok(Found::Fault(fault)),
            };
        }
    };
    match judge_next(alloc, &common.instance, common.known_bound, &solution, None) {
        Ok(verdict) => Ok(Found::Solution { verdict, solution }),
        Err(refused) => Err(RunError::refused(refused)),
    }
}

// ---- the traits for the solutions of a comparison, and for whoever explains its lines

/// The solutions of a comparison. Each is opened just before it is read.
pub trait Solutions<R> {
    /// The path of each, in order, as it is printed.
    ghost names: { Self → List (List ℕ) };

    /// Whether opening the solution at a place may give this reader, or be refused memory.
    ghost opens: { Self → ℕ → Result R AllocError → Type 0 };

    /// How many there are.
    fn count(&self) -> usize
        ensures { result ≡ length (names self.now) };

    /// The path of the solution at a place, counted from 0.
    fn name(&self, index: usize) -> &[u8]
        requires { index < length (names self.now) }
        ensures { result.now ≡ slice_index_or (names self.now) index [] };

    /// Opens the solution at a place.
    ///
    /// # Errors
    ///
    /// Memory was refused.
    fn open(&self, index: usize) -> Result<R, AllocError>
        requires { index < length (names self.now) }
        ensures { opens self.now index result };
}

/// A follower of a comparison, which is told of each line, and may write to an `E`: to explain the
/// line, or to show the progress.
pub trait Follow<E> {
    /// What the line of the solution at a place, counted from 0, may make the follower do to an
    /// `E`.
    ghost tells: { Self → ℕ → E → E → Type 0 };

    /// The line of the solution at a place, counted from 0, was written.
    fn written(&self, to: &mut E, common: &ComparisonContext, index: usize, found: &Found)
        ensures { tells self.now index to.old to.new };
}
