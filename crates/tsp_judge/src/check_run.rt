//! The run of `tsp check`: reads the files, judges the solution, and writes the report.
//! `task_run.rt`, tsp_c and `api.rt` call `check_solution`, whose contract says what `yes` means
//! (`specs/CheckRun.antt`). The other runs call the functions that read a file or a certificate.

ghost use Rattle.tsp_judge.specs.Prelude.{option_map, ReadTrace, TakesAtMost, FailsByWrite, sink_of, read_trace_of, IsReadOn, IsFile, most_taken, is_judged, report_of, IsSized};
ghost use Rattle.std.specs.Prelude.{◌≡◌};
ghost use Rattle.tsp_judge.specs.CheckRun.{Given, IsFileIn, ReadsGiven, JudgesFiles, ReadsFile, WritesReport, IsRunOf, TakesNamed, IsNamedReadOn};

use crate::run_status::RunError;
use std::alloc::Global;
use tsp_cost::Instance;
use tsp_file::File;
use tsp_io::{Gives, Output, Takes, Watched};
use tsp_read::file_of_reader;
use tsp_report::write_report;
use tsp_verdict::{CertificateKind, Verdict, is_bounded, judge, strict_verdict};

/// Runs `tsp check`: reads the files, judges the solution, writes the report.
///
/// Returns the verdict, along with the files. With a certificate, the verdict of an accepted
/// solution has a bound: no tour of the instance is shorter, or, for a CVRP, no plan without empty
/// routes. With `claimed`, a solution of another length is rejected with `LengthClaimed`: after all
/// other reasons against the solution, and before those against the certificate. With `strict`, a
/// solution is rejected with `NotJudged` or `NotUsed` if the instance has a line that the verdict
/// ignores: after all other reasons.
///
/// Each file is read completely before the next. The first one that isn't valid ends the run.
/// Nothing is written before the verdict exists.
///
/// # Errors
///
/// `File` if a file isn't valid or can't be read. `WrongKind` if all are valid, but the first isn't
/// an instance, or is a CVRP and the certificate holds potentials. `OutOfMemory` if memory runs out
/// while the solution is judged; then no reason up to `NodeOutOfRange`, in the order for the TYPE,
/// applies to it. `Write` if the writer fails. From each reader, at most 4,096 bytes past
/// `MOST_FILE_BYTES` are read.
pub fn check_solution<I: Gives, S: Gives, C: Gives, W: Takes>(
    alloc: Global,
    inst: &mut Watched<I>,
    sol: &mut Watched<S>,
    certificate: &mut Option<(CertificateKind, Watched<C>)>,
    claimed: Option<i64>,
    strict: bool,
    out: &mut Output<W>,
) -> Result<Judged, RunError>
    ensures answer { TakesAtMost most_taken (read_trace_of I.remaining inst.old inst.new) (λ first.
        TakesAtMost most_taken (read_trace_of S.remaining sol.old sol.new) (λ second.
        TakesNamed C.remaining certificate.old certificate.new (λ given.
        IsRunOf given claimed strict first second (sink_of W.contents out.old out.new) result))) }
    ensures asked { IsReadOn I.gives inst.old inst.new × IsReadOn S.gives sol.old sol.new
        × IsNamedReadOn C.gives certificate.old certificate.new }
    ensures cause { FailsByWrite W.takes out.new }
{
    let instance = read_file(alloc, 1, inst)?;
    let solution = read_file(alloc, 2, sol)?;
    let certificate = read_certificate(alloc, 3, certificate)?;
    judge_read(alloc, instance, solution, certificate, claimed, strict, out)
}

/// Reads the certificate, if there is one. `number` is the file's number in a fault.
pub(crate) fn read_certificate<C: Gives>(
    alloc: Global,
    number: u32,
    named: &mut Option<(CertificateKind, Watched<C>)>,
) -> Result<Option<(CertificateKind, File)>, RunError>
    ensures answer { TakesNamed C.remaining named.old named.new (λ given. ReadsGiven number given result) }
    ensures asked { IsNamedReadOn C.gives named.old named.new }
{
    let Some((by, reader)) = named else {
        return Ok(None);
    };
    let file = read_file(alloc, number, reader)?;
    Ok(Some((*by, file)))
}

/// Runs `tsp check` on files that have been read.
///
/// # Errors
///
/// `WrongKind`, `OutOfMemory` and `Write`, as [`check_solution`] says.
pub(crate) fn judge_read<W: Takes>(
    alloc: Global,
    instance: File,
    solution: File,
    certificate: Option<(CertificateKind, File)>,
    claimed: Option<i64>,
    strict: bool,
    out: &mut Output<W>,
) -> Result<Judged, RunError>
    ensures { (given : Given) (first second : ReadTrace) → IsFile first instance → IsFile second solution
        → IsFileIn given certificate
        → IsRunOf given claimed strict first second (sink_of W.contents out.old out.new) result }
{
    let Ok(instance) = Instance::of(instance) else {
        return Err(RunError::wrong_kind());
    };
    match judge_files(
        alloc,
        &instance,
        &solution,
        &certificate,
        claimed,
        strict,
        out,
    ) {
        Ok(verdict) => Ok(Judged {
            verdict,
            instance,
            solution,
            certificate,
        }),
        Err(error) => Err(error),
    }
}

// ---- judge the files of a check, and write the report

/// The files that a run has read, and the verdict on them.
#[derive(Drop)]
pub struct Judged {
    /// The verdict, which the report prints.
    pub verdict: Verdict,
    /// The first file.
    pub instance: Instance,
    /// The second file.
    pub solution: File,
    /// The third file, if a certificate was asked for.
    pub certificate: Option<(CertificateKind, File)>,
}

/// Judges a solution, with or without a certificate, and writes the report.
fn judge_files<W: Takes>(
    alloc: Global,
    instance: &Instance,
    solution: &File,
    certificate: &Option<(CertificateKind, File)>,
    claimed: Option<i64>,
    strict: bool,
    out: &mut Output<W>,
) -> Result<Verdict, RunError>
    ensures { JudgesFiles certificate.now claimed strict instance.now solution.now (sink_of W.contents out.old out.new) result }
{
    if !is_judged(certificate, instance) {
        return Err(RunError::wrong_kind());
    }
    let verdict = match judge(alloc, instance, solution, lent(certificate), claimed) {
        Ok(plain) => strict_verdict(strict, instance, plain),
        Err(refused) => return Err(RunError::refused(refused)),
    };
    report_verdict(instance, verdict, out)?;
    Ok(verdict)
}

/// Writes the report on a verdict.
///
/// # Requires
///
/// A bound of at most 2^126, as every verdict has.
///
/// # Errors
///
/// `Write` if the writer fails.
pub fn report_verdict<W: Takes>(
    instance: &Instance,
    verdict: Verdict,
    out: &mut Output<W>,
) -> Result<(), RunError>
    requires { IsSized verdict }
    ensures { WritesReport (sink_of W.contents out.old out.new) (report_of instance.now verdict) result }
{
    match write_report(instance.file(), verdict, out) {
        Ok(()) => Ok(()),
        Err(fault) => Err(RunError::unwritten(fault)),
    }
}

/// Whether solutions of the instance can be judged, with this certificate or without one.
pub(crate) fn is_judged(certificate: &Option<(CertificateKind, File)>, instance: &Instance) -> bool
    ensures { result ≡ is_judged certificate.now instance.now.kind }
{
    let kind = instance.kind();
    match certificate {
        None => true,
        Some((by, _)) => is_bounded(*by, kind),
    }
}

/// Moves the borrow of a certificate to its file.
pub(crate) fn lent(
    certificate: &Option<(CertificateKind, File)>,
) -> Option<(CertificateKind, &File)>
    ensures { option_map (λ given. (given.0, given.1.now)) result ≡ certificate.now }
{
    match certificate {
        None => None,
        Some((by, file)) => Some((*by, file)),
    }
}

// ---- read a file of a run, and add its number to a fault

/// Reads one of a run's files. Its number, counted from 1, goes into a fault.
///
/// # Errors
///
/// `File` with this number if the file isn't valid or can't be read.
pub(crate) fn read_file<R: Gives>(
    alloc: Global,
    number: u32,
    reader: &mut Watched<R>,
) -> Result<File, RunError>
    ensures answer { TakesAtMost most_taken (read_trace_of R.remaining reader.old reader.new) (λ read_trace.
        ReadsFile number read_trace result) }
    ensures asked { IsReadOn R.gives reader.old reader.new }
{
    match file_of_reader(alloc, reader) {
        Ok(file) => Ok(file),
        Err(unread) => Err(RunError::unread(number, unread)),
    }
}
