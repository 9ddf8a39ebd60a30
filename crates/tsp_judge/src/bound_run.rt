//! The run of `tsp bound`: reads an instance and a certificate, finds the bound, and writes the
//! report. `task_run.rt` and tsp_c call `run_bound`, whose contract says what `yes` means here
//! (`specs/BoundRun.antt`).

ghost use Rattle.tsp_judge.specs.Prelude.{ReadTrace, TakesAtMost, FailsByWrite, sink_of, read_trace_of, IsReadOn, IsFile, most_taken};
ghost use Rattle.tsp_judge.specs.BoundRun.{BoundsFiles, IsBoundRunOf};

use crate::check_run::read_file;
use crate::run_status::RunError;
use std::alloc::Global;
use tsp_cost::Instance;
use tsp_file::File;
use tsp_io::{Gives, Output, Takes, Watched};
use tsp_report::write_bound;
use tsp_verdict::{BoundVerdict, CertificateKind, is_bounded, judge_bound, strict_bound};

/// The files that a run has read, and the bound that it found.
#[derive(Drop)]
pub struct Bounded {
    /// What the report says: the bound, that the instance has no solution, or the first reason
    /// against the files.
    pub found: BoundVerdict,
    /// The first file.
    pub instance: Instance,
    /// The second file.
    pub certificate: File,
}

/// Runs `tsp bound`: reads both files, finds the bound, writes the report.
///
/// Returns the bound, along with the files. No tour of the instance is shorter than the bound, or,
/// for a CVRP, no plan without empty routes. There is no bound if a tree of cases shows that no
/// such solution exists. If the report has the line `no`, the result has the first reason that
/// applies: `TooFewNodes` and `NotSymmetric` for tours, or `TooFewNodes`, `DepotCount`,
/// `DepotDemand` and `FixedEdgesInRoutes` for routes; then those against the certificate; and with
/// `strict`, `NotJudged` or `NotUsed` if the verdict ignores a line of the instance.
///
/// Each file is read completely before the next. The first one that isn't valid ends the run.
/// Nothing is written before the bound exists.
///
/// # Errors
///
/// `File` if a file isn't valid or can't be read. `WrongKind` if both are valid, but the first
/// isn't an instance, or is a CVRP and the certificate holds potentials. `OutOfMemory` if memory
/// runs out while the files are judged; then no reason applies to the instance, and none that is
/// found without memory applies to the certificate. `Write` if the writer fails. From each file, at
/// most 4,096 bytes past `MOST_FILE_BYTES` are read.
pub fn run_bound<I: Gives, C: Gives, W: Takes>(
    alloc: Global,
    inst: &mut Watched<I>,
    by: CertificateKind,
    cert: &mut Watched<C>,
    strict: bool,
    out: &mut Output<W>,
) -> Result<Bounded, RunError>
    ensures answer { TakesAtMost most_taken (read_trace_of I.remaining inst.old inst.new) (λ first.
        TakesAtMost most_taken (read_trace_of C.remaining cert.old cert.new) (λ second.
        IsBoundRunOf by strict first second (sink_of W.contents out.old out.new) result)) }
    ensures asked { IsReadOn I.gives inst.old inst.new × IsReadOn C.gives cert.old cert.new }
    ensures cause { FailsByWrite W.takes out.new }
{
    let instance = read_file(alloc, 1, inst)?;
    let certificate = read_file(alloc, 2, cert)?;
    bound_read(alloc, by, instance, certificate, strict, out)
}

/// Runs `tsp bound` on files that have been read.
///
/// # Errors
///
/// `WrongKind`, `OutOfMemory` and `Write`, as [`run_bound`] says.
fn bound_read<W: Takes>(
    alloc: Global,
    by: CertificateKind,
    instance: File,
    certificate: File,
    strict: bool,
    out: &mut Output<W>,
) -> Result<Bounded, RunError>
    ensures { (first second : ReadTrace) → IsFile first instance → IsFile second certificate
        → IsBoundRunOf by strict first second (sink_of W.contents out.old out.new) result }
{
    let Ok(instance) = Instance::of(instance) else {
        return Err(RunError::wrong_kind());
    };
    match bound_files(alloc, by, &instance, &certificate, strict, out) {
        Ok(found) => Ok(Bounded {
            found,
            instance,
            certificate,
        }),
        Err(error) => Err(error),
    }
}

/// Finds the bound of an instance, and writes the report.
fn bound_files<W: Takes>(
    alloc: Global,
    by: CertificateKind,
    instance: &Instance,
    certificate: &File,
    strict: bool,
    out: &mut Output<W>,
) -> Result<BoundVerdict, RunError>
    ensures { BoundsFiles by strict instance.now certificate.now (sink_of W.contents out.old out.new) result }
{
    if !is_bounded(by, instance.kind()) {
        return Err(RunError::wrong_kind());
    }
    let found = match judge_bound(alloc, by, instance, certificate) {
        Ok(plain) => strict_bound(strict, instance, plain),
        Err(refused) => return Err(RunError::refused(refused)),
    };
    match write_bound(instance.file(), found, out) {
        Ok(()) => Ok(found),
        Err(fault) => Err(RunError::unwritten(fault)),
    }
}
