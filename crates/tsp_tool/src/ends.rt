//! How a run of the program can end, with the exit status and the line on standard error for each.
//! `running.rt` comes here at the end of every run. `specs/RunEnd.antt` pins the statuses and
//! lines, and users' scripts rely on them.

ghost use Rattle.std.specs.Prelude.{◌≡◌, ◌++◌, ◌∷◌, [], OnOk};
ghost use Rattle.std.specs.Io.KnownBytes.{Appends};
ghost use Rattle.tsp_judge.specs.RunStatus.{run_fault_text, status_of};
ghost use Rattle.tsp_tool.specs.RunEnd.{IsLineOf, Tells, status_of_run_end, status_of_solved};

use crate::job::{JobFault, TaskFault};
use arrayvec::ArrayString;
use clap::Error as Refusal;
use std::fmt::{self, Display, Formatter, Write as _};
use std::io::{self, Write};
use tsp_judge::{
    Compared, Outcome, RunError, RunFault, Status, WriteFault, is_yes_outcome, status_of,
};
use tsp_solution::{SolutionFault, SolutionRunFault};

/// How many bytes of a fault's line are written at once.
const MOST_TEXT: usize = 256;

/// How a run of the program ends.
#[derive(Drop)]
pub enum RunEnd {
    /// `clap` refuses the words of the command line.
    NoJob(JobFault),
    /// The version or the help was asked for, and was printed or couldn't be.
    Printed(Result<(), WriteFault>),
    /// The words make no task.
    NoTask(TaskFault),
    /// A task ended, with an answer or a fault.
    Ended(Result<Outcome, RunError>),
    /// A comparison ended, with a status or a fault.
    Compared(Result<Compared, RunError>),
    /// `tsp solution` ended, with a solution or the list of forms written, or with a fault.
    Solved(Result<(), SolutionRunFault>),
}

/// The line that goes to standard error at the end of a run.
#[derive(Drop)]
pub enum ErrorLine<'a> {
    /// Why `clap` refuses the words, or the help that was asked for.
    Refusal(&'a Refusal),
    /// Out of memory for the words of the command line.
    OutOfMemory,
    /// Why the words make no task.
    NoTask(TaskFault),
    /// Why a task gave no answer.
    Fault(RunFault),
    /// Why a solution wasn't written.
    Unsolved(SolutionRunFault),
}

impl Display for ErrorLine<'_> {
    ghost use Rattle.tsp_tool.specs.RunEnd.{line_text};

    ghost output = { line_text };

    fn fmt<W: fmt::Write>(&self, f: &mut Formatter<W>) -> fmt::Result {
        match self {
            ErrorLine::Refusal(refusal) => f.write(*refusal),
            ErrorLine::OutOfMemory => f.write_str("out of memory\n"),
            ErrorLine::NoTask(TaskFault::UnknownLayout) => f.write_str("unknown layout\n"),
            ErrorLine::NoTask(TaskFault::MissingPath) => f.write_str("missing path\n"),
            ErrorLine::NoTask(TaskFault::TwoCertificates) => {
                f.write_str("both potentials and branches\n")
            }
            ErrorLine::NoTask(TaskFault::NoCertificate) => {
                f.write_str("neither potentials nor branches\n")
            }
            ErrorLine::NoTask(TaskFault::NotALength) => f.write_str("not a length\n"),
            ErrorLine::NoTask(TaskFault::InputTwice) => f.write_str("standard input twice\n"),
            ErrorLine::NoTask(TaskFault::LineEndInPath) => f.write_str("line end in a path\n"),
            ErrorLine::NoTask(TaskFault::UnknownForm) => f.write_str("unknown form\n"),
            ErrorLine::NoTask(TaskFault::NotAFirst) => f.write_str("first is neither 0 nor 1\n"),
            ErrorLine::NoTask(TaskFault::NotADepot) => f.write_str("not a depot\n"),
            ErrorLine::Fault(fault) => {
                f.write(fault)?;
                f.write_str("\n")
            }
            ErrorLine::Unsolved(fault) => {
                f.write(fault)?;
                f.write_str("\n")
            }
        }
    }
}

/// The exit status of a run of the program.
pub fn status_of_run_end(run_end: &RunEnd) -> u8
    ensures { result ≡ status_of_run_end run_end.now }
{
    match run_end {
        RunEnd::NoJob(JobFault::Refused(_)) | RunEnd::NoTask(_) => Status::Refused as u8,
        RunEnd::NoJob(JobFault::OutOfMemory) => Status::OutOfMemory as u8,
        RunEnd::Printed(Ok(())) => Status::Yes as u8,
        RunEnd::Printed(Err(fault)) => status_of(&Err(RunFault::Write(*fault))),
        RunEnd::Ended(Ok(outcome)) => status_of(&Ok(is_yes_outcome(outcome))),
        RunEnd::Compared(Ok(compared)) => compared.status,
        RunEnd::Ended(Err(error)) | RunEnd::Compared(Err(error)) => status_of(&Err(error.fault())),
        RunEnd::Solved(solved) => status_of_solved(solved),
    }
}

/// The exit status of `tsp solution`.
fn status_of_solved(solved: &Result<(), SolutionRunFault>) -> u8
    ensures { result ≡ status_of_solved solved.now }
{
    match solved {
        Ok(()) => Status::Yes as u8,
        Err(
            SolutionRunFault::File {
                file: _,
                fault: SolutionFault::Place { .. },
            },
        ) => Status::NotJudged as u8,
        Err(
            SolutionRunFault::File {
                file,
                fault: SolutionFault::File(fault),
            },
        ) => status_of(&Err(RunFault::File {
            file: *file,
            fault: *fault,
        })),
        Err(
            SolutionRunFault::File {
                file: _,
                fault: SolutionFault::OutOfMemory,
            },
        ) => Status::OutOfMemory as u8,
        Err(SolutionRunFault::Write(fault)) => status_of(&Err(RunFault::Write(*fault))),
    }
}

/// What goes to standard error, or `None` if nothing goes there.
pub fn line_of(run_end: &RunEnd) -> Option<ErrorLine<'_>>
    ensures { IsLineOf run_end.now result }
{
    match run_end {
        RunEnd::NoJob(JobFault::Refused(refusal)) => Some(ErrorLine::Refusal(refusal)),
        RunEnd::NoJob(JobFault::OutOfMemory) => Some(ErrorLine::OutOfMemory),
        RunEnd::NoTask(fault) => Some(ErrorLine::NoTask(*fault)),
        RunEnd::Printed(Ok(()))
        | RunEnd::Ended(Ok(_))
        | RunEnd::Compared(Ok(_))
        | RunEnd::Solved(Ok(())) => None,
        RunEnd::Solved(Err(fault)) => Some(ErrorLine::Unsolved(*fault)),
        RunEnd::Printed(Err(fault)) => Some(ErrorLine::Fault(RunFault::Write(*fault))),
        RunEnd::Ended(Err(error)) | RunEnd::Compared(Err(error)) => Some(ErrorLine::Fault(
            error.fault(),
        )),
    }
}

/// Writes the line that a run's end puts on standard error, if it has one.
///
/// # Errors
///
/// Those of the writer.
pub fn tell<W: Write>(run_end: &RunEnd, errors: &mut W) -> io::Result<()>
    ensures { OnOk result (Tells run_end.now (W.contents errors.old) (W.contents errors.new)) }
{
    match line_of(run_end) {
        Some(ErrorLine::Fault(fault)) => tell_fault(fault, errors),
        Some(line) => write!(errors, "{line}"),
        None => Ok(()),
    }
}

/// Writes a fault and the end of its line, in one write.
fn tell_fault<W: Write>(fault: RunFault, errors: &mut W) -> io::Result<()>
    ensures { OnOk result (Appends (W.contents errors.old) (W.contents errors.new) (run_fault_text fault ++ 10 ∷ [])) }
{
    let mut text = ArrayString::<MOST_TEXT>::new();
    match writeln!(text, "{fault}") {
        Ok(()) => errors.write_all(text.as_str().as_bytes()),
        // No fault's text is that long. If one were, it would be written in parts.
        Err(_) => writeln!(errors, "{fault}"),
    }
}
