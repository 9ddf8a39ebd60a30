//! Why a run ended early (`RunFault`, which the runs of this crate return in a `RunError`), and the
//! exit status of a run (`Status`). `specs/RunStatus.antt` pins the words and the numbers. Never
//! change a number: users rely on them, and `bindings/c/tsp.h` repeats them.

ghost use Rattle.std.specs.Prelude.{◌≡◌};
ghost use Rattle.tsp_text.specs.declared.fault.ReadFault.TheVariants as read_faults;
ghost use Rattle.tsp_judge.specs.RunStatus.{status_number, status_of, status_of_fault};
ghost use Rattle.tsp_judge.specs.declared.run_status.RunFault.TheVariants.{File, WrongKind, Write, OutOfMemory, Relayout};

use std::alloc::AllocError;
use std::fmt;
use std::marker::Model;
use thiserror::Error;
use tsp_file::RelayoutFault;
use tsp_io::{Refused, WriteFault};
use tsp_read::{ReadError, ReadFault};

/// Why a run ended early.
#[derive(Clone, Copy, Debug, PartialEq, Eq, Error)]
pub enum RunFault {
    /// The file with this number, from 1 on, can't be read, or isn't a valid file.
    File { file: u32, fault: ReadFault },
    /// Only in checks, comparisons and bounds: the first file is of TYPE TOUR, POTENTIALS or
    /// BRANCHES, or of TYPE CVRP with potentials as its certificate.
    WrongKind,
    /// The output could not be written.
    Write(WriteFault),
    /// Only in checks, comparisons and bounds: memory ran out while files were judged.
    OutOfMemory,
    /// Only in conversions: the weights can't go into the wanted layout, or there is no memory for
    /// that.
    Relayout(RelayoutFault),
}

impl fmt::Display for RunFault {
    ghost use Rattle.std.specs.Prelude.{Some};
    ghost use Rattle.tsp_judge.specs.RunStatus.{run_fault_text};

    ghost output = { λ fault. Some (run_fault_text fault) };

    fn fmt<W: fmt::Write>(&self, f: &mut fmt::Formatter<W>) -> fmt::Result {
        match *self {
            RunFault::File { file, fault } => write!(f, "file {file}: {fault}"),
            RunFault::WrongKind => f.write_str("file 1: wrong kind"),
            RunFault::Write(fault) => write!(f, "output: {fault}"),
            RunFault::OutOfMemory => f.write_str("out of memory"),
            RunFault::Relayout(fault) => write!(f, "relayout: {fault}"),
        }
    }
}

// ---- why a run ends early

/// Why a run ended early. Contracts see only the fault.
///
/// `OutOfMemory` can only be made from a [`ReadError`] or a [`Refused`], which only a call that was
/// refused memory makes, or from the error of whoever opens the solutions of a comparison.
#[derive(Clone, Copy, Debug, Drop)]
pub struct RunError {
    ending: RunFault,
}

impl Model for RunError {
    ghost use Rattle.tsp_judge.specs.declared.run_status.RunFault.{RunFault};

    ghost Value = { RunFault };

    ghost view = { λ error. error.ending };

    ghost inverse = { λ fault. record { ending = fault } };
}

impl RunError {
    /// Why the run ended, without the token of a refusal.
    pub fn fault(self) -> RunFault
        ensures { result ≡ self }
    {
        self.ending
    }

    /// The file with this number wasn't read.
    pub(crate) fn unread(file: u32, unread: ReadError) -> RunError
        ensures { result ≡ File file unread }
    {
        RunError {
            ending: RunFault::File {
                file,
                fault: unread.fault(),
            },
        }
    }

    /// Memory was refused to open a solution of a comparison.
    pub(crate) fn unopened(_refused: AllocError) -> RunError
        ensures { result ≡ OutOfMemory }
    {
        RunError {
            ending: RunFault::OutOfMemory,
        }
    }

    /// Memory was refused to read a solution of a comparison.
    pub(crate) fn unread_solution(_unread: ReadError) -> RunError
        requires { _unread ≡ read_faults.OutOfMemory }
        ensures { result ≡ OutOfMemory }
    {
        RunError {
            ending: RunFault::OutOfMemory,
        }
    }

    /// Memory was refused for the judgement.
    pub(crate) fn refused(_refused: Refused) -> RunError
        ensures { result ≡ OutOfMemory }
    {
        RunError {
            ending: RunFault::OutOfMemory,
        }
    }

    /// The first file can't be judged, or not with this certificate.
    pub fn wrong_kind() -> RunError
        ensures { result ≡ WrongKind }
    {
        RunError {
            ending: RunFault::WrongKind,
        }
    }

    /// The output wasn't written.
    pub(crate) fn unwritten(fault: WriteFault) -> RunError
        ensures { result ≡ Write fault }
    {
        RunError {
            ending: RunFault::Write(fault),
        }
    }

    /// The weights can't go into the layout.
    pub(crate) fn not_relaid(fault: RelayoutFault) -> RunError
        ensures { result ≡ Relayout fault }
    {
        RunError {
            ending: RunFault::Relayout(fault),
        }
    }
}

impl From<RunError> for RunFault {
    ghost from_gives = { λ error fault. fault ≡ error };

    fn from(error: RunError) -> RunFault {
        error.fault()
    }
}

// ---- the exit status of a run, by its answer or its fault

/// How a run ends, by the number of its exit status. The calls for C return the same numbers.
#[derive(Clone, Copy, Debug, PartialEq, Eq)]
pub enum Status {
    /// Done, and no solution is rejected.
    Yes = 0,
    /// The solution is rejected, the weights can't go into the layout, or the file lacks the
    /// section that a call asks for.
    No = 1,
    /// A file has a fault, or the first one is of the wrong kind.
    NotJudged = 2,
    /// Out of memory, anywhere.
    OutOfMemory = 3,
    /// The arguments make no sense: the words of a command line, or the numbers of a call.
    Refused = 4,
    /// A read or a write failed.
    Device = 5,
    /// A C call's buffer is too small.
    TooSmall = 6,
}

/// The exit status of a run: 0 if a solution is accepted, or a file is shown or converted; 1
/// if one is rejected, or weights can't be put into a layout; 2 if a file has a fault or is
/// of the wrong kind; 3 if memory ran out; 5 if a device failed.
pub fn status_of(answer: &Result<bool, RunFault>) -> u8
    ensures { result ≡ status_of answer.now }
{
    match answer {
        Ok(true) => Status::Yes as u8,
        Ok(false) => Status::No as u8,
        Err(fault) => status_of_fault(*fault) as u8,
    }
}

/// How a run without an answer ends.
fn status_of_fault(fault: RunFault) -> Status
    ensures { status_number result ≡ status_of_fault fault }
{
    match fault {
        RunFault::File { file: _, fault } => match fault {
            ReadFault::Line { .. } | ReadFault::End(_) | ReadFault::TooLong => Status::NotJudged,
            ReadFault::OutOfMemory => Status::OutOfMemory,
            ReadFault::Device => Status::Device,
        },
        RunFault::WrongKind => Status::NotJudged,
        RunFault::OutOfMemory => Status::OutOfMemory,
        RunFault::Write(WriteFault::OutOfMemory) => Status::OutOfMemory,
        RunFault::Write(WriteFault::Device) => Status::Device,
        RunFault::Relayout(RelayoutFault::OutOfMemory) => Status::OutOfMemory,
        RunFault::Relayout(_) => Status::No,
    }
}
