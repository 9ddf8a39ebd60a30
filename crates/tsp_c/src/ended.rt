//! How a C call that writes text ends: a status and the text (`Answer`). The C call `tsp_explain`
//! makes its own text (`explain.rt`) and shares only `place`. Other calls end with a status alone
//! (`call_end.rt`). `tsp.h` promises the statuses, and `specs/NumberCalls.antt` pins what the
//! buffer contains.

ghost use Rattle.std.specs.Prelude.{◌≡◌, ◌≢◌, IsErr, MatchResult, [], IfOk};
ghost use Rattle.tsp_io.specs.states.Output.{writer_of};
ghost use Rattle.tsp_c.specs.CallResult.{blank_result};
ghost use Rattle.tsp_c.specs.NumberCalls.{EndsOnTexts, IsPlaced, IsPrinted, without_devices, fault_line};
ghost use Rattle.tsp_c.specs.SolutionCall.{EndsSolving, solving_line};
ghost use Rattle.tsp_c.specs.Texts.{IsRefusedNumber};

use crate::call_end::TOO_SMALL;
use crate::call_result::CallResult;
use crate::solution_call::status_of_solving;
use std::alloc::Global;
use std::io::{self, Write};
use std::marker::Model;
use tsp_judge::{Output, ReadFault, RunError, RunFault, Status, WriteFault, status_of};
use tsp_solution::SolutionRunFault;

/// The status of a call on texts, and its text. Contracts see a pair.
///
/// Only this file makes one: it says that memory ran out only after a [`RunError`] or a [`NoLine`].
#[derive(Drop)]
pub(crate) struct Answer {
    status: u8,
    text: Vec<u8>,
}

impl Model for Answer {
    ghost use Rattle.std.specs.Prelude.{ℕ, List};

    ghost Value = { ℕ × List ℕ };

    ghost view = { λ answer. (answer.status, answer.text.items) };
}

impl Answer {
    /// A refused number: its status, and no text.
    pub(crate) fn refused(alloc: Global) -> Answer
        ensures { IsRefusedNumber result.0 result.1 }
    {
        Answer {
            status: Status::Refused as u8,
            text: Vec::new(alloc),
        }
    }

    /// A text, with the status 0.
    pub(crate) fn done(text: Vec<u8>) -> Answer
        ensures { (result.0 ≡ 0) × (result.1 ≡ text.items) }
    {
        Answer {
            status: Status::Yes as u8,
            text,
        }
    }

    /// The status and the line of a fault of `tsp_solution`. If there is no memory for the line,
    /// the status says so, and the text is empty.
    pub(crate) fn unsolved(alloc: Global, fault: SolutionRunFault) -> Answer
        ensures { EndsSolving fault result.0 result.1 }
    {
        match line_of_solving(alloc, fault) {
            Ok(text) => Answer {
                status: status_of_solving(fault),
                text,
            },
            Err(no_line) => Answer {
                status: Status::OutOfMemory as u8,
                text: no_line.into_text(),
            },
        }
    }

    /// The call's numbers; all blank if memory ran out.
    pub(crate) fn numbers(&self, call_result: CallResult) -> CallResult
        ensures kept { self.now.0 ≢ 3 → result ≡ call_result }
        ensures none { self.now.0 ≡ 3 → result ≡ blank_result }
    {
        call_result.for_status(self.status)
    }

    /// Puts the text into the caller's buffer if it fits, and returns the call's status.
    pub(crate) fn place(&self, out: &mut [u8], written: &mut usize) -> u32
        ensures { IsPlaced self.now.1 self.now.0 out.old out.new written.new result }
    {
        place(&self.text, self.status, out, written)
    }
}

/// The status of a run on texts, and the text for the caller: what the run wrote, or the line of
/// its fault. If there is no memory for the line, the text is empty.
pub(crate) fn ended(answer: Result<bool, RunError>, report: Output<Vec<u8>>) -> Answer
    ensures { EndsOnTexts answer (writer_of report).items result.0 result.1 }
{
    match printed(answer, report) {
        Ok(printed) => printed,
        Err(no_line) => Answer {
            status: Status::OutOfMemory as u8,
            text: no_line.into_text(),
        },
    }
}

/// Like [`ended`], but fails if there is no memory for the line.
///
/// # Errors
///
/// Out of memory.
fn printed(answer: Result<bool, RunError>, report: Output<Vec<u8>>) -> Result<Answer, NoLine>
    ensures { MatchResult result
        (λ printed. IsPrinted answer (writer_of report).items printed.0 printed.1)
        (λ no_line. IsErr answer) }
{
    let text = report.into_inner();
    match answer {
        Ok(accepts) => Ok(Answer {
            status: status_of(&Ok(accepts)),
            text,
        }),
        Err(error) => {
            let fault = without_devices(error.fault());
            let line = line_of(text, fault)?;
            Ok(Answer {
                status: status_of(&Err(fault)),
                text: line,
            })
        }
    }
}

/// The fault of a run in memory, without devices: a failed read or write means that memory ran out.
fn without_devices(fault: RunFault) -> RunFault
    ensures { result ≡ without_devices fault }
{
    match fault {
        RunFault::File {
            file,
            fault: ReadFault::Device,
        } => RunFault::File {
            file,
            fault: ReadFault::OutOfMemory,
        },
        RunFault::Write(WriteFault::Device) => RunFault::Write(WriteFault::OutOfMemory),
        other => other,
    }
}

// ---- put a text into a caller's buffer if it fits

/// Puts a text at the start of a buffer if it fits, and writes its length. Returns the text's
/// status, or that the text doesn't fit.
pub(crate) fn place(text: &[u8], status: u8, out: &mut [u8], written: &mut usize) -> u32
    ensures { IsPlaced text.now status out.old out.new written.new result }
{
    *written = text.len();
    if text.len() > out.len() {
        return TOO_SMALL;
    }
    out[..text.len()].copy_from_slice(text);
    u32::from(status)
}

// ---- the line of a fault, as the program writes it on standard error, in memory

/// There was no memory for a line. Only `line_of` and `line_of_solving` make one, after a failed
/// write to memory.
#[derive(Drop)]
pub(crate) struct NoLine {
    text: Vec<u8>,
    error: io::Error,
}

impl NoLine {
    /// The text without the line.
    pub(crate) fn into_text(self) -> Vec<u8>
        ensures { result.items ≡ [] }
    {
        let NoLine { mut text, error } = self;
        drop(error);
        text.clear();
        text
    }
}

/// The line of a fault, replacing a text.
///
/// # Errors
///
/// Out of memory.
fn line_of(mut text: Vec<u8>, fault: RunFault) -> Result<Vec<u8>, NoLine>
    ensures { IfOk result (λ line. line.items ≡ fault_line fault) }
{
    text.clear();
    match writeln!(text, "{fault}") {
        Ok(()) => Ok(text),
        Err(error) => Err(NoLine { text, error }),
    }
}

/// The line of a fault of `tsp_solution`.
///
/// # Errors
///
/// Out of memory.
fn line_of_solving(alloc: Global, fault: SolutionRunFault) -> Result<Vec<u8>, NoLine>
    ensures { IfOk result (λ line. line.items ≡ solving_line fault) }
{
    let mut text = Vec::new(alloc);
    let told = writeln!(text, "{fault}");
    match told {
        Ok(()) => Ok(text),
        Err(error) => Err(NoLine { text, error }),
    }
}
