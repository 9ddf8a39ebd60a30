//! The run of `tsp solution`: reads a solution, and its instance if one is named, and writes the
//! canonical text of a file of TYPE TOUR. tsp_tool calls it, and `specs/SolutionRun.antt` pins how
//! it ends.

ghost use Rattle.std.specs.Prelude.{◌≡◌, ◌++◌, MatchResult, IfErr, OnOk, false};
ghost use Rattle.tsp_solution.specs.SolutionRun.{GivesHints, IsInstanceReadOn, IsSolutionRun, IsReadWhole, StopsText, TakesInstance, WritesRead};
ghost use Rattle.tsp_solution.specs.declared.fault.SolutionFault.TheVariants.{OutOfMemory};
ghost use Rattle.tsp_io.specs.states.Output.{FailsByWrite, sink_of};
ghost use Rattle.tsp_io.specs.Streams.{TakesAtMost};
ghost use Rattle.tsp_io.specs.states.Watched.{has_failed, read_trace_of};
ghost use Rattle.tsp_read.specs.Reads.{IsReadOn, most_taken};

use crate::fault::SolutionFault;
use crate::hints::{Hints, InstanceShape};
use crate::tour_file::solution_of;
use std::alloc::Global;
use std::fmt;
use std::io::Read;
use thiserror::Error;
use tsp_file::write_file;
use tsp_format::MOST_FILE_BYTES;
use tsp_io::{Gives, Output, Takes, Watched, WriteFault};
use tsp_read::{ReadFault, file_of_reader};

/// The most bytes that a reader is asked for at once.
const PIECE_BYTES: usize = 4_096;

/// Why no solution was written whole.
#[derive(Clone, Copy, Debug, PartialEq, Eq, Error)]
pub enum SolutionRunFault {
    /// The file with this number isn't read: 1 is the solution, 2 the instance.
    File { file: u32, fault: SolutionFault },
    /// The output couldn't be written.
    Write(WriteFault),
}

impl fmt::Display for SolutionRunFault {
    ghost use Rattle.std.specs.Prelude.{Some};
    ghost use Rattle.tsp_solution.specs.FaultTexts.{solution_run_fault_text};

    ghost output = { λ fault. Some (solution_run_fault_text fault) };

    fn fmt<W: fmt::Write>(&self, f: &mut fmt::Formatter<W>) -> fmt::Result {
        match *self {
            SolutionRunFault::File { file, fault } => write!(f, "file {file}: {fault}"),
            SolutionRunFault::Write(fault) => write!(f, "output: {fault}"),
        }
    }
}

/// Reads a solution, and writes it as a file of TYPE TOUR.
///
/// The solution is read whole, then the instance if there is one, whose shape replaces that of the
/// hints. Nothing is written before the file is known. From each reader, at most 4,096 bytes past
/// `MOST_FILE_BYTES` are read.
///
/// # Errors
///
/// `File` with the fault of the solution or of the instance, and then nothing is written; `Write` if
/// the writer fails.
pub fn write_solution<R: Gives, I: Gives, W: Takes>(
    alloc: Global,
    solution: &mut Watched<R>,
    instance: &mut Option<Watched<I>>,
    hints: Hints,
    out: &mut Output<W>,
) -> Result<(), SolutionRunFault>
    ensures answer { TakesAtMost most_taken (read_trace_of R.remaining solution.old solution.new) (λ first.
        TakesInstance I.remaining instance.old instance.new (λ second.
        IsSolutionRun hints first second (sink_of W.contents out.old out.new) result)) }
    ensures asked { IsReadOn R.gives solution.old solution.new × IsInstanceReadOn I.gives instance.old instance.new }
    ensures cause { FailsByWrite W.takes out.new }
{
    let text = match read_text(alloc, solution) {
        Ok(text) => text,
        Err(fault) => return Err(SolutionRunFault::File { file: 1, fault }),
    };
    let known = match hints_for(alloc, instance, hints) {
        Ok(known) => known,
        Err(fault) => {
            drop(text);
            return Err(SolutionRunFault::File { file: 2, fault });
        }
    };
    let written = write_read(alloc, &text, known, out);
    drop(text);
    written
}

/// Writes the solution that a text is, by what is known about it, as a file of TYPE TOUR.
///
/// # Errors
///
/// `File` with the number 1 and the fault of the text; `Write`.
pub(crate) fn write_read<W: Takes>(
    alloc: Global,
    text: &[u8],
    known: Hints,
    out: &mut Output<W>,
) -> Result<(), SolutionRunFault>
    ensures { WritesRead known text.now (sink_of W.contents out.old out.new) result }
{
    let file = match solution_of(alloc, text, known) {
        Ok(file) => file,
        Err(fault) => return Err(SolutionRunFault::File { file: 1, fault }),
    };
    let written = write_file(alloc, &file, out);
    drop(file);
    match written {
        Ok(()) => Ok(()),
        Err(fault) => Err(SolutionRunFault::Write(fault)),
    }
}

/// The hints with the shape of an instance, if there is one.
///
/// # Errors
///
/// `File` with the fault of the instance; `NotAnInstance` at its first word if it is a file of
/// another TYPE.
fn hints_for<I: Gives>(
    alloc: Global,
    instance: &mut Option<Watched<I>>,
    hints: Hints,
) -> Result<Hints, SolutionFault>
    ensures answer { TakesInstance I.remaining instance.old instance.new (λ second. GivesHints hints second result) }
    ensures asked { IsInstanceReadOn I.gives instance.old instance.new }
{
    let Some(reader) = instance else {
        return Ok(hints);
    };
    let file = match file_of_reader(alloc, reader) {
        Ok(file) => file,
        Err(unread) => return Err(SolutionFault::File(unread.fault())),
    };
    let shape = InstanceShape::of(&file);
    drop(file);
    hints.with_shape(shape)
}

/// Reads all bytes of a reader, if there are no more than a file may have.
///
/// # Errors
///
/// `Device` if a read fails, or had failed before; `TooLong`; `OutOfMemory`.
pub fn read_text<R: Gives>(alloc: Global, reader: &mut Watched<R>) -> Result<Vec<u8>, SolutionFault>
    ensures answer { TakesAtMost most_taken (read_trace_of R.remaining reader.old reader.new) (λ read_trace.
        MatchResult result (λ text. IsReadWhole read_trace × (text.items ≡ read_trace.given)) (λ fault. StopsText fault read_trace)) }
    ensures asked { IsReadOn R.gives reader.old reader.new }
{
    if reader.failed() {
        return Err(SolutionFault::File(ReadFault::Device));
    }
    read_pieces(alloc, reader)
}

/// Reads all bytes of a reader that hasn't failed, in pieces.
///
/// # Errors
///
/// Those of `read_text`.
fn read_pieces<R: Gives>(alloc: Global, reader: &mut Watched<R>) -> Result<Vec<u8>, SolutionFault>
    requires sound { has_failed reader.old ≡ false }
    ensures answer { TakesAtMost most_taken (read_trace_of R.remaining reader.old reader.new) (λ read_trace.
        MatchResult result (λ text. IsReadWhole read_trace × (text.items ≡ read_trace.given)) (λ fault. StopsText fault read_trace)) }
    ensures asked { IsReadOn R.gives reader.old reader.new }
{
    let mut text = Vec::new(alloc);
    let mut piece = [0u8; PIECE_BYTES];
    'pieces: while text.len() <= MOST_FILE_BYTES {
        let Ok(count) = reader.read(&mut piece) else {
            drop(text);
            return Err(SolutionFault::File(ReadFault::Device));
        };
        if count == 0 {
            return Ok(text);
        }
        append(&mut text, &piece[..count])?;
    }
    drop(text);
    Err(SolutionFault::File(ReadFault::TooLong))
}

/// Adds a piece to a text.
fn append(text: &mut Vec<u8>, piece: &[u8]) -> Result<(), SolutionFault>
    ensures added { OnOk result (text.new.items ≡ text.old.items ++ piece.now) }
    ensures refused { IfErr result (λ fault. fault ≡ OutOfMemory) }
{
    match text.extend_from_slice(piece) {
        Ok(()) => Ok(()),
        Err(_) => Err(SolutionFault::OutOfMemory),
    }
}
