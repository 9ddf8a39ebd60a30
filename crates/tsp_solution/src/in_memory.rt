//! Reads a solution from a text in memory, and writes it to memory. tsp_c calls it, and tsp_tool for
//! `tsp check --form`. By `specs/SolutionText.antt`, it returns what `write_solution` would write.

ghost use Rattle.std.specs.Prelude.{◌≡◌, MatchResult, option_map};
ghost use Rattle.tsp_solution.specs.SolutionText.{GivesHintsOf, IsSolutionText};

use crate::fault::{FormFault, SolutionFault};
use crate::hints::{Hints, InstanceShape};
use crate::solution_writer::{SolutionRunFault, write_read};
use crate::word_place::Place;
use std::alloc::Global;
use tsp_format::MOST_FILE_BYTES;
use tsp_io::Output;
use tsp_read::{ReadFault, file_of_bytes};

/// Reads a solution from its text, and returns what `write_solution` writes for it. Without an
/// instance, the hints alone say what is known about it.
///
/// # Errors
///
/// `File` with the number 1 and the fault of the solution, or with 2 and that of the instance, as
/// `write_solution` returns.
pub fn solution_text(
    alloc: Global,
    solution: &[u8],
    instance: Option<&[u8]>,
    hints: Hints,
) -> Result<Vec<u8>, SolutionRunFault>
    ensures { IsSolutionText hints solution.now (option_map (λ text. text.now) instance.entry) result }
{
    if solution.len() > MOST_FILE_BYTES {
        return Err(SolutionRunFault::File {
            file: 1,
            fault: SolutionFault::File(ReadFault::TooLong),
        });
    }
    let known = match hints_by(alloc, instance, hints) {
        Ok(known) => known,
        Err(fault) => return Err(SolutionRunFault::File { file: 2, fault }),
    };
    let mut text = Output::new(Vec::new(alloc));
    match write_read(alloc, solution, known, &mut text) {
        Ok(()) => Ok(text.into_inner()),
        Err(SolutionRunFault::File { file, fault }) => {
            drop(text);
            Err(SolutionRunFault::File { file, fault })
        }
        Err(SolutionRunFault::Write(_)) => {
            drop(text);
            Err(SolutionRunFault::File {
                file: 1,
                fault: SolutionFault::OutOfMemory,
            })
        }
    }
}

/// The hints with the shape of the instance that a text is, if there is one.
///
/// # Errors
///
/// `File` with the fault of the instance; `NotAnInstance` at its first word if it is a file of
/// another TYPE.
fn hints_by(alloc: Global, instance: Option<&[u8]>, hints: Hints) -> Result<Hints, SolutionFault>
    ensures { GivesHintsOf hints (option_map (λ text. text.now) instance.entry) result }
{
    let Some(text) = instance else {
        return Ok(hints);
    };
    let file = match file_of_bytes(alloc, text) {
        Ok(file) => file,
        Err(unread) => return Err(SolutionFault::File(unread.fault())),
    };
    let shape = InstanceShape::of(&file);
    drop(file);
    hints.with_shape(shape)
}
