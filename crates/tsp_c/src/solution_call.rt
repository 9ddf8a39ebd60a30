//! The C call `tsp_solution`: reads a solution in any form, given by the numbers of
//! `bindings/c/tsp.h`. `lib.rt` exports it. `specs/SolutionCall.antt` pins what each number means,
//! and the numbers never change.

ghost use Rattle.std.specs.Prelude.{◌≡◌, option_map};
ghost use Rattle.tsp_c.specs.SolutionCall.{SolvesBy, SolvesText, depot_by, hints_by, known_instance, numberings, status_of_solving};
ghost use Rattle.tsp_c.specs.NumberCalls.{nth};
ghost use Rattle.tsp_solution.specs.Forms.{all_forms};

use crate::ended::Answer;
use std::alloc::Global;
use tsp_format::MOST_NODES;
use tsp_judge::{RunFault, Status, status_of};
use tsp_solution::{Form, Hints, Numbering, SolutionFault, SolutionRunFault, solution_text};

/// The numbers of a call of `tsp_solution`: the form, the number of the first node, and the depot.
#[derive(Clone, Copy)]
pub(crate) struct HintNumbers {
    pub(crate) form: u32,
    pub(crate) first: u32,
    pub(crate) depot: u32,
}

/// What `tsp solution` writes for a text, and the status. An empty `instance` means that there is
/// none.
pub(crate) fn solution_by(
    alloc: Global,
    solution: &[u8],
    instance: &[u8],
    numbers: HintNumbers,
) -> Answer
    ensures { SolvesBy numbers.form numbers.first numbers.depot solution.now instance.now result.0 result.1 }
{
    if numbers.form > 10 || numbers.first > 2 || numbers.depot > MOST_NODES {
        return Answer::refused(alloc);
    }
    solved(alloc, solution, instance, hints_of(numbers))
}

/// What `tsp solution` writes for a text with these hints, and the status.
fn solved(alloc: Global, solution: &[u8], instance: &[u8], hints: Hints) -> Answer
    ensures { SolvesText hints solution.now instance.now result.0 result.1 }
{
    match solution_text(alloc, solution, known(instance), hints) {
        Ok(text) => Answer::done(text),
        Err(fault) => Answer::unsolved(alloc, fault),
    }
}

/// The text of an instance, if it has bytes.
fn known(instance: &[u8]) -> Option<&[u8]>
    ensures { option_map (λ text. text.now) result ≡ known_instance instance.now }
{
    match instance {
        [] => None,
        _ => Some(instance),
    }
}

/// What the numbers say about a solution.
fn hints_of(numbers: HintNumbers) -> Hints
    ensures { result ≡ hints_by numbers.form numbers.first numbers.depot }
{
    Hints {
        form: form_of(numbers.form),
        numbering: numbering_of(numbers.first),
        depot: depot_of(numbers.depot),
        shape: None,
    }
}

/// The form with a number, or `None` if it has none.
fn form_of(number: u32) -> Option<Form>
    ensures { result ≡ nth number all_forms }
{
    match number {
        1 => Some(Form::Tour),
        2 => Some(Form::Json),
        3 => Some(Form::OrTools),
        4 => Some(Form::Cvrplib),
        5 => Some(Form::LkhRoutes),
        6 => Some(Form::RTour),
        7 => Some(Form::ConcordeEdges),
        8 => Some(Form::ConcordeTour),
        9 => Some(Form::Table),
        10 => Some(Form::List),
        _ => None,
    }
}

/// How nodes count by a number, or `None` if it says nothing.
fn numbering_of(number: u32) -> Option<Numbering>
    ensures { result ≡ nth number numberings }
{
    match number {
        1 => Some(Numbering::FromZero),
        2 => Some(Numbering::FromOne),
        _ => None,
    }
}

/// The depot with this number, or `None` for 0.
fn depot_of(number: u32) -> Option<u32>
    ensures { result ≡ depot_by number }
{
    if number == 0 { None } else { Some(number) }
}

/// The status of a fault: 3 if memory ran out, otherwise 2.
pub(crate) fn status_of_solving(fault: SolutionRunFault) -> u8
    ensures { result ≡ status_of_solving fault }
{
    match fault {
        SolutionRunFault::File {
            file: _,
            fault: SolutionFault::Place { .. },
        } => Status::NotJudged as u8,
        SolutionRunFault::File {
            file,
            fault: SolutionFault::File(fault),
        } => status_of(&Err(RunFault::File { file, fault })),
        SolutionRunFault::File {
            file: _,
            fault: SolutionFault::OutOfMemory,
        } => Status::OutOfMemory as u8,
        SolutionRunFault::Write(fault) => status_of(&Err(RunFault::Write(fault))),
    }
}
