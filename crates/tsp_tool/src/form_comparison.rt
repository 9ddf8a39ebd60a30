//! `tsp compare --form`: compares the text that `tsp solution --of` would write for each solution.
//! A file that has no such text is compared as it stands. `running.rt` comes here if a comparison
//! names a form. `specs/FormComparison.antt` pins which text is compared.

ghost use Rattle.std.specs.Prelude.{◌≡◌, ◌≢◌, IfOk, MatchResult, ⊤, length, map};
ghost use Rattle.std.specs.String.{string_bytes};
ghost use Rattle.tsp_io.specs.states.Output.{FailsByWrite, sink_of};
ghost use Rattle.tsp_judge.specs.CompareRun.{IsFollowed};
ghost use Rattle.tsp_text.specs.declared.fault.ReadFault.TheVariants as read_faults;
ghost use Rattle.tsp_solution.specs.declared.fault.SolutionFault.TheVariants as faults;
ghost use Rattle.tsp_tool.specs.FormCheck.{form_hints};
ghost use Rattle.tsp_tool.specs.FormComparison.{ComparesTextsOf, HoldsSolution, HoldsUnread, IsKnownBy, IsOpenedByForm, OpensByForm, is_refusal, too_many_blanks};
ghost use Rattle.tsp_tool.specs.ProgramRun.{IsFresh, paths_of};
ghost use Rattle.tsp_tool.specs.RunEnd.{MayTell};

use crate::explained::{Followed, TaskRun};
use crate::form_check::{opened_certificate, text_at};
use crate::held_text::HeldText;
use crate::input::Open;
use crate::job::{InputPath, input_path_at};
use std::alloc::{AllocError, Global};
use std::io::Write;
use tsp_format::MOST_FILE_BYTES;
use tsp_io::{Gives, Output, Takes, filled};
use tsp_judge::{
    Compared, ComparisonContext, Follow, Found, RunError, Solutions, Watched, run_compare,
};
use tsp_read::{ReadFault, file_of_bytes};
use tsp_report::Comparison;
use tsp_solution::{Form, Hints, InstanceShape, SolutionFault, SolutionRunFault, solution_text};

/// The solutions of a comparison, each rewritten when it is opened.
#[derive(Drop)]
pub(crate) struct ByForm<'a, F, O> {
    followed: &'a Followed<'a, F, O>,
}

impl<F: Gives + Drop, O: Open<F>> Solutions<HeldText> for ByForm<'_, F, O> {
    ghost names = { λ by_form. map string_bytes by_form.followed.now.solutions.now };

    ghost opens = { λ by_form. IsOpenedByForm F.remaining F.gives (IsFresh (O.opens by_form.followed.now.task_run.now.files.now))
        by_form.followed.now.known (map string_bytes by_form.followed.now.solutions.now) };

    fn count(&self) -> usize {
        self.followed.solutions.len()
    }

    fn name(&self, index: usize) -> &[u8] {
        self.followed.solutions[index].as_bytes()
    }

    fn open(&self, index: usize) -> Result<HeldText, AllocError> {
        let place = input_path_at(&self.followed.solutions[index]);
        let task_run = self.followed.task_run;
        open_by_form(task_run.alloc, self.followed.known, place, task_run.files)
    }
}

impl<F: Gives + Drop, O: Open<F>, E: Write> Follow<E> for ByForm<'_, F, O> {
    ghost tells = { λ by_form _ old new. MayTell by_form.followed.now.task_run.now.explain (E.contents old) (E.contents new) };

    fn written(&self, to: &mut E, common: &ComparisonContext, index: usize, found: &Found) {
        self.followed.written(to, common, index, found)
    }
}

/// Compares the solutions, each in this form or in any, on the instance with this text.
///
/// # Errors
///
/// Those of `run_compare`.
pub(crate) fn compare_by_form<F: Gives + Drop, O: Open<F>, W: Takes, E: Write>(
    task_run: &TaskRun<'_, F, O>,
    comparison: &Comparison<'_, InputPath<'_>>,
    form: Option<Form>,
    instance: &[u8],
    out: &mut Output<W>,
    errors: &mut E,
) -> Result<Compared, RunError>
    ensures text { ComparesTextsOf F.remaining F.gives (IsFresh (O.opens task_run.now.files.now)) form
        comparison.now (paths_of comparison.now) instance.now (sink_of W.contents out.old out.new) result }
    ensures reported { IsFollowed (λ _ old new. MayTell task_run.now.explain (E.contents old) (E.contents new))
        (length (paths_of comparison.now)) errors.old errors.new result }
    ensures cause { FailsByWrite W.takes out.new }
{
    let followed = Followed {
        task_run,
        solutions: comparison.solutions,
        known: known_by(task_run.alloc, form, instance),
    };
    let by_form = ByForm {
        followed: &followed,
    };
    let mut first = Watched::new(instance);
    let mut certificate = opened_certificate(comparison.certificate, task_run.files);
    run_compare(
        task_run.alloc,
        &mut first,
        &mut certificate,
        &by_form,
        comparison.strict,
        out,
        errors,
    )
}

/// What is known about the solutions of the instance with this text. `None` if it has a fault, or
/// if memory is refused.
fn known_by(alloc: Global, form: Option<Form>, instance: &[u8]) -> Option<Hints>
    ensures { IsKnownBy (form_hints form) instance.now result }
{
    let file = match file_of_bytes(alloc, instance) {
        Ok(file) => file,
        Err(_) => return None,
    };
    let shape = InstanceShape::of(&file);
    drop(file);
    match shape {
        Some(shape) => Some(Hints {
            form,
            numbering: None,
            depot: None,
            shape: Some(shape),
        }),
        None => None,
    }
}

/// Opens a solution: reads its file, and returns the text that is compared in its place.
///
/// # Errors
///
/// Memory was refused, or nothing is known about the solutions.
fn open_by_form<F: Gives + Drop, O: Open<F>>(
    alloc: Global,
    known: Option<Hints>,
    place: InputPath<'_>,
    files: &O,
) -> Result<HeldText, AllocError>
    ensures { OpensByForm F.remaining F.gives (IsFresh (O.opens files.now)) known place.entry result }
{
    let Some(hints) = known else {
        return Err(AllocError);
    };
    match text_at(alloc, place, files) {
        Ok(solution) => rewritten(alloc, hints, solution),
        Err(fault) => unread(alloc, fault),
    }
}

/// The text that `tsp solution` writes for this solution. If there is none, the solution's own.
///
/// # Errors
///
/// Memory was refused.
fn rewritten(alloc: Global, known: Hints, solution: Vec<u8>) -> Result<HeldText, AllocError>
    ensures { MatchResult result (λ held. HoldsSolution known solution.items held) (λ _. ⊤) }
{
    match solution_text(alloc, &solution, None, known) {
        Ok(text) => {
            drop(solution);
            Ok(HeldText::of(text))
        }
        Err(fault) => {
            if is_refusal(fault) {
                drop(solution);
                return Err(AllocError);
            }
            Ok(HeldText::of(solution))
        }
    }
}

/// Whether a fault says that memory was refused.
fn is_refusal(fault: SolutionRunFault) -> bool
    ensures { result ≡ is_refusal fault }
{
    match fault {
        SolutionRunFault::File { file: _, fault } => match fault {
            SolutionFault::OutOfMemory | SolutionFault::File(ReadFault::OutOfMemory) => true,
            _ => false,
        },
        SolutionRunFault::Write(_) => false,
    }
}

/// The text in place of a file that can't be read: one whose reads fail, or one that is too long.
///
/// # Errors
///
/// Memory was refused.
fn unread(alloc: Global, fault: SolutionFault) -> Result<HeldText, AllocError>
    ensures { MatchResult result (HoldsUnread fault) (λ _. fault ≢ faults.File read_faults.Device) }
{
    match fault {
        SolutionFault::File(ReadFault::Device) => Ok(HeldText::failing(alloc)),
        SolutionFault::File(ReadFault::TooLong) => Ok(HeldText::of(too_many_blanks(alloc)?)),
        _ => Err(AllocError),
    }
}

/// Blanks, one more than a file may have bytes.
///
/// # Errors
///
/// Memory was refused.
fn too_many_blanks(alloc: Global) -> Result<Vec<u8>, AllocError>
    ensures { IfOk result (λ blanks. blanks.items ≡ too_many_blanks) }
{
    match filled(alloc, b' ', MOST_FILE_BYTES + 1) {
        Ok(blanks) => Ok(blanks),
        Err(_) => Err(AllocError),
    }
}
