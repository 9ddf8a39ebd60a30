//! The run of `tsp solution`: opens the files that a job asks for, and has tsp_solution read and
//! write the solution. `running.rt` comes here for the verb `solution`. `specs/SolutionJobs.antt`
//! pins how it ends.

ghost use Rattle.std.specs.Prelude.{◌≡◌, ◌↔◌, IsTrue, OnOk, Some};
ghost use Rattle.tsp_tool.specs.Grammar.{text_in};
ghost use Rattle.tsp_io.specs.states.Output.{sink_of};
ghost use Rattle.tsp_tool.specs.ProgramRun.{EndsWith, IsFresh, RunsJob};
ghost use Rattle.tsp_tool.specs.RunEnd.{TellsAll, status_of_solved};
ghost use Rattle.tsp_tool.specs.SolutionJobs.{AreBothInput, GivesDepot, GivesForm, GivesNumbering, GivesSolution, IsInstanceAt, IsInstanceOpened, IsWrittenAnew, Lists};
ghost use Rattle.tsp_tool.specs.declared.ends.RunEnd.TheVariants.{Solved};
ghost use Rattle.tsp_tool.specs.declared.job.Verb.TheVariants as verbs;

use crate::ends::{RunEnd, status_of_run_end, tell};
use crate::explained::{again, name_of};
use crate::input::Open;
use crate::job::{InputPath, Job, TaskFault, input_path_at, input_path_of};
use crate::running::{append, fresh, tell_fault_of_job};
use std::alloc::Global;
use std::io::{self, Write};
use tsp_explain::{explain_file, push_lines};
use tsp_format::MOST_NODES;
use tsp_io::{Gives, Output, Takes, Watched, write_text};
use tsp_number::parse_whole;
use tsp_report::Role;
use tsp_solution::{
    Form, Hints, Numbering, SolutionFault, SolutionRunFault, table_of_forms, write_solution,
};

/// A solution to be rewritten: its file, the instance's if one is named, and what the words say
/// about it.
#[derive(Clone, Copy)]
pub struct SolutionTask<'a> {
    pub solution: InputPath<'a>,
    pub instance: Option<InputPath<'a>>,
    pub hints: Hints,
}

/// The solution that a job asks to rewrite.
///
/// # Errors
///
/// The first of these that holds: `MissingPath` if no solution is named; `UnknownForm`, `NotAFirst`
/// and `NotADepot` if a word is none of these; `InputTwice` if both files are standard input.
pub fn solution_task_of(job: &Job) -> Result<SolutionTask<'_>, TaskFault>
    ensures { GivesSolution job.now result }
{
    let solution = input_path_of(job.solution.as_ref())?;
    let form = form_of(&job.form)?;
    let numbering = numbering_of(&job.first)?;
    let depot = depot_of(&job.depot)?;
    let instance = instance_of(&job.file);
    let hints = Hints {
        form,
        numbering,
        depot,
        shape: None,
    };
    let task = SolutionTask {
        solution,
        instance,
        hints,
    };
    if are_both_input(task) {
        return Err(TaskFault::InputTwice);
    }
    Ok(task)
}

/// Whether the solution and its instance are both standard input.
fn are_both_input(task: SolutionTask<'_>) -> bool
    ensures { IsTrue result ↔ AreBothInput task.entry }
{
    match (task.solution, task.instance) {
        (InputPath::Input, Some(InputPath::Input)) => true,
        _ => false,
    }
}

/// The file of the instance, if a path names one.
fn instance_of(path: &Option<String>) -> Option<InputPath<'_>>
    ensures { IsInstanceAt (text_in path.now) result }
{
    match path {
        Some(path) => Some(input_path_at(path)),
        None => None,
    }
}

/// The form with a name, if there is a name other than `auto`.
pub(crate) fn form_of(word: &Option<String>) -> Result<Option<Form>, TaskFault>
    ensures { GivesForm word.now result }
{
    let Some(word) = word else {
        return Ok(None);
    };
    match word.as_str() {
        "auto" => Ok(None),
        name => match Form::of_word(name) {
            Some(form) => Ok(Some(form)),
            None => Err(TaskFault::UnknownForm),
        },
    }
}

/// How nodes are counted, if a word gives the number of the first one.
fn numbering_of(word: &Option<String>) -> Result<Option<Numbering>, TaskFault>
    ensures { GivesNumbering word.now result }
{
    let Some(word) = word else {
        return Ok(None);
    };
    match word.as_str() {
        "0" => Ok(Some(Numbering::FromZero)),
        "1" => Ok(Some(Numbering::FromOne)),
        _ => Err(TaskFault::NotAFirst),
    }
}

/// The depot that a word is read as, if there is a word.
fn depot_of(word: &Option<String>) -> Result<Option<u32>, TaskFault>
    ensures { GivesDepot word.now result }
{
    let Some(word) = word else {
        return Ok(None);
    };
    match parse_whole(word.as_bytes(), 1, i64::from(MOST_NODES)) {
        Ok(depot) => Ok(Some(depot as u32)),
        Err(_) => Err(TaskFault::NotADepot),
    }
}

/// Rewrites the solution of a job, or lists the forms, and reports how that ended. The result is
/// like that of `run`.
pub(crate) fn run_solution<F: Gives + Drop, O: Open<F>, W: Takes, E: Write>(
    alloc: Global,
    job: &Job,
    files: &O,
    out: &mut Output<W>,
    errors: &mut E,
    explain: bool,
) -> (u8, io::Result<()>)
    requires { job.now.verb ≡ Some verbs.Solution }
    ensures { RunsJob (EndsWith F.remaining F.gives (O.opens files.now) job.now (sink_of W.contents out.old out.new))
        explain (E.contents errors.old) (E.contents errors.new) result }
{
    if job.forms {
        return tell_solved(alloc, None, files, list_forms(out), errors, explain);
    }
    match solution_task_of(job) {
        Ok(task) => {
            let solved = solve(alloc, task, files, out);
            tell_solved(alloc, Some(task), files, solved, errors, explain)
        }
        Err(fault) => {
            let reported = tell_fault_of_job(alloc, fault, errors, explain);
            (status_of_run_end(&RunEnd::NoTask(fault)), reported)
        }
    }
}

/// Opens the files of a solution, and rewrites it.
fn solve<F: Gives + Drop, O: Open<F>, W: Takes>(
    alloc: Global,
    task: SolutionTask<'_>,
    files: &O,
    out: &mut Output<W>,
) -> Result<(), SolutionRunFault>
    ensures { IsWrittenAnew F.remaining F.gives (IsFresh (O.opens files.now)) task.entry
        (sink_of W.contents out.old out.new) result }
{
    let mut solution = fresh(task.solution, files);
    let mut instance = opened_instance(task.instance, files);
    write_solution(alloc, &mut solution, &mut instance, task.hints, out)
}

/// Opens the file of the instance, if one is named.
fn opened_instance<F: Gives + Drop, O: Open<F>>(
    instance: Option<InputPath<'_>>,
    files: &O,
) -> Option<Watched<F>>
    ensures { IsInstanceOpened (IsFresh (O.opens files.now)) instance.entry result }
{
    match instance {
        Some(place) => Some(fresh(place, files)),
        None => None,
    }
}

/// Prints the table of the forms.
fn list_forms<W: Takes>(out: &mut Output<W>) -> Result<(), SolutionRunFault>
    ensures { Lists (sink_of W.contents out.old out.new) result }
{
    match write_text(out, table_of_forms().as_bytes()) {
        Ok(()) => Ok(()),
        Err(fault) => Err(SolutionRunFault::Write(fault)),
    }
}

/// Reports how a run ended, with an explanation of a fault if one is wanted. `task` is none if forms
/// were listed.
fn tell_solved<F: Gives + Drop, O: Open<F>, E: Write>(
    alloc: Global,
    task: Option<SolutionTask<'_>>,
    files: &O,
    solved: Result<(), SolutionRunFault>,
    errors: &mut E,
    explain: bool,
) -> (u8, io::Result<()>)
    ensures status { result.0 ≡ status_of_solved solved }
    ensures told { OnOk result.1 (TellsAll explain (Solved solved) (E.contents errors.old) (E.contents errors.new)) }
{
    let run_end = RunEnd::Solved(solved);
    let reported = tell_end(alloc, task, files, solved, errors, explain);
    (status_of_run_end(&run_end), reported)
}

/// Reports and explains how a run ended.
fn tell_end<F: Gives + Drop, O: Open<F>, E: Write>(
    alloc: Global,
    task: Option<SolutionTask<'_>>,
    files: &O,
    solved: Result<(), SolutionRunFault>,
    errors: &mut E,
    explain: bool,
) -> io::Result<()>
    ensures { OnOk result (TellsAll explain (Solved solved) (E.contents errors.old) (E.contents errors.new)) }
{
    tell(&RunEnd::Solved(solved), errors)?;
    if !explain {
        return Ok(());
    }
    append(errors, explanation(alloc, task, files, solved))
}

/// Explains line by line how a run ended, reading a faulty file once more if possible.
fn explanation<F: Gives + Drop, O: Open<F>>(
    alloc: Global,
    task: Option<SolutionTask<'_>>,
    files: &O,
    solved: Result<(), SolutionRunFault>,
) -> Vec<u8> {
    let mut text = Vec::new(alloc);
    let _ = match solved {
        Err(
            SolutionRunFault::File {
                file: _,
                fault: SolutionFault::Place {
                    line: _,
                    word: _,
                    fault,
                },
            },
        ) => push_lines(&mut text, fault.sentence()),
        Err(
            SolutionRunFault::File {
                file,
                fault: SolutionFault::File(fault),
            },
        ) => match named(task, file) {
            Some((role, place)) => {
                let again = again(place, files);
                explain_file(alloc, &mut text, name_of(place), Some(role), again, fault)
            }
            None => Ok(()),
        },
        _ => Ok(()),
    };
    text
}

/// What the file of a task with this number is for, and its place.
fn named(task: Option<SolutionTask<'_>>, file: u32) -> Option<(Role, InputPath<'_>)> {
    let task = task?;
    match file {
        1 => Some((Role::Solution, task.solution)),
        _ => Some((Role::Instance, task.instance?)),
    }
}
