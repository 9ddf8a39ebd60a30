//! Explains the outcome or the fault of a task to the user. tsp_tool and tsp_c call it after a run.
//! Contracts say only that text is appended, so you can change the words freely.

ghost use Rattle.std.specs.Io.{StartsWith};

use crate::compare_run::ComparisonContext;
use crate::run_status::RunFault;
use crate::task_run::Outcome;
use std::alloc::{AllocError, Global};
use std::io::{self, Read};
use tsp_explain::{
    Files, Names, explain_bound, explain_file, explain_lines, explain_verdict, explain_wrong_kind,
    push_error, relayout_sentence, write_sentence,
};
use tsp_file::File;
use tsp_io::WriteFault;
use tsp_report::{CertificateKind, FileTask, Role, Task};
use tsp_verdict::Verdict;

/// Explains a line `no` by the files that were judged. After `yes`, says whether a comment in the
/// solution claims another length.
///
/// # Errors
///
/// Out of memory. Part of the explanation may have been appended.
pub fn explain_outcome<'a>(
    alloc: Global,
    text: &mut Vec<u8>,
    names: &Task<'_, &'a str>,
    outcome: &'a Outcome,
) -> Result<(), AllocError>
    ensures { StartsWith text.new.items text.old.items }
{
    match outcome {
        Outcome::Done => Ok(()),
        Outcome::Judged(judged) => {
            let files = Files {
                names: names_of(names, ""),
                instance: &judged.instance,
                solution: Some(&judged.solution),
                certificate: file_of(&judged.certificate),
            };
            explain_verdict(alloc, text, files, judged.verdict)
        }
        Outcome::Bounded(bounded) => {
            let files = Files {
                names: names_of(names, ""),
                instance: &bounded.instance,
                solution: None,
                certificate: Some(&bounded.certificate),
            };
            explain_bound(alloc, text, files, bounded.found)
        }
    }
}

/// If no solution of a comparison was opened, explains why.
///
/// # Errors
///
/// Out of memory. Part of the explanation may have been appended.
pub fn explain_known_bound<'a>(
    alloc: Global,
    text: &mut Vec<u8>,
    names: &Task<'_, &'a str>,
    common: &'a ComparisonContext,
) -> Result<(), AllocError>
    ensures { StartsWith text.new.items text.old.items }
{
    let Some(Err(reason)) = common.known_bound.found else {
        return Ok(());
    };
    let files = Files {
        names: names_of(names, ""),
        instance: &common.instance,
        solution: None,
        certificate: file_of(&common.certificate),
    };
    explain_bound(alloc, text, files, Err(reason))
}

/// A solution in a comparison.
#[derive(Clone, Copy)]
pub struct Solution<'a> {
    /// What the user calls its file.
    pub name: &'a str,
    pub file: &'a File,
    pub verdict: Verdict,
}

/// Explains the verdict on a solution in a comparison, as `explain_outcome` does.
///
/// # Errors
///
/// Out of memory. Part of the explanation may have been appended.
pub fn explain_solution<'a>(
    alloc: Global,
    text: &mut Vec<u8>,
    names: &Task<'_, &'a str>,
    common: &'a ComparisonContext,
    solution: Solution<'a>,
) -> Result<(), AllocError>
    ensures { StartsWith text.new.items text.old.items }
{
    let files = Files {
        names: names_of(names, solution.name),
        instance: &common.instance,
        solution: Some(solution.file),
        certificate: file_of(&common.certificate),
    };
    explain_verdict(alloc, text, files, solution.verdict)
}

/// Explains a fault. `again` is the faulty file, if it can be read once more; for files of the
/// wrong kind, the first one. `error` is the system's error of a failed write.
///
/// # Errors
///
/// Out of memory. Part of the explanation may have been appended.
pub fn explain_fault<R: Read + Drop>(
    alloc: Global,
    text: &mut Vec<u8>,
    names: &Task<'_, &str>,
    again: Option<R>,
    error: Option<&io::Error>,
    fault: RunFault,
) -> Result<(), AllocError>
    ensures { StartsWith text.new.items text.old.items }
{
    match fault {
        RunFault::File { file, fault } => {
            let (given, name) = named(names, file);
            explain_file(alloc, text, name, given, again, fault)
        }
        RunFault::WrongKind => {
            let (_, name) = named(names, 1);
            explain_wrong_kind(alloc, text, name, is_bound(names), again)
        }
        RunFault::Write(fault) => explain_write(alloc, text, fault, error),
        RunFault::OutOfMemory => {
            explain_lines(alloc, text, "There is no memory for what is to be done.")
        }
        RunFault::Relayout(fault) => explain_lines(alloc, text, relayout_sentence(fault)),
    }
}

/// Explains that a text could not be written, with the system's error.
fn explain_write(
    alloc: Global,
    text: &mut Vec<u8>,
    fault: WriteFault,
    error: Option<&io::Error>,
) -> Result<(), AllocError>
    ensures { StartsWith text.new.items text.old.items }
{
    explain_lines(alloc, text, write_sentence(fault))?;
    match error {
        None => Ok(()),
        Some(error) => push_error(alloc, text, error),
    }
}

/// The role of the file with this number, and its name.
fn named<'a>(names: &Task<'_, &'a str>, number: u32) -> (Option<Role>, &'a str) {
    match names.file(number) {
        Some((given, name)) => (given, *name),
        None => (None, ""),
    }
}

/// The names of the files by their roles. `solution` is the one in a comparison.
fn names_of<'a>(names: &Task<'_, &'a str>, solution: &'a str) -> Names<'a> {
    let mut all = Names {
        instance: "",
        solution,
        certificate: "",
    };
    for number in 1..=3 {
        match named(names, number) {
            (Some(Role::Instance), name) => all.instance = name,
            (Some(Role::Solution), name) => all.solution = name,
            (Some(Role::Potentials | Role::Branches), name) => all.certificate = name,
            (None, _) => {}
        }
    }
    all
}

/// The file of a certificate, if one was read.
fn file_of(certificate: &Option<(CertificateKind, File)>) -> Option<&File> {
    match certificate {
        Some((_, file)) => Some(file),
        None => None,
    }
}

/// Whether a bound is wanted, and no solution is judged.
fn is_bound<F>(task: &Task<'_, F>) -> bool {
    matches!(task, Task::Files(FileTask::Bound { .. }))
}
