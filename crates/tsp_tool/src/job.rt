//! Turns the words of a command line into a job (a verb with its options and paths), and a job into
//! a task on files. `running.rt` calls both. `specs/Grammar.antt` and `specs/JobTasks.antt` pin
//! which words give which task; to add an option, change them, this file and `grammar.rt`.

ghost use Rattle.std.specs.IoError.{error_kind};
ghost use Rattle.std.specs.Prelude.{◌≡◌, ◌≢◌, ◌↔◌, IfOk, IsTrue, None, Some, codes, map, option_map, ◌≤◌};
ghost use Rattle.std.specs.String.{string_bytes};
ghost use Rattle.tsp_report.specs.Tasks.{files_of_task, numbered};
ghost use Rattle.clap.specs.Words.{first_of, found_of, kind_of, rows_of};
ghost use Rattle.tsp_tool.specs.Grammar.{GivesJob, IsFaultOf, IsJobOf, IsOtherRefusal, IsVerbOf, HasValues, text_in, values_of};
ghost use Rattle.tsp_tool.specs.JobTasks.{GivesInputPath, GivesLayout, GivesClaim, GivesCertificate, IsInputPathAt, any_line_end, has_line_end, NamesTask, NamesCheck, NamesComparison, NamesBound, GivesTask, input_at, inputs_at, inputs_of_task};

use crate::grammar;
use clap::error::ErrorKind;
use clap::{ArgMatches, Error as Refusal};
use std::alloc::{AllocError, Global};
use std::io::{self, ErrorKind as IoKind};
use tsp_format::Layout;
use tsp_number::parse_whole;
use tsp_report::{CertificateKind, Comparison, FileTask, Task};

/// The verbs of the program.
#[derive(Clone, Copy)]
pub enum Verb {
    /// Show the contents of a file.
    Show,
    /// Write a file in its normal form.
    Convert,
    /// Judge a solution of an instance.
    Check,
    /// Judge many solutions of an instance.
    Compare,
    /// Compute a bound for an instance without a solution.
    Bound,
    /// Write a solution of another program as a file of TYPE TOUR.
    Solution,
}

impl Verb {
    /// The verb with this word, or `None` if there is none.
    fn of_word(word: &str) -> Option<Verb>
        ensures { IsVerbOf word.now result }
    {
        match word {
            "show" => Some(Verb::Show),
            "convert" => Some(Verb::Convert),
            "check" => Some(Verb::Check),
            "compare" => Some(Verb::Compare),
            "bound" => Some(Verb::Bound),
            "solution" => Some(Verb::Solution),
            _ => None,
        }
    }
}

/// The verb, the options and the paths of a command line. Each verb uses only its own fields.
#[derive(Drop)]
pub struct Job {
    /// What to do, or `None` if no word says so.
    pub verb: Option<Verb>,
    /// The path of the file, or of the instance.
    pub file: Option<String>,
    /// The path of the solution that is checked or rewritten.
    pub solution: Option<String>,
    /// The paths of the solutions in a comparison, in the order given.
    pub solutions: Vec<String>,
    /// The word of the layout that a matrix gets.
    pub layout: Option<String>,
    /// The path of the potentials.
    pub potentials: Option<String>,
    /// The path of the tree of cases.
    pub branches: Option<String>,
    /// The word of the length that is claimed.
    pub length: Option<String>,
    /// The name of the form of a solution.
    pub form: Option<String>,
    /// The word for the number of the first node.
    pub first: Option<String>,
    /// The word of the depot.
    pub depot: Option<String>,
    /// Whether the forms of solutions are listed.
    pub forms: bool,
    /// Whether a line of the instance that the verdict ignores is a reason.
    pub strict: bool,
    /// Whether a fault, or the line `no`, is to be explained.
    pub explain: bool,
}

/// Why words make no job: `clap` refuses them, they ask for help or the version, or memory ran out.
#[derive(Debug, Drop)]
pub enum JobFault {
    /// The command line is refused, or asks for help or the version. The text is that of `clap`.
    Refused(Refusal),
    /// Out of memory.
    OutOfMemory,
}

impl JobFault {
    fn of(refusal: Refusal) -> JobFault
        ensures { IsFaultOf (kind_of refusal) result }
    {
        match refusal.kind() {
            ErrorKind::OutOfMemory => JobFault::OutOfMemory,
            _ => JobFault::Refused(refusal),
        }
    }
}

/// Reads the words of a command line, those after the program's own name: `show F`, `convert F
/// [--layout L]`, `check F T [--potentials P] [--branches B] [--length N] [--form NAME] [--strict]`,
/// `compare F T.. [--potentials P] [--branches B] [--form NAME] [--strict]`, `bound F [--potentials P] [--branches B]
/// [--strict]`, `solution [T] [--of F] [--form NAME] [--first 0|1] [--depot D] [--forms]`, each
/// with or without `--explain`, or no words at all.
///
/// # Errors
///
/// `Refused` if the words are none of these, or ask for help or the version; `OutOfMemory`.
pub fn job_of(alloc: Global, words: &[&str]) -> Result<Job, JobFault>
    ensures { GivesJob (map (λ word. word.now) words.now) result }
{
    let Ok(command) = grammar::tsp(alloc) else {
        return Err(JobFault::OutOfMemory);
    };
    let matches = match command.try_get_matches_from(words) {
        Ok(matches) => matches,
        Err(refusal) => return Err(JobFault::of(refusal)),
    };
    let Some((name, found)) = matches.subcommand() else {
        return Ok(no_job(alloc));
    };
    match job_with(alloc, Verb::of_word(name), found) {
        Ok(job) => Ok(job),
        Err(AllocError) => Err(JobFault::OutOfMemory),
    }
}

/// The job for no words: it has no verb and no values.
fn no_job(alloc: Global) -> Job
    ensures { IsJobOf None result }
{
    Job {
        verb: None,
        file: None,
        solution: None,
        solutions: Vec::new(alloc),
        layout: None,
        potentials: None,
        branches: None,
        length: None,
        form: None,
        first: None,
        depot: None,
        forms: false,
        strict: false,
        explain: false,
    }
}

/// The fault if the words of the command line can't even be read: out of memory, or a word that
/// isn't text, which is reported the way `clap` reports refused words.
pub fn unread(alloc: Global, error: &io::Error) -> JobFault
    ensures memory { error_kind error.now ≡ IoKind.OutOfMemory → result ≡ JobFault.OutOfMemory }
    ensures no_text { error_kind error.now ≢ IoKind.OutOfMemory → IsOtherRefusal result }
{
    if let IoKind::OutOfMemory = error.kind() {
        return JobFault::OutOfMemory;
    }
    match no_text(alloc) {
        Ok(refusal) => JobFault::Refused(refusal),
        Err(AllocError) => JobFault::OutOfMemory,
    }
}

/// What `clap` says if a word isn't text.
fn no_text(alloc: Global) -> Result<Refusal, AllocError>
    ensures { IfOk result (λ refusal. kind_of refusal ≡ ErrorKind.InvalidValue) }
{
    grammar::tsp(alloc)?.error(
        ErrorKind::InvalidValue,
        "invalid UTF-8 was detected in one or more arguments",
    )
}

/// The job of a verb with the values that were found for its arguments.
fn job_with(alloc: Global, verb: Option<Verb>, found: &ArgMatches<'_>) -> Result<Job, AllocError>
    ensures verb { IfOk result (λ job. job.verb ≡ verb) }
    ensures values { IfOk result (HasValues (rows_of (found_of found.now))) }
{
    Ok(Job {
        verb,
        file: value(alloc, found, "F")?,
        solution: value(alloc, found, "T")?,
        solutions: values(alloc, found, "S")?,
        layout: value(alloc, found, "L")?,
        potentials: value(alloc, found, "P")?,
        branches: value(alloc, found, "B")?,
        length: value(alloc, found, "N")?,
        form: value(alloc, found, "NAME")?,
        first: value(alloc, found, "0|1")?,
        depot: value(alloc, found, "D")?,
        forms: is_given(found, "A"),
        strict: is_given(found, "U"),
        explain: is_given(found, "E"),
    })
}

/// The value that was found for an argument, if there is one.
fn value(alloc: Global, found: &ArgMatches<'_>, id: &str) -> Result<Option<String>, AllocError>
    ensures { IfOk result (λ text. text_in text ≡ first_of id.now (rows_of (found_of found.now))) }
{
    match found.get_str(id) {
        Some(text) => Ok(Some(String::from_str(alloc, text)?)),
        None => Ok(None),
    }
}

/// The values that were found for an argument, in order.
fn values(alloc: Global, found: &ArgMatches<'_>, id: &str) -> Result<Vec<String>, AllocError>
    ensures { IfOk result
        (λ texts. map string_bytes texts.items ≡ values_of id.now (rows_of (found_of found.now))) }
{
    match found.get_strs(id) {
        Some(texts) => owned(alloc, texts),
        None => Ok(Vec::new(alloc)),
    }
}

/// Copies of the texts.
fn owned(alloc: Global, texts: &[&str]) -> Result<Vec<String>, AllocError>
    ensures { IfOk result
        (λ owned. map string_bytes owned.items ≡ map (λ text. text.now) texts.now) }
{
    let mut owned = Vec::new(alloc);
    'texts: for text in texts {
        owned.push(String::from_str(alloc, text)?)?;
    }
    Ok(owned)
}

/// Whether an option without a value was given.
fn is_given(found: &ArgMatches<'_>, id: &str) -> bool
    ensures { IsTrue result
        ↔ (first_of id.now (rows_of (found_of found.now)) ≡ Some (codes "true")) }
{
    match text_of(found, id) {
        Some("true") => true,
        Some(_) | None => false,
    }
}

/// The text that was found for an argument, if there is one.
fn text_of<'a>(found: &ArgMatches<'a>, id: &str) -> Option<&'a str>
    ensures { option_map (λ text. text.now) result
        ≡ first_of id.now (rows_of (found_of found.now)) }
{
    found.get_str(id)
}

// ---- turn a job into a task on paths, or say why it makes none

/// Where a task's file is: standard input, or a path.
#[derive(Clone, Copy)]
pub enum InputPath<'a> {
    /// Standard input.
    Input,
    /// At a path, which isn't `-`.
    Path(&'a str),
}

/// Why a job makes no task.
#[derive(Clone, Copy)]
pub enum TaskFault {
    /// No layout has the word.
    UnknownLayout,
    /// A path that the job requires is missing.
    MissingPath,
    /// Two certificates are named, potentials and branches.
    TwoCertificates,
    /// No certificate is named, but the verb needs one.
    NoCertificate,
    /// The word isn't a length that fits 64 bits.
    NotALength,
    /// Two files are standard input, which gives its bytes once.
    InputTwice,
    /// The path of a solution in a comparison contains the end of a line.
    LineEndInPath,
    /// No form of solutions has the name.
    UnknownForm,
    /// The word of the first number is neither 0 nor 1.
    NotAFirst,
    /// The word isn't a node that could be a depot.
    NotADepot,
}

/// The task that a job asks for. The path `-` is standard input, which at most one file can be.
/// Without a verb, standard input is shown. For the verb `solution`, call `solution_task_of`.
///
/// # Errors
///
/// `InputTwice` if two files are standard input; `UnknownLayout` if no layout has the given word;
/// `NotALength` if the word for the length isn't one; `TwoCertificates` if both potentials and
/// branches are named; `NoCertificate` if a bound has neither; `LineEndInPath` if the path of a
/// solution in a comparison contains byte 10; `MissingPath` if a path is missing, which can't
/// happen to a job from `job_of`.
pub fn task_of(job: &Job) -> Result<Task<'_, InputPath<'_>>, TaskFault>
    ensures { GivesTask job.now result }
{
    let task = named_task(job)?;
    if inputs_of_task(&task) > 1 {
        return Err(TaskFault::InputTwice);
    }
    Ok(task)
}

/// How many files of a task are standard input. At most three have a number; the solutions of a
/// comparison have none.
fn inputs_of_task(task: &Task<'_, InputPath<'_>>) -> u128
    ensures { result ≡ inputs_of_task task.now }
{
    let solutions = match task {
        Task::Files(_) => 0,
        Task::Compare(comparison) => inputs_at(comparison.solutions),
    };
    let files = input_at(task, 1) + input_at(task, 2) + input_at(task, 3);
    u128::from(files) + u128::from(solutions)
}

/// 1 if the file of a task with this number is standard input, and else 0.
fn input_at(task: &Task<'_, InputPath<'_>>, number: u32) -> u32
    ensures value { result ≡ input_at (numbered number (files_of_task task.now)) }
    ensures most { result ≤ 1 }
{
    match task.file(number) {
        Some((_, InputPath::Input)) => 1,
        Some((_, InputPath::Path(_))) | None => 0,
    }
}

/// How many of these paths are standard input.
fn inputs_at(paths: &[String]) -> u64
    ensures { result ≡ inputs_at paths.now }
{
    let mut count = 0u64;
    'paths: for path in paths {
        if path.as_str() == "-" {
            count += 1;
        }
    }
    count
}

/// The task that a job asks for; here, several files may be standard input. Without a verb,
/// standard input is shown.
///
/// # Errors
///
/// `UnknownLayout` if no layout has the given word; `NotALength` if the word for the length isn't
/// one; `TwoCertificates` if both potentials and branches are named; `NoCertificate` if a bound has
/// neither; `LineEndInPath` if the path of a solution in a comparison contains byte 10;
/// `MissingPath` if a path is missing, which can't happen to a job from `job_of`.
fn named_task(job: &Job) -> Result<Task<'_, InputPath<'_>>, TaskFault>
    ensures { NamesTask job.now result }
{
    let Some(verb) = job.verb else {
        let file = InputPath::Input;
        return Ok(Task::Files(FileTask::Show { file }));
    };
    let file = input_path_of(job.file.as_ref())?;
    match verb {
        Verb::Show => Ok(Task::Files(FileTask::Show { file })),
        Verb::Convert => {
            let layout = layout_of(&job.layout)?;
            Ok(Task::Files(FileTask::Convert { file, layout }))
        }
        Verb::Check => Ok(Task::Files(check_of(job, file)?)),
        Verb::Compare => Ok(Task::Compare(comparison_of(job, file)?)),
        Verb::Bound => Ok(Task::Files(bound_of(job, file)?)),
        Verb::Solution => Err(TaskFault::MissingPath),
    }
}

/// The check of a job with this instance.
fn check_of<'a>(job: &'a Job, instance: InputPath<'a>) -> Result<FileTask<InputPath<'a>>, TaskFault>
    ensures { NamesCheck job.now instance.entry result }
{
    let solution = input_path_of(job.solution.as_ref())?;
    let claimed = length_of(&job.length)?;
    let certificate = certificate_of(job)?;
    Ok(FileTask::Check {
        instance,
        solution,
        certificate,
        claimed,
        strict: job.strict,
    })
}

/// The comparison of a job with this instance.
fn comparison_of<'a>(
    job: &'a Job,
    instance: InputPath<'a>,
) -> Result<Comparison<'a, InputPath<'a>>, TaskFault>
    ensures { NamesComparison job.now instance.entry result }
{
    if job.solutions.is_empty() {
        return Err(TaskFault::MissingPath);
    }
    let certificate = certificate_of(job)?;
    if any_line_end(&job.solutions) {
        return Err(TaskFault::LineEndInPath);
    }
    Ok(Comparison {
        instance,
        certificate,
        solutions: &job.solutions,
        strict: job.strict,
    })
}

/// Whether one of these paths contains the end of a line.
fn any_line_end(paths: &[String]) -> bool
    ensures { result ≡ any_line_end paths.now }
{
    let mut found = false;
    'paths: for path in paths {
        found = found || has_line_end(path.as_bytes());
    }
    found
}

/// Whether a path contains the end of a line.
fn has_line_end(path: &[u8]) -> bool
    ensures { result ≡ has_line_end path.now }
{
    let mut found = false;
    'bytes: for byte in path {
        found = found || *byte == b'\n';
    }
    found
}

/// The bound of a job with this instance.
fn bound_of<'a>(job: &'a Job, instance: InputPath<'a>) -> Result<FileTask<InputPath<'a>>, TaskFault>
    ensures { NamesBound job.now instance.entry result }
{
    match certificate_of(job)? {
        None => Err(TaskFault::NoCertificate),
        Some(certificate) => Ok(FileTask::Bound {
            instance,
            certificate,
            strict: job.strict,
        }),
    }
}

/// The place of a path that must be there.
pub(crate) fn input_path_of(path: Option<&String>) -> Result<InputPath<'_>, TaskFault>
    ensures { GivesInputPath (option_map (λ text. string_bytes text.now) path.entry) result }
{
    match path {
        Some(path) => Ok(input_path_at(path)),
        None => Err(TaskFault::MissingPath),
    }
}

/// The place that a path names. `-` is standard input.
pub fn input_path_at(path: &str) -> InputPath<'_>
    ensures { IsInputPathAt path.now result }
{
    match path {
        "-" => InputPath::Input,
        _ => InputPath::Path(path),
    }
}

/// The layout with a word, if there is a word.
fn layout_of(word: &Option<String>) -> Result<Option<Layout>, TaskFault>
    ensures { GivesLayout word.now result }
{
    let Some(word) = word else {
        return Ok(None);
    };
    match Layout::of_word(word) {
        Some(layout) => Ok(Some(layout)),
        None => Err(TaskFault::UnknownLayout),
    }
}

/// The length that a word is read as, if there is a word.
fn length_of(word: &Option<String>) -> Result<Option<i64>, TaskFault>
    ensures { GivesClaim word.now result }
{
    let Some(word) = word else {
        return Ok(None);
    };
    match parse_whole(word.as_bytes(), i64::MIN, i64::MAX) {
        Ok(length) => Ok(Some(length)),
        Err(_) => Err(TaskFault::NotALength),
    }
}

/// The certificate that is named, with the place of its file, if one is.
fn certificate_of(job: &Job) -> Result<Option<(CertificateKind, InputPath<'_>)>, TaskFault>
    ensures { GivesCertificate job.now result }
{
    match (&job.potentials, &job.branches) {
        (None, None) => Ok(None),
        (Some(path), None) => Ok(Some((CertificateKind::Potentials, input_path_at(path)))),
        (None, Some(path)) => Ok(Some((CertificateKind::Branches, input_path_at(path)))),
        (Some(_), Some(_)) => Err(TaskFault::TwoCertificates),
    }
}
