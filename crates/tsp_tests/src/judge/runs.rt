//! Runs of the verbs on texts, from the bytes read to the bytes written. The tests in this folder
//! call these.

use crate::devices::{Drip, Trickle};
use std::alloc::Global;
use std::io::ErrorKind;
use tsp_format::Layout;
use tsp_io::{Output, Watched};
use tsp_judge::{RunFault, run_bound_check, run_branch_check, run_check, run_convert, run_show};

/// What is done with the files.
#[derive(Clone, Copy)]
pub(crate) enum Task<'a> {
    /// The first is an instance, the second its solution.
    Check,
    /// The third is a file of potentials.
    BoundCheck,
    /// The third is a tree of cases.
    BranchCheck,
    /// The first is shown.
    Show,
    /// The first is rewritten, in the layout with this word, or if it is empty in its own.
    Convert(&'a str),
}

/// The readers of the files. (The tasks of fewer files don't ask the others.)
#[derive(Drop)]
pub(crate) struct Readers<'a> {
    pub(crate) first: Watched<Trickle<'a>>,
    pub(crate) second: Watched<Trickle<'a>>,
    pub(crate) third: Watched<Trickle<'a>>,
}

impl<'a> Readers<'a> {
    /// Readers of these texts, which deliver this many bytes a call.
    pub(crate) fn by(texts: [&'a str; 3], most: usize) -> Readers<'a> {
        let [first, second, third] = texts;
        Readers {
            first: Watched::new(Trickle::by(first.as_bytes(), most)),
            second: Watched::new(Trickle::by(second.as_bytes(), most)),
            third: Watched::new(Trickle::by(third.as_bytes(), most)),
        }
    }

    /// Readers of these texts, which deliver one byte a call, and fail at these calls, counted from
    /// 0, by an interruption.
    pub(crate) fn failing(texts: [&'a str; 3], fails_at: [usize; 3]) -> Readers<'a> {
        let [first, second, third] = texts;
        let [at_first, at_second, at_third] = fails_at;
        Readers {
            first: failing(first, at_first),
            second: failing(second, at_second),
            third: failing(third, at_third),
        }
    }

    /// Whether each has failed.
    pub(crate) fn failed(&self) -> [bool; 3] {
        [
            self.first.failed(),
            self.second.failed(),
            self.third.failed(),
        ]
    }

    /// How often each was asked.
    pub(crate) fn asked(self) -> [usize; 3] {
        let Readers {
            first,
            second,
            third,
        } = self;
        [asked(first), asked(second), asked(third)]
    }
}

/// How often a reader was asked.
fn asked(reader: Watched<Trickle<'_>>) -> usize {
    reader.into_inner().calls()
}

/// A reader of a text that delivers one byte a call, and fails at one call.
fn failing(text: &str, fails_at: usize) -> Watched<Trickle<'_>> {
    Watched::new(Trickle::new(text.as_bytes(), fails_at, ErrorKind::Interrupted))
}

/// What a check returns. (It has no contract, which the proofs of the tests would go through; nor
/// have the four below.)
fn checked(
    alloc: Global,
    readers: &mut Readers<'_>,
    out: &mut Output<Drip>,
) -> Result<bool, RunFault> {
    run_check(alloc, &mut readers.first, &mut readers.second, out)
}

fn bound_checked(
    alloc: Global,
    readers: &mut Readers<'_>,
    out: &mut Output<Drip>,
) -> Result<bool, RunFault> {
    run_bound_check(
        alloc,
        &mut readers.first,
        &mut readers.second,
        &mut readers.third,
        out,
    )
}

fn branch_checked(
    alloc: Global,
    readers: &mut Readers<'_>,
    out: &mut Output<Drip>,
) -> Result<bool, RunFault> {
    run_branch_check(
        alloc,
        &mut readers.first,
        &mut readers.second,
        &mut readers.third,
        out,
    )
}

fn shown(alloc: Global, readers: &mut Readers<'_>, out: &mut Output<Drip>) -> Result<(), RunFault> {
    run_show(alloc, &mut readers.first, out)
}

fn converted(
    alloc: Global,
    readers: &mut Readers<'_>,
    word: &str,
    out: &mut Output<Drip>,
) -> Result<(), RunFault> {
    run_convert(alloc, &mut readers.first, Layout::of_word(word), out)
}

/// The result of a run. A file that is shown or converted counts as accepted.
pub(crate) fn run(
    alloc: Global,
    task: Task<'_>,
    readers: &mut Readers<'_>,
    out: &mut Output<Drip>,
) -> Result<bool, RunFault> {
    match task {
        Task::Check => checked(alloc, readers, out),
        Task::BoundCheck => bound_checked(alloc, readers, out),
        Task::BranchCheck => branch_checked(alloc, readers, out),
        Task::Show => shown(alloc, readers, out).map(|()| true),
        Task::Convert(word) => converted(alloc, readers, word, out).map(|()| true),
    }
}
