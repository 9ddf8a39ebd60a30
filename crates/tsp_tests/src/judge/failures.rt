//! Tests of the verbs with readers and writers that fail, or had failed before.

use crate::asserts::{holds_at, same, same_at};
use crate::devices::{Drip, NEVER, Refusal, Trickle, outcome};
use crate::judge::files::{
    AROUND, AROUND_REPORT, BOUND_REPORT, CASES, DUALS, POTENTIALS, RECTANGLE, RECTANGLE_SHOWN,
    REPORT, ROUTES, STAR, THREE_NODES, TOUR, WHOLE_STAR, ZEROS,
};
use crate::judge::runs::{Readers, Task, run};
use std::alloc::Global;
use std::io::{ErrorKind, Read};
use std::process::Abort;
use tsp_format::Field;
use tsp_io::{Output, Watched, WriteFault, write_text};
use tsp_judge::{EndFault, ReadFault, RelayoutFault, RunFault};

/// A task and the texts of its files. What it doesn't read is empty.
pub(crate) type Job = (Task<'static>, [&'static str; 3]);

const CHECK: Job = (Task::Check, [THREE_NODES, TOUR, ""]);

const BOUND_CHECK: Job = (Task::BoundCheck, [THREE_NODES, TOUR, DUALS]);

/// The same by potentials of nodes.
const EVEN_BOUND_CHECK: Job = (Task::BoundCheck, [RECTANGLE, AROUND, ZEROS]);

/// The same by a tree of cases.
const BRANCH_CHECK: Job = (Task::BranchCheck, [RECTANGLE, AROUND, CASES]);

const SHOW: Job = (Task::Show, [RECTANGLE, "", ""]);

const CONVERT: Job = (Task::Convert("FULL_MATRIX"), [STAR, "", ""]);

/// A check that rejects its solution.
const NO: Job = (
    Task::Check,
    [THREE_NODES, "TYPE : TOUR\nTOUR_SECTION\n1 2 -1\nEOF\n", ""],
);

/// Each file of each task.
const FILES: &[(Job, u32)] = &[
    (CHECK, 1),
    (CHECK, 2),
    (BOUND_CHECK, 1),
    (BOUND_CHECK, 2),
    (BOUND_CHECK, 3),
    (BRANCH_CHECK, 3),
    (SHOW, 1),
    (CONVERT, 1),
];

/// What is left of a run: its result, how often the readers were asked, whether they failed, and
/// the writer.
#[derive(Drop)]
pub(crate) struct Seen {
    pub(crate) answer: Result<bool, RunFault>,
    pub(crate) asked: [usize; 3],
    pub(crate) failed: [bool; 3],
    pub(crate) writer: Drip,
    pub(crate) writer_failed: bool,
}

/// What is left of a run over these readers to this writer.
pub(crate) fn look_at(
    alloc: Global,
    task: Task<'_>,
    mut readers: Readers<'_>,
    mut out: Output<Drip>,
) -> Seen {
    let answer = run(alloc, task, &mut readers, &mut out);
    let failed = readers.failed();
    let writer_failed = out.failed();
    Seen {
        answer,
        asked: readers.asked(),
        failed,
        writer: out.into_inner(),
        writer_failed,
    }
}

/// The row of a table, and the call that fails.
type Row = (usize, usize);

/// Asserts what a run returned, how often its writer was asked, and whether that failed.
fn ends(
    rt: &impl Abort,
    row: Row,
    found: &Seen,
    answer: Result<bool, RunFault>,
    calls: usize,
    failed: bool,
) {
    same_at(rt, row, found.answer, answer);
    same_at(rt, row, found.writer.calls(), calls);
    same_at(rt, row, found.writer_failed, failed);
}

/// Asserts how often the readers were asked, and which of them failed.
fn were_asked(rt: &impl Abort, row: Row, found: &Seen, asked: [usize; 3], failed: [bool; 3]) {
    same_at(rt, row, found.asked, asked);
    same_at(rt, row, found.failed, failed);
}

/// How many bytes each of the texts has.
fn lengths([first, second, third]: &[&str; 3]) -> [usize; 3] {
    [first.len(), second.len(), third.len()]
}

/// Asserts that a reader that fails at a call is the last that is asked, and that nothing is
/// written.
fn a_read_fails(
    rt: &(impl AllocGlobal + Abort),
    row: usize,
    job: &Job,
    file: u32,
    fails_at: usize,
) {
    let (task, texts) = job;
    let [first, second, _] = lengths(texts);
    let asked_here = fails_at.saturating_add(1);
    // (the readers behind it would fail at once)
    let (calls, asked, failed) = match file {
        1 => ([fails_at, 0, 0], [asked_here, 0, 0], [true, false, false]),
        2 => (
            [NEVER, fails_at, 0],
            [first, asked_here, 0],
            [false, true, false],
        ),
        _ => (
            [NEVER, NEVER, fails_at],
            [first, second, asked_here],
            [false, false, true],
        ),
    };
    let found = look_at(
        rt.alloc(),
        *task,
        Readers::failing(*texts, calls),
        sound(rt),
    );
    ends(rt, (row, fails_at), &found, Err(device_of(file)), 0, false);
    were_asked(rt, (row, fails_at), &found, asked, failed);
}

/// A writer that takes all that it is given.
fn sound(rt: &impl AllocGlobal) -> Output<Drip> {
    Output::new(Drip::sound(rt.alloc()))
}

/// The result if a read of a file failed.
fn device_of(file: u32) -> RunFault {
    let fault = ReadFault::Device;
    RunFault::File { file, fault }
}

#[test]
fn each_read_may_fail(rt: HostRuntime) {
    for (row, (job, file)) in FILES.iter().enumerate() {
        let [first, second, third] = lengths(&job.1);
        let calls = match *file {
            1 => first,
            2 => second,
            _ => third,
        };
        for fails_at in 0..calls {
            a_read_fails(&rt, row, job, *file, fails_at);
        }
    }
}

/// Runs, what they return and what they write.
pub(crate) const WRITTEN: &[(Job, bool, &str)] = &[
    (CHECK, true, REPORT),
    (NO, false, "type ATSP\nnodes 3\nno TourLength\n"),
    (BOUND_CHECK, true, BOUND_REPORT),
    (EVEN_BOUND_CHECK, true, AROUND_REPORT),
    (BRANCH_CHECK, true, AROUND_REPORT),
    (SHOW, true, RECTANGLE_SHOWN),
    (CONVERT, true, WHOLE_STAR),
];

#[test]
fn after_a_line_eof_nothing_is_asked_for(rt: HostRuntime) {
    for (row, ((task, texts), yes, text)) in WRITTEN.iter().enumerate() {
        // one call for each byte, and the next would fail
        let calls = lengths(texts);
        let found = look_at(
            rt.alloc(),
            *task,
            Readers::failing(*texts, calls),
            sound(&rt),
        );
        // (and all that is written is one piece)
        ends(&rt, (row, 0), &found, Ok(*yes), 1, false);
        were_asked(&rt, (row, 0), &found, calls, [false; 3]);
        same_at(&rt, row, found.writer.held(), text.as_bytes());
    }
}

/// Ways in which a writer refuses.
const REFUSALS: [Refusal; 4] = [
    Refusal::Nothing,
    Refusal::Error(ErrorKind::Other),
    Refusal::Error(ErrorKind::Interrupted),
    Refusal::Error(ErrorKind::StorageFull),
];

/// Asserts that a writer of one byte a call that fails at a call holds the bytes before it and
/// isn't asked again, and that the run returns no verdict then.
fn a_write_fails(
    rt: &(impl AllocGlobal + Abort),
    row: usize,
    written: &(Job, bool, &'static str),
    refusal: Refusal,
    fails_at: usize,
) {
    let ((task, texts), yes, text) = written;
    let readers = Readers::failing(*texts, [NEVER; 3]);
    let out = Output::new(Drip::new(rt.alloc(), 1, fails_at, refusal));
    let found = look_at(rt.alloc(), *task, readers, out);
    if fails_at < text.len() {
        ends(rt, (row, fails_at), &found, Err(OUTPUT), fails_at + 1, true);
    } else {
        ends(rt, (row, fails_at), &found, Ok(*yes), text.len(), false);
    }
    let front = text.as_bytes().get(..fails_at);
    same_at(rt, (row, fails_at), Some(found.writer.held()), front);
}

#[test]
fn each_write_may_fail(rt: HostRuntime) {
    for (row, written) in WRITTEN.iter().enumerate() {
        for refusal in REFUSALS {
            for fails_at in 0..written.2.len() + 1 {
                a_write_fails(&rt, row, written, refusal, fails_at);
            }
        }
    }
}

/// No file, and its fault.
const NO_FILE: &str = "TYPE : TSP\n";

const ITS_FAULT: ReadFault = ReadFault::End(EndFault::Missing(Field::DimensionKey));

/// Runs, the first of their files that isn't valid, and its fault.
const NO_FILES: &[(Job, u32, ReadFault)] = &[
    ((Task::Check, [NO_FILE, TOUR, ""]), 1, ITS_FAULT),
    ((Task::Check, [THREE_NODES, NO_FILE, ""]), 2, ITS_FAULT),
    ((Task::BoundCheck, [NO_FILE, TOUR, DUALS]), 1, ITS_FAULT),
    (
        (Task::BoundCheck, [THREE_NODES, NO_FILE, DUALS]),
        2,
        ITS_FAULT,
    ),
    (
        (Task::BoundCheck, [THREE_NODES, TOUR, NO_FILE]),
        3,
        ITS_FAULT,
    ),
    ((Task::Show, [NO_FILE, "", ""]), 1, ITS_FAULT),
    ((Task::Convert(""), [NO_FILE, "", ""]), 1, ITS_FAULT),
    (
        (Task::Convert("FULL_MATRIX"), [NO_FILE, "", ""]),
        1,
        ITS_FAULT,
    ),
];

/// Asserts that a run over these readers ends in a fault, and that nothing is written.
fn writes_nothing(
    rt: &(impl AllocGlobal + Abort),
    row: usize,
    job: &Job,
    readers: Readers<'_>,
    fault: RunFault,
) -> Seen {
    let found = look_at(rt.alloc(), job.0, readers, sound(rt));
    ends(rt, (row, 0), &found, Err(fault), 0, false);
    found
}

#[test]
fn nothing_is_asked_of_later_devices_where_an_earlier_file_is_none(rt: HostRuntime) {
    for (row, (job, file, fault)) in NO_FILES.iter().enumerate() {
        // (the readers behind it would fail at once)
        let fails_at = match *file {
            1 => [NEVER, 0, 0],
            2 => [NEVER, NEVER, 0],
            _ => [NEVER; 3],
        };
        let readers = Readers::failing(job.1, fails_at);
        let fault = RunFault::File {
            file: *file,
            fault: *fault,
        };
        let found = writes_nothing(&rt, row, job, readers, fault);
        same_at(&rt, row, found.failed, [false; 3]);
    }
}

/// A file that has no layout.
const ONE_NODE_TOUR: &str = "TYPE : TOUR\nTOUR_SECTION\n1\n-1\nEOF\n";

const NOT_EXPLICIT: RunFault = RunFault::Relayout(RelayoutFault::NotExplicit);

/// Reads once from each of the readers that are to have failed before.
fn fail_before(rt: &impl Abort, readers: &mut Readers<'_>, which: [bool; 3]) {
    let [first, second, third] = which;
    fail_if(rt, &mut readers.first, first);
    fail_if(rt, &mut readers.second, second);
    fail_if(rt, &mut readers.third, third);
}

/// Reads once from a reader that is to have failed before.
fn fail_if(rt: &impl Abort, reader: &mut Watched<Trickle<'_>>, fails: bool) {
    if fails {
        same(rt, outcome(reader.read(&mut [0u8; 1])), INTERRUPTED);
    }
}

/// Asserts that the readers that had failed before were asked for nothing since.
fn were_not_asked_again(rt: &impl Abort, row: usize, found: &Seen, which: [bool; 3]) {
    let [first, second, third] = found.asked;
    holds_at(rt, (row, 1), !which[0] || first == 1);
    holds_at(rt, (row, 2), !which[1] || second == 1);
    holds_at(rt, (row, 3), !which[2] || third == 1);
}

/// The call at which a reader fails that is to have failed before.
fn at_once(fails: bool) -> usize {
    if fails { 0 } else { NEVER }
}

const INTERRUPTED: Result<usize, ErrorKind> = Err(ErrorKind::Interrupted);

/// Runs, which of their readers had failed before, the file whose turn it is, and its fault.
const READERS_HAD_FAILED: &[(Job, [bool; 3], u32, ReadFault)] = &[
    (
        (Task::Check, [NO_FILE, TOUR, ""]),
        [true, true, false],
        1,
        ReadFault::Device,
    ),
    (
        (Task::Check, [NO_FILE, TOUR, ""]),
        [false, true, false],
        1,
        ITS_FAULT,
    ),
    (
        (Task::Check, [THREE_NODES, TOUR, ""]),
        [false, true, false],
        2,
        ReadFault::Device,
    ),
    (
        (Task::Check, [POTENTIALS, TOUR, ""]),
        [false, true, false],
        2,
        ReadFault::Device,
    ),
    // an earlier file that isn't valid ends the run; the wrong kind of the first file and a
    // rejected one don't
    (
        (Task::BoundCheck, [THREE_NODES, NO_FILE, DUALS]),
        [false, false, true],
        2,
        ITS_FAULT,
    ),
    (
        (Task::BoundCheck, [THREE_NODES, TOUR, DUALS]),
        [false, false, true],
        3,
        ReadFault::Device,
    ),
    (
        (Task::BoundCheck, [ROUTES, TOUR, DUALS]),
        [false, false, true],
        3,
        ReadFault::Device,
    ),
    (
        (Task::BoundCheck, [THREE_NODES, DUALS, DUALS]),
        [false, false, true],
        3,
        ReadFault::Device,
    ),
    (
        (Task::BoundCheck, [THREE_NODES, TOUR, DUALS]),
        [false, true, true],
        2,
        ReadFault::Device,
    ),
    (
        (Task::Show, [NO_FILE, "", ""]),
        [true, false, false],
        1,
        ReadFault::Device,
    ),
    (
        (Task::Convert(""), [STAR, "", ""]),
        [true, false, false],
        1,
        ReadFault::Device,
    ),
];

#[test]
fn a_reader_that_had_failed_counts_in_its_turn_and_is_not_asked(rt: HostRuntime) {
    for (row, (job, which, file, fault)) in READERS_HAD_FAILED.iter().enumerate() {
        let [first, second, third] = *which;
        let fails_at = [at_once(first), at_once(second), at_once(third)];
        let mut readers = Readers::failing(job.1, fails_at);
        fail_before(&rt, &mut readers, *which);
        let fault = RunFault::File {
            file: *file,
            fault: *fault,
        };
        let found = writes_nothing(&rt, row, job, readers, fault);
        were_not_asked_again(&rt, row, &found, *which);
    }
}

/// The result if a writer had failed.
const OUTPUT: RunFault = RunFault::Write(WriteFault::Device);

const NO_FIRST: RunFault = RunFault::File {
    file: 1,
    fault: ITS_FAULT,
};

const NO_THIRD: RunFault = RunFault::File {
    file: 3,
    fault: ReadFault::Device,
};

/// Runs, the calls at which their readers fail, and the result if the writer had failed before.
const WRITERS_HAD_FAILED: &[(Job, [usize; 3], RunFault)] = &[
    ((Task::Check, [NO_FILE, TOUR, ""]), [NEVER, 0, 0], NO_FIRST),
    (
        (Task::Check, [POTENTIALS, TOUR, ""]),
        [NEVER; 3],
        RunFault::WrongKind,
    ),
    (CHECK, [NEVER; 3], OUTPUT),
    (BOUND_CHECK, [NEVER, NEVER, 0], NO_THIRD),
    (
        (Task::BoundCheck, [ROUTES, TOUR, DUALS]),
        [NEVER; 3],
        RunFault::WrongKind,
    ),
    (BOUND_CHECK, [NEVER; 3], OUTPUT),
    ((Task::Show, [NO_FILE, "", ""]), [NEVER; 3], NO_FIRST),
    (SHOW, [NEVER; 3], OUTPUT),
    ((Task::Convert(""), [NO_FILE, "", ""]), [NEVER; 3], NO_FIRST),
    (
        (Task::Convert("FULL_MATRIX"), [NO_FILE, "", ""]),
        [NEVER; 3],
        NO_FIRST,
    ),
    (
        (Task::Convert("FULL_MATRIX"), [ONE_NODE_TOUR, "", ""]),
        [NEVER; 3],
        NOT_EXPLICIT,
    ),
    (
        (Task::Convert(""), [ONE_NODE_TOUR, "", ""]),
        [NEVER; 3],
        OUTPUT,
    ),
    (CONVERT, [NEVER; 3], OUTPUT),
];

#[test]
fn a_writer_that_had_failed_counts_in_its_turn_and_is_not_asked(rt: HostRuntime) {
    for (row, (job, fails_at, fault)) in WRITERS_HAD_FAILED.iter().enumerate() {
        let mut out = Output::new(Drip::new(rt.alloc(), 1, 0, Refusal::Nothing));
        same_at(
            &rt,
            row,
            write_text(&mut out, b"x"),
            Err(WriteFault::Device),
        );
        let found = look_at(rt.alloc(), job.0, Readers::failing(job.1, *fails_at), out);
        ends(&rt, (row, 0), &found, Err(*fault), 1, true);
    }
}
