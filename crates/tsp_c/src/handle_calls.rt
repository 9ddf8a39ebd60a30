//! The C calls on a handle: open, bind, check, count, costs, points, lengths, close. `lib.rt`
//! exports them. `specs/Opened.antt` pins what each does to the handle; by lemmas in
//! `proofs/HandleCalls.antt`, each answers as the call on the text would.

ghost use Rattle.tsp_c.specs.Prelude.{None, Some, MatchResult, report_of, IsSized, is_yes, Open, IsOpened, IsUnopened, status_of_fault, OutOfMemory};
ghost use Rattle.std.specs.Prelude.{◌≡◌, ◌<◌, ◌*◌, ◌-◌};
ghost use Rattle.tsp_io.specs.states.Output.{sink_of};
ghost use Rattle.tsp_c.specs.CallResult.{result_of_fault};
ghost use Rattle.tsp_c.specs.NumberCalls.{Reports, nth, EndsCount, EndsLengths, EndsMatrix, EndsWeights};
ghost use Rattle.tsp_c.specs.Opened.{BindsOpen, BindsText, ChecksAsTexts, ChecksHeld, EndsSection, OfHeld, OpensText, TellsJudged};
ghost use Rattle.tsp_c.specs.Texts.{certificates};

use crate::call_end::CallEnd;
use crate::call_result::CallResult;
use crate::ended::{Answer, ended};
use crate::handle::{Handle, NoBox, in_box};
use crate::pair_costs::{rows_of, weights_of};
use crate::picked_runs::{certificate_of, claim_of, strict_of};
use crate::point_calls::{lengths_of, points_of_file};
use std::alloc::Global;
use std::boxed::Box;
use tsp_cost::{Costs, Instance};
use tsp_io::Takes;
use tsp_judge::{
    CertificateKind, Opened, Output, RunError, Verdict, report_verdict, verdicts_mean_reports,
};
use tsp_verdict::strict_verdict;

/// Opens a handle on the instance in a text, and returns the status. Frees what the handle was open
/// on before.
pub(crate) fn open_text(
    alloc: Global,
    text: &[u8],
    handle: &mut Handle,
    call_result: &mut CallResult,
) -> CallEnd
    ensures { OpensText text.now handle.new.loose.value call_result.new result }
{
    drop(handle.take(alloc));
    match boxed(alloc, text) {
        Err(error) => tell_fault(error, call_result),
        Ok(Err(no_box)) => tell_no_box(no_box, call_result),
        Ok(Ok(opened)) => {
            *call_result = CallResult::of_instance(opened.instance());
            handle.put(opened);
            CallEnd::done()
        }
    }
}

/// Fills in the numbers of a fault, and returns its status.
fn tell_fault(error: RunError, call_result: &mut CallResult) -> CallEnd
    ensures call_result { call_result.new ≡ result_of_fault error }
    ensures status { result ≡ status_of_fault error }
{
    *call_result = CallResult::of_error(error);
    CallEnd::of_fault(error)
}

/// Fills in that there was no memory for a box, and returns the status.
fn tell_no_box(no_box: NoBox, call_result: &mut CallResult) -> CallEnd
    ensures call_result { call_result.new ≡ result_of_fault OutOfMemory }
    ensures status { result ≡ status_of_fault OutOfMemory }
{
    *call_result = CallResult::blank();
    CallEnd::without_box(no_box)
}

/// The instance in a text, in a box if there was memory for one.
///
/// # Errors
///
/// Why the text has no instance. No memory for the box isn't such a fault.
fn boxed(alloc: Global, text: &[u8]) -> Result<Result<Box<Opened, Global>, NoBox>, RunError>
    ensures { MatchResult result
        (λ held. MatchResult held (λ opened. IsOpened text.now opened.value) (λ no_box. (opened : Open) × IsOpened text.now opened))
        (λ fault. IsUnopened text.now fault) }
{
    let opened = Opened::of(alloc, text)?;
    match in_box(alloc, opened) {
        Ok(opened) => Ok(Ok(opened)),
        Err(no_box) => Ok(Err(no_box)),
    }
}

/// Closes a handle, and frees what it was open on.
pub(crate) fn close(alloc: Global, handle: &mut Handle)
    ensures { handle.new.loose.value ≡ None }
{
    drop(handle.take(alloc));
}

/// Binds the certificate in a text (1 for potentials, 2 for branches) to the instance of a handle,
/// and returns the status.
pub(crate) fn bind_text(
    alloc: Global,
    handle: &mut Handle,
    text: &[u8],
    by: u32,
    call_result: &mut CallResult,
) -> CallEnd
    ensures { BindsText (nth by certificates) text.now handle.old.loose.value handle.new.loose.value call_result.new result }
{
    *call_result = CallResult::blank();
    let Some(by) = certificate_of(by) else {
        return CallEnd::refused();
    };
    match handle.take(alloc) {
        None => CallEnd::refused(),
        Some(mut opened) => {
            let status = bind_opened(alloc, &mut opened, by, text, call_result);
            handle.put(opened);
            status
        }
    }
}

/// Binds the certificate in a text to an open instance, and returns the status.
fn bind_opened(
    alloc: Global,
    opened: &mut Opened,
    by: CertificateKind,
    text: &[u8],
    call_result: &mut CallResult,
) -> CallEnd
    ensures { BindsOpen by text.now opened.old (Some opened.new) call_result.new result }
{
    match opened.bind(alloc, by, text) {
        Err(error) => tell_fault(error, call_result),
        Ok(found) => {
            *call_result = CallResult::of_bound(opened.instance(), found);
            CallEnd::of_answer(found.is_ok())
        }
    }
}

/// Checks the solution in a text for the instance of a handle, with the bound certificate, if any,
/// and what `flags` asks for. Returns the text and the status, and the result in numbers.
pub(crate) fn check_held(
    alloc: Global,
    handle: &mut Handle,
    solution: &[u8],
    claimed: i64,
    flags: u32,
) -> (Answer, CallResult)
    ensures same { handle.new.loose.value ≡ handle.old.loose.value }
    ensures checks { ChecksHeld handle.old.loose.value flags claimed solution.now result.0.0 result.0.1 result.1 }
{
    if flags > 3 {
        return (Answer::refused(alloc), CallResult::blank());
    }
    match handle.take(alloc) {
        None => (Answer::refused(alloc), CallResult::blank()),
        Some(opened) => {
            let claim = claim_of(flags, claimed);
            let answer = check_opened(alloc, &opened, solution, claim, strict_of(flags));
            handle.put(opened);
            answer
        }
    }
}

/// Checks the solution in a text for an open instance.
fn check_opened(
    alloc: Global,
    opened: &Opened,
    solution: &[u8],
    claimed: Option<i64>,
    strict: bool,
) -> (Answer, CallResult)
    ensures texts { ChecksAsTexts opened.now claimed strict solution.now result.0.0 result.0.1 }
    ensures numbers { TellsJudged opened.now claimed strict solution.now result.0.0 result.1 }
{
    verdicts_mean_reports();
    let mut report = Output::new(Vec::new(alloc));
    match opened.judge(alloc, solution, claimed) {
        Err(error) => {
            let answer = ended(Err(error), report);
            let call_result = answer.numbers(CallResult::of_error(error));
            (answer, call_result)
        }
        Ok(plain) => {
            let instance = opened.instance();
            let verdict = strict_verdict(strict, instance, plain);
            let call_result = CallResult::of_verdict(instance, verdict);
            let written = reported(instance, verdict, &mut report);
            let answer = ended(written, report);
            let call_result = answer.numbers(call_result);
            (answer, call_result)
        }
    }
}

/// Writes the report on a verdict, and returns whether it accepts.
fn reported<W: Takes>(
    instance: &Instance,
    verdict: Verdict,
    out: &mut Output<W>,
) -> Result<bool, RunError>
    requires { IsSized verdict }
    ensures { Reports (sink_of W.contents out.old out.new) (report_of instance.now verdict) (is_yes verdict) result }
{
    report_verdict(instance, verdict, out)?;
    Ok(verdict.is_yes())
}

/// Fills in the costs of pairs of nodes of a handle's instance, and returns the status.
pub(crate) fn weights_held(
    alloc: Global,
    handle: &mut Handle,
    pairs: &[u32],
    out: &mut [i64],
) -> CallEnd
    ensures same { handle.new.loose.value ≡ handle.old.loose.value }
    ensures fills { OfHeld handle.old.loose.value (λ instance. EndsWeights instance pairs.now out.old out.new result)
        out.old out.new result }
{
    match handle.take(alloc) {
        None => CallEnd::refused(),
        Some(opened) => {
            let status = weights_of(opened.instance(), pairs, out);
            handle.put(opened);
            status
        }
    }
}

/// Fills in rows of the cost matrix of a handle's instance, and returns the status.
pub(crate) fn rows_held(
    alloc: Global,
    handle: &mut Handle,
    first_row: u32,
    out: &mut [i64],
) -> CallEnd
    ensures same { handle.new.loose.value ≡ handle.old.loose.value }
    ensures fills { OfHeld handle.old.loose.value (λ instance. EndsMatrix instance first_row out.old out.new result)
        out.old out.new result }
{
    match handle.take(alloc) {
        None => CallEnd::refused(),
        Some(opened) => {
            let status = rows_of(opened.instance(), first_row, out);
            handle.put(opened);
            status
        }
    }
}

/// Fills in the lengths of lists of nodes of a handle's instance, and returns the status.
pub(crate) fn lengths_held(
    alloc: Global,
    handle: &mut Handle,
    nodes: &[u32],
    out: &mut [i64],
) -> CallEnd
    ensures same { handle.new.loose.value ≡ handle.old.loose.value }
    ensures fills { OfHeld handle.old.loose.value (λ instance. EndsLengths instance nodes.now out.old out.new result)
        out.old out.new result }
{
    match handle.take(alloc) {
        None => CallEnd::refused(),
        Some(opened) => {
            let status = lengths_of(opened.instance(), nodes, out);
            handle.put(opened);
            status
        }
    }
}

/// Fills in the coordinates in a section of a handle's instance, and returns the status.
pub(crate) fn points_held(
    alloc: Global,
    handle: &mut Handle,
    section: u32,
    out: &mut [i64],
) -> CallEnd
    ensures same { handle.new.loose.value ≡ handle.old.loose.value }
    ensures fills { OfHeld handle.old.loose.value (λ instance. EndsSection instance section out.old out.new result)
        out.old out.new result }
{
    if section < 1 || section > 2 {
        return CallEnd::refused();
    }
    match handle.take(alloc) {
        None => CallEnd::refused(),
        Some(opened) => {
            let status = points_of_file(opened.instance().file(), section, out);
            handle.put(opened);
            status
        }
    }
}

/// Fills in how many nodes a handle's instance has, and returns the status.
pub(crate) fn count_held(alloc: Global, handle: &mut Handle, count: &mut u32) -> CallEnd
    ensures same { handle.new.loose.value ≡ handle.old.loose.value }
    ensures fills { OfHeld handle.old.loose.value (λ instance. EndsCount instance count.new result)
        count.old count.new result }
{
    match handle.take(alloc) {
        None => CallEnd::refused(),
        Some(opened) => {
            *count = opened.instance().count();
            handle.put(opened);
            CallEnd::done()
        }
    }
}
