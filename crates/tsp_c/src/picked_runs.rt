//! The C calls that show, convert, check and bound texts in memory. A number picks the certificate
//! or the layout, as in the enums of `bindings/c/tsp.h`; any other number is refused. `lib.rt`
//! exports the calls, and `specs/Texts.antt` pins what each returns.

ghost use Rattle.std.specs.Prelude.{◌≡◌, ◌≤◌, MatchOption, None, Some};
ghost use Rattle.tsp_io.specs.states.Watched.{watched};
ghost use Rattle.tsp_format.specs.Words.{layouts};
ghost use Rattle.tsp_judge.specs.CheckRun.{acceptance};
ghost use Rattle.tsp_c.specs.CallResult.{TellsBoundBy, TellsBy, TellsBound, TellsTexts};
ghost use Rattle.tsp_c.specs.NumberCalls.{nth, done, bound_answer};
ghost use Rattle.tsp_c.specs.Texts.{BoundsBy, ChecksBy, ConvertsBy, bounds_asked, certificates, claim_of, strict_of, BoundsTexts, ChecksTexts, ConvertsText, ShowsText, with_certificate};

use crate::call_result::CallResult;
use crate::ended::{Answer, ended};
use std::alloc::Global;
use tsp_judge::{
    Bounded, CertificateKind, Judged, Layout, Output, RunError, Watched, check_solution,
    convert_file, run_bound, show_file, verdicts_mean_reports,
};

/// What a check asks for, apart from the verdict. `flags` is a sum: 1 for a claimed length, 2 if a
/// line that the verdict ignores is a reason.
#[derive(Clone, Copy)]
pub(crate) struct Claim {
    pub(crate) claimed: i64,
    pub(crate) flags: u32,
}

/// Checks a solution: 0 without a certificate, 1 with potentials, 2 with branches, and with
/// whatever else is asked for. Returns the text and the status, and the result in numbers.
pub(crate) fn check_by(
    alloc: Global,
    instance: &[u8],
    solution: &[u8],
    certificate: &[u8],
    by: u32,
    claim: Claim,
) -> (Answer, CallResult)
    ensures texts { ChecksBy by claim.flags claim.claimed instance.now solution.now certificate.now
        result.0.0 result.0.1 }
    ensures numbers { TellsBy by claim.flags claim.claimed instance.now solution.now certificate.now
        result.0.0 result.1 }
{
    if by > 2 {
        return (Answer::refused(alloc), CallResult::blank());
    }
    if claim.flags > 3 {
        return (Answer::refused(alloc), CallResult::blank());
    }
    let by = certificate_of(by);
    let strict = strict_of(claim.flags);
    let claim = claim_of(claim.flags, claim.claimed);
    checked(alloc, instance, solution, by, certificate, claim, strict)
}

/// Computes a bound: 1 with potentials, 2 with branches; 3 and 4 are the same with `--strict`.
/// Returns the text and the status, and the result in numbers.
pub(crate) fn bound_by(
    alloc: Global,
    instance: &[u8],
    certificate: &[u8],
    by: u32,
) -> (Answer, CallResult)
    ensures texts { BoundsBy (nth by bounds_asked) instance.now certificate.now result.0.0 result.0.1 }
    ensures numbers { TellsBoundBy (nth by bounds_asked) instance.now certificate.now result.0.0 result.1 }
{
    match bound_asked(by) {
        None => (Answer::refused(alloc), CallResult::blank()),
        Some((by, strict)) => bounded(alloc, by, instance, certificate, strict),
    }
}

/// What a number asks of a bound: the certificate, and whether a line that the verdict ignores is a
/// reason.
pub(crate) fn bound_asked(number: u32) -> Option<(CertificateKind, bool)>
    ensures { result ≡ nth number bounds_asked }
{
    match number {
        1 => Some((CertificateKind::Potentials, false)),
        2 => Some((CertificateKind::Branches, false)),
        3 => Some((CertificateKind::Potentials, true)),
        4 => Some((CertificateKind::Branches, true)),
        _ => None,
    }
}

/// The certificate with a number, or `None` if it has none.
pub(crate) fn certificate_of(number: u32) -> Option<CertificateKind>
    ensures { result ≡ nth number certificates }
{
    match number {
        1 => Some(CertificateKind::Potentials),
        2 => Some(CertificateKind::Branches),
        _ => None,
    }
}

/// The claimed length, if there is one.
pub(crate) fn claim_of(flags: u32, claimed: i64) -> Option<i64>
    ensures { result ≡ claim_of flags claimed }
{
    if flags == 1 || flags == 3 {
        Some(claimed)
    } else {
        None
    }
}

/// Whether a line that the verdict ignores is a reason.
pub(crate) fn strict_of(flags: u32) -> bool
    ensures { result ≡ strict_of flags }
{
    flags == 2 || flags == 3
}

/// A text rewritten in the layout with this number, and the status.
pub(crate) fn convert_by(alloc: Global, file: &[u8], number: u32) -> Answer
    ensures { ConvertsBy number file.now result.0 result.1 }
{
    if number > 9 {
        return Answer::refused(alloc);
    }
    converted(alloc, file, layout_of(number))
}

/// The layout with a number, or `None` for 0.
pub(crate) fn layout_of(number: u32) -> Option<Layout>
    requires { number ≤ 9 }
    ensures { result ≡ nth number layouts }
{
    match number {
        1 => Some(Layout::FullMatrix),
        2 => Some(Layout::UpperRow),
        3 => Some(Layout::LowerRow),
        4 => Some(Layout::UpperDiagRow),
        5 => Some(Layout::LowerDiagRow),
        6 => Some(Layout::UpperCol),
        7 => Some(Layout::LowerCol),
        8 => Some(Layout::UpperDiagCol),
        9 => Some(Layout::LowerDiagCol),
        _ => None,
    }
}

// ---- the runs of tsp_judge on texts in memory: show, convert, check, bound

/// What `show` prints for a text, and the status.
pub(crate) fn shown(alloc: Global, file: &[u8]) -> Answer
    ensures { ShowsText file.now result.0 result.1 }
{
    let mut reader = Watched::new(file);
    let mut report = Output::new(Vec::new(alloc));
    let answer = done(show_file(alloc, &mut reader, &mut report));
    ended(answer, report)
}

/// A text rewritten, and the status.
fn converted(alloc: Global, file: &[u8], to: Option<Layout>) -> Answer
    ensures { ConvertsText to file.now result.0 result.1 }
{
    let mut reader = Watched::new(file);
    let mut report = Output::new(Vec::new(alloc));
    let answer = done(convert_file(alloc, &mut reader, to, &mut report));
    ended(answer, report)
}

/// Checks two texts, with the certificate in a third, a claimed length and `--strict`, if they are
/// asked for. Returns the text and the status, and the result in numbers.
fn checked(
    alloc: Global,
    instance: &[u8],
    solution: &[u8],
    by: Option<CertificateKind>,
    certificate: &[u8],
    claimed: Option<i64>,
    strict: bool,
) -> (Answer, CallResult)
    ensures texts { ChecksTexts (with_certificate by certificate.now) claimed strict instance.now solution.now result.0.0 result.0.1 }
    ensures numbers { TellsTexts (with_certificate by certificate.now) claimed strict instance.now solution.now result.0.0 result.1 }
{
    verdicts_mean_reports();
    let mut first = Watched::new(instance);
    let mut second = Watched::new(solution);
    let mut named = named_reader(by, certificate);
    let mut report = Output::new(Vec::new(alloc));
    let judged = check_solution(
        alloc,
        &mut first,
        &mut second,
        &mut named,
        claimed,
        strict,
        &mut report,
    );
    let numbers = CallResult::of_run(&judged);
    let answer = ended(acceptance(judged), report);
    let call_result = answer.numbers(numbers);
    (answer, call_result)
}

/// A reader of the certificate's text, with the kind of the certificate, if one is asked for.
fn named_reader(
    by: Option<CertificateKind>,
    certificate: &[u8],
) -> Option<(CertificateKind, Watched<&[u8]>)>
    ensures { MatchOption result (by ≡ None) (λ named. (by ≡ Some named.0) × ((watched named.1).now ≡ certificate.now)) }
{
    match by {
        None => None,
        Some(by) => Some((by, Watched::new(certificate))),
    }
}

/// Computes a bound for the instance in one text by the certificate in another, with `--strict` if
/// that is asked for. Returns the text and the status, and the result in numbers.
fn bounded(
    alloc: Global,
    by: CertificateKind,
    instance: &[u8],
    certificate: &[u8],
    strict: bool,
) -> (Answer, CallResult)
    ensures texts { BoundsTexts by strict instance.now certificate.now result.0.0 result.0.1 }
    ensures numbers { TellsBound by strict instance.now certificate.now result.0.0 result.1 }
{
    let mut first = Watched::new(instance);
    let mut second = Watched::new(certificate);
    let mut report = Output::new(Vec::new(alloc));
    let found = run_bound(alloc, &mut first, by, &mut second, strict, &mut report);
    let numbers = CallResult::of_bound_run(&found);
    let answer = ended(bound_answer(found), report);
    let call_result = answer.numbers(numbers);
    (answer, call_result)
}

/// `true` if a file was shown or converted, because such a run never has the line `no`.
fn done(ended: Result<(), RunError>) -> Result<bool, RunError>
    ensures { result ≡ done ended }
{
    ended?;
    Ok(true)
}

/// Whether the solution is accepted, if there is a verdict.
fn acceptance(ended: Result<Judged, RunError>) -> Result<bool, RunError>
    ensures { result ≡ acceptance ended }
{
    let judged = ended?;
    let answer = judged.verdict.is_yes();
    drop(judged);
    Ok(answer)
}

/// Whether there is no reason against the files, if they were read.
fn bound_answer(ended: Result<Bounded, RunError>) -> Result<bool, RunError>
    ensures { result ≡ bound_answer ended }
{
    let bounded = ended?;
    let answer = bounded.found.is_ok();
    drop(bounded);
    Ok(answer)
}
