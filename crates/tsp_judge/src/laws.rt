//! Laws: what a line of a comparison says about its solution, that a check of the same files has
//! the same answer, and what an accepted verdict means (`verdicts_mean_reports`). tsp_c calls the
//! last one for the verdicts that it returns; the others are only read by people.

ghost use Rattle.tsp_judge.specs.Prelude.{ℕ, List, true, false, Option, None, Some, Ok, IsTrue, ℤ, codes, decimal, ReadTrace, Sink, HasWritten, Fields, IsFile, IsProblem, IsKnownBound, IsVerdictWith, is_judged, head_of, solution_line, report_of, IsSized, is_clear, is_yes, CertificateKind, Verdict, IsJudgedWhole, Err};
ghost use Rattle.std.specs.Fmt.{signed_decimal};
ghost use Rattle.std.specs.Prelude.{◌≡◌, ◌++◌};
ghost use Rattle.tsp_report.specs.declared.verdict.KnownBound.{KnownBound};
ghost use Rattle.tsp_report.specs.declared.verdict.Reason.{Reason};
ghost use Rattle.tsp_report.specs.declared.verdict.Verdict.TheVariants as verdicts;
ghost use Rattle.tsp_judge.specs.Accepted.{IsAccepted, IsBoundedTour, AreBoundedRoutes};
ghost use Rattle.tsp_judge.specs.CheckRun.{Given};
ghost use Rattle.tsp_judge.specs.CompareRun.{IsCompareRun, IsFoundIn};
ghost use Rattle.tsp_judge.specs.declared.compare_run.Compared.{Compared};
ghost use Rattle.tsp_judge.specs.declared.compare_run.ComparisonContext.{ComparisonContext};

use crate::compare_run::Solutions;
use tsp_io::Gives;

/// With a certificate, a line with a length and `optimal` means that its solution is one tour of
/// the instance, of this length, and that no tour of the instance is shorter. If the line has a
/// bound other than the length, no tour is shorter than the bound.
pub fn lines_of_bounded_tours()
    ensures optimal { (common : ComparisonContext) (read_trace : ReadTrace) (by : CertificateKind) (certificate : Fields) (length : ℤ)
        → IsProblem common.instance → common.certificate ≡ Some (by, certificate)
        → IsFoundIn common read_trace (Ok (verdicts.Tour length (Some length)))
        → (solution : Fields) × IsFile read_trace solution × IsBoundedTour common.instance solution length length }
    ensures bounded { (common : ComparisonContext) (read_trace : ReadTrace) (by : CertificateKind) (certificate : Fields) (length bound : ℤ)
        → IsProblem common.instance → common.certificate ≡ Some (by, certificate)
        → IsFoundIn common read_trace (Ok (verdicts.Tour length (Some bound)))
        → (solution : Fields) × IsFile read_trace solution × IsBoundedTour common.instance solution length bound }
    ensures words { (length : ℤ) (path : List ℕ) → solution_line (Ok (verdicts.Tour length (Some length))) path
        ≡ signed_decimal length ++ codes " optimal" ++ codes " " ++ path ++ codes "\n" }
{}

/// With a certificate, a line with a length, a number of routes and `optimal` means that its
/// solution is a plan of the instance, without empty routes and of this length, and that no such
/// plan is shorter. If the line has a bound other than the length, no such plan is shorter than the
/// bound.
pub fn lines_of_bounded_routes()
    ensures optimal { (common : ComparisonContext) (read_trace : ReadTrace) (by : CertificateKind) (certificate : Fields) (length : ℤ)
        (routes least : ℕ) → IsProblem common.instance → common.certificate ≡ Some (by, certificate)
        → IsFoundIn common read_trace (Ok (verdicts.Routes length routes least (Some length)))
        → (solution : Fields) × IsFile read_trace solution × AreBoundedRoutes common.instance solution length length }
    ensures bounded { (common : ComparisonContext) (read_trace : ReadTrace) (by : CertificateKind) (certificate : Fields) (length bound : ℤ)
        (routes least : ℕ) → IsProblem common.instance → common.certificate ≡ Some (by, certificate)
        → IsFoundIn common read_trace (Ok (verdicts.Routes length routes least (Some bound)))
        → (solution : Fields) × IsFile read_trace solution × AreBoundedRoutes common.instance solution length bound }
    ensures words { (length : ℤ) (routes least : ℕ) (path : List ℕ)
        → solution_line (Ok (verdicts.Routes length routes least (Some length))) path
        ≡ signed_decimal length ++ codes " routes " ++ decimal routes ++ codes " optimal" ++ codes " " ++ path ++ codes "\n" }
{}

/// If solutions are compared with `strict`, a line accepts a solution only if the verdict ignores
/// no line of the instance: there is no unknown keyword, and no field that the instance doesn't
/// use.
pub fn strict_comparisons_leave_nothing_unjudged<R: Gives + Drop, S: Solutions<R>>(solutions: &S)
    ensures all_judged { (given : Given) (first : ReadTrace) (sink : Sink) (compared : Compared)
        → IsCompareRun true R.remaining R.gives (S.opens solutions.now) (S.names solutions.now) given first sink (Ok compared)
        → is_clear compared.common.known_bound ≡ true → IsJudgedWhole compared.common.instance }
    ensures none_judged { (given : Given) (first : ReadTrace) (sink : Sink) (compared : Compared)
        → IsCompareRun true R.remaining R.gives (S.opens solutions.now) (S.names solutions.now) given first sink (Ok compared)
        → ¬ IsJudgedWhole compared.common.instance
        → HasWritten sink (head_of compared.common.instance compared.common.known_bound) × (compared.status ≡ 1) }
{}

/// A check of the same three files has the same answer as a line of a comparison.
pub fn lines_of_checks()
    ensures { (common : ComparisonContext) (read_trace : ReadTrace) (verdict : Verdict) → IsFoundIn common read_trace (Ok verdict)
        → (solution : Fields) × IsFile read_trace solution × ((other : Verdict)
        → IsVerdictWith common.certificate None common.instance solution other → is_yes other ≡ is_yes verdict) }
{}

/// If a reason applies to the instance or to the certificate, or if the instance has no solution, a
/// check accepts no solution at all.
pub fn solutions_without_a_known_bound()
    ensures reason { (given : Option (CertificateKind × Fields)) (instance solution : Fields) (known_bound : KnownBound)
        (reason : Reason) (verdict : Verdict) → IsKnownBound given instance known_bound
        → known_bound.found ≡ Some (Err reason) → IsVerdictWith given None instance solution verdict
        → is_yes verdict ≡ false }
    ensures no_tour { (given : Option (CertificateKind × Fields)) (instance solution : Fields) (known_bound : KnownBound)
        (verdict : Verdict) → IsKnownBound given instance known_bound
        → known_bound.found ≡ Some (Ok None) → IsVerdictWith given None instance solution verdict
        → is_yes verdict ≡ false }
{}

/// A verdict that accepts a solution means the same as the line `yes` of its report. Each verdict
/// has a report.
pub fn verdicts_mean_reports()
    ensures accepted { (given : Option (CertificateKind × Fields)) (claimed : Option ℤ) (instance solution : Fields)
        (verdict : Verdict) → IsProblem instance → IsTrue (is_judged given instance.kind)
        → IsVerdictWith given claimed instance solution verdict → true ≡ is_yes verdict
        → IsAccepted given claimed instance solution (report_of instance verdict) }
    ensures sized { (given : Option (CertificateKind × Fields)) (claimed : Option ℤ) (instance solution : Fields)
        (verdict : Verdict) → IsVerdictWith given claimed instance solution verdict → IsSized verdict }
{}
