//! The result of a call in numbers, as `tsp.h` declares it: verdict, length, bound, reason, fault.
//! `picked_runs.rt` and `handle_calls.rt` fill it in. `specs/CallResult.antt` pins the numbers, and
//! none of them ever changes.

ghost use Rattle.std.specs.Prelude.{◌≡◌, ◌≢◌, Some, IfOk};
ghost use Rattle.tsp_report.specs.Report.{IsGapSized, IsSized};
ghost use Rattle.tsp_c.specs.CallResult.{IsSizedBound, blank_result, field_of_fault, field_of_reason, field_number, kind_number, line_fault_number, number_fault_number, number_of_fault, read_fault_number, result_of_bound, result_of_bound_run, result_of_fault, result_of_instance, result_of_run, result_of_verdict, with_bound, with_reason};

use tsp_cost::{Costs, Instance};
use tsp_format::{Field, Kind};
use tsp_judge::{Bounded, EndFault, Judged, LineFault, ReadFault, RunError, RunFault, Status};
use tsp_number::NumberFault;
use tsp_report::{BoundVerdict, Reason, Verdict, number_of_reason, row_of_reason};

/// The verdicts by their numbers.
const TOUR: u32 = 1;

const ROUTES: u32 = 2;

const REJECTED: u32 = 3;

const BOUND: u32 = 4;

const NO_TOUR: u32 = 5;

/// The number of the fault that a file is of another TYPE.
const WRONG_KIND: u32 = 21;

/// The halves of a bound have 64 bits each.
const TWO_TO_64: i128 = 18_446_744_073_709_551_616;

/// The result of a call, in numbers. Numbers that don't apply are 0.
#[repr(C)]
#[derive(Clone, Copy)]
pub struct CallResult {
    /// The TYPE of the instance: 1 TSP, 2 ATSP, 3 CVRP.
    pub kind: u32,
    /// How many nodes it has.
    pub nodes: u32,
    /// 1 for a tour, 2 for routes, 3 for rejected, 4 for a bound, 5 for no solution.
    pub verdict: u32,
    /// The number of the reason.
    pub reason: u32,
    /// The first number of the reason.
    pub first: i64,
    /// The second number of the reason.
    pub second: i64,
    /// The length of the tour, or of all routes.
    pub length: i64,
    /// If `has_bound` is 1, the bound is `bound_high` times 2^64 plus `bound_low`.
    pub bound_high: i64,
    /// The low 64 bits of the bound.
    pub bound_low: u64,
    /// The least number of routes.
    pub least: u64,
    /// 1 if there is a bound, otherwise 0.
    pub has_bound: u32,
    /// How many routes there are.
    pub routes: u32,
    /// The number of the fault.
    pub fault: u32,
    /// The file that has the fault, from 1 on, in the order in which files are read.
    pub file: u32,
    /// Its line, from 1 on; 0 if the fault isn't in one line.
    pub line: u32,
    /// Its word in that line, from 1 on; 0 if the fault is of the whole line.
    pub word: u32,
    /// The number of what is wrong with a number.
    pub number: u32,
    /// The number of the keyword or section that is missing or incomplete.
    pub field: u32,
}

impl CallResult {
    /// No number: all are 0.
    pub(crate) fn blank() -> CallResult
        ensures { result ≡ blank_result }
    {
        CallResult {
            kind: 0,
            nodes: 0,
            verdict: 0,
            reason: 0,
            first: 0,
            second: 0,
            length: 0,
            bound_high: 0,
            bound_low: 0,
            least: 0,
            has_bound: 0,
            routes: 0,
            fault: 0,
            file: 0,
            line: 0,
            word: 0,
            number: 0,
            field: 0,
        }
    }

    /// The numbers of an instance without a verdict: its TYPE and its number of nodes.
    pub(crate) fn of_instance(instance: &Instance) -> CallResult
        ensures { result ≡ result_of_instance instance.now }
    {
        CallResult {
            kind: kind_number(instance.kind()),
            nodes: instance.count(),
            ..CallResult::blank()
        }
    }

    /// A verdict on a solution of an instance.
    pub(crate) fn of_verdict(instance: &Instance, verdict: Verdict) -> CallResult
        requires { IsSized verdict }
        ensures { result ≡ result_of_verdict instance.now verdict }
    {
        let call_result = CallResult::of_instance(instance);
        match verdict {
            Verdict::Tour {
                length,
                bound: None,
            } => CallResult {
                verdict: TOUR,
                length,
                ..call_result
            },
            Verdict::Tour {
                length,
                bound: Some(bound),
            } => CallResult {
                verdict: TOUR,
                length,
                ..call_result.with_bound(bound)
            },
            Verdict::Routes {
                length,
                routes,
                least,
                bound: None,
            } => CallResult {
                verdict: ROUTES,
                length,
                routes,
                least,
                ..call_result
            },
            Verdict::Routes {
                length,
                routes,
                least,
                bound: Some(bound),
            } => CallResult {
                verdict: ROUTES,
                length,
                routes,
                least,
                ..call_result.with_bound(bound)
            },
            Verdict::No(reason) => call_result.with_reason(reason),
        }
    }

    /// The numbers of the bound of an instance by a certificate, or of the reason against it.
    pub(crate) fn of_bound(instance: &Instance, found: BoundVerdict) -> CallResult
        requires { IsSizedBound found }
        ensures { result ≡ result_of_bound instance.now found }
    {
        let call_result = CallResult::of_instance(instance);
        match found {
            Ok(Some(bound)) => CallResult {
                verdict: BOUND,
                ..call_result.with_bound(bound)
            },
            Ok(None) => CallResult {
                verdict: NO_TOUR,
                ..call_result
            },
            Err(reason) => call_result.with_reason(reason),
        }
    }

    /// The numbers of a check: of its verdict, or of its fault.
    pub(crate) fn of_run(ended: &Result<Judged, RunError>) -> CallResult
        requires { IfOk ended.now (λ judged. IsSized judged.verdict) }
        ensures { result ≡ result_of_run ended.now }
    {
        match ended {
            Ok(judged) => CallResult::of_verdict(&judged.instance, judged.verdict),
            Err(error) => CallResult::of_error(*error),
        }
    }

    /// The numbers of a bound without a solution: of the bound, or of its fault.
    pub(crate) fn of_bound_run(ended: &Result<Bounded, RunError>) -> CallResult
        requires { IfOk ended.now (λ bounded. IsSizedBound bounded.found) }
        ensures { result ≡ result_of_bound_run ended.now }
    {
        match ended {
            Ok(bounded) => CallResult::of_bound(&bounded.instance, bounded.found),
            Err(error) => CallResult::of_error(*error),
        }
    }

    /// The numbers of the fault with which a run ended early.
    pub(crate) fn of_error(error: RunError) -> CallResult
        ensures { result ≡ result_of_fault error }
    {
        CallResult::of_fault(error.fault())
    }

    /// A fault.
    fn of_fault(fault: RunFault) -> CallResult
        ensures { result ≡ result_of_fault fault }
    {
        match fault {
            RunFault::File {
                fault: ReadFault::OutOfMemory | ReadFault::Device,
                ..
            } => CallResult::blank(),
            RunFault::File {
                file,
                fault: ReadFault::Line { line, word, fault },
            } => CallResult {
                fault: line_fault_number(fault),
                file,
                line,
                word,
                number: number_of_fault(fault),
                ..CallResult::blank()
            },
            RunFault::File { file, fault } => CallResult {
                fault: read_fault_number(fault),
                file,
                field: field_of_fault(fault),
                ..CallResult::blank()
            },
            RunFault::WrongKind => CallResult {
                fault: WRONG_KIND,
                file: 1,
                ..CallResult::blank()
            },
            RunFault::OutOfMemory | RunFault::Write(_) | RunFault::Relayout(_) =>
                CallResult::blank(),
        }
    }

    /// The numbers of a call with this status: none if memory ran out.
    pub(crate) fn for_status(self, status: u8) -> CallResult
        ensures kept { status ≢ 3 → result ≡ self }
        ensures none { status ≡ 3 → result ≡ blank_result }
    {
        if status == Status::OutOfMemory as u8 {
            return CallResult::blank();
        }
        self
    }

    /// These numbers with a bound.
    fn with_bound(self, bound: i128) -> CallResult
        requires { IsGapSized (Some bound) }
        ensures { result ≡ with_bound self bound }
    {
        CallResult {
            bound_high: bound.div_euclid(TWO_TO_64) as i64,
            bound_low: bound.rem_euclid(TWO_TO_64) as u64,
            has_bound: 1,
            ..self
        }
    }

    /// These numbers with a reason.
    fn with_reason(self, reason: Reason) -> CallResult
        ensures { result ≡ with_reason self reason }
    {
        let row = row_of_reason(reason);
        CallResult {
            verdict: REJECTED,
            reason: number_of_reason(reason),
            first: row.numbers.0.unwrap_or(0),
            second: row.numbers.1.unwrap_or(0),
            field: field_of_reason(reason),
            ..self
        }
    }
}

/// The number of the unused field, if that is the reason; otherwise 0.
fn field_of_reason(reason: Reason) -> u32
    ensures { result ≡ field_of_reason reason }
{
    match reason {
        Reason::NotUsed { field } => field_number(field),
        _ => 0,
    }
}

/// The number of a TYPE.
fn kind_number(kind: Kind) -> u32
    ensures { result ≡ kind_number (Some kind) }
{
    match kind {
        Kind::Tsp => 1,
        Kind::Atsp => 2,
        Kind::Cvrp => 3,
        Kind::Tour | Kind::Potentials | Kind::Branches => 0,
    }
}

/// The number of a fault of a line.
fn line_fault_number(fault: LineFault) -> u32
    ensures { result ≡ line_fault_number fault }
{
    match fault {
        LineFault::LongLine => 1,
        LineFault::UnknownLine => 2,
        LineFault::Repeated => 3,
        LineFault::Outside => 4,
        LineFault::BadValue => 5,
        LineFault::SectionValue => 6,
        LineFault::SectionEarly => 7,
        LineFault::TooManyNodes => 8,
        LineFault::StrayNumber => 9,
        LineFault::Number(_) => 10,
        LineFault::RepeatedNode => 11,
        LineFault::SelfEdge => 12,
        LineFault::Surplus => 13,
        LineFault::AfterEnd => 14,
        LineFault::LateSpace => 15,
    }
}

/// The number of a fault of a text; 0 if its reader has failed.
fn read_fault_number(fault: ReadFault) -> u32
    ensures { result ≡ read_fault_number fault }
{
    match fault {
        ReadFault::Line { fault, .. } => line_fault_number(fault),
        ReadFault::End(EndFault::Missing(_)) => 16,
        ReadFault::End(EndFault::Incomplete(_)) => 17,
        ReadFault::End(EndFault::WrongFormat) => 18,
        ReadFault::End(EndFault::WrongCount) => 19,
        ReadFault::TooLong => 20,
        ReadFault::OutOfMemory | ReadFault::Device => 0,
    }
}

/// The number of what is wrong with a number, if that is the fault of a line; otherwise 0.
fn number_of_fault(fault: LineFault) -> u32
    ensures { result ≡ number_of_fault fault }
{
    match fault {
        LineFault::Number(found) => number_fault_number(found),
        _ => 0,
    }
}

/// The number of what is wrong with a number.
fn number_fault_number(fault: NumberFault) -> u32
    ensures { result ≡ number_fault_number fault }
{
    match fault {
        NumberFault::LongWord => 1,
        NumberFault::BadNumber => 2,
        NumberFault::TooFine => 3,
        NumberFault::OutOfRange => 4,
        NumberFault::NotWhole => 5,
    }
}

/// The number of the field that a fault of a text's end names, or 0.
fn field_of_fault(fault: ReadFault) -> u32
    ensures { result ≡ field_of_fault fault }
{
    match fault {
        ReadFault::End(EndFault::Missing(field) | EndFault::Incomplete(field)) => {
            field_number(field)
        }
        _ => 0,
    }
}

/// The number of a field. No later version changes it.
fn field_number(field: Field) -> u32
    ensures { result ≡ field_number field }
{
    match field {
        Field::NameKey => 1,
        Field::TypeKey => 2,
        Field::CommentKey => 3,
        Field::OtherKey => 4,
        Field::DimensionKey => 5,
        Field::CapacityKey => 6,
        Field::ScaleKey => 7,
        Field::EdgeWeightTypeKey => 8,
        Field::EdgeWeightFormatKey => 9,
        Field::NodeCoordTypeKey => 10,
        Field::DisplayDataTypeKey => 11,
        Field::NodeCoordPart => 12,
        Field::DisplayDataPart => 13,
        Field::DemandPart => 14,
        Field::DepotPart => 15,
        Field::FixedEdgesPart => 16,
        Field::EdgeWeightPart => 17,
        Field::TourPart => 18,
        Field::NodePotentialPart => 19,
        Field::RowPotentialPart => 20,
        Field::ColumnPotentialPart => 21,
        Field::FixedEdgePotentialPart => 22,
        Field::FamilyPart => 23,
        Field::BranchPart => 24,
        Field::LoadUnitKey => 25,
        Field::MemoryPart => 26,
        Field::SubsetRowPart => 27,
    }
}
