//! An example of how to call the proved code from another crate: it judges a tour of an instance,
//! both given as bytes in memory.
#![tactic(auto)]

mod report;

ghost use Rattle.std.specs.Prelude.{IfOk};
ghost use Rattle.example_check.specs.Texts.{IsVerdictOnTexts};

pub use report::report_on;
use std::alloc::{AllocError, Global};
use thiserror::Error;
use tsp_cost::Instance;
use tsp_format::Kind;
use tsp_read::{ReadFault, read_bytes};
use tsp_verdict::{Verdict, judge_tour};

/// Why `verdict_on` returns no verdict.
#[derive(Debug, PartialEq, Drop, Error)]
pub enum NoVerdict {
    /// A text isn't a valid file.
    #[error("{0}")]
    Fault(#[from] ReadFault),
    /// The first file isn't of TYPE TSP or ATSP.
    #[error("wrong kind")]
    WrongKind,
    /// Out of memory for the judgement.
    #[error("out of memory")]
    OutOfMemory(#[from] AllocError),
}

/// Reads an instance and a solution, and judges the solution's tour.
///
/// # Errors
///
/// `Fault` if a text isn't a valid file, `WrongKind` if the first is of another TYPE than TSP or
/// ATSP, `OutOfMemory`.
pub fn verdict_on(alloc: Global, instance: &[u8], solution: &[u8]) -> Result<Verdict, NoVerdict>
    ensures { IfOk result (IsVerdictOnTexts instance.now solution.now) }
{
    let file = read_bytes(alloc, instance)?;
    let Ok(instance) = Instance::of(file) else {
        return Err(NoVerdict::WrongKind);
    };
    let (Kind::Tsp | Kind::Atsp) = instance.kind() else {
        return Err(NoVerdict::WrongKind);
    };
    let solution = read_bytes(alloc, solution)?;
    Ok(judge_tour(alloc, &instance, &solution)?)
}

#[cfg(test)]
mod tests {
    use super::{report_on, verdict_on};
    use std::test::Fail;
    use tsp_verdict::{Reason, Verdict};

    /// The rectangle with the sides 3 and 4.
    const RECTANGLE: &[u8] =
        b"TYPE : TSP\nDIMENSION : 4\nEDGE_WEIGHT_TYPE : EUC_2D\nNODE_COORD_SECTION\n1 0 0\n2 3 0\n3 3 4\n4 0 4\nEOF\n";

    #[test]
    fn a_tour_along_the_sides_has_the_length_14(rt: HostRuntime) -> Result<(), Fail> {
        let tour = b"TYPE : TOUR\nTOUR_SECTION\n1 2 3 4 -1\nEOF\n";
        let verdict = verdict_on(rt.alloc(), RECTANGLE, tour);
        assert!(rt;
            verdict
                == Ok(Verdict::Tour {
                    length: 14,
                    bound: None
                })
        );
        drop(verdict);
        Ok(())
    }

    #[test]
    fn the_report_on_this_tour_ends_in_yes(rt: HostRuntime) -> Result<(), Fail> {
        let tour = b"TYPE : TOUR\nTOUR_SECTION\n1 2 3 4 -1\nEOF\n";
        let Ok((accepted, report)) = report_on(rt.alloc(), RECTANGLE, tour) else {
            return Err(Fail::from("no report"));
        };
        assert!(rt; accepted);
        assert!(rt; report.as_slice() == b"type TSP\nnodes 4\nlength 14\nyes\n".as_slice());
        drop(report);
        Ok(())
    }

    #[test]
    fn a_tour_with_a_node_twice_is_refused(rt: HostRuntime) -> Result<(), Fail> {
        let tour = b"TYPE : TOUR\nTOUR_SECTION\n1 2 2 3 -1\nEOF\n";
        let verdict = verdict_on(rt.alloc(), RECTANGLE, tour);
        assert!(rt; verdict == Ok(Verdict::No(Reason::RepeatedNode { place: 3 })));
        drop(verdict);
        Ok(())
    }
}
