//! An example of a call of tsp_judge: checks two texts in memory, and returns the report. Its
//! contract says what `yes` means for the two texts.

ghost use Rattle.std.specs.Prelude.{◌≡◌, true, IfOk};
ghost use Rattle.example_check.specs.Texts.{IsAcceptedOnTexts};

use std::alloc::Global;
use tsp_judge::{Output, RunFault, Watched, run_check};

/// Judges a solution of an instance, and returns whether it is accepted, with the report.
///
/// # Errors
///
/// Those of `run_check`.
pub fn report_on(
    alloc: Global,
    instance: &[u8],
    solution: &[u8],
) -> Result<(bool, Vec<u8>), RunFault>
    ensures { IfOk result (λ found. found.0 ≡ true → IsAcceptedOnTexts instance.now solution.now found.1.items) }
{
    let mut first = Watched::new(instance);
    let mut second = Watched::new(solution);
    let mut report = Output::new(Vec::new(alloc));
    let accepted = run_check(alloc, &mut first, &mut second, &mut report)?;
    Ok((accepted, report.into_inner()))
}
