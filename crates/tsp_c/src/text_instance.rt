//! The instance that a text parses to, for the C calls on a text that fill in numbers
//! (`pair_costs.rt`, `point_calls.rt`), and the call `tsp_count`. Calls on a handle don't come
//! here, because their text has been read.

ghost use Rattle.tsp_c.specs.NumberCalls.{FillsCount, FindsInstance};

use crate::call_end::CallEnd;
use std::alloc::Global;
use tsp_cost::{Costs, Instance};
use tsp_judge::{RunError, read_text};

/// The instance that a text parses to.
///
/// # Errors
///
/// `File` with the number 1 if the text isn't valid, and `WrongKind` if its file isn't an instance.
pub(crate) fn instance_of(alloc: Global, text: &[u8]) -> Result<Instance, RunError>
    ensures { FindsInstance text.now result }
{
    let file = read_text(alloc, 1, text)?;
    match Instance::of(file) {
        Ok(instance) => Ok(instance),
        Err((_, other)) => {
            drop(other);
            Err(RunError::wrong_kind())
        }
    }
}

/// Fills in how many nodes a text's instance has, and returns the status.
pub(crate) fn fill_count(alloc: Global, text: &[u8], count: &mut u32) -> CallEnd
    ensures { FillsCount text.now count.old count.new result }
{
    match instance_of(alloc, text) {
        Err(error) => CallEnd::of_fault(error),
        Ok(instance) => {
            *count = instance.count();
            drop(instance);
            CallEnd::done()
        }
    }
}
