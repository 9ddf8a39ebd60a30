//! The runs of `tsp show` and `tsp convert`. `task_run.rt` and tsp_c call them, and
//! `specs/ConvertRun.antt` pins every byte that they write.

ghost use Rattle.tsp_judge.specs.Prelude.{TakesAtMost, FailsByWrite, sink_of, read_trace_of, IsReadOn, most_taken};
ghost use Rattle.tsp_judge.specs.ConvertRun.{Becomes, IsConvertRun, IsShowRun};

use crate::check_run::read_file;
use crate::run_status::RunError;
use std::alloc::Global;
use tsp_file::{File, RelayoutFault, write_file};
use tsp_format::Layout;
use tsp_io::{Gives, Output, Takes, Watched};
use tsp_report::write_shown;

/// Like `run_show`, but returns a `RunError`.
///
/// # Errors
///
/// Those of `run_show`.
pub fn show_file<R: Gives, W: Takes>(
    alloc: Global,
    r: &mut Watched<R>,
    out: &mut Output<W>,
) -> Result<(), RunError>
    ensures answer { TakesAtMost most_taken (read_trace_of R.remaining r.old r.new) (λ read_trace.
        IsShowRun read_trace (sink_of W.contents out.old out.new) result) }
    ensures asked { IsReadOn R.gives r.old r.new }
    ensures cause { FailsByWrite W.takes out.new }
{
    let file = read_file(alloc, 1, r)?;
    match write_shown(file, out) {
        Err(fault) => Err(RunError::unwritten(fault)),
        Ok(()) => Ok(()),
    }
}

/// Like `run_convert`, but returns a `RunError`.
///
/// # Errors
///
/// Those of `run_convert`.
pub fn convert_file<R: Gives, W: Takes>(
    alloc: Global,
    r: &mut Watched<R>,
    to: Option<Layout>,
    out: &mut Output<W>,
) -> Result<(), RunError>
    ensures answer { TakesAtMost most_taken (read_trace_of R.remaining r.old r.new) (λ read_trace.
        IsConvertRun to read_trace (sink_of W.contents out.old out.new) result) }
    ensures asked { IsReadOn R.gives r.old r.new }
    ensures cause { FailsByWrite W.takes out.new }
{
    let file = read_file(alloc, 1, r)?;
    let converted = match in_layout(alloc, file, to) {
        Err(fault) => return Err(RunError::not_relaid(fault)),
        Ok(converted) => converted,
    };
    let written = write_file(alloc, &converted, out);
    drop(converted);
    match written {
        Err(fault) => Err(RunError::unwritten(fault)),
        Ok(()) => Ok(()),
    }
}

/// The file with its weights in a layout; unchanged if none is given.
fn in_layout(alloc: Global, file: File, to: Option<Layout>) -> Result<File, RelayoutFault>
    ensures { Becomes to file result }
{
    let Some(to) = to else {
        return Ok(file);
    };
    match file.relayout(alloc, to) {
        Err((fault, file)) => {
            drop(file);
            Err(fault)
        }
        Ok(relaid) => Ok(relaid),
    }
}
