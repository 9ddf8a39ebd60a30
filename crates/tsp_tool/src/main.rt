//! The program `tsp`, which parses its command line, runs the task, and sets the exit status.
//!
//! The words become a job (`job`, by the commands in `grammar`), and the job becomes a task on
//! files, a comparison, or a solution to be rewritten (`solution_run`). `running` opens the files
//! (`input`) and has tsp_judge run the task. A fault is reported on standard error and by
//! the exit status (`ends`), with an explanation if one is wanted (`explained`).
#![tactic(auto)]

mod build;
mod ends;
mod examples;
mod explained;
mod form_check;
mod form_comparison;
mod grammar;
mod held_text;
mod input;
mod job;
mod laws;
mod running;
mod solution_run;

use crate::build::BUILD;
use crate::input::Host;
use crate::running::{HostContext, run, tell_unread, tell_waiting};
use std::env;
use std::io::{self, IsTerminal};
use std::process::ExitCode;
use tsp_io::Output;

fn main(rt: HostRuntime) -> ExitCode {
    let mut out = Output::new(rt.stdout());
    let mut errors = rt.stderr();
    let host_context = HostContext {
        on_terminal: errors.is_terminal(),
        counts: errors.is_terminal() && !rt.stdout().is_terminal(),
        build: BUILD,
    };
    // If the reason can't be written, only the status reports it.
    let (status, _) = match words_of_line(&rt) {
        Ok(line) => {
            let _ = tell_waiting(&line, rt.stdin().is_terminal(), &mut errors);
            run(
                rt.alloc(),
                &line,
                &Host { rt: &rt },
                &mut out,
                &mut errors,
                host_context,
            )
        }
        Err(error) => tell_unread(rt.alloc(), &error, &mut errors),
    };
    ExitCode::from(status)
}

/// The words of the command line, the program's own name first. Fails if memory runs out, or if a
/// word isn't text.
fn words_of_line(rt: &HostRuntime) -> io::Result<Vec<String>> {
    let words = env::args(rt)?.collect(rt.alloc())?;
    Ok(words)
}
