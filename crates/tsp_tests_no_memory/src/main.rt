//! A program that tests/program/refusals runs while requests for memory are refused.
//!
//! First it makes calls that take no memory, which must succeed although every request is refused;
//! then it traces tours, which takes some memory. The exit status is 0 if every answer is right, 1
//! if one is wrong, and 3 if there was no memory for the tours.
#![tactic(auto)]

mod files;
mod numbers;
mod tours;

use std::process::ExitCode;

fn main(rt: HostRuntime) -> ExitCode {
    if !numbers::are_right() || !files::are_right(rt.alloc()) {
        return ExitCode::from(1);
    }
    match tours::are_right(rt.alloc()) {
        Ok(true) => ExitCode::from(0),
        Ok(false) => ExitCode::from(1),
        Err(_) => ExitCode::from(3),
    }
}
