//! How a C call that writes no text ends, such as one that fills in numbers or opens a handle: a
//! status (`CallEnd`), with the numbers of `Status` in tsp_judge. `bindings/c/tsp.h` promises them,
//! so they never change. For calls that write a text, see `ended.rt`.

ghost use Rattle.tsp_c.specs.Prelude.{Ok, status_of, status_of_fault, OutOfMemory};
ghost use Rattle.std.specs.Prelude.{◌≡◌};

use crate::handle::NoBox;
use std::marker::Model;
use tsp_judge::{RunError, Status, status_of};

/// The buffer is too small.
pub(crate) const TOO_SMALL: u32 = Status::TooSmall as u32;

/// The status of a call. Contracts see its number.
///
/// Only this file makes one: it says that memory ran out only after a [`RunError`] or a [`NoBox`].
#[derive(Clone, Copy, Drop)]
pub(crate) struct CallEnd {
    number: u32,
}

impl Model for CallEnd {
    ghost use Rattle.std.specs.Prelude.{ℕ};

    ghost Value = { ℕ };

    ghost view = { λ ending. ending.number };

    ghost inverse = { λ number. record { number = number } };
}

impl CallEnd {
    /// The number of the status, which the call returns to C.
    pub(crate) fn number(self) -> u32
        ensures { result ≡ self }
    {
        self.number
    }

    /// The call succeeded: status 0.
    pub(crate) fn done() -> CallEnd
        ensures { result ≡ 0 }
    {
        CallEnd {
            number: Status::Yes as u32,
        }
    }

    /// The file has no such section.
    pub(crate) fn no() -> CallEnd
        ensures { result ≡ 1 }
    {
        CallEnd {
            number: Status::No as u32,
        }
    }

    /// A number was refused: the instance has no such node, row or section.
    pub(crate) fn refused() -> CallEnd
        ensures { result ≡ 4 }
    {
        CallEnd {
            number: Status::Refused as u32,
        }
    }

    /// The buffer is too small.
    pub(crate) fn too_small() -> CallEnd
        ensures { result ≡ 6 }
    {
        CallEnd { number: TOO_SMALL }
    }

    /// The status of a verdict: 0 if it accepts, otherwise 1.
    pub(crate) fn of_answer(accepts: bool) -> CallEnd
        ensures { result ≡ status_of (Ok accepts) }
    {
        CallEnd {
            number: u32::from(status_of(&Ok(accepts))),
        }
    }

    /// The status of a fault: 2 for a text's fault, 3 if memory ran out.
    pub(crate) fn of_fault(error: RunError) -> CallEnd
        ensures { result ≡ status_of_fault error }
    {
        CallEnd {
            number: u32::from(status_of(&Err(error.fault()))),
        }
    }

    /// There was no memory for a box.
    pub(crate) fn without_box(no_box: NoBox) -> CallEnd
        ensures { result ≡ status_of_fault OutOfMemory }
    {
        drop(no_box);
        CallEnd {
            number: Status::OutOfMemory as u32,
        }
    }
}
