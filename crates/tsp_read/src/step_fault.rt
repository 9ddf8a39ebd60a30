//! Why a line or a word isn't taken: the text has a fault, or memory was refused. The lists of this
//! crate return it, and `items.rt` adds the place.

ghost use Rattle.std.specs.Prelude.{◌≡◌};
ghost use Rattle.tsp_text.specs.declared.fault.LineFault.TheVariants.{Number};
ghost use Rattle.tsp_read.specs.declared.step_fault.StepFault.TheVariants.{Memory, Fault};

use tsp_io::Refused;
use tsp_number::NumberFault;
use tsp_text::LineFault;

/// Why a line or a word isn't taken.
#[derive(Clone, Copy, Debug)]
pub enum StepFault {
    /// Out of memory.
    Memory(Refused),
    /// The line or word has this fault.
    Fault(LineFault),
}

impl From<Refused> for StepFault {
    ghost from_gives = { λ refused step. step ≡ Memory refused };

    fn from(refused: Refused) -> StepFault {
        StepFault::Memory(refused)
    }
}

impl From<LineFault> for StepFault {
    ghost from_gives = { λ fault step. step ≡ Fault fault };

    fn from(fault: LineFault) -> StepFault {
        StepFault::Fault(fault)
    }
}

impl From<NumberFault> for StepFault {
    ghost from_gives = { λ fault step. step ≡ Fault (Number fault) };

    fn from(fault: NumberFault) -> StepFault {
        StepFault::Fault(LineFault::Number(fault))
    }
}
