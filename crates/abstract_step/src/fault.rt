//! Why an event is no step.
ghost use Rattle.std.specs.Prelude.{◌≡◌};
ghost use Rattle.abstract_step.specs.declared.fault.StepFault.TheVariants.{NoMemory as NoMemoryFault};

use cz_base::NoMemory;
use thiserror::Error;

/// Why an event is no step.
#[derive(Clone, Copy, Debug, PartialEq, Eq, Error)]
pub enum StepFault {
    /// The event may not happen: `place` is the number of the first condition that fails, from 1.
    #[error("refused by condition {place}")]
    Refused { place: u32 },
    /// There is no memory for the step.
    #[error("no memory")]
    NoMemory,
}

impl From<NoMemory> for StepFault {
    ghost from_gives = { λ _ fault. fault ≡ NoMemoryFault };

    fn from(_: NoMemory) -> Self {
        StepFault::NoMemory
    }
}
