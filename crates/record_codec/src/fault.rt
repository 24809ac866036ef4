//! Why bytes are not decoded.

ghost use Rattle.std.specs.Prelude.{◌≡◌};
ghost use Rattle.record_codec.specs.declared.fault.DecodeFault.TheVariants.{NoMemory as OutOfMemory};

use cz_base::Back;
use thiserror::Error;

/// Why bytes are not decoded.
#[derive(Clone, Copy, Debug, PartialEq, Eq, Error)]
pub enum DecodeFault {
    /// The bytes are no spelling. The first `at` of them begin one, and no more of them do.
    #[error("malformed at byte {at}")]
    Malformed { at: usize },
    /// There is no memory for what the bytes spell.
    #[error("no memory")]
    NoMemory,
}

impl<T: Drop> From<Back<T>> for DecodeFault {
    ghost from_gives = { λ _ fault. fault ≡ OutOfMemory };

    fn from(_: Back<T>) -> Self {
        DecodeFault::NoMemory
    }
}
