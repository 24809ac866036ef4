//! The tasks that words ask for, and why words ask for none.

ghost use Rattle.std.specs.Prelude.{◌≡◌};
ghost use Rattle.command_line.specs.declared.task.WordsFault.TheVariants.{NoMemory as OutOfMemory};

use std::alloc::AllocError;
use thiserror::Error;

/// Which report of a run is written.
#[derive(Clone, Copy, Debug, PartialEq, Eq)]
pub enum Form {
    /// Every event, reply and stage turn, and then the logs.
    Full,
    /// The logs of all datacentres at the end of the run.
    Logs,
    /// The counts of the run, one a line.
    Summary,
    /// The logs and replies as one JSON value.
    Json,
}

/// What the words ask for.
#[derive(Clone, Copy, Debug, PartialEq, Eq)]
pub enum Task {
    /// A script is read and run, and its report is written.
    Replay {
        /// The form of that report.
        form: Form,
    },
    /// The script that a seed gives is run, and the summary is written.
    Generate {
        /// The number that the script is drawn from.
        seed: u64,
    },
    /// The script of a log by itself is read and run, and the text of its run is written.
    FlStore,
}

/// Why the words ask for nothing.
#[derive(Clone, Copy, Debug, PartialEq, Eq, Error)]
pub enum WordsFault {
    /// The command does not take the words, or they ask for no task.
    #[error("the words ask for nothing")]
    NotValid,
    /// There was no memory to read the words.
    #[error("no memory")]
    NoMemory,
}

impl From<AllocError> for WordsFault {
    ghost from_gives = { λ _ fault. fault ≡ OutOfMemory };

    fn from(_: AllocError) -> Self {
        WordsFault::NoMemory
    }
}
