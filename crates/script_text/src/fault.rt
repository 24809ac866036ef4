//! Why a script is refused: the cause, and the line that has it.

ghost use Rattle.std.specs.Prelude.{◌≡◌};
ghost use Rattle.script_text.specs.declared.fault.ReadFault.TheVariants.{Bad as BadLine, NoMemory as OutOfMemory};

use cz_base::{Back, NoMemory};
use std::alloc::AllocError;
use thiserror::Error;

/// Why a line is refused. Where several causes apply to one line, the one that stands first here is
/// told, but for those of single words, which are told from left to right.
#[derive(Clone, Copy, Debug, PartialEq, Eq, Error)]
pub enum Cause {
    /// A byte that no line has.
    #[error("bad byte")]
    BadByte,
    /// Two blanks side by side, or one at an end of the line.
    #[error("bad spacing")]
    BadSpacing,
    /// A line behind `end` that says something.
    #[error("after end")]
    AfterEnd,
    /// The first word begins no line.
    #[error("unknown word")]
    UnknownWord,
    /// A line of this kind does not stand here.
    #[error("out of place")]
    OutOfPlace,
    /// Too few or too many words for a line of this kind.
    #[error("wrong number of words")]
    WrongWords,
    /// No letter of a datacentre of this script, or the one that the line names first where it names two.
    #[error("bad datacentre")]
    BadDatacentre,
    /// No number: other bytes than digits, a needless zero, or more than ten digits.
    #[error("bad number")]
    BadNumber,
    /// A number beyond its range.
    #[error("out of range")]
    OutOfRange,
    /// No key or tag.
    #[error("bad name")]
    BadName,
    /// No body behind `=`.
    #[error("bad body")]
    BadBody,
    /// The sizes of this datacentre are given already.
    #[error("given twice")]
    GivenTwice,
    /// One more session, command or step than a script may have, or one more member than a stage may have.
    #[error("too many")]
    TooMany,
    /// The input ended before `end`.
    #[error("too short")]
    TooShort,
}

/// Why bytes are not read as a script: the first bad line, counted from 1, and its cause.
#[derive(Clone, Copy, Debug, PartialEq, Eq, Error)]
pub enum ScriptFault {
    /// A line is refused.
    #[error("line {line}: {cause}")]
    Bad {
        /// The number of the line, from 1 on.
        line: u32,
        /// The first cause that applies to it.
        cause: Cause,
    },
    /// There was no memory for what was read.
    #[error("no memory")]
    NoMemory,
}

/// Why one line is not read.
#[derive(Clone, Copy, Debug, PartialEq, Eq)]
pub enum ReadFault {
    /// It is refused.
    Bad(Cause),
    /// There was no memory for what it says.
    NoMemory,
}

impl From<Cause> for ReadFault {
    ghost from_gives = { λ cause fault. fault ≡ BadLine cause };

    fn from(cause: Cause) -> Self {
        ReadFault::Bad(cause)
    }
}

impl From<AllocError> for ReadFault {
    ghost from_gives = { λ _ fault. fault ≡ OutOfMemory };

    fn from(_: AllocError) -> Self {
        ReadFault::NoMemory
    }
}

impl From<NoMemory> for ReadFault {
    ghost from_gives = { λ _ fault. fault ≡ OutOfMemory };

    fn from(_: NoMemory) -> Self {
        ReadFault::NoMemory
    }
}

impl<T: Drop> From<Back<T>> for ReadFault {
    ghost from_gives = { λ _ fault. fault ≡ OutOfMemory };

    fn from(_: Back<T>) -> Self {
        ReadFault::NoMemory
    }
}
