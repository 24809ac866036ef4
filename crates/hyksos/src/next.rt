//! What a turn of a session tells.

use abstract_log::Answer;
use causal_deps::Draft;
use cz_base::Lid;

/// What a turn of a session did.
#[derive(Debug, Drop)]
pub struct SessionTurnDone {
    /// The number of the command that it began, if it began one.
    pub opened: Option<u32>,
    /// How far the session is after it.
    pub next: Next,
}

/// How far a session is with its command after a turn. Each `index` is the number of that command.
#[derive(Debug, Drop)]
pub enum Next {
    /// A write was begun, and this is its draft.
    Submitted(Draft),
    /// A command was answered at a position.
    Replied {
        index: u32,
        at: Lid,
        answer: Answer,
    },
    /// One more of the keys was looked up at a position, and some are left.
    Key {
        index: u32,
        done: u32,
        of: u32,
        at: Lid,
    },
    /// The head is below what the session has seen.
    Waiting {
        index: u32,
        floor: Lid,
        head: Lid,
    },
    /// The write that is open has no place yet.
    Unacknowledged {
        index: u32,
    },
    /// The head is below the collection floor.
    Below {
        index: u32,
        floor: Lid,
    },
    /// The indexer covers the log only up to there, which is below the pinned position.
    Behind {
        index: u32,
        covered: Lid,
    },
    /// No command is left.
    Finished,
}
