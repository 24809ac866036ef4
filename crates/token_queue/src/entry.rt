//! Entries and stamps: what a stamping hands on and what it answers.

ghost use Rattle.std.specs.Prelude.{◌≡◌};
ghost use Rattle.token_queue.specs.Queues.{stamp_of};

use causal_deps::{Place, Record};
use cz_base::Lid;
use thiserror::Error;

/// A record and its position, to be placed by the maintainer that owns the position.
#[derive(Debug, Drop)]
pub struct Entry {
    /// The position in the log, from 1.
    pub lid: Lid,
    pub rec: Record,
}

/// Where a record was stamped, and the command that it is of.
#[derive(Clone, Copy, Debug, PartialEq, Eq)]
pub struct Stamp {
    pub place: Place,
    /// The session of the command, below [`cz_base::limits::SESSIONS`].
    pub session: u32,
    /// The number of the command in its session, from 1.
    pub index: u32,
}

/// Why nothing was stamped.
#[derive(Clone, Copy, Debug, PartialEq, Eq, Error)]
pub enum StampFault {
    /// The queue does not have the token.
    #[error("the token is elsewhere")]
    NoToken,
    /// There is no memory for the stamps, the outboxes or the deferred items.
    #[error("no memory")]
    NoMemory,
}

/// The stamp of an entry.
pub(crate) fn stamp_of_entry(entry: &Entry) -> Stamp
    ensures { result ≡ stamp_of entry.now }
{
    Stamp {
        place: Place {
            lid: entry.lid,
            host: entry.rec.host,
            toid: entry.rec.toid,
        },
        session: entry.rec.session,
        index: entry.rec.index,
    }
}
