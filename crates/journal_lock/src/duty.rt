//! What a pass of the journal may be trusted with.
use cz_base::limits::{DATACENTRES, MEMBERS};
use cz_base::{DcId, Lid};

/// The numbers of the duties of a datacentre: its token, its table, and a member of each of four kinds.
pub(crate) const BATCHERS: usize = 2;

pub(crate) const QUEUES: usize = BATCHERS + MEMBERS;

pub(crate) const MAINTAINERS: usize = QUEUES + MEMBERS;

pub(crate) const FILTERS: usize = MAINTAINERS + MEMBERS;

/// How many duties a datacentre has.
pub(crate) const DUTIES: usize = FILTERS + MEMBERS;

/// Where the numbers of the duties of sessions begin.
pub(crate) const SESSION_DUTIES: usize = DUTIES * DATACENTRES;

/// A part of the state whose events only the holder of this duty puts into the journal. Each duty is with one
/// pass at most. Batchers, queues, maintainers and filters are numbered from 0 to 15 within their datacentre.
#[derive(Clone, Copy, Debug, PartialEq, Eq)]
pub enum Duty {
    /// The counts and the last position of a datacentre's log.
    Token { dc: DcId },
    /// A datacentre's awareness table, with what it has received and what it has collected.
    Table { dc: DcId },
    Batcher { dc: DcId, member: u32 },
    Queue { dc: DcId, member: u32 },
    Maintainer { dc: DcId, member: u32 },
    Filter { dc: DcId, member: u32 },
    /// The commands of a session.
    Session { session: u32 },
    /// The open write of a session.
    Draft { session: u32 },
}

/// A position of the log of a datacentre.
#[derive(Clone, Copy, Debug, PartialEq, Eq)]
pub struct Position {
    pub dc: DcId,
    pub lid: Lid,
}
