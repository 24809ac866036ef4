//! The announcement, and what it asks next.

ghost use Rattle.std.specs.Prelude.{◌≡◌, ℕ, None};
ghost use Rattle.std.specs.Option.{option_map};
ghost use Rattle.stage_marks.specs.declared.marks.NextMark.TheVariants.{Activate, Ask};
ghost use Rattle.stage_marks.specs.Marks.{announce_told, announced_then, heard_then, next_told, value_of};

use cz_base::{DcId, Toid};
use std::marker::Model;
use toid_filter::Accept;

/// What is announced: from number `mark` of a host on one filter more serves it.
#[derive(Clone, Copy, Debug, PartialEq, Eq)]
pub struct Announced {
    /// The host.
    pub host: DcId,
    /// The first number that the grown map deals, from 1.
    pub mark: Toid,
    /// The filter that is asked next, from 0; as many as there are once all have accepted.
    pub next: u32,
}

/// What comes of an announcement that is made.
#[derive(Clone, Copy, Debug, PartialEq, Eq)]
pub enum Announce {
    /// It is on.
    Announced,
    /// Another one is on: of this host and mark.
    Busy { host: DcId, mark: Toid },
    /// The mark is not above this start, from which on the host has its filters.
    Late { last_start: Toid },
}

/// What an announcement asks next.
#[derive(Clone, Copy, Debug, PartialEq, Eq)]
pub enum NextMark {
    /// There is none.
    Idle,
    /// This filter is to accept the mark.
    Ask { filter: u32 },
    /// All filters accepted it, and are to take the grown map.
    Activate,
}

/// The announcement of a datacentre, if one is on.
#[derive(Debug, Drop)]
pub struct Marks {
    announced: Option<Announced>,
}

impl Model for Marks {
    ghost use Rattle.std.specs.Prelude.{Option};
    ghost use Rattle.std.specs.Option.{option_map};
    ghost use Rattle.toid_filter.specs.Filters.{Announcement};
    ghost use Rattle.stage_marks.specs.Marks.{value_of};

    ghost Value = { Option Announcement };

    ghost view = { λ marks. option_map value_of marks.announced };
}

impl Marks {
    /// No announcement.
    pub fn new() -> Self
        ensures { result ≡ None }
    {
        Marks { announced: None }
    }

    /// The announcement that is on.
    pub fn announced(&self) -> Option<Announced>
        ensures { option_map value_of result ≡ self.now }
    {
        self.announced
    }

    /// Announces that from number `mark` of a host on, whose last share starts at `last_start`, there is one filter more.
    pub fn announce(&mut self, host: DcId, mark: Toid, last_start: Toid) -> Announce
        ensures told { result ≡ announce_told self.old mark last_start }
        ensures after { self.new ≡ announced_then self.old host mark last_start }
    {
        if let Some(on) = self.announced {
            return Announce::Busy {
                host: on.host,
                mark: on.mark,
            };
        }
        if mark <= last_start {
            return Announce::Late { last_start };
        }
        self.announced = Some(Announced {
            host,
            mark,
            next: 0,
        });
        Announce::Announced
    }

    /// What is to be asked next, of so many filters.
    pub fn next(&self, filters: u32) -> NextMark
        ensures { result ≡ next_told self.now filters }
    {
        match self.announced {
            None => NextMark::Idle,
            Some(on) if on.next < filters => NextMark::Ask { filter: on.next },
            Some(_) => NextMark::Activate,
        }
    }

    /// The filter that was asked answered: the next one is asked, or the announcement is off.
    pub fn heard(&mut self, filters: u32, answer: Accept)
        requires { (filter : ℕ) × (next_told self.old filters ≡ Ask filter) }
        ensures { self.new ≡ heard_then self.old answer }
    {
        let Some(on) = self.announced else {
            return;
        };
        self.announced = match answer {
            Accept::Accepted if on.next < filters => Some(Announced {
                next: on.next + 1,
                ..on
            }),
            Accept::Accepted => unreachable!(),
            Accept::Late { .. } => None,
        };
    }

    /// The filters took the grown map: the announcement is off.
    pub fn done(&mut self, _filters: u32)
        requires { next_told self.old _filters ≡ Activate }
        ensures { self.new ≡ None }
    {
        self.announced = None;
    }
}
