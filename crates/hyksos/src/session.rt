//! Sessions: their commands, and how far they are with them.

ghost use Rattle.std.specs.Prelude.{◌≡◌, ◌<◌, ◌≤◌, ◌+◌, ◌^◌, ℕ, true, is_some, length, replicate, All};
ghost use Rattle.abstract_log.specs.Fits.{FitsCommand};
ghost use Rattle.abstract_log.specs.Worlds.{first_standing};
ghost use Rattle.hyksos.specs.Sessions.{AreCommands, acked, is_unanswered, session_at, writes};
ghost use Rattle.cz_base.specs.declared.limits.TheConstants.{DATACENTRES};

use abstract_log::{Command, Found, Standing, raise_place};
use causal_deps::{Counts, Place};
use cz_base::{Lid, Seq};
use std::alloc::Global;
use std::marker::Model;

/// A session: its commands, how far it is, and what its open look-up has found.
#[derive(Debug, Drop)]
pub struct Session {
    pub(crate) number: u32,
    pub(crate) commands: Seq<Command>,
    pub(crate) standing: Standing,
    pub(crate) pin: Option<Lid>,
    pub(crate) found: Seq<Found>,
}

impl Model for Session {
    ghost use Rattle.hyksos.specs.Sessions.{AreCommands, SessionState};

    ghost Value = { SessionState };

    ghost view = { λ s. record { number = s.number; commands = s.commands; standing = s.standing; pin = s.pin; found = s.found } };

    ghost invariant = { λ s. AreCommands s.commands };
}

impl Session {
    /// A session that has begun nothing, at one of so many datacentres.
    pub fn new(alloc: Global, number: u32, dcs: u32, commands: Seq<Command>) -> Self
        requires dcs { (1 ≤ dcs) × (dcs ≤ DATACENTRES) }
        requires commands { AreCommands commands }
        ensures { result ≡ session_at number commands (first_standing dcs) }
    {
        let past = Counts::zero(dcs);
        Session::at(alloc, number, commands, 0, false, past, 0)
    }

    /// A session that has so many commands answered. Where `begun`, the next one is begun without a pin, and a
    /// write then awaits its acknowledgement.
    pub fn at(
        alloc: Global,
        number: u32,
        commands: Seq<Command>,
        answered: u32,
        begun: bool,
        past: Counts,
        floor: Lid,
    ) -> Self
        requires commands { AreCommands commands }
        requires answered { answered ≤ length commands }
        requires next { begun ≡ true → answered < length commands }
        ensures { result ≡ session_at number commands (record { answered = answered; begun = begun; past = past; floor = floor }) }
    {
        Session {
            number,
            commands,
            standing: Standing {
                answered,
                begun,
                past,
                floor,
            },
            pin: None,
            found: Seq::new(alloc),
        }
    }

    /// Its number, from 0.
    pub fn number(&self) -> u32
        ensures value { result ≡ self.now.number }
        ensures commands { AreCommands self.now.commands }
    {
        self.number
    }

    /// Whether one of its commands is not answered.
    pub fn unanswered(&self) -> bool
        ensures { result ≡ is_unanswered self.now }
    {
        (self.standing.answered as usize) < self.commands.len()
    }

    /// Whether a look-up of its reads at a pinned position.
    pub fn is_pinned(&self) -> bool
        ensures { result ≡ is_some self.now.pin }
    {
        self.pin.is_some()
    }

    /// Whether its open or next command is there and is a write.
    pub fn writes(&self) -> bool
        ensures { result ≡ writes self.now }
    {
        match self.next() {
            Some(command) => command.is_write(),
            None => false,
        }
    }

    /// The write that is open got its place: it is answered, and the session knows of its record. It asks only that
    /// one command more can be counted, which is so wherever a write is open.
    pub fn ack(&mut self, place: &Place)
        requires { self.old.standing.answered + 1 < 2 ^ 32 }
        ensures { self.new ≡ acked place.now self.old }
    {
        self.standing.answered += 1;
        self.standing.begun = false;
        raise_place(&mut self.standing.past, place);
        self.standing.floor = self.standing.floor.max(place.lid);
    }
}
