//! The journal: a list of events with room for more.
ghost use Rattle.std.specs.Prelude.{◌≡◌, ◌+◌, ◌<◌, ◌≤◌, ◌++◌, ◌∷◌, [], length, OnOk, OnErr};

use abstract_log::Event;
use cz_base::{NoMemory, Seq};
use std::alloc::Global;
use std::marker::Model;

/// Events, with room for so many more. Contracts see both as a record.
#[derive(Drop)]
pub struct Journal {
    events: Vec<Event>,
}

impl Model for Journal {
    ghost use Rattle.std.specs.Prelude.{◌-◌, vec_len, vec_capacity};
    ghost use Rattle.journal_lock.specs.Law.{Book};

    ghost Value = { Book };

    ghost view = { λ j. record { log = j.events.items; spare = vec_capacity j.events - vec_len j.events } };
}

impl Journal {
    /// No event.
    pub fn new(alloc: Global) -> Journal
        ensures { result.log ≡ [] }
    {
        Journal {
            events: Vec::new(alloc),
        }
    }

    /// How many events there are.
    pub fn len(&self) -> usize
        ensures { result ≡ length self.now.log }
    {
        self.events.len()
    }

    /// There is room for n more events.
    pub fn reserve(&mut self, n: usize) -> Result<(), NoMemory>
        ensures log { self.new.log ≡ self.old.log }
        ensures spare { OnOk result (n ≤ self.new.spare) }
        ensures err { OnErr result (self.new ≡ self.old) }
    {
        self.events.reserve(n)?;
        Ok(())
    }

    /// The event goes last.
    pub fn push(&mut self, event: Event)
        requires { 0 < self.old.spare }
        ensures log { self.new.log ≡ self.old.log ++ event ∷ [] }
        ensures spare { self.new.spare + 1 ≡ self.old.spare }
    {
        self.events.push_reserved(event);
    }

    /// The events, with no memory taken.
    pub fn into_events(self) -> Seq<Event>
        ensures { result ≡ self.log }
    {
        let Journal { events } = self;
        Seq::from_vec(events)
    }
}
