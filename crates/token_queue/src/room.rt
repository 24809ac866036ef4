//! Room that is taken before anything is moved, so that a refused stamping changes nothing.
ghost use Rattle.std.specs.Prelude.{◌≡◌, ℕ, [], ◌∷◌, ◌++◌, ◌+◌, ◌-◌, ◌<◌, ◌≤◌, ◌^◌, length, min, slice_index, IfOk, OnOk};
ghost use Rattle.std.specs.Vec.{vec_len, vec_capacity};
ghost use Rattle.token_queue.specs.Queues.{no_outboxes};
ghost use Rattle.token_queue.specs.Room.{HaveRoom, entries_of, owned_among};
ghost use Rattle.cz_base.specs.declared.limits.TheConstants.{MEMBERS, NUMBERS_END};

use crate::Entry;
use cz_base::limits::{MEMBERS, NUMBERS_END};
use cz_base::{Lid, NoMemory, Seq};
use flstore_rounds::Epochs;
use std::alloc::Global;
use std::marker::Model;

/// The entries for one maintainer. Contracts see beside them how many more it takes without memory.
#[derive(Debug, Drop)]
pub(crate) struct Outbox {
    entries: Vec<Entry>,
}

impl Model for Outbox {
    ghost use Rattle.token_queue.specs.Room.{OutboxState};

    ghost Value = { OutboxState };

    ghost use Rattle.std.specs.Prelude.{◌-◌};
    ghost use Rattle.std.specs.Vec.{vec_len, vec_capacity};

    ghost view = { λ o. record { entries = o.entries.items; room = vec_capacity o.entries - vec_len o.entries } };
}

impl Outbox {
    fn new(alloc: Global) -> Self
        ensures { result.entries ≡ [] }
    {
        Outbox {
            entries: Vec::new(alloc),
        }
    }

    fn reserve(&mut self, wanted: usize) -> Result<(), NoMemory>
        ensures same { self.new.entries ≡ self.old.entries }
        ensures ok { OnOk result (wanted ≤ self.new.room) }
    {
        self.entries.reserve(wanted)?;
        Ok(())
    }

    /// The entry goes last.
    pub(crate) fn put(&mut self, entry: Entry)
        requires { 1 ≤ self.old.room }
        ensures entries { self.new.entries ≡ self.old.entries ++ entry ∷ [] }
        ensures room { self.old.room ≤ self.new.room + 1 }
    {
        self.entries.push_reserved(entry);
    }

    /// All entries, which then are gone.
    pub(crate) fn take(&mut self, alloc: Global) -> Seq<Entry>
        ensures entries { result ≡ self.old.entries }
        ensures after { self.new.entries ≡ [] }
    {
        let entries = std::mem::replace(&mut self.entries, Vec::new(alloc));
        Seq::from_vec(entries)
    }
}

/// An empty outbox for each maintainer that there may be.
pub(crate) fn empty_outboxes(alloc: Global) -> Result<Vec<Outbox>, NoMemory>
    ensures len { IfOk result (λ outboxes. vec_len outboxes ≡ MEMBERS) }
    ensures empty { IfOk result (λ outboxes. entries_of outboxes.items ≡ no_outboxes) }
{
    let mut outboxes = Vec::new(alloc);
    for _made in 0..MEMBERS {
        outboxes.push(Outbox::new(alloc))?;
    }
    Ok(outboxes)
}

/// How many of so many deferred items and items of a queue can be stamped behind the last position: positions stay
/// below [`NUMBERS_END`].
pub(crate) fn most_stamped(last: Lid, deferred: usize, items: usize) -> usize
    requires { last < NUMBERS_END }
    ensures { result ≡ min (deferred + items) (NUMBERS_END - 1 - last) }
{
    let left = NUMBERS_END - 1 - last;
    deferred.saturating_add(items).min(left as usize)
}

// How many of so many positions from p on each member owns.
fn owners(epochs: &Epochs, p: Lid, wanted: usize) -> [usize; MEMBERS]
    requires first { 1 ≤ p }
    requires lids { p + wanted ≤ NUMBERS_END }
    ensures { (m : ℕ) → m < MEMBERS → slice_index result m ≡ owned_among epochs.now m p wanted }
{
    let mut owned = [0; MEMBERS];
    for lid in p..p + wanted as u64 {
        let owner = epochs.owner(lid) as usize;
        owned[owner] += 1;
    }
    owned
}

/// Takes room in each outbox for what its member owns of so many positions from p on.
pub(crate) fn take_room(
    outboxes: &mut [Outbox],
    epochs: &Epochs,
    p: Lid,
    wanted: usize,
) -> Result<(), NoMemory>
    requires first { 1 ≤ p }
    requires lids { p + wanted ≤ NUMBERS_END }
    requires members { length outboxes.old ≡ MEMBERS }
    ensures same { entries_of outboxes.new ≡ entries_of outboxes.old }
    ensures ok { OnOk result (HaveRoom epochs.now p wanted outboxes.new) }
{
    let owned = owners(epochs, p, wanted);
    for m in 0..MEMBERS {
        outboxes[m].reserve(owned[m])?;
    }
    Ok(())
}
