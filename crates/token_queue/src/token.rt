//! The token, and how it stamps the items that it defers.

ghost use Rattle.std.specs.Prelude.{◌≡◌, ◌+◌, ◌%◌, ◌<◌, ◌≤◌, ◌^◌, [], length, replicate, slice_index, All, ℕ, ◌↔◌, IsErrOf, OnErr, OnOk};
ghost use Rattle.std.specs.Option.{ForSome, option_map, option_map_or};
ghost use Rattle.std.specs.List.{position};
ghost use Rattle.token_queue.specs.Items.{FitsItem, is_ready, record_from};
ghost use Rattle.flstore_rounds.specs.Epochs.{last_epoch};
ghost use Rattle.token_queue.specs.Queues.{IsToken, entry_after, mark_bound, next_out, token_after, with_maintainer, with_queue};
ghost use Rattle.cz_base.specs.declared.limits.TheConstants.{DATACENTRES, MEMBERS, NUMBERS_END};

use crate::Entry;
use causal_deps::{Counts, Item, Record, draft_ready, ready};
use cz_base::{DcId, Lid};
use flstore_rounds::{EpochFault, Epochs};
use std::alloc::Global;
use std::marker::Model;
use thiserror::Error;

/// Why a token takes no further maintainer.
#[derive(Clone, Copy, Debug, PartialEq, Eq, Error)]
pub enum AdoptFault {
    /// The mark is not above this bound: the greater of the last position and the last epoch's start.
    #[error("not above position {bound}")]
    Late { bound: Lid },
    /// There is no memory for one epoch more.
    #[error("no memory")]
    NoMemory,
}

/// The one right to stamp at a datacentre, which moves from queue to queue: the greatest number of each
/// host that was stamped, the last position, and the items that could not be stamped yet.
#[derive(Debug, Drop)]
pub struct Token {
    dc: DcId,
    counts: Counts,
    last: Lid,
    pub(crate) deferred: Vec<Item>,
    epochs: Epochs,
    pub(crate) at: u32,
    queues: u32,
}

impl Model for Token {
    ghost use Rattle.token_queue.specs.Queues.{TokenState, IsToken};

    ghost Value = { TokenState };

    ghost view = { λ t. record { dc = t.dc; counts = t.counts; last = t.last; deferred = t.deferred.items; epochs = t.epochs; at = t.at; queues = t.queues } };

    ghost invariant = { λ t. IsToken (record { dc = t.dc; counts = t.counts; last = t.last; deferred = t.deferred.items; epochs = t.epochs; at = t.at; queues = t.queues }) };
}

impl Token {
    /// The token of a datacentre that has stamped nothing, at its first queue.
    pub fn first(alloc: Global, dc: DcId, dcs: u32, queues: u32, epochs: Epochs) -> Self
        requires dcs { (1 ≤ dcs) × (dcs ≤ DATACENTRES) }
        requires dc { dc < dcs }
        requires queues { (1 ≤ queues) × (queues ≤ MEMBERS) }
        ensures { result ≡ record { dc = dc; counts = replicate dcs 0; last = 0; deferred = []; epochs = epochs; at = 0; queues = queues } }
    {
        Token {
            dc,
            counts: Counts::zero(dcs),
            last: 0,
            deferred: Vec::new(alloc),
            epochs,
            at: 0,
            queues,
        }
    }

    /// The number of the queue after its own; after the last comes the first.
    pub fn next_queue(&self) -> u32
        ensures value { result ≡ (self.now.at + 1) % self.now.queues }
        ensures there { result < self.now.queues }
        ensures kept { IsToken self.now }
    {
        (self.at + 1) % self.queues
    }

    /// The epochs by which the stamped positions are dealt.
    pub fn epochs(&self) -> &Epochs
        ensures value { result.now ≡ self.now.epochs }
        ensures kept { IsToken self.now }
    {
        &self.epochs
    }

    /// How many records of each host are stamped.
    pub fn counts(&self) -> Counts
        ensures value { result ≡ self.now.counts }
        ensures kept { IsToken self.now }
    {
        self.counts
    }

    /// How many items are deferred.
    pub fn deferred(&self) -> usize
        ensures value { result ≡ length self.now.deferred }
        ensures kept { IsToken self.now }
    {
        self.deferred.len()
    }

    /// The position that was stamped last, or 0.
    pub fn last(&self) -> Lid
        ensures value { result ≡ self.now.last }
        ensures kept { IsToken self.now }
    {
        self.last
    }

    /// From position `mark` on there is one maintainer more. Refused as `Late` exactly where `mark` is not above the bound, which is
    /// the greater of the last position and the last epoch's start; after any refusal the token is as before.
    pub fn adopt(&mut self, mark: Lid) -> Result<(), AdoptFault>
        requires mark { mark < NUMBERS_END }
        requires few { (last_epoch self.old.epochs).members < MEMBERS }
        ensures ok { OnOk result (self.new ≡ with_maintainer self.old mark) }
        ensures late { (bound : ℕ) → IsErrOf result (AdoptFault.Late bound) ↔ ((bound ≡ mark_bound self.old) × (mark ≤ bound)) }
        ensures err { OnErr result (self.new ≡ self.old) }
    {
        let last = self.epochs.last();
        let bound = self.last.max(last.start);
        if mark <= bound {
            return Err(AdoptFault::Late { bound });
        }
        match self.epochs.add_epoch(mark, last.members + 1) {
            Ok(()) => Ok(()),
            Err(EpochFault::Late { .. }) => unreachable!(),
            Err(EpochFault::NoMemory) => Err(AdoptFault::NoMemory),
        }
    }

    /// There is one queue more in the ring, behind the last.
    pub fn grow(&mut self)
        requires { self.old.queues < MEMBERS }
        ensures { self.new ≡ with_queue self.old }
    {
        self.queues += 1;
    }

    /// The first deferred item that is ready becomes the record at the next position.
    pub(crate) fn stamp_next(&mut self) -> Option<Entry>
        requires { ForSome (next_out self.old) (λ _. self.old.last + 1 < NUMBERS_END) }
        ensures entry { result ≡ option_map (entry_after self.old) (next_out self.old) }
        ensures token { self.new ≡ option_map_or (token_after self.old) (next_out self.old) self.old }
    {
        let Some(at) = first_ready(&self.counts, &self.deferred) else {
            return None;
        };
        let item = self.deferred.remove(at);
        let rec = into_record(self.dc, &self.counts, item);
        self.counts.put(rec.host, rec.toid);
        self.last += 1;
        Some(Entry {
            lid: self.last,
            rec,
        })
    }
}

// Whether the item may be stamped next.
fn is_ready_item(counts: &Counts, item: &Item) -> bool
    requires { FitsItem (length counts.now) item.now }
    ensures { result ≡ is_ready counts.now item.now }
{
    match item {
        Item::Local(draft) => draft_ready(counts, draft),
        Item::External(rec) => ready(counts, rec),
    }
}

// The place of the first item that is ready.
fn first_ready(counts: &Counts, items: &[Item]) -> Option<usize>
    requires { All (FitsItem (length counts.now)) items.now }
    ensures { result ≡ position (is_ready counts.now) items.now }
{
    items.iter().position(|item| is_ready_item(counts, item))
}

// The record that an item becomes. A draft gets the next number of its datacentre.
fn into_record(dc: DcId, counts: &Counts, item: Item) -> Record
    requires dc { dc < length counts.now }
    requires toid { slice_index counts.now dc + 1 < NUMBERS_END }
    requires fit { FitsItem (length counts.now) item }
    ensures { result ≡ record_from dc counts.now item }
{
    match item {
        Item::Local(draft) => draft.seal(dc, counts.get(dc) + 1),
        Item::External(rec) => rec,
    }
}
