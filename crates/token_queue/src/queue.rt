//! A queue: the items that wait, the outboxes of the maintainers, and the token while it is here.

ghost use Rattle.std.specs.Prelude.{◌≡◌, ◌+◌, ◌<◌, ◌≤◌, ◌^◌, ◌↔◌, List, [], ◌++◌, length, slice_index_or, Some, None, IsTrue, IfOk, IfErr, OnOk, OnErr, IsErrOf, All};
ghost use Rattle.std.specs.Borrow.{LendsIf, sem};
ghost use Rattle.std.specs.Option.{ForSome, IsSomeAnd, option_copied, option_copied_mut};
ghost use Rattle.std.specs.Vec.{vec_len, vec_capacity};
ghost use Rattle.causal_deps.specs.declared.record.Record.{Record};
ghost use Rattle.causal_deps.specs.Logs.{AreCountsOf};
ghost use Rattle.token_queue.specs.Items.{FitsItem};
ghost use Rattle.token_queue.specs.Drain.{drain, drain_by};
ghost use Rattle.token_queue.specs.Queues.{IsLogOf, IsToken, Stamps, all_of, dealt, entries_from, no_outboxes, outbox_for, stamped_queue, stamped_token, stamps_of, without_outbox};
ghost use Rattle.token_queue.specs.Room.{HaveRoom, entries_of};
ghost use Rattle.token_queue.specs.contracts.queue.Queue.{the_row as queue_row};
ghost use Rattle.token_queue.specs.contracts.token.Token.{the_row as token_row};
ghost use Rattle.cz_base.specs.declared.limits.TheConstants.{MEMBERS, NUMBERS_END};

use crate::entry::stamp_of_entry;
use crate::room::{Outbox, empty_outboxes, most_stamped, take_room};
use crate::{Entry, Stamp, StampFault, Token};
use causal_deps::Item;
use cz_base::{Back, NoMemory, Seq};
use flstore_rounds::Epochs;
use std::alloc::Global;
use std::marker::Model;

/// Items that wait for their positions, and the records that got them, until their maintainers take them.
#[derive(Debug, Drop)]
pub struct Queue {
    alloc: Global,
    number: u32,
    items: Vec<Item>,
    outboxes: Vec<Outbox>,
    epochs: Epochs,
    token: Option<Token>,
}

impl Model for Queue {
    ghost use Rattle.cz_base.specs.declared.limits.TheConstants.{MEMBERS};
    ghost use Rattle.token_queue.specs.Queues.{QueueState};
    ghost use Rattle.token_queue.specs.Room.{entries_of};

    ghost Value = { QueueState };

    ghost use Rattle.std.specs.Prelude.{◌≡◌, ◌<◌};
    ghost use Rattle.std.specs.Vec.{vec_len};

    ghost view = { λ q. record { number = q.number; items = q.items.items; outboxes = entries_of q.outboxes.items; epochs = q.epochs; token = q.token } };

    ghost invariant = { λ q. (q.number < MEMBERS) × (vec_len q.outboxes ≡ MEMBERS) };
}

impl Queue {
    /// A queue with nothing in it, and without the token.
    pub fn new(alloc: Global, number: u32, epochs: Epochs) -> Result<Self, NoMemory>
        requires { number < MEMBERS }
        ensures { IfOk result (λ queue. queue ≡ record { number = number; items = []; outboxes = no_outboxes; epochs = epochs; token = None }) }
    {
        Ok(Queue {
            alloc,
            number,
            items: Vec::new(alloc),
            outboxes: empty_outboxes(alloc)?,
            epochs,
            token: None,
        })
    }

    /// The items go last, in order. After want of memory they come back, and the queue is as before.
    pub fn push(&mut self, items: Seq<Item>) -> Result<(), Back<Seq<Item>>>
        ensures ok { OnOk result (self.new ≡ record self.old { items = self.old.items ++ items }) }
        ensures err { OnErr result (self.new ≡ self.old) }
        ensures back { IfErr result (λ back. back.value ≡ items) }
    {
        let mut items = items.into_vec();
        match self.items.append(&mut items) {
            Ok(()) => Ok(()),
            Err(_) => Err(Back {
                value: Seq::from_vec(items),
            }),
        }
    }

    /// The queue takes the token, which is then at this queue.
    pub fn hold(&mut self, token: Token)
        requires { self.old.token ≡ None }
        ensures { self.new ≡ record self.old { token = Some (record token { at = self.old.number }) } }
    {
        let mut token = token;
        token.at = self.number;
        self.token = Some(token);
    }

    /// The token, which the queue then has no more.
    pub fn give(&mut self) -> Option<Token>
        ensures token { result ≡ self.old.token }
        ensures queue { self.new ≡ record self.old { token = None } }
    {
        self.token.take()
    }

    /// Drains the deferred items, and behind them the queue's items. As long as one of them is ready, the
    /// first that is gets the next position, and a draft the next number of its datacentre; what is left is
    /// deferred. Refused with `NoToken` exactly where the token is elsewhere; after
    /// `NoMemory` queue and token are as before.
    pub fn stamp(&mut self) -> Result<Seq<Stamp>, StampFault>
        requires lids { ForSome self.old.token (λ t. t.last + length (drain_by t.dc t.counts (t.deferred ++ self.old.items)).records < NUMBERS_END) }
        requires fit { ForSome self.old.token (λ t. All (FitsItem (length t.counts)) self.old.items) }

        // Whatever the log is, of which the token has the counts. Where its length is the token's last position, the
        // token that is left stands for the longer log.
        ensures drains { (log : List Record) → IfOk result (λ stamps. IsSomeAnd self.old.token (λ t. AreCountsOf log t.counts → Stamps self.old t (drain t.dc log (t.deferred ++ self.old.items)) stamps self.new)) }
        ensures log { (log : List Record) → OnOk result (IsSomeAnd self.old.token (λ t. IsLogOf t log
            → IsSomeAnd self.new.token (λ u. IsLogOf u (log ++ (drain t.dc log (t.deferred ++ self.old.items)).records)))) }

        // The same by the counts alone.
        ensures ok { IfOk result (λ stamps. IsSomeAnd self.old.token (λ t. Stamps self.old t (drain_by t.dc t.counts (t.deferred ++ self.old.items)) stamps self.new)) }

        ensures no_token { IsErrOf result StampFault.NoToken ↔ (self.old.token ≡ None) }
        ensures err { OnErr result (self.new ≡ self.old) }
        ensures outboxes { length self.old.outboxes ≡ MEMBERS }
    {
        self.stamp_by_counts()
    }

    // The log is nowhere: its counts are enough.
    fn stamp_by_counts(&mut self) -> Result<Seq<Stamp>, StampFault>
        requires lids { ForSome self.old.token (λ t. t.last + length (drain_by t.dc t.counts (t.deferred ++ self.old.items)).records < NUMBERS_END) }
        requires fit { ForSome self.old.token (λ t. All (FitsItem (length t.counts)) self.old.items) }
        ensures ok { IfOk result (λ stamps. IsSomeAnd self.old.token (λ t. Stamps self.old t (drain_by t.dc t.counts (t.deferred ++ self.old.items)) stamps self.new)) }
        ensures token { OnOk result (ForSome self.old.token (λ t. IsToken t)) }
        ensures no_token { IsErrOf result StampFault.NoToken ↔ (self.old.token ≡ None) }
        ensures err { OnErr result (self.new ≡ self.old) }
        ensures outboxes { length self.old.outboxes ≡ MEMBERS }
    {
        let Some(mut token) = self.token.take() else {
            return Err(StampFault::NoToken);
        };
        let stamps = self.stamp_with(&mut token);
        self.token = Some(token);
        match stamps {
            Ok(stamps) => Ok(stamps),
            Err(_) => Err(StampFault::NoMemory),
        }
    }

    // The memory is taken first, so that what is refused has changed nothing.
    fn stamp_with(&mut self, token: &mut Token) -> Result<Seq<Stamp>, NoMemory>
        requires lids { token.old.last + length (drain_by token.old.dc token.old.counts (token.old.deferred ++ self.old.items)).records < NUMBERS_END }
        requires fit { All (FitsItem (length token.old.counts)) self.old.items }
        ensures answer { IfOk result (λ stamps. stamps ≡ stamps_of token.old (drain_by token.old.dc token.old.counts (token.old.deferred ++ self.old.items))) }
        ensures token { OnOk result (token.new ≡ stamped_token token.old (drain_by token.old.dc token.old.counts (token.old.deferred ++ self.old.items))) }
        ensures queue { OnOk result (self.new ≡ record (stamped_queue self.old token.old (drain_by token.old.dc token.old.counts (token.old.deferred ++ self.old.items))) { token = self.old.token }) }
        ensures kept { IsToken token.old }
        ensures err { OnErr result ((self.new ≡ self.old) × (token.new ≡ token.old)) }
    {
        let epochs = token.epochs().copy()?;
        let wanted = most_stamped(token.last(), token.deferred(), self.items.len());
        let mut stamps = Vec::with_capacity(self.alloc, wanted)?;
        take_room(&mut self.outboxes, &epochs, token.last() + 1, wanted)?;
        token.deferred.append(&mut self.items)?;
        self.epochs = epochs;
        stamp_deferred(token, &mut self.outboxes, &mut stamps);
        Ok(Seq::from_vec(stamps))
    }

    /// The entries for maintainer m, which then are gone.
    pub fn take_out(&mut self, m: u32) -> Seq<Entry>
        requires { m < MEMBERS }
        ensures entries { result ≡ outbox_for self.old m }
        ensures queue { self.new ≡ without_outbox self.old m }
        ensures outboxes { length self.old.outboxes ≡ MEMBERS }
    {
        let alloc = self.alloc;
        self.outboxes[m as usize].take(alloc)
    }

    /// The epochs by which the queue stamped last; before its first stamping those with which it was made.
    pub fn epochs(&self) -> &Epochs
        ensures value { result.now ≡ self.now.epochs }
        ensures kept { (self.now.number < MEMBERS) × (length self.now.outboxes ≡ MEMBERS) }
    {
        &self.epochs
    }

    /// The token, or `None` exactly where the queue has none.
    pub fn token(&self) -> Option<&Token>
        ensures { option_copied result ≡ self.now.token }
    {
        self.token.as_ref()
    }

    /// The token, to be changed in place, or `None` exactly where the queue has none. What is left behind the reference
    /// is the queue's token from then on.
    pub fn token_mut(&mut self) -> Option<&mut Token>
        ensures* writes_back { sem 𝓛 (LendsIf queue_row token_row self.entry result (λ token. record self.old { token = Some token }) self.old) }
        ensures value { option_copied_mut result ≡ self.old.token }
    {
        self.token.as_mut()
    }

    /// Whether there are no items to be stamped. Outboxes do not count.
    pub fn is_empty(&self) -> bool
        ensures { IsTrue result ↔ (self.now.items ≡ []) }
    {
        self.items.is_empty()
    }
}

// Stamps the first deferred item that is ready, until none is.
fn stamp_deferred(token: &mut Token, outboxes: &mut [Outbox], stamps: &mut Vec<Stamp>)
    requires lids { token.old.last + length (all_of token.old).records < NUMBERS_END }
    requires members { length outboxes.old ≡ MEMBERS }
    requires stamps { vec_len stamps.old + length (all_of token.old).records ≤ vec_capacity stamps.old }
    requires room { HaveRoom token.old.epochs (token.old.last + 1) (length (all_of token.old).records) outboxes.old }
    ensures stamps { stamps.new.items ≡ stamps.old.items ++ stamps_of token.old (all_of token.old) }
    ensures outboxes { entries_of outboxes.new ≡ dealt token.old.epochs (entries_from token.old.last (all_of token.old).records) 0 (entries_of outboxes.old) }
    ensures token { token.new ≡ stamped_token token.old (all_of token.old) }
{
    while let Some(entry) = token.stamp_next() {
        let owner = token.epochs().owner(entry.lid) as usize;
        stamps.push_reserved(stamp_of_entry(&entry));
        outboxes[owner].put(entry);
    }
}
