//! One datacentre: its turns, and what is asked of it.

ghost use Rattle.std.specs.Prelude.{◌≡◌, ◌≢◌, ◌↔◌, ◌<◌, ◌≤◌, [], length, Some, None, IfOk, IsErr, IsOk, IsTrue};
ghost use Rattle.cz_base.specs.declared.limits.TheConstants.{MEMBERS, ROUND};
ghost use Rattle.std.specs.List.{list_any};
ghost use Rattle.std.specs.Option.{ForSome};
ghost use Rattle.abstract_log.specs.Fits.{FitsLimits, FitsSizes};
ghost use Rattle.stage_world.specs.Opening.{opening_at};
ghost use Rattle.stage_world.specs.Stages.{sizes_of};
ghost use Rattle.stage_world.specs.Schedules.{turn_of};
ghost use Rattle.datacentre.specs.Seen.{IsWhole, StandsForALog, seen};
ghost use Rattle.stage_turns.specs.Clients.{is_unanswered};
ghost use Rattle.datacentre.specs.Leaving.{IsLeftBy};
ghost use Rattle.datacentre.specs.Turning.{IsOwnStep, Sends, TakesNoMemory, TakesTurn};
ghost use Rattle.stage_turns.specs.Told.{IsToldBy};
ghost use Rattle.record_codec.specs.declared.message.Message.{Message};
ghost use Rattle.record_codec.specs.Wire.{SpellsMessage};
ghost use Rattle.stage_world.specs.MoreTurns.{message_of, receive_turn};

use crate::leaving::leave;
use crate::opening::{
    new_batchers, new_filters, new_indexers, new_maintainers, new_ring, new_senders, new_sessions,
    new_vectors,
};
use crate::parts::Parts;
use crate::{Session, TurnDone, turns};
use abstract_log::{LeftAt, Sizes, Step, Workload};
use awareness_table::Aware;
use causal_deps::Counts;
use cz_base::{DcId, NoMemory, Seq};
use flstore_rounds::Epochs;
use log_gc::Gc;
use lossy_links::Packet;
use stage_marks::Marks;
use std::alloc::Global;
use std::marker::Model;
use toid_filter::Champions;

/// All stages of one datacentre with its sessions and its table. Once a call has answered `NoMemory` it has failed, and so
/// does each later turn.
#[derive(Drop)]
pub struct Datacentre {
    parts: Parts,
    failed: bool,
}

impl Model for Datacentre {
    ghost use Rattle.std.specs.Prelude.{◌≡◌, false};
    ghost use Rattle.datacentre.specs.Seen.{DatacentreState, IsWhole, state_of};

    ghost Value = { DatacentreState };

    ghost view = { λ d. state_of d.failed d.parts };

    ghost invariant = { λ d. d.failed ≡ false → IsWhole d.parts };
}

impl Datacentre {
    /// The stages as a script opens them, with the sessions that live there and the token at queue 0.
    pub fn new(
        alloc: Global,
        dc: DcId,
        round: u32,
        sizes: &Sizes,
        workload: &Workload,
    ) -> Result<Self, NoMemory>
        requires dc { dc < workload.now.dcs }
        requires round { (1 ≤ round) × (round ≤ ROUND) }
        requires sizes { FitsSizes sizes.now }
        requires limits { FitsLimits workload.now }
        ensures { IfOk result (λ datacentre. datacentre ≡ record { dc = dc; stages = Some (opening_at round sizes.now workload.now dc) }) }
    {
        Ok(Datacentre {
            parts: new_parts(alloc, dc, round, sizes, workload)?,
            failed: false,
        })
    }

    /// The turn of one of the stages: its events and what it answers. A send is a call of its own, and so is what a link
    /// brings.
    pub fn turn(&mut self, step: &Step) -> Result<TurnDone, NoMemory>
        requires log { ForSome self.old.stages (StandsForALog self.old.dc) }
        requires own { ForSome self.old.stages (λ z. IsOwnStep z step.now) }
        ensures turn { ForSome self.old.stages (λ z. TakesTurn self.old.dc z (turn_of self.old.dc z step.now) result self.new) }
        ensures succeeds { ForSome self.old.stages (λ z. TakesNoMemory z step.now → IsOk result) }
        ensures failed { self.old.stages ≡ None → IsErr result × (self.new ≡ self.old) }
    {
        if self.failed {
            return Err(NoMemory);
        }
        let turned = self.parts.take_turn(step);
        self.failed = turned.is_err();
        turned
    }

    /// The turn of sender k: what it answers, and its packet for a datacentre, where the sender is there. The outcome is that
    /// of an empty link, into which the packet is still to go.
    pub fn send(&mut self, k: u32, to: DcId) -> Result<(TurnDone, Option<Packet>), NoMemory>
        requires log { ForSome self.old.stages (StandsForALog self.old.dc) }
        requires to { ForSome self.old.stages (λ z. to < length z.table) }
        ensures turn { ForSome self.old.stages (λ z. Sends self.old.dc z k to result self.new) }
        ensures failed { self.old.stages ≡ None → IsErr result × (self.new ≡ self.old) }
    {
        if self.failed {
            return Err(NoMemory);
        }
        let sent = self.parts.send(k, to);
        self.failed = sent.is_err();
        sent
    }

    /// A packet that was in the link from a datacentre comes to receiver r.
    pub fn receive(&mut self, from: DcId, r: u32, packet: &Packet) -> Result<TurnDone, NoMemory>
        requires log { ForSome self.old.stages (StandsForALog self.old.dc) }
        requires told { ForSome self.old.stages (λ z. IsToldBy (length z.table) from packet.now) }
        ensures turn { ForSome self.old.stages (λ z. (m : Message) → SpellsMessage (length z.table) packet.now m → TakesTurn self.old.dc z (receive_turn self.old.dc z r m) result self.new) }
        ensures failed { self.old.stages ≡ None → IsErr result × (self.new ≡ self.old) }
    {
        if self.failed {
            return Err(NoMemory);
        }
        let received = self.parts.receive(from, r, packet);
        self.failed = received.is_err();
        received
    }

    /// How many members each stage has now, and 0 of each once it has failed.
    pub fn members(&self) -> Sizes
        ensures { ForSome self.now.stages (λ z. StandsForALog self.now.dc z → result ≡ sizes_of z) }
    {
        if self.failed {
            return NO_SIZES;
        }
        let parts = &self.parts;
        Sizes {
            batchers: member_count(parts.batchers.len()),
            filters: member_count(parts.filters.len()),
            queues: member_count(parts.queues.len()),
            maintainers: member_count(parts.maintainers.len()),
            indexers: member_count(parts.indexers.len()),
            senders: member_count(parts.senders.len()),
            receivers: parts.receivers,
        }
    }

    /// The number of the queue that has the token, and 0 once the datacentre has failed.
    pub fn holder(&self) -> u32
        ensures { ForSome self.now.stages (λ z. StandsForALog self.now.dc z → result ≡ z.token.at) }
    {
        if self.failed {
            return 0;
        }
        member_count(turns::holder(&self.parts.queues))
    }

    /// The counts of its log, which are the token's.
    pub fn log_counts(&self) -> Counts
        ensures { ForSome self.now.stages (λ z. result ≡ z.token.counts) }
    {
        if self.failed {
            return Counts::zero(1);
        }
        match self.parts.queues.as_slice()[turns::holder(&self.parts.queues)].token() {
            Some(token) => token.counts(),
            None => unreachable!(),
        }
    }

    /// Whether the message of sender k to a datacentre would hold a record. No memory is taken.
    pub fn has_more(&self, k: u32, to: DcId) -> bool
        requires log { ForSome self.now.stages (StandsForALog self.now.dc) }
        requires to { ForSome self.now.stages (λ z. to < length z.table) }
        ensures { ForSome self.now.stages (λ z. IsTrue result ↔ ((message_of self.now.dc z k to).records ≢ [])) }
    {
        if self.failed {
            return false;
        }
        let parts = &self.parts;
        turns::has_more(
            parts.dc,
            to,
            k,
            parts.senders.len() as u32,
            &parts.maintainers,
            &parts.table,
        )
    }

    /// Its sessions, in order.
    pub fn sessions(&self) -> &[Session]
        ensures { ForSome self.now.stages (λ z. result.now ≡ z.sessions) }
    {
        self.parts.sessions.as_slice()
    }

    /// What it leaves: what stands at each position of its log, and its table. The records are moved, and all else is given back.
    pub fn leave(self) -> Result<LeftAt, NoMemory>
        ensures { IfOk result (IsLeftBy self) }
    {
        let Datacentre { parts, failed } = self;
        if failed {
            return Err(NoMemory);
        }
        leave(parts)
    }

    /// Whether one of its sessions has a command that is not answered.
    pub fn unanswered(&self) -> bool
        ensures { ForSome self.now.stages (λ z. result ≡ list_any is_unanswered z.sessions) }
    {
        any_unanswered(self.parts.sessions.as_slice())
    }
}

fn any_unanswered(sessions: &[Session]) -> bool
    ensures { result ≡ list_any is_unanswered sessions.now }
{
    sessions.iter().any(|session| session.unanswered())
}

// A number of members in 32 bits; there are no more than 16 of a kind.
fn member_count(members: usize) -> u32
    ensures { members ≤ MEMBERS → result ≡ members }
{
    members.min(u32::MAX as usize) as u32
}

// What stands for the sizes of a datacentre that has failed.
const NO_SIZES: Sizes = Sizes {
    batchers: 0,
    filters: 0,
    queues: 0,
    maintainers: 0,
    indexers: 0,
    senders: 0,
    receivers: 0,
};

fn new_parts(
    alloc: Global,
    dc: DcId,
    round: u32,
    sizes: &Sizes,
    workload: &Workload,
) -> Result<Parts, NoMemory>
    requires dc { dc < workload.now.dcs }
    requires round { (1 ≤ round) × (round ≤ ROUND) }
    requires sizes { FitsSizes sizes.now }
    requires limits { FitsLimits workload.now }
    ensures stages { IfOk result (λ parts. seen parts ≡ opening_at round sizes.now workload.now dc) }
    ensures dc { IfOk result (λ parts. parts.dc ≡ dc) }
    ensures whole { IfOk result IsWhole }
{
    let dcs = workload.dcs;
    let epochs = Epochs::first(alloc, round, sizes.maintainers)?;
    let map = Champions::first(alloc, dcs, sizes.filters)?;
    Ok(Parts {
        dc,
        first_maintainers: sizes.maintainers,
        sessions: new_sessions(alloc, dcs, dc, &workload.sessions)?,
        batchers: new_batchers(alloc, sizes.batchers)?,
        filters: new_filters(alloc, sizes.filters, &map)?,
        map,
        marks: Marks::new(),
        queues: new_ring(alloc, dc, dcs, sizes.queues, &epochs)?,
        maintainers: new_maintainers(alloc, sizes.maintainers, &epochs)?,
        vectors: new_vectors(alloc, sizes.maintainers, &epochs)?,
        indexers: new_indexers(alloc, sizes.indexers, &epochs)?,
        senders: new_senders(alloc, dc, sizes.senders)?,
        receivers: sizes.receivers,
        upgraded: false,
        table: Aware::new(dc, dcs),
        learnt: 0,
        floor: Gc::new(),
        collected: Seq::new(alloc),
    })
}
