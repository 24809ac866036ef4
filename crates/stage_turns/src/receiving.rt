//! A receiver takes a packet from a link.

ghost use Rattle.std.specs.Prelude.{◌≡◌, ◌≤◌, ◌%◌, ◌++◌, [], ◌∷◌, length, map, slice_set, IfOk, OnOk};
ghost use Rattle.causal_deps.specs.Counts.{greater_rows, IsSquare};
ghost use Rattle.causal_deps.specs.declared.record.Item.TheVariants.{External};
ghost use Rattle.abstract_log.specs.declared.event.Event.TheVariants.{Receive};
ghost use Rattle.record_codec.specs.declared.message.Message.{Message as MessageValue};
ghost use Rattle.record_codec.specs.Wire.{SpellsMessage};
ghost use Rattle.stage_world.specs.Stages.{batcher_at};
ghost use Rattle.stage_world.specs.MoreTurns.{names_of, received_outcome};
ghost use Rattle.stage_turns.specs.Changing.{TellsNews};
ghost use Rattle.stage_turns.specs.Told.{IsToldBy};

use crate::TurnDone;
use crate::done::has_some;
use abstract_log::{Event, Outcome};
use awareness_table::Aware;
use batcher::Batcher;
use causal_deps::{BoxedTable, Item, Record};
use cz_base::{DcId, NoMemory, Seq, Toid};
use lossy_links::Packet;
use record_codec::{DecodeFault, Message};
use sender_receiver::receive;
use std::alloc::Global;

/// A packet that was in the link from a datacentre comes to receiver r: what the packet's table knows is known here
/// too, and its records go last into batcher r modulo the number of batchers.
pub fn deliver(
    dc: DcId,
    from: DcId,
    r: u32,
    packet: &Packet,
    batchers: &mut Seq<Batcher>,
    table: &mut Aware,
) -> Result<TurnDone, NoMemory>
    requires some { 1 ≤ length batchers.old }
    requires told { IsToldBy (length table.old.table) from packet.now }
    ensures table { (m : MessageValue) → SpellsMessage (length table.old.table) packet.now m → OnOk result (table.new ≡ record table.old { table = greater_rows table.old.table m.table }) }
    ensures batchers { (m : MessageValue) → SpellsMessage (length table.old.table) packet.now m → OnOk result (let b = r % length batchers.old in batchers.new ≡ slice_set batchers.old b (batcher_at batchers.old b ++ map External m.records)) }
    ensures outcome { (m : MessageValue) → SpellsMessage (length table.old.table) packet.now m → IfOk result (λ done. done.outcome ≡ received_outcome (names_of m.records)) }
    ensures events { (m : MessageValue) → SpellsMessage (length table.old.table) packet.now m → IfOk result (λ done. done.events ≡ Receive dc m.from m.table (names_of m.records) ∷ []) }
    ensures changed { (m : MessageValue) → SpellsMessage (length table.old.table) packet.now m → IfOk result (λ done. TellsNews done.changed table.old.table m) }
{
    let message = message_in(batchers.alloc(), packet, table)?;
    let outcome = outcome_of(names_of(&message.records)?);
    let events = events_of(dc, from, &message)?;
    let b = r as usize % batchers.len();
    let brings_records = has_some(&message.records);
    let raises_counts = !table.table().covers(&message.table);
    take_records(batchers.item_mut(b), message.records)?;
    table.merge(&message.table);
    Ok(TurnDone {
        outcome,
        events,
        changed: brings_records || raises_counts,
    })
}

// The message that the packet spells.
fn message_in(alloc: Global, packet: &Packet, table: &Aware) -> Result<Message, NoMemory>
    requires { (m : MessageValue) × SpellsMessage (length table.now.table) packet.now m }
    ensures is { (m : MessageValue) → SpellsMessage (length table.now.table) packet.now m → IfOk result (λ found. found ≡ m) }
    ensures square { IsSquare (length table.now.table) table.now.table }
{
    match receive(alloc, packet.as_bytes(), table.table().dcs()) {
        Ok(message) => Ok(message),
        Err(DecodeFault::NoMemory) => Err(NoMemory),
        Err(DecodeFault::Malformed { .. }) => unreachable!(),
    }
}

/// The names of the records, in order.
pub(crate) fn names_of(records: &Seq<Record>) -> Result<Seq<(DcId, Toid)>, NoMemory>
    ensures { IfOk result (λ names. names ≡ names_of records.now) }
{
    let mut names = Seq::new(records.alloc());
    for rec in records.as_slice() {
        names.push((rec.host, rec.toid))?;
    }
    Ok(names)
}

fn outcome_of(names: Seq<(DcId, Toid)>) -> Outcome
    ensures { result ≡ received_outcome names }
{
    if names.is_empty() {
        Outcome::NoRecords
    } else {
        Outcome::Received { names }
    }
}

// The one event of a message that is received.
fn events_of(dc: DcId, from: DcId, message: &Message) -> Result<Seq<Event>, NoMemory>
    ensures { IfOk result (λ events. events ≡ Receive dc from message.now.table (names_of message.now.records) ∷ []) }
{
    let alloc = message.records.alloc();
    let mut events = Seq::new(alloc);
    events.push(Event::Receive {
        dc,
        from,
        table: BoxedTable::new(alloc, &message.table)?,
        names: names_of(&message.records)?,
    })?;
    Ok(events)
}

// The records go last into the batcher, in order.
fn take_records(batcher: &mut Batcher, records: Seq<Record>) -> Result<(), NoMemory>
    ensures { OnOk result (batcher.new ≡ batcher.old ++ map External records) }
{
    for rec in records.into_vec() {
        batcher.add(Item::External(rec))?;
    }
    Ok(())
}
