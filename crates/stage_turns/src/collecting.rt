//! The collection floor rises, and a maintainer lets go what may be collected.

ghost use Rattle.std.specs.Prelude.{◌≡◌, ◌<◌, ◌++◌, [], length, fold, map, min, nat_lt, All, IfOk, OnOk, IsOk, IsSome};
ghost use Rattle.std.specs.List.{AllPairs};
ghost use Rattle.abstract_log.specs.declared.event.Event.TheVariants.{Collect as CollectEvent};
ghost use Rattle.abstract_log.specs.declared.script.Outcome.TheVariants.{FloorAt as FloorIsAt};
ghost use Rattle.flstore_rounds.specs.Heads.{head};
ghost use Rattle.maintainer.specs.Maintainers.{collected, value_at};
ghost use Rattle.tag_indexer.specs.Indexers.{newest_lid};
ghost use Rattle.tag_indexer.specs.Rows.{home};
ghost use Rattle.stage_world.specs.MoreTurns.{collected_outcome, place_of_entry};
ghost use Rattle.stage_turns.specs.Changing.{has_some};
ghost use Rattle.stage_turns.specs.Collecting.{AreHomes, IsKeyed, MayCollect, covered_by, home_among, lid_at, lid_of_place, may_go, newest_of, risen, to_go};

use crate::TurnDone;
use crate::done::has_some;
use abstract_log::{Event, Outcome};
use awareness_table::Aware;
use causal_deps::{Kind, Newest, Place, Record};
use cz_base::{DcId, Lid, Name, NoMemory, Seq};
use head_gossip::Vector;
use log_gc::Gc;
use maintainer::{Maintainer, Slot};
use std::alloc::Global;
use tag_indexer::{Indexer, home};

/// The collection floor rises to p, but not above the head of the first vector, which is lent, what an indexer covers, or
/// a pin. The outcome is the new floor. No memory is taken.
pub fn floor(
    p: Lid,
    vector: &Vector,
    indexers: &Seq<Indexer>,
    floor: &mut Gc,
) -> Result<TurnDone, NoMemory>
    ensures succeeds { IsOk result }
    ensures floor { OnOk result (floor.new ≡ record floor.old { floor = risen floor.old p (head vector.now) (covered_by indexers.now) }) }
    ensures outcome { IfOk result (λ done. done.outcome ≡ FloorIsAt floor.new.floor) }
    ensures events { IfOk result (λ done. done.events ≡ []) }
    ensures changed { IfOk result (λ done. done.changed ≡ nat_lt floor.old.floor floor.new.floor) }
{
    let head = vector.head();
    let before = floor.floor();
    let covered = least_covered(indexers.as_slice(), head);
    let risen = floor.raise_floor(p, head, covered);
    Ok(TurnDone {
        outcome: Outcome::FloorAt { floor: risen },
        events: Seq::new(indexers.alloc()),
        changed: before < risen,
    })
}

// The least of the bound and what each indexer covers.
fn least_covered(indexers: &[Indexer], bound: Lid) -> Lid
    ensures { result ≡ fold min bound (covered_by indexers.now) }
{
    let mut least = bound;
    for indexer in indexers {
        least = least.min(indexer.covered());
    }
    least
}

/// The maintainer lets each record go that may be collected: it is at or below the collection floor, every datacentre is
/// known to have it, and if it is a put, its key's home indexer knows a later update of it at or below the floor. Their places go
/// last into the list of what was collected; the outcome is their positions, or `Nothing` where there are none.
pub fn collect(
    dc: DcId,
    maintainer: &mut Maintainer<Record>,
    indexers: &Seq<Indexer>,
    table: &Aware,
    floor: &Gc,
    names: &mut Seq<Place>,
) -> Result<TurnDone, NoMemory>
    requires may { MayCollect (length table.now.table) indexers.now maintainer.old.entries }
    ensures maintainer { OnOk result (maintainer.new ≡ fold collected maintainer.old (map lid_at (to_go floor.now.floor table.now.table indexers.now maintainer.old.entries))) }
    ensures names { OnOk result (names.new ≡ names.old ++ map place_of_entry (to_go floor.now.floor table.now.table indexers.now maintainer.old.entries)) }
    ensures outcome { IfOk result (λ done. done.outcome ≡ collected_outcome (map lid_at (to_go floor.now.floor table.now.table indexers.now maintainer.old.entries))) }
    ensures events { IfOk result (λ done. done.events ≡ map (CollectEvent dc) (map lid_at (to_go floor.now.floor table.now.table indexers.now maintainer.old.entries))) }
    ensures changed { IfOk result (λ done. done.changed ≡ has_some (to_go floor.now.floor table.now.table indexers.now maintainer.old.entries)) }
{
    let places = places_to_go(
        names.alloc(),
        maintainer.entries(),
        indexers.as_slice(),
        table,
        floor,
    )?;
    let lids = lids_of(&places)?;
    let events = collect_events(dc, &lids)?;
    let changed = has_some(&places);
    let_go(maintainer, &lids);
    names.append(places)?;
    Ok(TurnDone {
        outcome: collected_at(lids),
        events,
        changed,
    })
}

// The places of the entries that may go.
fn places_to_go(
    alloc: Global,
    entries: &[Slot<Record>],
    indexers: &[Indexer],
    table: &Aware,
    floor: &Gc,
) -> Result<Seq<Place>, NoMemory>
    requires { MayCollect (length table.now.table) indexers.now entries.now }
    ensures { IfOk result (λ places. places ≡ map place_of_entry (to_go floor.now.floor table.now.table indexers.now entries.now)) }
{
    let mut places = Seq::new(alloc);
    for slot in entries {
        if may_go(slot, indexers, table, floor) {
            places.push(place_of(slot))?;
        }
    }
    Ok(places)
}

/// Where the entry's record stands.
pub(crate) fn place_of(slot: &Slot<Record>) -> Place
    ensures { result ≡ place_of_entry slot.now }
{
    Place {
        lid: slot.lid,
        host: slot.value.host,
        toid: slot.value.toid,
    }
}

// Whether the record at the entry may be collected.
fn may_go(slot: &Slot<Record>, indexers: &[Indexer], table: &Aware, floor: &Gc) -> bool
    requires record { IsKeyed (length table.now.table) slot.now.value }
    requires homes { AreHomes indexers.now }
    ensures { result ≡ may_go floor.now.floor table.now.table indexers.now slot.now }
{
    if slot.lid > floor.floor() {
        return false;
    }
    let newer = newest_of(&slot.value, indexers, floor.floor());
    floor.may_collect(slot.lid, &slot.value, table, newer)
}

// Where the last update of a put's key at or below s is, if the key's home indexer is that far.
fn newest_of(rec: &Record, indexers: &[Indexer], s: Lid) -> Option<Lid>
    requires { AreHomes indexers.now }
    ensures { result ≡ newest_of indexers.now rec.now s }
{
    if rec.kind != Kind::Put {
        return None;
    }
    match rec.tags.get(0) {
        Some(key) => newest_lid(home_indexer(indexers, key).newest(key, s)),
        None => None,
    }
}

// The position of the update that was found.
fn newest_lid(newest: Newest) -> Option<Lid>
    ensures { result ≡ newest_lid newest }
{
    match newest {
        Newest::Behind { .. } => None,
        Newest::Found { lid } => Some(lid),
        Newest::Deleted { place } => Some(place.lid),
        Newest::Absent => None,
    }
}

/// The indexer that a tag is looked up at.
pub(crate) fn home_indexer<'a>(indexers: &'a [Indexer], tag: &Name) -> &'a Indexer
    requires { AreHomes indexers.now }
    ensures value { result.now ≡ home_among indexers.now tag.now }
    ensures home { home tag.now result.now.indexers ≡ result.now.number }
{
    &indexers[home(tag, indexers.len() as u32) as usize]
}

// The positions of the places.
fn lids_of(places: &Seq<Place>) -> Result<Seq<Lid>, NoMemory>
    ensures { IfOk result (λ lids. lids ≡ map lid_of_place places.now) }
{
    let mut lids = Seq::new(places.alloc());
    for place in places.as_slice() {
        lids.push(place.lid)?;
    }
    Ok(lids)
}

// An event for each position.
fn collect_events(dc: DcId, lids: &Seq<Lid>) -> Result<Seq<Event>, NoMemory>
    ensures { IfOk result (λ events. events ≡ map (CollectEvent dc) lids.now) }
{
    let mut events = Seq::new(lids.alloc());
    for lid in lids.as_slice() {
        events.push(Event::Collect { dc, lid: *lid })?;
    }
    Ok(events)
}

// The maintainer lets the values at these positions go, one after another.
fn let_go(maintainer: &mut Maintainer<Record>, lids: &Seq<Lid>)
    requires there { All (λ p. IsSome (value_at p maintainer.old.entries)) lids.now }
    requires rising { AllPairs (λ p q. p < q) lids.now }
    ensures { maintainer.new ≡ fold collected maintainer.old lids.now }
{
    for lid in lids.as_slice() {
        maintainer.collect(*lid);
    }
}

// What is answered where these positions were collected.
fn collected_at(lids: Seq<Lid>) -> Outcome
    ensures { result ≡ collected_outcome lids }
{
    if lids.is_empty() {
        Outcome::Nothing
    } else {
        Outcome::Collected { lids }
    }
}
