//! One filter more is announced for a host, accepted by all filters, and made.
ghost use Rattle.std.specs.Prelude.{◌≡◌, ◌<◌, ◌++◌, [], ◌∷◌, ℕ, true, All, length, map, Some, None, IfOk, OnOk};
ghost use Rattle.std.specs.Option.{ForSome};
ghost use Rattle.causal_deps.specs.declared.record.Item.TheVariants.{External};
ghost use Rattle.stage_marks.specs.declared.marks.NextMark.TheVariants.{Activate as IsActivating, Ask as IsAsking};
ghost use Rattle.stage_marks.specs.Marks.{next_told};
ghost use Rattle.toid_filter.specs.declared.filter.AcceptedMark.{AcceptedMark};
ghost use Rattle.toid_filter.specs.Champions.{grown as grown_map};
ghost use Rattle.toid_filter.specs.Filters.{activated, cancelled, handed_out};
ghost use Rattle.stage_world.specs.Stages.{Datacentre};
ghost use Rattle.stage_world.specs.MarkTurns.{announce_turn, mark_turn, all_handed_out};
ghost use Rattle.stage_turns.specs.Marking.{filters_with, AreWaiting, HasFilters, IsAnnounced, IsMarked, MayMark};

use crate::TurnDone;
use crate::flushing::flush;
use abstract_log::Outcome;
use batcher::Batcher;
use causal_deps::Item;
use cz_base::limits::MEMBERS;
use cz_base::{DcId, NoMemory, Seq, Toid};
use stage_marks::{Announce, Marks, NextMark};
use std::alloc::Global;
use toid_filter::{Accept, Champions, Filter};

/// Announces that from number `mark` of a host on there is one filter more, where fewer serve it than a stage may have. No memory is
/// taken.
pub fn announce(
    alloc: Global,
    marks: &mut Marks,
    map: &Champions,
    host: DcId,
    mark: Toid,
) -> TurnDone
    ensures { (z : Datacentre) → z.map ≡ map.now → z.announcement ≡ marks.old → IsAnnounced z (announce_turn z host mark) marks.new result }
{
    if map.filters(host) as usize >= MEMBERS {
        return told(alloc, Outcome::Absent, false);
    }
    match marks.announce(host, mark, map.last_start(host)) {
        Announce::Announced => told(alloc, Outcome::Announced, true),
        Announce::Busy { .. } => told(alloc, Outcome::Busy, false),
        Announce::Late { last_start } => {
            told(alloc, Outcome::LateStart { start: last_start }, false)
        }
    }
}

/// The next step of the announcement: a filter is asked, or, once all have accepted, they take the grown map.
pub fn mark(
    marks: &mut Marks,
    filters: &mut Seq<Filter>,
    map: &mut Champions,
) -> Result<TurnDone, NoMemory>
    requires { MayMark map.old marks.old filters.old }
    ensures { (z : Datacentre) → HasFilters z map.old marks.old filters.old → IfOk result (IsMarked z (mark_turn z) map.new marks.new filters.new) }
{
    match marks.next(filters.len() as u32) {
        NextMark::Idle => Ok(told(filters.alloc(), Outcome::Idle, false)),
        NextMark::Ask { filter } => ask(marks, filters, map, filter),
        NextMark::Activate => activate(marks, filters, map),
    }
}

// The next filter is asked. Where it is late the announcement is off, and all filters forget the mark.
fn ask(
    marks: &mut Marks,
    filters: &mut Seq<Filter>,
    _map: &Champions,
    filter: u32,
) -> Result<TurnDone, NoMemory>
    requires may { MayMark _map.now marks.old filters.old }
    requires asks { next_told marks.old (length filters.old) ≡ IsAsking filter }
    ensures { (z : Datacentre) → HasFilters z _map.now marks.old filters.old → IfOk result (IsMarked z (mark_turn z) _map.now marks.new filters.new) }
{
    let Some(on) = marks.announced() else {
        unreachable!();
    };
    let there = filters.len() as u32;
    let answer = filters.item_mut(filter as usize).accept(on.host, on.mark);
    marks.heard(there, answer);
    match answer {
        Accept::Accepted => Ok(told(filters.alloc(), Outcome::AcceptedBy { filter }, true)),
        Accept::Late { passed } => {
            cancel_all(filters)?;
            Ok(told(filters.alloc(), Outcome::LateAt { filter, passed }, true))
        }
    }
}

// All filters take the grown map, one is made where it is needed, and what they handed out goes to its new champions.
fn activate(
    marks: &mut Marks,
    filters: &mut Seq<Filter>,
    map: &mut Champions,
) -> Result<TurnDone, NoMemory>
    requires may { MayMark map.old marks.old filters.old }
    requires activates { next_told marks.old (length filters.old) ≡ IsActivating }
    ensures { (z : Datacentre) → HasFilters z map.old marks.old filters.old → IfOk result (IsMarked z (mark_turn z) map.new marks.new filters.new) }
{
    let Some(on) = marks.announced() else {
        unreachable!();
    };
    let there = filters.len() as u32;
    let grown = map.grown(on.host, on.mark)?;
    let mut handed = Batcher::new(filters.alloc());
    activate_all(filters, &grown, &mut handed)?;
    let serving = grown.filters(on.host);
    add_filter(filters, &grown, serving)?;
    flush(&mut handed, filters, &grown)?;
    marks.done(there);
    *map = grown;
    Ok(told(filters.alloc(), Outcome::Active { filters: serving }, true))
}

// Each filter forgets its mark.
fn cancel_all(filters: &mut Seq<Filter>) -> Result<(), NoMemory>
    requires { All (λ f. ForSome f.accepted (λ mark. mark.host < length f.map)) filters.old }
    ensures { OnOk result (filters.new ≡ map cancelled filters.old) }
{
    for at in 0..filters.len() {
        filters.item_mut(at).cancel()?;
    }
    Ok(())
}

// Each filter takes the grown map, and what it hands out goes last into the batcher.
fn activate_all(
    filters: &mut Seq<Filter>,
    grown: &Champions,
    handed: &mut Batcher,
) -> Result<(), NoMemory>
    requires { AreWaiting grown.now filters.old }
    ensures filters { OnOk result (filters.new ≡ map (activated grown.now) filters.old) }
    ensures handed { OnOk result (handed.new ≡ handed.old ++ map External (all_handed_out grown.now filters.old)) }
{
    for at in 0..filters.len() {
        activate_one(filters.item_mut(at), grown.copy()?, handed)?;
    }
    Ok(())
}

fn activate_one(filter: &mut Filter, grown: Champions, handed: &mut Batcher) -> Result<(), NoMemory>
    requires grown { (mark : AcceptedMark) × (filter.old.accepted ≡ Some mark) × (grown ≡ grown_map filter.old.map mark.host mark.from) }
    requires host { ForSome filter.old.accepted (λ mark. mark.host < length filter.old.map) }
    ensures filter { OnOk result (filter.new ≡ activated grown filter.old) }
    ensures handed { OnOk result (handed.new ≡ handed.old ++ map External (handed_out grown filter.old)) }
{
    for rec in filter.activate(grown)?.into_vec() {
        handed.add(Item::External(rec))?;
    }
    Ok(())
}

// A filter is made where more serve than there are.
fn add_filter(filters: &mut Seq<Filter>, grown: &Champions, serving: u32) -> Result<(), NoMemory>
    ensures { OnOk result (filters.new ≡ filters_with grown.now serving filters.old) }
{
    let there = filters.len();
    if there < serving as usize {
        filters.push(Filter::new(filters.alloc(), there as u32, grown.copy()?))?;
    }
    Ok(())
}

// What is answered by a turn that has no events.
fn told(alloc: Global, outcome: Outcome, changed: bool) -> TurnDone
    ensures { result ≡ record { outcome = outcome; events = []; changed = changed } }
{
    TurnDone {
        outcome,
        events: Seq::new(alloc),
        changed,
    }
}
