//! Items go from a batcher to the filters, and what a filter passed goes to a queue.
ghost use Rattle.std.specs.Prelude.{◌≡◌, ◌<◌, ◌++◌, [], ◌∷◌, fold, length, slice_set, IfOk, OnOk};
ghost use Rattle.causal_deps.specs.declared.record.Item.TheVariants.{External};
ghost use Rattle.abstract_log.specs.declared.script.Outcome.TheVariants.{Flushed, PassedOn};
ghost use Rattle.toid_filter.specs.Filters.{FitsFilter, filter_at, with_item, with_record};
ghost use Rattle.stage_world.specs.Turns.{flush_items, name_of, taken_by, unless_empty, way_of};
ghost use Rattle.stage_turns.specs.Changing.{has_some};
ghost use Rattle.stage_turns.specs.Flushing.{MayFlush, MayTake, taken_from, told_of};

use crate::TurnDone;
use crate::done::has_some;
use abstract_log::{FlushItem, ItemName, Outcome, Way};
use batcher::{Batcher, Parcel};
use causal_deps::{Item, Record};
use cz_base::{NoMemory, Seq};
use toid_filter::{Champions, Filter, Verdict};
use token_queue::Queue;

/// The batcher's items go to their filters in order: a draft by its session, a record to its champion.
/// The outcome tells what became of each, or is `Empty` where there were none.
pub fn flush(
    batcher: &mut Batcher,
    filters: &mut Seq<Filter>,
    map: &Champions,
) -> Result<TurnDone, NoMemory>
    requires { MayFlush map.now filters.old batcher.old }
    ensures batcher { OnOk result (batcher.new ≡ []) }
    ensures filters { OnOk result (filters.new ≡ fold (taken_by map.now) filters.old batcher.old) }
    ensures outcome { IfOk result (λ done. done.outcome ≡ unless_empty batcher.old (Flushed (flush_items map.now filters.old batcher.old))) }
    ensures events { IfOk result (λ done. done.events ≡ []) }
    ensures changed { IfOk result (λ done. done.changed ≡ has_some batcher.old) }
{
    let parcels = batcher.flush(map, filters.len() as u32)?;
    let changed = has_some(&parcels);
    let mut items = Seq::new(filters.alloc());
    for parcel in parcels.into_vec() {
        hand_over(filters, parcel, &mut items)?;
    }
    Ok(TurnDone {
        outcome: flushed(items),
        events: Seq::new(filters.alloc()),
        changed,
    })
}

// The parcel's item goes to its filter, and what became of it goes last into a list.
fn hand_over(
    filters: &mut Seq<Filter>,
    parcel: Parcel,
    told: &mut Seq<FlushItem>,
) -> Result<(), NoMemory>
    requires there { parcel.filter < length filters.old }
    requires may { MayTake (filter_at filters.old parcel.filter) parcel.item }
    ensures filters { OnOk result (filters.new ≡ taken_from filters.old parcel) }
    ensures told { OnOk result (told.new ≡ told.old ++ told_of filters.old parcel ∷ []) }
{
    let Parcel { filter, item } = parcel;
    let name = name_of(&item);
    let way = take_item(filters.item_mut(filter as usize), item)?;
    told.push(FlushItem { name, filter, way })?;
    Ok(())
}

fn name_of(item: &Item) -> ItemName
    ensures { result ≡ name_of item.now }
{
    match item {
        Item::Local(draft) => ItemName::Draft {
            session: draft.session,
            index: draft.index,
        },
        Item::External(rec) => ItemName::External {
            host: rec.host,
            toid: rec.toid,
        },
    }
}

fn take_item(filter: &mut Filter, item: Item) -> Result<Way, NoMemory>
    requires { MayTake filter.old item }
    ensures filter { OnOk result (filter.new ≡ with_item filter.old item) }
    ensures way { IfOk result (λ way. way ≡ way_of filter.old item) }
{
    match item {
        Item::Local(draft) => {
            filter.take_draft(draft)?;
            Ok(Way::Passed)
        }
        Item::External(rec) => take_record(filter, rec),
    }
}

fn take_record(filter: &mut Filter, rec: Record) -> Result<Way, NoMemory>
    requires { FitsFilter filter.old rec }
    ensures filter { OnOk result (filter.new ≡ with_record filter.old rec) }
    ensures way { IfOk result (λ way. way ≡ way_of filter.old (External rec)) }
{
    match filter.take(rec)? {
        Verdict::Passed => Ok(Way::Passed),
        Verdict::Held => Ok(Way::Held),
        Verdict::Dropped => Ok(Way::Dropped),
    }
}

// What is answered where this became of the items.
fn flushed(items: Seq<FlushItem>) -> Outcome
    ensures { result ≡ unless_empty items (Flushed items) }
{
    if items.is_empty() {
        Outcome::Empty
    } else {
        Outcome::Flushed { items }
    }
}

/// What filter f passed on goes last into the queue. The outcome is how many items these are, or `Empty`
/// where there are none.
pub fn pass(f: u32, filters: &mut Seq<Filter>, queue: &mut Queue) -> Result<TurnDone, NoMemory>
    requires { f < length filters.old }
    ensures filters { OnOk result (filters.new ≡ slice_set filters.old f (record (filter_at filters.old f) { out = [] })) }
    ensures queue { OnOk result (queue.new ≡ record queue.old { items = queue.old.items ++ (filter_at filters.old f).out }) }
    ensures outcome { IfOk result (λ done. done.outcome ≡ unless_empty (filter_at filters.old f).out (PassedOn (length (filter_at filters.old f).out))) }
    ensures events { IfOk result (λ done. done.events ≡ []) }
    ensures changed { IfOk result (λ done. done.changed ≡ has_some (filter_at filters.old f).out) }
{
    let items = filters.item_mut(f as usize).pass_on();
    let outcome = passed_on(&items);
    let changed = has_some(&items);
    queue.push(items)?;
    Ok(TurnDone {
        outcome,
        events: Seq::new(filters.alloc()),
        changed,
    })
}

// What is answered where these items were passed on.
fn passed_on(items: &Seq<Item>) -> Outcome
    ensures { result ≡ unless_empty items.now (PassedOn (length items.now)) }
{
    if items.is_empty() {
        Outcome::Empty
    } else {
        Outcome::PassedOn {
            count: items.len() as u64,
        }
    }
}
