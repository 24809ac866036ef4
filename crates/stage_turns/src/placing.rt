//! A maintainer takes what a queue stamped for it.

ghost use Rattle.std.specs.Prelude.{◌≡◌, ◌<◌, ◌≤◌, [], length, map, IfOk, OnOk};
ghost use Rattle.cz_base.specs.declared.limits.TheConstants.{MEMBERS};
ghost use Rattle.abstract_log.specs.declared.script.Outcome.TheVariants.{Placed as PlacedAt};
ghost use Rattle.maintainer.specs.Maintainers.{learned, moved_in, plain};
ghost use Rattle.token_queue.specs.Queues.{outbox_for, without_outbox};
ghost use Rattle.stage_world.specs.Stages.{slot_of};
ghost use Rattle.stage_world.specs.Turns.{unless_empty};
ghost use Rattle.stage_turns.specs.Changing.{has_some};
ghost use Rattle.stage_turns.specs.Placing.{MayPlaceAll, MayPlaceFrom, lid_of};

use crate::TurnDone;
use crate::done::has_some;
use abstract_log::Outcome;
use causal_deps::Record;
use cz_base::{Lid, NoMemory, Seq};
use maintainer::Maintainer;
use token_queue::{Entry, Queue};

/// Maintainer m learns the queue's epochs and takes the entries that the queue has for it.
/// The outcome is their positions, or `Empty` where there are none.
pub fn place(
    queue: &mut Queue,
    m: u32,
    maintainer: &mut Maintainer<Record>,
) -> Result<TurnDone, NoMemory>
    requires member { m < MEMBERS }
    requires may { MayPlaceFrom queue.old m maintainer.old }
    ensures queue { OnOk result (queue.new ≡ without_outbox queue.old m) }
    ensures maintainer { OnOk result (plain maintainer.new ≡ moved_in (learned (plain maintainer.old) queue.old.epochs) (map slot_of (outbox_for queue.old m))) }
    ensures outcome { IfOk result (λ done. done.outcome ≡ unless_empty (outbox_for queue.old m) (PlacedAt (map lid_of (outbox_for queue.old m)))) }
    ensures events { IfOk result (λ done. done.events ≡ []) }
    ensures changed { IfOk result (λ done. done.changed ≡ has_some (outbox_for queue.old m)) }
{
    maintainer.learn(queue.epochs())?;
    let entries = queue.take_out(m);
    let lids = lids_of(&entries)?;
    maintainer.reserve(entries.len())?;
    let events = Seq::new(entries.alloc());
    let changed = has_some(&entries);
    place_each(maintainer, entries);
    Ok(TurnDone {
        outcome: placed_at(lids),
        events,
        changed,
    })
}

// The positions of the entries.
fn lids_of(entries: &Seq<Entry>) -> Result<Seq<Lid>, NoMemory>
    ensures { IfOk result (λ lids. lids ≡ map lid_of entries.now) }
{
    let mut lids = Seq::new(entries.alloc());
    for entry in entries.as_slice() {
        lids.push(entry.lid)?;
    }
    Ok(lids)
}

// Each entry goes to its position, in order.
fn place_each(maintainer: &mut Maintainer<Record>, entries: Seq<Entry>)
    requires may { MayPlaceAll maintainer.old entries }
    requires room { length entries ≤ maintainer.old.spare }
    ensures { maintainer.new ≡ moved_in maintainer.old (map slot_of entries) }
{
    for entry in entries.into_vec() {
        let Entry { lid, rec } = entry;
        maintainer.place(lid, rec);
    }
}

// What is answered where these positions were filled.
fn placed_at(lids: Seq<Lid>) -> Outcome
    ensures { result ≡ unless_empty lids (PlacedAt lids) }
{
    if lids.is_empty() {
        Outcome::Empty
    } else {
        Outcome::Placed { lids }
    }
}
