//! The own row of the awareness table takes the counts of the positions up to the head.

ghost use Rattle.std.specs.Prelude.{◌≡◌, ℕ, ◌-◌, ◌<◌, ◌≤◌, ◌↔◌, nat_lt, length, IfOk, IsTrue, OnOk};
ghost use Rattle.std.specs.Option.{ForSome};
ghost use Rattle.causal_deps.specs.Counts.{raised_row, row_of};
ghost use Rattle.abstract_log.specs.declared.script.Outcome.TheVariants.{Learnt as LearntRow};
ghost use Rattle.maintainer.specs.Maintainers.{IsOwn, value_at};
ghost use Rattle.stage_world.specs.MoreTurns.{counts_after, counts_with_one};
ghost use Rattle.stage_turns.specs.Learning.{IsAtOwner, MayLearn, learnable_by, row_events, row_learnt};

use crate::TurnDone;
use abstract_log::{Event, Outcome};
use awareness_table::Aware;
use causal_deps::{BoxedCounts, Counts, Record, Shown};
use cz_base::{DcId, Lid, NoMemory, Seq};
use flstore_rounds::Epochs;
use head_gossip::Vector;
use maintainer::Maintainer;
use std::alloc::Global;

/// The datacentre's own row takes the counts of the positions up to the head of its first vector, which
/// is lent, but for those up to `learnt`, which it has. The outcome is that row.
pub fn learn(
    dc: DcId,
    maintainers: &mut Seq<Maintainer<Record>>,
    vector: &mut Vector,
    table: &mut Aware,
    learnt: &mut Lid,
) -> Result<TurnDone, NoMemory>
    requires own { table.old.dc ≡ dc }
    requires may { MayLearn (length table.old.table) maintainers.old vector.old learnt.old }
    ensures maintainers { maintainers.new ≡ maintainers.old }
    ensures vector { vector.new ≡ vector.old }
    ensures table { OnOk result (table.new ≡ record table.old { table = raised_row table.old.table dc (row_learnt dc maintainers.old vector.old table.old.table learnt.old) }) }
    ensures learnt { OnOk result (learnt.new ≡ learnable_by vector.old learnt.old) }
    ensures outcome { IfOk result (λ done. done.outcome ≡ LearntRow (row_of table.new.table dc)) }
    ensures events { IfOk result (λ done. done.events ≡ row_events dc (row_of table.old.table dc) (row_learnt dc maintainers.old vector.old table.old.table learnt.old)) }
    ensures changed { IfOk result (λ done. done.changed ≡ nat_lt learnt.old (learnable_by vector.old learnt.old)) }
{
    let note = vector.tell()?;
    let upto = vector.head().max(*learnt);
    let before = own_row(table);
    let row = counted(&note.epochs, maintainers.as_slice(), before, *learnt, upto);
    let events = learn_events(maintainers.alloc(), dc, &before, &row)?;
    table.learn(&row);
    let changed = *learnt < upto;
    *learnt = upto;
    Ok(TurnDone {
        outcome: Outcome::Learnt {
            row: BoxedCounts::new(maintainers.alloc(), &own_row(table))?,
        },
        events,
        changed,
    })
}

// The row of the datacentre whose own the table is.
fn own_row(table: &Aware) -> Counts
    ensures row { result ≡ row_of table.now.table table.now.dc }
    ensures len { length result ≡ length table.now.table }
{
    table.table().row(table.dc())
}

// The counts, once the records at the positions after `from` up to `upto` are counted too.
fn counted(
    epochs: &Epochs,
    maintainers: &[Maintainer<Record>],
    row: Counts,
    from: Lid,
    upto: Lid,
) -> Counts
    requires { (p : ℕ) → from < p → p ≤ upto → IsAtOwner (length row) epochs.now maintainers.now p }
    ensures value { result ≡ counts_after maintainers.now row from (upto - from) }
    ensures len { length result ≡ length row }
{
    let mut row = row;
    for before in from..upto {
        let p = before + 1;
        count_at(&mut row, &maintainers[epochs.owner(p) as usize], p);
    }
    row
}

// The record that the maintainer has at its own position p is counted too.
fn count_at(row: &mut Counts, maintainer: &Maintainer<Record>, p: Lid)
    requires own { IsOwn maintainer.now p }
    requires host { ForSome (value_at p maintainer.now.entries) (λ r. r.host < length row.old) }
    ensures { row.new ≡ counts_with_one row.old (value_at p maintainer.now.entries) }
{
    match maintainer.read(p) {
        Shown::Filled(rec) => row.raise(rec.host, rec.toid),
        Shown::Gone => {}
        Shown::Empty => {}
    }
}

// The event, where the row changed.
fn learn_events(
    alloc: Global,
    dc: DcId,
    before: &Counts,
    row: &Counts,
) -> Result<Seq<Event>, NoMemory>
    ensures { IfOk result (λ events. events ≡ row_events dc before.now row.now) }
{
    let mut events = Seq::new(alloc);
    if !same_row(row, before) {
        events.push(Event::Learn {
            dc,
            row: BoxedCounts::new(alloc, row)?,
        })?;
    }
    Ok(events)
}

// Whether the counts are the same.
fn same_row(row: &Counts, other: &Counts) -> bool
    ensures { IsTrue result ↔ (row.now ≡ other.now) }
{
    row == other
}
