//! What the stages of a datacentre leave: each record is moved from where it stands to the row of its position.
ghost use Rattle.std.specs.Prelude.{◌≡◌, map, fold, IfOk};
ghost use Rattle.stage_turns.specs.Lent.{HaveToken, token_seen};
ghost use Rattle.stage_world.specs.Leaving.{blank_rows, rows_told, slots_in, slots_kept, slots_waiting, with_place, with_row, with_slot};
ghost use Rattle.stage_world.specs.Stages.{slot_of};
ghost use Rattle.datacentre.specs.Leaving.{IsLeftByParts};
ghost use Rattle.datacentre.specs.Seen.{IsWhole};

use crate::parts::Parts;
use crate::turns::holder;
use abstract_log::{LeftAt, Row};
use causal_deps::{Place, Record, Table};
use cz_base::limits::MEMBERS;
use cz_base::{DcId, Lid, NoMemory, Seq};
use maintainer::{Maintainer, Slot};
use std::alloc::Global;
use token_queue::{Entry, Queue};

/// What stands at each position of the log, and the table. All else is given back.
pub(crate) fn leave(parts: Parts) -> Result<LeftAt, NoMemory>
    requires { IsWhole parts }
    ensures { IfOk result (IsLeftByParts parts) }
{
    let count = stamped(&parts.queues);
    let alloc = parts.queues.alloc();
    let Remains {
        queues,
        maintainers,
        collected,
        table,
    } = remains_of(parts);
    let rows = rows_of(alloc, count, queues, maintainers, &collected)?;
    Ok(LeftAt { rows, table })
}

// What tells of the log, and the table.
#[derive(Drop)]
struct Remains {
    queues: Seq<Queue>,
    maintainers: Seq<Maintainer<Record>>,
    collected: Seq<Place>,
    table: Table,
}

// The other parts are given back here, before anything is made.
fn remains_of(parts: Parts) -> Remains
    ensures { result ≡ record { queues = parts.queues; maintainers = parts.maintainers; collected = parts.collected; table = parts.table.table } }
{
    let Parts {
        queues,
        maintainers,
        collected,
        table,
        ..
    } = parts;
    Remains {
        queues,
        maintainers,
        collected,
        table: table.table(),
    }
}

// How many positions are stamped.
fn stamped(queues: &Seq<Queue>) -> Lid
    requires { HaveToken queues.now (token_seen queues.now) }
    ensures { result ≡ (token_seen queues.now).last }
{
    match queues.as_slice()[holder(queues)].token() {
        Some(token) => token.last(),
        None => unreachable!(),
    }
}

// The rows of so many positions: records that wait in outboxes, those that maintainers keep, and the names of what is gone.
fn rows_of(
    alloc: Global,
    count: Lid,
    queues: Seq<Queue>,
    maintainers: Seq<Maintainer<Record>>,
    collected: &Seq<Place>,
) -> Result<Seq<Row>, NoMemory>
    ensures { IfOk result (λ rows. rows ≡ rows_told count queues maintainers collected.now) }
{
    let mut rows = blank_rows(alloc, count)?;
    put_queues(&mut rows, queues);
    put_maintainers(&mut rows, maintainers);
    put_places(&mut rows, collected);
    Ok(rows)
}

// Each stands for a row that is still to be put.
fn blank_rows(alloc: Global, count: Lid) -> Result<Seq<Row>, NoMemory>
    ensures { IfOk result (λ rows. rows ≡ blank_rows count) }
{
    let mut rows = Seq::from_vec(Vec::with_capacity(alloc, count as usize)?);
    for _done in 0..count {
        rows.push(Row::Gone {
            host: DcId::FIRST,
            toid: 0,
        })?;
    }
    Ok(rows)
}

// The row of a position. A position that has none is left alone.
fn put_row(rows: &mut Seq<Row>, lid: Lid, row: Row)
    ensures { rows.new ≡ with_row rows.old lid row }
{
    let at = lid.saturating_sub(1) as usize;
    if at < rows.len() {
        rows.set(at, row);
    }
}

fn put_queues(rows: &mut Seq<Row>, queues: Seq<Queue>)
    ensures { rows.new ≡ fold with_slot rows.old (slots_waiting queues) }
{
    for queue in queues.into_vec() {
        put_outboxes(rows, queue);
    }
}

fn put_outboxes(rows: &mut Seq<Row>, queue: Queue)
    ensures { rows.new ≡ fold with_slot rows.old (slots_in queue.outboxes) }
{
    let mut queue = queue;
    for m in 0..MEMBERS as u32 {
        put_entries(rows, queue.take_out(m));
    }
}

fn put_entries(rows: &mut Seq<Row>, entries: Seq<Entry>)
    ensures { rows.new ≡ fold with_slot rows.old (map slot_of entries) }
{
    for entry in entries.into_vec() {
        let Entry { lid, rec } = entry;
        put_row(rows, lid, Row::Kept(rec));
    }
}

fn put_maintainers(rows: &mut Seq<Row>, maintainers: Seq<Maintainer<Record>>)
    ensures { rows.new ≡ fold with_slot rows.old (slots_kept maintainers) }
{
    for maintainer in maintainers.into_vec() {
        put_slots(rows, maintainer.into_slots());
    }
}

fn put_slots(rows: &mut Seq<Row>, slots: Seq<Slot<Record>>)
    ensures { rows.new ≡ fold with_slot rows.old slots }
{
    for slot in slots.into_vec() {
        let Slot { lid, value } = slot;
        put_row(rows, lid, Row::Kept(value));
    }
}

fn put_places(rows: &mut Seq<Row>, places: &Seq<Place>)
    ensures { rows.new ≡ fold with_place rows.old places.now }
{
    for place in places.as_slice() {
        let row = Row::Gone {
            host: place.host,
            toid: place.toid,
        };
        put_row(rows, place.lid, row);
    }
}
