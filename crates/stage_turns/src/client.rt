//! A session goes on with its command.
ghost use Rattle.std.specs.Prelude.{◌≡◌, ◌%◌, ◌++◌, List, IfOk, OnOk, not};
ghost use Rattle.causal_deps.specs.declared.record.Record.{Record as RecordValue};
ghost use Rattle.hyksos.specs.Sessions.{HasFound, begun};
ghost use Rattle.stage_world.specs.Stages.{vector_at};
ghost use Rattle.stage_turns.specs.Shelves.{ShowsLog};
ghost use Rattle.stage_turns.specs.Clients.{IsSessionTurn, MayRead, MayWrite, batchers_written, begin_events, events_of, goes_on, outcome_of, reply_events, session_changes, shelf_for, write_events, write_outcome};

use crate::TurnDone;
use crate::stage_shelf::StageShelf;
use abstract_log::{BoxedAnswer, Event, Outcome};
use batcher::Batcher;
use causal_deps::{Item, Record};
use cz_base::{DcId, NoMemory, Seq};
use head_gossip::Vector;
use hyksos::{Next, Session};
use log_gc::Gc;
use maintainer::Maintainer;
use std::alloc::Global;
use std::mem;
use tag_indexer::Indexer;

/// The turn of session s, whose open or next command is a write. The draft of a next command goes last into
/// the batcher that serves the session, and the command is then open.
pub fn client_write(
    s: u32,
    session: &mut Session,
    batchers: &mut Seq<Batcher>,
) -> Result<TurnDone, NoMemory>
    requires { MayWrite s session.old batchers.old }
    ensures session { OnOk result (session.new ≡ begun session.old) }
    ensures batchers { OnOk result (batchers.new ≡ batchers_written session.old batchers.old) }
    ensures outcome { IfOk result (λ done. done.outcome ≡ write_outcome session.old) }
    ensures events { IfOk result (λ done. done.events ≡ write_events session.old) }
    ensures changed { IfOk result (λ done. done.changed ≡ not session.old.standing.begun) }
{
    let k = session.index();
    let mut events = Seq::new(batchers.alloc());
    let Some(draft) = session.submit()? else {
        return Ok(TurnDone {
            outcome: Outcome::Unacknowledged { k },
            events,
            changed: false,
        });
    };
    let at = s as usize % batchers.len();
    batchers.item_mut(at).add(Item::Local(draft))?;
    events.push(Event::Submit {
        session: s,
        index: k,
    })?;
    Ok(TurnDone {
        outcome: Outcome::Submitted { k },
        events,
        changed: true,
    })
}

/// The turn of session s, whose open or next command is none or no write, at a datacentre that began with so many
/// maintainers. It reads through the vector that serves it, the maintainers and the indexers, and what it reads at is
/// pinned against collection.
pub fn client_read(
    dc: DcId,
    s: u32,
    first_maintainers: u32,
    session: &mut Session,
    maintainers: &mut Seq<Maintainer<Record>>,
    vectors: &mut Seq<Vector>,
    indexers: &mut Seq<Indexer>,
    floor: &mut Gc,
) -> Result<TurnDone, NoMemory>
    requires { MayRead s first_maintainers session.old maintainers.old vectors.old indexers.old floor.old }
    ensures maintainers { maintainers.new ≡ maintainers.old }
    ensures vectors { vectors.new ≡ vectors.old }
    ensures indexers { indexers.new ≡ indexers.old }

    // Each log that the stages show gives the same turn.
    ensures turn { (log : List RecordValue) → ShowsLog (vector_at vectors.old (s % first_maintainers)) maintainers.old indexers.old floor.old log → HasFound log session.old
        → IfOk result (λ done. IsSessionTurn dc log (shelf_for s first_maintainers maintainers.old vectors.old indexers.old floor.old) session.old done session.new floor.new) }
{
    let was_pinned = session.is_pinned();
    // It tells that there is a pin for each of 64 sessions.
    let _low = floor.floor();
    let mut shelf = StageShelf {
        vector: &vectors.as_slice()[(s % first_maintainers) as usize],
        maintainers,
        indexers,
        floor: mem::replace(floor, Gc::new()),
    };
    let tried = session.try_next(&mut shelf);
    let StageShelf { floor: after, .. } = shelf;
    *floor = after;
    let turned = tried?;
    told(
        maintainers.alloc(),
        dc,
        s,
        was_pinned,
        turned.opened,
        turned.next,
    )
}

// What is told of a turn.
fn told(
    alloc: Global,
    dc: DcId,
    s: u32,
    was_pinned: bool,
    opened: Option<u32>,
    next: Next,
) -> Result<TurnDone, NoMemory>
    ensures outcome { IfOk result (λ done. done.outcome ≡ outcome_of next) }
    ensures events { IfOk result (λ done. done.events ≡ events_of dc s (record { opened = opened; next = next })) }
    ensures changed { IfOk result (λ done. done.changed ≡ session_changes was_pinned (record { opened = opened; next = next })) }
{
    let events = begin_events(alloc, s, opened)?;
    let changed = opened.is_some() || goes_on(&next, was_pinned);
    let outcome = outcome_of(&next);
    Ok(TurnDone {
        outcome,
        events: with_reply(events, dc, s, next)?,
        changed,
    })
}

// The event where a command was answered, after these.
fn with_reply(events: Seq<Event>, dc: DcId, s: u32, next: Next) -> Result<Seq<Event>, NoMemory>
    ensures { IfOk result (λ all. all ≡ events ++ reply_events dc s next) }
{
    let mut events = events;
    let alloc = events.alloc();
    match next {
        Next::Submitted(_draft) => {}
        Next::Replied { index, at, answer } => events.push(Event::Reply {
            dc,
            session: s,
            index,
            at,
            answer: BoxedAnswer::new(alloc, answer)?,
        })?,
        Next::Key { .. } => {}
        Next::Waiting { .. } => {}
        Next::Unacknowledged { .. } => {}
        Next::Below { .. } => {}
        Next::Behind { .. } => {}
        Next::Finished => {}
    }
    Ok(events)
}

// The event where a command was begun.
fn begin_events(alloc: Global, s: u32, opened: Option<u32>) -> Result<Seq<Event>, NoMemory>
    ensures { IfOk result (λ events. events ≡ begin_events s opened) }
{
    let mut events = Seq::new(alloc);
    if let Some(index) = opened {
        events.push(Event::Submit { session: s, index })?;
    }
    Ok(events)
}

// Whether the command went on, begun or not.
fn goes_on(next: &Next, was_pinned: bool) -> bool
    ensures { result ≡ goes_on was_pinned next.now }
{
    match next {
        Next::Submitted(_) => true,
        Next::Replied { .. } => true,
        Next::Key { .. } => true,
        Next::Waiting { .. } => false,
        Next::Unacknowledged { .. } => false,
        Next::Below { .. } => false,
        Next::Behind { .. } => !was_pinned,
        Next::Finished => false,
    }
}

fn outcome_of(next: &Next) -> Outcome
    ensures { result ≡ outcome_of next.now }
{
    match next {
        Next::Submitted(draft) => Outcome::Submitted { k: draft.index },
        Next::Replied { index, .. } => Outcome::Replied { k: *index },
        Next::Key {
            index,
            done,
            of,
            at,
        } => Outcome::Key {
            k: *index,
            done: *done,
            of: *of,
            at: *at,
        },
        Next::Waiting { index, floor, head } => Outcome::Waiting {
            k: *index,
            floor: *floor,
            head: *head,
        },
        Next::Unacknowledged { index } => Outcome::Unacknowledged { k: *index },
        Next::Below { index, floor } => Outcome::Below {
            k: *index,
            floor: *floor,
        },
        Next::Behind { index, covered } => Outcome::Behind {
            k: *index,
            covered: *covered,
        },
        Next::Finished => Outcome::Finished,
    }
}
