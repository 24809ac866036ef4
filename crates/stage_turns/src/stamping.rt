//! The queue that has the token stamps, and what was written here is acknowledged.
ghost use Rattle.std.specs.Prelude.{◌≡◌, ◌↔◌, ◌==◌, [], ◌∷◌, length, map, fold, position, if◌then◌else◌, IfOk, IsTrue, OnOk};
ghost use Rattle.std.specs.Option.{ForSome};
ghost use Rattle.abstract_log.specs.declared.script.Outcome.TheVariants.{Empty, Stamped};
ghost use Rattle.token_queue.specs.declared.entry.Stamp.{Stamp as StampState};
ghost use Rattle.stage_world.specs.Stages.{Session as SessionState};
ghost use Rattle.stage_turns.specs.Changing.{stamp_changes};
ghost use Rattle.stage_turns.specs.Stamping.{CanAck, MayStamp, acked_by, event_of, events_stamped, items_of, outcome_stamped, queue_stamped, sessions_stamped};

use crate::TurnDone;
use crate::done::has_some;
use abstract_log::{Event, Outcome};
use causal_deps::Place;
use cz_base::{DcId, NoMemory, Seq};
use hyksos::Session;
use token_queue::{Queue, Stamp, StampFault};

/// The queue that has the token drains what was deferred and its own items, and each write that got its place is
/// acknowledged to its session. Without the token nothing happens.
pub fn stamp(dc: DcId, queue: &mut Queue, sessions: &mut Seq<Session>) -> Result<TurnDone, NoMemory>
    requires { ForSome queue.old.token (λ t. MayStamp dc queue.old t sessions.old) }
    ensures queue { OnOk result (queue.new ≡ queue_stamped queue.old) }
    ensures sessions { OnOk result (sessions.new ≡ sessions_stamped queue.old sessions.old) }
    ensures outcome { IfOk result (λ done. done.outcome ≡ outcome_stamped queue.old) }
    ensures events { IfOk result (λ done. done.events ≡ events_stamped dc queue.old) }
    ensures changed { IfOk result (λ done. done.changed ≡ stamp_changes queue.old) }
{
    let idle = is_idle(queue);
    let has_items = !queue.is_empty();
    match queue.stamp() {
        Ok(stamps) => {
            let has_stamped = has_some(&stamps);
            let events = events_of(dc, &stamps)?;
            let outcome = outcome_of(idle, &stamps, deferred_at(queue))?;
            acknowledge_all(dc, stamps.as_slice(), sessions);
            Ok(TurnDone {
                outcome,
                events,
                changed: has_items || has_stamped,
            })
        }
        Err(StampFault::NoToken) => Ok(TurnDone {
            outcome: Outcome::NoToken,
            events: Seq::new(sessions.alloc()),
            changed: false,
        }),
        Err(StampFault::NoMemory) => Err(NoMemory),
    }
}

// Whether there is nothing to be stamped.
fn is_idle(queue: &Queue) -> bool
    ensures { ForSome queue.now.token (λ t. IsTrue result ↔ (items_of queue.now t ≡ [])) }
{
    match queue.token() {
        Some(token) => token.deferred() == 0 && queue.is_empty(),
        None => true,
    }
}

// How many items the queue's token deferred.
fn deferred_at(queue: &Queue) -> u64
    ensures { ForSome queue.now.token (λ t. result ≡ length t.deferred) }
{
    match queue.token() {
        Some(token) => token.deferred() as u64,
        None => 0,
    }
}

// The events of the stamps in order.
fn events_of(dc: DcId, stamps: &Seq<Stamp>) -> Result<Seq<Event>, NoMemory>
    ensures { IfOk result (λ events. events ≡ map (event_of dc) stamps.now) }
{
    let mut events = Seq::new(stamps.alloc());
    for stamp in stamps.as_slice() {
        events.push(event_of(dc, stamp))?;
    }
    Ok(events)
}

// What was written here is appended, and a record from elsewhere is added.
fn event_of(dc: DcId, stamp: &Stamp) -> Event
    ensures { result ≡ event_of dc stamp.now }
{
    let Place { lid, host, toid } = stamp.place;
    if host == dc {
        Event::Append {
            dc,
            session: stamp.session,
            index: stamp.index,
            lid,
            toid,
        }
    } else {
        Event::Add {
            dc,
            lid,
            host,
            toid,
        }
    }
}

// What a stamping answers.
fn outcome_of(idle: bool, stamps: &Seq<Stamp>, deferred: u64) -> Result<Outcome, NoMemory>
    ensures { IfOk result (λ outcome. outcome ≡ (if idle then Empty else Stamped (map (λ (s : StampState). s.place) stamps.now) deferred)) }
{
    if idle {
        return Ok(Outcome::Empty);
    }
    Ok(Outcome::Stamped {
        places: places_of(stamps)?,
        deferred,
    })
}

fn places_of(stamps: &Seq<Stamp>) -> Result<Seq<Place>, NoMemory>
    ensures { IfOk result (λ places. places ≡ map (λ (s : StampState). s.place) stamps.now) }
{
    let mut places = Seq::new(stamps.alloc());
    for stamp in stamps.as_slice() {
        places.push(stamp.place)?;
    }
    Ok(places)
}

// Each stamp goes to its session.
fn acknowledge_all(dc: DcId, stamps: &[Stamp], sessions: &mut Seq<Session>)
    requires { CanAck dc stamps.now sessions.old }
    ensures { sessions.new ≡ fold (acked_by dc) sessions.old stamps.now }
{
    for stamp in stamps {
        acknowledge(dc, stamp, sessions);
    }
}

// The write of a session here is answered; a record from elsewhere answers nothing.
fn acknowledge(dc: DcId, stamp: &Stamp, sessions: &mut Seq<Session>)
    requires { CanAck dc (stamp.now ∷ []) sessions.old }
    ensures { sessions.new ≡ acked_by dc sessions.old stamp.now }
{
    if stamp.place.host != dc {
        return;
    }
    if let Some(at) = place_of(sessions, stamp.session) {
        sessions.item_mut(at).ack(&stamp.place);
    }
}

/// Where the session with this number stands.
pub fn place_of(sessions: &Seq<Session>, number: u32) -> Option<usize>
    ensures { result ≡ position (λ (s : SessionState). s.number == number) sessions.now }
{
    sessions
        .iter()
        .position(|session| session.number() == number)
}
