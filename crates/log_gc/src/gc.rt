//! The collection floor, the pins that hold it, and which records may go.

ghost use Rattle.std.specs.Prelude.{◌≡◌, ℕ, ◌<◌, ◌≤◌, ◌↔◌, length, IsSome, IsTrue, None, Some};
ghost use Rattle.causal_deps.specs.declared.answers.Pin.{Pin};
ghost use Rattle.log_gc.specs.Floors.{MayBeLetGo, fresh, may_be_let_go, lowest, pin_of, pinned, raised, replaced, unpinned};
ghost use Rattle.cz_base.specs.declared.limits.TheConstants.{SESSIONS};

use awareness_table::Aware;
use causal_deps::{Kind, Pin, Record};
use cz_base::Lid;
use cz_base::limits::SESSIONS;
use std::marker::Model;

/// The collection floor of a log, and what each session reads it at. Contracts see the floor and, for each
/// session that there may be, its pin or none.
#[derive(Debug, Drop)]
pub struct Gc {
    floor: Lid,
    pins: [Option<Lid>; SESSIONS],
}

impl Model for Gc {
    ghost use Rattle.log_gc.specs.Floors.{Floored, AreHeld};

    ghost Value = { Floored };

    ghost view = { λ gc. record { floor = gc.floor; pins = gc.pins } };

    ghost invariant = { λ gc. AreHeld gc.floor gc.pins };
}

impl Gc {
    /// The floor is 0, and no session has a pin.
    pub fn new() -> Self
        ensures { result ≡ fresh }
    {
        Gc {
            floor: 0,
            pins: [None; SESSIONS],
        }
    }

    /// The session reads at s from now on, where s is not below the floor.
    pub fn pin(&mut self, session: u32, s: Lid) -> Pin
        requires session { session < SESSIONS }
        requires free { pin_of self.old session ≡ None }
        ensures pinned { (result ≡ Pin.Pinned) ↔ (self.old.floor ≤ s) }
        ensures below { (floor : ℕ) → (result ≡ Pin.BelowFloor floor) ↔ ((floor ≡ self.old.floor) × (s < self.old.floor)) }
        ensures held { self.old.floor ≤ s → self.new ≡ pinned self.old session s }
        ensures refused { s < self.old.floor → self.new ≡ self.old }
    {
        if s < self.floor {
            return Pin::BelowFloor { floor: self.floor };
        }
        self.pins[session as usize] = Some(s);
        Pin::Pinned
    }

    /// The session gives its pin back.
    pub fn unpin(&mut self, session: u32)
        requires session { session < SESSIONS }
        requires held { IsSome (pin_of self.old session) }
        ensures { self.new ≡ unpinned self.old session }
    {
        self.pins[session as usize] = None;
    }

    /// The floor rises to the least of `to`, the head, what is covered, and every pin, unless it is there already. The
    /// new floor is handed out.
    pub fn raise_floor(&mut self, to: Lid, head: Lid, covered: Lid) -> Lid
        ensures value { result ≡ raised self.old to head covered }
        ensures state { self.new ≡ record self.old { floor = result } }
    {
        let lowest = least_pin(&self.pins, to.min(head).min(covered));
        self.floor = self.floor.max(lowest);
        self.floor
    }

    /// The collection floor: at or below it is all that was collected, and no session has a pin below it.
    pub fn floor(&self) -> Lid
        ensures value { result ≡ self.now.floor }
        ensures low { (session s : ℕ) → pin_of self.now session ≡ Some s → result ≤ s }
        ensures size { length self.now.pins ≡ SESSIONS }
    {
        self.floor
    }

    /// Whether the record at a position may go: it is at or below the floor, every datacentre is known to have it, and
    /// if it is a put, a later update of its key stands at or below the floor. `newer` is where the last update of the key
    /// at or below the floor stands, if that is known; an append and a del need none.
    pub fn may_collect(&self, lid: Lid, rec: &Record, aware: &Aware, newer: Option<Lid>) -> bool
        requires { rec.now.host < length aware.now.table }
        ensures exact { IsTrue result ↔ MayBeLetGo self.now.floor aware.now.table lid rec.now newer }
        ensures test { result ≡ may_be_let_go self.now.floor aware.now.table lid rec.now newer }
    {
        lid <= self.floor
            && aware.known_everywhere(rec.host, rec.toid)
            && (rec.kind != Kind::Put || self.is_replaced(lid, newer))
    }

    // Whether `newer` is above the position and not above the floor.
    fn is_replaced(&self, lid: Lid, newer: Option<Lid>) -> bool
        ensures { result ≡ replaced self.now.floor lid newer }
    {
        match newer {
            Some(n) => lid < n && n <= self.floor,
            None => false,
        }
    }
}

// The least of the bound and the pins.
fn least_pin(pins: &[Option<Lid>], bound: Lid) -> Lid
    ensures { result ≡ lowest bound pins.now }
{
    let mut least = bound;
    for pin in pins {
        if let Some(s) = pin {
            least = least.min(*s);
        }
    }
    least
}
