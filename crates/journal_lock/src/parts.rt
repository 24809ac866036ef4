//! Splits and amends with what they name picked already, for callers that know it when the program runs.
ghost use Rattle.std.specs.Prelude.{◌≡◌, [], ◌∷◌, ◌++◌};
ghost use Rattle.abstract_log.specs.Worlds.{plan_of};
ghost use Rattle.journal_lock.specs.declared.duty.Duty.TheVariants.{Session, Draft, Table};
ghost use Rattle.journal_lock.specs.declared.law.Note.TheVariants.{Length};
ghost use Rattle.journal_lock.specs.Duties.{number, minus, has, datacentre, stamped, Among, Has, HasDuty};
ghost use Rattle.journal_lock.specs.Law.{names};
ghost use Rattle.journal_lock.specs.Names.{NamesByDuty};
ghost use Rattle.journal_lock.specs.Ties.{IsTied};

use crate::duty::Duty;
use crate::law::{Change, Part};
use crate::lock::{JournalLock, Pass};
use cz_base::{DcId, Lid};
use std::marker::Brand;

/// A second pass with this duty. The first keeps the rest, and the names.
pub fn split_duty(lock: &JournalLock, pass: &mut Pass, duty: Duty) -> Pass
    requires lock { pass.old.table ≡ lock.now.table }
    requires duty { Among number (duty ∷ []) pass.old.duties }
    requires left { NamesByDuty (minus number pass.old.duties (duty ∷ [])) (names pass.old.hand pass.old.placed) }
    requires tied { IsTied pass.old.workload (minus number pass.old.duties (duty ∷ [])) × IsTied pass.old.workload (duty ∷ []) }
    ensures kept { pass.new ≡ record pass.old { duties = minus number pass.old.duties (duty ∷ []) } }
    ensures given { result ≡ record pass.old { duties = duty ∷ []; hand = []; placed = [] } }
{
    split_one::<Brand>(lock, pass, duty)
}

fn split_one<P: Part>(lock: &JournalLock, pass: &mut Pass, duty: Duty) -> Pass
    requires lock { pass.old.table ≡ lock.now.table }
    requires part { (P.duties ≡ duty ∷ []) × (P.hand ≡ []) × (P.placed ≡ []) }
    requires duty { Among number (duty ∷ []) pass.old.duties }
    requires left { NamesByDuty (minus number pass.old.duties (duty ∷ [])) (names pass.old.hand pass.old.placed) }
    requires tied { IsTied pass.old.workload (minus number pass.old.duties (duty ∷ [])) × IsTied pass.old.workload (duty ∷ []) }
    ensures kept { pass.new ≡ record pass.old { duties = minus number pass.old.duties (duty ∷ []) } }
    ensures given { result ≡ record pass.old { duties = duty ∷ []; hand = []; placed = [] } }
{
    let _ = duty;
    lock.split::<P>(pass)
}

/// A second pass with the duties of a session and of its draft. The first keeps the rest, and the names.
pub fn split_session(lock: &JournalLock, pass: &mut Pass, session: u32) -> Pass
    requires lock { pass.old.table ≡ lock.now.table }
    requires duties { Among number (Session session ∷ Draft session ∷ []) pass.old.duties }
    requires left { NamesByDuty (minus number pass.old.duties (Session session ∷ Draft session ∷ [])) (names pass.old.hand pass.old.placed) }
    requires tied { IsTied pass.old.workload (minus number pass.old.duties (Session session ∷ Draft session ∷ [])) }
    ensures kept { pass.new ≡ record pass.old { duties = minus number pass.old.duties (Session session ∷ Draft session ∷ []) } }
    ensures given { result ≡ record pass.old { duties = Session session ∷ Draft session ∷ []; hand = []; placed = [] } }
{
    split_two::<Brand>(lock, pass, session)
}

fn split_two<P: Part>(lock: &JournalLock, pass: &mut Pass, session: u32) -> Pass
    requires lock { pass.old.table ≡ lock.now.table }
    requires part { (P.duties ≡ Session session ∷ Draft session ∷ []) × (P.hand ≡ []) × (P.placed ≡ []) }
    requires duties { Among number (Session session ∷ Draft session ∷ []) pass.old.duties }
    requires left { NamesByDuty (minus number pass.old.duties (Session session ∷ Draft session ∷ [])) (names pass.old.hand pass.old.placed) }
    requires tied { IsTied pass.old.workload (minus number pass.old.duties (Session session ∷ Draft session ∷ [])) }
    ensures kept { pass.new ≡ record pass.old { duties = minus number pass.old.duties (Session session ∷ Draft session ∷ []) } }
    ensures given { result ≡ record pass.old { duties = Session session ∷ Draft session ∷ []; hand = []; placed = [] } }
{
    let _ = session;
    lock.split::<P>(pass)
}

/// A second pass with no duty and no name: it has seen the same, and has the same notes.
pub fn split_bare(lock: &JournalLock, pass: &mut Pass) -> Pass
    requires lock { pass.old.table ≡ lock.now.table }
    requires left { NamesByDuty pass.old.duties (names pass.old.hand pass.old.placed) }
    requires tied { IsTied pass.old.workload pass.old.duties }
    ensures kept { pass.new ≡ pass.old }
    ensures given { result ≡ record pass.old { duties = []; hand = []; placed = [] } }
{
    lock.split::<Brand>(pass)
}

/// All duties and names go to a second pass, which has a duty. So a pass is taken out of a locked value.
pub fn split_whole(lock: &JournalLock, pass: &mut Pass) -> Pass
    requires lock { pass.old.table ≡ lock.now.table }
    requires duty { HasDuty pass.old.duties }
    requires tied { IsTied pass.old.workload pass.old.duties }
    ensures kept { pass.new ≡ record pass.old { duties = pass.new.duties; hand = pass.new.hand; placed = pass.new.placed } }
    ensures given { result ≡ pass.old }
{
    split_all::<Brand>(lock, pass)
}

fn split_all<P: Part>(lock: &JournalLock, pass: &mut Pass) -> Pass
    requires lock { pass.old.table ≡ lock.now.table }
    requires part { (P.duties ≡ pass.old.duties) × (P.hand ≡ pass.old.hand) × (P.placed ≡ pass.old.placed) }
    requires duty { HasDuty pass.old.duties }
    requires tied { IsTied pass.old.workload pass.old.duties }
    ensures kept { pass.new ≡ record pass.old { duties = pass.new.duties; hand = pass.new.hand; placed = pass.new.placed } }
    ensures given { result ≡ pass.old }
{
    lock.split::<P>(pass)
}

/// All positions at hand are placed.
pub fn place_hand(lock: &JournalLock, pass: &mut Pass)
    requires { pass.old.table ≡ lock.now.table }
    ensures { pass.new ≡ record pass.old { hand = pass.new.hand; placed = pass.old.hand ++ pass.old.placed } }
{
    place_all::<Brand>(lock, pass);
}

fn place_all<C: Change>(lock: &JournalLock, pass: &mut Pass)
    requires lock { pass.old.table ≡ lock.now.table }
    requires change { (C.placed ≡ pass.old.hand) × (C.lengths ≡ []) × (C.pairs ≡ []) × (C.pins ≡ []) }
    ensures { pass.new ≡ record pass.old { hand = pass.new.hand; placed = pass.old.hand ++ pass.old.placed } }
{
    lock.amend::<C>(pass);
}

/// The pass notes how long the log of a datacentre is in what it has seen.
pub fn note_length(lock: &JournalLock, pass: &mut Pass, dc: DcId)
    requires { pass.old.table ≡ lock.now.table }
    ensures { pass.new ≡ record pass.old { notes = Length dc (has datacentre dc (stamped pass.old.seen)) ∷ pass.old.notes } }
{
    note_one::<Brand>(lock, pass, dc);
}

fn note_one<C: Change>(lock: &JournalLock, pass: &mut Pass, dc: DcId)
    requires lock { pass.old.table ≡ lock.now.table }
    requires change { (C.placed ≡ []) × (C.lengths ≡ dc ∷ []) × (C.pairs ≡ []) × (C.pins ≡ []) }
    ensures { pass.new ≡ record pass.old { notes = Length dc (has datacentre dc (stamped pass.old.seen)) ∷ pass.old.notes } }
{
    let _ = dc;
    lock.amend::<C>(pass);
}

/// The pin of a session is set to this position of its datacentre, or taken away.
pub fn set_pin(lock: &JournalLock, pass: &mut Pass, session: u32, at: Option<Lid>)
    requires lock { pass.old.table ≡ lock.now.table }
    requires session { Has (Session session) pass.old.duties }
    requires home { Has (Table (plan_of pass.old.workload session).home) pass.old.duties }
    ensures { pass.new ≡ record pass.old { pins = record { session = session; at = at } ∷ pass.old.pins } }
{
    pin_one::<Brand>(lock, pass, session, at);
}

fn pin_one<C: Change>(lock: &JournalLock, pass: &mut Pass, session: u32, at: Option<Lid>)
    requires lock { pass.old.table ≡ lock.now.table }
    requires change { (C.placed ≡ []) × (C.lengths ≡ []) × (C.pairs ≡ []) × (C.pins ≡ record { session = session; at = at } ∷ []) }
    requires session { Has (Session session) pass.old.duties }
    requires home { Has (Table (plan_of pass.old.workload session).home) pass.old.duties }
    ensures { pass.new ≡ record pass.old { pins = record { session = session; at = at } ∷ pass.old.pins } }
{
    let _ = (session, at);
    lock.amend::<C>(pass);
}
