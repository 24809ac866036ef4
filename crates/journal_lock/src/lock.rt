//! The lock, its passes and its holder.
ghost use Rattle.std.specs.Prelude.{◌≡◌, ◌≢◌, ℕ, ◌+◌, ◌<◌, ◌≤◌, ◌||◌, true, false, [], ◌∷◌, ◌++◌, length, drop, All, slice_index, IfOk, OnOk, OnErr};
ghost use Rattle.cz_base.specs.declared.limits.TheConstants.{DATACENTRES, MEMBERS, ROUND, SESSIONS};
ghost use Rattle.flstore_rounds.specs.Heads.{head};
ghost use Rattle.abstract_log.specs.Runs.{IsRun, world_of};
ghost use Rattle.abstract_log.specs.Shapes.{FitsWorkload};
ghost use Rattle.abstract_log.specs.Steps.{CanHappen};
ghost use Rattle.journal_lock.specs.declared.law.Note.TheVariants.{Met};
ghost use Rattle.journal_lock.specs.Ties.{IsTied};
ghost use Rattle.journal_lock.specs.Duties.{has, number, place, minus, stamped, duties_of, all_duties, Among, HasDuty};
ghost use Rattle.journal_lock.specs.Law.{longer, names, Within};
ghost use Rattle.journal_lock.specs.Joins.{AreTold};
ghost use Rattle.journal_lock.specs.Pins.{MayPin, PinsAgree, pins_of_both};
ghost use Rattle.journal_lock.specs.Names.{IsNamed, NamesByDuty, own_notes};
ghost use Rattle.journal_lock.specs.Heads.{settled, known_list};
ghost use Rattle.journal_lock.specs.Start.{first_list, first_notes};
ghost use Rattle.journal_lock.specs.Tried.{IsTried, IsHeld};

use crate::journal::Journal;
use crate::law::{
    Amend, Change, Count, Cut, Free, Glue, Law, Learn, Meet, Part, Plan, Planned, Take, View,
};
use crate::start::first_words;
use crate::words::{COUNT, TURN};
use abstract_log::{Event, Run, Workload};
use atomic_table::{Seat, Table};
use cz_base::{NoMemory, Seq};
use std::alloc::Global;
use std::marker::{Brand, Model};
use std::sync::Wait;
use std::thread;

/// The journal under a lock. Threads share it, and each has a pass of its own. Contracts see which lock it is, the
/// workload, and how many positions in a row a maintainer owns.
#[derive(Drop)]
pub struct JournalLock {
    pub(crate) table: Table<Option<Journal>, View, Plan, Law, Global>,
    pub(crate) plan: Plan,
}

impl Model for JournalLock {
    ghost use Rattle.std.specs.Prelude.{◌≡◌, ◌≤◌};
    ghost use Rattle.cz_base.specs.declared.limits.TheConstants.{ROUND};
    ghost use Rattle.journal_lock.specs.declared.words.TheConstants.{WORDS};
    ghost use Rattle.journal_lock.specs.Passes.{Lock};

    ghost Value = { Lock };

    ghost view = { λ l. record { table = l.table.shared.table_id; workload = l.plan.workload; round = l.plan.round } };

    ghost invariant = { λ l. (l.table.shared.table_id.words ≡ WORDS) × (l.table.shared.table_id.slots ≡ 1) × (l.plan ≡ l.table.shared.key) };
}

/// A thread's pass: it has seen a beginning of the journal, in which all events of its duties stand. It has no bytes
/// but a flag. Contracts see a record of what it knows.
#[derive(Drop)]
pub struct Pass {
    pub(crate) seat: Seat<Option<Journal>, View>,
    failed: bool,
}

impl Model for Pass {
    ghost use Rattle.journal_lock.specs.Passes.{Ticket};

    ghost Value = { Ticket };

    ghost use Rattle.journal_lock.specs.Law.{IsIdle};

    ghost view = { λ p. record { table = p.seat.table_id; workload = p.seat.me.0.hold.load; seen = p.seat.me.0.hold.now.seen; duties = p.seat.me.0.hold.now.duties; failed = p.failed; notes = p.seat.me.0.notes; hand = p.seat.me.0.names.hand; placed = p.seat.me.0.names.placed; pins = p.seat.me.0.pins.now } };

    ghost invariant = { λ p. IsIdle p.seat.me };
}

/// A pass that has the turn, with the journal in hand. It cannot be dropped: who has the turn gives it back.
pub struct Holder {
    seat: Seat<Option<Journal>, View>,
    journal: Journal,
    failed: bool,
}

impl Model for Holder {
    ghost use Rattle.journal_lock.specs.Passes.{Hand};

    ghost Value = { Hand };

    ghost use Rattle.journal_lock.specs.Law.{IsOut};

    ghost view = { λ h. record { table = h.seat.table_id; workload = h.seat.me.0.hold.load; seen = h.seat.me.0.hold.now.seen; duties = h.seat.me.0.hold.now.duties; failed = h.failed; notes = h.seat.me.0.notes; hand = h.seat.me.0.names.hand; placed = h.seat.me.0.names.placed; pins = h.seat.me.0.pins.now; log = h.journal.log; spare = h.journal.spare } };

    ghost invariant = { λ h. IsOut h.seat.me h.journal.log };
}

/// What a try for the turn gives.
pub enum Tried {
    Held(Holder),
    /// The turn stood taken: what its word held, and the pass again.
    Busy { word: u64, pass: Pass },
}

impl JournalLock {
    /// An empty journal for the workload, where maintainers own so many positions in a row and each datacentre has so
    /// many of them at first, with marks of 1. The pass has every duty, and knows these epochs and marks.
    pub fn new(
        alloc: Global,
        workload: Workload,
        round: u32,
        maintainers: &[u32],
    ) -> Result<(JournalLock, Pass), NoMemory>
        requires workload { FitsWorkload workload }
        requires round { (1 ≤ round) × (round ≤ ROUND) }
        requires maintainers { (length maintainers.now ≡ workload.dcs) × All (λ n. (1 ≤ n) × (n ≤ MEMBERS)) maintainers.now }
        ensures lock { IfOk result (λ t. (t.0.workload ≡ workload) × (t.0.round ≡ round) × (t.1.table ≡ t.0.table) × (t.1.workload ≡ workload)) }
        ensures pass { IfOk result (λ t. (t.1.seen ≡ []) × (t.1.duties ≡ all_duties workload) × (t.1.failed ≡ false) × (t.1.notes ≡ first_notes round 0 maintainers.now) × (t.1.hand ≡ []) × (t.1.placed ≡ []) × (t.1.pins ≡ [])) }
        ensures epochs { IfOk result (λ t. (d : ℕ) → d < workload.dcs → known_list round d t.1.notes ≡ first_list round (slice_index maintainers.now d)) }
    {
        let Ok(mut slots) = Vec::with_capacity(alloc, 1) else {
            return Err(NoMemory);
        };
        slots.push_reserved(Some(Journal::new(alloc)));
        let words = first_words(alloc, maintainers)?;
        let Ok(members) = Vec::from_slice(alloc, maintainers) else {
            return Err(NoMemory);
        };
        let plan = Plan {
            workload,
            round,
            maintainers: Seq::from_vec(members),
        };
        let Ok((table, seat)) = Table::new(alloc, words.as_slice(), slots, &plan) else {
            return Err(NoMemory);
        };
        let pass = Pass {
            seat,
            failed: false,
        };
        Ok((JournalLock { table, plan }, pass))
    }

    /// Takes the turn, unless it stands taken. The holder has seen the whole journal, which has no event of its
    /// duties that the pass had not seen. All that the pass noted is true of it, and its logs reach the heads that the
    /// pass was told.
    pub fn try_take(&self, pass: Pass) -> Tried
        requires lock { pass.table ≡ self.now.table }
        requires duty { HasDuty pass.duties }
        ensures { IsTried self.now pass result }
    {
        self.take_once::<Brand>(pass)
    }

    fn take_once<C: Planned>(&self, pass: Pass) -> Tried
        requires lock { pass.table ≡ self.now.table }
        requires plan { (C.load ≡ self.now.workload) × (C.round ≡ self.now.round) }
        requires duty { HasDuty pass.duties }
        ensures { IsTried self.now pass result }
    {
        let Pass { mut seat, failed } = pass;
        let word = self
            .table
            .shared
            .compare_exchange::<Take<C>>(&mut seat, TURN, 0, 1);
        if word != 0 {
            let pass = Pass { seat, failed };
            return Tried::Busy { word, pass };
        }
        let slot = self.table.shared.exchange(&mut seat, 0, None);
        let Some(journal) = slot else { unreachable!() };
        Tried::Held(Holder {
            seat,
            journal,
            failed,
        })
    }

    /// Tries until it holds the turn.
    pub fn take<R: Wait>(&self, rt: &R, pass: Pass) -> Holder
        requires lock { pass.table ≡ self.now.table }
        requires duty { HasDuty pass.duties }
        ensures { IsHeld self.now pass result }
    {
        let mut pass = pass;
        for _ in rt.forever() {
            match self.try_take(pass) {
                Tried::Held(holder) => return holder,
                Tried::Busy {
                    word: _,
                    pass: back,
                } => pass = back,
            }
            thread::yield_now();
        }
        unreachable!()
    }

    /// A second pass, which has seen the same and gets what `P` names; the first keeps the rest. Who names
    /// positions keeps a duty, a token stays with a queue, and a draft with its session or a stage of its home.
    pub fn split<P: Part>(&self, pass: &mut Pass) -> Pass
        requires lock { pass.old.table ≡ self.now.table }
        requires part { Among number P.duties pass.old.duties × Among place P.hand pass.old.hand × Among place P.placed pass.old.placed }
        requires left { NamesByDuty (minus number pass.old.duties P.duties) (names (minus place pass.old.hand P.hand) (minus place pass.old.placed P.placed)) }
        requires right { NamesByDuty P.duties (names P.hand P.placed) }
        requires tied { IsTied pass.old.workload (minus number pass.old.duties P.duties) × IsTied pass.old.workload P.duties }
        ensures kept { pass.new ≡ record pass.old { duties = minus number pass.old.duties P.duties; hand = minus place pass.old.hand P.hand; placed = minus place pass.old.placed P.placed } }
        ensures given { result ≡ record pass.old { duties = P.duties; hand = P.hand; placed = P.placed } }
    {
        let seat = self.table.shared.split_seat::<Cut<P>>(&mut pass.seat);
        Pass {
            seat,
            failed: pass.failed,
        }
    }

    /// The first pass takes in the second, and has seen the longer of both. What it has seen has no event of the
    /// duties of either that this one had not seen. It names no position twice, and none that is not stamped there, and
    /// the heads that it was told are no lower than those of either. Where the duties of both know the pin of a session,
    /// they have the same.
    pub fn join(&self, pass: &mut Pass, other: Pass)
        requires lock { (pass.old.table ≡ self.now.table) × (other.table ≡ self.now.table) }
        ensures all { pass.new ≡ record pass.old { seen = longer pass.old.seen other.seen; duties = pass.old.duties ++ other.duties; failed = pass.old.failed || other.failed; notes = pass.old.notes ++ other.notes; hand = pass.old.hand ++ other.hand; placed = pass.old.placed ++ other.placed; pins = pins_of_both pass.old.workload pass.old.duties pass.old.pins other.pins SESSIONS } }
        ensures one { Within pass.old.duties pass.old.seen pass.new.seen }
        ensures two { Within other.duties other.seen pass.new.seen }
        ensures named { IsNamed pass.new.seen (names pass.new.hand pass.new.placed) }
        ensures pins { PinsAgree self.now.workload (pass.old.duties, pass.old.pins) (other.duties, other.pins) }
        ensures heads { (d : ℕ) → d < DATACENTRES → (head (settled self.now.round d pass.old.notes) ≤ head (settled self.now.round d pass.new.notes)) × (head (settled self.now.round d other.notes) ≤ head (settled self.now.round d pass.new.notes)) }
    {
        self.join_both::<Brand>(pass, other);
    }

    fn join_both<C: Planned>(&self, pass: &mut Pass, other: Pass)
        requires lock { (pass.old.table ≡ self.now.table) × (other.table ≡ self.now.table) }
        requires plan { (C.load ≡ self.now.workload) × (C.round ≡ self.now.round) }
        ensures all { pass.new ≡ record pass.old { seen = longer pass.old.seen other.seen; duties = pass.old.duties ++ other.duties; failed = pass.old.failed || other.failed; notes = pass.old.notes ++ other.notes; hand = pass.old.hand ++ other.hand; placed = pass.old.placed ++ other.placed; pins = pins_of_both pass.old.workload pass.old.duties pass.old.pins other.pins SESSIONS } }
        ensures one { Within pass.old.duties pass.old.seen pass.new.seen }
        ensures two { Within other.duties other.seen pass.new.seen }
        ensures named { IsNamed pass.new.seen (names pass.new.hand pass.new.placed) }
        ensures pins { PinsAgree self.now.workload (pass.old.duties, pass.old.pins) (other.duties, other.pins) }
        ensures heads { (d : ℕ) → d < DATACENTRES → (head (settled self.now.round d pass.old.notes) ≤ head (settled self.now.round d pass.new.notes)) × (head (settled self.now.round d other.notes) ≤ head (settled self.now.round d pass.new.notes)) }
    {
        let Pass { seat, failed } = other;
        self.table.shared.join_seat::<Glue>(&mut pass.seat, seat);
        self.table.shared.load::<Learn<C>>(&mut pass.seat, COUNT);
        pass.failed = pass.failed || failed;
    }

    /// How many events the journal has, at least as many as the pass has seen. The pass notes the number.
    pub fn meet(&self, pass: &mut Pass) -> u64
        requires { pass.old.table ≡ self.now.table }
        ensures count { length pass.old.seen ≤ result }
        ensures noted { pass.new ≡ record pass.old { notes = Met result ∷ pass.old.notes } }
        ensures named { IsNamed pass.old.seen (names pass.old.hand pass.old.placed) }
        ensures tied { IsTied pass.old.workload pass.old.duties }
        ensures once { (x : ℕ) → has number x pass.old.duties ≤ 1 }
    {
        self.table.shared.load::<Meet>(&mut pass.seat, COUNT)
    }

    /// The positions that `C` names were at hand and are placed, and the pass notes how long the logs of the
    /// datacentres that `C` names are in what it has seen, and of each two pairs that `C` names, which it was told, what
    /// both say together. Who has a session's duty and that of its datacentre's table sets its pin.
    pub fn amend<C: Change>(&self, pass: &mut Pass)
        requires lock { pass.old.table ≡ self.now.table }
        requires hand { Among place C.placed pass.old.hand }
        requires told { AreTold C.pairs pass.old.notes }
        requires pins { MayPin pass.old.workload pass.old.duties C.pins }
        ensures { pass.new ≡ record pass.old { hand = minus place pass.old.hand C.placed; placed = C.placed ++ pass.old.placed; notes = own_notes C.pairs C.lengths pass.old.seen ++ pass.old.notes; pins = C.pins ++ pass.old.pins } }
    {
        self.table.shared.load::<Amend<C>>(&mut pass.seat, COUNT);
    }

    /// The workload and the journal, of which a pass with every duty has seen all.
    pub fn close(self, pass: Pass) -> Run
        requires lock { pass.table ≡ self.table }
        requires all { Among number (all_duties self.workload) pass.duties }
        ensures workload { result.workload ≡ self.workload }
        ensures events { result.events ≡ pass.seen }
        ensures run { IsRun self.workload result.events }
    {
        let Self { table, plan } = self;
        let Pass { seat, failed: _ } = pass;
        let mut closed = table.close_with(seat);
        let slot = closed.take(0);
        closed.free();
        let Some(journal) = slot else { unreachable!() };
        Run {
            workload: plan.workload,
            events: journal.into_events(),
        }
    }
}

impl Pass {
    /// Whoever used this pass had no memory for what was to be done.
    pub fn fail(&mut self)
        ensures { self.new ≡ record self.old { failed = true } }
    {
        self.failed = true;
    }

    /// Whether it failed, or one that it was split from or joined with.
    pub fn failed(&self) -> bool
        ensures { result ≡ self.now.failed }
    {
        self.failed
    }
}

impl Holder {
    /// There is room for n more events.
    pub fn reserve(&mut self, n: usize) -> Result<(), NoMemory>
        ensures spare { OnOk result (n ≤ self.new.spare) }
        ensures same { self.new ≡ record self.old { spare = self.new.spare } }
        ensures err { OnErr result (self.new ≡ self.old) }
    {
        self.journal.reserve(n)
    }

    /// The event goes last. It may happen in the world that the journal leaves, and the holder has its duties.
    pub fn push(&mut self, event: Event)
        requires spare { 0 < self.old.spare }
        requires step { CanHappen (world_of self.old.workload self.old.log) event }
        requires duties { Among number (duties_of event) self.old.duties }
        ensures log { self.new ≡ record self.old { log = self.old.log ++ event ∷ []; spare = self.new.spare } }
        ensures spare { self.new.spare + 1 ≡ self.old.spare }
    {
        self.journal.push(event);
    }

    /// The journal is home again, and the pass has seen it. The positions of its events are at hand.
    pub fn give(self, lock: &JournalLock) -> Pass
        requires { self.table ≡ lock.now.table }
        ensures kept { (result.table ≡ self.table) × (result.workload ≡ self.workload) × (result.duties ≡ self.duties) × (result.failed ≡ self.failed) × (result.notes ≡ self.notes) × (result.placed ≡ self.placed) × (result.pins ≡ self.pins) }
        ensures seen { result.seen ≡ self.log }
        ensures hand { result.hand ≡ stamped (drop (length self.seen) self.log) ++ self.hand }
    {
        let Self {
            mut seat,
            journal,
            failed,
        } = self;
        let count = journal.len() as u64;
        let _empty = lock.table.shared.exchange(&mut seat, 0, Some(journal));
        lock.table.shared.store::<Count>(&mut seat, COUNT, count);
        lock.table.shared.store::<Free>(&mut seat, TURN, 0);
        Pass { seat, failed }
    }
}
