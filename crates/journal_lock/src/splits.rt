//! Splits of several duties, which a slice names when the program runs.
ghost use Rattle.std.specs.Prelude.{◌≡◌, [], ◌∷◌};
ghost use Rattle.journal_lock.specs.declared.duty.Duty.TheVariants.{Draft, Token, Queue, Table};
ghost use Rattle.journal_lock.specs.Duties.{number, minus, Among};
ghost use Rattle.journal_lock.specs.Law.{names};
ghost use Rattle.journal_lock.specs.Names.{NamesByDuty};
ghost use Rattle.journal_lock.specs.Ties.{IsTied};

use crate::duty::Duty;
use crate::law::Part;
use crate::lock::{JournalLock, Pass};
use crate::parts::split_duty;
use cz_base::DcId;
use std::marker::Brand;

/// A second pass with these duties. The first keeps the rest, and the names.
pub fn split_duties(lock: &JournalLock, pass: &mut Pass, duties: &[Duty]) -> Pass
    requires lock { pass.old.table ≡ lock.now.table }
    requires duties { Among number duties.now pass.old.duties }
    requires left { NamesByDuty (minus number pass.old.duties duties.now) (names pass.old.hand pass.old.placed) }
    requires tied { IsTied pass.old.workload (minus number pass.old.duties duties.now) × IsTied pass.old.workload duties.now }
    ensures kept { pass.new ≡ record pass.old { duties = minus number pass.old.duties duties.now } }
    ensures given { result ≡ record pass.old { duties = duties.now; hand = []; placed = [] } }
{
    split_these::<Brand>(lock, pass, duties)
}

fn split_these<P: Part>(lock: &JournalLock, pass: &mut Pass, duties: &[Duty]) -> Pass
    requires lock { pass.old.table ≡ lock.now.table }
    requires part { (P.duties ≡ duties.now) × (P.hand ≡ []) × (P.placed ≡ []) }
    requires duties { Among number duties.now pass.old.duties }
    requires left { NamesByDuty (minus number pass.old.duties duties.now) (names pass.old.hand pass.old.placed) }
    requires tied { IsTied pass.old.workload (minus number pass.old.duties duties.now) × IsTied pass.old.workload duties.now }
    ensures kept { pass.new ≡ record pass.old { duties = minus number pass.old.duties duties.now } }
    ensures given { result ≡ record pass.old { duties = duties.now; hand = []; placed = [] } }
{
    let _ = duties;
    lock.split::<P>(pass)
}

/// A second pass with these duties and all names. The first keeps the rest of the duties.
pub fn split_with_names(lock: &JournalLock, pass: &mut Pass, duties: &[Duty]) -> Pass
    requires lock { pass.old.table ≡ lock.now.table }
    requires duties { Among number duties.now pass.old.duties }
    requires right { NamesByDuty duties.now (names pass.old.hand pass.old.placed) }
    requires tied { IsTied pass.old.workload (minus number pass.old.duties duties.now) × IsTied pass.old.workload duties.now }
    ensures kept { pass.new ≡ record pass.old { duties = minus number pass.old.duties duties.now; hand = []; placed = [] } }
    ensures given { result ≡ record pass.old { duties = duties.now } }
{
    split_named::<Brand>(lock, pass, duties)
}

fn split_named<P: Part>(lock: &JournalLock, pass: &mut Pass, duties: &[Duty]) -> Pass
    requires lock { pass.old.table ≡ lock.now.table }
    requires part { (P.duties ≡ duties.now) × (P.hand ≡ pass.old.hand) × (P.placed ≡ pass.old.placed) }
    requires duties { Among number duties.now pass.old.duties }
    requires right { NamesByDuty duties.now (names pass.old.hand pass.old.placed) }
    requires tied { IsTied pass.old.workload (minus number pass.old.duties duties.now) × IsTied pass.old.workload duties.now }
    ensures kept { pass.new ≡ record pass.old { duties = minus number pass.old.duties duties.now; hand = []; placed = [] } }
    ensures given { result ≡ record pass.old { duties = duties.now } }
{
    let _ = duties;
    lock.split::<P>(pass)
}

/// A second pass with the duty of a datacentre's table. The first keeps the rest, which is tied still, and the names.
pub fn split_table(lock: &JournalLock, pass: &mut Pass, dc: DcId) -> Pass
    requires lock { pass.old.table ≡ lock.now.table }
    requires duty { Among number (Table dc ∷ []) pass.old.duties }
    requires left { NamesByDuty (minus number pass.old.duties (Table dc ∷ [])) (names pass.old.hand pass.old.placed) }
    requires tied { IsTied pass.old.workload pass.old.duties }
    ensures kept { pass.new ≡ record pass.old { duties = minus number pass.old.duties (Table dc ∷ []) } }
    ensures given { result ≡ record pass.old { duties = Table dc ∷ []; hand = []; placed = [] } }
    ensures tied { IsTied pass.new.workload pass.new.duties }
{
    // There is no datacentre past the last, whose table's duty had the number of another one.
    let _number = dc.number();
    split_duty(lock, pass, Duty::Table { dc })
}

/// A second pass with the duty of a stage and of the draft that is under way there. The first keeps the rest, and the
/// names.
pub fn split_draft(lock: &JournalLock, pass: &mut Pass, stage: Duty, session: u32) -> Pass
    requires lock { pass.old.table ≡ lock.now.table }
    requires duties { Among number (stage ∷ Draft session ∷ []) pass.old.duties }
    requires left { NamesByDuty (minus number pass.old.duties (stage ∷ Draft session ∷ [])) (names pass.old.hand pass.old.placed) }
    requires tied { IsTied pass.old.workload (minus number pass.old.duties (stage ∷ Draft session ∷ [])) × IsTied pass.old.workload (stage ∷ Draft session ∷ []) }
    ensures kept { pass.new ≡ record pass.old { duties = minus number pass.old.duties (stage ∷ Draft session ∷ []) } }
    ensures given { result ≡ record pass.old { duties = stage ∷ Draft session ∷ []; hand = []; placed = [] } }
{
    split_duties(lock, pass, &[stage, Duty::Draft { session }])
}

/// A second pass with the duties of a queue and of the token that it holds, and all names, which are at hand there. The
/// first keeps the rest of the duties.
pub fn split_token(lock: &JournalLock, pass: &mut Pass, dc: DcId, member: u32) -> Pass
    requires lock { pass.old.table ≡ lock.now.table }
    requires duties { Among number (Queue dc member ∷ Token dc ∷ []) pass.old.duties }
    requires tied { IsTied pass.old.workload (minus number pass.old.duties (Queue dc member ∷ Token dc ∷ [])) × IsTied pass.old.workload (Queue dc member ∷ Token dc ∷ []) }
    ensures kept { pass.new ≡ record pass.old { duties = minus number pass.old.duties (Queue dc member ∷ Token dc ∷ []); hand = []; placed = [] } }
    ensures given { result ≡ record pass.old { duties = Queue dc member ∷ Token dc ∷ [] } }
{
    split_with_names(
        lock,
        pass,
        &[Duty::Queue { dc, member }, Duty::Token { dc }],
    )
}
