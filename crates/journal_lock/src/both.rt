//! Two threads, each of which begins a session of its own.
ghost use Rattle.std.specs.Prelude.{◌≡◌, ◌≢◌, ◌<◌, ◌≤◌, false, [], ◌∷◌, length, IfSome};
ghost use Rattle.abstract_log.specs.Runs.{IsRun};
ghost use Rattle.abstract_log.specs.Shapes.{FitsWorkload};
ghost use Rattle.abstract_log.specs.Worlds.{plan_of};
ghost use Rattle.journal_lock.specs.declared.duty.Duty.TheVariants.{Session, Draft};
ghost use Rattle.journal_lock.specs.Duties.{number, often, all_duties, Among};
ghost use Rattle.journal_lock.specs.Law.{HasCommands};

use crate::lock::{JournalLock, Pass};
use crate::parts::split_session;
use abstract_log::{Event, Run};
use std::sync::Wait;
use std::thread::{Threads, join};

/// Begins the first command of a session. For want of memory the pass is failed.
pub fn begin_session<R: Wait>(rt: &R, lock: &JournalLock, pass: Pass, session: u32) -> Pass
    requires lock { pass.table ≡ lock.now.table }
    requires session { HasCommands pass.workload session }
    requires duties { pass.duties ≡ Session session ∷ Draft session ∷ [] }
    requires none { often (number (Session session)) pass.seen ≡ 0 }
    ensures kept { (result.table ≡ pass.table) × (result.workload ≡ pass.workload) × (result.duties ≡ pass.duties) }
    ensures begun { result.failed ≡ false → often (number (Session session)) result.seen ≡ 1 }
{
    let mut holder = lock.take(rt, pass);
    if holder.reserve(1).is_err() {
        let mut pass = holder.give(lock);
        pass.fail();
        return pass;
    }
    holder.push(Event::Submit { session, index: 1 });
    holder.give(lock)
}

/// Two threads begin a session each. The journal is then a run with one event of each.
pub fn begin_both<R: Threads + Wait + Sync>(
    rt: &R,
    lock: JournalLock,
    mut pass: Pass,
    first: u32,
    second: u32,
) -> Option<Run>
    requires lock { (pass.table ≡ lock.table) × (pass.workload ≡ lock.workload) }
    requires all { Among number (all_duties lock.workload) pass.duties }
    requires none { (pass.seen ≡ []) × (pass.hand ≡ []) × (pass.placed ≡ []) }
    requires sessions { (first ≢ second) × HasCommands lock.workload first × HasCommands lock.workload second }
    ensures run { IfSome result (λ run. (run.workload ≡ lock.workload) × IsRun run.workload run.events) }
    ensures first { IfSome result (λ run. often (number (Session first)) run.events ≡ 1) }
    ensures second { IfSome result (λ run. often (number (Session second)) run.events ≡ 1) }
{
    let _events = lock.meet(&mut pass);
    let one = split_session(&lock, &mut pass, first);
    let two = split_session(&lock, &mut pass, second);
    let shared = &lock;
    let (one, two) = join(
        rt,
        || -> Pass
            requires lock { one.table ≡ shared.now.table }
            requires session { HasCommands one.workload first }
            requires duties { one.duties ≡ Session first ∷ Draft first ∷ [] }
            requires none { one.seen ≡ [] }
            ensures kept { (result.table ≡ one.table) × (result.workload ≡ one.workload) × (result.duties ≡ one.duties) }
            ensures begun { result.failed ≡ false → often (number (Session first)) result.seen ≡ 1 }
        { begin_session(rt, shared, one, first) },
        || -> Pass
            requires lock { two.table ≡ shared.now.table }
            requires session { HasCommands two.workload second }
            requires duties { two.duties ≡ Session second ∷ Draft second ∷ [] }
            requires none { two.seen ≡ [] }
            ensures kept { (result.table ≡ two.table) × (result.workload ≡ two.workload) × (result.duties ≡ two.duties) }
            ensures begun { result.failed ≡ false → often (number (Session second)) result.seen ≡ 1 }
        { begin_session(rt, shared, two, second) },
    );
    if one.failed() || two.failed() {
        return None;
    }
    lock.join(&mut pass, one);
    lock.join(&mut pass, two);
    Some(lock.close(pass))
}
