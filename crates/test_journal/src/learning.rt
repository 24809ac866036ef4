//! A thread's work: a datacentre learns again and again that its log has nothing.
ghost use Rattle.std.specs.Prelude.{◌≡◌, ◌+◌, ◌<◌, ◌≤◌, false, [], ◌∷◌};
ghost use Rattle.cz_base.specs.declared.limits.TheConstants.{DATACENTRES};
ghost use Rattle.journal_lock.specs.declared.duty.Duty.TheVariants.{Table};
ghost use Rattle.journal_lock.specs.Duties.{number, often, Has};

use abstract_log::Event;
use causal_deps::{BoxedCounts, Counts};
use cz_base::DcId;
use journal_lock::{JournalLock, Pass, split_table};
use std::alloc::Global;
use std::sync::Wait;
use std::thread::{Threads, join};

/// How many datacentres there are, and how often each learns.
#[derive(Clone, Copy)]
pub struct Work {
    pub dcs: u32,
    pub times: u32,
}

/// A datacentre learns once. For want of memory the pass is failed.
pub fn learn_one<R: Wait>(
    rt: &R,
    alloc: Global,
    lock: &JournalLock,
    mut pass: Pass,
    dc: DcId,
    dcs: u32,
) -> Pass
    requires lock { pass.table ≡ lock.now.table }
    requires dcs { (pass.workload.dcs ≡ dcs) × (1 ≤ dcs) × (dcs ≤ DATACENTRES) × (dc < dcs) }
    requires duties { pass.duties ≡ Table dc ∷ [] }
    ensures kept { (result.table ≡ pass.table) × (result.workload ≡ pass.workload) × (result.duties ≡ pass.duties) }
    ensures learnt { result.failed ≡ false → (pass.failed ≡ false) × (often (number (Table dc)) result.seen ≡ often (number (Table dc)) pass.seen + 1) }
{
    let Ok(row) = BoxedCounts::new(alloc, &Counts::zero(dcs)) else {
        pass.fail();
        return pass;
    };
    let mut holder = lock.take(rt, pass);
    if holder.reserve(1).is_err() {
        let mut pass = holder.give(lock);
        pass.fail();
        return pass;
    }
    holder.push(Event::Learn { dc, row });
    holder.give(lock)
}

/// A datacentre learns so many times.
pub fn learn_often<R: Wait>(
    rt: &R,
    alloc: Global,
    lock: &JournalLock,
    pass: Pass,
    dc: DcId,
    dcs: u32,
    times: u32,
) -> Pass
    requires lock { pass.table ≡ lock.now.table }
    requires dcs { (pass.workload.dcs ≡ dcs) × (1 ≤ dcs) × (dcs ≤ DATACENTRES) × (dc < dcs) }
    requires duties { pass.duties ≡ Table dc ∷ [] }
    ensures kept { (result.table ≡ pass.table) × (result.workload ≡ pass.workload) × (result.duties ≡ pass.duties) }
    ensures learnt { result.failed ≡ false → often (number (Table dc)) result.seen ≡ often (number (Table dc)) pass.seen + times }
{
    let mut pass = pass;
    for _ in 0..times {
        pass = learn_one(rt, alloc, lock, pass, dc, dcs);
    }
    pass
}

/// Two datacentres learn at once.
pub fn learn_two<R: Threads + Wait + Sync>(
    rt: &R,
    alloc: Global,
    lock: &JournalLock,
    work: Work,
    passes: (Pass, Pass),
    first: DcId,
    second: DcId,
) -> (Pass, Pass)
    requires lock { (passes.0.table ≡ lock.now.table) × (passes.1.table ≡ lock.now.table) }
    requires plan { (passes.0.workload.dcs ≡ work.dcs) × (passes.1.workload.dcs ≡ work.dcs) }
    requires dcs { (1 ≤ work.dcs) × (work.dcs ≤ DATACENTRES) × (first < work.dcs) × (second < work.dcs) }
    requires duties { (passes.0.duties ≡ Table first ∷ []) × (passes.1.duties ≡ Table second ∷ []) }
    ensures kept { (result.0.table ≡ passes.0.table) × (result.1.table ≡ passes.1.table) }
    ensures first { result.0.failed ≡ false → often (number (Table first)) result.0.seen ≡ often (number (Table first)) passes.0.seen + work.times }
    ensures second { result.1.failed ≡ false → often (number (Table second)) result.1.seen ≡ often (number (Table second)) passes.1.seen + work.times }
{
    let (one, two) = passes;
    join(
        rt,
        || -> Pass
            requires lock { one.table ≡ lock.now.table }
            requires dcs { (one.workload.dcs ≡ work.dcs) × (1 ≤ work.dcs) × (work.dcs ≤ DATACENTRES) × (first < work.dcs) }
            requires duties { one.duties ≡ Table first ∷ [] }
            ensures kept { result.table ≡ one.table }
            ensures learnt { result.failed ≡ false → often (number (Table first)) result.seen ≡ often (number (Table first)) one.seen + work.times }
        { learn_often(rt, alloc, lock, one, first, work.dcs, work.times) },
        || -> Pass
            requires lock { two.table ≡ lock.now.table }
            requires dcs { (two.workload.dcs ≡ work.dcs) × (1 ≤ work.dcs) × (work.dcs ≤ DATACENTRES) × (second < work.dcs) }
            requires duties { two.duties ≡ Table second ∷ [] }
            ensures kept { result.table ≡ two.table }
            ensures learnt { result.failed ≡ false → often (number (Table second)) result.seen ≡ often (number (Table second)) two.seen + work.times }
        { learn_often(rt, alloc, lock, two, second, work.dcs, work.times) },
    )
}

/// Four datacentres learn at once, each in a thread of its own, and their passes are taken in again.
pub fn learn_four<R: Threads + Wait + Sync>(
    rt: &R,
    alloc: Global,
    lock: &JournalLock,
    work: Work,
    pass: &mut Pass,
    first: DcId,
    second: DcId,
    third: DcId,
    fourth: DcId,
)
    requires lock { pass.old.table ≡ lock.now.table }
    requires dcs { (pass.old.workload.dcs ≡ work.dcs) × (1 ≤ work.dcs) × (work.dcs ≤ DATACENTRES) }
    requires order { (first < second) × (second < third) × (third < fourth) × (fourth < work.dcs) }
    requires duties { Has (Table first) pass.old.duties × Has (Table second) pass.old.duties × Has (Table third) pass.old.duties × Has (Table fourth) pass.old.duties }
    requires none { (pass.old.hand ≡ []) × (pass.old.placed ≡ []) }
    ensures { pass.new.table ≡ pass.old.table }
{
    let _events = lock.meet(pass);
    let one = split_table(lock, pass, first);
    let two = split_table(lock, pass, second);
    let three = split_table(lock, pass, third);
    let four = split_table(lock, pass, fourth);
    let (left, right) = join(
        rt,
        || -> (Pass, Pass)
            requires lock { (one.table ≡ lock.now.table) × (two.table ≡ lock.now.table) }
            requires plan { (one.workload.dcs ≡ work.dcs) × (two.workload.dcs ≡ work.dcs) }
            requires dcs { (1 ≤ work.dcs) × (work.dcs ≤ DATACENTRES) × (first < work.dcs) × (second < work.dcs) }
            requires duties { (one.duties ≡ Table first ∷ []) × (two.duties ≡ Table second ∷ []) }
            ensures kept { (result.0.table ≡ one.table) × (result.1.table ≡ two.table) }
        { learn_two(rt, alloc, lock, work, (one, two), first, second) },
        || -> (Pass, Pass)
            requires lock { (three.table ≡ lock.now.table) × (four.table ≡ lock.now.table) }
            requires plan { (three.workload.dcs ≡ work.dcs) × (four.workload.dcs ≡ work.dcs) }
            requires dcs { (1 ≤ work.dcs) × (work.dcs ≤ DATACENTRES) × (third < work.dcs) × (fourth < work.dcs) }
            requires duties { (three.duties ≡ Table third ∷ []) × (four.duties ≡ Table fourth ∷ []) }
            ensures kept { (result.0.table ≡ three.table) × (result.1.table ≡ four.table) }
        { learn_two(rt, alloc, lock, work, (three, four), third, fourth) },
    );
    let (one, two) = left;
    let (three, four) = right;
    lock.join(pass, one);
    lock.join(pass, two);
    lock.join(pass, three);
    lock.join(pass, four);
}
