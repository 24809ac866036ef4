//! Four threads that push at once.
use crate::{Work, learn_four};
use abstract_log::Workload;
use cz_base::{DcId, Seq};
use journal_lock::JournalLock;
use std::test::Fail;

const TIMES: u32 = 1_000;

#[test]
fn four_threads_push_at_once(rt: HostRuntime) -> Result<(), Fail> {
    let alloc = rt.alloc();
    let workload = Workload {
        dcs: 4,
        sessions: Seq::new(alloc),
    };
    let (lock, mut pass) = JournalLock::new(alloc, workload, 1, &[1; 4])?;
    let second = DcId::new(1).ok_or("the second datacentre")?;
    let third = DcId::new(2).ok_or("the third datacentre")?;
    let fourth = DcId::new(3).ok_or("the fourth datacentre")?;
    let work = Work {
        dcs: 4,
        times: TIMES,
    };
    learn_four(
        &rt,
        alloc,
        &lock,
        work,
        &mut pass,
        DcId::FIRST,
        second,
        third,
        fourth,
    );
    if pass.failed() {
        return Err(Fail::from("no memory for what is learnt"));
    }
    assert_eq!(rt; lock.meet(&mut pass), 4 * TIMES as u64);
    Ok(())
}
