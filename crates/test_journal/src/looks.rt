//! What a new lock tells of marks, epochs and heads.
use abstract_log::Workload;
use cz_base::{DcId, Seq};
use flstore_rounds::Epoch;
use journal_lock::JournalLock;
use std::test::Fail;

#[test]
fn a_lock_begins_with_one_epoch_and_nothing_placed(rt: HostRuntime) -> Result<(), Fail> {
    let alloc = rt.alloc();
    let workload = Workload {
        dcs: 2,
        sessions: Seq::new(alloc),
    };
    let (lock, mut pass) = JournalLock::new(alloc, workload, 3, &[2, 5])?;
    let second = DcId::new(1).ok_or("the second datacentre")?;
    let epochs = lock.load_epochs(&mut pass, second)?;
    assert_eq!(rt; epochs.list().len(), 1);
    assert!(rt;
        epochs.list()[0]
            == Epoch {
                start: 1,
                members: 5
            }
    );
    assert!(rt;
        lock.load_epoch(&mut pass, DcId::FIRST, 0)
            == Some(Epoch {
                start: 1,
                members: 2
            })
    );
    assert!(rt; lock.load_epoch(&mut pass, DcId::FIRST, 1) == None);
    assert_eq!(rt; lock.load_mark(&mut pass, second, 4), 1);
    assert_eq!(rt; lock.load_head(&mut pass, second), 0);
    Ok(())
}
