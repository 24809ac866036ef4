//! A run with each kind of event and each kind of answer.
ghost use Rattle.std.specs.Prelude.{◌≡◌};
ghost use Rattle.abstract_log.specs.Shapes.{IsShaped};

use crate::events::{A, Told, Tried, workload};
use abstract_log::{Answer, Command, ReadAnswer};
use abstract_step::{AbstractLog, StepFault};
use std::test::Fail;

// Two writes, four reading commands, the way of both records to the second datacentre and back, and a
// collection with a read of what it took.
const RUN: [Tried; 21] = [
    Tried::Submit { s: 0, k: 1 },
    Tried::Append {
        d: 0,
        s: 0,
        k: 1,
        lid: 1,
        toid: 1,
    },
    Tried::Submit { s: 0, k: 2 },
    Tried::Append {
        d: 0,
        s: 0,
        k: 2,
        lid: 2,
        toid: 2,
    },
    Tried::Submit { s: 0, k: 3 },
    Tried::Reply {
        d: 0,
        s: 0,
        k: 3,
        at: 2,
        told: Told::Put,
    },
    Tried::Submit { s: 0, k: 4 },
    Tried::Reply {
        d: 0,
        s: 0,
        k: 4,
        at: 2,
        told: Told::PutAndAbsent,
    },
    Tried::Submit { s: 0, k: 5 },
    Tried::Reply {
        d: 0,
        s: 0,
        k: 5,
        at: 2,
        told: Told::Append,
    },
    Tried::Submit { s: 0, k: 6 },
    Tried::Reply {
        d: 0,
        s: 0,
        k: 6,
        at: 2,
        told: Told::LastOfTag,
    },
    Tried::Learn {
        d: 0,
        count: Some(2),
    },
    Tried::Receive {
        d: 1,
        from: 0,
        known: Some([2, 0]),
        names: &[1, 2],
    },
    Tried::Add {
        d: 1,
        lid: 1,
        toid: 1,
    },
    Tried::Add {
        d: 1,
        lid: 2,
        toid: 2,
    },
    Tried::Learn {
        d: 1,
        count: Some(2),
    },
    Tried::Receive {
        d: 0,
        from: 1,
        known: Some([2, 2]),
        names: &[],
    },
    Tried::Collect { d: 0, lid: 1 },
    Tried::Submit { s: 0, k: 7 },
    Tried::Reply {
        d: 0,
        s: 0,
        k: 7,
        at: 2,
        told: Told::Gone,
    },
];

#[test]
fn each_kind_of_event_happens(rt: HostRuntime) -> Result<(), Fail> {
    let alloc = rt.alloc();
    let mut log = AbstractLog::start(alloc, &workload(alloc)?)?;
    for row in &RUN {
        assert_eq!(rt; log.step(&row.event(alloc)?), Ok(()));
    }
    let twice = Tried::Collect { d: 0, lid: 1 };
    assert_eq!(rt;
        log.step(&twice.event(alloc)?),
        Err(StepFault::Refused { place: 3 })
    );
    match log.answer(A, &Command::Read { lid: 1 }, 0)? {
        Some(Answer::Read(ReadAnswer::Beyond)) => {}
        _ => return Err(Fail::from("a position above the one that is read at")),
    }
    let world = log.into_world();
    for there in &world.logs {
        assert_eq!(rt; there.len(), 2);
    }
    Ok(())
}
