//! For each condition that a run can break an event that breaks it, and those before it hold. (That the
//! home of a session lacks what the session has seen, the fifth of an append, is no case: no run does it.)
ghost use Rattle.std.specs.Prelude.{◌≡◌};
ghost use Rattle.abstract_log.specs.Shapes.{IsShaped};

use crate::events::{Told, Tried, workload};
use abstract_step::{AbstractLog, StepFault};
use std::test::Fail;

// Both writes of the first session stand in the first log, its third command, a get, is open, and so is the
// append of the second session; the third has begun nothing. The second datacentre has heard of both records, and has none.
const BEFORE: [Tried; 8] = [
    Tried::Submit { s: 0, k: 1 },
    Tried::Append {
        d: 0,
        s: 0,
        k: 1,
        lid: 1,
        toid: 1,
    },
    Tried::Submit { s: 0, k: 2 },
    Tried::Append {
        d: 0,
        s: 0,
        k: 2,
        lid: 2,
        toid: 2,
    },
    Tried::Submit { s: 0, k: 3 },
    Tried::Learn {
        d: 0,
        count: Some(2),
    },
    Tried::Receive {
        d: 1,
        from: 0,
        known: Some([2, 0]),
        names: &[1, 2],
    },
    Tried::Submit { s: 1, k: 1 },
];

struct Refused {
    event: Tried,
    place: u32,
}

const REFUSED: [Refused; 30] = [
    Refused {
        event: Tried::Submit { s: 3, k: 1 },
        place: 1,
    },
    Refused {
        event: Tried::Submit { s: 0, k: 4 },
        place: 2,
    },
    Refused {
        event: Tried::Submit { s: 2, k: 2 },
        place: 3,
    },
    Refused {
        event: Tried::Append {
            d: 1,
            s: 1,
            k: 1,
            lid: 1,
            toid: 1,
        },
        place: 1,
    },
    Refused {
        event: Tried::Append {
            d: 0,
            s: 0,
            k: 3,
            lid: 3,
            toid: 3,
        },
        place: 2,
    },
    Refused {
        event: Tried::Append {
            d: 0,
            s: 1,
            k: 1,
            lid: 4,
            toid: 3,
        },
        place: 3,
    },
    Refused {
        event: Tried::Append {
            d: 0,
            s: 1,
            k: 1,
            lid: 3,
            toid: 2,
        },
        place: 4,
    },
    Refused {
        event: Tried::Receive {
            d: 0,
            from: 0,
            known: Some([2, 0]),
            names: &[],
        },
        place: 1,
    },
    Refused {
        event: Tried::Receive {
            d: 0,
            from: 2,
            known: Some([2, 0]),
            names: &[],
        },
        place: 1,
    },
    Refused {
        event: Tried::Receive {
            d: 1,
            from: 0,
            known: None,
            names: &[],
        },
        place: 2,
    },
    Refused {
        event: Tried::Receive {
            d: 1,
            from: 0,
            known: Some([3, 0]),
            names: &[],
        },
        place: 3,
    },
    Refused {
        event: Tried::Receive {
            d: 1,
            from: 0,
            known: Some([2, 1]),
            names: &[],
        },
        place: 3,
    },
    Refused {
        event: Tried::Receive {
            d: 1,
            from: 0,
            known: Some([2, 0]),
            names: &[1, 3],
        },
        place: 4,
    },
    Refused {
        event: Tried::Add {
            d: 2,
            lid: 1,
            toid: 1,
        },
        place: 1,
    },
    Refused {
        event: Tried::Add {
            d: 1,
            lid: 1,
            toid: 3,
        },
        place: 2,
    },
    Refused {
        event: Tried::Add {
            d: 1,
            lid: 2,
            toid: 1,
        },
        place: 3,
    },
    Refused {
        event: Tried::Add {
            d: 1,
            lid: 1,
            toid: 2,
        },
        place: 4,
    },
    Refused {
        event: Tried::Learn {
            d: 2,
            count: Some(0),
        },
        place: 1,
    },
    Refused {
        event: Tried::Learn { d: 0, count: None },
        place: 1,
    },
    Refused {
        event: Tried::Learn {
            d: 1,
            count: Some(1),
        },
        place: 2,
    },
    Refused {
        event: Tried::Reply {
            d: 1,
            s: 0,
            k: 3,
            at: 2,
            told: Told::Put,
        },
        place: 1,
    },
    Refused {
        event: Tried::Reply {
            d: 0,
            s: 1,
            k: 1,
            at: 2,
            told: Told::Put,
        },
        place: 2,
    },
    Refused {
        event: Tried::Reply {
            d: 0,
            s: 0,
            k: 3,
            at: 1,
            told: Told::Put,
        },
        place: 3,
    },
    Refused {
        event: Tried::Reply {
            d: 0,
            s: 0,
            k: 3,
            at: 3,
            told: Told::Put,
        },
        place: 3,
    },
    Refused {
        event: Tried::Reply {
            d: 0,
            s: 0,
            k: 3,
            at: 2,
            told: Told::PutAndAbsent,
        },
        place: 4,
    },
    Refused {
        event: Tried::Reply {
            d: 0,
            s: 0,
            k: 3,
            at: 2,
            told: Told::Gone,
        },
        place: 4,
    },
    Refused {
        event: Tried::Collect { d: 2, lid: 1 },
        place: 1,
    },
    Refused {
        event: Tried::Collect { d: 0, lid: 0 },
        place: 2,
    },
    Refused {
        event: Tried::Collect { d: 0, lid: 3 },
        place: 2,
    },
    Refused {
        event: Tried::Collect { d: 0, lid: 1 },
        place: 4,
    },
];

#[test]
fn what_may_not_happen_is_refused(rt: HostRuntime) -> Result<(), Fail> {
    let alloc = rt.alloc();
    let mut log = AbstractLog::start(alloc, &workload(alloc)?)?;
    for row in &BEFORE {
        assert_eq!(rt; log.step(&row.event(alloc)?), Ok(()));
    }
    for case in &REFUSED {
        let fault = StepFault::Refused { place: case.place };
        assert_eq!(rt; log.step(&case.event.event(alloc)?), Err(fault));
    }
    Ok(())
}
