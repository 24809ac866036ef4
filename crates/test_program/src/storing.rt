//! Logs by themselves: the texts of their runs, and what is written where there is none.

use crate::statuses::{Case, ends};
use cz_base::{SureSink, SureSource};
use std::test::Fail;
use top_calls::flstore_run;

// A value waits, goes in when it is released, and is read once the head has passed it.
const RELEASED: &[u8] = b"\
    flstore 1\n\
    round 2\n\
    maintainers 2\n\
    put 0 =a\n\
    put 1 =b\n\
    after 0 4 =c\n\
    put 0 =d\n\
    put 0 =e\n\
    head 0\n\
    gossip 1 0\n\
    read 0 3\n\
    read 0 5\n\
    end\n";

// A value waits to the end.
const WAITING: &[u8] = b"\
    flstore 1\n\
    round 1\n\
    maintainers 1\n\
    after 0 9 =a\n\
    head 0\n\
    end\n";

// A maintainer that is not there, an epoch that is late, and one that is not.
const EPOCHS: &[u8] = b"\
    flstore 1\n\
    round 1\n\
    maintainers 2\n\
    put 1 =a\n\
    head 1\n\
    put 7 =b\n\
    addmaintainer 2\n\
    addmaintainer 3\n\
    end\n";

const SEVENTEEN: &[u8] = b"\
    flstore 1\n\
    round 1\n\
    maintainers 16\n\
    addmaintainer 2\n\
    end\n";

const CASES: [Case; 11] = [
    Case {
        word: "flstore",
        script: RELEASED,
        read_fails: 0,
        write_fails: 0,
        status: 0,
        written: b"put 0 -> 1\nput 1 -> 3\nafter 0 4 -> kept\nput 0 -> 2 released 5\nput 0 -> 6\nhead 0 -> 2\ngossip 1 0 -> head 3\nread 0 3 -> =b\nread 0 5 -> beyond\nlog\n1 1 =a\n2 4 =d\n3 2 =b\n5 3 =c\n6 5 =e\nkept\nend\n",
    },
    Case {
        word: "flstore",
        script: WAITING,
        read_fails: 0,
        write_fails: 0,
        status: 0,
        written: b"after 0 9 -> kept\nhead 0 -> 0\nlog\nkept\n1 0 9\nend\n",
    },
    Case {
        word: "flstore",
        script: EPOCHS,
        read_fails: 0,
        write_fails: 0,
        status: 0,
        written: b"put 1 -> 2\nhead 1 -> 0\nput 7 -> none\naddmaintainer 2 -> late 2\naddmaintainer 3 -> epoch 3 3\nlog\n2 1 =a\nkept\nend\n",
    },
    Case {
        word: "flstore",
        script: b"",
        read_fails: 0,
        write_fails: 0,
        status: 3,
        written: b"refused: line 1: too short\n",
    },
    Case {
        word: "flstore",
        script: b"chariots 1\n",
        read_fails: 0,
        write_fails: 0,
        status: 3,
        written: b"refused: line 1: unknown word\n",
    },
    Case {
        word: "replay",
        script: WAITING,
        read_fails: 0,
        write_fails: 0,
        status: 3,
        written: b"refused: line 1: unknown word\n",
    },
    Case {
        word: "flstore",
        script: SEVENTEEN,
        read_fails: 0,
        write_fails: 0,
        status: 3,
        written: b"refused: line 4: too many\n",
    },
    Case {
        word: "flstore",
        script: WAITING,
        read_fails: 2,
        write_fails: 0,
        status: 4,
        written: b"refused: read fault\n",
    },
    Case {
        word: "flstore",
        script: WAITING,
        read_fails: 0,
        write_fails: 2,
        status: 5,
        written: b"after 0 9 ",
    },
    Case {
        word: "flstore",
        script: b"",
        read_fails: 0,
        write_fails: 2,
        status: 3,
        written: b"refused: l",
    },
    Case {
        word: "flstore",
        script: WAITING,
        read_fails: 1,
        write_fails: 1,
        status: 4,
        written: b"",
    },
];

#[test]
fn a_log_by_itself_is_told(rt: HostRuntime) -> Result<(), Fail> {
    for case in &CASES {
        ends(&rt, rt.alloc(), case)?;
    }
    Ok(())
}

#[test]
fn no_run_of_sessions_is_told_of_it(rt: HostRuntime) -> Result<(), Fail> {
    let alloc = rt.alloc();
    let mut source = SureSource::new(Vec::from_slice(alloc, RELEASED)?);
    let done = flstore_run(alloc, &mut source, &mut SureSink::new());
    assert_eq!(rt; done.status, 0);
    assert!(rt; done.run.is_none() && done.stages.is_none());
    Ok(())
}
