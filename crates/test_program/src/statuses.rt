//! The statuses of the program, and what it writes where a stream or the memory fails.

use cz_base::{MemSink, MemSource, OpenGate, Seq, Word};
use std::alloc::Global;
use std::process::Abort;
use std::test::Fail;
use top_calls::{SCRIPT_LIMIT, chariots, plain_run};

const NO_SESSION: &[u8] = b"\
    chariots 1\n\
    datacentres 1\n\
    round 1\n\
    steps\n\
    end";

const ONE_APPEND: &[u8] = b"\
    chariots 1\n\
    datacentres 1\n\
    round 1\n\
    session A\n\
    append =hi\n\
    steps\n\
    end\n";

const ONE_GET: &[u8] = b"\
    chariots 1\n\
    datacentres 1\n\
    round 1\n\
    session A\n\
    get x\n\
    steps\n\
    end\n";

const ONE_MARK: &[u8] = b"\
    chariots 1\n\
    datacentres 1\n\
    round 1\n\
    steps\n\
    mark A\n\
    end\n";

// Two queues are added where there is room for one.
const SEVENTEEN_QUEUES: &[u8] = b"\
    chariots 1\n\
    datacentres 1\n\
    round 1\n\
    stages A 1 1 15 1 1 1 1\n\
    steps\n\
    addqueue A\n\
    addqueue A\n\
    end\n";

const SEVENTEEN_KEYS: &[u8] = b"\
    chariots 1\n\
    datacentres 1\n\
    round 1\n\
    session A\n\
    tx a b a a a a a a a a a a a a a a a\n\
    steps\n\
    end\n";

const TWO_MAINTAINERS: &[u8] = b"\
    chariots 1\n\
    datacentres 1\n\
    round 2\n\
    stages A 1 1 1 2 1 1 1\n\
    session A\n\
    append =a\n\
    session A\n\
    append =b\n\
    read 3\n\
    session A\n\
    append =c\n\
    steps\n\
    end\n";

const READ_BEYOND: &[u8] = b"\
    chariots 1\n\
    datacentres 1\n\
    round 2\n\
    stages A 1 1 1 2 1 1 1\n\
    session A\n\
    append =a\n\
    session A\n\
    append =b\n\
    read 5\n\
    session A\n\
    append =c\n\
    steps\n\
    end\n";

// A record with tags, read twice: before its session's own write is in the log, and after it.
const TAGGED: &[u8] = b"\
    # two sessions\n\
    chariots 1\n\
    datacentres 1\n\
    round 1\n\
    \n\
    session A\n\
    append =x t u\n\
    read 1\n\
    session A\n\
    read 1\n\
    read 1\n\
    steps\n\
    end";

const SPACED: &[u8] = b"\
    chariots 1\n\
    datacentres 1\n\
    round  1\n\
    steps\n\
    end\n";

const TWICE: &[u8] = b"\
    chariots 1\n\
    datacentres 1\n\
    round 1\n\
    stages A 1 1 1 2 1 1 1\n\
    stages A 1 1 1 2 1 1 1\n\
    steps\n\
    end\n";

const AFTER_END: &[u8] = b"\
    chariots 1\n\
    datacentres 1\n\
    round 1\n\
    steps\n\
    end\n\
    # a comment\n\
    end\n";

const READ_0: &[u8] = b"\
    chariots 1\n\
    datacentres 1\n\
    round 1\n\
    session A\n\
    read 0\n\
    steps\n\
    end\n";

const NINE_DATACENTRES: &[u8] = b"\
    chariots 1\n\
    datacentres 9\n\
    round 1\n\
    steps\n\
    end\n";

const TWO_DATACENTRES: &[u8] = b"\
    chariots 1\n\
    datacentres 2\n\
    round 1\n\
    steps\n\
    end\n";

// Only settling brings the record into the log, and to the other datacentre.
const TOLD_TO_ANOTHER: &[u8] = b"\
    chariots 1\n\
    datacentres 2\n\
    round 1\n\
    session A\n\
    append =hi\n\
    steps\n\
    end\n";

const UNKNOWN: &[u8] = b"\
    chariots 1\n\
    datacentres 1\n\
    round 1\n\
    session A\n\
    appends =x\n\
    steps\n\
    end\n";

/// A script, the words and which calls fail, and what the program then ends with and writes.
pub struct Case {
    pub word: &'static str,
    pub script: &'static [u8],
    pub read_fails: u64,
    pub write_fails: u64,
    pub status: u8,
    pub written: &'static [u8],
}

const CASES: [Case; 22] = [
    Case {
        word: "replay",
        script: NO_SESSION,
        read_fails: 0,
        write_fails: 0,
        status: 0,
        written: b"log A 0\nreplies\nend\n",
    },
    Case {
        word: "replay",
        script: ONE_APPEND,
        read_fails: 0,
        write_fails: 0,
        status: 0,
        written: b"log A 1\n1 A:1 append 0 1 0 =hi\nreplies\n0 1 written 1 A:1\nend\n",
    },
    Case {
        word: "replay",
        script: ONE_GET,
        read_fails: 0,
        write_fails: 0,
        status: 0,
        written: b"log A 0\nreplies\n0 1 at 0 absent\nend\n",
    },
    Case {
        word: "replay",
        script: ONE_MARK,
        read_fails: 0,
        write_fails: 0,
        status: 0,
        written: b"log A 0\nreplies\nend\n",
    },
    Case {
        word: "replay",
        script: SEVENTEEN_QUEUES,
        read_fails: 0,
        write_fails: 0,
        status: 3,
        written: b"refused: line 7: too many\n",
    },
    Case {
        word: "replay",
        script: SEVENTEEN_KEYS,
        read_fails: 0,
        write_fails: 0,
        status: 3,
        written: b"refused: line 5: wrong number of words\n",
    },
    Case {
        word: "replay",
        script: b"",
        read_fails: 0,
        write_fails: 0,
        status: 3,
        written: b"refused: line 1: too short\n",
    },
    Case {
        word: "replay",
        script: TWO_MAINTAINERS,
        read_fails: 0,
        write_fails: 0,
        status: 0,
        written: b"log A 3\n1 A:1 append 0 1 0 =a\n2 A:2 append 1 1 1 =b\n3 A:3 append 2 1 2 =c\nreplies\n0 1 written 1 A:1\n1 1 written 2 A:2\n1 2 at 3 record 3 A:3 append =c\n2 1 written 3 A:3\nend\n",
    },
    Case {
        word: "replay",
        script: READ_BEYOND,
        read_fails: 0,
        write_fails: 0,
        status: 0,
        written: b"log A 3\n1 A:1 append 0 1 0 =a\n2 A:2 append 1 1 1 =b\n3 A:3 append 2 1 2 =c\nreplies\n0 1 written 1 A:1\n1 1 written 2 A:2\n1 2 at 3 beyond\n2 1 written 3 A:3\nend\n",
    },
    Case {
        word: "replay",
        script: TAGGED,
        read_fails: 0,
        write_fails: 0,
        status: 0,
        written: b"log A 1\n1 A:1 append 0 1 0 =x t u\nreplies\n0 1 written 1 A:1\n0 2 at 1 record 1 A:1 append =x t u\n1 1 at 0 beyond\n1 2 at 1 record 1 A:1 append =x t u\nend\n",
    },
    Case {
        word: "replay",
        script: SPACED,
        read_fails: 0,
        write_fails: 0,
        status: 3,
        written: b"refused: line 3: bad spacing\n",
    },
    Case {
        word: "replay",
        script: TWICE,
        read_fails: 0,
        write_fails: 0,
        status: 3,
        written: b"refused: line 5: given twice\n",
    },
    Case {
        word: "replay",
        script: AFTER_END,
        read_fails: 0,
        write_fails: 0,
        status: 3,
        written: b"refused: line 7: after end\n",
    },
    Case {
        word: "replay",
        script: READ_0,
        read_fails: 0,
        write_fails: 0,
        status: 3,
        written: b"refused: line 5: out of range\n",
    },
    Case {
        word: "replay",
        script: NINE_DATACENTRES,
        read_fails: 0,
        write_fails: 0,
        status: 3,
        written: b"refused: line 2: out of range\n",
    },
    Case {
        word: "replay",
        script: TWO_DATACENTRES,
        read_fails: 0,
        write_fails: 0,
        status: 0,
        written: b"log A 0\nlog B 0\nreplies\nend\n",
    },
    Case {
        word: "replay",
        script: TOLD_TO_ANOTHER,
        read_fails: 0,
        write_fails: 0,
        status: 0,
        written: b"log A 1\n1 A:1 append 0 1 0,0 =hi\nlog B 1\n1 A:1 append 0 1 0,0 =hi\nreplies\n0 1 written 1 A:1\nend\n",
    },
    Case {
        word: "replay",
        script: UNKNOWN,
        read_fails: 0,
        write_fails: 0,
        status: 3,
        written: b"refused: line 5: unknown word\n",
    },
    Case {
        word: "replay",
        script: NO_SESSION,
        read_fails: 0,
        write_fails: 2,
        status: 5,
        written: b"log A 0\nre",
    },
    Case {
        word: "replay",
        script: NO_SESSION,
        read_fails: 1,
        write_fails: 0,
        status: 4,
        written: b"refused: read fault\n",
    },
    Case {
        word: "fly",
        script: NO_SESSION,
        read_fails: 0,
        write_fails: 0,
        status: 2,
        written: b"refused: words\n",
    },
    Case {
        word: "fly",
        script: NO_SESSION,
        read_fails: 0,
        write_fails: 1,
        status: 2,
        written: b"",
    },
];

/// Whether a call ends and writes as its case says.
pub fn ends(rt: &impl Abort, alloc: Global, case: &Case) -> Result<(), Fail> {
    let mut read_fails = Seq::new(alloc);
    read_fails.push(case.read_fails)?;
    let mut write_fails = Seq::new(alloc);
    write_fails.push(case.write_fails)?;
    let script = Vec::from_slice(alloc, case.script)?;
    let mut source = MemSource::new(script, 7, read_fails);
    let mut sink = MemSink::new(alloc, 10, write_fails);
    let words = vec![in alloc; Word::new(alloc, case.word)?]?;
    let done = plain_run(alloc, words.as_slice(), &mut source, &mut sink);
    assert_eq!(rt; done.status, case.status);
    assert_eq!(rt; sink.written(), case.written);
    Ok(())
}

#[test]
fn ends_as_it_is_asked(rt: HostRuntime) -> Result<(), Fail> {
    for case in &CASES {
        ends(&rt, rt.alloc(), case)?;
    }
    Ok(())
}

#[test]
fn the_top_call_replays(rt: HostRuntime) -> Result<(), Fail> {
    let alloc = rt.alloc();
    let mut source = MemSource::new(Vec::from_slice(alloc, ONE_APPEND)?, 64, Seq::new(alloc));
    let mut sink = MemSink::new(alloc, 64, Seq::new(alloc));
    let words = vec![in alloc; Word::new(alloc, "replay")?]?;
    let done = chariots(
        &rt,
        alloc,
        words.as_slice(),
        &mut source,
        &mut sink,
        &OpenGate,
    );
    assert_eq!(rt; done.status, 0);
    Ok(())
}

const ONE_APPEND_REPORT: &[u8] = b"\
    log A 1\n\
    1 A:1 append 0 1 0 =hi\n\
    replies\n\
    0 1 written 1 A:1\n\
    end\n";

// Replays the script with one append, one byte in each call, where these calls fail.
fn bytewise(
    rt: &impl Abort,
    alloc: Global,
    read_fails: u64,
    write_fails: u64,
    status: u8,
    written: &[u8],
) -> Result<(), Fail> {
    let mut reads = Seq::new(alloc);
    reads.push(read_fails)?;
    let mut writes = Seq::new(alloc);
    writes.push(write_fails)?;
    let mut source = MemSource::new(Vec::from_slice(alloc, ONE_APPEND)?, 1, reads);
    let mut sink = MemSink::new(alloc, 1, writes);
    let words = vec![in alloc; Word::new(alloc, "replay")?]?;
    let done = plain_run(alloc, words.as_slice(), &mut source, &mut sink);
    assert_eq!(rt; done.status, status);
    assert_eq!(rt; sink.written(), written);
    Ok(())
}

#[test]
fn each_read_fails_in_turn(rt: HostRuntime) -> Result<(), Fail> {
    for call in 1..=ONE_APPEND.len() as u64 + 1 {
        bytewise(&rt, rt.alloc(), call, 0, 4, b"refused: read fault\n")?;
    }
    bytewise(
        &rt,
        rt.alloc(),
        ONE_APPEND.len() as u64 + 2,
        0,
        0,
        ONE_APPEND_REPORT,
    )
}

#[test]
fn each_write_fails_in_turn(rt: HostRuntime) -> Result<(), Fail> {
    for before in 0..ONE_APPEND_REPORT.len() {
        let call = before as u64 + 1;
        bytewise(&rt, rt.alloc(), 0, call, 5, &ONE_APPEND_REPORT[..before])?;
    }
    bytewise(
        &rt,
        rt.alloc(),
        0,
        ONE_APPEND_REPORT.len() as u64 + 1,
        0,
        ONE_APPEND_REPORT,
    )
}

#[test]
fn one_byte_more_than_the_limit_is_too_long(rt: HostRuntime) -> Result<(), Fail> {
    let alloc = rt.alloc();
    let bytes = vec![in alloc; b'#'; SCRIPT_LIMIT + 1]?;
    let mut source = MemSource::new(bytes, usize::MAX, Seq::new(alloc));
    let mut sink = MemSink::new(alloc, 64, Seq::new(alloc));
    let words = vec![in alloc; Word::new(alloc, "replay")?]?;
    let done = plain_run(alloc, words.as_slice(), &mut source, &mut sink);
    assert_eq!(rt; done.status, 3);
    assert_eq!(rt; sink.written(), b"refused: too long\n".as_slice());
    Ok(())
}
