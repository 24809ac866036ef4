//! The four forms, each for a few scripts, byte by byte.

use command_line::Form;
use cz_base::{MemSink, MemSource, Seq, SureSink, SureSource, Word};
use std::alloc::Global;
use std::process::Abort;
use std::test::Fail;
use top_calls::{plain_run, replay_run};

const NO_SESSION: &[u8] = b"\
    chariots 1\n\
    datacentres 1\n\
    round 1\n\
    steps\n\
    end\n";

const ONE_APPEND: &[u8] = b"\
    chariots 1\n\
    datacentres 1\n\
    round 1\n\
    session A\n\
    append =hi\n\
    steps\n\
    end\n";

const ONE_APPEND_IN_FULL: &[u8] = b"\
    chariots report 1\n\
    datacentres 1\n\
    workload\n\
    session A\n\
    append =hi\n\
    stages\n\
    settling\n\
    client 0 -> submitted 1\n\
    flush A 0 -> 0.1 0 passed\n\
    pass A 0 0 -> 1\n\
    stamp A 0 -> 1 A:1 deferred 0\n\
    place A 0 0 -> 1\n\
    gossip A 0 0 -> head 1\n\
    post A 0 0 -> covered 1\n\
    learn A -> 1\n\
    trace\n\
    submit 0 1\n\
    append A 1 A:1 0 1\n\
    learn A 1\n\
    logs\n\
    log A 1\n\
    1 A:1 append 0 1 0 =hi\n\
    table A 1\n\
    replies\n\
    0 1 written 1 A:1\n\
    end\n";

// A script, a form, and the report in it.
struct Case {
    script: &'static [u8],
    form: Form,
    report: &'static [u8],
}

const CASES: [Case; 8] = [
    Case {
        script: NO_SESSION,
        form: Form::Full,
        report: b"chariots report 1\ndatacentres 1\nworkload\nstages\nsettling\ntrace\nlogs\nlog A 0\ntable A 0\nreplies\nend\n",
    },
    Case {
        script: NO_SESSION,
        form: Form::Logs,
        report: b"log A 0\nreplies\nend\n",
    },
    Case {
        script: NO_SESSION,
        form: Form::Summary,
        report: b"datacentres 1\nsessions 0\ncommands 0\nrecords 0\nevents 0\nstages 0\ngone A 0\nend\n",
    },
    Case {
        script: NO_SESSION,
        form: Form::Json,
        report: b"{\"logs\":[[]],\"replies\":[]}\n",
    },
    Case {
        script: ONE_APPEND,
        form: Form::Full,
        report: ONE_APPEND_IN_FULL,
    },
    Case {
        script: ONE_APPEND,
        form: Form::Logs,
        report: b"log A 1\n1 A:1 append 0 1 0 =hi\nreplies\n0 1 written 1 A:1\nend\n",
    },
    Case {
        script: ONE_APPEND,
        form: Form::Summary,
        report: b"datacentres 1\nsessions 1\ncommands 1\nrecords 1\nevents 3\nstages 8\ngone A 0\nend\n",
    },
    Case {
        script: ONE_APPEND,
        form: Form::Json,
        report: b"{\"logs\":[[{\"body\":\"hi\",\"deps\":[0],\"host\":\"A\",\"index\":1,\"kind\":\"append\",\"lid\":1,\"session\":0,\"tags\":[],\"toid\":1}]],\"replies\":[{\"answer\":\"written 1 A:1\",\"index\":1,\"session\":0}]}\n",
    },
];

#[test]
fn each_form_is_written(rt: HostRuntime) -> Result<(), Fail> {
    let alloc = rt.alloc();
    for case in &CASES {
        let mut source = MemSource::new(Vec::from_slice(alloc, case.script)?, 64, Seq::new(alloc));
        let mut sink = MemSink::new(alloc, 64, Seq::new(alloc));
        let done = replay_run(alloc, case.form, &mut source, &mut sink);
        assert_eq!(rt; done.status, 0);
        assert_eq!(rt; sink.written(), case.report);
    }
    Ok(())
}

// Replays the script with one append in full, one byte in each write, where this write fails.
fn full_with_fault(
    rt: &impl Abort,
    alloc: Global,
    fails: u64,
    status: u8,
    written: &[u8],
) -> Result<(), Fail> {
    let mut writes = Seq::new(alloc);
    writes.push(fails)?;
    let mut source = MemSource::new(Vec::from_slice(alloc, ONE_APPEND)?, 64, Seq::new(alloc));
    let mut sink = MemSink::new(alloc, 1, writes);
    let done = replay_run(alloc, Form::Full, &mut source, &mut sink);
    assert_eq!(rt; done.status, status);
    assert_eq!(rt; sink.written(), written);
    Ok(())
}

#[test]
fn a_sink_that_fails_has_the_bytes_before(rt: HostRuntime) -> Result<(), Fail> {
    let alloc = rt.alloc();
    for before in 0..ONE_APPEND_IN_FULL.len() {
        let call = before as u64 + 1;
        full_with_fault(&rt, alloc, call, 5, &ONE_APPEND_IN_FULL[..before])?;
    }
    let after = ONE_APPEND_IN_FULL.len() as u64 + 1;
    full_with_fault(&rt, alloc, after, 0, ONE_APPEND_IN_FULL)
}

// The summary of the script of this number.
fn generated(rt: &impl Abort, alloc: Global, number: &str) -> Result<MemSink, Fail> {
    let words = vec![in alloc; Word::new(alloc, "gen")?, Word::new(alloc, number)?]?;
    let mut source = SureSource::new(Vec::new(alloc));
    let mut sink = MemSink::new(alloc, 64, Seq::new(alloc));
    let done = plain_run(alloc, words.as_slice(), &mut source, &mut sink);
    assert_eq!(rt; done.status, 0);
    Ok(sink)
}

#[test]
fn a_generated_script_is_replayed(rt: HostRuntime) -> Result<(), Fail> {
    let alloc = rt.alloc();
    let first = generated(&rt, alloc, "7")?;
    let again = generated(&rt, alloc, "7")?;
    let other = generated(&rt, alloc, "0")?;
    assert!(rt;
        first
            .written()
            .starts_with(b"datacentres 3\nsessions 12\ncommands 1200\n")
    );
    assert_eq!(rt; first.written(), again.written());
    let same = first.written() == other.written();
    assert!(rt; !same);
    Ok(())
}

#[test]
fn nothing_fails_over_sure_streams(rt: HostRuntime) -> Result<(), Fail> {
    let alloc = rt.alloc();
    let mut source = SureSource::new(Vec::from_slice(alloc, ONE_APPEND)?);
    let done = replay_run(alloc, Form::Full, &mut source, &mut SureSink::new());
    assert_eq!(rt; done.status, 0);
    Ok(())
}
