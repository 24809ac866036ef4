//! Scripts that are refused at a line, and sinks that take a report in pieces.

ghost use Rattle.std.specs.Prelude.{◌<◌};

use cz_base::{MemSink, MemSource, Seq, Word};
use std::alloc::Global;
use std::process::Abort;
use std::test::Fail;
use top_calls::plain_run;

// A script that is refused, and what is written of it.
struct Refused {
    script: &'static [u8],
    written: &'static [u8],
}

const REFUSED: [Refused; 13] = [
    Refused {
        script: b"chariots 1\ndatacentres 1\nround 1\n",
        written: b"refused: line 4: too short\n",
    },
    Refused {
        script: b"chariots 1\r\n",
        written: b"refused: line 1: bad byte\n",
    },
    Refused {
        script: b"chariots  1\n",
        written: b"refused: line 1: bad spacing\n",
    },
    Refused {
        script: b"chariots 1 \n",
        written: b"refused: line 1: bad spacing\n",
    },
    Refused {
        script: b"chariots 2\n",
        written: b"refused: line 1: out of range\n",
    },
    Refused {
        script: b"chariots 1\ndatacentres 01\n",
        written: b"refused: line 2: bad number\n",
    },
    Refused {
        script: b"chariots 1\ndatacentres 9\n",
        written: b"refused: line 2: out of range\n",
    },
    Refused {
        script: b"chariots 1\ndatacentres 1\nround 1\nsession B\n",
        written: b"refused: line 4: bad datacentre\n",
    },
    Refused {
        script: b"chariots 1\ndatacentres 1\nround 1\nget x\n",
        written: b"refused: line 4: out of place\n",
    },
    Refused {
        script: b"chariots 1\ndatacentres 1\nround 1\nfly\n",
        written: b"refused: line 4: unknown word\n",
    },
    Refused {
        script: b"chariots 1\ndatacentres 1\nround 1\nsession A\nread 0\n",
        written: b"refused: line 5: out of range\n",
    },
    Refused {
        script: b"chariots 1\ndatacentres 1\nround 1\nsteps\nclient 0\n",
        written: b"refused: line 5: out of range\n",
    },
    Refused {
        script: b"chariots 1\ndatacentres 1\nround 1\nsteps\nend\nend\n",
        written: b"refused: line 6: after end\n",
    },
];

// Replays a script into a sink that takes so many bytes a call, and fails at one call.
fn ends(
    rt: &impl Abort,
    alloc: Global,
    script: &[u8],
    most: usize,
    write_fails: u64,
    status: u8,
    written: &[u8],
) -> Result<(), Fail>
    requires { 0 < most }
{
    let mut fails = Seq::new(alloc);
    fails.push(write_fails)?;
    let mut source = MemSource::new(Vec::from_slice(alloc, script)?, 64, Seq::new(alloc));
    let mut sink = MemSink::new(alloc, most, fails);
    let words = vec![in alloc; Word::new(alloc, "replay")?]?;
    let done = plain_run(alloc, words.as_slice(), &mut source, &mut sink);
    assert_eq!(rt; done.status, status);
    assert_eq!(rt; sink.written(), written);
    assert_eq!(rt; done.run.is_some(), status == 0 || status == 5);
    assert_eq!(rt; done.stages.is_some(), status == 0 || status == 5);
    Ok(())
}

#[test]
fn each_broken_script_is_refused_at_its_line(rt: HostRuntime) -> Result<(), Fail> {
    for row in &REFUSED {
        ends(&rt, rt.alloc(), row.script, 64, 0, 3, row.written)?;
    }
    Ok(())
}

const SCRIPT: &[u8] = b"\
    chariots 1\n\
    datacentres 1\n\
    round 1\n\
    session A\n\
    append =hi\n\
    steps\n\
    end\n";

const REPORT: &[u8] = b"\
    log A 1\n\
    1 A:1 append 0 1 0 =hi\n\
    replies\n\
    0 1 written 1 A:1\n\
    end\n";

// Each write is handed all that is left: a sink that takes so many bytes a call is called as seldom as can be.
#[test]
fn a_report_is_written_in_as_few_calls_as_can_be(rt: HostRuntime) -> Result<(), Fail> {
    for most in 1..=REPORT.len() {
        let calls = REPORT.len().div_ceil(most);
        let before = ((calls - 1) * most).min(REPORT.len());
        let last = calls as u64;
        ends(&rt, rt.alloc(), SCRIPT, most, last, 5, &REPORT[..before])?;
        ends(&rt, rt.alloc(), SCRIPT, most, last + 1, 0, REPORT)?;
    }
    Ok(())
}

// A refusal keeps its status where the sink fails.
#[test]
fn a_refusal_is_cut_where_the_sink_fails(rt: HostRuntime) -> Result<(), Fail> {
    ends(&rt, rt.alloc(), b"", 10, 2, 3, b"refused: l")
}
