//! The words of the command line, and the status of each.

use cz_base::{MemSink, MemSource, Seq, Word};
use std::alloc::Global;
use std::process::Abort;
use std::test::Fail;
use top_calls::plain_run;

const ONE_APPEND: &[u8] = b"\
    chariots 1\n\
    datacentres 1\n\
    round 1\n\
    session A\n\
    append =hi\n\
    steps\n\
    end\n";

// Words, and the status of a call with them and a script of one append.
struct Case {
    words: &'static [&'static str],
    status: u8,
}

const CASES: [Case; 36] = [
    Case {
        words: &["replay"],
        status: 0,
    },
    Case {
        words: &["replay", "--form", "full"],
        status: 0,
    },
    Case {
        words: &["replay", "--form=full"],
        status: 0,
    },
    Case {
        words: &["--form", "full", "replay"],
        status: 0,
    },
    Case {
        words: &["--form=json", "replay"],
        status: 0,
    },
    Case {
        words: &["replay", "--form", "logs"],
        status: 0,
    },
    Case {
        words: &["replay", "--form=summary"],
        status: 0,
    },
    Case {
        words: &["replay", "--"],
        status: 0,
    },
    Case {
        words: &["gen", "0"],
        status: 0,
    },
    Case {
        words: &["gen", "--", "7"],
        status: 0,
    },
    // The script is none of a log by itself.
    Case {
        words: &["flstore"],
        status: 3,
    },
    Case {
        words: &["flstore", "--"],
        status: 3,
    },
    Case {
        words: &["flstore", "3"],
        status: 2,
    },
    Case {
        words: &["flstore", "--form", "logs"],
        status: 2,
    },
    Case {
        words: &["flstore", "replay"],
        status: 2,
    },
    Case {
        words: &["FlStore"],
        status: 2,
    },
    Case {
        words: &[],
        status: 2,
    },
    Case {
        words: &[""],
        status: 2,
    },
    Case {
        words: &["fly"],
        status: 2,
    },
    Case {
        words: &["Replay"],
        status: 2,
    },
    Case {
        words: &["replay", "--form"],
        status: 2,
    },
    Case {
        words: &["replay", "--form", ""],
        status: 2,
    },
    Case {
        words: &["replay", "--form", "text"],
        status: 2,
    },
    Case {
        words: &["replay", "--form", "full", "--form", "full"],
        status: 2,
    },
    Case {
        words: &["replay", "--forms", "full"],
        status: 2,
    },
    Case {
        words: &["replay", "3"],
        status: 2,
    },
    Case {
        words: &["replay", "replay"],
        status: 2,
    },
    Case {
        words: &["--help"],
        status: 2,
    },
    Case {
        words: &["--version"],
        status: 2,
    },
    Case {
        words: &["replay", "-h"],
        status: 2,
    },
    Case {
        words: &["gen"],
        status: 2,
    },
    Case {
        words: &["gen", "07"],
        status: 2,
    },
    Case {
        words: &["gen", "+7"],
        status: 2,
    },
    Case {
        words: &["gen", "18446744073709551616"],
        status: 2,
    },
    Case {
        words: &["gen", "7", "--form", "json"],
        status: 2,
    },
    Case {
        words: &["gen", "7", "8"],
        status: 2,
    },
];

fn ends(rt: &impl Abort, alloc: Global, case: &Case) -> Result<(), Fail> {
    let mut words = Vec::new(alloc);
    for text in case.words {
        words.push(Word::new(alloc, text)?)?;
    }
    let mut source = MemSource::new(Vec::from_slice(alloc, ONE_APPEND)?, 64, Seq::new(alloc));
    let mut sink = MemSink::new(alloc, 64, Seq::new(alloc));
    let done = plain_run(alloc, words.as_slice(), &mut source, &mut sink);
    assert_eq!(rt; done.status, case.status);
    if case.status == 2 {
        assert_eq!(rt; sink.written(), b"refused: words\n".as_slice());
    }
    Ok(())
}

#[test]
fn words_ask_for_what_they_say(rt: HostRuntime) -> Result<(), Fail> {
    for case in &CASES {
        ends(&rt, rt.alloc(), case)?;
    }
    Ok(())
}
