//! Two datacentres of which one goes over to wire form 2, and a body that asks for that form by its length.

use crate::playing::play;
use report_text::{full, logs};
use std::alloc::Global;
use std::process::Abort;
use std::test::Fail;

// What comes before the first message of A.
const PLACED: &str = "\
chariots 1
datacentres 2
round 1
session A
put x =1
steps
client 0
flush A 0
pass A 0 0
stamp A 0
place A 0 0
";

// A goes over to form 2 before its first message, and is told so twice.
const UPGRADED: &str = "\
upgrade A
upgrade A
";

// The message comes three times.
const SENT: &str = "\
send A 0 B
copy A B 1
copy A B 1
deliver A B 1 0
deliver A B 1 0
deliver A B 1 0
flush B 0
pass B 0 0
stamp B 0
end
";

const REPORT: &str = "\
chariots report 1
datacentres 2
workload
session A
put x =1
stages
client 0 -> submitted 1
flush A 0 -> 0.1 0 passed
pass A 0 0 -> 1
stamp A 0 -> 1 A:1 deferred 0
place A 0 0 -> 1
";

const REPORT_UPGRADED: &str = "\
upgrade A -> form 2
upgrade A -> form 2
";

const REPORT_SENT: &str = "\
send A 0 B -> A:1 link 1
copy A B 1 -> link 2
copy A B 1 -> link 3
deliver A B 1 0 -> A:1
deliver A B 1 0 -> A:1
deliver A B 1 0 -> A:1
flush B 0 -> A:1 0 passed A:1 0 dropped A:1 0 dropped
pass B 0 0 -> 1
stamp B 0 -> 1 A:1 deferred 0
settling
gossip A 0 0 -> head 1
post A 0 0 -> covered 1
learn A -> 1,0
place B 0 0 -> 1
gossip B 0 0 -> head 1
post B 0 0 -> covered 1
learn B -> 1,0
trace
submit 0 1
append A 1 A:1 0 1
receive B A 0,0;0,0 A:1
receive B A 0,0;0,0 A:1
receive B A 0,0;0,0 A:1
add B 1 A:1
learn A 1,0
learn B 1,0
logs
log A 1
1 A:1 put 0 1 0,0 =1 x
table A 1,0;0,0
log B 1
1 A:1 put 0 1 0,0 =1 x
table B 0,0;1,0
replies
0 1 written 1 A:1
end
";

// The texts, one after the other.
fn joined(alloc: Global, texts: &[&str]) -> Result<Vec<u8>, Fail> {
    let mut bytes = Vec::new(alloc);
    for text in texts {
        bytes.extend_from_slice(text.as_bytes())?;
    }
    Ok(bytes)
}

// A script's whole report is the expected one.
fn reports(rt: &impl Abort, alloc: Global, script: &[&str], expected: &[&str]) -> Result<(), Fail> {
    let played = play(alloc, &joined(alloc, script)?)?;
    let report = full(alloc, &played.run, Some(&played.stages), &played.left)?;
    assert!(rt; report.as_slice() == joined(alloc, expected)?.as_slice());
    Ok(())
}

#[test]
fn an_upgrade_adds_its_lines_alone(rt: HostRuntime) -> Result<(), Fail> {
    let alloc = rt.alloc();
    reports(&rt, alloc, &[PLACED, SENT], &[REPORT, REPORT_SENT])?;
    reports(
        &rt,
        alloc,
        &[PLACED, UPGRADED, SENT],
        &[REPORT, REPORT_UPGRADED, REPORT_SENT],
    )
}

const LONG: &str = "chariots 1\ndatacentres 2\nround 1\nsession A\nappend =";

// A script that appends a body of so many bytes at A, without an upgrade.
fn with_body(alloc: Global, bytes: usize) -> Result<Vec<u8>, Fail> {
    let mut script = Vec::from_slice(alloc, LONG.as_bytes())?;
    script.extend_from_slice(&vec![in alloc; b'b'; bytes]?)?;
    script.extend_from_slice(b"\nsteps\nend\n")?;
    Ok(script)
}

// Its logs and replies: the record stands in both logs.
fn logs_with_body(alloc: Global, bytes: usize) -> Result<Vec<u8>, Fail> {
    let mut text = Vec::new(alloc);
    for log in ["log A 1\n", "log B 1\n"] {
        text.extend_from_slice(log.as_bytes())?;
        text.extend_from_slice(b"1 A:1 append 0 1 0,0 =")?;
        text.extend_from_slice(&vec![in alloc; b'b'; bytes]?)?;
        text.extend_from_slice(b"\n")?;
    }
    text.extend_from_slice(b"replies\n0 1 written 1 A:1\nend\n")?;
    Ok(text)
}

#[test]
fn a_long_body_is_sent_without_an_upgrade(rt: HostRuntime) -> Result<(), Fail> {
    let alloc = rt.alloc();
    for bytes in [1024, 1025, 4096] {
        let played = play(alloc, &with_body(alloc, bytes)?)?;
        let text = logs(alloc, &played.run, &played.left)?;
        assert!(rt; text.as_slice() == logs_with_body(alloc, bytes)?.as_slice());
    }
    Ok(())
}
