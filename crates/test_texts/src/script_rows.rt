//! Scripts that are read, and those that are too long by one line.
use crate::fronts::{ONE_DATACENTRE, ONE_SESSION};
use abstract_log::{Command, Step};
use cz_base::limits::{MEMBERS, SESSIONS, STEPS};
use cz_base::{DcId, Seq};
use script_text::{Cause, ScriptFault, read_script};
use std::alloc::Global;
use std::process::Abort;
use std::test::Fail;

const THREE_SESSIONS: &[u8] = b"\
chariots 1
datacentres 1
round 2
stages A 1 1 1 2 1 1 1
session A
append =a
session A
append =b
read 3
session A
append =c
steps
end";

#[test]
fn sessions_stages_and_reads_are_read(rt: HostRuntime) -> Result<(), Fail> {
    let script = read_script(rt.alloc(), THREE_SESSIONS)?;
    assert_eq!(rt; script.workload.dcs, 1);
    assert_eq!(rt; script.round, 2);
    assert_eq!(rt; script.steps.len(), 0);
    for sizes in &script.sizes {
        assert_eq!(rt; sizes.maintainers, 2);
        assert_eq!(rt; sizes.queues, 1);
    }
    let mut counts = Vec::new(rt.alloc());
    for plan in &script.workload.sessions {
        counts.push(plan.commands.len())?;
    }
    assert_eq!(rt; counts.as_slice(), [1, 2, 1].as_slice());
    Ok(())
}

const EIGHT_TAGS: &[u8] = b"\
chariots 1
datacentres 1
round 1
session A
append = a b c d e f g a
steps
end
";

// The numbers of bytes and of tags of the appends.
fn appends(alloc: Global, commands: &Seq<Command>) -> Result<Vec<(usize, usize)>, Fail> {
    let mut sizes = Vec::new(alloc);
    for command in commands {
        if let Command::Append { tags, body } = command {
            sizes.push((body.as_bytes().len(), tags.len()))?;
        }
    }
    Ok(sizes)
}

#[test]
fn an_empty_body_and_eight_tags_are_read(rt: HostRuntime) -> Result<(), Fail> {
    let script = read_script(rt.alloc(), EIGHT_TAGS)?;
    for plan in &script.workload.sessions {
        let sizes = appends(rt.alloc(), &plan.commands)?;
        assert_eq!(rt; sizes.as_slice(), [(0, 8)].as_slice());
    }
    Ok(())
}

// A script whose one command appends a body of so many bytes.
fn with_body(alloc: Global, bytes: usize) -> Result<Vec<u8>, Fail> {
    let mut script = Vec::from_slice(alloc, ONE_SESSION.as_bytes())?;
    script.extend_from_slice(b"append =")?;
    script.extend_from_slice(&vec![in alloc; b'x'; bytes]?)?;
    script.extend_from_slice(b"\nsteps\nend\n")?;
    Ok(script)
}

#[test]
fn a_body_of_up_to_4096_bytes_is_read(rt: HostRuntime) -> Result<(), Fail> {
    let alloc = rt.alloc();
    for bytes in [1024, 1025, 4096] {
        let script = read_script(alloc, &with_body(alloc, bytes)?)?;
        for plan in &script.workload.sessions {
            let sizes = appends(alloc, &plan.commands)?;
            assert_eq!(rt; sizes.as_slice(), [(bytes, 0)].as_slice());
        }
    }
    Ok(())
}

#[test]
fn a_body_of_4097_bytes_is_bad(rt: HostRuntime) -> Result<(), Fail> {
    let alloc = rt.alloc();
    let fault = read_script(alloc, &with_body(alloc, 4097)?).err();
    assert_eq!(rt;
        fault,
        Some(ScriptFault::Bad {
            line: 5,
            cause: Cause::BadBody
        })
    );
    Ok(())
}

const LOOK_UPS: &[u8] = b"\
chariots 1
datacentres 1
round 1
session A
get k.1
tx a b a
last tag. 64
steps
end
";

// How many bytes the key or tag of a look-up has, and how many keys or places it asks for.
fn asks(command: &Command) -> (usize, usize) {
    match command {
        Command::Get { key } => (key.as_bytes().len(), 1),
        Command::Tx { keys } => (0, keys.len()),
        Command::Last { tag, count } => (tag.as_bytes().len(), *count as usize),
        _ => (0, 0),
    }
}

#[test]
fn look_ups_are_read(rt: HostRuntime) -> Result<(), Fail> {
    let script = read_script(rt.alloc(), LOOK_UPS)?;
    let mut asked = Vec::new(rt.alloc());
    for plan in &script.workload.sessions {
        for command in &plan.commands {
            asked.push(asks(command))?;
        }
    }
    assert_eq!(rt; asked.as_slice(), [(3, 1), (0, 3), (4, 64)].as_slice());
    Ok(())
}

const DELETED: &[u8] = b"\
chariots 1
datacentres 1
round 1
session A
put x =1
get x
del x
get x
steps
end
";

// Whether a command deletes the key.
fn deletes(command: &Command, key: &[u8]) -> bool {
    match command {
        Command::Del { key: deleted } => deleted.as_bytes() == key,
        _ => false,
    }
}

#[test]
fn a_del_is_read(rt: HostRuntime) -> Result<(), Fail> {
    let script = read_script(rt.alloc(), DELETED)?;
    let mut deleted = Vec::new(rt.alloc());
    for plan in &script.workload.sessions {
        for command in &plan.commands {
            deleted.push(deletes(command, b"x"))?;
        }
    }
    assert_eq!(rt; deleted.as_slice(), [false, false, true, false].as_slice());
    Ok(())
}

// The lines of 64 sessions, and then some text.
fn after_64_sessions(alloc: Global, text: &[u8]) -> Result<Vec<u8>, Fail> {
    let mut script = Vec::from_slice(alloc, ONE_DATACENTRE.as_bytes())?;
    for _ in 0..SESSIONS {
        script.extend_from_slice(b"session A\n")?;
    }
    script.extend_from_slice(text)?;
    Ok(script)
}

#[test]
fn sixty_four_sessions_are_read(rt: HostRuntime) -> Result<(), Fail> {
    let text = after_64_sessions(rt.alloc(), b"steps\nend\n")?;
    let script = read_script(rt.alloc(), &text)?;
    assert_eq!(rt; script.workload.sessions.len(), SESSIONS);
    Ok(())
}

#[test]
fn the_65th_session_is_refused(rt: HostRuntime) -> Result<(), Fail> {
    let one_more = after_64_sessions(rt.alloc(), b"session A\n")?;
    assert_eq!(rt;
        read_script(rt.alloc(), &one_more).err(),
        Some(ScriptFault::Bad {
            line: 68,
            cause: Cause::TooMany
        })
    );
    let elsewhere = after_64_sessions(rt.alloc(), b"session B\n")?;
    assert_eq!(rt;
        read_script(rt.alloc(), &elsewhere).err(),
        Some(ScriptFault::Bad {
            line: 68,
            cause: Cause::BadDatacentre
        })
    );
    Ok(())
}

const EACH_TURN: &[u8] = b"\
chariots 1
datacentres 3
round 4
stages B 2 3 4 5 16 6 16
session C
put k.1 =v
steps
client 0
flush A 0
pass B 1 15
stamp C 2
token A
place A 3 4
gossip A 5 6
post B 7 15
learn A
send A 7 C
deliver A B 1 8
lose C A 64
copy B C 9
floor C 4294967295
collect A 9
announce A C 4294967295
mark A
addmaintainer B 4294967295
addbatcher A
addqueue C
addsender C
addreceiver A
upgrade B
end
";

// The datacentre with a number below 8.
fn datacentre(number: u32) -> DcId {
    DcId::new(number).unwrap_or(DcId::FIRST)
}

#[test]
fn each_turn_is_read(rt: HostRuntime) -> Result<(), Fail> {
    let script = read_script(rt.alloc(), EACH_TURN)?;
    let (a, b, c) = (datacentre(0), datacentre(1), datacentre(2));
    let steps = [
        Step::Client { s: 0 },
        Step::Flush { d: a, b: 0 },
        Step::Pass { d: b, f: 1, q: 15 },
        Step::Stamp { d: c, q: 2 },
        Step::Token { d: a },
        Step::Place { d: a, q: 3, m: 4 },
        Step::Gossip { d: a, m: 5, k: 6 },
        Step::Post { d: b, m: 7, i: 15 },
        Step::Learn { d: a },
        Step::Send { d: a, k: 7, e: c },
        Step::Deliver {
            d: a,
            e: b,
            k: 1,
            r: 8,
        },
        Step::Lose { d: c, e: a, k: 64 },
        Step::Copy { d: b, e: c, k: 9 },
        Step::Floor {
            d: c,
            p: 4294967295,
        },
        Step::Collect { d: a, m: 9 },
        Step::Announce {
            d: a,
            h: c,
            t: 4294967295,
        },
        Step::Mark { d: a },
        Step::AddMaintainer {
            d: b,
            p: 4294967295,
        },
        Step::AddBatcher { d: a },
        Step::AddQueue { d: c },
        Step::AddSender { d: c },
        Step::AddReceiver { d: a },
        Step::Upgrade { d: b },
    ];
    assert_eq!(rt; script.steps.as_slice(), steps.as_slice());
    assert_eq!(rt; script.workload.dcs, 3);
    let mut members = Vec::new(rt.alloc());
    for sizes in &script.sizes {
        members.push((sizes.batchers, sizes.indexers, sizes.receivers))?;
    }
    assert_eq!(rt;
        members.as_slice(),
        [(1, 1, 1), (2, 16, 16), (1, 1, 1)].as_slice()
    );
    Ok(())
}

// A script with so many step lines.
fn with_steps(alloc: Global, count: usize) -> Result<Vec<u8>, Fail> {
    let mut script = Vec::from_slice(alloc, ONE_DATACENTRE.as_bytes())?;
    script.extend_from_slice(b"steps\n")?;
    for _ in 0..count {
        script.extend_from_slice(b"learn A\n")?;
    }
    Ok(script)
}

#[test]
fn the_65537th_step_line_is_refused(rt: HostRuntime) -> Result<(), Fail> {
    let mut text = with_steps(rt.alloc(), STEPS)?;
    text.extend_from_slice(b"end\n")?;
    let script = read_script(rt.alloc(), &text)?;
    assert_eq!(rt; script.steps.len(), STEPS);
    let one_more = with_steps(rt.alloc(), STEPS + 1)?;
    assert_eq!(rt;
        read_script(rt.alloc(), &one_more).err(),
        Some(ScriptFault::Bad {
            line: 65541,
            cause: Cause::TooMany
        })
    );
    Ok(())
}

// A script of three datacentres with two members of each stage at B, and then so many times some line.
fn with_additions(alloc: Global, line: &str, count: usize) -> Result<Vec<u8>, Fail> {
    let mut script = Vec::from_slice(alloc, TWO_OF_EACH.as_bytes())?;
    for _ in 0..count {
        script.extend_from_slice(line.as_bytes())?;
    }
    Ok(script)
}

const TWO_OF_EACH: &str = "\
chariots 1
datacentres 3
round 1
stages B 2 2 2 2 2 2 2
steps
";

// Lines that each add one member to a stage of B, where there are two at the start.
const ADDITIONS: [&str; 6] = [
    "announce B A 1\n",
    "addmaintainer B 1\n",
    "addbatcher B\n",
    "addqueue B\n",
    "addsender B\n",
    "addreceiver B\n",
];

#[test]
fn the_16th_member_is_read(rt: HostRuntime) -> Result<(), Fail> {
    for line in &ADDITIONS {
        let mut text = with_additions(rt.alloc(), line, MEMBERS - 2)?;
        text.extend_from_slice(b"end\n")?;
        let script = read_script(rt.alloc(), &text)?;
        assert_eq!(rt; script.steps.len(), MEMBERS - 2);
    }
    Ok(())
}

#[test]
fn the_17th_member_is_refused(rt: HostRuntime) -> Result<(), Fail> {
    for line in &ADDITIONS {
        let text = with_additions(rt.alloc(), line, MEMBERS - 1)?;
        assert_eq!(rt;
            read_script(rt.alloc(), &text).err(),
            Some(ScriptFault::Bad {
                line: 20,
                cause: Cause::TooMany
            })
        );
    }
    Ok(())
}

// Filters of one datacentre are counted whatever host they serve, and those of others apart.
const FILTERS_OF_TWO: &str = "announce B A 1\nannounce B C 1\nannounce C A 1\naddqueue B\n";

#[test]
fn additions_are_counted_for_each_stage(rt: HostRuntime) -> Result<(), Fail> {
    let mut text = with_additions(rt.alloc(), FILTERS_OF_TWO, 7)?;
    text.extend_from_slice(b"announce C B 1\nannounce B C 2\n")?;
    assert_eq!(rt;
        read_script(rt.alloc(), &text).err(),
        Some(ScriptFault::Bad {
            line: 35,
            cause: Cause::TooMany
        })
    );
    Ok(())
}
