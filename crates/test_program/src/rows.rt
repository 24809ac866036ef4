//! Scripts of sessions that share a log, and the answers of each command.

use abstract_log::StageLog;
use cz_base::{MemSink, MemSource, Seq, Word};
use std::alloc::Global;
use std::process::Abort;
use std::test::Fail;
use top_calls::{Done, plain_run};

// A value is read elsewhere, and what is put after it waits for it.
const ACROSS: &[u8] = b"\
    chariots 1\n\
    datacentres 3\n\
    round 1\n\
    session A\n\
    put x =1\n\
    session B\n\
    get x\n\
    put y =2\n\
    steps\n\
    client 0\n\
    flush A 0\n\
    pass A 0 0\n\
    stamp A 0\n\
    place A 0 0\n\
    send A 0 B\n\
    deliver A B 1 0\n\
    flush B 0\n\
    pass B 0 0\n\
    stamp B 0\n\
    place B 0 0\n\
    gossip B 0 0\n\
    post B 0 0\n\
    client 1\n\
    client 1\n\
    flush B 0\n\
    pass B 0 0\n\
    stamp B 0\n\
    place B 0 0\n\
    send B 0 C\n\
    deliver B C 1 0\n\
    flush C 0\n\
    pass C 0 0\n\
    stamp C 0\n\
    send A 0 C\n\
    deliver A C 1 0\n\
    flush C 0\n\
    pass C 0 0\n\
    stamp C 0\n\
    end\n";

// A get waits for the head, and then for the indexer.
const BEHIND: &[u8] = b"\
    chariots 1\n\
    datacentres 1\n\
    round 1\n\
    session A\n\
    put x =1\n\
    get x\n\
    steps\n\
    client 0\n\
    flush A 0\n\
    pass A 0 0\n\
    stamp A 0\n\
    client 0\n\
    place A 0 0\n\
    gossip A 0 0\n\
    client 0\n\
    post A 0 0\n\
    client 0\n\
    end\n";

// A transaction holds the floor down, so that both its keys are read at one position.
const COLLECTED: &[u8] = b"\
    chariots 1\n\
    datacentres 1\n\
    round 1\n\
    session A\n\
    put x =1\n\
    put y =1\n\
    put x =2\n\
    session A\n\
    tx y x\n\
    steps\n\
    client 0\n\
    flush A 0\n\
    pass A 0 0\n\
    stamp A 0\n\
    client 0\n\
    flush A 0\n\
    pass A 0 0\n\
    stamp A 0\n\
    place A 0 0\n\
    gossip A 0 0\n\
    post A 0 0\n\
    client 1\n\
    client 0\n\
    flush A 0\n\
    pass A 0 0\n\
    stamp A 0\n\
    place A 0 0\n\
    gossip A 0 0\n\
    post A 0 0\n\
    learn A\n\
    floor A 3\n\
    collect A 0\n\
    client 1\n\
    floor A 3\n\
    collect A 0\n\
    end\n";

// Each datacentre reads its own value.
const EACH_OWN: &[u8] = b"\
    chariots 1\n\
    datacentres 2\n\
    round 1\n\
    session A\n\
    put x =a\n\
    get x\n\
    session B\n\
    put x =b\n\
    get x\n\
    steps\n\
    end\n";

// The longest transaction, with a key that nobody put.
const SIXTEEN_KEYS: &[u8] = b"\
    chariots 1\n\
    datacentres 1\n\
    round 1\n\
    session A\n\
    put a =1\n\
    tx a b a a a a a a a a a a a a a a\n\
    steps\n\
    end\n";

// Three datacentres with stages of several members.
const LIKES: &[u8] = b"\
    chariots 1\n\
    datacentres 3\n\
    round 4\n\
    stages A 2 2 2 3 2 1 1\n\
    stages B 1 1 1 2 1 1 1\n\
    session A\n\
    put album =p1\n\
    append =ann-likes-p1 likes\n\
    get album\n\
    session B\n\
    put album =p2\n\
    tx album likes\n\
    session C\n\
    last likes 2\n\
    put note =seen\n\
    steps\n\
    end\n";

// A session whose vector is below the floor waits for it.
const BELOW: &[u8] = b"\
    chariots 1\n\
    datacentres 1\n\
    round 1\n\
    stages A 1 1 1 2 1 1 1\n\
    session A\n\
    put x =1\n\
    put x =2\n\
    put x =3\n\
    session A\n\
    get x\n\
    steps\n\
    client 0\n\
    flush A 0\n\
    pass A 0 0\n\
    stamp A 0\n\
    client 0\n\
    flush A 0\n\
    pass A 0 0\n\
    stamp A 0\n\
    place A 0 0\n\
    place A 0 1\n\
    gossip A 0 1\n\
    gossip A 1 0\n\
    client 0\n\
    flush A 0\n\
    pass A 0 0\n\
    stamp A 0\n\
    place A 0 0\n\
    gossip A 0 0\n\
    post A 0 0\n\
    post A 1 0\n\
    floor A 3\n\
    client 1\n\
    gossip A 0 1\n\
    client 1\n\
    end\n";

// The last records with a tag, before there are any and after.
const LAST_TWO: &[u8] = b"\
    chariots 1\n\
    datacentres 1\n\
    round 1\n\
    session A\n\
    last t 2\n\
    append =a t\n\
    append =b t t\n\
    append =c t\n\
    last t 2\n\
    steps\n\
    end\n";

// Two messages are lost.
const LOST: &[u8] = b"\
    chariots 1\n\
    datacentres 2\n\
    round 1\n\
    session A\n\
    put x =1\n\
    steps\n\
    client 0\n\
    flush A 0\n\
    pass A 0 0\n\
    stamp A 0\n\
    place A 0 0\n\
    send A 0 B\n\
    lose A B 1\n\
    send A 0 B\n\
    lose A B 1\n\
    end\n";

// A key is deleted, and a get after that finds the del.
const DELETED: &[u8] = b"\
    chariots 1\n\
    datacentres 1\n\
    round 1\n\
    session A\n\
    put x =1\n\
    get x\n\
    del x\n\
    get x\n\
    steps\n\
    end\n";

// The put and the del that replaces it are both collected, and the key stays deleted.
const DELETED_AND_COLLECTED: &[u8] = b"\
    chariots 1\n\
    datacentres 1\n\
    round 1\n\
    session A\n\
    put x =1\n\
    del x\n\
    get x\n\
    steps\n\
    client 0\n\
    flush A 0\n\
    pass A 0 0\n\
    stamp A 0\n\
    client 0\n\
    flush A 0\n\
    pass A 0 0\n\
    stamp A 0\n\
    place A 0 0\n\
    gossip A 0 0\n\
    post A 0 0\n\
    learn A\n\
    floor A 2\n\
    collect A 0\n\
    end\n";

// A script, and the report of its run.
struct Row {
    script: &'static [u8],
    report: &'static [u8],
}

const ROWS: [Row; 11] = [
    Row {
        script: ACROSS,
        report: b"log A 2\n1 A:1 put 0 1 0,0,0 =1 x\n2 B:1 put 1 2 1,0,0 =2 y\nlog B 2\n1 A:1 put 0 1 0,0,0 =1 x\n2 B:1 put 1 2 1,0,0 =2 y\nlog C 2\n1 A:1 put 0 1 0,0,0 =1 x\n2 B:1 put 1 2 1,0,0 =2 y\nreplies\n0 1 written 1 A:1\n1 1 at 1 found 1 A:1 =1\n1 2 written 2 B:1\nend\n",
    },
    Row {
        script: BEHIND,
        report: b"log A 1\n1 A:1 put 0 1 0 =1 x\nreplies\n0 1 written 1 A:1\n0 2 at 1 found 1 A:1 =1\nend\n",
    },
    Row {
        script: COLLECTED,
        report: b"log A 3\n1 A:1 gone\n2 A:2 put 0 2 1 =1 y\n3 A:3 put 0 3 2 =2 x\nreplies\n0 1 written 1 A:1\n0 2 written 2 A:2\n0 3 written 3 A:3\n1 1 at 2 found 2 A:2 =1 found 1 A:1 =1\nend\n",
    },
    Row {
        script: EACH_OWN,
        report: b"log A 2\n1 A:1 put 0 1 0,0 =a x\n2 B:1 put 1 1 0,0 =b x\nlog B 2\n1 B:1 put 1 1 0,0 =b x\n2 A:1 put 0 1 0,0 =a x\nreplies\n0 1 written 1 A:1\n0 2 at 1 found 1 A:1 =a\n1 1 written 1 B:1\n1 2 at 1 found 1 B:1 =b\nend\n",
    },
    Row {
        script: SIXTEEN_KEYS,
        report: b"log A 1\n1 A:1 put 0 1 0 =1 a\nreplies\n0 1 written 1 A:1\n0 2 at 1 found 1 A:1 =1 absent found 1 A:1 =1 found 1 A:1 =1 found 1 A:1 =1 found 1 A:1 =1 found 1 A:1 =1 found 1 A:1 =1 found 1 A:1 =1 found 1 A:1 =1 found 1 A:1 =1 found 1 A:1 =1 found 1 A:1 =1 found 1 A:1 =1 found 1 A:1 =1 found 1 A:1 =1\nend\n",
    },
    Row {
        script: LIKES,
        report: b"log A 4\n1 A:1 put 0 1 0,0,0 =p1 album\n2 A:2 append 0 2 1,0,0 =ann-likes-p1 likes\n3 C:1 put 2 2 0,0,0 =seen note\n4 B:1 put 1 1 0,0,0 =p2 album\nlog B 4\n1 B:1 put 1 1 0,0,0 =p2 album\n2 A:1 put 0 1 0,0,0 =p1 album\n3 A:2 append 0 2 1,0,0 =ann-likes-p1 likes\n4 C:1 put 2 2 0,0,0 =seen note\nlog C 4\n1 C:1 put 2 2 0,0,0 =seen note\n2 A:1 put 0 1 0,0,0 =p1 album\n3 A:2 append 0 2 1,0,0 =ann-likes-p1 likes\n4 B:1 put 1 1 0,0,0 =p2 album\nreplies\n0 1 written 1 A:1\n0 2 written 2 A:2\n0 3 at 2 found 1 A:1 =p1\n1 1 written 1 B:1\n1 2 at 1 found 1 B:1 =p2 absent\n2 1 at 0 last\n2 2 written 1 C:1\nend\n",
    },
    Row {
        script: BELOW,
        report: b"log A 3\n1 A:1 put 0 1 0 =1 x\n2 A:2 put 0 2 1 =2 x\n3 A:3 put 0 3 2 =3 x\nreplies\n0 1 written 1 A:1\n0 2 written 2 A:2\n0 3 written 3 A:3\n1 1 at 3 found 3 A:3 =3\nend\n",
    },
    Row {
        script: LAST_TWO,
        report: b"log A 3\n1 A:1 append 0 2 0 =a t\n2 A:2 append 0 3 1 =b t t\n3 A:3 append 0 4 2 =c t\nreplies\n0 1 at 0 last\n0 2 written 1 A:1\n0 3 written 2 A:2\n0 4 written 3 A:3\n0 5 at 3 last 2 A:2 3 A:3\nend\n",
    },
    Row {
        script: LOST,
        report: b"log A 1\n1 A:1 put 0 1 0,0 =1 x\nlog B 1\n1 A:1 put 0 1 0,0 =1 x\nreplies\n0 1 written 1 A:1\nend\n",
    },
    Row {
        script: DELETED,
        report: b"log A 2\n1 A:1 put 0 1 0 =1 x\n2 A:2 del 0 3 1 = x\nreplies\n0 1 written 1 A:1\n0 2 at 1 found 1 A:1 =1\n0 3 written 2 A:2\n0 4 at 2 deleted 2 A:2\nend\n",
    },
    Row {
        script: DELETED_AND_COLLECTED,
        report: b"log A 2\n1 A:1 gone\n2 A:2 gone\nreplies\n0 1 written 1 A:1\n0 2 written 2 A:2\n0 3 at 2 deleted 2 A:2\nend\n",
    },
];

// Replays a script, and writes its report.
fn played(alloc: Global, script: &[u8], sink: &mut MemSink) -> Result<Done, Fail> {
    let mut source = MemSource::new(Vec::from_slice(alloc, script)?, 64, Seq::new(alloc));
    let words = vec![in alloc; Word::new(alloc, "replay")?]?;
    Ok(plain_run(alloc, words.as_slice(), &mut source, sink))
}

fn reports(rt: &impl Abort, alloc: Global, row: &Row) -> Result<(), Fail> {
    let mut sink = MemSink::new(alloc, 256, Seq::new(alloc));
    let done = played(alloc, row.script, &mut sink)?;
    assert_eq!(rt; done.status, 0);
    assert_eq!(rt; sink.written(), row.report);
    Ok(())
}

#[test]
fn look_ups_are_answered(rt: HostRuntime) -> Result<(), Fail> {
    for row in &ROWS {
        reports(&rt, rt.alloc(), row)?;
    }
    Ok(())
}

// The place of a step among the steps of its script, and what it answers.
struct Answer {
    step: usize,
    outcome: &'static str,
}

const BEHIND_ANSWERS: [Answer; 4] = [
    // client 0
    Answer {
        step: 0,
        outcome: "Submitted { k: 1 }",
    },
    // client 0
    Answer {
        step: 4,
        outcome: "Waiting { k: 2, floor: 1, head: 0 }",
    },
    // client 0
    Answer {
        step: 7,
        outcome: "Behind { k: 2, covered: 0 }",
    },
    // client 0
    Answer {
        step: 9,
        outcome: "Replied { k: 2 }",
    },
];

const COLLECTED_ANSWERS: [Answer; 5] = [
    // client 1
    Answer {
        step: 11,
        outcome: "Key { k: 1, done: 1, of: 2, at: 2 }",
    },
    // floor A 3
    Answer {
        step: 20,
        outcome: "FloorAt { floor: 2 }",
    },
    // collect A 0
    Answer {
        step: 21,
        outcome: "Nothing",
    },
    // client 1
    Answer {
        step: 22,
        outcome: "Replied { k: 1 }",
    },
    // floor A 3
    Answer {
        step: 23,
        outcome: "FloorAt { floor: 3 }",
    },
];

const BELOW_ANSWERS: [Answer; 9] = [
    // gossip A 0 1
    Answer {
        step: 10,
        outcome: "Head { at: 1 }",
    },
    // gossip A 1 0
    Answer {
        step: 11,
        outcome: "Head { at: 2 }",
    },
    // gossip A 0 0
    Answer {
        step: 17,
        outcome: "Head { at: 3 }",
    },
    // post A 0 0
    Answer {
        step: 18,
        outcome: "Covered { at: 1 }",
    },
    // post A 1 0
    Answer {
        step: 19,
        outcome: "Covered { at: 3 }",
    },
    // floor A 3
    Answer {
        step: 20,
        outcome: "FloorAt { floor: 3 }",
    },
    // client 1
    Answer {
        step: 21,
        outcome: "Below { k: 1, floor: 3 }",
    },
    // gossip A 0 1
    Answer {
        step: 22,
        outcome: "Head { at: 3 }",
    },
    // client 1
    Answer {
        step: 23,
        outcome: "Replied { k: 1 }",
    },
];

fn answers(
    rt: &impl Abort,
    alloc: Global,
    stages: &StageLog,
    answers: &[Answer],
) -> Result<(), Fail> {
    for answer in answers {
        let Some(line) = stages.get(answer.step) else {
            return Err(Fail::from("a step without a line"));
        };
        let outcome = format!(in alloc; "{:?}", line.outcome)?;
        assert_eq!(rt; outcome.as_str(), answer.outcome);
    }
    Ok(())
}

fn plays(rt: &impl Abort, alloc: Global, script: &[u8], expected: &[Answer]) -> Result<(), Fail> {
    let mut sink = MemSink::new(alloc, 256, Seq::new(alloc));
    let done = played(alloc, script, &mut sink)?;
    let Some(stages) = &done.stages else {
        return Err(Fail::from("nothing was played"));
    };
    answers(rt, alloc, stages, expected)
}

#[test]
fn a_get_waits_for_the_head_and_the_indexer(rt: HostRuntime) -> Result<(), Fail> {
    plays(&rt, rt.alloc(), BEHIND, &BEHIND_ANSWERS)
}

#[test]
fn a_transaction_holds_the_floor_down(rt: HostRuntime) -> Result<(), Fail> {
    plays(&rt, rt.alloc(), COLLECTED, &COLLECTED_ANSWERS)
}

#[test]
fn a_session_below_the_floor_waits(rt: HostRuntime) -> Result<(), Fail> {
    plays(&rt, rt.alloc(), BELOW, &BELOW_ANSWERS)
}
