//! A script in which every stage gets a member while records are on their way, at three datacentres, with an announcement on when its steps end.

use crate::playing::play;
use report_text::{full, logs};
use std::process::Abort;
use std::test::Fail;

// A filter joins at B and gets what is held for it; at C the filter that there is has passed the mark. Maintainers join ahead of the
// logs, once too late; queues join the ring, batchers, senders and receivers take drafts and packets at once. When the steps end an
// announcement is on at each datacentre.
const SCRIPT: &[u8] = b"\
    chariots 1\n\
    datacentres 3\n\
    round 2\n\
    stages B 1 1 1 2 1 1 1\n\
    session A\n\
    put x =1\n\
    append =a2 t\n\
    put x =3\n\
    append =a4 t\n\
    get y\n\
    session B\n\
    put y =b1\n\
    get x\n\
    append =b3 t\n\
    last t 4\n\
    session C\n\
    append =c1 t\n\
    tx x y\n\
    put z =c2\n\
    session A\n\
    append =a5 t\n\
    append =a6 t\n\
    steps\n\
    # A: a batcher joins while a command is on its way, and the session goes on through the pipeline\n\
    client 0\n\
    addbatcher A\n\
    client 3\n\
    flush A 1\n\
    flush A 0\n\
    # B and C announce filters for A before they have seen anything of it\n\
    announce B A 3\n\
    announce C A 2\n\
    pass A 0 0\n\
    # A: a queue joins the ring while drafts wait at it, and the token goes round\n\
    addqueue A\n\
    stamp A 0\n\
    token A\n\
    stamp A 1\n\
    # A: a maintainer joins ahead of the log\n\
    addmaintainer A 4\n\
    place A 0 0\n\
    client 0\n\
    client 3\n\
    flush A 0\n\
    flush A 1\n\
    pass A 0 1\n\
    stamp A 1\n\
    place A 1 0\n\
    place A 1 1\n\
    gossip A 0 1\n\
    gossip A 1 0\n\
    gossip A 2 0\n\
    # A: a sender joins and sends to both\n\
    addsender A\n\
    send A 0 B\n\
    send A 0 C\n\
    addreceiver B\n\
    deliver A B 1 1\n\
    deliver A C 1 0\n\
    addbatcher B\n\
    # B: the filter that there is accepts, and the filter more gets what it holds from the mark on\n\
    mark B\n\
    flush B 0\n\
    mark B\n\
    pass B 0 0\n\
    pass B 1 0\n\
    stamp B 0\n\
    place B 0 0\n\
    place B 0 1\n\
    client 1\n\
    flush B 1\n\
    pass B 0 0\n\
    addqueue B\n\
    addmaintainer B 6\n\
    token B\n\
    stamp B 1\n\
    stamp B 0\n\
    gossip B 0 1\n\
    gossip B 1 0\n\
    gossip B 2 0\n\
    post B 0 0\n\
    post B 1 0\n\
    learn B\n\
    client 1\n\
    # C: its filter is past the mark when it is asked\n\
    flush C 0\n\
    pass C 0 0\n\
    mark C\n\
    announce C A 2\n\
    stamp C 0\n\
    place C 0 0\n\
    addsender B\n\
    send B 1 A\n\
    send B 0 C\n\
    addreceiver A\n\
    addreceiver C\n\
    deliver B A 1 1\n\
    deliver B C 1 1\n\
    flush A 0\n\
    flush C 0\n\
    addmaintainer C 3\n\
    addmaintainer C 7\n\
    addbatcher C\n\
    client 2\n\
    flush C 1\n\
    pass C 0 0\n\
    addqueue C\n\
    stamp C 0\n\
    token C\n\
    stamp C 1\n\
    addsender C\n\
    send C 1 A\n\
    send C 1 B\n\
    deliver C A 1 1\n\
    deliver C B 1 1\n\
    # an announcement is left on at each datacentre\n\
    announce A C 9\n\
    announce B C 4\n\
    mark B\n\
    announce C B 7\n\
    client 0\n\
    flush A 0\n\
    end\n\
";

// How the report begins: what each line came to, and the marks that settling begins with.
const BEGINS: &[u8] = b"\
    chariots report 1\n\
    datacentres 3\n\
    workload\n\
    session A\n\
    put x =1\n\
    append =a2 t\n\
    put x =3\n\
    append =a4 t\n\
    get y\n\
    session B\n\
    put y =b1\n\
    get x\n\
    append =b3 t\n\
    last t 4\n\
    session C\n\
    append =c1 t\n\
    tx x y\n\
    put z =c2\n\
    session A\n\
    append =a5 t\n\
    append =a6 t\n\
    stages\n\
    client 0 -> submitted 1\n\
    addbatcher A -> member 1\n\
    client 3 -> submitted 1\n\
    flush A 1 -> 3.1 0 passed\n\
    flush A 0 -> 0.1 0 passed\n\
    announce B A 3 -> announced\n\
    announce C A 2 -> announced\n\
    pass A 0 0 -> 2\n\
    addqueue A -> member 1\n\
    stamp A 0 -> 1 A:1 2 A:2 deferred 0\n\
    token A -> at 1\n\
    stamp A 1 -> empty\n\
    addmaintainer A 4 -> epoch 4 2\n\
    place A 0 0 -> 1 2\n\
    client 0 -> submitted 2\n\
    client 3 -> submitted 2\n\
    flush A 0 -> 0.2 0 passed\n\
    flush A 1 -> 3.2 0 passed\n\
    pass A 0 1 -> 2\n\
    stamp A 1 -> 3 A:3 4 A:4 deferred 0\n\
    place A 1 0 -> 3 4\n\
    place A 1 1 -> empty\n\
    gossip A 0 1 -> head 4\n\
    gossip A 1 0 -> head 4\n\
    gossip A 2 0 -> none\n\
    addsender A -> member 1\n\
    send A 0 B -> A:1 A:2 A:3 A:4 link 1\n\
    send A 0 C -> A:1 A:2 A:3 A:4 link 1\n\
    addreceiver B -> member 1\n\
    deliver A B 1 1 -> A:1 A:2 A:3 A:4\n\
    deliver A C 1 0 -> A:1 A:2 A:3 A:4\n\
    addbatcher B -> member 1\n\
    mark B -> accepted 0\n\
    flush B 0 -> A:1 0 passed A:2 0 passed A:3 0 held A:4 0 held\n\
    mark B -> active 2\n\
    pass B 0 0 -> 3\n\
    pass B 1 0 -> 1\n\
    stamp B 0 -> 1 A:1 2 A:2 3 A:3 4 A:4 deferred 0\n\
    place B 0 0 -> 1 2\n\
    place B 0 1 -> 3 4\n\
    client 1 -> submitted 1\n\
    flush B 1 -> 1.1 1 passed\n\
    pass B 0 0 -> empty\n\
    addqueue B -> member 1\n\
    addmaintainer B 6 -> epoch 6 3\n\
    token B -> at 1\n\
    stamp B 1 -> empty\n\
    stamp B 0 -> no token\n\
    gossip B 0 1 -> head 2\n\
    gossip B 1 0 -> head 4\n\
    gossip B 2 0 -> head 4\n\
    post B 0 0 -> covered 2\n\
    post B 1 0 -> covered 4\n\
    learn B -> 4,0,0\n\
    client 1 -> unacknowledged 1\n\
    flush C 0 -> A:1 0 passed A:2 0 passed A:3 0 passed A:4 0 passed\n\
    pass C 0 0 -> 4\n\
    mark C -> late 0 4\n\
    announce C A 2 -> announced\n\
    stamp C 0 -> 1 A:1 2 A:2 3 A:3 4 A:4 deferred 0\n\
    place C 0 0 -> 1 2 3 4\n\
    addsender B -> member 1\n\
    send B 1 A -> link 1\n\
    send B 0 C -> link 1\n\
    addreceiver A -> member 1\n\
    addreceiver C -> member 1\n\
    deliver B A 1 1 -> no records\n\
    deliver B C 1 1 -> no records\n\
    flush A 0 -> empty\n\
    flush C 0 -> empty\n\
    addmaintainer C 3 -> late 4\n\
    addmaintainer C 7 -> epoch 7 2\n\
    addbatcher C -> member 1\n\
    client 2 -> submitted 1\n\
    flush C 1 -> empty\n\
    pass C 0 0 -> empty\n\
    addqueue C -> member 1\n\
    stamp C 0 -> empty\n\
    token C -> at 1\n\
    stamp C 1 -> empty\n\
    addsender C -> member 1\n\
    send C 1 A -> link 1\n\
    send C 1 B -> link 1\n\
    deliver C A 1 1 -> no records\n\
    deliver C B 1 1 -> no records\n\
    announce A C 9 -> announced\n\
    announce B C 4 -> announced\n\
    mark B -> accepted 0\n\
    announce C B 7 -> busy\n\
    client 0 -> submitted 3\n\
    flush A 0 -> 0.3 0 passed\n\
    settling\n\
    mark A -> accepted 0\n\
    mark A -> active 2\n\
    mark B -> accepted 1\n\
    mark B -> active 2\n\
    mark C -> late 0 4\n\
";

// The logs and the replies that settling leaves.
const LEFT: &[u8] = b"\
    log A 10\n\
    1 A:1 append 3 1 0,0,0 =a5 t\n\
    2 A:2 put 0 1 1,0,0 =1 x\n\
    3 A:3 append 0 2 2,0,0 =a2 t\n\
    4 A:4 append 3 2 3,0,0 =a6 t\n\
    5 A:5 put 0 3 4,0,0 =3 x\n\
    6 A:6 append 0 4 5,0,0 =a4 t\n\
    7 B:1 put 1 1 0,0,0 =b1 y\n\
    8 B:2 append 1 3 2,1,0 =b3 t\n\
    9 C:1 append 2 1 0,0,0 =c1 t\n\
    10 C:2 put 2 3 2,0,1 =c2 z\n\
    log B 10\n\
    1 A:1 append 3 1 0,0,0 =a5 t\n\
    2 A:2 put 0 1 1,0,0 =1 x\n\
    3 A:3 append 0 2 2,0,0 =a2 t\n\
    4 A:4 append 3 2 3,0,0 =a6 t\n\
    5 B:1 put 1 1 0,0,0 =b1 y\n\
    6 B:2 append 1 3 2,1,0 =b3 t\n\
    7 A:5 put 0 3 4,0,0 =3 x\n\
    8 A:6 append 0 4 5,0,0 =a4 t\n\
    9 C:1 append 2 1 0,0,0 =c1 t\n\
    10 C:2 put 2 3 2,0,1 =c2 z\n\
    log C 10\n\
    1 A:1 append 3 1 0,0,0 =a5 t\n\
    2 A:2 put 0 1 1,0,0 =1 x\n\
    3 A:3 append 0 2 2,0,0 =a2 t\n\
    4 A:4 append 3 2 3,0,0 =a6 t\n\
    5 C:1 append 2 1 0,0,0 =c1 t\n\
    6 C:2 put 2 3 2,0,1 =c2 z\n\
    7 A:5 put 0 3 4,0,0 =3 x\n\
    8 A:6 append 0 4 5,0,0 =a4 t\n\
    9 B:1 put 1 1 0,0,0 =b1 y\n\
    10 B:2 append 1 3 2,1,0 =b3 t\n\
    replies\n\
    0 1 written 2 A:2\n\
    0 2 written 3 A:3\n\
    0 3 written 5 A:5\n\
    0 4 written 6 A:6\n\
    0 5 at 6 absent\n\
    1 1 written 5 B:1\n\
    1 2 at 5 found 2 A:2 =1\n\
    1 3 written 6 B:2\n\
    1 4 at 6 last 1 A:1 3 A:3 4 A:4 6 B:2\n\
    2 1 written 5 C:1\n\
    2 2 at 5 found 2 A:2 =1 absent\n\
    2 3 written 6 C:2\n\
    3 1 written 1 A:1\n\
    3 2 written 4 A:4\n\
    end\n\
";

// Every member that joins has its part of the traffic, and settling ends the announcements.
#[test]
fn members_join_in_the_middle_of_traffic(rt: HostRuntime) -> Result<(), Fail> {
    let alloc = rt.alloc();
    let played = play(alloc, SCRIPT)?;
    let report = full(alloc, &played.run, Some(&played.stages), &played.left)?;
    assert!(rt; report.as_slice().starts_with(BEGINS));
    let left = logs(alloc, &played.run, &played.left)?;
    assert!(rt; left.as_slice() == LEFT);
    Ok(())
}
