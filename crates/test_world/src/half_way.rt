//! A script that stops half-way, turn by turn.

use crate::playing::play;
use report_text::{full, logs};
use std::process::Abort;
use std::test::Fail;

// When its steps end a record is gone at A, a get-transaction has one of two keys and a get waits for its indexer, both with their pins; a
// draft is in a batcher, one in a filter, one in a queue without the token; a record is in an outbox, two are placed and not gossiped; at C
// one record is deferred and one is held; one packet was lost, one is there twice, and one is left over; seven sessions have more to begin.
const SCRIPT: &[u8] = b"\
    chariots 1\n\
    datacentres 3\n\
    round 1\n\
    stages A 2 2 2 2 2 2 2\n\
    stages B 2 2 2 2 2 2 2\n\
    stages C 2 2 2 2 2 2 2\n\
    session A\n\
    put x =1\n\
    put x =2\n\
    put y =3\n\
    append =end t\n\
    session A\n\
    tx x y\n\
    put x =9\n\
    session A\n\
    get y\n\
    last t 2\n\
    session A\n\
    put z =4\n\
    get z\n\
    session A\n\
    append =a4 t\n\
    session A\n\
    append =a5 t\n\
    session A\n\
    append =a6 t\n\
    session B\n\
    get y\n\
    put w =5\n\
    read 9\n\
    session B\n\
    append =b8 t u\n\
    session B\n\
    append =b9 t\n\
    session C\n\
    get w\n\
    last t 3\n\
    session C\n\
    put v =c\n\
    tx v w\n\
    steps\n\
    # A: two puts of x are placed, gossiped, posted and learnt\n\
    client 0\n\
    flush A 0\n\
    pass A 0 0\n\
    stamp A 0\n\
    place A 0 0\n\
    client 0\n\
    flush A 0\n\
    pass A 0 0\n\
    stamp A 0\n\
    place A 0 1\n\
    gossip A 1 0\n\
    gossip A 0 0\n\
    gossip A 0 1\n\
    post A 0 0\n\
    post A 1 0\n\
    post A 0 1\n\
    post A 1 1\n\
    learn A\n\
    # B and C have them, and A hears of it\n\
    send A 0 B\n\
    send A 1 B\n\
    deliver A B 1 0\n\
    deliver A B 1 1\n\
    flush B 0\n\
    flush B 1\n\
    pass B 0 0\n\
    pass B 1 0\n\
    stamp B 0\n\
    place B 0 0\n\
    place B 0 1\n\
    gossip B 1 0\n\
    gossip B 0 0\n\
    learn B\n\
    send B 0 A\n\
    deliver B A 1 0\n\
    send A 0 C\n\
    send A 1 C\n\
    deliver A C 2 1\n\
    deliver A C 1 0\n\
    flush C 0\n\
    flush C 1\n\
    pass C 0 0\n\
    pass C 1 0\n\
    stamp C 0\n\
    place C 0 0\n\
    place C 0 1\n\
    gossip C 1 0\n\
    gossip C 0 0\n\
    learn C\n\
    send C 1 A\n\
    deliver C A 1 1\n\
    # the older x is collected; a get-transaction has one of its keys\n\
    floor A 9\n\
    collect A 0\n\
    collect A 1\n\
    client 1\n\
    # y is placed and gossiped at A, and not posted\n\
    client 0\n\
    flush A 0\n\
    pass A 0 0\n\
    stamp A 0\n\
    place A 0 0\n\
    gossip A 0 0\n\
    client 2\n\
    # B reads it, and its next put depends on it\n\
    send A 0 B\n\
    deliver A B 1 1\n\
    flush B 1\n\
    pass B 0 0\n\
    stamp B 0\n\
    place B 0 0\n\
    gossip B 0 1\n\
    gossip B 1 1\n\
    post B 0 1\n\
    post B 1 1\n\
    client 7\n\
    client 7\n\
    flush B 1\n\
    pass B 1 0\n\
    stamp B 0\n\
    place B 0 1\n\
    # C has that put and not what it depends on; the packet is there once more\n\
    send B 1 C\n\
    copy B C 1\n\
    deliver B C 1 0\n\
    flush C 0\n\
    pass C 1 0\n\
    stamp C 0\n\
    # A: one record waits for its maintainer, a later one is placed and not gossiped\n\
    client 4\n\
    flush A 0\n\
    pass A 0 0\n\
    stamp A 0\n\
    client 5\n\
    flush A 1\n\
    pass A 1 0\n\
    stamp A 0\n\
    place A 0 0\n\
    token A\n\
    client 6\n\
    flush A 0\n\
    pass A 0 1\n\
    stamp A 1\n\
    place A 1 1\n\
    # C hears of the later one alone\n\
    send A 1 C\n\
    deliver A C 1 1\n\
    flush C 1\n\
    # one packet is lost, one is there twice\n\
    send A 0 C\n\
    lose A C 1\n\
    send A 0 B\n\
    copy A B 1\n\
    # drafts: in a batcher of A, in a filter of B, in a queue of B that has no token\n\
    client 3\n\
    client 8\n\
    flush B 0\n\
    client 9\n\
    flush B 1\n\
    pass B 1 1\n\
    stamp B 1\n\
    end\n\
";

// The report's lines up to settling.
const BEGINS: &[u8] = b"\
    chariots report 1\n\
    datacentres 3\n\
    workload\n\
    session A\n\
    put x =1\n\
    put x =2\n\
    put y =3\n\
    append =end t\n\
    session A\n\
    tx x y\n\
    put x =9\n\
    session A\n\
    get y\n\
    last t 2\n\
    session A\n\
    put z =4\n\
    get z\n\
    session A\n\
    append =a4 t\n\
    session A\n\
    append =a5 t\n\
    session A\n\
    append =a6 t\n\
    session B\n\
    get y\n\
    put w =5\n\
    read 9\n\
    session B\n\
    append =b8 t u\n\
    session B\n\
    append =b9 t\n\
    session C\n\
    get w\n\
    last t 3\n\
    session C\n\
    put v =c\n\
    tx v w\n\
    stages\n\
    client 0 -> submitted 1\n\
    flush A 0 -> 0.1 0 passed\n\
    pass A 0 0 -> 1\n\
    stamp A 0 -> 1 A:1 deferred 0\n\
    place A 0 0 -> 1\n\
    client 0 -> submitted 2\n\
    flush A 0 -> 0.2 0 passed\n\
    pass A 0 0 -> 1\n\
    stamp A 0 -> 2 A:2 deferred 0\n\
    place A 0 1 -> 2\n\
    gossip A 1 0 -> head 0\n\
    gossip A 0 0 -> head 2\n\
    gossip A 0 1 -> head 2\n\
    post A 0 0 -> covered 1\n\
    post A 1 0 -> covered 2\n\
    post A 0 1 -> covered 1\n\
    post A 1 1 -> covered 2\n\
    learn A -> 2,0,0\n\
    send A 0 B -> A:1 link 1\n\
    send A 1 B -> A:2 link 2\n\
    deliver A B 1 0 -> A:1\n\
    deliver A B 1 1 -> A:2\n\
    flush B 0 -> A:1 0 passed\n\
    flush B 1 -> A:2 1 passed\n\
    pass B 0 0 -> 1\n\
    pass B 1 0 -> 1\n\
    stamp B 0 -> 1 A:1 2 A:2 deferred 0\n\
    place B 0 0 -> 1\n\
    place B 0 1 -> 2\n\
    gossip B 1 0 -> head 0\n\
    gossip B 0 0 -> head 2\n\
    learn B -> 2,0,0\n\
    send B 0 A -> link 1\n\
    deliver B A 1 0 -> no records\n\
    send A 0 C -> A:1 link 1\n\
    send A 1 C -> A:2 link 2\n\
    deliver A C 2 1 -> A:2\n\
    deliver A C 1 0 -> A:1\n\
    flush C 0 -> A:1 0 passed\n\
    flush C 1 -> A:2 1 passed\n\
    pass C 0 0 -> 1\n\
    pass C 1 0 -> 1\n\
    stamp C 0 -> 1 A:1 2 A:2 deferred 0\n\
    place C 0 0 -> 1\n\
    place C 0 1 -> 2\n\
    gossip C 1 0 -> head 0\n\
    gossip C 0 0 -> head 2\n\
    learn C -> 2,0,0\n\
    send C 1 A -> link 1\n\
    deliver C A 1 1 -> no records\n\
    floor A 9 -> floor 2\n\
    collect A 0 -> 1\n\
    collect A 1 -> nothing\n\
    client 1 -> key 1 1 of 2 at 2\n\
    client 0 -> submitted 3\n\
    flush A 0 -> 0.3 0 passed\n\
    pass A 0 0 -> 1\n\
    stamp A 0 -> 3 A:3 deferred 0\n\
    place A 0 0 -> 3\n\
    gossip A 0 0 -> head 3\n\
    client 2 -> behind 1 covered 2\n\
    send A 0 B -> A:3 link 1\n\
    deliver A B 1 1 -> A:3\n\
    flush B 1 -> A:3 0 passed\n\
    pass B 0 0 -> 1\n\
    stamp B 0 -> 3 A:3 deferred 0\n\
    place B 0 0 -> 3\n\
    gossip B 0 1 -> head 3\n\
    gossip B 1 1 -> head 3\n\
    post B 0 1 -> covered 1\n\
    post B 1 1 -> covered 3\n\
    client 7 -> replied 1\n\
    client 7 -> submitted 2\n\
    flush B 1 -> 7.2 1 passed\n\
    pass B 1 0 -> 1\n\
    stamp B 0 -> 4 B:1 deferred 0\n\
    place B 0 1 -> 4\n\
    send B 1 C -> B:1 link 1\n\
    copy B C 1 -> link 2\n\
    deliver B C 1 0 -> B:1\n\
    flush C 0 -> B:1 1 passed\n\
    pass C 1 0 -> 1\n\
    stamp C 0 -> deferred 1\n\
    client 4 -> submitted 1\n\
    flush A 0 -> 4.1 0 passed\n\
    pass A 0 0 -> 1\n\
    stamp A 0 -> 4 A:4 deferred 0\n\
    client 5 -> submitted 1\n\
    flush A 1 -> 5.1 1 passed\n\
    pass A 1 0 -> 1\n\
    stamp A 0 -> 5 A:5 deferred 0\n\
    place A 0 0 -> 5\n\
    token A -> at 1\n\
    client 6 -> submitted 1\n\
    flush A 0 -> 6.1 0 passed\n\
    pass A 0 1 -> 1\n\
    stamp A 1 -> 6 A:6 deferred 0\n\
    place A 1 1 -> 6\n\
    send A 1 C -> A:6 link 1\n\
    deliver A C 1 1 -> A:6\n\
    flush C 1 -> A:6 1 held\n\
    send A 0 C -> A:3 A:5 link 1\n\
    lose A C 1 -> lost\n\
    send A 0 B -> A:3 A:5 link 1\n\
    copy A B 1 -> link 2\n\
    client 3 -> submitted 1\n\
    client 8 -> submitted 1\n\
    flush B 0 -> 8.1 0 passed\n\
    client 9 -> submitted 1\n\
    flush B 1 -> 9.1 1 passed\n\
    pass B 1 1 -> 1\n\
    stamp B 1 -> no token\n\
    settling\n\
";

// The logs and the replies that settling leaves.
const LEFT: &[u8] = b"\
    log A 13\n\
    1 A:1 gone\n\
    2 A:2 put 0 2 1,0,0 =2 x\n\
    3 A:3 put 0 3 2,0,0 =3 y\n\
    4 A:4 append 4 1 3,0,0 =a4 t\n\
    5 A:5 append 5 1 4,0,0 =a5 t\n\
    6 A:6 append 6 1 5,0,0 =a6 t\n\
    7 A:7 put 3 1 6,0,0 =4 z\n\
    8 A:8 append 0 4 7,0,0 =end t\n\
    9 A:9 put 1 2 8,0,0 =9 x\n\
    10 B:1 put 7 2 3,0,0 =5 w\n\
    11 B:2 append 8 1 0,1,0 =b8 t u\n\
    12 B:3 append 9 1 0,2,0 =b9 t\n\
    13 C:1 put 11 1 0,0,0 =c v\n\
    log B 13\n\
    1 A:1 put 0 1 0,0,0 =1 x\n\
    2 A:2 put 0 2 1,0,0 =2 x\n\
    3 A:3 put 0 3 2,0,0 =3 y\n\
    4 B:1 put 7 2 3,0,0 =5 w\n\
    5 B:2 append 8 1 0,1,0 =b8 t u\n\
    6 B:3 append 9 1 0,2,0 =b9 t\n\
    7 C:1 put 11 1 0,0,0 =c v\n\
    8 A:4 append 4 1 3,0,0 =a4 t\n\
    9 A:5 append 5 1 4,0,0 =a5 t\n\
    10 A:6 append 6 1 5,0,0 =a6 t\n\
    11 A:7 put 3 1 6,0,0 =4 z\n\
    12 A:8 append 0 4 7,0,0 =end t\n\
    13 A:9 put 1 2 8,0,0 =9 x\n\
    log C 13\n\
    1 A:1 put 0 1 0,0,0 =1 x\n\
    2 A:2 put 0 2 1,0,0 =2 x\n\
    3 C:1 put 11 1 0,0,0 =c v\n\
    4 A:3 put 0 3 2,0,0 =3 y\n\
    5 B:1 put 7 2 3,0,0 =5 w\n\
    6 B:2 append 8 1 0,1,0 =b8 t u\n\
    7 A:4 append 4 1 3,0,0 =a4 t\n\
    8 A:5 append 5 1 4,0,0 =a5 t\n\
    9 A:6 append 6 1 5,0,0 =a6 t\n\
    10 A:7 put 3 1 6,0,0 =4 z\n\
    11 A:8 append 0 4 7,0,0 =end t\n\
    12 A:9 put 1 2 8,0,0 =9 x\n\
    13 B:3 append 9 1 0,2,0 =b9 t\n\
    replies\n\
    0 1 written 1 A:1\n\
    0 2 written 2 A:2\n\
    0 3 written 3 A:3\n\
    0 4 written 8 A:8\n\
    1 1 at 2 found 2 A:2 =2 absent\n\
    1 2 written 9 A:9\n\
    2 1 at 3 found 3 A:3 =3\n\
    2 2 at 9 last 6 A:6 8 A:8\n\
    3 1 written 7 A:7\n\
    3 2 at 8 found 7 A:7 =4\n\
    4 1 written 4 A:4\n\
    5 1 written 5 A:5\n\
    6 1 written 6 A:6\n\
    7 1 at 3 found 3 A:3 =3\n\
    7 2 written 4 B:1\n\
    7 3 at 6 beyond\n\
    8 1 written 5 B:2\n\
    9 1 written 6 B:3\n\
    10 1 at 2 absent\n\
    10 2 at 3 last\n\
    11 1 written 3 C:1\n\
    11 2 at 3 found 3 C:1 =c absent\n\
    end\n\
";

// Whatever is half way when the steps end, settling brings it to its end.
#[test]
fn what_is_half_way_is_settled(rt: HostRuntime) -> Result<(), Fail> {
    let alloc = rt.alloc();
    let played = play(alloc, SCRIPT)?;
    let report = full(alloc, &played.run, Some(&played.stages), &played.left)?;
    assert!(rt; report.as_slice().starts_with(BEGINS));
    let left = logs(alloc, &played.run, &played.left)?;
    assert!(rt; left.as_slice() == LEFT);
    Ok(())
}
