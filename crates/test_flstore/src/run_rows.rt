//! Scripts, and the texts of their runs.
use flstore_service::{fl_text, flstore, read_flstore};
use std::alloc::Global;
use std::process::Abort;
use std::test::Fail;

// A script, and the text of its run.
struct Row {
    script: &'static str,
    text: &'static str,
}

// A value waits, goes in when it is released, and is read once the head has passed it.
const RELEASED: Row = Row {
    script: "\
flstore 1
round 2
maintainers 2
put 0 =a
put 1 =b
after 0 4 =c
put 0 =d
put 0 =e
head 0
gossip 1 0
read 0 3
read 0 5
end
",
    text: "\
put 0 -> 1
put 1 -> 3
after 0 4 -> kept
put 0 -> 2 released 5
put 0 -> 6
head 0 -> 2
gossip 1 0 -> head 3
read 0 3 -> =b
read 0 5 -> beyond
log
1 1 =a
2 4 =d
3 2 =b
5 3 =c
6 5 =e
kept
end
",
};

// A value waits to the end.
const WAITING: Row = Row {
    script: "\
flstore 1
round 1
maintainers 1
after 0 9 =a
head 0
end
",
    text: "\
after 0 9 -> kept
head 0 -> 0
log
kept
1 0 9
end
",
};

// A maintainer that is not there, an epoch that is late, and one that is not.
const EPOCHS: Row = Row {
    script: "\
flstore 1
round 1
maintainers 2
put 1 =a
head 1
put 7 =b
addmaintainer 2
addmaintainer 3
end
",
    text: "\
put 1 -> 2
head 1 -> 0
put 7 -> none
addmaintainer 2 -> late 2
addmaintainer 3 -> epoch 3 3
log
2 1 =a
kept
end
",
};

// Of two that may go in, the one that came first does, though its bound is greater.
const ARRIVAL: Row = Row {
    script: "\
flstore 1
round 1
maintainers 2
after 0 2 =a
after 0 1 =b
after 1 9 =
put 0 =c
end
",
    text: "\
after 0 2 -> kept
after 0 1 -> kept
after 1 9 -> kept
put 0 -> 1 released 3 5
log
1 4 =c
3 1 =a
5 2 =b
kept
3 1 9
end
",
};

// Each that goes in may let others in, by their bounds.
const CHAIN: Row = Row {
    script: "\
flstore 1
round 1
maintainers 1
after 0 3 =a
after 0 2 =b
after 0 3 =c
put 0 =d
after 0 1 =e
end
",
    text: "\
after 0 3 -> kept
after 0 2 -> kept
after 0 3 -> kept
put 0 -> 1
after 0 1 -> 2 released 3 4 5
log
1 4 =d
2 5 =e
3 2 =b
4 1 =a
5 3 =c
kept
end
",
};

// A new epoch moves the next own position past a bound: only the next value that is placed releases.
const JUMP: Row = Row {
    script: "\
flstore 1
round 2
maintainers 2
after 1 3 =a
addmaintainer 2
put 2 =b
put 1 =c
gossip 2 0
gossip 0 0
read 2 6
end
",
    text: "\
after 1 3 -> kept
addmaintainer 2 -> epoch 2 3
put 2 -> 6
put 1 -> 4 released 5
gossip 2 0 -> head 0
gossip 0 0 -> head 0
read 2 6 -> beyond
log
4 3 =c
5 1 =a
6 2 =b
kept
end
",
};

// Reads the script, runs it, and compares its text.
fn has_text(rt: &impl Abort, alloc: Global, row: &Row) -> Result<(), Fail> {
    let script = read_flstore(alloc, row.script.as_bytes())?;
    let run = flstore(alloc, &script)?;
    let text = fl_text(alloc, &run)?;
    assert_eq!(rt; text.as_slice(), row.text.as_bytes());
    Ok(())
}

#[test]
fn a_value_that_is_released_is_read(rt: HostRuntime) -> Result<(), Fail> {
    has_text(&rt, rt.alloc(), &RELEASED)
}

#[test]
fn a_value_waits_to_the_end(rt: HostRuntime) -> Result<(), Fail> {
    has_text(&rt, rt.alloc(), &WAITING)
}

#[test]
fn epochs_are_late_or_added(rt: HostRuntime) -> Result<(), Fail> {
    has_text(&rt, rt.alloc(), &EPOCHS)
}

#[test]
fn the_first_to_come_goes_in_first(rt: HostRuntime) -> Result<(), Fail> {
    has_text(&rt, rt.alloc(), &ARRIVAL)
}

#[test]
fn values_that_go_in_release_others(rt: HostRuntime) -> Result<(), Fail> {
    has_text(&rt, rt.alloc(), &CHAIN)
}

#[test]
fn an_epoch_releases_nothing(rt: HostRuntime) -> Result<(), Fail> {
    has_text(&rt, rt.alloc(), &JUMP)
}
