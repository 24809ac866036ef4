//! Lines that are refused: behind the same lines each of them, with the first cause that applies.
use crate::fronts::{
    EIGHT_DATACENTRES, ENDED, FULL_STAGES, LINKS_OF_TWO, NO_SESSION, ONE_DATACENTRE, ONE_SESSION,
    SIZES_GIVEN, STEPS_OF_ONE_SESSION,
};
use script_text::{Cause, ScriptFault, read_script};
use std::alloc::Global;
use std::process::Abort;
use std::test::Fail;

// Each text, behind some lines, is refused at that line for its cause.
fn refuses(
    rt: &impl Abort,
    alloc: Global,
    before: &str,
    line: u32,
    rows: &[(&str, Cause)],
) -> Result<(), Fail> {
    for row in rows {
        let mut script = Vec::from_slice(alloc, before.as_bytes())?;
        script.extend_from_slice(row.0.as_bytes())?;
        let cause = row.1;
        let fault = read_script(alloc, &script).err();
        assert_eq!(rt; fault, Some(ScriptFault::Bad { line, cause }));
    }
    Ok(())
}

#[test]
fn first_lines_are_refused(rt: HostRuntime) -> Result<(), Fail> {
    let rows = [
        ("", Cause::TooShort),
        ("chariots 1\r\n", Cause::BadByte),
        ("# a\tcomment\nchariots 1\n", Cause::BadByte),
        ("chariots  1\n", Cause::BadSpacing),
        ("chariots 1 \n", Cause::BadSpacing),
        ("chariots 2\n", Cause::OutOfRange),
    ];
    refuses(&rt, rt.alloc(), "", 1, &rows)
}

#[test]
fn numbers_of_datacentres_are_refused(rt: HostRuntime) -> Result<(), Fail> {
    let rows = [
        ("datacentres 01\n", Cause::BadNumber),
        ("datacentres 0\n", Cause::OutOfRange),
        ("datacentres 9\n", Cause::OutOfRange),
        ("round 1\nfly\n", Cause::OutOfPlace),
    ];
    refuses(&rt, rt.alloc(), "chariots 1\n", 2, &rows)
}

#[test]
fn sizes_and_sessions_are_refused(rt: HostRuntime) -> Result<(), Fail> {
    let rows = [
        ("", Cause::TooShort),
        ("session B\n", Cause::BadDatacentre),
        ("get x\n", Cause::OutOfPlace),
        ("del x\n", Cause::OutOfPlace),
        ("client 0\n", Cause::OutOfPlace),
        ("fly\n", Cause::UnknownWord),
        ("stages A 17 1 1 1 1 1 1\n", Cause::OutOfRange),
        ("stages A 1 1 1 1 1 0 1\n", Cause::OutOfRange),
        ("stages A 1 1 1 1 0 1 1\n", Cause::OutOfRange),
        ("stages A 1 1 1 1 17 1 1\n", Cause::OutOfRange),
    ];
    refuses(&rt, rt.alloc(), ONE_DATACENTRE, 4, &rows)
}

#[test]
fn no_datacentre_has_the_ninth_letter(rt: HostRuntime) -> Result<(), Fail> {
    let rows = [("session I\n", Cause::BadDatacentre)];
    refuses(&rt, rt.alloc(), EIGHT_DATACENTRES, 4, &rows)
}

#[test]
fn sizes_are_given_once(rt: HostRuntime) -> Result<(), Fail> {
    let rows = [
        ("stages A 1 1 1 1 1 1 1\n", Cause::GivenTwice),
        ("stages A 1 1 1 01 1 1 1\n", Cause::BadNumber),
    ];
    refuses(&rt, rt.alloc(), SIZES_GIVEN, 5, &rows)
}

#[test]
fn writes_are_refused(rt: HostRuntime) -> Result<(), Fail> {
    let long = "append =x aaaaaaaaaaaaaaaaaaaaaaaaaaaaaaaaaaaaaaaaaaaaaaaaaaaaaaaaaaaaaaaaa\n";
    let rows = [
        ("append = a b c d e f g h i\n", Cause::WrongWords),
        ("append body\n", Cause::BadBody),
        ("append =x a/b\n", Cause::BadName),
        (long, Cause::BadName),
        ("put key\n", Cause::WrongWords),
        ("put a/b body\n", Cause::BadName),
        ("put key body\n", Cause::BadBody),
        ("del\n", Cause::WrongWords),
        ("del a b\n", Cause::WrongWords),
        ("del key =body\n", Cause::WrongWords),
        ("del a/b\n", Cause::BadName),
    ];
    refuses(&rt, rt.alloc(), ONE_SESSION, 5, &rows)
}

#[test]
fn look_ups_are_refused(rt: HostRuntime) -> Result<(), Fail> {
    let rows = [
        ("read 0\n", Cause::OutOfRange),
        ("get\n", Cause::WrongWords),
        ("get a/b\n", Cause::BadName),
        ("tx\n", Cause::WrongWords),
        ("tx a a a a a a a a a a a a a a a a a\n", Cause::WrongWords),
        ("tx a b/ c=\n", Cause::BadName),
        ("last a\n", Cause::WrongWords),
        ("last a 0\n", Cause::OutOfRange),
        ("last a 65\n", Cause::OutOfRange),
        ("last a/ x\n", Cause::BadName),
    ];
    refuses(&rt, rt.alloc(), ONE_SESSION, 5, &rows)
}

#[test]
fn steps_of_stages_are_refused(rt: HostRuntime) -> Result<(), Fail> {
    let rows = [
        ("client\n", Cause::WrongWords),
        ("client 0\n", Cause::OutOfRange),
        ("flush a 0\n", Cause::BadDatacentre),
        ("flush B 0\n", Cause::BadDatacentre),
        ("flush AA 0\n", Cause::BadDatacentre),
        ("flush A 16\n", Cause::OutOfRange),
        ("pass A 16 x\n", Cause::OutOfRange),
        ("pass A 0 16\n", Cause::OutOfRange),
        ("gossip A 0\n", Cause::WrongWords),
        ("learn A 0\n", Cause::WrongWords),
        ("post A 0\n", Cause::WrongWords),
        ("post A 16 0\n", Cause::OutOfRange),
        ("post A 0 16\n", Cause::OutOfRange),
    ];
    refuses(&rt, rt.alloc(), NO_SESSION, 5, &rows)
}

#[test]
fn other_steps_are_refused(rt: HostRuntime) -> Result<(), Fail> {
    let rows = [
        ("stages A 1 1 1 1 1 1 1\n", Cause::OutOfPlace),
        ("floor A 0\n", Cause::OutOfRange),
        ("floor A 4294967296\n", Cause::OutOfRange),
        ("floor 1 A\n", Cause::BadDatacentre),
        ("collect A 16\n", Cause::OutOfRange),
        ("announce A B 1\n", Cause::BadDatacentre),
    ];
    refuses(&rt, rt.alloc(), NO_SESSION, 5, &rows)
}

#[test]
fn numbers_of_sessions_are_refused(rt: HostRuntime) -> Result<(), Fail> {
    let rows = [
        ("client 1\n", Cause::OutOfRange),
        ("client 00\n", Cause::BadNumber),
    ];
    refuses(&rt, rt.alloc(), STEPS_OF_ONE_SESSION, 8, &rows)
}

#[test]
fn steps_of_links_are_refused(rt: HostRuntime) -> Result<(), Fail> {
    let rows = [
        ("send A 0 A\n", Cause::BadDatacentre),
        ("send A 16 A\n", Cause::OutOfRange),
        ("send A 0 C\n", Cause::BadDatacentre),
        ("deliver B B 0 0\n", Cause::BadDatacentre),
        ("deliver A B 0 0\n", Cause::OutOfRange),
        ("deliver A B 65 16\n", Cause::OutOfRange),
        ("lose A B +1\n", Cause::BadNumber),
        ("copy A B 4294967296\n", Cause::OutOfRange),
    ];
    refuses(&rt, rt.alloc(), LINKS_OF_TWO, 5, &rows)
}

#[test]
fn announcements_are_refused(rt: HostRuntime) -> Result<(), Fail> {
    let rows = [
        ("announce A B\n", Cause::WrongWords),
        ("announce A A 1\n", Cause::BadDatacentre),
        ("announce A A 0\n", Cause::BadDatacentre),
        ("announce A C 1\n", Cause::BadDatacentre),
        ("announce A B 0\n", Cause::OutOfRange),
        ("announce B A 4294967296\n", Cause::OutOfRange),
        ("announce B A x\n", Cause::BadNumber),
        ("mark\n", Cause::WrongWords),
        ("mark A 0\n", Cause::WrongWords),
        ("mark C\n", Cause::BadDatacentre),
    ];
    refuses(&rt, rt.alloc(), LINKS_OF_TWO, 5, &rows)
}

#[test]
fn additions_are_refused(rt: HostRuntime) -> Result<(), Fail> {
    let rows = [
        ("addmaintainer A\n", Cause::WrongWords),
        ("addmaintainer C 1\n", Cause::BadDatacentre),
        ("addmaintainer A 0\n", Cause::OutOfRange),
        ("addmaintainer A 01\n", Cause::BadNumber),
        ("addmaintainer A 4294967296\n", Cause::OutOfRange),
        ("addbatcher\n", Cause::WrongWords),
        ("addbatcher A B\n", Cause::WrongWords),
        ("addqueue 0\n", Cause::BadDatacentre),
        ("addsender a\n", Cause::BadDatacentre),
        ("addreceiver AB\n", Cause::BadDatacentre),
        ("addindexer A\n", Cause::UnknownWord),
    ];
    refuses(&rt, rt.alloc(), LINKS_OF_TWO, 5, &rows)
}

#[test]
fn upgrades_are_refused(rt: HostRuntime) -> Result<(), Fail> {
    let rows = [
        ("upgrade\n", Cause::WrongWords),
        ("upgrade A B\n", Cause::WrongWords),
        ("upgrade A 2\n", Cause::WrongWords),
        ("upgrade C\n", Cause::BadDatacentre),
        ("upgrade a\n", Cause::BadDatacentre),
        ("upgraded A\n", Cause::UnknownWord),
        ("downgrade A\n", Cause::UnknownWord),
    ];
    refuses(&rt, rt.alloc(), LINKS_OF_TWO, 5, &rows)
}

#[test]
fn no_member_is_added_to_a_full_stage(rt: HostRuntime) -> Result<(), Fail> {
    let rows = [
        ("announce B A 1\n", Cause::TooMany),
        ("addmaintainer B 1\n", Cause::TooMany),
        ("addbatcher B\n", Cause::TooMany),
        ("addqueue B\n", Cause::TooMany),
        ("addsender B\n", Cause::TooMany),
        ("addreceiver B\n", Cause::TooMany),
    ];
    refuses(&rt, rt.alloc(), FULL_STAGES, 6, &rows)
}

#[test]
fn lines_behind_the_end_are_refused(rt: HostRuntime) -> Result<(), Fail> {
    let rows = [("end\n", Cause::AfterEnd), ("end \n", Cause::BadSpacing)];
    refuses(&rt, rt.alloc(), ENDED, 6, &rows)
}
