//! Lines that are refused: behind the same lines each of them, with the first cause that applies.
use cz_base::limits::{BODY_BYTES, STEPS};
use flstore_service::read_flstore;
use script_text::{Cause, ScriptFault};
use std::alloc::Global;
use std::process::Abort;
use std::test::Fail;

// Up to the steps, with a comment and an empty line.
const FRONT: &str = "\
# a comment, and an empty line

flstore 1
round 1
maintainers 15
";

// Each text, behind some lines, is refused at that line for its cause.
fn refuses(
    rt: &impl Abort,
    alloc: Global,
    before: &str,
    line: u32,
    rows: &[(&str, Cause)],
) -> Result<(), Fail> {
    for row in rows {
        let mut script = Vec::from_slice(alloc, before.as_bytes())?;
        script.extend_from_slice(row.0.as_bytes())?;
        let cause = row.1;
        let fault = read_flstore(alloc, &script).err();
        assert_eq!(rt; fault, Some(ScriptFault::Bad { line, cause }));
    }
    Ok(())
}

#[test]
fn first_lines_are_refused(rt: HostRuntime) -> Result<(), Fail> {
    let rows = [
        ("", Cause::TooShort),
        ("flstore 1\r\n", Cause::BadByte),
        ("flstore  1\n", Cause::BadSpacing),
        ("chariots 1\n", Cause::UnknownWord),
        ("round 1\n", Cause::OutOfPlace),
        ("flstore\n", Cause::WrongWords),
        ("flstore 01\n", Cause::BadNumber),
        ("flstore 0\n", Cause::OutOfRange),
        ("flstore 2\n", Cause::OutOfRange),
    ];
    refuses(&rt, rt.alloc(), "", 1, &rows)
}

#[test]
fn numbers_of_the_front_are_refused(rt: HostRuntime) -> Result<(), Fail> {
    let rounds = [
        ("round 0\n", Cause::OutOfRange),
        ("round 1025\n", Cause::OutOfRange),
    ];
    refuses(&rt, rt.alloc(), "flstore 1\n", 2, &rounds)?;
    let maintainers = [
        ("maintainers 0\n", Cause::OutOfRange),
        ("maintainers 17\n", Cause::OutOfRange),
        ("put 0 =\n", Cause::OutOfPlace),
        ("end\n", Cause::OutOfPlace),
    ];
    refuses(&rt, rt.alloc(), "flstore 1\nround 1024\n", 3, &maintainers)
}

#[test]
fn steps_are_refused(rt: HostRuntime) -> Result<(), Fail> {
    let rows = [
        ("", Cause::TooShort),
        ("flstore 1\n", Cause::OutOfPlace),
        ("steps\n", Cause::UnknownWord),
        ("session A\n", Cause::UnknownWord),
        ("put 0\n", Cause::WrongWords),
        ("put 16 =\n", Cause::OutOfRange),
        ("put 0 a\n", Cause::BadBody),
        ("put x a\n", Cause::BadNumber),
        ("after 0 0 =\n", Cause::OutOfRange),
        ("after 0 4294967296 =\n", Cause::OutOfRange),
        ("after 0 = =\n", Cause::BadNumber),
        ("gossip 0 16\n", Cause::OutOfRange),
    ];
    refuses(&rt, rt.alloc(), FRONT, 6, &rows)
}

#[test]
fn more_steps_are_refused(rt: HostRuntime) -> Result<(), Fail> {
    let rows = [
        ("head 16\n", Cause::OutOfRange),
        ("head 0 0\n", Cause::WrongWords),
        ("read 0 0\n", Cause::OutOfRange),
        ("addmaintainer 0\n", Cause::OutOfRange),
        ("addmaintainer\n", Cause::WrongWords),
        ("end 1\n", Cause::WrongWords),
    ];
    refuses(&rt, rt.alloc(), FRONT, 6, &rows)
}

#[test]
fn the_17th_maintainer_is_refused(rt: HostRuntime) -> Result<(), Fail> {
    let rows = [
        ("addmaintainer 1\naddmaintainer 9\n", Cause::TooMany),
        ("end\nhead 0\n", Cause::AfterEnd),
        ("addmaintainer 4294967295\n", Cause::TooShort),
    ];
    refuses(&rt, rt.alloc(), FRONT, 7, &rows)
}

#[test]
fn long_bodies_are_refused(rt: HostRuntime) -> Result<(), Fail> {
    let alloc = rt.alloc();
    let mut script = Vec::from_slice(alloc, b"flstore 1\nround 1\nmaintainers 1\nput 0 =")?;
    for _ in 0..BODY_BYTES {
        script.push(b'a')?;
    }
    let mut longer = script.clone()?;
    longer.extend_from_slice(b"a\nend\n")?;
    script.extend_from_slice(b"\nend")?;
    assert!(&rt; read_flstore(alloc, &script).is_ok());
    let fault = ScriptFault::Bad {
        line: 4,
        cause: Cause::BadBody,
    };
    assert_eq!(&rt; read_flstore(alloc, &longer).err(), Some(fault));
    Ok(())
}

#[test]
fn too_many_steps_are_refused(rt: HostRuntime) -> Result<(), Fail> {
    let alloc = rt.alloc();
    let mut script = Vec::from_slice(alloc, b"flstore 1\nround 1\nmaintainers 1\n")?;
    for _ in 0..STEPS {
        script.extend_from_slice(b"head 0\n")?;
    }
    let mut longer = script.clone()?;
    longer.extend_from_slice(b"head 0\n")?;
    script.extend_from_slice(b"end\n")?;
    assert!(&rt; read_flstore(alloc, &script).is_ok());
    let fault = ScriptFault::Bad {
        line: 65_540,
        cause: Cause::TooMany,
    };
    assert_eq!(&rt; read_flstore(alloc, &longer).err(), Some(fault));
    Ok(())
}
