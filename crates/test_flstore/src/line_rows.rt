//! Lines that are split into words, and those that are not.
use script_text::{LineFault, split_line};
use std::alloc::Global;
use std::convert::AsStr;
use std::process::Abort;
use std::test::Fail;

// The line has these words.
fn has_words(rt: &impl Abort, alloc: Global, line: &str, words: &[&str]) -> Result<(), Fail> {
    let found = split_line(alloc, line.as_bytes())?;
    assert_eq!(rt; found.len(), words.len());
    for (at, word) in words.iter().enumerate() {
        let same = match found.get(at) {
            Some(found) => found.as_str() == *word,
            None => false,
        };
        assert!(rt; same);
    }
    Ok(())
}

#[test]
fn lines_are_split(rt: HostRuntime) -> Result<(), Fail> {
    has_words(&rt, rt.alloc(), "put 0 =a", &["put", "0", "=a"])?;
    has_words(&rt, rt.alloc(), "~", &["~"])?;
    has_words(&rt, rt.alloc(), "# b", &["#", "b"])
}

#[test]
fn bad_lines_are_not_split(rt: HostRuntime) -> Result<(), Fail> {
    let rows: [(&[u8], LineFault); 6] = [
        (b"", LineFault::Spacing),
        (b" a", LineFault::Spacing),
        (b"a  b", LineFault::Spacing),
        (b"a ", LineFault::Spacing),
        (b"a  b\x7F", LineFault::Byte),
        (b"a\tb", LineFault::Byte),
    ];
    for (line, fault) in &rows {
        assert_eq!(&rt; split_line(rt.alloc(), line).err(), Some(*fault));
    }
    Ok(())
}
