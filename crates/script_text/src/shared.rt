//! What every reader of lines shares: the bytes and words that a line may have, and its words as texts.

ghost use Rattle.std.specs.Prelude.{◌≡◌, ◌↔◌, true, false, IfOk, IsErrOf};
ghost use Rattle.std.specs.List.{list_all, list_any};
ghost use Rattle.script_text.specs.Words.{words, is_line_byte, is_empty_word};
ghost use Rattle.script_text.specs.Meaning.{is_passed_over};

use crate::words::Words;
use cz_base::{NoMemory, Seq, Word};
use std::alloc::Global;
use std::str;
use thiserror::Error;

/// Why a line is not split into words.
#[derive(Clone, Copy, Debug, PartialEq, Eq, Error)]
pub enum LineFault {
    /// A byte that no line has: outside 0x20 to 0x7E.
    #[error("bad byte")]
    Byte,
    /// Two blanks side by side, or one at an end of the line.
    #[error("bad spacing")]
    Spacing,
    /// There was no memory for its words.
    #[error("no memory")]
    NoMemory,
}

/// The words of a line. It is refused for a bad byte exactly where it has one, and for its spacing exactly where it has
/// no bad byte and an empty word.
pub fn split_line(alloc: Global, bytes: &[u8]) -> Result<Seq<Word>, LineFault>
    ensures words { IfOk result (λ found. found ≡ words bytes.now) }
    ensures byte { IsErrOf result LineFault.Byte ↔ (list_all is_line_byte bytes.now ≡ false) }
    ensures spacing { IsErrOf result LineFault.Spacing ↔ ((list_all is_line_byte bytes.now ≡ true) × (list_any is_empty_word (words bytes.now) ≡ true)) }
{
    if !has_line_bytes(bytes) {
        return Err(LineFault::Byte);
    }
    if has_empty_word(bytes) {
        return Err(LineFault::Spacing);
    }
    match copy_words(alloc, bytes) {
        Ok(found) => Ok(found),
        Err(_) => Err(LineFault::NoMemory),
    }
}

// The words of a line as texts.
fn copy_words(alloc: Global, line: &[u8]) -> Result<Seq<Word>, NoMemory>
    requires { list_all is_line_byte line.now ≡ true }
    ensures { IfOk result (λ found. found ≡ words line.now) }
{
    let mut left = Words::new(line);
    let mut found = Seq::from_vec(Vec::with_capacity(alloc, left.len())?);
    while let Some(word) = left.next_word() {
        let Ok(text) = str::from_utf8(word) else {
            unreachable!()
        };
        found.push(Word::new(alloc, text)?)?;
    }
    Ok(found)
}

/// Whether each byte of a line is one that a line may have.
pub fn has_line_bytes(line: &[u8]) -> bool
    ensures { result ≡ list_all is_line_byte line.now }
{
    line.iter().all(|b| is_line_byte(*b))
}

fn is_line_byte(byte: u8) -> bool
    ensures { result ≡ is_line_byte byte }
{
    matches!(byte, 0x20..=0x7E)
}

/// Whether a line says nothing: it is empty or a comment.
pub fn is_passed_over(line: &[u8]) -> bool
    ensures { result ≡ is_passed_over line.now }
{
    match line {
        [] => true,
        [first, ..] => *first == b'#',
    }
}

/// Whether two blanks stand side by side in a line, or one at an end.
pub fn has_empty_word(line: &[u8]) -> bool
    ensures { result ≡ list_any is_empty_word (words line.now) }
{
    let mut left = Words::new(line);
    while let Some(word) = left.next_word() {
        if word.is_empty() {
            return true;
        }
    }
    false
}
