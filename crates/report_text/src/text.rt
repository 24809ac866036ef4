//! A text in the making.

ghost use Rattle.std.specs.Prelude.{◌≡◌, [], ◌++◌, OnOk};
ghost use Rattle.std.specs.Fmt.{decimal};
ghost use Rattle.report_text.specs.Lines.{line_feed, spaced, with_space};
ghost use Rattle.report_text.specs.Turns.{labelled};

use cz_base::NoMemory;
use std::alloc::Global;
use std::marker::Model;

/// A text in the making, which contracts see as its bytes. Each call fails only where memory runs out.
#[derive(Drop)]
pub struct Text {
    alloc: Global,
    bytes: Vec<u8>,
}

impl Model for Text {
    ghost use Rattle.std.specs.Prelude.{List, ℕ};

    ghost Value = { List ℕ };

    ghost view = { λ text. text.bytes.items };
}

impl Text {
    /// An empty text. It takes no memory until something is put.
    pub fn new(alloc: Global) -> Self
        ensures { result ≡ [] }
    {
        Text {
            alloc,
            bytes: Vec::new(alloc),
        }
    }

    /// Its bytes.
    pub fn as_bytes(&self) -> &[u8]
        ensures { result.now ≡ self.now }
    {
        &self.bytes
    }

    /// The same bytes, with no memory taken.
    pub fn into_bytes(self) -> Vec<u8>
        ensures { result.items ≡ self }
    {
        let Text { alloc: _, bytes } = self;
        bytes
    }

    /// Some bytes go last.
    pub fn put(&mut self, piece: &[u8]) -> Result<(), NoMemory>
        ensures { OnOk result (self.new ≡ self.old ++ piece.now) }
    {
        self.bytes.extend_from_slice(piece)?;
        Ok(())
    }

    /// A number in decimal digits.
    pub fn put_number(&mut self, n: u64) -> Result<(), NoMemory>
        ensures { OnOk result (self.new ≡ self.old ++ decimal n) }
    {
        let digits = format!(in self.alloc; "{n}")?;
        self.put(digits.as_str().as_bytes())
    }

    /// A space and a word.
    pub fn word(&mut self, word: &[u8]) -> Result<(), NoMemory>
        ensures { OnOk result (self.new ≡ self.old ++ with_space word.now) }
    {
        self.put(b" ")?;
        self.put(word)
    }

    /// A space and a number.
    pub fn number(&mut self, n: u64) -> Result<(), NoMemory>
        ensures { OnOk result (self.new ≡ self.old ++ with_space (decimal n)) }
    {
        self.put(b" ")?;
        self.put_number(n)
    }

    /// A word and what it tells of, each after a space.
    pub fn labelled(&mut self, word: &[u8], n: u64) -> Result<(), NoMemory>
        ensures { OnOk result (self.new ≡ self.old ++ spaced (labelled word.now n)) }
    {
        self.word(word)?;
        self.number(n)
    }

    /// A line feed goes last.
    pub fn end_line(&mut self) -> Result<(), NoMemory>
        ensures { OnOk result (self.new ≡ self.old ++ line_feed) }
    {
        self.put(b"\n")
    }
}
