//! The words of a line, one after another, and what a word spells.

ghost use Rattle.std.specs.Prelude.{◌≡◌, ℕ, ◌+◌, ◌-◌, ◌<◌, ◌≤◌, List, [], ◌∷◌, length, slice_index, IfOk, MatchOption, IsTrue, true, false};
ghost use Rattle.std.specs.List.{position, list_all, count_by};
ghost use Rattle.script_text.specs.Words.{words, is_blank, is_digit, is_number, number_of, is_datacentre};
ghost use Rattle.script_text.specs.Reading.{Gives, Reads, number_in, number_at, number_below_at, datacentre_at, other_datacentre_at, body_at, body_in, names_in, name_in, name_at};

use crate::fault::{Cause, ReadFault};
use cz_base::{Body, BodyFault, DcId, Name, NameFault, Seq};
use std::alloc::Global;
use std::marker::Model;

/// The words of a line that are left. Contracts see them as a list.
#[derive(Drop)]
pub struct Words<'a> {
    rest: &'a [u8],
    ended: bool,
}

impl<'a> Model for Words<'a> {
    ghost use Rattle.std.specs.Prelude.{List, ℕ};
    ghost use Rattle.script_text.specs.Words.{words_left};

    ghost Value = { List (List ℕ) };

    ghost view = { λ left. words_left left.ended left.rest.now };
}

impl<'a> Words<'a> {
    /// All words of a line.
    pub fn new(line: &'a [u8]) -> Self
        ensures { result ≡ words line.now }
    {
        Words {
            rest: line,
            ended: false,
        }
    }

    /// How many words are left.
    pub fn len(&self) -> usize
        ensures { result ≡ length self.now }
    {
        if self.ended { 0 } else { blanks(self.rest) + 1 }
    }

    /// The next word, which is then no longer left.
    pub fn next_word(&mut self) -> Option<&'a [u8]>
        ensures { MatchOption result ((self.old ≡ []) × (self.new ≡ [])) (λ word. self.old ≡ word.now ∷ self.new) }
    {
        if self.ended {
            return None;
        }
        let rest = self.rest;
        match blank_at(rest) {
            Some(at) => {
                self.rest = &rest[at + 1..];
                Some(&rest[..at])
            }
            None => {
                self.ended = true;
                Some(rest)
            }
        }
    }

    /// The next word as a number from `least` to `most`.
    #[tactic(auto, unfolding(crate::specs::Reading::number_at))]
    pub fn number(&mut self, least: u32, most: u32) -> Result<u32, Cause>
        ensures { Reads (λ n. (n, self.new)) result (number_at least most self.old) }
    {
        let Some(word) = self.next_word() else {
            return Err(Cause::WrongWords);
        };
        read_number(word, least, most)
    }

    /// The next word as a number below a limit.
    #[tactic(auto, unfolding(crate::specs::Reading::number_below_at))]
    pub fn number_below(&mut self, limit: usize) -> Result<u32, Cause>
        ensures { Reads (λ n. (n, self.new)) result (number_below_at limit self.old) }
    {
        let number = self.number(0, u32::MAX)?;
        if (number as usize) < limit {
            Ok(number)
        } else {
            Err(Cause::OutOfRange)
        }
    }

    /// The next word as one of so many datacentres.
    #[tactic(auto, unfolding(crate::specs::Reading::datacentre_at))]
    pub fn datacentre(&mut self, dcs: u32) -> Result<DcId, Cause>
        ensures { Reads (λ dc. (dc, self.new)) result (datacentre_at dcs self.old) }
    {
        let Some(word) = self.next_word() else {
            return Err(Cause::WrongWords);
        };
        match read_datacentre(word, dcs) {
            Some(dc) => Ok(dc),
            None => Err(Cause::BadDatacentre),
        }
    }

    /// The next word as one of so many datacentres, but not the first.
    #[tactic(auto, unfolding(crate::specs::Reading::other_datacentre_at))]
    pub fn other_datacentre(&mut self, dcs: u32, first: DcId) -> Result<DcId, Cause>
        ensures { Reads (λ dc. (dc, self.new)) result (other_datacentre_at dcs first self.old) }
    {
        let dc = self.datacentre(dcs)?;
        if dc == first {
            return Err(Cause::BadDatacentre);
        }
        Ok(dc)
    }

    /// The next word as a name.
    #[tactic(auto, unfolding(crate::specs::Reading::name_at))]
    pub fn name(&mut self, alloc: Global) -> Result<Name, ReadFault>
        ensures { Gives (λ name. (name, self.new)) result (name_at self.old) }
    {
        let Some(word) = self.next_word() else {
            return Err(ReadFault::Bad(Cause::WrongWords));
        };
        read_name(alloc, word)
    }

    /// The next word as a body.
    #[tactic(auto, unfolding(crate::specs::Reading::body_at))]
    pub fn body(&mut self, alloc: Global) -> Result<Body, ReadFault>
        ensures { Gives (λ body. (body, self.new)) result (body_at self.old) }
    {
        let Some(word) = self.next_word() else {
            return Err(ReadFault::Bad(Cause::WrongWords));
        };
        read_body(alloc, word)
    }

    /// All words that are left as names.
    #[tactic(auto, unfolding(crate::specs::Reading::names_in))]
    pub fn names(&mut self, alloc: Global) -> Result<Seq<Name>, ReadFault>
        ensures names { Gives (λ names. names) result (names_in self.old) }
        ensures left { IfOk result (λ _. self.new ≡ []) }
    {
        let mut names = Seq::from_vec(Vec::with_capacity(alloc, self.len())?);
        while let Some(word) = self.next_word() {
            names.push(read_name(alloc, word)?)?;
        }
        Ok(names)
    }
}

// The place of the first blank.
fn blank_at(text: &[u8]) -> Option<usize>
    ensures { result ≡ position is_blank text.now }
{
    text.iter().position(|b| *b == b' ')
}

// How many blanks there are.
fn blanks(text: &[u8]) -> usize
    ensures { result ≡ count_by is_blank text.now }
{
    text.iter().filter(|b| **b == b' ').count()
}

// The name that a word spells.
fn read_name(alloc: Global, word: &[u8]) -> Result<Name, ReadFault>
    ensures { Gives (λ name. name) result (name_in word.now) }
{
    match Name::read(alloc, word) {
        Ok(name) => Ok(name),
        Err(NameFault::NoMemory) => Err(ReadFault::NoMemory),
        Err(NameFault::Length) => Err(ReadFault::Bad(Cause::BadName)),
        Err(NameFault::Byte { .. }) => Err(ReadFault::Bad(Cause::BadName)),
    }
}

// The body that a word spells.
fn read_body(alloc: Global, word: &[u8]) -> Result<Body, ReadFault>
    ensures { Gives (λ body. body) result (body_in word.now) }
{
    let [b'=', bytes @ ..] = word else {
        return Err(ReadFault::Bad(Cause::BadBody));
    };
    match Body::read(alloc, bytes) {
        Ok(body) => Ok(body),
        Err(BodyFault::NoMemory) => Err(ReadFault::NoMemory),
        Err(BodyFault::Length) => Err(ReadFault::Bad(Cause::BadBody)),
        Err(BodyFault::Byte { .. }) => Err(ReadFault::Bad(Cause::BadBody)),
    }
}

// The datacentre whose letter a word is.
fn read_datacentre(word: &[u8], dcs: u32) -> Option<DcId>
    ensures { MatchOption result (is_datacentre dcs word.now ≡ false) (λ dc. (is_datacentre dcs word.now ≡ true) × (dc ≡ slice_index word.now 0 - 65)) }
{
    let [letter] = word else {
        return None;
    };
    if *letter < b'A' {
        return None;
    }
    let number = u32::from(*letter - b'A');
    if number < dcs {
        DcId::new(number)
    } else {
        None
    }
}

// The number of a range that a word spells.
fn read_number(word: &[u8], least: u32, most: u32) -> Result<u32, Cause>
    ensures { result ≡ number_in least most word.now }
{
    if !is_number(word) {
        return Err(Cause::BadNumber);
    }
    let number = number_of(word);
    if u64::from(least) <= number && number <= u64::from(most) {
        Ok(number as u32)
    } else {
        Err(Cause::OutOfRange)
    }
}

// Whether a word is `0`, or at most ten digits of which the first is not 0.
fn is_number(word: &[u8]) -> bool
    ensures { result ≡ is_number word.now }
{
    all_digits(word) && !word.is_empty() && word.len() <= 10 && (word.len() <= 1 || word[0] != b'0')
}

// Whether each byte is a digit.
fn all_digits(word: &[u8]) -> bool
    ensures { result ≡ list_all is_digit word.now }
{
    word.iter().all(|b| is_digit(*b))
}

fn is_digit(byte: u8) -> bool
    ensures { result ≡ is_digit byte }
{
    matches!(byte, b'0'..=b'9')
}

// The number that at most ten digits spell.
fn number_of(digits: &[u8]) -> u64
    requires digits { IsTrue (list_all is_digit digits.now) }
    requires short { length digits.now ≤ 10 }
    ensures { result ≡ number_of digits.now }
{
    let mut number: u64 = 0;
    for digit in digits {
        number = number * 10 + u64::from(*digit - b'0');
    }
    number
}
