//! A reader of bytes: each part of a spelling, and the place where the bytes stop being one.

ghost use Rattle.std.specs.Prelude.{◌≡◌, ◌≢◌, ◌+◌, ◌++◌, ◌<◌, ◌≤◌, ◌^◌, ◌↔◌, ℕ, Some, None, [], length, drop, take, replicate, slice_set, IfOk, IfErr, IfSome, OnOk, IsTrue};
ghost use Rattle.std.specs.List.{flat_map};
ghost use Rattle.byteorder.specs.Endian.{big_bytes, big_number};
ghost use Rattle.cz_base.specs.declared.limits.TheConstants.{BODY_BYTES, DATACENTRES, NAME_BYTES, NUMBERS_END};
ghost use Rattle.cz_base.specs.Text.{IsName, is_name_byte, is_body_byte};
ghost use Rattle.record_codec.specs.Fields.{AreEntries, AreNames, AreRows, AreTold, FitsOwn, IsOther, IsShortBody, IsToldNext, greatest_entry, least_entry, told_bytes};
ghost use Rattle.record_codec.specs.Parts.{as_it_is, IsSized, IsText, IsBetween, IsWord, Misses};
ghost use Rattle.record_codec.specs.Reading.{BeginsNumber, FailsAt, ReaderState, ReadPast};
ghost use Rattle.record_codec.specs.Wire.{body_bytes, counts_bytes, dep_bytes, entry_bytes, name_bytes, names_bytes, sparse_bytes, table_bytes};

use crate::{DecodeFault, Form};
use byteorder::{BigEndian, ByteOrder};
use causal_deps::{Counts, Table};
use cz_base::limits::{BODY_BYTES, NAME_BYTES, NUMBERS_END};
use cz_base::{Body, BodyFault, DcId, Name, NameFault, Seq};
use std::alloc::Global;
use std::marker::Model;

/// Bytes that are read from the front, and how many have been. What is missed is told by its place.
#[derive(Drop)]
pub struct Reader<'a> {
    alloc: Global,
    left: &'a [u8],
    at: usize,
}

/// An entry of the dependencies.
#[derive(Clone, Copy)]
pub struct Entry {
    /// The datacentre of the entry.
    pub host: u32,
    /// How many of its records the dependencies count.
    pub count: u64,
}

impl<'a> Model for Reader<'a> {
    ghost use Rattle.std.specs.Prelude.{◌+◌, ◌<◌, ◌^◌, length};
    ghost use Rattle.record_codec.specs.Reading.{ReaderState};

    ghost Value = { ReaderState };

    ghost view = { λ reader. record { left = reader.left.now; at = reader.at } };

    ghost invariant = { λ reader. reader.at + length reader.left.now < 2 ^ 64 };
}

impl<'a> Reader<'a> {
    /// A reader of these bytes, none of which is read yet.
    pub fn new(alloc: Global, bytes: &'a [u8]) -> Self
        ensures { result ≡ record { left = bytes.now; at = 0 } }
    {
        Reader {
            alloc,
            left: bytes,
            at: 0,
        }
    }

    /// Where the memory of what is read comes from.
    pub fn alloc(&self) -> Global {
        self.alloc
    }

    /// Reads a number of so many bytes that is in the range.
    pub fn number(&mut self, width: usize, low: u64, high: u64) -> Result<u64, DecodeFault>
        requires width { 1 ≤ width }
        requires wide { width ≤ 8 }
        requires order { low ≤ high }
        requires fits { high < 256 ^ width }
        ensures ok { IfOk result (λ n. IsBetween low high n) }
        ensures took { IfOk result (λ n. ReadPast self.old self.new (big_bytes width n)) }
        ensures fault { IfErr result (FailsAt (IsWord (IsBetween low high) (big_bytes width)) self.old) }
    {
        match number_at(self.left(), width, low, high) {
            Ok(number) => {
                self.skip(width);
                Ok(number)
            }
            Err(off) => Err(self.malformed(off)),
        }
    }

    /// Reads a number of so many bytes that is in the range.
    pub fn small(&mut self, width: usize, low: u32, high: u32) -> Result<u32, DecodeFault>
        requires width { 1 ≤ width }
        requires wide { width ≤ 8 }
        requires order { low ≤ high }
        requires fits { high < 256 ^ width }
        ensures ok { IfOk result (λ n. IsBetween low high n) }
        ensures took { IfOk result (λ n. ReadPast self.old self.new (big_bytes width n)) }
        ensures fault { IfErr result (FailsAt (IsWord (IsBetween low high) (big_bytes width)) self.old) }
    {
        match self.number(width, low as u64, high as u64) {
            Ok(number) => Ok(number as u32),
            Err(fault) => Err(fault),
        }
    }

    /// Reads the number of a datacentre of the range.
    pub fn host(&mut self, low: u32, high: u32) -> Result<DcId, DecodeFault>
        requires order { low ≤ high }
        requires fits { high < DATACENTRES }
        ensures ok { IfOk result (λ host. IsBetween low high host) }
        ensures took { IfOk result (λ host. ReadPast self.old self.new (big_bytes 1 host)) }
        ensures fault { IfErr result (FailsAt (IsWord (IsBetween low high) (big_bytes 1)) self.old) }
    {
        let number = self.small(1, low, high)?;
        match DcId::new(number) {
            Some(host) => Ok(host),
            None => unreachable!(),
        }
    }

    /// Reads a name behind its length.
    pub fn name(&mut self) -> Result<Name, DecodeFault>
        ensures ok { IfOk result (λ name. IsName name) }
        ensures took { IfOk result (λ name. ReadPast self.old self.new (name_bytes name)) }
        ensures fault { IfErr result (FailsAt (IsWord IsName name_bytes) self.old) }
    {
        let len = self.small(1, 1, NAME_BYTES as u32)?;
        self.name_of(len as usize)
    }

    fn name_of(&mut self, len: usize) -> Result<Name, DecodeFault>
        requires some { 1 ≤ len }
        requires few { len ≤ NAME_BYTES }
        ensures ok { IfOk result (λ name. IsText is_name_byte len name) }
        ensures took { IfOk result (λ name. ReadPast self.old self.new name) }
        ensures fault { IfErr result (FailsAt (IsWord (IsText is_name_byte len) as_it_is) self.old) }
    {
        let here = self.front(len);
        match Name::read(self.alloc, here) {
            Ok(name) => {
                if here.len() < len {
                    return Err(self.malformed(here.len()));
                }
                self.skip(len);
                Ok(name)
            }
            Err(NameFault::Byte { at }) => Err(self.malformed(at)),
            // No byte is left.
            Err(NameFault::Length) => Err(self.malformed(0)),
            Err(NameFault::NoMemory) => Err(DecodeFault::NoMemory),
        }
    }

    /// Reads a body of at most so many bytes behind its length.
    pub fn body(&mut self, most: u32) -> Result<Body, DecodeFault>
        requires { most ≤ BODY_BYTES }
        ensures ok { IfOk result (λ body. IsShortBody most body) }
        ensures took { IfOk result (λ body. ReadPast self.old self.new (body_bytes body)) }
        ensures fault { IfErr result (FailsAt (IsWord (IsShortBody most) body_bytes) self.old) }
    {
        let len = self.small(2, 0, most)?;
        self.body_of(len as usize)
    }

    fn body_of(&mut self, len: usize) -> Result<Body, DecodeFault>
        requires { len ≤ BODY_BYTES }
        ensures ok { IfOk result (λ body. IsText is_body_byte len body) }
        ensures took { IfOk result (λ body. ReadPast self.old self.new body) }
        ensures fault { IfErr result (FailsAt (IsWord (IsText is_body_byte len) as_it_is) self.old) }
    {
        let here = self.front(len);
        match Body::read(self.alloc, here) {
            Ok(body) => {
                if here.len() < len {
                    return Err(self.malformed(here.len()));
                }
                self.skip(len);
                Ok(body)
            }
            Err(BodyFault::Byte { at }) => Err(self.malformed(at)),
            Err(BodyFault::Length) => unreachable!(),
            Err(BodyFault::NoMemory) => Err(DecodeFault::NoMemory),
        }
    }

    /// Reads names behind their number, which is in the range.
    pub fn names(&mut self, low: u32, high: u32) -> Result<Seq<Name>, DecodeFault>
        requires order { low ≤ high }
        requires fits { high < 256 }
        ensures ok { IfOk result (λ names. IsSized low high length AreNames names) }
        ensures took { IfOk result (λ names. ReadPast self.old self.new (names_bytes names)) }
        ensures fault { IfErr result (FailsAt (IsWord (IsSized low high length AreNames) names_bytes) self.old) }
    {
        let count = self.small(1, low, high)?;
        self.names_of(count)
    }

    fn names_of(&mut self, count: u32) -> Result<Seq<Name>, DecodeFault>
        ensures ok { IfOk result (λ names. AreNames count names) }
        ensures took { IfOk result (λ names. ReadPast self.old self.new (flat_map name_bytes names)) }
        ensures fault { IfErr result (FailsAt (IsWord (AreNames count) (flat_map name_bytes)) self.old) }
    {
        let mut names = Seq::new(self.alloc);
        for _done in 0..count {
            let name = self.name()?;
            names.push(name)?;
        }
        Ok(names)
    }

    /// Reads the dependencies of a record, of which the entry of its own host is known.
    pub fn dep(&mut self, form: Form, dcs: u32, own: Entry) -> Result<Counts, DecodeFault>
        requires dcs { (1 ≤ dcs) × (dcs ≤ DATACENTRES) }
        requires host { own.host < dcs }
        requires own { FitsOwn (Some own) }
        ensures ok { IfOk result (λ dep. AreEntries (Some own) dcs dep) }
        ensures took { IfOk result (λ dep. ReadPast self.old self.new (dep_bytes form own.host dep)) }
        ensures fault { IfErr result (FailsAt (IsWord (AreEntries (Some own) dcs) (dep_bytes form own.host)) self.old) }
    {
        match form {
            Form::Dense => self.counts(dcs, Some(own)),
            Form::Sparse => self.told(dcs, own),
        }
    }

    // Reads the entries that are told behind their number; all others but the own one are zeros.
    fn told(&mut self, dcs: u32, own: Entry) -> Result<Counts, DecodeFault>
        requires dcs { (1 ≤ dcs) × (dcs ≤ DATACENTRES) }
        requires host { own.host < dcs }
        requires own { FitsOwn (Some own) }
        ensures ok { IfOk result (λ dep. AreEntries (Some own) dcs dep) }
        ensures took { IfOk result (λ dep. ReadPast self.old self.new (sparse_bytes own.host dep)) }
        ensures fault { IfErr result (FailsAt (IsWord (AreEntries (Some own) dcs) (sparse_bytes own.host)) self.old) }
    {
        let count = self.small(1, 0, dcs - 1)?;
        self.told_of(dcs, own, count)
    }

    fn told_of(&mut self, dcs: u32, own: Entry, count: u32) -> Result<Counts, DecodeFault>
        requires dcs { (1 ≤ dcs) × (dcs ≤ DATACENTRES) }
        requires host { own.host < dcs }
        requires own { FitsOwn (Some own) }
        requires count { count < dcs }
        ensures ok { IfOk result (λ dep. AreTold own dcs count dep) }
        ensures took { IfOk result (λ dep. ReadPast self.old self.new (told_bytes own.host dep)) }
        ensures fault { IfErr result (FailsAt (IsWord (AreTold own dcs count) (told_bytes own.host)) self.old) }
    {
        let mut dep = own_alone(dcs, own);
        let mut next = 0;
        for told in 0..count {
            let entry = self.entry(own.host, dcs, next, count - 1 - told)?;
            dep.put(datacentre(entry.host), entry.count);
            next = entry.host + 1;
        }
        Ok(dep)
    }

    // Reads the entry of another datacentre than the own one, from datacentre `low` on, which `more` entries follow.
    fn entry(&mut self, own: u32, dcs: u32, low: u32, more: u32) -> Result<Entry, DecodeFault>
        requires dcs { dcs ≤ DATACENTRES }
        requires own { own < dcs }
        requires room { (host : ℕ) × IsOther own dcs low more host }
        ensures ok { IfOk result (λ entry. IsToldNext own dcs low more entry) }
        ensures took { IfOk result (λ entry. ReadPast self.old self.new (entry_bytes entry)) }
        ensures fault { IfErr result (FailsAt (IsWord (IsToldNext own dcs low more) entry_bytes) self.old) }
    {
        let host = self.other(own, dcs, low, more)?;
        let count = self.number(8, 1, NUMBERS_END - 1)?;
        Ok(Entry { host, count })
    }

    // Reads the number of that datacentre.
    fn other(&mut self, own: u32, dcs: u32, low: u32, more: u32) -> Result<u32, DecodeFault>
        requires dcs { dcs ≤ DATACENTRES }
        requires own { own < dcs }
        requires room { (host : ℕ) × IsOther own dcs low more host }
        ensures ok { IfOk result (λ host. IsOther own dcs low more host) }
        ensures took { IfOk result (λ host. ReadPast self.old self.new (big_bytes 1 host)) }
        ensures fault { IfErr result (FailsAt (IsWord (IsOther own dcs low more) (big_bytes 1)) self.old) }
    {
        let here = self.malformed(0);
        let host = self.small(1, low, last_other(own, dcs, more))?;
        if host == own {
            return Err(here);
        }
        Ok(host)
    }

    /// Reads an entry for each datacentre, where one may be known.
    pub fn counts(&mut self, dcs: u32, own: Option<Entry>) -> Result<Counts, DecodeFault>
        requires dcs { (1 ≤ dcs) × (dcs ≤ DATACENTRES) }
        requires own { FitsOwn own }
        ensures ok { IfOk result (λ counts. AreEntries own dcs counts) }
        ensures took { IfOk result (λ counts. ReadPast self.old self.new (counts_bytes counts)) }
        ensures fault { IfErr result (FailsAt (IsWord (AreEntries own dcs) counts_bytes) self.old) }
    {
        let mut counts = Counts::zero(dcs);
        for at in 0..dcs {
            let (low, high) = range_of(own, at);
            let count = self.number(8, low, high)?;
            counts.put(datacentre(at), count);
        }
        Ok(counts)
    }

    /// Reads a row for each datacentre.
    pub fn table(&mut self, dcs: u32) -> Result<Table, DecodeFault>
        requires { (1 ≤ dcs) × (dcs ≤ DATACENTRES) }
        ensures ok { IfOk result (λ table. AreRows dcs table) }
        ensures took { IfOk result (λ table. ReadPast self.old self.new (table_bytes table)) }
        ensures fault { IfErr result (FailsAt (IsWord (AreRows dcs) table_bytes) self.old) }
    {
        let mut table = Table::zero(dcs);
        for at in 0..dcs {
            let row = self.counts(dcs, None)?;
            table.raise_row(datacentre(at), &row);
        }
        Ok(table)
    }

    /// Whether no byte is left.
    pub fn end(&self) -> Result<(), DecodeFault>
        ensures ok { OnOk result (self.now.left ≡ []) }
        ensures fault { IfErr result (λ fault. (fault ≡ DecodeFault.Malformed self.now.at) × (self.now.left ≢ [])) }
    {
        if self.left.is_empty() {
            Ok(())
        } else {
            Err(DecodeFault::Malformed { at: self.at })
        }
    }

    fn left(&self) -> &'a [u8]
        ensures { result.now ≡ self.now.left }
    {
        self.left
    }

    // So many of the bytes that are left, or all of them.
    fn front(&self, count: usize) -> &'a [u8]
        ensures { result.now ≡ take count self.now.left }
    {
        &self.left[..count.min(self.left.len())]
    }

    fn skip(&mut self, count: usize)
        requires { count ≤ length self.old.left }
        ensures { self.new ≡ record { left = drop count self.old.left; at = self.old.at + count } }
    {
        self.left = &self.left[count..];
        self.at += count;
    }

    fn malformed(&self, off: usize) -> DecodeFault
        requires { off ≤ length self.now.left }
        ensures { result ≡ DecodeFault.Malformed (self.now.at + off) }
    {
        DecodeFault::Malformed { at: self.at + off }
    }
}

/// The datacentre of a number.
pub fn datacentre(number: u32) -> DcId
    requires { number < DATACENTRES }
    ensures { result ≡ number }
{
    match DcId::new(number) {
        Some(dc) => dc,
        None => unreachable!(),
    }
}

// Zeros but for the own entry.
fn own_alone(dcs: u32, own: Entry) -> Counts
    requires dcs { (1 ≤ dcs) × (dcs ≤ DATACENTRES) }
    requires host { own.host < dcs }
    ensures { result ≡ slice_set (replicate dcs 0) own.host own.count }
{
    let mut counts = Counts::zero(dcs);
    counts.put(datacentre(own.host), own.count);
    counts
}

// The last datacentre but the own one above which there are so many more of these.
fn last_other(own: u32, dcs: u32, more: u32) -> u32
    requires own { own < dcs }
    requires room { more + 2 ≤ dcs }
    ensures other { result ≢ own }
    ensures below { (host : ℕ) → host < own → (host ≤ result) ↔ (host + more + 2 ≤ dcs) }
    ensures above { (host : ℕ) → own < host → (host ≤ result) ↔ (host + more + 1 ≤ dcs) }
    ensures within { result < dcs }
{
    let last = dcs - 2 - more;
    if last < own { last } else { last + 1 }
}

// The range of an entry, where one may be known.
fn range_of(own: Option<Entry>, at: u32) -> (u64, u64)
    requires { FitsOwn own }
    ensures low { result.0 ≡ least_entry own at }
    ensures high { result.1 ≡ greatest_entry own at }
    ensures order { result.0 ≤ result.1 }
    ensures fits { result.1 < NUMBERS_END }
{
    match own {
        Some(own) if at == own.host => (own.count, own.count),
        _ => (0, NUMBERS_END - 1),
    }
}

// The number of the range that the bytes begin with, or how many of them begin one.
fn number_at(bytes: &[u8], width: usize, low: u64, high: u64) -> Result<u64, usize>
    requires width { 1 ≤ width }
    requires wide { width ≤ 8 }
    requires order { low ≤ high }
    requires fits { high < 256 ^ width }
    ensures ok { IfOk result (λ n. IsBetween low high n) }
    ensures room { OnOk result (width ≤ length bytes.now) }
    ensures spelled { IfOk result (λ n. bytes.now ≡ big_bytes width n ++ drop width bytes.now) }
    ensures err { IfErr result (Misses (IsWord (IsBetween low high) (big_bytes width)) bytes.now) }
    ensures within { IfErr result (λ off. off ≤ length bytes.now) }
{
    match whole_number(bytes, width, low, high) {
        Some(number) => Ok(number),
        None => Err(begun_bytes(bytes, width, low, high)),
    }
}

// The number that the bytes begin with, where it is there and in the range.
fn whole_number(bytes: &[u8], width: usize, low: u64, high: u64) -> Option<u64>
    requires width { 1 ≤ width }
    requires wide { width ≤ 8 }
    ensures some { IfSome result (λ n. IsBetween low high n × (width ≤ length bytes.now) × (n ≡ big_number width bytes.now)) }
    ensures none { result ≡ None → width ≤ length bytes.now → ¬ IsBetween low high (big_number width bytes.now) }
{
    if bytes.len() < width {
        return None;
    }
    let number = BigEndian::read_uint(bytes, width);
    if number < low || high < number {
        return None;
    }
    Some(number)
}

// How many bytes from the front begin a number of the range.
fn begun_bytes(bytes: &[u8], width: usize, low: u64, high: u64) -> usize
    requires wide { width ≤ 8 }
    requires order { low ≤ high }
    requires fits { high < 256 ^ width }
    ensures within { result ≤ length bytes.now }
    ensures width { result ≤ width }
    ensures begins { BeginsNumber width low high bytes.now result }
    ensures longest { result < width → result < length bytes.now → ¬ BeginsNumber width low high bytes.now (result + 1) }
{
    for known in 0..width {
        if bytes.len() <= known || !begins_number(bytes, known + 1, width, low, high) {
            return known;
        }
    }
    width
}

// Whether the known bytes begin a number of the range.
fn begins_number(bytes: &[u8], known: usize, width: usize, low: u64, high: u64) -> bool
    requires some { 1 ≤ known }
    requires known { known ≤ width }
    requires room { known ≤ length bytes.now }
    requires wide { width ≤ 8 }
    ensures { IsTrue result ↔ BeginsNumber width low high bytes.now known }
{
    let number = BigEndian::read_uint(bytes, known);
    let unknown = 8 * (width - known);
    low >> unknown <= number && number <= high >> unknown
}
