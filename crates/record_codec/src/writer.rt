//! A writer of bytes: each part of a spelling.

ghost use Rattle.std.specs.Prelude.{◌≡◌, ◌++◌, ◌<◌, ◌≤◌, ◌^◌, ◌==◌, ◌||◌, not, [], All, length, IfOk, OnOk};
ghost use Rattle.std.specs.List.{flat_map};
ghost use Rattle.byteorder.specs.Endian.{big_bytes};
ghost use Rattle.cz_base.specs.declared.limits.TheConstants.{DATACENTRES};
ghost use Rattle.cz_base.specs.Text.{IsName, IsBody};
ghost use Rattle.record_codec.specs.Fields.{told_bytes};
ghost use Rattle.record_codec.specs.Wire.{body_bytes, counts_bytes, dep_bytes, entry_bytes, name_bytes, names_bytes, sparse_bytes, table_bytes, told_entries};

use crate::Form;
use crate::reader::datacentre;
use byteorder::{BigEndian, ByteOrder};
use causal_deps::{Counts, Table};
use cz_base::{Body, DcId, Name, NoMemory, Seq};
use std::alloc::Global;
use std::marker::Model;

/// Bytes that grow at the end. Contracts see the list of them.
#[derive(Drop)]
pub struct Writer {
    bytes: Vec<u8>,
}

impl Model for Writer {
    ghost use Rattle.std.specs.Prelude.{List, ℕ};

    ghost Value = { List ℕ };

    ghost view = { λ writer. writer.bytes.items };
}

impl Writer {
    /// No bytes yet, and room for so many.
    pub fn with_room(alloc: Global, room: usize) -> Result<Self, NoMemory>
        ensures { IfOk result (λ writer. writer ≡ []) }
    {
        Ok(Writer {
            bytes: Vec::with_capacity(alloc, room)?,
        })
    }

    /// The bytes that were written.
    pub fn into_bytes(self) -> Vec<u8>
        ensures { result.items ≡ self }
    {
        let Writer { bytes } = self;
        bytes
    }

    /// Writes a number in so many bytes.
    pub fn number(&mut self, width: usize, number: u64) -> Result<(), NoMemory>
        requires width { 1 ≤ width }
        requires wide { width ≤ 8 }
        requires fits { number < 256 ^ width }
        ensures { OnOk result (self.new ≡ self.old ++ big_bytes width number) }
    {
        let mut bytes = [0; 8];
        BigEndian::write_uint(&mut bytes, number, width);
        self.text(&bytes[..width])
    }

    fn text(&mut self, text: &[u8]) -> Result<(), NoMemory>
        ensures { OnOk result (self.new ≡ self.old ++ text.now) }
    {
        self.bytes.extend_from_slice(text)?;
        Ok(())
    }

    // Writes a name behind its length.
    fn name(&mut self, name: &Name) -> Result<(), NoMemory>
        ensures ok { OnOk result (self.new ≡ self.old ++ name_bytes name.now) }
        ensures is { OnOk result (IsName name.now) }
    {
        let text = name.as_bytes();
        self.number(1, text.len() as u64)?;
        self.text(text)
    }

    /// Writes names behind their number.
    pub fn names(&mut self, names: &Seq<Name>) -> Result<(), NoMemory>
        requires { length names.now < 256 }
        ensures ok { OnOk result (self.new ≡ self.old ++ names_bytes names.now) }
        ensures are { OnOk result (All IsName names.now) }
    {
        self.number(1, names.len() as u64)?;
        self.each_name(names)
    }

    fn each_name(&mut self, names: &Seq<Name>) -> Result<(), NoMemory>
        ensures ok { OnOk result (self.new ≡ self.old ++ flat_map name_bytes names.now) }
        ensures are { OnOk result (All IsName names.now) }
    {
        for name in names.as_slice() {
            self.name(name)?;
        }
        Ok(())
    }

    /// Writes a body behind its length.
    pub fn body(&mut self, body: &Body) -> Result<(), NoMemory>
        ensures ok { OnOk result (self.new ≡ self.old ++ body_bytes body.now) }
        ensures is { OnOk result (IsBody body.now) }
    {
        let text = body.as_bytes();
        self.number(2, text.len() as u64)?;
        self.text(text)
    }

    /// Writes the dependencies of a record of the host.
    pub fn dep(&mut self, form: Form, host: DcId, dep: &Counts) -> Result<(), NoMemory>
        ensures { OnOk result (self.new ≡ self.old ++ dep_bytes form host dep.now) }
    {
        match form {
            Form::Dense => self.counts(dep),
            Form::Sparse => self.told(host.number(), dep),
        }
    }

    // Writes the entries that are told behind their number.
    fn told(&mut self, own: u32, dep: &Counts) -> Result<(), NoMemory>
        ensures { OnOk result (self.new ≡ self.old ++ sparse_bytes own dep.now) }
    {
        self.number(1, told_count(own, dep) as u64)?;
        self.each_told(own, dep)
    }

    fn each_told(&mut self, own: u32, dep: &Counts) -> Result<(), NoMemory>
        ensures { OnOk result (self.new ≡ self.old ++ told_bytes own dep.now) }
    {
        for at in 0..dep.dcs() {
            let count = dep.get(datacentre(at));
            if is_told(own, at, count) {
                self.entry(at, count)?;
            }
        }
        Ok(())
    }

    fn entry(&mut self, host: u32, count: u64) -> Result<(), NoMemory>
        requires { host < 256 }
        ensures { OnOk result (self.new ≡ self.old ++ entry_bytes (record { host = host; count = count })) }
    {
        self.number(1, host as u64)?;
        self.number(8, count)
    }

    /// Writes each entry.
    pub fn counts(&mut self, counts: &Counts) -> Result<(), NoMemory>
        ensures { OnOk result (self.new ≡ self.old ++ counts_bytes counts.now) }
    {
        for at in 0..counts.dcs() {
            self.number(8, counts.get(datacentre(at)))?;
        }
        Ok(())
    }

    /// Writes each row.
    pub fn table(&mut self, table: &Table) -> Result<(), NoMemory>
        ensures { OnOk result (self.new ≡ self.old ++ table_bytes table.now) }
    {
        for at in 0..table.dcs() {
            self.counts(&table.row(datacentre(at)))?;
        }
        Ok(())
    }
}

// Whether the sparse form tells the entry of a datacentre.
fn is_told(own: u32, at: u32, count: u64) -> bool
    ensures { result ≡ not ((at == own) || (count == 0)) }
{
    at != own && count != 0
}

/// How many entries the sparse form tells.
pub fn told_count(own: u32, dep: &Counts) -> u32
    ensures count { result ≡ length (told_entries own 0 dep.now) }
    ensures few { result ≤ DATACENTRES }
{
    let mut told = 0;
    for at in 0..dep.dcs() {
        if is_told(own, at, dep.get(datacentre(at))) {
            told += 1;
        }
    }
    told
}
