//! Records: a head, dependencies, tags and a body.

ghost use Rattle.std.specs.Prelude.{◌≡◌, ◌++◌, ◌<◌, ◌≤◌, length, IfOk, IfErr, MatchResult, OnOk};
ghost use Rattle.cz_base.specs.declared.limits.TheConstants.{BODY_BYTES, DATACENTRES};
ghost use Rattle.record_codec.specs.declared.form.Form.TheVariants.{Dense, Sparse};
ghost use Rattle.record_codec.specs.declared.fault.DecodeFault.TheVariants.{NoMemory as OutOfMemory};
ghost use Rattle.causal_deps.specs.declared.record.Record.{Record as RecordValue};
ghost use Rattle.record_codec.specs.Fields.{head_word, HasHeadRanges, IsKind, IsRecord, kind_bytes, most_in};
ghost use Rattle.record_codec.specs.Parts.{IsWord};
ghost use Rattle.record_codec.specs.Reading.{FailsAt, ReadPast};
ghost use Rattle.record_codec.specs.Starts.{IsRefusedBytes};
ghost use Rattle.record_codec.specs.Wire.{fewest_tags, head_bytes, kind_number, most_tags, record_bytes, FitsRecord, HasTexts, IsRecordText, IsWritable, SpellsRecord};

use crate::form::most_bytes;
use crate::reader::{Entry, Reader};
use crate::size::record_size;
use crate::writer::Writer;
use crate::{DecodeFault, Form};
use causal_deps::{Kind, Record};
use cz_base::limits::{BODY_BYTES, COMMANDS, NUMBERS_END, SESSIONS, TAGS};
use cz_base::{DcId, NoMemory, Toid};
use std::alloc::Global;

/// What says whose record it is, and which.
#[derive(Clone, Copy)]
pub struct Head {
    host: DcId,
    toid: Toid,
    session: u32,
    index: u32,
    kind: Kind,
}

/// The one spelling in the dense form of a record whose numbers are in their ranges, and whose body is short enough for it.
pub fn encode_record(alloc: Global, rec: &Record) -> Result<Vec<u8>, NoMemory>
    requires fits { FitsRecord (length rec.now.dep) rec.now }
    requires writable { IsWritable Dense rec.now }
    ensures { IfOk result (λ bytes. SpellsRecord Dense (length rec.now.dep) bytes.items rec.now) }
{
    spelling(alloc, Form::Dense, rec)
}

/// The one spelling in the sparse form of a record whose numbers are in their ranges.
pub fn encode_record_2(alloc: Global, rec: &Record) -> Result<Vec<u8>, NoMemory>
    requires { FitsRecord (length rec.now.dep) rec.now }
    ensures { IfOk result (λ bytes. SpellsRecord Sparse (length rec.now.dep) bytes.items rec.now) }
{
    spelling(alloc, Form::Sparse, rec)
}

fn spelling(alloc: Global, form: Form, rec: &Record) -> Result<Vec<u8>, NoMemory>
    requires fits { FitsRecord (length rec.now.dep) rec.now }
    requires writable { IsWritable form rec.now }
    ensures { IfOk result (λ bytes. SpellsRecord form (length rec.now.dep) bytes.items rec.now) }
{
    let mut writer = Writer::with_room(alloc, record_size(form, rec))?;
    write_record(&mut writer, form, rec)?;
    Ok(writer.into_bytes())
}

/// The record of so many datacentres that the bytes spell in the dense form, all of them.
///
/// `Malformed` comes exactly where they spell none, and NoMemory where memory is refused. No more
/// memory is taken than the bytes that are there call for, whatever lengths they announce.
pub fn decode_record(alloc: Global, bytes: &[u8], dcs: u32) -> Result<Record, DecodeFault>
    requires { (1 ≤ dcs) × (dcs ≤ DATACENTRES) }
    // What is decoded is spelled so.
    ensures ok { IfOk result (λ rec. SpellsRecord Dense dcs bytes.now rec) }

    // It can be encoded again.
    ensures fits { IfOk result (λ rec. FitsRecord (length rec.dep) rec × IsWritable Dense rec) }

    // What is spelled so is decoded.
    ensures only { (rec : RecordValue) → SpellsRecord Dense dcs bytes.now rec → MatchResult result (λ found. found ≡ rec) (λ fault. fault ≡ OutOfMemory) }

    // Where nothing is, it is told how far the bytes begin some record.
    ensures refused { IfErr result (IsRefusedBytes (IsRecordText Dense dcs) bytes.now) }
{
    decode(alloc, Form::Dense, bytes, dcs)
}

/// The record of so many datacentres that the bytes spell in the sparse form, all of them.
///
/// Faults and memory are as those of [`decode_record`].
pub fn decode_record_2(alloc: Global, bytes: &[u8], dcs: u32) -> Result<Record, DecodeFault>
    requires { (1 ≤ dcs) × (dcs ≤ DATACENTRES) }
    // What is decoded is spelled so.
    ensures ok { IfOk result (λ rec. SpellsRecord Sparse dcs bytes.now rec) }

    // It can be encoded again.
    ensures fits { IfOk result (λ rec. FitsRecord (length rec.dep) rec × IsWritable Sparse rec) }

    // What is spelled so is decoded.
    ensures only { (rec : RecordValue) → SpellsRecord Sparse dcs bytes.now rec → MatchResult result (λ found. found ≡ rec) (λ fault. fault ≡ OutOfMemory) }

    // Where nothing is, it is told how far the bytes begin some record.
    ensures refused { IfErr result (IsRefusedBytes (IsRecordText Sparse dcs) bytes.now) }
{
    decode(alloc, Form::Sparse, bytes, dcs)
}

fn decode(alloc: Global, form: Form, bytes: &[u8], dcs: u32) -> Result<Record, DecodeFault>
    requires { (1 ≤ dcs) × (dcs ≤ DATACENTRES) }
    ensures ok { IfOk result (λ rec. SpellsRecord form dcs bytes.now rec) }
    ensures fits { IfOk result (λ rec. FitsRecord (length rec.dep) rec × IsWritable form rec) }
    ensures only { (rec : RecordValue) → SpellsRecord form dcs bytes.now rec → MatchResult result (λ found. found ≡ rec) (λ fault. fault ≡ OutOfMemory) }
    ensures refused { IfErr result (IsRefusedBytes (IsRecordText form dcs) bytes.now) }
{
    whole_record(alloc, form, bytes, dcs)
}

fn whole_record(alloc: Global, form: Form, bytes: &[u8], dcs: u32) -> Result<Record, DecodeFault>
    requires { (1 ≤ dcs) × (dcs ≤ DATACENTRES) }
    ensures ok { IfOk result (λ rec. SpellsRecord form dcs bytes.now rec) }
    ensures refused { IfErr result (IsRefusedBytes (IsRecordText form dcs) bytes.now) }
{
    let mut reader = Reader::new(alloc, bytes);
    let rec = read_record(&mut reader, form, dcs, 0, dcs - 1)?;
    reader.end()?;
    Ok(rec)
}

/// Writes a record, whose names and body are what their types keep.
pub fn write_record(writer: &mut Writer, form: Form, rec: &Record) -> Result<(), NoMemory>
    requires { FitsRecord (length rec.now.dep) rec.now }
    ensures ok { OnOk result (writer.new ≡ writer.old ++ record_bytes form (length rec.now.dep) rec.now) }
    ensures texts { OnOk result (HasTexts rec.now) }
{
    write_head(writer, rec)?;
    writer.dep(form, rec.host, &rec.dep)?;
    writer.names(&rec.tags)?;
    writer.body(&rec.body)
}

fn write_head(writer: &mut Writer, rec: &Record) -> Result<(), NoMemory>
    requires { FitsRecord (length rec.now.dep) rec.now }
    ensures { OnOk result (writer.new ≡ writer.old ++ head_bytes (length rec.now.dep) rec.now.host rec.now.toid rec.now.session rec.now.index rec.now.kind) }
{
    writer.number(1, rec.dep.dcs() as u64)?;
    writer.number(1, rec.host.number() as u64)?;
    writer.number(8, rec.toid)?;
    writer.number(2, rec.session as u64)?;
    writer.number(4, rec.index as u64)?;
    writer.number(1, kind_byte(rec.kind))
}

fn kind_byte(kind: Kind) -> u64
    ensures value { result ≡ kind_number kind }
    ensures small { result < 256 }
{
    match kind {
        Kind::Append => 1,
        Kind::Put => 2,
        Kind::Del => 3,
    }
}

/// Reads a record in the form, for so many datacentres, whose host is in the range.
pub fn read_record(
    reader: &mut Reader<'_>,
    form: Form,
    dcs: u32,
    low: u32,
    high: u32,
) -> Result<Record, DecodeFault>
    requires dcs { (1 ≤ dcs) × (dcs ≤ DATACENTRES) }
    requires order { low ≤ high }
    requires hosts { high < dcs }
    ensures ok { IfOk result (λ rec. IsRecord form dcs low high rec) }
    ensures took { IfOk result (λ rec. ReadPast reader.old reader.new (record_bytes form dcs rec)) }
    ensures fault { IfErr result (FailsAt (IsWord (IsRecord form dcs low high) (record_bytes form dcs)) reader.old) }
{
    let Head {
        host,
        toid,
        session,
        index,
        kind,
    } = read_head(reader, dcs, low, high)?;
    let own = Entry {
        host: host.number(),
        count: toid - 1,
    };
    let dep = reader.dep(form, dcs, own)?;
    let tags = reader.names(fewest(kind), most(kind))?;
    let body = reader.body(longest(form, kind))?;
    Ok(Record {
        host,
        toid,
        session,
        index,
        kind,
        tags,
        body,
        dep,
    })
}

fn read_head(reader: &mut Reader<'_>, dcs: u32, low: u32, high: u32) -> Result<Head, DecodeFault>
    requires dcs { (1 ≤ dcs) × (dcs ≤ DATACENTRES) }
    requires order { low ≤ high }
    requires hosts { high < dcs }
    ensures ok { IfOk result (λ head. HasHeadRanges low high head) }
    ensures took { IfOk result (λ head. ReadPast reader.old reader.new (head_word dcs head)) }
    ensures fault { IfErr result (FailsAt (IsWord (HasHeadRanges low high) (head_word dcs)) reader.old) }
{
    reader.small(1, dcs, dcs)?;
    let host = reader.host(low, high)?;
    let toid = reader.number(8, 1, NUMBERS_END - 1)?;
    let session = reader.small(2, 0, SESSIONS as u32 - 1)?;
    let index = reader.small(4, 1, COMMANDS)?;
    let kind = read_kind(reader)?;
    Ok(Head {
        host,
        toid,
        session,
        index,
        kind,
    })
}

fn read_kind(reader: &mut Reader<'_>) -> Result<Kind, DecodeFault>
    ensures took { IfOk result (λ kind. ReadPast reader.old reader.new (kind_bytes kind)) }
    ensures fault { IfErr result (FailsAt (IsWord IsKind kind_bytes) reader.old) }
{
    let number = reader.small(1, 1, 3)?;
    match number {
        1 => Ok(Kind::Append),
        2 => Ok(Kind::Put),
        _ => Ok(Kind::Del),
    }
}

// The fewest tags that a record of the kind has.
fn fewest(kind: Kind) -> u32
    ensures { result ≡ fewest_tags kind }
{
    match kind {
        Kind::Append => 0,
        Kind::Put => 1,
        Kind::Del => 1,
    }
}

// The most tags that a record of the kind has.
fn most(kind: Kind) -> u32
    ensures { result ≡ most_tags kind }
{
    match kind {
        Kind::Append => TAGS as u32,
        Kind::Put => 1,
        Kind::Del => 1,
    }
}

// The most bytes that the body of a record of the kind has in the form.
fn longest(form: Form, kind: Kind) -> u32
    ensures value { result ≡ most_in form kind }
    ensures few { result ≤ BODY_BYTES }
{
    match kind {
        Kind::Append => most_bytes(form),
        Kind::Put => most_bytes(form),
        Kind::Del => 0,
    }
}
