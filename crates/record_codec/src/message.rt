//! Messages: a table and records behind one another.

ghost use Rattle.std.specs.Prelude.{◌≡◌, ◌++◌, ◌<◌, ◌≤◌, All, length, IfOk, IfErr, MatchResult, OnOk};
ghost use Rattle.std.specs.List.{flat_map};
ghost use Rattle.record_codec.specs.declared.fault.DecodeFault.TheVariants.{NoMemory as OutOfMemory};
ghost use Rattle.record_codec.specs.declared.form.Form.TheVariants.{Dense, Sparse};
ghost use Rattle.record_codec.specs.declared.message.Message.{Message as MessageValue};
ghost use Rattle.record_codec.specs.Fields.{AreRecords, form_bytes, IsForm, IsMessage};
ghost use Rattle.record_codec.specs.Parts.{IsSized, IsWord};
ghost use Rattle.record_codec.specs.Reading.{FailsAt, ReadPast};
ghost use Rattle.record_codec.specs.Starts.{IsRefusedBytes};
ghost use Rattle.record_codec.specs.Wire.{content_bytes, message_bytes, record_bytes, records_bytes, FitsMessage, FitsRecord, HasTexts, IsMessageText, IsWritable, SpellsIn, SpellsMessage};
ghost use Rattle.cz_base.specs.declared.limits.TheConstants.{DATACENTRES, MESSAGE_RECORDS};

use crate::form::form_byte;
use crate::reader::Reader;
use crate::record::{read_record, write_record};
use crate::size::message_size;
use crate::writer::Writer;
use crate::{DecodeFault, Form};
use causal_deps::{Record, Table};
use cz_base::limits::MESSAGE_RECORDS;
use cz_base::{DcId, NoMemory, Seq};
use std::alloc::Global;

/// What one datacentre sends to another: its table, and at most [`MESSAGE_RECORDS`] records of its own.
#[derive(Debug, Drop)]
pub struct Message {
    /// The datacentre that sends it.
    pub from: DcId,
    /// What the sender knows that each datacentre has.
    pub table: Table,
    /// Records of the sender's own, in order.
    pub records: Seq<Record>,
}

/// The one spelling in the dense form of a message whose numbers are in their ranges, and whose bodies are short enough for it.
pub fn encode_message(alloc: Global, message: &Message) -> Result<Vec<u8>, NoMemory>
    requires fits { FitsMessage (length message.now.table) message.now }
    requires writable { All (IsWritable Dense) message.now.records }
    ensures { IfOk result (λ bytes. SpellsIn Dense (length message.now.table) bytes.items message.now) }
{
    spelling(alloc, Form::Dense, message)
}

/// The one spelling in the sparse form of a message whose numbers are in their ranges.
pub fn encode_message_2(alloc: Global, message: &Message) -> Result<Vec<u8>, NoMemory>
    requires { FitsMessage (length message.now.table) message.now }
    ensures { IfOk result (λ bytes. SpellsIn Sparse (length message.now.table) bytes.items message.now) }
{
    spelling(alloc, Form::Sparse, message)
}

fn spelling(alloc: Global, form: Form, message: &Message) -> Result<Vec<u8>, NoMemory>
    requires fits { FitsMessage (length message.now.table) message.now }
    requires writable { All (IsWritable form) message.now.records }
    ensures { IfOk result (λ bytes. SpellsIn form (length message.now.table) bytes.items message.now) }
{
    let mut writer = Writer::with_room(alloc, message_size(form, message))?;
    write_message(&mut writer, form, message)?;
    Ok(writer.into_bytes())
}

/// The message between so many datacentres that the bytes spell in either form, all of them.
///
/// `Malformed` comes exactly where they spell none, and NoMemory where memory is refused. No more
/// memory is taken than the bytes that are there call for, whatever lengths they announce.
pub fn decode_message(alloc: Global, bytes: &[u8], dcs: u32) -> Result<Message, DecodeFault>
    requires { (1 ≤ dcs) × (dcs ≤ DATACENTRES) }
    // What is decoded is spelled so.
    ensures ok { IfOk result (λ message. SpellsMessage dcs bytes.now message) }

    // It can be encoded again.
    ensures fits { IfOk result (λ message. FitsMessage (length message.table) message) }

    // What is spelled so is decoded.
    ensures only { (message : MessageValue) → SpellsMessage dcs bytes.now message → MatchResult result (λ found. found ≡ message) (λ fault. fault ≡ OutOfMemory) }

    // Where nothing is, it is told how far the bytes begin some message.
    ensures refused { IfErr result (IsRefusedBytes (IsMessageText dcs) bytes.now) }
{
    whole_message(alloc, bytes, dcs)
}

fn whole_message(alloc: Global, bytes: &[u8], dcs: u32) -> Result<Message, DecodeFault>
    requires { (1 ≤ dcs) × (dcs ≤ DATACENTRES) }
    ensures ok { IfOk result (λ message. SpellsMessage dcs bytes.now message) }
    ensures refused { IfErr result (IsRefusedBytes (IsMessageText dcs) bytes.now) }
{
    let mut reader = Reader::new(alloc, bytes);
    let form = read_form(&mut reader)?;
    let message = read_content(&mut reader, form, dcs)?;
    reader.end()?;
    Ok(message)
}

fn read_form(reader: &mut Reader<'_>) -> Result<Form, DecodeFault>
    ensures took { IfOk result (λ form. ReadPast reader.old reader.new (form_bytes form)) }
    ensures fault { IfErr result (FailsAt (IsWord IsForm form_bytes) reader.old) }
{
    let number = reader.small(1, 1, 2)?;
    match number {
        1 => Ok(Form::Dense),
        _ => Ok(Form::Sparse),
    }
}

// Reads what stands behind the form.
fn read_content(reader: &mut Reader<'_>, form: Form, dcs: u32) -> Result<Message, DecodeFault>
    requires { (1 ≤ dcs) × (dcs ≤ DATACENTRES) }
    ensures ok { IfOk result (λ message. IsMessage form dcs message) }
    ensures took { IfOk result (λ message. ReadPast reader.old reader.new (content_bytes form dcs message)) }
    ensures fault { IfErr result (FailsAt (IsWord (IsMessage form dcs) (content_bytes form dcs)) reader.old) }
{
    let from = reader.host(0, dcs - 1)?;
    reader.small(1, dcs, dcs)?;
    let table = reader.table(dcs)?;
    let records = read_records(reader, form, dcs, from)?;
    Ok(Message {
        from,
        table,
        records,
    })
}

// Reads records of one host behind their number.
fn read_records(
    reader: &mut Reader<'_>,
    form: Form,
    dcs: u32,
    host: DcId,
) -> Result<Seq<Record>, DecodeFault>
    requires dcs { (1 ≤ dcs) × (dcs ≤ DATACENTRES) }
    requires host { host < dcs }
    ensures ok { IfOk result (λ records. IsSized 0 MESSAGE_RECORDS length (AreRecords form dcs host) records) }
    ensures took { IfOk result (λ records. ReadPast reader.old reader.new (records_bytes form dcs records)) }
    ensures fault { IfErr result (FailsAt (IsWord (IsSized 0 MESSAGE_RECORDS length (AreRecords form dcs host)) (records_bytes form dcs)) reader.old) }
{
    let count = reader.small(1, 0, MESSAGE_RECORDS as u32)?;
    read_each(reader, form, dcs, host, count)
}

fn read_each(
    reader: &mut Reader<'_>,
    form: Form,
    dcs: u32,
    host: DcId,
    count: u32,
) -> Result<Seq<Record>, DecodeFault>
    requires dcs { (1 ≤ dcs) × (dcs ≤ DATACENTRES) }
    requires host { host < dcs }
    ensures ok { IfOk result (λ records. AreRecords form dcs host count records) }
    ensures took { IfOk result (λ records. ReadPast reader.old reader.new (flat_map (record_bytes form dcs) records)) }
    ensures fault { IfErr result (FailsAt (IsWord (AreRecords form dcs host count) (flat_map (record_bytes form dcs))) reader.old) }
{
    let number = host.number();
    let mut records = Seq::new(reader.alloc());
    for _done in 0..count {
        let rec = read_record(reader, form, dcs, number, number)?;
        records.push(rec)?;
    }
    Ok(records)
}

// Writes a message, whose names and bodies are what their types keep.
fn write_message(writer: &mut Writer, form: Form, message: &Message) -> Result<(), NoMemory>
    requires { FitsMessage (length message.now.table) message.now }
    ensures ok { OnOk result (writer.new ≡ writer.old ++ message_bytes form (length message.now.table) message.now) }
    ensures texts { OnOk result (All HasTexts message.now.records) }
{
    let dcs = message.table.dcs();
    writer.number(1, form_byte(form))?;
    writer.number(1, message.from.number() as u64)?;
    writer.number(1, dcs as u64)?;
    writer.table(&message.table)?;
    write_records(writer, form, dcs, &message.records)
}

// Writes records behind their number.
fn write_records(
    writer: &mut Writer,
    form: Form,
    dcs: u32,
    records: &Seq<Record>,
) -> Result<(), NoMemory>
    requires few { length records.now ≤ MESSAGE_RECORDS }
    requires fit { All (λ r. FitsRecord dcs r) records.now }
    ensures ok { OnOk result (writer.new ≡ writer.old ++ records_bytes form dcs records.now) }
    ensures texts { OnOk result (All HasTexts records.now) }
{
    writer.number(1, records.len() as u64)?;
    write_each(writer, form, dcs, records)
}

fn write_each(
    writer: &mut Writer,
    form: Form,
    dcs: u32,
    records: &Seq<Record>,
) -> Result<(), NoMemory>
    requires { All (λ r. FitsRecord dcs r) records.now }
    ensures ok { OnOk result (writer.new ≡ writer.old ++ flat_map (record_bytes form dcs) records.now) }
    ensures texts { OnOk result (All HasTexts records.now) }
{
    for rec in records.as_slice() {
        write_record(writer, form, rec)?;
    }
    Ok(())
}
