//! Senders: the message to another datacentre, and its bytes.

ghost use Rattle.std.specs.Prelude.{◌≡◌, ℕ, ◌<◌, ◌≤◌, ◌^◌, false, true, length, IfOk, OnOk};
ghost use Rattle.std.specs.List.{list_any};
ghost use Rattle.causal_deps.specs.Counts.{entry_of};
ghost use Rattle.record_codec.specs.declared.message.Message.{Message as MessageValue};
ghost use Rattle.record_codec.specs.Wire.{FitsMessage, SpellsIn, SpellsMessage};
ghost use Rattle.sender_receiver.specs.Stocks.{records_in};
ghost use Rattle.sender_receiver.specs.Sending.{AreTellable, form_of, has_long_body, message_to};
ghost use Rattle.cz_base.specs.declared.limits.TheConstants.{DATACENTRES, NUMBERS_END};

use crate::Stock;
use crate::choosing::first_news;
use awareness_table::Aware;
use causal_deps::Record;
use cz_base::limits::DENSE_BODY_BYTES;
use cz_base::{DcId, NoMemory, Seq};
use record_codec::{Message, encode_message, encode_message_2, no_message_begins_another};
use std::alloc::Global;
use std::marker::Model;

/// A message, and the bytes that spell it.
#[derive(Drop)]
pub struct SpelledMessage {
    pub message: Message,
    /// Its one spelling in the form that the sender writes.
    pub bytes: Vec<u8>,
}

/// A member of a datacentre that tells the other datacentres of its records. Contracts see whose it is,
/// its number, and whether it was upgraded.
#[derive(Drop)]
pub struct Sender {
    alloc: Global,
    dc: DcId,
    number: u32,
    upgraded: bool,
}

impl Model for Sender {
    ghost use Rattle.sender_receiver.specs.Sending.{SenderState};

    ghost Value = { SenderState };

    ghost view = { λ sender. record { dc = sender.dc; number = sender.number; upgraded = sender.upgraded } };
}

impl Sender {
    /// The sender of this number at a datacentre. It is not upgraded.
    pub fn new(alloc: Global, dc: DcId, number: u32) -> Result<Self, NoMemory>
        ensures { IfOk result (λ sender. sender ≡ record { dc = dc; number = number; upgraded = false }) }
    {
        Ok(Sender {
            alloc,
            dc,
            number,
            upgraded: false,
        })
    }

    /// The number of this sender among those of its datacentre.
    pub fn number(&self) -> u32
        ensures { result ≡ self.now.number }
    {
        self.number
    }

    /// From now on every message is written in the sparse form.
    pub fn upgrade(&mut self)
        ensures { self.new ≡ record self.old { upgraded = true } }
    {
        self.upgraded = true;
    }

    /// Whether it was upgraded.
    pub fn is_upgraded(&self) -> bool
        ensures { result ≡ self.now.upgraded }
    {
        self.upgraded
    }

    /// The encoded message to a datacentre: the table, and the first records of the stock that are of
    /// the sender's datacentre and that the receiver is not known to have. There may be none. It is
    /// written in the sparse form by an upgraded sender, or where a body is too long for the dense one.
    pub fn build<T: Stock>(
        &mut self,
        to: DcId,
        aware: &Aware,
        stock: &T,
    ) -> Result<Vec<u8>, NoMemory>
        requires from { self.old.dc < length aware.now.table }
        requires to { to < length aware.now.table }
        requires entries { (k h : ℕ) → entry_of aware.now.table k h < NUMBERS_END }
        requires stock { AreTellable (length aware.now.table) self.old.dc (records_in (T.held stock.now)) }
        ensures same { self.new ≡ self.old }

        // They are the bytes of that message in the form that the rule gives.
        ensures form { IfOk result (λ bytes. let message = message_to self.old.dc to aware.now.table (records_in (T.held stock.now)) in SpellsIn (form_of self.old.upgraded message) (length aware.now.table) bytes.items message) }

        // The bytes spell exactly that message, and no other.
        ensures spelled { IfOk result (λ bytes. SpellsMessage (length aware.now.table) bytes.items (message_to self.old.dc to aware.now.table (records_in (T.held stock.now)))) }
        ensures decodes { IfOk result (λ bytes. (message : MessageValue) → SpellsMessage (length aware.now.table) bytes.items message → message ≡ message_to self.old.dc to aware.now.table (records_in (T.held stock.now))) }
    {
        let SpelledMessage { bytes, .. } = self.tell(to, aware, stock)?;
        Ok(bytes)
    }

    /// The same message, and its bytes as `build` makes them.
    pub fn tell<T: Stock>(
        &mut self,
        to: DcId,
        aware: &Aware,
        stock: &T,
    ) -> Result<SpelledMessage, NoMemory>
        requires from { self.old.dc < length aware.now.table }
        requires to { to < length aware.now.table }
        requires entries { (k h : ℕ) → entry_of aware.now.table k h < NUMBERS_END }
        requires stock { AreTellable (length aware.now.table) self.old.dc (records_in (T.held stock.now)) }
        ensures same { self.new ≡ self.old }
        ensures message { IfOk result (λ told. told.message ≡ message_to self.old.dc to aware.now.table (records_in (T.held stock.now))) }
        ensures form { IfOk result (λ told. SpellsIn (form_of self.old.upgraded told.message) (length aware.now.table) told.bytes.items told.message) }
        ensures spelled { IfOk result (λ told. SpellsMessage (length aware.now.table) told.bytes.items (message_to self.old.dc to aware.now.table (records_in (T.held stock.now)))) }
        ensures decodes { IfOk result (λ told. (message : MessageValue) → SpellsMessage (length aware.now.table) told.bytes.items message → message ≡ message_to self.old.dc to aware.now.table (records_in (T.held stock.now))) }
    {
        let message = self.message(to, aware, stock)?;
        no_message_begins_another();
        let bytes = self.written(&message)?;
        Ok(SpelledMessage { message, bytes })
    }

    // The bytes of a message in the form that the rule gives.
    fn written(&self, message: &Message) -> Result<Vec<u8>, NoMemory>
        requires { FitsMessage (length message.now.table) message.now }
        ensures { IfOk result (λ bytes. SpellsIn (form_of self.now.upgraded message.now) (length message.now.table) bytes.items message.now) }
    {
        if self.upgraded || any_is_long(&message.records) {
            return encode_message_2(self.alloc, message);
        }
        encode_message(self.alloc, message)
    }

    // The message that is to be encoded.
    fn message<T: Stock>(&self, to: DcId, aware: &Aware, stock: &T) -> Result<Message, NoMemory>
        requires from { self.now.dc < length aware.now.table }
        requires to { to < length aware.now.table }
        requires entries { (k h : ℕ) → entry_of aware.now.table k h < NUMBERS_END }
        requires stock { AreTellable (length aware.now.table) self.now.dc (records_in (T.held stock.now)) }
        ensures value { IfOk result (λ message. message ≡ message_to self.now.dc to aware.now.table (records_in (T.held stock.now))) }
        ensures dcs { OnOk result (length aware.now.table ≤ DATACENTRES) }
        ensures fits { IfOk result (λ message. FitsMessage (length aware.now.table) message) }
    {
        let table = aware.table();
        let _dcs = table.dcs();
        let known = table.row(to).get(self.dc);
        let records = first_news(self.alloc, self.dc, known, stock)?;
        Ok(Message {
            from: self.dc,
            table,
            records,
        })
    }
}

// Whether a body of the records is too long for the dense form.
fn any_is_long(records: &Seq<Record>) -> bool
    ensures { result ≡ list_any has_long_body records.now }
{
    records.as_slice().iter().any(is_long)
}

fn is_long(rec: &Record) -> bool
    ensures { result ≡ has_long_body rec.now }
{
    DENSE_BODY_BYTES < rec.body.as_bytes().len()
}
