//! The two wire forms of records and messages, each of which has one spelling for each value.
//!
//! Model: the list of bytes. `record_bytes` and `message_bytes` say which bytes spell a value in a form,
//! `FitsRecord` and `FitsMessage` which values have a spelling, and `IsWritable` for which form a body is short enough.
//!
//! To the layers above: bytes decode to a value exactly where they spell it, a record in the form that is named and
//! a message in either, bytes that spell none are refused at the end of the longest front that begins some spelling,
//! and what is encoded spells its value in the form that is named. No spelling begins another, and no two values share one.
//!
//! Decided: numbers stand with the highest byte first and have one width each, and lists stand behind their
//! length. So each part tells by itself where it ends, and the place of a fault is found without going back.
//! The spelling is defined as bytes of a value, never as a copy of the reader.
//!
//! Tests: the crates `test_links` and `test_texts`.
#![tactic(auto)]

mod fault;
mod form;
mod laws;
mod message;
mod reader;
mod record;
mod same;
mod size;
mod writer;

pub use fault::DecodeFault;
pub use form::Form;
pub use laws::{no_message_begins_another, no_record_begins_another};
pub use message::{Message, decode_message, encode_message, encode_message_2};
pub use record::{decode_record, decode_record_2, encode_record, encode_record_2};
pub use same::spell_one_message;
