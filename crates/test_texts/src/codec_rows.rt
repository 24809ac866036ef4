//! The bytes of records and messages, and the places at which they are malformed.

ghost use Rattle.std.specs.Prelude.{◌≡◌, false, nat_lt, length, All};
ghost use Rattle.cz_base.specs.declared.limits.TheConstants.{DENSE_BODY_BYTES};
ghost use Rattle.record_codec.specs.declared.form.Form.TheVariants.{Dense};
ghost use Rattle.record_codec.specs.Wire.{IsWritable};

use causal_deps::Record;
use cz_base::Seq;
use cz_base::limits::DENSE_BODY_BYTES;
use record_codec::{
    DecodeFault, decode_message, decode_record, decode_record_2, encode_message, encode_message_2,
    encode_record, encode_record_2,
};
use std::alloc::{AllocError, Global};
use std::process::Abort;
use std::test::Fail;

// The record B:1 of session 0 and index 1, an append for two datacentres with the body `hi`.
const RECORD: [u8; 38] = [
    2, 1, 0, 0, 0, 0, 0, 0, 0, 1, 0, 0, 0, 0, 0, 1, 1, 0, 0, 0, 0, 0, 0, 0, 1, 0, 0, 0, 0, 0, 0, 0,
    0, 0, 0, 2, b'h', b'i',
];

// The same record in the sparse form, which tells that it depends on A:1.
const SPARSE: [u8; 32] = [
    2, 1, 0, 0, 0, 0, 0, 0, 0, 1, 0, 0, 0, 0, 0, 1, 1, 1, 0, 0, 0, 0, 0, 0, 0, 0, 1, 0, 0, 2, b'h',
    b'i',
];

// What stands behind the kind of a record B:1 for three datacentres in the sparse form, up to its tags, and the place
// of the whole record at which it is malformed; 29 with no tags and no body is none.
const ENTRIES: [(&[u8], usize); 12] = [
    (&[3], 17),
    (&[1, 1], 18),
    (&[1, 3], 18),
    (&[1, 0, 0, 0, 0, 0, 0, 0, 0, 0], 26),
    (&[1, 2, 0, 1, 0, 0, 0, 0, 0, 0], 20),
    (&[1, 2, 0, 0, 255], 22),
    // After C there is no datacentre for the second entry, nor after A again A.
    (&[2, 2], 18),
    (&[2, 0, 0, 0, 0, 0, 0, 0, 0, 1, 0], 27),
    (&[2, 0, 0, 0, 0, 0, 0, 0, 0, 1, 1], 27),
    (&[2, 0, 0, 0, 0, 0, 0, 0, 0, 1, 2], 28),
    // No entry is told, then 9 tags.
    (&[0, 9], 18),
    (&[0, 0, 16, 1], 20),
];

// The bytes of a record A:1 for two datacentres up to its number of tags.
const HEAD: [u8; 33] = [
    2, 0, 0, 0, 0, 0, 0, 0, 0, 1, 0, 0, 0, 0, 0, 1, 1, 0, 0, 0, 0, 0, 0, 0, 0, 0, 0, 0, 0, 0, 0, 0,
    0,
];

// The bytes before the records of a message from A between two datacentres.
fn start(alloc: Global, records: u8) -> Result<Vec<u8>, AllocError> {
    let mut bytes = Vec::new(alloc);
    bytes.extend_from_slice(&[1, 0, 2])?;
    bytes.extend_from_slice(&[0; 32])?;
    bytes.push(records)?;
    Ok(bytes)
}

// A message from A with a record A:1 that begins with these bytes.
fn with_record(alloc: Global, record: &[u8]) -> Result<Vec<u8>, AllocError> {
    let mut bytes = start(alloc, 1)?;
    bytes.extend_from_slice(record)?;
    Ok(bytes)
}

// The head of a record A:1 with one byte changed.
fn changed(place: usize, byte: u8) -> [u8; 33] {
    let mut head = HEAD;
    if let Some(old) = head.get_mut(place) {
        *old = byte;
    }
    head
}

// The place at which a message between two datacentres is malformed.
fn message_fault(alloc: Global, bytes: &[u8]) -> Option<usize> {
    match decode_message(alloc, bytes, 2) {
        Err(DecodeFault::Malformed { at }) => Some(at),
        _ => None,
    }
}

#[test]
fn a_record_has_its_38_bytes(rt: HostRuntime) -> Result<(), Fail> {
    let alloc = rt.alloc();
    let rec = decode_record(alloc, &RECORD, 2)?;
    assert_eq!(rt; rec.host.number(), 1);
    assert_eq!(rt; rec.toid, 1);
    assert_eq!(rt; rec.session, 0);
    assert_eq!(rt; rec.index, 1);
    assert_eq!(rt; rec.tags.len(), 0);
    assert_eq!(rt; rec.body.as_bytes(), &b"hi"[..]);
    let again = encode_record(alloc, &rec)?;
    assert_eq!(rt; again.as_slice(), &RECORD[..]);
    let short = decode_record(alloc, &RECORD[..37], 2).err();
    assert_eq!(rt; short, Some(DecodeFault::Malformed { at: 37 }));
    Ok(())
}

#[test]
fn the_same_record_has_32_bytes_in_the_sparse_form(rt: HostRuntime) -> Result<(), Fail> {
    let alloc = rt.alloc();
    let rec = decode_record_2(alloc, &SPARSE, 2)?;
    assert_eq!(rt; rec.host.number(), 1);
    assert_eq!(rt; rec.toid, 1);
    assert_eq!(rt; rec.body.as_bytes(), &b"hi"[..]);
    let again = encode_record_2(alloc, &rec)?;
    assert_eq!(rt; again.as_slice(), &SPARSE[..]);
    let dense = encode_record(alloc, &rec)?;
    assert_eq!(rt; dense.as_slice(), &RECORD[..]);
    for len in 0..SPARSE.len() {
        let short = decode_record_2(alloc, &SPARSE[..len], 2).err();
        assert_eq!(rt; short, Some(DecodeFault::Malformed { at: len }));
    }
    let mut zero = SPARSE;
    zero[26] = 0;
    let told = decode_record_2(alloc, &zero, 2).err();
    assert_eq!(rt; told, Some(DecodeFault::Malformed { at: 26 }));
    Ok(())
}

#[test]
fn malformed_entries_are_told_at_their_place(rt: HostRuntime) -> Result<(), Fail> {
    let alloc = rt.alloc();
    for row in &ENTRIES {
        let mut bytes = Vec::from_slice(alloc, &SPARSE[..17])?;
        bytes[0] = 3;
        bytes.extend_from_slice(row.0)?;
        let told = decode_record_2(alloc, &bytes, 3).err();
        assert_eq!(rt; told, Some(DecodeFault::Malformed { at: row.1 }));
    }
    Ok(())
}

// Messages that end before their number of records, and the place at which each is malformed.
const CUT: [(&[u8], usize); 7] = [
    (&[], 0),
    // The first byte says which form the message has, and there are two.
    (&[2], 1),
    (&[3], 0),
    (&[1, 5], 1),
    (&[2, 5], 1),
    (&[1, 0, 3], 2),
    (&[1, 0, 2, 0, 1], 4),
];

// Messages that announce so many records, what follows, and the place at which each is malformed.
const ANNOUNCED: [(u8, &[u8], usize); 8] = [
    (17, &[], 35),
    (0, &[0], 36),
    (1, &[2, 1], 37),
    // The number 0, the session 64, the kind 9, a dependency on itself, a tag of length 0.
    (1, &[2, 0, 0, 0, 0, 0, 0, 0, 0, 0], 45),
    (1, &[2, 0, 0, 0, 0, 0, 0, 0, 0, 1, 0, 64], 47),
    (1, &[2, 0, 0, 0, 0, 0, 0, 0, 0, 1, 0, 0, 0, 0, 0, 1, 9], 52),
    (
        1,
        &[
            2, 0, 0, 0, 0, 0, 0, 0, 0, 1, 0, 0, 0, 0, 0, 1, 1, 0, 0, 0, 0, 0, 0, 0, 1,
        ],
        60,
    ),
    (
        1,
        &[
            2, 0, 0, 0, 0, 0, 0, 0, 0, 1, 0, 0, 0, 0, 0, 1, 1, 0, 0, 0, 0, 0, 0, 0, 0, 0, 0, 0, 0,
            0, 0, 0, 0, 1, 0,
        ],
        70,
    ),
];

#[test]
fn malformed_messages_are_told_at_their_place(rt: HostRuntime) -> Result<(), Fail> {
    let alloc = rt.alloc();
    for row in &CUT {
        assert_eq!(rt; message_fault(alloc, row.0), Some(row.1));
    }
    for row in &ANNOUNCED {
        let mut bytes = start(alloc, row.0)?;
        bytes.extend_from_slice(row.1)?;
        assert_eq!(rt; message_fault(alloc, &bytes), Some(row.2));
    }
    assert_eq!(rt; message_fault(alloc, &start(alloc, 0)?), None);
    Ok(())
}

// A blank is no byte of a name, and none of a body.
#[test]
fn malformed_texts_are_told_at_their_place(rt: HostRuntime) -> Result<(), Fail> {
    let alloc = rt.alloc();
    let mut named = with_record(alloc, &HEAD)?;
    named.extend_from_slice(&[1, 3, b'a', b' ', b'c'])?;
    assert_eq!(rt; message_fault(alloc, &named), Some(72));
    let mut bodied = with_record(alloc, &HEAD)?;
    bodied.extend_from_slice(&[0, 0, 3, b'h', b' ', b'i'])?;
    assert_eq!(rt; message_fault(alloc, &bodied), Some(73));
    Ok(())
}

// A message from A of records without tags and with equal bodies, one after the other.
fn message_of(alloc: Global, records: u8, body_len: u16) -> Result<Vec<u8>, AllocError> {
    let mut bytes = start(alloc, records)?;
    for before in 0..records {
        let mut head = changed(9, before + 1);
        head[24] = before;
        bytes.extend_from_slice(&head)?;
        bytes.push(0)?;
        bytes.extend_from_slice(&body_len.to_be_bytes())?;
        for _ in 0..body_len {
            bytes.push(b'x')?;
        }
    }
    Ok(bytes)
}

// Whether a body of the records is too long for the dense form.
fn any_is_long(records: &Seq<Record>) -> bool
    ensures { result ≡ false → All (IsWritable Dense) records.now }
{
    records.as_slice().iter().any(is_long)
}

fn is_long(rec: &Record) -> bool
    ensures { result ≡ nat_lt DENSE_BODY_BYTES (length rec.now.body) }
{
    DENSE_BODY_BYTES < rec.body.as_bytes().len()
}

#[test]
fn a_long_message_is_decoded_whole(rt: HostRuntime) -> Result<(), Fail> {
    let alloc = rt.alloc();
    let mut bytes = message_of(alloc, 16, 1024)?;
    assert_eq!(rt; bytes.len(), 16996);
    let message = decode_message(alloc, &bytes, 2)?;
    assert_eq!(rt; message.records.len(), 16);
    assert!(rt; !any_is_long(&message.records));
    let again = encode_message(alloc, &message)?;
    assert!(rt; again.as_slice() == bytes.as_slice());
    assert_eq!(rt; again.capacity(), 16996);
    bytes.push(b'x')?;
    assert_eq!(rt; message_fault(alloc, &bytes), Some(16996));
    bytes.pop();
    bytes.pop();
    assert_eq!(rt; message_fault(alloc, &bytes), Some(16995));
    Ok(())
}

// A message from A in the sparse form of records without tags and with equal bodies, which tell no entry.
fn sparse_message_of(alloc: Global, records: u8, body_len: u16) -> Result<Vec<u8>, AllocError> {
    let mut bytes = start(alloc, records)?;
    if let Some(form) = bytes.first_mut() {
        *form = 2;
    }
    for before in 0..records {
        bytes.extend_from_slice(&changed(9, before + 1)[..17])?;
        bytes.extend_from_slice(&[0, 0])?;
        bytes.extend_from_slice(&body_len.to_be_bytes())?;
        for _ in 0..body_len {
            bytes.push(b'x')?;
        }
    }
    Ok(bytes)
}

#[test]
fn a_long_body_stands_in_the_sparse_form(rt: HostRuntime) -> Result<(), Fail> {
    let alloc = rt.alloc();
    let mut bytes = sparse_message_of(alloc, 16, 4096)?;
    assert_eq!(rt; bytes.len(), 65908);
    let message = decode_message(alloc, &bytes, 2)?;
    assert_eq!(rt; message.records.len(), 16);
    let again = encode_message_2(alloc, &message)?;
    assert!(rt; again.as_slice() == bytes.as_slice());
    assert_eq!(rt; again.capacity(), 65908);
    bytes.push(b'x')?;
    assert_eq!(rt; message_fault(alloc, &bytes), Some(65908));

    // One byte more than a form has is told at the last byte of the length.
    let long = sparse_message_of(alloc, 1, 4097)?;
    assert_eq!(rt; message_fault(alloc, &long), Some(56));
    let long = message_of(alloc, 1, 1025)?;
    assert_eq!(rt; message_fault(alloc, &long), Some(71));
    Ok(())
}

#[test]
fn each_front_of_a_message_is_malformed_at_its_end(rt: HostRuntime) -> Result<(), Fail> {
    let alloc = rt.alloc();
    let bytes = message_of(alloc, 4, 100)?;
    for len in 0..bytes.len() {
        assert_eq!(rt; message_fault(alloc, &bytes[..len]), Some(len));
    }
    Ok(())
}
