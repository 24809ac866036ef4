//! Rows of senders and receivers: which records a message tells, and how long it is.

ghost use Rattle.std.specs.Prelude.{◌≡◌, ℕ, ◌<◌, ◌≤◌, ◌^◌, length, All, IfOk};
ghost use Rattle.cz_base.specs.declared.limits.TheConstants.{BODY_BYTES, NUMBERS_END};
ghost use Rattle.causal_deps.specs.Counts.{entry_of};
ghost use Rattle.record_codec.specs.Wire.{FitsRecord};

use awareness_table::Aware;
use causal_deps::{Counts, Kind, Record, Table};
use cz_base::{Body, DcId, Seq};
use sender_receiver::{Sender, receive};
use std::alloc::Global;
use std::process::Abort;
use std::test::Fail;

// The hosts of the records of a log, what B is known to have of A's, and what A then tells B: the
// numbers of the records, and how many bytes the message has.
struct Case {
    hosts: &'static [u8],
    known: u32,
    told: &'static [u64],
    bytes: usize,
}

const CASES: [Case; 6] = [
    Case {
        hosts: b"AAAAAAAAAAAAAAAAA",
        known: 0,
        told: &[1, 2, 3, 4, 5, 6, 7, 8, 9, 10, 11, 12, 13, 14, 15, 16],
        bytes: 612,
    },
    Case {
        hosts: b"AAAAAAAAAAAAAAAAA",
        known: 1,
        told: &[2, 3, 4, 5, 6, 7, 8, 9, 10, 11, 12, 13, 14, 15, 16, 17],
        bytes: 612,
    },
    Case {
        hosts: b"BABBAABA",
        known: 0,
        told: &[1, 2, 3, 4],
        bytes: 180,
    },
    Case {
        hosts: b"BABBAABA",
        known: 2,
        told: &[3, 4],
        bytes: 108,
    },
    Case {
        hosts: b"BABBAABA",
        known: 4,
        told: &[],
        bytes: 36,
    },
    Case {
        hosts: b"",
        known: 0,
        told: &[],
        bytes: 36,
    },
];

// How long the body of the one record of a log is, whether A's sender is upgraded, and how many bytes the message has.
struct Formed {
    body: usize,
    upgraded: bool,
    bytes: usize,
}

// Without its body the record has 36 bytes in the dense form, and 21 in the sparse one, which tells no entry of it.
const FORMED: [Formed; 6] = [
    Formed {
        body: 0,
        upgraded: true,
        bytes: 57,
    },
    Formed {
        body: 1024,
        upgraded: false,
        bytes: 1096,
    },
    Formed {
        body: 1024,
        upgraded: true,
        bytes: 1081,
    },
    // The dense form has no body that is longer.
    Formed {
        body: 1025,
        upgraded: false,
        bytes: 1082,
    },
    Formed {
        body: 4096,
        upgraded: false,
        bytes: 4153,
    },
    Formed {
        body: 4096,
        upgraded: true,
        bytes: 4153,
    },
];

fn second() -> DcId
    ensures { result ≡ 1 }
{
    match DcId::new(1) {
        Some(dc) => dc,
        None => unreachable!(),
    }
}

// A body of so many bytes.
fn body_of(alloc: Global, len: usize) -> Result<Body, Fail>
    ensures { IfOk result (λ body. length body ≤ BODY_BYTES) }
{
    let mut bytes = Vec::new(alloc);
    for _ in 0..len {
        bytes.push(b'x')?;
    }
    Ok(Body::read(alloc, &bytes)?)
}

// A record of this number with this body, for two datacentres.
fn numbered(alloc: Global, host: DcId, toid: u32, body: Body) -> Result<Record, Fail>
    requires host { host < 2 }
    requires toid { 1 ≤ toid }
    requires body { length body ≤ BODY_BYTES }
    ensures { IfOk result (λ rec. FitsRecord 2 rec) }
{
    let toid = toid as u64;
    let mut dep = Counts::zero(2);
    dep.put(host, toid - 1);
    Ok(Record {
        host,
        toid,
        session: 0,
        index: 1,
        kind: Kind::Append,
        tags: Seq::new(alloc),
        body,
        dep,
    })
}

// The records of a log with these hosts, each host's numbered from 1, with bodies of so many bytes.
fn log_of(alloc: Global, hosts: &[u8], body: usize) -> Result<Seq<Record>, Fail>
    ensures { IfOk result (All (λ rec. FitsRecord 2 rec)) }
{
    let mut log = Seq::new(alloc);
    let mut own: u32 = 0;
    let mut others: u32 = 0;
    for host in hosts {
        if *host == b'A' {
            own = own.saturating_add(1);
            log.push(numbered(alloc, DcId::FIRST, own, body_of(alloc, body)?)?)?;
        } else {
            others = others.saturating_add(1);
            log.push(numbered(alloc, second(), others, body_of(alloc, body)?)?)?;
        }
    }
    Ok(log)
}

// What A knows, where B is known to have so many records of A.
fn aware_of(known: u32) -> Aware
    ensures dc { result.dc ≡ 0 }
    ensures dcs { length result.table ≡ 2 }
    ensures entries { (k h : ℕ) → entry_of result.table k h < NUMBERS_END }
{
    let mut row = Counts::zero(2);
    row.put(DcId::FIRST, known as u64);
    let mut table = Table::zero(2);
    table.raise_row(second(), &row);
    let mut aware = Aware::new(DcId::FIRST, 2);
    aware.merge(&table);
    aware
}

fn tells(rt: &impl Abort, alloc: Global, case: &Case) -> Result<(), Fail> {
    let log = log_of(alloc, case.hosts, 0)?;
    let aware = aware_of(case.known);
    let mut sender = Sender::new(alloc, DcId::FIRST, 0)?;
    let bytes = sender.build(second(), &aware, &log)?;
    assert_eq!(rt; bytes.len(), case.bytes);
    let message = receive(alloc, &bytes, 2)?;
    assert_eq!(rt; message.from, DcId::FIRST);
    assert_eq!(rt; message.table, aware.table());
    assert_eq!(rt; message.records.len(), case.told.len());
    for (rec, toid) in message.records.iter().zip(case.told) {
        assert_eq!(rt; rec.host, DcId::FIRST);
        assert_eq!(rt; rec.toid, *toid);
    }
    Ok(())
}

#[test]
fn the_first_unknown_records_are_told(rt: HostRuntime) -> Result<(), Fail> {
    for case in &CASES {
        tells(&rt, rt.alloc(), case)?;
    }
    Ok(())
}

// A's first sender, upgraded or not.
fn sender_of(alloc: Global, upgraded: bool) -> Result<Sender, Fail>
    ensures { IfOk result (λ sender. sender.dc ≡ 0) }
{
    let mut sender = Sender::new(alloc, DcId::FIRST, 0)?;
    if upgraded {
        sender.upgrade();
    }
    Ok(sender)
}

fn writes(rt: &impl Abort, alloc: Global, formed: &Formed) -> Result<(), Fail> {
    let log = log_of(alloc, b"A", formed.body)?;
    let aware = aware_of(0);
    let mut sender = sender_of(alloc, formed.upgraded)?;
    assert_eq!(rt; sender.is_upgraded(), formed.upgraded);
    let bytes = sender.build(second(), &aware, &log)?;
    assert_eq!(rt; bytes.len(), formed.bytes);
    let message = receive(alloc, &bytes, 2)?;
    assert_eq!(rt; message.records.len(), 1);
    for rec in message.records.iter() {
        assert_eq!(rt; rec.body.as_bytes().len(), formed.body);
    }
    Ok(())
}

#[test]
fn a_message_has_the_form_of_its_sender_and_bodies(rt: HostRuntime) -> Result<(), Fail> {
    for formed in &FORMED {
        writes(&rt, rt.alloc(), formed)?;
    }
    Ok(())
}
