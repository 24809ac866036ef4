//! Rows of links.

use cz_base::NoMemory;
use lossy_links::{Copied, Link, Packet};
use std::alloc::Global;
use std::process::Abort;
use std::test::Fail;

fn packet(alloc: Global, byte: u8) -> Result<Packet, NoMemory> {
    Ok(Packet::from_vec(Vec::from_slice(alloc, &[byte])?))
}

// A link with the packets 1 to 64.
fn full_link(alloc: Global) -> Result<Link, NoMemory> {
    let mut link = Link::new(alloc)?;
    for byte in 1..65 {
        let _oldest = link.put(packet(alloc, byte)?);
    }
    Ok(link)
}

#[test]
fn a_full_link_hands_the_oldest_back(rt: HostRuntime) -> Result<(), Fail> {
    let alloc = rt.alloc();
    let mut link = full_link(alloc)?;
    assert_eq!(rt; link.len(), 64);
    assert_eq!(rt; link.put(packet(alloc, 65)?), Some(packet(alloc, 1)?));
    assert_eq!(rt; link.deliver(65), None);
    assert_eq!(rt; link.copy(1)?, Copied::Overflow(packet(alloc, 2)?));
    assert_eq!(rt; link.deliver(64), Some(packet(alloc, 2)?));
    Ok(())
}

// A link with so many equal packets, and then another one, if there is one; and whether a new packet would leave it as it
// is.
struct Row {
    equal: u32,
    other: Option<u8>,
    new: u8,
    stays: bool,
}

const ROWS: [Row; 6] = [
    Row {
        equal: 0,
        other: None,
        new: 7,
        stays: false,
    },
    Row {
        equal: 63,
        other: None,
        new: 7,
        stays: false,
    },
    Row {
        equal: 64,
        other: None,
        new: 7,
        stays: true,
    },
    Row {
        equal: 64,
        other: None,
        new: 8,
        stays: false,
    },
    Row {
        equal: 64,
        other: Some(8),
        new: 7,
        stays: false,
    },
    Row {
        equal: 64,
        other: Some(8),
        new: 8,
        stays: false,
    },
];

fn link_of(alloc: Global, row: &Row) -> Result<Link, NoMemory> {
    let mut link = Link::new(alloc)?;
    for _done in 0..row.equal {
        let _oldest = link.put(packet(alloc, 7)?);
    }
    if let Some(byte) = row.other {
        let _oldest = link.put(packet(alloc, byte)?);
    }
    Ok(link)
}

// The bytes of the packets of a link, one after the other.
fn bytes_of(alloc: Global, link: &Link) -> Result<Vec<u8>, Fail> {
    let mut bytes = Vec::new(alloc);
    for packet in link.packets() {
        bytes.extend_from_slice(packet.as_bytes())?;
    }
    Ok(bytes)
}

#[test]
fn packets_are_looked_at(rt: HostRuntime) -> Result<(), Fail> {
    let alloc = rt.alloc();
    let link = full_link(alloc)?;
    for k in [1, 2, 64] {
        assert_eq!(rt; link.packet(k), Some(&packet(alloc, k as u8)?));
    }
    for k in [0, 65, 66] {
        assert_eq!(rt; link.packet(k), None);
    }
    Ok(())
}

#[test]
fn only_a_link_full_of_equal_packets_stays(rt: HostRuntime) -> Result<(), Fail> {
    let alloc = rt.alloc();
    for row in &ROWS {
        let mut link = link_of(alloc, row)?;
        let before = bytes_of(alloc, &link)?;
        let _oldest = link.put(packet(alloc, row.new)?);
        assert_eq!(rt; bytes_of(alloc, &link)? == before, row.stays);
    }
    Ok(())
}

#[test]
fn packets_are_lost_repeated_and_reordered(rt: HostRuntime) -> Result<(), Fail> {
    let alloc = rt.alloc();
    let mut link = Link::new(alloc)?;
    assert_eq!(rt; link.copy(1)?, Copied::Absent);
    for byte in 1..4 {
        assert_eq!(rt; link.put(packet(alloc, byte)?), None);
    }
    assert_eq!(rt; link.copy(2)?, Copied::Done);
    assert_eq!(rt; link.lose(1), Some(packet(alloc, 1)?));
    assert_eq!(rt; link.deliver(0), None);
    for byte in [3, 2, 2] {
        let last = if byte == 3 { 2 } else { 1 };
        assert_eq!(rt; link.deliver(last), Some(packet(alloc, byte)?));
    }
    assert_eq!(rt; link.is_empty(), true);
    Ok(())
}
