//! The links, a row of them from each datacentre.
ghost use Rattle.std.specs.Prelude.{◌≡◌, ◌↔◌, ◌<◌, ◌≤◌, All, List, [], length, is_some, slice_index_or, slice_set, IfOk, IsTrue, OnOk};
ghost use Rattle.cz_base.specs.declared.limits.TheConstants.{DATACENTRES};
ghost use Rattle.lossy_links.specs.Links.{answer_to_copy, copied, lost_by_put, message_at, put_last, without};
ghost use Rattle.record_codec.specs.declared.message.Message.{Message};
ghost use Rattle.record_codec.specs.Wire.{SpellsMessage};
ghost use Rattle.stage_world.specs.Idle.{TellsApart};
ghost use Rattle.world.specs.Links.{AreSpelled, AreThere, packets_at, with_packets};

use cz_base::limits::PACKETS;
use cz_base::{DcId, NoMemory, Seq};
use lossy_links::{Copied, Link, Packet};
use record_codec::spell_one_message;
use std::alloc::Global;

/// What a put did to a link: whether the oldest packet was lost, and whether the messages of the link are others. A full link
/// of equal messages stays as it is where one more of them is put, in whatever form each is written.
#[derive(Drop)]
pub(crate) struct PutDone {
    pub lost: bool,
    pub changed: bool,
}

/// What is answered to a copy, and whether the messages of the link are others.
#[derive(Drop)]
pub(crate) struct CopyDone {
    pub answer: Copied,
    pub changed: bool,
}

/// How many packets are in the link from d to e.
pub(crate) fn packets_in(links: &Seq<Seq<Link>>, d: DcId, e: DcId) -> u32
    requires { AreThere d e links.now }
    ensures { result ≡ length (packets_at links.now d e) }
{
    let row = &links.as_slice()[d.number() as usize];
    row.as_slice()[e.number() as usize].len() as u32
}

/// The packet goes last in the link from d to e. Memory is taken only where a full link has packets in both forms.
pub(crate) fn put(
    links: &mut Seq<Seq<Link>>,
    d: DcId,
    e: DcId,
    packet: Packet,
) -> Result<PutDone, NoMemory>
    requires there { AreThere d e links.old }
    requires few { length links.old ≤ DATACENTRES }
    ensures lost { IfOk result (λ done. done.lost ≡ is_some (lost_by_put (packets_at links.old d e))) }
    ensures changed { (ms : List Message) (m : Message) → AreSpelled (length links.old) (packets_at links.old d e) ms → SpellsMessage (length links.old) packet m → IfOk result (λ done. TellsApart done.changed ms (put_last ms m)) }
    ensures links { OnOk result (links.new ≡ with_packets links.old d e (put_last (packets_at links.old d e) packet)) }
{
    let dcs = links.len() as u32;
    let alloc = links.alloc();
    put_in_row(alloc, links.item_mut(d.number() as usize), dcs, e, packet)
}

fn put_in_row(
    alloc: Global,
    row: &mut Seq<Link>,
    dcs: u32,
    e: DcId,
    packet: Packet,
) -> Result<PutDone, NoMemory>
    requires there { e < length row.old }
    requires dcs { (1 ≤ dcs) × (dcs ≤ DATACENTRES) }
    ensures lost { IfOk result (λ done. done.lost ≡ is_some (lost_by_put (slice_index_or row.old e []))) }
    ensures changed { (ms : List Message) (m : Message) → AreSpelled dcs (slice_index_or row.old e []) ms → SpellsMessage dcs packet m → IfOk result (λ done. TellsApart done.changed ms (put_last ms m)) }
    ensures row { OnOk result (row.new ≡ slice_set row.old e (put_last (slice_index_or row.old e []) packet)) }
{
    let link = row.item_mut(e.number() as usize);
    let kept = is_full_of(alloc, link, &packet, dcs)?;
    let lost = link.put(packet).is_some();
    Ok(PutDone {
        lost,
        changed: !kept,
    })
}

// Whether the packet would leave the messages of the link as they are, were it put: the link is full of packets that spell its
// message.
fn is_full_of(alloc: Global, link: &Link, packet: &Packet, dcs: u32) -> Result<bool, NoMemory>
    requires { (1 ≤ dcs) × (dcs ≤ DATACENTRES) }
    ensures { (ms : List Message) (m : Message) → AreSpelled dcs link.now ms → SpellsMessage dcs packet.now m → IfOk result (λ full. IsTrue full ↔ (put_last ms m ≡ ms)) }
{
    if link.len() < PACKETS {
        return Ok(false);
    }
    all_spell(alloc, link.packets(), packet, dcs)
}

// Whether each of the packets spells the message of this one.
fn all_spell(alloc: Global, packets: &[Packet], packet: &Packet, dcs: u32) -> Result<bool, NoMemory>
    requires { (1 ≤ dcs) × (dcs ≤ DATACENTRES) }
    ensures { (ms : List Message) (m : Message) → AreSpelled dcs packets.now ms → SpellsMessage dcs packet.now m → IfOk result (λ all. IsTrue all ↔ All (λ x. x ≡ m) ms) }
{
    for held in packets {
        if !spell_one_message(alloc, held.as_bytes(), packet.as_bytes(), dcs)? {
            return Ok(false);
        }
    }
    Ok(true)
}

/// Takes packet k out of the link from d to e, if there is one.
pub(crate) fn take_out(links: &mut Seq<Seq<Link>>, d: DcId, e: DcId, k: u32) -> Option<Packet>
    requires { AreThere d e links.old }
    ensures packet { result ≡ message_at (packets_at links.old d e) k }
    ensures links { links.new ≡ with_packets links.old d e (without (packets_at links.old d e) k) }
{
    take_out_of_row(links.item_mut(d.number() as usize), e, k)
}

fn take_out_of_row(row: &mut Seq<Link>, e: DcId, k: u32) -> Option<Packet>
    requires { e < length row.old }
    ensures packet { result ≡ message_at (slice_index_or row.old e []) k }
    ensures row { row.new ≡ slice_set row.old e (without (slice_index_or row.old e []) k) }
{
    row.item_mut(e.number() as usize).deliver(k)
}

/// A copy of packet k goes last in the link from d to e, if there is one.
pub(crate) fn copy(
    links: &mut Seq<Seq<Link>>,
    d: DcId,
    e: DcId,
    k: u32,
) -> Result<CopyDone, NoMemory>
    requires there { AreThere d e links.old }
    requires few { length links.old ≤ DATACENTRES }
    ensures answer { IfOk result (λ done. done.answer ≡ answer_to_copy (packets_at links.old d e) k) }
    ensures changed { (ms : List Message) → AreSpelled (length links.old) (packets_at links.old d e) ms → IfOk result (λ done. TellsApart done.changed ms (copied ms k)) }
    ensures links { OnOk result (links.new ≡ with_packets links.old d e (copied (packets_at links.old d e) k)) }
{
    let dcs = links.len() as u32;
    let alloc = links.alloc();
    copy_in_row(alloc, links.item_mut(d.number() as usize), dcs, e, k)
}

fn copy_in_row(
    alloc: Global,
    row: &mut Seq<Link>,
    dcs: u32,
    e: DcId,
    k: u32,
) -> Result<CopyDone, NoMemory>
    requires there { e < length row.old }
    requires dcs { (1 ≤ dcs) × (dcs ≤ DATACENTRES) }
    ensures answer { IfOk result (λ done. done.answer ≡ answer_to_copy (slice_index_or row.old e []) k) }
    ensures changed { (ms : List Message) → AreSpelled dcs (slice_index_or row.old e []) ms → IfOk result (λ done. TellsApart done.changed ms (copied ms k)) }
    ensures row { OnOk result (row.new ≡ slice_set row.old e (copied (slice_index_or row.old e []) k)) }
{
    let link = row.item_mut(e.number() as usize);
    let kept = is_kept_by_copy(alloc, link, k, dcs)?;
    let answer = link.copy(k)?;
    Ok(CopyDone {
        answer,
        changed: !kept,
    })
}

// Whether a copy of packet k would leave the messages of the link as they are: there is no packet k, or the link is full of
// packets that spell its message.
fn is_kept_by_copy(alloc: Global, link: &Link, k: u32, dcs: u32) -> Result<bool, NoMemory>
    requires { (1 ≤ dcs) × (dcs ≤ DATACENTRES) }
    ensures { (ms : List Message) → AreSpelled dcs link.now ms → IfOk result (λ kept. IsTrue kept ↔ (copied ms k ≡ ms)) }
{
    match link.packet(k) {
        Some(packet) => is_full_of(alloc, link, packet, dcs),
        None => Ok(true),
    }
}
