//! The turns that use a link, as the packets in it see them.
ghost use Rattle.std.specs.Prelude.{◌≡◌, ◌<◌, ◌≤◌, ℕ, false, true, [], if◌then◌else◌, is_some, length, None, List, OnOk, IfOk};
ghost use Rattle.cz_base.specs.declared.limits.TheConstants.{DATACENTRES};
ghost use Rattle.std.specs.Option.{ForSome};
ghost use Rattle.abstract_log.specs.declared.script.Outcome.TheVariants.{Absent, Lost, Sent};
ghost use Rattle.stage_world.specs.Idle.{TellsApart};
ghost use Rattle.lossy_links.specs.Links.{copied, lost_by_put, message_at, put_last, without};
ghost use Rattle.record_codec.specs.declared.message.Message.{Message};
ghost use Rattle.record_codec.specs.Wire.{SpellsMessage};
ghost use Rattle.world.specs.Links.{AreSpelled, AreThere, copy_outcome, lose_outcome, outcome_of_copy, packets_at, with_packets};

use crate::packets::{CopyDone, copy, packets_in, put, take_out};
use abstract_log::Outcome;
use cz_base::{DcId, NoMemory, Seq};
use datacentre::TurnDone;
use lossy_links::{Copied, Link, Packet};

/// What was sent goes into the link from d to e.
pub(crate) fn put_sent(
    links: &mut Seq<Seq<Link>>,
    d: DcId,
    e: DcId,
    done: TurnDone,
    packet: Option<Packet>,
) -> Result<TurnDone, NoMemory>
    requires there { AreThere d e links.old }
    requires few { length links.old ≤ DATACENTRES }
    ensures absent { packet ≡ None → (links.new ≡ links.old) × IfOk result (λ told. told ≡ done) }
    ensures links { ForSome packet (λ bytes. OnOk result (links.new ≡ with_packets links.old d e (put_last (packets_at links.old d e) bytes))) }
    ensures outcome { ForSome packet (λ bytes. (names : List (ℕ × ℕ)) → done.outcome ≡ Sent names 0 false → IfOk result (λ told. told.outcome ≡ Sent names (length (packets_at links.new d e)) (is_some (lost_by_put (packets_at links.old d e))))) }
    ensures events { IfOk result (λ told. told.events ≡ done.events) }
    ensures changed { ForSome packet (λ bytes. (ms : List Message) (m : Message) → AreSpelled (length links.old) (packets_at links.old d e) ms → SpellsMessage (length links.old) bytes m → IfOk result (λ told. TellsApart told.changed ms (put_last ms m))) }
{
    let Some(packet) = packet else {
        return Ok(done);
    };
    let put = put(links, d, e, packet)?;
    Ok(in_link(done, packets_in(links, d, e), put.lost, put.changed))
}

// What is answered to a send once its packet is in the link.
fn in_link(done: TurnDone, link: u32, lost: bool, changed: bool) -> TurnDone
    ensures outcome { (names : List (ℕ × ℕ)) → done.outcome ≡ Sent names 0 false → result.outcome ≡ Sent names link lost }
    ensures events { result.events ≡ done.events }
    ensures changed { result.changed ≡ changed }
{
    let TurnDone {
        outcome,
        events,
        ..
    } = done;
    let outcome = match outcome {
        Outcome::Sent { names, .. } => Outcome::Sent { names, link, lost },
        outcome => outcome,
    };
    TurnDone {
        outcome,
        events,
        changed,
    }
}

/// The turn changed something: a packet left its link.
pub(crate) fn with_change(done: TurnDone) -> TurnDone
    ensures { result ≡ record done { changed = true } }
{
    let TurnDone {
        outcome,
        events,
        ..
    } = done;
    TurnDone {
        outcome,
        events,
        changed: true,
    }
}

/// Packet k of the link from d to e is lost.
pub(crate) fn lose_packet(links: &mut Seq<Seq<Link>>, d: DcId, e: DcId, k: u32) -> TurnDone
    requires { AreThere d e links.old }
    ensures links { links.new ≡ with_packets links.old d e (without (packets_at links.old d e) k) }
    ensures outcome { result.outcome ≡ lose_outcome (message_at (packets_at links.old d e) k) }
    ensures events { result.events ≡ [] }
    ensures changed { result.changed ≡ is_some (message_at (packets_at links.old d e) k) }
{
    let alloc = links.alloc();
    let found = take_out(links, d, e, k).is_some();
    TurnDone {
        outcome: lost_or_absent(found),
        events: Seq::new(alloc),
        changed: found,
    }
}

fn lost_or_absent(lost: bool) -> Outcome
    ensures { result ≡ if lost then Lost else Absent }
{
    if lost { Outcome::Lost } else { Outcome::Absent }
}

/// Packet k of the link from d to e comes a second time.
pub(crate) fn copy_packet(
    links: &mut Seq<Seq<Link>>,
    d: DcId,
    e: DcId,
    k: u32,
) -> Result<TurnDone, NoMemory>
    requires there { AreThere d e links.old }
    requires few { length links.old ≤ DATACENTRES }
    ensures links { OnOk result (links.new ≡ with_packets links.old d e (copied (packets_at links.old d e) k)) }
    ensures outcome { IfOk result (λ done. done.outcome ≡ copy_outcome (packets_at links.old d e) k (length (packets_at links.new d e))) }
    ensures events { IfOk result (λ done. done.events ≡ []) }
    ensures changed { (ms : List Message) → AreSpelled (length links.old) (packets_at links.old d e) ms → IfOk result (λ done. TellsApart done.changed ms (copied ms k)) }
{
    let alloc = links.alloc();
    let CopyDone { answer, changed } = copy(links, d, e, k)?;
    Ok(TurnDone {
        outcome: answered_to_copy(answer, packets_in(links, d, e)),
        events: Seq::new(alloc),
        changed,
    })
}

fn answered_to_copy(answer: Copied, link: u32) -> Outcome
    ensures { result ≡ outcome_of_copy answer link }
{
    match answer {
        Copied::Absent => Outcome::Absent,
        Copied::Done => Outcome::Copied { link, lost: false },
        Copied::Overflow(_) => Outcome::Copied { link, lost: true },
    }
}
