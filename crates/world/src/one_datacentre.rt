//! What is asked of one of the datacentres.
ghost use Rattle.std.specs.Prelude.{◌≡◌, length, nat_lt, IfOk};
ghost use Rattle.record_codec.specs.declared.message.Message.{Message};
ghost use Rattle.record_codec.specs.Wire.{SpellsMessage};
ghost use Rattle.stage_world.specs.Stages.{Datacentre as StagesAt};
ghost use Rattle.stage_world.specs.MoreTurns.{receive_turn};
ghost use Rattle.stage_world.specs.Schedules.{turn_of};
ghost use Rattle.datacentre.specs.Seen.{StandsForALog};
ghost use Rattle.world.specs.Showing.{HasSent, HasTurned, IsSeenAt, MayReceiveAt, MaySendAt, MayTurnAt};

use abstract_log::Step;
use cz_base::{DcId, NoMemory, Seq};
use datacentre::{Datacentre, TurnDone};
use lossy_links::Packet;

/// A turn of one of the stages of datacentre d.
pub(crate) fn take(
    datacentres: &mut Seq<Datacentre>,
    d: DcId,
    step: &Step,
) -> Result<TurnDone, NoMemory>
    requires { MayTurnAt d step.now datacentres.old }
    ensures { (z : StagesAt) → IsSeenAt d z datacentres.old → IfOk result (HasTurned d z (turn_of d z step.now) datacentres.old datacentres.new) }
{
    datacentres.item_mut(d.number() as usize).turn(step)
}

/// Sender k of datacentre d makes its message to e, if it is there. The outcome is that of an empty link.
pub(crate) fn send(
    datacentres: &mut Seq<Datacentre>,
    d: DcId,
    k: u32,
    e: DcId,
) -> Result<(TurnDone, Option<Packet>), NoMemory>
    requires { MaySendAt d e datacentres.old }
    ensures { (z : StagesAt) → IsSeenAt d z datacentres.old → IfOk result (HasSent d k e z datacentres.old datacentres.new) }
{
    datacentres.item_mut(d.number() as usize).send(k, e)
}

/// Receiver r of datacentre d gets a packet from the link from another.
pub(crate) fn receive(
    datacentres: &mut Seq<Datacentre>,
    d: DcId,
    from: DcId,
    r: u32,
    packet: &Packet,
) -> Result<TurnDone, NoMemory>
    requires { MayReceiveAt d from packet.now datacentres.old }
    ensures { (z : StagesAt) (m : Message) → IsSeenAt d z datacentres.old → SpellsMessage (length z.table) packet.now m → IfOk result (HasTurned d z (receive_turn d z r m) datacentres.old datacentres.new) }
{
    datacentres
        .item_mut(d.number() as usize)
        .receive(from, r, packet)
}

/// Whether receiver r of datacentre d is there.
pub(crate) fn has_receiver(datacentres: &Seq<Datacentre>, d: DcId, r: u32) -> bool
    requires { (z : StagesAt) × IsSeenAt d z datacentres.now × StandsForALog d z }
    ensures { (z : StagesAt) → IsSeenAt d z datacentres.now → result ≡ nat_lt r z.receivers }
{
    let receivers = datacentres.as_slice()[d.number() as usize]
        .members()
        .receivers;
    r < receivers
}
