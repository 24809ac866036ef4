//! The turns of all datacentres and links.
ghost use Rattle.std.specs.Prelude.{◌≡◌, [], false, true, IfOk};
ghost use Rattle.abstract_log.specs.declared.script.Step.TheVariants.{Copy, Deliver, Lose, Send};
ghost use Rattle.abstract_log.specs.declared.script.Outcome.TheVariants.{Absent};
ghost use Rattle.stage_world.specs.Stages.{Stages as StageWorld};
ghost use Rattle.stage_world.specs.Schedules.{step_of};
ghost use Rattle.world.specs.Showing.{HasMoved, MayStep, TellsIdle, uses_link};

use crate::linking::{copy_packet, lose_packet, put_sent, with_change};
use crate::network::Network;
use crate::one_datacentre::{has_receiver, receive, send, take};
use crate::packets::take_out;
use crate::step_owners::{place_of, uses_link};
use abstract_log::{Outcome, Step, Workload};
use cz_base::{DcId, NoMemory, Seq};
use datacentre::TurnDone;

impl Network {
    /// The turn of a step.
    pub fn step(&mut self, workload: &Workload, step: &Step) -> Result<TurnDone, NoMemory>
        requires { (z : StageWorld) × MayStep workload.now step.now z self.old }
        ensures moved { (z : StageWorld) → MayStep workload.now step.now z self.old → IfOk result (HasMoved workload.now.dcs (step_of workload.now z step.now) self.new) }
        ensures told { (z : StageWorld) → MayStep workload.now step.now z self.old → IfOk result (λ done. TellsIdle workload.now z step.now done.changed) }
    {
        if uses_link(step) {
            self.link_step(workload, step)
        } else {
            self.own_step(workload, step)
        }
    }

    // The turn of a stage of one datacentre.
    fn own_step(&mut self, workload: &Workload, step: &Step) -> Result<TurnDone, NoMemory>
        requires may { (z : StageWorld) × MayStep workload.now step.now z self.old }
        requires own { uses_link step.now ≡ false }
        ensures moved { (z : StageWorld) → MayStep workload.now step.now z self.old → IfOk result (HasMoved workload.now.dcs (step_of workload.now z step.now) self.new) }
        ensures told { (z : StageWorld) → MayStep workload.now step.now z self.old → IfOk result (λ done. TellsIdle workload.now z step.now done.changed) }
    {
        let d = place_of(workload, step);
        take(&mut self.datacentres, d, step)
    }

    // The turn of a step that uses a link.
    fn link_step(&mut self, workload: &Workload, step: &Step) -> Result<TurnDone, NoMemory>
        requires may { (z : StageWorld) × MayStep workload.now step.now z self.old }
        requires link { uses_link step.now ≡ true }
        ensures moved { (z : StageWorld) → MayStep workload.now step.now z self.old → IfOk result (HasMoved workload.now.dcs (step_of workload.now z step.now) self.new) }
        ensures told { (z : StageWorld) → MayStep workload.now step.now z self.old → IfOk result (λ done. TellsIdle workload.now z step.now done.changed) }
    {
        match *step {
            Step::Send { d, k, e } => self.send(workload, d, k, e),
            Step::Deliver { d, e, k, r } => self.deliver(workload, d, e, k, r),
            Step::Lose { d, e, k } => Ok(self.lose(workload, d, e, k)),
            Step::Copy { d, e, k } => self.copy(workload, d, e, k),
            _ => unreachable!(),
        }
    }

    // Sender k of d puts a message into the link to e.
    fn send(&mut self, _workload: &Workload, d: DcId, k: u32, e: DcId) -> Result<TurnDone, NoMemory>
        requires { (z : StageWorld) × MayStep _workload.now (Send d k e) z self.old }
        ensures moved { (z : StageWorld) → MayStep _workload.now (Send d k e) z self.old → IfOk result (HasMoved _workload.now.dcs (step_of _workload.now z (Send d k e)) self.new) }
        ensures told { (z : StageWorld) → MayStep _workload.now (Send d k e) z self.old → IfOk result (λ done. TellsIdle _workload.now z (Send d k e) done.changed) }
    {
        let (done, packet) = send(&mut self.datacentres, d, k, e)?;
        put_sent(&mut self.links, d, e, done, packet)
    }

    // Packet k of the link from d comes to receiver r of e.
    fn deliver(
        &mut self,
        _workload: &Workload,
        d: DcId,
        e: DcId,
        k: u32,
        r: u32,
    ) -> Result<TurnDone, NoMemory>
        requires { (z : StageWorld) × MayStep _workload.now (Deliver d e k r) z self.old }
        ensures moved { (z : StageWorld) → MayStep _workload.now (Deliver d e k r) z self.old → IfOk result (HasMoved _workload.now.dcs (step_of _workload.now z (Deliver d e k r)) self.new) }
        ensures told { (z : StageWorld) → MayStep _workload.now (Deliver d e k r) z self.old → IfOk result (λ done. TellsIdle _workload.now z (Deliver d e k r) done.changed) }
    {
        if !has_receiver(&self.datacentres, e, r) {
            return Ok(self.absent());
        }
        let Some(packet) = take_out(&mut self.links, d, e, k) else {
            return Ok(self.absent());
        };
        let done = receive(&mut self.datacentres, e, d, r, &packet)?;
        Ok(with_change(done))
    }

    // Packet k of the link from d to e is lost.
    fn lose(&mut self, _workload: &Workload, d: DcId, e: DcId, k: u32) -> TurnDone
        requires { (z : StageWorld) × MayStep _workload.now (Lose d e k) z self.old }
        ensures moved { (z : StageWorld) → MayStep _workload.now (Lose d e k) z self.old → HasMoved _workload.now.dcs (step_of _workload.now z (Lose d e k)) self.new result }
        ensures told { (z : StageWorld) → MayStep _workload.now (Lose d e k) z self.old → TellsIdle _workload.now z (Lose d e k) result.changed }
    {
        lose_packet(&mut self.links, d, e, k)
    }

    // Packet k of the link from d to e comes a second time.
    fn copy(&mut self, _workload: &Workload, d: DcId, e: DcId, k: u32) -> Result<TurnDone, NoMemory>
        requires { (z : StageWorld) × MayStep _workload.now (Copy d e k) z self.old }
        ensures moved { (z : StageWorld) → MayStep _workload.now (Copy d e k) z self.old → IfOk result (HasMoved _workload.now.dcs (step_of _workload.now z (Copy d e k)) self.new) }
        ensures told { (z : StageWorld) → MayStep _workload.now (Copy d e k) z self.old → IfOk result (λ done. TellsIdle _workload.now z (Copy d e k) done.changed) }
    {
        copy_packet(&mut self.links, d, e, k)
    }

    // What is answered where something is not there.
    fn absent(&self) -> TurnDone
        ensures { result ≡ record { outcome = Absent; events = []; changed = false } }
    {
        TurnDone {
            outcome: Outcome::Absent,
            events: Seq::new(self.links.alloc()),
            changed: false,
        }
    }
}
