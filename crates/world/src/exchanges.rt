//! What the senders have to do in an exchange.
ghost use Rattle.std.specs.Prelude.{◌≡◌, ◌++◌, ◌≤◌, length, IfOk, OnOk};
ghost use Rattle.cz_base.specs.declared.limits.TheConstants.{DATACENTRES};
ghost use Rattle.stage_world.specs.Opening.{numbered};
ghost use Rattle.stage_world.specs.Settling.{errands};
ghost use Rattle.stage_world.specs.Stages.{Stages as StageWorld};
ghost use Rattle.world.specs.Settled.{AreKnown, errands_between, errands_from};

use crate::settling_state::members;
use cz_base::{DcId, NoMemory, Seq};
use datacentre::Datacentre;
use std::alloc::Global;
use std::marker::Model;

/// A sender that is to send to another datacentre.
#[derive(Drop)]
pub(crate) struct Errand {
    pub from: DcId,
    pub to: DcId,
    pub sender: u32,
}

impl Model for Errand {
    ghost use Rattle.stage_world.specs.Settling.{Errand as ErrandAt};

    ghost Value = { ErrandAt };

    ghost view = { λ x. record { from = x.from; to = x.to; sender = x.sender } };
}

/// All errands: from each datacentre to each other, for each sender.
pub(crate) fn errands(
    alloc: Global,
    datacentres: &Seq<Datacentre>,
    dcs: u32,
) -> Result<Seq<Errand>, NoMemory>
    requires known { (z : StageWorld) × AreKnown z datacentres.now }
    requires few { dcs ≤ DATACENTRES }
    requires all { dcs ≡ length datacentres.now }
    ensures { (z : StageWorld) → AreKnown z datacentres.now → IfOk result (λ them. them ≡ errands z) }
{
    let mut them = Seq::new(alloc);
    for number in 0..dcs {
        let Some(d) = DcId::new(number) else {
            unreachable!();
        };
        add_errands(&mut them, d, dcs, members(datacentres, d).senders)?;
    }
    Ok(them)
}

// From d to each other.
fn add_errands(them: &mut Seq<Errand>, d: DcId, dcs: u32, senders: u32) -> Result<(), NoMemory>
    requires { dcs ≤ DATACENTRES }
    ensures { OnOk result (them.new ≡ them.old ++ errands_from d dcs senders) }
{
    for number in 0..dcs {
        let Some(e) = DcId::new(number) else {
            unreachable!();
        };
        add_errands_between(them, d, e, senders)?;
    }
    Ok(())
}

// From d to e, if these are two.
fn add_errands_between(
    them: &mut Seq<Errand>,
    d: DcId,
    e: DcId,
    senders: u32,
) -> Result<(), NoMemory>
    ensures { OnOk result (them.new ≡ them.old ++ errands_between d e senders) }
{
    if d == e {
        return Ok(());
    }
    add_senders(them, d, e, senders)
}

fn add_senders(them: &mut Seq<Errand>, from: DcId, to: DcId, senders: u32) -> Result<(), NoMemory>
    ensures { OnOk result (them.new ≡ them.old ++ numbered (λ k. record { from = from; to = to; sender = k }) senders) }
{
    for sender in 0..senders {
        them.push(Errand { from, to, sender })?;
    }
    Ok(())
}
