//! The log that takes events one at a time.
ghost use Rattle.std.specs.Prelude.{◌≡◌, ℕ, ◌<◌, ◌≤◌, Err, length, IfOk, OnOk, OnErr};
ghost use Rattle.abstract_log.specs.Answers.{answer_to};
ghost use Rattle.abstract_log.specs.Shapes.{FitsWorkload, IsShaped};
ghost use Rattle.abstract_log.specs.Steps.{after, conditions, CanHappen, FirstFails};
ghost use Rattle.abstract_log.specs.Worlds.{log_of, start};

use crate::StepFault;
use crate::answering::answer_to;
use crate::begin::start;
use crate::taking::take;
use abstract_log::{Answer, Command, Event, Workload, World};
use cz_base::{DcId, Lid, NoMemory};
use std::alloc::Global;
use std::marker::Model;

/// A log that takes events one at a time. Contracts see the world that they have left so far.
#[derive(Debug, Drop)]
pub struct AbstractLog {
    world: World,
}

impl Model for AbstractLog {
    ghost use Rattle.abstract_log.specs.declared.world.World.{World};

    ghost Value = { World };

    ghost view = { λ log. log.world };
}

impl AbstractLog {
    /// The log of a workload in which nothing has happened.
    pub fn start(alloc: Global, workload: &Workload) -> Result<Self, NoMemory>
        requires { FitsWorkload workload.now }
        ensures start { IfOk result (λ log. log ≡ start workload.now) }
        ensures shaped { IfOk result IsShaped }
    {
        Ok(AbstractLog {
            world: start(alloc, workload)?,
        })
    }

    /// Takes the event, if it may happen. Else the fault tells the first condition that fails, counted
    /// from 1, or that there was no memory, and the log stays as it was.
    pub fn step(&mut self, event: &Event) -> Result<(), StepFault>
        requires { IsShaped self.old }
        ensures ok { OnOk result (CanHappen self.old event.now) }
        ensures next { OnOk result (self.new ≡ after self.old event.now) }
        ensures refused { (place : ℕ) → result ≡ Err (StepFault.Refused place) → FirstFails (conditions self.old event.now) place }
        ensures err { OnErr result (self.new ≡ self.old) }
        ensures shaped { IsShaped self.new }
    {
        take(&mut self.world, event)
    }

    /// The answer to a command at datacentre d and position s: a write has none.
    pub fn answer(&self, d: DcId, command: &Command, s: Lid) -> Result<Option<Answer>, NoMemory>
        requires shaped { IsShaped self.now }
        requires there { d < self.now.workload.dcs }
        requires within { s ≤ length (log_of self.now d) }
        ensures { IfOk result (λ answer. answer ≡ answer_to self.now d command.now s) }
    {
        answer_to(&self.world, d, command, s)
    }

    /// The world that the events have left so far.
    pub fn world(&self) -> &World
        ensures { result.now ≡ self.now }
    {
        &self.world
    }

    /// The world that the events have left, with the log given up.
    pub fn into_world(self) -> World
        ensures { result ≡ self }
    {
        let AbstractLog { world } = self;
        world
    }
}
