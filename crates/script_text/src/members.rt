//! The members that step lines add to stages, and the steps with the counts of what they add.

ghost use Rattle.std.specs.Prelude.{◌≡◌, ◌<◌, ◌++◌, [], ◌∷◌, length, IfOk};
ghost use Rattle.cz_base.specs.declared.limits.TheConstants.{STEPS};
ghost use Rattle.script_text.specs.declared.members.TheConstants.{STAGES, PLACES};
ghost use Rattle.script_text.specs.Members.{stage_number, added_by, additions, members};
ghost use Rattle.script_text.specs.Tallies.{place};

use abstract_log::{Sizes, Step};
use cz_base::limits::DATACENTRES;
use cz_base::{DcId, NoMemory, Seq};
use std::alloc::Global;
use std::marker::Model;

/// A stage to which step lines add members.
#[derive(Clone, Copy, Debug, PartialEq, Eq)]
pub enum Stage {
    /// `addbatcher`.
    Batchers,
    /// `announce`.
    Filters,
    /// `addqueue`.
    Queues,
    /// `addmaintainer`.
    Maintainers,
    /// `addsender`.
    Senders,
    /// `addreceiver`.
    Receivers,
}

/// One member more of a stage.
#[derive(Clone, Copy, Debug, PartialEq, Eq)]
pub struct Addition {
    /// The datacentre of the stage.
    pub dc: DcId,
    /// The stage.
    pub stage: Stage,
}

/// How many stages of a datacentre get members.
pub const STAGES: usize = 6;

/// How many stages all datacentres have that get members.
pub const PLACES: usize = DATACENTRES * STAGES;

impl Stage {
    // Its number, below `STAGES`.
    fn number(self) -> usize
        ensures value { result ≡ stage_number self }
        ensures within { result < STAGES }
    {
        match self {
            Stage::Batchers => 0,
            Stage::Filters => 1,
            Stage::Queues => 2,
            Stage::Maintainers => 3,
            Stage::Senders => 4,
            Stage::Receivers => 5,
        }
    }

    /// How many members it has at the start.
    pub fn members(self, sizes: &Sizes) -> u32
        ensures { result ≡ members self sizes.now }
    {
        match self {
            Stage::Batchers => sizes.batchers,
            Stage::Filters => sizes.filters,
            Stage::Queues => sizes.queues,
            Stage::Maintainers => sizes.maintainers,
            Stage::Senders => sizes.senders,
            Stage::Receivers => sizes.receivers,
        }
    }
}

/// The member that a step adds, if it adds one.
pub fn added_by(step: &Step) -> Option<Addition>
    ensures { result ≡ added_by step.now }
{
    let (dc, stage) = match *step {
        Step::Announce { d, .. } => (d, Stage::Filters),
        Step::AddMaintainer { d, .. } => (d, Stage::Maintainers),
        Step::AddBatcher { d } => (d, Stage::Batchers),
        Step::AddQueue { d } => (d, Stage::Queues),
        Step::AddSender { d } => (d, Stage::Senders),
        Step::AddReceiver { d } => (d, Stage::Receivers),
        _ => return None,
    };
    Some(Addition { dc, stage })
}

/// Steps in their order, with the counts of the members that they add. Contracts see them as the list of steps.
#[derive(Debug, Drop)]
pub struct StepList {
    steps: Seq<Step>,
    added: [u32; PLACES],
}

impl Model for StepList {
    ghost use Rattle.std.specs.Prelude.{List};
    ghost use Rattle.abstract_log.specs.declared.script.Step.{Step};
    ghost use Rattle.script_text.specs.Tallies.{IsTally};

    ghost Value = { List Step };

    ghost view = { λ list. list.steps };

    ghost invariant = { λ list. IsTally list.steps list.added };
}

impl StepList {
    /// No steps.
    pub fn new(alloc: Global) -> Self
        ensures { result ≡ [] }
    {
        StepList {
            steps: Seq::new(alloc),
            added: [0; PLACES],
        }
    }

    /// How many steps there are.
    pub fn len(&self) -> usize
        ensures { result ≡ length self.now }
    {
        self.steps.len()
    }

    /// How many members they add to a stage.
    pub fn additions(&self, to: &Addition) -> u32
        ensures { result ≡ additions to.now.dc to.now.stage self.now }
    {
        self.added[place(to)]
    }

    /// Puts a step last.
    pub fn push(&mut self, step: Step) -> Result<(), NoMemory>
        requires room { length self.old < STEPS }
        ensures { IfOk result (λ _. self.new ≡ self.old ++ step ∷ []) }
    {
        let added = added_by(&step);
        self.steps.push(step)?;
        if let Some(to) = added {
            self.added[place(&to)] += 1;
        }
        Ok(())
    }

    /// The steps.
    pub fn into_seq(self) -> Seq<Step>
        ensures { result ≡ self }
    {
        let StepList { steps, .. } = self;
        steps
    }
}

// Where the count of a stage's additions stands.
fn place(to: &Addition) -> usize
    ensures value { result ≡ place to.now.dc to.now.stage }
    ensures within { result < PLACES }
{
    to.dc.number() as usize * STAGES + to.stage.number()
}
