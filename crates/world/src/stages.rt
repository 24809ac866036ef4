//! All stages, and the turns that they take.

ghost use Rattle.std.specs.Prelude.{◌≡◌, true, false, List, [], ◌∷◌, ◌++◌, IfOk, OnErr, OnOk, IsErr};
ghost use Rattle.abstract_log.specs.declared.script.Script.{Script as ScriptValue};
ghost use Rattle.abstract_log.specs.Fits.{FitsScript};
ghost use Rattle.abstract_log.specs.Runs.{IsRun};
ghost use Rattle.abstract_log.specs.Turns.{IsStep};
ghost use Rattle.world.specs.Taking.{lines_told};

use crate::leaving::leave;
use crate::network::Network;
use crate::opening::open_network;
use abstract_log::{Event, Left, Outcome, Run, Script, StageLine, StageLog, Step, Workload};
use cz_base::{NoMemory, Seq};
use std::alloc::Global;
use std::marker::Model;

/// A run, the turns that brought it, and what it leaves.
#[derive(Debug, Drop)]
pub struct Played {
    /// The events, and the workload that they answer.
    pub run: Run,
    /// A line for each turn, but the idle ones of settling.
    pub stages: StageLog,
    /// What stands in each log, and each table.
    pub left: Left,
}

/// All datacentres, the links between them, and what was written of their turns. Once a call has answered `NoMemory`, so does
/// each later turn.
#[derive(Drop)]
pub struct Stages {
    pub(crate) workload: Workload,
    pub(crate) network: Network,
    pub(crate) events: Seq<Event>,
    lines: StageLog,
    pub(crate) failed: bool,
}

impl Model for Stages {
    ghost use Rattle.std.specs.Prelude.{◌≡◌, false};
    ghost use Rattle.world.specs.Taking.{HaveTakenTurns, StagesState};

    ghost Value = { StagesState };

    ghost view = { λ s. record { workload = s.workload; network = s.network; events = s.events; lines = s.lines; failed = s.failed } };

    ghost invariant = { λ s. s.failed ≡ false → HaveTakenTurns (record { workload = s.workload; network = s.network; events = s.events; lines = s.lines; failed = s.failed }) };
}

impl Stages {
    ghost use Rattle.world.specs.Taking.{HasTaken, IsPlayed, TakenTurn};

    /// The stages as a script opens them. Its steps are not taken yet.
    pub fn start(alloc: Global, script: &Script) -> Result<Self, NoMemory>
        requires { FitsScript script.now }
        ensures { IfOk result (λ stages. HasTaken script.now [] stages) }
    {
        Ok(Stages {
            workload: script.workload.copy()?,
            network: open_network(alloc, script)?,
            events: Seq::new(alloc),
            lines: Seq::new(alloc),
            failed: false,
        })
    }

    /// Takes one turn, and writes its line and its events.
    pub fn turn(&mut self, step: &Step) -> Result<(), NoMemory>
        requires step { IsStep self.old.workload step.now }
        // Whatever turns were taken, they are now one more.
        ensures taken { (script : ScriptValue) (ts : List TakenTurn) → HasTaken script ts self.old → OnOk result (HasTaken script (ts ++ record { step = step.now; settling = false } ∷ []) self.new) }

        // What is written is a run on the workload.
        ensures run { OnOk result (IsRun self.new.workload self.new.events) }
        ensures workload { self.new.workload ≡ self.old.workload }
        ensures failed { OnErr result (self.new.failed ≡ true) }
        ensures later { self.old.failed ≡ true → IsErr result }
    {
        self.take(step, false)
    }

    // Takes one turn, and writes its line and its events; an idle turn of settling has no line.
    pub(crate) fn take(&mut self, step: &Step, settling: bool) -> Result<(), NoMemory>
        requires step { IsStep self.old.workload step.now }
        ensures taken { (script : ScriptValue) (ts : List TakenTurn) → HasTaken script ts self.old → OnOk result (HasTaken script (ts ++ record { step = step.now; settling = settling } ∷ []) self.new) }
        ensures run { OnOk result (IsRun self.new.workload self.new.events) }
        ensures workload { self.new.workload ≡ self.old.workload }
        ensures failed { OnErr result (self.new.failed ≡ true) }
        ensures later { self.old.failed ≡ true → IsErr result }
    {
        if self.failed {
            return Err(NoMemory);
        }
        self.failed = true;
        let done = self.network.step(&self.workload, step)?;
        write_line(&mut self.lines, step, done.outcome, settling, done.changed)?;
        self.events.append(done.events)?;
        self.failed = false;
        Ok(())
    }

    /// What was written, the run and a line for each turn; and what the run leaves, which is moved out of the stages.
    pub fn finish(self) -> Result<Played, NoMemory>
        ensures { (script : ScriptValue) (ts : List TakenTurn) → HasTaken script ts self → IfOk result (IsPlayed script ts) }
    {
        let Stages {
            workload,
            network,
            events,
            lines,
            failed: _,
        } = self;
        let left = leave(events.alloc(), network)?;
        Ok(Played {
            run: Run { workload, events },
            stages: lines,
            left,
        })
    }
}

// Writes the line of a turn, but for one of settling that changed nothing.
fn write_line(
    lines: &mut StageLog,
    step: &Step,
    outcome: Outcome,
    settling: bool,
    changed: bool,
) -> Result<(), NoMemory>
    ensures { OnOk result (lines.new ≡ lines.old ++ lines_told step.now outcome settling changed) }
{
    if changed || !settling {
        lines.push(StageLine {
            step: *step,
            outcome,
            settling,
        })?;
    }
    Ok(())
}
