//! A script from its first step to its end.
ghost use Rattle.std.specs.Prelude.{IfOk};
ghost use Rattle.std.specs.List.{All};
ghost use Rattle.abstract_log.specs.Fits.{FitsScript};
ghost use Rattle.abstract_log.specs.Turns.{IsStep};
ghost use Rattle.world.specs.Taking.{HasTaken, taken_of};
ghost use Rattle.world.specs.Replays.{IsReplayed};

use crate::stages::{Played, Stages};
use abstract_log::Script;
use cz_base::NoMemory;
use settling_laws::settled_worlds_are_finished;
use std::alloc::Global;

/// Plays the script's steps, and then on until all is answered and told.
pub fn replay(alloc: Global, script: &Script) -> Result<Played, NoMemory>
    requires fits { FitsScript script.now }
    requires steps { All (IsStep script.now.workload) script.now.steps }
    ensures { IfOk result (IsReplayed script.now) }
{
    let mut stages = opened(alloc, script)?;
    stages.settle()?;
    settled_worlds_are_finished();
    stages.finish()
}

// The stages after the script's own steps.
fn opened(alloc: Global, script: &Script) -> Result<Stages, NoMemory>
    requires fits { FitsScript script.now }
    requires steps { All (IsStep script.now.workload) script.now.steps }
    ensures { IfOk result (λ stages. HasTaken script.now (taken_of script.now.steps) stages) }
{
    let mut stages = Stages::start(alloc, script)?;
    for step in script.steps.as_slice() {
        stages.turn(step)?;
    }
    Ok(stages)
}
