//! A whole generated script: its sessions, and then its steps.

ghost use Rattle.std.specs.Prelude.{◌≡◌, All, IfOk};
ghost use Rattle.abstract_log.specs.Fits.{FitsScript};
ghost use Rattle.abstract_log.specs.Turns.{FitsStep};
ghost use Rattle.script_generator.specs.Draws.{many};
ghost use Rattle.script_generator.specs.Generated.{generated, plan, step};

use crate::commands::plan;
use crate::draws::Draws;
use crate::shape::{DATACENTRE_COUNT, ROUND_LENGTH, SESSION_COUNT, SIZES, STEP_COUNT};
use crate::steps::step;
use abstract_log::{Script, SessionPlan, Step, Workload};
use cz_base::{NoMemory, Seq};
use std::alloc::Global;

/// The script that a number gives: 3 datacentres, 12 sessions with 100 commands each, and 20,000 steps.
/// It fails only where memory runs out.
pub fn generate(alloc: Global, seed: u64) -> Result<Script, NoMemory>
    ensures script { IfOk result (λ script. script ≡ generated seed) }

    // It keeps the ranges of scripts.
    ensures fits { IfOk result FitsScript }

    // Each step is one that a script may have: its session and datacentres are there, a link is
    // between two, and its numbers are in their ranges.
    ensures steps { IfOk result (λ script. All (FitsStep script.workload) script.steps) }
{
    let mut draws = Draws::new(seed);
    let sessions = sessions(alloc, &mut draws)?;
    let steps = steps(alloc, &mut draws)?;
    let sizes = Seq::from_vec(vec![in alloc; SIZES, SIZES, SIZES]?);
    Ok(Script {
        workload: Workload {
            dcs: DATACENTRE_COUNT,
            sessions,
        },
        round: ROUND_LENGTH,
        sizes,
        steps,
    })
}

// The sessions.
fn sessions(alloc: Global, draws: &mut Draws) -> Result<Seq<SessionPlan>, NoMemory>
    ensures { IfOk result (λ made. (made, draws.new) ≡ many plan 12 draws.old) }
{
    let room = Vec::with_capacity(alloc, SESSION_COUNT as usize)?;
    let mut sessions = Seq::from_vec(room);
    for s in 0..SESSION_COUNT {
        sessions.push(plan(alloc, draws, s)?)?;
    }
    Ok(sessions)
}

// The steps.
fn steps(alloc: Global, draws: &mut Draws) -> Result<Seq<Step>, NoMemory>
    ensures { IfOk result (λ made. (made, draws.new) ≡ many (λ _. step) 20000 draws.old) }
{
    let room = Vec::with_capacity(alloc, STEP_COUNT as usize)?;
    let mut steps = Seq::from_vec(room);
    for _step in 0..STEP_COUNT {
        steps.push(step(draws))?;
    }
    Ok(steps)
}
