//! Runs: what each step answers, and what stands and waits at the end.

ghost use Rattle.std.specs.Prelude.{◌≡◌, ◌+◌, ◌≤◌, length, All, IfOk, OnOk};
ghost use Rattle.cz_base.specs.declared.limits.TheConstants.{MEMBERS, STEPS};
ghost use Rattle.flstore_service.specs.Fits.{FitsFlScript, FitsFlStep, additions};
ghost use Rattle.flstore_service.specs.Running.{lines_after, run_of, service_after};
ghost use Rattle.flstore_service.specs.Sound.{IsServing};

use crate::listing::{kept_by_number, places_by_position};
use crate::service::Service;
use crate::{FlScript, FlStep};
use cz_base::{Body, Lid, NoMemory, Seq};
use std::alloc::Global;

/// What a step answers.
#[derive(Debug, Drop)]
pub enum FlOutcome {
    /// There is no such maintainer; a value that it was given is refused.
    Absent,
    /// The value stands at this position, and values that had waited at these.
    Placed { lid: Lid, released: Seq<Lid> },
    /// The value waits.
    Kept,
    /// The head by the vector that heard.
    Heard { head: Lid },
    /// The head by the vector.
    HeadAt { at: Lid },
    /// The position is above the head.
    Beyond,
    /// What stands at the position.
    Value { body: Body },
    /// The epoch does not start above this: the greatest of all positions given, and the last epoch's start.
    Late { bound: Lid },
    /// From this position on there are so many maintainers.
    EpochAdded { start: Lid, members: u32 },
}

/// A step with its answer.
#[derive(Debug, Drop)]
pub struct FlLine {
    pub step: FlStep,
    pub outcome: FlOutcome,
}

/// A value that stands in the log.
#[derive(Debug, Drop)]
pub struct FlPlace {
    /// Its position, from 1 on.
    pub lid: Lid,
    /// Which of the values it is that were not refused, in the order in which they came, from 1 on.
    pub number: u32,
    pub body: Body,
}

/// A value that waits.
#[derive(Clone, Copy, Debug, PartialEq, Eq)]
pub struct FlKept {
    /// Which of the values it is that were not refused, from 1 on.
    pub number: u32,
    /// The maintainer at which it waits.
    pub member: u32,
    /// The position above which it has to stand.
    pub bound: Lid,
}

/// All steps with their answers; what stands, by position; and what waits, by number.
#[derive(Debug, Drop)]
pub struct FlRun {
    pub lines: Seq<FlLine>,
    pub places: Seq<FlPlace>,
    pub kept: Seq<FlKept>,
}

/// The run of a script.
pub fn flstore(alloc: Global, script: &FlScript) -> Result<FlRun, NoMemory>
    requires { FitsFlScript script.now }
    ensures { IfOk result (λ run. run ≡ run_of script.now) }
{
    let mut service = Service::start(alloc, script.round, script.maintainers)?;
    let lines = take_steps(alloc, &mut service, script.steps.as_slice())?;
    let places = places_by_position(alloc, &service)?;
    let kept = kept_by_number(alloc, &service)?;
    Ok(FlRun {
        lines,
        places,
        kept,
    })
}

// All steps, one after another.
fn take_steps(
    alloc: Global,
    service: &mut Service,
    steps: &[FlStep],
) -> Result<Seq<FlLine>, NoMemory>
    requires start { IsServing service.old 0 }
    requires steps { length steps.now ≤ STEPS }
    requires fits { All FitsFlStep steps.now }
    requires few { length service.old.members + additions steps.now ≤ MEMBERS }
    ensures lines { IfOk result (λ lines. lines ≡ lines_after service.old steps.now) }
    ensures service { OnOk result (service.new ≡ service_after service.old steps.now) }
{
    let mut lines = Seq::from_vec(Vec::with_capacity(alloc, steps.len())?);
    for step in steps {
        let outcome = service.turn(step)?;
        let step = step.copy()?;
        lines.push(FlLine { step, outcome })?;
    }
    Ok(lines)
}
