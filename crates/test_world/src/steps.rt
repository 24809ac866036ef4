//! Steps as a script spells them.

ghost use Rattle.std.specs.Prelude.{IsTrue};
ghost use Rattle.std.specs.List.{All};
ghost use Rattle.abstract_log.specs.Turns.{AreTwo, IsStep};

use abstract_log::{Step, Workload};
use cz_base::DcId;
use cz_base::limits::NUMBERS_END;

/// Whether the step is one that these stages may take.
pub(crate) fn may_take(workload: &Workload, step: &Step) -> bool
    ensures { IsTrue result → IsStep workload.now step.now }
{
    let dcs = workload.dcs;
    match *step {
        Step::Client { s } => (s as usize) < workload.sessions.len(),
        Step::Flush { d, b: _ } => d.number() < dcs,
        Step::Pass { d, f: _, q: _ } => d.number() < dcs,
        Step::Stamp { d, q: _ } => d.number() < dcs,
        Step::Token { d } => d.number() < dcs,
        Step::Place { d, q: _, m: _ } => d.number() < dcs,
        Step::Gossip { d, m: _, k: _ } => d.number() < dcs,
        Step::Post { d, m: _, i: _ } => d.number() < dcs,
        Step::Learn { d } => d.number() < dcs,
        Step::Floor { d, p: _ } => d.number() < dcs,
        Step::Collect { d, m: _ } => d.number() < dcs,
        Step::Send { d, k: _, e } => are_two(dcs, d, e),
        Step::Deliver { d, e, k: _, r: _ } => are_two(dcs, d, e),
        Step::Lose { d, e, k: _ } => are_two(dcs, d, e),
        Step::Copy { d, e, k: _ } => are_two(dcs, d, e),
        Step::Announce { d, h, t: _ } => are_two(dcs, d, h),
        Step::AddMaintainer { d, p } => d.number() < dcs && p < NUMBERS_END,
        Step::Mark { d } => d.number() < dcs,
        Step::AddBatcher { d } => d.number() < dcs,
        Step::AddQueue { d } => d.number() < dcs,
        Step::AddSender { d } => d.number() < dcs,
        Step::AddReceiver { d } => d.number() < dcs,
        Step::Upgrade { d } => d.number() < dcs,
    }
}

fn are_two(dcs: u32, d: DcId, e: DcId) -> bool
    ensures { IsTrue result → AreTwo dcs d e }
{
    d.number() < dcs && e.number() < dcs && d.number() != e.number()
}

/// Whether stages may take these steps.
pub(crate) fn may_take_all(workload: &Workload, steps: &[Step]) -> bool
    ensures { IsTrue result → All (IsStep workload.now) steps.now }
{
    for step in steps {
        if !may_take(workload, step) {
            return false;
        }
    }
    true
}
