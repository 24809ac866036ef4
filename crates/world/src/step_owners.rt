//! Where a step is taken.
ghost use Rattle.std.specs.Prelude.{◌≡◌};
ghost use Rattle.abstract_log.specs.Turns.{IsStep, datacentre_of_step};
ghost use Rattle.world.specs.Showing.{uses_link};

use abstract_log::{Step, Workload};
use cz_base::DcId;

/// The datacentre whose stage takes the turn.
pub(crate) fn place_of(workload: &Workload, step: &Step) -> DcId
    requires { IsStep workload.now step.now }
    ensures { result ≡ datacentre_of_step workload.now step.now }
{
    match *step {
        Step::Client { s } => workload.sessions.as_slice()[s as usize].home,
        Step::Flush { d, b: _ } => d,
        Step::Pass { d, f: _, q: _ } => d,
        Step::Stamp { d, q: _ } => d,
        Step::Token { d } => d,
        Step::Place { d, q: _, m: _ } => d,
        Step::Gossip { d, m: _, k: _ } => d,
        Step::Post { d, m: _, i: _ } => d,
        Step::Learn { d } => d,
        Step::Send { d, k: _, e: _ } => d,
        Step::Deliver {
            d: _,
            e,
            k: _,
            r: _,
        } => e,
        Step::Lose { d, e: _, k: _ } => d,
        Step::Copy { d, e: _, k: _ } => d,
        Step::Floor { d, p: _ } => d,
        Step::Collect { d, m: _ } => d,
        Step::Announce { d, h: _, t: _ } => d,
        Step::Mark { d } => d,
        Step::AddMaintainer { d, p: _ } => d,
        Step::AddBatcher { d } => d,
        Step::AddQueue { d } => d,
        Step::AddSender { d } => d,
        Step::AddReceiver { d } => d,
        Step::Upgrade { d } => d,
    }
}

/// Whether the turn uses a link.
pub(crate) fn uses_link(step: &Step) -> bool
    ensures { result ≡ uses_link step.now }
{
    match *step {
        Step::Send { d: _, k: _, e: _ } => true,
        Step::Deliver {
            d: _,
            e: _,
            k: _,
            r: _,
        } => true,
        Step::Lose { d: _, e: _, k: _ } => true,
        Step::Copy { d: _, e: _, k: _ } => true,
        Step::Client { s: _ } => false,
        Step::Flush { d: _, b: _ } => false,
        Step::Pass { d: _, f: _, q: _ } => false,
        Step::Stamp { d: _, q: _ } => false,
        Step::Token { d: _ } => false,
        Step::Place { d: _, q: _, m: _ } => false,
        Step::Gossip { d: _, m: _, k: _ } => false,
        Step::Post { d: _, m: _, i: _ } => false,
        Step::Learn { d: _ } => false,
        Step::Floor { d: _, p: _ } => false,
        Step::Collect { d: _, m: _ } => false,
        Step::Announce { d: _, h: _, t: _ } => false,
        Step::Mark { d: _ } => false,
        Step::AddMaintainer { d: _, p: _ } => false,
        Step::AddBatcher { d: _ } => false,
        Step::AddQueue { d: _ } => false,
        Step::AddSender { d: _ } => false,
        Step::AddReceiver { d: _ } => false,
        Step::Upgrade { d: _ } => false,
    }
}
