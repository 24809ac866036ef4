//! The turns of marks and of local rounds, as lists: what the stages are when a round begins decides all of it.
ghost use Rattle.std.specs.Prelude.{◌≡◌, ◌++◌, ◌<◌, ◌≤◌, ◌%◌, ◌^◌, flat_map, map, IfOk, OnOk};
ghost use Rattle.cz_base.specs.declared.limits.TheConstants.{DATACENTRES};
ghost use Rattle.stage_world.specs.Stages.{Datacentre as StagesAt, Session as SessionState};
ghost use Rattle.stage_world.specs.Settling.{below, local_round, marks};
ghost use Rattle.abstract_log.specs.declared.script.Step.TheVariants.{Client, Flush, Gossip, Pass, Place, Post};
ghost use Rattle.stage_world.specs.Opening.{numbered};
ghost use Rattle.world.specs.Settled.{IsKnown, ring_from};

use abstract_log::Step;
use cz_base::limits::MEMBERS;
use cz_base::{DcId, NoMemory, Seq};
use datacentre::{Datacentre, Session};
use std::alloc::Global;

// As often may an announcement have to take its next step: each filter is asked once, and then all take the grown map.
const MARK_TURNS: usize = MEMBERS + 1;

/// The marks of all datacentres.
pub(crate) fn marks(alloc: Global, dcs: u32) -> Result<Seq<Step>, NoMemory>
    requires { dcs ≤ DATACENTRES }
    ensures { IfOk result (λ steps. steps ≡ flat_map marks (below dcs)) }
{
    let mut steps = Seq::new(alloc);
    for number in 0..dcs {
        let Some(d) = DcId::new(number) else {
            unreachable!();
        };
        add_marks(&mut steps, d)?;
    }
    Ok(steps)
}

// Those of one datacentre, added to others.
fn add_marks(steps: &mut Seq<Step>, d: DcId) -> Result<(), NoMemory>
    ensures { OnOk result (steps.new ≡ steps.old ++ marks d) }
{
    for _done in 0..MARK_TURNS {
        steps.push(Step::Mark { d })?;
    }
    Ok(())
}

/// The turns of a local round of datacentre d, added to others.
pub(crate) fn add_round(
    steps: &mut Seq<Step>,
    d: DcId,
    datacentre: &Datacentre,
) -> Result<(), NoMemory>
    requires { (z : StagesAt) × IsKnown d z datacentre.now }
    ensures { (z : StagesAt) → IsKnown d z datacentre.now → OnOk result (steps.new ≡ steps.old ++ local_round d z) }
{
    let members = datacentre.members();
    let holder = datacentre.holder();
    add_clients(steps, datacentre.sessions())?;
    add_flushes(steps, d, members.batchers)?;
    add_passes(steps, d, members.filters, members.queues)?;
    add_ring(steps, d, holder, members.queues)?;
    add_places(steps, d, members.queues, members.maintainers)?;
    add_gossips(steps, d, members.maintainers)?;
    add_posts(steps, d, members.maintainers, members.indexers)?;
    steps.push(Step::Learn { d })?;
    Ok(())
}

// Each session.
fn add_clients(steps: &mut Seq<Step>, sessions: &[Session]) -> Result<(), NoMemory>
    ensures { OnOk result (steps.new ≡ steps.old ++ map (λ (x : SessionState). Client x.number) sessions.now) }
{
    for session in sessions {
        steps.push(Step::Client {
            s: session.number(),
        })?;
    }
    Ok(())
}

// Each batcher.
fn add_flushes(steps: &mut Seq<Step>, d: DcId, batchers: u32) -> Result<(), NoMemory>
    ensures { OnOk result (steps.new ≡ steps.old ++ numbered (Flush d) batchers) }
{
    for b in 0..batchers {
        steps.push(Step::Flush { d, b })?;
    }
    Ok(())
}

// Each filter, with its queue.
fn add_passes(steps: &mut Seq<Step>, d: DcId, filters: u32, queues: u32) -> Result<(), NoMemory>
    requires { 1 ≤ queues }
    ensures { OnOk result (steps.new ≡ steps.old ++ numbered (λ f. Pass d f (f % queues)) filters) }
{
    for f in 0..filters {
        steps.push(Step::Pass {
            d,
            f,
            q: f % queues,
        })?;
    }
    Ok(())
}

// The token once around the ring, each queue stamping while it has it.
fn add_ring(steps: &mut Seq<Step>, d: DcId, holder: u32, queues: u32) -> Result<(), NoMemory>
    requires few { queues ≤ 2 ^ 31 }
    requires holder { holder < queues }
    ensures { OnOk result (steps.new ≡ steps.old ++ ring_from d holder queues queues) }
{
    for i in 0..queues {
        steps.push(Step::Stamp {
            d,
            q: (holder + i) % queues,
        })?;
        steps.push(Step::Token { d })?;
    }
    Ok(())
}

// Each queue with each maintainer.
fn add_places(steps: &mut Seq<Step>, d: DcId, queues: u32, maintainers: u32) -> Result<(), NoMemory>
    ensures { OnOk result (steps.new ≡ steps.old ++ flat_map (λ q. numbered (Place d q) maintainers) (below queues)) }
{
    for q in 0..queues {
        add_places_of(steps, d, q, maintainers)?;
    }
    Ok(())
}

fn add_places_of(steps: &mut Seq<Step>, d: DcId, q: u32, maintainers: u32) -> Result<(), NoMemory>
    ensures { OnOk result (steps.new ≡ steps.old ++ numbered (Place d q) maintainers) }
{
    for m in 0..maintainers {
        steps.push(Step::Place { d, q, m })?;
    }
    Ok(())
}

// Each maintainer with each vector.
fn add_gossips(steps: &mut Seq<Step>, d: DcId, maintainers: u32) -> Result<(), NoMemory>
    ensures { OnOk result (steps.new ≡ steps.old ++ flat_map (λ m. numbered (Gossip d m) maintainers) (below maintainers)) }
{
    for m in 0..maintainers {
        add_gossips_of(steps, d, m, maintainers)?;
    }
    Ok(())
}

fn add_gossips_of(steps: &mut Seq<Step>, d: DcId, m: u32, maintainers: u32) -> Result<(), NoMemory>
    ensures { OnOk result (steps.new ≡ steps.old ++ numbered (Gossip d m) maintainers) }
{
    for k in 0..maintainers {
        steps.push(Step::Gossip { d, m, k })?;
    }
    Ok(())
}

// Each maintainer with each indexer.
fn add_posts(
    steps: &mut Seq<Step>,
    d: DcId,
    maintainers: u32,
    indexers: u32,
) -> Result<(), NoMemory>
    ensures { OnOk result (steps.new ≡ steps.old ++ flat_map (λ m. numbered (Post d m) indexers) (below maintainers)) }
{
    for m in 0..maintainers {
        add_posts_of(steps, d, m, indexers)?;
    }
    Ok(())
}

fn add_posts_of(steps: &mut Seq<Step>, d: DcId, m: u32, indexers: u32) -> Result<(), NoMemory>
    ensures { OnOk result (steps.new ≡ steps.old ++ numbered (Post d m) indexers) }
{
    for i in 0..indexers {
        steps.push(Step::Post { d, m, i })?;
    }
    Ok(())
}
