//! The members of a datacentre's stages at the beginning, each kind by number.
ghost use Rattle.std.specs.Prelude.{◌≡◌, ◌<◌, ◌≤◌, ◌^◌, false, [], length, replicate, slice_set, Some, None, All, IfOk};
ghost use Rattle.cz_base.specs.declared.limits.TheConstants.{DATACENTRES, MEMBERS};
ghost use Rattle.flstore_rounds.specs.Heads.{blank};
ghost use Rattle.hyksos.specs.Sessions.{AreCommands};
ghost use Rattle.maintainer.specs.Maintainers.{empty};
ghost use Rattle.tag_indexer.specs.Indexers.{empty as nothing_posted};
ghost use Rattle.toid_filter.specs.Filters.{new_filter};
ghost use Rattle.stage_world.specs.MoreTurns.{new_queue};
ghost use Rattle.stage_world.specs.Stages.{queue_at};
ghost use Rattle.stage_world.specs.Opening.{new_session, numbered, sessions_from};
ghost use Rattle.stage_turns.specs.Lent.{queues_seen, HaveToken};
ghost use Rattle.datacentre.specs.Seen.{first_token};

use abstract_log::{Command, SessionPlan};
use batcher::Batcher;
use causal_deps::Record;
use cz_base::{DcId, NoMemory, Seq};
use flstore_rounds::Epochs;
use head_gossip::Vector;
use hyksos::Session;
use maintainer::Maintainer;
use sender_receiver::Sender;
use std::alloc::Global;
use tag_indexer::Indexer;
use toid_filter::{Champions, Filter};
use token_queue::{Queue, Token};

/// So many batchers.
pub(crate) fn new_batchers(alloc: Global, n: u32) -> Result<Seq<Batcher>, NoMemory>
    ensures { IfOk result (λ batchers. batchers ≡ replicate n []) }
{
    let mut batchers = Seq::new(alloc);
    for _done in 0..n {
        batchers.push(Batcher::new(alloc))?;
    }
    Ok(batchers)
}

/// So many filters, each with the champion map.
pub(crate) fn new_filters(alloc: Global, n: u32, map: &Champions) -> Result<Seq<Filter>, NoMemory>
    ensures { IfOk result (λ filters. filters ≡ numbered (λ i. new_filter i map.now) n) }
{
    let mut filters = Seq::new(alloc);
    for number in 0..n {
        filters.push(Filter::new(alloc, number, map.copy()?))?;
    }
    Ok(filters)
}

/// So many queues, the first of which has the token of a datacentre that has stamped nothing.
pub(crate) fn new_ring(
    alloc: Global,
    dc: DcId,
    dcs: u32,
    n: u32,
    epochs: &Epochs,
) -> Result<Seq<Queue>, NoMemory>
    requires dcs { (1 ≤ dcs) × (dcs ≤ DATACENTRES) }
    requires dc { dc < dcs }
    requires queues { (1 ≤ n) × (n ≤ MEMBERS) }
    ensures seen { IfOk result (λ queues. queues_seen queues ≡ numbered (λ i. new_queue i epochs.now) n) }
    ensures token { IfOk result (λ queues. HaveToken queues (first_token dc dcs epochs.now n)) }
{
    let mut queues = new_queues(alloc, n, epochs)?;
    hold_first(&mut queues, Token::first(alloc, dc, dcs, n, epochs.copy()?));
    Ok(queues)
}

// So many queues, none of which has the token.
fn new_queues(alloc: Global, n: u32, epochs: &Epochs) -> Result<Seq<Queue>, NoMemory>
    requires { n ≤ MEMBERS }
    ensures { IfOk result (λ queues. queues ≡ numbered (λ i. new_queue i epochs.now) n) }
{
    let mut queues = Seq::new(alloc);
    for number in 0..n {
        queues.push(Queue::new(alloc, number, epochs.copy()?)?)?;
    }
    Ok(queues)
}

/// So many maintainers with no record.
pub(crate) fn new_maintainers(
    alloc: Global,
    n: u32,
    epochs: &Epochs,
) -> Result<Seq<Maintainer<Record>>, NoMemory>
    ensures { IfOk result (λ maintainers. maintainers ≡ numbered (λ i. empty i epochs.now) n) }
{
    let mut maintainers = Seq::new(alloc);
    for number in 0..n {
        maintainers.push(Maintainer::new(alloc, number, epochs.copy()?))?;
    }
    Ok(maintainers)
}

/// So many vectors that have heard nothing.
pub(crate) fn new_vectors(alloc: Global, n: u32, epochs: &Epochs) -> Result<Seq<Vector>, NoMemory>
    ensures { IfOk result (λ vectors. vectors ≡ replicate n (blank epochs.now)) }
{
    let mut vectors = Seq::new(alloc);
    for _done in 0..n {
        vectors.push(Vector::new(alloc, epochs.copy()?))?;
    }
    Ok(vectors)
}

/// So many indexers, to which nothing was posted.
pub(crate) fn new_indexers(alloc: Global, n: u32, epochs: &Epochs) -> Result<Seq<Indexer>, NoMemory>
    ensures { IfOk result (λ indexers. indexers ≡ numbered (λ i. nothing_posted i n epochs.now) n) }
{
    let mut indexers = Seq::new(alloc);
    for number in 0..n {
        indexers.push(Indexer::new(alloc, number, n, epochs.copy()?))?;
    }
    Ok(indexers)
}

/// So many senders.
pub(crate) fn new_senders(alloc: Global, dc: DcId, n: u32) -> Result<Seq<Sender>, NoMemory>
    ensures { IfOk result (λ senders. senders ≡ numbered (λ k. record { dc = dc; number = k; upgraded = false }) n) }
{
    let mut senders = Seq::new(alloc);
    for number in 0..n {
        senders.push(Sender::new(alloc, dc, number)?)?;
    }
    Ok(senders)
}

/// The sessions of a datacentre, numbered among all sessions.
pub(crate) fn new_sessions(
    alloc: Global,
    dcs: u32,
    dc: DcId,
    plans: &Seq<SessionPlan>,
) -> Result<Seq<Session>, NoMemory>
    requires dcs { (1 ≤ dcs) × (dcs ≤ DATACENTRES) }
    requires few { length plans.now < 2 ^ 32 }
    requires commands { All (λ plan. AreCommands plan.commands) plans.now }
    ensures { IfOk result (λ sessions. sessions ≡ sessions_from dcs dc 0 plans.now) }
{
    let mut sessions = Seq::new(alloc);
    let mut number = 0;
    for plan in plans.as_slice() {
        if plan.home == dc {
            sessions.push(new_session(dcs, number, plan)?)?;
        }
        number += 1;
    }
    Ok(sessions)
}

fn new_session(dcs: u32, number: u32, plan: &SessionPlan) -> Result<Session, NoMemory>
    requires dcs { (1 ≤ dcs) × (dcs ≤ DATACENTRES) }
    requires commands { AreCommands plan.now.commands }
    ensures { IfOk result (λ session. session ≡ new_session dcs number plan.now) }
{
    let commands = copy_commands(&plan.commands)?;
    Ok(Session::new(commands.alloc(), number, dcs, commands))
}

fn copy_commands(commands: &Seq<Command>) -> Result<Seq<Command>, NoMemory>
    ensures { IfOk result (λ copy. copy ≡ commands.now) }
{
    let mut copy = Seq::new(commands.alloc());
    for command in commands.as_slice() {
        copy.push(command.copy()?)?;
    }
    Ok(copy)
}

// The first queue takes the token.
fn hold_first(queues: &mut Seq<Queue>, token: Token)
    requires some { 1 ≤ length queues.old }
    requires free { (queue_at queues.old 0).token ≡ None }
    ensures { queues.new ≡ slice_set queues.old 0 (record (queue_at queues.old 0) { token = Some (record token { at = (queue_at queues.old 0).number }) }) }
{
    queues.item_mut(0).hold(token);
}
