//! How a world takes what datacentres tell each other: learning, receiving, and adding what was received.
ghost use Rattle.std.specs.Prelude.{◌≡◌, ◌<◌, ◌↔◌, Some, length, IfOk, OnOk, OnErr, IsTrue, IsSomeAnd, MatchOption, Contains, IfSome, All};
ghost use Rattle.std.specs.Option.{option_copied};
ghost use Rattle.causal_deps.specs.Logs.{HasName, IsReady};
ghost use Rattle.abstract_log.specs.Shapes.{IsShaped};
ghost use Rattle.abstract_log.specs.Steps.{after, names_with};
ghost use Rattle.abstract_log.specs.Worlds.{log_of, pending_of, record_of};
ghost use Rattle.abstract_step.specs.Taking.{Takes};

use crate::StepFault;
use crate::lists::push_at;
use crate::names::{has_name, know_all, names_with, names_without, nth_of};
use crate::parts::{counts, is_next_lid, log_covers};
use abstract_log::{Event, World};
use causal_deps::{Counts, Record, Table, ready};
use cz_base::{DcId, Lid, NoMemory, Seq, Toid};

pub(crate) fn learn(world: &mut World, d: DcId, row: &Counts) -> Result<(), StepFault>
    requires { IsShaped world.old }
    ensures { Takes world.old (Event.Learn d row.now) result world.new }
{
    if d.number() >= world.workload.dcs || row.dcs() != world.workload.dcs {
        return Err(StepFault::Refused { place: 1 });
    }
    if !log_covers(world, d, row) {
        return Err(StepFault::Refused { place: 2 });
    }
    let mut table = world.tables.as_slice()[d.number() as usize];
    table.raise_row(d, row);
    world.tables.set(d.number() as usize, table);
    Ok(())
}

pub(crate) fn receive(
    world: &mut World,
    d: DcId,
    e: DcId,
    table: &Table,
    names: &Seq<(DcId, Toid)>,
) -> Result<(), StepFault>
    requires { IsShaped world.old }
    ensures { Takes world.old (Event.Receive d e table.now names.now) result world.new }
{
    if d.number() >= world.workload.dcs || e.number() >= world.workload.dcs || d == e {
        return Err(StepFault::Refused { place: 1 });
    }
    if table.dcs() != world.workload.dcs {
        return Err(StepFault::Refused { place: 2 });
    }
    let theirs = &world.tables.as_slice()[e.number() as usize];
    if !theirs.covers(table) {
        return Err(StepFault::Refused { place: 3 });
    }
    if !knows(world, e, names.as_slice()) {
        return Err(StepFault::Refused { place: 4 });
    }
    let waiting = waiting_with(world, d, names.as_slice())?;
    let mut mine = world.tables.as_slice()[d.number() as usize];
    mine.merge(table);
    world.tables.set(d.number() as usize, mine);
    world.pending.set(d.number() as usize, waiting);
    Ok(())
}

/// Whether e's log has every one of the names.
fn knows(world: &World, e: DcId, names: &[(DcId, Toid)]) -> bool
    requires shaped { IsShaped world.now }
    requires there { e < world.now.workload.dcs }
    ensures { IsTrue result ↔ All (λ n. HasName (log_of world.now e) n.0 n.1) names.now }
{
    know_all(world.logs.as_slice()[e.number() as usize].as_slice(), names)
}

/// The names that wait at d once these come too.
fn waiting_with(
    world: &World,
    d: DcId,
    names: &[(DcId, Toid)],
) -> Result<Seq<(DcId, Toid)>, NoMemory>
    requires shaped { IsShaped world.now }
    requires there { d < world.now.workload.dcs }
    ensures { IfOk result (λ all. all ≡ names_with (log_of world.now d) (pending_of world.now d) names.now) }
{
    let at = d.number() as usize;
    names_with(
        world.pending.alloc(),
        world.logs.as_slice()[at].as_slice(),
        world.pending.as_slice()[at].as_slice(),
        names,
    )
}

/// The record at a place of its host's log is of datacentres that there are.
pub(crate) fn add(world: &mut World, d: DcId, lid: Lid, h: DcId, t: Toid) -> Result<(), StepFault>
    requires { IsShaped world.old }
    ensures { Takes world.old (Event.Add d lid h t) result world.new }
{
    if d.number() >= world.workload.dcs {
        return Err(StepFault::Refused { place: 1 });
    }
    if !is_pending(world, d, h, t) {
        return Err(StepFault::Refused { place: 2 });
    }
    if !is_next_lid(world, d, lid) {
        return Err(StepFault::Refused { place: 3 });
    }
    let Some(rec) = ready_original(world, d, h, t)? else {
        return Err(StepFault::Refused { place: 4 });
    };
    take_in(world, d, lid, h, t, rec)?;
    Ok(())
}

/// Whether the name waits at d.
fn is_pending(world: &World, d: DcId, h: DcId, t: Toid) -> bool
    requires shaped { IsShaped world.now }
    requires there { d < world.now.workload.dcs }
    ensures { IsTrue result ↔ Contains (pending_of world.now d) (h, t) }
{
    has_name(
        world.pending.as_slice()[d.number() as usize].as_slice(),
        h,
        t,
    )
}

/// A copy of the t-th record of host h, if it may stand next in d's log.
fn ready_original(world: &World, d: DcId, h: DcId, t: Toid) -> Result<Option<Record>, NoMemory>
    requires shaped { IsShaped world.now }
    requires there { d < world.now.workload.dcs }
    ensures { IfOk result (λ rec. MatchOption rec (¬ IsSomeAnd (record_of world.now h t) (IsReady (log_of world.now d))) (λ r. (record_of world.now h t ≡ Some r) × IsReady (log_of world.now d) r)) }
{
    let Some(rec) = original(world, h, t) else {
        return Ok(None);
    };
    if !is_ready(world, d, rec) {
        return Ok(None);
    }
    Ok(Some(rec.copy()?))
}

/// The same, which is of datacentres that there are.
fn original(world: &World, h: DcId, t: Toid) -> Option<&Record>
    requires { IsShaped world.now }
    ensures value { option_copied result ≡ record_of world.now h t }
    ensures fits { IfSome (option_copied result) (λ r. (r.host < world.now.workload.dcs) × (length r.dep ≡ world.now.workload.dcs)) }
{
    find_original(world, h, t)
}

/// The t-th record of host h, as its host has it.
fn find_original(world: &World, h: DcId, t: Toid) -> Option<&Record>
    requires { IsShaped world.now }
    ensures { option_copied result ≡ record_of world.now h t }
{
    match world.logs.get(h.number() as usize) {
        Some(log) => nth_of(log.as_slice(), h, t),
        None => None,
    }
}

/// Whether the record may stand next in d's log.
fn is_ready(world: &World, d: DcId, rec: &Record) -> bool
    requires shaped { IsShaped world.now }
    requires there { d < world.now.workload.dcs }
    requires fits { (rec.now.host < world.now.workload.dcs) × (length rec.now.dep ≡ world.now.workload.dcs) }
    ensures { IsTrue result ↔ IsReady (log_of world.now d) rec.now }
{
    ready(&counts(world, d), rec)
}

/// The record goes last in d's log, and its name waits no more.
fn take_in(
    world: &mut World,
    d: DcId,
    lid: Lid,
    h: DcId,
    t: Toid,
    rec: Record,
) -> Result<(), NoMemory>
    requires shaped { IsShaped world.old }
    requires there { d < world.old.workload.dcs }
    requires original { record_of world.old h t ≡ Some rec }
    ensures ok { OnOk result (world.new ≡ after world.old (Event.Add d lid h t)) }
    ensures err { OnErr result (world.new ≡ world.old) }
{
    let _lid = lid;
    let at = d.number() as usize;
    let names = names_without(
        world.pending.alloc(),
        world.pending.as_slice()[at].as_slice(),
        h,
        t,
    )?;
    push_at(&mut world.logs, at, rec)?;
    world.pending.set(at, names);
    Ok(())
}
