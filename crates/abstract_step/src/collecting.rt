//! How a world takes a collection, and which record may be collected.
ghost use Rattle.std.specs.Prelude.{◌≡◌, ℕ, ◌<◌, ◌≤◌, ◌↔◌, length, nat_lt, IfOk, OnOk, IsTrue, IsSomeAnd, Contains};
ghost use Rattle.causal_deps.specs.Counts.{entry_of};
ghost use Rattle.causal_deps.specs.Logs.{FitDatacentres, record_at};
ghost use Rattle.abstract_log.specs.Shapes.{IsShaped};
ghost use Rattle.abstract_log.specs.Steps.{inserted, IsCollectable, IsReplaced};
ghost use Rattle.abstract_log.specs.Worlds.{gone_of, log_of, table_of};
ghost use Rattle.abstract_step.specs.Taking.{Takes};

use crate::StepFault;
use crate::comparing::same_names;
use abstract_log::{Event, World};
use causal_deps::{Kind, Record};
use cz_base::{DcId, Lid, NoMemory, Seq};
use std::alloc::Global;

pub(crate) fn collect(world: &mut World, d: DcId, p: Lid) -> Result<(), StepFault>
    requires { IsShaped world.old }
    ensures { Takes world.old (Event.Collect d p) result world.new }
{
    if d.number() >= world.workload.dcs {
        return Err(StepFault::Refused { place: 1 });
    }
    let at = d.number() as usize;
    if p == 0 || p > world.logs.as_slice()[at].len() as u64 {
        return Err(StepFault::Refused { place: 2 });
    }
    if is_gone(world, d, p) {
        return Err(StepFault::Refused { place: 3 });
    }
    if !is_collectable(world, d, p) {
        return Err(StepFault::Refused { place: 4 });
    }
    let gone = with_lid(world.gone.alloc(), world.gone.as_slice()[at].as_slice(), p)?;
    world.gone.set(at, gone);
    Ok(())
}

/// Whether the position was collected at d.
fn is_gone(world: &World, d: DcId, p: Lid) -> bool
    requires shaped { IsShaped world.now }
    requires there { d < world.now.workload.dcs }
    ensures { IsTrue result ↔ Contains (gone_of world.now d) p }
{
    has_lid(world.gone.as_slice()[d.number() as usize].as_slice(), p)
}

/// Whether the record at position p may be collected at d.
fn is_collectable(world: &World, d: DcId, p: Lid) -> bool
    requires shaped { IsShaped world.now }
    requires there { d < world.now.workload.dcs }
    requires within { (1 ≤ p) × (p ≤ length (log_of world.now d)) }
    ensures { IsTrue result ↔ IsSomeAnd (record_at (log_of world.now d) p) (IsCollectable world.now d p) }
{
    let log = world.logs.as_slice()[d.number() as usize].as_slice();
    let rec = &log[(p - 1) as usize];
    is_known_everywhere(world, d, rec) && (rec.kind != Kind::Put || is_replaced(log, p, rec))
}

/// Whether every datacentre is known at d to have the record.
fn is_known_everywhere(world: &World, d: DcId, rec: &Record) -> bool
    requires shaped { IsShaped world.now }
    requires there { d < world.now.workload.dcs }
    requires fits { rec.now.host < world.now.workload.dcs }
    ensures { IsTrue result ↔ ((k : ℕ) → k < world.now.workload.dcs → rec.now.toid ≤ entry_of (table_of world.now d) k rec.now.host) }
{
    let table = &world.tables.as_slice()[d.number() as usize];
    for k in 0..world.workload.dcs {
        if let Some(dc) = DcId::new(k) {
            let row = table.row(dc);
            if row.get(rec.host) < rec.toid {
                return false;
            }
        }
    }
    true
}

fn has_lid(lids: &[Lid], p: Lid) -> bool
    ensures { IsTrue result ↔ Contains lids.now p }
{
    lids.contains(&p)
}

/// Whether a later update of the record's key stands in the log.
fn is_replaced(log: &[Record], p: Lid, rec: &Record) -> bool
    requires { (1 ≤ p) × (p ≤ length log.now) }
    ensures yes { IsTrue result → IsReplaced log.now p rec.now }
    ensures no { IsReplaced log.now p rec.now → IsTrue result }
{
    for at in p as usize..log.len() {
        let later = &log[at];
        if later.kind.is_update() && same_names(later.tags.as_slice(), rec.tags.as_slice()) {
            return true;
        }
    }
    false
}

/// The positions with this one too, in rising order.
fn with_lid(alloc: Global, lids: &[Lid], p: Lid) -> Result<Seq<Lid>, NoMemory>
    ensures { IfOk result (λ all. all ≡ inserted nat_lt p lids.now) }
{
    let mut all = Vec::from_slice(alloc, lids)?;
    insert_lid(&mut all, p)?;
    Ok(Seq::from_vec(all))
}

/// Puts the position in its place of a rising list, once.
fn insert_lid(lids: &mut Vec<Lid>, p: Lid) -> Result<(), NoMemory>
    ensures { OnOk result (lids.new.items ≡ inserted nat_lt p lids.old.items) }
{
    for at in 0..lids.len() {
        if p < lids[at] {
            lids.insert(at, p)?;
            return Ok(());
        }
        if p == lids[at] {
            return Ok(());
        }
    }
    lids.push(p)?;
    Ok(())
}
