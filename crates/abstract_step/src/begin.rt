//! The world in which nothing has happened.
ghost use Rattle.std.specs.Prelude.{◌≡◌, ◌≤◌, length, map, replicate, IfOk, List};
ghost use Rattle.cz_base.specs.declared.limits.TheConstants.{DATACENTRES};
ghost use Rattle.causal_deps.specs.Counts.{zero_table};
ghost use Rattle.abstract_log.specs.Shapes.{FitsWorkload, IsShaped};
ghost use Rattle.abstract_log.specs.Worlds.{start, first_standing};

use crate::lists::empty_lists;
use abstract_log::{SessionPlan, Standing, Workload, World};
use causal_deps::{Counts, Table};
use cz_base::{NoMemory, Seq};
use std::alloc::Global;

fn zero_tables(alloc: Global, dcs: u32) -> Result<Seq<Table>, NoMemory>
    requires { (1 ≤ dcs) × (dcs ≤ DATACENTRES) }
    ensures { IfOk result (λ tables. tables ≡ replicate dcs (zero_table dcs)) }
{
    let mut tables = Seq::new(alloc);
    for _done in 0..dcs {
        tables.push(Table::zero(dcs))?;
    }
    Ok(tables)
}

fn first_standings(
    alloc: Global,
    dcs: u32,
    plans: &[SessionPlan],
) -> Result<Seq<Standing>, NoMemory>
    requires { (1 ≤ dcs) × (dcs ≤ DATACENTRES) }
    ensures { IfOk result (λ sessions. sessions ≡ map (λ _. first_standing dcs) plans.now) }
{
    let mut sessions = Seq::new(alloc);
    for _plan in plans {
        sessions.push(Standing {
            answered: 0,
            begun: false,
            past: Counts::zero(dcs),
            floor: 0,
        })?;
    }
    Ok(sessions)
}

/// The world of the workload in which nothing has happened.
pub(crate) fn start(alloc: Global, workload: &Workload) -> Result<World, NoMemory>
    requires { FitsWorkload workload.now }
    ensures start { IfOk result (λ world. world ≡ start workload.now) }
    ensures shaped { IfOk result IsShaped }
{
    let dcs = workload.dcs;
    let copy = workload.copy()?;
    let logs = empty_lists(alloc, dcs)?;
    let tables = zero_tables(alloc, dcs)?;
    let pending = empty_lists(alloc, dcs)?;
    let gone = empty_lists(alloc, dcs)?;
    let sessions = first_standings(alloc, dcs, workload.sessions.as_slice())?;
    Ok(World {
        workload: copy,
        logs,
        tables,
        pending,
        gone,
        sessions,
    })
}
