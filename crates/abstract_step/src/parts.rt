//! What a world has at a datacentre and of a session, as its steps ask for it.
ghost use Rattle.std.specs.Prelude.{◌≡◌, ◌+◌, ◌<◌, ◌↔◌, length, IsTrue};
ghost use Rattle.std.specs.Option.{option_copied};
ghost use Rattle.causal_deps.specs.Counts.{AreCovered};
ghost use Rattle.causal_deps.specs.Logs.{AreCountsOf, count_of};
ghost use Rattle.abstract_log.specs.Shapes.{IsShaped};
ghost use Rattle.abstract_log.specs.Worlds.{IsHome, log_of, open_command, standing_of};

use abstract_log::{Command, World};
use causal_deps::{Counts, counts_of};
use cz_base::{DcId, Lid, Toid};

/// Whether there is a session s, and d is its home.
pub(crate) fn is_home(world: &World, s: u32, d: DcId) -> bool
    requires { IsShaped world.now }
    ensures { IsTrue result ↔ IsHome world.now s d }
{
    match world.workload.sessions.get(s as usize) {
        Some(plan) => plan.home == d,
        None => false,
    }
}

/// Command k of session s, if it is the one that is open.
pub(crate) fn open_command(world: &World, s: u32, k: u32) -> Option<&Command>
    ensures { option_copied result ≡ open_command world.now s k }
{
    let Some(standing) = world.sessions.get(s as usize) else {
        return None;
    };
    let Some(plan) = world.workload.sessions.get(s as usize) else {
        return None;
    };
    if standing.begun && k > 0 && standing.answered == k - 1 {
        plan.commands.get(standing.answered as usize)
    } else {
        None
    }
}

/// What session s wrote or was shown.
pub(crate) fn past(world: &World, s: u32) -> Counts
    requires shaped { IsShaped world.now }
    requires there { s < length world.now.sessions }
    ensures past { result ≡ (standing_of world.now s).past }
    ensures len { length result ≡ world.now.workload.dcs }
{
    world.sessions.as_slice()[s as usize].past
}

/// How many records of each host d's log has.
pub(crate) fn counts(world: &World, d: DcId) -> Counts
    requires shaped { IsShaped world.now }
    requires there { d < world.now.workload.dcs }
    ensures len { length result ≡ world.now.workload.dcs }
    ensures counts { AreCountsOf (log_of world.now d) result }
{
    counts_of(
        world.workload.dcs,
        world.logs.as_slice()[d.number() as usize].as_slice(),
    )
}

/// How many records d's log has.
pub(crate) fn log_len(world: &World, d: DcId) -> u64
    requires shaped { IsShaped world.now }
    requires there { d < world.now.workload.dcs }
    ensures { result ≡ length (log_of world.now d) }
{
    world.logs.as_slice()[d.number() as usize].len() as u64
}

/// Whether lid is the position after d's log.
pub(crate) fn is_next_lid(world: &World, d: DcId, lid: Lid) -> bool
    requires shaped { IsShaped world.now }
    requires there { d < world.now.workload.dcs }
    ensures { IsTrue result ↔ (lid ≡ length (log_of world.now d) + 1) }
{
    lid > 0 && lid - 1 == log_len(world, d)
}

/// Whether toid is the next number of d's own records.
pub(crate) fn is_next_toid(world: &World, d: DcId, toid: Toid) -> bool
    requires shaped { IsShaped world.now }
    requires there { d < world.now.workload.dcs }
    ensures { IsTrue result ↔ (toid ≡ count_of (log_of world.now d) d + 1) }
{
    toid > 0 && toid - 1 == counts(world, d).get(d)
}

/// Whether d's log has all that these counts count.
pub(crate) fn log_covers(world: &World, d: DcId, seen: &Counts) -> bool
    requires shaped { IsShaped world.now }
    requires there { d < world.now.workload.dcs }
    requires len { length seen.now ≡ world.now.workload.dcs }
    ensures { IsTrue result ↔ AreCovered seen.now (count_of (log_of world.now d)) }
{
    counts(world, d).covers(seen)
}
