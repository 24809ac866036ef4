//! How a world takes the beginning of a command, and a write.
ghost use Rattle.std.specs.Prelude.{◌≡◌, ◌<◌, ◌≤◌, true, length, IfOk, OnOk, OnErr, IsSomeAnd, MatchOption};
ghost use Rattle.std.specs.Option.{option_and_then};
ghost use Rattle.abstract_log.specs.Commands.{draft_of, is_write};
ghost use Rattle.abstract_log.specs.Shapes.{IsShaped};
ghost use Rattle.abstract_log.specs.Steps.{after};
ghost use Rattle.abstract_log.specs.Worlds.{IsHome, open_command, standing_of};
ghost use Rattle.abstract_step.specs.Taking.{IsDrafted, Takes};

use crate::StepFault;
use crate::lists::push_at;
use crate::parts::{is_home, is_next_lid, is_next_toid, log_covers, open_command, past};
use abstract_log::{Event, Standing, World};
use causal_deps::Draft;
use cz_base::{DcId, Lid, NoMemory, Toid};

pub(crate) fn submit(world: &mut World, s: u32, k: u32) -> Result<(), StepFault>
    requires { IsShaped world.old }
    ensures { Takes world.old (Event.Submit s k) result world.new }
{
    let (Some(standing), Some(plan)) = (
        world.sessions.get(s as usize),
        world.workload.sessions.get(s as usize),
    ) else {
        return Err(StepFault::Refused { place: 1 });
    };
    if standing.begun {
        return Err(StepFault::Refused { place: 2 });
    }
    if k == 0 || standing.answered != k - 1 || plan.commands.len() < k as usize {
        return Err(StepFault::Refused { place: 3 });
    }
    let next = Standing {
        answered: standing.answered,
        begun: true,
        past: standing.past,
        floor: standing.floor,
    };
    world.sessions.set(s as usize, next);
    Ok(())
}

pub(crate) fn append(
    world: &mut World,
    d: DcId,
    s: u32,
    k: u32,
    lid: Lid,
    toid: Toid,
) -> Result<(), StepFault>
    requires { IsShaped world.old }
    ensures { Takes world.old (Event.Append d s k lid toid) result world.new }
{
    if !is_home(world, s, d) {
        return Err(StepFault::Refused { place: 1 });
    }
    let Some(draft) = draft(world, s, k)? else {
        return Err(StepFault::Refused { place: 2 });
    };
    if !is_next_lid(world, d, lid) {
        return Err(StepFault::Refused { place: 3 });
    }
    if !is_next_toid(world, d, toid) {
        return Err(StepFault::Refused { place: 4 });
    }
    if !log_covers(world, d, &past(world, s)) {
        return Err(StepFault::Refused { place: 5 });
    }
    write(world, d, s, k, lid, toid, draft)?;
    Ok(())
}

/// The draft of the open command k of session s, if it is a write.
fn draft_of(world: &World, s: u32, k: u32) -> Result<Option<Draft>, NoMemory>
    requires shaped { IsShaped world.now }
    requires there { s < length world.now.sessions }
    ensures { IfOk result (λ draft. draft ≡ option_and_then (draft_of s k (standing_of world.now s).past) (open_command world.now s k)) }
{
    let seen = past(world, s);
    match open_command(world, s, k) {
        Some(command) => command.draft(world.logs.alloc(), s, k, &seen),
        None => Ok(None),
    }
}

/// The draft of command k of session s, if it is open and a write.
fn draft(world: &World, s: u32, k: u32) -> Result<Option<Draft>, NoMemory>
    requires shaped { IsShaped world.now }
    requires there { s < length world.now.sessions }
    ensures { IfOk result (λ draft. MatchOption draft (¬ IsSomeAnd (open_command world.now s k) (λ c. is_write c ≡ true)) (IsDrafted world.now s k)) }
{
    draft_of(world, s, k)
}

/// The record that the draft becomes goes last in d's log, and command k is answered.
fn write(
    world: &mut World,
    d: DcId,
    s: u32,
    k: u32,
    lid: Lid,
    toid: Toid,
    draft: Draft,
) -> Result<(), NoMemory>
    requires shaped { IsShaped world.old }
    requires home { IsHome world.old s d }
    requires first { 1 ≤ toid }
    requires drafted { IsDrafted world.old s k draft }
    ensures ok { OnOk result (world.new ≡ after world.old (Event.Append d s k lid toid)) }
    ensures err { OnErr result (world.new ≡ world.old) }
{
    let standing = &world.sessions.as_slice()[s as usize];
    let mut past = standing.past;
    past.raise(d, toid);
    let next = Standing {
        answered: k,
        begun: false,
        past,
        floor: standing.floor.max(lid),
    };
    let rec = draft.seal(d, toid);
    push_at(&mut world.logs, d.number() as usize, rec)?;
    world.sessions.set(s as usize, next);
    Ok(())
}
