//! How a world takes a reply.
ghost use Rattle.std.specs.Prelude.{◌≡◌, ℕ, ◌<◌, ◌≤◌, ◌↔◌, Some, false, length, IfOk, IsSomeAnd, IsTrue, MatchOption};
ghost use Rattle.std.specs.Option.{option_copied};
ghost use Rattle.abstract_log.specs.Answers.{answer_to};
ghost use Rattle.abstract_log.specs.Commands.{is_write};
ghost use Rattle.abstract_log.specs.Shapes.{IsShaped};
ghost use Rattle.abstract_log.specs.Steps.{after};
ghost use Rattle.abstract_log.specs.Worlds.{log_of, open_command, standing_of};
ghost use Rattle.abstract_step.specs.Taking.{Takes};

use crate::StepFault;
use crate::answering::answer_to;
use crate::comparing::same_answer;
use crate::parts::{is_home, log_len, open_command};
use abstract_log::{Answer, Command, Event, Standing, World, raise_answer};
use cz_base::{DcId, Lid, NoMemory};

pub(crate) fn reply(
    world: &mut World,
    d: DcId,
    s: u32,
    k: u32,
    at: Lid,
    answer: &Answer,
) -> Result<(), StepFault>
    requires { IsShaped world.old }
    ensures { Takes world.old (Event.Reply d s k at answer.now) result world.new }
{
    if !is_home(world, s, d) {
        return Err(StepFault::Refused { place: 1 });
    }
    let Some(command) = open_read(world, s, k) else {
        return Err(StepFault::Refused { place: 2 });
    };
    if at < floor(world, s) || at > log_len(world, d) {
        return Err(StepFault::Refused { place: 3 });
    }
    if !is_answer(world, d, command, at, answer)? {
        return Err(StepFault::Refused { place: 4 });
    }
    answered(world, s, k, at, answer);
    Ok(())
}

/// Command k of session s, if it is open and no write.
fn open_read(world: &World, s: u32, k: u32) -> Option<&Command>
    requires { IsShaped world.now }
    ensures { MatchOption (option_copied result) (¬ IsSomeAnd (open_command world.now s k) (λ c. is_write c ≡ false)) (λ c. (open_command world.now s k ≡ Some c) × (is_write c ≡ false)) }
{
    let command = open_command(world, s, k)?;
    if command.is_write() {
        return None;
    }
    Some(command)
}

/// The position below which session s reads no more.
fn floor(world: &World, s: u32) -> Lid
    requires shaped { IsShaped world.now }
    requires there { s < length world.now.sessions }
    ensures { result ≡ (standing_of world.now s).floor }
{
    world.sessions.as_slice()[s as usize].floor
}

/// Whether this is the answer to a command.
fn is_answer(
    world: &World,
    d: DcId,
    command: &Command,
    s: Lid,
    answer: &Answer,
) -> Result<bool, NoMemory>
    requires shaped { IsShaped world.now }
    requires there { d < world.now.workload.dcs }
    requires within { s ≤ length (log_of world.now d) }
    ensures { IfOk result (λ yes. IsTrue yes ↔ (answer_to world.now d command.now s ≡ Some answer.now)) }
{
    match answer_to(world, d, command, s)? {
        Some(own) => Ok(same_answer(&own, answer)),
        None => Ok(false),
    }
}

/// Command k is answered at a position, and shows records.
fn answered(world: &mut World, s: u32, k: u32, at: Lid, answer: &Answer)
    requires { s < length world.old.sessions }
    ensures { (d : ℕ) → world.new ≡ after world.old (Event.Reply d s k at answer.now) }
{
    let mut past = world.sessions.as_slice()[s as usize].past;
    raise_answer(&mut past, answer);
    let next = Standing {
        answered: k,
        begun: false,
        past,
        floor: at,
    };
    world.sessions.set(s as usize, next);
}
