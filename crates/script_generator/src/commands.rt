//! The sessions of a generated script, and the table of their commands.

ghost use Rattle.std.specs.Prelude.{◌≡◌, IfOk};
ghost use Rattle.script_generator.specs.Generated.{key, tag, command_by, command, plan};

use crate::datacentres::datacentre;
use crate::draws::Draws;
use crate::shape::{COMMAND_COUNT, DATACENTRE_COUNT};
use crate::texts::{append_body, key_name, put_body, tag_name};
use abstract_log::{Command, SessionPlan};
use cz_base::{Name, NoMemory, Seq};
use std::alloc::Global;

/// Session `s`, counted from 0, with its commands, which count from 1. It fails only where memory runs out.
#[tactic(auto, unfolding(crate::specs::Generated::plan))]
pub fn plan(alloc: Global, draws: &mut Draws, s: u32) -> Result<SessionPlan, NoMemory>
    ensures { IfOk result (λ made. (made, draws.new) ≡ plan s draws.old) }
{
    let home = datacentre(s % DATACENTRE_COUNT);
    let room = Vec::with_capacity(alloc, COMMAND_COUNT as usize)?;
    let mut commands = Seq::from_vec(room);
    for before in 0..COMMAND_COUNT {
        commands.push(command(alloc, draws, s, before + 1)?)?;
    }
    Ok(SessionPlan { home, commands })
}

// Command `k` of session `s`.
#[tactic(auto, unfolding(crate::specs::Generated::command))]
fn command(alloc: Global, draws: &mut Draws, s: u32, k: u32) -> Result<Command, NoMemory>
    ensures { IfOk result (λ made. (made, draws.new) ≡ command s k draws.old) }
{
    let choice = draws.draw(10);
    command_by(alloc, draws, s, k, choice)
}

// Command `k` of session `s`, by the number that chose its row.
#[tactic(auto, unfolding(crate::specs::Generated::command_by))]
fn command_by(
    alloc: Global,
    draws: &mut Draws,
    s: u32,
    k: u32,
    choice: u32,
) -> Result<Command, NoMemory>
    ensures { IfOk result (λ made. (made, draws.new) ≡ command_by s k choice draws.old) }
{
    match choice {
        0..=3 => {
            let key = key(alloc, draws)?;
            let body = put_body(alloc, s, k)?;
            Ok(Command::Put { key, body })
        }
        4..=6 => Ok(Command::Get {
            key: key(alloc, draws)?,
        }),
        7 => {
            let mut keys = Seq::new(alloc);
            keys.push(key(alloc, draws)?)?;
            keys.push(key(alloc, draws)?)?;
            keys.push(key(alloc, draws)?)?;
            Ok(Command::Tx { keys })
        }
        8 => {
            let body = append_body(alloc, s, k)?;
            let mut tags = Seq::new(alloc);
            tags.push(tag(alloc, draws)?)?;
            Ok(Command::Append { tags, body })
        }
        _ => Ok(Command::Last {
            tag: tag(alloc, draws)?,
            count: 3,
        }),
    }
}

// One of 32 keys.
#[tactic(auto, unfolding(crate::specs::Generated::key))]
fn key(alloc: Global, draws: &mut Draws) -> Result<Name, NoMemory>
    ensures { IfOk result (λ made. (made, draws.new) ≡ key draws.old) }
{
    let number = draws.draw(32);
    key_name(alloc, number)
}

// One of 8 tags.
#[tactic(auto, unfolding(crate::specs::Generated::tag))]
fn tag(alloc: Global, draws: &mut Draws) -> Result<Name, NoMemory>
    ensures { IfOk result (λ made. (made, draws.new) ≡ tag draws.old) }
{
    let number = draws.draw(8);
    tag_name(alloc, number)
}
