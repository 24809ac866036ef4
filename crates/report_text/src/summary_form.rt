//! The summary of a run.

ghost use Rattle.std.specs.Prelude.{◌≡◌, ◌<◌, ◌≤◌, ◌++◌, length, codes, sum_by, count_by, IfOk, OnOk};
ghost use Rattle.std.specs.Option.{option_copied};
ghost use Rattle.cz_base.specs.declared.limits.TheConstants.{COMMANDS, DATACENTRES};
ghost use Rattle.abstract_log.specs.Commands.{is_write};
ghost use Rattle.abstract_log.specs.Fits.{FitsLimits, commands_of};
ghost use Rattle.abstract_log.specs.Runs.{IsRun, world_of};
ghost use Rattle.report_text.specs.Lines.{lines_text};
ghost use Rattle.report_text.specs.Numbered.{below};
ghost use Rattle.report_text.specs.Summary.{asked_lines, collects_at, collected_lines, summary_text, turns_lines, writes_in, writes_of};

use crate::report::put_fact;
use crate::text::Text;
use crate::values::letter_of;
use abstract_log::{Command, Event, Run, SessionPlan, StageLog, Workload};
use cz_base::{NoMemory, Seq};
use std::alloc::Global;

/// What was asked and what happened, as numbers; also how many turns the stages took, where they made the run.
/// It fails only where memory runs out.
pub fn summary(alloc: Global, run: &Run, stages: Option<&StageLog>) -> Result<Vec<u8>, NoMemory>
    requires run { IsRun run.now.workload run.now.events }
    requires limits { FitsLimits run.now.workload }
    ensures { IfOk result (λ bytes. bytes.items ≡ summary_text run.now (option_copied stages.entry)) }
{
    let mut text = Text::new(alloc);
    put_asked(&mut text, &run.workload)?;
    put_fact(&mut text, b"events", run.events.len() as u64)?;
    put_turn_count(&mut text, stages)?;
    put_collected(&mut text, run.workload.dcs, &run.events)?;
    text.put(b"end\n")?;
    Ok(text.into_bytes())
}

// How much was asked.
fn put_asked(text: &mut Text, load: &Workload) -> Result<(), NoMemory>
    requires { FitsLimits load.now }
    ensures { OnOk result (text.new ≡ text.old ++ lines_text (asked_lines load.now)) }
{
    put_fact(text, b"datacentres", load.dcs as u64)?;
    put_fact(text, b"sessions", load.sessions.len() as u64)?;
    put_fact(text, b"commands", commands_of(&load.sessions))?;
    put_fact(text, b"records", writes_of(&load.sessions))
}

// How many commands there are.
fn commands_of(plans: &Seq<SessionPlan>) -> u64
    requires { commands_of plans.now ≤ COMMANDS }
    ensures { result ≡ commands_of plans.now }
{
    let mut count = 0;
    for plan in plans.as_slice() {
        count += plan.commands.len() as u64;
    }
    count
}

// How many of them write a record.
fn writes_of(plans: &Seq<SessionPlan>) -> u64
    requires { commands_of plans.now ≤ COMMANDS }
    ensures { result ≡ writes_of plans.now }
{
    let mut count = 0;
    for plan in plans.as_slice() {
        count += writes_in(plan.commands.as_slice()) as u64;
    }
    count
}

// How many of these write a record.
fn writes_in(commands: &[Command]) -> usize
    ensures { result ≡ count_by is_write commands.now }
{
    commands.iter().filter(|command| command.is_write()).count()
}

// How many turns the stages took, where they made the run.
fn put_turn_count(text: &mut Text, stages: Option<&StageLog>) -> Result<(), NoMemory>
    ensures { OnOk result (text.new ≡ text.old ++ lines_text (turns_lines (option_copied stages.entry))) }
{
    match stages {
        Some(stages) => put_fact(text, b"stages", stages.len() as u64),
        None => Ok(()),
    }
}

// How many positions each datacentre has collected.
fn put_collected(text: &mut Text, dcs: u32, events: &Seq<Event>) -> Result<(), NoMemory>
    requires { dcs ≤ DATACENTRES }
    ensures { OnOk result (text.new ≡ text.old ++ lines_text (below (collected_lines events.now) dcs)) }
{
    for number in 0..dcs {
        put_collected_at(text, number, events)?;
    }
    Ok(())
}

// How many one has collected.
fn put_collected_at(text: &mut Text, dc: u32, events: &Seq<Event>) -> Result<(), NoMemory>
    requires { dc < DATACENTRES }
    ensures { OnOk result (text.new ≡ text.old ++ lines_text (collected_lines events.now dc)) }
{
    text.put(b"gone")?;
    letter_of(text, dc)?;
    text.number(collected_at(events.as_slice(), dc) as u64)?;
    text.end_line()
}

// How many events collect a position there.
fn collected_at(events: &[Event], dc: u32) -> usize
    ensures { result ≡ count_by (collects_at dc) events.now }
{
    events.iter().filter(|event| collects_at(event, dc)).count()
}

// Whether an event collects a position at this datacentre.
fn collects_at(event: &Event, dc: u32) -> bool
    ensures { result ≡ collects_at dc event.now }
{
    match event {
        Event::Collect { dc: at, .. } => at.number() == dc,
        _ => false,
    }
}
