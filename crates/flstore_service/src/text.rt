//! The text of a run.

ghost use Rattle.std.specs.Prelude.{◌≡◌, ◌++◌, IfOk, OnOk};
ghost use Rattle.std.specs.List.{flat_map};
ghost use Rattle.flstore_service.specs.Text.{kept_line, kept_lines, lid_texts, outcome_text, place_line, place_lines, released_text, run_text, step_text, turn_line, turn_lines};

use crate::{FlKept, FlLine, FlOutcome, FlPlace, FlRun, FlStep};
use cz_base::{Lid, NoMemory};
use report_text::Text;
use std::alloc::Global;

/// The text of a run: each step with its answer, what stands, and what waits.
pub fn fl_text(alloc: Global, run: &FlRun) -> Result<Vec<u8>, NoMemory>
    ensures { IfOk result (λ text. text.items ≡ run_text run.now) }
{
    let mut text = Text::new(alloc);
    put_turns(&mut text, run.lines.as_slice())?;
    text.put(b"log\n")?;
    put_places(&mut text, run.places.as_slice())?;
    text.put(b"kept\n")?;
    put_kept(&mut text, run.kept.as_slice())?;
    text.put(b"end\n")?;
    Ok(text.into_bytes())
}

// A line for each step.
fn put_turns(text: &mut Text, lines: &[FlLine]) -> Result<(), NoMemory>
    ensures { OnOk result (text.new ≡ text.old ++ turn_lines lines.now) }
{
    for line in lines {
        put_turn(text, line)?;
    }
    Ok(())
}

// A step with its answer.
fn put_turn(text: &mut Text, line: &FlLine) -> Result<(), NoMemory>
    ensures { OnOk result (text.new ≡ text.old ++ turn_line line.now) }
{
    put_step(text, &line.step)?;
    text.word(b"->")?;
    put_outcome(text, &line.outcome)?;
    text.end_line()
}

// A step, without a body.
fn put_step(text: &mut Text, step: &FlStep) -> Result<(), NoMemory>
    ensures { OnOk result (text.new ≡ text.old ++ step_text step.now) }
{
    match step {
        FlStep::Put { m, .. } => {
            text.put(b"put")?;
            text.number(u64::from(*m))
        }
        FlStep::After { m, p, .. } => {
            text.put(b"after")?;
            text.number(u64::from(*m))?;
            text.number(*p)
        }
        FlStep::Gossip { m, k } => {
            text.put(b"gossip")?;
            text.number(u64::from(*m))?;
            text.number(u64::from(*k))
        }
        FlStep::Head { m } => {
            text.put(b"head")?;
            text.number(u64::from(*m))
        }
        FlStep::Read { m, p } => {
            text.put(b"read")?;
            text.number(u64::from(*m))?;
            text.number(*p)
        }
        FlStep::AddMaintainer { p } => {
            text.put(b"addmaintainer")?;
            text.number(*p)
        }
    }
}

// An answer, after a space.
fn put_outcome(text: &mut Text, outcome: &FlOutcome) -> Result<(), NoMemory>
    ensures { OnOk result (text.new ≡ text.old ++ outcome_text outcome.now) }
{
    match outcome {
        FlOutcome::Absent => text.word(b"none"),
        FlOutcome::Placed { lid, released } => {
            text.number(*lid)?;
            put_released(text, released.as_slice())
        }
        FlOutcome::Kept => text.word(b"kept"),
        FlOutcome::Heard { head } => {
            text.word(b"head")?;
            text.number(*head)
        }
        FlOutcome::HeadAt { at } => text.number(*at),
        FlOutcome::Beyond => text.word(b"beyond"),
        FlOutcome::Value { body } => {
            text.put(b" =")?;
            text.put(body.as_bytes())
        }
        FlOutcome::Late { bound } => {
            text.word(b"late")?;
            text.number(*bound)
        }
        FlOutcome::EpochAdded { start, members } => {
            text.word(b"epoch")?;
            text.number(*start)?;
            text.number(u64::from(*members))
        }
    }
}

// The positions of the values that a value released, if it released any.
fn put_released(text: &mut Text, lids: &[Lid]) -> Result<(), NoMemory>
    ensures { OnOk result (text.new ≡ text.old ++ released_text lids.now) }
{
    if lids.is_empty() {
        return Ok(());
    }
    text.word(b"released")?;
    put_lids(text, lids)
}

// Positions, each after a space.
fn put_lids(text: &mut Text, lids: &[Lid]) -> Result<(), NoMemory>
    ensures { OnOk result (text.new ≡ text.old ++ lid_texts lids.now) }
{
    for lid in lids {
        text.number(*lid)?;
    }
    Ok(())
}

// A line for each value that stands.
fn put_places(text: &mut Text, places: &[FlPlace]) -> Result<(), NoMemory>
    ensures { OnOk result (text.new ≡ text.old ++ place_lines places.now) }
{
    for place in places {
        put_place(text, place)?;
    }
    Ok(())
}

// A value that stands.
fn put_place(text: &mut Text, place: &FlPlace) -> Result<(), NoMemory>
    ensures { OnOk result (text.new ≡ text.old ++ place_line place.now) }
{
    text.put_number(place.lid)?;
    text.number(u64::from(place.number))?;
    text.put(b" =")?;
    text.put(place.body.as_bytes())?;
    text.end_line()
}

// A line for each value that waits.
fn put_kept(text: &mut Text, kept: &[FlKept]) -> Result<(), NoMemory>
    ensures { OnOk result (text.new ≡ text.old ++ kept_lines kept.now) }
{
    for value in kept {
        put_waiting(text, value)?;
    }
    Ok(())
}

// A value that waits.
fn put_waiting(text: &mut Text, value: &FlKept) -> Result<(), NoMemory>
    ensures { OnOk result (text.new ≡ text.old ++ kept_line value.now) }
{
    text.put_number(u64::from(value.number))?;
    text.number(u64::from(value.member))?;
    text.number(value.bound)?;
    text.end_line()
}
