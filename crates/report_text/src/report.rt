//! The reports, from their parts.

ghost use Rattle.std.specs.Prelude.{◌≡◌, ◌<◌, ◌≤◌, ◌∷◌, [], ◌++◌, length, codes, IfOk, OnOk};
ghost use Rattle.std.specs.Option.{option_copied};
ghost use Rattle.cz_base.specs.declared.limits.TheConstants.{DATACENTRES};
ghost use Rattle.abstract_log.specs.Fits.{FitsLimits};
ghost use Rattle.abstract_log.specs.Left.{left_of};
ghost use Rattle.abstract_log.specs.Runs.{world_of};
ghost use Rattle.report_text.specs.Lines.{line_text, lines_text, spaced};
ghost use Rattle.report_text.specs.Numbered.{below, flat_map_from};
ghost use Rattle.report_text.specs.Report.{all_logs_lines, content_words, datacentre_lines, datacentres_lines, end_line, fact_lines, first_lines, full_text, gone_words, log_lines, logs_text, position_lines, record_words, replies_lines, stages_lines, table_lines, trace_lines, workload_lines, writer_words};
ghost use Rattle.report_text.specs.Values.{letter};

use crate::events::{put_events, put_plans, put_replies, put_shown};
use crate::text::Text;
use crate::turns::put_stages;
use crate::values::{counts_after, kind_name, letter_of, put_name, table_after};
use abstract_log::{Event, Left, LeftAt, Row, Run, StageLog, Workload};
use causal_deps::{Record, Table};
use cz_base::{DcId, Lid, NoMemory, Seq, Toid};
use std::alloc::Global;

/// The whole report of a run: what was asked, the turns of its stages where it was made by stages, what
/// happened, each log and table, and the replies. It fails only where memory runs out.
pub fn full(
    alloc: Global,
    run: &Run,
    stages: Option<&StageLog>,
    left: &Left,
) -> Result<Vec<u8>, NoMemory>
    requires limits { FitsLimits run.now.workload }
    requires left { left.now ≡ left_of (world_of run.now.workload run.now.events) }
    ensures { IfOk result (λ bytes. bytes.items ≡ full_text run.now (option_copied stages.entry)) }
{
    let mut text = Text::new(alloc);
    put_first(&mut text, run.workload.dcs)?;
    put_workload(&mut text, &run.workload)?;
    put_turns(&mut text, stages)?;
    put_trace(&mut text, &run.events)?;
    put_datacentres(&mut text, left)?;
    put_all_replies(&mut text, run.workload.sessions.len() as u32, &run.events)?;
    text.put(b"end\n")?;
    Ok(text.into_bytes())
}

/// The logs and the replies of a run alone. The tables of what it leaves are not told. It fails only where memory
/// runs out.
pub fn logs(alloc: Global, run: &Run, left: &Left) -> Result<Vec<u8>, NoMemory>
    requires limits { FitsLimits run.now.workload }
    requires left { left.now ≡ left_of (world_of run.now.workload run.now.events) }
    ensures { IfOk result (λ bytes. bytes.items ≡ logs_text run.now) }
{
    let mut text = Text::new(alloc);
    put_logs(&mut text, left)?;
    put_all_replies(&mut text, run.workload.sessions.len() as u32, &run.events)?;
    text.put(b"end\n")?;
    Ok(text.into_bytes())
}

// The first lines: the form of the report, and how many datacentres there are.
fn put_first(text: &mut Text, dcs: u32) -> Result<(), NoMemory>
    ensures { OnOk result (text.new ≡ text.old ++ lines_text (first_lines dcs)) }
{
    text.put(b"chariots report 1\n")?;
    put_fact(text, b"datacentres", dcs as u64)
}

/// A line of a word and a number.
pub fn put_fact(text: &mut Text, word: &[u8], n: u64) -> Result<(), NoMemory>
    ensures { OnOk result (text.new ≡ text.old ++ lines_text (fact_lines word.now n)) }
{
    text.put(word)?;
    text.number(n)?;
    text.end_line()
}

// What was asked.
fn put_workload(text: &mut Text, load: &Workload) -> Result<(), NoMemory>
    ensures { OnOk result (text.new ≡ text.old ++ lines_text (workload_lines load.now)) }
{
    text.put(b"workload\n")?;
    put_plans(text, &load.sessions)
}

// The turns of the script's steps, and those of settling.
fn put_turns(text: &mut Text, stages: Option<&StageLog>) -> Result<(), NoMemory>
    ensures { OnOk result (text.new ≡ text.old ++ lines_text (stages_lines (option_copied stages.entry))) }
{
    let Some(stages) = stages else {
        return Ok(());
    };
    text.put(b"stages\n")?;
    put_stages(text, stages, false)?;
    text.put(b"settling\n")?;
    put_stages(text, stages, true)
}

// What happened.
fn put_trace(text: &mut Text, events: &Seq<Event>) -> Result<(), NoMemory>
    ensures { OnOk result (text.new ≡ text.old ++ lines_text (trace_lines events.now)) }
{
    text.put(b"trace\n")?;
    put_events(text, events)
}

// The log and the table of each datacentre.
fn put_datacentres(text: &mut Text, left: &Left) -> Result<(), NoMemory>
    requires { length left.now ≤ DATACENTRES }
    ensures { OnOk result (text.new ≡ text.old ++ lines_text (datacentres_lines left.now)) }
{
    text.put(b"logs\n")?;
    for (number, at) in left.as_slice().iter().enumerate() {
        put_datacentre(text, number as u32, at)?;
    }
    Ok(())
}

// The log and the table of one.
fn put_datacentre(text: &mut Text, dc: u32, at: &LeftAt) -> Result<(), NoMemory>
    requires { dc < DATACENTRES }
    ensures { OnOk result (text.new ≡ text.old ++ lines_text (datacentre_lines dc at.now)) }
{
    put_log(text, dc, &at.rows)?;
    put_table_line(text, dc, &at.table)
}

// The line of a table.
fn put_table_line(text: &mut Text, dc: u32, table: &Table) -> Result<(), NoMemory>
    requires { dc < DATACENTRES }
    ensures { OnOk result (text.new ≡ text.old ++ lines_text (table_lines dc table.now)) }
{
    text.put(b"table")?;
    letter_of(text, dc)?;
    table_after(text, table)?;
    text.end_line()
}

// The log of each datacentre.
fn put_logs(text: &mut Text, left: &Left) -> Result<(), NoMemory>
    requires { length left.now ≤ DATACENTRES }
    ensures { OnOk result (text.new ≡ text.old ++ lines_text (all_logs_lines left.now)) }
{
    for (number, at) in left.as_slice().iter().enumerate() {
        put_log(text, number as u32, &at.rows)?;
    }
    Ok(())
}

// The log of one: its line, and one for each position.
fn put_log(text: &mut Text, dc: u32, rows: &Seq<Row>) -> Result<(), NoMemory>
    requires { dc < DATACENTRES }
    ensures { OnOk result (text.new ≡ text.old ++ lines_text (log_lines dc rows.now)) }
{
    text.put(b"log")?;
    letter_of(text, dc)?;
    text.number(rows.len() as u64)?;
    text.end_line()?;
    put_positions(text, rows)
}

// A line for each position.
fn put_positions(text: &mut Text, rows: &Seq<Row>) -> Result<(), NoMemory>
    ensures { OnOk result (text.new ≡ text.old ++ lines_text (flat_map_from position_lines 1 rows.now)) }
{
    for (at, row) in rows.as_slice().iter().enumerate() {
        put_position(text, at as u64 + 1, row)?;
    }
    Ok(())
}

// The line of what stands at a position.
fn put_position(text: &mut Text, lid: Lid, row: &Row) -> Result<(), NoMemory>
    ensures { OnOk result (text.new ≡ text.old ++ lines_text (position_lines lid row.now)) }
{
    match row {
        Row::Kept(rec) => put_record(text, lid, rec),
        Row::Gone { host, toid } => put_gone(text, lid, *host, *toid),
    }
}

// The line of a record that was collected: its name.
fn put_gone(text: &mut Text, lid: Lid, host: DcId, toid: Toid) -> Result<(), NoMemory>
    ensures { OnOk result (text.new ≡ text.old ++ line_text (gone_words lid host toid)) }
{
    text.put_number(lid)?;
    put_name(text, host, toid)?;
    text.put(b" gone\n")
}

// The line of a record.
fn put_record(text: &mut Text, lid: Lid, rec: &Record) -> Result<(), NoMemory>
    ensures { OnOk result (text.new ≡ text.old ++ line_text (record_words lid rec.now)) }
{
    text.put_number(lid)?;
    put_writer(text, rec)?;
    put_content(text, rec)?;
    text.end_line()
}

// Who wrote a record: its name, its kind, and the command.
fn put_writer(text: &mut Text, rec: &Record) -> Result<(), NoMemory>
    ensures { OnOk result (text.new ≡ text.old ++ spaced (writer_words rec.now)) }
{
    put_name(text, rec.host, rec.toid)?;
    text.word(kind_name(rec.kind))?;
    text.number(u64::from(rec.session))?;
    text.number(u64::from(rec.index))
}

// What it depends on, and what it carries.
fn put_content(text: &mut Text, rec: &Record) -> Result<(), NoMemory>
    ensures { OnOk result (text.new ≡ text.old ++ spaced (content_words rec.now)) }
{
    counts_after(text, &rec.dep)?;
    put_shown(text, &rec.body, &rec.tags)
}

// The replies of each session.
fn put_all_replies(text: &mut Text, sessions: u32, events: &Seq<Event>) -> Result<(), NoMemory>
    ensures { OnOk result (text.new ≡ text.old ++ lines_text (replies_lines events.now sessions)) }
{
    text.put(b"replies\n")?;
    for session in 0..sessions {
        put_replies(text, session, events)?;
    }
    Ok(())
}
