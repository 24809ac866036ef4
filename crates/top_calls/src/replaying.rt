//! A script is read and replayed, and its report is made and written.
ghost use Rattle.std.specs.Prelude.{◌≡◌, Some, IfOk, IfErr, All};
ghost use Rattle.abstract_log.specs.Fits.{FitsLimits, FitsScript};
ghost use Rattle.abstract_log.specs.Left.{left_of};
ghost use Rattle.abstract_log.specs.Runs.{IsRun, world_of};
ghost use Rattle.abstract_log.specs.Turns.{FitsStep};
ghost use Rattle.script_text.specs.Meaning.{script_of};
ghost use Rattle.top_calls.specs.Ending.{EndsReport, IsRefusedFor, WasRead, WritesFront, text_of};
ghost use Rattle.top_calls.specs.Telling.{IsReportedRun, IsReportedRunOfSource};

use crate::done::{Done, Refusal, bad_line, write_report};
use crate::reading::read_whole;
use abstract_log::{Left, Run, Script, StageLog};
use command_line::Form;
use cz_base::{NoMemory, Sink, Source};
use report_text::{full, json, logs, summary};
use script_text::{ScriptFault, read_script};
use std::alloc::Global;
use std::mem::drop;
use world::Played;

/// A run, the turns that brought it, and its report.
#[derive(Drop)]
pub struct ReportedRun {
    /// The events, and the workload that they answer.
    pub run: Run,
    /// A line for each turn, but the idle ones of settling.
    pub stages: StageLog,
    /// The bytes of the report.
    pub text: Vec<u8>,
}

/// Reads the script, replays it and makes the report.
pub fn read_and_replay<S: Source>(
    alloc: Global,
    form: Form,
    source: &mut S,
) -> Result<ReportedRun, Refusal>
    ensures ok { IfOk result (IsReportedRunOfSource form (S.left source.old) (S.left source.new) (S.faults source.old) (S.faults source.new)) }
    ensures refused { IfErr result (IsRefusedFor script_of (S.left source.old) (S.left source.new) (S.faults source.old) (S.faults source.new)) }
{
    let script = read(alloc, source)?;
    Ok(tell(alloc, form, script)?)
}

// Reads all that the source still gives, as a script.
fn read<S: Source>(alloc: Global, source: &mut S) -> Result<Script, Refusal>
    ensures read { IfOk result (WasRead script_of (S.left source.old) (S.left source.new) (S.faults source.old) (S.faults source.new)) }
    ensures fits { IfOk result FitsScript }
    ensures steps { IfOk result (λ script. All (FitsStep script.workload) script.steps) }
    ensures refused { IfErr result (IsRefusedFor script_of (S.left source.old) (S.left source.new) (S.faults source.old) (S.faults source.new)) }
{
    let bytes = read_whole(alloc, source)?;
    match read_script(alloc, &bytes) {
        Ok(script) => Ok(script),
        Err(ScriptFault::Bad { line, cause }) => {
            let told = bad_line(alloc, line, cause)?;
            Err(Refusal::Script(told))
        }
        Err(ScriptFault::NoMemory) => Err(Refusal::NoMemory),
    }
}

/// Replays a script and makes its report.
pub fn tell(alloc: Global, form: Form, script: Script) -> Result<ReportedRun, NoMemory>
    requires fits { FitsScript script }
    requires steps { All (FitsStep script.workload) script.steps }
    ensures { IfOk result (IsReportedRun form script) }
{
    let played = world::replay(alloc, &script)?;
    // The run has all of it that the report tells.
    drop(script);
    let Played { run, stages, left } = played;
    let text = text_in(alloc, form, &run, &stages, &left)?;
    Ok(ReportedRun { run, stages, text })
}

// The report of a run in a form.
fn text_in(
    alloc: Global,
    form: Form,
    run: &Run,
    stages: &StageLog,
    left: &Left,
) -> Result<Vec<u8>, NoMemory>
    requires run { IsRun run.now.workload run.now.events }
    requires limits { FitsLimits run.now.workload }
    requires left { left.now ≡ left_of (world_of run.now.workload run.now.events) }
    ensures { IfOk result (λ bytes. bytes.items ≡ text_of form run.now stages.now) }
{
    match form {
        Form::Full => full(alloc, run, Some(stages), left),
        Form::Logs => logs(alloc, run, left),
        Form::Summary => summary(alloc, run, Some(stages)),
        Form::Json => json(alloc, run, left),
    }
}

/// Writes the report, as far as the sink takes it.
pub fn report<K: Sink>(told: ReportedRun, sink: &mut K) -> Done
    ensures run { result.run ≡ Some told.run }
    ensures stages { result.stages ≡ Some told.stages }
    ensures front { WritesFront (K.written sink.old) (K.written sink.new) (K.faults sink.old) (K.faults sink.new) told.text.items }
    ensures status { EndsReport (K.written sink.old) (K.written sink.new) (K.faults sink.old) (K.faults sink.new) told.text.items result.status }
{
    let ReportedRun { run, stages, text } = told;
    Done {
        status: write_report(sink, &text),
        run: Some(run),
        stages: Some(stages),
    }
}
