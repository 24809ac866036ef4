//! The run of a log by itself: its script is read, run, and the text of its run written.

ghost use Rattle.std.specs.Prelude.{◌≡◌, ◌≢◌, ◌⊎◌, ◌+◌, ◌<◌, ◌≤◌, ℕ, List, length, Some, None, IfOk, IfErr};
ghost use Rattle.cz_base.specs.Faults.{Rose};
ghost use Rattle.cz_base.specs.Streams.{Came};
ghost use Rattle.flstore_service.specs.declared.script.FlScript.{FlScript};
ghost use Rattle.flstore_service.specs.Fits.{FitsFlScript};
ghost use Rattle.flstore_service.specs.Meaning.{script_of};
ghost use Rattle.flstore_service.specs.Running.{run_of};
ghost use Rattle.flstore_service.specs.Text.{run_text};
ghost use Rattle.top_calls.specs.Ending.{EndsFlStore, IsFlScript, IsNoFlScript, IsRefusedFor, StandsStill, TellsItsLine, WasRead, WritesFront, script_limit};
ghost use Rattle.top_calls.specs.Telling.{IsStoredOfSource};

use crate::done::{Done, Refusal, bad_line, refuse, write_report};
use crate::reading::read_whole;
use cz_base::{NoMemory, Sink, Source};
use flstore_service::{FlScript, fl_text, flstore, read_flstore};
use script_text::ScriptFault;
use std::alloc::Global;

/// Reads the script of a log by itself from the source, runs it and writes the text of its run. The
/// status is that of `chariots`: 0, or 3 to 6.
pub fn flstore_run<S: Source, K: Sink>(alloc: Global, source: &mut S, sink: &mut K) -> Done
    ensures words { result.status ≢ 2 }
    ensures refused { result.status ≡ 3 → IsNoFlScript (S.left source.old) (S.left source.new) ⊎ Came (S.left source.old) (S.left source.new) (script_limit + 1) }
    ensures read_fault { result.status ≡ 4 → Rose (S.faults source.old) (S.faults source.new) }
    ensures write_fault { result.status ≡ 5 → Rose (K.faults sink.old) (K.faults sink.new) }
    ensures line { TellsItsLine (WritesFront (K.written sink.old) (K.written sink.new) (K.faults sink.old) (K.faults sink.new)) result.status }
    ensures ended { EndsFlStore (S.left source.old) (S.left source.new) (S.faults source.old) (S.faults source.new)
        (K.written sink.old) (K.written sink.new) (K.faults sink.old) (K.faults sink.new) result }

    // It is no run of the abstract log.
    ensures run { (result.run ≡ None) × (result.stages ≡ None) }

    // No fault is overcome in silence.
    ensures kept { result.status ≡ 0 → (S.faults source.new ≡ S.faults source.old) × (K.faults sink.new ≡ K.faults sink.old) }
    ensures source_fault { S.faults source.old < S.faults source.new → result.status ≡ 4 }

    // A source and a sink that cannot fail are never told to have failed.
    ensures sure_source { StandsStill (S.faults source.old) (S.faults source.new) → result.status ≢ 4 }
    ensures sure_sink { StandsStill (K.faults sink.old) (K.faults sink.new) → result.status ≢ 5 }

    // A script that is read without a fault is run, and the text of its run is written.
    ensures complete { (bytes : List ℕ) (script : FlScript) → S.left source.old ≡ Some bytes → IsFlScript bytes script → length bytes ≤ script_limit
        → ¬ Rose (S.faults source.old) (S.faults source.new) → ¬ Rose (K.faults sink.old) (K.faults sink.new)
        → (result.status ≡ 0) ⊎ (result.status ≡ 6) }
{
    store_and_report(alloc, source, sink)
}

/// Does what `flstore_run` does.
pub fn store_and_report<S: Source, K: Sink>(alloc: Global, source: &mut S, sink: &mut K) -> Done
    ensures { EndsFlStore (S.left source.old) (S.left source.new) (S.faults source.old) (S.faults source.new)
        (K.written sink.old) (K.written sink.new) (K.faults sink.old) (K.faults sink.new) result }
{
    match read_and_store(alloc, source) {
        Ok(text) => Done {
            status: write_report(sink, &text),
            run: None,
            stages: None,
        },
        Err(refusal) => refuse(&refusal, sink),
    }
}

// The text of the run of the script that the source has.
fn read_and_store<S: Source>(alloc: Global, source: &mut S) -> Result<Vec<u8>, Refusal>
    ensures ok { IfOk result (λ text. IsStoredOfSource (S.left source.old) (S.left source.new) (S.faults source.old) (S.faults source.new) text.items) }
    ensures refused { IfErr result (IsRefusedFor script_of (S.left source.old) (S.left source.new) (S.faults source.old) (S.faults source.new)) }
{
    let script = read(alloc, source)?;
    Ok(stored(alloc, &script)?)
}

// Reads all that the source still gives, as the script of a log by itself.
fn read<S: Source>(alloc: Global, source: &mut S) -> Result<FlScript, Refusal>
    ensures read { IfOk result (WasRead script_of (S.left source.old) (S.left source.new) (S.faults source.old) (S.faults source.new)) }
    ensures fits { IfOk result FitsFlScript }
    ensures refused { IfErr result (IsRefusedFor script_of (S.left source.old) (S.left source.new) (S.faults source.old) (S.faults source.new)) }
{
    let bytes = read_whole(alloc, source)?;
    match read_flstore(alloc, &bytes) {
        Ok(script) => Ok(script),
        Err(ScriptFault::Bad { line, cause }) => {
            let told = bad_line(alloc, line, cause)?;
            Err(Refusal::Script(told))
        }
        Err(ScriptFault::NoMemory) => Err(Refusal::NoMemory),
    }
}

// The text of the run of a script.
fn stored(alloc: Global, script: &FlScript) -> Result<Vec<u8>, NoMemory>
    requires { FitsFlScript script.now }
    ensures { IfOk result (λ text. text.items ≡ run_text (run_of script.now)) }
{
    let run = flstore(alloc, script)?;
    fl_text(alloc, &run)
}
