//! Reading a whole script.

ghost use Rattle.std.specs.Prelude.{◌≡◌, ℕ, All, IfOk, IsErrOf, MatchResult, Ok, Err};
ghost use Rattle.script_text.specs.Lines.{lines};
ghost use Rattle.abstract_log.specs.Fits.{FitsScript};
ghost use Rattle.script_text.specs.Meaning.{script_of};
ghost use Rattle.script_text.specs.Members.{FitsMembers};
ghost use Rattle.script_text.specs.Spelled.{Spells, IsWritten};
ghost use Rattle.abstract_log.specs.Turns.{FitsStep};
ghost use Rattle.abstract_log.specs.declared.script.Script.{Script};
ghost use Rattle.script_text.specs.declared.fault.Cause.{Cause};

use crate::Lines;
use crate::fault::{Cause, ReadFault, ScriptFault};
use crate::progress::Progress;
use abstract_log::Script;
use std::alloc::Global;

/// The script that the bytes spell, or the first bad line with its first cause. Lines count from 1,
/// and the count stands still at 2^32 - 1; where the input ends before `end`, the bad line is the
/// one after the last.
pub fn read_script(alloc: Global, bytes: &[u8]) -> Result<Script, ScriptFault>
    ensures ok { IfOk result (λ script. script_of (lines bytes.now) ≡ Ok script) }
    ensures bad { (line : ℕ) (cause : Cause) → IsErrOf result (ScriptFault.Bad line cause) → script_of (lines bytes.now) ≡ Err (ScriptFault.Bad line cause) }

    // What is read keeps the ranges of scripts, and the lines are those that write it.
    ensures fits { IfOk result FitsScript }
    ensures spelled { IfOk result (λ script. Spells script (lines bytes.now)) }

    // A script is read exactly from the lines that write it as it has to be written.
    ensures written { IfOk result (λ script. IsWritten script (lines bytes.now)) }
    ensures only { (script : Script) → IsWritten script (lines bytes.now) → MatchResult result (λ found. found ≡ script) (λ fault. fault ≡ ScriptFault.NoMemory) }

    // Each step is one that a script may have: its session and datacentres are there, a link is
    // between two, and its numbers are in their ranges.
    ensures steps { IfOk result (λ script. All (FitsStep script.workload) script.steps) }

    // With all members that its steps add, no stage has more than it may have.
    ensures members { IfOk result FitsMembers }
{
    read_lines(alloc, bytes)
}

// The script, line by line.
fn read_lines(alloc: Global, bytes: &[u8]) -> Result<Script, ScriptFault>
    ensures ok { IfOk result (λ script. script_of (lines bytes.now) ≡ Ok script) }
    ensures bad { (line : ℕ) (cause : Cause) → IsErrOf result (ScriptFault.Bad line cause) → script_of (lines bytes.now) ≡ Err (ScriptFault.Bad line cause) }
{
    let mut progress = Progress::new(alloc);
    let mut left = Lines::new(bytes);
    let mut line: u32 = 1;
    while let Some(text) = left.next_line() {
        match progress.take_line(text) {
            Ok(()) => {}
            Err(ReadFault::Bad(cause)) => return Err(ScriptFault::Bad { line, cause }),
            Err(ReadFault::NoMemory) => return Err(ScriptFault::NoMemory),
        }
        line = line.saturating_add(1);
    }
    if !progress.section.is_ended() {
        return Err(ScriptFault::Bad {
            line,
            cause: Cause::TooShort,
        });
    }
    match progress.into_script() {
        Ok(script) => Ok(script),
        Err(_) => Err(ScriptFault::NoMemory),
    }
}
