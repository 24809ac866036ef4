//! Reading a whole script.

ghost use Rattle.std.specs.Prelude.{◌≡◌, ℕ, IfOk, IsErrOf, Ok, Err};
ghost use Rattle.script_text.specs.Lines.{lines};
ghost use Rattle.script_text.specs.declared.fault.Cause.{Cause};
ghost use Rattle.flstore_service.specs.Fits.{FitsFlScript};
ghost use Rattle.flstore_service.specs.Meaning.{script_of};

use crate::FlScript;
use crate::progress::Progress;
use script_text::{Cause, Lines, ReadFault, ScriptFault};
use std::alloc::Global;

/// The script that the bytes spell, or the first bad line with its first cause. Lines count from 1, and the count stands
/// still at 2^32 - 1; where the input ends before `end`, the bad line is the one after the last.
pub fn read_flstore(alloc: Global, bytes: &[u8]) -> Result<FlScript, ScriptFault>
    ensures ok { IfOk result (λ script. script_of (lines bytes.now) ≡ Ok script) }
    ensures bad { (line : ℕ) (cause : Cause) → IsErrOf result (ScriptFault.Bad line cause) → script_of (lines bytes.now) ≡ Err (ScriptFault.Bad line cause) }

    // What is read keeps the ranges of scripts.
    ensures fits { IfOk result FitsFlScript }
{
    read_lines(alloc, bytes)
}

// The script, line by line.
fn read_lines(alloc: Global, bytes: &[u8]) -> Result<FlScript, ScriptFault>
    ensures ok { IfOk result (λ script. script_of (lines bytes.now) ≡ Ok script) }
    ensures bad { (line : ℕ) (cause : Cause) → IsErrOf result (ScriptFault.Bad line cause) → script_of (lines bytes.now) ≡ Err (ScriptFault.Bad line cause) }
{
    let mut progress = Progress::new(alloc);
    let mut left = Lines::new(bytes);
    let mut line: u32 = 1;
    while let Some(text) = left.next_line() {
        match progress.take_line(text) {
            Ok(()) => {}
            Err(ReadFault::Bad(cause)) => return Err(ScriptFault::Bad { line, cause }),
            Err(ReadFault::NoMemory) => return Err(ScriptFault::NoMemory),
        }
        line = line.saturating_add(1);
    }
    if !progress.section.is_ended() {
        return Err(ScriptFault::Bad {
            line,
            cause: Cause::TooShort,
        });
    }
    Ok(progress.into_script())
}
