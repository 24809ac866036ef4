//! Reading the source to its end.

ghost use Rattle.std.specs.Prelude.{◌≡◌, IfOk, IfErr, OnOk};
ghost use Rattle.cz_base.specs.Streams.{IsAllThatCame};
ghost use Rattle.top_calls.specs.Ending.{IsUnreadFor, script_limit};

use crate::done::Refusal;
use cz_base::{ReadAllFault, Source, read_all};
use std::alloc::Global;

/// The longest script that is read, in bytes.
pub const SCRIPT_LIMIT: usize = 4_194_304;

/// All that the source still gives, where a script may be so long.
pub fn read_whole<S: Source>(alloc: Global, source: &mut S) -> Result<Vec<u8>, Refusal>
    ensures whole { IfOk result (λ bytes. IsAllThatCame (S.left source.old) (S.left source.new) script_limit bytes.items) }
    ensures kept { OnOk result (S.faults source.new ≡ S.faults source.old) }
    ensures refused { IfErr result (IsUnreadFor (S.left source.old) (S.left source.new) (S.faults source.old) (S.faults source.new)) }
{
    match read_all(alloc, source, SCRIPT_LIMIT) {
        Ok(bytes) => Ok(bytes),
        Err(ReadAllFault::ReadFault) => Err(Refusal::ReadFault),
        Err(ReadAllFault::TooLong { .. }) => Err(Refusal::TooLong),
        Err(ReadAllFault::NoMemory) => Err(Refusal::NoMemory),
    }
}
