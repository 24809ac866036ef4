//! A message read back from its bytes.

ghost use Rattle.std.specs.Prelude.{◌≡◌, ◌≤◌, IfOk, IfErr, MatchResult};
ghost use Rattle.record_codec.specs.declared.fault.DecodeFault.TheVariants.{NoMemory as OutOfMemory};
ghost use Rattle.record_codec.specs.declared.message.Message.{Message as MessageValue};
ghost use Rattle.record_codec.specs.Starts.{IsRefusedBytes};
ghost use Rattle.record_codec.specs.Wire.{IsMessageText, SpellsMessage};
ghost use Rattle.cz_base.specs.declared.limits.TheConstants.{DATACENTRES};

use record_codec::{DecodeFault, Message, decode_message};
use std::alloc::Global;

/// The message between so many datacentres that the bytes spell, all of them.
///
/// `Malformed` comes exactly where they spell none, and `NoMemory` where memory is refused.
pub fn receive(alloc: Global, bytes: &[u8], dcs: u32) -> Result<Message, DecodeFault>
    requires { (1 ≤ dcs) × (dcs ≤ DATACENTRES) }
    // What is received is spelled so.
    ensures ok { IfOk result (λ message. SpellsMessage dcs bytes.now message) }

    // What is spelled so is received.
    ensures only { (message : MessageValue) → SpellsMessage dcs bytes.now message → MatchResult result (λ found. found ≡ message) (λ fault. fault ≡ OutOfMemory) }

    // Where nothing is, it is told how far the bytes begin some message.
    ensures refused { IfErr result (IsRefusedBytes (IsMessageText dcs) bytes.now) }
{
    decode_message(alloc, bytes, dcs)
}
