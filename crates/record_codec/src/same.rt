//! Two texts of one message.

ghost use Rattle.std.specs.Prelude.{◌≡◌, ◌↔◌, ◌≤◌, IfOk, IsTrue, slice_get};
ghost use Rattle.cz_base.specs.declared.limits.TheConstants.{DATACENTRES};
ghost use Rattle.record_codec.specs.declared.form.Form.TheVariants.{Sparse};
ghost use Rattle.record_codec.specs.declared.message.Message.{Message};
ghost use Rattle.record_codec.specs.Wire.{SpellsIn, SpellsMessage};

use crate::{DecodeFault, decode_message, encode_message_2};
use cz_base::NoMemory;
use std::alloc::Global;

/// Whether two texts spell one message between so many datacentres, where each spells some, in whatever form. Memory is taken
/// only where the forms differ.
pub fn spell_one_message(
    alloc: Global,
    first: &[u8],
    second: &[u8],
    dcs: u32,
) -> Result<bool, NoMemory>
    requires { (1 ≤ dcs) × (dcs ≤ DATACENTRES) }
    ensures { (m n : Message) → SpellsMessage dcs first.now m → SpellsMessage dcs second.now n → IfOk result (λ same. IsTrue same ↔ (m ≡ n)) }
{
    // The first byte tells the form, and a form has one spelling for a message.
    if begin_alike(first, second) {
        return Ok(are_equal(first, second));
    }
    let one = in_sparse_form(alloc, first, dcs)?;
    let other = in_sparse_form(alloc, second, dcs)?;
    Ok(are_equal(&one, &other))
}

fn begin_alike(first: &[u8], second: &[u8]) -> bool
    ensures { IsTrue result ↔ (slice_get first.now 0 ≡ slice_get second.now 0) }
{
    first.first() == second.first()
}

fn are_equal(first: &[u8], second: &[u8]) -> bool
    ensures { IsTrue result ↔ (first.now ≡ second.now) }
{
    first == second
}

// The spelling in the sparse form of the message that the bytes spell. Of bytes that spell none nothing is said.
fn in_sparse_form(alloc: Global, bytes: &[u8], dcs: u32) -> Result<Vec<u8>, NoMemory>
    requires { (1 ≤ dcs) × (dcs ≤ DATACENTRES) }
    ensures { (m : Message) → SpellsMessage dcs bytes.now m → IfOk result (λ sparse. SpellsIn Sparse dcs sparse.items m) }
{
    match decode_message(alloc, bytes, dcs) {
        Ok(message) => encode_message_2(alloc, &message),
        Err(DecodeFault::Malformed { .. }) => Ok(Vec::new(alloc)),
        Err(DecodeFault::NoMemory) => Err(NoMemory),
    }
}
