//! The two forms of records and messages.

ghost use Rattle.std.specs.Prelude.{◌≡◌, ◌<◌, ◌≤◌};
ghost use Rattle.cz_base.specs.declared.limits.TheConstants.{BODY_BYTES};
ghost use Rattle.record_codec.specs.Wire.{form_number, longest_body};

use cz_base::limits::{BODY_BYTES, DENSE_BODY_BYTES};

/// How a record's dependencies are written, and how long its body may be.
#[derive(Clone, Copy, Debug, PartialEq, Eq)]
pub enum Form {
    /// All numbers, one for each datacentre; bodies of at most [`DENSE_BODY_BYTES`].
    Dense,
    /// The numbers that are not zero, each behind whose it is; bodies of at most [`BODY_BYTES`].
    Sparse,
}

/// The first byte of a message in the form.
pub(crate) fn form_byte(form: Form) -> u64
    ensures value { result ≡ form_number form }
    ensures small { result < 256 }
{
    match form {
        Form::Dense => 1,
        Form::Sparse => 2,
    }
}

/// The most bytes of a body in the form.
pub(crate) fn most_bytes(form: Form) -> u32
    ensures value { result ≡ longest_body form }
    ensures few { result ≤ BODY_BYTES }
{
    match form {
        Form::Dense => DENSE_BODY_BYTES as u32,
        Form::Sparse => BODY_BYTES as u32,
    }
}
