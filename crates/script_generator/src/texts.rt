//! The names and bodies that generated commands carry.

ghost use Rattle.std.specs.Prelude.{◌≡◌, IfOk};
ghost use Rattle.cz_base.specs.Text.{IsName, IsBody};
ghost use Rattle.script_generator.specs.Generated.{key_name, tag_name, put_body, append_body};

use cz_base::{Body, BodyFault, Name, NameFault, NoMemory};
use std::alloc::Global;

/// The key with a number, `k` and the number. It fails only where memory runs out.
pub fn key_name(alloc: Global, number: u32) -> Result<Name, NoMemory>
    ensures { IfOk result (λ name. name ≡ key_name number) }
{
    name(alloc, &format!(in alloc; "k{number}")?)
}

/// The tag with a number, `t` and the number. It fails only where memory runs out.
pub fn tag_name(alloc: Global, number: u32) -> Result<Name, NoMemory>
    ensures { IfOk result (λ name. name ≡ tag_name number) }
{
    name(alloc, &format!(in alloc; "t{number}")?)
}

/// What a put writes that is the command `index` of a session. It fails only where memory runs out.
pub fn put_body(alloc: Global, session: u32, index: u32) -> Result<Body, NoMemory>
    ensures { IfOk result (λ body. body ≡ put_body session index) }
{
    body(alloc, &format!(in alloc; "v{session}.{index}")?)
}

/// What an append writes that is the command `index` of a session. It fails only where memory runs out.
pub fn append_body(alloc: Global, session: u32, index: u32) -> Result<Body, NoMemory>
    ensures { IfOk result (λ body. body ≡ append_body session index) }
{
    body(alloc, &format!(in alloc; "a{session}.{index}")?)
}

// The name that a text spells.
fn name(alloc: Global, text: &str) -> Result<Name, NoMemory>
    requires { IsName text.now }
    ensures { IfOk result (λ name. name ≡ text.now) }
{
    match Name::read(alloc, text.as_bytes()) {
        Ok(name) => Ok(name),
        Err(NameFault::NoMemory) => Err(NoMemory),
        Err(NameFault::Length) => unreachable!(),
        Err(NameFault::Byte { .. }) => unreachable!(),
    }
}

// The body that a text spells.
fn body(alloc: Global, text: &str) -> Result<Body, NoMemory>
    requires { IsBody text.now }
    ensures { IfOk result (λ body. body ≡ text.now) }
{
    match Body::read(alloc, text.as_bytes()) {
        Ok(body) => Ok(body),
        Err(BodyFault::NoMemory) => Err(NoMemory),
        Err(BodyFault::Length) => unreachable!(),
        Err(BodyFault::Byte { .. }) => unreachable!(),
    }
}
