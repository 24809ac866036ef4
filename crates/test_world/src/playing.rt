//! A script, played to its end.

ghost use Rattle.std.specs.Prelude.{IfOk};
ghost use Rattle.test_world.specs.Given.{IsToldWhole};

use crate::steps::may_take_all;
use script_text::read_script;
use std::alloc::Global;
use std::test::Fail;
use world::{Played, replay};

/// The script of these bytes, played to its end.
///
/// # Errors
///
/// Where it is refused, where the stages may not take one of its steps, and for want of memory.
pub(crate) fn play(alloc: Global, script: &[u8]) -> Result<Played, Fail>
    ensures { IfOk result IsToldWhole }
{
    let script = read_script(alloc, script)?;
    if !may_take_all(&script.workload, script.steps.as_slice()) {
        return Err(Fail::from("a step that the stages may not take"));
    }
    Ok(replay(alloc, &script)?)
}
