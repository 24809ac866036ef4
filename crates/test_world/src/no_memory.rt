//! A turn for which there is no memory, and the turn after it.

ghost use Rattle.std.specs.Prelude.{◌≡◌};
ghost use Rattle.abstract_log.specs.Turns.{IsStep};

use crate::steps::may_take;
use abstract_log::{Step, Workload};
use script_text::read_script;
use std::process::Abort;
use std::test::Fail;
use world::Stages;

const SCRIPT: &[u8] = b"\
    chariots 1\n\
    datacentres 2\n\
    round 1\n\
    session A\n\
    put x =1\n\
    get x\n\
    session B\n\
    append =b t\n\
    steps\n\
    client 0\n\
    flush A 0\n\
    pass A 0 0\n\
    stamp A 0\n\
    place A 0 0\n\
    gossip A 0 0\n\
    post A 0 0\n\
    learn A\n\
    send A 0 B\n\
    copy A B 1\n\
    deliver A B 1 0\n\
    flush B 0\n\
    pass B 0 0\n\
    stamp B 0\n\
    client 1\n\
    end\n";

// Takes a step twice, and tells whether there was memory for the second. Where there was none for the first, there is none for it.
fn take_twice(rt: &impl Abort, stages: &mut Stages, step: &Step) -> bool
    requires step { IsStep stages.old.workload step.now }
    ensures { stages.new.workload ≡ stages.old.workload }
{
    let first = stages.turn(step);
    let second = stages.turn(step);
    assert!(rt; first.is_ok() || second.is_err());
    second.is_ok()
}

fn take_all(
    rt: &impl Abort,
    stages: &mut Stages,
    workload: &Workload,
    steps: &[Step],
) -> Result<(), Fail>
    requires { stages.old.workload ≡ workload.now }
{
    for step in steps {
        if !may_take(workload, step) {
            return Err(Fail::from("a step that the stages may not take"));
        }
        if !take_twice(rt, stages, step) {
            return Ok(());
        }
    }
    Ok(())
}

// With ample memory all steps are taken; `rt try --test --fail-alloc N` refuses one allocation.
#[test]
fn a_turn_without_memory_is_the_last(rt: HostRuntime) -> Result<(), Fail> {
    let script = read_script(rt.alloc(), SCRIPT)?;
    let mut stages = Stages::start(rt.alloc(), &script)?;
    take_all(&rt, &mut stages, &script.workload, script.steps.as_slice())
}
