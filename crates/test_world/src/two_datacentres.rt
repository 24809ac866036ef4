//! Two datacentres, from their first record to the end of settling.

ghost use Rattle.std.specs.Prelude.{◌≡◌, [], ◌∷◌, IfOk};
ghost use Rattle.abstract_log.specs.declared.command.Command.TheVariants.{Read};
ghost use Rattle.abstract_log.specs.Fits.{FitsScript, FitsSizes};
ghost use Rattle.test_world.specs.Given.{AreOnePut, IsGiven};

use crate::steps::may_take;
use abstract_log::{Command, Event, Outcome, Script, SessionPlan, Sizes, Step, Workload};
use cz_base::{Body, DcId, Name, Seq};
use std::alloc::Global;
use std::process::Abort;
use std::test::Fail;
use world::Stages;

fn sizes() -> Sizes
    ensures { FitsSizes result }
{
    Sizes {
        batchers: 2,
        filters: 2,
        queues: 2,
        maintainers: 2,
        indexers: 1,
        senders: 1,
        receivers: 1,
    }
}

fn second() -> DcId
    ensures { result ≡ 1 }
{
    match DcId::new(1) {
        Some(dc) => dc,
        None => unreachable!(),
    }
}

fn one_put(alloc: Global) -> Result<Seq<Command>, Fail>
    ensures { IfOk result AreOnePut }
{
    let key = Name::read(alloc, b"x")?;
    let body = Body::read(alloc, b"1")?;
    let mut commands = Seq::new(alloc);
    commands.push(Command::Put { key, body })?;
    Ok(commands)
}

fn one_read(alloc: Global) -> Result<Seq<Command>, Fail>
    ensures { IfOk result (λ commands. commands ≡ Read 1 ∷ []) }
{
    let mut commands = Seq::new(alloc);
    commands.push(Command::Read { lid: 1 })?;
    Ok(commands)
}

// At A a session puts a value, at B one reads the first position.
fn workload(alloc: Global) -> Result<Workload, Fail>
    ensures { IfOk result IsGiven }
{
    let mut sessions = Seq::new(alloc);
    sessions.push(SessionPlan {
        home: DcId::FIRST,
        commands: one_put(alloc)?,
    })?;
    sessions.push(SessionPlan {
        home: second(),
        commands: one_read(alloc)?,
    })?;
    Ok(Workload { dcs: 2, sessions })
}

fn script(alloc: Global) -> Result<Script, Fail>
    ensures { IfOk result FitsScript }
{
    let mut each = Seq::new(alloc);
    each.push(sizes())?;
    each.push(sizes())?;
    Ok(Script {
        workload: workload(alloc)?,
        round: 4,
        sizes: each,
        steps: Seq::new(alloc),
    })
}

fn take_all(stages: &mut Stages, workload: &Workload, steps: &[Step]) -> Result<(), Fail>
    requires { stages.old.workload ≡ workload.now }
{
    for step in steps {
        if !may_take(workload, step) {
            return Err(Fail::from("a step that the stages may not take"));
        }
        stages.turn(step)?;
    }
    Ok(())
}

// A's first message is lost; its second comes twice, the second time at a receiver that is not there.
fn schedule() -> [Step; 23] {
    let a = DcId::FIRST;
    let b = second();
    let deliver = |k, r| Step::Deliver { d: a, e: b, k, r };
    [
        Step::Client { s: 0 },
        Step::Flush { d: a, b: 0 },
        Step::Pass { d: a, f: 0, q: 0 },
        Step::Stamp { d: a, q: 0 },
        Step::Token { d: a },
        Step::Place { d: a, q: 0, m: 0 },
        Step::Gossip { d: a, m: 0, k: 0 },
        Step::Learn { d: a },
        Step::Send { d: a, k: 0, e: b },
        Step::Lose { d: a, e: b, k: 1 },
        deliver(1, 0),
        Step::Send { d: a, k: 0, e: b },
        Step::Copy { d: a, e: b, k: 1 },
        deliver(2, 0),
        deliver(1, 1),
        Step::Flush { d: b, b: 0 },
        Step::Pass { d: b, f: 0, q: 0 },
        Step::Pass { d: b, f: 1, q: 0 },
        Step::Stamp { d: b, q: 0 },
        Step::Place { d: b, q: 0, m: 0 },
        Step::Gossip { d: b, m: 0, k: 0 },
        Step::Gossip { d: b, m: 0, k: 1 },
        Step::Client { s: 1 },
    ]
}

// Whether a line of the schedule tells what it has to.
fn is_right(turn: usize, outcome: &Outcome) -> bool {
    match turn {
        0 => matches!(outcome, Outcome::Submitted { k: 1 }),
        8 => matches!(
            outcome,
            Outcome::Sent {
                link: 1,
                lost: false,
                ..
            }
        ),
        9 => matches!(outcome, Outcome::Lost),
        10 | 14 => matches!(outcome, Outcome::Absent),
        12 => matches!(
            outcome,
            Outcome::Copied {
                link: 2,
                lost: false
            }
        ),
        13 => matches!(outcome, Outcome::Received { .. }),
        20 => matches!(outcome, Outcome::Head { at: 1 }),
        22 => matches!(outcome, Outcome::Replied { k: 1 }),
        _ => true,
    }
}

// A puts x, and B adds the record once and reads it.
#[test]
fn a_put_is_read_elsewhere(rt: HostRuntime) -> Result<(), Fail> {
    let script = script(rt.alloc())?;
    let mut stages = Stages::start(rt.alloc(), &script)?;
    take_all(&mut stages, &script.workload, &schedule())?;
    let played = stages.finish()?;
    assert_eq!(rt; played.stages.len(), 23);
    for (turn, line) in played.stages.iter().enumerate() {
        assert!(rt; is_right(turn, &line.outcome), "turn {turn}");
    }
    // Submit, append, learn at A; receive, add, submit, reply at B.
    assert_eq!(rt; played.run.events.len(), 7);
    assert!(rt; matches!(&played.run.events.as_slice()[6], Event::Reply { at: 1, .. }));
    Ok(())
}
