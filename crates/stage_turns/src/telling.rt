//! A maintainer tells its mark to a vector.

ghost use Rattle.std.specs.Prelude.{◌≡◌, ◌↔◌, ◌<◌, [], length, IfOk, IsTrue, OnOk};
ghost use Rattle.cz_base.specs.declared.limits.TheConstants.{MEMBERS};
ghost use Rattle.abstract_log.specs.declared.script.Outcome.TheVariants.{Head as HeadAt};
ghost use Rattle.flstore_rounds.specs.Heads.{head};
ghost use Rattle.stage_world.specs.Stages.{vector_at};
ghost use Rattle.stage_world.specs.Idle.{TellsApart};
ghost use Rattle.stage_turns.specs.Changing.{marks_in};
ghost use Rattle.stage_turns.specs.Telling.{MayGossip, own_vector, vectors_told};

use crate::TurnDone;
use abstract_log::Outcome;
use causal_deps::Record;
use cz_base::limits::MEMBERS;
use cz_base::{Lid, NoMemory, Seq};
use head_gossip::Vector;
use maintainer::Maintainer;

/// The vector at place `from` takes the epochs and the mark of its maintainer m, and the one at place
/// `to` hears it. The outcome is the head that the latter then knows.
pub fn gossip(
    m: u32,
    maintainer: &mut Maintainer<Record>,
    vectors: &mut Seq<Vector>,
    from: u32,
    to: u32,
) -> Result<TurnDone, NoMemory>
    requires member { m < MEMBERS }
    requires may { MayGossip maintainer.old vectors.old from to }
    ensures maintainer { maintainer.new ≡ maintainer.old }
    ensures vectors { OnOk result (vectors.new ≡ vectors_told vectors.old from to (own_vector m maintainer.old vectors.old from)) }
    ensures outcome { IfOk result (λ done. done.outcome ≡ HeadAt (head (vector_at vectors.new to))) }
    ensures events { IfOk result (λ done. done.events ≡ []) }
    ensures changed { IfOk result (λ done. TellsApart done.changed (marks_in vectors.old) (marks_in vectors.new)) }
{
    let told_before = marks_at(vectors, from);
    let heard_before = marks_at(vectors, to);
    let teller = vectors.item_mut(from as usize);
    teller.own(maintainer.epochs(), m, maintainer.filled())?;
    let note = teller.tell()?;
    let hearer = vectors.item_mut(to as usize);
    hearer.hear(&note)?;
    let at = hearer.head();
    let teller_rose = !is_same(&told_before, &marks_at(vectors, from));
    let hearer_rose = !is_same(&heard_before, &marks_at(vectors, to));
    Ok(TurnDone {
        outcome: Outcome::Head { at },
        events: Seq::new(vectors.alloc()),
        changed: teller_rose || hearer_rose,
    })
}

// The marks of the vector at a place.
fn marks_at(vectors: &Seq<Vector>, at: u32) -> [Lid; MEMBERS]
    requires { at < length vectors.now }
    ensures { result ≡ (vector_at vectors.now at).marks }
{
    *vectors.as_slice()[at as usize].marks()
}

fn is_same(a: &[Lid; MEMBERS], b: &[Lid; MEMBERS]) -> bool
    ensures { IsTrue result ↔ (a.now ≡ b.now) }
{
    a == b
}
