//! Members that join while it runs: a maintainer from a position ahead on, and a queue behind the last of the ring.
ghost use Rattle.std.specs.Prelude.{◌≡◌, ◌↔◌, ◌<◌, ◌≤◌, ℕ, true, [], ◌∷◌, ◌++◌, length, nat_lt, Some, IfOk, IsErrOf, OnErr, OnOk};
ghost use Rattle.cz_base.specs.declared.limits.TheConstants.{MEMBERS, NUMBERS_END};
ghost use Rattle.abstract_log.specs.declared.script.Outcome.TheVariants.{Member};
ghost use Rattle.flstore_rounds.specs.Epochs.{last_epoch};
ghost use Rattle.token_queue.specs.Queues.{TokenState, mark_bound, with_maintainer, with_queue};
ghost use Rattle.stage_world.specs.MoreTurns.{new_queue};
ghost use Rattle.stage_world.specs.Stages.{queue_at};
ghost use Rattle.stage_turns.specs.Joining.{MayAddMaintainer, MayAddQueue, maintainer_outcome, maintainers_with, token_adopted, vectors_with};
ghost use Rattle.stage_turns.specs.Lent.{HaveToken, queues_seen, token_seen};

use crate::TurnDone;
use crate::ring::holder;
use abstract_log::Outcome;
use causal_deps::Record;
use cz_base::{Lid, NoMemory, Seq};
use flstore_rounds::Epochs;
use head_gossip::Vector;
use maintainer::Maintainer;
use token_queue::{AdoptFault, Queue};

/// A queue joins the ring behind the last, with the token's epochs. The outcome is its number.
pub fn add_queue(queues: &mut Seq<Queue>) -> Result<TurnDone, NoMemory>
    requires { MayAddQueue queues.old (token_seen queues.old) }
    ensures queues { OnOk result (queues_seen queues.new ≡ queues_seen queues.old ++ new_queue (length queues.old) (token_seen queues.old).epochs ∷ []) }
    ensures token { OnOk result (token_seen queues.new ≡ with_queue (token_seen queues.old)) }
    ensures holder { OnOk result (HaveToken queues.new (with_queue (token_seen queues.old))) }
    ensures outcome { IfOk result (λ done. done.outcome ≡ Member (length queues.old)) }
    ensures events { IfOk result (λ done. done.events ≡ []) }
    ensures changed { IfOk result (λ done. done.changed ≡ true) }
{
    let at = holder(queues);
    let number = queues.len() as u32;
    let epochs = epochs_at(queues, at)?;
    let queue = Queue::new(queues.alloc(), number, epochs)?;
    grow_ring(queues.item_mut(at));
    queues.push(queue)?;
    Ok(TurnDone {
        outcome: Outcome::Member { number },
        events: Seq::new(queues.alloc()),
        changed: true,
    })
}

/// From position `mark` on there is one maintainer more, with its vector. Where the mark is not above all that is stamped and the
/// last epoch's start, nothing changes, and the outcome tells that bound.
pub fn add_maintainer(
    mark: Lid,
    queues: &mut Seq<Queue>,
    maintainers: &mut Seq<Maintainer<Record>>,
    vectors: &mut Seq<Vector>,
) -> Result<TurnDone, NoMemory>
    requires mark { mark < NUMBERS_END }
    requires may { MayAddMaintainer queues.old (token_seen queues.old) maintainers.old }
    ensures queues { OnOk result (queues_seen queues.new ≡ queues_seen queues.old) }
    ensures token { OnOk result (token_seen queues.new ≡ token_adopted (token_seen queues.old) mark) }
    ensures holder { OnOk result (HaveToken queues.new (token_adopted (token_seen queues.old) mark)) }
    ensures maintainers { OnOk result (maintainers.new ≡ maintainers_with (token_seen queues.old) mark maintainers.old) }
    ensures vectors { OnOk result (vectors.new ≡ vectors_with (token_seen queues.old) mark vectors.old) }
    ensures outcome { IfOk result (λ done. done.outcome ≡ maintainer_outcome (token_seen queues.old) mark (length maintainers.old)) }
    ensures events { IfOk result (λ done. done.events ≡ []) }
    ensures changed { IfOk result (λ done. done.changed ≡ nat_lt (mark_bound (token_seen queues.old)) mark) }
{
    let at = holder(queues);
    match adopt(queues.item_mut(at), mark) {
        Ok(()) => {}
        Err(AdoptFault::Late { bound }) => {
            return Ok(TurnDone {
                outcome: Outcome::LateMark { bound },
                events: Seq::new(queues.alloc()),
                changed: false,
            });
        }
        Err(AdoptFault::NoMemory) => return Err(NoMemory),
    }
    let number = maintainers.len() as u32;
    maintainers.push(Maintainer::new(queues.alloc(), number, epochs_at(queues, at)?))?;
    vectors.push(Vector::new(queues.alloc(), epochs_at(queues, at)?))?;
    Ok(TurnDone {
        outcome: Outcome::EpochAdded {
            start: mark,
            members: number + 1,
        },
        events: Seq::new(queues.alloc()),
        changed: true,
    })
}

// The epochs of the token that the queue at this place has.
fn epochs_at(queues: &Seq<Queue>, at: usize) -> Result<Epochs, NoMemory>
    requires there { at < length queues.now }
    requires has { (t : TokenState) × ((queue_at queues.now at).token ≡ Some t) }
    ensures { (t : TokenState) → (queue_at queues.now at).token ≡ Some t → IfOk result (λ epochs. epochs ≡ t.epochs) }
{
    let Some(token) = queues.as_slice()[at].token() else {
        unreachable!();
    };
    token.epochs().copy()
}

// The token of the queue takes one maintainer more from a position on.
fn adopt(queue: &mut Queue, mark: Lid) -> Result<(), AdoptFault>
    requires mark { mark < NUMBERS_END }
    requires has { (t : TokenState) × (queue.old.token ≡ Some t) × ((last_epoch t.epochs).members < MEMBERS) }
    ensures ok { (t : TokenState) → queue.old.token ≡ Some t → OnOk result (queue.new ≡ record queue.old { token = Some (with_maintainer t mark) }) }
    ensures late { (t : TokenState) → queue.old.token ≡ Some t → (bound : ℕ) → IsErrOf result (AdoptFault.Late bound) ↔ ((bound ≡ mark_bound t) × (mark ≤ bound)) }
    ensures err { OnErr result (queue.new ≡ queue.old) }
{
    let Some(token) = queue.token_mut() else {
        unreachable!();
    };
    token.adopt(mark)
}

// The token of the queue counts one queue more.
fn grow_ring(queue: &mut Queue)
    requires { (t : TokenState) × (queue.old.token ≡ Some t) × (t.queues < MEMBERS) }
    ensures { (t : TokenState) → queue.old.token ≡ Some t → queue.new ≡ record queue.old { token = Some (with_queue t) } }
{
    let Some(token) = queue.token_mut() else {
        unreachable!();
    };
    token.grow();
}
