//! The token goes from queue to queue.
ghost use Rattle.std.specs.Prelude.{◌≡◌, [], length, nat_lt, position, is_some, IfOk, IsOk};
ghost use Rattle.token_queue.specs.Queues.{QueueState};
ghost use Rattle.abstract_log.specs.declared.script.Outcome.TheVariants.{At};
ghost use Rattle.stage_turns.specs.Lent.{HaveToken, MayMoveToken, has_token, queues_seen, token_at_next, token_seen};

use crate::TurnDone;
use abstract_log::Outcome;
use cz_base::{NoMemory, Seq};
use token_queue::Queue;

/// The token goes to the queue after the one that has it; after the last comes the first. No memory is taken.
pub fn token(queues: &mut Seq<Queue>) -> Result<TurnDone, NoMemory>
    requires { MayMoveToken queues.old (token_seen queues.old) }
    ensures succeeds { IsOk result }
    ensures queues { queues_seen queues.new ≡ queues_seen queues.old }
    ensures token { token_seen queues.new ≡ token_at_next (token_seen queues.old) }
    ensures holder { HaveToken queues.new (token_at_next (token_seen queues.old)) }
    ensures outcome { IfOk result (λ done. done.outcome ≡ At (token_at_next (token_seen queues.old)).at) }
    ensures events { IfOk result (λ done. done.events ≡ []) }
    ensures changed { IfOk result (λ done. done.changed ≡ nat_lt 1 (length queues.old)) }
{
    let at = holder(queues);
    let Some(token) = queues.item_mut(at).give() else {
        unreachable!();
    };
    let next = token.next_queue();
    queues.item_mut(next as usize).hold(token);
    Ok(TurnDone {
        outcome: Outcome::At { queue: next },
        events: Seq::new(queues.alloc()),
        changed: queues.len() > 1,
    })
}

/// The place of the queue that has the token.
pub fn holder(queues: &Seq<Queue>) -> usize
    requires { HaveToken queues.now (token_seen queues.now) }
    ensures { result ≡ (token_seen queues.now).at }
{
    let Some(at) = first_holder(queues.as_slice()) else {
        unreachable!();
    };
    at
}

fn first_holder(queues: &[Queue]) -> Option<usize>
    ensures { result ≡ position has_token queues.now }
{
    queues.iter().position(|queue| queue.token().is_some())
}
