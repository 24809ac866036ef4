//! Members that join a datacentre while it runs, where there is room for one more of their kind.
ghost use Rattle.std.specs.Prelude.{◌≡◌, ◌<◌, ◌≤◌, [], true, length, IfOk, IsOk};
ghost use Rattle.abstract_log.specs.declared.script.Outcome.TheVariants.{Member};
ghost use Rattle.cz_base.specs.declared.limits.TheConstants.{MEMBERS, NUMBERS_END};
ghost use Rattle.stage_world.specs.Turns.{quiet, where_there};
ghost use Rattle.stage_world.specs.MoreTurns.{add_maintainer_turn, batcher_added, has_room, queue_added, receiver_added, sender_added};
ghost use Rattle.datacentre.specs.Seen.{seen};
ghost use Rattle.datacentre.specs.Turning.{IsTurned, MayTurn};

use crate::parts::Parts;
use crate::{TurnDone, turns};
use abstract_log::Outcome;
use batcher::Batcher;
use cz_base::limits::MEMBERS;
use cz_base::{DcId, Lid, NoMemory, Seq};
use sender_receiver::Sender;
use std::alloc::Global;

impl Parts {
    /// One batcher more, with no items.
    pub fn add_batcher(&mut self) -> Result<TurnDone, NoMemory>
        requires { MayTurn self.old }
        ensures turned { IfOk result (λ done. IsTurned self.old self.new done (where_there (has_room (length self.old.batchers)) (seen self.old) (quiet (Member (length self.old.batchers)) (batcher_added (seen self.old))))) }
        ensures succeeds { MEMBERS ≤ length self.old.batchers → IsOk result }
    {
        let number = self.batchers.len();
        if number >= MEMBERS {
            return Ok(self.absent());
        }
        let alloc = self.batchers.alloc();
        self.batchers.push(Batcher::new(alloc))?;
        Ok(self.joined(number as u32))
    }

    /// One queue more, behind the last of the ring.
    pub fn add_queue(&mut self) -> Result<TurnDone, NoMemory>
        requires { MayTurn self.old }
        ensures turned { IfOk result (λ done. IsTurned self.old self.new done (where_there (has_room (length (seen self.old).queues)) (seen self.old) (quiet (Member (length (seen self.old).queues)) (queue_added (seen self.old))))) }
        ensures succeeds { MEMBERS ≤ length (seen self.old).queues → IsOk result }
    {
        if self.queues.len() >= MEMBERS {
            return Ok(self.absent());
        }
        turns::add_queue(&mut self.queues)
    }

    /// One sender more.
    pub fn add_sender(&mut self) -> Result<TurnDone, NoMemory>
        requires { MayTurn self.old }
        ensures turned { IfOk result (λ done. IsTurned self.old self.new done (where_there (has_room (seen self.old).senders) (seen self.old) (quiet (Member (seen self.old).senders) (sender_added (seen self.old))))) }
        ensures succeeds { MEMBERS ≤ (seen self.old).senders → IsOk result }
    {
        let number = self.senders.len();
        if number >= MEMBERS {
            return Ok(self.absent());
        }
        let sender = new_sender(self.senders.alloc(), self.dc, number as u32, self.upgraded)?;
        self.senders.push(sender)?;
        Ok(self.joined(number as u32))
    }

    /// One receiver more.
    pub fn add_receiver(&mut self) -> Result<TurnDone, NoMemory>
        requires { MayTurn self.old }
        ensures turned { IfOk result (λ done. IsTurned self.old self.new done (where_there (has_room self.old.receivers) (seen self.old) (quiet (Member self.old.receivers) (receiver_added (seen self.old))))) }
        ensures succeeds { IsOk result }
    {
        let number = self.receivers;
        if number as usize >= MEMBERS {
            return Ok(self.absent());
        }
        self.receivers = number + 1;
        Ok(self.joined(number))
    }

    /// One maintainer more from position p on.
    pub fn add_maintainer(&mut self, p: Lid) -> Result<TurnDone, NoMemory>
        requires may { MayTurn self.old }
        requires position { p < NUMBERS_END }
        ensures turned { IfOk result (λ done. IsTurned self.old self.new done (where_there (has_room (length (seen self.old).maintainers)) (seen self.old) (add_maintainer_turn (seen self.old) p))) }
        ensures succeeds { MEMBERS ≤ length (seen self.old).maintainers → IsOk result }
    {
        if self.maintainers.len() >= MEMBERS {
            return Ok(self.absent());
        }
        turns::add_maintainer(
            p,
            &mut self.queues,
            &mut self.maintainers,
            &mut self.vectors,
        )
    }

    // What is answered where a member of this number has joined.
    fn joined(&self, number: u32) -> TurnDone
        ensures { result ≡ record { outcome = Member number; events = []; changed = true } }
    {
        TurnDone {
            outcome: Outcome::Member { number },
            events: Seq::new(self.queues.alloc()),
            changed: true,
        }
    }
}

// A sender that writes in the form of its datacentre.
fn new_sender(alloc: Global, dc: DcId, number: u32, upgraded: bool) -> Result<Sender, NoMemory>
    ensures { IfOk result (λ sender. sender ≡ record { dc = dc; number = number; upgraded = upgraded }) }
{
    let mut sender = Sender::new(alloc, dc, number)?;
    if upgraded {
        sender.upgrade();
    }
    Ok(sender)
}
