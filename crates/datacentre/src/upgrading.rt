//! A datacentre that goes over to wire form 2.
ghost use Rattle.std.specs.Prelude.{◌≡◌, map};
ghost use Rattle.stage_world.specs.MoreTurns.{upgrade_turn};
ghost use Rattle.datacentre.specs.Seen.{seen, upgraded};
ghost use Rattle.datacentre.specs.Turning.{IsTurned, MayTurn};

use crate::TurnDone;
use crate::parts::Parts;
use abstract_log::Outcome;
use cz_base::Seq;
use sender_receiver::Sender;

impl Parts {
    /// From now on the senders write form 2, those that join later too. A second time changes nothing. No memory is taken.
    pub fn upgrade(&mut self) -> TurnDone
        requires { MayTurn self.old }
        ensures { IsTurned self.old self.new result (upgrade_turn (seen self.old)) }
    {
        let changed = !self.upgraded;
        upgrade_all(&mut self.senders);
        self.upgraded = true;
        TurnDone {
            outcome: Outcome::Form2,
            events: Seq::new(self.queues.alloc()),
            changed,
        }
    }
}

// Each sender writes form 2.
fn upgrade_all(senders: &mut Seq<Sender>)
    ensures { senders.new ≡ map upgraded senders.old }
{
    for at in 0..senders.len() {
        senders.item_mut(at).upgrade();
    }
}
