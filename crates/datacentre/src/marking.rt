//! Announcements at a datacentre: that from a mark on one filter more serves a host.
ghost use Rattle.std.specs.Prelude.{IfOk};
ghost use Rattle.stage_world.specs.MarkTurns.{announce_turn, mark_turn};
ghost use Rattle.datacentre.specs.Seen.{seen};
ghost use Rattle.datacentre.specs.Turning.{IsTurned, MayTurn};

use crate::parts::Parts;
use crate::{TurnDone, turns};
use cz_base::{DcId, NoMemory, Toid};

impl Parts {
    /// Announces that from record t of host h on there is one filter more. No memory is taken.
    pub fn announce(&mut self, h: DcId, t: Toid) -> TurnDone
        requires { MayTurn self.old }
        ensures { IsTurned self.old self.new result (announce_turn (seen self.old) h t) }
    {
        turns::announce(self.queues.alloc(), &mut self.marks, &self.map, h, t)
    }

    /// The next step of the announcement that is on.
    pub fn mark(&mut self) -> Result<TurnDone, NoMemory>
        requires { MayTurn self.old }
        ensures { IfOk result (λ done. IsTurned self.old self.new done (mark_turn (seen self.old))) }
    {
        turns::mark(&mut self.marks, &mut self.filters, &mut self.map)
    }
}
