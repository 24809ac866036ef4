//! Settling: turns until every command is answered and every log has every record.
ghost use Rattle.std.specs.Prelude.{◌≡◌, ◌<◌, true, OnOk, OnErr, IsErr};
ghost use Rattle.std.specs.List.{All};
ghost use Rattle.abstract_log.specs.Runs.{IsFinished, IsRun, world_of};
ghost use Rattle.abstract_log.specs.Turns.{AreTwo, IsStep};
ghost use Rattle.stage_world.specs.Settling.{IsSettling, all_marks, all_rounds, answering_rounds, errand_turns, exchange_turns, is_answering, is_unfinished, rounds, sent_and_delivered, telling_rounds};
ghost use Rattle.world.specs.Settled.{AreAnswered, AreCalm, HasLooped, Plays};
ghost use Rattle.world.specs.Taking.{HaveTakenTurns};

use crate::exchanges::{Errand, errands};
use crate::packets::packets_in;
use crate::rounds::marks;
use crate::settling_state::{all_of, answering, has_errand, is_answering, is_unfinished, rounds};
use crate::stages::Stages;
use abstract_log::Step;
use cz_base::{DcId, NoMemory};
use settling_laws::{
    answering_ends, marks_end_announcements, settled_worlds_are_finished, telling_ends,
};

impl Stages {
    /// Takes the turns of settling: marks until no announcement is on, rounds until every command is answered, rounds and exchanges
    /// until every log has every record, and a last round. Where memory is wanted it has failed.
    pub fn settle(&mut self) -> Result<(), NoMemory>
        // Whatever turns were taken, those of settling were taken after them.
        ensures turns { OnOk result (Plays IsSettling self.old self.new) }

        // What is written is a finished run on the workload.
        ensures run { OnOk result (IsRun self.new.workload self.new.events) }
        ensures finished { OnOk result (IsFinished (world_of self.new.workload self.new.events)) }
        ensures workload { OnOk result (self.new.workload ≡ self.old.workload) }
        ensures failed { OnErr result (self.new.failed ≡ true) }
        ensures later { self.old.failed ≡ true → IsErr result }
    {
        if self.failed {
            return Err(NoMemory);
        }
        settled_worlds_are_finished();
        match self.play_all() {
            Ok(()) => Ok(()),
            Err(NoMemory) => {
                self.failed = true;
                Err(NoMemory)
            }
        }
    }

    // All turns of settling.
    fn play_all(&mut self) -> Result<(), NoMemory>
        requires { HaveTakenTurns self.old }
        ensures { OnOk result (Plays IsSettling self.old self.new) }
    {
        self.play_marks()?;
        self.play_until_answered()?;
        self.play_until_told()?;
        self.play_everywhere()
    }

    // The marks of each datacentre, after which no announcement is on.
    fn play_marks(&mut self) -> Result<(), NoMemory>
        requires { HaveTakenTurns self.old }
        ensures turns { OnOk result (Plays (λ load z steps. steps ≡ all_marks z) self.old self.new) }
        ensures calm { OnOk result (AreCalm self.new.workload self.new.network.datacentres) }
    {
        marks_end_announcements();
        let steps = marks(self.events.alloc(), self.workload.dcs)?;
        self.play(steps.as_slice())
    }

    // Local rounds where a command is not answered, until all are.
    fn play_until_answered(&mut self) -> Result<(), NoMemory>
        requires taken { HaveTakenTurns self.old }
        requires calm { AreCalm self.old.workload self.old.network.datacentres }
        ensures turns { OnOk result (Plays (HasLooped is_answering answering_rounds) self.old self.new) }
        ensures answered { OnOk result (AreAnswered self.new.network.datacentres) }
        ensures calm { OnOk result (AreCalm self.new.workload self.new.network.datacentres) }
    {
        answering_ends();
        while is_answering(&self.network.datacentres) {
            self.play_where_waiting()?;
        }
        Ok(())
    }

    // Local rounds and exchanges until every log has every record.
    fn play_until_told(&mut self) -> Result<(), NoMemory>
        requires taken { HaveTakenTurns self.old }
        requires calm { AreCalm self.old.workload self.old.network.datacentres }
        requires answered { AreAnswered self.old.network.datacentres }
        ensures { OnOk result (Plays (HasLooped is_unfinished telling_rounds) self.old self.new) }
    {
        telling_ends();
        while is_unfinished(&self.network.datacentres) {
            self.play_and_tell()?;
        }
        Ok(())
    }

    // A local round of each datacentre, then an exchange.
    fn play_and_tell(&mut self) -> Result<(), NoMemory>
        requires { HaveTakenTurns self.old }
        ensures { OnOk result (Plays (λ load z steps. steps ≡ telling_rounds load z) self.old self.new) }
    {
        self.play_everywhere()?;
        self.exchange()
    }

    // A local round of each datacentre.
    fn play_everywhere(&mut self) -> Result<(), NoMemory>
        requires { HaveTakenTurns self.old }
        ensures { OnOk result (Plays (λ load z steps. steps ≡ all_rounds z) self.old self.new) }
    {
        let ds = all_of(self.events.alloc(), self.workload.dcs)?;
        self.play_rounds(ds.as_slice())
    }

    // A local round of each datacentre with a command that is not answered.
    fn play_where_waiting(&mut self) -> Result<(), NoMemory>
        requires { HaveTakenTurns self.old }
        ensures { OnOk result (Plays (λ load z steps. steps ≡ answering_rounds load z) self.old self.new) }
    {
        let ds = answering(
            self.events.alloc(),
            &self.network.datacentres,
            self.workload.dcs,
        )?;
        self.play_rounds(ds.as_slice())
    }

    // Local rounds of these datacentres.
    fn play_rounds(&mut self, ds: &[DcId]) -> Result<(), NoMemory>
        requires taken { HaveTakenTurns self.old }
        requires there { All (λ d. d < self.old.workload.dcs) ds.now }
        ensures { OnOk result (Plays (λ load z steps. steps ≡ rounds z ds.now) self.old self.new) }
    {
        let steps = rounds(self.events.alloc(), &self.network.datacentres, ds)?;
        self.play(steps.as_slice())
    }

    // Takes these turns of settling.
    fn play(&mut self, steps: &[Step]) -> Result<(), NoMemory>
        requires taken { HaveTakenTurns self.old }
        requires may { All (IsStep self.old.workload) steps.now }
        ensures { OnOk result (Plays (λ load z played. played ≡ steps.now) self.old self.new) }
    {
        for step in steps {
            self.take(step, true)?;
        }
        Ok(())
    }

    // Each datacentre sends to each other.
    fn exchange(&mut self) -> Result<(), NoMemory>
        requires { HaveTakenTurns self.old }
        ensures { OnOk result (Plays (λ load z steps. steps ≡ exchange_turns load z) self.old self.new) }
    {
        let them = errands(
            self.events.alloc(),
            &self.network.datacentres,
            self.workload.dcs,
        )?;
        for errand in them.as_slice() {
            self.run(errand)?;
        }
        Ok(())
    }

    // Does an errand, where it is due.
    fn run(&mut self, errand: &Errand) -> Result<(), NoMemory>
        requires taken { HaveTakenTurns self.old }
        requires two { AreTwo self.old.workload.dcs errand.now.from errand.now.to }
        ensures { OnOk result (Plays (λ load z steps. steps ≡ errand_turns load z errand.now) self.old self.new) }
    {
        if !has_errand(&self.network.datacentres, errand) {
            return Ok(());
        }
        self.send_and_deliver(errand)
    }

    // The sender sends, and the newest packet of the link is delivered.
    fn send_and_deliver(&mut self, errand: &Errand) -> Result<(), NoMemory>
        requires taken { HaveTakenTurns self.old }
        requires two { AreTwo self.old.workload.dcs errand.now.from errand.now.to }
        ensures { OnOk result (Plays (λ load z steps. steps ≡ sent_and_delivered load z errand.now) self.old self.new) }
    {
        let d = errand.from;
        let e = errand.to;
        let k = errand.sender;
        self.take(&Step::Send { d, k, e }, true)?;
        let newest = packets_in(&self.network.links, d, e);
        self.take(
            &Step::Deliver {
                d,
                e,
                k: newest,
                r: 0,
            },
            true,
        )
    }
}
