//! What the rounds of settling do, and how settling ends. Each law is a function that does nothing: its contract is the law.
ghost use Rattle.std.specs.Prelude.{◌≡◌, ℕ, ◌<◌, false, List, All};
ghost use Rattle.abstract_log.specs.declared.script.Script.{Script};
ghost use Rattle.abstract_log.specs.declared.script.Step.{Step};
ghost use Rattle.abstract_log.specs.declared.world.World.{World};
ghost use Rattle.abstract_log.specs.Fits.{FitsScript};
ghost use Rattle.log_laws.specs.Lawful.{IsLawful};
ghost use Rattle.abstract_log.specs.Turns.{IsStep};
ghost use Rattle.stage_world.specs.Schedules.{after_steps};
ghost use Rattle.stage_world.specs.Settling.{all_marks, is_answering, IsSettling};
ghost use Rattle.stage_world.specs.Stages.{Stages};
ghost use Rattle.stage_world.specs.Whole.{StandsFor};
ghost use Rattle.settling_laws.specs.Ending.{AreQuiet, EndsSettling, EndsTelling, HasFinishedRun, IsFinishedBy};
ghost use Rattle.settling_laws.specs.Rounds.{EndsAnswering, IsSettledByRound};

/// A local round of a datacentre changes that one alone: it leaves nothing there that may go into the log, no open write, and a log
/// that all its maintainers, vectors and indexers have and its own row counts.
pub fn rounds_settle_a_datacentre()
    ensures { (w : World) (z : Stages) (d : ℕ) → IsLawful w → StandsFor w z → d < w.workload.dcs → IsSettledByRound w.workload d z }
{}

/// The rounds of answering end.
pub fn answering_ends()
    ensures { (w : World) (z : Stages) → IsLawful w → StandsFor w z → EndsAnswering w.workload z }
{}

/// Once every command is answered the rounds of telling end: where no announcement is on, each record comes to every log.
pub fn telling_ends()
    ensures { (w : World) (z : Stages) → IsLawful w → StandsFor w z → AreQuiet w.workload z → is_answering z ≡ false → EndsTelling w.workload z }
{}

/// After the first turns of settling no announcement is on.
pub fn marks_end_announcements()
    ensures { (w : World) (z : Stages) → IsLawful w → StandsFor w z → AreQuiet w.workload (after_steps w.workload z (all_marks z)) }
{}

/// Settling ends, whatever announcements are on.
pub fn settling_ends()
    ensures { (w : World) (z : Stages) → IsLawful w → StandsFor w z → EndsSettling w.workload z }
{}

/// Whatever turns settling takes, their events can happen, and the world that they leave is finished.
pub fn settled_worlds_are_finished()
    ensures { (w : World) (z : Stages) (steps : List Step) → IsLawful w → StandsFor w z → IsSettling w.workload z steps → IsFinishedBy w z steps }
{}

/// Every script in its ranges comes to its end: its steps, and settling after them, make a run on its workload that leaves a
/// finished world.
pub fn scripts_come_to_an_end()
    ensures { (script : Script) → FitsScript script → All (IsStep script.workload) script.steps → HasFinishedRun script }
{}
