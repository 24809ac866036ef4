//! What holds of all stages after each call. Each law is a function that does nothing: its contract is the law.
ghost use Rattle.std.specs.Prelude.{◌≡◌, List};
ghost use Rattle.abstract_log.specs.declared.script.Script.{Script};
ghost use Rattle.abstract_log.specs.Runs.{IsRun, world_of};
ghost use Rattle.stage_world.specs.Whole.{StandsFor};
ghost use Rattle.world.specs.Taking.{HasTaken, StagesState, TakenTurn, stages_after};

/// Whatever turns were taken, the events that were written are a run on the workload, and the stages after the turns stand
/// for the world that it leaves.
pub fn turns_are_runs()
    ensures { (script : Script) (ts : List TakenTurn) (s : StagesState) → HasTaken script ts s → IsRun s.workload s.events × StandsFor (world_of s.workload s.events) (stages_after script ts) }
{}
