//! What holds of the reports of every run. The law is the contract of a function that does nothing.

ghost use Rattle.std.specs.Prelude.{◌≡◌, ℕ, List};
ghost use Rattle.abstract_log.specs.declared.command.Workload.{Workload};
ghost use Rattle.abstract_log.specs.declared.event.Event.{Event};
ghost use Rattle.abstract_log.specs.Runs.{IsRun, world_of};
ghost use Rattle.abstract_log.specs.Worlds.{standing_of};
ghost use Rattle.report_text.specs.Order.{heads_upto, reply_heads};

/// The replies of a session stand by the numbers of its commands: one line for each that is answered, from
/// the first on.
pub fn replies_stand_in_order()
    ensures { (load : Workload) (events : List Event) (s : ℕ) → IsRun load events → reply_heads events s ≡ heads_upto s (standing_of (world_of load events) s).answered }
{}
