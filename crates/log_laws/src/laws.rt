//! What holds of every run. Each law is a function that does nothing: its contract is the law.
ghost use Rattle.std.specs.Prelude.{◌≡◌, ◌≢◌, ℕ, ◌+◌, ◌≤◌, List, [], ◌∷◌, ◌++◌, Some, length, take, slice_get, slice_index, All, Contains};
ghost use Rattle.causal_deps.specs.declared.record.Record.{Record};
ghost use Rattle.causal_deps.specs.Logs.{count_of};
ghost use Rattle.abstract_log.specs.declared.command.Workload.{Workload};
ghost use Rattle.abstract_log.specs.declared.event.Event.{Event};
ghost use Rattle.abstract_log.specs.Worlds.{log_of, pending_of};
ghost use Rattle.abstract_log.specs.Steps.{CanHappen};
ghost use Rattle.abstract_log.specs.Runs.{IsRun, IsFinished, world_of};
ghost use Rattle.abstract_log.specs.Shapes.{FitsWorkload, IsShaped};
ghost use Rattle.abstract_log.specs.Fits.{FitsLimits};
ghost use Rattle.log_laws.specs.Writes.{writes_at, writes_of};
ghost use Rattle.log_laws.specs.Records.{IsValid};
ghost use Rattle.log_laws.specs.Lawful.{IsOnItsWay, AreTablesSquare, AreAllWritten, AreCommandsAnswered, HasRecordsOfAnswered, IsOneForEachCommand, AreWritesAnswered, AreLogsWhole, IsGoneOfLog, IsAwaited, IsLawful};
ghost use Rattle.log_laws.specs.Laws.{EachLogIsCausal, HasOneRecordForEachName, AreTablesSound, ArePendingSound, IsGoneHeldByAll};

/// A run followed by an event that may happen is a run.
pub fn run_goes_on()
    ensures { (load : Workload) (events : List Event) (event : Event) → IsRun load events → CanHappen (world_of load events) event → IsRun load (events ++ event ∷ []) }
{}

/// The first events of a run are a run. So each law holds of the world after any of them.
pub fn front_of_run_is_run()
    ensures { (load : Workload) (events : List Event) (n : ℕ) → IsRun load events → IsRun load (take n events) }
{}

/// Each log is in causal order.
pub fn logs_are_causal()
    ensures { (load : Workload) (events : List Event) → IsRun load events → EachLogIsCausal (world_of load events) }
{}

/// A log has each name once.
pub fn names_stand_once()
    ensures { (load : Workload) (events : List Event) → IsRun load events → (d j k : ℕ) (q r : Record) → slice_get (log_of (world_of load events) d) j ≡ Some q → slice_get (log_of (world_of load events) d) k ≡ Some r → q.host ≡ r.host → q.toid ≡ r.toid → j ≡ k }
{}

/// The numbers of a host's records rise from 1 without a gap.
pub fn numbers_have_no_gap()
    ensures { (load : Workload) (events : List Event) → IsRun load events → (d k : ℕ) (r : Record) → slice_get (log_of (world_of load events) d) k ≡ Some r → r.toid ≡ count_of (take k (log_of (world_of load events) d)) r.host + 1 }
{}

/// Every front of a log has what its records depend on.
pub fn fronts_are_closed()
    ensures { (load : Workload) (events : List Event) → IsRun load events → (d n k : ℕ) (r : Record) → slice_get (take n (log_of (world_of load events) d)) k ≡ Some r → (r.toid ≤ count_of (take n (log_of (world_of load events) d)) r.host) × ((g : ℕ) → g ≢ r.host → slice_index r.dep g ≤ count_of (take n (log_of (world_of load events) d)) g) }
{}

/// A name is the same record in every log.
pub fn names_are_one_record()
    ensures { (load : Workload) (events : List Event) → IsRun load events → HasOneRecordForEachName (world_of load events) }
{}

/// No table knows more than its owner does, who knows no more than its log has.
pub fn tables_are_sound()
    ensures { (load : Workload) (events : List Event) → IsRun load events → AreTablesSound (world_of load events) }
{}

/// The record at a collected position is in every log.
pub fn gone_is_held_by_all()
    ensures { (load : Workload) (events : List Event) → IsRun load events → IsGoneHeldByAll (world_of load events) }
{}

/// A name that waits is in its host's log, and not in the log where it waits.
pub fn pending_is_sound()
    ensures { (load : Workload) (events : List Event) → IsRun load events → ArePendingSound (world_of load events) }
{}

/// Logs only grow.
pub fn logs_only_grow()
    ensures { (load : Workload) (events more : List Event) → IsRun load (events ++ more) → (d : ℕ) → (rest : List Record) × (log_of (world_of load (events ++ more)) d ≡ log_of (world_of load events) d ++ rest) }
{}

/// There is one log, table, set of names and set of positions for each datacentre, and one standing for each session; a
/// past has an entry for each datacentre, and so has what a record depends on.
pub fn shapes_are_kept()
    ensures { (load : Workload) (events : List Event) → FitsWorkload load → IsRun load events → IsShaped (world_of load events) }
{}

/// No session is further than its plan, and none has seen more than the log of its home has.
pub fn sessions_are_on_their_way()
    ensures { (load : Workload) (events : List Event) → FitsWorkload load → IsRun load events → (s : ℕ) → IsOnItsWay (world_of load events) s }
{}

/// Each table has a row of entries for each datacentre.
pub fn tables_are_square()
    ensures { (load : Workload) (events : List Event) → FitsWorkload load → IsRun load events → AreTablesSquare (world_of load events) }
{}

/// Each record was written by a command of the workload, at the home of its session.
pub fn records_are_written()
    ensures { (load : Workload) (events : List Event) → FitsWorkload load → IsRun load events → AreAllWritten (world_of load events) }
{}

/// An open write has no record yet: each record's command is answered.
pub fn records_are_of_answered_commands()
    ensures { (load : Workload) (events : List Event) → FitsWorkload load → IsRun load events → AreCommandsAnswered (world_of load events) }
{}

/// A command writes one record: two places of a log with the same session and index are one.
pub fn commands_write_once()
    ensures { (load : Workload) (events : List Event) → FitsWorkload load → IsRun load events → IsOneForEachCommand (world_of load events) }
{}

/// A host has as many records as writes that are answered there.
pub fn records_are_answered_writes()
    ensures { (load : Workload) (events : List Event) → FitsWorkload load → IsRun load events → AreWritesAnswered (world_of load events) }
{}

/// A log has at most as many records as the workload has writes, and of each host at most as many as its sessions have.
pub fn writes_bound_logs()
    ensures { (load : Workload) (events : List Event) → FitsWorkload load → IsRun load events → (d : ℕ) → (length (log_of (world_of load events) d) ≤ writes_of load.sessions) × ((h : ℕ) → count_of (log_of (world_of load events) d) h ≤ writes_at load.sessions h) }
{}

/// Each write that is answered has its record in the log of its home.
pub fn answered_writes_have_records()
    ensures { (load : Workload) (events : List Event) → FitsWorkload load → IsRun load events → HasRecordsOfAnswered (world_of load events) }
{}

/// When all is finished, each log has a record of each write of the workload, and as many records as there are writes.
pub fn finished_logs_are_whole()
    ensures { (load : Workload) (events : List Event) → FitsWorkload load → IsRun load events → IsFinished (world_of load events) → AreLogsWhole load (world_of load events) }
{}

/// Each collected position is one of the log.
pub fn gone_is_of_the_log()
    ensures { (load : Workload) (events : List Event) → FitsWorkload load → IsRun load events → IsGoneOfLog (world_of load events) }
{}

/// A name that waits is of another host, which has it.
pub fn names_wait_elsewhere()
    ensures { (load : Workload) (events : List Event) → FitsWorkload load → IsRun load events → (d h t : ℕ) → Contains (pending_of (world_of load events) d) (h, t) → IsAwaited (world_of load events) d h t }
{}

/// Within the limits each record is in the ranges of its wire form.
pub fn records_are_valid()
    ensures { (load : Workload) (events : List Event) → FitsLimits load → IsRun load events → (d : ℕ) → All (IsValid load.dcs) (log_of (world_of load events) d) }
{}

/// Within the limits every run leaves a lawful world: all of these laws at once.
pub fn runs_are_lawful()
    ensures { (load : Workload) (events : List Event) → FitsLimits load → IsRun load events → IsLawful (world_of load events) }
{}
