//! What a pass knows of the world by its duties. Each law is a function that does nothing: its contract is the law.
ghost use Rattle.std.specs.Prelude.{◌≡◌, ℕ, ◌+◌, ◌*◌, ◌<◌, ◌≤◌, List, length};
ghost use Rattle.cz_base.specs.declared.limits.TheConstants.{DATACENTRES};
ghost use Rattle.abstract_log.specs.declared.command.Workload.{Workload};
ghost use Rattle.abstract_log.specs.declared.event.Event.{Event};
ghost use Rattle.abstract_log.specs.Worlds.{log_of, table_of, gone_of, standing_of};
ghost use Rattle.abstract_log.specs.Shapes.{FitsWorkload};
ghost use Rattle.abstract_log.specs.Runs.{IsRun, world_of};
ghost use Rattle.journal_lock.specs.declared.duty.Duty.{Duty};
ghost use Rattle.journal_lock.specs.declared.duty.Duty.TheVariants.{Token, Table, Session};
ghost use Rattle.journal_lock.specs.declared.duty.Position.{Position};
ghost use Rattle.journal_lock.specs.Duties.{Has, place, datacentre, has, stamped, is_inside};
ghost use Rattle.journal_lock.specs.Law.{Within};

/// Who has the duty of a session knows how far it is.
pub fn sessions_stand_still()
    ensures { (load : Workload) (ds : List Duty) (a b : List Event) (s : ℕ) → Has (Session s) ds → Within ds a b → standing_of (world_of load b) s ≡ standing_of (world_of load a) s }
{}

/// Who has the duty of a datacentre's token knows its log.
pub fn logs_stand_still()
    ensures { (load : Workload) (ds : List Duty) (a b : List Event) (d : ℕ) → Has (Token d) ds → Within ds a b → log_of (world_of load b) d ≡ log_of (world_of load a) d }
{}

/// Who has the duty of a datacentre's table knows the table and which positions were collected.
pub fn tables_stand_still()
    ensures table { (load : Workload) (ds : List Duty) (a b : List Event) (d : ℕ) → Has (Table d) ds → Within ds a b → table_of (world_of load b) d ≡ table_of (world_of load a) d }
    ensures gone { (load : Workload) (ds : List Duty) (a b : List Event) (d : ℕ) → Has (Table d) ds → Within ds a b → gone_of (world_of load b) d ≡ gone_of (world_of load a) d }
{}

/// The positions that a run stamps are those of the logs that it leaves, each once.
pub fn positions_are_stamped_once()
    ensures stamped { (load : Workload) (log : List Event) (p : Position) → FitsWorkload load → IsRun load log → p.dc < DATACENTRES → has place (place p) (stamped log) ≡ is_inside (length (log_of (world_of load log) p.dc)) p.lid }
    ensures once { (load : Workload) (log : List Event) (x : ℕ) → FitsWorkload load → IsRun load log → has place x (stamped log) ≤ 1 }
{}

/// A run stamps as many positions of a datacentre as its log has records, so a note of a length is one of a log.
pub fn stamps_are_lengths()
    ensures { (load : Workload) (log : List Event) (d : ℕ) → FitsWorkload load → IsRun load log → has datacentre d (stamped log) ≡ length (log_of (world_of load log) d) }
{}
