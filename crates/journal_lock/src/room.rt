//! Which journal's lock it is, for types that have to agree on it.
use std::marker::Brand;

/// Which lock of a journal it is, for contracts alone: each call of a program picks it. What lies behind another lock is
/// known by its type's invariant alone. So a type that keeps a pass beside its state is generic in this trait, and
/// its invariant says that the pass is of this lock.
pub trait Room {
    ghost use Rattle.atomic_table.specs.Seated.{TableId};
    ghost use Rattle.abstract_log.specs.declared.command.Workload.{Workload};

    ghost table: { TableId };

    ghost workload: { Workload };
}

impl Room for Brand {
    ghost use Rattle.std.specs.Prelude.{[]};
    ghost use Rattle.journal_lock.specs.Law.{no_load};

    ghost table = { record { words = 0; slots = 0; views_name = 0; atom = 0; block = 0; offset = 0; slot_names = [] } };

    ghost workload = { no_load };
}
