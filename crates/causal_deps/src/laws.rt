//! What readiness on counts is on logs. Each law is a function that does nothing: its contract is the law.
ghost use Rattle.std.specs.Prelude.{◌≡◌, ℕ, ◌<◌, ◌↔◌, List, length, slice_index};
ghost use Rattle.causal_deps.specs.declared.record.Record.{Record};
ghost use Rattle.causal_deps.specs.declared.record.Draft.{Draft};
ghost use Rattle.causal_deps.specs.Logs.{count_of, AreCountsOf, IsReady, IsReadyBy, IsDraftReadyBy};

/// A record is ready on counts exactly where it may stand next in a log that has these counts.
pub fn ready_is_by_log()
    ensures { (log : List Record) (counts : List ℕ) (r : Record) → AreCountsOf log counts → r.host < length counts → length r.dep ≡ length counts → ((IsReadyBy (slice_index counts) r) ↔ (IsReady log r)) }
{}

/// A draft is ready on counts exactly where a log that has these counts has all that it depends on.
pub fn draft_ready_is_by_log()
    ensures { (log : List Record) (counts : List ℕ) (d : Draft) → AreCountsOf log counts → length d.dep ≡ length counts → ((IsDraftReadyBy (slice_index counts) d) ↔ (IsDraftReadyBy (count_of log) d)) }
{}
