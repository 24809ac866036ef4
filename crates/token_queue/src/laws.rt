//! What holds of every drain, and of every stamping. Each law is a function that does nothing: its contract is the law.
ghost use Rattle.std.specs.Prelude.{◌≡◌, ℕ, ◌+◌, ◌<◌, ◌≤◌, ◌↔◌, ◌⊎◌, List, [], ◌∷◌, ◌++◌, length, slice_index_or, Some, None, All, IsTrue, sum_by};
ghost use Rattle.std.specs.List.Sorted.{IsPermutation};
ghost use Rattle.causal_deps.specs.declared.record.Record.{Record};
ghost use Rattle.causal_deps.specs.declared.record.Item.{Item};
ghost use Rattle.causal_deps.specs.Logs.{count_of, AreCountsOf, IsCausal};
ghost use Rattle.flstore_rounds.specs.Epochs.{EpochList, owner};
ghost use Rattle.token_queue.specs.declared.entry.Entry.{Entry};
ghost use Rattle.token_queue.specs.declared.entry.Stamp.{Stamp};
ghost use Rattle.token_queue.specs.Items.{AreSomeOf, FitsItem, IsItemReadyBy, is_ready_by};
ghost use Rattle.token_queue.specs.Drain.{AreSteps, Drained, all_deferred, counts_with, drain, drain_by};
ghost use Rattle.token_queue.specs.Queues.{QueueState, Stamps, TokenState, all_of, dealt, entries_from, entry_after, next_out, outbox_for, owned_by, stamp_of, stamped_queue, times_among, token_after, waiting, with_entry, with_items, without_outbox};

/// The test of readiness finds exactly the items that may stand next.
pub fn readiness_is_tested()
    ensures { (counts : ℕ → ℕ) (item : Item) → IsTrue (is_ready_by counts item) ↔ IsItemReadyBy counts item }
{}

/// What is stamped is a sequence of steps, each ready in the log so far.
pub fn stampings_are_steps()
    ensures { (d : ℕ) (log : List Record) (items : List Item) → AreSteps d log (drain d log items).stamped (drain d log items).records }
{}

/// A log in causal order stays so.
pub fn drained_logs_are_causal()
    ensures { (d : ℕ) (log : List Record) (items : List Item) → IsCausal log → IsCausal (log ++ (drain d log items).records) }
{}

/// Nothing is lost or made: the items are those stamped and those deferred, each as often as before, and those
/// deferred stand in their order.
pub fn drains_lose_nothing()
    ensures permutation { (d : ℕ) (log : List Record) (items : List Item) → IsPermutation items ((drain d log items).stamped ++ (drain d log items).deferred) }
    ensures sums { (d : ℕ) (log : List Record) (items : List Item) (f : Item → ℕ) → sum_by f items ≡ sum_by f (drain d log items).stamped + sum_by f (drain d log items).deferred }
    ensures order { (d : ℕ) (log : List Record) (items : List Item) → AreSomeOf (drain d log items).deferred items }
{}

/// The counts of the log after.
pub fn drained_records_are_counted()
    ensures { (d : ℕ) (log : List Record) (counts : List ℕ) (items : List Item) → d < length counts → AreCountsOf log counts → All (FitsItem (length counts)) items
        → AreCountsOf (log ++ (drain d log items).records) (counts_with counts (drain d log items).records) }
{}

/// A drained list has no ready item.
pub fn no_deferred_item_is_ready()
    ensures { (d : ℕ) (log : List Record) (items : List Item) → All (λ item. ¬ IsItemReadyBy (count_of (log ++ (drain d log items).records)) item) (drain d log items).deferred }
{}

/// Draining twice is draining once.
pub fn drains_are_whole()
    ensures { (d : ℕ) (log : List Record) (items : List Item) → drain d (log ++ (drain d log items).records) (drain d log items).deferred ≡ all_deferred (drain d log items).deferred }
{}

/// The counts of a log are enough to drain.
pub fn counts_are_enough()
    ensures { (d : ℕ) (log : List Record) (counts : List ℕ) (items : List Item) → d < length counts → AreCountsOf log counts → All (FitsItem (length counts)) items
        → drain_by d counts items ≡ drain d log items }
{}

/// A stamping goes by single steps: the queue's items join those of the token; the first item that is ready becomes an
/// entry at its owner and leaves a token, and the rest is the stamping of that token; where none is ready, it ends.
pub fn stampings_go_by_steps()
    ensures joined { (q new : QueueState) (t : TokenState) (stamps : List Stamp) → Stamps q t (drain_by t.dc t.counts (t.deferred ++ q.items)) stamps new
        ↔ Stamps (record q { items = [] }) (with_items t q.items) (all_of (with_items t q.items)) stamps new }
    ensures step { (q new : QueueState) (t : TokenState) (found : Item × List Item) (stamps : List Stamp) → next_out t ≡ Some found
        → Stamps (with_entry t.epochs (entry_after t found) q) (token_after t found) (all_of (token_after t found)) stamps new
        → Stamps q t (all_of t) (stamp_of (entry_after t found) ∷ stamps) new }
    ensures end { (q : QueueState) (t : TokenState) → next_out t ≡ None → Stamps q t (all_of t) [] (record q { items = []; epochs = t.epochs; token = Some t }) }
{}

/// Dealing loses nothing: each outbox gains the entries that its member owns, in order; and any number over entries sums
/// up, over all outboxes, to what it was and what it is of the entries.
pub fn dealing_loses_nothing()
    ensures each { (epochs : EpochList) (entries : List Entry) (outboxes : List (List Entry)) (m : ℕ) → m < length outboxes
        → slice_index_or (dealt epochs entries 0 outboxes) m [] ≡ slice_index_or outboxes m [] ++ owned_by epochs m entries }
    ensures len { (epochs : EpochList) (entries : List Entry) (outboxes : List (List Entry)) → length (dealt epochs entries 0 outboxes) ≡ length outboxes }
    ensures sums { (epochs : EpochList) (entries : List Entry) (outboxes : List (List Entry)) (f : Entry → ℕ) → All (λ e. owner epochs e.lid < length outboxes) entries
        → sum_by (λ outbox. sum_by f outbox) (dealt epochs entries 0 outboxes) ≡ sum_by (λ outbox. sum_by f outbox) outboxes + sum_by f entries }
{}

/// A position waits as often as entries at it were dealt and not taken. Of the positions a stamping deals those behind
/// the last one, each once, as many as it stamps.
pub fn positions_wait_once()
    ensures taken { (p m : ℕ) (q : QueueState) → waiting p (without_outbox q m) + times_among p (outbox_for q m) ≡ waiting p q }
    ensures stamped { (p : ℕ) (q : QueueState) (t : TokenState) (all : Drained) → All (λ e. owner t.epochs e.lid < length q.outboxes) (entries_from t.last all.records)
        → waiting p (stamped_queue q t all) ≡ waiting p q + times_among p (entries_from t.last all.records) }
    ensures once { (p last : ℕ) (records : List Record) → last < p → p ≤ last + length records → times_among p (entries_from last records) ≡ 1 }
    ensures other { (p last : ℕ) (records : List Record) → (p ≤ last) ⊎ (last + length records < p) → times_among p (entries_from last records) ≡ 0 }
{}
