//! What holds of every epoch list and of every true pair. Each law is a function that does nothing: its
//! contract is the law. The placed positions are given by a test.
ghost use Rattle.std.specs.Prelude.{◌≡◌, ℕ, ◌<◌, ◌≤◌, ◌^◌, [], ◌∷◌, Bool, IsTrue, All, length};
ghost use Rattle.flstore_rounds.specs.declared.epochs.Epoch.{Epoch};
ghost use Rattle.flstore_rounds.specs.Epochs.{EpochList, IsEpochList, IsPrefix, IsSettled, epoch_at, last_epoch, later_than, owner, with_epoch};
ghost use Rattle.flstore_rounds.specs.Heads.{IsBelowMark, IsHead, IsTrueMark, IsTrueOf, Pair, blank, head, joined, mark_at, single, with_own};
ghost use Rattle.cz_base.specs.declared.limits.TheConstants.{MEMBERS, NUMBERS_END, ROUND};

/// A list deals a position as a longer one does, where each epoch that it lacks starts above it.
pub fn settled_positions_keep_their_owner()
    ensures { (e t : EpochList) (p : ℕ) → IsPrefix e t → IsSettled t e p → owner e p ≡ owner t p }
{}

/// Where starts rise, what is at most the next start is at most each later one.
pub fn the_next_start_is_the_least()
    ensures { (e t : EpochList) (mark : ℕ) → IsEpochList t → (length e.list < length t.list → mark ≤ (epoch_at t.list (length e.list)).start) → All (λ n. mark ≤ n.start) (later_than e t) }
{}

/// One epoch from the first position on is a list, and a list stays one where an epoch is added that starts
/// above the last one and has more members.
pub fn later_epochs_keep_lists()
    ensures first { (round members : ℕ) → 1 ≤ round → round ≤ ROUND → 1 ≤ members → members ≤ MEMBERS → IsEpochList (record { round = round; list = record { start = 1; members = members } ∷ [] }) }
    ensures more { (t : EpochList) (epoch : Epoch) → IsEpochList t → (last_epoch t).start < epoch.start → (last_epoch t).members < epoch.members → epoch.start < NUMBERS_END → epoch.members ≤ MEMBERS → IsEpochList (with_epoch t epoch) }
{}

/// A pair has one head, `head` is it, and no position above it has only positions below marks up to it.
pub fn heads_are_unique()
    ensures head { (v : Pair) → IsHead v (head v) }
    ensures unique { (v : Pair) (s : ℕ) → IsHead v s → s ≡ head v }
    ensures greatest { (v : Pair) (s k : ℕ) → IsHead v s → ((p : ℕ) → 1 ≤ p → p ≤ k → IsBelowMark v p) → k ≤ s }
{}

/// Where nothing is marked, a list that has begun is true.
pub fn blank_pairs_are_true()
    ensures { (t e : EpochList) (placed : ℕ → Bool) → IsPrefix e t → All (λ n. 1 ≤ n.start) t.list → IsTrueOf t placed (blank e) }
{}

/// A pair stays true where more positions are placed.
pub fn placing_keeps_truth()
    ensures { (t : EpochList) (placed more : ℕ → Bool) (v : Pair) → ((p : ℕ) → IsTrue (placed p) → IsTrue (more p)) → IsTrueOf t placed v → IsTrueOf t more v }
{}

/// A pair stays true where an epoch is added that starts above all placed positions.
pub fn later_epochs_keep_truth()
    ensures { (t : EpochList) (placed : ℕ → Bool) (epoch : Epoch) (v : Pair) → 1 ≤ epoch.start → ((p : ℕ) → IsTrue (placed p) → p < epoch.start) → IsTrueOf t placed v → IsTrueOf (with_epoch t epoch) placed v }
{}

/// Two true pairs together, the longer list with the greater marks, are true.
pub fn joining_keeps_truth()
    ensures { (t : EpochList) (placed : ℕ → Bool) (v u : Pair) → IsTrueOf t placed v → IsTrueOf t placed u → IsTrueOf t placed (joined v u) }
{}

/// A true pair stays true where a member's own list and mark are taken in, as they are true.
pub fn owning_keeps_truth()
    ensures { (t e : EpochList) (placed : ℕ → Bool) (v : Pair) (m mark : ℕ) → IsTrueOf t placed v → IsTrueMark t e (λ p. IsTrue (placed p)) m mark → IsTrueOf t placed (with_own v e m mark) }
{}

/// One member's true mark alone makes a true pair.
pub fn single_marks_are_true()
    ensures { (t e : EpochList) (placed : ℕ → Bool) (m mark : ℕ) → IsTrueMark t e (λ p. IsTrue (placed p)) m mark → IsTrueOf t placed (single e m mark) }
{}

/// Each position up to the head of a true pair is placed.
pub fn heads_pass_no_gap()
    ensures { (t : EpochList) (placed : ℕ → Bool) (v : Pair) (p : ℕ) → IsTrueOf t placed v → 1 ≤ p → p ≤ head v → IsTrue (placed p) }
{}

/// Joining another pair lowers no head.
pub fn joining_lowers_no_head()
    ensures { (t : EpochList) (placed : ℕ → Bool) (v u : Pair) → IsTrueOf t placed v → IsPrefix u.epochs t → head v ≤ head (joined v u) }
{}

/// Taking in a member's list and mark lowers no head.
pub fn owning_lowers_no_head()
    ensures { (t e : EpochList) (placed : ℕ → Bool) (v : Pair) (m mark : ℕ) → IsTrueOf t placed v → IsPrefix e t → head v ≤ head (with_own v e m mark) }
{}

/// Raising marks lowers no head.
pub fn raising_lowers_no_head()
    ensures { (v u : Pair) → u.epochs ≡ v.epochs → ((m : ℕ) → mark_at v m ≤ mark_at u m) → head v ≤ head u }
{}
