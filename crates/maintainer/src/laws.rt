//! What holds of every maintainer. Each law is a function that does nothing: its contract is the law.
ghost use Rattle.std.specs.Prelude.{◌≡◌, ◌⊎◌, ℕ, ◌+◌, ◌<◌, ◌≤◌, ◌==◌, if◌then◌else◌, Bool, IsSome, IsTrue, None, All};
ghost use Rattle.flstore_rounds.specs.Epochs.{EpochList, IsNextOwn, IsPrefix, IsSettled};
ghost use Rattle.flstore_rounds.specs.Heads.{IsTrueMark};
ghost use Rattle.maintainer.specs.Maintainers.{AreRising, IsFilled, IsMark, IsOwn, MaintainerState, OwnsAll, collected, learned, mark_of, placed, plain, times, times_filled, value_at};

/// Once a value is placed it stands at its position, and at every other position stands what stood
/// there.
pub fn placing_adds_one_value<T>()
    ensures value { (m : MaintainerState T) (p q : ℕ) (value : T) → ¬ IsFilled m p → value_at q (placed m p value).entries ≡ (if p == q then Some value else value_at q m.entries) }
    ensures filled { (m : MaintainerState T) (p q : ℕ) (value : T) → times_filled q (placed m p value) ≡ times_filled q m + (if p == q then 1 else 0) }
{}

/// A maintainer has one mark, and `mark_of` is it.
pub fn marks_are_unique<T>()
    ensures mark { (m : MaintainerState T) → IsMark m (mark_of m) }
    ensures unique { (m : MaintainerState T) (k : ℕ) → IsMark m k → k ≡ mark_of m }
{}

/// Each own position below the mark is filled, and the next own one from the mark on is not.
pub fn marks_end_at_a_gap<T>()
    ensures below { (m : MaintainerState T) (p : ℕ) → IsOwn m p → p < mark_of m → IsFilled m p }
    ensures gap { (m : MaintainerState T) (q : ℕ) → IsNextOwn m.epochs m.number (mark_of m) q → ¬ IsFilled m q }
{}

/// Placing lowers no mark.
pub fn placing_lowers_no_mark<T>()
    ensures { (m : MaintainerState T) (p : ℕ) (value : T) → mark_of m ≤ mark_of (placed m p value) }
{}

/// A longer epoch list leaves the mark, where each epoch that it adds starts above all that is filled.
pub fn learning_keeps_the_mark<T>()
    ensures { (m : MaintainerState T) (e : EpochList) → IsPrefix m.epochs e ⊎ IsPrefix e m.epochs → ((p : ℕ) → IsFilled m p → IsSettled e m.epochs p) → mark_of (learned m e) ≡ mark_of m }
{}

/// Collecting lets the value at a position go, which is gone from then on, and at every other position stands
/// what stood there. Where positions rise and the value was there, as much is filled as before.
pub fn collecting_lets_one_value_go<T>()
    ensures value { (m : MaintainerState T) (p q : ℕ) → value_at q (collected m p).entries ≡ (if p == q then None else value_at q m.entries) }
    ensures gone { (m : MaintainerState T) (p q : ℕ) → times q (collected m p).gone ≡ times q m.gone + (if p == q then 1 else 0) }
    ensures filled { (m : MaintainerState T) (p q : ℕ) → AreRising m.entries → IsSome (value_at p m.entries) → times_filled q (collected m p) ≡ times_filled q m }
{}

/// Collecting what is filled keeps the mark.
pub fn collecting_keeps_the_mark<T>()
    ensures { (m : MaintainerState T) (p : ℕ) → IsFilled m p → mark_of (collected m p) ≡ mark_of m }
{}

/// Spare places stand apart: without them a maintainer has the same values, positions and mark, and becomes the
/// same where a value is placed or collected and where epochs are learned.
pub fn spare_places_stand_apart<T>()
    ensures placed { (m : MaintainerState T) (p : ℕ) (value : T) → plain (placed m p value) ≡ placed (plain m) p value }
    ensures collected { (m : MaintainerState T) (p : ℕ) → plain (collected m p) ≡ collected (plain m) p }
    ensures learned { (m : MaintainerState T) (e : EpochList) → plain (learned m e) ≡ learned (plain m) e }
    ensures mark { (m : MaintainerState T) → mark_of (plain m) ≡ mark_of m }
    ensures filled { (m : MaintainerState T) (p : ℕ) → times_filled p (plain m) ≡ times_filled p m }
    ensures value { (m : MaintainerState T) (p : ℕ) → value_at p (plain m).entries ≡ value_at p m.entries }
{}

/// A maintainer's own mark is true of the whole epoch list and the placed positions, which are given
/// by a test.
pub fn own_marks_are_true<T>()
    ensures { (t : EpochList) (m : MaintainerState T) (placed : ℕ → Bool) → All (λ n. 1 ≤ n.start) t.list → OwnsAll t m → ((p : ℕ) → IsFilled m p → IsTrue (placed p)) → IsTrueMark t m.epochs (λ p. IsTrue (placed p)) m.number (mark_of m) }
{}
