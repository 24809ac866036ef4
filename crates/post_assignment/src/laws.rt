//! What holds of every appender. Each law is a function that does nothing: its contract is the law.

ghost use Rattle.std.specs.Prelude.{◌≡◌, ℕ, ◌+◌, ◌<◌, ◌≤◌, if◌then◌else◌, Bool, List, Some};
ghost use Rattle.post_assignment.specs.Waiting.{first_below};
ghost use Rattle.post_assignment.specs.Appending.{AppenderState, IsFirst, StandsAbove, appended, kept, next_lid, times_of};
ghost use Rattle.post_assignment.specs.declared.wait_list.Waiting.{Waiting};

/// Of the values that wait with a bound below a position, the one that came first goes in there: each before it has a
/// bound that is not below.
pub fn the_first_to_come_goes_in<T>()
    ensures { (lid : ℕ) (ws : List (Waiting T)) (w : Waiting T) → first_below lid ws ≡ Some w → IsFirst lid ws w }
{}

/// Each value stands or waits as often as before, but for the one that came, which does so once more.
pub fn appends_lose_nothing<T>()
    ensures appended { (test : T → Bool) (s : AppenderState T) (value : T) → times_of test (appended s value).state ≡ times_of test s + (if test value then 1 else 0) }
    ensures kept { (test : T → Bool) (s : AppenderState T) (bound : ℕ) (value : T) → times_of test (kept s bound value) ≡ times_of test s + (if test value then 1 else 0) }
{}

/// Where values know their bounds by a rank, each that stands is above its own, also those that had waited.
pub fn values_stand_above_their_bounds<T>()
    ensures appended { (rank : T → ℕ) (s : AppenderState T) (value : T) → StandsAbove rank s → rank value < next_lid s.maintainer → StandsAbove rank (appended s value).state }
    ensures kept { (rank : T → ℕ) (s : AppenderState T) (bound : ℕ) (value : T) → StandsAbove rank s → rank value ≤ bound → StandsAbove rank (kept s bound value) }
{}
