//! What holds of every run. Each law is a function that does nothing: its contract is the law.

ghost use Rattle.std.specs.Prelude.{◌≡◌, ℕ, ◌≤◌, ◌++◌, ◌∷◌, List, Some};
ghost use Rattle.flstore_service.specs.declared.script.FlScript.{FlScript};
ghost use Rattle.flstore_service.specs.declared.script.FlStep.{FlStep};
ghost use Rattle.flstore_service.specs.Fits.{FitsFlScript};
ghost use Rattle.flstore_service.specs.Laws.{AreAbove, IsFilledSomewhere, all_times, once_upto, reached, head_told};
ghost use Rattle.flstore_service.specs.Running.{turn};

/// After any steps each value that was not refused stands or waits once, and no other does.
pub fn each_value_stands_or_waits_once()
    ensures { (script : FlScript) (steps : List FlStep) (n : ℕ) → all_times n (reached script steps) ≡ once_upto (reached script steps).count n }
{}

/// After any steps each value that stands is above its bound.
pub fn values_stand_above_their_bounds()
    ensures { (script : FlScript) (steps : List FlStep) → AreAbove (reached script steps) }
{}

/// Each position up to a head that is told is filled.
pub fn heads_pass_no_gap()
    ensures { (script : FlScript) (before after : List FlStep) (step : FlStep) (s p : ℕ) → FitsFlScript script → script.steps ≡ before ++ step ∷ after → head_told (turn (reached script before) step).outcome ≡ Some s → 1 ≤ p → p ≤ s → IsFilledSomewhere (turn (reached script before) step).service p }
{}
