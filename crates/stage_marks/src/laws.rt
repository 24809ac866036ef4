//! When the filters take a grown map. The law is a function that does nothing: its contract is the law.
ghost use Rattle.std.specs.Prelude.{◌≡◌, ℕ, ◌≤◌, List, length, All, Some};
ghost use Rattle.toid_filter.specs.declared.filter.Accept.{Accept};
ghost use Rattle.toid_filter.specs.declared.filter.Accept.TheVariants.{Accepted};
ghost use Rattle.stage_marks.specs.declared.marks.NextMark.TheVariants.{Activate};
ghost use Rattle.stage_marks.specs.Marks.{after_answers, new_announcement, next_told};

/// After any answers to an announcement the filters are to take the grown map only where all answered that they accept it, and no
/// filter is left to be asked.
pub fn activation_comes_after_all_accepted()
    ensures { (host mark filters : ℕ) (answers : List Accept) → next_told (after_answers (Some (new_announcement host mark)) answers) filters ≡ Activate
        → All (λ answer. answer ≡ Accepted) answers × (filters ≤ length answers) }
{}
