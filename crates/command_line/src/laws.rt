//! What the words in use ask for. Each law is a function that does nothing: its contract is the law.

ghost use Rattle.std.specs.Prelude.{◌≡◌, ◌≢◌, ◌<◌, ◌^◌, [], ◌∷◌, ◌++◌, List, ℕ, Some, None, true, false, codes};
ghost use Rattle.std.specs.Fmt.{decimal};
ghost use Rattle.command_line.specs.Words.{are_taken, begins_with_hyphen, form_name, task_in_mode, task_of, text_of};
ghost use Rattle.command_line.specs.Asked.{IsAskedBy};
ghost use Rattle.command_line.specs.declared.task.Form.{Form};
ghost use Rattle.command_line.specs.declared.task.Form.TheVariants.{Logs};
ghost use Rattle.command_line.specs.declared.task.Task.{Task};
ghost use Rattle.command_line.specs.declared.task.Task.TheVariants.{Replay, Generate, FlStore};

/// `replay` is a replay, of which the logs are written where no form is named.
pub fn replay_writes_logs()
    ensures alone { task_of (codes "replay" ∷ []) ≡ Some (Replay Logs) }
    ensures dashes { task_of (codes "replay" ∷ codes "--" ∷ []) ≡ Some (Replay Logs) }
{}

/// The form of a replay stands before the mode or after it, as one word or as two.
pub fn replay_takes_a_form()
    ensures after { (form : Form) → task_of (codes "replay" ∷ codes "--form" ∷ form_name form ∷ []) ≡ Some (Replay form) }
    ensures joined { (form : Form) → task_of (codes "replay" ∷ (codes "--form=" ++ form_name form) ∷ []) ≡ Some (Replay form) }
    ensures before { (form : Form) → task_of (codes "--form" ∷ form_name form ∷ codes "replay" ∷ []) ≡ Some (Replay form) }
    ensures joined_before { (form : Form) → task_of ((codes "--form=" ++ form_name form) ∷ codes "replay" ∷ []) ≡ Some (Replay form) }
{}

/// A replay takes one form, which has to be named and known, and no number.
pub fn replay_takes_no_more()
    ensures not_named { task_of (codes "replay" ∷ codes "--form" ∷ []) ≡ None }
    ensures twice { task_of (codes "replay" ∷ codes "--form" ∷ codes "full" ∷ codes "--form" ∷ codes "full" ∷ []) ≡ None }
    ensures unknown { task_of (codes "replay" ∷ codes "--form" ∷ codes "x" ∷ []) ≡ None }
    ensures number { task_of (codes "replay" ∷ codes "3" ∷ []) ≡ None }
{}

/// `gen` takes a seed from 0 to the greatest number of 64 bits.
pub fn gen_takes_a_seed()
    ensures least { task_of (codes "gen" ∷ codes "0" ∷ []) ≡ Some (Generate 0) }
    ensures seven { task_of (codes "gen" ∷ codes "7" ∷ []) ≡ Some (Generate 7) }
    ensures dashes { task_of (codes "gen" ∷ codes "--" ∷ codes "7" ∷ []) ≡ Some (Generate 7) }
    ensures greatest { task_of (codes "gen" ∷ codes "18446744073709551615" ∷ []) ≡ Some (Generate 18446744073709551615) }
{}

/// `gen` needs a seed, without a leading zero and within its range, and takes no form.
pub fn gen_takes_no_more()
    ensures alone { task_of (codes "gen" ∷ []) ≡ None }
    ensures leading_zero { task_of (codes "gen" ∷ codes "07" ∷ []) ≡ None }
    ensures too_large { task_of (codes "gen" ∷ codes "18446744073709551616" ∷ []) ≡ None }
    ensures form { task_of (codes "gen" ∷ codes "7" ∷ codes "--form" ∷ codes "json" ∷ []) ≡ None }
{}

/// `flstore` is the run of a log by itself, which takes neither a number nor a form.
pub fn flstore_stands_alone()
    ensures alone { task_of (codes "flstore" ∷ []) ≡ Some FlStore }
    ensures dashes { task_of (codes "flstore" ∷ codes "--" ∷ []) ≡ Some FlStore }
    ensures number { task_of (codes "flstore" ∷ codes "3" ∷ []) ≡ None }
    ensures form { (form : Form) → task_of (codes "flstore" ∷ codes "--form" ∷ form_name form ∷ []) ≡ None }
    ensures form_before { (form : Form) → task_of ((codes "--form=" ++ form_name form) ∷ codes "flstore" ∷ []) ≡ None }
{}

/// No words, an unknown mode and requests for help or the version ask for nothing.
pub fn other_words_ask_for_nothing()
    ensures none { task_of [] ≡ None }
    ensures unknown { task_of (codes "fly" ∷ []) ≡ None }
    ensures help { task_of (codes "--help" ∷ []) ≡ None }
    ensures help_beside { task_of (codes "replay" ∷ codes "--help" ∷ []) ≡ None }
    ensures version { task_of (codes "--version" ∷ []) ≡ None }
{}

/// After `--` all words are taken as they are: a mode and then a number, and no more.
pub fn words_stand_after_dashes()
    ensures mode { (mode : List ℕ) → task_of (codes "--" ∷ mode ∷ []) ≡ task_in_mode mode None None }
    ensures number { (mode number : List ℕ) → task_of (codes "--" ∷ mode ∷ number ∷ []) ≡ task_in_mode mode (Some number) None }
    ensures more { (mode number next : List ℕ) (more : List (List ℕ)) → task_of (codes "--" ∷ mode ∷ number ∷ next ∷ more) ≡ None }
    ensures form { (name mode : List ℕ) → task_of ((codes "--form=" ++ name) ∷ codes "--" ∷ mode ∷ []) ≡ task_in_mode mode None (Some name) }
{}

/// Words that begin with no hyphen are taken as they are: a mode and then a number, and no more.
pub fn plain_words_stand_for_themselves()
    ensures mode { (mode : List ℕ) → begins_with_hyphen mode ≡ false → task_of (mode ∷ []) ≡ task_in_mode mode None None }
    ensures number { (mode number : List ℕ) → begins_with_hyphen mode ≡ false → begins_with_hyphen number ≡ false → task_of (mode ∷ number ∷ []) ≡ task_in_mode mode (Some number) None }
    ensures more { (mode number next : List ℕ) (more : List (List ℕ)) → begins_with_hyphen mode ≡ false → begins_with_hyphen number ≡ false → begins_with_hyphen next ≡ false → task_of (mode ∷ number ∷ next ∷ more) ≡ None }
{}

/// Of all single words only `replay` and `flstore` ask for anything.
pub fn lone_words_ask_for_a_script()
    ensures { (word : List ℕ) → word ≢ codes "replay" → word ≢ codes "flstore" → task_of (word ∷ []) ≡ None }
{}

/// `gen` with the decimal text of any number of 64 bits is the task with that seed.
pub fn gen_takes_every_seed()
    ensures { (seed : ℕ) → seed < 2 ^ 64 → task_of (codes "gen" ∷ decimal seed ∷ []) ≡ Some (Generate seed) }
{}

/// Words ask for a task exactly where the command takes them and what it finds among them asks for it.
pub fn tasks_are_as_asked()
    ensures asked { (words : List (List ℕ)) (task : Task) → task_of words ≡ Some task → (are_taken words ≡ true) × IsAskedBy task (text_of (codes "mode") words) (text_of (codes "number") words) (text_of (codes "form") words) }
    ensures task { (words : List (List ℕ)) (task : Task) → are_taken words ≡ true → IsAskedBy task (text_of (codes "mode") words) (text_of (codes "number") words) (text_of (codes "form") words) → task_of words ≡ Some task }
{}
