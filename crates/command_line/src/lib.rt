//! The words of the command line: from the texts that follow the program's own name to the task that they ask for.
//!
//! **Model.** The words are a list of texts, each the list of its bytes. `clap` reads them as one simple command with
//! a mode, a number and a form; `specs/Command` is that command, and what it takes and finds are `are_taken` and
//! `found_in`.
//!
//! **Theorem.** The contract of `read_words` is what the program above rests on: it answers exactly the task that
//! `task_of` gives, and says that the words are not valid only where they ask for none. Want of memory is a fault of
//! its own. The laws in `laws` show `task_of` in the subject's words: `tasks_are_as_asked` says for all words what asks
//! for a task, and the others what the words in use ask for.
//!
//! **Decided.** One command with a required mode stands for the two subcommands, so that words after `--`, `--help`
//! and options before the mode need no rule of their own: each of them asks for nothing or for the same task. A seed
//! is the decimal text of a number of 64 bits, with no sign and no needless zero, so that a task has one text.
//!
//! **Tests.** None here: the laws compute on the words themselves. `test_program` runs whole command lines.
#![tactic(auto)]

mod arguments;
mod laws;
mod task;

pub use arguments::read_words;
pub use laws::{
    flstore_stands_alone, gen_takes_a_seed, gen_takes_every_seed, gen_takes_no_more,
    lone_words_ask_for_a_script, other_words_ask_for_nothing, plain_words_stand_for_themselves,
    replay_takes_a_form, replay_takes_no_more, replay_writes_logs, tasks_are_as_asked,
    words_stand_after_dashes,
};
pub use task::{Form, Task, WordsFault};
