//! Reading the words: the command finds its arguments among them, and these give the task.

ghost use Rattle.std.specs.Prelude.{◌≡◌, ◌≢◌, ◌⊎◌, ◌<◌, Some, None, true, false, IfOk, IfErr, IsTrue, length, slice_index};
ghost use Rattle.clap.specs.Words.{app_of, found_of, kind_of, rows_of};
ghost use Rattle.command_line.specs.Command.{command};
ghost use Rattle.command_line.specs.Words.{are_taken, flstore_of, found_in, form_asked, generate_of, replay_of, seed_of, task_from, task_of, text_behind};
ghost use Rattle.command_line.specs.declared.task.WordsFault.TheVariants.{NotValid};

use crate::task::{Form, Task, WordsFault};
use clap::error::ErrorKind;
use clap::{Arg, ArgMatches, Command};
use cz_base::Word;
use std::alloc::{AllocError, Global};

/// The task that the words ask for: those of the command line, without the program's own name.
///
/// `NotValid` says that they ask for none, `NoMemory` that there was no memory to read them.
pub fn read_words(alloc: Global, words: &[Word]) -> Result<Task, WordsFault>
    ensures task { IfOk result (λ task. task_of words.now ≡ Some task) }
    ensures refused { IfErr result (λ fault. fault ≡ NotValid → task_of words.now ≡ None) }
{
    let matches = find_arguments(alloc, words)?;
    let mode = matches.get_str("mode");
    let number = matches.get_str("number");
    let form = matches.get_str("form");
    read_task(mode, number, form).ok_or(WordsFault::NotValid)
}

// What stands for the arguments of the command.
fn find_arguments<'a>(alloc: Global, words: &'a [Word]) -> Result<ArgMatches<'a>, WordsFault>
    ensures taken { IfOk result (λ matches. are_taken words.now ≡ true) }
    ensures found { IfOk result (λ matches. rows_of (found_of matches) ≡ found_in words.now) }
    ensures refused { IfErr result (λ fault. fault ≡ NotValid → are_taken words.now ≡ false) }
{
    let command = new_command(alloc)?;
    match command.try_get_matches_from(words) {
        Ok(matches) => Ok(matches),
        Err(error) => match error.kind() {
            ErrorKind::OutOfMemory => Err(WordsFault::NoMemory),
            _ => Err(WordsFault::NotValid),
        },
    }
}

// The command: a mode, which is required, a number and the option of a form.
fn new_command<'a>(alloc: Global) -> Result<Command<'a>, AllocError>
    ensures { IfOk result (λ made. app_of made ≡ command) }
{
    let mode = Arg::new(alloc, "mode").required(true);
    let number = Arg::new(alloc, "number");
    let form = Arg::new(alloc, "form").long("form");
    let named = Command::new(alloc, "chariots").no_binary_name(true);
    named.arg(mode)?.arg(number)?.arg(form)
}

// The task of what stands for the arguments.
fn read_task(mode: Option<&str>, number: Option<&str>, form: Option<&str>) -> Option<Task>
    ensures { result ≡ task_from (text_behind mode.entry) (text_behind number.entry) (text_behind form.entry) }
{
    match mode {
        Some("replay") => read_replay(number, form),
        Some("gen") => read_generate(number, form),
        Some("flstore") => read_flstore(number, form),
        _ => None,
    }
}

// The task of a replay, which takes no number.
fn read_replay(number: Option<&str>, form: Option<&str>) -> Option<Task>
    ensures { result ≡ replay_of (text_behind number.entry) (text_behind form.entry) }
{
    if number.is_some() {
        return None;
    }
    let form = read_form(form)?;
    Some(Task::Replay { form })
}

// The task of a generated script, which needs a seed and takes no form.
fn read_generate(number: Option<&str>, form: Option<&str>) -> Option<Task>
    ensures { result ≡ generate_of (text_behind number.entry) (text_behind form.entry) }
{
    if form.is_some() {
        return None;
    }
    let seed = read_seed(number?)?;
    Some(Task::Generate { seed })
}

// The task of a log by itself, which takes neither a number nor a form.
fn read_flstore(number: Option<&str>, form: Option<&str>) -> Option<Task>
    ensures { result ≡ flstore_of (text_behind number.entry) (text_behind form.entry) }
{
    if number.is_some() || form.is_some() {
        return None;
    }
    Some(Task::FlStore)
}

// The form that is asked for: the logs, if none is named.
fn read_form(name: Option<&str>) -> Option<Form>
    ensures { result ≡ form_asked (text_behind name.entry) }
{
    match name {
        None => Some(Form::Logs),
        Some("full") => Some(Form::Full),
        Some("logs") => Some(Form::Logs),
        Some("summary") => Some(Form::Summary),
        Some("json") => Some(Form::Json),
        _ => None,
    }
}

// The number whose decimal text this is.
fn read_seed(text: &str) -> Option<u64>
    ensures { result ≡ seed_of text.now }
{
    if !begins_a_number(text.as_bytes()) {
        return None;
    }
    text.parse::<u64>().ok()
}

// Whether neither a sign nor a needless zero stands first.
fn begins_a_number(text: &[u8]) -> bool
    ensures sign { IsTrue result → slice_index text.now 0 ≢ 43 }
    ensures zero { IsTrue result → slice_index text.now 0 ≡ 48 → length text.now ≡ 1 }
    ensures other { result ≡ false → (slice_index text.now 0 ≡ 43) ⊎ ((slice_index text.now 0 ≡ 48) × (1 < length text.now)) }
{
    match text {
        [b'+', ..] => false,
        [b'0', _, ..] => false,
        _ => true,
    }
}
