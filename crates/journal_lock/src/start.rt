//! The words of the table at the beginning.
ghost use Rattle.std.specs.Prelude.{◌≡◌, ℕ, ◌<◌, ◌≤◌, All, slice_index, vec_len, IfOk};
ghost use Rattle.cz_base.specs.declared.limits.TheConstants.{MEMBERS};
ghost use Rattle.journal_lock.specs.declared.words.TheConstants.{WORDS};
ghost use Rattle.journal_lock.specs.Start.{first_word};

use crate::words::{EPOCHS, MARKS, WORDS, to_word};
use cz_base::NoMemory;
use cz_base::limits::MEMBERS;
use flstore_rounds::Epoch;
use std::alloc::Global;

/// The words of a new lock, whose datacentres have so many maintainers: marks of 1, and of each datacentre the epoch
/// from the first position on.
pub(crate) fn first_words(alloc: Global, maintainers: &[u32]) -> Result<Vec<u64>, NoMemory>
    requires { All (λ n. (1 ≤ n) × (n ≤ MEMBERS)) maintainers.now }
    ensures len { IfOk result (λ words. vec_len words ≡ WORDS) }
    ensures words { IfOk result (λ words. (w : ℕ) → w < WORDS → slice_index words.items w ≡ first_word maintainers.now w) }
{
    let mut words = Vec::with_capacity(alloc, WORDS)?;
    for word in 0..WORDS {
        words.push_reserved(word_at_first(maintainers, word));
    }
    Ok(words)
}

// What a word holds at the beginning.
fn word_at_first(maintainers: &[u32], word: usize) -> u64
    requires { All (λ n. (1 ≤ n) × (n ≤ MEMBERS)) maintainers.now }
    ensures { result ≡ first_word maintainers.now word }
{
    if word < MARKS {
        return 0;
    }
    if word < EPOCHS {
        return 1;
    }
    if (word - EPOCHS) % MEMBERS != 0 {
        return 0;
    }
    match maintainers.get((word - EPOCHS) / MEMBERS) {
        Some(members) => to_word(Epoch {
            start: 1,
            members: *members,
        }),
        None => 0,
    }
}
