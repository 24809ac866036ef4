//! The words of the table under the lock: which is which, and what the word of an epoch holds.
ghost use Rattle.std.specs.Prelude.{◌≡◌, ◌<◌, ◌≤◌, Some};
ghost use Rattle.cz_base.specs.declared.limits.TheConstants.{DATACENTRES, MEMBERS, NUMBERS_END};
ghost use Rattle.journal_lock.specs.declared.words.TheConstants.{MARKS, EPOCHS, WORDS};
ghost use Rattle.journal_lock.specs.Marks.{decoded};
ghost use Rattle.journal_lock.specs.Words.{mark_word, epoch_word, code};

use cz_base::DcId;
use cz_base::limits::{DATACENTRES, MEMBERS};
use flstore_rounds::Epoch;

/// The turn: 0 where it is free, and else 1.
pub(crate) const TURN: usize = 0;

/// How many events there are.
pub(crate) const COUNT: usize = 1;

/// From here on a mark for each maintainer of each datacentre.
pub(crate) const MARKS: usize = 2;

/// From here on, for each datacentre, as many epochs as it may ever have.
pub(crate) const EPOCHS: usize = MARKS + DATACENTRES * MEMBERS;

pub(crate) const WORDS: usize = EPOCHS + DATACENTRES * MEMBERS;

/// The word of an epoch is so many times its start, and its members.
pub(crate) const SPAN: u64 = 32;

/// Which word has the mark of a maintainer.
pub(crate) fn mark_place(dc: DcId, member: u32) -> usize
    requires { member < MEMBERS }
    ensures value { result ≡ mark_word dc member }
    ensures dc { dc < DATACENTRES }
    ensures within { (MARKS ≤ result) × (result < EPOCHS) }
{
    MARKS + MEMBERS * dc.number() as usize + member as usize
}

/// Which word has an epoch of a datacentre.
pub(crate) fn epoch_place(dc: DcId, at: usize) -> usize
    requires { at < MEMBERS }
    ensures value { result ≡ epoch_word dc at }
    ensures dc { dc < DATACENTRES }
    ensures within { (EPOCHS ≤ result) × (result < WORDS) }
{
    EPOCHS + MEMBERS * dc.number() as usize + at
}

/// An epoch from its word, which is 0 where there is none.
pub(crate) fn from_word(word: u64) -> Option<Epoch>
    ensures code { code result ≡ word }
    ensures value { result ≡ decoded word }
{
    if word == 0 {
        return None;
    }
    Some(Epoch {
        start: word / SPAN,
        members: (word % SPAN) as u32,
    })
}

/// The word of an epoch.
pub(crate) fn to_word(epoch: Epoch) -> u64
    requires { (epoch.start < NUMBERS_END) × (epoch.members ≤ MEMBERS) }
    ensures { result ≡ code (Some epoch) }
{
    SPAN * epoch.start + epoch.members as u64
}
