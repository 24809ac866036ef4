//! Epoch lists: which member owns a position, and which is the next one of a member.

ghost use Rattle.std.specs.Prelude.{◌≡◌, ℕ, ◌<◌, ◌≤◌, ◌^◌, ◌↔◌, ◌⊎◌, [], ◌∷◌, length, IfOk, OnOk, OnErr, IsErrOf, IsTrue};
ghost use Rattle.flstore_rounds.specs.Epochs.{IsEpochList, IsNextOwn, IsPrefix, last_epoch, longer, owner, with_epoch};
ghost use Rattle.cz_base.specs.declared.limits.TheConstants.{MEMBERS, NUMBERS_END, ROUND};

use crate::turns;
use cz_base::{Lid, NoMemory};
use std::alloc::{AllocFailed, Global};
use std::marker::Model;
use thiserror::Error;

/// From a position on, so many members own the positions in turn.
#[derive(Clone, Copy, Debug, PartialEq, Eq)]
pub struct Epoch {
    /// The first position of the epoch, from 1 and below [`cz_base::limits::NUMBERS_END`].
    pub start: Lid,
    /// How many members own its positions, 1 to [`cz_base::limits::MEMBERS`].
    pub members: u32,
}

/// How many positions in a row a member owns, and the epochs, whose starts and members rise.
/// Contracts see both as a record.
#[derive(Debug, Drop)]
pub struct Epochs {
    round: u32,
    list: Vec<Epoch>,
}

impl Model for Epochs {
    ghost use Rattle.flstore_rounds.specs.Epochs.{EpochList, IsEpochList};

    ghost Value = { EpochList };

    ghost view = { λ epochs. record { round = epochs.round; list = epochs.list.items } };

    ghost invariant = { λ epochs. IsEpochList (record { round = epochs.round; list = epochs.list.items }) };
}

/// Why no epoch was added.
#[derive(Clone, Copy, Debug, PartialEq, Eq, Error)]
pub enum EpochFault {
    /// The last epoch starts at this position, and the new one does not start above it.
    #[error("not above position {last_start}, where the last epoch starts")]
    Late { last_start: Lid },
    /// There is no memory for one epoch more.
    #[error("no memory")]
    NoMemory,
}

impl<T: Drop> From<AllocFailed<T>> for EpochFault {
    ghost use Rattle.flstore_rounds.specs.declared.epochs.EpochFault.TheVariants.{NoMemory as OutOfMemory};

    ghost from_gives = { λ _ fault. fault ≡ OutOfMemory };

    fn from(_: AllocFailed<T>) -> Self {
        EpochFault::NoMemory
    }
}

impl Epochs {
    /// One epoch, from the first position on, with rounds of so many positions and so many members.
    pub fn first(alloc: Global, round: u32, members: u32) -> Result<Self, NoMemory>
        requires round { (1 ≤ round) × (round ≤ ROUND) }
        requires members { (1 ≤ members) × (members ≤ MEMBERS) }
        ensures { IfOk result (λ epochs. epochs ≡ record { round = round; list = record { start = 1; members = members } ∷ [] }) }
    {
        let mut list = Vec::new(alloc);
        list.push(Epoch { start: 1, members })?;
        Ok(Epochs { round, list })
    }

    /// A list that is one already, without more memory.
    pub fn from_list(round: u32, list: Vec<Epoch>) -> Self
        requires { IsEpochList (record { round = round; list = list.items }) }
        ensures { result ≡ record { round = round; list = list.items } }
    {
        Epochs { round, list }
    }

    /// How many positions in a row a member owns, 1 to [`cz_base::limits::ROUND`].
    pub fn round(&self) -> u32
        ensures value { result ≡ self.now.round }
        ensures within { (1 ≤ result) × (result ≤ ROUND) }
    {
        self.round
    }

    /// The epochs by rising starts, 1 to [`cz_base::limits::MEMBERS`] of them.
    pub fn list(&self) -> &[Epoch]
        ensures value { result.now ≡ self.now.list }
        ensures some { (1 ≤ length result.now) × (length result.now ≤ MEMBERS) }
        ensures rounds { IsEpochList self.now }
    {
        &self.list
    }

    /// The last epoch.
    pub fn last(&self) -> Epoch
        ensures value { result ≡ last_epoch self.now }
        ensures members { (1 ≤ result.members) × (result.members ≤ MEMBERS) }
        ensures start { (1 ≤ result.start) × (result.start < NUMBERS_END) }
    {
        self.list[self.list.len() - 1]
    }

    /// The member that owns position p, from 0.
    pub fn owner(&self, p: Lid) -> u32
        requires { 1 ≤ p }
        ensures value { result ≡ owner self.now p }
        ensures member { result < (last_epoch self.now).members }
        ensures within { result < MEMBERS }
    {
        turns::owner_by(self.round, &self.list, p)
    }

    /// The least position of member m at or above p.
    pub fn next_own(&self, m: u32, p: Lid) -> Lid
        requires first { 1 ≤ p }
        requires lid { p ≤ NUMBERS_END }
        requires member { m < (last_epoch self.now).members }
        ensures least { IsNextOwn self.now m p result }
        ensures within { result < 2 ^ 49 }
    {
        turns::next_own_by(self.round, &self.list, m, p)
    }

    /// From `start` on there are more members. Refused as `Late` exactly where the last epoch starts at
    /// `start` or above it; after `NoMemory` the list is as before.
    pub fn add_epoch(&mut self, start: Lid, members: u32) -> Result<(), EpochFault>
        requires lid { start < NUMBERS_END }
        requires more { (last_epoch self.old).members < members }
        requires few { members ≤ MEMBERS }
        ensures ok { OnOk result (self.new ≡ with_epoch self.old (record { start = start; members = members })) }
        ensures late { (last_start : ℕ) → IsErrOf result (EpochFault.Late last_start) ↔ ((last_start ≡ (last_epoch self.old).start) × (start ≤ last_start)) }
        ensures err { OnErr result (self.new ≡ self.old) }
    {
        let last_start = self.last().start;
        if start <= last_start {
            return Err(EpochFault::Late { last_start });
        }
        self.list.push(Epoch { start, members })?;
        Ok(())
    }

    /// Whether the rounds are equal and the other list begins with this one.
    pub fn is_prefix(&self, other: &Epochs) -> bool
        ensures { IsTrue result ↔ IsPrefix self.now other.now }
    {
        self.round == other.round && other.list.starts_with(&self.list)
    }

    /// Becomes the longer of the two lists, of which one begins with the other.
    pub fn take_longer(&mut self, other: &Epochs) -> Result<(), NoMemory>
        requires { IsPrefix self.old other.now ⊎ IsPrefix other.now self.old }
        ensures ok { OnOk result (self.new ≡ longer self.old other.now) }
        ensures err { OnErr result (self.new ≡ self.old) }
    {
        if self.list.len() < other.list.len() {
            *self = other.copy()?;
        }
        Ok(())
    }

    /// The same round and list.
    pub fn copy(&self) -> Result<Self, NoMemory>
        ensures { IfOk result (λ copy. copy ≡ self.now) }
    {
        Ok(Epochs {
            round: self.round,
            list: self.list.clone()?,
        })
    }
}
