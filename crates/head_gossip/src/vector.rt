//! Vectors: what a maintainer knows, tells and hears.

ghost use Rattle.std.specs.Prelude.{◌≡◌, ℕ, ◌<◌, ◌≤◌, ◌⊎◌, Bool, IsTrue, IfOk, OnOk, OnErr};
ghost use Rattle.causal_deps.specs.Counts.{greater};
ghost use Rattle.flstore_rounds.specs.Epochs.{EpochList, IsPrefix};
ghost use Rattle.flstore_rounds.specs.Heads.{IsHead, IsTrueMark, IsTrueOf, blank, head, joined, with_own};
ghost use Rattle.head_gossip.specs.Marks.{AreMarks};
ghost use Rattle.head_gossip.specs.Notes.{pair_of};
ghost use Rattle.cz_base.specs.declared.limits.TheConstants.{MEMBERS};

use cz_base::limits::MEMBERS;
use cz_base::{Lid, NoMemory};
use flstore_rounds::{Epochs, head_of};
use std::alloc::Global;
use std::marker::Model;

/// What one maintainer tells another.
#[derive(Debug, Drop)]
pub struct Note {
    /// Its epoch list.
    pub epochs: Epochs,
    /// The mark of each maintainer that there may be, 1 at least.
    pub marks: [Lid; MEMBERS],
}

/// What a maintainer knows: an epoch list, and for each maintainer that there may be a mark, below which
/// that one has filled all that it owns; each mark is 1 at least. Contracts see both as a pair.
#[derive(Debug, Drop)]
pub struct Vector {
    epochs: Epochs,
    marks: [Lid; MEMBERS],
}

impl Model for Vector {
    ghost use Rattle.flstore_rounds.specs.Heads.{Pair};
    ghost use Rattle.head_gossip.specs.Marks.{AreMarks};

    ghost Value = { Pair };

    ghost view = { λ vector. record { epochs = vector.epochs; marks = vector.marks } };

    ghost invariant = { λ vector. AreMarks vector.marks };
}

impl Vector {
    /// Nothing is marked. The allocator stands first, as for every type that holds a collection; the
    /// epoch list brings its own memory.
    pub fn new(_alloc: Global, epochs: Epochs) -> Self
        ensures { result ≡ blank epochs }
    {
        Vector {
            epochs,
            marks: [1; MEMBERS],
        }
    }

    /// Takes the longer list, and then the greater mark of maintainer m. After `NoMemory` the vector is as before.
    pub fn own(&mut self, epochs: &Epochs, m: u32, mark: Lid) -> Result<(), NoMemory>
        requires prefix { IsPrefix self.old.epochs epochs.now ⊎ IsPrefix epochs.now self.old.epochs }
        requires member { m < MEMBERS }
        ensures ok { OnOk result (self.new ≡ with_own self.old epochs.now m mark) }
        ensures err { OnErr result (self.new ≡ self.old) }

        // A vector that is true stays so, where the mark is true by that list.
        ensures truth { OnOk result ((t : EpochList) (placed : ℕ → Bool) → IsTrueOf t placed self.old → IsTrueMark t epochs.now (λ p. IsTrue (placed p)) m mark → IsTrueOf t placed self.new) }
    {
        self.epochs.take_longer(epochs)?;
        let at = m as usize;
        self.marks[at] = self.marks[at].max(mark);
        Ok(())
    }

    /// The mark of each maintainer.
    pub fn marks(&self) -> &[Lid; MEMBERS]
        ensures { result.now ≡ self.now.marks }
    {
        &self.marks
    }

    /// What it knows, for another vector to hear.
    pub fn tell(&self) -> Result<Note, NoMemory>
        ensures note { IfOk result (λ note. pair_of note ≡ self.now) }
        ensures marks { IfOk result (λ note. AreMarks note.marks) }
    {
        Ok(Note {
            epochs: self.epochs.copy()?,
            marks: self.marks,
        })
    }

    /// Takes the longer list, and then every greater mark. After `NoMemory` the vector is as before.
    pub fn hear(&mut self, note: &Note) -> Result<(), NoMemory>
        requires { IsPrefix self.old.epochs note.now.epochs ⊎ IsPrefix note.now.epochs self.old.epochs }
        ensures ok { OnOk result (self.new ≡ joined self.old (pair_of note.now)) }
        ensures err { OnErr result (self.new ≡ self.old) }

        // A vector that is true stays so, where the note is true.
        ensures truth { OnOk result ((t : EpochList) (placed : ℕ → Bool) → IsTrueOf t placed self.old → IsTrueOf t placed (pair_of note.now) → IsTrueOf t placed self.new) }
    {
        self.epochs.take_longer(&note.epochs)?;
        raise_all(&mut self.marks, &note.marks);
        Ok(())
    }

    /// The greatest position up to which each is below the mark of its owner.
    pub fn head(&self) -> Lid
        ensures value { result ≡ head self.now }
        ensures greatest { IsHead self.now result }
        ensures marks { AreMarks self.now.marks }

        // Each position up to the head of a true vector is placed.
        ensures placed { (t : EpochList) (placed : ℕ → Bool) → IsTrueOf t placed self.now → (p : ℕ) → 1 ≤ p → p ≤ result → IsTrue (placed p) }
    {
        head_of(self.epochs.round(), self.epochs.list(), &self.marks)
    }
}

// Each mark becomes the greater of the two.
fn raise_all(marks: &mut [Lid; MEMBERS], told: &[Lid; MEMBERS])
    ensures { marks.new ≡ greater marks.old told.now }
{
    for at in 0..marks.len() {
        marks[at] = marks[at].max(told[at]);
    }
}
