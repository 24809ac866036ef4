//! Indexers: what is posted to each, and what it finds.

ghost use Rattle.std.specs.Prelude.{◌≡◌, ℕ, ◌<◌, ◌≤◌, ◌⊎◌, ◌↔◌, List, take, length, All, Bool, IsTrue, IfOk, IsErrOf, OnOk, OnErr};
ghost use Rattle.causal_deps.specs.declared.record.Record.{Record};
ghost use Rattle.causal_deps.specs.declared.answers.Newest.{Newest as NewestValue};
ghost use Rattle.abstract_log.specs.Answers.{last_of, newest, places_with};
ghost use Rattle.abstract_log.specs.Updates.{told_place};
ghost use Rattle.flstore_rounds.specs.Epochs.{EpochList, IsPrefix, longer};
ghost use Rattle.flstore_rounds.specs.Heads.{IsHead, IsTrueMark, IsTrueOf, head, mark_at};
ghost use Rattle.tag_indexer.specs.Rows.{home, tagged_places};
ghost use Rattle.tag_indexer.specs.Indexers.{AreBegun, AreOwnRows, IndexerState, empty, newest_found, newest_lid, newest_position, posted};
ghost use Rattle.tag_indexer.specs.Indexed.{IsIndexed, IsRowOf};
ghost use Rattle.cz_base.specs.declared.limits.TheConstants.{MEMBERS};

use crate::Post;
use crate::rows::{last_tagged, list_rows, newest_update, put_rows};
use crate::tag_index::TagIndex;
use causal_deps::{LastFault, Newest, Place};
use cz_base::limits::MEMBERS;
use cz_base::{Lid, Name, NoMemory, Seq};
use flstore_rounds::{Epochs, head_of};
use std::alloc::Global;
use std::marker::Model;

/// The records with a tag at home here, as far as the maintainers have posted them. Contracts see it as a record
/// of its number, the number of indexers, the pair of epochs and marks, and its rows by rising position.
#[derive(Debug, Drop)]
pub struct Indexer {
    number: u32,
    indexers: u32,
    epochs: Epochs,
    marks: [Lid; MEMBERS],
    rows: Vec<Post>,
    /// Where the rows are found by a key, and by a tag.
    updates: TagIndex,
    tagged: TagIndex,
}

impl Model for Indexer {
    ghost use Rattle.std.specs.Prelude.{◌≤◌, All};
    ghost use Rattle.tag_indexer.specs.Indexers.{AreKept, IndexerState};
    ghost use Rattle.tag_indexer.specs.TagIndexes.{IsRowListed};

    ghost Value = { IndexerState };

    ghost view = { λ i. record { number = i.number; indexers = i.indexers; pair = record { epochs = i.epochs; marks = i.marks }; rows = i.rows.items } };

    ghost invariant = { λ i. (1 ≤ i.indexers) × AreKept i.number i.indexers (record { epochs = i.epochs; marks = i.marks }) i.rows.items × All (IsRowListed i.number i.indexers i.updates i.tagged) i.rows.items };
}

impl Indexer {
    /// The indexer of that number, of so many, with nothing posted yet.
    pub fn new(alloc: Global, number: u32, indexers: u32, epochs: Epochs) -> Self
        requires { 1 ≤ indexers }
        ensures value { result ≡ empty number indexers epochs }

        // It has what each log has.
        ensures log { (log : List Record) → IsIndexed log result }
    {
        Indexer {
            number,
            indexers,
            epochs,
            marks: [1; MEMBERS],
            rows: Vec::new(alloc),
            updates: TagIndex::new(alloc),
            tagged: TagIndex::new(alloc),
        }
    }

    /// Takes the longer epoch list, and from maintainer m the rows of its own positions from the mark of m up to
    /// below `upto`, which becomes the mark of m unless it is lower. Rows with no tag at home here are dropped. After `NoMemory` the
    /// indexer is as before.
    pub fn post(
        &mut self,
        epochs: &Epochs,
        m: u32,
        upto: Lid,
        rows: Seq<Post>,
    ) -> Result<(), NoMemory>
        requires member { m < MEMBERS }
        requires prefix { IsPrefix self.old.pair.epochs epochs.now ⊎ IsPrefix epochs.now self.old.pair.epochs }
        requires begun { AreBegun self.old.pair epochs.now }
        requires rows { AreOwnRows (longer self.old.pair.epochs epochs.now) m (mark_at self.old.pair m) upto rows }
        ensures ok { OnOk result (self.new ≡ posted self.old epochs.now m upto rows) }
        ensures err { OnErr result (self.new ≡ self.old) }

        // It has what a log has, if it had it before and the rows are of that log.
        ensures log { OnOk result ((log : List Record) → IsIndexed log self.old → All (IsRowOf log) rows → IsIndexed log self.new) }

        // Its pair stays true, where the mark is true by the maintainer's list.
        ensures truth { OnOk result ((t : EpochList) (placed : ℕ → Bool) → IsTrueOf t placed self.old.pair → IsTrueMark t epochs.now (λ p. IsTrue (placed p)) m upto → IsTrueOf t placed self.new.pair) }
    {
        list_rows(
            &mut self.updates,
            &mut self.tagged,
            &rows,
            self.number,
            self.indexers,
        )?;
        self.rows.reserve(rows.len())?;
        self.epochs.take_longer(epochs)?;
        put_rows(&mut self.rows, rows, self.number, self.indexers);
        let at = m as usize;
        self.marks[at] = self.marks[at].max(upto);
        Ok(())
    }

    /// Up to where maintainer m has posted: below this position.
    pub fn mark(&self, m: u32) -> Lid
        requires { m < MEMBERS }
        ensures value { result ≡ mark_at self.now.pair m }
        ensures some { 1 ≤ result }
    {
        self.marks[m as usize]
    }

    /// The allocator of the rows, for what is made for them.
    pub fn alloc(&self) -> Global {
        *self.rows.allocator()
    }

    /// The greatest position up to which each is posted.
    pub fn covered(&self) -> Lid
        ensures value { result ≡ head self.now.pair }
        ensures greatest { IsHead self.now.pair result }
    {
        head_of(self.epochs.round(), self.epochs.list(), &self.marks)
    }

    /// The last update of the key at or below s, unless less than s is covered: where a put stands, or the place of a
    /// del.
    pub fn newest(&self, key: &Name, s: Lid) -> Newest
        requires home { home key.now self.now.indexers ≡ self.now.number }
        ensures value { result ≡ newest_found self.now key.now s }
        ensures behind { (covered : ℕ) → (result ≡ Newest.Behind covered) ↔ ((covered ≡ head self.now.pair) × (covered < s)) }

        // Where the update stands that is told, for those that ask no more.
        ensures position { newest_lid result ≡ newest_position self.now key.now s }

        // Where it is not behind, it is what the log itself tells, for each log whose rows were posted.
        ensures log { (log : List Record) → IsIndexed log self.now → s ≤ length log → s ≤ head self.now.pair → result ≡ told_place log (newest log key.now s) }
    {
        let covered = self.covered();
        if covered < s {
            return Newest::Behind { covered };
        }
        newest_update(&self.rows, &self.updates, key, s)
    }

    /// The places at or below s of the last `count` records with the tag, in rising order, unless less than s is
    /// covered.
    pub fn last(&self, tag: &Name, count: u32, s: Lid) -> Result<Seq<Place>, LastFault>
        requires home { home tag.now self.now.indexers ≡ self.now.number }
        ensures ok { IfOk result (λ places. (s ≤ head self.now.pair) × (places ≡ last_of count (tagged_places self.now.rows tag.now s))) }
        ensures behind { (covered : ℕ) → IsErrOf result (LastFault.Behind covered) ↔ ((covered ≡ head self.now.pair) × (covered < s)) }

        // They are the log's own, for each log whose rows were posted.
        ensures log { (log : List Record) → IsIndexed log self.now → s ≤ length log → IfOk result (λ places. places ≡ last_of count (places_with tag.now 1 (take s log))) }
    {
        let covered = self.covered();
        if covered < s {
            return Err(LastFault::Behind { covered });
        }
        match last_tagged(self.alloc(), &self.rows, &self.tagged, tag, count, s) {
            Ok(places) => Ok(places),
            Err(_) => Err(LastFault::NoMemory),
        }
    }
}
