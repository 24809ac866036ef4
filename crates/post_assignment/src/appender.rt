//! An appender: a maintainer that gives positions, and what waits.

ghost use Rattle.std.specs.Prelude.{◌≡◌, ◌⊎◌, ◌+◌, ◌<◌, ◌≤◌, ◌↔◌, ℕ, [], All, IfErr, IfOk, MatchResult, OnErr, OnOk, length, vec_len};
ghost use Rattle.std.specs.Vec.{vec_capacity};
ghost use Rattle.cz_base.specs.declared.limits.TheConstants.{NUMBERS_END};
ghost use Rattle.flstore_rounds.specs.Epochs.{IsNextOwn, IsPrefix, IsSettled, last_epoch};
ghost use Rattle.maintainer.specs.Maintainers.{IsFilled, IsOwn, learned, mark_of, plain};
ghost use Rattle.post_assignment.specs.Appending.{HasRoom, appended, kept, next_lid, released};
ghost use Rattle.post_assignment.specs.declared.appender.After.TheVariants.{Kept as KeptBack, Placed as PutIn};

use crate::WaitList;
use cz_base::{Back, Lid, NoMemory, Seq};
use flstore_rounds::Epochs;
use maintainer::Maintainer;
use std::alloc::Global;
use std::marker::Model;

/// Where a value stands, and which positions went to values that had waited.
#[derive(Debug, Drop)]
pub struct Here {
    /// The position of the value.
    pub lid: Lid,
    /// The positions of the values that it released, in the order in which they went in.
    pub released: Seq<Lid>,
}

/// What became of a value that is to stand above a bound.
#[derive(Debug, Drop)]
pub enum After {
    /// It waits.
    Kept,
    /// It stands above its bound.
    Placed(Here),
}

/// A maintainer that gives its own positions in order, and the values that wait for one. Contracts see it as the
/// maintainer's state without spare places, and what waits in order of arrival.
#[derive(Debug, Drop)]
pub struct Appender<T> {
    maintainer: Maintainer<T>,
    waiting: WaitList<T>,
    alloc: Global,
}

impl<T> Model for Appender<T> {
    ghost use Rattle.post_assignment.specs.Appending.{AppenderState, appender_code};
    ghost use Rattle.maintainer.specs.Maintainers.{plain};
    ghost use Rattle.std.specs.Prelude.{◌≡◌};

    ghost Value = { AppenderState T };

    ghost coded = { appender_code T.code };

    ghost view = { λ a. record { maintainer = plain a.maintainer; waiting = a.waiting.waiting } };

    ghost invariant = { λ a. a.waiting.limit ≡ 0 };
}

impl<T> Appender<T> {
    /// A maintainer, for which nothing waits.
    pub fn new(alloc: Global, maintainer: Maintainer<T>) -> Self
        ensures { result ≡ record { maintainer = plain maintainer; waiting = [] } }
    {
        Appender {
            maintainer,
            waiting: WaitList::new(alloc),
            alloc,
        }
    }

    /// The maintainer.
    pub fn maintainer(&self) -> &Maintainer<T>
        ensures { plain result.now ≡ self.now.maintainer }
    {
        &self.maintainer
    }

    /// What waits.
    pub fn waiting(&self) -> &WaitList<T>
        ensures { result.now.waiting ≡ self.now.waiting }
    {
        &self.waiting
    }

    /// The next own position: the least one that is not below the mark.
    pub fn next_lid(&self) -> Lid
        requires { self.now.maintainer.number < (last_epoch self.now.maintainer.epochs).members }
        ensures { result ≡ next_lid self.now.maintainer }
    {
        next_lid(&self.maintainer)
    }

    /// The maintainer, and what waits in order of arrival.
    pub fn into_parts(self) -> (Maintainer<T>, WaitList<T>)
        ensures maintainer { plain result.0 ≡ self.maintainer }
        ensures waiting { result.1.waiting ≡ self.waiting }
        ensures rest { result.1.limit ≡ 0 }
    {
        let Appender {
            maintainer,
            waiting,
            ..
        } = self;
        (maintainer, waiting)
    }

    /// Takes the longer of the two epoch lists, of which one is the beginning of the other. Nothing is released, also
    /// where the next own position is then above a bound. After `NoMemory` all is as before.
    pub fn learn(&mut self, epochs: &Epochs) -> Result<(), NoMemory>
        requires known { IsPrefix self.old.maintainer.epochs epochs.now ⊎ IsPrefix epochs.now self.old.maintainer.epochs }
        requires settled { (p : ℕ) → IsFilled self.old.maintainer p → IsSettled epochs.now self.old.maintainer.epochs p }
        ensures ok { OnOk result (self.new ≡ record self.old { maintainer = learned self.old.maintainer epochs.now }) }
        ensures err { OnErr result (self.new ≡ self.old) }
    {
        self.maintainer.learn(epochs)
    }

    /// The value gets the next own position. Then, as long as a value that waits has its bound below the next own
    /// position, the first such one in order of arrival gets it. Without memory the value comes back, and all is as
    /// before.
    pub fn append_here(&mut self, value: T) -> Result<Here, Back<T>>
        requires { HasRoom self.old value }
        ensures ok { IfOk result (λ here. (here.lid ≡ next_lid self.old.maintainer) × (here.released ≡ (appended self.old value).lids)) }
        ensures state { OnOk result (self.new ≡ (appended self.old value).state) }
        ensures err { OnErr result (self.new ≡ self.old) }
        ensures back { IfErr result (λ back. back.value ≡ value) }
    {
        let waiting = self.waiting.len();
        let Ok(released) = make_room(&mut self.maintainer, self.alloc, waiting) else {
            return Err(Back { value });
        };
        let lid = next_lid(&self.maintainer);
        self.maintainer.place(lid, value);
        let released = release(&mut self.maintainer, &mut self.waiting, released);
        Ok(Here { lid, released })
    }

    /// The same for a value that is to stand above a bound. It waits, last of all, exactly where the next own position
    /// is not above the bound.
    pub fn append_after(&mut self, value: T, bound: Lid) -> Result<After, Back<T>>
        requires member { self.old.maintainer.number < (last_epoch self.old.maintainer.epochs).members }
        requires room { bound < next_lid self.old.maintainer → HasRoom self.old value }
        ensures kept { IfOk result (λ after. (after ≡ KeptBack) ↔ (next_lid self.old.maintainer ≤ bound)) }
        ensures waits { OnOk result (next_lid self.old.maintainer ≤ bound → self.new ≡ kept self.old bound value) }
        ensures placed { IfOk result (λ after. bound < next_lid self.old.maintainer → after ≡ PutIn (record { lid = next_lid self.old.maintainer; released = (appended self.old value).lids })) }
        ensures state { OnOk result (bound < next_lid self.old.maintainer → self.new ≡ (appended self.old value).state) }
        ensures err { OnErr result (self.new ≡ self.old) }
        ensures back { IfErr result (λ back. back.value ≡ value) }
    {
        if bound < self.next_lid() {
            let here = self.append_here(value)?;
            return Ok(After::Placed(here));
        }
        self.waiting.push(bound, value)?;
        Ok(After::Kept)
    }
}

// Room for one value more and for so many that wait, and for the positions of these.
fn make_room<T>(
    maintainer: &mut Maintainer<T>,
    alloc: Global,
    waiting: usize,
) -> Result<Vec<Lid>, NoMemory>
    ensures room { OnOk result (waiting + 1 ≤ maintainer.new.spare) }
    ensures rest { plain maintainer.new ≡ plain maintainer.old }
    ensures list { IfOk result (λ lids. (lids.items ≡ []) × (waiting ≤ vec_capacity lids)) }
{
    let Some(values) = waiting.checked_add(1) else {
        return Err(NoMemory);
    };
    maintainer.reserve(values)?;
    Ok(Vec::with_capacity(alloc, waiting)?)
}

// Puts in what may go in, one after another, and tells where.
fn release<T>(
    maintainer: &mut Maintainer<T>,
    waiting: &mut WaitList<T>,
    mut lids: Vec<Lid>,
) -> Seq<Lid>
    requires member { maintainer.old.number < (last_epoch maintainer.old.epochs).members }
    requires rest { waiting.old.limit ≡ 0 }
    requires room { length waiting.old.waiting ≤ maintainer.old.spare }
    requires none { lids.items ≡ [] }
    requires space { length waiting.old.waiting ≤ vec_capacity lids }
    requires small { All (λ lid. lid < NUMBERS_END) (released (length waiting.old.waiting) (plain maintainer.old) waiting.old.waiting).lids }
    ensures state { record { maintainer = plain maintainer.new; waiting = waiting.new.waiting } ≡ (released (length waiting.old.waiting) (plain maintainer.old) waiting.old.waiting).state }
    ensures lids { result ≡ (released (length waiting.old.waiting) (plain maintainer.old) waiting.old.waiting).lids }
    ensures rest { waiting.new.limit ≡ 0 }
{
    loop {
        let lid = next_lid(maintainer);
        let Some(value) = waiting.take_first_below(lid) else {
            lids.shrink_to_fit();
            return Seq::from_vec(lids);
        };
        maintainer.place(lid, value);
        lids.push_reserved(lid);
    }
}

// The next own position of a maintainer.
fn next_lid<T>(maintainer: &Maintainer<T>) -> Lid
    requires { maintainer.now.number < (last_epoch maintainer.now.epochs).members }
    ensures value { result ≡ next_lid maintainer.now }
    ensures next { IsNextOwn maintainer.now.epochs maintainer.now.number (mark_of maintainer.now) result }
    ensures own { IsOwn maintainer.now result }
    ensures vacant { ¬ IsFilled maintainer.now result }
{
    maintainer
        .epochs()
        .next_own(maintainer.number(), maintainer.filled())
}
