//! A maintainer: the values at the positions that one member owns, and its mark.

ghost use Rattle.std.specs.Prelude.{◌≡◌, ◌⊎◌, ℕ, ◌^◌, ◌<◌, ◌≤◌, ◌↔◌, Contains, IfSome, IsNone, IsSome, None, OnErr, OnOk, Some};
ghost use Rattle.std.specs.Option.{option_copied, option_map};
ghost use Rattle.causal_deps.specs.declared.answers.Shown.{Shown};
ghost use Rattle.flstore_rounds.specs.Epochs.{IsPrefix, IsSettled};
ghost use Rattle.maintainer.specs.Maintainers.{AreKept, AreRising, IsFilled, IsMark, IsNextFilled, IsOwn, collected, empty, entry_after, is_some_within, learned, mark_of, placed, shown_value, value_at};
ghost use Rattle.cz_base.specs.declared.limits.TheConstants.{NUMBERS_END};

use crate::Slot;
use crate::positions::{has_position, has_position_within, positions_below};
use crate::slot::{mark_past, slot_after, slots_below, value_of};
use causal_deps::Shown;
use cz_base::{Lid, NoMemory, Seq};
use flstore_rounds::Epochs;
use std::alloc::Global;
use std::marker::Model;

/// The values at the positions that one member owns. Contracts see it as a record of its number,
/// its epoch list, its entries by rising position, the positions of which the value was let go,
/// and its spare places.
#[derive(Debug, Drop)]
pub struct Maintainer<T> {
    number: u32,
    epochs: Epochs,
    slots: Vec<Slot<T>>,
    // There is room for each value of a slot or a spare place to go.
    gone: Vec<Lid>,
    spare: usize,
    mark: Lid,
}

impl<T> Model for Maintainer<T> {
    ghost use Rattle.maintainer.specs.Maintainers.{MaintainerState, state_code};

    ghost Value = { MaintainerState T };

    ghost coded = { state_code T.code };

    ghost use Rattle.std.specs.Prelude.{◌+◌, ◌≤◌, vec_len};
    ghost use Rattle.std.specs.Vec.{vec_capacity};
    ghost use Rattle.maintainer.specs.Maintainers.{IsSound};

    ghost view = { λ m. record { number = m.number; epochs = m.epochs; entries = m.slots.items; gone = m.gone.items; spare = m.spare } };

    ghost invariant = { λ m. IsSound m.number m.epochs m.slots.items m.gone.items m.mark × (vec_len m.slots + m.spare ≤ vec_capacity m.slots) × (vec_len m.gone + (vec_len m.slots + m.spare) ≤ vec_capacity m.gone) };
}

impl<T> Maintainer<T> {
    /// No position is filled, and no place is spare.
    pub fn new(alloc: Global, number: u32, epochs: Epochs) -> Self
        ensures { result ≡ empty number epochs }
    {
        Maintainer {
            number,
            epochs,
            slots: Vec::new(alloc),
            gone: Vec::new(alloc),
            spare: 0,
            mark: 1,
        }
    }

    /// The number of the member.
    pub fn number(&self) -> u32
        ensures { result ≡ self.now.number }
    {
        self.number
    }

    /// Its epoch list, by which each position that it has filled is its own.
    pub fn epochs(&self) -> &Epochs
        ensures value { result.now ≡ self.now.epochs }
        ensures kept { AreKept self.now.epochs self.now.number self.now.entries }
    {
        &self.epochs
    }

    /// Takes the longer of the two epoch lists, of which one is the beginning of the other. After `NoMemory` the
    /// maintainer is as before.
    pub fn learn(&mut self, epochs: &Epochs) -> Result<(), NoMemory>
        requires known { IsPrefix self.old.epochs epochs.now ⊎ IsPrefix epochs.now self.old.epochs }
        requires settled { (p : ℕ) → IsFilled self.old p → IsSettled epochs.now self.old.epochs p }
        ensures ok { OnOk result (self.new ≡ learned self.old epochs.now) }
        ensures err { OnErr result (self.new ≡ self.old) }
    {
        self.epochs.take_longer(epochs)
    }

    /// Makes room for n more values. After `NoMemory` the maintainer is as before.
    pub fn reserve(&mut self, n: usize) -> Result<(), NoMemory>
        ensures ok { OnOk result (n ≤ self.new.spare) }
        ensures more { self.old.spare ≤ self.new.spare }
        ensures rest { self.new ≡ record self.old { spare = self.new.spare } }
        ensures err { OnErr result (self.new ≡ self.old) }
    {
        let Some(values) = self.slots.len().checked_add(n) else {
            return Err(NoMemory);
        };
        self.slots.reserve(n)?;
        self.gone.reserve(values)?;
        self.spare = self.spare.max(n);
        Ok(())
    }

    /// Puts a value at an own position that is not filled, in one spare place.
    pub fn place(&mut self, lid: Lid, value: T)
        requires own { IsOwn self.old lid }
        requires small { lid < NUMBERS_END }
        requires vacant { ¬ IsFilled self.old lid }
        requires room { 1 ≤ self.old.spare }
        ensures { self.new ≡ placed self.old lid value }
    {
        let at = slots_below(&self.slots, lid);
        self.slots.insert(at, Slot { lid, value }).unwrap();
        self.spare -= 1;
        // An owner is a member of the last epoch too, which has the most.
        prove!(self.epochs.owner(lid) == self.number);
        self.mark = mark_past(
            &self.epochs,
            self.number,
            &self.slots,
            &self.gone,
            self.mark,
        );
    }

    /// Lets the value at a position go and hands it out. The position is gone from then on, and stays filled. No
    /// memory is taken: its room came with the value's.
    pub fn collect(&mut self, lid: Lid) -> T
        requires { IsSome (value_at lid self.old.entries) }
        ensures value { Some result ≡ value_at lid self.old.entries }
        ensures state { self.new ≡ collected self.old lid }
    {
        let Slot { value, .. } = self.slots.remove(slots_below(&self.slots, lid));
        self.gone
            .insert(positions_below(&self.gone, lid), lid)
            .unwrap();
        value
    }

    /// Its entries, which are moved out.
    pub fn into_slots(self) -> Seq<Slot<T>>
        ensures { result ≡ self.entries }
    {
        let Maintainer { slots, .. } = self;
        Seq::from_vec(slots)
    }

    /// What stands at an own position.
    pub fn read(&self, lid: Lid) -> Shown<'_, T>
        requires own { IsOwn self.now lid }
        ensures value { shown_value result ≡ value_at lid self.now.entries }
        ensures gone { (result ≡ Shown.Gone) ↔ Contains self.now.gone lid }
        ensures empty { (result ≡ Shown.Empty) ↔ (¬ IsFilled self.now lid) }
        ensures filled { (IsSome (shown_value result) ⊎ (result ≡ Shown.Gone)) ↔ IsFilled self.now lid }
    {
        match value_of(&self.slots, lid) {
            Some(value) => Shown::Filled(value),
            None => {
                if has_position(&self.gone, lid) {
                    Shown::Gone
                } else {
                    Shown::Empty
                }
            }
        }
    }

    /// Whether a value was let go at some position from `low` up to but not at `top`.
    pub fn has_gone_within(&self, low: Lid, top: Lid) -> bool
        ensures { result ≡ is_some_within low top self.now.gone }
    {
        has_position_within(&self.gone, low, top)
    }

    /// Its entries: what stands where, by rising position.
    pub fn entries(&self) -> &[Slot<T>]
        ensures value { result.now ≡ self.now.entries }
        ensures rising { AreRising self.now.entries }
    {
        &self.slots
    }

    /// The least position above `lid` at which a value stands, or `None` exactly where there is none.
    pub fn after(&self, lid: Lid) -> Option<Lid>
        ensures value { result ≡ option_map (λ slot. slot.lid) (entry_after lid self.now.entries) }
        ensures least { IfSome result (λ next. IsNextFilled lid self.now.entries next) }
        ensures none { IsNone result → (q : ℕ) → lid < q → value_at q self.now.entries ≡ None }
    {
        match self.next_after(lid) {
            Some(slot) => Some(slot.lid),
            None => None,
        }
    }

    /// The entry at that position, with its value. Positions rise along the entries, so no other entry above `lid` is
    /// nearer.
    pub fn next_after(&self, lid: Lid) -> Option<&Slot<T>>
        ensures value { option_copied result ≡ entry_after lid self.now.entries }
        ensures rising { AreRising self.now.entries }
    {
        slot_after(&self.slots, lid)
    }

    /// The mark: one more than the greatest own position up to which every own one is filled, and
    /// 1 where there is none.
    pub fn filled(&self) -> Lid
        ensures mark { IsMark self.now result }
        ensures value { result ≡ mark_of self.now }
        ensures within { (1 ≤ result) × (result ≤ NUMBERS_END) }
    {
        self.mark
    }
}
