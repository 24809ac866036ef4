//! Slots by rising position, and the mark past those that are filled.

ghost use Rattle.std.specs.Prelude.{◌≡◌, ℕ, ◌^◌, ◌<◌, ◌≤◌, ◌↔◌, length, IsTrue};
ghost use Rattle.std.specs.List.{AllWithin};
ghost use Rattle.std.specs.Option.{option_copied};
ghost use Rattle.flstore_rounds.specs.Epochs.{last_epoch};
ghost use Rattle.maintainer.specs.Maintainers.{AreRising, AreRisingPositions, IsOwnedBy, IsFilledBy, entry_after, value_at};
ghost use Rattle.maintainer.specs.Marks.{IsMarkOf, IsOwnReached};
ghost use Rattle.cz_base.specs.declared.limits.TheConstants.{NUMBERS_END};

use crate::positions::has_position;
use cz_base::Lid;
use flstore_rounds::Epochs;

/// A position and the value that stands there.
#[derive(Debug, Drop)]
pub struct Slot<T> {
    /// The position in the log, from 1.
    pub lid: Lid,
    pub value: T,
}

/// How many slots are below the position.
pub(crate) fn slots_below<T>(slots: &[Slot<T>], lid: Lid) -> usize
    requires { AreRising slots.now }
    ensures within { result ≤ length slots.now }
    ensures below { AllWithin (λ slot. slot.lid < lid) slots.now 0 result }
    ensures above { AllWithin (λ slot. lid ≤ slot.lid) slots.now result (length slots.now) }
{
    match slots.last() {
        Some(last) if last.lid < lid => slots.len(),
        _ => slots.partition_point(|slot| slot.lid < lid),
    }
}

/// The first slot above the position.
pub(crate) fn slot_after<T>(slots: &[Slot<T>], lid: Lid) -> Option<&Slot<T>>
    requires { AreRising slots.now }
    ensures { option_copied result ≡ entry_after lid slots.now }
{
    let at = slots.partition_point(|slot| slot.lid <= lid);
    if at < slots.len() {
        Some(&slots[at])
    } else {
        None
    }
}

/// The value that stands at the position.
pub(crate) fn value_of<T>(slots: &[Slot<T>], lid: Lid) -> Option<&T>
    requires { AreRising slots.now }
    ensures { option_copied result ≡ value_at lid slots.now }
{
    let Some(slot) = slots.get(slots_below(slots, lid)) else {
        return None;
    };
    if slot.lid == lid {
        Some(&slot.value)
    } else {
        None
    }
}

/// Whether the position is filled, by a value or as gone.
fn is_filled<T>(slots: &[Slot<T>], gone: &[Lid], lid: Lid) -> bool
    requires slots { AreRising slots.now }
    requires gone { AreRisingPositions gone.now }
    ensures { IsTrue result ↔ IsFilledBy slots.now gone.now lid }
{
    match value_of(slots, lid) {
        Some(_) => true,
        None => has_position(gone, lid),
    }
}

/// The mark, where the own positions below `from` have no gap.
pub(crate) fn mark_past<T>(
    epochs: &Epochs,
    number: u32,
    slots: &[Slot<T>],
    gone: &[Lid],
    from: Lid,
) -> Lid
    requires member { number < (last_epoch epochs.now).members }
    requires slots { AreRising slots.now }
    requires gone { AreRisingPositions gone.now }
    requires small { (p : ℕ) → IsFilledBy slots.now gone.now p → p < NUMBERS_END }
    requires from { (1 ≤ from) × (from ≤ NUMBERS_END) }
    requires reached { IsOwnReached (IsOwnedBy epochs.now number) (IsFilledBy slots.now gone.now) from }
    ensures mark { IsMarkOf (IsOwnedBy epochs.now number) (IsFilledBy slots.now gone.now) result }
{
    let mut mark = from;
    loop {
        let next = epochs.next_own(number, mark);
        if !is_filled(slots, gone, next) {
            return mark;
        }
        mark = next + 1;
    }
}
