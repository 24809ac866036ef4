//! What waits: values by arrival, found by their bounds.

ghost use Rattle.std.specs.Prelude.{◌≡◌, ◌+◌, ◌<◌, ◌≤◌, [], ◌∷◌, ◌++◌, length, All, slice_get, ℕ, Option, IfErr, IfNone, MatchOption, OnErr, OnOk};
ghost use Rattle.std.specs.Option.{option_map};
ghost use Rattle.std.specs.Ordering.{nat_cmp, ordering_then};
ghost use Rattle.std.specs.List.Sorted.{IsStrictlySortedBy};
ghost use Rattle.std.specs.BTreeMap.{IsOrdered};
ghost use Rattle.std.specs.Map.{keys_of};
ghost use Rattle.std.specs.Map.Iter.{ShowsInOrder, deref};
ghost use Rattle.std.specs.BinaryHeap.{KeepsHeap, heap_capacity, heap_items, heap_len};
ghost use Rattle.post_assignment.specs.Waiting.{IsSplit, first_below, without_first_below};

use cz_base::{Back, Lid, NoMemory};
use std::alloc::Global;
use std::cmp::Reverse;
use std::collections::btree_map::Values;
use std::collections::{BTreeMap, BTreeSet, BinaryHeap};
use std::marker::Model;

/// A value that waits for a position above its bound.
#[derive(Debug, Drop)]
pub struct Waiting<T> {
    /// The position above which the value has to stand.
    pub bound: Lid,
    pub value: T,
}

/// Values that wait. Contracts see them as a list in order of arrival, with the limit below which those that may go
/// in have their bounds, 0 where none is ready.
#[derive(Debug, Drop)]
pub struct WaitList<T> {
    by_arrival: BTreeMap<u64, Waiting<T>>,
    // Those that are not ready, by bound and then by arrival.
    by_bound: BTreeSet<(Lid, u64)>,
    // Those that may go in, by arrival. There is room for all that wait.
    ready: BinaryHeap<Reverse<u64>>,
    limit: Lid,
    arrived: u64,
}

impl<T> Model for WaitList<T> {
    ghost use Rattle.post_assignment.specs.Waiting.{WaitState, wait_code};
    ghost use Rattle.std.specs.Prelude.{◌+◌, ◌≤◌, length};
    ghost use Rattle.std.specs.Map.{values_of};
    ghost use Rattle.std.specs.BinaryHeap.{heap_capacity, heap_items, heap_len};
    ghost use Rattle.post_assignment.specs.Waiting.{AreTied};

    ghost Value = { WaitState T };

    ghost coded = { wait_code T.code };

    ghost view = { λ w. record { limit = w.limit; waiting = values_of w.by_arrival.entries } };

    ghost invariant = { λ w. AreTied w.by_arrival.entries w.by_bound.keys (heap_items w.ready) w.limit w.arrived × (length w.by_bound.keys + heap_len w.ready ≤ heap_capacity w.ready) };
}

impl<T> WaitList<T> {
    /// Nothing waits.
    pub fn new(alloc: Global) -> Self
        ensures { result ≡ record { limit = 0; waiting = [] } }
    {
        WaitList {
            by_arrival: BTreeMap::new(alloc),
            by_bound: BTreeSet::new(alloc),
            ready: BinaryHeap::new(alloc),
            limit: 0,
            arrived: 0,
        }
    }

    /// How many values wait.
    pub fn len(&self) -> usize
        ensures { result ≡ length self.now.waiting }
    {
        self.by_arrival.len()
    }

    /// Goes over them in order of arrival.
    pub fn values(&self) -> Values<'_, u64, Waiting<T>>
        ensures values { result ≡ self.now.waiting }
        ensures runs { ShowsInOrder (deref {X = Waiting T}) }
    {
        self.by_arrival.values()
    }

    /// A value waits last. Without memory it comes back.
    pub fn push(&mut self, bound: Lid, value: T) -> Result<(), Back<T>>
        ensures ok { OnOk result (self.new ≡ record self.old { waiting = self.old.waiting ++ record { bound = bound; value = value } ∷ [] }) }
        ensures err { OnErr result (self.new ≡ self.old) }
        ensures back { IfErr result (λ back. back.value ≡ value) }
    {
        let arrival = self.arrived;
        let Some(arrived) = arrival.checked_add(1) else {
            return Err(Back { value });
        };
        let Ok(()) = self.ready.reserve(self.by_bound.len() + 1) else {
            return Err(Back { value });
        };
        if let Err(Back { value: waiting }) = insert_last(
            &mut self.by_arrival,
            arrival,
            Waiting { bound, value },
        ) {
            let Waiting { value, .. } = waiting;
            return Err(Back { value });
        }
        match self.by_bound.insert((bound, arrival)) {
            Ok(_) => {
                self.arrived = arrived;
                Ok(())
            }
            Err(_) => {
                let Some(Waiting { value, .. }) = self.by_arrival.remove(&arrival) else {
                    unreachable!()
                };
                Err(Back { value })
            }
        }
    }

    /// Takes out the first value that has its bound below the position.
    pub fn take_first_below(&mut self, lid: Lid) -> Option<T>
        requires { self.old.limit ≤ lid }
        ensures value { result ≡ option_map (λ w. w.value) (first_below lid self.old.waiting) }
        ensures rest { self.new.waiting ≡ without_first_below lid self.old.waiting }
        ensures limit { self.new.limit ≤ lid }
        ensures none { IfNone result (self.new.limit ≡ 0) }
    {
        make_ready(&mut self.by_bound, &mut self.ready, lid);
        self.limit = lid;
        let Some(Reverse(arrival)) = self.ready.pop() else {
            self.limit = 0;
            return None;
        };
        let Some(Waiting { value, .. }) = self.by_arrival.remove(&arrival) else {
            unreachable!()
        };
        Some(value)
    }
}

// One that came after all others.
fn insert_last<T>(
    by_arrival: &mut BTreeMap<u64, Waiting<T>>,
    arrival: u64,
    waiting: Waiting<T>,
) -> Result<(), Back<Waiting<T>>>
    requires { All (λ a. a < arrival) (keys_of by_arrival.old.entries) }
    ensures ok { OnOk result (by_arrival.new.entries ≡ by_arrival.old.entries ++ (arrival, waiting) ∷ []) }
    ensures sorted { IsOrdered nat_cmp by_arrival.new }
    ensures err { OnErr result (by_arrival.new.entries ≡ by_arrival.old.entries) }
    ensures back { IfErr result (λ back. back.value ≡ waiting) }
{
    match by_arrival.insert(arrival, waiting) {
        Ok(None) => Ok(()),
        Ok(Some(_replaced)) => unreachable!(),
        Err(failed) => {
            let (_, value) = failed.value;
            Err(Back { value })
        }
    }
}

// Each that has its bound below the position is ready.
fn make_ready(by_bound: &mut BTreeSet<(Lid, u64)>, ready: &mut BinaryHeap<Reverse<u64>>, lid: Lid)
    requires room { length by_bound.old.keys + heap_len ready.old ≤ heap_capacity ready.old }
    ensures room { length by_bound.new.keys + heap_len ready.new ≤ heap_capacity ready.new }
    ensures above { All (λ k. lid ≤ k.0) by_bound.new.keys }
    ensures heap { KeepsHeap (λ x y. nat_cmp y.0 x.0) (heap_items ready.old) (heap_items ready.new) }
    ensures split { (bounds : ℕ → Option ℕ) → IsSplit bounds by_bound.old.keys (heap_items ready.old) lid → IsSplit bounds by_bound.new.keys (heap_items ready.new) lid }
{
    while let Some((bound, arrival)) = first_key(by_bound) {
        if lid <= bound {
            return;
        }
        by_bound.pop_first();
        ready.push(Reverse(arrival)).unwrap();
    }
}

// The first key.
fn first_key(by_bound: &BTreeSet<(Lid, u64)>) -> Option<(Lid, u64)>
    ensures first { result ≡ slice_get by_bound.now.keys 0 }
    ensures rising { IsStrictlySortedBy (λ x y. ordering_then (nat_cmp x.0 y.0) (nat_cmp x.1 y.1)) by_bound.now.keys }
{
    if by_bound.len() == 0 {
        return None;
    }
    match by_bound.first() {
        Some(key) => Some(*key),
        None => None,
    }
}
