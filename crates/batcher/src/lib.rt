//! A batcher collects items and sends each to its filter: a record to the champion of its number, a
//! draft by its session.
//!
//! Model: a [`Batcher`] is seen as the list of its items in the order in which they came.
//!
//! To the layer above: a flush loses no item, keeps their order and names the one filter that each belongs
//! to (`parcel_of`); after want of memory the batcher is as before.
//!
//! Decided: a flush takes the memory for its answer first, so that it moves every item or none.
//!
//! Tests: the crate `test_filters`.
#![tactic(auto)]

ghost use Rattle.std.specs.Prelude.{◌≡◌, [], ◌∷◌, ◌++◌, ◌+◌, ◌<◌, ◌≤◌, All, map, vec_capacity, vec_len, IfErr, IfOk, OnErr, OnOk};
ghost use Rattle.batcher.specs.Batchers.{filter_for, parcel_of, HasNumber};

use causal_deps::Item;
use cz_base::{Back, NoMemory, Seq};
use std::alloc::Global;
use std::marker::Model;
use toid_filter::Champions;

/// An item with the number of the filter that it goes to.
#[derive(Debug, Drop)]
pub struct Parcel {
    /// The number of the filter, from 0.
    pub filter: u32,
    pub item: Item,
}

/// Items in the order in which they came.
#[derive(Debug, Drop)]
pub struct Batcher {
    items: Seq<Item>,
}

impl Model for Batcher {
    ghost use Rattle.std.specs.Prelude.{List};
    ghost use Rattle.causal_deps.specs.declared.record.Item.{Item};

    ghost Value = { List Item };

    ghost view = { λ batcher. batcher.items };
}

impl Batcher {
    /// A batcher with no items.
    pub fn new(alloc: Global) -> Self
        ensures { result ≡ [] }
    {
        Batcher {
            items: Seq::new(alloc),
        }
    }

    /// The item goes last. After want of memory it comes back.
    pub fn add(&mut self, item: Item) -> Result<(), Back<Item>>
        ensures ok { OnOk result (self.new ≡ self.old ++ item ∷ []) }
        ensures err { OnErr result (self.new ≡ self.old) }
        ensures back { IfErr result (λ back. back.value ≡ item) }
    {
        self.items.push(item)
    }

    /// Hands out each item with its filter, of so many, in order. After want of memory the batcher is as before.
    pub fn flush(&mut self, champions: &Champions, filters: u32) -> Result<Seq<Parcel>, NoMemory>
        requires filters { 1 ≤ filters }
        requires numbers { All HasNumber self.old }
        ensures ok { IfOk result (λ parcels. parcels ≡ map (parcel_of champions.now filters) self.old) }
        ensures after { OnOk result (self.new ≡ []) }
        ensures err { OnErr result (self.new ≡ self.old) }
    {
        let mut parcels = Vec::with_capacity(self.items.alloc(), self.items.len())?;
        for item in self.items.take().into_vec() {
            let filter = filter_for(champions, filters, &item);
            parcels.push_reserved(Parcel { filter, item });
        }
        Ok(Seq::from_vec(parcels))
    }
}

/// The filter that an item goes to.
fn filter_for(champions: &Champions, filters: u32, item: &Item) -> u32
    requires filters { 1 ≤ filters }
    requires number { HasNumber item.now }
    ensures { result ≡ filter_for champions.now filters item.now }
{
    match item {
        Item::Local(draft) => draft.session % filters,
        Item::External(rec) => champions.champion(rec.host, rec.toid),
    }
}
