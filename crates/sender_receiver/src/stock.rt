//! Stocks: what a sender finds its records in.

ghost use Rattle.std.specs.Prelude.{◌≡◌, List, IsSome, Some};
ghost use Rattle.std.specs.Option.{option_map};
ghost use Rattle.sender_receiver.specs.Stocks.{Stocked, IsRisingFrom, place_after, record_placed};
ghost use Rattle.sender_receiver.specs.Choosing.{is_new_above, next_new};

use crate::choosing::is_news;
use causal_deps::Record;
use cz_base::{DcId, Lid, Seq, Toid};

/// The records that a sender may tell, by rising place.
pub trait Stock {
    /// The records and their places.
    ghost held: { Self → List Stocked };

    /// The least place above `lid`, or `None` exactly where there is none.
    fn after(&self, lid: Lid) -> Option<Lid>
        ensures { result ≡ place_after (held self.now) lid };

    /// The record at the place `lid`, which is there.
    fn rec(&self, lid: Lid) -> &Record
        requires { IsSome (record_placed (held self.now) lid) }
        ensures { record_placed (held self.now) lid ≡ Some result.now };

    /// The first record above the place `lid` that is of this host and above the number that is known,
    /// and its place; or `None` exactly where there is none.
    fn next_new(&self, host: DcId, known: Toid, lid: Lid) -> Option<(Lid, &Record)>
        ensures { option_map (λ found. record { lid = found.0; rec = found.1.now }) result ≡ next_new host known lid (held self.now) };

    /// Places rise, and count from 1.
    ghost rising: { (stock : Self) → IsRisingFrom 0 (held stock) };
}

/// A list of records as a stock: its first record stands at place 1, and so on.
impl Stock for Seq<Record> {
    ghost use Rattle.sender_receiver.specs.Stocks.{stocked_from, stocked_rise};
    ghost use Rattle.std.proofs.Common.{arith};

    ghost held = { stocked_from 1 };

    ghost rising = { λ records. stocked_rise 1 0 records (Prim.omega arith) };

    fn after(&self, lid: Lid) -> Option<Lid> {
        if lid < self.len() as u64 {
            Some(lid + 1)
        } else {
            None
        }
    }

    fn rec(&self, lid: Lid) -> &Record {
        match self.get(lid as usize - 1) {
            Some(rec) => rec,
            None => unreachable!(),
        }
    }

    fn next_new(&self, host: DcId, known: Toid, lid: Lid) -> Option<(Lid, &Record)> {
        for (at, rec) in self.as_slice().iter().enumerate() {
            let place = at as u64 + 1;
            if is_new_above(lid, place, rec, host, known) {
                return Some((place, rec));
            }
        }
        None
    }
}

// Whether the record at a place above `lid` is of this host, and above the number that is known.
fn is_new_above(lid: Lid, place: Lid, rec: &Record, host: DcId, known: Toid) -> bool
    ensures { result ≡ is_new_above host known lid (record { lid = place; rec = rec.now }) }
{
    lid < place && is_news(rec, host, known)
}
