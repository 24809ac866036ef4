//! Which records of the maintainers a sender may send.

ghost use Rattle.std.specs.Prelude.{◌≡◌, filter, find, nat_lt};
ghost use Rattle.std.specs.Option.{option_copied, option_map};
ghost use Rattle.maintainer.specs.Maintainers.{AreRising};
ghost use Rattle.sender_receiver.specs.Choosing.{is_new, is_new_above, next_new};
ghost use Rattle.stage_world.specs.MoreTurns.{stock_of, stocked};
ghost use Rattle.stage_turns.specs.Told.{nearer_of};

use crate::sender_stock::SenderStock;
use causal_deps::Record;
use cz_base::{DcId, Lid, Toid};
use maintainer::Slot;
use sender_receiver::{Stock, is_news};

impl<'a> SenderStock<'a> {
    /// The record at the least position above `lid`.
    pub fn next(&self, lid: Lid) -> Option<&'a Slot<Record>>
        ensures { option_map stocked (option_copied result) ≡ find (λ x. nat_lt lid x.lid) (stock_of self.now.maintainers.now self.now.k self.now.senders) }
    {
        let mut nearest = None;
        for maintainer in self.maintainers.as_slice() {
            if maintainer.number() % self.senders == self.k {
                nearest = nearer(nearest, maintainer.next_after(lid));
            }
        }
        nearest
    }

    /// The first record above `lid` that is of this host and above the number that is known. Each maintainer is searched
    /// once for where to begin, and its entries are then looked at one after another.
    pub fn next_news(&self, host: DcId, known: Toid, lid: Lid) -> Option<&'a Slot<Record>>
        ensures { option_map stocked (option_copied result) ≡ next_new host known lid (stock_of self.now.maintainers.now self.now.k self.now.senders) }
    {
        let mut nearest = None;
        for maintainer in self.maintainers.as_slice() {
            if maintainer.number() % self.senders == self.k {
                let news = first_news_above(maintainer.entries(), host, known, lid);
                nearest = nearer(nearest, news);
            }
        }
        nearest
    }
}

// The first entry above `lid` whose record is of this host and above the number that is known.
fn first_news_above(
    entries: &[Slot<Record>],
    host: DcId,
    known: Toid,
    lid: Lid,
) -> Option<&Slot<Record>>
    requires { AreRising entries.now }
    ensures { option_copied result ≡ find (λ e. is_new_above host known lid (stocked e)) entries.now }
{
    first_news(above(entries, lid), host, known)
}

// The entries above `lid`.
fn above(entries: &[Slot<Record>], lid: Lid) -> &[Slot<Record>]
    requires { AreRising entries.now }
    ensures { result.now ≡ filter (λ e. nat_lt lid e.lid) entries.now }
{
    let start = entries.partition_point(|slot| slot.lid <= lid);
    &entries[start..]
}

// The first entry whose record is of this host and above the number that is known.
fn first_news(entries: &[Slot<Record>], host: DcId, known: Toid) -> Option<&Slot<Record>>
    ensures { option_copied result ≡ find (λ e. is_new host known e.value) entries.now }
{
    entries
        .iter()
        .find(|slot| is_news(&slot.value, host, known))
}

// The one at the lesser position.
fn nearer<'a>(a: Option<&'a Slot<Record>>, b: Option<&'a Slot<Record>>) -> Option<&'a Slot<Record>>
    ensures { option_copied result ≡ nearer_of (option_copied a.entry) (option_copied b.entry) }
{
    match (a, b) {
        (Some(first), Some(second)) if second.lid < first.lid => Some(second),
        (Some(first), _) => Some(first),
        (None, other) => other,
    }
}

impl<'a> Stock for SenderStock<'a> {
    ghost use Rattle.stage_world.specs.MoreTurns.{stock_of};

    ghost held = { λ stock. stock_of stock.maintainers.now stock.k stock.senders };

    ghost rising = { λ stock. stock.rising };

    fn after(&self, lid: Lid) -> Option<Lid> {
        match self.next(lid) {
            Some(slot) => Some(slot.lid),
            None => None,
        }
    }

    fn rec(&self, lid: Lid) -> &Record {
        match self.next(lid - 1) {
            Some(slot) => &slot.value,
            None => unreachable!(),
        }
    }

    fn next_new(&self, host: DcId, known: Toid, lid: Lid) -> Option<(Lid, &Record)> {
        match self.next_news(host, known, lid) {
            Some(slot) => Some((slot.lid, &slot.value)),
            None => None,
        }
    }
}
