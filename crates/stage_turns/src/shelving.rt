//! The maintainers, vectors, indexers and floor of a datacentre as the shelf of a session.

ghost use Rattle.std.specs.Prelude.{◌≡◌, ◌↔◌, ◌^◌, ◌<◌, ◌≤◌, ℕ, Contains, IsTrue};
ghost use Rattle.cz_base.specs.declared.limits.TheConstants.{NUMBERS_END};
ghost use Rattle.std.specs.Option.{option_copied};
ghost use Rattle.std.specs.List.{list_any};
ghost use Rattle.maintainer.specs.Maintainers.{is_some_within, value_at};
ghost use Rattle.stage_world.specs.MoreTurns.{record_kept};
ghost use Rattle.stage_turns.specs.Shelves.{gone_in};

use crate::stage_shelf::StageShelf;
use causal_deps::{LastFault, Newest, Pin, Place, Record, Shown};
use cz_base::{Lid, Name, Seq};
use hyksos::Shelf;
use maintainer::Maintainer;
use tag_indexer::home;

impl<'a> Shelf for StageShelf<'a> {
    ghost use Rattle.stage_turns.specs.Shelves.{ShowsLog, shelf_of};

    ghost held = { λ shelf. shelf_of shelf.vector.now shelf.maintainers.now shelf.indexers.now shelf.floor };

    ghost shows = { λ shelf log. ShowsLog shelf.vector.now shelf.maintainers.now shelf.indexers.now shelf.floor log };

    ghost sized = { λ shelf. shelf.sized };

    ghost within = { λ shelf log shown. shown.within };

    fn head(&self) -> Lid {
        self.vector.head()
    }

    fn newest(&self, key: &Name, s: Lid) -> Newest {
        let at = home(key, self.indexers.len() as u32);
        self.indexers.as_slice()[at as usize].newest(key, s)
    }

    fn shown(&self, lid: Lid) -> Shown<'_, Record> {
        match kept_by(self.maintainers.as_slice(), lid) {
            Some(rec) => Shown::Filled(rec),
            None => {
                if has_gone(self.maintainers.as_slice(), lid) {
                    Shown::Gone
                } else {
                    Shown::Empty
                }
            }
        }
    }

    fn last(&self, tag: &Name, count: u32, s: Lid) -> Result<Seq<Place>, LastFault> {
        let at = home(tag, self.indexers.len() as u32);
        self.indexers.as_slice()[at as usize].last(tag, count, s)
    }

    fn pin(&mut self, session: u32, s: Lid) -> Pin {
        self.floor.pin(session, s)
    }

    fn unpin(&mut self, session: u32) {
        self.floor.unpin(session);
    }
}

// The record that one of the maintainers has at a position.
fn kept_by(maintainers: &[Maintainer<Record>], lid: Lid) -> Option<&Record>
    requires { 1 ≤ lid }
    ensures { option_copied result ≡ record_kept maintainers.now lid }
{
    for maintainer in maintainers {
        if let Some(rec) = kept(maintainer, lid) {
            return Some(rec);
        }
    }
    None
}

// The record that a maintainer has at a position.
fn kept(maintainer: &Maintainer<Record>, lid: Lid) -> Option<&Record>
    requires { 1 ≤ lid }
    ensures { option_copied result ≡ value_at lid maintainer.now.entries }
{
    match maintainer.next_after(lid - 1) {
        Some(slot) => {
            if slot.lid == lid {
                Some(&slot.value)
            } else {
                None
            }
        }
        None => None,
    }
}

// Whether one of the maintainers has let the position go.
fn has_gone(maintainers: &[Maintainer<Record>], lid: Lid) -> bool
    requires { (p : ℕ) → Contains (gone_in maintainers.now) p → p < NUMBERS_END }
    ensures { IsTrue result ↔ Contains (gone_in maintainers.now) lid }
{
    has_gone_within(maintainers, lid, lid.saturating_add(1))
}

// Whether one of them has let a position from `low` up to below `top` go.
fn has_gone_within(maintainers: &[Maintainer<Record>], low: Lid, top: Lid) -> bool
    ensures { result ≡ list_any (λ m. is_some_within low top m.gone) maintainers.now }
{
    maintainers
        .iter()
        .any(|maintainer| maintainer.has_gone_within(low, top))
}
