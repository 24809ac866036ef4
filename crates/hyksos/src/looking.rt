//! What a shelf shows of a key, a tag or a position, seen at one position.
ghost use Rattle.std.specs.Prelude.{◌≡◌, ◌<◌, ◌≤◌, ℕ, List, IfOk, IsSome, Some};
ghost use Rattle.causal_deps.specs.declared.record.Record.{Record as RecordValue};
ghost use Rattle.abstract_log.specs.Answers.{place_at, read_in, shown_record};
ghost use Rattle.hyksos.specs.Shelves.{pin_of};
ghost use Rattle.hyksos.specs.Looking.{key_seen, tag_seen};

use crate::Shelf;
use abstract_log::{Found, ReadAnswer};
use causal_deps::{LastFault, Newest, Place, Record, Shown};
use cz_base::{Lid, Name, NoMemory, Seq};

/// What a look-up sees at a pinned position.
#[derive(Debug, Drop)]
pub(crate) enum Seen {
    // The indexer covers the log only up to there.
    Behind { covered: Lid },
    Key(Found),
    // Every key is found already.
    Whole,
    Places(Seq<Place>),
}

/// What the last update of a key at a pinned position tells: a put its value, which is read where it stands, a del
/// that there is none.
pub(crate) fn look_up<V: Shelf>(shelf: &V, key: &Name, s: Lid) -> Result<Seen, NoMemory>
    requires log { (log : List RecordValue) × V.shows shelf.now log }
    requires pin { (n : ℕ) × (pin_of (V.held shelf.now) n ≡ Some s) }
    ensures { (log : List RecordValue) → V.shows shelf.now log → IfOk result (λ seen. seen ≡ key_seen log (V.held shelf.now) key.now s) }
{
    match shelf.newest(key, s) {
        Newest::Behind { covered } => Ok(Seen::Behind { covered }),
        Newest::Absent => Ok(Seen::Key(Found::Absent)),
        Newest::Deleted { place } => Ok(Seen::Key(Found::Deleted { place })),
        Newest::Found { lid } => match shelf.shown(lid) {
            Shown::Filled(rec) => Ok(Seen::Key(found_value(lid, rec)?)),
            Shown::Gone => unreachable!(),
            Shown::Empty => unreachable!(),
        },
    }
}

/// The places of the last records with a tag at a position.
pub(crate) fn list<V: Shelf>(shelf: &V, tag: &Name, count: u32, s: Lid) -> Result<Seen, NoMemory>
    requires { (log : List RecordValue) × V.shows shelf.now log }
    ensures { (log : List RecordValue) → V.shows shelf.now log → IfOk result (λ seen. seen ≡ tag_seen log (V.held shelf.now) tag.now count s) }
{
    match shelf.last(tag, count, s) {
        Ok(places) => Ok(Seen::Places(places)),
        Err(LastFault::Behind { covered }) => Ok(Seen::Behind { covered }),
        Err(LastFault::NoMemory) => Err(NoMemory),
    }
}

/// What stands at a position, seen at the head.
pub(crate) fn read<V: Shelf>(shelf: &V, lid: Lid, head: Lid) -> Result<ReadAnswer, NoMemory>
    requires first { 1 ≤ lid }
    requires log { (log : List RecordValue) × V.shows shelf.now log }
    requires head { head ≡ (V.held shelf.now).head }
    ensures { (log : List RecordValue) → V.shows shelf.now log → IfOk result (λ shown. shown ≡ read_in log (V.held shelf.now).gone lid head) }
{
    if head < lid {
        return Ok(ReadAnswer::Beyond);
    }
    match shelf.shown(lid) {
        Shown::Filled(rec) => shown_record(lid, rec),
        Shown::Gone => Ok(ReadAnswer::Gone),
        Shown::Empty => unreachable!(),
    }
}

// The value that a put at a position wrote.
fn found_value(lid: Lid, rec: &Record) -> Result<Found, NoMemory>
    ensures { IfOk result (λ found. found ≡ Found.At (place_at lid rec.now) rec.now.body) }
{
    Ok(Found::At {
        place: Place {
            lid,
            host: rec.host,
            toid: rec.toid,
        },
        body: rec.body.copy()?,
    })
}

fn shown_record(lid: Lid, rec: &Record) -> Result<ReadAnswer, NoMemory>
    ensures { IfOk result (λ shown. shown ≡ shown_record lid (Some rec.now)) }
{
    Ok(ReadAnswer::Shown {
        place: Place {
            lid,
            host: rec.host,
            toid: rec.toid,
        },
        kind: rec.kind,
        body: rec.body.copy()?,
        tags: rec.tags.copy()?,
    })
}
