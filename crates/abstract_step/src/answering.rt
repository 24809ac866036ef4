//! What the answer of a command is.
ghost use Rattle.std.specs.Prelude.{◌≡◌, ◌<◌, ◌≤◌, length, map, IfOk, Some};
ghost use Rattle.std.specs.Option.{option_copied};
ghost use Rattle.causal_deps.specs.Logs.{record_at};
ghost use Rattle.abstract_log.specs.Answers.{answer_to, found_at, found_record, has_tag, is_update_of, last_of, newest, places_with, read_in};
ghost use Rattle.abstract_log.specs.Shapes.{IsShaped};
ghost use Rattle.abstract_log.specs.Worlds.{log_of};

use crate::comparing::same_name;
use abstract_log::{Answer, Command, Found, ReadAnswer, World};
use causal_deps::{Kind, Place, Record};
use cz_base::{DcId, Lid, Name, NoMemory, Seq};
use std::alloc::Global;

/// Whether the record has the tag.
fn has_tag(tag: &Name, rec: &Record) -> bool
    ensures { result ≡ has_tag tag.now rec.now }
{
    rec.tags.as_slice().iter().any(|name| same_name(name, tag))
}

/// Whether the record puts a value under the key, or deletes it.
fn is_update_of(key: &Name, rec: &Record) -> bool
    ensures { result ≡ is_update_of key.now rec.now }
{
    rec.kind.is_update() && has_tag(key, rec)
}

/// The greatest position up to s with an update of the key.
fn newest(log: &[Record], key: &Name, s: u64) -> Option<u64>
    requires { s ≤ length log.now }
    ensures { result ≡ newest log.now key.now s }
{
    let mut p = s;
    while p > 0 {
        if is_update_of(key, &log[(p - 1) as usize]) {
            return Some(p);
        }
        p -= 1;
    }
    None
}

/// The record at a position.
fn record_at(log: &[Record], p: u64) -> Option<&Record>
    ensures { option_copied result ≡ record_at log.now p }
{
    if p == 0 {
        return None;
    }
    log.get((p - 1) as usize)
}

/// What the record at position p tells of its key.
fn found_by(p: u64, rec: &Record) -> Result<Found, NoMemory>
    ensures { IfOk result (λ found. found ≡ found_record p (Some rec.now)) }
{
    let place = Place {
        lid: p,
        host: rec.host,
        toid: rec.toid,
    };
    match rec.kind {
        Kind::Append => Ok(Found::Absent),
        Kind::Put => {
            let body = rec.body.copy()?;
            Ok(Found::At { place, body })
        }
        Kind::Del => Ok(Found::Deleted { place }),
    }
}

/// What a look-up of the key finds at position s.
fn found(log: &[Record], s: u64, key: &Name) -> Result<Found, NoMemory>
    requires { s ≤ length log.now }
    ensures { IfOk result (λ found. found ≡ found_at log.now s key.now) }
{
    let Some(p) = newest(log, key, s) else {
        return Ok(Found::Absent);
    };
    let Some(rec) = record_at(log, p) else {
        return Ok(Found::Absent);
    };
    found_by(p, rec)
}

/// What look-ups of the keys find at position s.
fn items(alloc: Global, log: &[Record], s: u64, keys: &[Name]) -> Result<Seq<Found>, NoMemory>
    requires { s ≤ length log.now }
    ensures { IfOk result (λ items. items ≡ map (found_at log.now s) keys.now) }
{
    let mut items = Seq::new(alloc);
    for key in keys {
        items.push(found(log, s, key)?)?;
    }
    Ok(items)
}

/// What stands at position p, seen at position s.
fn read(log: &[Record], gone: &[Lid], p: u64, s: u64) -> Result<ReadAnswer, NoMemory>
    ensures { IfOk result (λ shown. shown ≡ read_in log.now gone.now p s) }
{
    if s < p {
        return Ok(ReadAnswer::Beyond);
    }
    if gone.contains(&p) {
        return Ok(ReadAnswer::Gone);
    }
    let Some(rec) = record_at(log, p) else {
        return Ok(ReadAnswer::Beyond);
    };
    let body = rec.body.copy()?;
    let tags = rec.tags.copy()?;
    Ok(ReadAnswer::Shown {
        place: Place {
            lid: p,
            host: rec.host,
            toid: rec.toid,
        },
        kind: rec.kind,
        body,
        tags,
    })
}

/// The places of the records with the tag.
fn tagged_places(alloc: Global, log: &[Record], tag: &Name) -> Result<Vec<Place>, NoMemory>
    ensures { IfOk result (λ places. places.items ≡ places_with tag.now 1 log.now) }
{
    let mut places = Vec::new(alloc);
    for (at, rec) in log.iter().enumerate() {
        if has_tag(tag, rec) {
            places.push(Place {
                lid: at as u64 + 1,
                host: rec.host,
                toid: rec.toid,
            })?;
        }
    }
    Ok(places)
}

/// The last n places of the records with the tag.
fn last_places(alloc: Global, log: &[Record], tag: &Name, n: u32) -> Result<Seq<Place>, NoMemory>
    ensures { IfOk result (λ places. places ≡ last_of n (places_with tag.now 1 log.now)) }
{
    let places = tagged_places(alloc, log, tag)?;
    let first = places.len().saturating_sub(n as usize);
    let last = Vec::from_slice(alloc, &places[first..])?;
    Ok(Seq::from_vec(last))
}

/// The answer to a command at datacentre d and position s: a write has none.
pub(crate) fn answer_to(
    world: &World,
    d: DcId,
    command: &Command,
    s: Lid,
) -> Result<Option<Answer>, NoMemory>
    requires shaped { IsShaped world.now }
    requires there { d < world.now.workload.dcs }
    requires within { s ≤ length (log_of world.now d) }
    ensures { IfOk result (λ answer. answer ≡ answer_to world.now d command.now s) }
{
    let at = d.number() as usize;
    let alloc = world.logs.alloc();
    let log = world.logs.as_slice()[at].as_slice();
    let gone = world.gone.as_slice()[at].as_slice();
    match command {
        Command::Append { .. } => Ok(None),
        Command::Put { .. } => Ok(None),
        Command::Del { .. } => Ok(None),
        Command::Get { key } => {
            let found = found(log, s, key)?;
            let mut items = Seq::new(alloc);
            items.push(found)?;
            Ok(Some(Answer::Items(items)))
        }
        Command::Tx { keys } => {
            let items = items(alloc, log, s, keys.as_slice())?;
            Ok(Some(Answer::Items(items)))
        }
        Command::Read { lid } => {
            let shown = read(log, gone, *lid, s)?;
            Ok(Some(Answer::Read(shown)))
        }
        Command::Last { tag, count } => {
            let places = last_places(alloc, &log[..s as usize], tag, *count)?;
            Ok(Some(Answer::Last(places)))
        }
    }
}
