//! Whether two names are the same, and whether two answers are.
ghost use Rattle.std.specs.Prelude.{◌≡◌, ◌↔◌, IsTrue};
ghost use Rattle.std.specs.Str.{bytes_eq};

use abstract_log::{Answer, Found, ReadAnswer};
use causal_deps::Place;
use cz_base::{Body, Name};

pub(crate) fn same_name(name: &Name, other: &Name) -> bool
    ensures same { IsTrue result ↔ (name.now ≡ other.now) }
    ensures bytes { result ≡ bytes_eq name.now other.now }
{
    name.as_bytes() == other.as_bytes()
}

/// Whether two lists of names are the same.
pub(crate) fn same_names(names: &[Name], others: &[Name]) -> bool
    ensures { IsTrue result ↔ (names.now ≡ others.now) }
{
    if names.len() != others.len() {
        return false;
    }
    for at in 0..names.len() {
        if !same_name(&names[at], &others[at]) {
            return false;
        }
    }
    true
}

fn same_body(body: &Body, other: &Body) -> bool
    ensures { IsTrue result ↔ (body.now ≡ other.now) }
{
    body.as_bytes() == other.as_bytes()
}

fn same_place(place: &Place, other: &Place) -> bool
    ensures { IsTrue result ↔ (place.now ≡ other.now) }
{
    place == other
}

fn same_places(places: &[Place], others: &[Place]) -> bool
    ensures { IsTrue result ↔ (places.now ≡ others.now) }
{
    if places.len() != others.len() {
        return false;
    }
    for at in 0..places.len() {
        if !same_place(&places[at], &others[at]) {
            return false;
        }
    }
    true
}

fn same_found(found: &Found, other: &Found) -> bool
    ensures { IsTrue result ↔ (found.now ≡ other.now) }
{
    match found {
        Found::Absent => match other {
            Found::Absent => true,
            Found::At { .. } => false,
            Found::Deleted { .. } => false,
        },
        Found::At { place, body } => match other {
            Found::Absent => false,
            Found::At { place: p, body: b } => same_place(place, p) && same_body(body, b),
            Found::Deleted { .. } => false,
        },
        Found::Deleted { place } => match other {
            Found::Absent => false,
            Found::At { .. } => false,
            Found::Deleted { place: p } => same_place(place, p),
        },
    }
}

fn same_items(items: &[Found], others: &[Found]) -> bool
    ensures { IsTrue result ↔ (items.now ≡ others.now) }
{
    if items.len() != others.len() {
        return false;
    }
    for at in 0..items.len() {
        if !same_found(&items[at], &others[at]) {
            return false;
        }
    }
    true
}

fn same_read(shown: &ReadAnswer, other: &ReadAnswer) -> bool
    ensures { IsTrue result ↔ (shown.now ≡ other.now) }
{
    match shown {
        ReadAnswer::Beyond => match other {
            ReadAnswer::Beyond => true,
            ReadAnswer::Gone => false,
            ReadAnswer::Shown { .. } => false,
        },
        ReadAnswer::Gone => match other {
            ReadAnswer::Gone => true,
            ReadAnswer::Beyond => false,
            ReadAnswer::Shown { .. } => false,
        },
        ReadAnswer::Shown {
            place,
            kind,
            body,
            tags,
        } => match other {
            ReadAnswer::Beyond => false,
            ReadAnswer::Gone => false,
            ReadAnswer::Shown {
                place: p,
                kind: k,
                body: b,
                tags: t,
            } => {
                same_place(place, p)
                    && kind == k
                    && same_body(body, b)
                    && same_names(tags.as_slice(), t.as_slice())
            }
        },
    }
}

pub(crate) fn same_answer(answer: &Answer, other: &Answer) -> bool
    ensures { IsTrue result ↔ (answer.now ≡ other.now) }
{
    match answer {
        Answer::Written(place) => match other {
            Answer::Written(p) => same_place(place, p),
            Answer::Items(_) => false,
            Answer::Read(_) => false,
            Answer::Last(_) => false,
        },
        Answer::Items(items) => match other {
            Answer::Items(i) => same_items(items.as_slice(), i.as_slice()),
            Answer::Written(_) => false,
            Answer::Read(_) => false,
            Answer::Last(_) => false,
        },
        Answer::Read(shown) => match other {
            Answer::Read(s) => same_read(shown, s),
            Answer::Written(_) => false,
            Answer::Items(_) => false,
            Answer::Last(_) => false,
        },
        Answer::Last(places) => match other {
            Answer::Last(p) => same_places(places.as_slice(), p.as_slice()),
            Answer::Written(_) => false,
            Answer::Items(_) => false,
            Answer::Read(_) => false,
        },
    }
}
