//! How a session's past takes in what it is shown.
ghost use Rattle.std.specs.Prelude.{◌≡◌};
ghost use Rattle.std.specs.List.{filter_map};
ghost use Rattle.causal_deps.specs.Counts.{raised};
ghost use Rattle.abstract_log.specs.Answers.{found_places, past_with, places_in};

use crate::{Answer, Found, ReadAnswer};
use causal_deps::{Counts, Place};

/// The past takes in the record at a place.
pub fn raise_place(past: &mut Counts, place: &Place)
    ensures { past.new ≡ raised past.old place.now.host place.now.toid }
{
    if place.host.number() < past.dcs() {
        past.raise(place.host, place.toid);
    }
}

fn raise_places(past: &mut Counts, places: &[Place])
    ensures { past.new ≡ past_with past.old places.now }
{
    for place in places {
        raise_place(past, place);
    }
}

fn raise_found(past: &mut Counts, items: &[Found])
    ensures { past.new ≡ past_with past.old (filter_map found_places items.now) }
{
    for item in items {
        match item {
            Found::Absent => {}
            Found::At { place, .. } => raise_place(past, place),
            Found::Deleted { place } => raise_place(past, place),
        }
    }
}

/// The past takes in the records that an answer shows.
pub fn raise_answer(past: &mut Counts, answer: &Answer)
    ensures { past.new ≡ past_with past.old (places_in answer.now) }
{
    match answer {
        Answer::Written(place) => raise_place(past, place),
        Answer::Items(items) => raise_found(past, items.as_slice()),
        Answer::Read(shown) => match shown {
            ReadAnswer::Beyond => {}
            ReadAnswer::Gone => {}
            ReadAnswer::Shown { place, .. } => raise_place(past, place),
        },
        Answer::Last(places) => raise_places(past, places.as_slice()),
    }
}
