//! What stands, by position, and what waits, by number.

ghost use Rattle.std.specs.Prelude.{◌≡◌, fold, IfOk, OnOk};
ghost use Rattle.flstore_service.specs.Running.{all_kept, places_of, put_kept, put_place};

use crate::service::{Service, Submission};
use crate::{FlKept, FlPlace};
use cz_base::{Lid, NoMemory, Seq};
use maintainer::Slot;
use post_assignment::WaitList;
use std::alloc::Global;
use std::collections::BTreeMap;

/// What stands in the log, by position.
pub fn places_by_position(alloc: Global, service: &Service) -> Result<Seq<FlPlace>, NoMemory>
    ensures { IfOk result (λ places. places ≡ places_of service.now) }
{
    let mut places = BTreeMap::new(alloc);
    for member in service.members.as_slice() {
        put_places(&mut places, member.appender.maintainer().entries())?;
    }
    let mut listed = Seq::from_vec(Vec::with_capacity(alloc, places.len())?);
    for place in places.into_values() {
        listed.push(place)?;
    }
    Ok(listed)
}

// What stands at the positions of one maintainer.
fn put_places(
    places: &mut BTreeMap<Lid, FlPlace>,
    entries: &[Slot<Submission>],
) -> Result<(), NoMemory>
    ensures { OnOk result (places.new.entries ≡ fold put_place places.old.entries entries.now) }
{
    for entry in entries {
        let place = FlPlace {
            lid: entry.lid,
            number: entry.value.number,
            body: entry.value.body.copy()?,
        };
        places.insert(entry.lid, place)?;
    }
    Ok(())
}

/// What waits, by number.
pub fn kept_by_number(alloc: Global, service: &Service) -> Result<Seq<FlKept>, NoMemory>
    ensures { IfOk result (λ kept. kept ≡ all_kept service.now) }
{
    let mut kept = BTreeMap::new(alloc);
    for member in service.members.as_slice() {
        let number = member.appender.maintainer().number();
        put_kept(&mut kept, number, member.appender.waiting())?;
    }
    let mut listed = Seq::from_vec(Vec::with_capacity(alloc, kept.len())?);
    for value in kept.into_values() {
        listed.push(value)?;
    }
    Ok(listed)
}

// What waits for one maintainer.
fn put_kept(
    kept: &mut BTreeMap<u32, FlKept>,
    member: u32,
    waiting: &WaitList<Submission>,
) -> Result<(), NoMemory>
    ensures { OnOk result (kept.new.entries ≡ fold (put_kept member) kept.old.entries waiting.now.waiting) }
{
    for waits in waiting.values() {
        let number = waits.value.number;
        let value = FlKept {
            number,
            member,
            bound: waits.bound,
        };
        kept.insert(number, value)?;
    }
    Ok(())
}
