//! Rows of filters: which numbers each takes, and what it then passes on.

ghost use Rattle.std.specs.Prelude.{◌≡◌, ◌≤◌};

use causal_deps::{Counts, Draft, Item, Kind, Record};
use cz_base::{Body, DcId, NoMemory, Seq, Toid};
use std::alloc::Global;
use std::process::Abort;
use std::test::Fail;
use toid_filter::{Champions, Filter, Verdict};

// All rows are of three datacentres, and of records of host 1: where so many filters share it, filter f
// gets each number that leaves the remainder f.
pub(crate) const DCS: u32 = 3;

pub(crate) const PASSED: Option<Verdict> = Some(Verdict::Passed);

pub(crate) const HELD: Option<Verdict> = Some(Verdict::Held);

pub(crate) const DROPPED: Option<Verdict> = Some(Verdict::Dropped);

// Numbers that one of two filters is offered in turn, each with what it does with it, `None` where the
// number is not its own; and the numbers that it then passes on.
struct Part {
    filter: u32,
    offers: &'static [(Toid, Option<Verdict>)],
    passed: &'static [Toid],
}

const SHARED: [Part; 7] = [
    Part {
        filter: 1,
        offers: &[
            (1, PASSED),
            (3, PASSED),
            (2, None),
            (5, PASSED),
            (7, PASSED),
            (9, PASSED),
            (11, PASSED),
        ],
        passed: &[1, 3, 5, 7, 9, 11],
    },
    Part {
        filter: 0,
        offers: &[
            (2, PASSED),
            (3, None),
            (4, PASSED),
            (6, PASSED),
            (8, PASSED),
        ],
        passed: &[2, 4, 6, 8],
    },
    Part {
        filter: 0,
        offers: &[(10, PASSED), (12, PASSED), (12, DROPPED)],
        passed: &[10, 12],
    },
    Part {
        filter: 0,
        offers: &[(18, HELD), (16, HELD), (18, DROPPED), (22, HELD)],
        passed: &[],
    },
    Part {
        filter: 0,
        offers: &[(14, PASSED), (16, DROPPED), (14, DROPPED)],
        passed: &[14, 16, 18],
    },
    Part {
        filter: 0,
        offers: &[(20, PASSED)],
        passed: &[20, 22],
    },
    Part {
        filter: 1,
        offers: &[(11, DROPPED), (15, HELD), (13, PASSED)],
        passed: &[13, 15],
    },
];

pub(crate) fn host() -> DcId
    ensures { result ≡ 1 }
{
    DcId::new(1).unwrap_or(DcId::FIRST)
}

fn record(alloc: Global, toid: Toid) -> Result<Record, NoMemory> {
    let Ok(body) = Body::read(alloc, b"1") else {
        return Err(NoMemory);
    };
    Ok(Record {
        host: host(),
        toid,
        session: 0,
        index: 1,
        kind: Kind::Append,
        tags: Seq::new(alloc),
        body,
        dep: Counts::zero(DCS),
    })
}

fn draft(alloc: Global, session: u32) -> Result<Draft, NoMemory> {
    let Ok(body) = Body::read(alloc, b"1") else {
        return Err(NoMemory);
    };
    Ok(Draft {
        session,
        index: 1,
        kind: Kind::Append,
        tags: Seq::new(alloc),
        body,
        dep: Counts::zero(DCS),
    })
}

// What the filter does with a record that comes back for want of memory: it is as it was before.
fn offer_again(filter: &mut Filter, rec: Record) -> Result<Option<Verdict>, NoMemory>
    ensures accepted { filter.new.accepted ≡ filter.old.accepted }
    ensures map { filter.new.map ≡ filter.old.map }
{
    if !filter.fits(&rec) {
        return Ok(None);
    }
    match filter.take(rec) {
        Ok(verdict) => Ok(Some(verdict)),
        Err(_) => Err(NoMemory),
    }
}

// What the filter does with a number, if it is its own. Its map and what it accepted stay.
pub(crate) fn offer(
    alloc: Global,
    filter: &mut Filter,
    toid: Toid,
) -> Result<Option<Verdict>, NoMemory>
    ensures accepted { filter.new.accepted ≡ filter.old.accepted }
    ensures map { filter.new.map ≡ filter.old.map }
{
    let rec = record(alloc, toid)?;
    if !filter.fits(&rec) {
        return Ok(None);
    }
    match filter.take(rec) {
        Ok(verdict) => Ok(Some(verdict)),
        Err(back) => offer_again(filter, back.value),
    }
}

// A record's number; 0 for a draft.
fn number_of(item: &Item) -> Toid {
    match item {
        Item::External(rec) => rec.toid,
        Item::Local(_) => 0,
    }
}

// Whether the items have these numbers.
pub(crate) fn are_numbers(items: &Seq<Item>, numbers: &[Toid]) -> bool {
    for (item, number) in items.iter().zip(numbers) {
        if number_of(item) != *number {
            return false;
        }
    }
    items.len() == numbers.len()
}

fn takes(rt: &impl Abort, alloc: Global, filter: &mut Filter, part: &Part) -> Result<(), Fail> {
    for (toid, verdict) in part.offers {
        assert_eq!(rt; offer(alloc, filter, *toid)?, *verdict, "at {toid}");
    }
    assert!(rt; are_numbers(&filter.pass_on(), part.passed));
    Ok(())
}

#[test]
fn two_filters_share_a_host(rt: HostRuntime) -> Result<(), Fail> {
    let alloc = rt.alloc();
    let map = Champions::first(alloc, DCS, 2)?;
    let mut even = Filter::new(alloc, 0, map.copy()?);
    let mut odd = Filter::new(alloc, 1, map);
    for part in &SHARED {
        if part.filter == 0 {
            takes(&rt, alloc, &mut even, part)?;
        } else {
            takes(&rt, alloc, &mut odd, part)?;
        }
    }
    Ok(())
}

// A thousand numbers from 1 to 257, each three or four times, in an order far from rising.
const OFFERS: u64 = 1000;

const NUMBERS: u64 = 257;

// How many of the thousand numbers the filter drops.
fn dropped(alloc: Global, filter: &mut Filter) -> Result<u64, NoMemory> {
    let mut dropped: u64 = 0;
    for offered in 0..OFFERS {
        if offer(alloc, filter, offered * 100 % NUMBERS + 1)? == DROPPED {
            dropped = dropped.saturating_add(1);
        }
    }
    Ok(dropped)
}

// The numbers of a filter, in rising order.
fn own_numbers(alloc: Global, filter: u32, filters: u32) -> Result<Vec<Toid>, NoMemory>
    requires { 1 ≤ filters }
{
    let mut own = Vec::new(alloc);
    for toid in 1..=NUMBERS {
        if toid % u64::from(filters) == u64::from(filter) {
            own.push(toid)?;
        }
    }
    Ok(own)
}

// All filters together drop each number but once, and each passes its own in rising order.
fn are_passed_once(rt: &impl Abort, alloc: Global, filters: u32) -> Result<(), Fail>
    requires { 1 ≤ filters }
{
    let mut all: u64 = 0;
    for number in 0..filters {
        let mut filter = Filter::new(alloc, number, Champions::first(alloc, DCS, filters)?);
        all = all.saturating_add(dropped(alloc, &mut filter)?);
        let own = own_numbers(alloc, number, filters)?;
        assert!(rt;
            are_numbers(&filter.pass_on(), own.as_slice()),
            "filter {number} of {filters}"
        );
    }
    assert_eq!(rt; all, OFFERS - NUMBERS);
    Ok(())
}

#[test]
fn shuffled_numbers_pass_once_and_in_order(rt: HostRuntime) -> Result<(), Fail> {
    for filters in 1..5 {
        are_passed_once(&rt, rt.alloc(), filters)?;
    }
    Ok(())
}

// Takes a draft, after want of memory once more.
fn take_draft(filter: &mut Filter, draft: Draft) -> Result<(), NoMemory> {
    match filter.take_draft(draft) {
        Ok(()) => Ok(()),
        Err(back) => match filter.take_draft(back.value) {
            Ok(()) => Ok(()),
            Err(_) => Err(NoMemory),
        },
    }
}

#[test]
fn drafts_pass_in_their_order(rt: HostRuntime) -> Result<(), Fail> {
    let alloc = rt.alloc();
    let mut filter = Filter::new(alloc, 0, Champions::first(alloc, DCS, 1)?);
    assert_eq!(rt; offer(alloc, &mut filter, 1)?, PASSED);
    take_draft(&mut filter, draft(alloc, 3)?)?;
    assert_eq!(rt; offer(alloc, &mut filter, 2)?, PASSED);
    let out = filter.pass_on();
    assert!(rt; are_numbers(&out, &[1, 0, 2]));
    match out.get(1) {
        Some(Item::Local(draft)) => assert_eq!(rt; draft.session, 3),
        _ => assert!(rt; false),
    }
    Ok(())
}
