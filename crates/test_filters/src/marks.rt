//! Rows of filters and of the champion map while one filter more is announced for a host.

ghost use Rattle.std.specs.Prelude.{◌≡◌};

use crate::filters::{DCS, DROPPED, HELD, PASSED, are_numbers, host, offer};
use causal_deps::Record;
use cz_base::{Seq, Toid};
use std::alloc::Global;
use std::process::Abort;
use std::test::Fail;
use toid_filter::{Accept, Champions, Filter, Verdict};

// What one of two filters is offered before it is asked to accept a mark, what it answers, what it is offered then, what it
// passes on once the mark is forgotten, and what it is offered at the end.
struct Row {
    filter: u32,
    before: &'static [(Toid, Option<Verdict>)],
    mark: Toid,
    answer: Accept,
    after: &'static [(Toid, Option<Verdict>)],
    waits: &'static [Toid],
    cancelled: &'static [Toid],
    later: &'static [(Toid, Option<Verdict>)],
}

const ROWS: [Row; 5] = [
    // The even numbers: 10 waits for the mark, and goes on once it is forgotten.
    Row {
        filter: 0,
        before: &[(2, PASSED), (4, PASSED), (6, PASSED), (8, PASSED)],
        mark: 10,
        answer: Accept::Accepted,
        after: &[(10, HELD), (10, DROPPED)],
        waits: &[2, 4, 6, 8],
        cancelled: &[10],
        later: &[(12, PASSED), (12, DROPPED)],
    },
    // The odd ones: 11 was passed.
    Row {
        filter: 1,
        before: &[
            (1, PASSED),
            (3, PASSED),
            (5, PASSED),
            (7, PASSED),
            (9, PASSED),
            (11, PASSED),
        ],
        mark: 10,
        answer: Accept::Late { passed: 11 },
        after: &[(13, PASSED)],
        waits: &[1, 3, 5, 7, 9, 11, 13],
        cancelled: &[],
        later: &[(11, DROPPED), (15, PASSED)],
    },
    // A mark at the greatest number passed is late.
    Row {
        filter: 0,
        before: &[(2, PASSED), (4, PASSED)],
        mark: 4,
        answer: Accept::Late { passed: 4 },
        after: &[],
        waits: &[2, 4],
        cancelled: &[],
        later: &[(6, PASSED)],
    },
    // What waits for a smaller number waits on when the mark is forgotten.
    Row {
        filter: 0,
        before: &[(2, PASSED), (8, HELD)],
        mark: 6,
        answer: Accept::Accepted,
        after: &[(6, HELD), (12, HELD)],
        waits: &[2],
        cancelled: &[],
        later: &[(4, PASSED), (8, DROPPED), (10, PASSED), (12, DROPPED)],
    },
    // Smaller numbers pass below the mark, and all that then follow go on at once.
    Row {
        filter: 0,
        before: &[],
        mark: 6,
        answer: Accept::Accepted,
        after: &[(8, HELD), (6, HELD), (4, HELD), (2, PASSED)],
        waits: &[2, 4],
        cancelled: &[6, 8],
        later: &[(10, PASSED)],
    },
];

// The filter is offered these numbers. What it accepted, and its map, stay.
fn takes(
    rt: &impl Abort,
    alloc: Global,
    filter: &mut Filter,
    offers: &[(Toid, Option<Verdict>)],
) -> Result<(), Fail>
    ensures accepted { filter.new.accepted ≡ filter.old.accepted }
    ensures map { filter.new.map ≡ filter.old.map }
{
    for (toid, verdict) in offers {
        assert_eq!(rt; offer(alloc, filter, *toid)?, *verdict, "at {toid}");
    }
    Ok(())
}

fn is_asked(rt: &impl Abort, alloc: Global, row: &Row) -> Result<(), Fail> {
    let mut filter = Filter::new(alloc, row.filter, Champions::first(alloc, DCS, 2)?);
    takes(rt, alloc, &mut filter, row.before)?;
    assert_eq!(rt; filter.accept(host(), row.mark), row.answer);
    takes(rt, alloc, &mut filter, row.after)?;
    assert!(rt; are_numbers(&filter.pass_on(), row.waits));
    filter.cancel()?;
    assert!(rt; are_numbers(&filter.pass_on(), row.cancelled));
    takes(rt, alloc, &mut filter, row.later)
}

#[test]
fn filters_accept_a_mark_and_forget_it(rt: HostRuntime) -> Result<(), Fail> {
    for row in &ROWS {
        is_asked(&rt, rt.alloc(), row)?;
    }
    Ok(())
}

// What one of two filters is offered before and after it accepted a mark; what it gives away when it takes the map that grew there,
// and what it then passes on; and a number above the mark that is its own then.
struct Grown {
    filter: u32,
    before: &'static [(Toid, Option<Verdict>)],
    mark: Toid,
    after: &'static [(Toid, Option<Verdict>)],
    given: &'static [Toid],
    passed: &'static [Toid],
    later: &'static [(Toid, Option<Verdict>)],
}

// From 10 on, number t of host 1 goes to the filter that (t + 1 - 10) leaves modulo 3: 10 to filter 1, 11 to 2, 12 to 0.
const GROWN: [Grown; 3] = [
    Grown {
        filter: 0,
        before: &[(2, PASSED), (4, PASSED), (6, PASSED)],
        mark: 10,
        after: &[(12, HELD), (10, HELD), (14, HELD), (18, HELD), (8, PASSED)],
        given: &[10, 14],
        passed: &[2, 4, 6, 8, 12],
        later: &[(12, DROPPED), (10, None), (15, PASSED), (18, DROPPED)],
    },
    Grown {
        filter: 1,
        before: &[(1, PASSED), (3, PASSED), (5, PASSED)],
        mark: 10,
        after: &[(9, HELD), (11, HELD), (13, HELD)],
        given: &[11],
        passed: &[1, 3, 5],
        later: &[(7, PASSED), (10, PASSED), (16, PASSED)],
    },
    Grown {
        filter: 0,
        before: &[],
        mark: 2,
        after: &[(2, HELD), (4, HELD)],
        given: &[2],
        passed: &[4],
        later: &[(7, PASSED), (4, DROPPED)],
    },
];

fn are_records(records: &Seq<Record>, numbers: &[Toid]) -> bool {
    records.len() == numbers.len()
        && records
            .iter()
            .zip(numbers)
            .all(|(rec, number)| rec.toid == *number)
}

fn is_grown(rt: &impl Abort, alloc: Global, row: &Grown) -> Result<(), Fail> {
    let map = Champions::first(alloc, DCS, 2)?;
    assert!(rt; map.last_start(host()) < row.mark);
    let grown = map.grown(host(), row.mark)?;
    assert_eq!(rt; grown.last_start(host()), row.mark);
    assert_eq!(rt; grown.filters(host()), 3);
    let mut filter = Filter::new(alloc, row.filter, map);
    takes(rt, alloc, &mut filter, row.before)?;
    let Accept::Accepted = filter.accept(host(), row.mark) else {
        return Err(Fail::new("a filter that passed nothing from the mark on is late"));
    };
    takes(rt, alloc, &mut filter, row.after)?;
    assert!(rt; are_records(&filter.activate(grown)?, row.given));
    assert!(rt; are_numbers(&filter.pass_on(), row.passed));
    takes(rt, alloc, &mut filter, row.later)
}

#[test]
fn filters_take_the_map_that_grew(rt: HostRuntime) -> Result<(), Fail> {
    for row in &GROWN {
        is_grown(&rt, rt.alloc(), row)?;
    }
    Ok(())
}
