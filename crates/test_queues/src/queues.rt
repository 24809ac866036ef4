//! Rows of queues and the token: what is stamped, where it waits, and what is deferred.

ghost use Rattle.std.specs.Prelude.{◌<◌, ◌≤◌, length, All, IfOk};
ghost use Rattle.cz_base.specs.declared.limits.TheConstants.{MEMBERS};
ghost use Rattle.token_queue.specs.Items.{FitsItem};

use crate::given::{DCS, Given, MANY, dc, hand_on, holder, items_of, numbers, put, record, stamp};
use causal_deps::{Item, Place};
use cz_base::{Lid, NoMemory, Seq, Toid};
use flstore_rounds::Epochs;
use std::alloc::Global;
use std::mem;
use std::process::Abort;
use std::test::Fail;
use token_queue::{Queue, Stamp, StampFault, Token};

// A record's position, host, number and session.
type Name = (Lid, u32, Toid, u32);

// What goes into the queue, what is then stamped, and how many items are deferred after that.
struct Part {
    given: &'static [Given],
    stamped: &'static [Name],
    deferred: usize,
}

// A record that needs one of another host waits for it.
const CAUSE: [Part; 2] = [
    Part {
        given: &[Given::Record {
            host: 1,
            toid: 1,
            needs: [1, 0, 0],
        }],
        stamped: &[],
        deferred: 1,
    },
    Part {
        given: &[Given::Record {
            host: 0,
            toid: 1,
            needs: [0, 0, 0],
        }],
        stamped: &[(1, 0, 1, 0), (2, 1, 1, 1)],
        deferred: 0,
    },
];

// Drafts and records, of which some need what stands behind them, and one comes too early.
const MIXED: [Part; 3] = [
    Part {
        given: &[
            Given::Draft {
                session: 7,
                needs: [0, 1, 0],
            },
            Given::Record {
                host: 2,
                toid: 1,
                needs: [2, 0, 0],
            },
            Given::Record {
                host: 1,
                toid: 1,
                needs: [0, 0, 0],
            },
            Given::Draft {
                session: 8,
                needs: [0, 0, 0],
            },
        ],
        stamped: &[(1, 1, 1, 1), (2, 0, 1, 7), (3, 0, 2, 8), (4, 2, 1, 2)],
        deferred: 0,
    },
    Part {
        given: &[
            Given::Record {
                host: 1,
                toid: 3,
                needs: [0, 2, 0],
            },
            Given::Draft {
                session: 9,
                needs: [2, 1, 1],
            },
        ],
        stamped: &[(5, 0, 3, 9)],
        deferred: 1,
    },
    Part {
        given: &[Given::Record {
            host: 1,
            toid: 2,
            needs: [3, 1, 1],
        }],
        stamped: &[(6, 1, 2, 1), (7, 1, 3, 1)],
        deferred: 0,
    },
];

fn stamp_of(name: &Name) -> Stamp {
    let (lid, host, toid, session) = *name;
    Stamp {
        place: Place {
            lid,
            host: dc(host),
            toid,
        },
        session,
        index: 1,
    }
}

fn are_stamps(stamps: &Seq<Stamp>, names: &[Name]) -> bool {
    for (stamp, name) in stamps.iter().zip(names) {
        if *stamp != stamp_of(name) {
            return false;
        }
    }
    stamps.len() == names.len()
}

// What is stamped where a queue that has no items gets these.
fn stamped(rt: &impl Abort, queue: &mut Queue, items: Seq<Item>) -> Result<Seq<Stamp>, Fail>
    requires { All (FitsItem 3) items }
{
    put(queue, items)?;
    Ok(stamp(rt, queue)?)
}

fn holds(rt: &impl Abort, alloc: Global, queue: &mut Queue, part: &Part) -> Result<(), Fail> {
    let stamps = stamped(rt, queue, items_of(alloc, part.given)?)?;
    assert!(rt; are_stamps(&stamps, part.stamped));
    assert!(rt; queue.is_empty());
    let (_, _, deferred) = numbers(queue);
    assert_eq!(rt; deferred, part.deferred);
    Ok(())
}

// The queue has entries for the maintainer at these positions, and then none.
fn takes_out(rt: &impl Abort, queue: &mut Queue, m: u32, lids: &[Lid])
    requires { m < MEMBERS }
{
    let entries = queue.take_out(m);
    assert_eq!(rt; entries.len(), lids.len());
    for (entry, lid) in entries.iter().zip(lids) {
        assert_eq!(rt; entry.lid, *lid);
    }
    assert!(rt; queue.take_out(m).is_empty());
}

#[test]
fn a_record_waits_for_its_cause(rt: HostRuntime) -> Result<(), Fail> {
    let alloc = rt.alloc();
    let mut queue = holder(alloc, 2, 1)?;
    for part in &CAUSE {
        holds(&rt, alloc, &mut queue, part)?;
    }
    takes_out(&rt, &mut queue, 0, &[1, 2]);
    Ok(())
}

#[test]
fn drafts_and_records_are_mixed(rt: HostRuntime) -> Result<(), Fail> {
    let alloc = rt.alloc();
    let mut queue = holder(alloc, 0, 2)?;
    for part in &MIXED {
        holds(&rt, alloc, &mut queue, part)?;
    }
    takes_out(&rt, &mut queue, 0, &[1, 3, 5, 7]);
    takes_out(&rt, &mut queue, 1, &[2, 4, 6]);
    Ok(())
}

// The records 101 to 2 of host 1, the greatest first.
fn chain(alloc: Global) -> Result<Seq<Item>, NoMemory>
    ensures { IfOk result (λ items. All (FitsItem 3) items) }
{
    let mut items = Seq::new(alloc);
    for back in 0..100 {
        items.push(record(alloc, 1, 101 - back, [0, 0, 0])?)?;
    }
    Ok(items)
}

const FIRST: [Given; 1] = [Given::Record {
    host: 1,
    toid: 1,
    needs: [0, 0, 0],
}];

// A queue of which a hundred items are deferred.
fn chained(rt: &impl Abort, alloc: Global) -> Result<Queue, Fail> {
    let mut queue = holder(alloc, 0, 1)?;
    let stamps = stamped(rt, &mut queue, chain(alloc)?)?;
    assert!(rt; stamps.is_empty());
    assert_eq!(rt; numbers(&queue), ([0, 0, 0], 0, 100));
    Ok(queue)
}

// Whether the stamps are those of the records 1 to 101 of host 1, in this order.
fn are_chain(stamps: &Seq<Stamp>) -> bool {
    let mut number: u64 = 0;
    for stamp in stamps.as_slice() {
        number = number.saturating_add(1);
        if *stamp != stamp_of(&(number, 1, number, 1)) {
            return false;
        }
    }
    stamps.len() == 101
}

#[test]
fn a_chain_waits_for_its_first(rt: HostRuntime) -> Result<(), Fail> {
    let alloc = rt.alloc();
    let mut queue = chained(&rt, alloc)?;
    let stamps = stamped(&rt, &mut queue, items_of(alloc, &FIRST)?)?;
    assert!(rt; are_chain(&stamps));
    assert_eq!(rt; numbers(&queue), ([0, 101, 0], 101, 0));
    Ok(())
}

const ALONE: [Given; 1] = [Given::Draft {
    session: 4,
    needs: [0, 0, 0],
}];

// A queue that has an item but not the token, and so stamps nothing.
fn waiting(rt: &impl Abort, alloc: Global) -> Result<Queue, Fail>
    ensures items { IfOk result (λ queue. All (FitsItem 3) queue.items) }
    ensures few { IfOk result (λ queue. length queue.items ≤ MANY) }
{
    let mut queue = Queue::new(alloc, 1, Epochs::first(alloc, 1, 1)?)?;
    put(&mut queue, items_of(alloc, &ALONE)?)?;
    let Err(StampFault::NoToken) = stamp(rt, &mut queue) else {
        return Err(Fail::from("a stamping without the token"));
    };
    Ok(queue)
}

#[test]
fn a_queue_stamps_only_with_the_token(rt: HostRuntime) -> Result<(), Fail> {
    let alloc = rt.alloc();
    let mut first = holder(alloc, 0, 1)?;
    let mut second = waiting(&rt, alloc)?;
    assert!(rt; !second.is_empty());
    assert_eq!(rt; hand_on(&mut first, &mut second), Some(1));
    assert!(rt; first.give().is_none());
    assert!(rt; are_stamps(&stamp(&rt, &mut second)?, &[(1, 0, 1, 4)]));
    Ok(())
}

// The token of B in place of the queue's own, which is let go.
fn change_token(alloc: Global, queue: &mut Queue) -> Result<bool, NoMemory> {
    let other = Token::first(alloc, dc(1), DCS, 2, Epochs::first(alloc, 1, 1)?);
    match queue.token_mut() {
        Some(token) => {
            let _old = mem::replace(token, other);
            Ok(true)
        }
        None => Ok(false),
    }
}

#[test]
fn a_token_is_changed_in_place(rt: HostRuntime) -> Result<(), Fail> {
    let alloc = rt.alloc();
    let mut queue = holder(alloc, 0, 1)?;
    assert!(rt; change_token(alloc, &mut queue)?);
    let stamps = stamped(&rt, &mut queue, items_of(alloc, &ALONE)?)?;
    assert!(rt; are_stamps(&stamps, &[(1, 1, 1, 4)]));
    assert!(rt; queue.give().is_some());
    assert!(rt; !change_token(alloc, &mut queue)?);
    Ok(())
}
