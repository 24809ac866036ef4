//! Rows of the batcher: which filter each item goes to.

ghost use Rattle.std.specs.Prelude.{◌≤◌, All, IfOk};
ghost use Rattle.batcher.specs.Batchers.{HasNumber};

use batcher::Batcher;
use causal_deps::{Counts, Draft, Item, Kind, Record};
use cz_base::{Body, DcId, NoMemory, Seq, Toid};
use std::alloc::Global;
use std::process::Abort;
use std::test::Fail;
use toid_filter::Champions;

// All rows are of three datacentres.
const DCS: u32 = 3;

// What goes into the batcher.
#[derive(Clone, Copy)]
enum Given {
    Draft { session: u32 },
    Record { host: u32, toid: Toid },
}

// An item, and the one of three filters that it goes to.
#[derive(Clone, Copy)]
struct Row {
    given: Given,
    filter: u32,
}

const ROWS: [Row; 9] = [
    Row {
        given: Given::Record { host: 1, toid: 2 },
        filter: 2,
    },
    Row {
        given: Given::Draft { session: 5 },
        filter: 2,
    },
    Row {
        given: Given::Record { host: 1, toid: 1 },
        filter: 1,
    },
    Row {
        given: Given::Record { host: 0, toid: 1 },
        filter: 0,
    },
    Row {
        given: Given::Draft { session: 7 },
        filter: 1,
    },
    Row {
        given: Given::Record { host: 2, toid: 1 },
        filter: 2,
    },
    Row {
        given: Given::Record { host: 2, toid: 2 },
        filter: 0,
    },
    Row {
        given: Given::Draft { session: 3 },
        filter: 0,
    },
    Row {
        given: Given::Record { host: 0, toid: 5 },
        filter: 1,
    },
];

fn body(alloc: Global) -> Result<Body, NoMemory> {
    match Body::read(alloc, b"1") {
        Ok(body) => Ok(body),
        Err(_) => Err(NoMemory),
    }
}

fn item_of(alloc: Global, given: &Given) -> Result<Item, NoMemory>
    ensures { IfOk result HasNumber }
{
    let body = body(alloc)?;
    let dep = Counts::zero(DCS);
    Ok(match given {
        Given::Draft { session } => Item::Local(Draft {
            session: *session,
            index: 1,
            kind: Kind::Append,
            tags: Seq::new(alloc),
            body,
            dep,
        }),
        Given::Record { host, toid } => Item::External(Record {
            host: DcId::new(*host).unwrap_or(DcId::FIRST),
            toid: (*toid).max(1),
            session: 0,
            index: 1,
            kind: Kind::Append,
            tags: Seq::new(alloc),
            body,
            dep,
        }),
    })
}

fn batcher_of(alloc: Global, rows: &[Row]) -> Result<Batcher, Fail>
    ensures { IfOk result (All HasNumber) }
{
    let mut batcher = Batcher::new(alloc);
    for row in rows {
        batcher.add(item_of(alloc, &row.given)?)?;
    }
    Ok(batcher)
}

// Whether the item is what was given.
fn is_given(item: &Item, given: &Given) -> bool {
    match (item, given) {
        (Item::Local(draft), Given::Draft { session }) => draft.session == *session,
        (Item::External(rec), Given::Record { host, toid }) => {
            rec.host.number() == *host && rec.toid == *toid
        }
        _ => false,
    }
}

#[test]
fn a_batcher_sends_each_item_to_its_filter(rt: HostRuntime) -> Result<(), Fail> {
    let alloc = rt.alloc();
    let map = Champions::first(alloc, DCS, 3)?;
    let mut batcher = batcher_of(alloc, &ROWS)?;
    let parcels = batcher.flush(&map, 3)?;
    assert_eq!(rt; parcels.len(), ROWS.len());
    for (parcel, row) in parcels.iter().zip(&ROWS) {
        assert_eq!(rt; parcel.filter, row.filter);
        assert!(rt; is_given(&parcel.item, &row.given));
    }
    assert!(rt; batcher.flush(&map, 3)?.is_empty());
    Ok(())
}
