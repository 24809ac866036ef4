//! Items, queues and stampings of the rows.
ghost use Rattle.std.specs.Prelude.{◌≡◌, ◌+◌, ◌<◌, ◌≤◌, [], length, All, IfOk, OnErr, OnOk};
ghost use Rattle.std.specs.Bool.{OnTrue};
ghost use Rattle.std.specs.Option.{ForSome};
ghost use Rattle.token_queue.specs.Items.{FitsItem};

use causal_deps::{Counts, Draft, Item, Kind, Record};
use cz_base::limits::MEMBERS;
use cz_base::{Body, DcId, Lid, NoMemory, Seq, Toid};
use flstore_rounds::Epochs;
use std::alloc::Global;
use std::process::Abort;
use token_queue::{Queue, Stamp, StampFault, Token};

/// All rows are of three datacentres.
pub const DCS: u32 = 3;

/// No row has so many items or positions.
pub const MANY: usize = 1000;

/// What goes into a queue, with how many records of each host it needs. A record's session is the
/// number of its host.
pub enum Given {
    Draft {
        session: u32,
        needs: [u64; 3],
    },
    Record {
        host: u32,
        toid: Toid,
        needs: [u64; 3],
    },
}

/// One of the three datacentres: the first for a number from 3 on.
pub fn dc(number: u32) -> DcId
    ensures { result < 3 }
{
    match DcId::new(number) {
        Some(dc) if number < DCS => dc,
        _ => DcId::FIRST,
    }
}

fn counts(needs: [u64; 3]) -> Counts
    ensures { length result ≡ 3 }
{
    let [a, b, c] = needs;
    let mut counts = Counts::zero(DCS);
    counts.put(dc(0), a);
    counts.put(dc(1), b);
    counts.put(dc(2), c);
    counts
}

fn body(alloc: Global) -> Result<Body, NoMemory> {
    match Body::read(alloc, b"1") {
        Ok(body) => Ok(body),
        Err(_) => Err(NoMemory),
    }
}

/// An append of a host, of session `host` there, that depends on `needs` records of each host.
pub fn record(alloc: Global, host: u32, toid: Toid, needs: [u64; 3]) -> Result<Item, NoMemory>
    ensures { IfOk result (λ item. FitsItem 3 item) }
{
    Ok(Item::External(Record {
        host: dc(host),
        toid,
        session: host,
        index: 1,
        kind: Kind::Append,
        tags: Seq::new(alloc),
        body: body(alloc)?,
        dep: counts(needs),
    }))
}

fn draft(alloc: Global, session: u32, needs: [u64; 3]) -> Result<Item, NoMemory>
    ensures { IfOk result (λ item. FitsItem 3 item) }
{
    Ok(Item::Local(Draft {
        session,
        index: 1,
        kind: Kind::Append,
        tags: Seq::new(alloc),
        body: body(alloc)?,
        dep: counts(needs),
    }))
}

fn item_of(alloc: Global, given: &Given) -> Result<Item, NoMemory>
    ensures { IfOk result (λ item. FitsItem 3 item) }
{
    match given {
        Given::Draft { session, needs } => draft(alloc, *session, *needs),
        Given::Record { host, toid, needs } => record(alloc, *host, *toid, *needs),
    }
}

/// The items of a row, in its order.
pub fn items_of(alloc: Global, given: &[Given]) -> Result<Seq<Item>, NoMemory>
    ensures { IfOk result (λ items. All (FitsItem 3) items) }
{
    let mut items = Seq::new(alloc);
    for one in given {
        items.push(item_of(alloc, one)?)?;
    }
    Ok(items)
}

// A queue that has the token of a datacentre, where maintainers own the positions one by one in turn.
pub(crate) fn holder(alloc: Global, home: u32, maintainers: u32) -> Result<Queue, NoMemory> {
    let members = maintainers.clamp(1, MEMBERS as u32);
    let mut queue = Queue::new(alloc, 0, Epochs::first(alloc, 1, members)?)?;
    queue.hold(Token::first(alloc, dc(home), DCS, 2, Epochs::first(alloc, 1, members)?));
    Ok(queue)
}

// The token's numbers, zeros where the queue does not have it: the records of each host, the last
// position, and how many items are deferred.
pub(crate) fn numbers(queue: &Queue) -> ([u64; 3], Lid, usize) {
    match queue.token() {
        Some(token) if token.counts().dcs() == DCS => {
            let counts = token.counts();
            let each = [counts.get(dc(0)), counts.get(dc(1)), counts.get(dc(2))];
            (each, token.last(), token.deferred())
        }
        _ => ([0, 0, 0], 0, 0),
    }
}

// Whether a queue with few items can be stamped: its token, if it has it, is of three datacentres, and
// its numbers are far from their limits.
fn is_small(queue: &Queue) -> bool
    ensures { OnTrue result (ForSome queue.now.token (λ t. (length t.counts ≡ 3) × (t.last ≤ MANY) × (length t.deferred ≤ MANY))) }
{
    match queue.token() {
        Some(token) => {
            token.counts().dcs() == DCS && token.last() <= MANY as u64 && token.deferred() <= MANY
        }
        None => true,
    }
}

fn try_stamp(queue: &mut Queue) -> Result<Seq<Stamp>, StampFault>
    requires items { All (FitsItem 3) queue.old.items }
    requires few { length queue.old.items ≤ MANY }
    ensures { OnErr result (queue.new ≡ queue.old) }
{
    if !is_small(queue) {
        return Err(StampFault::NoToken);
    }
    queue.stamp()
}

/// Stamps, and after want of memory once more: the queue is then as it was before.
pub fn stamp(rt: &impl Abort, queue: &mut Queue) -> Result<Seq<Stamp>, StampFault>
    requires items { All (FitsItem 3) queue.old.items }
    requires few { length queue.old.items ≤ MANY }
    ensures { OnErr result (queue.new ≡ queue.old) }
{
    let before = numbers(queue);
    match try_stamp(queue) {
        Ok(stamps) => Ok(stamps),
        Err(StampFault::NoToken) => Err(StampFault::NoToken),
        Err(StampFault::NoMemory) => {
            assert_eq!(rt; numbers(queue), before);
            try_stamp(queue)
        }
    }
}

/// The items go into a queue that has none, after want of memory by a second call.
pub fn put(queue: &mut Queue, items: Seq<Item>) -> Result<(), NoMemory>
    requires { All (FitsItem 3) items }
    ensures items { OnOk result (All (FitsItem 3) queue.new.items) }
    ensures few { OnOk result (length queue.new.items ≤ MANY) }
{
    if !queue.is_empty() || items.len() > MANY {
        return Err(NoMemory);
    }
    match queue.push(items) {
        Ok(()) => Ok(()),
        Err(back) => match queue.push(back.value) {
            Ok(()) => Ok(()),
            Err(_) => Err(NoMemory),
        },
    }
}

/// The token goes from one queue to another, if that has none. Answers which queue it named as the next.
pub fn hand_on(from: &mut Queue, to: &mut Queue) -> Option<u32>
    ensures { to.new.items ≡ to.old.items }
{
    if to.token().is_some() {
        return None;
    }
    let Some(token) = from.give() else {
        return None;
    };
    let next = token.next_queue();
    to.hold(token);
    Some(next)
}
