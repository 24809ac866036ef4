//! Events by small numbers, and the sessions whose commands they answer.
ghost use Rattle.std.specs.Prelude.{◌≡◌, length, IfOk};
ghost use Rattle.abstract_log.specs.Shapes.{FitsWorkload};

use abstract_log::{Answer, BoxedAnswer, Command, Event, Found, ReadAnswer, SessionPlan, Workload};
use causal_deps::{BoxedCounts, BoxedTable, Counts, Kind, Place, Table};
use cz_base::{Body, DcId, Lid, Name, Seq, Toid};
use std::alloc::Global;
use std::test::Fail;

/// The first datacentre, which writes all records.
pub(crate) const A: DcId = DcId::FIRST;

/// An answer, as the two records ask it: `append t =hi` at position 1 and `put k =v` at position 2.
#[derive(Clone, Copy)]
pub(crate) enum Told {
    /// The value of `k`.
    Put,
    /// The value of `k`, and none of `x`.
    PutAndAbsent,
    /// The record at position 1.
    Append,
    /// Position 1 was collected.
    Gone,
    /// The last record with the tag `t`.
    LastOfTag,
}

/// An event by small numbers: datacentres are counted from 0, and all records are of the first.
#[derive(Clone, Copy)]
pub(crate) enum Tried {
    Submit {
        s: u32,
        k: u32,
    },
    Append {
        d: u32,
        s: u32,
        k: u32,
        lid: Lid,
        toid: Toid,
    },
    /// How many records the first datacentre and the second are known to have; else a table of one
    /// datacentre.
    Receive {
        d: u32,
        from: u32,
        known: Option<[u64; 2]>,
        names: &'static [Toid],
    },
    Add {
        d: u32,
        lid: Lid,
        toid: Toid,
    },
    /// How many records are learnt; else a row of one datacentre.
    Learn {
        d: u32,
        count: Option<u64>,
    },
    Reply {
        d: u32,
        s: u32,
        k: u32,
        at: Lid,
        told: Told,
    },
    Collect {
        d: u32,
        lid: Lid,
    },
}

impl Tried {
    /// The event that it stands for.
    pub(crate) fn event(self, alloc: Global) -> Result<Event, Fail> {
        match self {
            Tried::Submit { s, k } => Ok(Event::Submit {
                session: s,
                index: k,
            }),
            Tried::Append { d, s, k, lid, toid } => Ok(Event::Append {
                dc: dc(d)?,
                session: s,
                index: k,
                lid,
                toid,
            }),
            Tried::Receive {
                d,
                from,
                known,
                names,
            } => received(alloc, dc(d)?, dc(from)?, known, names),
            Tried::Add { d, lid, toid } => Ok(Event::Add {
                dc: dc(d)?,
                lid,
                host: A,
                toid,
            }),
            Tried::Learn { d, count } => Ok(Event::Learn {
                dc: dc(d)?,
                row: BoxedCounts::new(alloc, &row(count))?,
            }),
            Tried::Reply { d, s, k, at, told } => Ok(Event::Reply {
                dc: dc(d)?,
                session: s,
                index: k,
                at,
                answer: BoxedAnswer::new(alloc, answer(alloc, told)?)?,
            }),
            Tried::Collect { d, lid } => Ok(Event::Collect { dc: dc(d)?, lid }),
        }
    }
}

/// The datacentre with this number.
pub(crate) fn dc(number: u32) -> Result<DcId, Fail> {
    Ok(DcId::new(number).ok_or("no datacentre")?)
}

fn received(
    alloc: Global,
    dc: DcId,
    from: DcId,
    known: Option<[u64; 2]>,
    toids: &[Toid],
) -> Result<Event, Fail> {
    let mut names = Seq::new(alloc);
    for toid in toids {
        names.push((A, *toid))?;
    }
    Ok(Event::Receive {
        dc,
        from,
        table: BoxedTable::new(alloc, &table(known))?,
        names,
    })
}

// So many records of the first of two datacentres.
fn row(count: Option<u64>) -> Counts {
    match count {
        Some(count) => of_first(count),
        None => Counts::zero(1),
    }
}

fn of_first(count: u64) -> Counts
    ensures { length result ≡ 2 }
{
    let mut row = Counts::zero(2);
    row.put(A, count);
    row
}

fn table(known: Option<[u64; 2]>) -> Table {
    let mut table = Table::zero(2);
    match known {
        Some(known) => {
            table.raise_row(A, &of_first(known[0]));
            if let Some(second) = DcId::new(1) {
                table.raise_row(second, &of_first(known[1]));
            }
            table
        }
        None => Table::zero(1),
    }
}

// The place of the first datacentre's t-th record in its own log, which is its t-th record at all.
fn place(t: u64) -> Place {
    Place {
        lid: t,
        host: A,
        toid: t,
    }
}

fn put_found(alloc: Global) -> Result<Found, Fail> {
    Ok(Found::At {
        place: place(2),
        body: Body::read(alloc, b"v")?,
    })
}

fn answer(alloc: Global, told: Told) -> Result<Answer, Fail> {
    let mut found = Seq::new(alloc);
    match told {
        Told::Put => {
            found.push(put_found(alloc)?)?;
            Ok(Answer::Items(found))
        }
        Told::PutAndAbsent => {
            found.push(put_found(alloc)?)?;
            found.push(Found::Absent)?;
            Ok(Answer::Items(found))
        }
        Told::Append => Ok(Answer::Read(ReadAnswer::Shown {
            place: place(1),
            kind: Kind::Append,
            body: Body::read(alloc, b"hi")?,
            tags: names(alloc, &[b"t"])?,
        })),
        Told::Gone => Ok(Answer::Read(ReadAnswer::Gone)),
        Told::LastOfTag => {
            let mut last = Seq::new(alloc);
            last.push(place(1))?;
            Ok(Answer::Last(last))
        }
    }
}

fn name(alloc: Global, text: &[u8]) -> Result<Name, Fail> {
    Ok(Name::read(alloc, text)?)
}

fn names(alloc: Global, texts: &[&[u8]]) -> Result<Seq<Name>, Fail> {
    let mut names = Seq::new(alloc);
    for text in texts {
        names.push(name(alloc, text)?)?;
    }
    Ok(names)
}

fn append(alloc: Global) -> Result<Command, Fail> {
    Ok(Command::Append {
        tags: names(alloc, &[b"t"])?,
        body: Body::read(alloc, b"hi")?,
    })
}

// One command of each kind but a del, and a second read.
fn commands(alloc: Global) -> Result<Seq<Command>, Fail> {
    let mut commands = Seq::new(alloc);
    commands.push(append(alloc)?)?;
    commands.push(Command::Put {
        key: name(alloc, b"k")?,
        body: Body::read(alloc, b"v")?,
    })?;
    commands.push(Command::Get {
        key: name(alloc, b"k")?,
    })?;
    commands.push(Command::Tx {
        keys: names(alloc, &[b"k", b"x"])?,
    })?;
    commands.push(Command::Read { lid: 1 })?;
    commands.push(Command::Last {
        tag: name(alloc, b"t")?,
        count: 1,
    })?;
    commands.push(Command::Read { lid: 1 })?;
    Ok(commands)
}

fn plan(commands: Seq<Command>) -> SessionPlan
    ensures { result.home ≡ 0 }
{
    SessionPlan { home: A, commands }
}

fn one_append(alloc: Global) -> Result<Seq<Command>, Fail> {
    let mut commands = Seq::new(alloc);
    commands.push(append(alloc)?)?;
    Ok(commands)
}

/// Two datacentres, and three sessions of the first: one with a command of each kind but a del, and two
/// that append.
pub(crate) fn workload(alloc: Global) -> Result<Workload, Fail>
    ensures { IfOk result (λ load. FitsWorkload load) }
{
    let mut sessions = Seq::new(alloc);
    sessions.push(plan(commands(alloc)?))?;
    sessions.push(plan(one_append(alloc)?))?;
    sessions.push(plan(one_append(alloc)?))?;
    Ok(Workload { dcs: 2, sessions })
}
