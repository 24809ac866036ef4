//! The rule of the table under the lock, what each pass knows, and what each step tells.
use crate::duty::{Duty, Position};
use crate::journal::Journal;
use abstract_log::{Event, Workload};
use atomic_table::{Join, Play, Split, TableRule};
use cz_base::{DcId, Lid, Seq};
use flstore_rounds::Epochs;
use std::collections::LinkedList;
use std::marker::{Brand, PhantomData};

/// Where a pass stands at the turn. No value of it is made.
pub enum Stage {
    Idle,
    /// It has the turn and the slot.
    Out,
    /// It has the turn, and the slot is home again.
    Back,
    /// Another pass took it in.
    Spent,
}

/// A beginning of the journal, and the duties of which it has all events. No value of it is made.
pub struct Known {
    pub seen: LinkedList<Event>,
    pub duties: LinkedList<Duty>,
}

/// Where a pass stands, and what it knows of the journal. No value of it is made.
pub struct Hold {
    /// What the journal is a run on.
    pub load: Workload,
    pub now: Known,
    /// What the two passes knew that became this one. It is nothing between two calls.
    pub left: Known,
    pub right: Known,
    pub stage: Stage,
}

/// What a pass was told, which stays true. No value of it is made.
pub enum Note {
    /// The journal had so many events.
    Met {
        count: u64,
    },
    /// The log of a datacentre had so many records.
    Length {
        dc: DcId,
        len: u64,
    },
    /// A word of marks or epochs held so much.
    Found {
        word: u64,
        value: u64,
    },
    /// The word of an epoch held none when the log of its datacentre had so many records, so that each epoch that goes
    /// there or later starts above them.
    Ended {
        word: u64,
        len: u64,
    },
    /// So the epochs of a datacentre and marks of its maintainers stand to one another: each position below the mark of
    /// its owner is placed, and later epochs start at these marks or above them.
    Told {
        dc: DcId,
        epochs: Epochs,
        marks: LinkedList<Lid>,
    },
}

/// Positions in the journal, which no other pass names. No value of it is made.
pub struct Names {
    /// On their way to their maintainers.
    pub hand: LinkedList<Position>,
    /// At their maintainers.
    pub placed: LinkedList<Position>,
}

/// The position that a session holds back collection from, if it has one. No value of it is made.
pub struct SessionPin {
    pub session: u32,
    pub at: Option<Lid>,
}

/// The pins that a pass was told, and those that the two were told that became it. No value of it is made.
pub struct Pins {
    pub now: LinkedList<SessionPin>,
    pub left: LinkedList<SessionPin>,
    pub right: LinkedList<SessionPin>,
}

/// What a pass knows. No value of it is made.
pub struct View {
    pub hold: Hold,
    pub notes: LinkedList<Note>,
    pub names: Names,
    pub pins: Pins,
}

/// What a journal's lock is made for, and no step changes.
#[derive(Drop)]
pub struct Plan {
    /// What the journal is a run on.
    pub workload: Workload,
    /// How many positions in a row a maintainer owns.
    pub round: u32,
    /// How many maintainers each datacentre has at first.
    pub maintainers: Seq<u32>,
}

/// Word 0 is the turn, 0 or 1, and word 1 counts the events. Then each maintainer of each datacentre has a word for its
/// mark, and each datacentre has a word for each epoch that it may ever have, 0 until there is one. The slot holds the
/// journal.
pub(crate) struct Law;

impl TableRule<Option<Journal>, View, Plan> for Law {
    ghost use Rattle.journal_lock.specs.Start.{fresh};
    ghost use Rattle.journal_lock.specs.Rule.{Keeps};

    ghost holds = { λ plan. Keeps plan.workload plan.round };

    ghost first = { fresh };
}

/// What a lock is made for, so far as steps tell of it, for contracts alone: each call of the lock picks its own.
pub(crate) trait Planned {
    ghost use Rattle.std.specs.Prelude.{ℕ};
    ghost use Rattle.abstract_log.specs.declared.command.Workload.{Workload};

    ghost load: { Workload };

    ghost round: { ℕ };
}

impl Planned for Brand {
    ghost use Rattle.journal_lock.specs.Law.{no_load};

    ghost load = { no_load };

    ghost round = { 0 };
}

pub(crate) struct Take<C> {
    plan: PhantomData<C>,
}

impl<C: Planned> Play<Option<Journal>, View> for Take<C> {
    ghost use Rattle.journal_lock.specs.Takes.{Takes};

    ghost then = { Takes C.load C.round };
}

pub(crate) struct Count;

impl Play<Option<Journal>, View> for Count {
    ghost use Rattle.journal_lock.specs.Law.{Counts};

    ghost then = { Counts };
}

pub(crate) struct Free;

impl Play<Option<Journal>, View> for Free {
    ghost use Rattle.journal_lock.specs.Law.{Frees};

    ghost then = { Frees };
}

pub(crate) struct Learn<C> {
    plan: PhantomData<C>,
}

impl<C: Planned> Play<Option<Journal>, View> for Learn<C> {
    ghost use Rattle.journal_lock.specs.Takes.{Learns};

    ghost then = { Learns C.load C.round };
}

pub(crate) struct Meet;

impl Play<Option<Journal>, View> for Meet {
    ghost use Rattle.journal_lock.specs.Names.{Meets};

    ghost then = { Meets };
}

pub(crate) struct Look;

impl Play<Option<Journal>, View> for Look {
    ghost use Rattle.journal_lock.specs.Finds.{Looks};

    ghost then = { Looks };
}

pub(crate) struct Read;

impl Play<Option<Journal>, View> for Read {
    ghost use Rattle.journal_lock.specs.Finds.{Reads};

    ghost then = { Reads };
}

pub(crate) struct Tell<C> {
    plan: PhantomData<C>,
}

impl<C: Planned> Play<Option<Journal>, View> for Tell<C> {
    ghost use Rattle.journal_lock.specs.Heads.{Tells};

    ghost then = { Tells C.load C.round };
}

pub(crate) struct See<C> {
    plan: PhantomData<C>,
}

impl<C: Planned> Play<Option<Journal>, View> for See<C> {
    ghost use Rattle.journal_lock.specs.Heads.{Sees};

    ghost then = { Sees C.round };
}

pub(crate) struct Raise<C> {
    plan: PhantomData<C>,
}

impl<C: Planned> Play<Option<Journal>, View> for Raise<C> {
    ghost use Rattle.journal_lock.specs.Heads.{Raises};

    ghost then = { Raises C.round };
}

pub(crate) struct Write;

impl Play<Option<Journal>, View> for Write {
    ghost use Rattle.journal_lock.specs.Finds.{Writes};

    ghost then = { Writes };
}

/// What goes to a new pass, for contracts alone: the caller picks it at the call.
pub trait Part {
    ghost use Rattle.std.specs.Prelude.{List};
    ghost use Rattle.journal_lock.specs.declared.duty.Duty.{Duty};
    ghost use Rattle.journal_lock.specs.declared.duty.Position.{Position};

    ghost duties: { List Duty };

    ghost hand: { List Position };

    ghost placed: { List Position };
}

impl Part for Brand {
    ghost use Rattle.std.specs.Prelude.{[]};

    ghost duties = { [] };

    ghost hand = { [] };

    ghost placed = { [] };
}

/// What a pass changes of its names, the datacentres of whose logs it notes the length, the pairs of epochs and marks
/// that it notes as one, and the pins that it sets, for contracts alone: the caller picks it at the call.
pub trait Change {
    ghost use Rattle.std.specs.Prelude.{ℕ, List};
    ghost use Rattle.journal_lock.specs.declared.duty.Position.{Position};
    ghost use Rattle.journal_lock.specs.declared.law.SessionPin.{SessionPin};
    ghost use Rattle.journal_lock.specs.Joins.{TwoPairs};

    ghost placed: { List Position };

    ghost lengths: { List ℕ };

    ghost pairs: { List TwoPairs };

    ghost pins: { List SessionPin };
}

impl Change for Brand {
    ghost use Rattle.std.specs.Prelude.{[]};

    ghost placed = { [] };

    ghost lengths = { [] };

    ghost pairs = { [] };

    ghost pins = { [] };
}

pub(crate) struct Amend<C> {
    change: PhantomData<C>,
}

impl<C: Change> Play<Option<Journal>, View> for Amend<C> {
    ghost use Rattle.journal_lock.specs.Names.{Amends};

    ghost then = { Amends C.placed C.lengths C.pairs C.pins };
}

pub(crate) struct Cut<P> {
    part: PhantomData<P>,
}

impl<P: Part> Split<View> for Cut<P> {
    ghost use Rattle.journal_lock.specs.Law.{kept, given};

    ghost left = { kept P.duties P.hand P.placed };

    ghost right = { given P.duties P.hand P.placed };
}

pub(crate) struct Glue;

impl Join<View> for Glue {
    ghost use Rattle.journal_lock.specs.Law.{joined, spent};

    ghost both = { joined };

    ghost spent = { spent };
}
