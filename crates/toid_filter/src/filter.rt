//! One filter: what it passed, what it holds, and what it passes on.

ghost use Rattle.std.specs.Prelude.{◌≡◌, [], ◌∷◌, ◌++◌, ◌+◌, ◌^◌, ◌<◌, ◌≤◌, ◌↔◌, true, false, All, drop, length, map, take, vec_capacity, vec_len, IfErr, IfOk, IsTrue, OnErr, OnOk, None, Some};
ghost use Rattle.std.specs.List.{AllPairs};
ghost use Rattle.std.specs.Option.{ForSome};
ghost use Rattle.causal_deps.specs.declared.record.Item.TheVariants.{Local, External};
ghost use Rattle.toid_filter.specs.Champions.{grown};
ghost use Rattle.toid_filter.specs.declared.filter.AcceptedMark.{AcceptedMark as MarkValue};
ghost use Rattle.toid_filter.specs.Filters.{accept_told, accepted_by, activated, before_name, cancelled, handed_out, from_name, is_due, is_free, is_held_back, is_known, is_passed, new_filter, owns, reached_by, stands_before, with_held, FitsFilter, Follows, IsSound, IsSteady, IsTaken};

use crate::Champions;
use crate::held::Held;
use crate::leaving::{pass_run, take_lost, take_next};
use causal_deps::{Counts, Draft, Item, Record};
use cz_base::{Back, DcId, NoMemory, Seq, Toid};
use std::alloc::Global;
use std::marker::Model;
use std::mem;

/// From number `from` of a host on, one filter more is to serve that host.
#[derive(Clone, Copy, Debug, PartialEq, Eq)]
pub struct AcceptedMark {
    /// The host whose numbers are meant.
    pub host: DcId,
    /// The first number that the new filter may serve.
    pub from: Toid,
}

/// What a filter answers that is asked to accept a mark.
#[derive(Clone, Copy, Debug, PartialEq, Eq)]
pub enum Accept {
    /// It accepts the mark.
    Accepted,
    /// It passed a number at or above the mark; this is the greatest.
    Late { passed: Toid },
}

/// What became of a record that a filter took.
#[derive(Clone, Copy, Debug, PartialEq, Eq)]
pub enum Verdict {
    /// It went on, with all held records that it let go on.
    Passed,
    /// It is kept until each smaller own number of its host has passed.
    Held,
    /// It was passed or is held, so this copy is gone.
    Dropped,
}

/// One filter of a datacentre.
#[derive(Debug, Drop)]
pub struct Filter {
    alloc: Global,
    number: u32,
    map: Champions,
    reached: Counts,
    held: Held,
    out: Vec<Item>,
    accepted: Option<AcceptedMark>,
}

impl Model for Filter {
    ghost use Rattle.toid_filter.specs.Filters.{FilterState, IsSteady};

    ghost Value = { FilterState };

    ghost view = { λ f. record { number = f.number; map = f.map; reached = f.reached; held = f.held; out = f.out.items; accepted = f.accepted } };

    ghost invariant = { λ f. IsSteady (record { number = f.number; map = f.map; reached = f.reached; held = f.held; out = f.out.items; accepted = f.accepted }) };
}

impl Filter {
    /// A filter that passed nothing and holds nothing.
    pub fn new(alloc: Global, number: u32, map: Champions) -> Self
        ensures value { result ≡ new_filter number map }
        ensures sound { IsSound result }
    {
        Filter {
            alloc,
            number,
            reached: Counts::zero(map.dcs()),
            map,
            held: Held::new(alloc),
            out: Vec::new(alloc),
            accepted: None,
        }
    }

    /// Whether the filter is the champion of number t of host h.
    pub fn owns(&self, h: DcId, t: Toid) -> bool
        requires { 1 ≤ t }
        ensures { result ≡ owns self.now h t }
    {
        self.map.champion(h, t) == self.number
    }

    /// Whether the filter may take the record: it is a number of its own, of a host that there is.
    pub fn fits(&self, rec: &Record) -> bool
        ensures tells { IsTrue result ↔ FitsFilter self.now rec.now }
        ensures steady { IsSteady self.now }
        ensures sound { IsSound self.now }
    {
        rec.host.number() < self.map.dcs() && rec.toid >= 1 && self.owns(rec.host, rec.toid)
    }

    /// Passes, holds or drops a record. After want of memory the filter is as before, and the record
    /// comes back.
    pub fn take(&mut self, rec: Record) -> Result<Verdict, Back<Record>>
        requires { FitsFilter self.old rec }
        ensures ok { IfOk result (λ verdict. IsTaken self.old rec verdict self.new) }
        ensures err { OnErr result (self.new ≡ self.old) }
        ensures back { IfErr result (λ back. back.value ≡ rec) }
        ensures sound { IsSound self.new }
    {
        if self.knows(rec.host, rec.toid) {
            return Ok(Verdict::Dropped);
        }
        if self.may_pass(&rec) {
            return self.pass(rec);
        }
        self.held.insert(rec)?;
        Ok(Verdict::Held)
    }

    /// The draft goes last to what is passed on.
    pub fn take_draft(&mut self, draft: Draft) -> Result<(), Back<Draft>>
        ensures ok { OnOk result (self.new ≡ record self.old { out = self.old.out ++ Local draft ∷ [] }) }
        ensures err { OnErr result (self.new ≡ self.old) }
        ensures back { IfErr result (λ back. back.value ≡ draft) }
        ensures sound { IsSound self.new }
    {
        if self.out.reserve(1).is_err() {
            return Err(Back { value: draft });
        }
        self.out.push_reserved(Item::Local(draft));
        Ok(())
    }

    /// Whether the filter accepts that from number `mark` of host h on there is one filter more. It is late exactly where it passed a
    /// number of the host at or above the mark, and tells the greatest. Else it passes none of these any more.
    pub fn accept(&mut self, h: DcId, mark: Toid) -> Accept
        requires free { self.old.accepted ≡ None }
        requires host { h < length self.old.map }
        ensures told { result ≡ accept_told h mark self.old }
        ensures after { self.new ≡ accepted_by h mark self.old }
        ensures sound { IsSound self.new }
    {
        let passed = self.reached.get(h);
        if passed >= 1 && passed >= mark {
            return Accept::Late { passed };
        }
        self.accepted = Some(AcceptedMark {
            host: h,
            from: mark,
        });
        Accept::Accepted
    }

    /// Forgets the accepted mark, if there is one, and passes what is then next. After want of memory the filter is as before.
    pub fn cancel(&mut self) -> Result<(), NoMemory>
        requires { ForSome self.old.accepted (λ mark. mark.host < length self.old.map) }
        ensures ok { OnOk result (self.new ≡ cancelled self.old) }
        ensures err { OnErr result (self.new ≡ self.old) }
        ensures sound { IsSound self.new }
    {
        let Some(mark) = self.accepted else {
            return Ok(());
        };
        self.out.reserve(self.held.len())?;
        let first = self.reached.get(mark.host) + 1;
        let next = take_next(&mut self.held, &self.map, self.number, mark.host, first);
        self.accepted = None;
        if let Some(rec) = next {
            let count = self.due_count(&rec);
            pass_run(&mut self.held, &mut self.reached, &mut self.out, rec, count);
        }
        Ok(())
    }

    /// Takes the map that grew at the accepted mark, which is spent; hands out the held records that are no longer the filter's, by
    /// host and then by number, and passes what is then next. After want of memory the filter is as before.
    pub fn activate(&mut self, map: Champions) -> Result<Seq<Record>, NoMemory>
        requires grown { (mark : MarkValue) × (self.old.accepted ≡ Some mark) × (map ≡ grown self.old.map mark.host mark.from) }
        requires host { ForSome self.old.accepted (λ mark. mark.host < length self.old.map) }
        ensures ok { OnOk result (self.new ≡ activated map self.old) }
        ensures out { IfOk result (λ records. records ≡ handed_out map self.old) }
        ensures err { OnErr result (self.new ≡ self.old) }
        ensures sound { IsSound self.new }
    {
        let Some(mark) = self.accepted else {
            return Ok(Seq::new(self.alloc));
        };
        self.out.reserve(self.held.len())?;
        let mut lost = Vec::with_capacity(self.alloc, self.held.len())?;
        take_lost(&mut self.held, &map, self.number, &mut lost);
        let first = self.reached.get(mark.host) + 1;
        let next = take_next(&mut self.held, &map, self.number, mark.host, first);
        self.map = map;
        self.accepted = None;
        if let Some(rec) = next {
            let count = self.due_count(&rec);
            pass_run(&mut self.held, &mut self.reached, &mut self.out, rec, count);
        }
        Ok(Seq::from_vec(lost))
    }

    /// Hands out all that is to be passed on.
    pub fn pass_on(&mut self) -> Seq<Item>
        ensures out { result ≡ self.old.out }
        ensures after { self.new ≡ record self.old { out = [] } }
        ensures sound { IsSound self.new }
    {
        Seq::from_vec(mem::replace(&mut self.out, Vec::new(self.alloc)))
    }

    /// Whether the filter passed or holds number t of host h.
    fn knows(&self, h: DcId, t: Toid) -> bool
        requires host { h < length self.now.map }
        requires first { 1 ≤ t }
        requires own { owns self.now h t ≡ true }
        ensures { result ≡ is_known self.now h t }
    {
        t <= self.reached.get(h) || self.held.contains(h, t)
    }

    /// Whether each smaller own number was passed, and no accepted mark holds the record back.
    fn may_pass(&self, rec: &Record) -> bool
        requires fits { FitsFilter self.now rec.now }
        requires new { is_passed self.now rec.now.host rec.now.toid ≡ false }
        ensures { result ≡ is_free self.now rec.now }
    {
        let toid = rec.toid;
        let first = self.reached.get(rec.host) + 1;
        let waits = self.map.serves(self.number, rec.host, first, toid);
        !waits && !self.holds_back(rec.host, toid)
    }

    fn holds_back(&self, h: DcId, t: Toid) -> bool
        ensures { result ≡ is_held_back self.now.accepted h t }
    {
        match &self.accepted {
            Some(mark) => mark.host == h && mark.from <= t,
            None => false,
        }
    }

    /// Passes a record that may pass, with the held ones that follow on it.
    fn pass(&mut self, rec: Record) -> Result<Verdict, Back<Record>>
        requires fits { FitsFilter self.old rec }
        requires new { is_known self.old rec.host rec.toid ≡ false }
        requires free { is_free self.old rec ≡ true }
        ensures ok { IfOk result (λ verdict. IsTaken self.old rec verdict self.new) }
        ensures err { OnErr result (self.new ≡ self.old) }
        ensures back { IfErr result (λ back. back.value ≡ rec) }
        ensures sound { IsSound self.new }
    {
        let count = self.due_count(&rec);
        if self.out.reserve(count + 1).is_err() {
            return Err(Back { value: rec });
        }
        let (host, toid) = (rec.host, rec.toid);
        self.reached.raise(host, toid);
        self.out.push_reserved(Item::External(rec));
        pass_first(
            &mut self.held,
            host,
            toid,
            count,
            &mut self.reached,
            &mut self.out,
        );
        Ok(Verdict::Passed)
    }

    /// How many of the held records from a new one on are due once that one passes.
    fn due_count(&self, rec: &Record) -> usize
        requires fits { FitsFilter self.now rec.now }
        requires new { is_known self.now rec.now.host rec.now.toid ≡ false }
        requires free { is_free self.now rec.now ≡ true }
        ensures few { result < 2 ^ 63 }
        ensures within { result ≤ length (from_name rec.now.host rec.now.toid self.now.held) }
        ensures due { All (λ q. is_due (with_held self.now rec.now) q ≡ true) (take result (from_name rec.now.host rec.now.toid self.now.held)) }
        ensures rest { All (λ q. is_due (with_held self.now rec.now) q ≡ false) (drop result (from_name rec.now.host rec.now.toid self.now.held)) }
    {
        let mut count = 0;
        let mut last = rec.toid;
        for (_, next) in self.held.range_from(rec.host, rec.toid) {
            if !self.follows(next, rec.host, last) {
                return count;
            }
            last = next.toid;
            count += 1;
        }
        count
    }

    /// Whether the record is the next own one of host h after number `last`, with no mark at or below it.
    fn follows(&self, rec: &Record, h: DcId, last: Toid) -> bool
        ensures { IsTrue result ↔ Follows self.now rec.now h last }
    {
        rec.host == h
            && rec.toid > last
            && !self.map.serves(self.number, h, last + 1, rec.toid)
            && !self.holds_back(h, rec.toid)
    }
}

/// The first held records from number t of host h on pass, where there is room for them.
pub(crate) fn pass_first(
    held: &mut Held,
    h: DcId,
    t: Toid,
    count: usize,
    reached: &mut Counts,
    out: &mut Vec<Item>,
)
    requires within { count ≤ length (from_name h t held.old) }
    requires room { vec_len out.old + count ≤ vec_capacity out.old }
    requires rising { AllPairs (λ q r. stands_before r.host r.toid q ≡ true) held.old }
    requires hosts { All (λ r. r.host < length reached.old) held.old }
    ensures kept { held.new ≡ before_name h t held.old ++ drop count (from_name h t held.old) }
    ensures raised { reached.new ≡ reached_by reached.old (take count (from_name h t held.old)) }
    ensures moved { out.new.items ≡ out.old.items ++ map External (take count (from_name h t held.old)) }
{
    for _done in 0..count {
        let Some(rec) = held.remove_first_from(h, t) else {
            unreachable!();
        };
        reached.raise(rec.host, rec.toid);
        out.push_reserved(Item::External(rec));
    }
}
