//! The maintainers with their vectors, and what each step does to them.

ghost use Rattle.std.specs.Prelude.{◌≡◌, ◌+◌, ◌<◌, ◌≤◌, ◌^◌, max, fold, map, length, nat_lt, if◌then◌else◌, All, IfOk, OnOk};
ghost use Rattle.flstore_rounds.specs.Epochs.{IsPrefix};
ghost use Rattle.post_assignment.specs.Appending.{HasRoom, appended, next_lid};
ghost use Rattle.cz_base.specs.declared.limits.TheConstants.{MEMBERS, ROUND, STEPS};
ghost use Rattle.flstore_service.specs.declared.run.FlOutcome.TheVariants.{Placed as PlacedAt};
ghost use Rattle.flstore_service.specs.Fits.{FitsFlStep, adds_maintainer};
ghost use Rattle.flstore_service.specs.Running.{add_maintainer_turn, after_turn, fresh, fresh_upto, gossip_turn, head_turn, own_vector, put_turn, quiet, read_turn, start, submission, told_epochs, turn};
ghost use Rattle.flstore_service.specs.Sound.{CanLearn, CanTurn};

use crate::{FlOutcome, FlStep};
use causal_deps::Shown;
use cz_base::{Body, Lid, NoMemory, Seq};
use flstore_rounds::{EpochFault, Epochs};
use head_gossip::Vector;
use maintainer::Maintainer;
use post_assignment::{After, Appender, Here};
use std::alloc::Global;

/// A value that was not refused.
#[derive(Debug, Drop)]
pub struct Submission {
    /// Its number, from 1 on.
    pub number: u32,
    /// The position above which it stands or has to stand, 0 where any will do.
    pub bound: Lid,
    pub body: Body,
}

/// A maintainer with what waits for it, and its vector.
#[derive(Debug, Drop)]
pub struct Member {
    pub appender: Appender<Submission>,
    pub vector: Vector,
}

/// All maintainers.
#[derive(Debug, Drop)]
pub struct Service {
    /// The epochs, which each maintainer knows.
    pub epochs: Epochs,
    /// The maintainers by number.
    pub members: Seq<Member>,
    /// How many values were not refused.
    pub count: u32,
    /// The greatest position that was given, or 0.
    pub top: Lid,
}

impl Member {
    // A maintainer that has nothing.
    fn new(alloc: Global, number: u32, epochs: &Epochs) -> Result<Self, NoMemory>
        ensures { IfOk result (λ member. member ≡ fresh epochs.now number) }
    {
        let maintainer = Maintainer::new(alloc, number, epochs.copy()?);
        Ok(Member {
            appender: Appender::new(alloc, maintainer),
            vector: Vector::new(alloc, epochs.copy()?),
        })
    }

    // The maintainer learns the epochs.
    fn learn(&mut self, epochs: &Epochs) -> Result<(), NoMemory>
        requires { CanLearn epochs.now self.old }
        ensures { OnOk result (self.new ≡ told_epochs epochs.now self.old) }
    {
        self.appender.learn(epochs)
    }

    // The vector takes what the maintainer has.
    fn own(&mut self, m: u32) -> Result<(), NoMemory>
        requires prefix { IsPrefix self.old.vector.epochs self.old.appender.maintainer.epochs }
        requires member { m < MEMBERS }
        ensures { OnOk result (self.new ≡ record self.old { vector = own_vector m self.old }) }
    {
        let maintainer = self.appender.maintainer();
        self.vector.own(maintainer.epochs(), m, maintainer.filled())
    }
}

impl Service {
    /// So many maintainers that have nothing.
    pub fn start(alloc: Global, round: u32, maintainers: u32) -> Result<Self, NoMemory>
        requires round { (1 ≤ round) × (round ≤ ROUND) }
        requires maintainers { (1 ≤ maintainers) × (maintainers ≤ MEMBERS) }
        ensures { IfOk result (λ service. service ≡ start round maintainers) }
    {
        let epochs = Epochs::first(alloc, round, maintainers)?;
        let mut members = Seq::from_vec(Vec::with_capacity(alloc, maintainers as usize)?);
        for number in 0..maintainers {
            members.push(Member::new(alloc, number, &epochs)?)?;
        }
        Ok(Service {
            epochs,
            members,
            count: 0,
            top: 0,
        })
    }

    /// What a step does and answers.
    pub fn turn(&mut self, step: &FlStep) -> Result<FlOutcome, NoMemory>
        requires can { CanTurn self.old }
        requires fits { FitsFlStep step.now }
        requires room { length self.old.members + (if adds_maintainer step.now then 1 else 0) ≤ MEMBERS }
        ensures { IfOk result (λ outcome. quiet self.new outcome ≡ turn self.old step.now) }
    {
        match step {
            FlStep::Put { m, body } => self.put(*m, body),
            FlStep::After { m, p, body } => self.after(*m, *p, body),
            FlStep::Gossip { m, k } => self.gossip(*m, *k),
            FlStep::Head { m } => self.head(*m),
            FlStep::Read { m, p } => self.read(*m, *p),
            FlStep::AddMaintainer { p } => self.add_maintainer(*p),
        }
    }

    // Whether there is a maintainer of that number.
    fn has(&self, m: u32) -> bool
        ensures { result ≡ nat_lt m (length self.now.members) }
    {
        (m as usize) < self.members.len()
    }

    // The next value, with its number.
    fn submission(&self, bound: Lid, body: &Body) -> Result<Submission, NoMemory>
        requires { self.now.count < STEPS }
        ensures { IfOk result (λ value. value ≡ submission self.now bound body.now) }
    {
        Ok(Submission {
            number: self.count + 1,
            bound,
            body: body.copy()?,
        })
    }

    // A value for the next own position of maintainer m.
    fn put(&mut self, m: u32, body: &Body) -> Result<FlOutcome, NoMemory>
        requires { CanTurn self.old }
        ensures { IfOk result (λ outcome. quiet self.new outcome ≡ put_turn self.old m body.now) }
    {
        if !self.has(m) {
            return Ok(FlOutcome::Absent);
        }
        let value = self.submission(0, body)?;
        let here = self
            .members
            .item_mut(m as usize)
            .appender
            .append_here(value)?;
        Ok(self.placed(here))
    }

    // A value for maintainer m that is to stand above a bound.
    fn after(&mut self, m: u32, bound: Lid, body: &Body) -> Result<FlOutcome, NoMemory>
        requires { CanTurn self.old }
        ensures { IfOk result (λ outcome. quiet self.new outcome ≡ after_turn self.old m bound body.now) }
    {
        if !self.has(m) {
            return Ok(FlOutcome::Absent);
        }
        let value = self.submission(bound, body)?;
        let after = self
            .members
            .item_mut(m as usize)
            .appender
            .append_after(value, bound)?;
        match after {
            After::Kept => {
                self.count += 1;
                Ok(FlOutcome::Kept)
            }
            After::Placed(here) => Ok(self.placed(here)),
        }
    }

    // A value was put in, and others that it released.
    fn placed(&mut self, here: Here) -> FlOutcome
        requires { self.old.count < STEPS }
        ensures service { self.new ≡ record self.old { count = self.old.count + 1; top = fold max (max self.old.top here.lid) here.released } }
        ensures outcome { result ≡ PlacedAt here.lid here.released }
    {
        let Here { lid, released } = here;
        self.count += 1;
        self.top = greatest(self.top.max(lid), released.as_slice());
        FlOutcome::Placed { lid, released }
    }

    // Vector m takes what its maintainer has, and vector k hears it.
    fn gossip(&mut self, m: u32, k: u32) -> Result<FlOutcome, NoMemory>
        requires can { CanTurn self.old }
        requires member { m < MEMBERS }
        ensures { IfOk result (λ outcome. quiet self.new outcome ≡ gossip_turn self.old m k) }
    {
        if !self.has(m) || !self.has(k) {
            return Ok(FlOutcome::Absent);
        }
        let teller = self.members.item_mut(m as usize);
        teller.own(m)?;
        let note = teller.vector.tell()?;
        let hearer = self.members.item_mut(k as usize);
        hearer.vector.hear(&note)?;
        Ok(FlOutcome::Heard {
            head: hearer.vector.head(),
        })
    }

    // Vector m takes what its maintainer has.
    fn head(&mut self, m: u32) -> Result<FlOutcome, NoMemory>
        requires can { CanTurn self.old }
        requires member { m < MEMBERS }
        ensures { IfOk result (λ outcome. quiet self.new outcome ≡ head_turn self.old m) }
    {
        if !self.has(m) {
            return Ok(FlOutcome::Absent);
        }
        let member = self.members.item_mut(m as usize);
        member.own(m)?;
        Ok(FlOutcome::HeadAt {
            at: member.vector.head(),
        })
    }

    // What stands at a position up to the head by vector m.
    fn read(&self, m: u32, p: Lid) -> Result<FlOutcome, NoMemory>
        requires can { CanTurn self.now }
        requires first { 1 ≤ p }
        ensures { IfOk result (λ outcome. quiet self.now outcome ≡ read_turn self.now m p) }
    {
        let Some(member) = self.members.get(m as usize) else {
            return Ok(FlOutcome::Absent);
        };
        if member.vector.head() < p {
            return Ok(FlOutcome::Beyond);
        }
        let Some(keeper) = self.members.get(self.epochs.owner(p) as usize) else {
            return Ok(FlOutcome::Beyond);
        };
        match keeper.appender.maintainer().read(p) {
            Shown::Filled(value) => Ok(FlOutcome::Value {
                body: value.body.copy()?,
            }),
            Shown::Gone => Ok(FlOutcome::Beyond),
            Shown::Empty => Ok(FlOutcome::Beyond),
        }
    }

    // One more maintainer from position p on, where that is above all that was given and the last epoch's start.
    fn add_maintainer(&mut self, p: Lid) -> Result<FlOutcome, NoMemory>
        requires can { CanTurn self.old }
        requires lid { p < 2 ^ 32 }
        requires room { length self.old.members < MEMBERS }
        ensures { IfOk result (λ outcome. quiet self.new outcome ≡ add_maintainer_turn self.old p) }
    {
        let bound = self.top.max(self.epochs.last().start);
        if p <= bound {
            return Ok(FlOutcome::Late { bound });
        }
        let number = self.members.len() as u32;
        let members = number + 1;
        match self.epochs.add_epoch(p, members) {
            Ok(()) => {}
            Err(EpochFault::Late { .. }) => unreachable!(),
            Err(EpochFault::NoMemory) => return Err(NoMemory),
        }
        tell_epochs(&mut self.members, &self.epochs)?;
        let member = Member::new(self.members.alloc(), number, &self.epochs)?;
        self.members.push(member)?;
        Ok(FlOutcome::EpochAdded { start: p, members })
    }
}

// Each maintainer learns the epochs.
fn tell_epochs(members: &mut Seq<Member>, epochs: &Epochs) -> Result<(), NoMemory>
    requires { All (CanLearn epochs.now) members.old }
    ensures { OnOk result (members.new ≡ map (told_epochs epochs.now) members.old) }
{
    for m in 0..members.len() {
        members.item_mut(m).learn(epochs)?;
    }
    Ok(())
}

// The greatest of a position and others.
fn greatest(first: Lid, others: &[Lid]) -> Lid
    ensures { result ≡ fold max first others.now }
{
    let mut most = first;
    for lid in others {
        most = most.max(*lid);
    }
    most
}
