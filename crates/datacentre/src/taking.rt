//! The turns of a whole datacentre: where a member is not there nothing happens, else it is lent its stages.
ghost use Rattle.std.specs.Prelude.{◌≡◌, ◌<◌, ◌≤◌, ◌⊎◌, ◌&&◌, [], false, nat_lt, length, slice_index_or, IfOk, IsOk};
ghost use Rattle.abstract_log.specs.declared.script.Outcome.TheVariants.{Absent};
ghost use Rattle.record_codec.specs.declared.message.Message.{Message};
ghost use Rattle.record_codec.specs.Wire.{SpellsMessage};
ghost use Rattle.stage_world.specs.Stages.{Session};
ghost use Rattle.stage_world.specs.ClientTurns.{client_turn};
ghost use Rattle.stage_world.specs.Turns.{flush_turn, gossip_turn, pass_turn, place_turn, stamp_turn, token_turn, where_there};
ghost use Rattle.stage_world.specs.MoreTurns.{collect_turn, floor_turn, learn_turn, post_turn, receive_turn};
ghost use Rattle.datacentre.specs.Seen.{seen};
ghost use Rattle.stage_world.specs.Schedules.{turn_of};
ghost use Rattle.hyksos.specs.Sessions.{writes};
ghost use Rattle.stage_turns.specs.Told.{IsToldBy};
ghost use Rattle.datacentre.specs.Turning.{IsOwnStep, IsPacketOf, IsTurned, MayTurn, TakesNoMemory, send_told};

use crate::parts::Parts;
use crate::{TurnDone, turns};
use abstract_log::{Outcome, Step};
use cz_base::{DcId, Lid, NoMemory, Seq};
use lossy_links::Packet;

impl Parts {
    /// The turn that a step names.
    pub fn take_turn(&mut self, step: &Step) -> Result<TurnDone, NoMemory>
        requires may { MayTurn self.old }
        requires own { IsOwnStep (seen self.old) step.now }
        ensures turned { IfOk result (λ done. IsTurned self.old self.new done (turn_of self.old.dc (seen self.old) step.now)) }
        ensures succeeds { TakesNoMemory (seen self.old) step.now → IsOk result }
    {
        match step {
            Step::Client { s } => self.client(*s),
            Step::Flush { b, .. } => self.flush(*b),
            Step::Pass { f, q, .. } => self.pass(*f, *q),
            Step::Stamp { q, .. } => self.stamp(*q),
            Step::Token { .. } => self.token(),
            Step::Place { q, m, .. } => self.place(*q, *m),
            Step::Gossip { m, k, .. } => self.gossip(*m, *k),
            Step::Post { m, i, .. } => self.post(*m, *i),
            Step::Learn { .. } => self.learn(),
            Step::Floor { p, .. } => self.raise_floor(*p),
            Step::Collect { m, .. } => self.collect(*m),
            Step::AddMaintainer { p, .. } => self.add_maintainer(*p),
            Step::AddBatcher { .. } => self.add_batcher(),
            Step::AddQueue { .. } => self.add_queue(),
            Step::AddSender { .. } => self.add_sender(),
            Step::AddReceiver { .. } => self.add_receiver(),
            Step::Upgrade { .. } => Ok(self.upgrade()),
            Step::Announce { h, t, .. } => Ok(self.announce(*h, *t)),
            Step::Mark { .. } => self.mark(),
            Step::Send { .. } | Step::Deliver { .. } | Step::Lose { .. } | Step::Copy { .. } => {
                unreachable!()
            }
        }
    }

    /// Batcher b hands its items to the filters.
    pub fn flush(&mut self, b: u32) -> Result<TurnDone, NoMemory>
        requires { MayTurn self.old }
        ensures turned { IfOk result (λ done. IsTurned self.old self.new done (where_there (nat_lt b (length self.old.batchers)) (seen self.old) (flush_turn (seen self.old) b))) }
        ensures succeeds { length self.old.batchers ≤ b → IsOk result }
    {
        if b as usize >= self.batchers.len() {
            return Ok(self.absent());
        }
        turns::flush(
            self.batchers.item_mut(b as usize),
            &mut self.filters,
            &self.map,
        )
    }

    /// Filter f hands what it passed to queue q.
    pub fn pass(&mut self, f: u32, q: u32) -> Result<TurnDone, NoMemory>
        requires { MayTurn self.old }
        ensures turned { IfOk result (λ done. IsTurned self.old self.new done (where_there (nat_lt f (length self.old.filters) && nat_lt q (length self.old.queues)) (seen self.old) (pass_turn (seen self.old) f q))) }
        ensures succeeds { (length self.old.filters ≤ f) ⊎ (length self.old.queues ≤ q) → IsOk result }
    {
        if f as usize >= self.filters.len() || q as usize >= self.queues.len() {
            return Ok(self.absent());
        }
        turns::pass(f, &mut self.filters, self.queues.item_mut(q as usize))
    }

    /// Queue q stamps, if it has the token.
    pub fn stamp(&mut self, q: u32) -> Result<TurnDone, NoMemory>
        requires { MayTurn self.old }
        ensures turned { IfOk result (λ done. IsTurned self.old self.new done (where_there (nat_lt q (length self.old.queues)) (seen self.old) (stamp_turn self.old.dc (seen self.old) q))) }
        ensures succeeds { length self.old.queues ≤ q → IsOk result }
    {
        if q as usize >= self.queues.len() {
            return Ok(self.absent());
        }
        turns::stamp(
            self.dc,
            self.queues.item_mut(q as usize),
            &mut self.sessions,
        )
    }

    /// The token goes to the next queue.
    pub fn token(&mut self) -> Result<TurnDone, NoMemory>
        requires { MayTurn self.old }
        ensures turned { IfOk result (λ done. IsTurned self.old self.new done (token_turn (seen self.old))) }
        ensures succeeds { IsOk result }
    {
        turns::token(&mut self.queues)
    }

    /// Maintainer m takes what queue q stamped for it.
    pub fn place(&mut self, q: u32, m: u32) -> Result<TurnDone, NoMemory>
        requires { MayTurn self.old }
        ensures turned { IfOk result (λ done. IsTurned self.old self.new done (where_there (nat_lt q (length self.old.queues) && nat_lt m (length self.old.maintainers)) (seen self.old) (place_turn (seen self.old) q m))) }
        ensures succeeds { (length self.old.queues ≤ q) ⊎ (length self.old.maintainers ≤ m) → IsOk result }
    {
        if q as usize >= self.queues.len() || m as usize >= self.maintainers.len() {
            return Ok(self.absent());
        }
        turns::place(
            self.queues.item_mut(q as usize),
            m,
            self.maintainers.item_mut(m as usize),
        )
    }

    /// The vector of maintainer k hears that of maintainer m.
    pub fn gossip(&mut self, m: u32, k: u32) -> Result<TurnDone, NoMemory>
        requires { MayTurn self.old }
        ensures turned { IfOk result (λ done. IsTurned self.old self.new done (where_there (nat_lt m (length self.old.maintainers) && nat_lt k (length self.old.maintainers)) (seen self.old) (gossip_turn (seen self.old) m k))) }
        ensures succeeds { (length self.old.maintainers ≤ m) ⊎ (length self.old.maintainers ≤ k) → IsOk result }
    {
        let there = self.maintainers.len();
        if m as usize >= there || k as usize >= there {
            return Ok(self.absent());
        }
        turns::gossip(
            m,
            self.maintainers.item_mut(m as usize),
            &mut self.vectors,
            m,
            k,
        )
    }

    /// Indexer i takes what maintainer m has to post.
    pub fn post(&mut self, m: u32, i: u32) -> Result<TurnDone, NoMemory>
        requires { MayTurn self.old }
        ensures turned { IfOk result (λ done. IsTurned self.old self.new done (where_there (nat_lt m (length self.old.maintainers) && nat_lt i (length self.old.indexers)) (seen self.old) (post_turn (seen self.old) m i))) }
        ensures succeeds { (length self.old.maintainers ≤ m) ⊎ (length self.old.indexers ≤ i) → IsOk result }
    {
        if m as usize >= self.maintainers.len() || i as usize >= self.indexers.len() {
            return Ok(self.absent());
        }
        turns::post(
            m,
            self.maintainers.item_mut(m as usize),
            self.indexers.item_mut(i as usize),
        )
    }

    /// The own row takes the counts of the positions up to the head.
    pub fn learn(&mut self) -> Result<TurnDone, NoMemory>
        requires { MayTurn self.old }
        ensures { IfOk result (λ done. IsTurned self.old self.new done (learn_turn self.old.dc (seen self.old))) }
    {
        turns::learn(
            self.dc,
            &mut self.maintainers,
            self.vectors.item_mut(0),
            &mut self.table,
            &mut self.learnt,
        )
    }

    /// The collection floor rises to p, as far as the head, what is posted and the pins allow.
    pub fn raise_floor(&mut self, p: Lid) -> Result<TurnDone, NoMemory>
        requires { MayTurn self.old }
        ensures turned { IfOk result (λ done. IsTurned self.old self.new done (floor_turn (seen self.old) p)) }
        ensures succeeds { IsOk result }
    {
        turns::floor(
            p,
            &self.vectors.as_slice()[0],
            &self.indexers,
            &mut self.floor,
        )
    }

    /// Maintainer m lets each record go that may be collected.
    pub fn collect(&mut self, m: u32) -> Result<TurnDone, NoMemory>
        requires { MayTurn self.old }
        ensures turned { IfOk result (λ done. IsTurned self.old self.new done (where_there (nat_lt m (length self.old.maintainers)) (seen self.old) (collect_turn self.old.dc (seen self.old) m))) }
        ensures succeeds { length self.old.maintainers ≤ m → IsOk result }
    {
        if m as usize >= self.maintainers.len() {
            return Ok(self.absent());
        }
        turns::collect(
            self.dc,
            self.maintainers.item_mut(m as usize),
            &self.indexers,
            &self.table,
            &self.floor,
            &mut self.collected,
        )
    }

    /// Session s, if it lives here, begins its next command or goes on with the one that is open.
    pub fn client(&mut self, s: u32) -> Result<TurnDone, NoMemory>
        requires { MayTurn self.old }
        ensures { IfOk result (λ done. IsTurned self.old self.new done (client_turn self.old.dc (seen self.old) s)) }
    {
        let Some(at) = turns::place_of(&self.sessions, s) else {
            return Ok(self.absent());
        };
        if self.writes(at) {
            turns::client_write(s, self.sessions.item_mut(at), &mut self.batchers)
        } else {
            turns::client_read(
                self.dc,
                s,
                self.first_maintainers,
                self.sessions.item_mut(at),
                &mut self.maintainers,
                &mut self.vectors,
                &mut self.indexers,
                &mut self.floor,
            )
        }
    }

    // Whether the turn of the session at this place is that of a write.
    fn writes(&self, at: usize) -> bool
        requires { at < length self.now.sessions }
        ensures { (x : Session) → x ≡ slice_index_or self.now.sessions at x → result ≡ writes x }
    {
        self.sessions.as_slice()[at].writes()
    }

    /// A packet of another datacentre comes to receiver r.
    pub fn receive(&mut self, from: DcId, r: u32, packet: &Packet) -> Result<TurnDone, NoMemory>
        requires may { MayTurn self.old }
        requires told { IsToldBy (length self.old.table.table) from packet.now }
        ensures { (m : Message) → SpellsMessage (length self.old.table.table) packet.now m → IfOk result (λ done. IsTurned self.old self.new done (receive_turn self.old.dc (seen self.old) r m)) }
    {
        turns::deliver(
            self.dc,
            from,
            r,
            packet,
            &mut self.batchers,
            &mut self.table,
        )
    }

    /// Sender k, if it is there, makes its packet for a datacentre.
    pub fn send(&mut self, k: u32, to: DcId) -> Result<(TurnDone, Option<Packet>), NoMemory>
        requires may { MayTurn self.old }
        requires to { to < length self.old.table.table }
        ensures turned { IfOk result (λ sent. IsTurned self.old self.new sent.0 (where_there (nat_lt k (length self.old.senders)) (seen self.old) (send_told self.old.dc (seen self.old) k to))) }
        ensures packet { IfOk result (λ sent. IsPacketOf self.old.dc (seen self.old) k to sent.1) }
    {
        if k as usize >= self.senders.len() {
            return Ok((self.absent(), None));
        }
        let senders = self.senders.len() as u32;
        let sent = turns::send(
            to,
            k,
            senders,
            self.senders.item_mut(k as usize),
            &self.maintainers,
            &self.table,
        )?;
        Ok((sent.done, Some(sent.packet)))
    }

    /// What is answered where a member is not there.
    pub fn absent(&self) -> TurnDone
        ensures { result ≡ record { outcome = Absent; events = []; changed = false } }
    {
        TurnDone {
            outcome: Outcome::Absent,
            events: Seq::new(self.queues.alloc()),
            changed: false,
        }
    }
}
