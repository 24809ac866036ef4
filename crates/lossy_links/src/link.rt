//! A link: the packets that are under way, and what each call does to their list.

ghost use Rattle.std.specs.Option.{option_copied};
ghost use Rattle.std.specs.Prelude.{◌≡◌, ◌≤◌, ◌↔◌, [], length, None, Ok, IsSome, IsNone, IsTrue, IfOk, OnOk, OnErr};
ghost use Rattle.lossy_links.specs.Links.{message_at, without, put_last, lost_by_put, copied, answer_to_copy};
ghost use Rattle.cz_base.specs.declared.limits.TheConstants.{PACKETS};

use crate::Packet;
use cz_base::NoMemory;
use cz_base::limits::PACKETS;
use std::alloc::Global;
use std::marker::Model;

/// What became of the wish to copy a packet.
#[derive(Debug, Drop, PartialEq, Eq)]
pub enum Copied {
    /// There is no packet of that number.
    Absent,
    /// The copy is the last packet of the link.
    Done,
    /// The copy is the last packet of the link, and pushed out the oldest, which is here.
    Overflow(Packet),
}

/// The packets on their way from one datacentre to another, at most [`PACKETS`]. Contracts see the list of
/// them; packet 1 is the oldest.
#[derive(Debug, Drop)]
pub struct Link {
    packets: Vec<Packet>,
}

impl Model for Link {
    ghost use Rattle.cz_base.specs.declared.limits.TheConstants.{PACKETS};
    ghost use Rattle.std.specs.Prelude.{◌≡◌, ◌≤◌, List, ℕ};
    ghost use Rattle.std.specs.Vec.{vec_len, vec_capacity};

    ghost Value = { List (List ℕ) };

    ghost view = { λ link. link.packets.items };

    ghost invariant = { λ link. (vec_capacity link.packets ≡ PACKETS) × (vec_len link.packets ≤ PACKETS) };
}

impl Link {
    /// A link with no packet. It has room for all that it will ever hold.
    pub fn new(alloc: Global) -> Result<Self, NoMemory>
        ensures { IfOk result (λ link. link ≡ []) }
    {
        Ok(Link {
            packets: Vec::with_capacity(alloc, PACKETS)?,
        })
    }

    /// How many packets are on their way: 0 to [`PACKETS`].
    pub fn len(&self) -> usize
        ensures value { result ≡ length self.now }
        ensures within { length self.now ≤ PACKETS }
    {
        self.packets.len()
    }

    /// Whether no packet is on its way.
    pub fn is_empty(&self) -> bool
        ensures { IsTrue result ↔ (self.now ≡ []) }
    {
        self.packets.is_empty()
    }

    /// The packet goes last. Where the link was full, the oldest is handed back. No memory is taken.
    pub fn put(&mut self, packet: Packet) -> Option<Packet>
        ensures after { self.new ≡ put_last self.old packet }
        ensures full { IsSome result ↔ (length self.old ≡ PACKETS) }
        ensures oldest { result ≡ lost_by_put self.old }
    {
        if self.packets.len() < PACKETS {
            self.packets.push_reserved(packet);
            return None;
        }
        let oldest = self.packets.remove(0);
        self.packets.push_reserved(packet);
        Some(oldest)
    }

    /// The packets on their way, the oldest first.
    pub fn packets(&self) -> &[Packet]
        ensures { result.now ≡ self.now }
    {
        &self.packets
    }

    /// Packet k, or `None` exactly where there is none.
    pub fn packet(&self, k: u32) -> Option<&Packet>
        ensures { option_copied result ≡ message_at self.now k }
    {
        let k = k as usize;
        if k == 0 || self.packets.len() < k {
            return None;
        }
        Some(&self.packets[k - 1])
    }

    /// Takes packet k out, or answers `None` exactly where there is none. No memory is taken.
    pub fn deliver(&mut self, k: u32) -> Option<Packet>
        ensures packet { result ≡ message_at self.old k }
        ensures after { self.new ≡ without self.old k }
        ensures absent { IsNone result → self.new ≡ self.old }
    {
        let k = k as usize;
        if k == 0 || self.packets.len() < k {
            return None;
        }
        Some(self.packets.remove(k - 1))
    }

    /// Takes packet k out for good: whoever calls this drops it.
    pub fn lose(&mut self, k: u32) -> Option<Packet>
        ensures packet { result ≡ message_at self.old k }
        ensures after { self.new ≡ without self.old k }
        ensures absent { IsNone result → self.new ≡ self.old }
    {
        self.deliver(k)
    }

    /// A copy of packet k goes last, and packet k stays, unless the copy pushes it out.
    pub fn copy(&mut self, k: u32) -> Result<Copied, NoMemory>
        ensures answer { IfOk result (λ answer. answer ≡ answer_to_copy self.old k) }
        ensures after { OnOk result (self.new ≡ copied self.old k) }
        ensures absent { result ≡ Ok Copied.Absent → (message_at self.old k ≡ None) × (self.new ≡ self.old) }
        ensures err { OnErr result (self.new ≡ self.old) }
    {
        let k = k as usize;
        if k == 0 || self.packets.len() < k {
            return Ok(Copied::Absent);
        }
        let copy = self.packets[k - 1].copy()?;
        match self.put(copy) {
            Some(oldest) => Ok(Copied::Overflow(oldest)),
            None => Ok(Copied::Done),
        }
    }
}
