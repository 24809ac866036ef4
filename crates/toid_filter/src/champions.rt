//! Champions: which filter serves each number of each host.

ghost use Rattle.std.specs.Prelude.{◌≡◌, ◌<◌, ◌≤◌, ◌↔◌, [], length, slice_index_or, IfOk, IsTrue};
ghost use Rattle.toid_filter.specs.Champions.{champion, dealt_by, first_map, grown, last_share, AreShares, IsServedBy, Serves};
ghost use Rattle.cz_base.specs.declared.limits.TheConstants.{DATACENTRES, MEMBERS};

use cz_base::{DcId, NoMemory, Seq, Toid};
use std::alloc::Global;
use std::marker::Model;

/// From number `start` of a host on, so many filters share its numbers among them.
#[derive(Clone, Copy, Debug, PartialEq, Eq)]
pub struct Share {
    /// The first number that is dealt so, from 1.
    pub start: Toid,
    /// How many filters there are for the host, from 1.
    pub filters: u32,
}

impl Share {
    /// One filter that serves every number.
    const SOLE: Share = Share {
        start: 1,
        filters: 1,
    };

    /// The filter that gets number t of host h.
    fn dealt(self, h: DcId, t: Toid) -> u32
        requires start { self.start ≤ t }
        requires filters { 1 ≤ self.filters }
        ensures { result ≡ dealt_by self h t }
    {
        let filters = u64::from(self.filters);
        (((t - self.start) % filters + u64::from(h.number())) % filters) as u32
    }

    /// Whether the filter gets a number of host h from `from` on and below `until`.
    fn serves(self, filter: u32, h: DcId, from: Toid, until: Toid) -> bool
        requires start { self.start ≤ from }
        requires filters { 1 ≤ self.filters }
        ensures { IsTrue result ↔ IsServedBy (dealt_by self h) filter from until }
    {
        // Each filter has one of so many numbers in a row, or none at all.
        let until = until.min(from.saturating_add(u64::from(self.filters)));
        for t in from..until {
            if self.dealt(h, t) == filter {
                return true;
            }
        }
        false
    }
}

/// Which filter serves each number of each host: its champion. For each host a list of shares with
/// rising starts, of which the last that starts at or before a number deals it.
#[derive(Debug, Drop)]
pub struct Champions {
    alloc: Global,
    hosts: Seq<Seq<Share>>,
}

impl Model for Champions {
    ghost use Rattle.std.specs.Prelude.{List};
    ghost use Rattle.toid_filter.specs.declared.champions.Share.{Share};
    ghost use Rattle.toid_filter.specs.Champions.{IsMap};

    ghost Value = { List (List Share) };

    ghost view = { λ map. map.hosts };

    ghost invariant = { λ map. IsMap map.hosts };
}

impl Champions {
    /// For each host one share from number 1 on.
    pub fn first(alloc: Global, dcs: u32, filters: u32) -> Result<Self, NoMemory>
        requires dcs { (1 ≤ dcs) × (dcs ≤ DATACENTRES) }
        requires filters { 1 ≤ filters }
        ensures { IfOk result (λ map. map ≡ first_map dcs filters) }
    {
        let mut hosts = Seq::new(alloc);
        for _ in 0..dcs {
            let mut shares = Seq::new(alloc);
            shares.push(Share { start: 1, filters })?;
            hosts.push(shares)?;
        }
        Ok(Champions { alloc, hosts })
    }

    /// An equal map.
    pub fn copy(&self) -> Result<Self, NoMemory>
        ensures { IfOk result (λ copy. copy ≡ self.now) }
    {
        let mut hosts = Seq::new(self.alloc);
        for shares in self.hosts.as_slice() {
            hosts.push(copy_shares(self.alloc, shares)?)?;
        }
        Ok(Champions {
            alloc: self.alloc,
            hosts,
        })
    }

    /// How many datacentres there are, 1 to [`cz_base::limits::DATACENTRES`].
    pub fn dcs(&self) -> u32
        ensures value { result ≡ length self.now }
        ensures within { (1 ≤ result) × (result ≤ DATACENTRES) }
    {
        self.hosts.len() as u32
    }

    /// The filter that serves number t of host h.
    pub fn champion(&self, h: DcId, t: Toid) -> u32
        requires { 1 ≤ t }
        ensures { result ≡ champion self.now h t }
    {
        let mut found = Share::SOLE;
        for share in self.shares(h) {
            if share.start <= t {
                found = *share;
            }
        }
        found.dealt(h, t)
    }

    /// Whether the filter serves a number of host h from `from` on and below `until`.
    pub fn serves(&self, filter: u32, h: DcId, from: Toid, until: Toid) -> bool
        requires { 1 ≤ from }
        ensures { IsTrue result ↔ Serves self.now filter h from until }
    {
        let mut found = Share::SOLE;
        let mut low = from;
        for share in self.shares(h) {
            if found.serves(filter, h, low, until.min(share.start)) {
                return true;
            }
            low = low.max(share.start);
            found = *share;
        }
        found.serves(filter, h, low, until)
    }

    /// From which number on the last share of host h deals.
    pub fn last_start(&self, h: DcId) -> Toid
        ensures { result ≡ (last_share self.now h).start }
    {
        self.last_share(h).start
    }

    /// How many filters the last share of host h has.
    pub fn filters(&self, h: DcId) -> u32
        ensures { result ≡ (last_share self.now h).filters }
    {
        self.last_share(h).filters
    }

    /// The map with one filter more for host h from number `mark` on.
    pub fn grown(&self, h: DcId, mark: Toid) -> Result<Self, NoMemory>
        requires host { h < length self.now }
        requires later { (last_share self.now h).start < mark }
        requires room { (last_share self.now h).filters < MEMBERS }
        ensures { IfOk result (λ map. map ≡ grown self.now h mark) }
    {
        let share = Share {
            start: mark,
            filters: self.filters(h) + 1,
        };
        let mut map = self.copy()?;
        map.hosts.item_mut(h.number() as usize).push(share)?;
        Ok(map)
    }

    fn last_share(&self, h: DcId) -> Share
        ensures { result ≡ last_share self.now h }
    {
        let mut found = Share::SOLE;
        for share in self.shares(h) {
            found = *share;
        }
        found
    }

    fn shares(&self, h: DcId) -> &[Share]
        ensures value { result.now ≡ slice_index_or self.now h [] }
        ensures shares { AreShares result.now }
    {
        match self.hosts.get(h.number() as usize) {
            Some(shares) => shares.as_slice(),
            None => &[],
        }
    }
}

fn copy_shares(alloc: Global, shares: &Seq<Share>) -> Result<Seq<Share>, NoMemory>
    ensures { IfOk result (λ copy. copy ≡ shares.now) }
{
    let mut copy = Seq::new(alloc);
    for share in shares.as_slice() {
        copy.push(*share)?;
    }
    Ok(copy)
}
