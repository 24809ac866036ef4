//! The awareness table of one datacentre.

ghost use Rattle.std.specs.Prelude.{◌≡◌, ◌<◌, ◌≤◌, ◌↔◌, length, IsTrue};
ghost use Rattle.causal_deps.specs.Counts.{entry_of, greater_rows, raised_row, zero_table};
ghost use Rattle.awareness_table.specs.Awareness.{IsKnownEverywhere, IsLeast, is_known_everywhere};
ghost use Rattle.cz_base.specs.declared.limits.TheConstants.{DATACENTRES};

use causal_deps::{Counts, Table};
use cz_base::{DcId, Toid};
use std::marker::Model;

/// What one datacentre knows that each datacentre has, of each host. Contracts see that datacentre and
/// the table.
#[derive(Debug, Drop)]
pub struct Aware {
    dc: DcId,
    table: Table,
}

impl Model for Aware {
    ghost use Rattle.std.specs.Prelude.{◌<◌, length};
    ghost use Rattle.awareness_table.specs.Awareness.{Awareness};

    ghost Value = { Awareness };

    ghost view = { λ aware. record { dc = aware.dc; table = aware.table } };

    ghost invariant = { λ aware. aware.dc < length aware.table };
}

impl Aware {
    /// The datacentre knows of no record anywhere.
    pub fn new(dc: DcId, dcs: u32) -> Self
        requires dcs { (1 ≤ dcs) × (dcs ≤ DATACENTRES) }
        requires dc { dc < dcs }
        ensures { result ≡ record { dc = dc; table = zero_table dcs } }
    {
        Aware {
            dc,
            table: Table::zero(dcs),
        }
    }

    /// The datacentre whose own this is.
    pub fn dc(&self) -> DcId
        ensures value { result ≡ self.now.dc }
        ensures within { result < length self.now.table }
    {
        self.dc
    }

    /// The own row becomes the greater of itself and the other, entry by entry. No memory is taken.
    pub fn learn(&mut self, row: &Counts)
        requires { length self.old.table ≡ length row.now }
        ensures { self.new ≡ record self.old { table = raised_row self.old.table self.old.dc row.now } }
    {
        self.table.raise_row(self.dc, row);
    }

    /// Each entry becomes the greater of the two. No memory is taken.
    pub fn merge(&mut self, table: &Table)
        requires { length self.old.table ≡ length table.now }
        ensures { self.new ≡ record self.old { table = greater_rows self.old.table table.now } }
    {
        self.table.merge(table);
    }

    /// Whether every datacentre is known to have the first t records of host h.
    pub fn known_everywhere(&self, h: DcId, t: Toid) -> bool
        requires { h < length self.now.table }
        ensures rows { IsTrue result ↔ IsKnownEverywhere self.now.table h t }
        ensures test { result ≡ is_known_everywhere self.now.table h t }
    {
        t <= self.least(h)
    }

    /// The least entry of column h: so many records of host h every datacentre is known to have.
    pub fn least(&self, h: DcId) -> u64
        requires { h < length self.now.table }
        ensures { IsLeast self.now.table h result }
    {
        let dcs = self.table.dcs();
        let mut least = self.entry(0, h);
        for k in 1..dcs {
            least = least.min(self.entry(k, h));
        }
        least
    }

    /// A copy of the table.
    pub fn table(&self) -> Table
        ensures { result ≡ self.now.table }
    {
        self.table
    }

    // Entry h of row k.
    fn entry(&self, k: u32, h: DcId) -> u64
        requires row { (k < DATACENTRES) × (k < length self.now.table) }
        requires column { h < length self.now.table }
        ensures { result ≡ entry_of self.now.table k h }
    {
        match DcId::new(k) {
            Some(k) => self.table.row(k).get(h),
            None => unreachable!(),
        }
    }
}
