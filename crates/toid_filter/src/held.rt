//! The records that a filter holds, in order, found by their names.
ghost use Rattle.std.specs.Prelude.{◌≡◌, [], ◌∷◌, ◌++◌, ◌^◌, ◌<◌, true, false, drop, length, map, slice_get, IfErr, OnErr, OnOk};
ghost use Rattle.std.specs.List.{list_any, AllPairs};
ghost use Rattle.toid_filter.specs.Filters.{before_name, from_name, has_name, named, stands_before};

use causal_deps::Record;
use cz_base::{Back, DcId, Toid};
use std::alloc::Global;
use std::collections::BTreeMap;
use std::collections::btree_map::Range;
use std::marker::Model;
use std::ops::Bound;

/// A record's name: names rise by host, and those of one host by number.
pub(crate) type RecordName = (DcId, Toid);

/// No name stands before this one.
pub(crate) const FIRST_NAME: RecordName = (DcId::FIRST, 0);

/// Records by host and then by number, none twice. A record is found, put in or taken out in steps
/// that grow with the logarithm of how many there are.
#[derive(Debug, Drop)]
pub struct Held {
    by_name: BTreeMap<RecordName, Record>,
}

impl Model for Held {
    ghost use Rattle.std.specs.Prelude.{◌≡◌, List, map};
    ghost use Rattle.std.specs.Map.{values_of};
    ghost use Rattle.causal_deps.specs.declared.record.Record.{Record};
    ghost use Rattle.toid_filter.specs.Filters.{named};

    ghost Value = { List Record };

    ghost view = { λ held. values_of held.by_name.entries };

    ghost invariant = { λ held. held.by_name.entries ≡ map named (values_of held.by_name.entries) };
}

impl Held {
    /// Holds nothing.
    pub fn new(alloc: Global) -> Self
        ensures { result ≡ [] }
    {
        Held {
            by_name: BTreeMap::new(alloc),
        }
    }

    /// How many records are held.
    pub fn len(&self) -> usize
        ensures { result ≡ length self.now }
    {
        self.by_name.len()
    }

    /// Whether number t of host h is held.
    pub fn contains(&self, h: DcId, t: Toid) -> bool
        ensures { result ≡ list_any (has_name h t) self.now }
    {
        self.by_name.contains_key(&(h, t))
    }

    /// Holds one record more, at its place. Without memory it comes back.
    pub fn insert(&mut self, rec: Record) -> Result<(), Back<Record>>
        requires { list_any (has_name rec.host rec.toid) self.old ≡ false }
        ensures ok { OnOk result (self.new ≡ before_name rec.host rec.toid self.old ++ rec ∷ from_name rec.host rec.toid self.old) }
        ensures err { OnErr result (self.new ≡ self.old) }
        ensures back { IfErr result (λ back. back.value ≡ rec) }
    {
        let name = (rec.host, rec.toid);
        match self.by_name.insert(name, rec) {
            Ok(_) => Ok(()),
            Err(failed) => {
                let (_, value) = failed.value;
                Err(Back { value })
            }
        }
    }

    /// The records from number t of host h on, in order.
    pub fn range_from(&self, h: DcId, t: Toid) -> Range<'_, RecordName, Record>
        ensures shown { result ≡ map named (from_name h t self.now) }
        ensures few { length (from_name h t self.now) < 2 ^ 63 }
        ensures rising { AllPairs (λ q r. stands_before r.host r.toid q ≡ true) self.now }
    {
        self.by_name
            .range((Bound::Included((h, t)), Bound::Unbounded))
    }

    /// Takes out the first record from number t of host h on.
    pub fn remove_first_from(&mut self, h: DcId, t: Toid) -> Option<Record>
        ensures first { result ≡ slice_get (from_name h t self.old) 0 }
        ensures rest { self.new ≡ before_name h t self.old ++ drop 1 (from_name h t self.old) }
    {
        let name = match self.range_from(h, t).next() {
            Some((name, _)) => *name,
            None => return None,
        };
        self.by_name.remove(&name)
    }
}
