//! For each tag, the positions that may have it.
ghost use Rattle.std.specs.Prelude.{◌≡◌, ℕ, ◌≤◌, List, [], ◌++◌, ◌∷◌, All, Contains, OnOk, OnErr};
ghost use Rattle.tag_indexer.specs.TagIndexes.{AreLidsRising, IsListed, ListsAll};

use cz_base::{Lid, Name, NoMemory, Seq};
use std::alloc::Global;
use std::collections::BTreeMap;
use std::marker::Model;

/// Positions under tags: none is missing, but one may be listed that is not posted, where a post found no memory.
/// Contracts see the list of tags with their positions.
#[derive(Debug, Drop)]
pub(crate) struct TagIndex {
    alloc: Global,
    lists: BTreeMap<Name, Seq<Lid>>,
}

impl Model for TagIndex {
    ghost use Rattle.std.specs.Prelude.{List, ℕ};
    ghost use Rattle.tag_indexer.specs.TagIndexes.{IsTagIndex};

    ghost Value = { List (List ℕ × List ℕ) };

    ghost view = { λ index. index.lists.entries };

    ghost invariant = { λ index. IsTagIndex index.lists.entries };
}

impl TagIndex {
    /// Nothing is listed.
    pub fn new(alloc: Global) -> Self
        ensures { result ≡ [] }
    {
        TagIndex {
            alloc,
            lists: BTreeMap::new(alloc),
        }
    }

    /// Lists the position under the tag.
    pub fn add(&mut self, tag: &Name, lid: Lid) -> Result<(), NoMemory>
        ensures listed { OnOk result (IsListed self.new tag.now lid) }
        ensures kept { ListsAll self.old self.new }
    {
        if let Some(lids) = self.lists.get_mut(tag) {
            return add_lid(lids, lid);
        }
        let mut lids = Seq::new(self.alloc);
        lids.push(lid)?;
        self.lists.insert(tag.copy()?, lids)?;
        Ok(())
    }

    /// The positions at or below s that are listed under the tag, rising.
    pub fn up_to(&self, tag: &Name, s: Lid) -> &[Lid]
        ensures rising { AreLidsRising result.now }
        ensures below { All (λ p. p ≤ s) result.now }
        ensures whole { (p : ℕ) → p ≤ s → IsListed self.now tag.now p → Contains result.now p }
    {
        let Some(lids) = self.lists.get(tag) else {
            return &[];
        };
        let lids = lids.as_slice();
        let end = lids.partition_point(|lid| *lid <= s);
        &lids[..end]
    }
}

// Puts the position in its place, if it is not there.
fn add_lid(lids: &mut Seq<Lid>, lid: Lid) -> Result<(), NoMemory>
    requires { AreLidsRising lids.old }
    ensures rising { AreLidsRising lids.new }
    ensures listed { OnOk result (Contains lids.new lid) }
    ensures kept { (p : ℕ) → Contains lids.old p → Contains lids.new p }
{
    match lids.as_slice().binary_search(&lid) {
        Ok(_) => Ok(()),
        Err(at) => {
            lids.insert(at, lid)?;
            Ok(())
        }
    }
}
