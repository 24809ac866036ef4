//! Posts: what an indexer gets of a record, and where a tag is looked up.

ghost use Rattle.std.specs.Prelude.{◌≡◌, ◌<◌, ◌≤◌, bytes_eq};
ghost use Rattle.abstract_log.specs.Updates.{told_by};
ghost use Rattle.tag_indexer.specs.Rows.{home, is_tagged};

use causal_deps::{Kind, Newest, Place};
use cz_base::{Name, Seq};

/// What an indexer gets of a record: where it stands, its kind, and its tags.
#[derive(Debug, Drop)]
pub struct Post {
    /// Where the record stands, and its name.
    pub place: Place,
    /// An append, or a put or a del, whose one tag is its key.
    pub kind: Kind,
    /// Its tags, or its key.
    pub tags: Seq<Name>,
}

/// The number of the indexer, from 0, that a tag is looked up at: the sum of its bytes modulo the number of
/// indexers.
pub fn home(tag: &Name, indexers: u32) -> u32
    requires { 1 ≤ indexers }
    ensures value { result ≡ home tag.now indexers }
    ensures member { result < indexers }
{
    let mut sum: u32 = 0;
    for byte in tag.as_bytes() {
        sum += *byte as u32;
    }
    sum % indexers
}

impl Post {
    /// Whether the record has the tag.
    pub(crate) fn has_tag(&self, tag: &Name) -> bool
        ensures { result ≡ is_tagged tag.now self.now }
    {
        self.tags.as_slice().iter().any(|name| same_name(name, tag))
    }

    /// What the record tells of its key: a put where it stands, a del that there is no value.
    pub(crate) fn told(&self) -> Newest
        ensures { result ≡ told_by self.now.kind self.now.place }
    {
        match self.kind {
            Kind::Append => Newest::Absent,
            Kind::Put => Newest::Found {
                lid: self.place.lid,
            },
            Kind::Del => Newest::Deleted { place: self.place },
        }
    }
}

// Whether both have the same bytes.
fn same_name(a: &Name, b: &Name) -> bool
    ensures { result ≡ bytes_eq a.now b.now }
{
    a == b
}
