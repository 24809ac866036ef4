//! What a shelf is made of.

ghost use Rattle.hyksos.specs.Shelves.{IsShelf};
ghost use Rattle.stage_turns.specs.Shelves.{shelf_of};

use causal_deps::Record;
use cz_base::Seq;
use head_gossip::Vector;
use log_gc::Gc;
use maintainer::Maintainer;
use tag_indexer::Indexer;

/// What the stages of a datacentre show to a session that this vector serves.
#[derive(Drop)]
pub struct StageShelf<'a> {
    pub vector: &'a Vector,
    pub maintainers: &'a Seq<Maintainer<Record>>,
    pub indexers: &'a Seq<Indexer>,
    pub floor: Gc,
    ghost sized: { IsShelf (shelf_of vector.now maintainers.now indexers.now floor) },
}
