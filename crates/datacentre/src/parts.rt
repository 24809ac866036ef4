//! The stages of a datacentre, as the code holds them.

use awareness_table::Aware;
use batcher::Batcher;
use causal_deps::{Place, Record};
use cz_base::{DcId, Lid, Seq};
use head_gossip::Vector;
use hyksos::Session;
use log_gc::Gc;
use maintainer::Maintainer;
use sender_receiver::Sender;
use stage_marks::Marks;
use tag_indexer::Indexer;
use toid_filter::{Champions, Filter};
use token_queue::Queue;

/// The stages of one datacentre, each kind by number, with its sessions and its table. One of the queues has the token.
#[derive(Drop)]
pub(crate) struct Parts {
    pub dc: DcId,
    /// How many maintainers it began with.
    pub first_maintainers: u32,
    pub sessions: Seq<Session>,
    pub batchers: Seq<Batcher>,
    pub filters: Seq<Filter>,
    pub map: Champions,
    /// The announcement that the filters are asked to accept.
    pub marks: Marks,
    pub queues: Seq<Queue>,
    pub maintainers: Seq<Maintainer<Record>>,
    pub vectors: Seq<Vector>,
    pub indexers: Seq<Indexer>,
    pub senders: Seq<Sender>,
    pub receivers: u32,
    /// Whether its senders write wire form 2.
    pub upgraded: bool,
    pub table: Aware,
    /// The position up to which the own row counts.
    pub learnt: Lid,
    /// The collection floor, and what each session reads at.
    pub floor: Gc,
    /// Where the records stood that were collected.
    pub collected: Seq<Place>,
}
