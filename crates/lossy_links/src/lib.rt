//! The way of messages between two datacentres, on which messages are lost, repeated and reordered, and
//! nothing else happens to them.
//!
//! Model: a [`Packet`] is seen as the list of its bytes, and a [`Link`] as the list of its packets, the oldest
//! first, of which there are never more than [`cz_base::limits::PACKETS`].
//!
//! To the layer above: each call gives the next such list exactly. A packet leaves as it came, only the calls
//! that lose do lose, and only a copy repeats (`laws`). A put leaves the list as it is exactly where the link is full of
//! packets equal to the one that is put ([`equal_packets_change_nothing`]).
//!
//! Decided: a link takes all its room when it is made, so that no put wants memory. Where a full link is given
//! one more packet, the oldest is lost and handed back, so that the caller can tell of it. The definitions hold
//! of lists of any values, since the layers above speak of messages and not of bytes.
//!
//! Tests: the crate `test_links`.
#![tactic(auto)]

mod laws;
mod link;
mod packet;

pub use laws::{equal_packets_change_nothing, no_more_are_held, packets_stay_as_they_were_put};
pub use link::{Copied, Link};
pub use packet::Packet;
