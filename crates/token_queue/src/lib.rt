//! The token of a datacentre, and the queues that stamp records while they hold it.
//!
//! A queue collects items: drafts of local writes, and records from elsewhere. The one token goes from
//! queue to queue. The queue that has it drains one list, first the items that the token deferred and
//! then its own: the first item that is ready gets the next position, again until none is ready, and
//! what is left is deferred. Each stamped record waits in the outbox of the maintainer that owns its
//! position.
//!
//! Model: a [`Token`] is seen as a `TokenState` and a [`Queue`] as a `QueueState`, with the token while it
//! has it. The token keeps the counts of the log and not the log.
//!
//! To the layers above: whatever log has the token's counts, [`Queue::stamp`] is the drain of the list into
//! that log, and where the log is as long as the token says, the token it leaves stands for the longer log.
//! Of every drain (`laws`): its steps are ready one after another, nothing is lost or made, a log in causal
//! order stays so, no item that is left is ready, and counts are enough. Of every stamping: it goes by single
//! steps, dealing loses nothing, and each position waits once.
//!
//! Decided: a stamping takes all its memory first, so that what is refused has changed nothing. The list is
//! looked through from its front after each stamped item. [`Queue::token_mut`] lends the token to be changed
//! in place, so a queue says nothing of which number its token bears; [`Queue::hold`] sets it.
//!
//! Tests: the crate `test_queues`.
#![tactic(auto)]

mod entry;
pub mod laws;
mod queue;
mod room;
mod token;

pub use entry::{Entry, Stamp, StampFault};
pub use queue::Queue;
pub use token::{AdoptFault, Token};
