//! Which member owns a position of the log, and how far the log has no gap.
//!
//! Members own the positions in turn, a round at a time. From the start of a later epoch on more
//! members do. [`Epochs`] says who owns a position, and which is the next one of a member. [`head_of`]
//! finds the head of the log from a mark of each member: the position up to which each is below the
//! mark of its owner.
//!
//! Model: `Epochs` is seen as the length of a round and the list of epochs by rising starts. Marks and
//! such a list are a pair (`Pair`), of which the head is a function.
//!
//! To the layers above: a pair that is true of the longest list and of the placed positions stays true
//! where positions are placed, where an epoch is added above them, where a member raises its own mark,
//! and where two true pairs are joined. Each position up to the head of a true pair is placed, and none
//! of these steps lowers a head (`laws`).
//!
//! Decided: owners are found by division and not by a walk over the rounds; the head is found by a step
//! for each member and epoch and not for each position. A pair has a mark for each member that there may
//! ever be, so that a longer list needs no more marks.
//!
//! Tests: the crate `test_links`.
#![tactic(auto)]

mod epochs;
mod head;
pub mod laws;
mod turns;

pub use epochs::{Epoch, EpochFault, Epochs};
pub use head::head_of;
