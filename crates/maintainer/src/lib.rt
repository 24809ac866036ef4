//! A maintainer of one datacentre's log: it keeps the values that stand at the positions that it
//! owns, wherever these come in, and tells its mark: up to where it has no gap.
//!
//! Model: a [`Maintainer`] is seen as its number, its epoch list, its values as a list of entries by rising
//! position, the positions of which the value was let go, and its spare places.
//!
//! To the layers above: each call gives the next such state exactly, and the mark is one more than the
//! greatest own position up to which every own position is filled, or 1. A value stands where it was placed
//! until it is collected, and its position stays filled. A maintainer's mark is true of the whole epoch list
//! and of the placed positions, so that no head by it passes a gap (`laws`).
//!
//! Decided: room for values is taken before they come (`reserve`), so that `place` and `collect` want no
//! memory. What was let go is kept as positions, which tells an empty position from one that is gone. The
//! mark is kept and moved on at each placing, and not found anew. `after` tells a position and `next_after`
//! the entry there, since a sender reads on from an entry without searching again.
//!
//! Tests: the crate `test_links`.
#![tactic(auto)]

pub mod laws;
mod maintainer;
mod positions;
mod slot;

pub use maintainer::Maintainer;
pub use slot::Slot;
