//! Positions after the fact: a value gets its position where it is appended, with no sequencer.
//!
//! An [`Appender`] is a maintainer that fills its own positions in order, and a list of values that wait. A value
//! that is appended gets the next own position. One that is appended after a bound has to stand above that
//! position: where the next own position is not above it yet, the value waits. As long as a value that waits has a
//! bound below the next own position, the first such one in order of arrival gets that position.
//!
//! Model: an appender is seen as its maintainer's state, spare places apart, and the list of what waits, in order of
//! arrival. `specs/Appending` says on these lists which values go in, in which order, and where.
//!
//! To the layers above: after each call the state is that of the definition, and after want of memory it is as
//! before. Each value stands or waits once, what stands is above its bound, and of those that may go in the first to
//! come does (`laws`).
//!
//! Decided: what waits is found by arrival and by bound, and what may go in next is a heap by arrival, so that an
//! append takes steps that grow with what it releases, times the logarithm of what waits. Memory for all that an
//! append may release is taken before anything is placed, since a position that was given stays.
//!
//! Tests: the crate `test_flstore`.
#![tactic(auto)]

mod appender;
pub mod laws;
mod wait_list;

pub use appender::{After, Appender, Here};
pub use wait_list::{WaitList, Waiting};
