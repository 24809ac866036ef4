//! What is known to be held: of each datacentre, how many records of each host it is known to have.
//!
//! Model: an [`Aware`] is seen as the datacentre whose own it is and a table with a row for each datacentre.
//!
//! To the layers above: the whole table after each call, of which no entry ever falls, and when a record is
//! known to be everywhere, so that no datacentre will ask for it again.
//!
//! Decided: the table stands in the value itself and not on the heap, so that no call takes memory.
//!
//! Tests: the crate `test_links`.
#![tactic(auto)]

mod aware;

pub use aware::Aware;
