//! The one announcement of a datacentre: that from a mark on one filter more serves a host.
//!
//! An announcement asks the filters one after another to accept its mark. Where one has passed a number at or above the
//! mark, the announcement is off; once all have accepted it, they take the map that grew at the mark.
//!
//! Model: [`Marks`] is seen as an announcement or none: its host, its mark, and the filter that is asked next.
//!
//! To the layers above: activation comes only after every filter has accepted (`laws`).
//!
//! Decided: how many filters there are is told with each call, since it can change no more than the filters themselves do.
//!
//! Tests: the crate `test_filters`.
#![tactic(auto)]

pub mod laws;
mod marks;

pub use marks::{Announce, Announced, Marks, NextMark};
