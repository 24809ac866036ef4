//! What may be collected from one datacentre's log, and what its readers hold against it.
//!
//! Model: a [`Gc`] is seen as the collection floor and, for each session that there may be, the position that
//! it reads at, or none.
//!
//! To the layers above: each call gives the next such state exactly, no pin is ever below the floor, and a
//! record may go where it is at or below the floor, is known to be everywhere and, if it is a put, has a later
//! update of its key there, be it a put or a del.
//!
//! Decided: no call takes memory, so each of them succeeds. Own knowledge is not enough to collect: each
//! datacentre has to be known to have the record. A put stays until a later update of its key stands at or below
//! the floor, so that every read at a pin finds what the log has. A del needs none: the index of its key tells
//! its place, and no look-up of a key reads its record.
//!
//! Tests: none here; the turns of the floor are tested in `test_world`.
#![tactic(auto)]

mod gc;

pub use gc::Gc;
