//! The sessions of a key-value store over the log: puts, dels, gets, get-transactions, reads and look-ups by tag, one
//! command after another.
//!
//! Model: a [`Session`] is seen as its commands, its standing, its pin and what it has found there, and a
//! [`Shelf`], through which it reads, as a log, how far it can be read, and what is pinned there against
//! collection.
//!
//! To the layers above: the rule of a session's turn over any such shelf (`turn_of`). A get-transaction takes one
//! turn for each key, all at one pinned position, and each reply is what the log answers at the position that it
//! names, which is not below what the session has seen.
//!
//! Decided: the shelf is a trait, so that a session reads the maintainers and indexers of its datacentre where they
//! are. A look-up pins the head once and keeps that pin until it is answered; where its first turn is refused the
//! pin is given back, so that a refused call changes nothing. [`Session::ack`] asks only that one command more
//! can be counted, which is so wherever a write is open.
//!
//! Tests: none here; the turns of sessions are tested in `test_world`.
#![tactic(auto)]

mod commands;
mod looking;
mod next;
mod session;
mod shelf;
mod trying;

pub use next::{Next, SessionTurnDone};
pub use session::Session;
pub use shelf::Shelf;
