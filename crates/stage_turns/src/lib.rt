//! The turns of the stages of one datacentre, each lent just the stages that its line names.
//!
//! The model is plain data: lists of items, records, entries and counts, in the words of the stage world. The theorem for the
//! layer above: what each function leaves of the stages that it is lent, what it answers and its events are the turn's
//! equation there. Where stages stand for a log, each may be called.
//!
//! Tests: none here; the turns are run by the tests of `test_world` and `test_program`.
#![tactic(auto)]

mod client;
mod collecting;
mod done;
mod flushing;
mod joining;
mod learning;
mod marking;
mod placing;
mod posting;
mod receiving;
mod ring;
mod sender_stock;
mod sending;
mod shelving;
mod stage_shelf;
mod stamping;
mod stocking;
mod telling;

pub use client::{client_read, client_write};
pub use collecting::{collect, floor};
pub use done::TurnDone;
pub use flushing::{flush, pass};
pub use joining::{add_maintainer, add_queue};
pub use learning::learn;
pub use marking::{announce, mark};
pub use placing::place;
pub use posting::post;
pub use receiving::deliver;
pub use ring::{holder, token};
pub use sending::{SendDone, has_more, send};
pub use stamping::{place_of, stamp};
pub use telling::gossip;
