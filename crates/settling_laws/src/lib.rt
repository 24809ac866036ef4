//! Settling ends, and leaves every command answered and every log whole: laws over the plain data of `stage_world`.
//!
//! There is no code here: the crate has definitions and laws. The turns of settling are a function of the stages
//! (`Settling` in `stage_world`); here stands what they do. A local round of a datacentre brings all that may go there into the
//! log, places it, and tells every maintainer, indexer and the table of it. So each further round answers a command or finds
//! a key at every session that waits, and the rounds of answering end.
//!
//! The theorem for the layer above: `settling_ends`, and `settled_worlds_are_finished`. So code that takes these turns comes to an
//! end and leaves a finished world, whatever a script did before. Its first turns bring each announcement to its end, since no record
//! that a filter holds below a mark could be waited for. That code is in `world`, with its tests.
#![tactic(auto)]

mod laws;

pub use laws::{
    answering_ends, marks_end_announcements, rounds_settle_a_datacentre, scripts_come_to_an_end,
    settled_worlds_are_finished, settling_ends, telling_ends,
};
