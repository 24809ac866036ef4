//! A log by itself: maintainers that give positions after the fact, bounds that wait, and gossip of what is filled.
//!
//! **Model.** A script is its steps; the service is the list of its members, each an appender and a vector, with the
//! epoch list, how many values came, and the greatest position given. `specs/Running` has one equation for each kind of
//! step, and `run_of` is the run of a script. `specs/Meaning` says which script lines spell.
//!
//! **Theorem.** The contracts of `flstore`, which gives exactly that run, of `read_flstore`, whose answer is exactly the
//! script of the lines or the first bad line with its first cause, and of `fl_text`, whose bytes are those of the run.
//! `laws` says what holds of every run: each value that was not refused stands or waits once, what stands is above its
//! bound, and each position up to a head that is told is filled.
//!
//! **Decided.** A value keeps its number and its bound, so that what waits and what stands can be listed from the
//! members. Values are copied where a run shows them. What stands is put in order by position at the end, and what waits
//! by number.
//!
//! **Tests.** `test_flstore` has rows of scripts with their runs and texts, and of lines that are refused.
#![tactic(auto)]

mod keyword;
pub mod laws;
mod listing;
mod progress;
mod reading;
mod run;
mod script;
mod service;
mod text;

pub use reading::read_flstore;
pub use run::{FlKept, FlLine, FlOutcome, FlPlace, FlRun, flstore};
pub use script::{FlScript, FlStep};
pub use text::fl_text;
