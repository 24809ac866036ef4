//! The whole program as one call: it reads a script, or makes one from a number, runs it and writes the report.
//!
//! **Model.** It is in the crates below: a script as its lines spell it, a run of the abstract log, a report as its lines.
//! `specs/Ending` says how a call ends, by the task of its words, and `specs/Telling` what is told of a script.
//!
//! **Theorem.** The contract of `chariots`, for every list of words, source and sink: the report that is written is that of one
//! run, by the turns of the script and then of settling; that run is one of the abstract log on the script's workload, every
//! command is answered and every log has every record; what is written of a log by itself is the text of the one run of its
//! script; and each status comes by its own cause alone.
//!
//! **Decided.** Scripts of sessions and scripts of a log by itself are read and refused in one way, so what is said of it
//! stands once, over what lines mean. No run of the abstract log is told of a log by itself: its answers are its text.
//!
//! **Tests.** The crate `test_program` has the words, statuses, forms and scripts whose answers are known.
#![tactic(auto)]

mod done;
mod reading;
mod replaying;
mod storing;
mod top;

pub use done::{Done, Refusal, refuse};
pub use reading::SCRIPT_LIMIT;
pub use storing::flstore_run;
pub use top::{chariots, plain_run, replay_run};
