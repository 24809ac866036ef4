//! Tests of the journal lock with threads: many pushes at once.
//!
//! `learning` has the work of a thread, many events of the table of one datacentre, with contracts of what a pass has then
//! seen. `threads` runs four of them, and `looks` looks at the marks and epochs of a new lock.
#![tactic(auto)]

mod learning;
#[cfg(test)]
mod looks;
#[cfg(test)]
mod threads;

pub use learning::{Work, learn_four, learn_often, learn_one, learn_two};
