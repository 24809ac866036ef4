//! The abstract log as a program: it takes events one at a time, and refuses each that may not happen.
//! Whoever has a list of events can see here whether it is a run, and what it leaves.
//!
//! Model: `AbstractLog` is seen as the world of the definitions of `abstract_log`.
//!
//! Theorem: `AbstractLog::step` takes exactly the events that may happen, and leaves exactly the world that
//! the definitions name; a refusal tells the first condition that fails, and leaves the log as it was.
//! `answer` is exact too.
//!
//! Decided: it stands apart from the definitions, since what is proved above cites those alone. Each kind
//! of event is a function over the world, which tests the conditions in the order of their numbers and then
//! makes all that needs memory before it changes anything, so that nothing has to be undone.
//!
//! Tests: `test_log`.
#![tactic(auto)]

mod answering;
mod begin;
mod collecting;
mod comparing;
mod exchange;
mod fault;
mod lists;
mod log;
mod names;
mod parts;
mod reply;
mod taking;
mod writing;

pub use fault::StepFault;
pub use log::AbstractLog;
