//! All stages of one datacentre, and the turns that they take.
//!
//! The model is the datacentre of the stage world: sessions, batchers, filters, queues with the token beside them,
//! maintainers, vectors, indexers, table, as plain data. The theorem for the layer above: each turn is its equation there,
//! with its outcome and its events. So what the stages hold goes on standing for a log.
//!
//! Tests: none here; datacentres are run by the tests of `test_world` and `test_program`.
#![tactic(auto)]

mod datacentre;
mod joining;
mod leaving;
mod marking;
mod opening;
mod parts;
mod taking;
mod upgrading;

pub use datacentre::Datacentre;
pub use hyksos::Session;
pub use stage_turns as turns;
pub use stage_turns::TurnDone;
