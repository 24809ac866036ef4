//! All datacentres with the links between them, and the turns that they take.
//!
//! The model is the stage world: the datacentres as plain data, and each link as the list of its messages. The theorem for
//! the layer above: whatever turns are taken, the events that are written are those of the stage world's turns, with one
//! line for each of them, so they are a run of the log on the script's workload, and the stages stand for the world that it
//! leaves. `replay` takes the script's steps and then the turns of settling, and that run is finished: every command is
//! answered, and every log has every record.
//!
//! Tests: the crates `test_world` and `test_program`.
#![tactic(auto)]

mod exchanges;
mod laws;
mod leaving;
mod linking;
mod network;
mod one_datacentre;
mod opening;
mod packets;
mod replaying;
mod rounds;
mod settling;
mod settling_state;
mod stages;
mod step_owners;
mod stepping;

pub use laws::turns_are_runs;
pub use replaying::replay;
pub use stages::{Played, Stages};
