//! A large script made from a number: three datacentres, twelve sessions with 100 commands each, and 20,000 steps.
//!
//! **Model.** What is drawn is a function of the state of its generator (`specs/Draws`): each definition gives what is
//! made and the state after its draws, so that two scripts of one seed are equal. `specs/Generated` has the table of
//! commands and the table of steps.
//!
//! **Theorem.** The contract of `generate`: the script is the one that the two tables give with the draws of the seed
//! (`script`), and it keeps the ranges of scripts, as one that was read does (`fits`, `steps`). So whatever is
//! proved of scripts holds of it.
//!
//! **Decided.** The draws are words of a PCG generator modulo the limit, from one stream for all seeds: the slight
//! preference for low numbers does not matter here, and a script is the same on every machine. Steps name members and
//! packets that are there in most cases; what is not there makes an idle turn, as in any script.
//!
//! **Tests.** The crate `test_program` runs generated scripts.
#![tactic(auto)]

mod commands;
mod datacentres;
mod draws;
mod script;
mod shape;
mod steps;
mod texts;

pub use script::generate;
