//! Rows of the queues and the token.
//!
//! `queues` has tables of rows worked by hand and the tests that go through them, and `given` makes what they need. The
//! crate has no code of its own and proves nothing for others.
#![tactic(auto)]

#[cfg(test)]
mod given;
#[cfg(test)]
mod queues;
