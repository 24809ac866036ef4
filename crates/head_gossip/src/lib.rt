//! What a maintainer knows of the marks of all maintainers, and the head of the log by it.
//!
//! A [`Vector`] takes in its maintainer's own list and mark, tells others what it knows by a [`Note`], and
//! hears theirs: each time the longer list, and then the greater marks.
//!
//! Model: a vector is seen as a pair of an epoch list and marks, one for each maintainer that there may be.
//!
//! To the layers above: a vector that is true of the longest list and of the placed positions stays true,
//! and every position up to the head that it answers is placed.
//!
//! Decided: new marks go with the new list alone, so that no head passes a position that is not placed:
//! where there is no memory for the list, the marks stay too.
//!
//! Tests: the crate `test_links`.
#![tactic(auto)]

mod vector;

pub use vector::{Note, Vector};
