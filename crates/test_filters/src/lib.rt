//! Rows of the filters, of the announcement and of the batcher.
//!
//! Each file is a table of rows worked by hand and the tests that go through it. The crate has no code of its own and
//! proves nothing for others.
#![tactic(auto)]

#[cfg(test)]
mod announcing;
#[cfg(test)]
mod filters;
#[cfg(test)]
mod marks;
#[cfg(test)]
mod parcels;
