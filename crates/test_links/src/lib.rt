//! Rows of the crates that lead from one datacentre to another and that place records: links, senders and receivers with
//! their wire forms, owners, maintainers, vectors and heads.
//!
//! Each file is a table of rows worked by hand and the tests that go through it. Where a row is about a limit, it has the
//! number of the limit and not its name. The crate has no code of its own and proves nothing for others.
#![tactic(auto)]

#[cfg(test)]
mod link_rows;
#[cfg(test)]
mod maintainer_rows;
#[cfg(test)]
mod rounds_rows;
#[cfg(test)]
mod sender_rows;
