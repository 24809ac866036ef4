//! Rows of a log by itself, worked by hand. It has no code of its own and proves nothing for others.
//!
//! `run_rows` has scripts with the texts of their runs, `refused_rows` lines that are refused, each with its cause, and
//! `line_rows` lines that are split into words.
#![tactic(auto)]

#[cfg(test)]
mod line_rows;
#[cfg(test)]
mod refused_rows;
#[cfg(test)]
mod run_rows;
