//! Tests of the whole program as one call, as tables of rows. It has no code of its own and proves nothing for others.
//!
//! `statuses` has what is written where a stream or the memory fails, `words` the words of the command line, `forms` the four
//! forms of a report byte by byte, `rows` scripts of sessions that share a log, `hostile` scripts that are refused, and `storing` logs by themselves.
#![tactic(auto)]

#[cfg(test)]
mod forms;
#[cfg(test)]
mod hostile;
#[cfg(test)]
mod rows;
#[cfg(test)]
mod statuses;
#[cfg(test)]
mod storing;
#[cfg(test)]
mod words;
