//! Tests of `script_text` and `record_codec`, as tables of rows worked by hand. It has no code of its own and
//! proves nothing for others.
//!
//! `refused_rows` has lines that are refused, each with its cause, behind those of `fronts`; `script_rows` has scripts
//! that are read, and `codec_rows` the bytes of records and messages.
#![tactic(auto)]

#[cfg(test)]
mod codec_rows;
#[cfg(test)]
mod fronts;
#[cfg(test)]
mod refused_rows;
#[cfg(test)]
mod script_rows;
