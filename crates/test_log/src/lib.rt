//! Tests of the abstract log and of the base below it, as tables of rows. It has no code of its own and
//! proves nothing for others.
//!
//! `events` makes events from small numbers, `event_rows` has one list of them that is a run with each kind
//! of event, and of answer but that of a deleted key, `refusal_rows` has for each condition that a run can
//! break an event that breaks it, and `name_rows` has names that are read or refused.
#![tactic(auto)]

#[cfg(test)]
mod event_rows;
#[cfg(test)]
mod events;
#[cfg(test)]
mod name_rows;
#[cfg(test)]
mod refusal_rows;
