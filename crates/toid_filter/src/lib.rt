//! Filters let each record from another datacentre pass once, and those of one host in order.
//!
//! Every number of a host has one champion among the filters, by a map that deals the numbers round
//! and round. A filter passes its own numbers of a host in order, so those that it passed are all
//! its own numbers up to one bound: the greatest that it passed.
//!
//! Model: [`Champions`] is seen as the shares of each host, and a [`Filter`] as a `FilterState`: the map,
//! for each host that bound, what is held, what is to be passed on, and an accepted mark. What a call of
//! `take` does is the relation `IsTaken`.
//!
//! To the layers above: each number passes at most once, in rising order, and nothing is lost; of all
//! filters together at most one passes a number, also while one filter more is announced, accepted and
//! activated for a host (`laws`).
//!
//! Decided: the bound of a host stands in the model in place of a list of numbers, so that a million
//! numbers passed take no more memory than none. It also serves when the map grows: that happens at a
//! mark above all that was passed, and below the mark the map deals as before. What a filter holds
//! stands in an ordered map, by host and then by number: a take looks once for the record there, and
//! once for each held record that it lets go on. After want of memory a filter is as before, and the
//! record comes back.
//!
//! Tests: the crate `test_filters`.
#![tactic(auto)]

mod champions;
mod filter;
mod held;
mod laws;
mod leaving;

pub use champions::{Champions, Share};
pub use filter::{Accept, AcceptedMark, Filter, Verdict};
pub use laws::{
    accepting_keeps_filters_sound, activating_keeps_filters_sound, activating_loses_nothing,
    announcing_keeps_filters_sound, cancelling_keeps_filters_sound, cancelling_loses_nothing,
    champions_keep_filters_sound, champions_lose_nothing, champions_pass_each_number_once,
    growing_filters_pass_each_number_once, held_records_wait, new_filters_are_sound,
    nothing_is_lost, numbers_pass_once_and_in_order, one_filter_passes_a_number,
    steady_filters_are_sound, takes_are_determined, takes_keep_filters_sound,
    taking_a_draft_loses_nothing, taking_loses_nothing,
};
