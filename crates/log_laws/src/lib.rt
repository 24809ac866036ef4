//! The laws of runs: what holds of every world that a run of the abstract log leaves. Each law is the contract of
//! a public function that does nothing; the premises are the definitions of the log alone, so whoever shows that
//! what a pipeline does is a run has all of them.
//!
//! Tests: none; the laws are proved, and `test_log` runs what they speak of.
#![tactic(auto)]

mod laws;

pub use laws::{
    answered_writes_have_records, commands_write_once, finished_logs_are_whole,
    front_of_run_is_run, fronts_are_closed, gone_is_held_by_all, gone_is_of_the_log,
    logs_are_causal, logs_only_grow, names_are_one_record, names_stand_once, names_wait_elsewhere,
    numbers_have_no_gap, pending_is_sound, records_are_answered_writes,
    records_are_of_answered_commands, records_are_valid, records_are_written, run_goes_on,
    runs_are_lawful, sessions_are_on_their_way, shapes_are_kept, tables_are_sound,
    tables_are_square, writes_bound_logs,
};
