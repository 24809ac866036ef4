//! The reports of a run as text: the whole report, the logs alone, the summary, and JSON.
//!
//! **Model.** What a report says is defined as its lines, each of them as its words (`specs/Report`, `specs/Turns`,
//! `specs/Summary`), or as a JSON value (`specs/Json`), all of them functions of the run and of what it leaves. A text in
//! the making is the list of its bytes.
//!
//! **Theorem.** The contracts of `full`, `logs`, `summary` and `json`: the bytes are those of the lines that the definition
//! gives for this run, and no others. `replies_stand_in_order` adds in the subject's words that the replies of a session
//! stand by the numbers of its commands, one line for each that is answered.
//!
//! **Decided.** Reports take what a run leaves from their caller, with the proof that the run leaves it, so that a large
//! run is not held twice. The summary counts what is gone by the events, which is the same. JSON has its members by the
//! order of their names and no space, so that a report has one text.
//!
//! **Tests.** None here; `test_world` and `test_program` compare whole reports.
#![tactic(auto)]

mod events;
mod json_form;
mod laws;
mod report;
mod summary_form;
mod text;
mod turns;
mod values;

pub use json_form::json;
pub use laws::replies_stand_in_order;
pub use report::{full, logs};
pub use summary_form::summary;
pub use text::Text;
