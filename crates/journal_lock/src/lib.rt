//! The journal lock: one journal of events for all threads, which is a run at every moment.
//!
//! Threads share a `JournalLock` and each has a `Pass`, which stands for what it knows: a beginning of the journal,
//! and duties. A duty is with one pass at most, and all events that need it stand in the beginning that this pass
//! has seen. Who takes the turn is a `Holder`, has the whole journal in hand, and adds events for which it has the
//! duties, each a step from the world that the journal leaves.
//!
//! Model: a table of the turn, the number of events, a mark for each maintainer and the epochs of each datacentre, and
//! a slot for the journal. `specs/Law.antt`, `specs/Finds.antt` and `specs/Marks.antt` have the rule over these and over
//! what all passes know. Sums over the passes say that each duty is with one.
//!
//! For the layers above: the journal is a run on the workload, what a pass has seen is a beginning of it, and what
//! a pass sees later has no event of its duties that it had not seen (`Within`). `close` asks for every duty, and
//! gives just what that pass has seen. A position that an event stamps is named by one pass at most, at hand or
//! placed. A call that only looks leaves a note of what it found, and finds no less than its pass knew. A mark passes no
//! position of its maintainer that is not placed, and each epoch starts above all that is stamped before it. Whoever has
//! a session's duty and whoever has that of its datacentre's table know the same pin (`specs/Pins.antt`). A token is with
//! a queue, and a draft with its session or a stage (`specs/Ties.antt`).
//!
//! Decided: a pass is joined in two steps, the join itself and a look at the count, since a join tells nothing of
//! the rule. The workload stands in each pass too, since a step cannot read what the table was told. Duties move by
//! numbers, which are different for different duties where datacentres are below 8 and members below 16.
//!
//! `both` has a contract of two threads. Tests: the crate `test_journal`.
#![tactic(auto)]

mod both;
mod duty;
mod heads;
mod journal;
mod law;
pub mod laws;
mod lock;
mod parts;
mod room;
mod row;
mod splits;
mod start;
mod words;

pub use both::{begin_both, begin_session};
pub use duty::{Duty, Position};
pub use law::{Change, Hold, Known, Names, Note, Part, Pins, Plan, SessionPin, Stage, View};
pub use lock::{Holder, JournalLock, Pass, Tried};
pub use parts::{
    note_length, place_hand, set_pin, split_bare, split_duty, split_session, split_whole,
};
pub use room::Room;
pub use splits::{split_draft, split_duties, split_table, split_token, split_with_names};
