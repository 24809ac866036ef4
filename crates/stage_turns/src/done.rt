//! What a turn answers.

ghost use Rattle.std.specs.Prelude.{◌≡◌};
ghost use Rattle.stage_turns.specs.Changing.{has_some};

use abstract_log::{Event, Outcome};
use cz_base::Seq;

/// What a turn answers, the events of the log that it makes, and whether a stage of the datacentre is then another one. An
/// epoch list that a queue, a maintainer, a vector or an indexer takes over is no change.
#[derive(Debug, Drop)]
pub struct TurnDone {
    /// What the stage line says of the turn.
    pub outcome: Outcome,
    /// The events of the log that the turn made, in order.
    pub events: Seq<Event>,
    /// Whether a stage is another one than before.
    pub changed: bool,
}

// Whether something is in the list.
pub(crate) fn has_some<T>(items: &Seq<T>) -> bool
    ensures { result ≡ has_some items.now }
{
    !items.is_empty()
}
