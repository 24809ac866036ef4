//! Scripts of a log by itself.

ghost use Rattle.std.specs.Prelude.{◌≡◌, IfOk};

use cz_base::{Body, Lid, NoMemory, Seq};

/// How positions are dealt at the start, and what is done.
#[derive(Debug, Drop)]
pub struct FlScript {
    /// How many positions in a row one maintainer owns, 1 to [`cz_base::limits::ROUND`].
    pub round: u32,
    /// How many maintainers there are at the start, 1 to [`cz_base::limits::MEMBERS`].
    pub maintainers: u32,
    /// At most [`cz_base::limits::STEPS`].
    pub steps: Seq<FlStep>,
}

/// One step: what a maintainer, or all of them, are asked for. Maintainers are told by their numbers, from 0 on.
#[derive(Debug, Drop)]
pub enum FlStep {
    /// A value gets the next own position of maintainer m.
    Put { m: u32, body: Body },
    /// The same above position p, or the value waits at maintainer m.
    After { m: u32, p: Lid, body: Body },
    /// Vector m takes what its maintainer has, and vector k hears vector m.
    Gossip { m: u32, k: u32 },
    /// Vector m takes what its maintainer has, and tells the head of the log.
    Head { m: u32 },
    /// What stands at position p, where it is not above the head by vector m.
    Read { m: u32, p: Lid },
    /// From position p on there is one more maintainer.
    AddMaintainer { p: Lid },
}

impl FlStep {
    /// The same step.
    pub fn copy(&self) -> Result<Self, NoMemory>
        ensures { IfOk result (λ copy. copy ≡ self.now) }
    {
        match self {
            FlStep::Put { m, body } => Ok(FlStep::Put {
                m: *m,
                body: body.copy()?,
            }),
            FlStep::After { m, p, body } => Ok(FlStep::After {
                m: *m,
                p: *p,
                body: body.copy()?,
            }),
            FlStep::Gossip { m, k } => Ok(FlStep::Gossip { m: *m, k: *k }),
            FlStep::Head { m } => Ok(FlStep::Head { m: *m }),
            FlStep::Read { m, p } => Ok(FlStep::Read { m: *m, p: *p }),
            FlStep::AddMaintainer { p } => Ok(FlStep::AddMaintainer { p: *p }),
        }
    }
}
