//! The parts of a script, in their order.

ghost use Rattle.std.specs.Prelude.{◌≡◌};
ghost use Rattle.script_text.specs.Keywords.{is_ended};

/// What has been read of a script, told by what comes next.
#[derive(Clone, Copy, Debug, PartialEq, Eq)]
pub enum Section {
    /// Nothing has been read.
    Start,
    /// `datacentres`.
    Datacentres,
    /// `round`.
    Round,
    /// `stages` lines, or the first session.
    Stages,
    /// A session has begun.
    Sessions,
    /// `steps` has been read, and `end` has not.
    Steps,
    /// `end` has been read.
    Ended,
}

impl Section {
    /// Whether the whole script has been read.
    pub fn is_ended(self) -> bool
        ensures { result ≡ is_ended self }
    {
        self == Section::Ended
    }
}
