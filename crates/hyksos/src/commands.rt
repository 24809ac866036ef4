//! The open or next command of a session.
ghost use Rattle.std.specs.Prelude.{◌≡◌, ◌^◌, ◌<◌, ◌+◌, true, length, IfOk, IfSome, IsSome, OnErr, OnOk};
ghost use Rattle.std.specs.Option.{option_and_then, option_copied};
ghost use Rattle.abstract_log.specs.Commands.{draft_of};
ghost use Rattle.abstract_log.specs.Fits.{FitsCommand};
ghost use Rattle.hyksos.specs.Sessions.{begun, draft_submitted, next_command, next_index, writes};

use crate::Session;
use abstract_log::Command;
use causal_deps::Draft;
use cz_base::NoMemory;

impl Session {
    /// The command that is open, or the next one.
    pub(crate) fn next(&self) -> Option<&Command>
        ensures value { option_copied result ≡ next_command self.now }
        ensures fits { IfSome result (λ command. FitsCommand command.now) }
    {
        self.commands.get(self.standing.answered as usize)
    }

    /// The number of its open or next command, from 1.
    pub fn index(&self) -> u32
        requires { IsSome (next_command self.now) }
        ensures { result ≡ next_index self.now }
    {
        self.standing.answered + 1
    }

    /// The draft of its next command, a write, which is open from then on; none where it is open already. After
    /// `NoMemory` the session is as before.
    pub fn submit(&mut self) -> Result<Option<Draft>, NoMemory>
        requires { writes self.old ≡ true }
        ensures draft { IfOk result (λ draft. draft ≡ draft_submitted self.old) }
        ensures session { OnOk result (self.new ≡ begun self.old) }
        ensures refused { OnErr result (self.new ≡ self.old) }
    {
        if self.standing.begun {
            return Ok(None);
        }
        let draft = self.draft()?;
        self.standing.begun = true;
        Ok(draft)
    }

    /// The draft of that command, if it is a write.
    pub(crate) fn draft(&self) -> Result<Option<Draft>, NoMemory>
        ensures { IfOk result (λ draft. draft ≡ option_and_then (draft_of self.now.number (next_index self.now) self.now.standing.past) (next_command self.now)) }
    {
        match self.next() {
            Some(command) => command.draft(
                self.commands.alloc(),
                self.number,
                self.index(),
                &self.standing.past,
            ),
            None => Ok(None),
        }
    }
}
