//! The words of a step line behind the first: what each of them gives, and the step that they say.

ghost use Rattle.std.specs.Prelude.{◌≡◌};
ghost use Rattle.script_text.specs.Reading.{Reads};
ghost use Rattle.script_text.specs.Arguments.{no_arguments, argument_at, arguments_at, step_said};

use crate::fault::Cause;
use crate::keyword::TurnWord;
use crate::words::Words;
use abstract_log::Step;
use cz_base::DcId;
use cz_base::limits::{MEMBERS, PACKETS};

/// What a word of a step line gives.
#[derive(Clone, Copy, Debug, PartialEq, Eq)]
pub enum Argument {
    /// A datacentre.
    Datacentre,
    /// A datacentre other than the one that the line gave before.
    Other,
    /// A session that there is.
    Session,
    /// The number of a member, below [`MEMBERS`].
    Member,
    /// The number of a second member, below [`MEMBERS`].
    Second,
    /// The number of a packet, from 1 to [`PACKETS`].
    Packet,
    /// A position, or a record's number at its host, 1 or more.
    Position,
}

/// What the words of a step line have given so far; 0 stands for what was not given.
#[derive(Clone, Copy, Debug, PartialEq, Eq)]
pub struct Arguments {
    /// The datacentre whose turn it is.
    pub dc: DcId,
    /// The datacentre at the other end of a link, or the host that a filter serves.
    pub other: DcId,
    /// The number of a session, from 0 on.
    pub session: u32,
    /// The number of a member of a stage, from 0 on.
    pub member: u32,
    /// The number of a member of another stage, from 0 on.
    pub second: u32,
    /// The place of a packet on a link, from 1 on.
    pub packet: u32,
    /// A position of the log, or a record's number at its host, from 1 on.
    pub position: u32,
}

// Nothing has been given.
const NO_ARGUMENTS: Arguments = Arguments {
    dc: DcId::FIRST,
    other: DcId::FIRST,
    session: 0,
    member: 0,
    second: 0,
    packet: 0,
    position: 0,
};

impl Arguments {
    // What is given with the next word.
    #[tactic(auto, unfolding(crate::specs::Arguments::argument_at))]
    fn with(
        self,
        kind: Argument,
        dcs: u32,
        sessions: usize,
        words: &mut Words<'_>,
    ) -> Result<Arguments, Cause>
        ensures { Reads (λ given. (given, words.new)) result (argument_at dcs sessions self kind words.old) }
    {
        let mut given = self;
        match kind {
            Argument::Datacentre => given.dc = words.datacentre(dcs)?,
            Argument::Other => given.other = words.other_datacentre(dcs, self.dc)?,
            Argument::Session => given.session = words.number_below(sessions)?,
            Argument::Member => given.member = words.number_below(MEMBERS)?,
            Argument::Second => given.second = words.number_below(MEMBERS)?,
            Argument::Packet => given.packet = words.number(1, PACKETS as u32)?,
            Argument::Position => given.position = words.number(1, u32::MAX)?,
        }
        Ok(given)
    }
}

/// What the words give as arguments of some kinds, from left to right, where there are so many
/// datacentres and sessions.
pub fn read_arguments(
    kinds: &[Argument],
    dcs: u32,
    sessions: usize,
    words: &mut Words<'_>,
) -> Result<Arguments, Cause>
    ensures { result ≡ arguments_at dcs sessions no_arguments kinds.now words.old }
{
    let mut given = NO_ARGUMENTS;
    for kind in kinds {
        given = given.with(*kind, dcs, sessions, words)?;
    }
    Ok(given)
}

/// The step that a word says with its arguments.
pub fn step_said(word: TurnWord, given: Arguments) -> Step
    ensures { result ≡ step_said word given }
{
    let Arguments {
        dc: d,
        other: e,
        session: s,
        member: m,
        second: n,
        packet: k,
        position,
    } = given;
    let p = u64::from(position);
    match word {
        TurnWord::Client => Step::Client { s },
        TurnWord::Flush => Step::Flush { d, b: m },
        TurnWord::Pass => Step::Pass { d, f: m, q: n },
        TurnWord::Stamp => Step::Stamp { d, q: m },
        TurnWord::Token => Step::Token { d },
        TurnWord::Place => Step::Place { d, q: m, m: n },
        TurnWord::Gossip => Step::Gossip { d, m, k: n },
        TurnWord::Post => Step::Post { d, m, i: n },
        TurnWord::Learn => Step::Learn { d },
        TurnWord::Send => Step::Send { d, k: m, e },
        TurnWord::Deliver => Step::Deliver { d, e, k, r: m },
        TurnWord::Lose => Step::Lose { d, e, k },
        TurnWord::Copy => Step::Copy { d, e, k },
        TurnWord::Floor => Step::Floor { d, p },
        TurnWord::Collect => Step::Collect { d, m },
        TurnWord::Announce => Step::Announce { d, h: e, t: p },
        TurnWord::Mark => Step::Mark { d },
        TurnWord::AddMaintainer => Step::AddMaintainer { d, p },
        TurnWord::AddBatcher => Step::AddBatcher { d },
        TurnWord::AddQueue => Step::AddQueue { d },
        TurnWord::AddSender => Step::AddSender { d },
        TurnWord::AddReceiver => Step::AddReceiver { d },
        TurnWord::Upgrade => Step::Upgrade { d },
    }
}
