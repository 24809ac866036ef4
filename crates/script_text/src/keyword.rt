//! The words that begin lines: where each line may stand, how many words it has, and what they give.

ghost use Rattle.std.specs.Prelude.{◌≡◌, length, bytes_eq};
ghost use Rattle.std.specs.List.{find};
ghost use Rattle.script_text.specs.Keywords.{text_of, command_text, turn_text, keyword_of, stands, turn_arguments, least_words, most_words, least_command_words, most_command_words};

use crate::arguments::Argument;
use crate::section::Section;
use cz_base::limits::{KEYS, TAGS};

/// The word that begins a line, and tells what kind of line it is.
#[derive(Clone, Copy, Debug, PartialEq, Eq)]
pub enum Keyword {
    /// The first line: the version of the form.
    Chariots,
    /// How many datacentres there are.
    Datacentres,
    /// How many positions in a row one maintainer owns.
    Round,
    /// The numbers of members of the stages of one datacentre.
    Stages,
    /// A session begins, at its datacentre.
    Session,
    /// The next command of the session.
    Command(CommandWord),
    /// The steps begin.
    Steps,
    /// The next step.
    Turn(TurnWord),
    /// The script ends.
    End,
}

/// The word that begins a command of a session.
#[derive(Clone, Copy, Debug, PartialEq, Eq)]
pub enum CommandWord {
    /// A record with a body and tags is appended.
    Append,
    /// A key gets a value.
    Put,
    /// A key is deleted.
    Del,
    /// The value of a key is read.
    Get,
    /// The values of several keys are read at one point of the log.
    Tx,
    /// The record at a position is read.
    Read,
    /// The last records with a tag are read.
    Last,
}

/// The word that begins a step line.
#[derive(Clone, Copy, Debug, PartialEq, Eq)]
pub enum TurnWord {
    /// A session begins or ends its next command.
    Client,
    /// A batcher hands its batches to the filters.
    Flush,
    /// A filter passes records on to a queue.
    Pass,
    /// A queue gives its records their positions.
    Stamp,
    /// The token goes to the next queue.
    Token,
    /// A queue hands records to the maintainer of their positions.
    Place,
    /// A maintainer tells another how far it is.
    Gossip,
    /// A maintainer tells an indexer of tags.
    Post,
    /// What a datacentre knows of itself enters its table.
    Learn,
    /// A sender puts a message on a link.
    Send,
    /// A receiver takes a packet from a link.
    Deliver,
    /// A packet is lost.
    Lose,
    /// A packet is doubled.
    Copy,
    /// The floor of a datacentre rises to a position.
    Floor,
    /// A maintainer drops records below the floor that all know.
    Collect,
    /// One filter more is announced for a host, from a number on.
    Announce,
    /// The announcement goes one step on.
    Mark,
    /// A maintainer is added, from a position on.
    AddMaintainer,
    /// A batcher is added.
    AddBatcher,
    /// A queue is added.
    AddQueue,
    /// A sender is added.
    AddSender,
    /// A receiver is added.
    AddReceiver,
    /// The senders of a datacentre go over to wire form 2.
    Upgrade,
}

// The words that begin lines.
const KEYWORDS: [Keyword; 37] = [
    Keyword::Chariots,
    Keyword::Datacentres,
    Keyword::Round,
    Keyword::Stages,
    Keyword::Session,
    Keyword::Command(CommandWord::Append),
    Keyword::Command(CommandWord::Put),
    Keyword::Command(CommandWord::Del),
    Keyword::Command(CommandWord::Get),
    Keyword::Command(CommandWord::Tx),
    Keyword::Command(CommandWord::Read),
    Keyword::Command(CommandWord::Last),
    Keyword::Steps,
    Keyword::Turn(TurnWord::Client),
    Keyword::Turn(TurnWord::Flush),
    Keyword::Turn(TurnWord::Pass),
    Keyword::Turn(TurnWord::Stamp),
    Keyword::Turn(TurnWord::Token),
    Keyword::Turn(TurnWord::Place),
    Keyword::Turn(TurnWord::Gossip),
    Keyword::Turn(TurnWord::Post),
    Keyword::Turn(TurnWord::Learn),
    Keyword::Turn(TurnWord::Send),
    Keyword::Turn(TurnWord::Deliver),
    Keyword::Turn(TurnWord::Lose),
    Keyword::Turn(TurnWord::Copy),
    Keyword::Turn(TurnWord::Floor),
    Keyword::Turn(TurnWord::Collect),
    Keyword::Turn(TurnWord::Announce),
    Keyword::Turn(TurnWord::Mark),
    Keyword::Turn(TurnWord::AddMaintainer),
    Keyword::Turn(TurnWord::AddBatcher),
    Keyword::Turn(TurnWord::AddQueue),
    Keyword::Turn(TurnWord::AddSender),
    Keyword::Turn(TurnWord::AddReceiver),
    Keyword::Turn(TurnWord::Upgrade),
    Keyword::End,
];

impl Keyword {
    /// The keyword that a word spells.
    #[tactic(auto, unfolding(crate::specs::Keywords::keyword_of))]
    pub fn find(word: &[u8]) -> Option<Keyword>
        ensures { result ≡ keyword_of word.now }
    {
        find_in(&KEYWORDS, word)
    }

    // The word that begins such a line.
    #[tactic(auto, unfolding(crate::specs::Keywords::text_of))]
    fn text(self) -> &'static [u8]
        ensures { result.now ≡ text_of self }
    {
        match self {
            Keyword::Chariots => b"chariots",
            Keyword::Datacentres => b"datacentres",
            Keyword::Round => b"round",
            Keyword::Stages => b"stages",
            Keyword::Session => b"session",
            Keyword::Command(word) => word.text(),
            Keyword::Steps => b"steps",
            Keyword::Turn(word) => word.text(),
            Keyword::End => b"end",
        }
    }

    /// Whether a line of this kind may stand in a section.
    pub fn stands(self, section: Section) -> bool
        ensures { result ≡ stands self section }
    {
        match self {
            Keyword::Chariots => section == Section::Start,
            Keyword::Datacentres => section == Section::Datacentres,
            Keyword::Round => section == Section::Round,
            Keyword::Stages => section == Section::Stages,
            Keyword::Session => section == Section::Stages || section == Section::Sessions,
            Keyword::Command(_) => section == Section::Sessions,
            Keyword::Steps => section == Section::Stages || section == Section::Sessions,
            Keyword::Turn(_) => section == Section::Steps,
            Keyword::End => section == Section::Steps,
        }
    }

    /// How many words may follow the first, at least and at most.
    pub fn words(self) -> (usize, usize)
        ensures least { result.0 ≡ least_words self }
        ensures most { result.1 ≡ most_words self }
    {
        match self {
            Keyword::Chariots => (1, 1),
            Keyword::Datacentres => (1, 1),
            Keyword::Round => (1, 1),
            Keyword::Stages => (8, 8),
            Keyword::Session => (1, 1),
            Keyword::Command(word) => word.words(),
            Keyword::Steps => (0, 0),
            Keyword::Turn(word) => {
                let count = word.arguments().len();
                (count, count)
            }
            Keyword::End => (0, 0),
        }
    }
}

// The first of some keywords that a word spells.
fn find_in(keywords: &[Keyword], word: &[u8]) -> Option<Keyword>
    ensures { result ≡ find (λ keyword. bytes_eq (text_of keyword) word.now) keywords.now }
{
    for keyword in keywords {
        if keyword.text() == word {
            return Some(*keyword);
        }
    }
    None
}

impl CommandWord {
    // The word itself.
    fn text(self) -> &'static [u8]
        ensures { result.now ≡ command_text self }
    {
        match self {
            CommandWord::Append => b"append",
            CommandWord::Put => b"put",
            CommandWord::Del => b"del",
            CommandWord::Get => b"get",
            CommandWord::Tx => b"tx",
            CommandWord::Read => b"read",
            CommandWord::Last => b"last",
        }
    }

    // How many words may follow the first, at least and at most.
    fn words(self) -> (usize, usize)
        ensures least { result.0 ≡ least_command_words self }
        ensures most { result.1 ≡ most_command_words self }
    {
        match self {
            CommandWord::Append => (1, TAGS + 1),
            CommandWord::Put => (2, 2),
            CommandWord::Del => (1, 1),
            CommandWord::Get => (1, 1),
            CommandWord::Tx => (1, KEYS),
            CommandWord::Read => (1, 1),
            CommandWord::Last => (2, 2),
        }
    }
}

impl TurnWord {
    // The word itself.
    fn text(self) -> &'static [u8]
        ensures { result.now ≡ turn_text self }
    {
        match self {
            TurnWord::Client => b"client",
            TurnWord::Flush => b"flush",
            TurnWord::Pass => b"pass",
            TurnWord::Stamp => b"stamp",
            TurnWord::Token => b"token",
            TurnWord::Place => b"place",
            TurnWord::Gossip => b"gossip",
            TurnWord::Post => b"post",
            TurnWord::Learn => b"learn",
            TurnWord::Send => b"send",
            TurnWord::Deliver => b"deliver",
            TurnWord::Lose => b"lose",
            TurnWord::Copy => b"copy",
            TurnWord::Floor => b"floor",
            TurnWord::Collect => b"collect",
            TurnWord::Announce => b"announce",
            TurnWord::Mark => b"mark",
            TurnWord::AddMaintainer => b"addmaintainer",
            TurnWord::AddBatcher => b"addbatcher",
            TurnWord::AddQueue => b"addqueue",
            TurnWord::AddSender => b"addsender",
            TurnWord::AddReceiver => b"addreceiver",
            TurnWord::Upgrade => b"upgrade",
        }
    }

    /// What the words after the first give.
    pub fn arguments(self) -> &'static [Argument]
        ensures { result.now ≡ turn_arguments self }
    {
        match self {
            TurnWord::Client => &[Argument::Session],
            TurnWord::Flush => &[Argument::Datacentre, Argument::Member],
            TurnWord::Pass => &[Argument::Datacentre, Argument::Member, Argument::Second],
            TurnWord::Stamp => &[Argument::Datacentre, Argument::Member],
            TurnWord::Token => &[Argument::Datacentre],
            TurnWord::Place => &[Argument::Datacentre, Argument::Member, Argument::Second],
            TurnWord::Gossip => &[Argument::Datacentre, Argument::Member, Argument::Second],
            TurnWord::Post => &[Argument::Datacentre, Argument::Member, Argument::Second],
            TurnWord::Learn => &[Argument::Datacentre],
            TurnWord::Send => &[Argument::Datacentre, Argument::Member, Argument::Other],
            TurnWord::Deliver => &[
                Argument::Datacentre,
                Argument::Other,
                Argument::Packet,
                Argument::Member,
            ],
            TurnWord::Lose => &[Argument::Datacentre, Argument::Other, Argument::Packet],
            TurnWord::Copy => &[Argument::Datacentre, Argument::Other, Argument::Packet],
            TurnWord::Floor => &[Argument::Datacentre, Argument::Position],
            TurnWord::Collect => &[Argument::Datacentre, Argument::Member],
            TurnWord::Announce => &[Argument::Datacentre, Argument::Other, Argument::Position],
            TurnWord::Mark => &[Argument::Datacentre],
            TurnWord::AddMaintainer => &[Argument::Datacentre, Argument::Position],
            TurnWord::AddBatcher => &[Argument::Datacentre],
            TurnWord::AddQueue => &[Argument::Datacentre],
            TurnWord::AddSender => &[Argument::Datacentre],
            TurnWord::AddReceiver => &[Argument::Datacentre],
            TurnWord::Upgrade => &[Argument::Datacentre],
        }
    }
}
