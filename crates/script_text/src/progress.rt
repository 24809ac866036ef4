//! What the lines of a script have said so far, and what the next one adds.

ghost use Rattle.std.specs.Prelude.{◌≡◌, ◌==◌, IfOk};
ghost use Rattle.std.specs.List.{list_any, find};
ghost use Rattle.script_text.specs.Words.{words, is_line_byte, is_empty_word};
ghost use Rattle.script_text.specs.Reading.{Gives, Reads};
ghost use Rattle.script_text.specs.Meaning.{start, chariots_line, datacentres_line, round_line, sizes_at, stages_line, session_line, append_line, put_line, del_line, get_line, tx_line, read_line, last_line, with_command, command_meaning, with_step, turn_line, meaning, words_after, line_after, is_full, is_given, is_passed_over, sizes_given, script_said};

use crate::arguments::{read_arguments, step_said};
use crate::fault::{Cause, ReadFault};
use crate::keyword::{CommandWord, Keyword, TurnWord};
use crate::members::{Addition, StepList, added_by};
use crate::section::Section;
use crate::shared::{has_empty_word, has_line_bytes, is_passed_over};
use crate::words::Words;
use abstract_log::{Command, Script, SessionPlan, Sizes, Step, Workload};
use cz_base::limits::{COMMANDS, DATACENTRES, LAST_RECORDS, MEMBERS, ROUND, SESSIONS, STEPS};
use cz_base::{DcId, NoMemory, Seq};
use std::alloc::Global;

/// How many members the stages of one datacentre have, as a line gives them.
#[derive(Clone, Copy, Debug, PartialEq, Eq)]
pub struct SizesLine {
    /// The datacentre.
    pub dc: DcId,
    /// The numbers of members of its stages.
    pub sizes: Sizes,
}

/// What the lines of a script have said so far.
#[derive(Debug, Drop)]
pub struct Progress {
    /// What comes next.
    pub section: Section,
    /// How many datacentres there are, 0 before their line.
    pub dcs: u32,
    /// How many positions in a row one maintainer owns, 0 before their line.
    pub round: u32,
    /// The `stages` lines in their order.
    pub stages: Seq<SizesLine>,
    /// The sessions in their order, each with its commands so far.
    pub sessions: Seq<SessionPlan>,
    /// How many commands all sessions have together.
    pub commands: u32,
    /// The steps in their order.
    pub steps: StepList,
}

// The sizes of a datacentre that no line gives.
const ONE_OF_EACH: Sizes = Sizes {
    batchers: 1,
    filters: 1,
    queues: 1,
    maintainers: 1,
    indexers: 1,
    senders: 1,
    receivers: 1,
};

impl Progress {
    /// Nothing has been read.
    pub fn new(alloc: Global) -> Self
        ensures { result ≡ start }
    {
        Progress {
            section: Section::Start,
            dcs: 0,
            round: 0,
            stages: Seq::new(alloc),
            sessions: Seq::new(alloc),
            commands: 0,
            steps: StepList::new(alloc),
        }
    }

    // The first line, which says the version of the form.
    #[tactic(auto, unfolding(crate::specs::Meaning::chariots_line))]
    fn chariots(&mut self, words: &mut Words<'_>) -> Result<(), Cause>
        ensures { Reads (λ _. self.new) result (chariots_line self.old words.old) }
    {
        words.number(1, 1)?;
        self.section = Section::Datacentres;
        Ok(())
    }

    // How many datacentres there are.
    #[tactic(auto, unfolding(crate::specs::Meaning::datacentres_line))]
    fn datacentres(&mut self, words: &mut Words<'_>) -> Result<(), Cause>
        ensures { Reads (λ _. self.new) result (datacentres_line self.old words.old) }
    {
        self.dcs = words.number(1, DATACENTRES as u32)?;
        self.section = Section::Round;
        Ok(())
    }

    // How many positions in a row one maintainer owns.
    #[tactic(auto, unfolding(crate::specs::Meaning::round_line))]
    fn round(&mut self, words: &mut Words<'_>) -> Result<(), Cause>
        ensures { Reads (λ _. self.new) result (round_line self.old words.old) }
    {
        self.round = words.number(1, ROUND)?;
        self.section = Section::Stages;
        Ok(())
    }

    // The numbers of members of the stages of one datacentre, at most once each.
    #[tactic(auto, unfolding(crate::specs::Meaning::stages_line))]
    fn stages(&mut self, words: &mut Words<'_>) -> Result<(), ReadFault>
        ensures { Gives (λ _. self.new) result (stages_line self.old words.old) }
    {
        let dc = words.datacentre(self.dcs)?;
        let sizes = read_sizes(words)?;
        if is_given(&self.stages, dc) {
            return Err(ReadFault::Bad(Cause::GivenTwice));
        }
        self.stages.push(SizesLine { dc, sizes })?;
        Ok(())
    }

    // One more session, at its datacentre.
    #[tactic(auto, unfolding(crate::specs::Meaning::session_line))]
    fn session(&mut self, words: &mut Words<'_>) -> Result<(), ReadFault>
        ensures { Gives (λ _. self.new) result (session_line self.old words.old) }
    {
        let home = words.datacentre(self.dcs)?;
        if self.sessions.len() == SESSIONS {
            return Err(ReadFault::Bad(Cause::TooMany));
        }
        let commands = Seq::new(self.sessions.alloc());
        self.sessions.push(SessionPlan { home, commands })?;
        self.section = Section::Sessions;
        Ok(())
    }

    // A command that appends a record.
    #[tactic(auto, unfolding(crate::specs::Meaning::append_line))]
    fn append(&mut self, words: &mut Words<'_>) -> Result<(), ReadFault>
        ensures { Gives (λ _. self.new) result (append_line self.old words.old) }
    {
        let alloc = self.sessions.alloc();
        let body = words.body(alloc)?;
        let tags = words.names(alloc)?;
        self.put_command(Command::Append { tags, body })
    }

    // A command that writes a key.
    #[tactic(auto, unfolding(crate::specs::Meaning::put_line))]
    fn put(&mut self, words: &mut Words<'_>) -> Result<(), ReadFault>
        ensures { Gives (λ _. self.new) result (put_line self.old words.old) }
    {
        let alloc = self.sessions.alloc();
        let key = words.name(alloc)?;
        let body = words.body(alloc)?;
        self.put_command(Command::Put { key, body })
    }

    // A command that deletes a key.
    #[tactic(auto, unfolding(crate::specs::Meaning::del_line))]
    fn del(&mut self, words: &mut Words<'_>) -> Result<(), ReadFault>
        ensures { Gives (λ _. self.new) result (del_line self.old words.old) }
    {
        let alloc = self.sessions.alloc();
        let key = words.name(alloc)?;
        self.put_command(Command::Del { key })
    }

    // A command that reads a key.
    #[tactic(auto, unfolding(crate::specs::Meaning::get_line))]
    fn get(&mut self, words: &mut Words<'_>) -> Result<(), ReadFault>
        ensures { Gives (λ _. self.new) result (get_line self.old words.old) }
    {
        let alloc = self.sessions.alloc();
        let key = words.name(alloc)?;
        self.put_command(Command::Get { key })
    }

    // A command that reads several keys.
    #[tactic(auto, unfolding(crate::specs::Meaning::tx_line))]
    fn tx(&mut self, words: &mut Words<'_>) -> Result<(), ReadFault>
        ensures { Gives (λ _. self.new) result (tx_line self.old words.old) }
    {
        let alloc = self.sessions.alloc();
        let keys = words.names(alloc)?;
        self.put_command(Command::Tx { keys })
    }

    // A command that reads a position.
    #[tactic(auto, unfolding(crate::specs::Meaning::read_line))]
    fn read(&mut self, words: &mut Words<'_>) -> Result<(), ReadFault>
        ensures { Gives (λ _. self.new) result (read_line self.old words.old) }
    {
        let lid = words.number(1, u32::MAX)?;
        self.put_command(Command::Read {
            lid: u64::from(lid),
        })
    }

    // A command that reads the last records with a tag.
    #[tactic(auto, unfolding(crate::specs::Meaning::last_line))]
    fn last(&mut self, words: &mut Words<'_>) -> Result<(), ReadFault>
        ensures { Gives (λ _. self.new) result (last_line self.old words.old) }
    {
        let alloc = self.sessions.alloc();
        let tag = words.name(alloc)?;
        let count = words.number(1, LAST_RECORDS)?;
        self.put_command(Command::Last { tag, count })
    }

    // The next command of the session that began last.
    #[tactic(auto, unfolding(crate::specs::Meaning::with_command))]
    fn put_command(&mut self, command: Command) -> Result<(), ReadFault>
        ensures { Gives (λ _. self.new) result (with_command self.old command) }
    {
        if self.commands >= COMMANDS {
            return Err(ReadFault::Bad(Cause::TooMany));
        }
        let Some(mut plan) = self.sessions.pop() else {
            return Err(ReadFault::Bad(Cause::OutOfPlace));
        };
        plan.commands.push(command)?;
        self.sessions.push(plan)?;
        self.commands += 1;
        Ok(())
    }

    // A step, by its word and the words behind it.
    #[tactic(auto, unfolding(crate::specs::Meaning::turn_line))]
    fn turn(&mut self, word: TurnWord, words: &mut Words<'_>) -> Result<(), ReadFault>
        ensures { Gives (λ _. self.new) result (turn_line self.old word words.old) }
    {
        let given = read_arguments(word.arguments(), self.dcs, self.sessions.len(), words)?;
        self.put_step(step_said(word, given))
    }

    // The next step.
    #[tactic(auto, unfolding(crate::specs::Meaning::with_step))]
    fn put_step(&mut self, step: Step) -> Result<(), ReadFault>
        ensures { Gives (λ _. self.new) result (with_step self.old step) }
    {
        if self.steps.len() >= STEPS || self.is_full(added_by(&step)) {
            return Err(ReadFault::Bad(Cause::TooMany));
        }
        self.steps.push(step)?;
        Ok(())
    }

    // Whether an addition comes to a stage that has as many members as it may have.
    fn is_full(&self, added: Option<Addition>) -> bool
        ensures { result ≡ is_full self.now.stages self.now.steps added }
    {
        let Some(to) = added else {
            return false;
        };
        let sizes = sizes_given(&self.stages, to.dc.number());
        let members = u64::from(to.stage.members(&sizes)) + u64::from(self.steps.additions(&to));
        MEMBERS as u64 <= members
    }

    // One line, but for its first word, whose place and number of words are right.
    fn line(&mut self, keyword: Keyword, words: &mut Words<'_>) -> Result<(), ReadFault>
        ensures { Gives (λ _. self.new) result (meaning self.old keyword words.old) }
    {
        match keyword {
            Keyword::Chariots => self.chariots(words)?,
            Keyword::Datacentres => self.datacentres(words)?,
            Keyword::Round => self.round(words)?,
            Keyword::Stages => self.stages(words)?,
            Keyword::Session => self.session(words)?,
            Keyword::Command(word) => self.command(word, words)?,
            Keyword::Steps => self.section = Section::Steps,
            Keyword::Turn(word) => self.turn(word, words)?,
            Keyword::End => self.section = Section::Ended,
        }
        Ok(())
    }

    // A command, by its word and the words behind it.
    fn command(&mut self, word: CommandWord, words: &mut Words<'_>) -> Result<(), ReadFault>
        ensures { Gives (λ _. self.new) result (command_meaning self.old word words.old) }
    {
        match word {
            CommandWord::Append => self.append(words),
            CommandWord::Put => self.put(words),
            CommandWord::Del => self.del(words),
            CommandWord::Get => self.get(words),
            CommandWord::Tx => self.tx(words),
            CommandWord::Read => self.read(words),
            CommandWord::Last => self.last(words),
        }
    }

    // The next line, by its words.
    #[tactic(auto, unfolding(crate::specs::Meaning::words_after))]
    fn take_words(&mut self, words: &mut Words<'_>) -> Result<(), ReadFault>
        ensures { Gives (λ _. self.new) result (words_after self.old words.old) }
    {
        let Some(first) = words.next_word() else {
            return Err(ReadFault::Bad(Cause::UnknownWord));
        };
        let Some(keyword) = Keyword::find(first) else {
            return Err(ReadFault::Bad(Cause::UnknownWord));
        };
        if !keyword.stands(self.section) {
            return Err(ReadFault::Bad(Cause::OutOfPlace));
        }
        let (least, most) = keyword.words();
        let count = words.len();
        if count < least || most < count {
            return Err(ReadFault::Bad(Cause::WrongWords));
        }
        self.line(keyword, words)
    }

    /// The next line.
    #[tactic(auto, unfolding(crate::specs::Meaning::line_after))]
    pub fn take_line(&mut self, line: &[u8]) -> Result<(), ReadFault>
        ensures { Gives (λ _. self.new) result (line_after self.old line.now) }
    {
        if !has_line_bytes(line) {
            return Err(ReadFault::Bad(Cause::BadByte));
        }
        if is_passed_over(line) {
            return Ok(());
        }
        if has_empty_word(line) {
            return Err(ReadFault::Bad(Cause::BadSpacing));
        }
        if self.section.is_ended() {
            return Err(ReadFault::Bad(Cause::AfterEnd));
        }
        self.take_words(&mut Words::new(line))
    }

    /// The script that the lines have said.
    pub fn into_script(self) -> Result<Script, NoMemory>
        ensures { IfOk result (λ script. script ≡ script_said self) }
    {
        let room = Vec::with_capacity(self.stages.alloc(), self.dcs as usize)?;
        let mut sizes = Seq::from_vec(room);
        for number in 0..self.dcs {
            sizes.push(sizes_given(&self.stages, number))?;
        }
        let Progress {
            dcs,
            round,
            sessions,
            steps,
            ..
        } = self;
        Ok(Script {
            workload: Workload { dcs, sessions },
            round,
            sizes,
            steps: steps.into_seq(),
        })
    }
}

// The numbers of members of the seven stages.
#[tactic(auto, unfolding(crate::specs::Meaning::sizes_at))]
fn read_sizes(words: &mut Words<'_>) -> Result<Sizes, Cause>
    ensures { Reads (λ sizes. (sizes, words.new)) result (sizes_at words.old) }
{
    let batchers = words.number(1, MEMBERS as u32)?;
    let filters = words.number(1, MEMBERS as u32)?;
    let queues = words.number(1, MEMBERS as u32)?;
    let maintainers = words.number(1, MEMBERS as u32)?;
    let indexers = words.number(1, MEMBERS as u32)?;
    let senders = words.number(1, MEMBERS as u32)?;
    let receivers = words.number(1, MEMBERS as u32)?;
    Ok(Sizes {
        batchers,
        filters,
        queues,
        maintainers,
        indexers,
        senders,
        receivers,
    })
}

// Whether a line has given the sizes of a datacentre.
fn is_given(stages: &Seq<SizesLine>, dc: DcId) -> bool
    ensures { result ≡ is_given stages.now dc }
{
    stages.iter().any(|given| given.dc == dc)
}

// The sizes of a datacentre.
fn sizes_given(stages: &Seq<SizesLine>, number: u32) -> Sizes
    ensures { result ≡ sizes_given stages.now number }
{
    match given_at(stages.as_slice(), number) {
        Some(given) => given.sizes,
        None => ONE_OF_EACH,
    }
}

// The first line that gives the sizes of a datacentre.
fn given_at(stages: &[SizesLine], number: u32) -> Option<SizesLine>
    ensures { result ≡ find (λ given. given.dc == number) stages.now }
{
    for given in stages {
        if given.dc.number() == number {
            return Some(*given);
        }
    }
    None
}
