//! What the lines of a script have said so far, and what the next one adds.

ghost use Rattle.std.specs.Prelude.{◌≡◌};
ghost use Rattle.script_text.specs.Reading.{Gives, Reads};
ghost use Rattle.flstore_service.specs.Meaning.{add_maintainer_line, after_line, flstore_line, gossip_line, head_line, line_after, maintainers_line, meaning, nothing_said, put_line, read_line, round_line, script_said, with_maintainer, with_step, words_after};

use crate::keyword::{Keyword, Section};
use crate::{FlScript, FlStep};
use cz_base::Seq;
use cz_base::limits::{MEMBERS, ROUND, STEPS};
use script_text::{Cause, ReadFault, Words, has_empty_word, has_line_bytes, is_passed_over};
use std::alloc::Global;

/// What the lines of a script have said so far.
#[derive(Debug, Drop)]
pub struct Progress {
    /// What comes next.
    pub section: Section,
    /// How many positions in a row one maintainer owns, 0 before their line.
    pub round: u32,
    /// How many maintainers there are at the start, 0 before their line.
    pub maintainers: u32,
    /// How many maintainers there may be by now, were each line that adds one taken.
    pub members: u32,
    /// The steps in their order.
    pub steps: Seq<FlStep>,
}

impl Progress {
    /// Nothing has been read.
    pub fn new(alloc: Global) -> Self
        ensures { result ≡ nothing_said }
    {
        Progress {
            section: Section::Start,
            round: 0,
            maintainers: 0,
            members: 0,
            steps: Seq::new(alloc),
        }
    }

    // The first line, which says the version of the form.
    #[tactic(auto, unfolding(crate::specs::Meaning::flstore_line))]
    fn flstore(&mut self, words: &mut Words<'_>) -> Result<(), Cause>
        ensures { Reads (λ _. self.new) result (flstore_line self.old words.old) }
    {
        words.number(1, 1)?;
        self.section = Section::Round;
        Ok(())
    }

    // How many positions in a row one maintainer owns.
    #[tactic(auto, unfolding(crate::specs::Meaning::round_line))]
    fn round(&mut self, words: &mut Words<'_>) -> Result<(), Cause>
        ensures { Reads (λ _. self.new) result (round_line self.old words.old) }
    {
        self.round = words.number(1, ROUND)?;
        self.section = Section::Maintainers;
        Ok(())
    }

    // How many maintainers there are at the start.
    #[tactic(auto, unfolding(crate::specs::Meaning::maintainers_line))]
    fn maintainers(&mut self, words: &mut Words<'_>) -> Result<(), Cause>
        ensures { Reads (λ _. self.new) result (maintainers_line self.old words.old) }
    {
        let maintainers = words.number(1, MEMBERS as u32)?;
        self.maintainers = maintainers;
        self.members = maintainers;
        self.section = Section::Steps;
        Ok(())
    }

    // A value for a maintainer.
    #[tactic(auto, unfolding(crate::specs::Meaning::put_line))]
    fn put(&mut self, words: &mut Words<'_>) -> Result<(), ReadFault>
        ensures { Gives (λ _. self.new) result (put_line self.old words.old) }
    {
        let m = words.number_below(MEMBERS)?;
        let body = words.body(self.steps.alloc())?;
        self.put_step(FlStep::Put { m, body })
    }

    // A value for a maintainer that is to stand above a position.
    #[tactic(auto, unfolding(crate::specs::Meaning::after_line))]
    fn after(&mut self, words: &mut Words<'_>) -> Result<(), ReadFault>
        ensures { Gives (λ _. self.new) result (after_line self.old words.old) }
    {
        let m = words.number_below(MEMBERS)?;
        let p = words.number(1, u32::MAX)?;
        let body = words.body(self.steps.alloc())?;
        self.put_step(FlStep::After {
            m,
            p: u64::from(p),
            body,
        })
    }

    // One vector hears another.
    #[tactic(auto, unfolding(crate::specs::Meaning::gossip_line))]
    fn gossip(&mut self, words: &mut Words<'_>) -> Result<(), ReadFault>
        ensures { Gives (λ _. self.new) result (gossip_line self.old words.old) }
    {
        let m = words.number_below(MEMBERS)?;
        let k = words.number_below(MEMBERS)?;
        self.put_step(FlStep::Gossip { m, k })
    }

    // The head by a vector.
    #[tactic(auto, unfolding(crate::specs::Meaning::head_line))]
    fn head(&mut self, words: &mut Words<'_>) -> Result<(), ReadFault>
        ensures { Gives (λ _. self.new) result (head_line self.old words.old) }
    {
        let m = words.number_below(MEMBERS)?;
        self.put_step(FlStep::Head { m })
    }

    // What stands at a position.
    #[tactic(auto, unfolding(crate::specs::Meaning::read_line))]
    fn read(&mut self, words: &mut Words<'_>) -> Result<(), ReadFault>
        ensures { Gives (λ _. self.new) result (read_line self.old words.old) }
    {
        let m = words.number_below(MEMBERS)?;
        let p = u64::from(words.number(1, u32::MAX)?);
        self.put_step(FlStep::Read { m, p })
    }

    // One maintainer more.
    #[tactic(auto, unfolding(crate::specs::Meaning::add_maintainer_line))]
    fn add_maintainer(&mut self, words: &mut Words<'_>) -> Result<(), ReadFault>
        ensures { Gives (λ _. self.new) result (add_maintainer_line self.old words.old) }
    {
        let p = u64::from(words.number(1, u32::MAX)?);
        self.put_maintainer(p)
    }

    // The next step, which adds a maintainer.
    #[tactic(auto, unfolding(crate::specs::Meaning::with_maintainer))]
    fn put_maintainer(&mut self, p: u64) -> Result<(), ReadFault>
        ensures { Gives (λ _. self.new) result (with_maintainer self.old p) }
    {
        if self.members >= MEMBERS as u32 {
            return Err(ReadFault::Bad(Cause::TooMany));
        }
        self.members += 1;
        self.put_step(FlStep::AddMaintainer { p })
    }

    // The next step.
    #[tactic(auto, unfolding(crate::specs::Meaning::with_step))]
    fn put_step(&mut self, step: FlStep) -> Result<(), ReadFault>
        ensures { Gives (λ _. self.new) result (with_step self.old step) }
    {
        if self.steps.len() >= STEPS {
            return Err(ReadFault::Bad(Cause::TooMany));
        }
        self.steps.push(step)?;
        Ok(())
    }

    // One line, but for its first word, whose place and number of words are right.
    fn line(&mut self, keyword: Keyword, words: &mut Words<'_>) -> Result<(), ReadFault>
        ensures { Gives (λ _. self.new) result (meaning self.old keyword words.old) }
    {
        match keyword {
            Keyword::FlStore => self.flstore(words)?,
            Keyword::Round => self.round(words)?,
            Keyword::Maintainers => self.maintainers(words)?,
            Keyword::Put => self.put(words)?,
            Keyword::After => self.after(words)?,
            Keyword::Gossip => self.gossip(words)?,
            Keyword::Head => self.head(words)?,
            Keyword::Read => self.read(words)?,
            Keyword::AddMaintainer => self.add_maintainer(words)?,
            Keyword::End => self.section = Section::Ended,
        }
        Ok(())
    }

    // The next line, by its words.
    #[tactic(auto, unfolding(crate::specs::Meaning::words_after))]
    fn take_words(&mut self, words: &mut Words<'_>) -> Result<(), ReadFault>
        ensures { Gives (λ _. self.new) result (words_after self.old words.old) }
    {
        let Some(first) = words.next_word() else {
            return Err(ReadFault::Bad(Cause::UnknownWord));
        };
        let Some(keyword) = Keyword::find(first) else {
            return Err(ReadFault::Bad(Cause::UnknownWord));
        };
        if !keyword.stands(self.section) {
            return Err(ReadFault::Bad(Cause::OutOfPlace));
        }
        if words.len() != keyword.words() {
            return Err(ReadFault::Bad(Cause::WrongWords));
        }
        self.line(keyword, words)
    }

    /// The next line.
    #[tactic(auto, unfolding(crate::specs::Meaning::line_after))]
    pub fn take_line(&mut self, line: &[u8]) -> Result<(), ReadFault>
        ensures { Gives (λ _. self.new) result (line_after self.old line.now) }
    {
        if !has_line_bytes(line) {
            return Err(ReadFault::Bad(Cause::BadByte));
        }
        if is_passed_over(line) {
            return Ok(());
        }
        if has_empty_word(line) {
            return Err(ReadFault::Bad(Cause::BadSpacing));
        }
        if self.section.is_ended() {
            return Err(ReadFault::Bad(Cause::AfterEnd));
        }
        self.take_words(&mut Words::new(line))
    }

    /// The script that the lines have said.
    pub fn into_script(self) -> FlScript
        ensures { result ≡ script_said self }
    {
        let Progress {
            round,
            maintainers,
            steps,
            ..
        } = self;
        FlScript {
            round,
            maintainers,
            steps,
        }
    }
}
