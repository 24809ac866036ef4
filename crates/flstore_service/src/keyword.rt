//! The words that begin lines: where each line may stand, and how many words it has.

ghost use Rattle.std.specs.Prelude.{◌≡◌, bytes_eq};
ghost use Rattle.std.specs.List.{find};
ghost use Rattle.flstore_service.specs.Keywords.{is_ended, keyword_of, stands, text_of, words_after_first};

/// What has been read of a script, told by what comes next.
#[derive(Clone, Copy, Debug, PartialEq, Eq)]
pub enum Section {
    /// Nothing has been read.
    Start,
    /// `round`.
    Round,
    /// `maintainers`.
    Maintainers,
    /// Step lines, or `end`.
    Steps,
    /// `end` has been read.
    Ended,
}

/// The word that begins a line, and tells what kind of line it is.
#[derive(Clone, Copy, Debug, PartialEq, Eq)]
pub enum Keyword {
    /// The first line: the version of the form.
    FlStore,
    /// How many positions in a row one maintainer owns.
    Round,
    /// How many maintainers there are at the start.
    Maintainers,
    /// A value for a maintainer.
    Put,
    /// A value for a maintainer that is to stand above a position.
    After,
    /// One vector hears another.
    Gossip,
    /// The head by a vector.
    Head,
    /// What stands at a position.
    Read,
    /// One maintainer more.
    AddMaintainer,
    /// The script ends.
    End,
}

// The words that begin lines.
const KEYWORDS: [Keyword; 10] = [
    Keyword::FlStore,
    Keyword::Round,
    Keyword::Maintainers,
    Keyword::Put,
    Keyword::After,
    Keyword::Gossip,
    Keyword::Head,
    Keyword::Read,
    Keyword::AddMaintainer,
    Keyword::End,
];

impl Section {
    /// Whether the whole script has been read.
    pub fn is_ended(self) -> bool
        ensures { result ≡ is_ended self }
    {
        self == Section::Ended
    }
}

impl Keyword {
    /// The keyword that a word spells.
    #[tactic(auto, unfolding(crate::specs::Keywords::keyword_of))]
    pub fn find(word: &[u8]) -> Option<Keyword>
        ensures { result ≡ keyword_of word.now }
    {
        find_in(&KEYWORDS, word)
    }

    // The word that begins such a line.
    #[tactic(auto, unfolding(crate::specs::Keywords::text_of))]
    fn text(self) -> &'static [u8]
        ensures { result.now ≡ text_of self }
    {
        match self {
            Keyword::FlStore => b"flstore",
            Keyword::Round => b"round",
            Keyword::Maintainers => b"maintainers",
            Keyword::Put => b"put",
            Keyword::After => b"after",
            Keyword::Gossip => b"gossip",
            Keyword::Head => b"head",
            Keyword::Read => b"read",
            Keyword::AddMaintainer => b"addmaintainer",
            Keyword::End => b"end",
        }
    }

    /// Whether a line of this kind may stand in a section.
    pub fn stands(self, section: Section) -> bool
        ensures { result ≡ stands self section }
    {
        match self {
            Keyword::FlStore => section == Section::Start,
            Keyword::Round => section == Section::Round,
            Keyword::Maintainers => section == Section::Maintainers,
            Keyword::Put => section == Section::Steps,
            Keyword::After => section == Section::Steps,
            Keyword::Gossip => section == Section::Steps,
            Keyword::Head => section == Section::Steps,
            Keyword::Read => section == Section::Steps,
            Keyword::AddMaintainer => section == Section::Steps,
            Keyword::End => section == Section::Steps,
        }
    }

    /// How many words follow the first.
    pub fn words(self) -> usize
        ensures { result ≡ words_after_first self }
    {
        match self {
            Keyword::FlStore => 1,
            Keyword::Round => 1,
            Keyword::Maintainers => 1,
            Keyword::Put => 2,
            Keyword::After => 3,
            Keyword::Gossip => 2,
            Keyword::Head => 1,
            Keyword::Read => 2,
            Keyword::AddMaintainer => 1,
            Keyword::End => 0,
        }
    }
}

// The first of some keywords that a word spells.
fn find_in(keywords: &[Keyword], word: &[u8]) -> Option<Keyword>
    ensures { result ≡ find (λ keyword. bytes_eq (text_of keyword) word.now) keywords.now }
{
    for keyword in keywords {
        if keyword.text() == word {
            return Some(*keyword);
        }
    }
    None
}
