//! The first words that ask about the program itself.
ghost use Rattle.std.specs.Prelude.{◌≡◌, find};
ghost use Rattle.ms_words.specs.{Limits.{IsWithinLimits}, Table.{topics, topic_word, topic_long, topic_short}};
ghost use Rattle.ms_words.specs.Words.{asked, asks as asks_for};

use crate::commands::Command;

/// What the program is asked about itself.
#[derive(Clone, Copy)]
pub enum Topic {
    /// How it is used.
    Help,
    /// Its version.
    Version,
}

/// The topics, in the order of the usage.
pub static TOPICS: [Topic; 2] = [Topic::Help, Topic::Version];

impl Topic {
    /// What the first word asks for, if it asks about the program itself.
    #[tactic(auto, using(crate::proofs::Finding::find_here, crate::proofs::Finding::find_passed))]
    pub fn named(word: &str) -> Option<Topic>
        ensures { result ≡ find (asks_for word.now) topics }
    {
        for topic in &TOPICS {
            if topic.is_asked_by(word) {
                return Some(*topic);
            }
        }
        None
    }

    /// Whether the word is one of the three that ask for it.
    fn is_asked_by(self, word: &str) -> bool
        ensures { result ≡ asks_for word.now self }
    {
        word == self.word() || word == self.long() || word == self.short()
    }

    /// The word that reads as a command.
    pub fn word(self) -> &'static str
        ensures { result.now ≡ topic_word self }
    {
        match self {
            Topic::Help => "help",
            Topic::Version => "version",
        }
    }

    /// The word that reads as an option.
    pub fn long(self) -> &'static str
        ensures { result.now ≡ topic_long self }
    {
        match self {
            Topic::Help => "--help",
            Topic::Version => "--version",
        }
    }

    /// The shortest word.
    pub fn short(self) -> &'static str
        ensures { result.now ≡ topic_short self }
    {
        match self {
            Topic::Help => "-h",
            Topic::Version => "-V",
        }
    }

    /// The command that answers it.
    pub fn command(self) -> Command
        ensures command { result ≡ asked self }
        ensures limits { IsWithinLimits result }
    {
        match self {
            Topic::Help => Command::Help,
            Topic::Version => Command::Version,
        }
    }
}
