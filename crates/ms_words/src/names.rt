//! The names of commands and of their options, and what each takes: one row each, from which words are read and the usage is
//! made.
ghost use Rattle.std.specs.Prelude.{◌≡◌, ◌&&◌, not, find, option_map};
ghost use Rattle.ms_words.specs.Table.{commands, command_word, default_of, option_word, options_of, wanted_of, wanted_with_workers, excluded_by, takes as takes_of, least_files as least_files_of, most_files as most_files_of};
ghost use Rattle.ms_words.specs.{Reading.{same, takes_nothing}, Usage.{is_wanted}};

/// A command, by its word. What each does says the usage.
#[derive(Clone, Copy)]
pub enum CommandName {
    Instrument,
    Run,
    Check,
    Explain,
    Corpus,
    Gen,
}

/// An option of a command, by its word: `--input` and so on. What each is says the usage.
#[derive(Clone, Copy)]
pub enum OptionName {
    Input,
    Fill,
    Steps,
    Reports,
    Schedule,
    Schedules,
    Workers,
    Seed,
    Functions,
    /// `--run` of `gen`, which checks the module.
    Run,
    Where,
    Calls,
    Once,
}

/// What an option takes.
#[derive(Clone, Copy)]
pub enum Takes {
    /// No value.
    Nothing,
    /// Any text.
    Anything,
    /// Bytes, of two hexadecimal digits each, and at most this many.
    Hex { most: usize },
    /// A decimal number within these.
    Number { least: u64, most: u64 },
}

/// The commands, in the order of the usage.
pub static COMMANDS: [CommandName; 6] = [
    CommandName::Instrument,
    CommandName::Run,
    CommandName::Check,
    CommandName::Explain,
    CommandName::Corpus,
    CommandName::Gen,
];

/// The options, in the order of the usage.
pub static OPTIONS: [OptionName; 13] = [
    OptionName::Input,
    OptionName::Fill,
    OptionName::Steps,
    OptionName::Reports,
    OptionName::Schedule,
    OptionName::Schedules,
    OptionName::Workers,
    OptionName::Seed,
    OptionName::Functions,
    OptionName::Run,
    OptionName::Where,
    OptionName::Calls,
    OptionName::Once,
];

/// The options of a command that has none, or must have none.
static NO_OPTIONS: [OptionName; 0] = [];

/// The options that `run` may have.
static RUN_OPTIONS: [OptionName; 8] = [
    OptionName::Input,
    OptionName::Fill,
    OptionName::Steps,
    OptionName::Reports,
    OptionName::Schedule,
    OptionName::Where,
    OptionName::Calls,
    OptionName::Once,
];

/// The options that `check` may have.
static CHECK_OPTIONS: [OptionName; 10] = [
    OptionName::Input,
    OptionName::Fill,
    OptionName::Steps,
    OptionName::Reports,
    OptionName::Schedule,
    OptionName::Schedules,
    OptionName::Workers,
    OptionName::Where,
    OptionName::Calls,
    OptionName::Once,
];

/// The options that `explain` may have.
static EXPLAIN_OPTIONS: [OptionName; 5] = [
    OptionName::Input,
    OptionName::Fill,
    OptionName::Steps,
    OptionName::Where,
    OptionName::Calls,
];

/// The options that `corpus` may have.
static CORPUS_OPTIONS: [OptionName; 7] = [
    OptionName::Workers,
    OptionName::Fill,
    OptionName::Steps,
    OptionName::Reports,
    OptionName::Where,
    OptionName::Calls,
    OptionName::Once,
];

/// The options that `gen` may have.
static GEN_OPTIONS: [OptionName; 3] = [OptionName::Seed, OptionName::Functions, OptionName::Run];

/// Those that it must have.
static GEN_WANTED: [OptionName; 2] = [OptionName::Seed, OptionName::Functions];

/// Those that `check` must have beside a number of workers.
static CHECK_WANTED: [OptionName; 1] = [OptionName::Schedules];

impl CommandName {
    /// The command that the word names.
    pub fn named(word: &str) -> Option<CommandName>
        ensures { result ≡ find (λ c. same word.now (command_word c)) commands }
    {
        COMMANDS
            .iter()
            .copied()
            .find(|command| word == command.word())
    }

    /// The word that names it.
    pub fn word(self) -> &'static str
        ensures { result.now ≡ command_word self }
    {
        match self {
            CommandName::Instrument => "instrument",
            CommandName::Run => "run",
            CommandName::Check => "check",
            CommandName::Explain => "explain",
            CommandName::Corpus => "corpus",
            CommandName::Gen => "gen",
        }
    }

    /// The options that it may have.
    pub fn options(self) -> &'static [OptionName]
        ensures { result.now ≡ options_of self }
    {
        match self {
            CommandName::Instrument => NO_OPTIONS.as_slice(),
            CommandName::Run => RUN_OPTIONS.as_slice(),
            CommandName::Check => CHECK_OPTIONS.as_slice(),
            CommandName::Explain => EXPLAIN_OPTIONS.as_slice(),
            CommandName::Corpus => CORPUS_OPTIONS.as_slice(),
            CommandName::Gen => GEN_OPTIONS.as_slice(),
        }
    }

    /// The options that it must have.
    pub fn wanted(self) -> &'static [OptionName]
        ensures { result.now ≡ wanted_of self }
    {
        match self {
            CommandName::Gen => GEN_WANTED.as_slice(),
            _ => NO_OPTIONS.as_slice(),
        }
    }

    /// The options that it must have beside those that are given, by whether the number of workers is.
    pub fn wanted_with(self, workers: bool) -> &'static [OptionName]
        ensures { result.now ≡ wanted_with_workers self workers }
    {
        match self {
            CommandName::Check => {
                if workers {
                    CHECK_WANTED.as_slice()
                } else {
                    NO_OPTIONS.as_slice()
                }
            }
            _ => self.wanted(),
        }
    }

    /// Whether it must have the option.
    pub fn wants(self, option: OptionName) -> bool
        ensures { result ≡ is_wanted self option }
    {
        self.wanted()
            .iter()
            .any(|wanted| wanted.word() == option.word())
    }

    /// How many files it has at least: a corpus has a module and an input.
    pub fn least_files(self) -> usize
        ensures { result ≡ least_files_of self }
    {
        match self {
            CommandName::Corpus => 2,
            CommandName::Gen => 0,
            _ => 1,
        }
    }

    /// How many files it has at most: a corpus has a module and up to 256 inputs.
    pub fn most_files(self) -> usize
        ensures { result ≡ most_files_of self }
    {
        match self {
            CommandName::Corpus => 257,
            CommandName::Gen => 0,
            _ => 1,
        }
    }

    /// The option that has the name; one that takes no value isn't known with a value.
    pub fn option_named(self, name: &str, has_value: bool) -> Option<OptionName>
        ensures { result ≡ find (λ o. same (option_word o) name.now && not (takes_nothing (takes_of o) && has_value)) (options_of self) }
    {
        self.options().iter().copied().find(|option| {
            option.word() == name && !(option.takes_nothing() && has_value)
        })
    }
}

impl OptionName {
    /// The word that names it.
    pub fn word(self) -> &'static str
        ensures { result.now ≡ option_word self }
    {
        match self {
            OptionName::Input => "input",
            OptionName::Fill => "fill",
            OptionName::Steps => "steps",
            OptionName::Reports => "reports",
            OptionName::Schedule => "schedule",
            OptionName::Schedules => "schedules",
            OptionName::Workers => "workers",
            OptionName::Seed => "seed",
            OptionName::Functions => "functions",
            OptionName::Run => "run",
            OptionName::Where => "where",
            OptionName::Calls => "calls",
            OptionName::Once => "once",
        }
    }

    /// What it takes.
    pub fn takes(self) -> Takes
        ensures { result ≡ takes_of self }
    {
        match self {
            OptionName::Input => Takes::Anything,
            OptionName::Fill => Takes::Hex { most: 2048 },
            OptionName::Steps => Takes::Number {
                least: 0,
                most: 1000000000,
            },
            OptionName::Reports => Takes::Number {
                least: 1,
                most: 1000,
            },
            OptionName::Schedule => Takes::Hex { most: 2048 },
            OptionName::Schedules => Takes::Number {
                least: 1,
                most: 1000000,
            },
            OptionName::Workers => Takes::Number { least: 1, most: 8 },
            OptionName::Seed => Takes::Number {
                least: 0,
                most: u64::MAX,
            },
            OptionName::Functions => Takes::Number {
                least: 1,
                most: 1000,
            },
            OptionName::Run => Takes::Nothing,
            OptionName::Where => Takes::Nothing,
            OptionName::Calls => Takes::Nothing,
            OptionName::Once => Takes::Nothing,
        }
    }

    /// Its value where it isn't given.
    pub fn default_value(self) -> Option<&'static str>
        ensures { option_map (λ v. v.now) result ≡ default_of self }
    {
        match self {
            OptionName::Fill => Some("a5"),
            OptionName::Steps => Some("10000000"),
            OptionName::Reports => Some("1"),
            OptionName::Schedule => Some("00"),
            OptionName::Workers => Some("2"),
            _ => None,
        }
    }

    /// The option that can't be given beside it.
    pub fn excluded(self) -> Option<OptionName>
        ensures { result ≡ excluded_by self }
    {
        match self {
            OptionName::Schedule => Some(OptionName::Schedules),
            OptionName::Schedules => Some(OptionName::Schedule),
            _ => None,
        }
    }

    /// Whether it takes no value.
    pub fn takes_nothing(self) -> bool
        ensures { result ≡ takes_nothing (takes_of self) }
    {
        match self.takes() {
            Takes::Nothing => true,
            _ => false,
        }
    }
}
