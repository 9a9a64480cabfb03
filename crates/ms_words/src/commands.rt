//! What words ask for, and what can be wrong with them.
ghost use Rattle.std.specs.Prelude.{◌≡◌};
ghost use Rattle.ms_words.specs.Words.{name_of, place_of};
ghost use Rattle.ms_words.specs.declared.commands.WordsError.TheVariants.{NoMemory as WantsMemory};

use ms_bits::{Bytes, List, Text};
use std::alloc::AllocError;

/// How a module is run.
#[derive(Drop)]
pub struct Options {
    /// The name of the file with the bytes of the standard input; none are there without one.
    pub input: Option<Text>,
    /// The bytes that uninitialised memory and undefined operands are made of, 1 to 2048 of them.
    pub fill: Bytes,
    /// The greatest number of steps, up to 1000000000.
    pub steps: u64,
    /// The number of reports at which the run ends, 1 to 1000.
    pub reports: u32,
    /// The bytes that pick the thread that goes on where more than one could, 1 to 2048 of them: pick k takes byte k, over and over.
    pub schedule: Bytes,
    /// Whether each line that names a site is followed by where it stands.
    pub locations: bool,
    /// Whether each report is followed by the calls that stood there.
    pub calls: bool,
    /// Whether a use of the same site, kind and part as one that was reported in the run is left out, and not counted.
    pub once: bool,
}

/// What is asked for.
#[derive(Drop)]
pub enum Command {
    /// Writes the module in the file with inserted code.
    Instrument {
        file: Text,
    },
    /// Runs the module in the file as it is.
    Run {
        file: Text,
        options: Options,
    },
    /// Instruments the module in the file and runs that, so that uses of uninitialised bits are reported.
    Check {
        file: Text,
        options: Options,
    },
    /// Does what `Check` does under schedules that are tried one after the other, each with other picks of threads, up to the first
    /// run with a report or a blind use: at most `runs` of them, 1 to 1000000, in up to `workers` threads, 1 to 8. Of the schedule in
    /// `options` no use is made.
    CheckSchedules {
        file: Text,
        options: Options,
        runs: u32,
        workers: u8,
    },
    /// Does what `Check` does up to the first report, and shows the way on which the bits that it is about came. `options` has a
    /// limit of one report.
    Explain {
        file: Text,
        options: Options,
    },
    /// Does what `Check` does for each of the inputs, the names of 1 to 256 files, in up to `workers` threads, 1 to 8.
    /// `options` has no input of its own.
    Corpus {
        file: Text,
        inputs: List<Text>,
        options: Options,
        workers: u8,
    },
    /// Makes a module of `functions` functions, 1 to 1000, from the number `seed`, and writes it. With `run` it is
    /// checked as `Check` does with no option given, and a summary is written.
    Gen {
        seed: u64,
        functions: u32,
        run: bool,
    },
    /// Writes the usage.
    Help,
    /// Writes the version.
    Version,
}

/// Why words are no command: the first fault from left to right. `place` is the place of the word at fault, counted
/// from 0; what is missing belongs after the last word.
#[derive(Clone, Copy)]
pub enum WordsError {
    /// The first word names no command, or there is none.
    UnknownCommand { place: u32 },
    /// The command has no option of this name, or it has one that takes no value and was given one. A word that begins
    /// with one dash, as `-x`, is never an option.
    UnknownOption { place: u32 },
    /// The words end where the value of an option should be.
    MissingValue { place: u32 },
    /// The words end before the file, or before the first input of a corpus.
    MissingFile { place: u32 },
    /// The words end without an option that the command must have, at all or beside another one that was given.
    MissingOption { place: u32 },
    /// A word after the last file that the command takes.
    Extra { place: u32 },
    /// The value isn't decimal digits alone, or has a zero before another digit.
    BadNumber { place: u32 },
    /// The value isn't two hexadecimal digits for each byte, or is empty.
    BadHex { place: u32 },
    /// The option was given before.
    Repeated { place: u32 },
    /// The option can't stand beside one that was given before.
    Excluded { place: u32 },
    /// The value is a number below the least or above the greatest that the option takes, or more bytes than it takes.
    OutOfRange { place: u32 },
    /// Reading the words ran out of memory.
    NoMemory,
}

impl WordsError {
    /// The name of the fault, as it is printed.
    pub fn name(&self) -> &'static str
        ensures { result.now ≡ name_of self.now }
    {
        match self {
            WordsError::UnknownCommand { .. } => "UnknownCommand",
            WordsError::UnknownOption { .. } => "UnknownOption",
            WordsError::MissingValue { .. } => "MissingValue",
            WordsError::MissingFile { .. } => "MissingFile",
            WordsError::MissingOption { .. } => "MissingOption",
            WordsError::Extra { .. } => "Extra",
            WordsError::BadNumber { .. } => "BadNumber",
            WordsError::BadHex { .. } => "BadHex",
            WordsError::Repeated { .. } => "Repeated",
            WordsError::Excluded { .. } => "Excluded",
            WordsError::OutOfRange { .. } => "OutOfRange",
            WordsError::NoMemory => "NoMemory",
        }
    }

    /// The place of the word at fault, counted from 0; 0 where memory ran out, which has none.
    pub fn place(&self) -> u32
        ensures { result ≡ place_of self.now }
    {
        match *self {
            WordsError::UnknownCommand { place }
            | WordsError::UnknownOption { place }
            | WordsError::MissingValue { place }
            | WordsError::MissingFile { place }
            | WordsError::MissingOption { place }
            | WordsError::Extra { place }
            | WordsError::BadNumber { place }
            | WordsError::BadHex { place }
            | WordsError::Repeated { place }
            | WordsError::Excluded { place }
            | WordsError::OutOfRange { place } => place,
            WordsError::NoMemory => 0,
        }
    }
}

impl From<AllocError> for WordsError {
    ghost from_gives = { λ _ e. e ≡ WantsMemory };

    fn from(_e: AllocError) -> WordsError {
        WordsError::NoMemory
    }
}
