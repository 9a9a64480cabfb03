//! The fields of a command, made of the values that `clap` found for its options: `found` are these. In contracts `first_value`
//! is the value that was found for an option, and `options_by` and `command_by` are the fields by such values.
ghost use Rattle.std.specs.{Prelude.{◌≡◌, ◌-◌, ◌^◌, IfOk, unwrap_or, [], codes, map, drop}, Option.{option_map_or}};
ghost use Rattle.clap.specs.Words.{found_of, first_value};
ghost use Rattle.ms_words.specs.{Table.{option_word}, Values.{hex_bytes as hex_bytes_of}};
ghost use Rattle.ms_words.specs.Words.{number_by, options_by, explain_options_by, corpus_options_by, command_by, no_schedule as no_schedule_of};
ghost use Rattle.ms_words.specs.Fields.{IsNumber, IsHex, FitsRun, FitsReports, FitsScheduled, FitsCheck, FitsCorpus, FitsGen, Fits, found_value, found_file, found_inputs, is_set as is_set_of};

use crate::commands::{Command, Options};
use crate::names::{CommandName, OptionName};
use crate::texts::{copy_text, copy_texts};
use crate::values::{hex_bytes, number};
use clap::ArgMatches;
use ms_bits::{Bytes, List, NoMemory, Text};
use std::alloc::Global;

/// The number that an option was found with.
fn number_in(found: &ArgMatches, option: OptionName) -> u64
    requires { IsNumber (2 ^ 64 - 1) (first_value (found_of found.now) (option_word option)) }
    ensures { result ≡ number_by (first_value (found_of found.now) (option_word option)) }
{
    match found.get_str(option.word()) {
        Some(word) => number(word).unwrap_or(0),
        None => 0,
    }
}

/// The number that an option was found with that takes at most 1000.
fn small_number_in(found: &ArgMatches, option: OptionName) -> u32
    requires { IsNumber 1000 (first_value (found_of found.now) (option_word option)) }
    ensures { result ≡ number_by (first_value (found_of found.now) (option_word option)) }
{
    number_in(found, option) as u32
}

/// The number that `--workers` was found with.
fn workers_in(found: &ArgMatches) -> u8
    requires { IsNumber 8 (first_value (found_of found.now) (option_word OptionName.Workers)) }
    ensures { result ≡ number_by (first_value (found_of found.now) (option_word OptionName.Workers)) }
{
    number_in(found, OptionName::Workers) as u8
}

/// The number that `--schedules` was found with: the greatest number of runs.
fn runs_in(found: &ArgMatches) -> u32
    requires { IsNumber 1000000 (first_value (found_of found.now) (option_word OptionName.Schedules)) }
    ensures { result ≡ number_by (first_value (found_of found.now) (option_word OptionName.Schedules)) }
{
    number_in(found, OptionName::Schedules) as u32
}

/// Whether an option that takes no value was found.
fn is_set(found: &ArgMatches, option: OptionName) -> bool
    ensures { result ≡ is_set_of (first_value (found_of found.now) (option_word option)) }
{
    match found.get_str(option.word()) {
        Some(text) => text == "true",
        None => false,
    }
}

/// The text that an option was found with.
fn text_in(alloc: Global, found: &ArgMatches, option: OptionName) -> Result<Option<Text>, NoMemory>
    ensures { IfOk result (λ t. t ≡ first_value (found_of found.now) (option_word option)) }
{
    match found.get_str(option.word()) {
        Some(text) => Ok(Some(copy_text(alloc, text)?)),
        None => Ok(None),
    }
}

/// The bytes that an option was found with.
fn bytes_in(alloc: Global, found: &ArgMatches, option: OptionName) -> Result<Bytes, NoMemory>
    requires { IsHex (first_value (found_of found.now) (option_word option)) }
    ensures { IfOk result (λ b. b ≡ option_map_or hex_bytes_of (first_value (found_of found.now) (option_word option)) []) }
{
    match found.get_str(option.word()) {
        Some(text) => Ok(Bytes::from_vec(hex_bytes(alloc, text.as_bytes())?)),
        None => Ok(Bytes::from_vec(Vec::new(alloc))),
    }
}

/// The first file that was found.
fn file_in(alloc: Global, found: &ArgMatches) -> Result<Text, NoMemory>
    ensures { IfOk result (λ t. t ≡ found_file (found_of found.now)) }
{
    match found.get_str("files") {
        Some(text) => copy_text(alloc, text),
        None => copy_text(alloc, ""),
    }
}

/// Equal texts of the words after the first one.
fn texts_after_first(alloc: Global, words: &[&str]) -> Result<List<Text>, NoMemory>
    ensures { IfOk result (λ ts. ts ≡ drop 1 (map (λ w. w.now) words.now)) }
{
    match words {
        [_, rest @ ..] => Ok(List::from_vec(copy_texts(alloc, rest)?)),
        [] => Ok(List::from_vec(Vec::new(alloc))),
    }
}

/// The files that were found after the first one.
fn inputs_in(alloc: Global, found: &ArgMatches) -> Result<List<Text>, NoMemory>
    ensures { IfOk result (λ ts. ts ≡ found_inputs (found_of found.now)) }
{
    match found.get_strs("files") {
        Some(files) => texts_after_first(alloc, files),
        None => Ok(List::from_vec(Vec::new(alloc))),
    }
}

/// The schedule of a command that takes none.
fn no_schedule(alloc: Global) -> Result<Bytes, NoMemory>
    ensures { IfOk result (λ b. b ≡ no_schedule_of) }
{
    Ok(Bytes::from_vec(vec![in alloc; 0u8]?))
}

/// The options of a run, by what was found but for the input, the limit of reports and the schedule, which are given.
fn options_with(
    alloc: Global,
    found: &ArgMatches,
    input: Option<Text>,
    reports: u32,
    schedule: Bytes,
) -> Result<Options, NoMemory>
    requires { FitsRun (found_value (found_of found.now)) }
    ensures { IfOk result (λ o. o ≡ record (options_by (found_value (found_of found.now))) { input = input; reports = reports; schedule = schedule }) }
{
    let fill = bytes_in(alloc, found, OptionName::Fill)?;
    Ok(Options {
        input,
        fill,
        steps: number_in(found, OptionName::Steps),
        reports,
        schedule,
        locations: is_set(found, OptionName::Where),
        calls: is_set(found, OptionName::Calls),
        once: is_set(found, OptionName::Once),
    })
}

/// The options of a run, by what was found but for the limit of reports and the schedule, which are given.
fn options_in(
    alloc: Global,
    found: &ArgMatches,
    reports: u32,
    schedule: Bytes,
) -> Result<Options, NoMemory>
    requires { FitsRun (found_value (found_of found.now)) }
    ensures { IfOk result (λ o. o ≡ record (options_by (found_value (found_of found.now))) { reports = reports; schedule = schedule }) }
{
    let input = text_in(alloc, found, OptionName::Input)?;
    options_with(alloc, found, input, reports, schedule)
}

/// The number that `--reports` was found with: the limit of reports.
fn reports_in(found: &ArgMatches) -> u32
    requires { FitsReports (found_value (found_of found.now)) }
    ensures { result ≡ number_by (found_value (found_of found.now) OptionName.Reports) }
{
    small_number_in(found, OptionName::Reports)
}

/// The file with the options of a run, by what was found but for the limit of reports and the schedule, which are given.
fn file_and_options(
    alloc: Global,
    found: &ArgMatches,
    reports: u32,
    schedule: Bytes,
) -> Result<(Text, Options), NoMemory>
    requires { FitsRun (found_value (found_of found.now)) }
    ensures { IfOk result (λ r. r ≡ (found_file (found_of found.now), record (options_by (found_value (found_of found.now))) { reports = reports; schedule = schedule })) }
{
    let options = options_in(alloc, found, reports, schedule)?;
    let file = file_in(alloc, found)?;
    Ok((file, options))
}

/// The file and the options of a run, by what was found.
fn run_in(alloc: Global, found: &ArgMatches) -> Result<(Text, Options), NoMemory>
    requires { FitsScheduled (found_value (found_of found.now)) }
    ensures { IfOk result (λ r. r ≡ (found_file (found_of found.now), options_by (found_value (found_of found.now)))) }
{
    let schedule = bytes_in(alloc, found, OptionName::Schedule)?;
    file_and_options(alloc, found, reports_in(found), schedule)
}

/// What checks a module, under several schedules where the option was found.
fn check_in(alloc: Global, found: &ArgMatches) -> Result<Command, NoMemory>
    requires { FitsCheck (found_value (found_of found.now)) }
    ensures { IfOk result (λ c. c ≡ command_by CommandName.Check (found_value (found_of found.now)) (found_file (found_of found.now)) (found_inputs (found_of found.now))) }
{
    let (file, options) = run_in(alloc, found)?;
    match found.get_str(OptionName::Schedules.word()) {
        Some(_) => Ok(Command::CheckSchedules {
            file,
            options,
            runs: runs_in(found),
            workers: workers_in(found),
        }),
        None => Ok(Command::Check { file, options }),
    }
}

/// The file and the options of a run to be explained, by what was found.
fn explained_in(alloc: Global, found: &ArgMatches) -> Result<(Text, Options), NoMemory>
    requires { FitsRun (found_value (found_of found.now)) }
    ensures { IfOk result (λ r. r ≡ (found_file (found_of found.now), explain_options_by (found_value (found_of found.now)))) }
{
    let schedule = no_schedule(alloc)?;
    let (file, mut options) = file_and_options(alloc, found, 1, schedule)?;
    options.once = false;
    Ok((file, options))
}

/// The options of the runs of a corpus, by what was found.
fn corpus_options(alloc: Global, found: &ArgMatches) -> Result<Options, NoMemory>
    requires { FitsReports (found_value (found_of found.now)) }
    ensures { IfOk result (λ o. o ≡ corpus_options_by (found_value (found_of found.now))) }
{
    let schedule = no_schedule(alloc)?;
    options_with(alloc, found, None, reports_in(found), schedule)
}

/// What runs a module on many inputs, by what was found.
fn corpus_in(alloc: Global, found: &ArgMatches) -> Result<Command, NoMemory>
    requires { FitsCorpus (found_value (found_of found.now)) }
    ensures { IfOk result (λ c. c ≡ command_by CommandName.Corpus (found_value (found_of found.now)) (found_file (found_of found.now)) (found_inputs (found_of found.now))) }
{
    let file = file_in(alloc, found)?;
    let inputs = inputs_in(alloc, found)?;
    let options = corpus_options(alloc, found)?;
    Ok(Command::Corpus {
        file,
        inputs,
        options,
        workers: workers_in(found),
    })
}

/// What generates a module, by what was found.
fn generating(found: &ArgMatches) -> Command
    requires { FitsGen (found_value (found_of found.now)) }
    ensures { result ≡ command_by CommandName.Gen (found_value (found_of found.now)) (found_file (found_of found.now)) (found_inputs (found_of found.now)) }
{
    Command::Gen {
        seed: number_in(found, OptionName::Seed),
        functions: small_number_in(found, OptionName::Functions),
        run: is_set(found, OptionName::Run),
    }
}

/// The command with the fields that `clap` found.
pub fn command_in(
    alloc: Global,
    command: CommandName,
    found: &ArgMatches,
) -> Result<Command, NoMemory>
    requires { Fits command (found_value (found_of found.now)) }
    ensures { IfOk result (λ c. c ≡ command_by command (found_value (found_of found.now)) (found_file (found_of found.now)) (found_inputs (found_of found.now))) }
{
    match command {
        CommandName::Instrument => {
            let file = file_in(alloc, found)?;
            Ok(Command::Instrument { file })
        }
        CommandName::Run => {
            let (file, options) = run_in(alloc, found)?;
            Ok(Command::Run { file, options })
        }
        CommandName::Check => check_in(alloc, found),
        CommandName::Explain => {
            let (file, options) = explained_in(alloc, found)?;
            Ok(Command::Explain { file, options })
        }
        CommandName::Corpus => corpus_in(alloc, found),
        CommandName::Gen => Ok(generating(found)),
    }
}
