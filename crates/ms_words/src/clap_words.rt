//! Accepted words, read by `clap`: they are spelled in one form, in which its result is known for every value. `app_for command`
//! is the command as it is described to `clap`, each of its options and its files by a rule; `spelled` are the words in that
//! form, and `matches_of` what `clap` finds in them.
ghost use Rattle.std.specs.Prelude.{◌≡◌, ◌++◌, ◌∷◌, [], true, false, Some as Held, IfOk, map, option_map, string_bytes};
ghost use Rattle.clap.specs.Words.{rule_of, app_of, rows_of, found_of, matches_of, takes as takes_words};
ghost use Rattle.ms_words.specs.ClapForm.{option_rule, files_rule, app_for, spelled, spelled_option, spelled_options};

use crate::names::{CommandName, OptionName};
use crate::reading::Accepted;
use clap::error::ErrorKind;
use clap::{Arg, ArgAction, ArgMatches};
use ms_bits::{NoMemory, Text};
use std::alloc::{AllocError, Global};

/// An option as it is described to `clap`: by its long name, with a value or without.
fn option_arg<'a>(alloc: Global, option: OptionName) -> Arg<'a>
    ensures rule { rule_of result ≡ option_rule option }
    ensures local { result.global ≡ false }
{
    let word: &'a str = option.word();
    let arg = Arg::new(alloc, word).long(word);
    if option.takes_nothing() {
        arg.action(ArgAction::SetTrue)
    } else {
        arg
    }
}

/// The files as they are described to `clap`: one or more.
fn files_arg<'a>(alloc: Global) -> Arg<'a>
    ensures rule { rule_of result ≡ files_rule }
    ensures local { result.global ≡ false }
{
    let word: &'a str = "files";
    Arg::new(alloc, word).num_args(1..)
}

/// A command as it is described to `clap`: its options, and its files.
fn clap_command<'a>(alloc: Global, command: CommandName) -> Result<clap::Command<'a>, NoMemory>
    ensures { IfOk result (λ c. app_of c ≡ app_for command) }
{
    let word: &'a str = command.word();
    let mut built = clap::Command::new(alloc, word);
    for option in command.options() {
        built = built.arg(option_arg(alloc, *option))?;
    }
    Ok(built.arg(files_arg(alloc))?)
}

/// `--name=VALUE`, or `--name` where the option takes no value.
fn option_text(alloc: Global, option: OptionName, value: &str) -> Result<String, NoMemory>
    ensures { IfOk result (λ t. string_bytes t ∷ [] ≡ spelled_option option (Held value.now)) }
{
    let mut word = String::from_str(alloc, "--")?;
    word.push_str(option.word())?;
    if !option.takes_nothing() {
        word.push_str("=")?;
        word.push_str(value)?;
    }
    Ok(word)
}

/// Adds a copy of the word after the others.
fn push_word(alloc: Global, words: &mut Vec<String>, word: &str) -> Result<(), NoMemory>
    ensures { IfOk result (λ _. map string_bytes words.new.items ≡ map string_bytes words.old.items ++ word.now ∷ []) }
{
    words.push(String::from_str(alloc, word)?)?;
    Ok(())
}

/// Adds the option after the words, where it has a value.
fn push_option(
    alloc: Global,
    words: &mut Vec<String>,
    option: OptionName,
    value: Option<&str>,
) -> Result<(), NoMemory>
    ensures { IfOk result (λ _. map string_bytes words.new.items ≡ map string_bytes words.old.items ++ spelled_option option (option_map (λ v. v.now) value.entry)) }
{
    if let Some(value) = value {
        words.push(option_text(alloc, option, value)?)?;
    }
    Ok(())
}

/// Adds each of the options after the words.
fn push_options(
    alloc: Global,
    words: &mut Vec<String>,
    options: &[OptionName],
    accepted: &Accepted,
) -> Result<(), NoMemory>
    ensures { IfOk result (λ _. map string_bytes words.new.items ≡ map string_bytes words.old.items ++ spelled_options options.now accepted.now) }
{
    for option in options {
        push_option(alloc, words, *option, accepted.value(*option))?;
    }
    Ok(())
}

/// Adds the files after the words.
fn push_files(alloc: Global, words: &mut Vec<String>, files: &[Text]) -> Result<(), NoMemory>
    ensures { IfOk result (λ _. map string_bytes words.new.items ≡ map string_bytes words.old.items ++ files.now) }
{
    for file in files {
        push_word(alloc, words, file.as_str())?;
    }
    Ok(())
}

/// Accepted words in one form: the command, its options with their values or defaults, `--`, and the files.
pub fn spell(
    alloc: Global,
    command: CommandName,
    accepted: &Accepted,
) -> Result<Vec<String>, NoMemory>
    ensures { IfOk result (λ v. map string_bytes v.items ≡ spelled command accepted.now) }
{
    let mut words = Vec::new(alloc);
    push_word(alloc, &mut words, command.word())?;
    push_options(alloc, &mut words, command.options(), accepted)?;
    push_word(alloc, &mut words, "--")?;
    push_files(alloc, &mut words, accepted.files())?;
    Ok(words)
}

/// What `clap` finds in words that the command takes.
pub fn matches<'a>(
    alloc: Global,
    command: CommandName,
    words: &'a [String],
) -> Result<ArgMatches<'a>, NoMemory>
    requires { takes_words (app_for command) (map string_bytes words.now) ≡ true }
    ensures { IfOk result (λ m. rows_of (found_of m) ≡ matches_of (app_for command) (map string_bytes words.entry.now)) }
{
    match clap_command(alloc, command)?.try_get_matches_from(words) {
        Ok(found) => Ok(found),
        Err(error) => {
            let wants_memory = error.kind() == ErrorKind::OutOfMemory;
            prove!(wants_memory);
            Err(AllocError)
        }
    }
}
