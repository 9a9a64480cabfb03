//! The usage, which `help` prints, made from the rows of commands and options; and the version. What is added is added to the
//! text so far.
ghost use Rattle.std.specs.Prelude.{◌≡◌, ◌++◌, IfOk, decimal, map};
ghost use Rattle.ms_words.specs.Table.{default_of, least_files, most_files, options};
ghost use Rattle.ms_words.specs.Usage.{about_command, about_option, about_topic, value_name, bounds_text, default_text, option_form, first_column, option_about, option_line, option_lines, up_to_column, is_wanted, option_use, option_uses, files_text, inputs_text, synopsis, command_about, command_lines, all_command_lines, topic_words, topic_line, topic_lines, lines_of, commands_text, options_text, statuses, statuses_text, usage as usage_text, version_line};

use crate::names::{COMMANDS, CommandName, OPTIONS, OptionName, Takes};
use crate::topics::{TOPICS, Topic};
use itoa::Buffer;
use ms_bits::NoMemory;
use std::alloc::Global;

/// The version of the program, which is written here alone.
const VERSION_LINE: &[u8] = b"msan 0.2.0\n";

/// Spaces up to the second column.
const COLUMN: &[u8] = b"                ";

/// What each status of the program says.
static STATUSES: [&str; 11] = [
    "   0  done: a run ended without a report, or a text is written",
    "   2  the words are no command",
    "   3  a run trapped",
    "   4  a run used up its steps",
    "   5  the module is refused",
    "   6  a file can't be read",
    "   7  writing failed",
    "   8  out of memory",
    "   9  a file is too long",
    "  10  the system doesn't give the words",
    "  77  a run has a report",
];

impl CommandName {
    /// What it does, as the usage says.
    fn about(self) -> &'static str
        ensures { result.now ≡ about_command self }
    {
        match self {
            CommandName::Instrument => {
                "write the module in FILE with inserted code, which run takes"
            }
            CommandName::Run => "run the module in FILE as it is",
            CommandName::Check => {
                "run the module in FILE with inserted code and report uses of uninitialised memory"
            }
            CommandName::Explain => {
                "check the module in FILE and print the way that the bits of the first report took"
            }
            CommandName::Corpus => "check the module in FILE with each INPUT as its standard input",
            CommandName::Gen => "write a generated module",
        }
    }
}

impl OptionName {
    /// What its value is, or what it does, as the usage says.
    fn about(self) -> &'static str
        ensures { result.now ≡ about_option self }
    {
        match self {
            OptionName::Input => "file with the bytes of standard input, which is empty without it",
            OptionName::Fill => "bytes of uninitialised memory, two digits each",
            OptionName::Steps => "greatest number of steps of a run",
            OptionName::Reports => "number of reports at which a run ends",
            OptionName::Schedule => "bytes that pick the threads that go on, two digits each",
            OptionName::Schedules => "greatest number of schedules that are tried, one run each",
            OptionName::Workers => "inputs or schedules that are run at once",
            OptionName::Seed => "number that the module is made from",
            OptionName::Functions => "number of functions beside main",
            OptionName::Run => "check the module instead of writing it",
            OptionName::Where => {
                "below each line that names a site, print where it stands in FILE and in the source"
            }
            OptionName::Calls => {
                "below each report and trap, print the calls that stand there, the innermost first"
            }
            OptionName::Once => {
                "neither report nor count a use of the same site, kind and part as one before it"
            }
        }
    }
}

impl Topic {
    /// What the program does where it is asked for, as the usage says.
    fn about(self) -> &'static str
        ensures { result.now ≡ about_topic self }
    {
        match self {
            Topic::Help => "print this text",
            Topic::Version => "print the version",
        }
    }
}

impl Takes {
    /// The name of a value, after a space.
    fn value_name(self) -> &'static str
        ensures { result.now ≡ value_name self }
    {
        match self {
            Takes::Nothing => "",
            Takes::Anything => " FILE",
            Takes::Hex { .. } => " HEX",
            Takes::Number { .. } => " N",
        }
    }
}

/// Adds a text, as bytes.
fn push_text(text: &mut Vec<u8>, more: &str) -> Result<(), NoMemory>
    ensures { IfOk result (λ _. text.new.items ≡ text.old.items ++ more.now) }
{
    text.extend_from_slice(more.as_bytes())
}

/// Adds a number in decimal digits.
fn push_number(text: &mut Vec<u8>, number: u64) -> Result<(), NoMemory>
    ensures { IfOk result (λ _. text.new.items ≡ text.old.items ++ decimal number) }
{
    let mut buffer = Buffer::new();
    text.extend_from_slice(buffer.format(number).as_bytes())
}

/// Adds an option with the name of its value: `--steps N`.
fn push_form(text: &mut Vec<u8>, option: OptionName) -> Result<(), NoMemory>
    ensures { IfOk result (λ _. text.new.items ≡ text.old.items ++ option_form option) }
{
    push_text(text, "--")?;
    push_text(text, option.word())?;
    push_text(text, option.takes().value_name())
}

/// Adds the least and the greatest value that an option takes.
fn push_bounds(text: &mut Vec<u8>, takes: Takes) -> Result<(), NoMemory>
    ensures { IfOk result (λ _. text.new.items ≡ text.old.items ++ bounds_text takes) }
{
    match takes {
        Takes::Nothing => Ok(()),
        Takes::Anything => Ok(()),
        Takes::Hex { most } => {
            push_text(text, ": 1 to ")?;
            push_number(text, most as u64)?;
            push_text(text, " bytes")
        }
        Takes::Number { least, most } => {
            push_text(text, ": ")?;
            push_number(text, least)?;
            push_text(text, " to ")?;
            push_number(text, most)
        }
    }
}

/// Adds the value that an option has where it isn't given.
fn push_default(text: &mut Vec<u8>, option: OptionName) -> Result<(), NoMemory>
    ensures { IfOk result (λ _. text.new.items ≡ text.old.items ++ default_text (default_of option)) }
{
    match option.default_value() {
        Some(value) => {
            push_text(text, ", default ")?;
            push_text(text, value)
        }
        None => Ok(()),
    }
}

/// The spaces from a byte of the first column up to the second one.
fn padding(from: usize) -> &'static [u8]
    ensures { result.now ≡ up_to_column from }
{
    COLUMN.get(from..).unwrap_or(b"")
}

/// Adds an option and spaces up to the second column.
fn push_first_column(alloc: Global, text: &mut Vec<u8>, option: OptionName) -> Result<(), NoMemory>
    ensures { IfOk result (λ _. text.new.items ≡ text.old.items ++ first_column option) }
{
    let mut form = Vec::new(alloc);
    push_form(&mut form, option)?;
    text.extend_from_slice(&form)?;
    text.extend_from_slice(padding(form.len()))
}

/// Adds the second column, to the end of the line.
fn push_about(text: &mut Vec<u8>, option: OptionName) -> Result<(), NoMemory>
    ensures { IfOk result (λ _. text.new.items ≡ text.old.items ++ option_about option) }
{
    push_text(text, option.about())?;
    push_bounds(text, option.takes())?;
    push_default(text, option)?;
    push_text(text, "\n")
}

/// Adds the line of an option.
fn push_option(alloc: Global, text: &mut Vec<u8>, option: OptionName) -> Result<(), NoMemory>
    ensures { IfOk result (λ _. text.new.items ≡ text.old.items ++ option_line option) }
{
    push_text(text, "  ")?;
    push_first_column(alloc, text, option)?;
    push_about(text, option)
}

/// Adds the lines of options.
fn push_options(alloc: Global, text: &mut Vec<u8>, options: &[OptionName]) -> Result<(), NoMemory>
    ensures { IfOk result (λ _. text.new.items ≡ text.old.items ++ option_lines options.now) }
{
    for option in options {
        push_option(alloc, text, *option)?;
    }
    Ok(())
}

/// Adds an option of a command, in brackets unless the command must have it.
fn push_use(text: &mut Vec<u8>, command: CommandName, option: OptionName) -> Result<(), NoMemory>
    ensures { IfOk result (λ _. text.new.items ≡ text.old.items ++ option_use (is_wanted command option) option) }
{
    if command.wants(option) {
        push_text(text, " ")?;
        push_form(text, option)
    } else {
        push_text(text, " [")?;
        push_form(text, option)?;
        push_text(text, "]")
    }
}

/// Adds options of a command.
fn push_uses(
    text: &mut Vec<u8>,
    command: CommandName,
    options: &[OptionName],
) -> Result<(), NoMemory>
    ensures { IfOk result (λ _. text.new.items ≡ text.old.items ++ option_uses command options.now) }
{
    for option in options {
        push_use(text, command, *option)?;
    }
    Ok(())
}

/// The files that a command takes, as the usage names them.
fn files_of(command: CommandName) -> &'static str
    ensures { result.now ≡ files_text (most_files command) }
{
    if command.most_files() > 1 {
        " FILE INPUT..."
    } else if command.most_files() > 0 {
        " FILE"
    } else {
        ""
    }
}

/// Adds how many inputs a command may have.
fn push_inputs(text: &mut Vec<u8>, command: CommandName) -> Result<(), NoMemory>
    ensures { IfOk result (λ _. text.new.items ≡ text.old.items ++ inputs_text (least_files command) (most_files command)) }
{
    let most = command.most_files();
    if most <= 1 {
        return Ok(());
    }
    push_text(text, ": ")?;
    push_number(text, command.least_files().saturating_sub(1) as u64)?;
    push_text(text, " to ")?;
    push_number(text, (most - 1) as u64)?;
    push_text(text, " inputs")
}

/// Adds the line with the words of a command.
fn push_synopsis(text: &mut Vec<u8>, command: CommandName) -> Result<(), NoMemory>
    ensures { IfOk result (λ _. text.new.items ≡ text.old.items ++ synopsis command) }
{
    push_text(text, "  msan ")?;
    push_text(text, command.word())?;
    push_uses(text, command, command.options())?;
    push_text(text, files_of(command))?;
    push_text(text, "\n")
}

/// Adds the line on what a command does.
fn push_command_about(text: &mut Vec<u8>, command: CommandName) -> Result<(), NoMemory>
    ensures { IfOk result (λ _. text.new.items ≡ text.old.items ++ command_about command) }
{
    push_text(text, "      ")?;
    push_text(text, command.about())?;
    push_inputs(text, command)?;
    push_text(text, "\n")
}

/// Adds the two lines of a command.
fn push_command(text: &mut Vec<u8>, command: CommandName) -> Result<(), NoMemory>
    ensures { IfOk result (λ _. text.new.items ≡ text.old.items ++ command_lines command) }
{
    push_synopsis(text, command)?;
    push_command_about(text, command)
}

/// Adds the lines of commands.
fn push_commands(text: &mut Vec<u8>, commands: &[CommandName]) -> Result<(), NoMemory>
    ensures { IfOk result (λ _. text.new.items ≡ text.old.items ++ all_command_lines commands.now) }
{
    for command in commands {
        push_command(text, *command)?;
    }
    Ok(())
}

/// Adds the three words that ask for a topic.
fn push_topic_words(text: &mut Vec<u8>, topic: Topic) -> Result<(), NoMemory>
    ensures { IfOk result (λ _. text.new.items ≡ text.old.items ++ topic_words topic) }
{
    push_text(text, topic.word())?;
    push_text(text, ", ")?;
    push_text(text, topic.long())?;
    push_text(text, ", ")?;
    push_text(text, topic.short())
}

/// Adds the line of a topic.
fn push_topic(text: &mut Vec<u8>, topic: Topic) -> Result<(), NoMemory>
    ensures { IfOk result (λ _. text.new.items ≡ text.old.items ++ topic_line topic) }
{
    push_text(text, "  msan ")?;
    push_topic_words(text, topic)?;
    push_text(text, ": ")?;
    push_text(text, topic.about())?;
    push_text(text, "\n")
}

/// Adds the lines of topics.
fn push_topics(text: &mut Vec<u8>, topics: &[Topic]) -> Result<(), NoMemory>
    ensures { IfOk result (λ _. text.new.items ≡ text.old.items ++ topic_lines topics.now) }
{
    for topic in topics {
        push_topic(text, *topic)?;
    }
    Ok(())
}

/// Adds texts as lines.
fn push_lines(text: &mut Vec<u8>, lines: &[&str]) -> Result<(), NoMemory>
    ensures { IfOk result (λ _. text.new.items ≡ text.old.items ++ lines_of (map (λ l. l.now) lines.now)) }
{
    for line in lines {
        push_text(text, line)?;
        push_text(text, "\n")?;
    }
    Ok(())
}

/// Adds the part of the usage on commands.
fn push_commands_text(text: &mut Vec<u8>) -> Result<(), NoMemory>
    ensures { IfOk result (λ _. text.new.items ≡ text.old.items ++ commands_text) }
{
    push_text(
        text,
        "msan finds uses of uninitialised memory in modules of LLVM assembly.\n\nCommands:\n",
    )?;
    push_commands(text, &COMMANDS)?;
    push_topics(text, &TOPICS)
}

/// Adds the lines of all options.
fn push_all_options(alloc: Global, text: &mut Vec<u8>) -> Result<(), NoMemory>
    ensures { IfOk result (λ _. text.new.items ≡ text.old.items ++ option_lines options) }
{
    push_options(alloc, text, &OPTIONS)
}

/// Adds the part of the usage on options.
fn push_options_text(alloc: Global, text: &mut Vec<u8>) -> Result<(), NoMemory>
    ensures { IfOk result (λ _. text.new.items ≡ text.old.items ++ options_text) }
{
    push_text(text, "\nOptions:\n")?;
    push_all_options(alloc, text)
}

/// Adds the lines of all statuses.
fn push_statuses(text: &mut Vec<u8>) -> Result<(), NoMemory>
    ensures { IfOk result (λ _. text.new.items ≡ text.old.items ++ lines_of statuses) }
{
    push_lines(text, &STATUSES)
}

/// Adds the part of the usage on statuses.
fn push_statuses_text(text: &mut Vec<u8>) -> Result<(), NoMemory>
    ensures { IfOk result (λ _. text.new.items ≡ text.old.items ++ statuses_text) }
{
    push_text(text, "\nStatus:\n")?;
    push_statuses(text)
}

/// The usage: each command with what it does and its options, each option with its bounds and its default, and the
/// statuses.
#[tactic(auto, unfolding(crate::specs::Usage::usage))]
pub fn usage(alloc: Global) -> Result<Vec<u8>, NoMemory>
    ensures { IfOk result (λ text. text.items ≡ usage_text) }
{
    let mut text = Vec::new(alloc);
    push_commands_text(&mut text)?;
    push_options_text(alloc, &mut text)?;
    push_statuses_text(&mut text)?;
    Ok(text)
}

/// The line with the name and the version of the program.
pub fn version(alloc: Global) -> Result<Vec<u8>, NoMemory>
    ensures { IfOk result (λ text. text.items ≡ version_line) }
{
    Vec::from_slice(alloc, VERSION_LINE)
}
