//! The line that says why words are no command.
ghost use Rattle.std.specs.Prelude.{◌≡◌, ◌++◌, IfOk};
ghost use Rattle.ms_report.specs.WordsTexts.{words_text};

use ms_bits::NoMemory;
use ms_write_values::push_number;
use std::alloc::Global;

/// Why words are no command.
#[derive(Clone, Copy, Debug, PartialEq, Eq)]
pub struct WordsFault {
    /// What is wrong, as it is printed.
    pub name: &'static str,
    /// The number of the word where it is, counted from 0; the number of words where one is missing.
    pub place: u32,
}

/// Adds the line of a fault.
fn push_words(text: &mut Vec<u8>, e: &WordsFault) -> Result<(), NoMemory>
    ensures { IfOk result (λ _. text.new.items ≡ text.old.items ++ words_text e.now.name.now e.now.place) }
{
    text.extend_from_slice(b"words: ")?;
    text.extend_from_slice(e.name.as_bytes())?;
    text.extend_from_slice(b" at ")?;
    push_number(text, e.place as u64)?;
    text.push(b'\n')?;
    Ok(())
}

/// The line `words: NAME at PLACE`, which says why words are no command.
pub fn words_line(alloc: Global, e: &WordsFault) -> Result<Vec<u8>, NoMemory>
    ensures { IfOk result (λ text. text.items ≡ words_text e.now.name.now e.now.place) }
{
    let mut text = Vec::new(alloc);
    push_words(&mut text, e)?;
    Ok(text)
}
