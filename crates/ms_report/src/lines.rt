//! How the lines of refusals begin: with the word `refused`, and the number of the cause.
ghost use Rattle.std.specs.Prelude.{◌≡◌, ◌++◌, IfOk, codes, decimal};
ghost use Rattle.ms_report.specs.FaultTexts.{refused_line};

use ms_bits::NoMemory;
use ms_write_values::push_number;

/// Begins the line of the refusal with a number.
pub fn begin_line(text: &mut Vec<u8>, number: u8) -> Result<(), NoMemory>
    ensures { IfOk result (λ _. text.new.items ≡ text.old.items ++ (codes "refused " ++ decimal number ++ codes ": ")) }
{
    text.extend_from_slice(b"refused ")?;
    push_number(text, number as u64)?;
    text.extend_from_slice(b": ")
}

/// Adds the line of a refusal that says no more than its cause.
pub fn push_cause(text: &mut Vec<u8>, number: u8, cause: &[u8]) -> Result<(), NoMemory>
    ensures { IfOk result (λ _. text.new.items ≡ text.old.items ++ refused_line number cause.now) }
{
    begin_line(text, number)?;
    text.extend_from_slice(cause)?;
    text.push(b'\n')?;
    Ok(())
}
