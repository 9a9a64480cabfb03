//! Writes numbers, and integers of a type ("Simple Constants" of the LLVM Language Reference).
ghost use Rattle.std.specs.Prelude.{◌≡◌, [], ◌∷◌, IfOk};
ghost use Rattle.ms_bits.specs.Signed.{signed};
ghost use Rattle.ms_text_grammar.specs.{LayoutNames.{signed_text, number_token, count_token}, LayoutValues.{integer_token}};
ghost use Rattle.ms_write_values.specs.{Parts.{signed_digits}, Sheets.{put}};

use crate::writer::Writer;
use ms_bits::NoMemory;
use ms_bits::words::limit;

/// How far below zero a word of so many bits is as a signed number; none where it isn't.
fn below_zero(width: u8, value: u64) -> Option<u64>
    ensures { signed_text (signed width value) ≡ signed_digits value result }
{
    if width > 64 {
        return None;
    }
    let limit = limit(width);
    let value = value as u128;
    if 2 * value < limit {
        return None;
    }
    Some(((limit - 1).saturating_sub(value) + 1) as u64)
}

impl Writer {
    /// Writes a number without a type.
    pub fn count(&mut self, number: u64) -> Result<(), NoMemory>
        ensures { IfOk result (λ _. self.new ≡ put self.old (count_token number ∷ [])) }
    {
        self.number_text(number)
    }

    /// Writes a word of an integer type of so many bits as a signed number.
    #[tactic(auto, unfolding(ms_text_grammar::specs::LayoutNames::number_token))]
    pub fn number(&mut self, width: u8, value: u64) -> Result<(), NoMemory>
        ensures { IfOk result (λ _. self.new ≡ put self.old (number_token width value ∷ [])) }
    {
        match below_zero(width, value) {
            None => self.number_text(value)?,
            Some(far) => {
                self.begin(b'-')?;
                self.digits(far)?;
            }
        }
        Ok(())
    }

    /// Writes a word of an integer type: a single bit as a truth value, and others as numbers.
    pub fn integer(&mut self, width: u8, value: u64) -> Result<(), NoMemory>
        ensures { IfOk result (λ _. self.new ≡ put self.old (integer_token width value ∷ [])) }
    {
        if width != 1 {
            self.number(width, value)?;
        } else if value == 0 {
            self.token(b"false")?;
        } else {
            self.token(b"true")?;
        }
        Ok(())
    }
}
