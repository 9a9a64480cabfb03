//! Written numbers by their types (LLVM Language Reference, "Simple Constants").

ghost use Rattle.std.specs.Prelude.{◌≡◌, ◌≤◌, ◌<◌, ◌^◌, IfOk};
ghost use Rattle.ms_bits.specs.Signed.{wrap};
ghost use Rattle.ms_text_grammar.specs.Values as spec;
ghost use Rattle.ms_read_cursor.specs.Reading.{Gives, Judges, run};
ghost use Rattle.ms_read_values.specs.Narrow.{IsWidth};

use ms_bits::words::limit;
use ms_read_cursor::{Lexeme, Tokens};
use ms_text_grammar::{Cause, Symbol};

/// Whether a number is one of an integer type: from -2^(width - 1) to 2^width - 1.
fn fits(width: u8, number: i128) -> bool
    requires { IsWidth width }
    ensures { result ≡ spec.fits width number }
{
    if number < 0 {
        ((-(number + 1)) as u128) < limit(width - 1)
    } else {
        (number as u128) < limit(width)
    }
}

/// The number modulo 2^width.
#[tactic(auto, unfolding(ms_bits::specs::Signed::wrap))]
fn wrapped(width: u8, number: i128) -> u64
    requires { IsWidth width }
    ensures { result ≡ wrap width number }
{
    let limit = limit(width);
    if number < 0 {
        (limit - 1 - (-(number + 1)) as u128 % limit) as u64
    } else {
        (number as u128 % limit) as u64
    }
}

/// The number that a token spells, kept modulo 2^width.
#[tactic(auto, using(crate::proofs::Fits::wide_misfits))]
pub fn number_by(width: u8, token: &Lexeme<'_>) -> Result<u64, Cause>
    requires { IsWidth width }
    ensures { Judges (spec.number_by width token.now) result }
{
    match token.number() {
        Some(number) => {
            if fits(width, number) {
                Ok(wrapped(width, number))
            } else {
                Err(token.refusal())
            }
        }
        None => Err(token.refusal()),
    }
}

/// The number that a token is, kept modulo 2^width.
fn number_of(width: u8, token: &Lexeme<'_>) -> Result<u64, Cause>
    requires { IsWidth width }
    ensures { Judges (spec.number_of width token.now) result }
{
    if token.is(Symbol::Number) {
        number_by(width, token)
    } else {
        Err(token.refusal())
    }
}

/// Takes a number of an integer type, kept modulo 2^width.
///
/// # Errors
///
/// `Syntax` where the type doesn't have it.
#[tactic(auto, unfolding(ms_text_grammar::specs::Values::number))]
pub fn number(tokens: &mut Tokens<'_>, width: u8) -> Result<u64, Cause>
    requires { IsWidth width }
    ensures { Gives (run (spec.number width) tokens.old) result tokens.new }
{
    let n = number_of(width, &tokens.lexeme())?;
    tokens.advance();
    Ok(n)
}
