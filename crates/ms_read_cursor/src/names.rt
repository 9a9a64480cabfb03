//! Names where they are written (LLVM Language Reference, "Identifiers"), and which are kept for what is inserted. `form` says
//! which texts are read, a program or one with inserted code.

ghost use Rattle.std.specs.Prelude.{◌≡◌, ◌⊎◌};
ghost use Rattle.ms_text_grammar.specs.Lexemes.{name_in};
ghost use Rattle.ms_text_grammar.specs.Names as spec;
ghost use Rattle.ms_lex.specs.Numbers.{decimal};
ghost use Rattle.ms_read_cursor.specs.Reading.{Gives, Judges, run};

use crate::cursor::Tokens;
use crate::lexemes::Lexeme;
use ms_bits::SmallBytes;
use ms_ir::spelling::{is_inserted, is_reserved};
use ms_ir::{Form, Name, RuntimeFn, is_slot};
use ms_text_grammar::{Cause, Limit, Symbol};
use std::alloc::Global;

/// Whether a global or a function can't have this name in a text of the form.
#[tactic(auto, unfolding(ms_text_grammar::specs::Names::reserved_global))]
pub fn reserved_global(form: Form, text: &[u8]) -> bool
    ensures { result ≡ spec.reserved_global form text.now }
{
    match form {
        Form::Plain => is_reserved(text),
        Form::Instrumented => {
            is_reserved(text) && !(RuntimeFn::spelled(text).is_some() || is_slot(text))
        },
    }
}

/// Whether a local or a block can't have this name in a text of the form.
#[tactic(auto, unfolding(ms_text_grammar::specs::Names::reserved_local))]
pub fn reserved_local(form: Form, text: &[u8]) -> bool
    ensures { result ≡ spec.reserved_local form text.now }
{
    match form {
        Form::Plain => is_reserved(text),
        Form::Instrumented => is_reserved(text) && !is_inserted(text),
    }
}

/// Whether a name is of at most 1024 bytes.
#[tactic(auto, unfolding(ms_text_grammar::specs::Names::name_fits))]
pub fn name_fits(text: &[u8]) -> bool
    ensures { result ≡ spec.name_fits text.now }
{
    text.len() <= 1024
}

/// A name of text, unless it is reserved or too long.
fn text_name(reserved: bool, text: SmallBytes) -> Result<Name, Cause>
    ensures { Judges (spec.text_name reserved text) result }
{
    if reserved {
        return Err(Cause::Reserved);
    }
    if name_fits(text.as_slice()) {
        Ok(Name::Text(text))
    } else {
        Err(Cause::Limit(Limit::Name))
    }
}

/// The name of a global that a token spells.
///
/// # Errors
///
/// `Reserved` where the form doesn't have it, or else `Limit(Name)` where it is of more than 1024 bytes.
pub fn global_name(alloc: Global, form: Form, token: &Lexeme<'_>) -> Result<Name, Cause>
    ensures { Judges (spec.global_name form (name_in token.now)) result }
{
    let text = token.small_name(alloc)?;
    let reserved = reserved_global(form, text.as_slice());
    Ok(text_name(reserved, text)?)
}

/// The name of a local or a block that a token spells in text. Its errors are those of `global_name`.
pub fn local_name(alloc: Global, form: Form, token: &Lexeme<'_>) -> Result<Name, Cause>
    ensures { Judges (spec.local_name form (name_in token.now)) result }
{
    let text = token.small_name(alloc)?;
    let reserved = reserved_local(form, text.as_slice());
    Ok(text_name(reserved, text)?)
}

/// The number that a numbered local or label is, as a name.
///
/// # Errors
///
/// `Numbering` where it is above 2^32 - 1.
pub fn number_name(token: &Lexeme<'_>) -> Result<Name, Cause>
    requires { (token.now.symbol ≡ Symbol.NumberedLocal) ⊎ (token.now.symbol ≡ Symbol.NumberedLabel) }
    ensures { Judges (spec.number_name (decimal (name_in token.now))) result }
{
    match token.numeral() {
        Some(n) => {
            if n < 1 << 32 {
                Ok(Name::Number(n as u32))
            } else {
                Err(Cause::Numbering)
            }
        }
        None => Err(Cause::Numbering),
    }
}

/// The name of the local that a token is: a name or a number.
pub fn local_by(alloc: Global, form: Form, token: &Lexeme<'_>) -> Result<Name, Cause>
    ensures { Judges (spec.local_by form token.now.symbol token.now) result }
{
    match token.symbol() {
        Symbol::Local => Ok(local_name(alloc, form, token)?),
        Symbol::NumberedLocal => Ok(number_name(token)?),
        _ => Err(token.refusal()),
    }
}

/// The name of the global that a token is.
pub fn global_by(alloc: Global, form: Form, token: &Lexeme<'_>) -> Result<Name, Cause>
    ensures { Judges (spec.global_by form token.now.symbol token.now) result }
{
    match token.symbol() {
        Symbol::Global => Ok(global_name(alloc, form, token)?),
        _ => Err(token.refusal()),
    }
}

/// Takes a local that is used.
#[tactic(auto, unfolding(ms_text_grammar::specs::Names::local))]
pub fn local(tokens: &mut Tokens<'_>, form: Form) -> Result<Name, Cause>
    ensures { Gives (run (spec.local form) tokens.old) result tokens.new }
{
    let name = local_by(tokens.alloc(), form, &tokens.lexeme())?;
    tokens.advance();
    Ok(name)
}

/// Takes a global that is used, or the name of a function.
#[tactic(auto, unfolding(ms_text_grammar::specs::Names::global))]
pub fn global(tokens: &mut Tokens<'_>, form: Form) -> Result<Name, Cause>
    ensures { Gives (run (spec.global form) tokens.old) result tokens.new }
{
    let name = global_by(tokens.alloc(), form, &tokens.lexeme())?;
    tokens.advance();
    Ok(name)
}
