//! What a module says of its source and its target (LLVM Language Reference, "Source Filename", "Data Layout", "Target
//! Triple"), which is read over.

ghost use Rattle.std.specs.Prelude.{◌||◌, if◌then◌else◌, Err, Ok};
ghost use Rattle.ms_text_grammar.specs.{Lexemes.{is}, Steps.{refusal}};
ghost use Rattle.ms_text_grammar.specs.Modules as spec;
ghost use Rattle.ms_read_cursor.specs.Reading.{Gives, Judges, run};

use ms_read_cursor::{Lexeme, Tokens};
use ms_text_grammar::{Cause, Symbol};

/// Reads `=` and a string, after `source_filename`.
///
/// # Errors
///
/// `Syntax` or `Outside` at a token that is another.
#[tactic(auto, unfolding(ms_text_grammar::specs::Modules::source_filename))]
pub fn source_filename(tokens: &mut Tokens<'_>) -> Result<(), Cause>
    ensures { Gives (run spec.source_filename tokens.old) result tokens.new }
{
    tokens.word(Symbol::Equals)?;
    tokens.word(Symbol::Str)
}

/// That a token is one of two symbols, or why it can't stand.
pub fn either(token: &Lexeme<'_>, one: Symbol, other: Symbol) -> Result<(), Cause>
    ensures { Judges (if is one token.now || is other token.now then Ok tt else Err (refusal token.now)) result }
{
    if token.is(one) || token.is(other) {
        Ok(())
    } else {
        Err(token.refusal())
    }
}

/// Reads `datalayout` or `triple`, `=` and a string, after `target`.
///
/// # Errors
///
/// `Syntax` or `Outside` at a token that is another.
#[tactic(auto, unfolding(ms_text_grammar::specs::Modules::target_entity))]
pub fn target_entity(tokens: &mut Tokens<'_>) -> Result<(), Cause>
    ensures { Gives (run spec.target_entity tokens.old) result tokens.new }
{
    either(&tokens.lexeme(), Symbol::DataLayout, Symbol::Triple)?;
    tokens.advance();
    tokens.word(Symbol::Equals)?;
    tokens.word(Symbol::Str)
}
