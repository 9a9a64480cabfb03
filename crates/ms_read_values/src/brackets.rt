//! Reads over tokens in which brackets match: arguments of attributes, metadata, debug records.

ghost use Rattle.ms_text_grammar.specs.Skipped as spec;
ghost use Rattle.ms_read_cursor.specs.Reading.{Gives, Judges, run};

use crate::open_brackets::{Awaited, is_closer};
use ms_ir::Form;
use ms_read_cursor::{Lexeme, Tokens, Turn, global_name, local_name, repeat};
use ms_text_grammar::{Cause, Symbol};
use std::alloc::Global;

/// That a token may be read over: every one may, but a name is judged also there.
fn may_skip(alloc: Global, form: Form, token: &Lexeme<'_>) -> Result<bool, Cause>
    ensures { Judges (spec.may_skip form token.now.symbol token.now) result }
{
    match token.symbol() {
        Symbol::Global => {
            global_name(alloc, form, token)?;
            Ok(true)
        }
        Symbol::Local | Symbol::Label => {
            local_name(alloc, form, token)?;
            Ok(true)
        }
        _ => Ok(true),
    }
}

/// Token after token, but for a closing bracket that nothing awaits.
#[derive(Clone, Copy)]
struct Between {
    form: Form,
}

impl Turn for Between {
    type State = Awaited;

    ghost use Rattle.ms_text_grammar.specs.Skipped.{balanced_begins, balanced_turn};

    ghost begins = { λ rule. balanced_begins rule.form };

    ghost body = { λ rule. balanced_turn };

    fn goes_on(&self, state: &Awaited, tokens: &Tokens<'_>) -> Result<bool, Cause> {
        let symbol = tokens.peek();
        if is_closer(symbol) {
            Ok(state.awaits(symbol))
        } else {
            may_skip(tokens.alloc(), self.form, &tokens.lexeme())
        }
    }

    fn turn(&self, state: Awaited, tokens: &mut Tokens<'_>) -> Result<Awaited, Cause> {
        let symbol = tokens.peek();
        tokens.advance();
        let mut state = state;
        state.take(symbol)?;
        Ok(state)
    }
}

/// Reads tokens in which brackets match, up to and with a closing bracket.
///
/// # Errors
///
/// At the first token that can't stand: `Reserved` at a name that the form doesn't have, `Limit(Name)` at one that is too
/// long, and `Syntax` at another closing bracket or at the end of the text.
#[tactic(auto, unfolding(ms_text_grammar::specs::Skipped::balanced))]
pub fn balanced(tokens: &mut Tokens<'_>, form: Form, closing: Symbol) -> Result<(), Cause>
    ensures { Gives (run (spec.balanced form closing) tokens.old) result tokens.new }
{
    let awaited = repeat(tokens, &Between { form }, Awaited::nothing(tokens.alloc()))?;
    if !awaited.is_nothing() {
        return Err(tokens.refusal());
    }
    tokens.word(closing)
}

/// Reads `(` and tokens in which brackets match up to `)`, where `(` comes next. Its errors are those of `balanced`.
#[tactic(auto, unfolding(ms_text_grammar::specs::Skipped::in_parens))]
pub fn in_parens(tokens: &mut Tokens<'_>, form: Form) -> Result<(), Cause>
    ensures { Gives (run (spec.in_parens form) tokens.old) result tokens.new }
{
    if tokens.sees(Symbol::OpenParen) {
        tokens.advance();
        balanced(tokens, form, Symbol::CloseParen)?;
    }
    Ok(())
}
