//! Reads what stands after the arguments of a call: attributes, perhaps a debug record, and what is attached.

ghost use Rattle.std.specs.Prelude.{◌≡◌};
ghost use Rattle.ms_text_grammar.specs.Insts as spec;
ghost use Rattle.ms_read_cursor.specs.Reading.{Gives, run};

use ms_ir::Form;
use ms_read_cursor::{Tokens, Turn, repeat};
use ms_read_values::{attribute_rest, balanced, is_attribute, suffixes_from};
use ms_text_grammar::{Cause, Outside, Symbol};

/// Reads on after a debug group. It is a record where `(` is after it, and else an attribute. Gives whether it is a record.
#[tactic(auto, unfolding(ms_text_grammar::specs::Insts::debug_rest))]
fn debug_rest(tokens: &mut Tokens<'_>, form: Form) -> Result<bool, Cause>
    ensures { Gives (run (spec.debug_rest form) tokens.old) result tokens.new }
{
    if !tokens.sees(Symbol::OpenParen) {
        return Ok(false);
    }
    tokens.advance();
    balanced(tokens, form, Symbol::CloseParen)?;
    Ok(true)
}

/// Reads on after the first token of an attribute or a record, which is this symbol. Gives whether it is a record.
fn call_attribute(tokens: &mut Tokens<'_>, form: Form, symbol: Symbol) -> Result<bool, Cause>
    ensures { Gives (run (spec.call_attribute form symbol) tokens.old) result tokens.new }
{
    match symbol {
        Symbol::DebugGroup => debug_rest(tokens, form),
        _ => {
            attribute_rest(tokens, form, symbol)?;
            Ok(false)
        }
    }
}

/// Attributes up to a record. The state is whether a record was read.
#[derive(Clone, Copy)]
struct CallAttributes {
    form: Form,
}

impl Turn for CallAttributes {
    type State = bool;

    ghost use Rattle.ms_text_grammar.specs.Insts.{call_attribute, call_attribute_begins};

    ghost begins = { λ rule. call_attribute_begins };

    ghost body = { λ rule ended t. call_attribute rule.form t.symbol };

    fn goes_on(&self, state: &bool, tokens: &Tokens<'_>) -> Result<bool, Cause> {
        Ok(!*state && is_attribute(tokens.peek()))
    }

    fn turn(&self, _state: bool, tokens: &mut Tokens<'_>) -> Result<bool, Cause> {
        let symbol = tokens.peek();
        tokens.advance();
        call_attribute(tokens, self.form, symbol)
    }
}

/// Reads what stands after the arguments of a call, and finds whether the mark is attached. A debug record ends the call:
/// it is a line of its own, and so is what stands after it.
///
/// # Errors
///
/// `Outside(OperandBundle)` at `[`, and those of its parts.
#[tactic(auto, unfolding(ms_text_grammar::specs::Insts::call_end))]
pub fn call_end(tokens: &mut Tokens<'_>, form: Form) -> Result<bool, Cause>
    ensures { Gives (run (spec.call_end form) tokens.old) result tokens.new }
{
    if repeat(tokens, &CallAttributes { form }, false)? {
        return Ok(false);
    }
    if tokens.sees(Symbol::OpenBracket) {
        return Err(Cause::Outside(Outside::OperandBundle));
    }
    suffixes_from(tokens, form, false)
}
