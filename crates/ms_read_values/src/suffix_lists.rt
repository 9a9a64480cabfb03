//! What may stand after an instruction: its alignment and attached metadata, one kind of which, the mark, shows an inserted
//! instruction. `marked` says whether the mark was read, `marks` whether the kind just read is the mark.

ghost use Rattle.std.specs.Prelude.{cond, false};
ghost use Rattle.ms_lex.specs.Grammar.{give};
ghost use Rattle.ms_text_grammar.specs.Skipped as spec;
ghost use Rattle.ms_read_cursor.specs.Reading.{Gives, run};
ghost use Rattle.ms_read_values.specs.Rests as rest;

use crate::brackets::{balanced, in_parens};
use crate::metadata::{kind_of, meta};
use ms_ir::Form;
use ms_read_cursor::{Tokens, Turn, repeat};
use ms_text_grammar::{Cause, Symbol};

/// Reads over `{`, tokens and `}`, where metadata is written in place. The mark stays as it was.
fn in_place(tokens: &mut Tokens<'_>, form: Form, marked: bool) -> Result<bool, Cause>
    ensures { Gives (run (rest.in_place form marked) tokens.old) result tokens.new }
{
    tokens.word(Symbol::OpenBrace)?;
    balanced(tokens, form, Symbol::CloseBrace)?;
    Ok(marked)
}

/// Reads a name of metadata, and tokens in parentheses where they come. Gives whether the instruction is marked.
fn by_name(tokens: &mut Tokens<'_>, form: Form, marked: bool, marks: bool) -> Result<bool, Cause>
    ensures { Gives (run (rest.by_name form marked marks) tokens.old) result tokens.new }
{
    meta(tokens)?;
    in_parens(tokens, form)?;
    Ok(marked || marks)
}

/// Reads what is after the kind of an attachment, which begins with this symbol. Metadata in place marks nothing.
fn attached_rest(
    tokens: &mut Tokens<'_>,
    form: Form,
    marked: bool,
    marks: bool,
    symbol: Symbol,
) -> Result<bool, Cause>
    ensures { Gives (run (spec.attached_rest form marked marks symbol) tokens.old) result tokens.new }
{
    match symbol {
        Symbol::Bang => {
            tokens.advance();
            in_place(tokens, form, marked)
        }
        _ => by_name(tokens, form, marked, marks),
    }
}

/// Reads attached metadata: its kind, and a name, a name with tokens in parentheses, or metadata in place. Gives whether
/// the instruction is marked.
///
/// # Errors
///
/// Those of `kind_of` at the kind, of `meta` after it, and of `balanced` in brackets.
#[tactic(auto, unfolding(ms_text_grammar::specs::Skipped::attached))]
pub fn attached(tokens: &mut Tokens<'_>, form: Form, marked: bool) -> Result<bool, Cause>
    ensures { Gives (run (spec.attached form marked) tokens.old) result tokens.new }
{
    let marks = kind_of(form, &tokens.lexeme())?;
    tokens.advance();
    let symbol = tokens.peek();
    attached_rest(tokens, form, marked, marks, symbol)
}

/// Reads one suffix after its comma. Gives whether the instruction is marked.
///
/// # Errors
///
/// `Syntax` or `Outside` where no number is after `align`, and those of `attached`.
#[tactic(auto, unfolding(ms_text_grammar::specs::Skipped::suffix))]
pub fn suffix(tokens: &mut Tokens<'_>, form: Form, marked: bool) -> Result<bool, Cause>
    ensures { Gives (run (spec.suffix form marked) tokens.old) result tokens.new }
{
    match tokens.peek() {
        Symbol::Align => {
            tokens.advance();
            tokens.word(Symbol::Number)?;
            Ok(marked)
        }
        _ => attached(tokens, form, marked),
    }
}

/// Suffix after suffix, each after its comma.
#[derive(Clone, Copy)]
struct OneSuffix {
    form: Form,
}

impl Turn for OneSuffix {
    type State = bool;

    ghost use Rattle.ms_text_grammar.specs.Skipped.{suffix_begins, suffix};

    ghost begins = { λ rule. suffix_begins };

    ghost body = { λ rule marked comma. suffix rule.form marked };

    fn goes_on(&self, _state: &bool, tokens: &Tokens<'_>) -> Result<bool, Cause> {
        Ok(tokens.sees(Symbol::Comma))
    }

    fn turn(&self, state: bool, tokens: &mut Tokens<'_>) -> Result<bool, Cause> {
        tokens.advance();
        suffix(tokens, self.form, state)
    }
}

/// Reads suffixes with a comma in front of each, as many as come. Gives whether the instruction is marked. Its errors are
/// those of `suffix`.
#[tactic(auto, unfolding(ms_text_grammar::specs::Skipped::suffixes))]
pub fn suffixes(tokens: &mut Tokens<'_>, form: Form, marked: bool) -> Result<bool, Cause>
    ensures { Gives (run (spec.suffixes form marked) tokens.old) result tokens.new }
{
    repeat(tokens, &OneSuffix { form }, marked)
}

/// Reads the suffix whose comma was read already, if one was. Gives whether the instruction is marked.
fn first_suffix(tokens: &mut Tokens<'_>, form: Form, begun: bool) -> Result<bool, Cause>
    ensures { Gives (run (cond begun (spec.suffix form false) (give false)) tokens.old) result tokens.new }
{
    if begun {
        suffix(tokens, form, false)
    } else {
        Ok(false)
    }
}

/// Reads the suffixes of an instruction; the comma of the first was read already, where `begun`. Gives whether the
/// instruction is marked. Its errors are those of `suffix`.
#[tactic(auto, unfolding(ms_text_grammar::specs::Skipped::suffixes_from))]
pub fn suffixes_from(tokens: &mut Tokens<'_>, form: Form, begun: bool) -> Result<bool, Cause>
    ensures { Gives (run (spec.suffixes_from form begun) tokens.old) result tokens.new }
{
    let marked = first_suffix(tokens, form, begun)?;
    suffixes(tokens, form, marked)
}
