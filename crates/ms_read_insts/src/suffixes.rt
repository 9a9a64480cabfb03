//! Reads what is attached to an operation, after its parts.

ghost use Rattle.std.specs.Prelude.{◌≡◌, false};
ghost use Rattle.ms_lex.specs.Grammar.{give, seq};
ghost use Rattle.ms_text_grammar.specs.Skipped as skipped;
ghost use Rattle.ms_text_grammar.specs.Insts as spec;
ghost use Rattle.ms_read_cursor.specs.Reading.{Gives, run};

use ms_bits::Boxed;
use ms_ir::{Form, Op};
use ms_read_cursor::{Rule, Tokens};
use ms_read_values::suffixes_from;
use ms_text_grammar::Cause;

/// Reads what is attached to what was read before it, and gives that and whether it has the mark. It serves every type, so that
/// nothing is said of how an operation is let go.
fn attached_to<T: Drop>(tokens: &mut Tokens<'_>, form: Form, read: T) -> Result<(T, bool), Cause>
    ensures { Gives (run (seq (skipped.suffixes_from form false) (λ marked. give (read, marked))) tokens.old) result tokens.new }
{
    let marked = suffixes_from(tokens, form, false)?;
    Ok((read, marked))
}

/// Reads an operation by its rule, and then what is attached to it. The second value is whether that has the mark.
///
/// # Errors
///
/// Those of the rule, `Reserved` at a mark in the plain form, and those of the other parts.
#[tactic(auto, unfolding(ms_text_grammar::specs::Insts::with_suffixes))]
pub fn with_suffixes<R: Rule<Value = Boxed<Op>>>(
    tokens: &mut Tokens<'_>,
    form: Form,
    rule: &R,
) -> Result<(Boxed<Op>, bool), Cause>
    ensures { Gives (run (spec.with_suffixes form (R.piece rule.now)) tokens.old) result tokens.new }
{
    let op = rule.read(tokens)?;
    attached_to(tokens, form, op)
}
