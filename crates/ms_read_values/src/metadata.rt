//! Reads names of metadata (LLVM Language Reference, "Metadata"), and over what is attached. The mark is `!nosanitize`, which
//! only a text with inserted code has.

ghost use Rattle.ms_text_grammar.specs.Skipped as spec;
ghost use Rattle.ms_read_cursor.specs.Reading.{Gives, Judges, run};

use ms_ir::Form;
use ms_read_cursor::{Lexeme, Tokens, Turn, repeat};
use ms_text_grammar::{Cause, Symbol};

/// Whether a text of this form may have the mark.
fn mark_allowed(form: Form) -> Result<bool, Cause>
    ensures { Judges (spec.mark_allowed form) result }
{
    match form {
        Form::Plain => Err(Cause::Reserved),
        Form::Instrumented => Ok(true),
    }
}

/// Whether a symbol begins attached metadata, which a name of its kind does.
///
/// # Errors
///
/// `Reserved` at the mark where the form doesn't have it.
pub fn attached_by(form: Form, symbol: Symbol) -> Result<bool, Cause>
    ensures { Judges (spec.attached_by form symbol) result }
{
    match symbol {
        Symbol::Meta => Ok(true),
        Symbol::NoSanitize => mark_allowed(form),
        _ => Ok(false),
    }
}

/// Takes a name of metadata.
///
/// # Errors
///
/// `Syntax` or `Outside` where none comes next.
#[tactic(auto, unfolding(ms_text_grammar::specs::Skipped::meta))]
pub fn meta(tokens: &mut Tokens<'_>) -> Result<(), Cause>
    ensures { Gives (run spec.meta tokens.old) result tokens.new }
{
    if tokens.sees(Symbol::Meta) || tokens.sees(Symbol::NoSanitize) {
        tokens.advance();
        Ok(())
    } else {
        Err(tokens.refusal())
    }
}

/// The kind of an attachment as a token, and whether it is the mark's.
///
/// # Errors
///
/// `Reserved` at the mark where the form doesn't have it, `Syntax` or `Outside` at what is no name of metadata.
pub fn kind_of(form: Form, token: &Lexeme<'_>) -> Result<bool, Cause>
    ensures { Judges (spec.kind_of form token.now) result }
{
    match token.symbol() {
        Symbol::Meta => Ok(false),
        Symbol::NoSanitize => mark_allowed(form),
        _ => Err(token.refusal()),
    }
}

/// Attachment after attachment: a kind and a name of metadata.
#[derive(Clone, Copy)]
struct OneAttachment {
    form: Form,
}

impl Turn for OneAttachment {
    type State = ();

    ghost use Rattle.ms_text_grammar.specs.Skipped.{attachment_begins, meta};

    ghost begins = { λ rule. attachment_begins rule.form };

    ghost body = { λ rule u t. meta };

    fn goes_on(&self, _state: &(), tokens: &Tokens<'_>) -> Result<bool, Cause> {
        attached_by(self.form, tokens.peek())
    }

    fn turn(&self, _state: (), tokens: &mut Tokens<'_>) -> Result<(), Cause> {
        tokens.advance();
        meta(tokens)
    }
}

/// Reads pairs of names of metadata, as many as come. Its errors are those of `attached_by` and `meta`.
#[tactic(auto, unfolding(ms_text_grammar::specs::Skipped::attachments))]
pub fn attachments(tokens: &mut Tokens<'_>, form: Form) -> Result<(), Cause>
    ensures { Gives (run (spec.attachments form) tokens.old) result tokens.new }
{
    repeat(tokens, &OneAttachment { form }, ())
}
