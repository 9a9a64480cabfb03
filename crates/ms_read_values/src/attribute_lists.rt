//! Reads over attributes (LLVM Language Reference, "Parameter Attributes" and "Function Attributes"): nothing is kept of them.

ghost use Rattle.ms_text_grammar.specs.Functions as functions;
ghost use Rattle.ms_text_grammar.specs.Skipped as spec;
ghost use Rattle.ms_read_cursor.specs.Reading.{Gives, run};

use crate::attribute_words::is_attribute;
use crate::brackets::in_parens;
use crate::metadata::{attached_by, meta};
use ms_ir::Form;
use ms_read_cursor::{Tokens, Turn, repeat};
use ms_text_grammar::{Cause, Symbol};

/// Reads `=` and a string, where `=` comes next.
///
/// # Errors
///
/// `Syntax` or `Outside` where no string is after `=`.
#[tactic(auto, unfolding(ms_text_grammar::specs::Skipped::string_value))]
pub fn string_value(tokens: &mut Tokens<'_>) -> Result<(), Cause>
    ensures { Gives (run spec.string_value tokens.old) result tokens.new }
{
    if tokens.sees(Symbol::Equals) {
        tokens.advance();
        tokens.word(Symbol::Str)?;
    }
    Ok(())
}

/// Reads what is after the first token of an attribute, which is this symbol.
///
/// # Errors
///
/// `Syntax` or `Outside` where `align` has no number or a string's `=` no string, and those of `balanced`.
pub fn attribute_rest(tokens: &mut Tokens<'_>, form: Form, symbol: Symbol) -> Result<(), Cause>
    ensures { Gives (run (spec.attribute_rest form symbol) tokens.old) result tokens.new }
{
    match symbol {
        Symbol::Align => tokens.word(Symbol::Number),
        Symbol::Group | Symbol::DebugGroup => Ok(()),
        Symbol::Str => string_value(tokens),
        _ => in_parens(tokens, form),
    }
}

/// Reads what is after the first token of an attribute or a word of linkage, which is this symbol.
fn linkage_rest(tokens: &mut Tokens<'_>, form: Form, symbol: Symbol) -> Result<(), Cause>
    ensures { Gives (run (functions.linkage_rest form symbol) tokens.old) result tokens.new }
{
    match symbol {
        Symbol::ExternalWord => Ok(()),
        _ => attribute_rest(tokens, form, symbol),
    }
}

/// Reads what is after the first token of an attribute or an attachment, which is this symbol.
fn tail_rest(tokens: &mut Tokens<'_>, form: Form, symbol: Symbol) -> Result<(), Cause>
    ensures { Gives (run (functions.tail_rest form symbol) tokens.old) result tokens.new }
{
    match symbol {
        Symbol::Meta | Symbol::NoSanitize => meta(tokens),
        _ => attribute_rest(tokens, form, symbol),
    }
}

/// What may stand among attributes.
#[derive(Clone, Copy)]
enum Among {
    /// Attributes alone.
    Nothing,
    /// Words of linkage, in front of a function's type.
    Linkage,
    /// Attached metadata, after a function's parameters.
    Metadata,
}

/// Attribute after attribute, and what may stand among them.
#[derive(Clone, Copy)]
struct OneAttribute {
    form: Form,
    among: Among,
}

impl Turn for OneAttribute {
    type State = ();

    ghost use Rattle.ms_read_values.specs.Attributes.{begins_among, rest_among};

    ghost begins = { λ rule. begins_among rule.form rule.among };

    ghost body = { λ rule u t. rest_among rule.form rule.among t.symbol };

    fn goes_on(&self, _state: &(), tokens: &Tokens<'_>) -> Result<bool, Cause> {
        let symbol = tokens.peek();
        match self.among {
            Among::Nothing => Ok(is_attribute(symbol)),
            Among::Linkage => Ok(tokens.sees(Symbol::ExternalWord) || is_attribute(symbol)),
            Among::Metadata => {
                if is_attribute(symbol) {
                    Ok(true)
                } else {
                    attached_by(self.form, symbol)
                }
            }
        }
    }

    fn turn(&self, _state: (), tokens: &mut Tokens<'_>) -> Result<(), Cause> {
        let symbol = tokens.peek();
        tokens.advance();
        match self.among {
            Among::Nothing => attribute_rest(tokens, self.form, symbol),
            Among::Linkage => linkage_rest(tokens, self.form, symbol),
            Among::Metadata => tail_rest(tokens, self.form, symbol),
        }
    }
}

/// Reads as many attributes as come. Its errors are those of `attribute_rest`.
#[tactic(auto, unfolding(ms_text_grammar::specs::Skipped::attributes))]
pub fn attributes(tokens: &mut Tokens<'_>, form: Form) -> Result<(), Cause>
    ensures { Gives (run (spec.attributes form) tokens.old) result tokens.new }
{
    let among = Among::Nothing;
    repeat(tokens, &OneAttribute { form, among }, ())
}

/// Reads as many attributes and words of linkage as come, in front of the type of a function's result. Its errors are those
/// of `attribute_rest`.
#[tactic(auto, unfolding(ms_text_grammar::specs::Functions::linkage))]
pub fn linkage(tokens: &mut Tokens<'_>, form: Form) -> Result<(), Cause>
    ensures { Gives (run (functions.linkage form) tokens.old) result tokens.new }
{
    let among = Among::Linkage;
    repeat(tokens, &OneAttribute { form, among }, ())
}

/// Reads the attributes and the attached metadata after the parameters of a function, as many as come.
///
/// # Errors
///
/// `Reserved` at the mark where the form doesn't have it, and those of `attribute_rest` and `meta`.
#[tactic(auto, unfolding(ms_text_grammar::specs::Functions::function_tail))]
pub fn function_tail(tokens: &mut Tokens<'_>, form: Form) -> Result<(), Cause>
    ensures { Gives (run (functions.function_tail form) tokens.old) result tokens.new }
{
    let among = Among::Metadata;
    repeat(tokens, &OneAttribute { form, among }, ())
}
