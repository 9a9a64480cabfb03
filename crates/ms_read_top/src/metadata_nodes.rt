//! Groups of attributes and metadata (LLVM Language Reference, "Attribute Groups", "Metadata"), which are read over.

ghost use Rattle.std.specs.Prelude.{◌≡◌, cond};
ghost use Rattle.ms_lex.specs.Grammar.{done, give, seq};
ghost use Rattle.ms_text_grammar.specs.{declared.symbols.Symbol.TheVariants.{Distinct}, Steps.{sees, skip}};
ghost use Rattle.ms_text_grammar.specs.Modules as spec;
ghost use Rattle.ms_read_cursor.specs.Reading.{Gives, run};

use crate::left_out::either;
use ms_ir::Form;
use ms_read_cursor::Tokens;
use ms_read_values::{balanced, meta};
use ms_text_grammar::{Cause, Symbol};

/// Reads a group, `=` and tokens in braces in which brackets match, after `attributes`.
///
/// # Errors
///
/// `Syntax` or `Outside` at a token that is another, and those of `balanced` between the braces.
#[tactic(auto, unfolding(ms_text_grammar::specs::Modules::attribute_group))]
pub fn attribute_group(tokens: &mut Tokens<'_>, form: Form) -> Result<(), Cause>
    ensures { Gives (run (spec.attribute_group form) tokens.old) result tokens.new }
{
    either(&tokens.lexeme(), Symbol::Group, Symbol::DebugGroup)?;
    tokens.advance();
    tokens.word(Symbol::Equals)?;
    tokens.word(Symbol::OpenBrace)?;
    balanced(tokens, form, Symbol::CloseBrace)
}

/// A node of metadata, which begins with this symbol.
fn node_by(tokens: &mut Tokens<'_>, form: Form, symbol: Symbol) -> Result<(), Cause>
    ensures { Gives (run (spec.node_by form symbol) tokens.old) result tokens.new }
{
    match symbol {
        Symbol::Bang => {
            tokens.advance();
            tokens.word(Symbol::OpenBrace)?;
            balanced(tokens, form, Symbol::CloseBrace)
        }
        _ => {
            meta(tokens)?;
            tokens.word(Symbol::OpenParen)?;
            balanced(tokens, form, Symbol::CloseParen)
        }
    }
}

/// Goes past `distinct`, where it comes next.
fn past_distinct(tokens: &mut Tokens<'_>)
    ensures { run (seq (sees Distinct) (λ distinct. cond distinct skip (give tt))) tokens.old ≡ done tt tokens.new }
{
    if tokens.sees(Symbol::Distinct) {
        tokens.advance();
    }
}

/// Reads `=` and a node of metadata, with or without `distinct` in front of it, after a name of metadata.
///
/// # Errors
///
/// `Syntax` or `Outside` at a token that is another, and those of `balanced` between brackets.
#[tactic(auto, unfolding(ms_text_grammar::specs::Modules::metadata_entity))]
pub fn metadata_entity(tokens: &mut Tokens<'_>, form: Form) -> Result<(), Cause>
    ensures { Gives (run (spec.metadata_entity form) tokens.old) result tokens.new }
{
    tokens.word(Symbol::Equals)?;
    past_distinct(tokens);
    let symbol = tokens.peek();
    node_by(tokens, form, symbol)
}
