//! Reads named types (LLVM Language Reference, "Structure Type").

ghost use Rattle.ms_text_grammar.specs.Modules as spec;
ghost use Rattle.ms_read_cursor.specs.Reading.{Gives, run};
ghost use Rattle.ms_read_top.specs.After as after;

use ms_bits::Boxed;
use ms_ir::{Form, Name, Ty};
use ms_read_cursor::Tokens;
use ms_read_values::struct_type;
use ms_text_grammar::{Cause, Symbol};

/// Reads the struct that a named type stands for, after `type`.
fn named_struct(tokens: &mut Tokens<'_>, form: Form, name: Name) -> Result<Boxed<(Name, Ty)>, Cause>
    ensures { Gives (run (after.named_struct form name) tokens.old) result tokens.new }
{
    let ty = struct_type(tokens, form)?;
    Ok(Boxed::new(tokens.alloc(), (name, ty))?)
}

/// Reads `=`, `type` and the struct that a type of this name is, after the name.
///
/// # Errors
///
/// `Syntax` or `Outside` at a token that is another, and those of `struct_type`.
#[tactic(auto, unfolding(ms_text_grammar::specs::Modules::named_type))]
pub fn named_type(
    tokens: &mut Tokens<'_>,
    form: Form,
    name: Name,
) -> Result<Boxed<(Name, Ty)>, Cause>
    ensures { Gives (run (spec.named_type form name) tokens.old) result tokens.new }
{
    tokens.word(Symbol::Equals)?;
    tokens.word(Symbol::TypeWord)?;
    named_struct(tokens, form, name)
}
