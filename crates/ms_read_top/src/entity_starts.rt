//! Which token begins an entity of a module, and what refuses it there.

ghost use Rattle.ms_text_grammar.specs.Modules as spec;
ghost use Rattle.ms_read_cursor.specs.Reading.{Judges, front};

use ms_ir::{Form, Module};
use ms_read_cursor::{Tokens, local_by, name_fits, reserved_global};
use ms_text_grammar::{Cause, Limit, ModuleSoFar, Symbol};

/// How many functions and declarations a module may have together.
const MAX_FUNCTIONS: usize = 16384;

/// How many globals a module may have.
const MAX_GLOBALS: usize = 16384;

/// Whether there is room for one more function or declaration after this module.
fn room_for_function(before: &Module) -> Result<bool, Cause>
    ensures { Judges (spec.room_for_function before.now) result }
{
    let functions = before.funcs.as_slice().len();
    let declarations = before.decls.as_slice().len();
    if functions < MAX_FUNCTIONS && declarations < MAX_FUNCTIONS - functions {
        Ok(true)
    } else {
        Err(Cause::Limit(Limit::Functions))
    }
}

/// Whether a global of the name that the next token is may stand after this module.
fn global_begins(tokens: &Tokens<'_>, form: Form, before: &Module) -> Result<bool, Cause>
    ensures { Judges (spec.global_begins form before.now (front tokens.now)) result }
{
    let name = tokens.lexeme().small_name(tokens.alloc())?;
    let text = name.as_slice();
    if reserved_global(form, text) {
        Err(Cause::Reserved)
    } else if before.globals.as_slice().len() >= MAX_GLOBALS {
        Err(Cause::Limit(Limit::Globals))
    } else if name_fits(text) {
        Ok(true)
    } else {
        Err(Cause::Limit(Limit::Name))
    }
}

/// Whether the next token begins an entity, in a module with these parts in front of it.
///
/// # Errors
///
/// - `Reserved` at a name that the form doesn't have.
/// - `Numbering` at a type's number above 2^32 - 1.
/// - `Limit(Functions)` at `define` or `declare`, and `Limit(Globals)` at a global's name, where there is no room.
/// - `Limit(Name)` at a name of more than 1024 bytes.
#[tactic(auto, unfolding(ms_text_grammar::specs::Modules::entity_begins))]
pub fn entity_begins(tokens: &Tokens<'_>, form: Form, parts: &ModuleSoFar) -> Result<bool, Cause>
    ensures { Judges (spec.entity_begins form parts.now (front tokens.now)) result }
{
    match tokens.peek() {
        Symbol::SourceFilename
        | Symbol::Target
        | Symbol::Attributes
        | Symbol::Meta
        | Symbol::NoSanitize => Ok(true),
        Symbol::Local | Symbol::NumberedLocal => {
            local_by(tokens.alloc(), form, &tokens.lexeme())?;
            Ok(true)
        }
        Symbol::Global => global_begins(tokens, form, &parts.module),
        Symbol::Declare | Symbol::Define => room_for_function(&parts.module),
        _ => Ok(false),
    }
}
