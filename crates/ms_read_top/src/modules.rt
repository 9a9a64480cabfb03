//! Reads entities to the end of the text (LLVM Language Reference, "Module Structure").

ghost use Rattle.std.specs.Prelude.{◌≡◌, ◌≤◌};
ghost use Rattle.ms_lex.specs.Grammar.{loop};
ghost use Rattle.ms_text_grammar.specs.Bodies.{max_instructions};
ghost use Rattle.ms_text_grammar.specs.Modules as spec;
ghost use Rattle.ms_read_cursor.specs.Reading.{Gives, Judges, Leaves, run};
ghost use Rattle.ms_read_top.specs.After as after;

use crate::entities::entity;
use crate::entity_starts::entity_begins;
use ms_bits::List;
use ms_ir::{Form, Module};
use ms_read_cursor::{Lexeme, Tokens};
use ms_text_grammar::{Cause, ModuleSoFar, Symbol};
use std::alloc::Global;

/// The parts of a module before its first entity.
pub fn no_parts(alloc: Global) -> ModuleSoFar
    ensures { result ≡ spec.no_parts }
{
    let module = Module {
        types: List::from_vec(Vec::new(alloc)),
        globals: List::from_vec(Vec::new(alloc)),
        decls: List::from_vec(Vec::new(alloc)),
        funcs: List::from_vec(Vec::new(alloc)),
    };
    ModuleSoFar { module, count: 0 }
}

/// Reads entity after entity, as long as the next token begins one, and adds them to the parts.
#[tactic(auto, using(ms_lex::proofs::Loops::loop_goes, ms_lex::proofs::Loops::loop_ends, ms_lex::proofs::Loops::loop_stops, ms_lex::proofs::Loops::loop_moves, ms_lex::proofs::Loops::loop_all))]
fn entities(tokens: &mut Tokens<'_>, form: Form, parts: &mut ModuleSoFar) -> Result<(), Cause>
    requires { parts.old.count ≤ max_instructions form }
    ensures { Leaves (run (loop (spec.entity_begins form) (spec.entity form) parts.old) tokens.old) result parts.new tokens.new }
{
    'entities: while tokens.left() > 0 {
        if !entity_begins(tokens, form, parts)? {
            return Ok(());
        }
        entity(tokens, form, parts)?;
    }
    Ok(())
}

/// That a token is the end of the text, or why it can't stand.
fn end_of(token: &Lexeme<'_>) -> Result<(), Cause>
    ensures { Judges (spec.end_of token.now) result }
{
    if token.is(Symbol::EndOfText) {
        Ok(())
    } else {
        Err(token.refusal())
    }
}

/// Gives the module of these parts, where the text ends.
fn ended(tokens: &Tokens<'_>, parts: ModuleSoFar) -> Result<Module, Cause>
    ensures { Gives (run (after.ended parts) tokens.now) result tokens.now }
{
    end_of(&tokens.lexeme())?;
    Ok(parts.module)
}

/// Reads a module up to the end of its text.
///
/// # Errors
///
/// At the first token that can't stand, by the number of its cause and in this order where two apply to one token: `Syntax`
/// or `Outside`, `Reserved`, `Numbering`, `Limit`. Running out of memory may come at any place.
#[tactic(auto, unfolding(ms_text_grammar::specs::Modules::module_rule))]
pub fn whole_module(tokens: &mut Tokens<'_>, form: Form) -> Result<Module, Cause>
    ensures { Gives (run (spec.module_rule form) tokens.old) result tokens.new }
{
    let mut parts = no_parts(tokens.alloc());
    entities(tokens, form, &mut parts)?;
    ended(tokens, parts)
}
