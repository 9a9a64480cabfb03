//! Reads one entity of a module: the token that begins it says which kind it is.

ghost use Rattle.std.specs.Prelude.{◌≡◌, ◌≤◌, IfOk, Ok, true};
ghost use Rattle.ms_lex.specs.Grammar.{tail};
ghost use Rattle.ms_text_grammar.specs.Bodies.{max_instructions};
ghost use Rattle.ms_text_grammar.specs.Modules as spec;
ghost use Rattle.ms_read_cursor.specs.Reading.{Leaves, front, run};

use crate::function_entities::{declaration_entity, function_entity};
use crate::other_entities::other_entity;
use ms_ir::Form;
use ms_read_cursor::Tokens;
use ms_text_grammar::{Cause, ModuleSoFar, Symbol};

/// Reads an entity, which the next token begins, and adds it to the parts.
#[tactic(auto, unfolding(ms_text_grammar::specs::Modules::entity))]
pub fn entity(tokens: &mut Tokens<'_>, form: Form, parts: &mut ModuleSoFar) -> Result<(), Cause>
    requires begins { spec.entity_begins form parts.old (front tokens.old) ≡ Ok true }
    requires few { parts.old.count ≤ max_instructions form }
    ensures exact { Leaves (run (spec.entity form parts.old (front tokens.old)) (tail tokens.old)) result parts.new tokens.new }
    ensures few { IfOk result (λ _. parts.new.count ≤ max_instructions form) }
{
    let first = tokens.lexeme();
    tokens.advance();
    match first.symbol() {
        Symbol::Declare => declaration_entity(tokens, form, parts),
        Symbol::Define => function_entity(tokens, form, parts),
        _ => other_entity(tokens, form, parts, &first),
    }
}
