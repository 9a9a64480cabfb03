//! Reads the entities that are neither functions nor declarations.

ghost use Rattle.std.specs.Prelude.{◌≡◌, ◌≢◌, IfOk, Ok, true};
ghost use Rattle.ms_lex.specs.Grammar.{give, seq};
ghost use Rattle.ms_text_grammar.specs.{Lexemes.{name_in}, Steps.{judge_map}};
ghost use Rattle.ms_text_grammar.specs.Modules as spec;
ghost use Rattle.ms_text_grammar.specs.Names as names;
ghost use Rattle.ms_read_cursor.specs.Reading.{Gives, Judges, Leaves, run};
ghost use Rattle.ms_read_top.specs.After as after;
ghost use Rattle.ms_read_top.specs.TypeNames.{type_name as name_of_type};

use crate::global_variables::global_variable;
use crate::left_out::{source_filename, target_entity};
use crate::metadata_nodes::{attribute_group, metadata_entity};
use crate::module_state::{add_global, add_type};
use crate::named_types::named_type;
use ms_ir::{Form, Name};
use ms_read_cursor::{Lexeme, Tokens, local_by};
use ms_text_grammar::{Cause, ModuleSoFar, Symbol};
use std::alloc::Global;

/// The name of a type that a token is, which was judged before. The one error is running out of memory.
#[tactic(auto, using(crate::proofs::Named::named, crate::proofs::Named::not_refused))]
fn type_name(alloc: Global, form: Form, token: &Lexeme<'_>) -> Result<Name, Cause>
    requires { judge_map (λ n. true) (names.local_by form token.now.symbol token.now) ≡ Ok true }
    ensures { Judges (Ok (name_of_type token.now.symbol token.now)) result }
{
    local_by(alloc, form, token)
}

/// Reads a named type after its name, which is a token, and adds it to the parts.
fn type_entity(
    tokens: &mut Tokens<'_>,
    form: Form,
    parts: &mut ModuleSoFar,
    name: &Lexeme<'_>,
) -> Result<(), Cause>
    requires { judge_map (λ n. true) (names.local_by form name.now.symbol name.now) ≡ Ok true }
    ensures exact { Leaves (run (seq (spec.named_type form (name_of_type name.now.symbol name.now)) (λ x. give (spec.with_type parts.old x))) tokens.old) result parts.new tokens.new }
    ensures count { IfOk result (λ _. parts.new.count ≡ parts.old.count) }
{
    let name = type_name(tokens.alloc(), form, name)?;
    let ty = named_type(tokens, form, name)?;
    Ok(add_type(tokens.alloc(), parts, ty.into_inner())?)
}

/// Reads a global after its name, which is a token, and adds it to the parts.
fn global_entity(
    tokens: &mut Tokens<'_>,
    form: Form,
    parts: &mut ModuleSoFar,
    name: &Lexeme<'_>,
) -> Result<(), Cause>
    ensures exact { Leaves (run (seq (spec.global_variable form (Name.Text (name_in name.now))) (λ g. give (spec.with_global parts.old g))) tokens.old) result parts.new tokens.new }
    ensures count { IfOk result (λ _. parts.new.count ≡ parts.old.count) }
{
    let global = global_variable(tokens, form, name)?;
    Ok(add_global(tokens.alloc(), parts, global.into_inner())?)
}

/// Reads what says nothing of a module's values, after its word: its source, its target or a group of attributes.
fn heading(tokens: &mut Tokens<'_>, form: Form, word: Symbol) -> Result<(), Cause>
    ensures { Gives (run (after.heading form word) tokens.old) result tokens.new }
{
    match word {
        Symbol::SourceFilename => source_filename(tokens),
        Symbol::Target => target_entity(tokens),
        _ => attribute_group(tokens, form),
    }
}

/// Reads an entity that is neither a function nor a declaration, after its first token, with which it may begin, and adds it
/// to the parts.
///
/// # Errors
///
/// At the first token that can't stand: those of `source_filename`, `target_entity`, `attribute_group`, `named_type`,
/// `global_variable` and `metadata_entity`.
#[tactic(auto, unfolding(ms_text_grammar::specs::Modules::entity, ms_text_grammar::specs::Modules::entity_begins))]
pub fn other_entity(
    tokens: &mut Tokens<'_>,
    form: Form,
    parts: &mut ModuleSoFar,
    first: &Lexeme<'_>,
) -> Result<(), Cause>
    requires begins { spec.entity_begins form parts.old first.now ≡ Ok true }
    requires no_declaration { first.now.symbol ≢ Symbol.Declare }
    requires no_function { first.now.symbol ≢ Symbol.Define }
    ensures exact { Leaves (run (spec.entity form parts.old first.now) tokens.old) result parts.new tokens.new }
    ensures count { IfOk result (λ _. parts.new.count ≡ parts.old.count) }
{
    match first.symbol() {
        Symbol::SourceFilename | Symbol::Target | Symbol::Attributes => {
            heading(tokens, form, first.symbol())?;
            Ok(())
        }
        Symbol::Local | Symbol::NumberedLocal => { type_entity(tokens, form, parts, first) }
        Symbol::Global => global_entity(tokens, form, parts, first),
        _ => {
            metadata_entity(tokens, form)?;
            Ok(())
        }
    }
}
