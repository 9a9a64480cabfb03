//! Reads functions and declarations, as entities of a module.

ghost use Rattle.std.specs.Prelude.{◌≡◌, ◌≤◌, ◌+◌, ◌^◌, IfOk};
ghost use Rattle.ms_lex.specs.Grammar.{give, seq};
ghost use Rattle.ms_text_grammar.specs.Bodies.{max_instructions};
ghost use Rattle.ms_text_grammar.specs.Functions.{declaration as declaration_piece, function as function_piece};
ghost use Rattle.ms_text_grammar.specs.Modules as spec;
ghost use Rattle.ms_read_cursor.specs.Reading.{Leaves, run};

use crate::module_state::add_declaration;
use ms_bits::NoMemory;
use ms_ir::{Block, Form, Func};
use ms_read_body::{declaration, function};
use ms_read_cursor::{Tokens, push};
use ms_text_grammar::{Cause, ModuleSoFar};
use std::alloc::Global;

/// How many instructions these blocks have.
fn instructions_of(blocks: &[Block]) -> u32
    requires { spec.instructions_of blocks.now ≤ 2 ^ 22 }
    ensures { result ≡ spec.instructions_of blocks.now }
{
    let mut rest = blocks;
    let mut count = 0;
    'counted: while let [block, after @ ..] = rest {
        count += block.insts.as_slice().len() as u32;
        rest = after;
    }
    count
}

/// Adds a function, with its instructions.
fn add_function(alloc: Global, parts: &mut ModuleSoFar, found: Func) -> Result<(), NoMemory>
    requires { parts.old.count + spec.instructions_of found.blocks ≤ 2 ^ 22 }
    ensures { IfOk result (λ _. parts.new ≡ spec.with_function parts.old found) }
{
    parts.count += instructions_of(found.blocks.as_slice());
    push(alloc, &mut parts.module.funcs, found)
}

/// Reads a function after `define`, and adds it to the parts.
#[tactic(auto, using(crate::proofs::Few::function_few, crate::proofs::Few::most))]
pub fn function_entity(
    tokens: &mut Tokens<'_>,
    form: Form,
    parts: &mut ModuleSoFar,
) -> Result<(), Cause>
    requires { parts.old.count ≤ max_instructions form }
    ensures exact { Leaves (run (seq (function_piece form parts.old.count) (λ f. give (spec.with_function parts.old f))) tokens.old) result parts.new tokens.new }
    ensures few { IfOk result (λ _. parts.new.count ≤ max_instructions form) }
{
    let found = function(tokens, form, parts.count)?;
    Ok(add_function(tokens.alloc(), parts, found)?)
}

/// Reads a declaration after `declare`, and adds it to the parts.
pub fn declaration_entity(
    tokens: &mut Tokens<'_>,
    form: Form,
    parts: &mut ModuleSoFar,
) -> Result<(), Cause>
    ensures exact { Leaves (run (seq (declaration_piece form) (λ d. give (spec.with_declaration parts.old d))) tokens.old) result parts.new tokens.new }
    ensures count { IfOk result (λ _. parts.new.count ≡ parts.old.count) }
{
    let found = declaration(tokens, form)?;
    Ok(add_declaration(tokens.alloc(), parts, found)?)
}
