//! Marks the functions, nodes of metadata and lines of a whole text. `total` is how many tokens the text has, `before` how many
//! instructions stand in front of a function, `found` the marks so far. An error of a text that reads is want of memory alone
//! (`OnlyMemory`).

ghost use Rattle.std.specs.Prelude.{◌≡◌, ◌≤◌, ◌<◌, ◌^◌, IfErr, IfOk, IsErr, Ok, true, length};
ghost use Rattle.ms_lex.specs.{Grammar.{Ends, done, loop, tail}, Tokens.{InOrder}};
ghost use Rattle.ms_ir.specs.declared.syntax.Module.{Module as Found};
ghost use Rattle.ms_text_grammar.specs.{Bodies.{max_instructions}, Texts.{HasTokens, Reads}};
ghost use Rattle.ms_text_grammar.specs.Functions as functions;
ghost use Rattle.ms_text_grammar.specs.Modules as modules;
ghost use Rattle.ms_read_cursor.specs.Reading.{front, run};
ghost use Rattle.ms_where_places.specs.Failures.{OnlyMemory};
ghost use Rattle.ms_where_places.specs.Marks as spec;

use crate::inside::function_lines;
use crate::marks::{Mark, entity_kind, place, push_mark};
use ms_ir::Form;
use ms_lex::Token;
use ms_read_cursor::Tokens;
use ms_read_top::{entity, entity_begins, no_parts};
use ms_text_grammar::{Cause, ModuleSoFar, Symbol};
use std::alloc::Global;

/// Marks the lines of an entity, whose first token comes next and has this symbol: only a function has some.
#[tactic(auto, using(crate::proofs::Growing::function_inner))]
fn inner_lines(
    total: usize,
    tokens: &Tokens<'_>,
    form: Form,
    before: u32,
    symbol: Symbol,
    found: &mut Vec<Mark>,
) -> Result<(), Cause>
    requires { total < 2 ^ 32 }
    ensures told { IfOk result (λ _. spec.InnerAdds symbol form total before (tail tokens.now) found.old.items found.new.items) }
    ensures only_functions { IsErr result → symbol ≡ Symbol.Define }
    ensures only_memory { IfErr result (λ cause. OnlyMemory (functions.function form before) (tail tokens.now) cause) }
{
    match symbol {
        Symbol::Define => {
            let mut inside = tokens.copy();
            inside.advance();
            function_lines(total, &mut inside, form, before, found)
        }
        _ => Ok(()),
    }
}

/// Reads an entity, which the next token begins, and marks its lines and then the entity.
#[tactic(auto, using(crate::proofs::Growing::entity_adds, crate::proofs::Memory::gave, crate::proofs::Memory::is_only, crate::proofs::Memory::inner_not_read))]
fn one_entity(
    total: usize,
    tokens: &mut Tokens<'_>,
    form: Form,
    parts: &mut ModuleSoFar,
    found: &mut Vec<Mark>,
) -> Result<(), Cause>
    requires few { total < 2 ^ 32 }
    requires count { parts.old.count ≤ max_instructions form }
    requires begins { modules.entity_begins form parts.old (front tokens.old) ≡ Ok true }
    ensures read { IfOk result (λ _. run (modules.entity form parts.old (front tokens.old)) (tail tokens.old) ≡ done parts.new tokens.new) }
    ensures told { IfOk result (λ _. spec.EntityAdds form total parts.old tokens.old tokens.new found.old.items found.new.items) }
    ensures few { IfOk result (λ _. parts.new.count ≤ max_instructions form) }
    ensures only_memory { IfErr result (λ cause. OnlyMemory (modules.entity form parts.old (front tokens.old)) (tail tokens.old) cause) }
{
    let symbol = tokens.peek();
    let at = place(total, tokens);
    inner_lines(total, tokens, form, parts.count, symbol, found)?;
    entity(tokens, form, parts)?;
    push_mark(found, entity_kind(symbol), at, place(total, tokens))?;
    Ok(())
}

/// Reads and marks entity after entity, as long as one begins.
#[tactic(auto, using(crate::proofs::Growing::entities_none, crate::proofs::Growing::entities_more, crate::proofs::Growing::entity_moves, crate::proofs::Growing::entities_end, crate::proofs::Growing::no_entity_left, crate::proofs::Memory::entity_not_begun, crate::proofs::Memory::entity_not_read))]
fn all_entities(
    total: usize,
    tokens: &mut Tokens<'_>,
    form: Form,
    parts: &mut ModuleSoFar,
    found: &mut Vec<Mark>,
) -> Result<(), Cause>
    requires few { total < 2 ^ 32 }
    requires count { parts.old.count ≤ max_instructions form }
    ensures told { IfOk result (λ _. spec.EntitiesAdd form total parts.old tokens.old parts.new tokens.new found.old.items found.new.items) }
    ensures ends { IfOk result (λ _. Ends (modules.entity_begins form) parts.new tokens.new) }
    ensures only_memory { IfErr result (λ cause. OnlyMemory (loop (modules.entity_begins form) (modules.entity form) parts.old) tokens.old cause) }
{
    'entities: while tokens.left() > 0 {
        if !entity_begins(tokens, form, parts)? {
            return Ok(());
        }
        one_entity(total, tokens, form, parts, found)?;
    }
    Ok(())
}

/// The marks of a text: which of its tokens are which function, instruction, debug record and node of metadata (LLVM Language
/// Reference, "Functions", "Instruction Reference" and "Metadata"). They come in the order in which their tokens end, so a
/// function's mark comes after those of its lines. The time is linear in the text; each function is read twice.
///
/// # Errors
///
/// - `NoMemory` when memory runs out. Of a text that reads as a module in this form there is no other error.
/// - Of a text that doesn't read so, any `Cause`.
#[tactic(auto, using(crate::proofs::Growing::all_marks, crate::proofs::Memory::module_not_read))]
pub fn marks_in(
    alloc: Global,
    text: &[u8],
    tokens: &[Token],
    form: Form,
) -> Result<Vec<Mark>, Cause>
    requires few { length tokens.now < 2 ^ 32 }
    requires in_order { InOrder tokens.now (length text.now) }
    ensures marks { IfOk result (λ found. spec.AreMarks form text.now tokens.now found.items) }
    ensures only_memory { IfErr result (λ cause. (m : Found) → Reads form text.now m → HasTokens form text.now tokens.now → cause ≡ Cause.NoMemory) }
{
    let mut cursor = Tokens::at(alloc, text, tokens, 0);
    let mut parts = no_parts(alloc);
    let mut found = Vec::new(alloc);
    all_entities(tokens.len(), &mut cursor, form, &mut parts, &mut found)?;
    Ok(found)
}
