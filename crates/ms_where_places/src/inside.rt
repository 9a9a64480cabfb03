//! Marks the instructions and debug records of one function's text. `total` is how many tokens the text has, `before` how many
//! instructions stand in front of the function, `found` the marks so far. An error of a text that reads is want of memory alone
//! (`OnlyMemory`).

ghost use Rattle.std.specs.Prelude.{◌≡◌, ◌++◌, ◌<◌, ◌^◌, IfErr, IfOk, Ok, true};
ghost use Rattle.ms_lex.specs.Grammar.{Ends, done, loop, tail};
ghost use Rattle.ms_text_grammar.specs.Bodies as bodies;
ghost use Rattle.ms_text_grammar.specs.Functions as functions;
ghost use Rattle.ms_text_grammar.specs.Lines as lines;
ghost use Rattle.ms_read_cursor.specs.Reading.{Leaves, front, run};
ghost use Rattle.ms_where_places.specs.Failures.{OnlyMemory};
ghost use Rattle.ms_where_places.specs.Marks as spec;

use crate::marks::{Mark, line_kind, place, push_mark};
use ms_ir::Form;
use ms_read_body::{heading, line, line_begins};
use ms_read_cursor::Tokens;
use ms_text_grammar::{BodySoFar, Cause};

/// Reads a line, which the next token begins.
#[tactic(auto, using(ms_read_body::proofs::Begun::next_left, ms_read_body::proofs::Begun::room_left))]
fn read_line(tokens: &mut Tokens<'_>, form: Form, body: &mut BodySoFar) -> Result<(), Cause>
    requires { bodies.line_begins form body.old (front tokens.old) ≡ Ok true }
    ensures { Leaves (run (lines.line form body.old (front tokens.old)) (tail tokens.old)) result body.new tokens.new }
{
    line(tokens, form, body)
}

/// Reads a line, which the next token begins, and marks it, unless it is a label.
#[tactic(auto, using(crate::proofs::Memory::gave, crate::proofs::Memory::is_only))]
fn one_line(
    total: usize,
    tokens: &mut Tokens<'_>,
    form: Form,
    body: &mut BodySoFar,
    found: &mut Vec<Mark>,
) -> Result<(), Cause>
    requires few { total < 2 ^ 32 }
    requires begins { bodies.line_begins form body.old (front tokens.old) ≡ Ok true }
    ensures read { IfOk result (λ _. run (lines.line form body.old (front tokens.old)) (tail tokens.old) ≡ done body.new tokens.new) }
    ensures told { IfOk result (λ _. found.new.items ≡ found.old.items ++ spec.line_marks total tokens.old tokens.new) }
    ensures only_memory { IfErr result (λ cause. OnlyMemory (lines.line form body.old (front tokens.old)) (tail tokens.old) cause) }
{
    let kind = line_kind(tokens.peek());
    let at = place(total, tokens);
    read_line(tokens, form, body)?;
    push_mark(found, kind, at, place(total, tokens))?;
    Ok(())
}

/// Reads and marks line after line, as long as one begins.
#[tactic(auto, using(crate::proofs::Growing::lines_none, crate::proofs::Growing::lines_more, crate::proofs::Growing::line_moves, crate::proofs::Growing::lines_end, crate::proofs::Growing::none_left, crate::proofs::Memory::line_not_begun, crate::proofs::Memory::line_not_read))]
fn all_lines(
    total: usize,
    tokens: &mut Tokens<'_>,
    form: Form,
    body: &mut BodySoFar,
    found: &mut Vec<Mark>,
) -> Result<(), Cause>
    requires { total < 2 ^ 32 }
    ensures told { IfOk result (λ _. spec.LinesAdd form total body.old tokens.old body.new tokens.new found.old.items found.new.items) }
    ensures ends { IfOk result (λ _. Ends (bodies.line_begins form) body.new tokens.new) }
    ensures only_memory { IfErr result (λ cause. OnlyMemory (loop (bodies.line_begins form) (lines.line form) body.old) tokens.old cause) }
{
    'lines: while tokens.left() > 0 {
        if !line_begins(tokens, form, body)? {
            return Ok(());
        }
        one_line(total, tokens, form, body, found)?;
    }
    Ok(())
}

/// Reads a function after `define` up to the brace after its lines, and marks the lines.
#[tactic(auto, using(crate::proofs::Growing::function_has, crate::proofs::Memory::heading_not_read, crate::proofs::Memory::lines_not_read))]
pub fn function_lines(
    total: usize,
    tokens: &mut Tokens<'_>,
    form: Form,
    before: u32,
    found: &mut Vec<Mark>,
) -> Result<(), Cause>
    requires { total < 2 ^ 32 }
    ensures told { IfOk result (λ _. spec.FunctionAdds form total before tokens.old found.old.items found.new.items) }
    ensures only_memory { IfErr result (λ cause. OnlyMemory (functions.function form before) tokens.old cause) }
{
    let mut body = heading(tokens, form, before)?;
    all_lines(total, tokens, form, &mut body, found)
}
