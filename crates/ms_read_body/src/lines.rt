//! Reads the lines of a body: labels, debug records and instructions (LLVM Language Reference, "Functions").

ghost use Rattle.std.specs.Prelude.{◌≡◌, ◌<◌, ◌+◌, ◌^◌, IfOk, None, Some};
ghost use Rattle.ms_text_grammar.specs.Bodies as bodies;
ghost use Rattle.ms_text_grammar.specs.Lines as spec;
ghost use Rattle.ms_lex.specs.Grammar.{tail};
ghost use Rattle.ms_read_cursor.specs.Reading.{Gives, Judges, Leaves, front, run};
ghost use Rattle.ms_read_body.specs.Beginnings as beginnings;
ghost use Rattle.ms_read_body.specs.{Closing.{closed as closed_piece}, Room.{HasRoom}};

use crate::instructions::instruction;
use crate::line_starts::{begins_instruction, line_begins};
use crate::open_blocks::{is_open, open, open_as};
use ms_bits::{List, NoMemory};
use ms_ir::{Block, Form, Name};
use ms_read_cursor::{Lexeme, Tokens, Turn, repeat};
use ms_read_values::balanced;
use ms_text_grammar::{BodySoFar, Cause, Symbol};
use std::alloc::Global;
use std::mem;

/// Whether a word may stand after a result's name: one of an instruction with a result; `phi` only where phis may come.
fn gives_value(phis: bool, symbol: Symbol) -> bool
    ensures { result ≡ spec.gives_value phis symbol }
{
    match symbol {
        Symbol::Phi => phis,
        Symbol::Store | Symbol::Br | Symbol::Switch | Symbol::Ret | Symbol::Unreachable => false,
        _ => begins_instruction(symbol),
    }
}

/// The word after a result's name, by its token, or why it can't stand there.
fn value_word_of(phis: bool, token: &Lexeme<'_>) -> Result<Symbol, Cause>
    ensures { Judges (spec.value_word_of phis token.now) result }
{
    let symbol = token.symbol();
    if gives_value(phis, symbol) {
        Ok(symbol)
    } else {
        Err(token.refusal())
    }
}

/// Begins the block of a label: of a name, or of the next number.
fn label_line(alloc: Global, body: &mut BodySoFar, label: &Lexeme<'_>) -> Result<(), NoMemory>
    requires { body.old.next + 1 < 2 ^ 32 }
    ensures { IfOk result (λ _. body.new ≡ beginnings.labelled body.old label.now.symbol label.now) }
{
    match label.symbol() {
        Symbol::Label => {
            let name = label.small_name(alloc)?;
            open_as(alloc, body, Name::Text(name), 0);
        }
        _ => {
            let number = body.next;
            open_as(alloc, body, Name::Number(number), 1);
        }
    }
    Ok(())
}

/// Reads a debug record after its group, which stands in a block.
#[tactic(auto, unfolding(ms_text_grammar::specs::Lines::record_line))]
fn record_line(tokens: &mut Tokens<'_>, form: Form, body: &mut BodySoFar) -> Result<(), Cause>
    requires { body.old.next + 1 < 2 ^ 32 }
    ensures { Leaves (run (spec.record_line form (bodies.opened body.old)) tokens.old) result body.new tokens.new }
{
    open(tokens.alloc(), body);
    tokens.word(Symbol::OpenParen)?;
    balanced(tokens, form, Symbol::CloseParen)?;
    Ok(())
}

/// The name of a result, which a token is: a name, or the next number.
fn result_name(alloc: Global, number: u32, token: &Lexeme<'_>) -> Result<Name, NoMemory>
    ensures { IfOk result (λ n. n ≡ beginnings.result_name number token.now.symbol token.now) }
{
    match token.symbol() {
        Symbol::Local => Ok(Name::Text(token.small_name(alloc)?)),
        _ => Ok(Name::Number(number)),
    }
}

/// Reads an instruction after its first word, whose result has the name that a token is.
fn named_instruction(
    tokens: &mut Tokens<'_>,
    form: Form,
    body: &mut BodySoFar,
    name: &Lexeme<'_>,
    symbol: Symbol,
) -> Result<(), Cause>
    requires next { body.old.next + 1 < 2 ^ 32 }
    requires count { body.old.count + 1 < 2 ^ 32 }
    ensures { Leaves (run (spec.instruction form body.old (Some (beginnings.result_name body.old.next name.now.symbol name.now)) symbol) tokens.old) result body.new tokens.new }
{
    let name = result_name(tokens.alloc(), body.next, name)?;
    instruction(tokens, form, body, &mut Some(name), symbol)
}

/// Reads an instruction after its result's name, which is a token, in a block.
#[tactic(auto, unfolding(ms_text_grammar::specs::Lines::named_line))]
fn named_line(
    tokens: &mut Tokens<'_>,
    form: Form,
    body: &mut BodySoFar,
    name: &Lexeme<'_>,
) -> Result<(), Cause>
    requires next { body.old.next + 2 < 2 ^ 32 }
    requires count { body.old.count + 1 < 2 ^ 32 }
    ensures { Leaves (run (spec.named_line form (bodies.opened body.old) (beginnings.result_name (bodies.opened body.old).next name.now.symbol name.now)) tokens.old) result body.new tokens.new }
{
    open(tokens.alloc(), body);
    tokens.word(Symbol::Equals)?;
    let symbol = value_word_of(body.phis, &tokens.lexeme())?;
    tokens.advance();
    named_instruction(tokens, form, body, name, symbol)
}

/// Reads an instruction after its first word, in a block, where no name stands in front of it.
fn unnamed_line(
    tokens: &mut Tokens<'_>,
    form: Form,
    body: &mut BodySoFar,
    symbol: Symbol,
) -> Result<(), Cause>
    requires next { body.old.next + 2 < 2 ^ 32 }
    requires count { body.old.count + 1 < 2 ^ 32 }
    ensures { Leaves (run (spec.instruction form (bodies.opened body.old) None symbol) tokens.old) result body.new tokens.new }
{
    open(tokens.alloc(), body);
    instruction(tokens, form, body, &mut None, symbol)
}

/// Reads a line, which the next token begins, and adds it to the body.
#[tactic(auto, unfolding(ms_text_grammar::specs::Lines::line))]
pub fn line(tokens: &mut Tokens<'_>, form: Form, body: &mut BodySoFar) -> Result<(), Cause>
    requires next { body.old.next + 2 < 2 ^ 32 }
    requires count { HasRoom (front tokens.old).symbol body.old.count }
    ensures { Leaves (run (spec.line form body.old (front tokens.old)) (tail tokens.old)) result body.new tokens.new }
{
    let first = tokens.lexeme();
    tokens.advance();
    match first.symbol() {
        Symbol::Label | Symbol::NumberedLabel => Ok(label_line(tokens.alloc(), body, &first)?),
        Symbol::DebugGroup => record_line(tokens, form, body),
        Symbol::Local | Symbol::NumberedLocal => named_line(tokens, form, body, &first),
        _ => unnamed_line(tokens, form, body, first.symbol()),
    }
}

/// Line after line of a body.
#[derive(Clone, Copy)]
struct EachLine {
    form: Form,
}

impl Turn for EachLine {
    type State = BodySoFar;

    ghost use Rattle.ms_text_grammar.specs.{Bodies.{line_begins}, Lines.{line}};

    ghost begins = { λ rule. line_begins rule.form };

    ghost body = { λ rule. line rule.form };

    fn goes_on(&self, state: &BodySoFar, tokens: &Tokens<'_>) -> Result<bool, Cause> {
        line_begins(tokens, self.form, state)
    }

    #[tactic(auto, using(crate::proofs::Begun::next_left, crate::proofs::Begun::room_left))]
    fn turn(&self, state: BodySoFar, tokens: &mut Tokens<'_>) -> Result<BodySoFar, Cause> {
        let mut body = state;
        line(tokens, self.form, &mut body)?;
        Ok(body)
    }
}

/// Takes the brace after the blocks of a body, where one stands and none is open, and gives the blocks.
fn closed(tokens: &mut Tokens<'_>, body: &mut BodySoFar) -> Result<List<Block>, Cause>
    ensures { Gives (run (closed_piece body.old) tokens.old) result tokens.new }
{
    if is_open(&body.name) || body.blocks.as_slice().is_empty() {
        return Err(tokens.refusal());
    }
    tokens.word(Symbol::CloseBrace)?;
    Ok(mem::replace(&mut body.blocks, List::from_vec(Vec::new(tokens.alloc()))))
}

/// Reads the blocks of a function after `{`, up to and with `}`, from a body that none has begun in.
///
/// # Errors
///
/// At the first token that can't stand: those of `line_begins` at the first token of a line, those of the lines, and
/// `Syntax` or `Outside` where a block is open that no terminator has ended, or where no block stands.
#[tactic(auto, unfolding(ms_text_grammar::specs::Lines::blocks))]
pub fn blocks(tokens: &mut Tokens<'_>, form: Form, start: BodySoFar) -> Result<List<Block>, Cause>
    ensures { Gives (run (spec.blocks form start) tokens.old) result tokens.new }
{
    let mut body = repeat(tokens, &EachLine { form }, start)?;
    closed(tokens, &mut body)
}
