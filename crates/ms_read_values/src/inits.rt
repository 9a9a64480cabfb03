//! Reads initialisers of globals (LLVM Language Reference, "Complex Constants"). `depth` is how many arrays and structs may still
//! open.

ghost use Rattle.std.specs.Prelude.{◌≡◌, false};
ghost use Rattle.ms_text_grammar.specs.{Lexemes.{is}, Steps.{items, refuse}};
ghost use Rattle.ms_text_grammar.specs.Values as spec;
ghost use Rattle.ms_read_cursor.specs.{Lists.{further_items}, Reading.{Gives, front, run}};
ghost use Rattle.ms_read_values.specs.Parts.{part_of};

use crate::types::{boxed_type, opens, packed_brace};
use crate::values::value_within;
use ms_bits::List;
use ms_ir::{Form, Init, Ty};
use ms_read_cursor::{Tokens, single, with_last};
use ms_text_grammar::{Cause, Limit, Symbol};

/// The parts of an initial value, with their types.
type Parts = List<(Ty, Init)>;

/// An initialiser that opens no bracket, of a type.
fn flat_init(tokens: &mut Tokens<'_>, form: Form, depth: u8, ty: &Ty) -> Result<Init, Cause>
    ensures { Gives (run (spec.flat_init form depth ty.now (front tokens.old).symbol) tokens.old) result tokens.new }
{
    match tokens.peek() {
        Symbol::ZeroInitializer => {
            tokens.advance();
            Ok(Init::Zero)
        }
        Symbol::CText => {
            let bytes = tokens.lexeme().name(tokens.alloc())?;
            tokens.advance();
            Ok(Init::Text(bytes))
        }
        _ => {
            let value = value_within(tokens, form, depth, false, ty)?;
            Ok(Init::Value(value))
        }
    }
}

/// Takes an initialiser of a type, in which at most `depth` arrays and structs may still open.
///
/// # Errors
///
/// `Limit(Types)` at the token that opens one more.
#[cycle(inits)]
#[tactic(auto, using(crate::proofs::Depths::init_flat, crate::proofs::Depths::init_ends, crate::proofs::Depths::init_opens))]
pub fn init_to(tokens: &mut Tokens<'_>, form: Form, depth: u8, ty: &Ty) -> Result<Init, Cause>
    ensures { Gives (run (spec.init_to form depth ty.now) tokens.old) result tokens.new }
{
    if !opens(tokens.peek()) {
        return flat_init(tokens, form, depth, ty);
    }
    if depth == 0 {
        return Err(Cause::Limit(Limit::Types));
    }
    nested_init(tokens, form, depth - 1)
}

/// An initialiser that opens an array or a struct.
#[cycle(inits)]
fn nested_init(tokens: &mut Tokens<'_>, form: Form, depth: u8) -> Result<Init, Cause>
    ensures { Gives (run (spec.nested_init (part_of form depth) refuse (front tokens.old).symbol) tokens.old) result tokens.new }
{
    match tokens.peek() {
        Symbol::OpenBracket => {
            tokens.advance();
            array_init(tokens, form, depth)
        }
        Symbol::OpenBrace => {
            tokens.advance();
            struct_init(tokens, form, depth)
        }
        Symbol::Less => {
            tokens.advance();
            packed_init(tokens, form, depth)
        }
        _ => Err(tokens.refusal()),
    }
}

/// The items of an array, after `[`.
#[cycle(inits)]
#[tactic(auto, unfolding(ms_text_grammar::specs::Values::array_init))]
fn array_init(tokens: &mut Tokens<'_>, form: Form, depth: u8) -> Result<Init, Cause>
    ensures { Gives (run (spec.array_init (part_of form depth)) tokens.old) result tokens.new }
{
    let all = parts(tokens, form, depth, Symbol::CloseBracket)?;
    Ok(Init::Array(all))
}

/// The fields of a struct, after `{`.
#[cycle(inits)]
#[tactic(auto, unfolding(ms_text_grammar::specs::Values::struct_init))]
fn struct_init(tokens: &mut Tokens<'_>, form: Form, depth: u8) -> Result<Init, Cause>
    ensures { Gives (run (spec.struct_init (part_of form depth)) tokens.old) result tokens.new }
{
    let all = parts(tokens, form, depth, Symbol::CloseBrace)?;
    Ok(Init::Struct(false, all))
}

/// `{`, the fields of a packed struct and `}>`, after `<`.
#[cycle(inits)]
#[tactic(auto, unfolding(ms_text_grammar::specs::Values::packed_init))]
fn packed_init(tokens: &mut Tokens<'_>, form: Form, depth: u8) -> Result<Init, Cause>
    ensures { Gives (run (spec.packed_init (part_of form depth)) tokens.old) result tokens.new }
{
    packed_brace(tokens)?;
    let all = parts(tokens, form, depth, Symbol::CloseBrace)?;
    tokens.word(Symbol::Greater)?;
    Ok(Init::Struct(true, all))
}

/// An item of an array or a field of a struct: a type and the initialiser after it.
#[cycle(inits)]
#[tactic(auto, unfolding(crate::specs::Parts::part_of))]
fn part(tokens: &mut Tokens<'_>, form: Form, depth: u8) -> Result<(Ty, Init), Cause>
    ensures { Gives (run (part_of form depth) tokens.old) result tokens.new }
{
    let ty = boxed_type(tokens, form, depth)?;
    let init = init_to(tokens, form, depth, ty.get())?;
    Ok((ty.into_inner(), init))
}

/// Reads further parts after commas, and adds them to those in front.
#[cycle(inits)]
#[tactic(auto, using(ms_read_cursor::proofs::ItemLoops::more_goes, ms_read_cursor::proofs::ItemLoops::more_stops, ms_read_cursor::proofs::ItemLoops::more_ends, ms_read_cursor::proofs::ItemLoops::turn_shorter))]
fn more_parts(tokens: &mut Tokens<'_>, form: Form, depth: u8, start: Parts) -> Result<Parts, Cause>
    ensures { Gives (run (further_items (part_of form depth) start) tokens.old) result tokens.new }
{
    let mut found = start;
    'commas: while tokens.sees(Symbol::Comma) {
        tokens.advance();
        let part = part(tokens, form, depth)?;
        found = with_last(found, part)?;
    }
    Ok(found)
}

/// Parts with commas between, up to the closing symbol, which doesn't come first.
#[cycle(inits)]
#[tactic(auto, using(ms_read_cursor::proofs::ItemLoops::items_whole, ms_read_cursor::proofs::ItemLoops::items_cut, ms_read_cursor::proofs::ItemLoops::items_open, ms_read_cursor::proofs::ItemLoops::items_stop))]
fn some_parts(
    tokens: &mut Tokens<'_>,
    form: Form,
    depth: u8,
    closing: Symbol,
) -> Result<Parts, Cause>
    requires { is closing (front tokens.old) ≡ false }
    ensures { Gives (run (items closing (part_of form depth)) tokens.old) result tokens.new }
{
    let first = part(tokens, form, depth)?;
    let start = single(tokens.alloc(), first)?;
    let all = more_parts(tokens, form, depth, start)?;
    tokens.word(closing)?;
    Ok(all)
}

/// No part, or parts with commas between, up to the closing symbol.
#[cycle(inits)]
#[tactic(auto, using(ms_read_cursor::proofs::ItemLoops::items_empty))]
fn parts(tokens: &mut Tokens<'_>, form: Form, depth: u8, closing: Symbol) -> Result<Parts, Cause>
    ensures { Gives (run (items closing (part_of form depth)) tokens.old) result tokens.new }
{
    if tokens.sees(closing) {
        tokens.advance();
        Ok(List::from_vec(Vec::new(tokens.alloc())))
    } else {
        some_parts(tokens, form, depth, closing)
    }
}
