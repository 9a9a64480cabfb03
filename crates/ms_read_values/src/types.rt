//! Reads types (LLVM Language Reference, "Type System"). `depth` is how many arrays and structs may still open.

ghost use Rattle.std.specs.Prelude.{◌≡◌, IfOk, false};
ghost use Rattle.ms_text_grammar.specs.{declared.symbols.Symbol.TheVariants.{CloseBrace}, Lexemes.{is}, Steps.{items}};
ghost use Rattle.ms_text_grammar.specs.Types as spec;
ghost use Rattle.ms_read_cursor.specs.{Lists.{further_items}, Reading.{Gives, Judges, front, run}};
ghost use Rattle.ms_read_values.specs.Narrow.{IsWidth};
ghost use Rattle.ms_read_values.specs.Rests as rest;

use crate::value_types::ScalarType;
use ms_bits::{Boxed, List};
use ms_ir::{Form, Ty};
use ms_read_cursor::{Lexeme, Tokens, local, same_symbol, single, with_last};
use ms_text_grammar::{Cause, Limit, Outside, Symbol};

/// The width of the integer type that a token is.
pub fn int_type_of(token: &Lexeme<'_>) -> Result<u8, Cause>
    ensures exact { Judges (spec.int_type_of token.now) result }
    ensures narrow { IfOk result IsWidth }
{
    if same_symbol(token.symbol(), Symbol::IntType) {
        Ok(token.width())
    } else {
        Err(token.refusal())
    }
}

/// Takes an integer type, by its width.
#[tactic(auto, unfolding(ms_text_grammar::specs::Types::int_type))]
pub fn int_type(tokens: &mut Tokens<'_>) -> Result<u8, Cause>
    ensures exact { Gives (run spec.int_type tokens.old) result tokens.new }
    ensures narrow { IfOk result IsWidth }
{
    let width = int_type_of(&tokens.lexeme())?;
    tokens.advance();
    Ok(width)
}

/// The type of a value that a token is.
///
/// # Errors
///
/// `Outside(AggregateValue)` where it begins an array or a struct or names a type.
pub fn value_type_of(token: &Lexeme<'_>) -> Result<ScalarType, Cause>
    ensures { Judges (spec.value_type_by token.now.symbol token.now) result }
{
    match token.symbol() {
        Symbol::PtrType => Ok(ScalarType::ptr()),
        Symbol::IntType => Ok(ScalarType::int(token.width())),
        Symbol::OpenBracket
        | Symbol::OpenBrace
        | Symbol::Less
        | Symbol::Local
        | Symbol::NumberedLocal => Err(Cause::Outside(Outside::AggregateValue)),
        _ => Err(token.refusal()),
    }
}

/// Takes the type of a value: `iN` or `ptr`.
#[tactic(auto, unfolding(ms_text_grammar::specs::Types::value_type))]
pub fn value_type(tokens: &mut Tokens<'_>) -> Result<ScalarType, Cause>
    ensures { Gives (run spec.value_type tokens.old) result tokens.new }
{
    let ty = value_type_of(&tokens.lexeme())?;
    tokens.advance();
    Ok(ty)
}

/// Takes `void`, which is no type, or the type of a value.
#[tactic(auto, unfolding(ms_text_grammar::specs::Types::result_type))]
pub fn result_type(tokens: &mut Tokens<'_>) -> Result<Option<ScalarType>, Cause>
    ensures { Gives (run spec.result_type tokens.old) result tokens.new }
{
    match tokens.peek() {
        Symbol::Void => {
            tokens.advance();
            Ok(None)
        }
        _ => {
            let ty = value_type(tokens)?;
            Ok(Some(ty))
        }
    }
}

/// How many items an array has, by its token.
fn count_of(token: &Lexeme<'_>) -> Result<u64, Cause>
    ensures { Judges (spec.count_of token.now) result }
{
    if !token.is(Symbol::Number) {
        return Err(token.refusal());
    }
    match token.number() {
        Some(n) => {
            if n >= 0 {
                Ok(n as u64)
            } else {
                Err(token.refusal())
            }
        }
        None => Err(token.refusal()),
    }
}

/// Takes how many items an array has.
#[tactic(auto, unfolding(ms_text_grammar::specs::Types::count))]
fn count(tokens: &mut Tokens<'_>) -> Result<u64, Cause>
    ensures { Gives (run spec.count tokens.old) result tokens.new }
{
    let n = count_of(&tokens.lexeme())?;
    tokens.advance();
    Ok(n)
}

/// A type that opens no bracket.
fn flat(tokens: &mut Tokens<'_>, form: Form) -> Result<Ty, Cause>
    ensures { Gives (run (spec.flat form (front tokens.old).symbol) tokens.old) result tokens.new }
{
    match tokens.peek() {
        Symbol::PtrType | Symbol::IntType => {
            let ty = value_type(tokens)?;
            Ok(ty.ty())
        }
        Symbol::Local | Symbol::NumberedLocal => {
            let name = local(tokens, form)?;
            Ok(Ty::Named(name))
        }
        _ => Err(tokens.refusal()),
    }
}

/// Whether a symbol opens an array, a struct or a packed struct.
pub fn opens(symbol: Symbol) -> bool
    ensures { result ≡ spec.opens symbol }
{
    matches!(
        symbol,
        Symbol::OpenBracket | Symbol::OpenBrace | Symbol::Less
    )
}

/// A type where no more arrays and structs may open.
fn too_deep(tokens: &mut Tokens<'_>, form: Form) -> Result<Ty, Cause>
    ensures { Gives (run (spec.too_deep form (front tokens.old).symbol) tokens.old) result tokens.new }
{
    if opens(tokens.peek()) {
        return Err(Cause::Limit(Limit::Types));
    }
    flat(tokens, form)
}

/// That the token after `<` is `{`, which begins a packed struct; a number would begin a vector.
fn brace_of(token: &Lexeme<'_>) -> Result<(), Cause>
    ensures { Judges (spec.brace_of token.now) result }
{
    if token.is(Symbol::OpenBrace) {
        return Ok(());
    }
    if token.is(Symbol::Number) {
        return Err(Cause::Outside(Outside::Vector));
    }
    Err(token.refusal())
}

/// Takes `{` after `<`.
///
/// # Errors
///
/// `Outside(Vector)` where a number stands there.
#[tactic(auto, unfolding(ms_text_grammar::specs::Types::packed_brace))]
pub fn packed_brace(tokens: &mut Tokens<'_>) -> Result<(), Cause>
    ensures { Gives (run spec.packed_brace tokens.old) result tokens.new }
{
    brace_of(&tokens.lexeme())?;
    tokens.advance();
    Ok(())
}

/// Takes a type in which at most `depth` arrays and structs may still open.
///
/// # Errors
///
/// `Limit(Types)` at the token that opens one more.
#[cycle(types)]
#[tactic(auto, using(crate::proofs::Depths::type_ends, crate::proofs::Depths::type_nests))]
pub fn type_to(tokens: &mut Tokens<'_>, form: Form, depth: u8) -> Result<Ty, Cause>
    ensures { Gives (run (spec.type_to form depth) tokens.old) result tokens.new }
{
    if depth == 0 {
        return too_deep(tokens, form);
    }
    nested(tokens, form, depth - 1)
}

/// Takes a type in which at most `depth` arrays and structs may still open, onto the heap. Its errors are those of `type_to`.
pub fn boxed_type(tokens: &mut Tokens<'_>, form: Form, depth: u8) -> Result<Boxed<Ty>, Cause>
    ensures { Gives (run (spec.type_to form depth) tokens.old) result tokens.new }
{
    let ty = type_to(tokens, form, depth)?;
    Ok(Boxed::new(tokens.alloc(), ty)?)
}

/// A type by its first token, with its parts.
#[cycle(types)]
fn nested(tokens: &mut Tokens<'_>, form: Form, depth: u8) -> Result<Ty, Cause>
    ensures { Gives (run (spec.nested form (spec.type_to form depth) (front tokens.old).symbol) tokens.old) result tokens.new }
{
    match tokens.peek() {
        Symbol::OpenBracket => {
            tokens.advance();
            array_rest(tokens, form, depth)
        }
        Symbol::OpenBrace => {
            tokens.advance();
            struct_rest(tokens, form, depth)
        }
        Symbol::Less => {
            tokens.advance();
            packed_rest(tokens, form, depth)
        }
        _ => flat(tokens, form),
    }
}

/// Reads the type of an array's items, after their number, and `]`.
#[cycle(types)]
fn array_item(tokens: &mut Tokens<'_>, form: Form, depth: u8, n: u64) -> Result<Ty, Cause>
    ensures { Gives (run (rest.array_item (spec.type_to form depth) n) tokens.old) result tokens.new }
{
    let item = Boxed::new(tokens.alloc(), type_to(tokens, form, depth)?)?;
    tokens.word(Symbol::CloseBracket)?;
    Ok(Ty::Array(n, item))
}

/// An array after `[`: how many items, `x`, their type and `]`.
#[cycle(types)]
#[tactic(auto, unfolding(ms_text_grammar::specs::Types::array_rest))]
fn array_rest(tokens: &mut Tokens<'_>, form: Form, depth: u8) -> Result<Ty, Cause>
    ensures { Gives (run (spec.array_rest (spec.type_to form depth)) tokens.old) result tokens.new }
{
    let n = count(tokens)?;
    tokens.word(Symbol::X)?;
    array_item(tokens, form, depth, n)
}

/// A struct after `{`.
#[cycle(types)]
#[tactic(auto, unfolding(ms_text_grammar::specs::Types::struct_rest))]
fn struct_rest(tokens: &mut Tokens<'_>, form: Form, depth: u8) -> Result<Ty, Cause>
    ensures { Gives (run (spec.struct_rest (spec.type_to form depth)) tokens.old) result tokens.new }
{
    let all = fields(tokens, form, depth)?;
    Ok(Ty::Struct(false, all))
}

/// A packed struct after `<`.
#[cycle(types)]
#[tactic(auto, unfolding(ms_text_grammar::specs::Types::packed_rest))]
fn packed_rest(tokens: &mut Tokens<'_>, form: Form, depth: u8) -> Result<Ty, Cause>
    ensures { Gives (run (spec.packed_rest (spec.type_to form depth)) tokens.old) result tokens.new }
{
    packed_brace(tokens)?;
    let all = fields(tokens, form, depth)?;
    tokens.word(Symbol::Greater)?;
    Ok(Ty::Struct(true, all))
}

/// Reads further types after commas, and adds them to those in front.
#[cycle(types)]
#[tactic(auto, using(ms_read_cursor::proofs::ItemLoops::more_goes, ms_read_cursor::proofs::ItemLoops::more_stops, ms_read_cursor::proofs::ItemLoops::more_ends, ms_read_cursor::proofs::ItemLoops::turn_shorter))]
fn more_fields(
    tokens: &mut Tokens<'_>,
    form: Form,
    depth: u8,
    start: List<Ty>,
) -> Result<List<Ty>, Cause>
    ensures { Gives (run (further_items (spec.type_to form depth) start) tokens.old) result tokens.new }
{
    let mut found = start;
    'commas: while tokens.sees(Symbol::Comma) {
        tokens.advance();
        let ty = type_to(tokens, form, depth)?;
        found = with_last(found, ty)?;
    }
    Ok(found)
}

/// Types of fields with commas between, up to `}`, which doesn't come first.
#[cycle(types)]
#[tactic(auto, using(ms_read_cursor::proofs::ItemLoops::items_whole, ms_read_cursor::proofs::ItemLoops::items_cut, ms_read_cursor::proofs::ItemLoops::items_open, ms_read_cursor::proofs::ItemLoops::items_stop))]
fn some_fields(tokens: &mut Tokens<'_>, form: Form, depth: u8) -> Result<List<Ty>, Cause>
    requires { is CloseBrace (front tokens.old) ≡ false }
    ensures { Gives (run (items CloseBrace (spec.type_to form depth)) tokens.old) result tokens.new }
{
    let first = type_to(tokens, form, depth)?;
    let start = single(tokens.alloc(), first)?;
    let all = more_fields(tokens, form, depth, start)?;
    tokens.word(Symbol::CloseBrace)?;
    Ok(all)
}

/// No type, or types of fields with commas between, up to `}`.
#[cycle(types)]
#[tactic(auto, using(ms_read_cursor::proofs::ItemLoops::items_empty))]
fn fields(tokens: &mut Tokens<'_>, form: Form, depth: u8) -> Result<List<Ty>, Cause>
    ensures { Gives (run (items CloseBrace (spec.type_to form depth)) tokens.old) result tokens.new }
{
    if tokens.sees(Symbol::CloseBrace) {
        tokens.advance();
        Ok(List::from_vec(Vec::new(tokens.alloc())))
    } else {
        some_fields(tokens, form, depth)
    }
}

/// Takes the struct that a named type is. In it 31 arrays and structs may open.
#[tactic(auto, unfolding(ms_text_grammar::specs::Types::struct_type))]
pub fn struct_type(tokens: &mut Tokens<'_>, form: Form) -> Result<Ty, Cause>
    ensures { Gives (run (spec.struct_type form) tokens.old) result tokens.new }
{
    match tokens.peek() {
        Symbol::OpenBrace => {
            tokens.advance();
            struct_rest(tokens, form, 31)
        }
        Symbol::Less => {
            tokens.advance();
            packed_rest(tokens, form, 31)
        }
        _ => Err(tokens.refusal()),
    }
}
