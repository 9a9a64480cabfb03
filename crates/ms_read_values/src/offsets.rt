//! Reads constant `getelementptr` (LLVM Language Reference, "Constant Expressions"), each a step from its base: a type and
//! indices. `depth` is how many arrays and structs may still open in a type, `within` how many more `getelementptr` may stand in
//! the base, one within another.

ghost use Rattle.std.specs.Prelude.{◌≡◌, ◌∷◌, IfOk, length, true};
ghost use Rattle.ms_lex.specs.Grammar.{give};
ghost use Rattle.ms_text_grammar.specs.Steps.{comma_begins};
ghost use Rattle.ms_text_grammar.specs.Values as spec;
ghost use Rattle.ms_read_cursor.specs.Reading.{Gives, Judges, run};
ghost use Rattle.ms_read_values.specs.Narrow.{IsWidth};
ghost use Rattle.ms_read_values.specs.Rests as rest;

use crate::numbers::number;
use crate::types::{int_type_of, type_to};
use ms_bits::{Boxed, List, NoMemory};
use ms_ir::{Form, Name, Operand, Ty};
use ms_read_cursor::{Lexeme, Tokens, Turn, global, repeat, with_last};
use ms_text_grammar::{Cause, Limit, Symbol};

/// Whether a word may stand after `getelementptr`.
fn is_gep_word(symbol: Symbol) -> bool
    ensures { result ≡ spec.is_gep_word symbol }
{
    matches!(symbol, Symbol::InBounds | Symbol::Nuw | Symbol::Nusw)
}

/// The words after `getelementptr` that are read over.
struct StepWords;

impl Turn for StepWords {
    type State = ();

    ghost begins = { λ _. spec.gep_word_begins };

    ghost body = { λ _ u _. give u };

    fn goes_on(&self, _state: &(), tokens: &Tokens<'_>) -> Result<bool, Cause> {
        Ok(is_gep_word(tokens.peek()))
    }

    fn turn(&self, _state: (), tokens: &mut Tokens<'_>) -> Result<(), Cause> {
        tokens.advance();
        Ok(())
    }
}

/// Reads over the words that may stand after `getelementptr`.
#[tactic(auto, unfolding(ms_text_grammar::specs::Values::gep_words))]
pub fn gep_words(tokens: &mut Tokens<'_>) -> Result<(), Cause>
    ensures { Gives (run spec.gep_words tokens.old) result tokens.new }
{
    repeat(tokens, &StepWords, ())
}

/// The type of an index in front of which `before` others stand.
///
/// # Errors
///
/// `Limit(Indices)` where 64 stand there.
pub fn index_type_of(before: usize, token: &Lexeme<'_>) -> Result<u8, Cause>
    ensures exact { Judges (spec.index_type_of before token.now) result }
    ensures narrow { IfOk result IsWidth }
{
    let width = int_type_of(token)?;
    if before < 64 {
        Ok(width)
    } else {
        Err(Cause::Limit(Limit::Indices))
    }
}

/// Reads the number of an index of this width, and adds it to the indices in front.
fn index_rest(
    tokens: &mut Tokens<'_>,
    width: u8,
    found: List<(Ty, u64)>,
) -> Result<List<(Ty, u64)>, Cause>
    requires { IsWidth width }
    ensures { Gives (run (rest.index_rest width found) tokens.old) result tokens.new }
{
    let n = number(tokens, width)?;
    Ok(with_last(found, (Ty::Int(width), n))?)
}

/// Reads an index with its type, and adds it to the indices in front.
#[tactic(auto, unfolding(ms_text_grammar::specs::Values::constant_index))]
fn constant_index(tokens: &mut Tokens<'_>, found: List<(Ty, u64)>) -> Result<List<(Ty, u64)>, Cause>
    ensures { Gives (run (spec.constant_index found) tokens.old) result tokens.new }
{
    let width = index_type_of(found.as_slice().len(), &tokens.lexeme())?;
    tokens.advance();
    index_rest(tokens, width, found)
}

/// The indices, each after a comma.
struct ConstantIndices;

impl Turn for ConstantIndices {
    type State = List<(Ty, u64)>;

    ghost begins = { λ _. comma_begins (λ _. true) };

    ghost body = { λ _ found _. spec.constant_index found };

    fn goes_on(&self, _state: &List<(Ty, u64)>, tokens: &Tokens<'_>) -> Result<bool, Cause> {
        Ok(tokens.sees(Symbol::Comma))
    }

    fn turn(
        &self,
        state: List<(Ty, u64)>,
        tokens: &mut Tokens<'_>,
    ) -> Result<List<(Ty, u64)>, Cause> {
        tokens.advance();
        constant_index(tokens, state)
    }
}

/// The indices after the base, each after a comma.
#[tactic(auto, unfolding(ms_text_grammar::specs::Values::constant_indices))]
fn constant_indices(tokens: &mut Tokens<'_>) -> Result<List<(Ty, u64)>, Cause>
    ensures { Gives (run spec.constant_indices tokens.old) result tokens.new }
{
    let none = List::from_vec(Vec::new(tokens.alloc()));
    repeat(tokens, &ConstantIndices, none)
}

/// A global, and the steps that lead on from it, the outermost first.
type Stepped = (Boxed<Name>, List<(Ty, List<(Ty, u64)>)>);

/// An address with one step more in front of the others: that of a `getelementptr` round them.
fn around(address: Stepped, ty: Ty, indices: List<(Ty, u64)>) -> Result<Stepped, NoMemory>
    ensures { IfOk result (λ a. a ≡ (address.0, (ty, indices) ∷ address.1)) }
{
    let (base, inner) = address;
    let mut steps = inner.into_vec();
    steps.insert(0, (ty, indices))?;
    Ok((base, List::from_vec(steps)))
}

/// Reads the indices after the base, and `)`.
fn step_end(tokens: &mut Tokens<'_>, ty: Ty, from: Stepped) -> Result<Stepped, Cause>
    ensures { Gives (run (rest.step_end ty from) tokens.old) result tokens.new }
{
    let indices = constant_indices(tokens)?;
    tokens.word(Symbol::CloseParen)?;
    Ok(around(from, ty, indices)?)
}

/// Reads `, ptr`, the base, the indices and `)` after the type.
#[cycle(bases)]
fn step_rest(
    tokens: &mut Tokens<'_>,
    form: Form,
    depth: u8,
    within: u8,
    ty: Ty,
) -> Result<Stepped, Cause>
    ensures { Gives (run (rest.step_rest (spec.base_to form depth within) ty) tokens.old) result tokens.new }
{
    tokens.word(Symbol::Comma)?;
    tokens.word(Symbol::PtrType)?;
    let from = base_to(tokens, form, depth, within)?;
    step_end(tokens, ty, from)
}

/// What stands after `getelementptr` in a constant, in whose base `within` more may stand.
#[cycle(bases)]
#[tactic(auto, unfolding(ms_text_grammar::specs::Values::gep_from))]
fn gep_from(tokens: &mut Tokens<'_>, form: Form, depth: u8, within: u8) -> Result<Stepped, Cause>
    ensures { Gives (run (spec.gep_from form depth (spec.base_to form depth within)) tokens.old) result tokens.new }
{
    gep_words(tokens)?;
    tokens.word(Symbol::OpenParen)?;
    let ty = type_to(tokens, form, depth)?;
    step_rest(tokens, form, depth, within, ty)
}

/// Another `getelementptr` as a base, where `within` may stand.
#[cycle(bases)]
#[tactic(auto, using(crate::proofs::Bases::inner_ends, crate::proofs::Bases::inner_goes))]
fn inner_step(tokens: &mut Tokens<'_>, form: Form, depth: u8, within: u8) -> Result<Stepped, Cause>
    ensures { Gives (run (rest.inner_step form depth within) tokens.old) result tokens.new }
{
    if within == 0 {
        return Err(Cause::Limit(Limit::Indices));
    }
    tokens.advance();
    gep_from(tokens, form, depth, within - 1)
}

/// A global as a base.
fn global_base(tokens: &mut Tokens<'_>, form: Form) -> Result<Stepped, Cause>
    ensures { Gives (run (rest.global_base form) tokens.old) result tokens.new }
{
    let base = Boxed::new(tokens.alloc(), global(tokens, form)?)?;
    Ok((base, List::from_vec(Vec::new(tokens.alloc()))))
}

/// The base of a `getelementptr`, in which `within` more may stand, one within another.
///
/// # Errors
///
/// `Limit(Indices)` at the one that is too many.
#[cycle(bases)]
#[tactic(auto, using(crate::proofs::Bases::base_is))]
fn base_to(tokens: &mut Tokens<'_>, form: Form, depth: u8, within: u8) -> Result<Stepped, Cause>
    ensures { Gives (run (spec.base_to form depth within) tokens.old) result tokens.new }
{
    match tokens.peek() {
        Symbol::GetElementPtr => inner_step(tokens, form, depth, within),
        _ => global_base(tokens, form),
    }
}

/// What stands after `getelementptr` in a constant: at most 64 of them one within another.
#[tactic(auto, unfolding(ms_text_grammar::specs::Values::offset))]
pub fn offset(tokens: &mut Tokens<'_>, form: Form, depth: u8) -> Result<Operand, Cause>
    ensures { Gives (run (spec.offset form depth) tokens.old) result tokens.new }
{
    let (base, steps) = gep_from(tokens, form, depth, 63)?;
    Ok(Operand::Offset(base, steps))
}
