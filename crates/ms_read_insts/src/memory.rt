//! Reads instructions that reach memory or compute addresses (LLVM Language Reference, "Memory Access and Addressing
//! Operations").

ghost use Rattle.std.specs.Prelude.{◌≡◌, ◌∷◌, ◌++◌, [], IfOk, false};
ghost use Rattle.ms_ir.specs.declared.syntax.Op.TheVariants as operation;
ghost use Rattle.ms_lex.specs.Grammar.{one};
ghost use Rattle.ms_text_grammar.specs.Values as values;
ghost use Rattle.ms_text_grammar.specs.Insts as spec;
ghost use Rattle.ms_read_cursor.specs.Reading.{Gives, run};
ghost use Rattle.ms_read_insts.specs.Rests as rest;

use ms_bits::{Boxed, List, NoMemory};
use ms_ir::{Form, Op, Operand, Ty};
use ms_read_cursor::{Tokens, Turn, repeat, with_last};
use ms_read_values::{
    ScalarType, boxed_type, gep_words, index_type_of, suffixes_from, value, value_type,
};
use ms_text_grammar::{Cause, Indices, Symbol};
use std::alloc::Global;

/// How many arrays and structs may be open at once.
const MAX_DEPTH: u8 = 32;

/// Takes `, ptr` and an address.
#[tactic(auto, unfolding(ms_text_grammar::specs::Insts::address))]
fn address(tokens: &mut Tokens<'_>, form: Form) -> Result<Boxed<Operand>, Cause>
    ensures { Gives (run (spec.address form) tokens.old) result tokens.new }
{
    tokens.word(Symbol::Comma)?;
    tokens.word(Symbol::PtrType)?;
    value(tokens, form, ScalarType::ptr())
}

/// Reads a `load` after its word: `type, ptr address`.
///
/// # Errors
///
/// Those of its parts: `Syntax` or `Outside` at a token that can't stand.
#[tactic(auto, unfolding(ms_text_grammar::specs::Insts::load_rule))]
pub fn load_rule(tokens: &mut Tokens<'_>, form: Form) -> Result<Boxed<Op>, Cause>
    ensures { Gives (run (spec.load_rule form) tokens.old) result tokens.new }
{
    let ty = value_type(tokens)?;
    let addr = address(tokens, form)?;
    let read = Op::Load {
        ty: ty.ty(),
        addr: addr.into_inner(),
    };
    Ok(Boxed::new(tokens.alloc(), read)?)
}

/// A `store` as an operation.
fn store_of(
    alloc: Global,
    ty: ScalarType,
    value: Boxed<Operand>,
    addr: Boxed<Operand>,
) -> Result<Boxed<Op>, NoMemory>
    ensures { IfOk result (λ o. o ≡ operation.Store ty value addr) }
{
    Boxed::new(
        alloc,
        Op::Store {
            ty: ty.ty(),
            value: value.into_inner(),
            addr: addr.into_inner(),
        },
    )
}

/// Reads a `store` after its word: `type value, ptr address`.
///
/// # Errors
///
/// Those of its parts.
#[tactic(auto, unfolding(ms_text_grammar::specs::Insts::store_rule))]
pub fn store_rule(tokens: &mut Tokens<'_>, form: Form) -> Result<Boxed<Op>, Cause>
    ensures { Gives (run (spec.store_rule form) tokens.old) result tokens.new }
{
    let ty = value_type(tokens)?;
    let value = value(tokens, form, ty)?;
    let addr = address(tokens, form)?;
    Ok(store_of(tokens.alloc(), ty, value, addr)?)
}

/// The indices before the first one.
fn no_indices(alloc: Global) -> Indices
    ensures { result ≡ spec.no_indices }
{
    Indices {
        found: List::from_vec(Vec::new(alloc)),
        ended: false,
    }
}

/// Takes the type of an index in front of which `before` others stand, by its width.
fn index_width(tokens: &mut Tokens<'_>, before: usize) -> Result<u8, Cause>
    ensures { Gives (run (one (values.index_type_of before)) tokens.old) result tokens.new }
{
    let width = index_type_of(before, &tokens.lexeme())?;
    tokens.advance();
    Ok(width)
}

/// The indices with one more after them.
fn with_index(
    found: List<(Ty, Operand)>,
    ty: ScalarType,
    operand: Boxed<Operand>,
) -> Result<Indices, NoMemory>
    ensures { IfOk result (λ indices. indices ≡ record { found = found ++ (ty, operand) ∷ []; ended = false }) }
{
    let found = with_last(found, (ty.ty(), operand.into_inner()))?;
    Ok(Indices {
        found,
        ended: false,
    })
}

/// Reads a further index, whose type comes next.
fn index(tokens: &mut Tokens<'_>, form: Form, found: List<(Ty, Operand)>) -> Result<Indices, Cause>
    ensures { Gives (run (spec.index_by form found Symbol.IntType) tokens.old) result tokens.new }
{
    let ty = ScalarType::int(index_width(tokens, found.as_slice().len())?);
    let operand = value(tokens, form, ty)?;
    Ok(with_index(found, ty, operand)?)
}

/// Reads an index after its comma, or finds that what is attached begins.
#[tactic(auto, unfolding(ms_text_grammar::specs::Insts::index_turn))]
fn index_turn(
    tokens: &mut Tokens<'_>,
    form: Form,
    found: List<(Ty, Operand)>,
) -> Result<Indices, Cause>
    ensures { Gives (run (spec.index_turn form found) tokens.old) result tokens.new }
{
    match tokens.peek() {
        Symbol::IntType => index(tokens, form, found),
        _ => Ok(Indices { found, ended: true }),
    }
}

/// Index after index of a `getelementptr`.
#[derive(Clone, Copy)]
struct IndexTurn {
    form: Form,
}

impl Turn for IndexTurn {
    type State = Indices;

    ghost use Rattle.ms_text_grammar.specs.Insts.{index_begins, index_turn};

    ghost begins = { λ rule. index_begins };

    ghost body = { λ rule indices comma. index_turn rule.form indices.found };

    fn goes_on(&self, state: &Indices, tokens: &Tokens<'_>) -> Result<bool, Cause> {
        Ok(!state.ended && tokens.sees(Symbol::Comma))
    }

    fn turn(&self, state: Indices, tokens: &mut Tokens<'_>) -> Result<Indices, Cause> {
        tokens.advance();
        let Indices { found, .. } = state;
        index_turn(tokens, self.form, found)
    }
}

/// A `getelementptr` as an operation.
fn step_of(
    alloc: Global,
    ty: Boxed<Ty>,
    base: Boxed<Operand>,
    indices: List<(Ty, Operand)>,
) -> Result<Boxed<Op>, NoMemory>
    ensures { IfOk result (λ o. o ≡ operation.Gep ty base indices) }
{
    Boxed::new(
        alloc,
        Op::Gep {
            ty: ty.into_inner(),
            base: base.into_inner(),
            indices,
        },
    )
}

/// Reads what is attached after the indices, and gives the `getelementptr` and whether it has the mark.
fn step_end(
    tokens: &mut Tokens<'_>,
    form: Form,
    ty: Boxed<Ty>,
    base: Boxed<Operand>,
    indices: Indices,
) -> Result<(Boxed<Op>, bool), Cause>
    ensures { Gives (run (rest.step_end form ty base indices) tokens.old) result tokens.new }
{
    let Indices { found, ended } = indices;
    let marked = suffixes_from(tokens, form, ended)?;
    Ok((step_of(tokens.alloc(), ty, base, found)?, marked))
}

/// Reads the indices after the base, and what is attached.
fn step_rest(
    tokens: &mut Tokens<'_>,
    form: Form,
    ty: Boxed<Ty>,
    base: Boxed<Operand>,
) -> Result<(Boxed<Op>, bool), Cause>
    ensures { Gives (run (rest.step_rest form ty base) tokens.old) result tokens.new }
{
    let indices = repeat(tokens, &IndexTurn { form }, no_indices(tokens.alloc()))?;
    step_end(tokens, form, ty, base, indices)
}

/// Reads a `getelementptr` after its word: `inbounds` and the like, `type, ptr base`, `, iN index` as many as come, and
/// what is attached. The second value is whether that has the mark.
///
/// # Errors
///
/// `Limit(Indices)` at the type of the 65th index, `Limit(Types)` at one bracket too many, and those of its parts.
#[tactic(auto, unfolding(ms_text_grammar::specs::Insts::gep_rule))]
pub fn gep_rule(tokens: &mut Tokens<'_>, form: Form) -> Result<(Boxed<Op>, bool), Cause>
    ensures { Gives (run (spec.gep_rule form) tokens.old) result tokens.new }
{
    gep_words(tokens)?;
    let ty = boxed_type(tokens, form, MAX_DEPTH)?;
    let base = address(tokens, form)?;
    step_rest(tokens, form, ty, base)
}

/// The count of an `alloca`, read as its one index.
#[derive(Clone, Copy)]
struct CountTurn {
    form: Form,
}

impl Turn for CountTurn {
    type State = Indices;

    ghost use Rattle.ms_text_grammar.specs.Insts.{count_begins, index_turn};

    ghost begins = { λ rule. count_begins };

    ghost body = { λ rule indices comma. index_turn rule.form indices.found };

    fn goes_on(&self, state: &Indices, tokens: &Tokens<'_>) -> Result<bool, Cause> {
        Ok(!state.ended && state.found.as_slice().len() == 0 && tokens.sees(Symbol::Comma))
    }

    fn turn(&self, state: Indices, tokens: &mut Tokens<'_>) -> Result<Indices, Cause> {
        tokens.advance();
        let Indices { found, .. } = state;
        index_turn(tokens, self.form, found)
    }
}

/// An `alloca` of one item, which is counted by an `i32`.
fn alloca_of_one(alloc: Global, ty: Boxed<Ty>) -> Result<Boxed<Op>, NoMemory>
    ensures { IfOk result (λ o. o ≡ spec.alloca_of ty []) }
{
    Boxed::new(
        alloc,
        Op::Alloca {
            ty: ty.into_inner(),
            count_ty: Ty::Int(32),
            count: Operand::Int(1),
        },
    )
}

/// An `alloca` with this count and its type.
fn alloca_counted(
    alloc: Global,
    ty: Boxed<Ty>,
    counted: (Ty, Operand),
) -> Result<Boxed<Op>, NoMemory>
    ensures { IfOk result (λ o. o ≡ operation.Alloca ty counted.0 counted.1) }
{
    let (count_ty, count) = counted;
    Boxed::new(
        alloc,
        Op::Alloca {
            ty: ty.into_inner(),
            count_ty,
            count,
        },
    )
}

/// An `alloca` with the count that was written, or else with `i32 1`. At most one count is found.
fn alloca_of(
    alloc: Global,
    ty: Boxed<Ty>,
    found: List<(Ty, Operand)>,
) -> Result<Boxed<Op>, NoMemory>
    ensures { IfOk result (λ o. o ≡ spec.alloca_of ty found) }
{
    let mut counts = found.into_vec();
    if counts.is_empty() {
        return alloca_of_one(alloc, ty);
    }
    alloca_counted(alloc, ty, counts.swap_remove(0))
}

/// Reads what is attached after the count.
fn alloca_end(
    tokens: &mut Tokens<'_>,
    form: Form,
    ty: Boxed<Ty>,
    count: Indices,
) -> Result<(Boxed<Op>, bool), Cause>
    ensures { Gives (run (rest.alloca_end form ty count) tokens.old) result tokens.new }
{
    let Indices { found, ended } = count;
    let marked = suffixes_from(tokens, form, ended)?;
    Ok((alloca_of(tokens.alloc(), ty, found)?, marked))
}

/// Reads the count after the type, where one comes, and what is attached.
fn alloca_rest(
    tokens: &mut Tokens<'_>,
    form: Form,
    ty: Boxed<Ty>,
) -> Result<(Boxed<Op>, bool), Cause>
    ensures { Gives (run (rest.alloca_rest form ty) tokens.old) result tokens.new }
{
    let count = repeat(tokens, &CountTurn { form }, no_indices(tokens.alloc()))?;
    alloca_end(tokens, form, ty, count)
}

/// Reads an `alloca` after its word: `type` and perhaps `, iN count`, and what is attached. The second value is whether
/// that has the mark.
///
/// # Errors
///
/// `Limit(Types)` at one bracket too many, and those of its parts.
#[tactic(auto, unfolding(ms_text_grammar::specs::Insts::alloca_rule))]
pub fn alloca_rule(tokens: &mut Tokens<'_>, form: Form) -> Result<(Boxed<Op>, bool), Cause>
    ensures { Gives (run (spec.alloca_rule form) tokens.old) result tokens.new }
{
    let ty = boxed_type(tokens, form, MAX_DEPTH)?;
    alloca_rest(tokens, form, ty)
}
