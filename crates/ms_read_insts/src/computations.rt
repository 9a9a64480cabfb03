//! Reads operations on words (LLVM Language Reference, "Binary Operations", "Bitwise Binary Operations", "Conversion
//! Operations", "Other Operations").

ghost use Rattle.std.specs.Prelude.{◌≡◌, IfOk};
ghost use Rattle.ms_ir.specs.declared.syntax.Ty.TheVariants as ty;
ghost use Rattle.ms_ir.specs.declared.syntax.Op.TheVariants as operation;
ghost use Rattle.ms_text_grammar.specs.Insts as spec;
ghost use Rattle.ms_read_cursor.specs.Reading.{Gives, Judges, run};
ghost use Rattle.ms_read_insts.specs.Rests as rest;

use crate::flags::{Carrier, flags_of};
use ms_bits::{BinOp, Boxed, CastOp, Flags, NoMemory, Pred};
use ms_ir::{Form, Op, Operand};
use ms_read_cursor::{Lexeme, Tokens, same_symbol};
use ms_read_values::{ScalarType, int_type, value, value_type, value_type_of};
use ms_text_grammar::{Cause, Symbol};
use std::alloc::Global;

/// The part of a two-operand operation that stands before its type: a binary operation or an `icmp`.
#[derive(Clone, Copy)]
enum OnTwo {
    Binary(BinOp, Flags),
    Compare(Pred, Flags),
}

impl OnTwo {
    /// The operation on these operands.
    fn of(
        self,
        alloc: Global,
        ty: ScalarType,
        a: Boxed<Operand>,
        b: Boxed<Operand>,
    ) -> Result<Boxed<Op>, NoMemory>
        ensures { IfOk result (λ o. o ≡ rest.on_two self ty a b) }
    {
        match self {
            OnTwo::Binary(op, flags) => Boxed::new(
                alloc,
                Op::Binary {
                    op,
                    flags,
                    ty: ty.ty(),
                    a: a.into_inner(),
                    b: b.into_inner(),
                },
            ),
            OnTwo::Compare(pred, flags) => Boxed::new(
                alloc,
                Op::Icmp {
                    pred,
                    flags,
                    ty: ty.ty(),
                    a: a.into_inner(),
                    b: b.into_inner(),
                },
            ),
        }
    }
}

/// Reads `, b` after the first operand.
fn second_operand(
    tokens: &mut Tokens<'_>,
    form: Form,
    operation: OnTwo,
    ty: ScalarType,
    a: Boxed<Operand>,
) -> Result<Boxed<Op>, Cause>
    ensures { Gives (run (rest.second_operand form operation ty a) tokens.old) result tokens.new }
{
    tokens.word(Symbol::Comma)?;
    let b = value(tokens, form, ty)?;
    Ok(operation.of(tokens.alloc(), ty, a, b)?)
}

/// Reads `a, b` after their type.
fn two_operands(
    tokens: &mut Tokens<'_>,
    form: Form,
    operation: OnTwo,
    ty: ScalarType,
) -> Result<Boxed<Op>, Cause>
    ensures { Gives (run (rest.two_operands form operation ty) tokens.old) result tokens.new }
{
    let a = value(tokens, form, ty)?;
    second_operand(tokens, form, operation, ty, a)
}

/// Reads a binary operation after its word: `flags iN a, b`.
///
/// # Errors
///
/// Those of its parts: `Syntax` or `Outside` at a token that can't stand, as another type than `iN`.
#[tactic(auto, unfolding(ms_text_grammar::specs::Insts::binary_rule))]
pub fn binary_rule(tokens: &mut Tokens<'_>, form: Form, op: BinOp) -> Result<Boxed<Op>, Cause>
    ensures { Gives (run (spec.binary_rule form op) tokens.old) result tokens.new }
{
    let flags = flags_of(tokens, Carrier::Binary(op))?;
    let ty = ScalarType::int(int_type(tokens)?);
    two_operands(tokens, form, OnTwo::Binary(op, flags), ty)
}

/// The predicate that a word names.
#[tactic(auto, unfolding(ms_text_grammar::specs::Insts::predicate_by))]
fn predicate_by(symbol: Symbol) -> Option<Pred>
    ensures { result ≡ spec.predicate_by symbol }
{
    match symbol {
        Symbol::Eq => Some(Pred::Eq),
        Symbol::Ne => Some(Pred::Ne),
        Symbol::Ugt => Some(Pred::Ugt),
        Symbol::Uge => Some(Pred::Uge),
        Symbol::Ult => Some(Pred::Ult),
        Symbol::Ule => Some(Pred::Ule),
        Symbol::Sgt => Some(Pred::Sgt),
        Symbol::Sge => Some(Pred::Sge),
        Symbol::Slt => Some(Pred::Slt),
        Symbol::Sle => Some(Pred::Sle),
        _ => None,
    }
}

/// Takes a predicate.
#[tactic(auto, unfolding(ms_text_grammar::specs::Insts::predicate_word))]
fn predicate_word(tokens: &mut Tokens<'_>) -> Result<Pred, Cause>
    ensures { Gives (run spec.predicate_word tokens.old) result tokens.new }
{
    match predicate_by(tokens.peek()) {
        Some(pred) => {
            tokens.advance();
            Ok(pred)
        }
        None => Err(tokens.refusal()),
    }
}

/// Reads an `icmp` after its word: `samesign` or nothing, a predicate, and `type a, b`.
///
/// # Errors
///
/// Those of its parts.
#[tactic(auto, unfolding(ms_text_grammar::specs::Insts::compare_rule))]
pub fn compare_rule(tokens: &mut Tokens<'_>, form: Form) -> Result<Boxed<Op>, Cause>
    ensures { Gives (run (spec.compare_rule form) tokens.old) result tokens.new }
{
    let flags = flags_of(tokens, Carrier::Compare)?;
    let pred = predicate_word(tokens)?;
    let ty = value_type(tokens)?;
    two_operands(tokens, form, OnTwo::Compare(pred, flags), ty)
}

/// A cast as an operation.
fn cast_of(
    alloc: Global,
    op: CastOp,
    flags: Flags,
    from: ScalarType,
    a: Boxed<Operand>,
    to: ScalarType,
) -> Result<Boxed<Op>, NoMemory>
    ensures { IfOk result (λ o. o ≡ operation.Cast op flags from a to) }
{
    Boxed::new(
        alloc,
        Op::Cast {
            op,
            flags,
            from: from.ty(),
            a: a.into_inner(),
            to: to.ty(),
        },
    )
}

/// Reads `to type` after the operand of a cast.
fn cast_end(
    tokens: &mut Tokens<'_>,
    op: CastOp,
    flags: Flags,
    from: ScalarType,
    a: Boxed<Operand>,
) -> Result<Boxed<Op>, Cause>
    ensures { Gives (run (rest.cast_end op flags from a) tokens.old) result tokens.new }
{
    tokens.word(Symbol::To)?;
    let to = value_type(tokens)?;
    Ok(cast_of(tokens.alloc(), op, flags, from, a, to)?)
}

/// Reads `a to type` after the type of `a`.
fn cast_rest(
    tokens: &mut Tokens<'_>,
    form: Form,
    op: CastOp,
    flags: Flags,
    from: ScalarType,
) -> Result<Boxed<Op>, Cause>
    ensures { Gives (run (rest.cast_rest form op flags from) tokens.old) result tokens.new }
{
    let a = value(tokens, form, from)?;
    cast_end(tokens, op, flags, from, a)
}

/// Reads a cast after its word: `flags type a to type`.
///
/// # Errors
///
/// Those of its parts.
#[tactic(auto, unfolding(ms_text_grammar::specs::Insts::cast_rule))]
pub fn cast_rule(tokens: &mut Tokens<'_>, form: Form, op: CastOp) -> Result<Boxed<Op>, Cause>
    ensures { Gives (run (spec.cast_rule form op) tokens.old) result tokens.new }
{
    let flags = flags_of(tokens, Carrier::Cast(op))?;
    let from = value_type(tokens)?;
    cast_rest(tokens, form, op, flags, from)
}

/// Whether a token is an integer type of this width.
pub fn is_int_type(width: u8, token: &Lexeme<'_>) -> bool
    ensures { result ≡ spec.spells (ty.Int width) token.now }
{
    same_symbol(token.symbol(), Symbol::IntType) && token.width() == width
}

/// Takes `i1`.
#[tactic(auto, unfolding(ms_text_grammar::specs::Insts::bit_type))]
pub fn bit_type(tokens: &mut Tokens<'_>) -> Result<(), Cause>
    ensures { Gives (run spec.bit_type tokens.old) result tokens.new }
{
    if is_int_type(1, &tokens.lexeme()) {
        tokens.advance();
        Ok(())
    } else {
        Err(tokens.refusal())
    }
}

/// Whether a token spells this type.
fn spells(ty: ScalarType, token: &Lexeme<'_>) -> bool
    ensures { result ≡ spec.spells ty token.now }
{
    match ty.width() {
        Some(width) => is_int_type(width, token),
        None => token.is(Symbol::PtrType),
    }
}

/// Refuses a token that isn't this type of a value.
fn same_type_of(ty: ScalarType, token: &Lexeme<'_>) -> Result<(), Cause>
    ensures { Judges (spec.same_type_of ty token.now) result }
{
    if spells(ty, token) {
        return Ok(());
    }
    // What is no type of a value at all is refused for what it is.
    let _other = value_type_of(token)?;
    Err(token.refusal())
}

/// Takes this type of a value, and no other: the second type of a `select`.
#[tactic(auto, unfolding(ms_text_grammar::specs::Insts::same_type))]
fn same_type(tokens: &mut Tokens<'_>, ty: ScalarType) -> Result<(), Cause>
    ensures { Gives (run (spec.same_type ty) tokens.old) result tokens.new }
{
    same_type_of(ty, &tokens.lexeme())?;
    tokens.advance();
    Ok(())
}

/// A `select` as an operation.
fn select_of(
    alloc: Global,
    cond: Boxed<Operand>,
    ty: ScalarType,
    a: Boxed<Operand>,
    b: Boxed<Operand>,
) -> Result<Boxed<Op>, NoMemory>
    ensures { IfOk result (λ o. o ≡ operation.Select cond ty a b) }
{
    Boxed::new(
        alloc,
        Op::Select {
            cond: cond.into_inner(),
            ty: ty.ty(),
            a: a.into_inner(),
            b: b.into_inner(),
        },
    )
}

/// Reads the second value after its type.
fn select_last(
    tokens: &mut Tokens<'_>,
    form: Form,
    cond: Boxed<Operand>,
    ty: ScalarType,
    a: Boxed<Operand>,
) -> Result<Boxed<Op>, Cause>
    ensures { Gives (run (rest.select_last form cond ty a) tokens.old) result tokens.new }
{
    let b = value(tokens, form, ty)?;
    Ok(select_of(tokens.alloc(), cond, ty, a, b)?)
}

/// Reads `, type b` after the first value.
fn select_end(
    tokens: &mut Tokens<'_>,
    form: Form,
    cond: Boxed<Operand>,
    ty: ScalarType,
    a: Boxed<Operand>,
) -> Result<Boxed<Op>, Cause>
    ensures { Gives (run (rest.select_end form cond ty a) tokens.old) result tokens.new }
{
    tokens.word(Symbol::Comma)?;
    same_type(tokens, ty)?;
    select_last(tokens, form, cond, ty, a)
}

/// Reads `type a, type b` after the condition.
fn select_rest(
    tokens: &mut Tokens<'_>,
    form: Form,
    cond: Boxed<Operand>,
) -> Result<Boxed<Op>, Cause>
    ensures { Gives (run (rest.select_rest form cond) tokens.old) result tokens.new }
{
    let ty = value_type(tokens)?;
    let a = value(tokens, form, ty)?;
    select_end(tokens, form, cond, ty, a)
}

/// Reads a `select` after its word: `i1 condition, type a, type b`, with one type twice.
///
/// # Errors
///
/// Those of its parts. A second type that isn't the first is refused at its token.
#[tactic(auto, unfolding(ms_text_grammar::specs::Insts::select_rule))]
pub fn select_rule(tokens: &mut Tokens<'_>, form: Form) -> Result<Boxed<Op>, Cause>
    ensures { Gives (run (spec.select_rule form) tokens.old) result tokens.new }
{
    bit_type(tokens)?;
    let cond = value(tokens, form, ScalarType::int(1))?;
    tokens.word(Symbol::Comma)?;
    select_rest(tokens, form, cond)
}

/// Reads a `freeze` after its word: `type a`.
///
/// # Errors
///
/// Those of its parts.
#[tactic(auto, unfolding(ms_text_grammar::specs::Insts::freeze_rule))]
pub fn freeze_rule(tokens: &mut Tokens<'_>, form: Form) -> Result<Boxed<Op>, Cause>
    ensures { Gives (run (spec.freeze_rule form) tokens.old) result tokens.new }
{
    let ty = value_type(tokens)?;
    let a = value(tokens, form, ty)?;
    let read = Op::Freeze {
        ty: ty.ty(),
        a: a.into_inner(),
    };
    Ok(Boxed::new(tokens.alloc(), read)?)
}
