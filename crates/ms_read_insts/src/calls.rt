//! Reads calls (LLVM Language Reference, "'call' Instruction"). `named` says whether the result has a name, `dotted` whether
//! `(ptr, ...)` stood in front of the callee, `counted` whether there may be at most 100 arguments, as of `printf`; `found` are
//! the arguments so far.

ghost use Rattle.std.specs.{Prelude.{◌≡◌, IfOk, codes, length}, Str.{bytes_eq}};
ghost use Rattle.ms_ir.specs.declared.syntax.Op.TheVariants as operation;
ghost use Rattle.ms_lex.specs.Grammar.{one};
ghost use Rattle.ms_text_grammar.specs.Lexemes.{name_in};
ghost use Rattle.ms_text_grammar.specs.Insts as spec;
ghost use Rattle.ms_read_cursor.specs.Reading.{Gives, Judges, run};
ghost use Rattle.ms_read_insts.specs.Rests as rest;

use crate::call_ends::call_end;
use ms_bits::{Boxed, List, NoMemory};
use ms_ir::{Form, Name, Op, Operand, Ty};
use ms_read_cursor::{Lexeme, Series, Tokens, global_name, listed, with_last};
use ms_read_values::{
    ScalarType, attributes, result_ty, result_type, value, value_type, value_type_of,
};
use ms_text_grammar::{Cause, Limit, Outside, Symbol};
use std::alloc::Global;

/// How many arguments a call of `printf` may have; those of other functions are as many as their parameters.
const MAX_PARAMETERS: usize = 100;

/// Takes the result's type of a call. A call whose result has a name isn't `void`.
fn call_type(tokens: &mut Tokens<'_>, named: bool) -> Result<Option<ScalarType>, Cause>
    ensures { Gives (run (spec.call_type named) tokens.old) result tokens.new }
{
    if named {
        let ty = value_type(tokens)?;
        Ok(Some(ty))
    } else {
        result_type(tokens)
    }
}

/// Whether a result's type is `i32`.
fn is_i32(ty: Option<ScalarType>) -> bool
    ensures { result ≡ spec.is_i32 ty }
{
    match ty {
        Some(ty) => ty.width() == Some(32),
        None => false,
    }
}

/// Takes `(ptr, ...)`, the type of `printf`.
#[tactic(auto, unfolding(ms_text_grammar::specs::Insts::variadic_type))]
fn variadic_type(tokens: &mut Tokens<'_>) -> Result<bool, Cause>
    ensures { Gives (run spec.variadic_type tokens.old) result tokens.new }
{
    tokens.word(Symbol::OpenParen)?;
    tokens.word(Symbol::PtrType)?;
    tokens.word(Symbol::Comma)?;
    tokens.word(Symbol::Dots)?;
    tokens.word(Symbol::CloseParen)?;
    Ok(true)
}

/// Takes the type of a callee, where it is written; that of `printf` alone may be. Gives whether it was.
#[tactic(auto, unfolding(ms_text_grammar::specs::Insts::callee_type))]
fn callee_type(tokens: &mut Tokens<'_>, ty: Option<ScalarType>) -> Result<bool, Cause>
    ensures { Gives (run (spec.callee_type ty) tokens.old) result tokens.new }
{
    if !tokens.sees(Symbol::OpenParen) {
        return Ok(false);
    }
    if !is_i32(ty) {
        return Err(Cause::Outside(Outside::FunctionType));
    }
    variadic_type(tokens)
}

/// Whether a name is `printf`.
fn is_printf(text: &[u8]) -> bool
    ensures { result ≡ spec.is_printf text.now }
{
    text == b"printf".as_slice()
}

/// Whether a name is `main`.
fn is_main(text: &[u8]) -> bool
    ensures { result ≡ bytes_eq text.now (codes "main") }
{
    text == b"main".as_slice()
}

/// The callee that a global names, which is `printf` where its type stood in front.
fn callee_name(alloc: Global, form: Form, dotted: bool, token: &Lexeme<'_>) -> Result<Name, Cause>
    ensures { Judges (spec.callee_name form dotted (name_in token.now)) result }
{
    let text = token.small_name(alloc)?;
    if is_main(text.as_slice()) {
        return Err(Cause::Outside(Outside::CallOfMain));
    }
    if dotted && !is_printf(text.as_slice()) {
        return Err(Cause::Outside(Outside::FunctionType));
    }
    global_name(alloc, form, token)
}

/// The callee that a token is: a global. A local would be an indirect call.
fn callee_by(alloc: Global, form: Form, dotted: bool, token: &Lexeme<'_>) -> Result<Name, Cause>
    ensures { Judges (spec.callee_by form dotted token.now.symbol token.now) result }
{
    match token.symbol() {
        Symbol::Global => callee_name(alloc, form, dotted, token),
        Symbol::Local | Symbol::NumberedLocal => Err(Cause::Outside(Outside::IndirectCall)),
        _ => Err(token.refusal()),
    }
}

/// Takes the callee.
#[tactic(auto, unfolding(ms_text_grammar::specs::Insts::callee))]
fn callee(tokens: &mut Tokens<'_>, form: Form, dotted: bool) -> Result<Name, Cause>
    ensures { Gives (run (spec.callee form dotted) tokens.old) result tokens.new }
{
    let name = callee_by(tokens.alloc(), form, dotted, &tokens.lexeme())?;
    tokens.advance();
    Ok(name)
}

/// Whether a function's name is `printf`.
pub fn names_printf(name: &Name) -> bool
    ensures { result ≡ spec.names_printf name.now }
{
    match name {
        Name::Number(_) => false,
        Name::Text(text) => is_printf(text.as_slice()),
    }
}

/// The type of an argument in front of which `before` others stand. Only where they are counted is their number limited here.
fn argument_type_of(counted: bool, before: usize, token: &Lexeme<'_>) -> Result<ScalarType, Cause>
    ensures { Judges (spec.argument_type_of counted before token.now) result }
{
    let ty = value_type_of(token)?;
    if counted && before >= MAX_PARAMETERS {
        Err(Cause::Limit(Limit::Parameters))
    } else {
        Ok(ty)
    }
}

/// Takes the type of an argument after those that were found.
fn argument_type(
    tokens: &mut Tokens<'_>,
    counted: bool,
    found: &List<(Ty, Operand)>,
) -> Result<ScalarType, Cause>
    ensures { Gives (run (one (spec.argument_type_of counted (length found.now))) tokens.old) result tokens.new }
{
    let before = found.as_slice().len();
    let ty = argument_type_of(counted, before, &tokens.lexeme())?;
    tokens.advance();
    Ok(ty)
}

/// Reads attributes and a value after the type of an argument.
fn argument_rest(
    tokens: &mut Tokens<'_>,
    form: Form,
    ty: ScalarType,
    found: List<(Ty, Operand)>,
) -> Result<List<(Ty, Operand)>, Cause>
    ensures { Gives (run (rest.argument_rest form ty found) tokens.old) result tokens.new }
{
    attributes(tokens, form)?;
    let operand = value(tokens, form, ty)?;
    Ok(with_last(found, (ty.ty(), operand.into_inner()))?)
}

/// Reads an argument after those that were found.
#[tactic(auto, unfolding(ms_text_grammar::specs::Insts::argument))]
fn argument(
    tokens: &mut Tokens<'_>,
    form: Form,
    counted: bool,
    found: List<(Ty, Operand)>,
) -> Result<List<(Ty, Operand)>, Cause>
    ensures { Gives (run (spec.argument form counted found) tokens.old) result tokens.new }
{
    let ty = argument_type(tokens, counted, &found)?;
    argument_rest(tokens, form, ty, found)
}

/// Argument after argument.
#[derive(Clone, Copy)]
struct ArgumentSeries {
    form: Form,
    counted: bool,
}

impl Series for ArgumentSeries {
    type State = List<(Ty, Operand)>;

    ghost use Rattle.std.specs.Prelude.{true};
    ghost use Rattle.ms_text_grammar.specs.Insts.{argument};

    ghost more = { λ rule found. true };

    ghost item = { λ rule. argument rule.form rule.counted };

    fn has_more(&self, _state: &List<(Ty, Operand)>) -> bool {
        true
    }

    fn read(
        &self,
        state: List<(Ty, Operand)>,
        tokens: &mut Tokens<'_>,
    ) -> Result<List<(Ty, Operand)>, Cause> {
        argument(tokens, self.form, self.counted, state)
    }
}

/// Takes arguments with commas between, up to and with `)`.
#[tactic(auto, unfolding(ms_text_grammar::specs::Insts::arguments))]
fn arguments(
    tokens: &mut Tokens<'_>,
    form: Form,
    counted: bool,
) -> Result<List<(Ty, Operand)>, Cause>
    ensures { Gives (run (spec.arguments form counted) tokens.old) result tokens.new }
{
    let none = List::from_vec(Vec::new(tokens.alloc()));
    let rule = ArgumentSeries { form, counted };
    listed(tokens, Symbol::CloseParen, &rule, none)
}

/// Takes `call` after `tail`, `musttail` or `notail`.
fn call_word(tokens: &mut Tokens<'_>, first: Symbol) -> Result<(), Cause>
    ensures { Gives (run (spec.call_word first) tokens.old) result tokens.new }
{
    match first {
        Symbol::Call => Ok(()),
        _ => tokens.word(Symbol::Call),
    }
}

/// A call as an operation.
fn call_of(
    alloc: Global,
    ret: Option<ScalarType>,
    callee: Name,
    args: List<(Ty, Operand)>,
) -> Result<Boxed<Op>, NoMemory>
    ensures { IfOk result (λ o. o ≡ operation.Call ret callee args) }
{
    Boxed::new(
        alloc,
        Op::Call {
            ret: result_ty(ret),
            callee,
            args,
        },
    )
}

/// Reads what stands after the arguments of a call, and gives the call and whether it has the mark.
fn call_marked(
    tokens: &mut Tokens<'_>,
    form: Form,
    ret: &Option<ScalarType>,
    callee: Name,
    args: List<(Ty, Operand)>,
) -> Result<(Boxed<Op>, bool), Cause>
    ensures { Gives (run (rest.call_marked form ret.now callee args) tokens.old) result tokens.new }
{
    let marked = call_end(tokens, form)?;
    Ok((call_of(tokens.alloc(), *ret, callee, args)?, marked))
}

/// Reads the arguments of a call after `(`, and what stands after them.
fn call_rest(
    tokens: &mut Tokens<'_>,
    form: Form,
    ret: &Option<ScalarType>,
    callee: Name,
) -> Result<(Boxed<Op>, bool), Cause>
    ensures { Gives (run (rest.call_rest form ret.now callee) tokens.old) result tokens.new }
{
    let args = arguments(tokens, form, names_printf(&callee))?;
    call_marked(tokens, form, ret, callee, args)
}

/// Reads the callee, in front of which its type may stand, and the rest of a call.
fn call_callee(
    tokens: &mut Tokens<'_>,
    form: Form,
    ret: &Option<ScalarType>,
) -> Result<(Boxed<Op>, bool), Cause>
    ensures { Gives (run (rest.call_callee form ret.now) tokens.old) result tokens.new }
{
    let dotted = callee_type(tokens, *ret)?;
    let callee = callee(tokens, form, dotted)?;
    tokens.word(Symbol::OpenParen)?;
    call_rest(tokens, form, ret, callee)
}

/// Reads a call after its first word, which is `call`, `tail`, `musttail` or `notail`, with what is attached. `named` says
/// whether its result has a name. The second value is whether what is attached has the mark.
///
/// # Errors
///
/// `Outside(FunctionType)` at the type of a callee other than `printf`, and at such a callee after `(ptr, ...)`;
/// `Outside(CallOfMain)` at `@main`; `Outside(IndirectCall)` at a local in the callee's place; `Limit(Parameters)` at the
/// type of the 101st argument of `printf`; `Outside(OperandBundle)` at `[` after the arguments; and those of its parts.
#[tactic(auto, unfolding(ms_text_grammar::specs::Insts::call_rule))]
pub fn call_rule(
    tokens: &mut Tokens<'_>,
    form: Form,
    named: bool,
    first: Symbol,
) -> Result<(Boxed<Op>, bool), Cause>
    ensures { Gives (run (spec.call_rule form named first) tokens.old) result tokens.new }
{
    call_word(tokens, first)?;
    attributes(tokens, form)?;
    let ret = call_type(tokens, named)?;
    call_callee(tokens, form, &ret)
}
