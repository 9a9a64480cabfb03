//! Reads the parameters of functions, whose unnamed ones have successive numbers (LLVM Language Reference, "Functions" and
//! "Identifiers"). `dotted` says whether it is a declaration of `printf`, whose list may end in `...`.

ghost use Rattle.std.specs.Prelude.{◌≡◌, ◌<◌, IfOk, OnOk};
ghost use Rattle.ms_text_grammar.specs.Functions as spec;
ghost use Rattle.ms_text_grammar.specs.Types as types;
ghost use Rattle.ms_read_cursor.specs.Reading.{Gives, Judges, Leaves, run};
ghost use Rattle.ms_read_body.specs.Headed.{named_parameter as named_piece};

use ms_bits::{List, NoMemory};
use ms_ir::{Form, Name, Ty};
use ms_read_cursor::{Lexeme, Series, Tokens, listed, local_name, push};
use ms_read_values::{ScalarType, attributes, value_type_of};
use ms_text_grammar::{Cause, Limit, Parameters, Symbol};
use std::alloc::Global;

/// How many parameters a function may have.
const MAX_PARAMETERS: usize = 100;

/// Whether there is room for one more parameter; no more of them are unnamed than there are.
fn has_room(parameters: &Parameters) -> bool
    ensures { result ≡ spec.has_room parameters.now }
{
    parameters.found.as_slice().len() < MAX_PARAMETERS && parameters.next < 100
}

/// The type that begins a parameter, by its token. The 101st has no room.
fn parameter_type_of(parameters: &Parameters, token: &Lexeme<'_>) -> Result<ScalarType, Cause>
    ensures exact { Judges (spec.parameter_type_of parameters.now token.now) result }
    ensures room { OnOk result (parameters.now.next < 100) }
{
    let ty = value_type_of(token)?;
    if has_room(parameters) {
        Ok(ty)
    } else {
        Err(Cause::Limit(Limit::Parameters))
    }
}

/// The name of a parameter whose number a token is: the number must be the next one.
fn numbered_name(expected: u32, token: &Lexeme<'_>) -> Result<Name, Cause>
    requires { token.now.symbol ≡ Symbol.NumberedLocal }
    ensures { Judges (spec.numbered_name expected token.now) result }
{
    match token.numeral() {
        Some(number) => {
            if number == u64::from(expected) {
                Ok(Name::Number(expected))
            } else {
                Err(Cause::Numbering)
            }
        }
        None => Err(Cause::Numbering),
    }
}

/// Takes the name of a parameter, which may be missing: then it is the next number.
///
/// # Errors
///
/// `Numbering` at a number that isn't the next one, and those of `local_name`.
#[tactic(auto, unfolding(ms_text_grammar::specs::Functions::parameter_name))]
fn parameter_name(tokens: &mut Tokens<'_>, form: Form, number: u32) -> Result<Name, Cause>
    ensures { Gives (run (spec.parameter_name form number) tokens.old) result tokens.new }
{
    match tokens.peek() {
        Symbol::Local => {
            let name = local_name(tokens.alloc(), form, &tokens.lexeme())?;
            tokens.advance();
            Ok(name)
        }
        Symbol::NumberedLocal => {
            let name = numbered_name(number, &tokens.lexeme())?;
            tokens.advance();
            Ok(name)
        }
        _ => Ok(Name::Number(number)),
    }
}

/// The next number after a parameter of this name.
fn next_after(name: &Name, next: u32) -> u32
    requires { next < 100 }
    ensures { result ≡ spec.next_after name.now next }
{
    match name {
        Name::Number(_) => next + 1,
        Name::Text(_) => next,
    }
}

/// Adds a parameter to the others.
fn add(
    alloc: Global,
    parameters: &mut Parameters,
    ty: ScalarType,
    name: Name,
) -> Result<(), NoMemory>
    requires { parameters.old.next < 100 }
    ensures { IfOk result (λ _. parameters.new ≡ spec.with_parameter parameters.old ty name) }
{
    parameters.next = next_after(&name, parameters.next);
    push(alloc, &mut parameters.found, (ty.ty(), name))
}

/// Reads the name of a parameter, or nothing, and adds the parameter to the others.
fn add_named(
    tokens: &mut Tokens<'_>,
    form: Form,
    parameters: &mut Parameters,
    ty: ScalarType,
) -> Result<(), Cause>
    requires { parameters.old.next < 100 }
    ensures { Leaves (run (named_piece form parameters.old ty) tokens.old) result parameters.new tokens.new }
{
    let name = parameter_name(tokens, form, parameters.next)?;
    Ok(add(tokens.alloc(), parameters, ty, name)?)
}

/// Reads a parameter that isn't dots, and adds it to the others: its type, attributes, and its name or nothing.
#[tactic(auto, unfolding(ms_text_grammar::specs::Functions::typed_parameter))]
fn typed_parameter(
    tokens: &mut Tokens<'_>,
    form: Form,
    parameters: &mut Parameters,
) -> Result<(), Cause>
    ensures { Leaves (run (spec.typed_parameter form parameters.old) tokens.old) result parameters.new tokens.new }
{
    let ty = parameter_type_of(parameters, &tokens.lexeme())?;
    tokens.advance();
    attributes(tokens, form)?;
    add_named(tokens, form, parameters, ty)
}

/// Whether a type is `ptr`.
fn is_ptr(ty: &Ty) -> bool
    ensures { result ≡ types.is_ptr ty.now }
{
    match ty {
        Ty::Ptr => true,
        _ => false,
    }
}

/// Whether these are one parameter, a pointer.
fn is_one_pointer(found: &[(Ty, Name)]) -> bool
    ensures { result ≡ spec.is_one_pointer found.now }
{
    match found {
        [parameter] => is_ptr(&parameter.0),
        _ => false,
    }
}

/// Reads a parameter, or the dots, and adds it to the others; `dotted` in a declaration of `printf`.
///
/// # Errors
///
/// `Limit(Parameters)` at the type of the 101st, `Numbering` at a number that isn't the next one, and those of its parts.
#[tactic(auto, unfolding(ms_text_grammar::specs::Functions::parameter))]
fn parameter(
    tokens: &mut Tokens<'_>,
    form: Form,
    dotted: bool,
    parameters: &mut Parameters,
) -> Result<(), Cause>
    ensures { Leaves (run (spec.parameter form dotted parameters.old) tokens.old) result parameters.new tokens.new }
{
    let dots = dotted && is_one_pointer(parameters.found.as_slice()) && tokens.sees(Symbol::Dots);
    if dots {
        tokens.advance();
        parameters.dots = true;
        return Ok(());
    }
    typed_parameter(tokens, form, parameters)
}

/// Parameter after parameter; nothing stands after the dots.
#[derive(Clone, Copy)]
struct EachParameter {
    form: Form,
    dotted: bool,
}

impl Series for EachParameter {
    type State = Parameters;

    ghost use Rattle.std.specs.Prelude.{not};
    ghost use Rattle.ms_text_grammar.specs.Functions.{parameter};

    ghost more = { λ rule ps. not ps.dots };

    ghost item = { λ rule. parameter rule.form rule.dotted };

    fn has_more(&self, state: &Parameters) -> bool {
        !state.dots
    }

    fn read(&self, state: Parameters, tokens: &mut Tokens<'_>) -> Result<Parameters, Cause> {
        let mut parameters = state;
        parameter(tokens, self.form, self.dotted, &mut parameters)?;
        Ok(parameters)
    }
}

/// Reads the parameters after `(`, up to and with `)`. Its errors are those of `parameter`.
#[tactic(auto, unfolding(ms_text_grammar::specs::Functions::parameters))]
pub fn parameters(tokens: &mut Tokens<'_>, form: Form, dotted: bool) -> Result<Parameters, Cause>
    ensures { Gives (run (spec.parameters form dotted) tokens.old) result tokens.new }
{
    let none = Parameters {
        found: List::from_vec(Vec::new(tokens.alloc())),
        next: 0,
        dots: false,
    };
    let each = EachParameter { form, dotted };
    listed(tokens, Symbol::CloseParen, &each, none)
}
