//! Reads functions and declarations (LLVM Language Reference, "Functions"). `before` is how many instructions the text has in
//! front of the function.

ghost use Rattle.std.specs.Prelude.{◌≡◌, IfOk, map};
ghost use Rattle.ms_text_grammar.specs.Functions as spec;
ghost use Rattle.ms_read_cursor.specs.Reading.{Gives, run};
ghost use Rattle.ms_read_body.specs.Headed as headed;

use crate::lines::blocks;
use crate::parameter_lists::parameters;
use ms_bits::{Duplicate, List, NoMemory};
use ms_ir::{Block, Decl, Form, Func, Name, Ty};
use ms_read_cursor::{Tokens, global};
use ms_read_insts::names_printf;
use ms_read_values::{
    ScalarType, attachments, attributes, function_tail, linkage, result_ty, result_type,
};
use ms_text_grammar::{BodySoFar, Cause, Parameters, Symbol};
use std::alloc::Global;

/// The types of parameters.
fn types_of(alloc: Global, parameters: &List<(Ty, Name)>) -> Result<List<Ty>, NoMemory>
    ensures { IfOk result (λ types. types ≡ map (λ p. p.0) parameters.now) }
{
    let parameters = parameters.as_slice();
    let mut types = Vec::with_capacity(alloc, parameters.len())?;
    for (ty, _) in parameters {
        types.push(ty.copy(alloc)?)?;
    }
    Ok(List::from_vec(types))
}

/// Reads the attributes after the parameters of a declaration, and gives the types of these.
fn types_of_read(
    tokens: &mut Tokens<'_>,
    form: Form,
    parameters: &Parameters,
) -> Result<List<Ty>, Cause>
    ensures { Gives (run (headed.types_of form parameters.now) tokens.old) result tokens.new }
{
    attributes(tokens, form)?;
    Ok(types_of(tokens.alloc(), &parameters.found)?)
}

/// Reads the parameters of a declaration after its name, and the attributes after them. Gives the types of the parameters.
fn types_after(tokens: &mut Tokens<'_>, form: Form, name: &Name) -> Result<List<Ty>, Cause>
    ensures { Gives (run (headed.types_after form name.now) tokens.old) result tokens.new }
{
    tokens.word(Symbol::OpenParen)?;
    let parameters = parameters(tokens, form, names_printf(name))?;
    types_of_read(tokens, form, &parameters)
}

/// Reads a declaration after its name.
#[tactic(auto, using(crate::proofs::Headed::declared_reads, crate::proofs::Headed::declared_stops))]
fn declared(
    tokens: &mut Tokens<'_>,
    form: Form,
    ret: Option<ScalarType>,
    name: Name,
) -> Result<Decl, Cause>
    ensures { Gives (run (headed.declared form ret name) tokens.old) result tokens.new }
{
    let params = types_after(tokens, form, &name)?;
    Ok(Decl {
        name,
        ret: result_ty(ret),
        params,
    })
}

/// Reads a declaration after `declare`.
///
/// # Errors
///
/// At the first token that can't stand: `Limit(Parameters)` at the 101st parameter, `Numbering` at a written number that
/// isn't the next one, `Reserved` and `Limit(Name)` at names, `Syntax` and `Outside`.
#[tactic(auto, unfolding(ms_text_grammar::specs::Functions::declaration, crate::specs::Headed::declared))]
pub fn declaration(tokens: &mut Tokens<'_>, form: Form) -> Result<Decl, Cause>
    ensures { Gives (run (spec.declaration form) tokens.old) result tokens.new }
{
    attachments(tokens, form)?;
    linkage(tokens, form)?;
    let ret = result_type(tokens)?;
    let name = global(tokens, form)?;
    declared(tokens, form, ret, name)
}

/// The body of a function after its parameters, in which no block has begun; `before` counts towards the limit on instructions.
fn body_after(alloc: Global, parameters: &Parameters, before: u32) -> BodySoFar
    ensures { result ≡ spec.body_after parameters.now before }
{
    BodySoFar {
        blocks: List::from_vec(Vec::new(alloc)),
        name: None,
        insts: List::from_vec(Vec::new(alloc)),
        next: parameters.next,
        count: before,
        phis: false,
    }
}

/// Reads the blocks of a function after its parameters, with the braces round them.
fn blocks_after(
    tokens: &mut Tokens<'_>,
    form: Form,
    before: u32,
    parameters: &Parameters,
) -> Result<List<Block>, Cause>
    ensures { Gives (run (headed.blocks_after form before parameters.now) tokens.old) result tokens.new }
{
    function_tail(tokens, form)?;
    tokens.word(Symbol::OpenBrace)?;
    let start = body_after(tokens.alloc(), parameters, before);
    blocks(tokens, form, start)
}

/// Reads a function after its parameters.
#[tactic(auto, using(crate::proofs::Headed::bodied_reads, crate::proofs::Headed::bodied_stops))]
fn bodied(
    tokens: &mut Tokens<'_>,
    form: Form,
    before: u32,
    ret: Option<ScalarType>,
    name: Name,
    parameters: Parameters,
) -> Result<Func, Cause>
    ensures { Gives (run (headed.bodied form before ret name parameters) tokens.old) result tokens.new }
{
    let blocks = blocks_after(tokens, form, before, &parameters)?;
    Ok(Func {
        name,
        ret: result_ty(ret),
        params: parameters.found,
        blocks,
    })
}

/// Reads a function after its name.
fn named(
    tokens: &mut Tokens<'_>,
    form: Form,
    before: u32,
    ret: Option<ScalarType>,
    name: Name,
) -> Result<Func, Cause>
    ensures { Gives (run (headed.named form before ret name) tokens.old) result tokens.new }
{
    tokens.word(Symbol::OpenParen)?;
    let params = parameters(tokens, form, false)?;
    bodied(tokens, form, before, ret, name, params)
}

/// Reads a function after `define`, in front of which the text has `before` instructions.
///
/// # Errors
///
/// At the first token that can't stand: `Limit(Instructions)` at the first token of the instruction that is one too many,
/// `Limit(Parameters)` at the 101st parameter, `Numbering` at a written number that isn't the next one, `Reserved` and
/// `Limit(Name)` at names, `Syntax` and `Outside`.
#[tactic(auto, unfolding(ms_text_grammar::specs::Functions::function, crate::specs::Headed::bodied))]
pub fn function(tokens: &mut Tokens<'_>, form: Form, before: u32) -> Result<Func, Cause>
    ensures { Gives (run (spec.function form before) tokens.old) result tokens.new }
{
    linkage(tokens, form)?;
    let ret = result_type(tokens)?;
    let name = global(tokens, form)?;
    named(tokens, form, before, ret, name)
}

/// Reads what stands between the parameters of a function and its blocks, and gives its body, in which no block has begun.
fn body_opened(
    tokens: &mut Tokens<'_>,
    form: Form,
    before: u32,
    parameters: &Parameters,
) -> Result<BodySoFar, Cause>
    ensures { Gives (run (headed.body_opened form before parameters.now) tokens.old) result tokens.new }
{
    function_tail(tokens, form)?;
    tokens.word(Symbol::OpenBrace)?;
    Ok(body_after(tokens.alloc(), parameters, before))
}

/// Reads a function after its name up to its blocks.
fn parameters_opened(tokens: &mut Tokens<'_>, form: Form, before: u32) -> Result<BodySoFar, Cause>
    ensures { Gives (run (headed.parameters_opened form before) tokens.old) result tokens.new }
{
    tokens.word(Symbol::OpenParen)?;
    let params = parameters(tokens, form, false)?;
    body_opened(tokens, form, before, &params)
}

/// Reads a function after `define` up to and with the brace in front of its blocks, and gives its body, in which no block
/// has begun.
///
/// # Errors
///
/// Those of [`function`] up to there.
pub fn heading(tokens: &mut Tokens<'_>, form: Form, before: u32) -> Result<BodySoFar, Cause>
    ensures { Gives (run (headed.heading form before) tokens.old) result tokens.new }
{
    linkage(tokens, form)?;
    result_type(tokens)?;
    global(tokens, form)?;
    parameters_opened(tokens, form, before)
}
