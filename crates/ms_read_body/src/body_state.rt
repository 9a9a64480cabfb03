//! The state of a body that is read, and what a line adds to it. An operation comes with whether it has the mark of inserted
//! instructions.

ghost use Rattle.std.specs.Prelude.{◌≡◌, ◌<◌, ◌+◌, ◌^◌, ◌++◌, ◌∷◌, [], IfOk};
ghost use Rattle.ms_text_grammar.specs.Bodies as spec;

use ms_bits::{Boxed, List, NoMemory};
use ms_ir::{Block, Inst, Name, Op};
use ms_read_cursor::push;
use ms_text_grammar::BodySoFar;
use std::alloc::Global;
use std::mem;

/// The name, or where there is none the number as a name.
fn name_or(name: Option<Name>, number: u32) -> Name
    ensures { result ≡ spec.name_or name number }
{
    match name {
        Some(name) => name,
        None => Name::Number(number),
    }
}

/// How many of a function's successive numbers a result of this name takes: one where it has no name of text.
fn numbers_of(name: &Option<Name>) -> u32
    ensures value { result ≡ spec.numbers_of name.now }
    ensures few { result < 2 }
{
    match name {
        Some(Name::Text(_)) => 0,
        _ => 1,
    }
}

/// Adds an instruction to the open block, with the name of its result, if it has one.
fn add(
    alloc: Global,
    body: &mut BodySoFar,
    operation: (Boxed<Op>, bool),
    name: Option<Name>,
) -> Result<(), NoMemory>
    requires { body.old.count + 1 < 2 ^ 32 }
    ensures { IfOk result (λ _. body.new ≡ record body.old { insts = body.old.insts ++ record { op = operation.0; result = name; marked = operation.1 } ∷ []; count = body.old.count + 1 }) }
{
    let (op, marked) = operation;
    body.count += 1;
    let inst = Inst {
        op: op.into_inner(),
        result: name,
        marked,
    };
    push(alloc, &mut body.insts, inst)
}

/// Adds an instruction that has a result, which takes its name, or else the next number. `phis` says whether a phi may come
/// after it.
pub fn add_value(
    alloc: Global,
    body: &mut BodySoFar,
    name: &mut Option<Name>,
    phis: bool,
    operation: (Boxed<Op>, bool),
) -> Result<(), NoMemory>
    requires next { body.old.next + 1 < 2 ^ 32 }
    requires count { body.old.count + 1 < 2 ^ 32 }
    ensures { IfOk result (λ _. body.new ≡ spec.with_value body.old name.old phis operation) }
{
    let numbers = numbers_of(name);
    let result = name_or(name.take(), body.next);
    body.next += numbers;
    body.phis = phis;
    add(alloc, body, operation, Some(result))
}

/// Adds an instruction that has no result.
pub fn add_effect(
    alloc: Global,
    body: &mut BodySoFar,
    operation: (Boxed<Op>, bool),
) -> Result<(), NoMemory>
    requires { body.old.count + 1 < 2 ^ 32 }
    ensures { IfOk result (λ _. body.new ≡ spec.with_effect body.old operation) }
{
    body.phis = false;
    add(alloc, body, operation, None)
}

/// Ends the open block: its instructions so far are a block of the body.
fn end_block(alloc: Global, body: &mut BodySoFar) -> Result<(), NoMemory>
    ensures { IfOk result (λ _. body.new ≡ record body.old { blocks = body.old.blocks ++ record { name = spec.name_or body.old.name 0; insts = body.old.insts } ∷ []; name = None; insts = [] }) }
{
    let block = Block {
        name: name_or(body.name.take(), 0),
        insts: mem::replace(&mut body.insts, List::from_vec(Vec::new(alloc))),
    };
    push(alloc, &mut body.blocks, block)
}

/// Adds a terminator, which ends the block.
pub fn add_end(
    alloc: Global,
    body: &mut BodySoFar,
    operation: (Boxed<Op>, bool),
) -> Result<(), NoMemory>
    requires { body.old.count + 1 < 2 ^ 32 }
    ensures { IfOk result (λ _. body.new ≡ spec.with_end body.old operation) }
{
    add_effect(alloc, body, operation)?;
    end_block(alloc, body)
}

/// Whether an operation is a call of type `void`.
fn is_void_call(op: &Op) -> bool
    ensures { result ≡ spec.is_void_call op.now }
{
    match op {
        Op::Call { ret: None, .. } => true,
        _ => false,
    }
}

/// Adds a call, which has a result unless its type is `void`.
pub fn add_call(
    alloc: Global,
    body: &mut BodySoFar,
    name: &mut Option<Name>,
    operation: (Boxed<Op>, bool),
) -> Result<(), NoMemory>
    requires next { body.old.next + 1 < 2 ^ 32 }
    requires count { body.old.count + 1 < 2 ^ 32 }
    ensures { IfOk result (λ _. body.new ≡ spec.with_call body.old name.old operation) }
{
    if is_void_call(operation.0.get()) {
        add_effect(alloc, body, operation)
    } else {
        add_value(alloc, body, name, false, operation)
    }
}
