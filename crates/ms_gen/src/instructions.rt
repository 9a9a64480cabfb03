//! Instructions of generated functions, and the names of these. All values are of the type `i32`, and all results are numbered.
ghost use Rattle.std.specs.Prelude.{◌≡◌, ◌<◌, ◌+◌, ◌++◌, [], ◌∷◌, IfOk, OnOk, Some};
ghost use Rattle.ms_ir.specs.declared.syntax.Op.TheVariants as op;
ghost use Rattle.ms_ir.specs.Builders.{i32, local, sets, does, alloca, ret as returned};
ghost use Rattle.ms_gen.specs.Generator.{state_after, name_of, operation_on};

use crate::draws::{Draws, operation};
use itoa::Buffer;
use ms_bits::{List, NO_FLAGS, NoMemory, SmallBytes};
use ms_ir::{Inst, Name, Op, Operand, Ty};
use std::alloc::Global;

/// The name of the function with a number.
pub fn function_name(alloc: Global, number: u32) -> Result<Name, NoMemory>
    ensures { IfOk result (λ x. x ≡ name_of number) }
{
    let mut buffer = Buffer::new();
    let digits = buffer.format(number).as_bytes();
    Ok(Name::Text(SmallBytes::joined(alloc, b"f", digits)?))
}

/// Adds an item at the end of a list.
pub fn push<T: Drop>(items: &mut Vec<T>, item: T) -> Result<(), NoMemory>
    ensures { OnOk result (items.new.items ≡ items.old.items ++ item ∷ []) }
{
    items.push(item)?;
    Ok(())
}

/// Adds an instruction whose result has a number.
fn set(insts: &mut Vec<Inst>, number: u32, op: Op) -> Result<(), NoMemory>
    ensures { OnOk result (insts.new.items ≡ insts.old.items ++ sets number op ∷ []) }
{
    push(
        insts,
        Inst {
            op,
            result: Some(Name::Number(number)),
            marked: false,
        },
    )
}

/// Adds an instruction without a result.
fn act(insts: &mut Vec<Inst>, op: Op) -> Result<(), NoMemory>
    ensures { OnOk result (insts.new.items ≡ insts.old.items ++ does op ∷ []) }
{
    push(
        insts,
        Inst {
            op,
            result: None,
            marked: false,
        },
    )
}

/// Adds `%number = alloca i32`.
pub fn push_alloca(insts: &mut Vec<Inst>, number: u32) -> Result<(), NoMemory>
    ensures { OnOk result (insts.new.items ≡ insts.old.items ++ sets number (alloca i32) ∷ []) }
{
    set(
        insts,
        number,
        Op::Alloca {
            ty: Ty::Int(32),
            count_ty: Ty::Int(32),
            count: Operand::Int(1),
        },
    )
}

/// Adds `store i32 %value, ptr %addr`.
pub fn push_store(insts: &mut Vec<Inst>, value: u32, addr: u32) -> Result<(), NoMemory>
    ensures { OnOk result (insts.new.items ≡ insts.old.items ++ does (op.Store i32 (local value) (local addr)) ∷ []) }
{
    act(
        insts,
        Op::Store {
            ty: Ty::Int(32),
            value: Operand::Local(Name::Number(value)),
            addr: Operand::Local(Name::Number(addr)),
        },
    )
}

/// Adds `%number = load i32, ptr %addr`.
pub fn push_load(insts: &mut Vec<Inst>, number: u32, addr: u32) -> Result<(), NoMemory>
    ensures { OnOk result (insts.new.items ≡ insts.old.items ++ sets number (op.Load i32 (local addr)) ∷ []) }
{
    set(
        insts,
        number,
        Op::Load {
            ty: Ty::Int(32),
            addr: Operand::Local(Name::Number(addr)),
        },
    )
}

/// Adds an operation on `%value` whose result has the next number: what it is, and the constant beside it, are drawn in
/// this order.
pub fn push_operation(insts: &mut Vec<Inst>, draws: &mut Draws, value: u32) -> Result<(), NoMemory>
    requires { value < 1000 }
    ensures insts { OnOk result (insts.new.items ≡ insts.old.items ++ operation_on value draws.old.state ∷ []) }
    ensures draws { draws.new.state ≡ state_after 2 draws.old.state }
{
    let op = operation(draws.draw(4));
    let constant = draws.draw(65536);
    set(
        insts,
        value + 1,
        Op::Binary {
            op,
            flags: NO_FLAGS,
            ty: Ty::Int(32),
            a: Operand::Local(Name::Number(value)),
            b: Operand::Int(constant),
        },
    )
}

/// Adds `%number = call i32 @callee(i32 argument)`.
pub fn push_call(
    alloc: Global,
    insts: &mut Vec<Inst>,
    number: u32,
    callee: Name,
    argument: Operand,
) -> Result<(), NoMemory>
    ensures { OnOk result (insts.new.items ≡ insts.old.items ++ sets number (op.Call (Some i32) callee ((i32, argument) ∷ [])) ∷ []) }
{
    let mut args = Vec::new(alloc);
    push(&mut args, (Ty::Int(32), argument))?;
    set(
        insts,
        number,
        Op::Call {
            ret: Some(Ty::Int(32)),
            callee,
            args: List::from_vec(args),
        },
    )
}

/// Adds `ret i32 value`.
pub fn push_return(insts: &mut Vec<Inst>, value: Operand) -> Result<(), NoMemory>
    ensures { OnOk result (insts.new.items ≡ insts.old.items ++ does (returned value) ∷ []) }
{
    act(
        insts,
        Op::Ret {
            value: Some((Ty::Int(32), value)),
        },
    )
}
