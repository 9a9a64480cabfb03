//! Equal copies of what an instruction does. An operation is wide, so each kind is copied in a function of its own.
ghost use Rattle.std.specs.Prelude.{◌≡◌, IfOk};
ghost use Rattle.ms_ir.specs.declared.syntax.Op.TheVariants as operation;

use crate::parts::{four, three, two};
use crate::syntax::{Name, Op, Operand, Ty};
use ms_bits::{BinOp, CastOp, Duplicate, Flags, List, NoMemory, Pred};
use std::alloc::Global;

fn binary(
    alloc: Global,
    op: BinOp,
    flags: Flags,
    ty: &Ty,
    a: &Operand,
    b: &Operand,
) -> Result<Op, NoMemory>
    ensures { IfOk result (λ o. o ≡ operation.Binary op flags ty.now a.now b.now) }
{
    let (ty, a, b) = three(alloc, ty, a, b)?;
    Ok(Op::Binary {
        op,
        flags,
        ty,
        a,
        b,
    })
}

fn icmp(
    alloc: Global,
    pred: Pred,
    flags: Flags,
    ty: &Ty,
    a: &Operand,
    b: &Operand,
) -> Result<Op, NoMemory>
    ensures { IfOk result (λ o. o ≡ operation.Icmp pred flags ty.now a.now b.now) }
{
    let (ty, a, b) = three(alloc, ty, a, b)?;
    Ok(Op::Icmp {
        pred,
        flags,
        ty,
        a,
        b,
    })
}

fn cast(
    alloc: Global,
    op: CastOp,
    flags: Flags,
    from: &Ty,
    a: &Operand,
    to: &Ty,
) -> Result<Op, NoMemory>
    ensures { IfOk result (λ o. o ≡ operation.Cast op flags from.now a.now to.now) }
{
    let (from, a, to) = three(alloc, from, a, to)?;
    Ok(Op::Cast {
        op,
        flags,
        from,
        a,
        to,
    })
}

fn select(alloc: Global, cond: &Operand, ty: &Ty, a: &Operand, b: &Operand) -> Result<Op, NoMemory>
    ensures { IfOk result (λ o. o ≡ operation.Select cond.now ty.now a.now b.now) }
{
    let (cond, ty, a, b) = four(alloc, cond, ty, a, b)?;
    Ok(Op::Select { cond, ty, a, b })
}

fn freeze(alloc: Global, ty: &Ty, a: &Operand) -> Result<Op, NoMemory>
    ensures { IfOk result (λ o. o ≡ operation.Freeze ty.now a.now) }
{
    let (ty, a) = two(alloc, ty, a)?;
    Ok(Op::Freeze { ty, a })
}

fn phi(alloc: Global, ty: &Ty, edges: &List<(Operand, Name)>) -> Result<Op, NoMemory>
    ensures { IfOk result (λ o. o ≡ operation.Phi ty.now edges.now) }
{
    let (ty, edges) = two(alloc, ty, edges)?;
    Ok(Op::Phi { ty, edges })
}

fn alloca(alloc: Global, ty: &Ty, count_ty: &Ty, count: &Operand) -> Result<Op, NoMemory>
    ensures { IfOk result (λ o. o ≡ operation.Alloca ty.now count_ty.now count.now) }
{
    let (ty, count_ty, count) = three(alloc, ty, count_ty, count)?;
    Ok(Op::Alloca {
        ty,
        count_ty,
        count,
    })
}

fn load(alloc: Global, ty: &Ty, addr: &Operand) -> Result<Op, NoMemory>
    ensures { IfOk result (λ o. o ≡ operation.Load ty.now addr.now) }
{
    let (ty, addr) = two(alloc, ty, addr)?;
    Ok(Op::Load { ty, addr })
}

fn store(alloc: Global, ty: &Ty, value: &Operand, addr: &Operand) -> Result<Op, NoMemory>
    ensures { IfOk result (λ o. o ≡ operation.Store ty.now value.now addr.now) }
{
    let (ty, value, addr) = three(alloc, ty, value, addr)?;
    Ok(Op::Store { ty, value, addr })
}

fn gep(
    alloc: Global,
    ty: &Ty,
    base: &Operand,
    indices: &List<(Ty, Operand)>,
) -> Result<Op, NoMemory>
    ensures { IfOk result (λ o. o ≡ operation.Gep ty.now base.now indices.now) }
{
    let (ty, base, indices) = three(alloc, ty, base, indices)?;
    Ok(Op::Gep { ty, base, indices })
}

fn call(
    alloc: Global,
    ret: &Option<Ty>,
    callee: &Name,
    args: &List<(Ty, Operand)>,
) -> Result<Op, NoMemory>
    ensures { IfOk result (λ o. o ≡ operation.Call ret.now callee.now args.now) }
{
    let (ret, callee, args) = three(alloc, ret, callee, args)?;
    Ok(Op::Call { ret, callee, args })
}

fn branch(alloc: Global, to: &Name) -> Result<Op, NoMemory>
    ensures { IfOk result (λ o. o ≡ operation.Br to.now) }
{
    let to = to.copy(alloc)?;
    Ok(Op::Br { to })
}

fn conditional(alloc: Global, cond: &Operand, yes: &Name, no: &Name) -> Result<Op, NoMemory>
    ensures { IfOk result (λ o. o ≡ operation.CondBr cond.now yes.now no.now) }
{
    let (cond, yes, no) = three(alloc, cond, yes, no)?;
    Ok(Op::CondBr { cond, yes, no })
}

fn switch(
    alloc: Global,
    ty: &Ty,
    value: &Operand,
    other: &Name,
    cases: &List<(u64, Name)>,
) -> Result<Op, NoMemory>
    ensures { IfOk result (λ o. o ≡ operation.Switch ty.now value.now other.now cases.now) }
{
    let (ty, value, other, cases) = four(alloc, ty, value, other, cases)?;
    Ok(Op::Switch {
        ty,
        value,
        other,
        cases,
    })
}

fn ret(alloc: Global, value: &Option<(Ty, Operand)>) -> Result<Op, NoMemory>
    ensures { IfOk result (λ o. o ≡ operation.Ret value.now) }
{
    let value = value.copy(alloc)?;
    Ok(Op::Ret { value })
}

impl Duplicate for Op {
    fn copy(&self, alloc: Global) -> Result<Self, NoMemory> {
        match self {
            Op::Binary {
                op,
                flags,
                ty,
                a,
                b,
            } => binary(alloc, *op, *flags, ty, a, b),
            Op::Icmp {
                pred,
                flags,
                ty,
                a,
                b,
            } => icmp(alloc, *pred, *flags, ty, a, b),
            Op::Cast {
                op,
                flags,
                from,
                a,
                to,
            } => cast(alloc, *op, *flags, from, a, to),
            Op::Select { cond, ty, a, b } => select(alloc, cond, ty, a, b),
            Op::Freeze { ty, a } => freeze(alloc, ty, a),
            Op::Phi { ty, edges } => phi(alloc, ty, edges),
            Op::Alloca {
                ty,
                count_ty,
                count,
            } => alloca(alloc, ty, count_ty, count),
            Op::Load { ty, addr } => load(alloc, ty, addr),
            Op::Store { ty, value, addr } => store(alloc, ty, value, addr),
            Op::Gep { ty, base, indices } => gep(alloc, ty, base, indices),
            Op::Call { ret, callee, args } => call(alloc, ret, callee, args),
            Op::Br { to } => branch(alloc, to),
            Op::CondBr { cond, yes, no } => conditional(alloc, cond, yes, no),
            Op::Switch {
                ty,
                value,
                other,
                cases,
            } => switch(alloc, ty, value, other, cases),
            Op::Ret { value } => ret(alloc, value),
            Op::Unreachable => Ok(Op::Unreachable),
        }
    }
}
