//! Equal copies of the parts of a module. The pass copies names, types, globals, declarations and single instructions, `strip`
//! what it leaves; a module with its functions and blocks is copied only where a pass inserts nothing, and in tests.
ghost use Rattle.std.specs.Prelude.{◌≡◌, IfOk};
ghost use Rattle.ms_ir.specs.declared.syntax.Operand.TheVariants as operand;

mod operations;
mod places;

use crate::parts::{four, three, two};
use crate::syntax::{Block, Decl, Func, GlobalVar, Init, Inst, Module, Name, Operand, Ty};
use ms_bits::{Boxed, Duplicate, List, NoMemory};
use std::alloc::Global;

impl Duplicate for Name {
    fn copy(&self, alloc: Global) -> Result<Self, NoMemory> {
        match self {
            Name::Number(number) => Ok(Name::Number(*number)),
            Name::Text(text) => Ok(Name::Text(text.copy(alloc)?)),
        }
    }
}

/// A copy of a type; of what it holds the copies are made in the same way.
#[cycle(copy_ty)]
fn copy_ty(ty: &Ty, alloc: Global) -> Result<Ty, NoMemory>
    ensures { IfOk result (λ c. c ≡ ty.now) }
{
    match ty {
        Ty::Int(width) => Ok(Ty::Int(*width)),
        Ty::Ptr => Ok(Ty::Ptr),
        Ty::Array(count, item) => {
            let item = copy_ty(item.get(), alloc)?;
            Ok(Ty::Array(*count, Boxed::new(alloc, item)?))
        }
        Ty::Struct(packed, fields) => Ok(Ty::Struct(*packed, copy_tys(fields, alloc)?)),
        Ty::Named(name) => Ok(Ty::Named(name.copy(alloc)?)),
    }
}

/// A copy of a list of types.
#[cycle(copy_ty)]
fn copy_tys(tys: &List<Ty>, alloc: Global) -> Result<List<Ty>, NoMemory>
    ensures { IfOk result (λ c. c ≡ tys.now) }
{
    let items = tys.as_slice();
    let mut copies = Vec::with_capacity(alloc, items.len())?;
    for item in items {
        copies.push(copy_ty(item, alloc)?)?;
    }
    Ok(List::from_vec(copies))
}

impl Duplicate for Ty {
    fn copy(&self, alloc: Global) -> Result<Self, NoMemory> {
        copy_ty(self, alloc)
    }
}

/// A copy of a constant address: its global and the steps from there.
fn copy_offset(
    alloc: Global,
    name: &Boxed<Name>,
    steps: &List<(Ty, List<(Ty, u64)>)>,
) -> Result<Operand, NoMemory>
    ensures { IfOk result (λ c. c ≡ operand.Offset name.now steps.now) }
{
    let (name, steps) = two(alloc, name, steps)?;
    Ok(Operand::Offset(name, steps))
}

impl Duplicate for Operand {
    fn copy(&self, alloc: Global) -> Result<Self, NoMemory> {
        match self {
            Operand::Int(value) => Ok(Operand::Int(*value)),
            Operand::Null => Ok(Operand::Null),
            Operand::Undef => Ok(Operand::Undef),
            Operand::Poison => Ok(Operand::Poison),
            Operand::Local(name) => Ok(Operand::Local(name.copy(alloc)?)),
            Operand::Global(name) => Ok(Operand::Global(name.copy(alloc)?)),
            Operand::Offset(name, steps) => copy_offset(alloc, name, steps),
        }
    }
}

/// A copy of an initialiser; of what it holds the copies are made in the same way.
#[cycle(copy_init)]
fn copy_init(init: &Init, alloc: Global) -> Result<Init, NoMemory>
    ensures { IfOk result (λ c. c ≡ init.now) }
{
    match init {
        Init::Value(value) => Ok(Init::Value(value.copy(alloc)?)),
        Init::Zero => Ok(Init::Zero),
        Init::Array(items) => Ok(Init::Array(copy_inits(items, alloc)?)),
        Init::Struct(packed, fields) => Ok(Init::Struct(*packed, copy_inits(fields, alloc)?)),
        Init::Text(bytes) => Ok(Init::Text(bytes.copy(alloc)?)),
    }
}

/// A copy of the items of an array, or the fields of a struct, with their types.
#[cycle(copy_init)]
fn copy_inits(inits: &List<(Ty, Init)>, alloc: Global) -> Result<List<(Ty, Init)>, NoMemory>
    ensures { IfOk result (λ c. c ≡ inits.now) }
{
    let items = inits.as_slice();
    let mut copies = Vec::with_capacity(alloc, items.len())?;
    for (ty, init) in items {
        let ty = ty.copy(alloc)?;
        let init = copy_init(init, alloc)?;
        copies.push((ty, init))?;
    }
    Ok(List::from_vec(copies))
}

impl Duplicate for Init {
    fn copy(&self, alloc: Global) -> Result<Self, NoMemory> {
        copy_init(self, alloc)
    }
}

impl Duplicate for Inst {
    fn copy(&self, alloc: Global) -> Result<Self, NoMemory> {
        let result = self.result.copy(alloc)?;
        let op = self.op.copy(alloc)?;
        Ok(Inst {
            op,
            result,
            marked: self.marked,
        })
    }
}

impl Duplicate for Block {
    fn copy(&self, alloc: Global) -> Result<Self, NoMemory> {
        Ok(Block {
            name: self.name.copy(alloc)?,
            insts: self.insts.copy(alloc)?,
        })
    }
}

impl Duplicate for Func {
    fn copy(&self, alloc: Global) -> Result<Self, NoMemory> {
        let (name, ret, params, blocks) = four(
            alloc,
            &self.name,
            &self.ret,
            &self.params,
            &self.blocks,
        )?;
        Ok(Func {
            name,
            ret,
            params,
            blocks,
        })
    }
}

impl Duplicate for Decl {
    fn copy(&self, alloc: Global) -> Result<Self, NoMemory> {
        let (name, ret, params) = three(alloc, &self.name, &self.ret, &self.params)?;
        Ok(Decl { name, ret, params })
    }
}

impl Duplicate for GlobalVar {
    fn copy(&self, alloc: Global) -> Result<Self, NoMemory> {
        let (name, ty, init) = three(alloc, &self.name, &self.ty, &self.init)?;
        Ok(GlobalVar {
            name,
            constant: self.constant,
            ty,
            init,
        })
    }
}

impl Duplicate for Module {
    fn copy(&self, alloc: Global) -> Result<Self, NoMemory> {
        let (types, globals, decls, funcs) = four(
            alloc,
            &self.types,
            &self.globals,
            &self.decls,
            &self.funcs,
        )?;
        Ok(Module {
            types,
            globals,
            decls,
            funcs,
        })
    }
}
