//! The names of all functions that the calls of a module name: a declaration that none of them names may be anything.
ghost use Rattle.std.specs.Prelude.{◌≡◌, ◌++◌, flat_map, filter_map, slice_get, IfOk};
ghost use Rattle.ms_check_valid.specs.ExternalsFit.{callees, called_names};

use ms_bits::NoMemory;
use ms_check_tables::{NameTable, Pick, push_code};
use ms_ir::{Func, Inst, Module, Name, Op};
use std::alloc::Global;

/// Picks the callee of each call.
struct CalledNames;

impl Pick for CalledNames {
    ghost picked = { λ p inst. slice_get (callees inst.op) 0 };

    fn pick<'m>(&self, inst: &'m Inst) -> Option<&'m Name> {
        match &inst.op {
            Op::Call { callee, .. } => Some(callee),
            _ => None,
        }
    }
}

/// Appends the callees in functions.
fn push_funcs<'m>(names: &mut NameTable<'m>, funcs: &'m [Func]) -> Result<(), NoMemory>
    ensures { IfOk result (λ _. names.new ≡ names.old ++ flat_map (λ f. flat_map (λ b. filter_map (λ inst. slice_get (callees inst.op) 0) b.insts) f.blocks) funcs.now) }
{
    for func in funcs {
        push_code(names, &CalledNames, func.blocks.as_slice())?;
    }
    Ok(())
}

/// The names that the calls of a module name.
pub fn called_names(alloc: Global, m: &Module) -> Result<NameTable<'_>, NoMemory>
    ensures { IfOk result (λ names. names ≡ called_names m.now) }
{
    let mut names = NameTable::new(alloc);
    push_funcs(&mut names, m.funcs.as_slice())?;
    Ok(names)
}
