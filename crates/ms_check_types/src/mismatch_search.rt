//! Looks for the first fault in types, for `ms_check`: in the initialisers of globals, then in the instructions, in the order of
//! the text.
ghost use Rattle.std.specs.Prelude.{◌≡◌, ◌<◌, ◌^◌, [], IfOk, length, option_map, slice_get};
ghost use Rattle.ms_ir.specs.Instructions.{over_funcs};
ghost use Rattle.ms_check_valid.specs.{Formed.{count_written}, TypesAgree.{mismatches}};
ghost use Rattle.ms_check_types.specs.Faults.{as_pair, inst_faults, code_faults, globals_fault};

use crate::bodies::FuncTypes;
use crate::initialisers::init_fits;
use crate::instructions::op_fault;
use crate::locals::Locals;
use crate::mismatches::Mismatch;
use crate::symbols::Symbols;
use ms_bits::NoMemory;
use ms_check_tables::{Clause, InstSite, first_fault};
use ms_ir::{Func, GlobalVar, Inst, Module};
use std::alloc::Global;

/// The clause that each operand has the type that is asked for, in a module with these symbols. A fault is a site with the
/// number of an operand.
#[derive(Drop)]
struct TypesAgree<'a, 'm> {
    symbols: &'a Symbols<'m>,
}

/// Nothing is asked of a function (`Asks`), its tables have the types of its values (`AreOf`), and it has no fault (`head`) but
/// its instructions' (`look`).
impl<'a, 'm> Clause<'m> for TypesAgree<'a, 'm> {
    type Tables = Locals<'m>;

    type Fault = (u32, usize);

    ghost Asks = { λ f. Unit {0} };

    ghost AreOf = { λ clause f locals. locals.func.now ≡ f };

    ghost head = { λ clause f. [] };

    ghost look = { λ clause at inst. inst_faults clause.symbols.now.source.now at inst };

    fn func_fault(&self, _func: &'m Func) -> Option<(u32, usize)> {
        None
    }

    fn enter(&self, alloc: Global, func: &'m Func) -> Result<Locals<'m>, NoMemory> {
        Locals::of(alloc, func)
    }

    fn fault(
        &self,
        alloc: Global,
        tables: &mut Locals<'m>,
        here: &InstSite<'m>,
        inst: &'m Inst,
    ) -> Result<Option<(u32, usize)>, NoMemory> {
        let body = FuncTypes {
            symbols: self.symbols,
            locals: tables,
        };
        match op_fault(alloc, &body, &inst.op)? {
            Some(operand) => Ok(Some((here.site, operand))),
            None => Ok(None),
        }
    }
}

/// The first mismatch in the functions of a module that has these symbols.
fn first_in_code<'m>(
    alloc: Global,
    symbols: &Symbols<'m>,
    m: &'m Module,
) -> Result<Option<Mismatch>, NoMemory>
    requires { over_funcs count_written m.now.funcs < 2 ^ 30 }
    ensures { IfOk result (λ r. option_map as_pair r ≡ slice_get (code_faults symbols.now.source.now m.now) 0) }
{
    match first_fault(alloc, &TypesAgree { symbols }, m)? {
        Some((site, operand)) => Ok(Some(Mismatch {
            site,
            operand: operand as u32,
        })),
        None => Ok(None),
    }
}

/// The number of the first global, from 0, whose initialiser doesn't fit its type.
fn first_in_globals<'a>(symbols: &'a Symbols<'_>, globals: &'a [GlobalVar]) -> Option<u32>
    requires { length globals.now < 2 ^ 30 }
    ensures { result ≡ globals_fault symbols.now.source.now 0 globals.now }
{
    for (place, global) in globals.iter().enumerate() {
        if !init_fits(symbols, &global.ty, &global.init) {
            return Some(place as u32);
        }
    }
    None
}

/// The first mismatch of a module with these symbols.
fn first_in_module<'m>(
    alloc: Global,
    symbols: &Symbols<'m>,
    m: &'m Module,
) -> Result<Option<Mismatch>, NoMemory>
    requires source { symbols.now.source.now ≡ m.now }
    requires globals { length m.now.globals < 2 ^ 30 }
    requires operands { over_funcs count_written m.now.funcs < 2 ^ 30 }
    ensures { IfOk result (λ r. option_map as_pair r ≡ slice_get (mismatches m.now) 0) }
{
    match first_in_globals(symbols, m.globals.as_slice()) {
        Some(operand) => Ok(Some(Mismatch { site: 0, operand })),
        None => first_in_code(alloc, symbols, m),
    }
}

/// The first mismatch of a module in the order of its text: of the initialisers of its globals, and then of its instructions.
/// None exactly where all types agree. Near-linear in the module.
pub fn first_mismatch(alloc: Global, m: &Module) -> Result<Option<Mismatch>, NoMemory>
    requires globals { length m.now.globals < 2 ^ 30 }
    requires operands { over_funcs count_written m.now.funcs < 2 ^ 30 }
    ensures { IfOk result (λ r. option_map as_pair r ≡ slice_get (mismatches m.now) 0) }
{
    let symbols = Symbols::of(alloc, m)?;
    first_in_module(alloc, &symbols, m)
}
