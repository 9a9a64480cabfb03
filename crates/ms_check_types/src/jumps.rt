//! Checks the types of terminators (LLVM Language Reference, "'switch' Instruction", "'br' Instruction", "'ret' Instruction").
ghost use Rattle.std.specs.{Prelude.{◌≡◌, ◌&&◌, IfOk, slice_get}, List.{list_all}};
ghost use Rattle.ms_ir.specs.{Equal.{has_name}, Locals.{block_names}, Written.{targets}};
ghost use Rattle.ms_check_valid.specs.TypesAgree.{differ, returns_fit};
ghost use Rattle.ms_check_types.specs.{Bodies.{fits_in, func_of}, Typed.{holds_at}};

use crate::bodies::FuncTypes;
use crate::operands::operand_fits;
use ms_bits::NoMemory;
use ms_ir::{Name, Op, Operand, Ty, ValueType};
use std::alloc::Global;
use std::collections::BTreeSet;

/// Whether the numbers of a `switch`'s cases are different. They are gone through from the last.
pub fn differ(alloc: Global, cases: &[(u64, Name)]) -> Result<bool, NoMemory>
    ensures { IfOk result (λ r. r ≡ differ cases.now) }
{
    let mut later = BTreeSet::new(alloc);
    for place in (0..cases.len()).rev() {
        if !later.insert(cases[place].0)? {
            return Ok(false);
        }
    }
    Ok(true)
}

/// Whether the label at a place among those to which an instruction may go is that of a block, if there is one.
fn leads_to_block(body: &FuncTypes<'_, '_>, op: &Op, place: usize) -> bool
    ensures { result ≡ holds_at (has_name (block_names (func_of body.now))) (slice_get (targets op.now) place) }
{
    match op.target(place) {
        Some(to) => body.locals.is_block(to),
        None => true,
    }
}

/// Whether an instruction goes to blocks of the function alone.
pub fn leads_to_blocks(body: &FuncTypes<'_, '_>, op: &Op) -> bool
    ensures { result ≡ list_all (has_name (block_names (func_of body.now))) (targets op.now) }
{
    for place in 0..op.target_count() {
        if !leads_to_block(body, op, place) {
            return false;
        }
    }
    true
}

/// Whether a `ret` gives a value of the type that the function returns, or none where it returns none.
pub fn returns_fit(body: &FuncTypes<'_, '_>, value: &Option<(Ty, Operand)>) -> bool
    ensures { result ≡ returns_fit (fits_in body.now) (func_of body.now).ret value.now }
{
    match (&body.locals.func.ret, value) {
        (None, None) => true,
        (Some(ty), Some((own, operand))) => own == ty
            && operand_fits(body, ValueType::Written(own), operand),
        _ => false,
    }
}
