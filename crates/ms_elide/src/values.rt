//! The clean values of one function: its premises, and what removal leaves. `members` says of each place of a local whether its
//! value is clean.
ghost use Rattle.std.specs.Prelude.{◌≡◌, ◌++◌, ◌↔◌, ℕ, [], false, IfOk, IsTrue, OnOk, filter, map, option_to_list, slice_index_or};
ghost use Rattle.ms_ir.specs.{declared.syntax.Name.{Name as NameOf}, declared.syntax.Module.{Module}, Equal.{has_name}};
ghost use Rattle.ms_ir.specs.Locals.{locals, results, func_insts, function_names};
ghost use Rattle.ms_check_valid.specs.{NamesOnce.{repeats}, CleanValues.{IsClean}};
ghost use Rattle.ms_check_tables.specs.FirstPlace.{first_place};
ghost use Rattle.ms_elide.specs.{SelfSupport.{IsInGreatest}, Needed.{is_member, row_needs, rows}};

use crate::needs::needs_of;
use crate::removal::greatest;
use crate::scopes::FuncNames;
use ms_bits::{List, NoMemory};
use ms_check_tables::{NameTable, locals_of};
use ms_ir::{Block, Func, Inst, Name};
use std::alloc::Global;

/// Whether the local with a name is a member: clean.
fn is_member(locals: &NameTable<'_>, members: &[bool], name: &Name) -> bool
    ensures { result ≡ is_member locals.now members.now name.now }
{
    match locals.place(name) {
        Some(place) => members.get(place).copied().unwrap_or(false),
        None => false,
    }
}

/// Adds the name of the result of an instruction, if it is a member.
fn push_member<'m>(
    names: &mut NameTable<'m>,
    locals: &NameTable<'m>,
    members: &[bool],
    inst: &'m Inst,
) -> Result<(), NoMemory>
    ensures { OnOk result (names.new ≡ names.old ++ filter (is_member locals.now members.now) (option_to_list inst.now.result)) }
{
    if let Some(name) = &inst.result {
        if is_member(locals, members, name) {
            names.push(name)?;
        }
    }
    Ok(())
}

/// Adds the names of the results of instructions that are members.
fn push_members<'m>(
    names: &mut NameTable<'m>,
    locals: &NameTable<'m>,
    members: &[bool],
    insts: &'m [Inst],
) -> Result<(), NoMemory>
    ensures { OnOk result (names.new ≡ names.old ++ filter (is_member locals.now members.now) (results insts.now)) }
{
    for inst in insts {
        push_member(names, locals, members, inst)?;
    }
    Ok(())
}

/// The names of the results of a function that are members.
fn members_of<'m>(
    alloc: Global,
    locals: &NameTable<'m>,
    members: &[bool],
    func: &'m Func,
) -> Result<NameTable<'m>, NoMemory>
    ensures { IfOk result (λ names. names ≡ filter (is_member locals.now members.now) (results (func_insts func.now))) }
{
    let mut names = NameTable::new(alloc);
    for block in func.blocks.as_slice() {
        push_members(&mut names, locals, members, block.insts.as_slice())?;
    }
    Ok(names)
}

/// Whether each local of a function is clean, by their places.
fn clean_places(
    alloc: Global,
    scope: &FuncNames<'_, '_>,
    func: &Func,
) -> Result<List<bool>, NoMemory>
    requires { scope.now.locals.now ≡ locals func.now }
    ensures { IfOk result (λ members. (place : ℕ) → IsTrue (slice_index_or members place false) ↔ IsInGreatest (map (row_needs (first_place scope.now.locals.now) (first_place scope.now.functions.now)) (rows func.now)) place) }
{
    let needs = needs_of(alloc, scope, func)?;
    greatest(alloc, &needs)
}

/// The names of the clean values of a function.
pub fn values_of<'m>(
    alloc: Global,
    functions: &NameTable<'m>,
    func: &'m Func,
) -> Result<NameTable<'m>, NoMemory>
    requires { repeats [] (locals func.now) ≡ [] }
    ensures { IfOk result (λ names. (m : Module) → functions.now ≡ function_names m → (x : NameOf) → IsTrue (has_name names x) ↔ IsClean m func.now x) }
{
    let locals = locals_of(alloc, func)?;
    let scope = FuncNames {
        functions,
        locals: &locals,
    };
    let members = clean_places(alloc, &scope, func)?;
    members_of(alloc, &locals, members.as_slice(), func)
}
