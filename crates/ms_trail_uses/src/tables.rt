//! What a traced run knows of each instruction by its number in the code, a row for each: the instruction, its block, and the
//! number of roots before it. Made once a module.
ghost use Rattle.std.specs.Prelude.{◌≡◌, ◌+◌, ◌<◌, ◌^◌, ℕ, IfOk, length, slice_get, Some, if◌then◌else◌};
ghost use Rattle.ms_ir.specs.declared.syntax.Module.{Module as ModuleOf};
ghost use Rattle.ms_ir.specs.Instructions.{blocks_at, insts_at, root_at, roots_in, count_roots, func_index, over_insts, over_blocks, external_named, is_root, makes_unset};
ghost use Rattle.ms_ir.specs.Locals.{function_names};
ghost use Rattle.ms_runs.specs.Control.{block_name};
ghost use Rattle.ms_check_tables.specs.FirstPlace.{first_place};
ghost use Rattle.ms_machine_compile.specs.Flat.{EachInst, EachBlock, Pushed};
ghost use Rattle.ms_trail_uses.specs.Tabled.{IsRow, AreTables};

use ms_bits::NoMemory;
use ms_check_tables::{NameTable, functions_of};
use ms_ir::{Block, External, Inst, Module, Name, Op};
use ms_trail_moves::sources::roots_before;
use std::alloc::Global;

/// An instruction, how many roots stand before it in the text (`roots`), and the name of its block.
#[derive(Clone, Copy)]
pub struct InstRow<'m> {
    pub inst: &'m Inst,
    pub roots: u32,
    pub block: &'m Name,
}

/// The rows of a module's instructions, in text order.
#[derive(Drop)]
pub struct InstRows<'m> {
    pub rows: Vec<InstRow<'m>>,
}

/// The external that a name calls, in a module with these functions.
fn called(functions: &NameTable<'_>, name: &Name) -> Option<External>
    ensures { result ≡ external_named (first_place functions.now) name.now }
{
    match functions.place(name) {
        Some(_) => None,
        None => External::named(name),
    }
}

/// 1 for an external that makes uninitialised bytes.
fn one_unset(external: Option<External>) -> u32
    ensures { result ≡ if makes_unset external then 1 else 0 }
{
    match external {
        Some(External::Malloc) => 1,
        Some(External::Realloc) => 1,
        Some(External::LifetimeStart) => 1,
        _ => 0,
    }
}

/// 1 where an operation is a root itself (makes uninitialised bytes), in a module with these functions, else 0.
fn own_roots(functions: &NameTable<'_>, op: &Op) -> u32
    ensures { result ≡ if is_root (first_place functions.now) op.now then 1 else 0 }
{
    match op {
        Op::Alloca { .. } => 1,
        Op::Call { callee, .. } => one_unset(called(functions, callee)),
        _ => 0,
    }
}

/// How many roots stand after an instruction; `first` stand before it.
fn roots_after(functions: &NameTable<'_>, first: u32, inst: &Inst) -> u32
    requires { first + roots_in (first_place functions.now) inst.now < 2 ^ 32 }
    ensures { result ≡ first + roots_in (first_place functions.now) inst.now }
{
    if inst.marked {
        return first;
    }
    let undefined = roots_before(&inst.op, inst.op.operand_count());
    first + undefined + own_roots(functions, &inst.op)
}

/// Appends the rows of the instructions of a block with the name `block`, before which `first` roots stand. Returns how many stand
/// after them.
fn push_insts<'m>(
    rows: &mut Vec<InstRow<'m>>,
    functions: &NameTable<'m>,
    insts: &'m [Inst],
    block: &'m Name,
    first: u32,
) -> Result<u32, NoMemory>
    requires { first + over_insts (roots_in (first_place functions.now)) insts.now < 2 ^ 32 }
    ensures after { IfOk result (λ roots. roots ≡ first + over_insts (roots_in (first_place functions.now)) insts.now) }
    ensures rows { IfOk result (λ roots. (m : ModuleOf) (n b : ℕ) → first_place functions.now ≡ func_index m.funcs → insts.now ≡ insts_at m n b → block.now ≡ block_name m n b → first ≡ root_at (func_index m.funcs) m n b 0
        → Pushed (EachInst (IsRow m n b) 0) rows.old.items rows.new.items insts.now) }
{
    let mut roots = first;
    for inst in insts {
        rows.push(InstRow { inst, roots, block })?;
        roots = roots_after(functions, roots, inst);
    }
    Ok(roots)
}

/// Appends the rows of the instructions of the blocks of a function, before which `first` roots stand. Returns how many stand after
/// them.
fn push_blocks<'m>(
    rows: &mut Vec<InstRow<'m>>,
    functions: &NameTable<'m>,
    blocks: &'m [Block],
    first: u32,
) -> Result<u32, NoMemory>
    requires { first + over_blocks (roots_in (first_place functions.now)) blocks.now < 2 ^ 32 }
    ensures after { IfOk result (λ roots. roots ≡ first + over_blocks (roots_in (first_place functions.now)) blocks.now) }
    ensures rows { IfOk result (λ roots. (m : ModuleOf) (n : ℕ) → first_place functions.now ≡ func_index m.funcs → blocks.now ≡ blocks_at m n → first ≡ root_at (func_index m.funcs) m n 0 0
        → Pushed (EachBlock (IsRow m n) 0) rows.old.items rows.new.items blocks.now) }
{
    let mut roots = first;
    for block in blocks {
        roots = push_insts(rows, functions, block.insts.as_slice(), &block.name, roots)?;
    }
    Ok(roots)
}

/// The rows of the instructions of a module with these functions.
fn rows_of<'m>(
    alloc: Global,
    m: &'m Module,
    functions: &NameTable<'m>,
) -> Result<Vec<InstRow<'m>>, NoMemory>
    requires functions { functions.now ≡ function_names m.now }
    requires few { count_roots m.now < 2 ^ 32 }
    ensures { IfOk result (λ rows. AreTables m.now rows.items) }
{
    let mut rows = Vec::new(alloc);
    let mut roots = 0;
    for func in m.funcs.as_slice() {
        roots = push_blocks(&mut rows, functions, func.blocks.as_slice(), roots)?;
    }
    Ok(rows)
}

impl<'m> InstRows<'m> {
    /// The rows of a module. Near to linear in it.
    pub fn of(alloc: Global, m: &'m Module) -> Result<InstRows<'m>, NoMemory>
        requires { count_roots m.now < 2 ^ 32 }
        ensures { IfOk result (λ tables. AreTables m.now tables.rows.items) }
    {
        let functions = functions_of(alloc, m)?;
        let rows = rows_of(alloc, m, &functions)?;
        Ok(InstRows { rows })
    }

    /// The row of the instruction with number `at` in the code.
    pub fn row(&self, at: usize) -> InstRow<'m>
        requires { at < length self.now.rows.items }
        ensures { slice_get self.now.rows.items at ≡ Some result }
    {
        self.rows[at]
    }
}
