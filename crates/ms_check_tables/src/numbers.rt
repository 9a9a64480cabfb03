//! Blocks and other names by their numbers, which are their places in a table: for graphs and the compiler.
ghost use Rattle.std.specs.Prelude.{◌≡◌, ◌<◌, ◌^◌, length, IfOk};
ghost use Rattle.ms_check_valid.specs.FlowGraph.{name_place};
ghost use Rattle.ms_ir.specs.Locals.{block_names};

use crate::Names;
use ms_bits::NoMemory;
use ms_ir::{Func, Name};
use std::alloc::Global;

/// The names of the blocks of a function, which number them from 0 on.
pub fn block_numbers(alloc: Global, func: &Func) -> Result<Names<'_>, NoMemory>
    requires { length func.now.blocks < 2 ^ 32 }
    ensures { IfOk result (λ names. names ≡ block_names func.now) }
{
    let mut names = Names::new(alloc);
    for block in func.blocks.as_slice() {
        names.push(&block.name)?;
    }
    Ok(names)
}

/// The number of a block or value by its name: the first place of the name, or the number of all names where it isn't
/// among them.
pub fn name_place(names: &Names<'_>, name: &Name) -> u32
    ensures { result ≡ name_place names.now name.now }
{
    match names.place(name) {
        Some(place) => place,
        None => names.len(),
    }
}
