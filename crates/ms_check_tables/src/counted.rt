//! How many names a function defines: for the compiler, which makes a frame with a value for each.
ghost use Rattle.std.specs.Prelude.{◌≡◌, ◌+◌, length, option_to_list, filter_map, flat_map, IfOk};
ghost use Rattle.ms_ir.specs.Locals.{block_locals, locals};

use crate::capacity::make_room;
use crate::named::Named;
use ms_bits::NoMemory;
use ms_ir::{Block, Func, Name};
use std::alloc::Global;

/// Lists the name that a part gives, if it gives one.
fn list_given<'m, T: Named>(names: &mut Vec<&'m Name>, part: &'m T) -> Result<(), NoMemory>
    ensures { IfOk result (λ _. length names.new.items ≡ length names.old.items + length (option_to_list (T.name_of part.now))) }
{
    match part.given_name() {
        Some(name) => {
            names.push(name)?;
            Ok(())
        }
        None => Ok(()),
    }
}

/// Lists the names that parts of a function give: parameters, or the instructions of a block.
fn list_all<'m, T: Named>(names: &mut Vec<&'m Name>, parts: &'m [T]) -> Result<(), NoMemory>
    ensures { IfOk result (λ _. length names.new.items ≡ length names.old.items + length (filter_map T.name_of parts.now)) }
{
    for part in parts {
        list_given(names, part)?;
    }
    Ok(())
}

/// Lists the names of blocks and their results.
fn list_blocks<'m>(names: &mut Vec<&'m Name>, blocks: &'m [Block]) -> Result<(), NoMemory>
    ensures { IfOk result (λ _. length names.new.items ≡ length names.old.items + length (flat_map block_locals blocks.now)) }
{
    for block in blocks {
        names.push(&block.name)?;
        list_all(names, block.insts.as_slice())?;
    }
    Ok(())
}

/// How many names `locals_of` has, without a table of them. They are listed, since a list's length fits in a `usize`.
pub fn count_locals(alloc: Global, func: &Func) -> Result<usize, NoMemory>
    ensures { IfOk result (λ count. count ≡ length (locals func.now)) }
{
    let mut names = Vec::new(alloc);
    make_room(&mut names)?;
    list_all(&mut names, func.params.as_slice())?;
    list_blocks(&mut names, func.blocks.as_slice())?;
    Ok(names.len())
}
