//! The types and the numbers of a function's values, by their names, for `word` of `inspect.rt`. Nothing here takes memory: names
//! are looked for one after the other. Parameters, blocks and results have numbers in text order; the `seek_` functions give the
//! number of a name, or, as error, the number after all that they passed.
ghost use Rattle.std.specs.Prelude.{◌≡◌, ◌+◌, ◌<◌, ◌^◌, length, map, filter_map, flat_map, option_map};
ghost use Rattle.std.specs.Option.{option_to_list};
ghost use Rattle.ms_ir.specs.{Names.{lookup}, Locals.{block_locals, locals, results, typed_result, value_type}};
ghost use Rattle.ms_ir.specs.ValueTypes.{type_of};
ghost use Rattle.ms_machine.specs.Searches.{IsSought};

use ms_ir::{Block, Func, Inst, Name, Ty, ValueType};

/// The type of the parameter with a name.
fn param_type<'m>(params: &'m [(Ty, Name)], name: &Name) -> Option<ValueType<'m>>
    ensures { option_map type_of result ≡ lookup (map (λ p. (p.1, p.0)) params.now) name.now }
{
    for (ty, other) in params {
        if other == name {
            return Some(ValueType::Written(ty));
        }
    }
    None
}

/// The type of an instruction's result, if that has the name.
fn type_if_named<'m>(inst: &'m Inst, name: &Name) -> Option<ValueType<'m>>
    ensures { option_map type_of result ≡ lookup (option_to_list (typed_result inst.now)) name.now }
{
    match &inst.result {
        Some(other) => {
            if other == name {
                inst.op.result_type()
            } else {
                None
            }
        }
        None => None,
    }
}

/// The type of the result with a name among those of instructions.
fn result_in_block<'m>(insts: &'m [Inst], name: &Name) -> Option<ValueType<'m>>
    ensures { option_map type_of result ≡ lookup (filter_map typed_result insts.now) name.now }
{
    for inst in insts {
        if let Some(ty) = type_if_named(inst, name) {
            return Some(ty);
        }
    }
    None
}

/// The type of the result with a name among those of blocks.
fn result_in_blocks<'m>(blocks: &'m [Block], name: &Name) -> Option<ValueType<'m>>
    ensures { option_map type_of result ≡ lookup (filter_map typed_result (flat_map (λ b. b.insts) blocks.now)) name.now }
{
    for block in blocks {
        match result_in_block(block.insts.as_slice(), name) {
            Some(ty) => return Some(ty),
            None => {}
        }
    }
    None
}

/// The type of the parameter or result of a function with a name.
pub(crate) fn type_named<'m>(func: &'m Func, name: &Name) -> Option<ValueType<'m>>
    ensures { option_map type_of result ≡ value_type func.now name.now }
{
    match param_type(func.params.as_slice(), name) {
        Some(ty) => Some(ty),
        None => result_in_blocks(func.blocks.as_slice(), name),
    }
}

/// The number of a name among those of parameters.
fn seek_param(params: &[(Ty, Name)], name: &Name) -> Result<usize, usize>
    ensures { IsSought (map (λ p. p.1) params.now) name.now 0 result }
{
    for (index, param) in params.iter().enumerate() {
        if param.1 == *name {
            return Ok(index);
        }
    }
    Err(params.len())
}

/// The number of a name among those of results, of which the first has the number `from`.
fn seek_result(insts: &[Inst], name: &Name, from: usize) -> Result<usize, usize>
    requires { from + length (results insts.now) < 2 ^ 64 }
    ensures { IsSought (results insts.now) name.now from result }
{
    let mut passed = from;
    for inst in insts {
        if let Some(other) = &inst.result {
            if other == name {
                return Ok(passed);
            }
            passed += 1;
        }
    }
    Err(passed)
}

/// The number of a name among those of a block and its results, of which the first has the number `from`.
fn seek_block(block: &Block, name: &Name, from: usize) -> Result<usize, usize>
    requires { from + length (block_locals block.now) < 2 ^ 64 }
    ensures { IsSought (block_locals block.now) name.now from result }
{
    if block.name == *name {
        Ok(from)
    } else {
        seek_result(block.insts.as_slice(), name, from + 1)
    }
}

/// The number of a name among those of blocks and their results, of which the first has the number `from`.
fn seek_blocks(blocks: &[Block], name: &Name, from: usize) -> Result<usize, usize>
    requires { from + length (flat_map block_locals blocks.now) < 2 ^ 64 }
    ensures { IsSought (flat_map block_locals blocks.now) name.now from result }
{
    let mut passed = from;
    for block in blocks {
        match seek_block(block, name, passed) {
            Ok(number) => return Ok(number),
            Err(beyond) => passed = beyond,
        }
    }
    Err(passed)
}

/// The number of a name among all of a function; where none is equal to it, how many there are.
pub(crate) fn number_named(func: &Func, name: &Name) -> Result<usize, usize>
    requires { length (locals func.now) < 2 ^ 64 }
    ensures { IsSought (locals func.now) name.now 0 result }
{
    match seek_param(func.params.as_slice(), name) {
        Ok(number) => Ok(number),
        Err(count) => seek_blocks(func.blocks.as_slice(), name, count),
    }
}
