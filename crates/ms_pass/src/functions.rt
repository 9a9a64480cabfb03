//! The instrumented form of functions, made in pieces by several threads. A function has at most 2^30 values (`values`), whose
//! inserted results are numbered; limits on texts keep them far fewer.
ghost use Rattle.std.specs.{Prelude.{◌≡◌, ◌≤◌, ◌^◌, All, length, map, IfOk}, List.{range_with_len}};
ghost use Rattle.ms_ir.specs.Names.{name_eq, main_name};
ghost use Rattle.ms_check_tables.specs.FirstPlace.{first_place};
ghost use Rattle.ms_rules.specs.{Scopes.{env_of}, Valued.{value_names}};
ghost use Rattle.ms_pass.specs.Counted.{here_of, past_blocks, past_funcs, AreSmall};
ghost use Rattle.ms_pass.specs.Passed.{entry, first_number, func_made, given_by, names_in, no_counts, passed_func};
ghost use Rattle.ms_pass.specs.{Ready.{IsReady}, Pieces.{CanPass}};

use crate::blocks::passed_blocks;
use crate::counts::{Counts, counts_before};
use ms_bits::{Duplicate, List, NoMemory};
use ms_check_tables::{Extents, NameTable};
use ms_elide::CleanSet;
use ms_fork::{Gate, Split, Work, parallel_map};
use ms_ir::{Block, Func, Name, Ty};
use ms_rules::{Scope, push_parameters, values_of};
use ms_rules_builder::Builder;
use std::alloc::Global;
use std::thread::Threads;

/// What a function begins with: it takes over the masks and origins of its parameters. The first numbers of inserted results are
/// those of the values, two for each.
fn entry_of(
    alloc: Global,
    scope: &Scope<'_, '_>,
    params: &[(Ty, Name)],
) -> Result<Builder, NoMemory>
    requires { length scope.now.values.now ≤ 2 ^ 30 }
    ensures { IfOk result (λ c. c ≡ entry (env_of scope.now) (first_number (length scope.now.values.now)) params.now) }
{
    let mut builder = Builder::new(alloc, 2 * scope.values.len() as u64 + 1);
    push_parameters(&mut builder, scope, params)?;
    Ok(builder)
}

/// The blocks of the instrumented form of a function, where so many sites and roots stand before it and the values with the
/// names `clean` are known to be clean.
fn blocks_in<'m>(
    alloc: Global,
    extents: &Extents<'m>,
    functions: &NameTable<'m>,
    clean: &NameTable<'m>,
    before: Counts,
    func: &'m Func,
) -> Result<List<Block>, NoMemory>
    requires ready { IsReady extents.now func.now }
    requires small { AreSmall (past_blocks (first_place functions.now) before func.now.blocks) }
    ensures { IfOk result (λ bs. bs ≡ (passed_func (given_by extents.now functions.now) clean.now (here_of before (name_eq func.now.name main_name)) func.now).blocks) }
{
    let values = values_of(alloc, func)?;
    blocks_by(alloc, extents, functions, &values, clean, before, func)
}

/// The blocks of `blocks_in`, where `values` are the names of the function's values.
fn blocks_by<'m>(
    alloc: Global,
    extents: &Extents<'m>,
    functions: &NameTable<'m>,
    values: &NameTable<'m>,
    clean: &NameTable<'m>,
    before: Counts,
    func: &'m Func,
) -> Result<List<Block>, NoMemory>
    requires values { values.now ≡ value_names func.now }
    requires ready { IsReady extents.now func.now }
    requires small { AreSmall (past_blocks (first_place functions.now) before func.now.blocks) }
    ensures { IfOk result (λ bs. bs ≡ (passed_func (given_by extents.now functions.now) clean.now (here_of before (name_eq func.now.name main_name)) func.now).blocks) }
{
    let scope = Scope {
        extents,
        functions,
        values,
        clean,
        main: func.name.is(b"main"),
    };
    let start = entry_of(alloc, &scope, func.params.as_slice())?;
    let mut counts = before;
    passed_blocks(alloc, &scope, &mut counts, start, func.blocks.as_slice())
}

/// A function with other blocks, a copy in all else.
fn with_blocks(alloc: Global, func: &Func, blocks: List<Block>) -> Result<Func, NoMemory>
    ensures { IfOk result (λ f. f ≡ record func.now { blocks = blocks }) }
{
    let params = func.params.copy(alloc)?;
    with_parts(alloc, func, params, blocks)
}

/// A function with other parameters and blocks, a copy in all else.
fn with_parts(
    alloc: Global,
    func: &Func,
    params: List<(Ty, Name)>,
    blocks: List<Block>,
) -> Result<Func, NoMemory>
    ensures { IfOk result (λ f. f ≡ record func.now { params = params; blocks = blocks }) }
{
    let name = func.name.copy(alloc)?;
    let ret = func.ret.copy(alloc)?;
    Ok(Func {
        name,
        ret,
        params,
        blocks,
    })
}

/// What the functions of a module are instrumented with. The threads that make them share it, to read alone.
#[derive(Drop)]
struct Functions<'a, 'm> {
    extents: &'a Extents<'m>,
    /// The names of the functions.
    functions: &'a NameTable<'m>,
    /// The clean values of each function.
    clean: &'a CleanSet<'m>,
    /// The sites and roots before each function.
    counts: &'a [Counts],
    funcs: &'m [Func],
}

/// The item of a number is the instrumented form of the function with it (`answer`), which can be made where all is known that
/// the pass asks of it (`can`).
impl<'a, 'm> Work for Functions<'a, 'm> {
    type Item = Func;

    ghost can = { λ work k. CanPass work.extents.now work.functions.now work.clean.now work.counts.now work.funcs.now k };

    ghost answer = { λ work k. func_made (given_by work.extents.now work.functions.now) (names_in work.clean.now) work.funcs.now k };

    fn make(&self, alloc: Global, index: usize) -> Result<Func, NoMemory> {
        let func = &self.funcs[index];
        let clean = self.clean.names(index);
        let before = self.counts[index];
        let blocks = blocks_in(alloc, self.extents, self.functions, clean, before, func)?;
        with_blocks(alloc, func, blocks)
    }
}

/// The instrumented form of the functions of a module, where `clean` has the clean values of each: the same for every gate.
/// They are made in pieces of at most eight by several threads.
pub fn passed_funcs<'m, R: Threads + Sync, G: Gate + Sync>(
    rt: &R,
    alloc: Global,
    extents: &Extents<'m>,
    functions: &NameTable<'m>,
    clean: &CleanSet<'m>,
    funcs: &'m [Func],
    gate: &G,
) -> Result<List<Func>, NoMemory>
    requires sets { length clean.now ≡ length funcs.now }
    requires ready { All (IsReady extents.now) funcs.now }
    requires small { AreSmall (past_funcs (first_place functions.now) no_counts funcs.now) }
    ensures { IfOk result (λ fs. fs ≡ map (func_made (given_by extents.now functions.now) (names_in clean.now) funcs.now) (range_with_len 0 (length funcs.now))) }
{
    let counts = counts_before(alloc, functions, funcs)?;
    let work = Functions {
        extents,
        functions,
        clean,
        counts: &counts,
        funcs,
    };
    let split = Split {
        most: 8,
        threads: 16,
    };
    parallel_map(rt, alloc, &work, funcs.len(), split, gate)
}
