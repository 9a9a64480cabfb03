//! The first use of a value that isn't defined on every path to it, for `ms_check`; `ms_flow` finds it in a graph of numbers.
ghost use Rattle.std.specs.Prelude.{◌≡◌, ◌≢◌, ◌+◌, ◌<◌, ◌^◌, ◌↔◌, length, map, take, slice_get, IfOk, IfNone, IfSome, IsNone, OnOk, All, AllPairs};
ghost use Rattle.ms_flow.specs.{Paths.{IsDefined, Misses}, Search.{StaysIn}};
ghost use Rattle.ms_ir.specs.Instructions.{one_unmarked, over_blocks};
ghost use Rattle.ms_check_valid.specs.{Formed.{Formed}, Refusals.{UpToPhis, IsFirstUndefined}};
ghost use Rattle.ms_check_valid.specs.UsesDefined.{IsUseDefined, UsesDefined};
ghost use Rattle.ms_check_flow.specs.Asked.{func_uses, CanBeAsked, IsFirstOf};

use crate::func_uses::{FuncUses, asked_of, places};
use crate::inst_uses::NotedUse;
use ms_bits::{List, NoMemory};
use ms_check_valid::laws::law_graph_paths;
use ms_flow::{Missing, missing};
use ms_ir::{Func, Module};
use std::alloc::Global;

/// A use of a value that some path reaches without a definition.
#[derive(Drop)]
pub struct Undefined {
    /// The site of the instruction that uses the value.
    pub site: u32,
    /// The path: blocks by their numbers in the function, from 0 on to the block of the use, which for a phi's operand is the
    /// block that it names. None stands there twice.
    pub path: List<u32>,
}

/// The first of a function's uses that isn't defined, by its number (`which`), and a path to it that misses a definition.
fn first_missing(alloc: Global, asked: &FuncUses) -> Result<Option<Missing>, NoMemory>
    requires same_length { length asked.now.graph.next ≡ length asked.now.graph.defs }
    requires successors { StaysIn asked.now.graph }
    requires blocks { All (λ u. u.block < length asked.now.graph.next) (map (λ u. u.place) asked.now.noted.items) }
    requires few { length (map (λ u. u.place) asked.now.noted.items) < 2 ^ 32 }
    ensures none { IfOk result (λ answer. IsNone answer ↔ All (IsDefined asked.now.graph) (map (λ u. u.place) asked.now.noted.items)) }
    ensures in_range { IfOk result (λ answer. IfSome answer (λ m. m.which < length (map (λ u. u.place) asked.now.noted.items))) }
    ensures least { IfOk result (λ answer. IfSome answer (λ m.
        All (IsDefined asked.now.graph) (take m.which (map (λ u. u.place) asked.now.noted.items)))) }
    ensures path { IfOk result (λ answer. IfSome answer (λ m.
        IfSome (slice_get (map (λ u. u.place) asked.now.noted.items) m.which) (λ u. Misses asked.now.graph u m.path))) }
    ensures once { IfOk result (λ answer. IfSome answer (λ m. AllPairs (λ a b. a ≢ b) m.path)) }
{
    let uses = places(alloc, &asked.noted)?;
    missing(alloc, &asked.graph, &uses)
}

/// The use of which an answer of `ms_flow` tells, with its site.
fn undefined_at(noted: &[NotedUse], missing: Missing) -> Undefined
    requires { missing.which < length noted.now }
    ensures site { IfSome (slice_get noted.now missing.which) (λ u. result.site ≡ u.site) }
    ensures path { result.path ≡ missing.path }
{
    Undefined {
        site: noted[missing.which as usize].site,
        path: missing.path,
    }
}

/// The first use of a function that isn't defined, where its first instruction has a site. The site becomes that after the
/// function.
fn first_in_func(alloc: Global, site: &mut u32, func: &Func) -> Result<Option<Undefined>, NoMemory>
    requires { CanBeAsked func.now site.old }
    ensures none { IfOk result (λ r. IfNone r (All IsUseDefined (func_uses func.now site.old))) }
    ensures first { IfOk result (λ r. IfSome r (λ u. IsFirstOf (func_uses func.now site.old) u.site u.path)) }
    ensures site { OnOk result (site.new ≡ site.old + over_blocks one_unmarked func.now.blocks) }
{
    law_graph_paths();
    let asked = asked_of(alloc, site, func)?;
    match first_missing(alloc, &asked)? {
        None => Ok(None),
        Some(missing) => Ok(Some(undefined_at(&asked.noted, missing))),
    }
}

/// The first use of a value, in text order, that isn't defined on every path from its function's entry block to it, with such
/// a path; None where each use is defined. A phi's operand is used at the end of the block that it names, and no path leads
/// to a block that can't be reached.
///
/// The time grows with the number of instructions, operands, blocks and edges, names being found as `NameTable` finds them,
/// and for each function with the number of its edges times a sixty-fourth of the number of its values that are used outside
/// the block that defines them.
pub fn first_undefined(alloc: Global, m: &Module) -> Result<Option<Undefined>, NoMemory>
    requires formed { Formed m.now }
    requires before { UpToPhis m.now }
    ensures none { IfOk result (λ r. IfNone r (UsesDefined m.now)) }
    ensures first { IfOk result (λ r. IfSome r (λ u. IsFirstUndefined m.now u.site u.path)) }
{
    let mut site = 1;
    for func in m.funcs.as_slice() {
        if let Some(undefined) = first_in_func(alloc, &mut site, func)? {
            return Ok(Some(undefined));
        }
    }
    Ok(None)
}
