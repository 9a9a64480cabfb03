//! A whole generated module: functions that are drawn, and a `main` that calls the last of them.
ghost use Rattle.std.specs.Prelude.{◌≡◌, ◌<◌, ◌≤◌, ◌-◌, ◌++◌, [], ◌∷◌, OnOk, IfOk};
ghost use Rattle.ms_ir.specs.{Builders.{local, int, sets, calls}, Declarations.{putchar as putchar_decl}};
ghost use Rattle.ms_check_valid.specs.{Formed.{Formed}, Valid.{Valid}, Uninstrumented.{CanInstrument}};
ghost use Rattle.ms_gen.specs.Generator.{call_of, functions_of, main_of, main_body_of, generated};

use crate::draws::Draws;
use crate::functions::{one_block, push_function};
use crate::instructions::{function_name, push, push_call, push_return};
use ms_bits::{List, NoMemory, SmallBytes};
use ms_ir::{Decl, Func, Inst, Module, Name, Operand, Ty};
use std::alloc::Global;

/// The name that a text is.
fn text_name(alloc: Global, text: &[u8]) -> Result<Name, NoMemory>
    ensures { IfOk result (λ x. x ≡ Name.Text text.now) }
{
    Ok(Name::Text(SmallBytes::from_slice(alloc, text)?))
}

/// Adds the call of the last function, with the number 1.
fn push_first_call(alloc: Global, insts: &mut Vec<Inst>, functions: u32) -> Result<(), NoMemory>
    requires { 0 < functions }
    ensures { OnOk result (insts.new.items ≡ insts.old.items ++ sets 1 (call_of (functions - 1) (int 1)) ∷ []) }
{
    let callee = function_name(alloc, functions - 1)?;
    push_call(alloc, insts, 1, callee, Operand::Int(1))
}

/// Adds the call that prints what the last function gave.
fn push_print(alloc: Global, insts: &mut Vec<Inst>) -> Result<(), NoMemory>
    ensures { OnOk result (insts.new.items ≡ insts.old.items ++ calls 2 putchar_decl (local 1 ∷ []) ∷ []) }
{
    let callee = text_name(alloc, b"putchar")?;
    push_call(alloc, insts, 2, callee, Operand::Local(Name::Number(1)))
}

/// The instructions of `main`.
fn main_body(alloc: Global, functions: u32) -> Result<Vec<Inst>, NoMemory>
    requires { 0 < functions }
    ensures { IfOk result (λ v. v.items ≡ main_body_of functions) }
{
    let mut insts = Vec::new(alloc);
    push_first_call(alloc, &mut insts, functions)?;
    push_print(alloc, &mut insts)?;
    push_return(&mut insts, Operand::Int(0))?;
    Ok(insts)
}

/// Adds `main`.
fn push_main(alloc: Global, funcs: &mut Vec<Func>, functions: u32) -> Result<(), NoMemory>
    requires { 0 < functions }
    ensures { OnOk result (funcs.new.items ≡ funcs.old.items ++ main_of functions ∷ []) }
{
    let insts = main_body(alloc, functions)?;
    let blocks = one_block(alloc, 0, insts)?;
    let name = text_name(alloc, b"main")?;
    push(
        funcs,
        Func {
            name,
            ret: Some(Ty::Int(32)),
            params: List::from_vec(Vec::new(alloc)),
            blocks,
        },
    )
}

/// The declaration of `putchar`.
fn putchar(alloc: Global) -> Result<List<Decl>, NoMemory>
    ensures { IfOk result (λ decls. decls ≡ putchar_decl ∷ []) }
{
    let name = text_name(alloc, b"putchar")?;
    let mut params = Vec::new(alloc);
    push(&mut params, Ty::Int(32))?;
    let mut decls = Vec::new(alloc);
    push(
        &mut decls,
        Decl {
            name,
            ret: Some(Ty::Int(32)),
            params: List::from_vec(params),
        },
    )?;
    Ok(List::from_vec(decls))
}

/// Adds so many functions, whose draws begin at a seed.
fn push_functions(
    alloc: Global,
    funcs: &mut Vec<Func>,
    functions: u32,
    seed: u64,
) -> Result<(), NoMemory>
    ensures { OnOk result (funcs.new.items ≡ funcs.old.items ++ functions_of seed functions) }
{
    let mut draws = Draws { state: seed };
    for number in 0..functions {
        push_function(alloc, funcs, &mut draws, number)?;
    }
    Ok(())
}

/// So many functions, and `main`.
fn all_functions(alloc: Global, seed: u64, functions: u32) -> Result<Vec<Func>, NoMemory>
    requires { 0 < functions }
    ensures { IfOk result (λ v. v.items ≡ functions_of seed functions ++ main_of functions ∷ []) }
{
    let mut funcs = Vec::new(alloc);
    push_functions(alloc, &mut funcs, functions, seed)?;
    push_main(alloc, &mut funcs, functions)?;
    Ok(funcs)
}

/// A module with so many functions, `f0`, `f1` and so on, and `main`. Each function stores its parameter, loads it back,
/// carries out eight operations on it that are drawn from the seed, and calls the function before it, if there is one.
/// `main` calls the last function with the number 1, and prints what it gives by `putchar`. The module has
/// `13 * functions + 2` instructions; it is formed and valid, and can be instrumented.
pub fn generate(alloc: Global, seed: u64, functions: u32) -> Result<Module, NoMemory>
    requires some { 0 < functions }
    requires limit { functions ≤ 1000 }
    ensures generated { IfOk result (λ m. m ≡ generated seed functions) }
    ensures formed { IfOk result Formed }
    ensures valid { IfOk result Valid }
    ensures plain { IfOk result CanInstrument }
{
    let funcs = all_functions(alloc, seed, functions)?;
    let decls = putchar(alloc)?;
    Ok(Module {
        types: List::from_vec(Vec::new(alloc)),
        globals: List::from_vec(Vec::new(alloc)),
        decls,
        funcs: List::from_vec(funcs),
    })
}
