//! Whether a module has a thread call, and so needs a schedule.
ghost use Rattle.std.specs.{Prelude.{◌≡◌}, List.{list_any}};
ghost use Rattle.ms_ir.specs.{Names.{lookup, externals, name_eq}, Instructions.{func_index}};
ghost use Rattle.ms_ir.specs.ThreadCalls.{is_asked, calls_thread, is_block_threaded, is_func_threaded, is_threaded};

use ms_ir::{Block, External, Func, Inst, Module, Name, Op};

/// Whether a name is that of a thread call.
fn names_thread(name: &Name) -> bool
    ensures { result ≡ is_asked (lookup externals name.now) }
{
    match External::named(name) {
        Some(external) => external.is_thread_call(),
        None => false,
    }
}

/// Whether one of a module's functions has a name.
fn is_defined(funcs: &[Func], name: &Name) -> bool
    ensures { result ≡ list_any (λ func. name_eq func.name name.now) funcs.now }
{
    funcs.iter().any(|func| func.name == *name)
}

/// Whether an instruction is a thread call.
#[tactic(auto, using(crate::proofs::Called::thread_called))]
fn calls_thread(funcs: &[Func], inst: &Inst) -> bool
    ensures { result ≡ calls_thread (func_index funcs.now) inst.now.op }
{
    match &inst.op {
        Op::Call { callee, .. } => names_thread(callee) && !is_defined(funcs, callee),
        _ => false,
    }
}

/// Whether an instruction of a block is a thread call.
fn is_block_threaded(funcs: &[Func], block: &Block) -> bool
    ensures { result ≡ is_block_threaded (func_index funcs.now) block.now }
{
    block
        .insts
        .as_slice()
        .iter()
        .any(|inst| calls_thread(funcs, inst))
}

/// Whether an instruction of a function is a thread call.
fn is_func_threaded(funcs: &[Func], func: &Func) -> bool
    ensures { result ≡ is_func_threaded (func_index funcs.now) func.now }
{
    func.blocks
        .as_slice()
        .iter()
        .any(|block| is_block_threaded(funcs, block))
}

/// Whether a module has a thread call. Takes no memory; linear in the module, and for each call of a function that it defines
/// with the name of a thread call in the number of its functions.
pub fn threaded(m: &Module) -> bool
    ensures { result ≡ is_threaded m.now }
{
    let funcs = m.funcs.as_slice();
    funcs.iter().any(|func| is_func_threaded(funcs, func))
}
