//! The code that sets shadow and origins of memory after an instruction: after a store, an `alloca`, or a call of an external.
//! `site` is the instruction's. `root` is the number of its own root, `saved` that of the inserted result saved before it: for
//! `realloc` the size of the block.
ghost use Rattle.std.specs.Prelude.{◌≡◌, ℕ, ◌+◌, false, map, reverse, List, [], OnOk, Option};
ghost use Rattle.ms_ir.specs.{declared.syntax.Ty.{Ty as TyOf}, Instructions.{operands as operands_of, count_undefs}};
ghost use Rattle.ms_ir.specs.{declared.syntax.Name.{Name as NameOf}, Signatures.{runtime_signature}};
ghost use Rattle.ms_ir.specs.declared.calls.External.TheVariants as outside;
ghost use Rattle.ms_runs.specs.World.{Here};
ghost use Rattle.ms_pass_tasks.specs.Environments.{Env, Given, tracked_at};
ghost use Rattle.ms_pass_tasks.specs.PlaneTasks.{plane_tasks, save_tasks, saved_tasks, external_tasks, fill_task};
ghost use Rattle.ms_pass_tasks.specs.Tasks.{Expr};
ghost use Rattle.ms_rules_tables.specs.{Pieces.{named_call, store_pieces}, Plain.{plain}, Sizes.{element_size}};
ghost use Rattle.ms_rules_builder.specs.{Called.{calls_own, called_external}, Made.{with_tasks}};
ghost use Rattle.ms_rules_builder.specs.Steps.{tracked_of, words};

use crate::calls::{call, store, width_at};
use ms_bits::{NoMemory, Pred};
use ms_ir::areas::SHADOW_BITS;
use ms_ir::{External, Name, Op, RuntimeFn, width_of};
use ms_rules_builder::{Builder, Inputs, Operation, StackOp, TrackedOperand, Width, msan_name};

/// Saves as the inserted result with a number what an external needs from before its call: the size of the block that
/// `realloc` ends.
fn save_for(
    builder: &mut Builder,
    number: u64,
    external: External,
    operands: &[TrackedOperand<'_>],
) -> Result<(), NoMemory>
    ensures { OnOk result (builder.new ≡ with_tasks builder.old (saved_tasks number external (map tracked_of operands.now))) }
{
    match external {
        External::Realloc => {
            let name = msan_name(builder.alloc(), number)?;
            let inputs = Inputs::plain(operands, 0, &None);
            builder.call(Some(name), RuntimeFn::Size, &inputs, &[StackOp::Word(0)])
        }
        _ => Ok(()),
    }
}

/// Saves as the inserted result with a number what an operation's external, if it calls one, needs from before its call.
pub fn save(
    builder: &mut Builder,
    number: u64,
    external: Option<External>,
    op: &Op,
    operands: &[TrackedOperand<'_>],
) -> Result<(), NoMemory>
    ensures { (func : NameOf → Option ℕ) → called_external func op.now ≡ external → OnOk result (builder.new ≡ with_tasks builder.old (save_tasks func number op.now (map tracked_of operands.now))) }
{
    match external {
        Some(external) => save_for(builder, number, external, operands),
        None => Ok(()),
    }
}

/// Calls a runtime function that returns nothing with the words that steps leave, if the instruction has a result.
fn call_named(
    builder: &mut Builder,
    function: RuntimeFn,
    operands: &[TrackedOperand<'_>],
    name: &Option<Name>,
    steps: &[StackOp],
) -> Result<(), NoMemory>
    ensures { (args : List (TyOf × Expr)) → map (λ a. a.0) args ≡ (runtime_signature function).params → map (λ a. a.1) args ≡ reverse (words (plain (map tracked_of operands.now) name.now) steps.now []) → OnOk result (builder.new ≡ with_tasks builder.old (named_call function name.now args)) }
{
    if name.is_none() {
        return Ok(());
    }
    call(builder, function, operands, name, steps)
}

/// Stores the mask of a stored value of `width` bits in the shadow of its address, operand 1, and the origin by a call.
fn set_stored(
    builder: &mut Builder,
    site: u32,
    width: u8,
    operands: &[TrackedOperand<'_>],
) -> Result<(), NoMemory>
    ensures { OnOk result (builder.new ≡ with_tasks builder.old (store_pieces site width (map tracked_of operands.now))) }
{
    let mask_at_shadow = [
        StackOp::Mask(0),
        StackOp::Word(1),
        StackOp::ToNumber,
        StackOp::Constant(SHADOW_BITS),
        StackOp::Two(Operation::Xor, Width::Bits(64)),
        StackOp::ToPointer,
    ];
    store(builder, width, operands, &mask_at_shadow)?;
    let origin = [
        StackOp::Word(1),
        StackOp::Mask(0),
        StackOp::Widen(width),
        StackOp::Origin(0),
        StackOp::Constant(site as u64),
    ];
    call(builder, RuntimeFn::StoreOrigin, operands, &None, &origin)
}

/// Sets shadow and origins of bytes that an external fills with one byte.
fn set_filled(
    builder: &mut Builder,
    site: u32,
    operands: &[TrackedOperand<'_>],
) -> Result<(), NoMemory>
    ensures { OnOk result (builder.new ≡ with_tasks builder.old (fill_task site (tracked_at 0 (map tracked_of operands.now)) (tracked_at 1 (map tracked_of operands.now)) (tracked_at 2 (map tracked_of operands.now)))) }
{
    let steps = [
        StackOp::Word(0),
        StackOp::Word(2),
        StackOp::Mask(1),
        StackOp::Widen(width_at(operands, 1)),
        StackOp::Origin(1),
        StackOp::Constant(site as u64),
    ];
    call(builder, RuntimeFn::Fill, operands, &None, &steps)
}

/// Clears the shadow of the 8 bytes where `pthread_create` stored a thread's name, if it returned 0, as it does where it made one.
fn set_created(
    builder: &mut Builder,
    name: &Option<Name>,
    operands: &[TrackedOperand<'_>],
) -> Result<(), NoMemory>
    ensures { (site root saved : ℕ) → OnOk result (builder.new ≡ with_tasks builder.old (external_tasks site root saved name.now outside.PthreadCreate (map tracked_of operands.now))) }
{
    let none = StackOp::Constant(0);
    let steps = [
        StackOp::Word(0),
        StackOp::Result,
        none,
        StackOp::Test(Pred::Eq, Width::Bits(32)),
        StackOp::Constant(8),
        none,
        StackOp::Pick(Width::Bits(64)),
    ];
    call_named(builder, RuntimeFn::Unpoison, operands, name, &steps)
}

/// Sets shadow and origins of the bytes where `pthread_join` stored the value of a thread.
fn set_joined(
    builder: &mut Builder,
    site: u32,
    name: &Option<Name>,
    operands: &[TrackedOperand<'_>],
) -> Result<(), NoMemory>
    ensures { (root saved : ℕ) → OnOk result (builder.new ≡ with_tasks builder.old (external_tasks site root saved name.now outside.PthreadJoin (map tracked_of operands.now))) }
{
    let steps = [
        StackOp::Word(1),
        StackOp::Word(0),
        StackOp::Result,
        StackOp::Constant(site as u64),
    ];
    call_named(builder, RuntimeFn::ThreadResult, operands, name, &steps)
}

/// Sets shadow and origins after a call of an external. What `Poison` takes: a block, its first byte that is poisoned, the byte
/// after the last one, the root.
fn set_external(
    builder: &mut Builder,
    site: u32,
    root: u64,
    saved: u64,
    external: External,
    name: &Option<Name>,
    operands: &[TrackedOperand<'_>],
) -> Result<(), NoMemory>
    ensures { OnOk result (builder.new ≡ with_tasks builder.old (external_tasks site root saved name.now external (map tracked_of operands.now))) }
{
    let root = StackOp::Constant(root);
    let start = StackOp::Constant(0);
    match external {
        External::Malloc => {
            let steps = [StackOp::Result, start, StackOp::Word(0), root];
            call_named(builder, RuntimeFn::Poison, operands, name, &steps)
        }
        External::Realloc => {
            let steps = [
                StackOp::Result,
                StackOp::Inserted(saved),
                StackOp::Word(1),
                root,
            ];
            call_named(builder, RuntimeFn::Poison, operands, name, &steps)
        }
        External::Read => {
            let steps = [StackOp::Word(1), StackOp::Result];
            call_named(builder, RuntimeFn::Unpoison, operands, name, &steps)
        }
        External::PthreadCreate => set_created(builder, name, operands),
        External::PthreadJoin => set_joined(builder, site, name, operands),
        External::LifetimeStart => {
            let steps = [StackOp::Word(1), start, StackOp::Word(0), root];
            call(builder, RuntimeFn::Poison, operands, name, &steps)
        }
        External::Memcpy | External::Memmove | External::LlvmMemcpy | External::LlvmMemmove => {
            let steps = [StackOp::Word(0), StackOp::Word(1), StackOp::Word(2)];
            call(builder, RuntimeFn::Copy, operands, name, &steps)
        }
        External::Memset | External::LlvmMemset => set_filled(builder, site, operands),
        _ => Ok(()),
    }
}

/// Sets shadow and origins after an operation that calls no function of the module. `root` is the number of its own root, `saved`
/// that of the inserted result that was saved before it, `size` the bytes of an element of an `alloca`, `name` its result.
pub fn update_shadow(
    builder: &mut Builder,
    site: u32,
    root: u64,
    saved: u64,
    size: u64,
    external: Option<External>,
    name: &Option<Name>,
    op: &Op,
    operands: &[TrackedOperand<'_>],
) -> Result<(), NoMemory>
    ensures { (given : Given) (env : Env) (h : Here) → calls_own given.func op.now ≡ false → called_external given.func op.now ≡ external
        → element_size given.types op.now ≡ size → h.site ≡ site → h.root + count_undefs (operands_of op.now) + 1 ≡ root
        → OnOk result (builder.new ≡ with_tasks builder.old (plane_tasks given env h saved name.now op.now (map tracked_of operands.now))) }
{
    match op {
        Op::Alloca { count_ty, .. } => {
            let steps = [
                StackOp::Result,
                StackOp::Constant(0),
                StackOp::Constant(size),
                StackOp::Word(0),
                StackOp::Widen(width_of(count_ty)),
                StackOp::Two(Operation::Mul, Width::Bits(64)),
                StackOp::Constant(root),
            ];
            call_named(builder, RuntimeFn::Poison, operands, name, &steps)
        }
        Op::Store { ty, .. } => set_stored(builder, site, width_of(ty), operands),
        Op::Call { .. } => match external {
            Some(external) => set_external(builder, site, root, saved, external, name, operands),
            None => Ok(()),
        },
        _ => Ok(()),
    }
}
