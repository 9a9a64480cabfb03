//! The code that checks uses: before an instruction, a call of the runtime function that makes the report for each checked use.
ghost use Rattle.std.specs.Prelude.{◌≡◌, ℕ, map, drop, OnOk, Option};
ghost use Rattle.ms_ir.specs.{declared.syntax.Name.{Name as NameOf}};
ghost use Rattle.ms_runs.specs.Uses.{uses, value_uses, string_uses, Word};
ghost use Rattle.ms_pass_tasks.specs.CheckTasks.{check_tasks, use_tasks};
ghost use Rattle.ms_rules_builder.specs.{Called.{called_external}, Made.{with_tasks}, Steps.{tracked_of}};
ghost use Rattle.ms_runs_uses.specs.Uses.{use_of};

use crate::calls::{call, is_clean_at, width_at};
use ms_bits::NoMemory;
use ms_ir::{External, Op, Operand, RuntimeFn, Ty};
use ms_rules_builder::{Builder, StackOp, TrackedOperand};
use ms_runs_uses::uses::{CheckedUse, checked_uses, printed_args, printed_string, printed_word};

/// The site of an instruction, and its operands.
#[derive(Clone, Copy)]
struct Checked<'a, 'm> {
    site: u32,
    operands: &'a [TrackedOperand<'m>],
}

/// Checks the mask of an operand by its place, unless it is known to be 0. `kind` is the number of the use's kind, which a report
/// tells.
fn check_word(
    builder: &mut Builder,
    inst: &Checked<'_, '_>,
    kind: u32,
    place: usize,
) -> Result<(), NoMemory>
    ensures { OnOk result (builder.new ≡ with_tasks builder.old (use_tasks inst.now.site (map tracked_of inst.now.operands.now) (Word kind place))) }
{
    if is_clean_at(inst.operands, place) {
        return Ok(());
    }
    let width = width_at(inst.operands, place);
    call(
        builder,
        RuntimeFn::Check,
        inst.operands,
        &None,
        &[
            StackOp::Mask(place),
            StackOp::Widen(width),
            StackOp::Constant(width as u64),
            StackOp::Origin(place),
            StackOp::Constant(kind as u64),
            StackOp::Constant(place as u64),
            StackOp::Constant(inst.site as u64),
        ],
    )
}

/// Checks a use: of a word, of bytes in memory from an address on, or of a string.
fn check_use(
    builder: &mut Builder,
    inst: &Checked<'_, '_>,
    used: CheckedUse,
) -> Result<(), NoMemory>
    ensures { OnOk result (builder.new ≡ with_tasks builder.old (use_tasks inst.now.site (map tracked_of inst.now.operands.now) (use_of used))) }
{
    match used {
        CheckedUse::Word(kind, place) => check_word(builder, inst, kind, place),
        CheckedUse::Bytes(kind, start, size) => call(
            builder,
            RuntimeFn::CheckMemory,
            inst.operands,
            &None,
            &[
                StackOp::Word(start),
                StackOp::Word(size),
                StackOp::Constant(kind as u64),
                StackOp::Constant(inst.site as u64),
            ],
        ),
        CheckedUse::Line(start) => call(
            builder,
            RuntimeFn::CheckString,
            inst.operands,
            &None,
            &[StackOp::Word(start), StackOp::Constant(inst.site as u64)],
        ),
        CheckedUse::Asked(start) => call(
            builder,
            RuntimeFn::CheckFormat,
            inst.operands,
            &None,
            &[
                StackOp::Word(0),
                StackOp::Constant(start as u64),
                StackOp::Word(start),
                StackOp::Constant(inst.site as u64),
            ],
        ),
    }
}

/// Checks the word of each argument of `printf` after the format.
fn check_values(
    builder: &mut Builder,
    inst: &Checked<'_, '_>,
    args: &[(Ty, Operand)],
) -> Result<(), NoMemory>
    ensures { OnOk result (builder.new ≡ with_tasks builder.old (check_tasks inst.now.site (map tracked_of inst.now.operands.now) (value_uses 1 (drop 1 args.now)))) }
{
    for place in 1..args.len() {
        check_use(builder, inst, printed_word(place))?;
    }
    Ok(())
}

/// Checks the string at each argument of `printf` after the format that is a pointer, where the format asks for a string
/// there.
fn check_strings(
    builder: &mut Builder,
    inst: &Checked<'_, '_>,
    args: &[(Ty, Operand)],
) -> Result<(), NoMemory>
    ensures { OnOk result (builder.new ≡ with_tasks builder.old (check_tasks inst.now.site (map tracked_of inst.now.operands.now) (string_uses 1 (drop 1 args.now)))) }
{
    for place in 1..args.len() {
        if let Some(string) = printed_string(&args[place].0, place) {
            check_use(builder, inst, string)?;
        }
    }
    Ok(())
}

/// Checks the uses of an operation at a site; `main` says whether it stands in the function `main`, and `external` which
/// external it calls.
pub fn check(
    builder: &mut Builder,
    site: u32,
    main: bool,
    external: Option<External>,
    op: &Op,
    operands: &[TrackedOperand<'_>],
) -> Result<(), NoMemory>
    ensures { (func : NameOf → Option ℕ) → called_external func op.now ≡ external → OnOk result (builder.new ≡ with_tasks builder.old (check_tasks site (map tracked_of operands.now) (uses func main op.now))) }
{
    let inst = Checked { site, operands };
    for used in checked_uses(main, external, op) {
        check_use(builder, &inst, *used)?;
    }
    let printed = printed_args(external, op);
    check_values(builder, &inst, printed)?;
    check_strings(builder, &inst, printed)
}
