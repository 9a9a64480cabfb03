//! Which rule defines the mask and which the origin of a result, by the operation. `value` is the result's number among the
//! function's values, by which mask and origin are named, `width` its bits, and `inputs` what the rule is given. A comment "Of
//! a sum" says: defines both for a sum's result. Where it tells the mask alone, the origin is that of the last operand whose
//! mask isn't 0, else the first's (`define_joined`).
ghost use Rattle.std.specs.Prelude.{◌≡◌, ℕ, ◌≤◌, true, List, [], ◌∷◌, map, take, reverse, OnOk, Option, Some};
ghost use Rattle.ms_bits.specs.declared.operations.Flags.{Flags as FlagsOf};
ghost use Rattle.ms_bits.specs.WordFunctions.{move_of, bits_of as width_bits};
ghost use Rattle.ms_ir.specs.{declared.syntax.Name.{Name as NameOf}, declared.syntax.Ty.{Ty as TyOf, Int}};
ghost use Rattle.ms_ir.specs.{declared.syntax.Operand.{Operand as OperandOf}, Signatures.{runtime_signature}};
ghost use Rattle.ms_ir.specs.Layout.{width_of as width_of_type};
ghost use Rattle.ms_ir.specs.declared.syntax.Op.TheVariants as operation;
ghost use Rattle.ms_ir.specs.declared.calls.RuntimeFn.TheVariants as called;
ghost use Rattle.ms_pass_tasks.specs.Tasks.{Expr, Sets, Calls, mask_name as mask_name_of, origin_name as origin_name_of};
ghost use Rattle.ms_pass_tasks.specs.Environments.{number, is_zero, tracked_at, bits_of, mask_of};
ghost use Rattle.ms_pass_tasks.specs.ResultMasks.{address_expr, answer_expr, answer_origin_expr, cast_expr, compare_expr, sum_expr, word_expr, first_last};
ghost use Rattle.ms_pass_tasks.specs.ResultTasks.{binary_tasks, external_move, called_tasks, shift_task, word_tasks, define_tasks, result_width as result_width_of};
ghost use Rattle.ms_rules_builder.specs.{Called.{calls_own}, Made.{with_tasks}, Steps.{inputs_of, tracked_of, words}};
ghost use Rattle.ms_rules_tables.specs.{Widths.{HasWidths}, Rules.{is_rule, defined, moves, answered}};

use crate::carries::carry_rule;
use crate::loads::define_load;
use crate::masks::{
    CHOICE, CLEAN, FIRST, SHIFT, binary_rule, cast_step, compare_rule, move_steps, word_rule,
};
use crate::origins::{CHOICE_ORIGIN, set_last_origin};
use crate::rules::{attempt_mask, set_mask, set_origin};
use ms_bits::{BinOp, BitMove, CastOp, NoMemory, Pred, WordFn, WordWidth};
use ms_ir::{External, Name, Op, RuntimeFn, Ty, width_of};
use ms_rules_builder::StackOp::Mask;
use ms_rules_builder::{Builder, Inputs, StackOp, TrackedOperand, Widening, mask_name};

/// The origin and the mask of a value, of a width, get the words of these two rules.
fn define_word(
    builder: &mut Builder,
    value: u32,
    width: u8,
    inputs: &Inputs<'_>,
    origin: &[StackOp],
    mask: &[StackOp],
) -> Result<(), NoMemory>
    requires origin { is_rule origin.now ≡ true }
    requires mask { is_rule mask.now ≡ true }
    ensures { (e f : Expr) → words (inputs_of inputs.now) origin.now [] ≡ e ∷ [] → words (inputs_of inputs.now) mask.now [] ≡ f ∷ [] → OnOk result (builder.new ≡ with_tasks builder.old (defined value width e f)) }
{
    set_origin(builder, value, inputs, origin)?;
    set_mask(builder, value, width, inputs, mask)
}

/// The mask of a value gets the word of a rule; its origin is that of the last operand whose mask isn't 0.
fn define_joined(
    builder: &mut Builder,
    value: u32,
    width: u8,
    inputs: &Inputs<'_>,
    mask: &[StackOp],
) -> Result<(), NoMemory>
    requires { is_rule mask.now ≡ true }
    ensures { (e : Expr) → words (inputs_of inputs.now) mask.now [] ≡ e ∷ [] → OnOk result (builder.new ≡ with_tasks builder.old (defined value width (first_last (inputs_of inputs.now).operands) e)) }
{
    set_last_origin(builder, value, inputs)?;
    set_mask(builder, value, width, inputs, mask)
}

/// A result that is clean has no mask and no origin: both are 0.
fn define_clean(
    builder: &mut Builder,
    value: u32,
    width: u8,
    operands: &[TrackedOperand<'_>],
) -> Result<(), NoMemory>
    ensures { OnOk result (builder.new ≡ with_tasks builder.old (defined value width (number 0) (number 0))) }
{
    let inputs = Inputs::plain(operands, width, &None);
    define_word(builder, value, width, &inputs, &CLEAN, &CLEAN)
}

/// Of a shift: the mask is shifted as the word is, where the amount is defined, else all bits are poisoned.
fn define_shift(
    builder: &mut Builder,
    value: u32,
    op: BinOp,
    width: u8,
    operands: &[TrackedOperand<'_>],
) -> Result<(), NoMemory>
    requires some { 1 ≤ width }
    requires few { width ≤ 64 }
    ensures { OnOk result (builder.new ≡ with_tasks builder.old (Sets (origin_name_of value) (Int 32) (first_last (map tracked_of operands.now)) ∷ shift_task (mask_name_of value) op width (tracked_at 0 (map tracked_of operands.now)) (tracked_at 1 (map tracked_of operands.now)) ∷ [])) }
{
    let inputs = Inputs::new(operands, width, &None);
    set_last_origin(builder, value, &inputs)?;
    attempt_mask(builder, value, op, width, &inputs, &SHIFT)
}

/// The first two operands alone: those of an operation on two words.
fn first_two<'a, 'm>(operands: &'a [TrackedOperand<'m>]) -> &'a [TrackedOperand<'m>]
    ensures { result.now ≡ take 2 operands.now }
{
    if operands.len() < 2 {
        operands
    } else {
        &operands[..2]
    }
}

/// Of a sum, a difference or a product: each bit is poisoned from the lowest poisoned bit of the two words on.
fn define_sum(
    builder: &mut Builder,
    value: u32,
    width: u8,
    operands: &[TrackedOperand<'_>],
) -> Result<(), NoMemory>
    ensures { let ts = map tracked_of operands.now in OnOk result (builder.new ≡ with_tasks builder.old (defined value width (first_last ts) (sum_expr width (tracked_at 0 ts ∷ tracked_at 1 ts ∷ [])))) }
{
    let inputs = Inputs::plain(operands, width, &None);
    let mask = carry_rule(builder.alloc(), first_two(operands), Widening::Own)?;
    define_joined(builder, value, width, &inputs, mask.as_slice())
}

/// Of an operation on two words of `width` bits.
fn define_binary(
    builder: &mut Builder,
    value: u32,
    op: BinOp,
    width: u8,
    operands: &[TrackedOperand<'_>],
) -> Result<(), NoMemory>
    requires some { 1 ≤ width }
    requires few { width ≤ 64 }
    ensures { (f : FlagsOf) (t : TyOf) (a b : OperandOf) → width_of_type t ≡ width → OnOk result (builder.new ≡ with_tasks builder.old (binary_tasks (mask_name_of value) (origin_name_of value) op (operation.Binary op f t a b) width (map tracked_of operands.now))) }
{
    match op {
        BinOp::Shl | BinOp::Lshr | BinOp::Ashr => {
            define_shift(builder, value, op, width, operands)
        }
        BinOp::Add | BinOp::Sub | BinOp::Mul => define_sum(builder, value, width, operands),
        _ => {
            let inputs = Inputs::new(operands, width, &None);
            define_joined(builder, value, width, &inputs, binary_rule(op))
        }
    }
}

/// Of a comparison of two words of `width` bits, which gives one bit.
fn define_compare(
    builder: &mut Builder,
    value: u32,
    pred: Pred,
    width: u8,
    operands: &[TrackedOperand<'_>],
) -> Result<(), NoMemory>
    requires some { 1 ≤ width }
    requires few { width ≤ 64 }
    ensures { let ts = map tracked_of operands.now in OnOk result (builder.new ≡ with_tasks builder.old (defined value 1 (first_last ts) (compare_expr pred width (bits_of (tracked_at 0 ts)) (mask_of (tracked_at 0 ts)) (bits_of (tracked_at 1 ts)) (mask_of (tracked_at 1 ts))))) }
{
    let inputs = Inputs::new(operands, width, &None);
    define_joined(builder, value, 1, &inputs, compare_rule(pred))
}

/// Of a cast from so many bits to so many: its mask is the operand's, cast too.
fn define_cast(
    builder: &mut Builder,
    value: u32,
    op: CastOp,
    from: u8,
    to: u8,
    operands: &[TrackedOperand<'_>],
) -> Result<(), NoMemory>
    ensures { let ts = map tracked_of operands.now in OnOk result (builder.new ≡ with_tasks builder.old (defined value to (first_last ts) (cast_expr op from to (mask_of (tracked_at 0 ts))))) }
{
    let inputs = Inputs::plain(operands, from, &None);
    match cast_step(op, from, to) {
        Some(cast) => define_joined(builder, value, to, &inputs, &[Mask(0), cast]),
        None => define_joined(builder, value, to, &inputs, &FIRST),
    }
}

/// Of a `select` between two words of `width` bits.
fn define_select(
    builder: &mut Builder,
    value: u32,
    width: u8,
    operands: &[TrackedOperand<'_>],
) -> Result<(), NoMemory>
    ensures { (c a b : OperandOf) (t : TyOf) → width_of_type t ≡ width → OnOk result (builder.new ≡ with_tasks builder.old (word_tasks (mask_name_of value) (origin_name_of value) (operation.Select c t a b) (map tracked_of operands.now))) }
{
    let inputs = Inputs::plain(operands, width, &None);
    define_word(builder, value, width, &inputs, &CHOICE_ORIGIN, &CHOICE)
}

/// Of a `getelementptr`: an address is a sum of its operands.
fn define_gep(
    builder: &mut Builder,
    value: u32,
    operands: &[TrackedOperand<'_>],
) -> Result<(), NoMemory>
    ensures { let ts = map tracked_of operands.now in OnOk result (builder.new ≡ with_tasks builder.old (defined value 64 (first_last ts) (address_expr ts))) }
{
    let inputs = Inputs::plain(operands, 64, &None);
    let mask = carry_rule(builder.alloc(), operands, Widening::Sign)?;
    define_joined(builder, value, 64, &inputs, mask.as_slice())
}

/// The bits of what a call returns; 64 where it returns nothing.
fn result_width(ret: &Option<Ty>) -> u8
    ensures { (callee : NameOf) (args : List (TyOf × OperandOf)) → result ≡ result_width_of (operation.Call ret.now callee args) }
{
    match ret {
        Some(ty) => width_of(ty),
        None => 64,
    }
}

/// Whether the amount of a funnel shift is known: its mask is known to be 0.
fn is_amount_known(operands: &[TrackedOperand<'_>]) -> bool
    ensures { result ≡ is_zero (tracked_at 2 (map tracked_of operands.now)).mask }
{
    if operands.len() <= 2 {
        true
    } else {
        operands[2].is_clean()
    }
}

/// A marked call of a function that moves bits, with the words that steps leave, gives the mask of a value.
fn call_move(
    builder: &mut Builder,
    value: u32,
    kind: BitMove,
    inputs: &Inputs<'_>,
    steps: &[StackOp],
) -> Result<(), NoMemory>
    ensures { (args : List (TyOf × Expr)) → map (λ a. a.0) args ≡ (runtime_signature (called.Move kind)).params → map (λ a. a.1) args ≡ reverse (words (inputs_of inputs.now) steps.now []) → OnOk result (builder.new ≡ with_tasks builder.old (Calls (Some (mask_name_of value)) (called.Move kind) args ∷ [])) }
{
    let name = mask_name(builder.alloc(), value as u64)?;
    builder.call(Some(name), RuntimeFn::Move(kind), inputs, steps)
}

/// Of what a function that moves bits returns, as `llvm.bswap`: called once more with the masks, it gives the mask too.
fn define_move(
    builder: &mut Builder,
    value: u32,
    kind: BitMove,
    operands: &[TrackedOperand<'_>],
) -> Result<(), NoMemory>
    ensures { let ts = map tracked_of operands.now in OnOk result (builder.new ≡ with_tasks builder.old (Sets (origin_name_of value) (Int 32) (first_last ts) ∷ moves value kind ts)) }
{
    let inputs = Inputs::new(operands, kind.width().bits(), &None);
    set_last_origin(builder, value, &inputs)?;
    let steps = move_steps(kind.function(), is_amount_known(operands));
    call_move(builder, value, kind, &inputs, steps)
}

/// Of what another function of whole words returns, as a value of a width: by a rule.
fn define_ruled(
    builder: &mut Builder,
    value: u32,
    width: u8,
    function: WordFn,
    word_width: WordWidth,
    operands: &[TrackedOperand<'_>],
) -> Result<(), NoMemory>
    ensures { let ts = map tracked_of operands.now in OnOk result (builder.new ≡ with_tasks builder.old (defined value width (first_last ts) (word_expr function (width_bits word_width) (tracked_at 0 ts) (tracked_at 1 ts) (tracked_at 2 ts)))) }
{
    let inputs = Inputs::new(operands, word_width.bits(), &None);
    define_joined(
        builder,
        value,
        width,
        &inputs,
        word_rule(function, word_width),
    )
}

/// Of what a function of whole words of `word_width` returns, as a value of a width.
fn define_word_answer(
    builder: &mut Builder,
    value: u32,
    width: u8,
    function: WordFn,
    word_width: WordWidth,
    operands: &[TrackedOperand<'_>],
) -> Result<(), NoMemory>
    ensures { let ts = map tracked_of operands.now in OnOk result (builder.new ≡ with_tasks builder.old (answered value width (move_of function word_width) (first_last ts) (word_expr function (width_bits word_width) (tracked_at 0 ts) (tracked_at 1 ts) (tracked_at 2 ts)) ts)) }
{
    match BitMove::of(function, word_width) {
        Some(kind) => define_move(builder, value, kind, operands),
        None => define_ruled(builder, value, width, function, word_width, operands),
    }
}

/// Of what an external that is known returns, as a value of a width: clean, but for functions of whole words.
fn define_external(
    builder: &mut Builder,
    value: u32,
    width: u8,
    external: External,
    operands: &[TrackedOperand<'_>],
) -> Result<(), NoMemory>
    ensures { let ts = map tracked_of operands.now in OnOk result (builder.new ≡ with_tasks builder.old (answered value width (external_move (Some external)) (answer_origin_expr (Some external) ts) (answer_expr (Some external) ts) ts)) }
{
    match external {
        External::Word(function, word_width) => {
            define_word_answer(builder, value, width, function, word_width, operands)
        }
        _ => define_clean(builder, value, width, operands),
    }
}

/// Of what an external returns, as a value of a width; clean where none is known.
fn define_answer(
    builder: &mut Builder,
    value: u32,
    width: u8,
    external: Option<External>,
    operands: &[TrackedOperand<'_>],
) -> Result<(), NoMemory>
    ensures { let ts = map tracked_of operands.now in OnOk result (builder.new ≡ with_tasks builder.old (answered value width (external_move external) (answer_origin_expr external ts) (answer_expr external ts) ts)) }
{
    match external {
        Some(external) => define_external(builder, value, width, external, operands),
        None => define_clean(builder, value, width, operands),
    }
}

/// Of what a call returns; nothing where `own` says that it calls a function of the module, which hands both over itself.
fn define_call(
    builder: &mut Builder,
    value: u32,
    own: bool,
    ret: &Option<Ty>,
    callee: &Name,
    operands: &[TrackedOperand<'_>],
) -> Result<(), NoMemory>
    ensures { (args : List (TyOf × OperandOf)) → OnOk result (builder.new ≡ with_tasks builder.old (called_tasks own value (operation.Call ret.now callee.now args) (map tracked_of operands.now))) }
{
    if own {
        return Ok(());
    }
    define_answer(
        builder,
        value,
        result_width(ret),
        External::named(callee),
        operands,
    )
}

/// Adds the code before an operation that defines the mask and the origin of its result, the function's value with a number;
/// `own` says that it calls a function of the module, which hands both over itself. Phis are `ms_rules`' work.
pub fn define(
    builder: &mut Builder,
    value: u32,
    own: bool,
    op: &Op,
    operands: &[TrackedOperand<'_>],
) -> Result<(), NoMemory>
    requires widths { HasWidths op.now }
    ensures { (func : NameOf → Option ℕ) → calls_own func op.now ≡ own → OnOk result (builder.new ≡ with_tasks builder.old (define_tasks func value op.now (map tracked_of operands.now))) }
{
    match op {
        Op::Binary { op, ty, .. } => { define_binary(builder, value, *op, width_of(ty), operands) }
        Op::Icmp { pred, ty, .. } => {
            define_compare(builder, value, *pred, width_of(ty), operands)
        }
        Op::Cast { op, from, to, .. } => {
            define_cast(builder, value, *op, width_of(from), width_of(to), operands)
        }
        Op::Select { ty, .. } => define_select(builder, value, width_of(ty), operands),
        Op::Freeze { ty, .. } => define_clean(builder, value, width_of(ty), operands),
        Op::Alloca { .. } => define_clean(builder, value, 64, operands),
        Op::Load { ty, .. } => define_load(builder, value, width_of(ty), operands),
        Op::Gep { .. } => define_gep(builder, value, operands),
        Op::Call { ret, callee, .. } => { define_call(builder, value, own, ret, callee, operands) }
        _ => Ok(()),
    }
}
