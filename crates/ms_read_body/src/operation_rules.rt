//! The operations after which any suffix may stand: each is read by its rule, and the line reads the suffixes.

ghost use Rattle.std.specs.Prelude.{◌≡◌, IfOk};
ghost use Rattle.ms_ir.specs.declared.syntax.Op.TheVariants as operation;

use ms_bits::{BinOp, Boxed, CastOp, NoMemory};
use ms_ir::{Form, Op};
use ms_read_cursor::{Rule, Tokens};
use ms_read_insts::{
    binary_rule, branch_rule, cast_rule, compare_rule, freeze_rule, load_rule, ret_rule,
    select_rule, store_rule, switch_rule,
};
use ms_text_grammar::Cause;
use std::alloc::Global;

/// `unreachable`, which has no parts.
fn unreachable(alloc: Global) -> Result<Boxed<Op>, NoMemory>
    ensures { IfOk result (λ o. o ≡ operation.Unreachable) }
{
    Boxed::new(alloc, Op::Unreachable)
}

/// An operation with a result.
#[derive(Clone, Copy)]
pub enum ValueOperation {
    Binary(BinOp),
    Cast(CastOp),
    Compare,
    Select,
    Freeze,
    Load,
}

/// An operation without a result: a store or a terminator.
#[derive(Clone, Copy)]
pub enum EffectOperation {
    Store,
    Branch,
    Switch,
    Ret,
    Unreachable,
}

/// An operation with a result, in a form of the text.
#[derive(Clone, Copy)]
pub struct ValueIn {
    pub form: Form,
    pub operation: ValueOperation,
}

impl Rule for ValueIn {
    type Value = Boxed<Op>;

    ghost use Rattle.ms_read_body.specs.Operations.{value_rule};

    ghost piece = { λ rule. value_rule rule.form rule.operation };

    fn read(&self, tokens: &mut Tokens<'_>) -> Result<Boxed<Op>, Cause> {
        match self.operation {
            ValueOperation::Binary(op) => binary_rule(tokens, self.form, op),
            ValueOperation::Cast(op) => cast_rule(tokens, self.form, op),
            ValueOperation::Compare => compare_rule(tokens, self.form),
            ValueOperation::Select => select_rule(tokens, self.form),
            ValueOperation::Freeze => freeze_rule(tokens, self.form),
            ValueOperation::Load => load_rule(tokens, self.form),
        }
    }
}

/// An operation without a result, in a form of the text.
#[derive(Clone, Copy)]
pub struct EffectIn {
    pub form: Form,
    pub operation: EffectOperation,
}

impl Rule for EffectIn {
    type Value = Boxed<Op>;

    ghost use Rattle.ms_read_body.specs.Operations.{effect_rule};

    ghost piece = { λ rule. effect_rule rule.form rule.operation };

    fn read(&self, tokens: &mut Tokens<'_>) -> Result<Boxed<Op>, Cause> {
        match self.operation {
            EffectOperation::Store => store_rule(tokens, self.form),
            EffectOperation::Branch => branch_rule(tokens, self.form),
            EffectOperation::Switch => switch_rule(tokens, self.form),
            EffectOperation::Ret => ret_rule(tokens, self.form),
            EffectOperation::Unreachable => Ok(unreachable(tokens.alloc())?),
        }
    }
}
