//! The operands of an instruction with what is known of their masks and origins. Bounds in contracts are far above the limits
//! on a text, and let numbers be computed: at most 2^30 values of a function, fewer than 2^40 roots.
ghost use Rattle.std.specs.Prelude.{◌≡◌, ◌+◌, ◌-◌, ◌++◌, ◌<◌, ◌≤◌, ◌^◌, [], ◌∷◌, All, length, map, IfOk, OnOk};
ghost use Rattle.ms_ir.specs.{Instructions.{one_undef, operands}, Layout.{width_of}, ValueTypes.{type_of}};
ghost use Rattle.ms_rules_builder.specs.Steps.{tracked_of, shadow_mask, shadow_origin};
ghost use Rattle.ms_pass_tasks.specs.Environments.{local_mask, local_origin, mask_operand, origin_operand};
ghost use Rattle.ms_rules.specs.{Scopes.{env_of}, Tracking.{tracked_one, operand_at, IsTracked}};

use crate::scopes::Scope;
use ms_bits::NoMemory;
use ms_bits::words::limit;
use ms_ir::{Name, Op, Operand, ValueType};
use ms_rules_builder::{Shadow, TrackedOperand};
use std::alloc::Global;

/// The operands of an instruction with what is known of them, and how many roots of the module stand in the text before them and
/// after them: undefined operands, and allocations too.
#[derive(Drop)]
pub struct Tracking<'a> {
    pub operands: Vec<TrackedOperand<'a>>,
    /// The number of roots before the operands.
    pub before: u64,
    /// The number of roots up to the last operand.
    pub after: u64,
}

/// What is known of the function's value with a name: that it is clean, or else only the names of its mask and its origin.
fn value_shadow(scope: &Scope<'_, '_>, name: &Name) -> Shadow
    requires { length scope.now.values.now ≤ 2 ^ 30 }
    ensures mask { shadow_mask result ≡ local_mask (env_of scope.now) name.now }
    ensures origin { shadow_origin result ≡ local_origin (env_of scope.now) name.now }
{
    match scope.number(name) {
        Some(value) => Shadow::Value(value),
        None => Shadow::Clean,
    }
}

/// What is known of an undefined operand of a width with a number as a root.
fn undefined_shadow(width: u8, root: u64) -> Shadow
    requires { width ≤ 64 }
    ensures { result ≡ Shadow.Undefined (2 ^ width - 1) root }
{
    let ones = (limit(width) - 1) as u64;
    Shadow::Undefined(ones, root)
}

/// What is known of an operand of a width, where so many roots of the module stand before it: one that is undefined is the next.
fn shadow_of(scope: &Scope<'_, '_>, width: u8, roots_before: u64, operand: &Operand) -> Shadow
    requires few { length scope.now.values.now ≤ 2 ^ 30 }
    requires narrow { width ≤ 64 }
    requires roots { roots_before + 1 < 2 ^ 64 }
    ensures mask { shadow_mask result ≡ mask_operand (env_of scope.now) width operand.now }
    ensures origin { shadow_origin result ≡ origin_operand (env_of scope.now) roots_before operand.now }
{
    match operand {
        Operand::Undef => undefined_shadow(width, roots_before + 1),
        Operand::Poison => undefined_shadow(width, roots_before + 1),
        Operand::Local(name) => value_shadow(scope, name),
        _ => Shadow::Clean,
    }
}

/// An operand with what is known of it, where so many roots of the module stand before it.
fn track_one<'a>(
    scope: &Scope<'_, '_>,
    roots_before: u64,
    ty: ValueType<'a>,
    operand: &'a Operand,
) -> TrackedOperand<'a>
    requires few { length scope.now.values.now ≤ 2 ^ 30 }
    requires narrow { width_of (type_of ty) ≤ 64 }
    requires roots { roots_before + 1 < 2 ^ 64 }
    ensures { tracked_of result ≡ tracked_one (env_of scope.now) roots_before (type_of ty.entry, operand.entry.now) }
{
    let clean = TrackedOperand {
        ty,
        operand,
        shadow: Shadow::Clean,
    };
    TrackedOperand {
        ty,
        operand,
        shadow: shadow_of(scope, clean.width(), roots_before, operand),
    }
}

/// 1 for an undefined operand, which is a root.
pub fn one_undefined(operand: &Operand) -> u64
    ensures { result ≡ one_undef operand.now }
{
    match operand {
        Operand::Undef => 1,
        Operand::Poison => 1,
        _ => 0,
    }
}

impl<'a> Tracking<'a> {
    /// Adds an operand, of the type before it, after the others.
    fn push(
        &mut self,
        scope: &Scope<'_, '_>,
        ty: ValueType<'a>,
        operand: &'a Operand,
    ) -> Result<(), NoMemory>
        requires few { length scope.now.values.now ≤ 2 ^ 30 }
        requires narrow { width_of (type_of ty) ≤ 64 }
        requires roots { self.old.after + 1 < 2 ^ 64 }
        ensures are { OnOk result (map tracked_of self.new.operands.items ≡ map tracked_of self.old.operands.items ++ tracked_one (env_of scope.now) self.old.after (type_of ty.entry, operand.entry.now) ∷ []) }
        ensures after { OnOk result (self.new.after ≡ self.old.after + one_undef operand.entry.now) }
        ensures before { OnOk result (self.new.before ≡ self.old.before) }
    {
        self.operands
            .push(track_one(scope, self.after, ty, operand))?;
        self.after += one_undefined(operand);
        Ok(())
    }

    /// Adds the operand of an operation with a place.
    fn push_operand(
        &mut self,
        scope: &Scope<'_, '_>,
        op: &'a Op,
        place: usize,
    ) -> Result<(), NoMemory>
        requires few { length scope.now.values.now ≤ 2 ^ 30 }
        requires narrow { All (λ o. width_of o.0 ≤ 64) (operands op.now) }
        requires place { place < length (operands op.now) }
        requires roots { self.old.after + 1 < 2 ^ 64 }
        ensures are { OnOk result (map tracked_of self.new.operands.items ≡ map tracked_of self.old.operands.items ++ tracked_one (env_of scope.now) self.old.after (operand_at (operands op.entry.now) place) ∷ []) }
        ensures after { OnOk result (self.new.after ≡ self.old.after + one_undef (operand_at (operands op.entry.now) place).1) }
        ensures before { OnOk result (self.new.before ≡ self.old.before) }
    {
        match (op.operand(place), op.operand_type(place)) {
            (Some(operand), Some(ty)) => self.push(scope, ty, operand),
            _ => unreachable!(),
        }
    }
}

/// The operands of an operation with what is known of them, where so many roots of the module, allocations among them, stand before
/// them.
pub fn track<'a>(
    alloc: Global,
    scope: &Scope<'_, '_>,
    roots_before: u64,
    op: &'a Op,
) -> Result<Tracking<'a>, NoMemory>
    requires few { length scope.now.values.now ≤ 2 ^ 30 }
    requires narrow { All (λ o. width_of o.0 ≤ 64) (operands op.now) }
    requires roots { roots_before < 2 ^ 40 }
    ensures is { IfOk result (IsTracked (env_of scope.now) op.now) }
    ensures before { IfOk result (λ t. t.before ≡ roots_before) }
{
    let mut tracking = Tracking {
        operands: Vec::new(alloc),
        before: roots_before,
        after: roots_before,
    };
    for place in 0..op.operand_count() {
        tracking.push_operand(scope, op, place)?;
    }
    Ok(tracking)
}
