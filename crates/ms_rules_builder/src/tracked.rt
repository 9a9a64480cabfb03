//! Operands of an instruction with what is known of their masks and origins while code is inserted.
ghost use Rattle.std.specs.Prelude.{◌≡◌, IfOk};
ghost use Rattle.ms_ir.specs.{Layout.{width_of}, Equal.{type_eq}, ValueTypes.{type_of}};
ghost use Rattle.ms_ir.specs.declared.syntax.Ty as type;
ghost use Rattle.ms_pass_tasks.specs.Environments.{is_zero};
ghost use Rattle.ms_rules_builder.specs.Steps.{shadow_mask, shadow_origin};

use crate::names::{mask_name, origin_name};
use ms_bits::NoMemory;
use ms_ir::{Operand, ValueType, width_of};
use std::alloc::Global;

/// What is known of the mask and the origin of an operand.
#[derive(Clone, Copy)]
pub enum Shadow {
    /// The mask is 0.
    Clean,
    /// An undefined operand: a mask with all bits of its type, and the number of its root.
    Undefined(u64, u64),
    /// The mask and the origin of the function's value with a number stand under their names.
    Value(u32),
}

impl Shadow {
    /// The operand that holds the mask.
    pub fn mask(self, alloc: Global) -> Result<Operand, NoMemory>
        ensures { IfOk result (λ o. o ≡ shadow_mask self) }
    {
        match self {
            Shadow::Clean => Ok(Operand::Int(0)),
            Shadow::Undefined(mask, _) => Ok(Operand::Int(mask)),
            Shadow::Value(value) => Ok(Operand::Local(mask_name(alloc, u64::from(value))?)),
        }
    }

    /// The operand that holds the origin.
    pub fn origin(self, alloc: Global) -> Result<Operand, NoMemory>
        ensures { IfOk result (λ o. o ≡ shadow_origin self) }
    {
        match self {
            Shadow::Clean => Ok(Operand::Int(0)),
            Shadow::Undefined(_, origin) => Ok(Operand::Int(origin)),
            Shadow::Value(value) => Ok(Operand::Local(origin_name(alloc, u64::from(value))?)),
        }
    }
}

/// An operand with its type, and with what is known of its mask and its origin.
#[derive(Clone, Copy)]
pub struct TrackedOperand<'a> {
    pub ty: ValueType<'a>,
    pub operand: &'a Operand,
    pub shadow: Shadow,
}

impl TrackedOperand<'_> {
    /// The bits of its word, 64 for a pointer and 0 for what is no word.
    pub fn width(&self) -> u8
        ensures { result ≡ width_of (type_of self.now.ty) }
    {
        match self.ty {
            ValueType::Bit => 1,
            ValueType::Pointer => 64,
            ValueType::Written(ty) => width_of(ty),
        }
    }

    /// Whether its mask is known to be 0.
    pub fn is_clean(&self) -> bool
        ensures { result ≡ is_zero (shadow_mask self.now.shadow) }
    {
        match self.shadow {
            Shadow::Clean => true,
            Shadow::Undefined(mask, _) => mask == 0,
            Shadow::Value(_) => false,
        }
    }
}
