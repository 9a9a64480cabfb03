//! What a rule is given: the operands of an instruction, the width on which it works, the name of the result.
ghost use Rattle.std.specs.Prelude.{◌≡◌, ◌-◌, ◌≤◌, ◌^◌, map};
ghost use Rattle.ms_rules_builder.specs.Steps.{inputs_of, tracked_of};

use crate::tracked::TrackedOperand;
use ms_bits::words::limit;
use ms_ir::Name;

/// The operands of an instruction and the name of its result, and the width on which a rule works, with its words that
/// have all bits and the sign bit alone.
#[derive(Clone, Copy)]
pub struct Inputs<'a> {
    pub operands: &'a [TrackedOperand<'a>],
    /// In bits.
    pub width: u8,
    /// The word of this width with all bits.
    pub ones: u64,
    /// The word of this width with the sign bit alone.
    pub sign: u64,
    /// The name of the instruction's result.
    pub result: &'a Option<Name>,
}

impl<'a> Inputs<'a> {
    /// The inputs of a rule that uses neither `ones` nor `sign`; `name` is that of the instruction's result.
    pub fn plain(
        operands: &'a [TrackedOperand<'a>],
        width: u8,
        name: &'a Option<Name>,
    ) -> Inputs<'a>
        ensures { inputs_of result ≡ record { operands = map tracked_of operands.now; width = width; ones = 0; sign = 0; result = name.now } }
    {
        Inputs {
            operands,
            width,
            ones: 0,
            sign: 0,
            result: name,
        }
    }

    /// The inputs of a rule that works on a width in bits; `name` is that of the instruction's result.
    pub fn new(operands: &'a [TrackedOperand<'a>], width: u8, name: &'a Option<Name>) -> Inputs<'a>
        requires some { 1 ≤ width }
        requires few { width ≤ 64 }
        ensures { inputs_of result ≡ record { operands = map tracked_of operands.now; width = width; ones = 2 ^ width - 1; sign = 2 ^ (width - 1); result = name.now } }
    {
        Inputs {
            operands,
            width,
            ones: (limit(width) - 1) as u64,
            sign: 1u64 << (width - 1),
            result: name,
        }
    }
}
