//! The types of the arguments of inserted calls of runtime functions; the table of their signatures is in `ms_ir/src/runtime.rt`.
ghost use Rattle.std.specs.{Prelude.{◌≡◌, map, IfOk}, List.{zip}};
ghost use Rattle.ms_ir.specs.declared.calls.RuntimeFn.TheVariants as called;
ghost use Rattle.ms_ir.specs.Signatures.{runtime_signature};
ghost use Rattle.ms_rules_builder.specs.Arguments.{parameter_type};

use ms_bits::{BitMove, List, NoMemory};
use ms_ir::{Operand, RuntimeFn, Ty};
use std::alloc::Global;

/// The type of a parameter.
#[derive(Clone, Copy)]
enum Parameter {
    /// `ptr`.
    Pointer,
    /// `iN` by its width in bits.
    Bits(u8),
}

impl Parameter {
    /// The type as data.
    fn ty(&self) -> Ty
        ensures { result ≡ parameter_type self.now }
    {
        match self {
            Parameter::Pointer => Ty::Ptr,
            Parameter::Bits(width) => Ty::Int(*width),
        }
    }
}

const POINTER: Parameter = Parameter::Pointer;

const I64: Parameter = Parameter::Bits(64);

const I32: Parameter = Parameter::Bits(32);

const I16: Parameter = Parameter::Bits(16);

const I8: Parameter = Parameter::Bits(8);

/// The parameters of a function that moves bits: one word, or two and the amount of a funnel shift.
fn move_parameters(kind: BitMove) -> &'static [Parameter]
    ensures { map parameter_type result.now ≡ (runtime_signature (called.Move kind)).params }
{
    match kind {
        BitMove::Bitreverse8 => &[I8],
        BitMove::Bswap16 | BitMove::Bitreverse16 => &[I16],
        BitMove::Bswap32 | BitMove::Bitreverse32 => &[I32],
        BitMove::Bswap64 | BitMove::Bitreverse64 => &[I64],
        BitMove::Fshl8 | BitMove::Fshr8 => &[I8, I8, I8],
        BitMove::Fshl16 | BitMove::Fshr16 => &[I16, I16, I16],
        BitMove::Fshl32 | BitMove::Fshr32 => &[I32, I32, I32],
        BitMove::Fshl64 | BitMove::Fshr64 => &[I64, I64, I64],
    }
}

/// The parameters of a runtime function.
fn parameters(function: RuntimeFn) -> &'static [Parameter]
    ensures { map parameter_type result.now ≡ (runtime_signature function).params }
{
    match function {
        // mask, its bits, origin, kind of use, place of the operand, site
        RuntimeFn::Check => &[I64, I32, I32, I32, I32, I32],
        // start, size, kind of use, site
        RuntimeFn::CheckMemory => &[POINTER, I64, I32, I32],
        // start, site
        RuntimeFn::CheckString => &[POINTER, I32],
        // mask
        RuntimeFn::Blind => &[I64],
        // block, its first byte that is poisoned, the byte after the last one, root
        RuntimeFn::Poison => &[POINTER, I64, I64, I32],
        // start, size
        RuntimeFn::Unpoison => &[POINTER, I64],
        // target, source, size
        RuntimeFn::Copy => &[POINTER, POINTER, I64],
        // start, size, mask of the byte, its origin, site
        RuntimeFn::Fill => &[POINTER, I64, I64, I32, I32],
        // address, mask of what is stored, its origin, site
        RuntimeFn::StoreOrigin => &[POINTER, I64, I32, I32],
        // address, mask of what is loaded
        RuntimeFn::LoadOrigin => &[POINTER, I64],
        // block
        RuntimeFn::Size => &[POINTER],
        // format, place of the argument, its string, site
        RuntimeFn::CheckFormat => &[POINTER, I32, POINTER, I32],
        // where the join stored the value, thread, what the join returned, site
        RuntimeFn::ThreadResult => &[POINTER, I64, I32, I32],
        RuntimeFn::Move(kind) => move_parameters(kind),
    }
}

/// The arguments of a call of a runtime function: these operands, each with the type of its parameter.
pub fn arguments(
    alloc: Global,
    function: RuntimeFn,
    operands: Vec<Operand>,
) -> Result<List<(Ty, Operand)>, NoMemory>
    ensures { IfOk result (λ l. l ≡ zip (runtime_signature function).params operands.items) }
{
    let typed = parameters(function)
        .iter()
        .zip(operands)
        .map(|(parameter, operand)| (parameter.ty(), operand))
        .collect(alloc)?;
    Ok(List::from_vec(typed))
}
