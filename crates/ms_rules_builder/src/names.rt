//! The names that inserted code gives its results, and those that it calls. A value has a number below 2^62 where 2v + 2 is
//! computed, in 64 bits.
ghost use Rattle.std.specs.Prelude.{◌≡◌, ◌+◌, ◌*◌, ◌<◌, ◌^◌, IfOk};
ghost use Rattle.ms_ir.specs.Names.{runtime_name as runtime_name_of};
ghost use Rattle.ms_pass_tasks.specs.Tasks.{msan_name as msan_name_of, mask_name as mask_name_of, origin_name as origin_name_of};

use itoa::Buffer;
use ms_bits::{NoMemory, SmallBytes};
use ms_ir::{Name, RuntimeFn};
use std::alloc::Global;

/// The local name of the inserted result with a number.
pub fn msan_name(alloc: Global, number: u64) -> Result<Name, NoMemory>
    ensures { IfOk result (λ x. x ≡ msan_name_of number) }
{
    let mut buffer = Buffer::new();
    let digits = buffer.format(number).as_bytes();
    Ok(Name::Text(SmallBytes::joined(alloc, b"__msan.", digits)?))
}

/// The name of the mask of the function's value with a number: value v has the inserted results 2v + 1 and 2v + 2.
pub fn mask_name(alloc: Global, value: u64) -> Result<Name, NoMemory>
    requires { value < 2 ^ 62 }
    ensures { IfOk result (λ x. x ≡ mask_name_of value) }
{
    msan_name(alloc, 2 * value + 1)
}

/// The name of the origin of the function's value with a number.
pub fn origin_name(alloc: Global, value: u64) -> Result<Name, NoMemory>
    requires { value < 2 ^ 62 }
    ensures { IfOk result (λ x. x ≡ origin_name_of value) }
{
    msan_name(alloc, 2 * value + 2)
}

/// The name of a runtime function.
pub fn runtime_name(alloc: Global, function: RuntimeFn) -> Result<Name, NoMemory>
    ensures { IfOk result (λ x. x ≡ runtime_name_of function) }
{
    Ok(Name::Text(SmallBytes::from_slice(alloc, function.name())?))
}
