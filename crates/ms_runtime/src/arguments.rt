//! The words of the arguments of a runtime function's call, counted from 0.
ghost use Rattle.std.specs.Prelude.{◌≡◌, ◌<◌, ◌%◌, ◌^◌, get_or};
ghost use Rattle.ms_bits.specs.WordFunctions.{moved as moved_of};
ghost use Rattle.ms_ir.specs.declared.calls.RuntimeFn.TheVariants.{Check};
ghost use Rattle.ms_runtime.specs.Served.{Fits, use_in};

use crate::reports::ReportedUse;
use ms_bits::{BitMove, move_bits};

/// Argument `k`; 0 where it is missing.
pub(crate) fn word(args: &[u64], k: usize) -> u64
    ensures { result ≡ get_or args.now k 0 }
{
    if k < args.len() { args[k] } else { 0 }
}

/// Argument `k`, of a parameter of 32 bits.
pub(crate) fn small(args: &[u64], k: usize) -> u32
    requires { get_or args.now k 0 < 2 ^ 32 }
    ensures { result ≡ get_or args.now k 0 }
{
    word(args, k) as u32
}

/// The low byte of argument `k`.
pub(crate) fn low_byte(args: &[u64], k: usize) -> u8
    ensures { result ≡ get_or args.now k 0 % 256 }
{
    (word(args, k) % 256) as u8
}

/// The use that a call of `__msan_check` speaks of.
pub(crate) fn use_of(args: &[u64]) -> ReportedUse
    requires { Fits Check args.now }
    ensures { result ≡ use_in args.now }
{
    ReportedUse {
        mask: word(args, 0),
        width: small(args, 1),
        origin: small(args, 2),
        kind: small(args, 3),
        part: small(args, 4),
        site: small(args, 5),
    }
}

/// What a runtime function that moves bits (as `bswap` or a funnel shift does) gives of its arguments: the mask of such a call's
/// result.
pub(crate) fn moved(kind: BitMove, args: &[u64]) -> u64
    ensures { result ≡ moved_of kind (get_or args.now 0 0) (get_or args.now 1 0) (get_or args.now 2 0) }
{
    move_bits(kind, word(args, 0), word(args, 1), word(args, 2))
}
