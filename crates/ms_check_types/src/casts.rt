//! Checks the types of casts (LLVM Language Reference, "Conversion Operations").
ghost use Rattle.std.specs.Prelude.{◌≡◌};
ghost use Rattle.ms_bits.specs.declared.operations.CastOp.TheVariants as cast;
ghost use Rattle.ms_check_valid.specs.TypesAgree.{cast_allows};

use ms_bits::CastOp;
use ms_ir::Ty;

/// Whether one integer type is narrower than another.
fn is_narrower(a: &Ty, b: &Ty) -> bool
    ensures { result ≡ cast_allows cast.Zext a.now b.now }
{
    match (a, b) {
        (Ty::Int(a), Ty::Int(b)) => *a < *b,
        _ => false,
    }
}

/// Whether one type is a pointer and another an integer.
fn is_pointer_and_int(a: &Ty, b: &Ty) -> bool
    ensures { result ≡ cast_allows cast.PtrToInt a.now b.now }
{
    match (a, b) {
        (Ty::Ptr, Ty::Int(_)) => true,
        _ => false,
    }
}

/// Whether a cast is allowed from one type to another.
pub fn cast_allows(op: CastOp, from: &Ty, to: &Ty) -> bool
    ensures { result ≡ cast_allows op from.now to.now }
{
    match op {
        CastOp::Trunc => is_narrower(to, from),
        CastOp::Zext => is_narrower(from, to),
        CastOp::Sext => is_narrower(from, to),
        CastOp::PtrToInt => is_pointer_and_int(from, to),
        CastOp::IntToPtr => is_pointer_and_int(to, from),
        CastOp::Bitcast => from == to,
    }
}
