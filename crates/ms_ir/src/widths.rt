//! Types of words, asked for by their bits (LLVM Language Reference, "Type System").
ghost use Rattle.std.specs.Prelude.{◌≡◌};
ghost use Rattle.ms_ir.specs.declared.syntax.Ty as type;
ghost use Rattle.ms_ir.specs.{Equal.{type_eq}, Layout.{width_of}};

use crate::syntax::Ty;

/// The bits of a word of a type: 64 for a pointer, and 0 for a type without words.
pub fn width_of(ty: &Ty) -> u8
    ensures { result ≡ width_of ty.now }
{
    match ty {
        Ty::Int(width) => *width,
        Ty::Ptr => 64,
        _ => 0,
    }
}

/// Whether a type is `iN` of a width.
pub fn is_int(ty: &Ty, width: u8) -> bool
    ensures { result ≡ type_eq ty.now (type.Int width) }
{
    match ty {
        Ty::Int(own) => *own == width,
        _ => false,
    }
}
