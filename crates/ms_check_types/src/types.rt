//! Whether a type is the one that is asked for (LLVM Language Reference, "Type System").
ghost use Rattle.std.specs.Prelude.{◌≡◌};
ghost use Rattle.ms_ir.specs.declared.syntax.Ty as type;
ghost use Rattle.ms_ir.specs.Equal.{type_eq};

use ms_ir::Ty;

/// Whether a type is `ptr`.
pub fn is_pointer(ty: &Ty) -> bool
    ensures { result ≡ type_eq ty.now type.Ptr }
{
    match ty {
        Ty::Ptr => true,
        _ => false,
    }
}
