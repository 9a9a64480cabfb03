//! `ScalarType`: the types that values have, `iN` and `ptr`, as readers hand them on (LLVM Language Reference, "Type System").
//! Contracts see a `Ty`, and the width inside is found again from it.

ghost use Rattle.std.specs.Prelude.{◌≡◌, IfSome, IfNone};

use ms_ir::Ty;
use std::marker::Model;

/// The type of a value: `iN` or `ptr`. It holds no memory, so that a reader that gives up has nothing to let go. Contracts
/// see the type itself.
#[derive(Clone, Copy)]
pub struct ScalarType {
    /// The width of `iN` in bits. `ptr` has none.
    width: Option<u8>,
}

impl Model for ScalarType {
    ghost use Rattle.ms_ir.specs.declared.syntax.Ty.{Ty as Typed};
    ghost use Rattle.ms_ir.specs.contracts.syntax.Ty as ty;
    ghost use Rattle.std.specs.Coded.{codes};

    ghost Value = { Typed };

    ghost coded = { Prim.hlevel (codes, ty.the_row.coded) };

    ghost use Rattle.ms_read_values.specs.ValueTypes.{seen, inside, inside_kept};

    ghost view = { seen };

    ghost inverse = { inside };

    ghost inverse_ok = { λ v h. inside_kept v };
}

/// The type of a result as a part of a module; `void` is none.
pub fn result_ty(ty: Option<ScalarType>) -> Option<Ty>
    ensures { result ≡ ty }
{
    match ty {
        Some(ty) => Some(ty.ty()),
        None => None,
    }
}

impl ScalarType {
    /// `iN` by its width in bits.
    pub fn int(width: u8) -> ScalarType
        ensures { result ≡ Ty.Int width }
    {
        ScalarType { width: Some(width) }
    }

    /// `ptr`.
    pub fn ptr() -> ScalarType
        ensures { result ≡ Ty.Ptr }
    {
        ScalarType { width: None }
    }

    /// The width of `iN` in bits. `ptr` has none.
    pub fn width(self) -> Option<u8>
        ensures int { IfSome result (λ width. self ≡ Ty.Int width) }
        ensures ptr { IfNone result (self ≡ Ty.Ptr) }
    {
        self.width
    }

    /// The type as a part of a module.
    pub fn ty(self) -> Ty
        ensures { result ≡ self }
    {
        match self.width {
            Some(width) => Ty::Int(width),
            None => Ty::Ptr,
        }
    }
}
