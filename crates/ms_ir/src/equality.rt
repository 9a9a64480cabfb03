//! Equality of types and operands, named types by name (LLVM Language Reference, "Structure Type").
ghost use Rattle.std.specs.{Prelude.{◌≡◌}, Cmp.{partial_equiv_from_equiv}};
ghost use Rattle.ms_ir.specs.declared.syntax.Operand.TheVariants as operand;
ghost use Rattle.ms_ir.specs.{Equal.{type_eq, types_eq, steps_eq, is_undefined, operand_eq}, TypeLaws.{type_eq_equiv}};

use crate::syntax::{Name, Operand, Ty};
use ms_bits::List;

impl PartialEq for Ty {
    ghost eq = { type_eq };

    ghost laws = { partial_equiv_from_equiv type_eq_equiv };

    fn eq(&self, other: &Ty) -> bool {
        same_type(self, other)
    }
}

impl Eq for Ty {
    ghost laws = { type_eq_equiv };
}

/// Whether two types are the same. m and n are widths, or lengths of arrays; p and q say whether structs are packed.
#[cycle(types)]
fn same_type(a: &Ty, b: &Ty) -> bool
    ensures { result ≡ type_eq a.now b.now }
{
    match (a, b) {
        (Ty::Int(m), Ty::Int(n)) => *m == *n,
        (Ty::Ptr, Ty::Ptr) => true,
        (Ty::Array(m, item), Ty::Array(n, other)) => *m == *n && same_type(item.get(), other.get()),
        (Ty::Struct(p, fields), Ty::Struct(q, others)) => {
            *p == *q && same_types(fields.as_slice(), others.as_slice())
        }
        (Ty::Named(x), Ty::Named(y)) => x == y,
        _ => false,
    }
}

/// Whether two lists of types are the same.
#[cycle(types)]
fn same_types(types: &[Ty], others: &[Ty]) -> bool
    ensures { result ≡ types_eq types.now others.now }
{
    if types.len() != others.len() {
        return false;
    }
    for (i, ty) in types.iter().enumerate() {
        if !same_type(ty, &others[i]) {
            return false;
        }
    }
    true
}

impl Operand {
    /// Whether it has bits that are not set: `undef` or `poison`.
    pub fn is_undefined(&self) -> bool
        ensures { result ≡ is_undefined self.now }
    {
        match self {
            Operand::Undef | Operand::Poison => true,
            _ => false,
        }
    }
}

/// Whether the steps of two constant addresses are the same.
fn same_steps(steps: &List<(Ty, List<(Ty, u64)>)>, others: &List<(Ty, List<(Ty, u64)>)>) -> bool
    ensures { result ≡ steps_eq steps.now others.now }
{
    steps == others
}

/// Whether an operand is this integer.
fn is_int(other: &Operand, value: u64) -> bool
    ensures { result ≡ operand_eq (operand.Int value) other.now }
{
    match other {
        Operand::Int(own) => value == *own,
        _ => false,
    }
}

/// Whether an operand is the null pointer.
fn is_null(other: &Operand) -> bool
    ensures { result ≡ operand_eq operand.Null other.now }
{
    match other {
        Operand::Null => true,
        _ => false,
    }
}

/// Whether an operand is the local of this name.
fn is_local(other: &Operand, name: &Name) -> bool
    ensures { result ≡ operand_eq (operand.Local name.now) other.now }
{
    match other {
        Operand::Local(own) => name == own,
        _ => false,
    }
}

/// Whether an operand is the address of the global of this name.
fn is_global(other: &Operand, name: &Name) -> bool
    ensures { result ≡ operand_eq (operand.Global name.now) other.now }
{
    match other {
        Operand::Global(own) => name == own,
        _ => false,
    }
}

/// Whether an operand is the address to which the steps lead from the global of this name.
fn is_offset(other: &Operand, name: &Name, steps: &List<(Ty, List<(Ty, u64)>)>) -> bool
    ensures { result ≡ operand_eq (operand.Offset name.now steps.now) other.now }
{
    match other {
        Operand::Offset(global, others) => name == global.get() && same_steps(steps, others),
        _ => false,
    }
}

/// Whether two operands of one type mean the same: `poison` is `undef` here, which `==` tells apart. Two edges of a phi from one
/// block must have the same operand.
pub fn same_operand(a: &Operand, b: &Operand) -> bool
    ensures { result ≡ operand_eq a.now b.now }
{
    match a {
        Operand::Int(value) => is_int(b, *value),
        Operand::Null => is_null(b),
        Operand::Local(name) => is_local(b, name),
        Operand::Global(name) => is_global(b, name),
        Operand::Offset(name, steps) => is_offset(b, name.get(), steps),
        _ => b.is_undefined(),
    }
}
