//! The types of operands, by their places, and of results (LLVM Language Reference, "Instruction Reference").
ghost use Rattle.std.specs.Prelude.{◌≡◌, [], ◌∷◌, map, option_map, slice_get};
ghost use Rattle.ms_ir.specs.declared.syntax.Ty as type;
ghost use Rattle.ms_ir.specs.{Instructions.{operands}, Equal.{type_eq}, ValueTypes.{type_of}, Written.{result_type}};

use crate::syntax::{Name, Op, Operand, Ty};

/// The type of an operand or a result: one that is written in a module, or one that follows from the operation and
/// stands nowhere.
#[derive(Clone, Copy)]
pub enum ValueType<'m> {
    /// `i1`.
    Bit,
    /// `ptr`.
    Pointer,
    /// A type as it is written.
    Written(&'m Ty),
}

impl<'m> ValueType<'m> {
    /// Whether it is this type.
    pub fn is(&self, ty: &Ty) -> bool
        ensures { result ≡ type_eq (type_of self.now) ty.now }
    {
        match (self, ty) {
            (ValueType::Written(own), _) => *own == ty,
            (ValueType::Bit, Ty::Int(width)) => *width == 1,
            (ValueType::Pointer, Ty::Ptr) => true,
            _ => false,
        }
    }

    /// Whether it is `ptr`.
    pub fn is_pointer(&self) -> bool
        ensures { result ≡ type_eq (type_of self.now) type.Ptr }
    {
        match self {
            ValueType::Pointer => true,
            ValueType::Written(Ty::Ptr) => true,
            _ => false,
        }
    }

    /// Whether it is `i1`.
    pub fn is_bit(&self) -> bool
        ensures { result ≡ type_eq (type_of self.now) (type.Int 1) }
    {
        match self {
            ValueType::Bit => true,
            ValueType::Written(Ty::Int(width)) => *width == 1,
            _ => false,
        }
    }

    /// Whether two are the same type.
    pub fn is_same(&self, other: &ValueType<'_>) -> bool
        ensures { result ≡ type_eq (type_of self.now) (type_of other.now) }
    {
        match other {
            ValueType::Bit => self.is_bit(),
            ValueType::Pointer => self.is_pointer(),
            ValueType::Written(ty) => self.is(*ty),
        }
    }
}

/// The type of the only operand, where `k` is 0.
fn of_one(a: ValueType<'_>, k: usize) -> Option<ValueType<'_>>
    ensures { option_map type_of result ≡ slice_get (type_of a.entry ∷ []) k }
{
    if k == 0 { Some(a) } else { None }
}

/// The type of one of two operands with a place from 0.
fn of_two<'a>(a: ValueType<'a>, b: ValueType<'a>, k: usize) -> Option<ValueType<'a>>
    ensures { option_map type_of result ≡ slice_get (type_of a.entry ∷ type_of b.entry ∷ []) k }
{
    match k {
        0 => Some(a),
        1 => Some(b),
        _ => None,
    }
}

/// The type of the only operand, as it is written, where `k` is 0.
fn of_written(ty: &Ty, k: usize) -> Option<ValueType<'_>>
    ensures { option_map type_of result ≡ slice_get (ty.now ∷ []) k }
{
    of_one(ValueType::Written(ty), k)
}

/// The type that each of two operands has, as it is written; `k` is the operand's place.
fn of_both(ty: &Ty, k: usize) -> Option<ValueType<'_>>
    ensures { option_map type_of result ≡ slice_get (ty.now ∷ ty.now ∷ []) k }
{
    let ty = ValueType::Written(ty);
    of_two(ty, ty, k)
}

/// The type of a `store`'s operand with a place.
fn of_store(ty: &Ty, k: usize) -> Option<ValueType<'_>>
    ensures { option_map type_of result ≡ slice_get (ty.now ∷ type.Ptr ∷ []) k }
{
    of_two(ValueType::Written(ty), ValueType::Pointer, k)
}

/// The type of the edge of a phi with a place, which is that of the phi.
fn of_edge<'a>(ty: &'a Ty, edges: &[(Operand, Name)], k: usize) -> Option<ValueType<'a>>
    ensures { option_map type_of result ≡ slice_get (map (λ e. ty.now) edges.now) k }
{
    match edges.get(k) {
        Some(_) => Some(ValueType::Written(ty)),
        None => None,
    }
}

/// The type that stands beside the operand with a place, as in the arguments of a call.
fn of_typed(typed: &[(Ty, Operand)], k: usize) -> Option<ValueType<'_>>
    ensures { option_map type_of result ≡ slice_get (map (λ o. o.0) typed.now) k }
{
    match typed.get(k) {
        Some(typed) => Some(ValueType::Written(&typed.0)),
        None => None,
    }
}

/// The type of a `select`'s operand with a place.
fn of_select(ty: &Ty, k: usize) -> Option<ValueType<'_>>
    ensures { option_map type_of result ≡ slice_get (type.Int 1 ∷ ty.now ∷ ty.now ∷ []) k }
{
    let ty = ValueType::Written(ty);
    if k == 0 {
        Some(ValueType::Bit)
    } else {
        of_two(ty, ty, k - 1)
    }
}

/// The type of a `getelementptr`'s operand with a place.
fn of_step(indices: &[(Ty, Operand)], k: usize) -> Option<ValueType<'_>>
    ensures { option_map type_of result ≡ slice_get (type.Ptr ∷ map (λ o. o.0) indices.now) k }
{
    if k == 0 {
        Some(ValueType::Pointer)
    } else {
        of_typed(indices, k - 1)
    }
}

impl Op {
    /// The type of the operand with a place from 0, if there is one. Constant time.
    #[tactic(auto, using(crate::proofs::Edges::edge_types))]
    pub fn operand_type(&self, k: usize) -> Option<ValueType<'_>>
        ensures { option_map type_of result ≡ slice_get (map (λ o. o.0) (operands self.now)) k }
    {
        match self {
            Op::Binary { ty, .. } => of_both(ty, k),
            Op::Icmp { ty, .. } => of_both(ty, k),
            Op::Cast { from, .. } => of_written(from, k),
            Op::Select { ty, .. } => of_select(ty, k),
            Op::Freeze { ty, .. } => of_written(ty, k),
            Op::Phi { ty, edges } => of_edge(ty, edges.as_slice(), k),
            Op::Alloca { count_ty, .. } => of_written(count_ty, k),
            Op::Load { .. } => of_one(ValueType::Pointer, k),
            Op::Store { ty, .. } => of_store(ty, k),
            Op::Gep { indices, .. } => of_step(indices.as_slice(), k),
            Op::Call { args, .. } => of_typed(args.as_slice(), k),
            Op::CondBr { .. } => of_one(ValueType::Bit, k),
            Op::Switch { ty, .. } => of_written(ty, k),
            Op::Ret { value: Some(typed) } => of_written(&typed.0, k),
            _ => None,
        }
    }

    /// The type of the result; none where it returns nothing.
    pub fn result_type(&self) -> Option<ValueType<'_>>
        ensures { option_map type_of result ≡ result_type self.now }
    {
        match self {
            Op::Binary { ty, .. } => Some(ValueType::Written(ty)),
            Op::Icmp { .. } => Some(ValueType::Bit),
            Op::Cast { to, .. } => Some(ValueType::Written(to)),
            Op::Select { ty, .. } => Some(ValueType::Written(ty)),
            Op::Freeze { ty, .. } => Some(ValueType::Written(ty)),
            Op::Phi { ty, .. } => Some(ValueType::Written(ty)),
            Op::Alloca { .. } => Some(ValueType::Pointer),
            Op::Load { ty, .. } => Some(ValueType::Written(ty)),
            Op::Gep { .. } => Some(ValueType::Pointer),
            Op::Call { ret: Some(ty), .. } => Some(ValueType::Written(ty)),
            _ => None,
        }
    }
}
