//! The parts of an instruction by their places, in written order (LLVM Language Reference, "Instruction Reference"): checks, the
//! pass and the followed run go through operands and targets in this way. Each answer takes constant time and no memory.
ghost use Rattle.std.specs.{Prelude.{◌≡◌, [], ◌∷◌, map, slice_get}, Option.{option_copied}};
ghost use Rattle.ms_ir.specs.{Instructions.{operands, is_phi}, Written.{labels, targets, own_types}};

use crate::syntax::{Name, Op, Operand, Ty};

// ---- one of a few

/// The value, where `k` is 0.
fn of_one<T>(a: &T, k: usize) -> Option<&T>
    ensures { option_copied result ≡ slice_get (a.now ∷ []) k }
{
    if k == 0 { Some(a) } else { None }
}

/// The one of two values with a place from 0, if there is one.
fn of_two<'a, T>(a: &'a T, b: &'a T, k: usize) -> Option<&'a T>
    ensures { option_copied result ≡ slice_get (a.now ∷ b.now ∷ []) k }
{
    match k {
        0 => Some(a),
        1 => Some(b),
        _ => None,
    }
}

/// The one of three values with a place from 0, if there is one.
fn of_three<'a, T>(a: &'a T, b: &'a T, c: &'a T, k: usize) -> Option<&'a T>
    ensures { option_copied result ≡ slice_get (a.now ∷ b.now ∷ c.now ∷ []) k }
{
    if k == 0 { Some(a) } else { of_two(b, c, k - 1) }
}

/// The first part of the pair with a place from 0, if there is one.
fn first_of<A, B>(pairs: &[(A, B)], k: usize) -> Option<&A>
    ensures { option_copied result ≡ slice_get (map (λ p. p.0) pairs.now) k }
{
    match pairs.get(k) {
        Some(pair) => Some(&pair.0),
        None => None,
    }
}

/// The second part of the pair with a place from 0, if there is one.
fn second_of<A, B>(pairs: &[(A, B)], k: usize) -> Option<&B>
    ensures { option_copied result ≡ slice_get (map (λ p. p.1) pairs.now) k }
{
    match pairs.get(k) {
        Some(pair) => Some(&pair.1),
        None => None,
    }
}

/// The one with a place from 0 among a value and, after it, the second parts of pairs.
fn before_seconds<'a, A, B>(first: &'a B, pairs: &'a [(A, B)], k: usize) -> Option<&'a B>
    ensures { option_copied result ≡ slice_get (first.now ∷ map (λ p. p.1) pairs.now) k }
{
    if k == 0 {
        Some(first)
    } else {
        second_of(pairs, k - 1)
    }
}

impl Op {
    /// The operand with a place from 0, if there is one.
    #[tactic(auto, using(crate::proofs::Edges::edge_operands))]
    pub fn operand(&self, k: usize) -> Option<&Operand>
        ensures { option_copied result ≡ slice_get (map (λ o. o.1) (operands self.now)) k }
    {
        match self {
            Op::Binary { a, b, .. } => of_two(a, b, k),
            Op::Icmp { a, b, .. } => of_two(a, b, k),
            Op::Cast { a, .. } => of_one(a, k),
            Op::Select { cond, a, b, .. } => of_three(cond, a, b, k),
            Op::Freeze { a, .. } => of_one(a, k),
            Op::Phi { edges, .. } => first_of(edges.as_slice(), k),
            Op::Alloca { count, .. } => of_one(count, k),
            Op::Load { addr, .. } => of_one(addr, k),
            Op::Store { value, addr, .. } => of_two(value, addr, k),
            Op::Gep { base, indices, .. } => before_seconds(base, indices.as_slice(), k),
            Op::Call { args, .. } => second_of(args.as_slice(), k),
            Op::CondBr { cond, .. } => of_one(cond, k),
            Op::Switch { value, .. } => of_one(value, k),
            Op::Ret { value: Some(typed) } => of_one(&typed.1, k),
            _ => None,
        }
    }

    /// The label of a block with a place from 0 among those that it names, if there is one: those of a phi are
    /// where control comes from, those of a terminator are where it goes, a `switch`'s default first.
    pub fn label(&self, k: usize) -> Option<&Name>
        ensures { option_copied result ≡ slice_get (labels self.now) k }
    {
        match self {
            Op::Phi { edges, .. } => second_of(edges.as_slice(), k),
            Op::Br { to } => of_one(to, k),
            Op::CondBr { yes, no, .. } => of_two(yes, no, k),
            Op::Switch { other, cases, .. } => before_seconds(other, cases.as_slice(), k),
            _ => None,
        }
    }

    /// Whether it is a phi.
    pub fn is_phi(&self) -> bool
        ensures { result ≡ is_phi self.now }
    {
        match self {
            Op::Phi { .. } => true,
            _ => false,
        }
    }

    /// The label of a block with a place from 0 among those to which it may go, if there is one. A phi goes
    /// nowhere.
    pub fn target(&self, k: usize) -> Option<&Name>
        ensures { option_copied result ≡ slice_get (targets self.now) k }
    {
        match self {
            Op::Br { to } => of_one(to, k),
            Op::CondBr { yes, no, .. } => of_two(yes, no, k),
            Op::Switch { other, cases, .. } => before_seconds(other, cases.as_slice(), k),
            _ => None,
        }
    }

    /// The type with a place from 0 among those that stand before no operand, if there is one: what is worked
    /// on, cast to or answered.
    pub fn own_type(&self, k: usize) -> Option<&Ty>
        ensures { option_copied result ≡ slice_get (own_types self.now) k }
    {
        match self {
            Op::Cast { to, .. } => of_one(to, k),
            Op::Phi { ty, .. } => of_one(ty, k),
            Op::Alloca { ty, .. } => of_one(ty, k),
            Op::Load { ty, .. } => of_one(ty, k),
            Op::Gep { ty, .. } => of_one(ty, k),
            Op::Call { ret: Some(ty), .. } => of_one(ty, k),
            _ => None,
        }
    }
}
