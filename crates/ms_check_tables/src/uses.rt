//! The first name that is sought in instructions and their parts: `Search` says which are sought, `Uses` goes through a part.
//! The clauses of validity that ask for unknown names, and for inserted names that the program uses, each have a `Search`.
ghost use Rattle.std.specs.Prelude.{◌≡◌, ◌++◌, [], ◌∷◌, List, map, flat_map, slice_get, option_and_then};
ghost use Rattle.ms_ir.specs.Instructions.{operands};
ghost use Rattle.ms_ir.specs.Written.{Mention, OfLocal, type_mentions, operand_mentions, operands_mentions, targets, mentions};
ghost use Rattle.ms_check_valid.specs.NamesKnown.{global_mentions};
ghost use Rattle.ms_check_tables.specs.Sought.{first_sought};

use crate::sought::{Search, global_sought, in_init, in_operand, in_type, local_sought};
use crate::spelled::Spelled;
use ms_ir::{GlobalVar, Name, Op, Operand, Ty};

/// A part of a module that uses names.
pub trait Uses<S: Search> {
    /// Every name that the part uses, in written order.
    ghost mentions_of: { Self → List Mention };

    /// The first of the names that is sought, in written order.
    fn first_in(&self, search: &S) -> Option<Spelled<'_>>
        ensures { result ≡ first_sought (S.sought search.now) (mentions_of self.now) };
}

/// The first name that is sought in parts that follow one another.
pub fn first_among<'n, S: Search, T: Uses<S>>(search: &S, parts: &'n [T]) -> Option<Spelled<'n>>
    ensures { result ≡ first_sought (S.sought search.now) (flat_map T.mentions_of parts.now) }
{
    for part in parts {
        if let Some(spelled) = part.first_in(search) {
            return Some(spelled);
        }
    }
    None
}

/// An edge of a phi.
impl<S: Search> Uses<S> for (Operand, Name) {
    ghost mentions_of = { λ e. operand_mentions e.0 ++ OfLocal e.1 ∷ [] };

    fn first_in(&self, search: &S) -> Option<Spelled<'_>> {
        in_operand(search, &self.0).or(local_sought(search, &self.1))
    }
}

/// A named type, with its definition.
impl<S: Search> Uses<S> for (Name, Ty) {
    ghost mentions_of = { λ t. type_mentions t.1 };

    fn first_in(&self, search: &S) -> Option<Spelled<'_>> {
        in_type(search, &self.1)
    }
}

impl<S: Search> Uses<S> for GlobalVar {
    ghost mentions_of = { global_mentions };

    fn first_in(&self, search: &S) -> Option<Spelled<'_>> {
        in_type(search, &self.ty).or(in_init(search, &self.init))
    }
}

/// What is sought in the operand with a place, if there is one.
fn in_operand_at<'n, S: Search>(search: &S, op: &'n Op, place: usize) -> Option<Spelled<'n>>
    ensures { result ≡ option_and_then (λ o. first_sought (S.sought search.now) (operand_mentions o)) (slice_get (map (λ o. o.1) (operands op.now)) place) }
{
    match op.operand(place) {
        Some(operand) => in_operand(search, operand),
        None => None,
    }
}

/// The first that is sought in the operands of an instruction.
fn in_operands<'n, S: Search>(search: &S, op: &'n Op) -> Option<Spelled<'n>>
    ensures { result ≡ first_sought (S.sought search.now) (operands_mentions (operands op.now)) }
{
    for place in 0..op.operand_count() {
        if let Some(spelled) = in_operand_at(search, op, place) {
            return Some(spelled);
        }
    }
    None
}

/// What is sought in the label with a place among those to which an instruction may go, if there is one.
fn in_target_at<'n, S: Search>(search: &S, op: &'n Op, place: usize) -> Option<Spelled<'n>>
    ensures { result ≡ option_and_then (λ x. first_sought (S.sought search.now) (OfLocal x ∷ [])) (slice_get (targets op.now) place) }
{
    match op.target(place) {
        Some(to) => local_sought(search, to),
        None => None,
    }
}

/// The first that is sought in the labels to which an instruction may go.
fn in_targets<'n, S: Search>(search: &S, op: &'n Op) -> Option<Spelled<'n>>
    ensures { result ≡ first_sought (S.sought search.now) (map OfLocal (targets op.now)) }
{
    for place in 0..op.target_count() {
        if let Some(spelled) = in_target_at(search, op, place) {
            return Some(spelled);
        }
    }
    None
}

impl<S: Search> Uses<S> for Op {
    ghost mentions_of = { mentions };

    fn first_in(&self, search: &S) -> Option<Spelled<'_>> {
        match self {
            Op::Phi { edges, .. } => first_among(search, edges.as_slice()),
            Op::Alloca { ty, .. } => in_type(search, ty).or(in_operands(search, self)),
            Op::Gep { ty, .. } => in_type(search, ty).or(in_operands(search, self)),
            Op::Call { callee, .. } => {
                global_sought(search, callee).or(in_operands(search, self))
            }
            _ => in_operands(search, self).or(in_targets(search, self)),
        }
    }
}
