//! The uses that are checked, as tables: for each operation and external, by kind and place of the operand, in their order.
ghost use Rattle.std.specs.Prelude.{◌≡◌, ◌++◌, List, map, drop, option_map, if◌then◌else◌, Some, None};
ghost use Rattle.ms_ir.specs.{declared.syntax.Ty.{Ty as TyOf}, declared.syntax.Operand.{Operand as OperandOf}, Equal.{type_eq}};
ghost use Rattle.ms_runs.specs.Uses.{external_uses as external_uses_of, binary_uses as binary_uses_of, value_uses, string_uses, Word as WordOf, Asked as AskedOf};
ghost use Rattle.ms_runs_uses.specs.Uses.{use_of, op_uses, printed_uses, further_uses};

use crate::kinds::{
    ADDRESS, BRANCH, DIVISOR, EXIT, FIRST_BYTES, OUTPUT, POINTER, SECOND_BYTES, SIZE, SWITCH, VALUE,
};
use crate::uses::CheckedUse::{Bytes, Line, Word};
use ms_bits::BinOp;
use ms_ir::{External, Op, Operand, Ty};

/// A use that is checked. Operands go by their places from 0.
#[derive(Clone, Copy)]
pub enum CheckedUse {
    /// Kind and operand: the mask of the operand, for a report of the kind.
    Word(u32, usize),
    /// Kind, operand and operand: the bytes at the first, as many as the second says, for a report of the kind.
    Bytes(u32, usize, usize),
    /// The string at an operand, up to its zero byte.
    Line(usize),
    /// The string at an operand, where the format at operand 0 asks for one.
    Asked(usize),
}

/// The uses of an external; of `printf`, those of its format.
fn external_uses(external: External) -> &'static [CheckedUse]
    ensures { (args : List (TyOf × OperandOf)) → map use_of result.now ++ printed_uses external args ≡ external_uses_of external args }
{
    match external {
        External::Malloc => &[Word(SIZE, 0)],
        External::Calloc => &[Word(SIZE, 0), Word(SIZE, 1)],
        External::Realloc => &[Word(POINTER, 0), Word(SIZE, 1)],
        External::Free => &[Word(POINTER, 0)],
        External::Memcpy | External::Memmove | External::LlvmMemcpy | External::LlvmMemmove => &[
            Word(POINTER, 0),
            Word(POINTER, 1),
            Word(SIZE, 2),
        ],
        External::Memset | External::LlvmMemset => &[Word(POINTER, 0), Word(SIZE, 2)],
        External::Memcmp => &[
            Word(POINTER, 0),
            Word(POINTER, 1),
            Word(SIZE, 2),
            Bytes(FIRST_BYTES, 0, 2),
            Bytes(SECOND_BYTES, 1, 2),
        ],
        External::Strlen | External::Puts | External::Printf => &[Word(POINTER, 0), Line(0)],
        External::Putchar => &[Word(VALUE, 0)],
        External::Read => &[Word(VALUE, 0), Word(POINTER, 1), Word(SIZE, 2)],
        External::Write => &[
            Word(VALUE, 0),
            Word(POINTER, 1),
            Word(SIZE, 2),
            Bytes(OUTPUT, 1, 2),
        ],
        External::Exit => &[Word(EXIT, 0)],
        External::Getchar
        | External::Abort
        | External::Word(_, _)
        | External::LlvmTrap
        | External::SchedYield => &[],
        External::LlvmAssume => &[Word(BRANCH, 0)],
        External::LlvmObjectSize => &[Word(VALUE, 1)],
        External::LifetimeStart | External::LifetimeEnd => &[Word(SIZE, 0), Word(POINTER, 1)],
        External::PthreadCreate => &[Word(POINTER, 0), Word(POINTER, 1), Word(POINTER, 3)],
        External::PthreadJoin => &[Word(VALUE, 0), Word(POINTER, 1)],
    }
}

/// The uses of a binary operation.
fn binary_uses(op: BinOp) -> &'static [CheckedUse]
    ensures { map use_of result.now ≡ binary_uses_of op }
{
    match op {
        BinOp::Udiv | BinOp::Sdiv | BinOp::Urem | BinOp::Srem => &[Word(DIVISOR, 1)],
        _ => &[],
    }
}

/// The uses of an operation, in the order in which they are checked; `main` says whether it stands in the function `main`,
/// and `external` which external it calls. Of a call of `printf` they are those of its format, and those of
/// `printed_args` come after them.
pub fn checked_uses(main: bool, external: Option<External>, op: &Op) -> &'static [CheckedUse]
    ensures { map use_of result.now ++ further_uses external op.now ≡ op_uses main external op.now }
{
    match op {
        Op::Binary { op, .. } => binary_uses(*op),
        Op::Alloca { .. } => &[Word(SIZE, 0)],
        Op::Load { .. } => &[Word(ADDRESS, 0)],
        Op::Store { .. } => &[Word(ADDRESS, 1)],
        Op::Call { .. } => match external {
            Some(external) => external_uses(external),
            None => &[],
        },
        Op::CondBr { .. } => &[Word(BRANCH, 0)],
        Op::Switch { .. } => &[Word(SWITCH, 0)],
        Op::Ret { .. } if main => &[Word(EXIT, 0)],
        _ => &[],
    }
}

/// The arguments of a call of `printf`; none of another operation. Those after the format are used too: first the word of
/// each (`printed_word`), then the strings (`printed_string`).
pub fn printed_args(external: Option<External>, op: &Op) -> &[(Ty, Operand)]
    ensures { further_uses external op.now ≡ value_uses 1 (drop 1 result.now) ++ string_uses 1 (drop 1 result.now) }
{
    match (external, op) {
        (Some(External::Printf), Op::Call { args, .. }) => args.as_slice(),
        _ => &[],
    }
}

/// The use of the word of an argument of `printf` after its format, by its place among the operands, where the format has 0.
pub fn printed_word(place: usize) -> CheckedUse
    ensures { use_of result ≡ WordOf 7 place }
{
    Word(VALUE, place)
}

/// The use of the string at an argument of `printf` after its format, by its place as there, if the argument is a pointer.
pub fn printed_string(ty: &Ty, place: usize) -> Option<CheckedUse>
    ensures { option_map use_of result ≡ (if type_eq ty.now Ty.Ptr then Some (AskedOf place) else None) }
{
    match ty {
        Ty::Ptr => Some(CheckedUse::Asked(place)),
        _ => None,
    }
}
