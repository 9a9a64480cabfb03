//! Which operands decide whether a result is clean: so many from the first on.
ghost use Rattle.std.specs.Prelude.{◌≡◌, if◌then◌else◌};
ghost use Rattle.ms_ir.specs.Instructions.{external_named};
ghost use Rattle.ms_check_tables.specs.FirstPlace.{first_place};
ghost use Rattle.ms_check_valid.specs.CleanValues.{is_division};
ghost use Rattle.ms_elide.specs.Needed.{premises, answer_premises};

use ms_bits::BinOp;
use ms_check_tables::NameTable;
use ms_ir::{External, Name, Op, Operand, Ty};

/// How many operands of an arithmetic or bitwise operation decide: of a division or a remainder the dividend alone, since
/// a divisor that has a poisoned bit ends the run before there is a result.
fn binary_premises(op: BinOp) -> usize
    ensures { result ≡ (if is_division op then 1 else 2) }
{
    match op {
        BinOp::Udiv | BinOp::Sdiv | BinOp::Urem | BinOp::Srem => 1,
        _ => 2,
    }
}

/// The external with a name, where the module defines no function of this name.
fn external_of(functions: &NameTable<'_>, name: &Name) -> Option<External>
    ensures { result ≡ external_named (first_place functions.now) name.now }
{
    match functions.place(name) {
        Some(_) => None,
        None => External::named(name),
    }
}

/// How many arguments of an external decide: all of a function of whole words, and none of another, whose result always is clean.
fn answer_premises(external: Option<External>, args: &[(Ty, Operand)]) -> Option<usize>
    ensures { result ≡ answer_premises external args.now }
{
    match external {
        None => None,
        Some(External::Word(_, _)) => Some(args.len()),
        Some(_) => Some(0),
    }
}

/// How many operands of an operation, from the first on, have to be clean so that its result is; none where its result
/// never is.
pub fn premises(functions: &NameTable<'_>, op: &Op) -> Option<usize>
    ensures { result ≡ premises (first_place functions.now) op.now }
{
    match op {
        Op::Binary { op, .. } => Some(binary_premises(*op)),
        Op::Icmp { .. } => Some(2),
        Op::Cast { .. } => Some(1),
        Op::Select { .. } => Some(3),
        Op::Freeze { .. } => Some(0),
        Op::Phi { edges, .. } => Some(edges.as_slice().len()),
        Op::Alloca { .. } => Some(0),
        Op::Gep { indices, .. } => Some(indices.as_slice().len() + 1),
        Op::Call { callee, args, .. } => {
            answer_premises(external_of(functions, callee), args.as_slice())
        }
        _ => None,
    }
}
