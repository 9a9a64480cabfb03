//! Checks the types of calls (LLVM Language Reference, "'call' Instruction"; C library, `printf`).
ghost use Rattle.std.specs.Prelude.{◌≡◌, ◌&&◌, nat_eq, slice_get, if◌then◌else◌};
ghost use Rattle.ms_ir.specs.declared.syntax.Op.TheVariants as operation;
ghost use Rattle.ms_ir.specs.Signatures.{signature_of};
ghost use Rattle.ms_check_valid.specs.TypesAgree.{first_misfit, fault_unless, argument_fault, is_start, is_create, fits_call, is_printable, printf_fault, is_printf, call_fault};
ghost use Rattle.ms_check_types.specs.{Arguments.{fits_parameter}, Bodies.{fits_in, module_of}};
ghost use Rattle.ms_check_types.specs.Callees.{callee_signature};

use crate::bodies::FuncTypes;
use crate::callees::Callee;
use crate::operands::{first_misfit, operand_fits};
use crate::types::is_pointer;
use ms_ir::{Name, Op, Operand, Ty, ValueType, is_int};

/// Operand 0 is named as the one at fault unless something `holds` that no operand says by itself.
pub fn fault_unless(holds: bool) -> Option<usize>
    ensures { result ≡ fault_unless holds }
{
    if holds { None } else { Some(0) }
}

/// Whether an operand names a function that a thread may start with: one that takes a pointer and returns one.
fn is_start(body: &FuncTypes<'_, '_>, operand: &Operand) -> bool
    ensures { result ≡ is_start (module_of body.now) operand.now }
{
    match operand {
        Operand::Global(name) => body.symbols.is_start(name),
        _ => false,
    }
}

/// Whether an argument of a call is the third of `pthread_create`, which names the function that a thread starts with.
fn is_start_place(body: &FuncTypes<'_, '_>, name: &Name, place: usize) -> bool
    ensures { result ≡ (is_create (module_of body.now) name.now && nat_eq place 2) }
{
    body.symbols.is_create(name) && place == 2
}

/// Whether an argument of a call of `name`, at a place from 0, is what is asked for there: a value of the type before it, or
/// the function that a thread starts with.
fn fits_call(
    body: &FuncTypes<'_, '_>,
    name: &Name,
    place: usize,
    ty: &Ty,
    operand: &Operand,
) -> bool
    ensures { result ≡ fits_call (module_of body.now) (fits_in body.now) name.now place (ty.now, operand.now) }
{
    if is_start_place(body, name, place) {
        is_start(body, operand)
    } else {
        operand_fits(body, ValueType::Written(ty), operand)
    }
}

/// Whether an argument, with the type before it, fits the parameter at its place; false where there is none.
fn argument_fits(
    body: &FuncTypes<'_, '_>,
    name: &Name,
    callee: &Callee<'_>,
    place: usize,
    ty: &Ty,
    operand: &Operand,
) -> bool
    ensures { result ≡ fits_parameter (fits_call (module_of body.now) (fits_in body.now) name.now place) (slice_get (callee_signature callee.now).params place) (ty.now, operand.now) }
{
    match callee.parameter(place) {
        Some(asked) => ty == asked && fits_call(body, name, place, ty, operand),
        None => false,
    }
}

/// The first argument that doesn't fit its parameter, is one too many, or is missing.
fn argument_fault(
    body: &FuncTypes<'_, '_>,
    name: &Name,
    callee: &Callee<'_>,
    args: &[(Ty, Operand)],
) -> Option<usize>
    ensures { result ≡ argument_fault (fits_call (module_of body.now) (fits_in body.now) name.now) 0 (callee_signature callee.now).params args.now }
{
    for (place, (ty, operand)) in args.iter().enumerate() {
        if !argument_fits(body, name, callee, place, ty, operand) {
            return Some(place);
        }
    }
    if args.len() < callee.count() {
        Some(args.len())
    } else {
        None
    }
}

/// Whether `printf` prints values of a type.
fn is_printable(ty: &Ty) -> bool
    ensures { result ≡ is_printable ty.now }
{
    is_int(ty, 32) || is_int(ty, 64) || is_pointer(ty)
}

/// The number of the first of `printf`'s arguments after the format, which are counted from 1 on, that doesn't fit or that it
/// doesn't print.
fn printed_misfit(body: &FuncTypes<'_, '_>, args: &[(Ty, Operand)]) -> Option<usize>
    ensures { result ≡ first_misfit (λ b. is_printable b.0 && fits_in body.now b) 1 args.now }
{
    for (place, (ty, operand)) in args.iter().enumerate() {
        if !(is_printable(ty) && operand_fits(body, ValueType::Written(ty), operand)) {
            return Some(place + 1);
        }
    }
    None
}

/// The argument of a `printf` at fault: the first is a pointer, and the others are words and pointers.
fn printf_fault(body: &FuncTypes<'_, '_>, args: &[(Ty, Operand)]) -> Option<usize>
    ensures { result ≡ printf_fault (fits_in body.now) args.now }
{
    match args {
        [] => Some(0),
        [(ty, operand), rest @ ..] => {
            if is_pointer(ty) && operand_fits(body, ValueType::Written(ty), operand) {
                printed_misfit(body, rest)
            } else {
                Some(0)
            }
        }
    }
}

/// The argument of a call at fault, where the function is known.
fn arguments_fault(
    body: &FuncTypes<'_, '_>,
    name: &Name,
    callee: &Callee<'_>,
    args: &[(Ty, Operand)],
) -> Option<usize>
    ensures { result ≡ if is_printf (module_of body.now) name.now then printf_fault (fits_in body.now) args.now
        else argument_fault (fits_call (module_of body.now) (fits_in body.now) name.now) 0 (callee_signature callee.now).params args.now }
{
    if body.symbols.is_printf(name) {
        printf_fault(body, args)
    } else {
        argument_fault(body, name, callee, args)
    }
}

/// The argument of a call at fault; 0 where a global variable is called, or the result has another type.
pub fn call_fault(
    body: &FuncTypes<'_, '_>,
    op: &Op,
    ret: &Option<Ty>,
    name: &Name,
    args: &[(Ty, Operand)],
) -> Option<usize>
    requires { op.now ≡ operation.Call ret.now name.now args.now }
    ensures { result ≡ call_fault (module_of body.now) (fits_in body.now) (signature_of (module_of body.now) name.now) ret.now name.now args.now }
{
    match body.symbols.callee(name) {
        None => first_misfit(body, op).or(Some(0)),
        Some(callee) => {
            let answers = ret == callee.result();
            arguments_fault(body, name, &callee, args).or(fault_unless(answers))
        }
    }
}
