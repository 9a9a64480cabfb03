//! What the parts of a format come to with their arguments.
ghost use Rattle.std.specs.Prelude.{◌≡◌, true, option_map, IfOk};
ghost use Rattle.ms_runs.specs.{World.{World as Meant}, Externals.{string_at}};
ghost use Rattle.ms_runs.specs.Formats.{argument_type, takes_argument, piece_text, shown};
ghost use Rattle.ms_runs.specs.declared.formats.Piece.TheVariants as piece;
ghost use Rattle.ms_ir.specs.{Equal.{type_eq}, ValueTypes.{type_of}};
ghost use Rattle.ms_host.specs.{State.{Beside}, Shows.{Shows}};
ghost use Rattle.ms_printf.specs.Walks.{given, shown_of, trap_of, IsReadable};

use crate::arguments::Argument;
use crate::texts::word_text;
use ms_bits::{NoMemory, Trap};
use ms_host::World;
use ms_ir::{Ty, ValueType};
use ms_runs::Piece;
use std::alloc::Global;

/// Why a format prints nothing.
#[derive(Clone, Copy)]
pub(crate) enum FormatFault {
    /// A string doesn't end within its allocation.
    Address,
    /// The format is bad, or an argument is missing or has another type.
    Format,
}

impl FormatFault {
    /// The trap by which the run ends.
    pub fn trap(self) -> Trap
        ensures { result ≡ trap_of self }
    {
        match self {
            FormatFault::Address => Trap::BadAddress,
            FormatFault::Format => Trap::Format,
        }
    }
}

/// What a part of a format comes to.
#[derive(Drop)]
pub(crate) enum Shown {
    /// It prints bytes that stand in memory: so many from an address on.
    Memory { addr: u64, len: u64 },
    /// It prints these bytes.
    Text(Vec<u8>),
    /// Nothing is printed, and the run ends.
    Fault(FormatFault),
}

/// Whether an argument has the type for which a piece asks.
fn has_type_of(piece: &Piece, ty: &ValueType<'_>) -> bool
    ensures { result ≡ type_eq (type_of ty.now) (argument_type piece.now) }
{
    match piece {
        Piece::Str => ty.is_pointer(),
        Piece::Dec64 | Piece::Udec64 | Piece::Hex64 => ty.is(&Ty::Int(64)),
        _ => ty.is(&Ty::Int(32)),
    }
}

/// What `%s` prints of the string at an address.
fn string_shown(world: &World, addr: u64) -> Shown
    ensures value { (beside : Beside) (meant : Meant) → Shows world.now beside meant → piece_text (string_at meant) piece.Str addr ≡ shown_of meant result }
    ensures readable { IsReadable world.now.planes.table result }
{
    match world.string_length(addr) {
        Some(len) => Shown::Memory { addr, len },
        None => Shown::Fault(FormatFault::Address),
    }
}

/// What a directive prints of a word.
fn word_shown(alloc: Global, world: &World, piece: &Piece, word: u64) -> Result<Shown, NoMemory>
    requires { takes_argument piece.now ≡ true }
    ensures value { (beside : Beside) (meant : Meant) → Shows world.now beside meant → IfOk result (λ s. piece_text (string_at meant) piece.now word ≡ shown_of meant s) }
    ensures readable { IfOk result (IsReadable world.now.planes.table) }
{
    match piece {
        Piece::Str => Ok(string_shown(world, word)),
        _ => Ok(Shown::Text(word_text(alloc, piece, word)?)),
    }
}

/// What a directive prints of its argument.
#[tactic(auto, using(crate::proofs::Steps::missing, crate::proofs::Steps::present))]
pub(crate) fn directive_shown(
    alloc: Global,
    world: &World,
    piece: &Piece,
    argument: Option<Argument<'_>>,
) -> Result<Shown, NoMemory>
    requires { takes_argument piece.now ≡ true }
    ensures value { (beside : Beside) (meant : Meant) → Shows world.now beside meant → IfOk result (λ s. shown (string_at meant) (piece.now, option_map given argument.entry) ≡ shown_of meant s) }
    ensures readable { IfOk result (IsReadable world.now.planes.table) }
{
    let Some(argument) = argument else {
        return Ok(Shown::Fault(FormatFault::Format));
    };
    if has_type_of(piece, &argument.ty) {
        word_shown(alloc, world, piece, argument.word)
    } else {
        Ok(Shown::Fault(FormatFault::Format))
    }
}
