//! Which arguments a format asks for as strings: their bytes are used by `printf`, and so checked.
ghost use Rattle.std.specs.Prelude.{◌≡◌, ◌<◌, ◌-◌};
ghost use Rattle.ms_bits.specs.Maps.{bytes_at};
ghost use Rattle.ms_runs.specs.{World.{World as Meant}, Formats.{asks_string as asks}, Origins.{asks_string_at}};
ghost use Rattle.ms_host.specs.{State.{Beside}, Shows.{Shows}};
ghost use Rattle.ms_printf.specs.Walks.{IsRest, asks_for_string, arguments_taken};

use crate::parts::{FormatPart, part_at};
use ms_host::World;
use ms_runs::Piece;

/// Whether a part is `%s`.
fn is_string(part: &FormatPart) -> bool
    ensures { result ≡ asks_for_string part.now }
{
    match part {
        FormatPart::Directive(Piece::Str) => true,
        _ => false,
    }
}

/// Directive `number`, counted from 1 with this part, as a number after the part; 0 where the part is that directive itself.
fn number_after(part: &FormatPart, number: u64) -> u64
    requires { 0 < number }
    ensures { result ≡ number - arguments_taken part.now }
{
    match part {
        FormatPart::Plain { .. } => number,
        FormatPart::Directive(_) => number - 1,
    }
}

/// Whether directive `index`, counted from 1, of the `length` bytes of a format at an address is `%s`.
fn asks_within(world: &World, format: u64, length: u64, index: u64) -> bool
    requires rest { IsRest world.now.planes.table format length }
    requires number { 0 < index }
    ensures { (beside : Beside) (meant : Meant) → Shows world.now beside meant → result ≡ asks (bytes_at meant.bytes format length) index }
{
    let mut addr = format;
    let mut left = length;
    let mut number = index;
    'parts: while left > 0 {
        let Some((part, len)) = part_at(world, addr, left) else {
            return false;
        };
        number = number_after(&part, number);
        if number == 0 {
            return is_string(&part);
        }
        addr += len;
        left -= len;
    }
    false
}

/// Whether the format at an address asks for argument `index` as a string; the format itself is argument 0.
/// False where the format doesn't end within its allocation. Takes no memory; linear in the format.
pub fn asks_string(world: &World, format: u64, index: u64) -> bool
    ensures { (beside : Beside) (meant : Meant) → Shows world.now beside meant → result ≡ asks_string_at meant format index }
{
    if index == 0 {
        return false;
    }
    match world.string_length(format) {
        Some(length) => asks_within(world, format, length, index),
        None => false,
    }
}
