//! The parts of a format that stands in memory, read one by one. `left` is how many bytes of the format stand from `addr` on.
ghost use Rattle.std.specs.Prelude.{◌≡◌, ◌≤◌, ◌<◌};
ghost use Rattle.ms_bits.specs.Maps.{bytes_at};
ghost use Rattle.ms_runs.specs.{World.{World as Meant}, Formats.{plain_bytes}};
ghost use Rattle.ms_host.specs.{State.{Beside}, Shows.{Shows}};
ghost use Rattle.ms_printf.specs.Walks.{IsRest, BeginsWith, FitsRest};

use crate::directives::{long, short};
use ms_host::World;
use ms_runs::Piece;

/// A part of a format that stands in memory.
#[derive(Drop)]
pub(crate) enum FormatPart {
    /// Bytes that are printed as they stand: so many from an address on.
    Plain { addr: u64, len: u64 },
    /// A directive that takes an argument.
    Directive(Piece),
}

/// How many of the bytes that are left stand before the first `%`.
fn plain_length(world: &World, addr: u64, left: u64) -> u64
    requires { IsRest world.now.planes.table addr left }
    ensures value { (beside : Beside) (meant : Meant) → Shows world.now beside meant → result ≡ plain_bytes (bytes_at meant.bytes addr left) }
    ensures within { result ≤ left }
{
    for n in 0..left {
        if world.byte(addr + n) == b'%' {
            return n;
        }
    }
    left
}

/// The part with which a rest of a format begins whose first byte is `%`, and its length; none where no directive stands
/// there.
fn directive_at(world: &World, addr: u64, left: u64) -> Option<(FormatPart, u64)>
    requires some { 0 < left }
    requires rest { IsRest world.now.planes.table addr left }
    ensures value { (beside : Beside) (meant : Meant) → Shows world.now beside meant → meant.bytes addr ≡ 37 → BeginsWith meant addr left result }
    ensures fits { FitsRest world.now.planes.table left result }
{
    if left == 1 {
        return None;
    }
    let letter = world.byte(addr + 1);
    if letter == b'%' {
        let addr = addr + 1;
        return Some((FormatPart::Plain { addr, len: 1 }, 2));
    }
    if letter != b'l' {
        return match short(letter) {
            Some(piece) => Some((FormatPart::Directive(piece), 2)),
            None => None,
        };
    }
    if left == 2 {
        return None;
    }
    match long(world.byte(addr + 2)) {
        Some(piece) => Some((FormatPart::Directive(piece), 3)),
        None => None,
    }
}

/// The part with which a rest of a format begins, and its length; none where the format is bad there.
pub(crate) fn part_at(world: &World, addr: u64, left: u64) -> Option<(FormatPart, u64)>
    requires some { 0 < left }
    requires rest { IsRest world.now.planes.table addr left }
    ensures value { (beside : Beside) (meant : Meant) → Shows world.now beside meant → BeginsWith meant addr left result }
    ensures fits { FitsRest world.now.planes.table left result }
{
    if world.byte(addr) == b'%' {
        return directive_at(world, addr, left);
    }
    let len = 1 + plain_length(world, addr + 1, left - 1);
    Some((FormatPart::Plain { addr, len }, len))
}
