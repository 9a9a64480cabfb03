//! The masks of words that a traced run loads, and the byte that they come from.
ghost use Rattle.std.specs.Prelude.{◌≡◌, ◌≢◌, ◌≤◌, true, bit_and};
ghost use Rattle.ms_bits.specs.Maps.{first_nonzero, number_at};
ghost use Rattle.ms_runs.specs.{World.{World as Meant}, Memory.{is_good}};
ghost use Rattle.ms_host.specs.{State.{Beside}, Shows.{Shows}};
ghost use Rattle.ms_trail_moves.specs.Sources.{byte_source};
ghost use Rattle.ms_trail_uses.specs.Used.{byte_used};

use crate::used::{Used, range};
use ms_host::World;
use ms_trail_moves::moves::Source;

/// The mask of `size` good bytes that are loaded as a number, of which the bits of `cut` are kept.
pub fn loaded_mask(world: &World, addr: u64, size: u8, cut: u64) -> u64
    requires { size ≤ 8 }
    ensures { (beside : Beside) (meant : Meant) → Shows world.now beside meant → is_good meant addr size ≡ true → result ≡ bit_and (number_at meant.shadow addr size) cut }
{
    match world.load_shadow(addr, size) {
        Some(shadow) => shadow & cut,
        None => 0,
    }
}

/// A byte that was found, as a source; root 0, which is no root, where none was.
fn source_of_byte(used: Option<Used>) -> Source
    ensures { result ≡ byte_used used }
{
    match used {
        Some(Used::Byte(addr)) => Source::Byte { addr },
        _ => Source::Root { number: 0 },
    }
}

/// The first poisoned one of `n` good bytes, as a source, where the mask that is loaded isn't 0. Elsewhere no byte is looked at.
pub fn loaded_source(world: &World, addr: u64, n: u64, mask: u64) -> Source
    ensures { (beside : Beside) (meant : Meant) → Shows world.now beside meant → is_good meant addr n ≡ true → mask ≢ 0 → result ≡ byte_source (first_nonzero meant.shadow addr n) }
{
    if mask == 0 {
        return Source::Root { number: 0 };
    }
    let found = range(world, addr, n);
    source_of_byte(found)
}
