//! The origins of one block, one for each cell of four bytes.
ghost use Rattle.std.specs.Prelude.{◌≡◌, ◌≤◌, ◌<◌, ◌+◌, ◌*◌, ◌/◌, ◌^◌, length};
ghost use Rattle.ms_bits.specs.Maps.{with_range, copied_cells};
ghost use Rattle.ms_raw.specs.Blocks.{cells};
ghost use Rattle.ms_planes.specs.Areas.{held};

use crate::parts::{Plane, four_at, is_clean};
use ms_raw::Block;

/// Puts an origin into the `n` cells from `first` on.
pub(crate) fn fill_origins(block: &mut Block, first: u64, n: u64, origin: u32)
    requires within { first + n ≤ cells (length block.old.bytes) }
    requires lists { length block.old.origins ≡ cells (length block.old.bytes) }
    requires small { first + n < 2 ^ 40 }
    ensures shown { held block.new.origins ≡ with_range (held block.old.origins) first n (λ k. origin) }
    ensures len { length block.new.origins ≡ length block.old.origins }
    ensures bytes { block.new.bytes ≡ block.old.bytes }
    ensures shadow { block.new.shadow ≡ block.old.shadow }
{
    for i in 0..n {
        block.set_origin(first + i, origin);
    }
}

/// For each of `n` bytes of another block from place `from` on, in rising order: where its shadow isn't 0, puts the
/// origin of its cell into the cell of the byte as far from place `at`.
fn copy_by_bytes(block: Block, at: u64, source: &Block, from: u64, n: u64) -> Block
    requires within { at + n ≤ length block.bytes }
    requires from { from + n ≤ length source.now.bytes }
    requires lists { length block.origins ≡ cells (length block.bytes) }
    requires small { (at + n < 2 ^ 40) × (from + n < 2 ^ 40) }
    ensures shown { held result.origins ≡ copied_cells (held source.now.shadow) (held source.now.origins) at from n (held block.origins) }
    ensures len { length result.origins ≡ length block.origins }
    ensures bytes { result.bytes ≡ block.bytes }
    ensures shadow { result.shadow ≡ block.shadow }
{
    let mut copied = block;
    for i in 0..n {
        if source.shadow(from + i) != 0 {
            let origin = source.origin((from + i) / 4);
            copied.set_origin((at + i) / 4, origin);
        }
    }
    copied
}

/// The cell of a place. Never inlined: the compiler would take the number of the first cell apart again in each round of
/// `copy_by_cells`.
#[inline(never)]
fn cell_of(place: u64) -> u64
    ensures { result ≡ place / 4 }
{
    place / 4
}

/// `copy_by_bytes` for all bytes of `n` cells, from cell `from` on to cell `at` on. Each cell is written, so that the compiler
/// can copy many at a time.
fn copy_by_cells(block: Block, at: u64, source: &Block, from: u64, n: u64) -> Block
    requires within { at * 4 + n * 4 ≤ length block.bytes }
    requires from { from * 4 + n * 4 ≤ length source.now.bytes }
    requires lists { length block.origins ≡ cells (length block.bytes) }
    requires small { (at + n < 2 ^ 38) × (from + n < 2 ^ 38) }
    ensures shown { held result.origins ≡ copied_cells (held source.now.shadow) (held source.now.origins) (at * 4) (from * 4) (n * 4) (held block.origins) }
    ensures len { length result.origins ≡ length block.origins }
    ensures bytes { result.bytes ≡ block.bytes }
    ensures shadow { result.shadow ≡ block.shadow }
{
    let mut copied = block;
    for i in 0..n {
        let marked = four_at(source, Plane::Shadow, (from + i) * 4) != 0;
        let brought = source.origin(from + i);
        let kept = copied.origin(at + i);
        let origin = if marked { brought } else { kept };
        copied.set_origin(at + i, origin);
    }
    copied
}

/// Does what `copy_by_bytes` does. Where both places stand equally far after the start of a cell, whole cells are copied at
/// once, and only those at the ends byte by byte.
fn copy_origins(block: Block, at: u64, source: &Block, from: u64, n: u64) -> Block
    requires within { at + n ≤ length block.bytes }
    requires from { from + n ≤ length source.now.bytes }
    requires lists { length block.origins ≡ cells (length block.bytes) }
    requires small { (at + n < 2 ^ 40) × (from + n < 2 ^ 40) }
    ensures shown { held result.origins ≡ copied_cells (held source.now.shadow) (held source.now.origins) at from n (held block.origins) }
    ensures len { length result.origins ≡ length block.origins }
    ensures bytes { result.bytes ≡ block.bytes }
    ensures shadow { result.shadow ≡ block.shadow }
{
    if at % 4 != from % 4 {
        return copy_by_bytes(block, at, source, from, n);
    }
    let head = n.min((4 - at % 4) % 4);
    let whole = (n - head) / 4;
    let done = head + whole * 4;
    let begun = copy_by_bytes(block, at, source, from, head);
    let copied = copy_by_cells(
        begun,
        cell_of(at + head),
        source,
        cell_of(from + head),
        whole,
    );
    copy_by_bytes(copied, at + done, source, from + done, n - done)
}

/// `copy_origins`, which returns at once where all of those bytes are clean.
pub(crate) fn take_origins(block: Block, at: u64, source: &Block, from: u64, n: u64) -> Block
    requires within { at + n ≤ length block.bytes }
    requires from { from + n ≤ length source.now.bytes }
    requires lists { length block.origins ≡ cells (length block.bytes) }
    requires small { (at + n < 2 ^ 40) × (from + n < 2 ^ 40) }
    ensures shown { held result.origins ≡ copied_cells (held source.now.shadow) (held source.now.origins) at from n (held block.origins) }
    ensures len { length result.origins ≡ length block.origins }
    ensures bytes { result.bytes ≡ block.bytes }
    ensures shadow { result.shadow ≡ block.shadow }
{
    if is_clean(source, from, n) {
        return block;
    }
    copy_origins(block, at, source, from, n)
}
