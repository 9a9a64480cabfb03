//! Copies in a block, and from one block to another.
ghost use Rattle.std.specs.Prelude.{IfSome, ◌≡◌, ◌≤◌, ◌<◌, ◌+◌, ◌^◌, length};
ghost use Rattle.ms_raw.specs.Blocks.{IsLists};
ghost use Rattle.ms_planes.specs.Blocks.{IsCopied, IsCopiedInto};

use crate::origins::take_origins;
use crate::parts::{Plane, copy};
use ms_raw::Block;

/// Copies `n` bytes of a block, or shadow bytes with their origins, from place `from` on to place `to` on, as they were
/// before.
pub(crate) fn copy_within(block: &mut Block, part: Plane, to: u64, from: u64, n: u64)
    requires to { to + n ≤ length block.old.bytes }
    requires from { from + n ≤ length block.old.bytes }
    requires whole { IsLists (length block.old.bytes) block.old }
    ensures { IsCopied part block.old block.old block.new to from n }
{
    match part {
        Plane::Bytes => block.copy_within(to, from, n),
        Plane::Shadow => block.copy_shadow_within(to, from, n),
    }
}

/// Copies `n` bytes of another block, or shadow bytes with their origins, from place `from` on to place `to` on.
fn copy_from(block: Block, part: Plane, to: u64, source: &Block, from: u64, n: u64) -> Block
    requires to { to + n ≤ length block.bytes }
    requires from { from + n ≤ length source.now.bytes }
    requires whole { IsLists (length block.bytes) block }
    requires small { (to + n < 2 ^ 40) × (from + n < 2 ^ 40) }
    ensures { IsCopied part block source.now result to from n }
{
    match part {
        Plane::Bytes => copy(block, part, to, source, from, n),
        Plane::Shadow => {
            let marked = take_origins(block, to, source, from, n);
            copy(marked, part, to, source, from, n)
        }
    }
}

/// `copy_from` between blocks that may be missing.
pub(crate) fn copy_into(
    slot: &mut Option<Block>,
    part: Plane,
    to: u64,
    source: &Option<Block>,
    from: u64,
    n: u64,
)
    requires to { IfSome slot.old (λ l. to + n ≤ length l.bytes) }
    requires from { IfSome source.now (λ l. from + n ≤ length l.bytes) }
    requires whole { IfSome slot.old (λ l. IsLists (length l.bytes) l) }
    requires small { (to + n < 2 ^ 40) × (from + n < 2 ^ 40) }
    ensures { IsCopiedInto part slot.old source.now slot.new to from n }
{
    let Some(whole) = source else {
        return;
    };
    match slot.take() {
        Some(block) => *slot = Some(copy_from(block, part, to, whole, from, n)),
        None => {}
    }
}
