//! Whole histories of a block, against values worked out by hand, and all copies in a small one against copies over
//! arrays.

use crate::rows::{fails, is};
use ms_raw::Block;
use std::alloc::Global;
use std::test::Fail;

/// A call of a block, and its answer. A place, where there is one, comes first.
#[derive(Clone, Copy)]
enum Step {
    /// The number of bytes.
    Len(u64),
    /// The byte at a place.
    Byte(u64, u8),
    /// The shadow byte at a place.
    Shadow(u64, u8),
    /// The origin of a cell.
    Origin(u64, u32),
    /// The byte at a place becomes this.
    SetByte(u64, u8),
    /// The shadow byte at a place becomes this.
    SetShadow(u64, u8),
    /// The origin of a cell becomes this.
    SetOrigin(u64, u32),
    /// Bytes copied to the first place from the second.
    CopyBytes(u64, u64, u64),
    /// Shadow and origins copied to the first place from the second.
    CopyShadow(u64, u64, u64),
}

use Step::{Byte, CopyBytes, CopyShadow, Len, Origin, SetByte, SetOrigin, SetShadow, Shadow};

/// Shadow and cells of a block are copied.
/// In a block of 8.
static COPIED_SHADOW: [Step; 22] = [
    Len(8),
    Byte(7, 0),
    Shadow(7, 0),
    Origin(1, 0),
    SetShadow(3, 255),
    SetOrigin(0, 5),
    SetOrigin(1, 6),
    CopyShadow(1, 0, 7),
    Shadow(0, 0),
    Shadow(1, 0),
    Shadow(2, 0),
    Shadow(3, 0),
    Shadow(4, 255),
    Shadow(5, 0),
    Shadow(6, 0),
    Shadow(7, 0),
    Origin(0, 5),
    Origin(1, 5),
    CopyShadow(0, 8, 0),
    CopyShadow(8, 0, 0),
    Shadow(4, 255),
    Byte(4, 0),
];

/// Bytes of a block are copied.
/// In a block of 5, whose second cell has one byte.
static COPIED_BYTES: [Step; 14] = [
    SetByte(0, 1),
    SetByte(1, 2),
    SetByte(4, 5),
    CopyBytes(0, 5, 0),
    CopyBytes(1, 0, 4),
    Byte(0, 1),
    Byte(1, 1),
    Byte(2, 2),
    Byte(4, 0),
    CopyBytes(0, 1, 4),
    Byte(1, 2),
    SetOrigin(1, 4294967295),
    Origin(1, 4294967295),
    Shadow(4, 0),
];

/// A block may have no bytes.
static NO_BYTES: [Step; 4] = [Len(0), CopyBytes(0, 0, 0), CopyShadow(0, 0, 0), Len(0)];

/// The bytes of a block of 5, its shadow and its origins, before a copy.
static BYTES: [u8; 5] = [11, 12, 13, 14, 15];

static SHADOW: [u8; 5] = [0, 22, 0, 24, 25];

static ORIGINS: [u32; 2] = [31, 32];

/// Whether a question has its answer.
fn is_shown<R: Eprint>(rt: &R, block: &Block, step: &Step) -> bool {
    match step {
        Len(want) => is(rt, &block.len(), want),
        Byte(i, want) => *i < block.len() && is(rt, &block.byte(*i), want),
        Shadow(i, want) => *i < block.len() && is(rt, &block.shadow(*i), want),
        Origin(i, want) => *i < 8 && *i * 4 < block.len() && is(rt, &block.origin(*i), want),
        _ => false,
    }
}

/// Copies bytes within a block, where both ranges lie in it; or false.
fn copies(block: &mut Block, to: u64, from: u64, n: u64) -> bool {
    let len = block.len();
    if n > len || to > len - n || from > len - n {
        return false;
    }
    block.copy_within(to, from, n);
    true
}

/// Copies shadow and origins within a block, where both ranges lie in it; or false.
fn copies_shadow(block: &mut Block, to: u64, from: u64, n: u64) -> bool {
    let len = block.len();
    if n > len || to > len - n || from > len - n {
        return false;
    }
    block.copy_shadow_within(to, from, n);
    true
}

/// Sets the origin of a cell, where the block has it; or false.
fn sets_origin(block: &mut Block, cell: u64, origin: u32) -> bool {
    if cell >= 8 || cell * 4 >= block.len() {
        return false;
    }
    block.set_origin(cell, origin);
    true
}

/// Sets a byte or a shadow byte, where the block has it; or false.
fn sets(block: &mut Block, i: u64, byte: Option<u8>, shadow: Option<u8>) -> bool {
    if i >= block.len() {
        return false;
    }
    if let Some(byte) = byte {
        block.set_byte(i, byte);
    } else if let Some(shadow) = shadow {
        block.set_shadow(i, shadow);
    }
    true
}

/// Whether a call has its answer.
fn agrees<R: Eprint>(rt: &R, block: &mut Block, step: &Step) -> bool {
    match step {
        SetByte(i, byte) => sets(block, *i, Some(*byte), None),
        SetShadow(i, shadow) => sets(block, *i, None, Some(*shadow)),
        SetOrigin(cell, origin) => sets_origin(block, *cell, *origin),
        CopyBytes(to, from, n) => copies(block, *to, *from, *n),
        CopyShadow(to, from, n) => copies_shadow(block, *to, *from, *n),
        _ => is_shown(rt, block, step),
    }
}

/// Whether each call has its answer; prints the number of the first that hasn't.
fn all_agree<R: Eprint>(rt: &R, block: &mut Block, steps: &[Step]) -> bool {
    for (number, step) in steps.iter().enumerate() {
        if !agrees(rt, block, step) {
            return fails(rt, number);
        }
    }
    true
}

/// Whether a history holds of a new block of so many bytes.
fn is_so<R: Eprint>(rt: &R, alloc: Global, len: u64, steps: &[Step]) -> bool {
    if len > 8 {
        return false;
    }
    match Block::new(alloc, len) {
        Ok(mut block) => all_agree(rt, &mut block, steps),
        Err(_) => false,
    }
}

/// Whether a block took these bytes, shadow bytes and origins.
fn is_filled(block: &mut Block) -> bool {
    let mut good = true;
    for i in 0..5usize {
        good = good
            && sets(block, i as u64, Some(BYTES[i]), None)
            && sets(block, i as u64, None, Some(SHADOW[i]));
    }
    good && sets_origin(block, 0, ORIGINS[0]) && sets_origin(block, 1, ORIGINS[1])
}

/// Whether a block holds these bytes, shadow bytes and origins.
fn holds<R: Eprint>(
    rt: &R,
    block: &Block,
    bytes: &[u8; 5],
    shadow: &[u8; 5],
    origins: &[u32; 2],
) -> bool {
    let mut good = is_shown(rt, block, &Origin(0, origins[0]))
        && is_shown(rt, block, &Origin(1, origins[1]));
    for i in 0..5usize {
        good = good
            && is_shown(rt, block, &Byte(i as u64, bytes[i]))
            && is_shown(rt, block, &Shadow(i as u64, shadow[i]));
    }
    good
}

/// Whether a copy in the block is the copy over arrays, byte by byte out of what stood there before.
fn is_copied<R: Eprint>(rt: &R, block: &mut Block, to: usize, from: usize, n: usize) -> bool {
    if n > 5 || to > 5 - n || from > 5 - n {
        return true;
    }
    let mut bytes = BYTES;
    let mut shadow = SHADOW;
    let mut origins = ORIGINS;
    for k in 0..n {
        bytes[to + k] = BYTES[from + k];
        shadow[to + k] = SHADOW[from + k];
        if SHADOW[from + k] != 0 {
            origins[(to + k) / 4] = ORIGINS[(from + k) / 4];
        }
    }
    is_filled(block)
        && copies(block, to as u64, from as u64, n as u64)
        && copies_shadow(block, to as u64, from as u64, n as u64)
        && holds(rt, block, &bytes, &shadow, &origins)
}

/// Whether all copies in a block of 5 are as those over arrays: 216 numbers, of which each has a place, a place and a
/// number of bytes below 6.
fn all_copied<R: Eprint>(rt: &R, alloc: Global) -> bool {
    let Ok(mut block) = Block::new(alloc, 5) else {
        return false;
    };
    for row in 0..216usize {
        if !is_copied(rt, &mut block, row / 36, row / 6 % 6, row % 6) {
            return fails(rt, row);
        }
    }
    true
}

#[test]
fn blocks_are_copied(rt: HostRuntime) -> Result<(), Fail> {
    assert!(rt;
        is_so(&rt, rt.alloc(), 8, &COPIED_SHADOW)
            && is_so(&rt, rt.alloc(), 5, &COPIED_BYTES)
            && is_so(&rt, rt.alloc(), 0, &NO_BYTES)
            && all_copied(&rt, rt.alloc())
    );
    Ok(())
}
