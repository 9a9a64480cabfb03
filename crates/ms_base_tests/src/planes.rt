//! Whole histories of the planes, against values worked out by hand.

use crate::rows::{fails, is};
use ms_alloc::{AllocError, AllocKind, BadFree};
use ms_planes::Planes;
use std::alloc::Global;
use std::test::Fail;

/// Where the areas of allocations begin: of globals, of the heap, of the stack.
const FIXED: u64 = 0x7000_0000_0000;

const HEAP: u64 = 0x7100_0000_0000;

const STACK: u64 = 0x7200_0000_0000;

/// A call of the planes, and its answer. An address, where there is one, comes first, and a number of bytes after it.
enum Step {
    /// An allocation of so many bytes, and its base.
    Makes(AllocKind, u64, u64),
    /// An allocation of so many bytes for which its area has no room.
    Refuses(AllocKind, u64),
    /// Whether a range is good.
    Covers(u64, u64, bool),
    /// The base and the size of a block at its base.
    Block(u64, u64),
    /// The end of a heap block, and its size.
    Ends(u64, u64),
    /// An address at which no heap block can be ended.
    BadEnd(u64),
    /// The end of the stack's allocations from an address on, where the next begins.
    Release(u64, u64),
    /// The number that the bytes are.
    Bytes(u64, u8, u64),
    /// The number that the bytes of shadow are.
    Shadow(u64, u8, u64),
    /// The origin of the cell of an address.
    Origin(u64, u32),
    /// How far the first poisoned byte stands.
    Poisoned(u64, u64, u64),
    /// A range without a poisoned byte.
    Clean(u64, u64),
    /// The bytes become this number.
    Store(u64, u8, u64),
    /// The bytes of shadow become this number.
    StoreShadow(u64, u8, u64),
    /// The cell of an address becomes this.
    SetOrigin(u64, u32),
    /// Each byte of shadow becomes this mask, and, where it isn't 0, each cell this origin.
    Poison(u64, u64, u8, u32),
    /// Each byte of shadow becomes 0.
    Unpoison(u64, u64),
    /// Bytes copied to the first address from the second.
    CopyBytes(u64, u64, u64),
    /// Shadow and origins copied to the first address from the second.
    CopyShadow(u64, u64, u64),
}

use AllocKind::{Fixed, Heap, Stack};
use Step::{
    BadEnd, Block, Bytes, Clean, CopyBytes, CopyShadow, Covers, Ends, Makes, Origin, Poison,
    Poisoned, Refuses, Release, SetOrigin, Shadow, Store, StoreShadow, Unpoison,
};

/// Shadow and cells are copied.
/// Cells are of four bytes.
static SHADOW: [Step; 32] = [
    Makes(Heap, 8, HEAP),
    Shadow(HEAP, 8, 0),
    Origin(HEAP, 0),
    Origin(HEAP + 4, 0),
    StoreShadow(HEAP + 3, 1, 0xff),
    SetOrigin(HEAP, 5),
    SetOrigin(HEAP + 4, 6),
    Shadow(HEAP, 8, 0xff00_0000),
    Origin(HEAP, 5),
    Origin(HEAP + 3, 5),
    Origin(HEAP + 4, 6),
    CopyShadow(HEAP + 1, HEAP, 7),
    Shadow(HEAP, 8, 0xff_0000_0000),
    Origin(HEAP, 5),
    Origin(HEAP + 4, 5),
    Poisoned(HEAP, 7, 4),
    Clean(HEAP, 4),
    Poisoned(HEAP + 4, 1, 0),
    Clean(HEAP + 4, 0),
    Unpoison(HEAP, 8),
    Shadow(HEAP, 8, 0),
    Origin(HEAP + 4, 5),
    Poison(HEAP, 7, 0, 9),
    Shadow(HEAP, 8, 0),
    Origin(HEAP, 5),
    Poison(HEAP, 4, 0x81, 9),
    Shadow(HEAP, 8, 0x8181_8181),
    Origin(HEAP, 9),
    Origin(HEAP + 4, 5),
    Poison(HEAP + 3, 2, 1, 7),
    Shadow(HEAP, 8, 0x01_0181_8181),
    Origin(HEAP + 4, 7),
];

/// Bytes are copied both ways.
static COPIES_UP: [Step; 5] = [
    Makes(Fixed, 8, FIXED),
    Store(FIXED, 8, 0x0807_0605_0403_0201),
    CopyBytes(FIXED + 1, FIXED, 7),
    Bytes(FIXED, 8, 0x0706_0504_0302_0101),
    Bytes(FIXED + 6, 0, 0),
];

/// Bytes are copied both ways.
static COPIES_DOWN: [Step; 4] = [
    Makes(Fixed, 8, FIXED),
    Store(FIXED, 8, 0x0807_0605_0403_0201),
    CopyBytes(FIXED, FIXED + 1, 7),
    Bytes(FIXED, 8, 0x0808_0706_0504_0302),
];

/// Bytes are copied onto themselves.
static COPIES_IN_PLACE: [Step; 4] = [
    Makes(Fixed, 8, FIXED),
    Store(FIXED, 8, 0x0807_0605_0403_0201),
    CopyBytes(FIXED, FIXED, 7),
    Bytes(FIXED, 8, 0x0807_0605_0403_0201),
];

/// Bytes are copied between areas.
static COPIES_BETWEEN_AREAS: [Step; 7] = [
    Makes(Heap, 3, HEAP),
    Makes(Stack, 3, STACK),
    Store(HEAP, 3, 0xcc_bbaa),
    CopyBytes(STACK, HEAP, 3),
    Bytes(STACK, 3, 0xcc_bbaa),
    Bytes(STACK + 1, 2, 0xccbb),
    Shadow(STACK, 3, 0),
];

/// Allocations come and go.
static ALLOCATIONS: [Step; 14] = [
    Makes(Heap, 16, HEAP),
    Block(HEAP, 16),
    Ends(HEAP, 16),
    BadEnd(HEAP),
    Covers(HEAP, 1, false),
    Refuses(Stack, 1 << 21),
    Makes(Stack, 4, STACK),
    Poison(STACK, 4, 0xff, 3),
    Poisoned(STACK, 4, 0),
    Release(STACK, STACK),
    Covers(STACK, 1, false),
    Makes(Stack, 4, STACK),
    Shadow(STACK, 4, 0),
    Origin(STACK, 0),
];

/// Whether a question about allocations has its answer.
fn is_told<R: Eprint>(rt: &R, planes: &Planes, step: &Step) -> bool {
    match step {
        Covers(addr, n, want) => is(rt, &planes.covers(*addr, *n), want),
        Block(base, size) => {
            is(rt, &planes.heap_size(*base), &Some(*size))
                && is(rt, &planes.block_of(*base), &Some((*base, *size)))
        }
        _ => false,
    }
}

/// Whether a question about a range has its answer.
fn is_shown<R: Eprint>(rt: &R, planes: &Planes, step: &Step) -> bool {
    match step {
        Bytes(addr, n, want) => {
            *n <= 8 && planes.covers(*addr, *n as u64) && is(rt, &planes.load(*addr, *n), want)
        }
        Shadow(addr, n, want) => {
            *n <= 8
                && planes.covers(*addr, *n as u64)
                && is(rt, &planes.load_shadow(*addr, *n), want)
        }
        Origin(addr, want) => planes.covers(*addr, 1) && is(rt, &planes.origin_at(*addr), want),
        Poisoned(addr, n, want) => {
            planes.covers(*addr, *n) && is(rt, &planes.first_poisoned(*addr, *n), &Some(*want))
        }
        Clean(addr, n) => planes.covers(*addr, *n)
            && is(rt, &planes.first_poisoned(*addr, *n), &None),
        _ => is_told(rt, planes, step),
    }
}

/// Stores bytes, where the range is good; or false. So do the next ones.
fn stores(planes: &mut Planes, addr: u64, n: u8, value: u64) -> bool {
    if n > 8 || !planes.covers(addr, n as u64) {
        return false;
    }
    planes.store(addr, n, value);
    true
}

fn stores_shadow(planes: &mut Planes, addr: u64, n: u8, value: u64) -> bool {
    if n > 8 || !planes.covers(addr, n as u64) {
        return false;
    }
    planes.store_shadow(addr, n, value);
    true
}

fn sets_origin(planes: &mut Planes, addr: u64, origin: u32) -> bool {
    if !planes.covers(addr, 1) {
        return false;
    }
    planes.set_origin_at(addr, origin);
    true
}

fn poisons(planes: &mut Planes, addr: u64, n: u64, mask: u8, origin: u32) -> bool {
    if !planes.covers(addr, n) {
        return false;
    }
    planes.poison(addr, n, mask, origin);
    true
}

fn unpoisons(planes: &mut Planes, addr: u64, n: u64) -> bool {
    if !planes.covers(addr, n) {
        return false;
    }
    planes.unpoison(addr, n);
    true
}

fn copies_bytes(planes: &mut Planes, to: u64, from: u64, n: u64) -> bool {
    planes.covers(to, n) && planes.covers(from, n) && planes.copy_bytes(to, from, n).is_ok()
}

fn copies_shadow(planes: &mut Planes, to: u64, from: u64, n: u64) -> bool {
    planes.covers(to, n) && planes.covers(from, n) && planes.copy_shadow(to, from, n).is_ok()
}

/// Whether the stack's allocations from an address on end, and the next begins there.
fn releases<R: Eprint>(rt: &R, planes: &mut Planes, mark: u64, next: u64) -> bool {
    planes.release(mark);
    is(rt, &planes.mark(), &next)
}

/// Whether a call that changes a range can be made.
fn is_done<R: Eprint>(rt: &R, planes: &mut Planes, step: &Step) -> bool {
    match step {
        Store(addr, n, value) => stores(planes, *addr, *n, *value),
        StoreShadow(addr, n, value) => stores_shadow(planes, *addr, *n, *value),
        SetOrigin(addr, origin) => sets_origin(planes, *addr, *origin),
        Poison(addr, n, mask, origin) => poisons(planes, *addr, *n, *mask, *origin),
        Unpoison(addr, n) => unpoisons(planes, *addr, *n),
        CopyBytes(to, from, n) => copies_bytes(planes, *to, *from, *n),
        CopyShadow(to, from, n) => copies_shadow(planes, *to, *from, *n),
        _ => is_shown(rt, planes, step),
    }
}

/// Whether a call has its answer.
fn agrees<R: Eprint>(rt: &R, planes: &mut Planes, step: &Step) -> bool {
    match step {
        Makes(kind, size, base) => is(rt, &planes.make(*kind, *size), &Ok(*base)),
        Refuses(kind, size) => is(rt, &planes.make(*kind, *size), &Err(AllocError::Full)),
        Ends(base, size) => is(rt, &planes.end(*base), &Ok(*size)),
        BadEnd(base) => is(rt, &planes.end(*base), &Err(BadFree)),
        Release(mark, next) => releases(rt, planes, *mark, *next),
        _ => is_done(rt, planes, step),
    }
}

fn all_agree<R: Eprint>(rt: &R, planes: &mut Planes, steps: &[Step]) -> bool {
    for (number, step) in steps.iter().enumerate() {
        if !agrees(rt, planes, step) {
            return fails(rt, number);
        }
    }
    true
}

/// Whether a history holds of new planes.
fn is_so<R: Eprint>(rt: &R, alloc: Global, steps: &[Step]) -> bool {
    let mut planes = Planes::new(alloc);
    all_agree(rt, &mut planes, steps)
}

#[test]
fn planes_follow_their_histories(rt: HostRuntime) -> Result<(), Fail> {
    assert!(rt;
        is_so(&rt, rt.alloc(), &SHADOW)
            && is_so(&rt, rt.alloc(), &COPIES_UP)
            && is_so(&rt, rt.alloc(), &COPIES_DOWN)
            && is_so(&rt, rt.alloc(), &COPIES_IN_PLACE)
            && is_so(&rt, rt.alloc(), &COPIES_BETWEEN_AREAS)
            && is_so(&rt, rt.alloc(), &ALLOCATIONS)
    );
    Ok(())
}
