//! Whole histories of a table of allocations, against numbers worked out by hand from the layout of memory.

use crate::rows::{fails, is};
use ms_alloc::{AllocError, AllocKind, BadFree, Table};
use std::alloc::Global;
use std::test::Fail;

/// Where the areas of allocations begin: of globals, of the heap, of the stack.
const FIXED: u64 = 0x7000_0000_0000;

const HEAP: u64 = 0x7100_0000_0000;

const STACK: u64 = 0x7200_0000_0000;

/// A call of the table, and its answer.
enum Step {
    /// An allocation of so many bytes, and its base.
    Makes(AllocKind, u64, u64),
    /// An allocation of so many bytes for which its area has no room.
    Refuses(AllocKind, u64),
    /// Whether so many bytes would fit.
    Fits(AllocKind, u64, bool),
    /// An address, a number of bytes, and whether the access is good.
    Covers(u64, u64, bool),
    /// The block at an address, by its base and size.
    Block(u64, u64, u64),
    /// An address that no live allocation has.
    NoBlock(u64),
    /// The size of the heap block that begins there.
    HeapSize(u64, u64),
    /// An address at which no live heap block begins.
    NoHeapBlock(u64),
    /// The end of a heap block, and its size.
    Ends(u64, u64),
    /// An address at which no heap block can be ended.
    BadEnd(u64),
    /// Where the next allocation of the stack begins.
    Mark(u64),
    /// The end of the stack's allocations from an address on.
    Release(u64),
}

use AllocKind::{Fixed, Heap, Stack};
use Step::{
    BadEnd, Block, Covers, Ends, Fits, HeapSize, Makes, Mark, NoBlock, NoHeapBlock, Refuses,
    Release,
};

/// Each area is laid out.
static LAYOUT: [Step; 31] = [
    Mark(STACK),
    Makes(Fixed, 5, FIXED),
    Makes(Heap, 17, HEAP),
    Makes(Fixed, 16, FIXED + 0x10),
    Makes(Heap, 0, HEAP + 0x20),
    Makes(Heap, 1, HEAP + 0x30),
    Makes(Stack, 33, STACK),
    Makes(Stack, 8, STACK + 0x30),
    Mark(STACK + 0x40),
    Covers(HEAP, 17, true),
    Covers(HEAP, 18, false),
    Covers(HEAP + 16, 1, true),
    Covers(HEAP + 17, 1, false),
    Covers(HEAP + 17, 0, true),
    Covers(HEAP + 0x20, 1, false),
    Covers(HEAP - 1, 1, false),
    Covers(FIXED, 21, false),
    Covers(FIXED + 0x10, 16, true),
    Covers(STACK + 0x37, 1, true),
    Covers(STACK + 0x37, 2, false),
    Covers(0, 0, true),
    Covers(u64::MAX, 1, false),
    Covers(u64::MAX, 0, true),
    Covers(HEAP, u64::MAX, false),
    Block(HEAP + 16, HEAP, 17),
    Block(STACK + 0x20, STACK, 33),
    NoBlock(HEAP + 17),
    NoBlock(HEAP + 0x20),
    HeapSize(HEAP + 0x20, 0),
    NoHeapBlock(HEAP + 0x10),
    NoHeapBlock(STACK),
];

/// Limits are kept.
static LIMITS: [Step; 19] = [
    Fits(Fixed, 16777216, true),
    Fits(Fixed, 16777217, false),
    Refuses(Fixed, 16777217),
    Refuses(Fixed, u64::MAX),
    Makes(Fixed, 16777216, FIXED),
    Fits(Fixed, 0, false),
    Refuses(Fixed, 1),
    Fits(Heap, 67108864, true),
    Refuses(Heap, 67108865),
    Refuses(Heap, u64::MAX),
    Makes(Heap, 67108864, HEAP),
    Fits(Heap, 0, false),
    Refuses(Heap, 1),
    Fits(Stack, 1048576, true),
    Refuses(Stack, 1048577),
    Refuses(Stack, u64::MAX),
    Makes(Stack, 1048576, STACK),
    Fits(Stack, 0, false),
    Refuses(Stack, 1),
];

/// Allocations end.
/// A heap's address is never used again, and the stack's are.
static ENDS: [Step; 22] = [
    Makes(Heap, 10, HEAP),
    Makes(Heap, 20, HEAP + 0x10),
    BadEnd(HEAP + 1),
    Ends(HEAP, 10),
    BadEnd(HEAP),
    BadEnd(0),
    Covers(HEAP, 1, false),
    Covers(HEAP + 0x10, 20, true),
    NoHeapBlock(HEAP),
    Makes(Heap, 1, HEAP + 0x30),
    Makes(Stack, 4, STACK),
    Mark(STACK + 0x10),
    Makes(Stack, 4, STACK + 0x10),
    BadEnd(STACK),
    Makes(Stack, 100, STACK + 0x20),
    Covers(STACK + 0x10, 1, true),
    Release(STACK + 0x10),
    Covers(STACK + 0x10, 1, false),
    Covers(STACK, 4, true),
    Mark(STACK + 0x10),
    Makes(Stack, 1, STACK + 0x10),
    Covers(STACK + 0x10, 2, false),
];

/// Whether a question has its answer.
fn is_told<R: Eprint>(rt: &R, table: &Table, step: &Step) -> bool {
    match step {
        Fits(kind, size, want) => is(rt, &table.fits(*kind, *size), want),
        Covers(addr, n, want) => is(rt, &table.covers(*addr, *n), want),
        Block(addr, base, size) => is(rt, &table.block_of(*addr), &Some((*base, *size))),
        NoBlock(addr) => is(rt, &table.block_of(*addr), &None),
        HeapSize(base, size) => is(rt, &table.heap_size(*base), &Some(*size)),
        NoHeapBlock(base) => is(rt, &table.heap_size(*base), &None),
        Mark(want) => is(rt, &table.mark(), want),
        _ => false,
    }
}

/// Whether a call has its answer.
fn agrees<R: Eprint>(rt: &R, table: &mut Table, step: &Step) -> bool {
    match step {
        Makes(kind, size, base) => is(rt, &table.make(*kind, *size), &Ok(*base)),
        Refuses(kind, size) => is(rt, &table.make(*kind, *size), &Err(AllocError::Full)),
        Ends(base, size) => is(rt, &table.end(*base), &Ok(*size)),
        BadEnd(base) => is(rt, &table.end(*base), &Err(BadFree)),
        Release(mark) => {
            table.release(*mark);
            true
        }
        _ => is_told(rt, table, step),
    }
}

/// Whether each call has its answer; prints the number of the first that hasn't.
fn all_agree<R: Eprint>(rt: &R, table: &mut Table, steps: &[Step]) -> bool {
    for (number, step) in steps.iter().enumerate() {
        if !agrees(rt, table, step) {
            return fails(rt, number);
        }
    }
    true
}

/// Whether a history holds of a new table.
fn is_so<R: Eprint>(rt: &R, alloc: Global, steps: &[Step]) -> bool {
    let mut table = Table::new(alloc);
    all_agree(rt, &mut table, steps)
}

#[test]
fn allocations_are_made_and_ended(rt: HostRuntime) -> Result<(), Fail> {
    assert!(rt;
        is_so(&rt, rt.alloc(), &LAYOUT)
            && is_so(&rt, rt.alloc(), &LIMITS)
            && is_so(&rt, rt.alloc(), &ENDS)
    );
    Ok(())
}
