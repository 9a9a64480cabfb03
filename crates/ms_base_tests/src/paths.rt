//! Graphs small enough to be answered by hand.

ghost use Rattle.std.specs.Prelude.{◌≡◌, ◌<◌, ◌^◌, length, IsTrue, All};

use crate::rows::{differs, fails};
use ms_bits::{List, NoMemory};
use ms_flow::{Graph, Missing, Use, missing};
use std::alloc::Global;
use std::test::Fail;

/// A graph by its successors and definitions, uses of it, and the answer.
struct Row {
    /// Of each block, those that may come next.
    next: &'static [&'static [u32]],
    /// Of each block, the values that it defines.
    defs: &'static [&'static [u32]],
    uses: &'static [Asked],
    /// The place of the first use that a path misses, and the path.
    answer: Option<(u32, &'static [u32])>,
}

/// A use of a value in a block, in front of what the block defines or after it.
#[derive(Clone, Copy)]
enum Asked {
    /// A block and a value, in front of the block's definitions.
    Before(u32, u32),
    /// A block and a value, after them.
    After(u32, u32),
}

use Asked::{After, Before};

/// Uses are missed on a path.
static ROWS: [Row; 13] = [
    // One side of a diamond defines.
    Row {
        next: &[&[1, 2], &[3], &[3], &[]],
        defs: &[&[], &[7], &[], &[]],
        uses: &[Before(3, 7)],
        answer: Some((0, &[0, 2, 3])),
    },
    // Both sides of a diamond define.
    Row {
        next: &[&[1, 2], &[3], &[3], &[]],
        defs: &[&[], &[7], &[7], &[]],
        uses: &[Before(3, 7)],
        answer: None,
    },
    // A loop defines late.
    Row {
        next: &[&[1], &[2], &[1, 3], &[]],
        defs: &[&[], &[], &[5], &[]],
        uses: &[Before(3, 5), Before(1, 5), After(2, 5)],
        answer: Some((1, &[0, 1])),
    },
    // A block that nothing leads to.
    Row {
        next: &[&[], &[0]],
        defs: &[&[], &[]],
        uses: &[Before(1, 9), After(1, 9)],
        answer: None,
    },
    // A self-loop, before its definition.
    Row {
        next: &[&[1], &[1, 2], &[]],
        defs: &[&[], &[4], &[]],
        uses: &[Before(2, 4), After(1, 4), Before(1, 4)],
        answer: Some((2, &[0, 1])),
    },
    // A self-loop without definition.
    Row {
        next: &[&[1], &[1, 2], &[]],
        defs: &[&[], &[], &[4]],
        uses: &[After(2, 4), Before(2, 4)],
        answer: Some((1, &[0, 1, 2])),
    },
    // The end of the block that defines.
    Row {
        next: &[&[]],
        defs: &[&[3]],
        uses: &[After(0, 3)],
        answer: None,
    },
    // The start of the block that defines.
    Row {
        next: &[&[]],
        defs: &[&[3]],
        uses: &[Before(0, 3)],
        answer: Some((0, &[0])),
    },
    // Another value is defined.
    Row {
        next: &[&[1], &[]],
        defs: &[&[3], &[4]],
        uses: &[Before(1, 3), After(1, 4), After(1, 5)],
        answer: Some((2, &[0, 1])),
    },
    // The first of two, in the order of the uses.
    Row {
        next: &[&[1], &[]],
        defs: &[&[2], &[]],
        uses: &[Before(1, 2), Before(1, 9), Before(1, 8)],
        answer: Some((1, &[0, 1])),
    },
    // No uses.
    Row {
        next: &[&[1], &[0]],
        defs: &[&[], &[]],
        uses: &[],
        answer: None,
    },
    // No blocks.
    Row {
        next: &[],
        defs: &[],
        uses: &[],
        answer: None,
    },
    // A loop with two entries.
    Row {
        next: &[&[1, 2], &[2], &[1, 3], &[]],
        defs: &[&[], &[6], &[], &[]],
        uses: &[After(1, 6), Before(3, 6)],
        answer: Some((1, &[0, 2, 3])),
    },
];

/// Lists that own their items.
fn lists(alloc: Global, rows: &[&[u32]]) -> Result<List<List<u32>>, NoMemory> {
    let mut lists = Vec::new(alloc);
    for row in rows {
        lists.push(List::from_vec(Vec::from_slice(alloc, row)?))?;
    }
    Ok(List::from_vec(lists))
}

/// Whether all numbers are in range.
fn in_range(g: &Graph, uses: &[Use]) -> bool
    ensures lengths { IsTrue result → length g.now.next ≡ length g.now.defs }
    ensures successors { IsTrue result → All (All (λ b. b < length g.now.next)) g.now.next }
    ensures blocks { IsTrue result → All (λ u. u.block < length g.now.next) uses.now }
    ensures few { IsTrue result → length uses.now < 2 ^ 32 }
{
    g.next.as_slice().len() == g.defs.as_slice().len()
        && uses.len() < 1 << 32
        && stay_below(g.next.as_slice().len(), g.next.as_slice())
        && uses_below(g.next.as_slice().len(), uses)
}

/// Whether each number of each list is below a length.
fn stay_below(len: usize, lists: &[List<u32>]) -> bool
    ensures { IsTrue result → All (All (λ b. b < len)) lists.now }
{
    for list in lists {
        if !below(len, list.as_slice()) {
            return false;
        }
    }
    true
}

/// Whether each of these is below a length.
fn below(len: usize, blocks: &[u32]) -> bool
    ensures { IsTrue result → All (λ b. b < len) blocks.now }
{
    for block in blocks {
        if *block as usize >= len {
            return false;
        }
    }
    true
}

/// Whether each use is in a block below a length.
fn uses_below(len: usize, uses: &[Use]) -> bool
    ensures { IsTrue result → All (λ u. u.block < len) uses.now }
{
    for u in uses {
        if u.block as usize >= len {
            return false;
        }
    }
    true
}

/// Whether the use that is missed and the path to it are these.
fn is_answer(found: &Option<Missing>, want: &Option<(u32, &[u32])>) -> bool {
    match (found, want) {
        (None, None) => true,
        (Some(missed), Some((which, path))) => {
            missed.which == *which && missed.path.as_slice() == *path
        }
        _ => false,
    }
}

/// Whether the use that is missed is the wanted one, where all numbers are in range.
fn is_answered<R: Eprint>(
    rt: &R,
    alloc: Global,
    g: &Graph,
    uses: &[Use],
    want: &Option<(u32, &[u32])>,
) -> bool {
    if !in_range(g, uses) {
        return false;
    }
    match missing(alloc, g, uses) {
        Ok(found) => is_answer(&found, want) || differs(rt, &found, want),
        Err(_) => false,
    }
}

/// The use that a row asks for.
fn use_of(asked: Asked) -> Use {
    match asked {
        Before(block, value) => Use {
            block,
            value,
            after: false,
        },
        After(block, value) => Use {
            block,
            value,
            after: true,
        },
    }
}

/// The uses that a row asks for.
fn uses_of(alloc: Global, asked: &[Asked]) -> Result<Vec<Use>, NoMemory> {
    let mut uses = Vec::new(alloc);
    for ask in asked {
        uses.push(use_of(*ask))?;
    }
    Ok(uses)
}

/// The graph of a row.
fn graph_of(alloc: Global, row: &Row) -> Result<Graph, NoMemory> {
    let next = lists(alloc, row.next)?;
    let defs = lists(alloc, row.defs)?;
    Ok(Graph { next, defs })
}

/// Whether a row has its answer.
fn agrees<R: Eprint>(rt: &R, alloc: Global, row: &Row) -> bool {
    match (graph_of(alloc, row), uses_of(alloc, row.uses)) {
        (Ok(g), Ok(uses)) => is_answered(rt, alloc, &g, &uses, &row.answer),
        _ => false,
    }
}

fn all_agree<R: Eprint>(rt: &R, alloc: Global, rows: &[Row]) -> bool {
    for (number, row) in rows.iter().enumerate() {
        if !agrees(rt, alloc, row) {
            return fails(rt, number);
        }
    }
    true
}

/// The values 0 to 199 but for 150.
fn most_values(alloc: Global) -> Result<List<u32>, NoMemory> {
    let mut values = Vec::new(alloc);
    for value in 0..200u32 {
        if value != 150 {
            values.push(value)?;
        }
    }
    Ok(List::from_vec(values))
}

/// Uses of the values 0 to 199 in block 1, the greatest first.
fn falling_uses(alloc: Global) -> Result<Vec<Use>, NoMemory> {
    let mut uses = Vec::new(alloc);
    for value in 0..200u32 {
        uses.push(use_of(Before(1, 199 - value)))?;
    }
    Ok(uses)
}

/// Block 0, which defines most values, goes to block 1.
fn two_blocks(alloc: Global) -> Result<Graph, NoMemory> {
    let next = lists(alloc, &[&[1], &[]])?;
    let mut defs = Vec::new(alloc);
    defs.push(most_values(alloc)?)?;
    defs.push(List::from_vec(Vec::new(alloc)))?;
    Ok(Graph {
        next,
        defs: List::from_vec(defs),
    })
}

/// Whether of 200 values, which take four rounds, the one that isn't defined is found: 150, at place 49 of the uses.
fn many_are_answered<R: Eprint>(rt: &R, alloc: Global) -> bool {
    match (two_blocks(alloc), falling_uses(alloc)) {
        (Ok(g), Ok(uses)) => is_answered(rt, alloc, &g, &uses, &Some((49, &[0, 1]))),
        _ => false,
    }
}

#[test]
fn uses_are_missed_on_a_path(rt: HostRuntime) -> Result<(), Fail> {
    assert!(rt; all_agree(&rt, rt.alloc(), &ROWS) && many_are_answered(&rt, rt.alloc()));
    Ok(())
}
