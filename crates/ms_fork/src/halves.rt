//! A list whose items are made piece by piece, with threads of their own for some of the pieces: `rt` starts them, and each piece
//! enters `gate` first.
ghost use Rattle.std.specs.{Prelude.{◌≡◌, ℕ, ◌+◌, ◌*◌, ◌<◌, ◌≤◌, ◌^◌, map, IfOk}, List.{range_with_len}};
ghost use Rattle.std.specs.Thread.{IsSync};
ghost use denote.Param.Send.{IsSend};

use crate::gates::Gate;
use ms_bits::{List, NoMemory};
use std::alloc::Global;
use std::thread::{Threads, join};

/// What is made for each number below a count. It is shared by the threads that make it.
pub trait Work {
    /// What is made for one number.
    type Item;

    /// The numbers for which an item can be made.
    ghost can: { Self → ℕ → Type 0 };

    /// What is made for this number.
    ghost answer: { Self → ℕ → Self.Item };

    /// Makes the item of a number.
    fn make(&self, alloc: Global, index: usize) -> Result<Self::Item, NoMemory>
        requires { can self.now index }
        ensures { IfOk result (λ item. item ≡ answer self.now index) };
}

/// How the work on a list is split.
#[derive(Clone, Copy, Debug, Drop)]
pub struct Split {
    /// A part of no more items is a piece.
    pub most: usize,
    /// So many threads at most are at work at once, and at least one.
    pub threads: usize,
}

/// A piece: the items of `count` numbers from `from` on, one after another.
fn map_piece<W: Work<Item = T>, T: Drop, G: Gate>(
    alloc: Global,
    work: &W,
    gate: &G,
    from: usize,
    count: usize,
) -> Result<Vec<T>, NoMemory>
    requires room { from + count < 2 ^ 64 }
    requires can { (i : ℕ) → from ≤ i → i < from + count → W.can work.now i }
    ensures { IfOk result (λ all. all.items ≡ map (W.answer work.now) (range_with_len from count)) }
{
    gate.enter(from as u64);
    let mut all = Vec::new(alloc);
    for index in from..from + count {
        all.push(work.make(alloc, index)?)?;
    }
    Ok(all)
}

/// The items of `count` numbers from `from` on, cut in halves until each part has at most `most` items and so is a piece; at most
/// `threads` threads are at work at once.
#[cycle(halves)]
fn map_range<R: Threads + Sync, W: Work<Item = T> + Sync, T: Send + Drop, G: Gate + Sync>(
    rt: &R,
    alloc: Global,
    work: &W,
    gate: &G,
    most: usize,
    from: usize,
    count: usize,
    threads: usize,
) -> Result<Vec<T>, NoMemory>
    requires room { from + count < 2 ^ 64 }
    requires can { (i : ℕ) → from ≤ i → i < from + count → W.can work.now i }
    ensures { IfOk result (λ all. all.items ≡ map (W.answer work.now) (range_with_len from count)) }
{
    if count <= most || count < 2 {
        return map_piece(alloc, work, gate, from, count);
    }
    if threads < 2 {
        return half_by_half(rt, alloc, work, gate, most, from, count);
    }
    fork(rt, alloc, work, gate, most, from, count, threads)
}

/// Both halves in this thread, the first one first.
#[cycle(halves)]
fn half_by_half<R: Threads + Sync, W: Work<Item = T> + Sync, T: Send + Drop, G: Gate + Sync>(
    rt: &R,
    alloc: Global,
    work: &W,
    gate: &G,
    most: usize,
    from: usize,
    count: usize,
) -> Result<Vec<T>, NoMemory>
    requires some { 2 ≤ count }
    requires room { from + count < 2 ^ 64 }
    requires can { (i : ℕ) → from ≤ i → i < from + count → W.can work.now i }
    ensures { IfOk result (λ all. all.items ≡ map (W.answer work.now) (range_with_len from count)) }
{
    let low = count / 2;
    let mut all = map_range(rt, alloc, work, gate, most, from, low, 1)?;
    let mut rest = map_range(rt, alloc, work, gate, most, from + low, count - low, 1)?;
    all.append(&mut rest)?;
    Ok(all)
}

/// The first half in this thread, and the second in a new one. Where none can be made, `join` calls the second half last, so
/// that the pieces then run in order.
#[cycle(halves)]
fn fork<R: Threads + Sync, W: Work<Item = T> + Sync, T: Send + Drop, G: Gate + Sync>(
    rt: &R,
    alloc: Global,
    work: &W,
    gate: &G,
    most: usize,
    from: usize,
    count: usize,
    threads: usize,
) -> Result<Vec<T>, NoMemory>
    requires some { 2 ≤ count }
    requires room { from + count < 2 ^ 64 }
    requires can { (i : ℕ) → from ≤ i → i < from + count → W.can work.now i }
    ensures { IfOk result (λ all. all.items ≡ map (W.answer work.now) (range_with_len from count)) }
{
    // The counts of the halves, the second one's first number, and the threads for the second and the first half.
    let low = count / 2;
    let high = count - low;
    let up = from + low;
    let few = threads / 2;
    let more = threads - few;
    let front = move || -> Result<Vec<T>, NoMemory>
        requires { IsSync R.row × IsSync W.row × IsSync G.row × IsSend T.row × (0 < low) × (from + low < 2 ^ 64) × ((i : ℕ) → from ≤ i → i < from + low → W.can work.now i) }
        ensures { IfOk result (λ all. all.items ≡ map (W.answer work.entry.now) (range_with_len from low)) }
    { map_range(rt, alloc, work, gate, most, from, low, more) };
    let back = move || -> Result<Vec<T>, NoMemory>
        requires { IsSync R.row × IsSync W.row × IsSync G.row × IsSend T.row × (0 < high) × (up + high < 2 ^ 64) × ((i : ℕ) → up ≤ i → i < up + high → W.can work.now i) }
        ensures { IfOk result (λ all. all.items ≡ map (W.answer work.entry.now) (range_with_len up high)) }
    { map_range(rt, alloc, work, gate, most, up, high, few) };
    let (second, first) = join(rt, back, front);
    let mut all = first?;
    let mut rest = second?;
    all.append(&mut rest)?;
    Ok(all)
}

/// The items of the numbers below `count`, in order: the same list for every gate, and however it is cut.
///
/// A list of more than `most` items is cut in halves, and so is each half again. As long as there are threads left, the
/// second half goes to a thread of its own where one can be made; where none can, it is made after the first. Each piece
/// enters the gate with its first number before it does anything else; an empty list has no piece.
pub fn parallel_map<R: Threads + Sync, W: Work<Item = T> + Sync, T: Send + Drop, G: Gate + Sync>(
    rt: &R,
    alloc: Global,
    work: &W,
    count: usize,
    split: Split,
    gate: &G,
) -> Result<List<T>, NoMemory>
    requires { (i : ℕ) → i < count → W.can work.now i }
    ensures { IfOk result (λ all. all ≡ map (W.answer work.now) (range_with_len 0 count)) }
{
    if count == 0 {
        return Ok(List::from_vec(Vec::new(alloc)));
    }
    let all = map_range(rt, alloc, work, gate, split.most, 0, count, split.threads)?;
    Ok(List::from_vec(all))
}
