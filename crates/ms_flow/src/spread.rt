//! Which of 64 values may arrive at each block without a definition. A block that waits in the queue hands on what arrives at it,
//! until none waits. In contracts `Has word i` says that place i is in a set, and `Comes .. i b` that the value at place i
//! arrives at block b.
ghost use Rattle.std.specs.Prelude.{◌≡◌, ℕ, ◌<◌, ◌≤◌, ◌↔◌, true, false, length, All, Contains, slice_index_or};
ghost use Rattle.ms_flow.specs.Search.{Has, StaysIn, Covers, Comes, IsState, Merged, work_left};

use crate::graphs::Graph;
use crate::places;

/// Writes for each block the places of the values that arrive there. `kills` has for each block the places
/// of the values that it defines; what `words` and `queued` had is lost.
pub fn spread(g: &Graph, order: &[usize], kills: &[u64], words: &mut [u64], queued: &mut [bool])
    requires filled { 0 < length g.now.next }
    requires successors { StaysIn g.now }
    requires order { All (λ b. b < length g.now.next) order.now }
    requires all { Covers (length g.now.next) order.now }
    requires kills { length kills.now ≡ length g.now.next }
    requires words { length words.old ≡ length g.now.next }
    requires queued { length queued.old ≡ length g.now.next }
    ensures { (b i : ℕ) → i < 64 → Has (slice_index_or words.new b 0) i ↔ Comes g.now kills.now i b }
{
    words.fill(0);
    words[0] = u64::MAX;
    queued.fill(false);
    queued[0] = true;
    while queued.contains(&true) {
        sweep(g, order, kills, words, queued);
    }
}

/// Goes once through the order, and lets each queued block hand on what arrives at it.
fn sweep(g: &Graph, order: &[usize], kills: &[u64], words: &mut [u64], queued: &mut [bool])
    requires successors { StaysIn g.now }
    requires order { All (λ b. b < length g.now.next) order.now }
    requires all { Covers (length g.now.next) order.now }
    requires kills { length kills.now ≡ length g.now.next }
    requires words { length words.old ≡ length g.now.next }
    requires queued { length queued.old ≡ length g.now.next }
    requires state { IsState g.now kills.now words.old queued.old }
    ensures state { IsState g.now kills.now words.new queued.new }
    ensures work { Contains queued.old true → work_left words.new queued.new < work_left words.old queued.old }
{
    for block in order {
        if queued[*block] {
            hand_on(g, *block, kills, words, queued);
        }
    }
}

/// Takes a block from the queue and hands on what arrives at it and isn't defined there.
fn hand_on(g: &Graph, block: usize, kills: &[u64], words: &mut [u64], queued: &mut [bool])
    requires successors { StaysIn g.now }
    requires block { block < length g.now.next }
    requires kills { length kills.now ≡ length g.now.next }
    requires words { length words.old ≡ length g.now.next }
    requires queued { length queued.old ≡ length g.now.next }
    requires waits { slice_index_or queued.old block false ≡ true }
    requires state { IsState g.now kills.now words.old queued.old }
    ensures state { IsState g.now kills.now words.new queued.new }
    ensures work { work_left words.new queued.new < work_left words.old queued.old }
{
    queued[block] = false;
    let leaving = places::without(words[block], kills[block]);
    merge(g.successors(block), leaving, words, queued);
}

/// Adds the places `leaving` a block to the words of the blocks `next` after it, and queues those to which they are new.
fn merge(next: &[u32], leaving: u64, words: &mut [u64], queued: &mut [bool])
    requires next { All (λ c. c < length words.old) next.now }
    requires queued { length queued.old ≡ length words.old }
    ensures { Merged next.now leaving words.old words.new queued.old queued.new }
{
    for block in next {
        let block = *block as usize;
        let word = places::union(words[block], leaving);
        if word != words[block] {
            words[block] = word;
            queued[block] = true;
        }
    }
}
