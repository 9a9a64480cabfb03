//! One path that a value takes without a definition: by a walk in breadth from block 0, and then back from the use.
ghost use Rattle.std.specs.Prelude.{◌≡◌, ◌≢◌, ℕ, ◌+◌, ◌<◌, List, [], ◌∷◌, length, take, vec_len, IfOk, OnOk, IfSome, IfNone, AllPairs};
ghost use Rattle.ms_flow.specs.{Paths.{Misses, HasEdge, Defines}, Search.{StaysIn, Arrives, IsUndefined}};
ghost use Rattle.ms_flow.specs.Walks.{IsWalk, Marks, Trail, Visits, block_at, from_at, unseen};

use crate::graphs::{Graph, Use};
use crate::visits::Visit;
use ms_bits::NoMemory;
use std::alloc::Global;

/// A path to the use that passes no definition before it, with no block twice.
pub fn path_past(alloc: Global, g: &Graph, u: &Use) -> Result<Vec<u32>, NoMemory>
    requires same_length { length g.now.next ≡ length g.now.defs }
    requires successors { StaysIn g.now }
    requires block { u.now.block < length g.now.next }
    requires undefined { IsUndefined g.now u.now }
    ensures misses { IfOk result (λ p. Misses g.now u.now p.items) }
    ensures once { IfOk result (λ p. AllPairs (λ a b. a ≢ b) p.items) }
{
    let visits = walk(alloc, g, u.value)?;
    let Some(last) = visit_of(&visits, u.block) else {
        unreachable!();
    };
    trail(alloc, &visits, last)
}

/// Visits the blocks at which the value arrives without a definition, nearest first.
fn walk(alloc: Global, g: &Graph, value: u32) -> Result<Vec<Visit>, NoMemory>
    requires filled { 0 < length g.now.next }
    requires same_length { length g.now.next ≡ length g.now.defs }
    requires successors { StaysIn g.now }
    ensures walk { IfOk result (λ v. IsWalk g.now value v.items) }
    ensures all { IfOk result (λ v.
        (b : ℕ) → Arrives g.now (λ a. Defines g.now a value) b → Visits v.items b) }
{
    let mut visits = first_visits(alloc)?;
    let mut seen = vec![in alloc; false; g.len()]?;
    seen[0] = true;
    let mut at = 0;
    while at < visits.len() {
        let block = visits[at].block as usize;
        if !g.definitions(block).contains(&value) {
            go_on(g, at, &mut seen, &mut visits)?;
        }
        at += 1;
    }
    Ok(visits)
}

/// The visit with which the walk begins, to block 0.
fn first_visits(alloc: Global) -> Result<Vec<Visit>, NoMemory>
    ensures { IfOk result (λ v. v.items ≡ record { block = 0; from = 0 } ∷ []) }
{
    let mut visits = Vec::new(alloc);
    visits.push(Visit { block: 0, from: 0 })?;
    Ok(visits)
}

/// Visits those successors of the block visited at `from` that aren't seen yet.
fn go_on(g: &Graph, from: usize, seen: &mut [bool], visits: &mut Vec<Visit>) -> Result<(), NoMemory>
    requires from { from < length visits.old.items }
    requires successors { StaysIn g.now }
    requires seen { length seen.old ≡ length g.now.next }
    requires marks { Marks seen.old visits.old.items }
    ensures marks { OnOk result (Marks seen.new visits.new.items) }
    ensures front { OnOk result (take (length visits.old.items) visits.new.items ≡ visits.old.items) }
    ensures all { OnOk result ((c : ℕ) →
        HasEdge g.now (block_at visits.old.items from) c → Visits visits.new.items c) }
    ensures walk { OnOk result ((v : ℕ) → ¬ Defines g.now (block_at visits.old.items from) v →
        IsWalk g.now v visits.old.items → IsWalk g.now v visits.new.items) }
    ensures work { OnOk result (
        unseen seen.new + length visits.new.items ≡ unseen seen.old + length visits.old.items) }
{
    let block = visits[from].block as usize;
    for next in g.successors(block) {
        let place = *next as usize;
        if !seen[place] {
            seen[place] = true;
            visits.push(Visit { block: *next, from })?;
        }
    }
    Ok(())
}

/// The place of the visit of a block, if it was visited.
fn visit_of(visits: &[Visit], block: u32) -> Option<usize>
    ensures found { IfSome result (λ k. (k < length visits.now) × (block_at visits.now k ≡ block)) }
    ensures none { IfNone result (Visits visits.now block → ⊥) }
{
    visits.iter().position(|v| v.block == block)
}

/// The blocks from block 0 to that of visit `last`, traced back by the visits from which each was reached.
fn trail(alloc: Global, visits: &[Visit], last: usize) -> Result<Vec<u32>, NoMemory>
    requires last { last < length visits.now }
    requires earlier { (k : ℕ) → 0 < k → k < length visits.now → from_at visits.now k < k }
    ensures { IfOk result (λ p. (rest : List ℕ)
        × Trail visits.now last 0 rest × (p.items ≡ block_at visits.now 0 ∷ rest)) }
{
    let mut path = Vec::new(alloc);
    let mut at = last;
    while at != 0 {
        path.push(visits[at].block)?;
        at = visits[at].from;
    }
    path.push(visits[0].block)?;
    path.reverse();
    Ok(path)
}
