//! The first use that isn't defined on every path: dataflow over 64 values at a time. A question is the value of a use and the
//! place of that use in the list; a definition is a block and a value. `values` are those of a round, told by their places; of
//! each block `words` has which of them arrive there, and `kills` which it defines, one bit for each.
//!
//! In contracts `Has word i` says that place i is in a set, `Comes .. i b` that the value at place i arrives at block b without a
//! definition, and `Leaves .. u i` that it gets to the use u.
ghost use Rattle.std.specs.Prelude.{◌≡◌, ◌≢◌, ℕ, ◌<◌, ◌≤◌, ◌^◌, ◌↔◌, ◌⊎◌, false, true, length, take, vec_len, IfOk, OnOk, IfSome, IfNone, IsNone, IsTrue, All, AllPairs, Contains, slice_get, slice_index_or};
ghost use Rattle.ms_flow.specs.Paths.{Defines, IsDefined, Misses};
ghost use Rattle.ms_flow.specs.Search.{Has, StaysIn, IsUndefined, StandsAt, Leaves, Covers, Comes, use_at};

use crate::definitions::{definitions, tell};
use crate::graphs::{Graph, Missing, Use};
use crate::orders::order;
use crate::places;
use crate::questions::{first_values, questions};
use crate::spread::spread;
use crate::trails::path_past;
use ms_bits::{List, NoMemory};
use std::alloc::Global;

/// The first use that isn't defined on every path from block 0 to its block, with such a path; None where
/// every use is defined. A definition in the block of the use counts where the use stands `after` it. No
/// path leads to a block that can't be reached, so a use there is defined.
///
/// The time grows with the number of blocks, edges and definitions, times a sixty-fourth of the number of values that are
/// used outside the block that defines them.
pub fn missing(alloc: Global, g: &Graph, uses: &[Use]) -> Result<Option<Missing>, NoMemory>
    requires same_length { length g.now.next ≡ length g.now.defs }
    requires successors { All (All (λ b. b < length g.now.next)) g.now.next }
    requires blocks { All (λ u. u.block < length g.now.next) uses.now }
    requires few { length uses.now < 2 ^ 32 }
    ensures none { IfOk result (λ answer. IsNone answer ↔ All (IsDefined g.now) uses.now) }

    // The use that is named, and the path to it.
    ensures in_range { IfOk result (λ answer. IfSome answer (λ m. m.which < length uses.now)) }
    ensures least { IfOk result (λ answer. IfSome answer (λ m. All (IsDefined g.now) (take m.which uses.now))) }
    ensures path { IfOk result (λ answer. IfSome answer (λ m.
        IfSome (slice_get uses.now m.which) (λ u. Misses g.now u m.path))) }
    ensures once { IfOk result (λ answer. IfSome answer (λ m. AllPairs (λ a b. a ≢ b) m.path)) }
{
    let undefined = undefined_uses(alloc, g, uses)?;
    match first_set(&undefined) {
        None => Ok(None),
        Some(which) => {
            let path = path_past(alloc, g, &uses[which])?;
            Ok(Some(Missing {
                which: which as u32,
                path: List::from_vec(path),
            }))
        }
    }
}

/// For each use, whether some path reaches it without a definition.
fn undefined_uses(alloc: Global, g: &Graph, uses: &[Use]) -> Result<Vec<bool>, NoMemory>
    requires same_length { length g.now.next ≡ length g.now.defs }
    requires successors { StaysIn g.now }
    requires blocks { All (λ u. u.block < length g.now.next) uses.now }
    ensures len { IfOk result (λ f. vec_len f ≡ length uses.now) }
    ensures flags { IfOk result (λ f. (k : ℕ) → k < length uses.now →
        (slice_index_or f.items k false ≡ true) ↔ IsUndefined g.now (use_at uses.now k)) }
{
    let definitions = definitions(alloc, g)?;
    undefined_by(alloc, g, uses, &definitions)
}

/// For each use, whether some path reaches it without one of the graph's definitions, which are given.
fn undefined_by(
    alloc: Global,
    g: &Graph,
    uses: &[Use],
    definitions: &[(usize, u32)],
) -> Result<Vec<bool>, NoMemory>
    requires same_length { length g.now.next ≡ length g.now.defs }
    requires successors { StaysIn g.now }
    requires blocks { All (λ u. u.block < length g.now.next) uses.now }
    requires definitions { (b v : ℕ) → Contains definitions.now (b, v) ↔ Defines g.now b v }
    ensures len { IfOk result (λ f. vec_len f ≡ length uses.now) }
    ensures flags { IfOk result (λ f. (k : ℕ) → k < length uses.now →
        (slice_index_or f.items k false ≡ true) ↔ IsUndefined g.now (use_at uses.now k)) }
{
    let questions = questions(alloc, definitions, uses)?;
    let mut undefined = vec![in alloc; false; uses.len()]?;
    if !questions.is_empty() {
        ask(alloc, g, uses, definitions, &questions, &mut undefined)?;
    }
    Ok(undefined)
}

/// Marks in `undefined` the uses that are asked about and that some path reaches without a definition.
fn ask(
    alloc: Global,
    g: &Graph,
    uses: &[Use],
    definitions: &[(usize, u32)],
    questions: &[(u32, usize)],
    undefined: &mut [bool],
) -> Result<(), NoMemory>
    requires filled { 0 < length g.now.next }
    requires successors { StaysIn g.now }
    requires definitions { (b v : ℕ) → Contains definitions.now (b, v) ↔ Defines g.now b v }
    requires known { All (λ d. d.0 < length g.now.next) definitions.now }
    requires blocks { All (λ u. u.block < length g.now.next) uses.now }
    requires places { All (λ q. q.1 < length uses.now) questions.now }
    requires values { All (λ q. q.0 ≡ (use_at uses.now q.1).value) questions.now }
    requires flags { length undefined.old ≡ length uses.now }
    ensures marked { OnOk result (All (λ q.
        IsUndefined g.now (use_at uses.now q.1) → slice_index_or undefined.new q.1 false ≡ true) questions.now) }
    ensures right { OnOk result ((k : ℕ) → slice_index_or undefined.new k false ≡ true →
        (slice_index_or undefined.old k false ≡ true) ⊎ IsUndefined g.now (use_at uses.now k)) }
{
    let order = order(alloc, g)?;
    ask_in(alloc, g, &order, uses, definitions, questions, undefined)
}

/// The dataflow state of up to 64 values, one entry a block.
#[derive(Drop)]
struct Dataflow {
    /// The values that the block defines.
    kills: Vec<u64>,
    /// The values that some path brings to the block without a definition.
    arriving: Vec<u64>,
    /// Whether the block waits in the worklist.
    queued: Vec<bool>,
}

impl Dataflow {
    /// The state before anything is known.
    fn of(alloc: Global, blocks: usize) -> Result<Dataflow, NoMemory>
        ensures kills { IfOk result (λ r. vec_len r.kills ≡ blocks) }
        ensures words { IfOk result (λ r. vec_len r.arriving ≡ blocks) }
        ensures queued { IfOk result (λ r. vec_len r.queued ≡ blocks) }
    {
        let kills = vec![in alloc; 0u64; blocks]?;
        let arriving = vec![in alloc; 0u64; blocks]?;
        let queued = vec![in alloc; false; blocks]?;
        Ok(Dataflow {
            kills,
            arriving,
            queued,
        })
    }

    /// Takes up the values of the next round, and lets the blocks hand them on, in this order.
    fn take_up(&mut self, g: &Graph, order: &[usize], definitions: &[(usize, u32)], values: &[u32])
        requires filled { 0 < length g.now.next }
        requires successors { StaysIn g.now }
        requires order { All (λ b. b < length g.now.next) order.now }
        requires all { Covers (length g.now.next) order.now }
        requires known { All (λ d. d.0 < length g.now.next) definitions.now }
        requires few { length values.now ≤ 64 }
        requires kills { length self.old.kills.items ≡ length g.now.next }
        requires words { length self.old.arriving.items ≡ length g.now.next }
        requires queued { length self.old.queued.items ≡ length g.now.next }
        ensures kills { length self.new.kills.items ≡ length g.now.next }
        ensures words { length self.new.arriving.items ≡ length g.now.next }
        ensures queued { length self.new.queued.items ≡ length g.now.next }
        ensures tells { (b i : ℕ) → i < length values.now →
            Has (slice_index_or self.new.kills.items b 0) i ↔ Contains definitions.now (b, slice_index_or values.now i 0) }
        ensures comes { (b i : ℕ) → i < 64 →
            Has (slice_index_or self.new.arriving.items b 0) i ↔ Comes g.now self.new.kills.items i b }
    {
        tell(values, definitions, &mut self.kills);
        spread(g, order, &self.kills, &mut self.arriving, &mut self.queued);
    }

    /// Marks the uses whose values arrive and aren't defined before.
    fn judge(
        &self,
        questions: &[(u32, usize)],
        uses: &[Use],
        values: &[u32],
        undefined: &mut [bool],
    )
        requires few { length values.now ≤ 64 }
        requires kills { length self.now.kills.items ≡ length self.now.arriving.items }
        requires blocks { All (λ u. u.block < length self.now.arriving.items) uses.now }
        requires places { All (λ q. q.1 < length uses.now) questions.now }
        requires values { All (λ q. Contains values.now (use_at uses.now q.1).value) questions.now }
        requires flags { length undefined.old ≡ length uses.now }
        ensures marked { All (λ q. let u = use_at uses.now q.1 in
            (i : ℕ) × StandsAt values.now u i
            × (Leaves self.now.kills.items self.now.arriving.items u i → slice_index_or undefined.new q.1 false ≡ true)) questions.now }
        ensures kept { (k : ℕ) →
            slice_index_or undefined.old k false ≡ true → slice_index_or undefined.new k false ≡ true }
        ensures right { (k : ℕ) → slice_index_or undefined.new k false ≡ true →
            (slice_index_or undefined.old k false ≡ true)
            ⊎ ((i : ℕ) × StandsAt values.now (use_at uses.now k) i
            × Leaves self.now.kills.items self.now.arriving.items (use_at uses.now k) i) }
    {
        judge(
            questions,
            uses,
            values,
            &self.kills,
            &self.arriving,
            undefined,
        );
    }
}

/// Marks the uses that are asked about and that some path reaches without a definition, where blocks hand on in an order.
fn ask_in(
    alloc: Global,
    g: &Graph,
    order: &[usize],
    uses: &[Use],
    definitions: &[(usize, u32)],
    questions: &[(u32, usize)],
    undefined: &mut [bool],
) -> Result<(), NoMemory>
    requires filled { 0 < length g.now.next }
    requires successors { StaysIn g.now }
    requires order { All (λ b. b < length g.now.next) order.now }
    requires all { Covers (length g.now.next) order.now }
    requires definitions { (b v : ℕ) → Contains definitions.now (b, v) ↔ Defines g.now b v }
    requires known { All (λ d. d.0 < length g.now.next) definitions.now }
    requires blocks { All (λ u. u.block < length g.now.next) uses.now }
    requires places { All (λ q. q.1 < length uses.now) questions.now }
    requires values { All (λ q. q.0 ≡ (use_at uses.now q.1).value) questions.now }
    requires flags { length undefined.old ≡ length uses.now }
    ensures marked { OnOk result (All (λ q.
        IsUndefined g.now (use_at uses.now q.1) → slice_index_or undefined.new q.1 false ≡ true) questions.now) }
    ensures right { OnOk result ((k : ℕ) → slice_index_or undefined.new k false ≡ true →
        (slice_index_or undefined.old k false ≡ true) ⊎ IsUndefined g.now (use_at uses.now k)) }
{
    let mut state = Dataflow::of(alloc, g.len())?;
    let mut from = 0;
    while from < questions.len() {
        let (values, count) = first_values(alloc, &questions[from..])?;
        state.take_up(g, order, definitions, &values);
        state.judge(&questions[from..from + count], uses, &values, undefined);
        from += count;
    }
    Ok(())
}

/// Marks the uses whose values arrive and aren't defined before.
fn judge(
    questions: &[(u32, usize)],
    uses: &[Use],
    values: &[u32],
    kills: &[u64],
    words: &[u64],
    undefined: &mut [bool],
)
    requires few { length values.now ≤ 64 }
    requires kills { length kills.now ≡ length words.now }
    requires blocks { All (λ u. u.block < length words.now) uses.now }
    requires places { All (λ q. q.1 < length uses.now) questions.now }
    requires values { All (λ q. Contains values.now (use_at uses.now q.1).value) questions.now }
    requires flags { length undefined.old ≡ length uses.now }
    ensures marked { All (λ q. let u = use_at uses.now q.1 in
        (i : ℕ) × StandsAt values.now u i
        × (Leaves kills.now words.now u i → slice_index_or undefined.new q.1 false ≡ true)) questions.now }
    ensures kept { (k : ℕ) →
        slice_index_or undefined.old k false ≡ true → slice_index_or undefined.new k false ≡ true }
    ensures right { (k : ℕ) → slice_index_or undefined.new k false ≡ true →
        (slice_index_or undefined.old k false ≡ true)
        ⊎ ((i : ℕ) × StandsAt values.now (use_at uses.now k) i × Leaves kills.now words.now (use_at uses.now k) i) }
{
    for (_, which) in questions {
        if arrives(&uses[*which], values, kills, words) {
            undefined[*which] = true;
        }
    }
}

/// Whether the value arrives at its use without a definition. A use `after` the block's definitions isn't reached by what the
/// block defines.
fn arrives(u: &Use, values: &[u32], kills: &[u64], words: &[u64]) -> bool
    requires few { length values.now ≤ 64 }
    requires kills { length kills.now ≡ length words.now }
    requires block { u.now.block < length words.now }
    requires value { Contains values.now u.now.value }
    ensures { (i : ℕ) × StandsAt values.now u.now i × (IsTrue result ↔ Leaves kills.now words.now u.now i) }
{
    let Some(place) = place_of(values, u.value) else {
        unreachable!();
    };
    let block = u.block as usize;
    let word = if u.after {
        places::without(words[block], kills[block])
    } else {
        words[block]
    };
    places::has(word, place)
}

/// The first place at which the value stands among those of a round.
fn place_of(values: &[u32], value: u32) -> Option<usize>
    ensures found { IfSome result (λ k. (k < length values.now) × (slice_index_or values.now k 0 ≡ value)) }
    ensures none { IfNone result (Contains values.now value → ⊥) }
{
    values.iter().position(|v| *v == value)
}

/// The first place of a flag that is set.
fn first_set(flags: &[bool]) -> Option<usize>
    ensures found { IfSome result (λ k. (k < length flags.now) × (slice_index_or flags.now k false ≡ true)) }
    ensures first { IfSome result (λ k. (j : ℕ) → j < k → slice_index_or flags.now j false ≡ false) }
    ensures none { IfNone result ((j : ℕ) → slice_index_or flags.now j false ≡ false) }
{
    flags.iter().position(|f| *f)
}
