//! The uses that need a look at paths, sixty-four values at a time. A definition is a block and a value.
ghost use Rattle.std.specs.Prelude.{◌≡◌, ℕ, ◌<◌, ◌≤◌, ◌⊎◌, length, vec_len, IfOk, IsTrue, All, Contains, slice_index_or};
ghost use Rattle.ms_flow.specs.Search.{use_at};

use crate::definitions::has_definition;
use crate::graphs::Use;
use ms_bits::NoMemory;
use std::alloc::Global;

/// For each use that isn't defined in its own block, its value and its place, in order of the values.
pub fn questions(
    alloc: Global,
    definitions: &[(usize, u32)],
    uses: &[Use],
) -> Result<Vec<(u32, usize)>, NoMemory>
    ensures asked { IfOk result (λ q. (k : ℕ) → k < length uses.now → let u = use_at uses.now k in
        Contains q.items (u.value, k) ⊎ (IsTrue u.after × Contains definitions.now (u.block, u.value))) }
    ensures places { IfOk result (λ q. All (λ x. x.1 < length uses.now) q.items) }
    ensures values { IfOk result (λ q. All (λ x. x.0 ≡ (use_at uses.now x.1).value) q.items) }
{
    let mut questions = Vec::new(alloc);
    for (which, u) in uses.iter().enumerate() {
        if !u.after || !has_definition(definitions, u.block as usize, u.value) {
            questions.push((u.value, which))?;
        }
    }
    questions.sort()?;
    Ok(questions)
}

/// The values, at most sixty-four, that the first questions are about, and how many questions at the front are about them: a
/// round.
pub fn first_values(
    alloc: Global,
    questions: &[(u32, usize)],
) -> Result<(Vec<u32>, usize), NoMemory>
    requires { 0 < length questions.now }
    ensures few { IfOk result (λ r. vec_len r.0 ≤ 64) }
    ensures some { IfOk result (λ r. 0 < r.1) }
    ensures count { IfOk result (λ r. r.1 ≤ length questions.now) }
    ensures values { IfOk result (λ r.
        (k : ℕ) → k < r.1 → Contains r.0.items (slice_index_or questions.now k (0, 0)).0) }
{
    let mut values = Vec::new(alloc);
    for (count, (value, _)) in questions.iter().enumerate() {
        if !values.contains(value) {
            if values.len() == 64 {
                return Ok((values, count));
            }
            values.push(*value)?;
        }
    }
    Ok((values, questions.len()))
}
