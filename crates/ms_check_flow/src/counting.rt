//! Whether two lists hold the same numbers, each as often: the blocks that a phi names, and those from which edges come.
ghost use Rattle.std.specs.Prelude.{◌≡◌, ◌+◌, ◌<◌, ◌↔◌, ℕ, false, length, All, IsTrue, slice_index};
ghost use Rattle.ms_check_flow.specs.Counted.{count_of};

/// Counts each number in `due`, which counts none before.
fn count_all(numbers: &[u32], due: &mut [usize])
    requires clear { (k : ℕ) → slice_index due.old k ≡ 0 }
    requires below { All (λ n. n < length due.old) numbers.now }
    ensures { (k : ℕ) → slice_index due.new k ≡ count_of k numbers.now }
{
    for number in numbers {
        due[*number as usize] += 1;
    }
}

/// Takes each number off its count in `due`. False where one was counted less often.
fn take_off(numbers: &[u32], due: &mut [usize]) -> bool
    requires { All (λ n. n < length due.old) numbers.now }
    ensures enough { IsTrue result → (k : ℕ) → slice_index due.new k + count_of k numbers.now ≡ slice_index due.old k }
    ensures short { result ≡ false → (k : ℕ) × (slice_index due.old k < count_of k numbers.now) }
{
    for number in numbers {
        let place = *number as usize;
        if due[place] == 0 {
            return false;
        }
        due[place] -= 1;
    }
    true
}

/// Whether two lists have each number equally often. `due` has a place for each number, and counts nothing before and,
/// where they have, after.
pub fn same_counts(numbers: &[u32], others: &[u32], due: &mut [usize]) -> bool
    requires clear { (k : ℕ) → slice_index due.old k ≡ 0 }
    requires numbers { All (λ n. n < length due.old) numbers.now }
    requires others { All (λ n. n < length due.old) others.now }
    ensures is { IsTrue result ↔ ((k : ℕ) → count_of k numbers.now ≡ count_of k others.now) }
    ensures clear { IsTrue result → (k : ℕ) → slice_index due.new k ≡ 0 }
{
    if numbers.len() != others.len() {
        return false;
    }
    count_all(others, due);
    take_off(numbers, due)
}
