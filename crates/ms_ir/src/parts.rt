//! Copies of a few values at once, the parts of a larger one, and at the end of a list.
ghost use Rattle.std.specs.Prelude.{◌≡◌, ◌++◌, ◌∷◌, [], IfOk};

use ms_bits::{Duplicate, NoMemory};
use std::alloc::Global;

/// Copies of two values.
pub fn two<A: Duplicate, B: Duplicate>(alloc: Global, a: &A, b: &B) -> Result<(A, B), NoMemory>
    ensures { IfOk result (λ p. p ≡ (a.now, b.now)) }
{
    let a = a.copy(alloc)?;
    let b = b.copy(alloc)?;
    Ok((a, b))
}

/// Copies of three values.
pub fn three<A: Duplicate, B: Duplicate, C: Duplicate>(
    alloc: Global,
    a: &A,
    b: &B,
    c: &C,
) -> Result<(A, B, C), NoMemory>
    ensures { IfOk result (λ p. p ≡ (a.now, b.now, c.now)) }
{
    let a = a.copy(alloc)?;
    let b = b.copy(alloc)?;
    let c = c.copy(alloc)?;
    Ok((a, b, c))
}

/// Copies of four values.
pub fn four<A: Duplicate, B: Duplicate, C: Duplicate, D: Duplicate>(
    alloc: Global,
    a: &A,
    b: &B,
    c: &C,
    d: &D,
) -> Result<(A, B, C, D), NoMemory>
    ensures { IfOk result (λ p. p ≡ (a.now, b.now, c.now, d.now)) }
{
    let (a, b) = two(alloc, a, b)?;
    let (c, d) = two(alloc, c, d)?;
    Ok((a, b, c, d))
}

/// Adds a copy at the end.
pub fn push_copy<T: Duplicate>(alloc: Global, items: &mut Vec<T>, item: &T) -> Result<(), NoMemory>
    ensures { IfOk result (λ _. items.new.items ≡ items.old.items ++ item.now ∷ []) }
{
    let copy = item.copy(alloc)?;
    items.push(copy)?;
    Ok(())
}
