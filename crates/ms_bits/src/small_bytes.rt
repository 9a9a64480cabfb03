//! A list of bytes that takes no block of the heap where it is short.
ghost use Rattle.std.specs.{Prelude.{◌≡◌, ◌+◌, ◌≤◌, ◌++◌, length, Some, IfOk, nat_eq, refl}, Ordering.{nat_cmp}};
ghost use Rattle.std.specs.Cmp.{partial_equiv_from_equiv};
ghost use Rattle.std.specs.Cmp.Lexicographic.{pointwise, slice_cmp, nat_list_eq_equiv, nat_list_cmp_total, texts_po, texts_ties};
ghost use Rattle.ms_bits.specs.Stored.{stored_bytes};

use crate::boxes::Boxed;
use crate::duplicate::{Duplicate, NoMemory};
use crate::lists::Bytes;
use std::alloc::Global;
use std::cmp::Ordering;
use std::marker::Model;

/// How many bytes lie in the value itself: with their number, no more than fits beside a pointer in the room of a
/// `Vec`.
const INLINE: usize = 22;

/// Where the bytes lie.
#[derive(Debug, Drop)]
enum Stored {
    /// How many of the bytes count, and the bytes.
    Inline(u8, [u8; INLINE]),
    /// More bytes than that.
    Heap(Boxed<Bytes>),
}

/// A list of bytes, as a name is. Up to 22 lie in the value itself, more in blocks of the heap. Contracts see the
/// list.
#[derive(Debug, Drop)]
pub struct SmallBytes {
    stored: Stored,
}

impl Model for SmallBytes {
    ghost use Rattle.std.specs.{Prelude.{List as ListOf, ℕ}, Coded.{coded_list, coded_ℕ}};

    ghost Value = { ListOf ℕ };

    ghost coded = { coded_list coded_ℕ };

    ghost use Rattle.ms_bits.specs.Stored.{stored_bytes, IsStored};

    ghost view = { λ b. stored_bytes b.stored };

    ghost invariant = { λ b. IsStored b.stored };
}

/// The bytes of two slices that fit into a value.
fn inline(first: &[u8], second: &[u8]) -> SmallBytes
    requires { length first.now + length second.now ≤ 22 }
    ensures { result ≡ first.now ++ second.now }
{
    let mut bytes = [0; INLINE];
    let middle = first.len();
    let end = middle + second.len();
    bytes[..middle].copy_from_slice(first);
    bytes[middle..end].copy_from_slice(second);
    SmallBytes {
        stored: Stored::Inline(end as u8, bytes),
    }
}

/// The bytes of two slices on the heap.
fn on_heap(alloc: Global, first: &[u8], second: &[u8]) -> Result<SmallBytes, NoMemory>
    ensures { IfOk result (λ b. b ≡ first.now ++ second.now) }
{
    let mut bytes = Vec::from_slice(alloc, first)?;
    bytes.extend_from_slice(second)?;
    Ok(SmallBytes {
        stored: Stored::Heap(Boxed::new(alloc, Bytes::from_vec(bytes))?),
    })
}

impl SmallBytes {
    /// The bytes of two slices, one after the other.
    pub fn joined(alloc: Global, first: &[u8], second: &[u8]) -> Result<SmallBytes, NoMemory>
        ensures { IfOk result (λ b. b ≡ first.now ++ second.now) }
    {
        if first.len() <= INLINE && second.len() <= INLINE - first.len() {
            Ok(inline(first, second))
        } else {
            on_heap(alloc, first, second)
        }
    }

    /// The bytes of a slice.
    pub fn from_slice(alloc: Global, bytes: &[u8]) -> Result<SmallBytes, NoMemory>
        ensures { IfOk result (λ b. b ≡ bytes.now) }
    {
        SmallBytes::joined(alloc, bytes, &[])
    }

    /// The bytes, in order.
    pub fn as_slice(&self) -> &[u8]
        ensures { result.now ≡ self.now }
    {
        match &self.stored {
            Stored::Inline(count, bytes) => &bytes[..*count as usize],
            Stored::Heap(bytes) => bytes.get().as_slice(),
        }
    }
}

impl Duplicate for SmallBytes {
    fn copy(&self, alloc: Global) -> Result<Self, NoMemory> {
        SmallBytes::from_slice(alloc, self.as_slice())
    }
}

impl PartialEq for SmallBytes {
    ghost eq = { pointwise nat_eq };

    ghost laws = { partial_equiv_from_equiv nat_list_eq_equiv };

    fn eq(&self, other: &Self) -> bool {
        self.as_slice() == other.as_slice()
    }
}

impl Eq for SmallBytes {
    ghost laws = { nat_list_eq_equiv };
}

impl PartialOrd for SmallBytes {
    ghost partial_cmp = { λ x y. Some (slice_cmp nat_cmp x y) };

    ghost laws = { texts_po };

    fn partial_cmp(&self, other: &Self) -> Option<Ordering> {
        Some(self.cmp(other))
    }
}

impl Ord for SmallBytes {
    ghost cmp = { slice_cmp nat_cmp };

    ghost total = { nat_list_cmp_total };

    ghost matches_partial_cmp = { λ x y. refl };

    ghost matches_eq = { texts_ties };

    fn cmp(&self, other: &Self) -> Ordering {
        self.as_slice().cmp(&other.as_slice())
    }
}
