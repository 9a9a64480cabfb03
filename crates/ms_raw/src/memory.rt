//! Memory that an allocator gave, before anything lies in it and after.
ghost use Rattle.std.specs.Prelude.{◌≡◌, ℕ, ◌+◌, ◌^◌, ◌<◌, ◌≤◌, ◌%◌, IfSome};
ghost use denote.RawPtr.{Ptr, room_for, ◌+ₚ◌};
ghost use Rattle.ms_raw.specs.Ownership.{words, IsSize};

use std::alloc::Allocator;
use std::marker::{Model, PhantomData};

/// Each piece of memory begins and ends at a multiple of so many bytes, so that numbers of 32 bits may lie in it.
pub(crate) const UNIT: usize = 4;

/// `size` bytes in which nothing lies. Whoever has them may write there, and nobody else.
pub(crate) struct Memory {
    pub(crate) at: *mut u8,
    pub(crate) size: usize,
    ghost fits: { IsSize size },
}

impl Model for Memory {
    ghost also_owns = { λ m. room_for (words m.size) m.at };
}

/// The right to give memory back to its allocator.
pub(crate) struct Lease<A: Allocator> {
    marker: PhantomData<A>,
    ghost alloc: { A },
    ghost at: { Ptr },
    ghost size: { ℕ },
}

impl<A: Allocator> Model for Lease<A> {
    ghost also_owns = { λ l. A.dealloc_token l.alloc (words l.size) l.at };
}

impl Memory {
    /// Asks an allocator for `size` bytes, once. `None` where it has none left.
    pub(crate) fn new<A: Allocator>(alloc: &A, size: usize) -> Option<(Memory, Lease<A>)>
        requires { IsSize size }
        ensures { IfSome result (λ m. (m.0.size ≡ size) × (m.1.alloc ≡ alloc.now) × (m.1.at ≡ m.0.at) × (m.1.size ≡ size)) }
    {
        match alloc.allocate(size, UNIT) {
            Ok(at) => {
                let marker = PhantomData;
                Some((Memory { at, size }, Lease { marker }))
            }
            Err(_) => None,
        }
    }

    /// Gives the memory back to the allocator that it came from.
    pub(crate) fn free<A: Allocator>(self, lease: Lease<A>, alloc: &A)
        requires { (lease.alloc ≡ alloc.now) × (lease.at ≡ self.at) × (lease.size ≡ self.size) }
    {
        let Memory { at, size } = self;
        let Lease { marker: _ } = lease;
        unsafe { alloc.deallocate(at, size, UNIT) }
    }

    /// Cuts the memory after `first` bytes.
    pub(crate) fn cut(self, first: usize) -> (Memory, Memory)
        requires { (first % 4 ≡ 0) × (first ≤ self.size) }
        ensures { (result.0.at ≡ self.at) × (result.0.size ≡ first) × (result.1.at ≡ self.at +ₚ first) × (result.1.size + first ≡ self.size) }
    {
        let Memory { at, size } = self;
        let rest = unsafe { at.add(first) };
        let more = size - first;
        (
            Memory { at, size: first },
            Memory {
                at: rest,
                size: more,
            },
        )
    }

    /// Puts together two pieces of memory that lie side by side.
    pub(crate) fn join(self, next: Memory) -> Memory
        requires { (next.at ≡ self.at +ₚ self.size) × (self.size + next.size < 2 ^ 40) }
        ensures { (result.at ≡ self.at) × (result.size ≡ self.size + next.size) }
    {
        let Memory { at, size } = self;
        let Memory { at: _, size: more } = next;
        Memory {
            at,
            size: size + more,
        }
    }
}
