//! A row of bytes at a pointer. A row is filled from its first place on, so raw memory is never read before it is written.
ghost use Rattle.std.specs.Prelude.{replicate, ◌≡◌, ◌≤◌, ◌<◌, ◌^◌, ◌∷◌, [], ◌++◌, ◌*◌, ◌+◌, ℕ, List, length, get_or, set};
ghost use Rattle.ms_raw.specs.{Copies.{copied}, Ownership.{bytes_own, bytes_lent, IsSize}};

use crate::memory::Memory;
use std::marker::Model;

/// Bytes that lie at a pointer, side by side, where there is room for `len`.
pub(crate) struct RawBytes {
    at: *mut u8,
    len: usize,
    ghost items: { List ℕ },
    ghost size: { ℕ },
    ghost all: { length items ≤ len },
    ghost small: { len < 2 ^ 40 },
}

impl Model for RawBytes {
    ghost also_owns = { λ b. bytes_own b.at b.len b.size b.items };

    ghost also_shares = { λ b _ κ. bytes_lent b.at b.items κ };
}

impl RawBytes {
    /// The byte at a place.
    pub(crate) fn get(&self, i: usize) -> u8
        requires { i < length self.now.items }
        ensures { result ≡ get_or self.now.items i 0 }
    {
        unsafe { *self.at.add(i) }
    }

    /// Puts a byte at a place.
    pub(crate) fn put(&mut self, i: usize, v: u8)
        requires { i < length self.old.items }
        ensures { (self.new.items ≡ set self.old.items i v) × (self.new.at ≡ self.old.at) × (self.new.len ≡ self.old.len) × (self.new.size ≡ self.old.size) }
    {
        unsafe { *self.at.add(i) = v }
    }

    /// Puts four bytes at the places from one on. The pointer is read once, so that the compiler makes one store of them: through a
    /// byte that is written it has to assume that the pointer itself may have changed.
    pub(crate) fn put_four(&mut self, i: usize, a: u8, b: u8, c: u8, d: u8)
        requires { i + 3 < length self.old.items }
        ensures { (self.new.items ≡ set (set (set (set self.old.items i a) (i + 1) b) (i + 2) c) (i + 3) d) × (self.new.at ≡ self.old.at) × (self.new.len ≡ self.old.len) × (self.new.size ≡ self.old.size) }
    {
        unsafe {
            let first = self.at.add(i);
            *first = a;
            *first.add(1) = b;
            *first.add(2) = c;
            *first.add(3) = d;
        }
    }

    /// Puts eight bytes, in the same way.
    pub(crate) fn put_eight(
        &mut self,
        i: usize,
        a: u8,
        b: u8,
        c: u8,
        d: u8,
        e: u8,
        f: u8,
        g: u8,
        h: u8,
    )
        requires { i + 7 < length self.old.items }
        ensures { (self.new.items ≡ set (set (set (set (set (set (set (set self.old.items i a) (i + 1) b) (i + 2) c) (i + 3) d) (i + 4) e) (i + 5) f) (i + 6) g) (i + 7) h) × (self.new.at ≡ self.old.at) × (self.new.len ≡ self.old.len) × (self.new.size ≡ self.old.size) }
    {
        unsafe {
            let first = self.at.add(i);
            *first = a;
            *first.add(1) = b;
            *first.add(2) = c;
            *first.add(3) = d;
            *first.add(4) = e;
            *first.add(5) = f;
            *first.add(6) = g;
            *first.add(7) = h;
        }
    }

    /// Puts a byte after the others, of which there are `i`.
    pub(crate) fn push(&mut self, i: usize, v: u8)
        requires { (i ≡ length self.old.items) × (i < self.old.len) }
        ensures { (self.new.items ≡ self.old.items ++ v ∷ []) × (self.new.at ≡ self.old.at) × (self.new.len ≡ self.old.len) × (self.new.size ≡ self.old.size) }
    {
        unsafe { *self.at.add(i) = v }
    }

    /// No bytes yet, with room for `len` in the memory.
    pub(crate) fn over(memory: Memory, len: usize) -> RawBytes
        requires { len ≤ memory.size }
        ensures { (result.items ≡ []) × (result.at ≡ memory.at) × (result.len ≡ len) × (result.size ≡ memory.size) }
    {
        let Memory { at, size: _ } = memory;
        RawBytes { at, len }
    }

    /// The memory that the bytes lie in, `size` bytes with what stands after them.
    pub(crate) fn into_memory(self, size: usize) -> Memory
        requires { (size ≡ self.size) × IsSize size }
        ensures { (result.at ≡ self.at) × (result.size ≡ size) }
    {
        let RawBytes { at, len: _ } = self;
        Memory { at, size }
    }

    /// So many zeros.
    pub(crate) fn zeros(memory: Memory, len: usize) -> RawBytes
        requires { len ≤ memory.size }
        ensures { (result.items ≡ replicate len 0) × (result.at ≡ memory.at) × (result.size ≡ memory.size) }
    {
        let mut zeros = RawBytes::over(memory, len);
        for i in 0..len {
            zeros.push(i, 0);
        }
        zeros
    }

    /// Copies `n` bytes from place `from` on to place `to` on, as they were before.
    pub(crate) fn copy_within(&mut self, to: usize, from: usize, n: usize)
        requires to { to + n ≤ length self.old.items }
        requires from { from + n ≤ length self.old.items }
        ensures { (self.new.items ≡ copied self.old.items to from n) × (length self.new.items ≡ length self.old.items) × (self.new.at ≡ self.old.at) × (self.new.size ≡ self.old.size) }
    {
        if to <= from {
            for k in 0..n {
                let byte = self.get(from + k);
                self.put(to + k, byte);
            }
        } else {
            let mut k = n;
            while 0 < k {
                k -= 1;
                let byte = self.get(from + k);
                self.put(to + k, byte);
            }
        }
    }
}
