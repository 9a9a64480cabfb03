//! A row of origins at a pointer, one for each cell of four bytes.
ghost use Rattle.std.specs.Prelude.{replicate, ◌≡◌, ◌≤◌, ◌<◌, ◌^◌, ◌∷◌, [], ◌++◌, ◌*◌, ◌+◌, ℕ, List, length, get_or, set};
ghost use Rattle.ms_raw.specs.{Copies.{copied_cells, origin_after}, Ownership.{words_own, words_lent, IsSize}};

use crate::bytes::RawBytes;
use crate::memory::Memory;
use std::marker::Model;

/// Origins, which are numbers of 32 bits, that lie at a pointer, side by side, where there is room for `len`.
pub(crate) struct Cells {
    at: *mut u32,
    len: usize,
    ghost items: { List ℕ },
    ghost size: { ℕ },
    ghost all: { length items ≤ len },
    ghost small: { len < 2 ^ 40 },
}

impl Model for Cells {
    ghost also_owns = { λ b. words_own b.at b.len b.size b.items };

    ghost also_shares = { λ b _ κ. words_lent b.at b.items κ };
}

impl Cells {
    /// The origin of a cell.
    pub(crate) fn get(&self, i: usize) -> u32
        requires { i < length self.now.items }
        ensures { result ≡ get_or self.now.items i 0 }
    {
        unsafe { *self.at.add(i) }
    }

    /// Puts an origin into a cell.
    pub(crate) fn put(&mut self, i: usize, v: u32)
        requires { i < length self.old.items }
        ensures { (self.new.items ≡ set self.old.items i v) × (self.new.at ≡ self.old.at) × (self.new.len ≡ self.old.len) × (self.new.size ≡ self.old.size) }
    {
        unsafe { *self.at.add(i) = v }
    }

    /// Puts an origin after the others, of which there are `i`.
    pub(crate) fn push(&mut self, i: usize, v: u32)
        requires { (i ≡ length self.old.items) × (i < self.old.len) }
        ensures { (self.new.items ≡ self.old.items ++ v ∷ []) × (self.new.at ≡ self.old.at) × (self.new.len ≡ self.old.len) × (self.new.size ≡ self.old.size) }
    {
        unsafe { *self.at.add(i) = v }
    }

    /// No origins yet, with room for `len` in the memory.
    pub(crate) fn over(memory: Memory, len: usize) -> Cells
        requires { len * 4 ≤ memory.size }
        ensures { (result.items ≡ []) × (result.at ≡ memory.at) × (result.len ≡ len) × (result.size ≡ memory.size) }
    {
        let Memory { at, size: _ } = memory;
        Cells {
            at: at as *mut u32,
            len,
        }
    }

    /// The memory that the origins lie in, `size` bytes with what stands after them.
    pub(crate) fn into_memory(self, size: usize) -> Memory
        requires { (size ≡ self.size) × IsSize size }
        ensures { (result.at ≡ self.at) × (result.size ≡ size) }
    {
        let Cells { at, len: _ } = self;
        Memory {
            at: at as *mut u8,
            size,
        }
    }

    /// So many zeros.
    pub(crate) fn zeros(memory: Memory, len: usize) -> Cells
        requires { len * 4 ≤ memory.size }
        ensures { (result.items ≡ replicate len 0) × (result.at ≡ memory.at) × (result.size ≡ memory.size) }
    {
        let mut zeros = Cells::over(memory, len);
        for i in 0..len {
            zeros.push(i, 0);
        }
        zeros
    }

    /// The origin of a cell after a copy of `n` bytes: that of the source of its last byte whose source has shadow.
    fn origin_after(&self, shadow: &RawBytes, to: usize, from: usize, n: usize, cell: usize) -> u32
        requires to { to + n ≤ length shadow.now.items }
        requires from { from + n ≤ length shadow.now.items }
        requires cells { length shadow.now.items ≤ length self.now.items * 4 }
        requires cell { (to < cell * 4 + 4) × (cell * 4 < to + n) }
        ensures { result ≡ origin_after shadow.now.items self.now.items to from n cell (get_or self.now.items cell 0) }
    {
        let low = (cell * 4).max(to) - to;
        let high = (cell * 4 + 4).min(to + n) - to;
        let mut origin = self.get(cell);
        for k in low..high {
            if shadow.get(from + k) != 0 {
                origin = self.get((from + k) / 4);
            }
        }
        origin
    }

    /// Copies the origins of `n` bytes, each of them whose source has shadow, in rising order.
    pub(crate) fn copy_within(&mut self, shadow: &RawBytes, to: usize, from: usize, n: usize)
        requires to { to + n ≤ length shadow.now.items }
        requires from { from + n ≤ length shadow.now.items }
        requires cells { length shadow.now.items ≤ length self.old.items * 4 }
        ensures { (self.new.items ≡ copied_cells shadow.now.items self.old.items to from n self.old.items) × (length self.new.items ≡ length self.old.items) × (self.new.at ≡ self.old.at) × (self.new.size ≡ self.old.size) }
    {
        if n == 0 {
            return;
        }
        let first = to / 4;
        let end = (to + (n - 1)) / 4 + 1;
        if to <= from {
            for cell in first..end {
                let origin = self.origin_after(shadow, to, from, n, cell);
                self.put(cell, origin);
            }
        } else {
            let mut cell = end;
            while first < cell {
                cell -= 1;
                let origin = self.origin_after(shadow, to, from, n, cell);
                self.put(cell, origin);
            }
        }
    }
}
