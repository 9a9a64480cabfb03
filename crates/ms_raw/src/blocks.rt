//! Blocks. Nothing here has a pointer: the parts of a block have them.
ghost use Rattle.std.specs.Prelude.{◌≡◌, ◌≤◌, ◌<◌, ◌+◌, ◌^◌, ◌%◌, length, get_or, set, IfOk};
ghost use Rattle.ms_raw.specs.{Blocks.{blank, distance, cells}, Copies.{copied, copied_cells}};

use crate::bytes::RawBytes;
use crate::cells::Cells;
use crate::memory::{Lease, Memory};
use std::alloc::{AllocError, Global};
use std::marker::Model;

/// No memory is left.
pub type NoMemory = AllocError;

/// How many bytes apart the parts of a block of `n` bytes begin: room for an origin of four bytes to each cell of four
/// bytes, and at least for one, so that the region is never empty.
fn distance(n: u64) -> usize
    requires { n ≤ 2 ^ 26 }
    ensures { result ≡ distance n }
{
    let cells = (n as usize + 3) / 4;
    cells.max(1) * 4
}

/// The memory of one allocation: its bytes, a shadow byte for each of them, whose bits that are 1 mark the bits that
/// aren't initialised, and an origin for each cell of four bytes (as in MemorySanitizer, CGO 2015). Contracts see three
/// lists.
///
/// All three lie in one region of raw memory, which is freed with the block. After `new` no call takes memory.
pub struct Block {
    len: u64,
    bytes: RawBytes,
    shadow: RawBytes,
    origins: Cells,
    lease: Lease<Global>,
    alloc: Global,
}

impl Model for Block {
    ghost use Rattle.std.specs.Prelude.{◌≡◌, ◌≤◌, ◌+◌, ◌^◌};
    ghost use Rattle.ms_raw.specs.Blocks.{Lists, IsLists, IsParts, distance};

    ghost Value = { Lists };

    ghost view = { λ b. record { bytes = b.bytes.items; shadow = b.shadow.items; origins = b.origins.items } };

    ghost invariant = { λ b. (b.len ≤ 2 ^ 26) × IsLists b.len (record { bytes = b.bytes.items; shadow = b.shadow.items; origins = b.origins.items }) × IsParts b.len b.bytes b.shadow b.origins × (b.lease.at ≡ b.bytes.at) × (b.lease.size ≡ distance b.len + distance b.len + distance b.len) × (b.lease.alloc ≡ b.alloc) };
}

impl Block {
    /// A block of `n` zero bytes, whose shadow and origins are 0. Asks for memory once.
    ///
    /// `NoMemory` where that memory runs out.
    pub fn new(alloc: Global, n: u64) -> Result<Block, NoMemory>
        requires { n ≤ 2 ^ 26 }
        ensures { IfOk result (λ b. b ≡ blank n) }
    {
        let size = distance(n);
        let Some((memory, lease)) = Memory::new(&alloc, size + size + size) else {
            return Err(AllocError);
        };
        let (first, rest) = memory.cut(size);
        let (second, third) = rest.cut(size);
        let len = n as usize;
        let bytes = RawBytes::zeros(first, len);
        let shadow = RawBytes::zeros(second, len);
        let origins = Cells::zeros(third, (len + 3) / 4);
        Ok(Block {
            len: n,
            bytes,
            shadow,
            origins,
            lease,
            alloc,
        })
    }

    /// The number of bytes.
    pub fn len(&self) -> u64
        ensures { result ≡ length self.now.bytes }
    {
        self.len
    }

    /// The byte at a place.
    pub fn byte(&self, i: u64) -> u8
        requires { i < length self.now.bytes }
        ensures { result ≡ get_or self.now.bytes i 0 }
    {
        self.bytes.get(i as usize)
    }

    /// The shadow byte at a place.
    pub fn shadow(&self, i: u64) -> u8
        requires { i < length self.now.bytes }
        ensures { result ≡ get_or self.now.shadow i 0 }
    {
        self.shadow.get(i as usize)
    }

    /// The origin of cell `i`, which has the bytes from `4 * i` on.
    pub fn origin(&self, i: u64) -> u32
        requires { i < cells (length self.now.bytes) }
        ensures { result ≡ get_or self.now.origins i 0 }
    {
        self.origins.get(i as usize)
    }

    /// Puts a byte at a place.
    pub fn set_byte(&mut self, i: u64, v: u8)
        requires { i < length self.old.bytes }
        ensures bytes { self.new.bytes ≡ set self.old.bytes i v }
        ensures shadow { self.new.shadow ≡ self.old.shadow }
        ensures origins { self.new.origins ≡ self.old.origins }
    {
        self.bytes.put(i as usize, v);
    }

    /// Puts a shadow byte at a place.
    pub fn set_shadow(&mut self, i: u64, v: u8)
        requires { i < length self.old.bytes }
        ensures bytes { self.new.bytes ≡ self.old.bytes }
        ensures shadow { self.new.shadow ≡ set self.old.shadow i v }
        ensures origins { self.new.origins ≡ self.old.origins }
    {
        self.shadow.put(i as usize, v);
    }

    /// Puts four bytes at the places from one on.
    pub fn set_four(&mut self, i: u64, a: u8, b: u8, c: u8, d: u8)
        requires { i + 3 < length self.old.bytes }
        ensures bytes { self.new.bytes ≡ set (set (set (set self.old.bytes i a) (i + 1) b) (i + 2) c) (i + 3) d }
        ensures shadow { self.new.shadow ≡ self.old.shadow }
        ensures origins { self.new.origins ≡ self.old.origins }
    {
        self.bytes.put_four(i as usize, a, b, c, d);
    }

    /// Puts four shadow bytes at the places from one on.
    pub fn set_four_shadow(&mut self, i: u64, a: u8, b: u8, c: u8, d: u8)
        requires { i + 3 < length self.old.bytes }
        ensures bytes { self.new.bytes ≡ self.old.bytes }
        ensures shadow { self.new.shadow ≡ set (set (set (set self.old.shadow i a) (i + 1) b) (i + 2) c) (i + 3) d }
        ensures origins { self.new.origins ≡ self.old.origins }
    {
        self.shadow.put_four(i as usize, a, b, c, d);
    }

    /// Puts eight bytes at the places from one on.
    pub fn set_eight(&mut self, i: u64, a: u8, b: u8, c: u8, d: u8, e: u8, f: u8, g: u8, h: u8)
        requires { i + 7 < length self.old.bytes }
        ensures bytes { self.new.bytes ≡ set (set (set (set (set (set (set (set self.old.bytes i a) (i + 1) b) (i + 2) c) (i + 3) d) (i + 4) e) (i + 5) f) (i + 6) g) (i + 7) h }
        ensures shadow { self.new.shadow ≡ self.old.shadow }
        ensures origins { self.new.origins ≡ self.old.origins }
    {
        self.bytes.put_eight(i as usize, a, b, c, d, e, f, g, h);
    }

    /// Puts eight shadow bytes at the places from one on.
    pub fn set_eight_shadow(
        &mut self,
        i: u64,
        a: u8,
        b: u8,
        c: u8,
        d: u8,
        e: u8,
        f: u8,
        g: u8,
        h: u8,
    )
        requires { i + 7 < length self.old.bytes }
        ensures bytes { self.new.bytes ≡ self.old.bytes }
        ensures shadow { self.new.shadow ≡ set (set (set (set (set (set (set (set self.old.shadow i a) (i + 1) b) (i + 2) c) (i + 3) d) (i + 4) e) (i + 5) f) (i + 6) g) (i + 7) h }
        ensures origins { self.new.origins ≡ self.old.origins }
    {
        self.shadow.put_eight(i as usize, a, b, c, d, e, f, g, h);
    }

    /// Puts an origin into cell `i`, which has the bytes from `4 * i` on.
    pub fn set_origin(&mut self, i: u64, v: u32)
        requires { i < cells (length self.old.bytes) }
        ensures bytes { self.new.bytes ≡ self.old.bytes }
        ensures shadow { self.new.shadow ≡ self.old.shadow }
        ensures origins { self.new.origins ≡ set self.old.origins i v }
    {
        self.origins.put(i as usize, v);
    }

    /// Copies `n` bytes from place `from` on to place `to` on, as they were before.
    pub fn copy_within(&mut self, to: u64, from: u64, n: u64)
        requires to { to + n ≤ length self.old.bytes }
        requires from { from + n ≤ length self.old.bytes }
        ensures bytes { self.new.bytes ≡ copied self.old.bytes to from n }
        ensures len { length self.new.bytes ≡ length self.old.bytes }
        ensures shadow { self.new.shadow ≡ self.old.shadow }
        ensures origins { self.new.origins ≡ self.old.origins }
    {
        self.bytes
            .copy_within(to as usize, from as usize, n as usize);
    }

    /// Gives each of `n` bytes the shadow that its source had before, and each of them whose new shadow isn't 0, in
    /// rising order, puts the origin that its source's cell had before into its own cell.
    pub fn copy_shadow_within(&mut self, to: u64, from: u64, n: u64)
        requires to { to + n ≤ length self.old.bytes }
        requires from { from + n ≤ length self.old.bytes }
        ensures bytes { self.new.bytes ≡ self.old.bytes }
        ensures shadow { self.new.shadow ≡ copied self.old.shadow to from n }
        ensures origins { self.new.origins ≡ copied_cells self.old.shadow self.old.origins to from n self.old.origins }
    {
        let to = to as usize;
        let from = from as usize;
        let n = n as usize;
        self.origins.copy_within(&self.shadow, to, from, n);
        self.shadow.copy_within(to, from, n);
    }
}

impl Drop for Block {
    fn drop(self) {
        let Block {
            len,
            bytes,
            shadow,
            origins,
            lease,
            alloc,
        } = self;
        let size = distance(len);
        let first = bytes.into_memory(size);
        let second = shadow.into_memory(size);
        let third = origins.into_memory(size);
        first.join(second).join(third).free(lease, &alloc);
    }
}
