//! One allocation: its bytes, its area, whether it is live; and its place in the table.
ghost use Rattle.std.specs.Prelude.{◌≡◌, ◌≤◌};
ghost use Rattle.ms_alloc.specs.Allocations.{covers};

use crate::kinds::AllocKind;

/// An allocation, as contracts see it in a table.
#[derive(Clone, Copy, Debug)]
pub struct Allocation {
    /// The address of its first byte.
    pub base: u64,
    /// The number of bytes that were asked for.
    pub size: u64,
    /// The area that it stands in.
    pub kind: AllocKind,
    /// Whether it may be accessed. An ended heap block stays in the table and is not live.
    pub live: bool,
}

impl Allocation {
    /// Whether it is live and has the `n` bytes from `addr` on, an address that isn't below its first.
    #[inline(always)]
    pub(crate) fn covers(&self, addr: u64, n: u64) -> bool
        requires { self.now.base ≤ addr }
        ensures { result ≡ covers addr n self.now }
    {
        if !self.live {
            return false;
        }
        let offset = addr - self.base;
        offset <= self.size && n <= self.size - offset
    }
}

/// Where an allocation stands in a table.
#[derive(Clone, Copy, Debug)]
pub struct TablePlace {
    /// Its area.
    pub kind: AllocKind,
    /// How many allocations stand before it in the list of its area.
    pub index: usize,
    /// The address of its first byte.
    pub base: u64,
}
