//! The three areas of memory.
ghost use Rattle.std.specs.Prelude.{◌≡◌};
ghost use Rattle.ms_alloc.specs.Layout.{area_base, area_limit};

/// What an allocation is for, which decides the area that it stands in.
#[derive(Clone, Copy, Debug, PartialEq, Eq)]
pub enum AllocKind {
    /// A global, or what else stands for the whole run.
    Fixed,
    /// A block of `malloc` and its kin. Its addresses are never used again.
    Heap,
    /// An `alloca`. Its addresses are used again after its frame has returned.
    Stack,
}

impl AllocKind {
    /// The address at which the area begins.
    pub const fn base(self) -> u64
        ensures { result ≡ area_base self }
    {
        match self {
            AllocKind::Fixed => 0x7000_0000_0000,
            AllocKind::Heap => 0x7100_0000_0000,
            AllocKind::Stack => 0x7200_0000_0000,
        }
    }

    /// How many bytes the allocations of the area may take together.
    pub const fn limit(self) -> u64
        ensures { result ≡ area_limit self }
    {
        match self {
            AllocKind::Fixed => 16 << 20,
            AllocKind::Heap => 64 << 20,
            AllocKind::Stack => 1 << 20,
        }
    }
}
