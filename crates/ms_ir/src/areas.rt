//! Where things stand in the memory of a run (own). Where the areas of allocations begin, `ms_alloc` says too, which knows no
//! module.

/// The bits in which the address of a byte's shadow differs from that of the byte.
pub const SHADOW_BITS: u64 = 0x5000_0000_0000;

/// Where the first slot stands. The slots hand masks and origins over at calls.
pub const FIRST_SLOT: u64 = 0x6800_0000_0000;

/// Where the first global stands.
pub const FIRST_GLOBAL: u64 = 0x7000_0000_0000;

/// Where the stack begins.
pub const STACK_BASE: u64 = 0x7200_0000_0000;
