//! Copies that take memory, and may so fail.
ghost use Rattle.std.specs.Prelude.{◌≡◌, IfOk};

use crate::boxes::Boxed;
use crate::lists::List;
use crate::operations::{BinOp, CastOp, Flags, Pred};
use crate::traps::Trap;
use std::alloc::{AllocError, Global};

/// Memory ran out. The one answer that no clause ties to a cause.
pub type NoMemory = AllocError;

/// What can be copied where there is memory, such as the parts of a module.
pub trait Duplicate: Drop {
    /// An equal value.
    fn copy(&self, alloc: Global) -> Result<Self, NoMemory>
        ensures { IfOk result (λ c. c ≡ self.now) };
}

impl Duplicate for u8 {
    fn copy(&self, _alloc: Global) -> Result<Self, NoMemory> {
        Ok(*self)
    }
}

impl Duplicate for u32 {
    fn copy(&self, _alloc: Global) -> Result<Self, NoMemory> {
        Ok(*self)
    }
}

impl Duplicate for u64 {
    fn copy(&self, _alloc: Global) -> Result<Self, NoMemory> {
        Ok(*self)
    }
}

impl Duplicate for bool {
    fn copy(&self, _alloc: Global) -> Result<Self, NoMemory> {
        Ok(*self)
    }
}

impl Duplicate for BinOp {
    fn copy(&self, _alloc: Global) -> Result<Self, NoMemory> {
        Ok(*self)
    }
}

impl Duplicate for Pred {
    fn copy(&self, _alloc: Global) -> Result<Self, NoMemory> {
        Ok(*self)
    }
}

impl Duplicate for CastOp {
    fn copy(&self, _alloc: Global) -> Result<Self, NoMemory> {
        Ok(*self)
    }
}

impl Duplicate for Flags {
    fn copy(&self, _alloc: Global) -> Result<Self, NoMemory> {
        Ok(*self)
    }
}

impl Duplicate for Trap {
    fn copy(&self, _alloc: Global) -> Result<Self, NoMemory> {
        Ok(*self)
    }
}

impl<A: Duplicate, B: Duplicate> Duplicate for (A, B) {
    fn copy(&self, alloc: Global) -> Result<Self, NoMemory> {
        let first = self.0.copy(alloc)?;
        let second = self.1.copy(alloc)?;
        Ok((first, second))
    }
}

impl<A: Duplicate> Duplicate for Option<A> {
    fn copy(&self, alloc: Global) -> Result<Self, NoMemory> {
        match self {
            None => Ok(None),
            Some(value) => Ok(Some(value.copy(alloc)?)),
        }
    }
}

impl<A: Duplicate> Duplicate for List<A> {
    fn copy(&self, alloc: Global) -> Result<Self, NoMemory> {
        let items = self.as_slice();
        let mut copies = Vec::with_capacity(alloc, items.len())?;
        for item in items {
            copies.push(item.copy(alloc)?)?;
        }
        Ok(List::from_vec(copies))
    }
}

impl<A: Duplicate> Duplicate for Boxed<A> {
    fn copy(&self, alloc: Global) -> Result<Self, NoMemory> {
        let value = self.get().copy(alloc)?;
        Ok(Boxed::new(alloc, value)?)
    }
}
