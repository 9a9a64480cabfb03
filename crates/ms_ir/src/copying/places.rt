//! Equal copies of where instructions and roots stand.

use crate::places::{Place, Root, RootKind};
use ms_bits::{Duplicate, NoMemory};
use std::alloc::Global;

impl Duplicate for RootKind {
    fn copy(&self, _alloc: Global) -> Result<Self, NoMemory> {
        Ok(*self)
    }
}

impl Duplicate for Root {
    fn copy(&self, _alloc: Global) -> Result<Self, NoMemory> {
        Ok(*self)
    }
}

impl Duplicate for Place {
    fn copy(&self, _alloc: Global) -> Result<Self, NoMemory> {
        Ok(*self)
    }
}
