//! Why the table of allocations refuses to make or end one.
ghost use Rattle.std.specs.Prelude.{◌≡◌};
ghost use Rattle.ms_alloc.specs.declared.errors.AllocError.TheVariants.{NoMemory};

use std::alloc::AllocFailed;

/// Why an allocation was not made.
#[derive(Clone, Copy, Debug, PartialEq, Eq)]
pub enum AllocError {
    /// The allocations of the area would take more than its limit.
    Full,
    /// The program itself is out of memory.
    NoMemory,
}

impl From<std::alloc::AllocError> for AllocError {
    ghost from_gives = { λ _ e. e ≡ NoMemory };

    fn from(_cause: std::alloc::AllocError) -> AllocError {
        AllocError::NoMemory
    }
}

impl<T: Drop> From<AllocFailed<T>> for AllocError {
    ghost from_gives = { λ _ e. e ≡ NoMemory };

    fn from(_cause: AllocFailed<T>) -> AllocError {
        AllocError::NoMemory
    }
}

/// What was to be ended is no live heap block.
#[derive(Clone, Copy, Debug, PartialEq, Eq)]
pub struct BadFree;
