//! The masks of a frame's values, kept beside it in a traced run.
ghost use Rattle.std.specs.Prelude.{◌≡◌, replicate, IfOk};

use ms_bits::NoMemory;
use std::alloc::Global;

/// The masks of a call's values, each by its number. Calls are numbered from 0 as they are made.
#[derive(Drop)]
pub struct FrameMasks {
    /// Of the call.
    pub number: u64,
    /// Of poisoned bits, by the numbers of values.
    pub masks: Vec<u64>,
}

impl FrameMasks {
    /// The call `number`, with so many values, of which none is poisoned.
    pub fn new(alloc: Global, number: u64, values: usize) -> Result<FrameMasks, NoMemory>
        ensures number { IfOk result (λ s. s.number ≡ number) }
        ensures masks { IfOk result (λ s. s.masks.items ≡ replicate values 0) }
    {
        let mut masks = Vec::new(alloc);
        masks.resize(values, 0)?;
        Ok(FrameMasks { number, masks })
    }
}
