//! What a run tells beside its result: the picks that it made.
ghost use Rattle.std.specs.Prelude.{◌≡◌, [], IfOk, OnOk};
ghost use Rattle.ms_threads.specs.Recording.{Records, RecordsNext, pick_of};

use ms_bits::NoMemory;
use std::alloc::Global;

/// A pick of a run: which thread went on, counted from 0 in order of number, of how many that could.
#[derive(Clone, Copy, Debug, PartialEq, Eq)]
pub struct Choice {
    pub chosen: u8,
    pub among: u8,
}

/// How many picks are kept: as many as a schedule may have numbers.
const LIMIT: usize = 2048;

/// The first picks of a run, in order; forced ones, among 1, too.
#[derive(Drop)]
pub struct Recorder {
    pub picks: Vec<Choice>,
    /// Whether more were made.
    pub more: bool,
}

impl Recorder {
    /// A recorder of no picks. It takes no memory yet.
    pub fn new(alloc: Global) -> Recorder
        ensures { Records result [] }
    {
        Recorder {
            picks: Vec::new(alloc),
            more: false,
        }
    }

    /// One more pick was made. Takes memory where it is kept.
    pub fn record(&mut self, pick: Choice) -> Result<(), NoMemory>
        ensures { OnOk result (RecordsNext (pick_of pick) self.old self.new) }
    {
        if self.picks.len() >= LIMIT {
            self.more = true;
            return Ok(());
        }
        self.picks.push(pick)?;
        Ok(())
    }
}
