//! The blind uses of a run, by their places.
ghost use Rattle.std.specs.Prelude.{◌≡◌, ◌^◌, ℕ, true, List, [], OnOk, if◌then◌else◌, ltb};
ghost use Rattle.ms_runs.specs.declared.runs.BlindPlace.{BlindPlace as BlindPlaceOf};
ghost use Rattle.ms_runs.specs.Calls.{counted_at};
ghost use Rattle.ms_runtime.specs.Places.{Placed, CountsBelow};

use indexmap::IndexSet;
use ms_bits::{List, NoMemory};
use ms_runs::BlindPlace;
use std::alloc::Global;

/// Blind uses by their places.
#[derive(Drop)]
pub struct BlindPlaces {
    /// The sites, each once, in the order of the first use there.
    pub sites: IndexSet<u32>,
    /// How many uses there were at each of them.
    pub counted: Vec<BlindPlace>,
}

impl BlindPlaces {
    /// Those of no uses. It takes no memory yet.
    pub fn new(alloc: Global) -> BlindPlaces
        ensures { Placed [] result }
    {
        BlindPlaces {
            sites: IndexSet::new(alloc),
            counted: Vec::new(alloc),
        }
    }

    /// One use more at a site.
    pub fn add(&mut self, site: u32) -> Result<(), NoMemory>
        requires { (places : List BlindPlaceOf) × (Placed places self.old × CountsBelow (2 ^ 63) places) }
        ensures { (places : List BlindPlaceOf) → Placed places self.old → OnOk result (Placed (counted_at site places) self.new) }
    {
        let (place, _new) = self.sites.insert_full(site)?;
        if place < self.counted.len() {
            self.counted[place].count += 1;
        } else {
            self.counted.push(BlindPlace { site, count: 1 })?;
        }
        Ok(())
    }

    /// One use more at a site, if there are more than before and they are wanted.
    pub fn note(&mut self, site: u32, before: u64, now: u64, wanted: bool) -> Result<(), NoMemory>
        requires { wanted ≡ true → (places : List BlindPlaceOf) × (Placed places self.old × CountsBelow (2 ^ 63) places) }
        ensures { wanted ≡ true → (places : List BlindPlaceOf) → Placed places self.old → OnOk result (Placed (if ltb before now then counted_at site places else places) self.new) }
    {
        if wanted && before < now {
            self.add(site)?;
        }
        Ok(())
    }

    /// The places, if they are wanted; else none.
    pub fn into_places(self, alloc: Global, wanted: bool) -> List<BlindPlace>
        ensures { (places : List BlindPlaceOf) → (wanted ≡ true → Placed places self) → result ≡ (if wanted then places else []) }
    {
        let BlindPlaces { counted, .. } = self;
        if wanted {
            List::from_vec(counted)
        } else {
            List::from_vec(Vec::new(alloc))
        }
    }
}
