//! The public call: the clean values of a checked module.
ghost use Rattle.std.specs.Prelude.{◌≡◌, length, IfOk};
ghost use Rattle.ms_elide.specs.CleanSets.{IsExact};

use crate::sets::{CleanSet, clean_values};
use ms_bits::NoMemory;
use ms_check::CheckedModule;
use std::alloc::Global;

/// The clean values of a checked module, as `clean_values` gives them.
pub fn clean(alloc: Global, m: &CheckedModule) -> Result<CleanSet<'_>, NoMemory>
    ensures functions { IfOk result (λ s. length s ≡ length m.now.funcs) }
    ensures exact { IfOk result (λ s. IsExact m.now s) }
{
    m.law_valid();
    clean_values(alloc, m.module())
}
