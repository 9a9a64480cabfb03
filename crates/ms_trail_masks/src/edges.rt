//! The edge that a jump takes, and the masks of its phis. For traced runs of `explain`.
ghost use Rattle.std.specs.Prelude.{◌≡◌, ◌≤◌, ◌<◌, ℕ, List, length, take, All, OnOk};
ghost use Rattle.ms_machine_code.specs.Fits.{IsMove};
ghost use Rattle.ms_trail_masks.specs.{Views.{IsView}, Shades.{masks_read}};

use crate::words::{View, mask_of};
use ms_bits::NoMemory;
use ms_machine_code::PhiMove;

/// Reads the masks of a jump's phis, in the place of what stands in `row`, whose memory is used again.
pub fn read_masks(view: &View<'_>, moves: &[PhiMove], row: &mut Vec<u64>) -> Result<(), NoMemory>
    requires view { IsView view.now }
    requires moves { All (IsMove (length view.now.values.now)) moves.now }
    ensures { OnOk result (row.new.items ≡ masks_read view.now.masks.now moves.now) }
{
    row.clear();
    for phi in moves {
        row.push(mask_of(view, 64, phi.from))?;
    }
    Ok(())
}
