//! Masks of addresses that `getelementptr` computes. For traced runs of `explain`.
ghost use Rattle.std.specs.Prelude.{◌≡◌, ◌≤◌, ◌<◌, ◌^◌, length, drop, get_or, All, bit_or};
ghost use Rattle.ms_bits.specs.Formulas.{carry_mask as carry_mask_of};
ghost use Rattle.ms_machine_code.specs.{Words.{extended_by}, Fits.{IsSource, IsStride}};
ghost use Rattle.ms_trail_masks.specs.Shades.{mask_of as mask_read, stride_mask as mask_of_stride, strides_mask as mask_of_strides};
ghost use Rattle.ms_trail_masks.specs.Views.{IsView};

use crate::carry_mask;
use crate::words::{View, mask_of};
use ms_machine_code::{Stride, WordSource};

/// A mask that is at most `greatest`, sign-extended to 64 bits.
fn extended(greatest: u64, mask: u64) -> u64
    requires { mask ≤ greatest }
    ensures is { result ≡ extended_by greatest mask }
    ensures fits { result < 2 ^ 64 }
{
    if mask <= greatest / 2 {
        mask
    } else {
        mask + (u64::MAX - greatest)
    }
}

/// The mask of an index, sign-extended to 64 bits.
#[tactic(auto, using(std::proofs::lemmas::Nat::and_le_r))]
fn stride_mask(view: &View<'_>, stride: &Stride) -> u64
    requires view { IsView view.now }
    requires stride { IsStride (length view.now.values.now) stride.now }
    ensures is { result ≡ mask_of_stride view.now.masks.now stride.now }
    ensures fits { result < 2 ^ 64 }
{
    extended(stride.mask, mask_of(view, 64, stride.index) & stride.mask)
}

/// The stride with a number.
fn stride_at(strides: &[Stride], number: usize) -> &Stride
    requires { number < length strides.now }
    ensures { result.now ≡ get_or strides.now number result.now }
{
    &strides[number]
}

/// The union of the masks of indices.
fn strides_mask(view: &View<'_>, strides: &[Stride]) -> u64
    requires view { IsView view.now }
    requires strides { All (IsStride (length view.now.values.now)) strides.now }
    ensures is { result ≡ mask_of_strides view.now.masks.now strides.now }
    ensures fits { result < 2 ^ 64 }
{
    let mut mask = 0;
    let mut left = strides.len();
    while 0 < left {
        left -= 1;
        let stride = stride_at(strides, left);
        mask = stride_mask(view, stride) | mask;
    }
    mask
}

/// The mask of an address, which is a sum of a base and indices; an index that is an integer is clean.
pub fn address_mask(view: &View<'_>, base: WordSource, strides: &[Stride]) -> u64
    requires view { IsView view.now }
    requires base { IsSource (length view.now.values.now) 64 base }
    requires strides { All (IsStride (length view.now.values.now)) strides.now }
    ensures { result ≡ carry_mask_of 64 (bit_or (mask_read view.now.masks.now base) (mask_of_strides view.now.masks.now strides.now)) }
{
    carry_mask(64, mask_of(view, 64, base) | strides_mask(view, strides))
}
