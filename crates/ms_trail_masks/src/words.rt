//! The words that code reads in a run that is followed, with their masks. In what `IsView` each value has a mask. For traced
//! runs of `explain`.
ghost use Rattle.std.specs.Prelude.{◌≡◌, ◌<◌, ◌^◌, length};
ghost use Rattle.ms_machine_code.specs.{Words.{word_of}, Fits.{IsSource}};
ghost use Rattle.ms_trail_masks.specs.{Shades.{mask_of as mask_read}, Views.{IsView}};

use crate::ones;
use ms_bits::undef_word;
use ms_machine_code::WordSource;

/// A word that is read: its number and its mask.
#[derive(Clone, Copy, Debug, PartialEq, Eq)]
pub struct Seen {
    pub value: u64,
    /// Of poisoned bits.
    pub mask: u64,
}

/// What an instruction reads words from: the values of its frame by number, their masks of poisoned bits, and the fill of the run.
#[derive(Clone, Copy)]
pub struct View<'a> {
    pub values: &'a [u64],
    pub masks: &'a [u64],
    pub fill: &'a [u8],
}

/// The number that an operand is. `width` bounds it.
#[tactic(auto, using(std::proofs::lemmas::Nat::and_le_r, crate::proofs::Fills::below_wider))]
pub fn value_of(view: &View<'_>, width: u8, source: WordSource) -> u64
    requires view { IsView view.now }
    requires source { IsSource (length view.now.values.now) width source }
    ensures word { result ≡ word_of view.now.fill.now view.now.values.now source }
    ensures fits { result < 2 ^ width }
{
    match source {
        WordSource::Value { place, mask } => view.values[place] & mask,
        WordSource::Word(word) => word,
        WordSource::Undefined { width: bits } => undef_word(view.fill, bits).value(),
    }
}

/// The mask of poisoned bits that an operand has.
#[tactic(auto, using(std::proofs::lemmas::Nat::and_le_r, crate::proofs::Fills::ones_below))]
pub fn mask_of(view: &View<'_>, width: u8, source: WordSource) -> u64
    requires view { IsView view.now }
    requires source { IsSource (length view.now.values.now) width source }
    ensures mask { result ≡ mask_read view.now.masks.now source }
    ensures fits { result < 2 ^ width }
{
    match source {
        WordSource::Value { place, mask } => view.masks[place] & mask,
        WordSource::Word(_) => 0,
        WordSource::Undefined { width: bits } => ones(bits),
    }
}

/// The word that an operand is, with its mask.
pub fn read_word(view: &View<'_>, width: u8, source: WordSource) -> Seen
    requires view { IsView view.now }
    requires source { IsSource (length view.now.values.now) width source }
    ensures value { result.value ≡ word_of view.now.fill.now view.now.values.now source }
    ensures mask { result.mask ≡ mask_read view.now.masks.now source }
    ensures value_fits { result.value < 2 ^ width }
    ensures mask_fits { result.mask < 2 ^ width }
{
    Seen {
        value: value_of(view, width, source),
        mask: mask_of(view, width, source),
    }
}
