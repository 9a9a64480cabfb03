//! The word that an undefined operand reads, from the fill of the run.
ghost use Rattle.std.specs.Prelude.{◌≡◌, ◌≤◌, ◌<◌, ◌^◌};
ghost use Rattle.ms_bits.specs.Fill.{undef_word_of};

use crate::worlds::World;
use ms_bits::undef_word;

impl World {
    /// An undefined word of `width` bits, which the fill decides. Takes no memory.
    pub fn undefined(&self, width: u8) -> u64
        requires some { 1 ≤ width }
        requires few { width ≤ 64 }
        ensures word { result ≡ undef_word_of self.now.fill width }
        ensures fits { result < 2 ^ width }
    {
        undef_word(self.fill.as_slice(), width).value()
    }
}
