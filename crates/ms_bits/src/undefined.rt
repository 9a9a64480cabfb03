//! Words that a program leaves undefined.
ghost use Rattle.std.specs.Prelude.{◌≡◌, ◌<◌, ◌≤◌, length};
ghost use Rattle.ms_bits.specs.Fill.{undef_word_of};

use crate::words::Word;

/// An undefined word of `width` bits (LLVM Language Reference, "Undefined Values" and "Poison Values"): its bytes, the
/// lowest first, are those of `fill`, gone through again and again. Takes no memory.
pub fn undef_word(fill: &[u8], width: u8) -> Word
    requires filled { 0 < length fill.now }
    requires some { 1 ≤ width }
    requires few { width ≤ 64 }
    ensures { result ≡ record { width = width; value = undef_word_of fill.now width } }
{
    let mut value: u64 = 0;
    for i in 0..width {
        let byte = fill[(i / 8) as usize % fill.len()];
        value += ((byte >> (i % 8)) & 1) as u64 * (1u64 << i);
    }
    Word::new(width, value)
}
