//! Words of 1 to 64 bits (LLVM Language Reference, "Integer Type").
ghost use Rattle.std.specs.Prelude.{◌≡◌, ◌^◌, ◌<◌, ◌≤◌};
ghost use Rattle.ms_bits.specs.Numeral.{Numeral};

use std::marker::Model;

/// A value of an integer type `iN`, or a pointer as an `i64`: its width in bits, from 1 to 64, and its number, below 2 to
/// the width. Contracts see the two as a `Numeral`.
#[derive(Clone, Copy, Debug, PartialEq, Eq)]
pub struct Word {
    width: u8,
    value: u64,
}

impl Model for Word {
    ghost Value = { Numeral };

    ghost view = { λ w. record { width = w.width; value = w.value } };

    ghost invariant = { λ w. record { some : 1 ≤ w.width; few : w.width ≤ 64; fits : w.value < 2 ^ w.width } };

    ghost inverse = { λ n. record { width = n.width; value = n.value } };
}

impl Word {
    /// The word of `width` bits with the number `value`.
    pub fn new(width: u8, value: u64) -> Word
        requires some { 1 ≤ width }
        requires few { width ≤ 64 }
        requires fits { value < 2 ^ width }
        ensures { result ≡ record { width = width; value = value } }
    {
        Word { width, value }
    }

    /// The width in bits.
    pub fn width(&self) -> u8
        ensures width { result ≡ self.now.width }
        ensures some { 1 ≤ result }
        ensures few { result ≤ 64 }
    {
        self.width
    }

    /// The number, read as unsigned.
    pub fn value(&self) -> u64
        ensures value { result ≡ self.now.value }
        ensures fits { result < 2 ^ self.now.width }
    {
        self.value
    }
}

/// 2 to the power of `width`: the least number that a word of this width cannot hold.
pub fn limit(width: u8) -> u128
    requires { width ≤ 64 }
    ensures { result ≡ 2 ^ width }
{
    1u128 << width
}
