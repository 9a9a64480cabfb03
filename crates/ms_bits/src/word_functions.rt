//! The names of the functions of whole words (LLVM Language Reference, "Bit Manipulation Intrinsics", "Standard C/C++
//! Library Intrinsics", "Saturation Arithmetic Intrinsics" and "'llvm.expect' Intrinsic").
ghost use Rattle.std.specs.Prelude.{◌≡◌, ◌≤◌};
ghost use Rattle.ms_bits.specs.WordFunctions.{bits_of, is_flagged, move_fn, move_width, move_of};

/// The functions of one to three words of one width.
#[derive(Clone, Copy, Debug, PartialEq, Eq)]
pub enum WordFn {
    /// The number of bits that are 1.
    Ctpop,
    /// The number of zeros above the highest bit that is 1.
    Ctlz,
    /// The number of zeros below the lowest bit that is 1.
    Cttz,
    /// The bytes in the other order.
    Bswap,
    /// The bits in the other order.
    Bitreverse,
    /// The absolute value.
    Abs,
    /// The greater of two signed words.
    Smax,
    /// The smaller of two signed words.
    Smin,
    /// The greater of two unsigned words.
    Umax,
    /// The smaller of two unsigned words.
    Umin,
    /// The upper word of two that are shifted to the left.
    Fshl,
    /// The lower word of two that are shifted to the right.
    Fshr,
    /// The unsigned sum, or the greatest word.
    UaddSat,
    /// The unsigned difference, or 0.
    UsubSat,
    /// The nearest signed word to the sum.
    SaddSat,
    /// The nearest signed word to the difference.
    SsubSat,
    /// The first of two words, of which the second says what the first is likely to be.
    Expect,
}

/// The widths at which these functions are named: `llvm.ctpop.i8` and so on.
#[derive(Clone, Copy, Debug, PartialEq, Eq)]
pub enum WordWidth {
    I8,
    I16,
    I32,
    I64,
}

/// The functions that move bits to other places alone, each at one width: what one gives of masks is the mask of what it
/// gives of words.
#[derive(Clone, Copy, Debug, PartialEq, Eq)]
pub enum BitMove {
    /// `bswap` of 16 bits.
    Bswap16,
    /// `bswap` of 32 bits.
    Bswap32,
    /// `bswap` of 64 bits.
    Bswap64,
    /// `bitreverse` of 8 bits.
    Bitreverse8,
    /// `bitreverse` of 16 bits.
    Bitreverse16,
    /// `bitreverse` of 32 bits.
    Bitreverse32,
    /// `bitreverse` of 64 bits.
    Bitreverse64,
    /// `fshl` of 8 bits.
    Fshl8,
    /// `fshl` of 16 bits.
    Fshl16,
    /// `fshl` of 32 bits.
    Fshl32,
    /// `fshl` of 64 bits.
    Fshl64,
    /// `fshr` of 8 bits.
    Fshr8,
    /// `fshr` of 16 bits.
    Fshr16,
    /// `fshr` of 32 bits.
    Fshr32,
    /// `fshr` of 64 bits.
    Fshr64,
}

impl WordFn {
    /// Whether the second operand is a flag: an `i1` that says that the answer for one number, 0 or the least, is poison.
    pub fn is_flagged(self) -> bool
        ensures { result ≡ is_flagged self }
    {
        match self {
            WordFn::Ctlz | WordFn::Cttz | WordFn::Abs => true,
            _ => false,
        }
    }
}

impl WordWidth {
    /// The width in bits.
    pub fn bits(self) -> u8
        ensures value { result ≡ bits_of self }
        ensures some { 8 ≤ result }
        ensures few { result ≤ 64 }
    {
        match self {
            WordWidth::I8 => 8,
            WordWidth::I16 => 16,
            WordWidth::I32 => 32,
            WordWidth::I64 => 64,
        }
    }
}

impl BitMove {
    /// Which move of bits a function is at a width, if it is one.
    pub fn of(function: WordFn, width: WordWidth) -> Option<BitMove>
        ensures { result ≡ move_of function width }
    {
        match function {
            WordFn::Bswap => match width {
                WordWidth::I8 => None,
                WordWidth::I16 => Some(BitMove::Bswap16),
                WordWidth::I32 => Some(BitMove::Bswap32),
                WordWidth::I64 => Some(BitMove::Bswap64),
            },
            WordFn::Bitreverse => match width {
                WordWidth::I8 => Some(BitMove::Bitreverse8),
                WordWidth::I16 => Some(BitMove::Bitreverse16),
                WordWidth::I32 => Some(BitMove::Bitreverse32),
                WordWidth::I64 => Some(BitMove::Bitreverse64),
            },
            WordFn::Fshl => match width {
                WordWidth::I8 => Some(BitMove::Fshl8),
                WordWidth::I16 => Some(BitMove::Fshl16),
                WordWidth::I32 => Some(BitMove::Fshl32),
                WordWidth::I64 => Some(BitMove::Fshl64),
            },
            WordFn::Fshr => match width {
                WordWidth::I8 => Some(BitMove::Fshr8),
                WordWidth::I16 => Some(BitMove::Fshr16),
                WordWidth::I32 => Some(BitMove::Fshr32),
                WordWidth::I64 => Some(BitMove::Fshr64),
            },
            _ => None,
        }
    }

    /// The function that moves the bits.
    pub fn function(self) -> WordFn
        ensures { result ≡ move_fn self }
    {
        match self {
            BitMove::Bswap16 | BitMove::Bswap32 | BitMove::Bswap64 => WordFn::Bswap,
            BitMove::Bitreverse8
            | BitMove::Bitreverse16
            | BitMove::Bitreverse32
            | BitMove::Bitreverse64 => WordFn::Bitreverse,
            BitMove::Fshl8 | BitMove::Fshl16 | BitMove::Fshl32 | BitMove::Fshl64 => WordFn::Fshl,
            BitMove::Fshr8 | BitMove::Fshr16 | BitMove::Fshr32 | BitMove::Fshr64 => WordFn::Fshr,
        }
    }

    /// The width of the words whose bits it moves.
    pub fn width(self) -> WordWidth
        ensures { result ≡ move_width self }
    {
        match self {
            BitMove::Bitreverse8 | BitMove::Fshl8 | BitMove::Fshr8 => WordWidth::I8,
            BitMove::Bswap16 | BitMove::Bitreverse16 | BitMove::Fshl16 | BitMove::Fshr16 =>
                WordWidth::I16,
            BitMove::Bswap32 | BitMove::Bitreverse32 | BitMove::Fshl32 | BitMove::Fshr32 =>
                WordWidth::I32,
            BitMove::Bswap64 | BitMove::Bitreverse64 | BitMove::Fshl64 | BitMove::Fshr64 =>
                WordWidth::I64,
        }
    }
}
