//! What functions of whole words answer (LLVM Language Reference, "Bit Manipulation Intrinsics", "Standard C/C++ Library
//! Intrinsics", "Saturation Arithmetic Intrinsics" and "'llvm.expect' Intrinsic").
ghost use Rattle.std.specs.Prelude.{◌≡◌, ◌≤◌, ◌<◌, ◌+◌, ◌-◌, ◌*◌, ◌^◌, eqb, max, min, unsigned_abs};
ghost use lib.Count.{count_leading_zeros, count_trailing_zeros};
ghost use Rattle.ms_bits.specs.{Formulas.{turned_sign}, Signed.{signed}};
ghost use Rattle.ms_bits.specs.WordFunctions.{bits_of, bswap_of, bitreverse_of, window as window_of, fshl_of, fshr_of, smax_of, smin_of, abs_of, saturated as saturated_of, word_answer, moved, moved_by as moved_by_of};

use crate::traps::Trap;
use crate::word_functions::{BitMove, WordFn, WordWidth};
use crate::words::limit;

/// The zeros above the highest bit that is 1.
fn leading_zeros(width: WordWidth, a: u64) -> u64
    requires { a < 2 ^ bits_of width }
    ensures { result ≡ count_leading_zeros (bits_of width) a }
{
    match width {
        WordWidth::I8 => (a as u8).leading_zeros() as u64,
        WordWidth::I16 => (a as u16).leading_zeros() as u64,
        WordWidth::I32 => (a as u32).leading_zeros() as u64,
        WordWidth::I64 => a.leading_zeros() as u64,
    }
}

/// The zeros below the lowest bit that is 1.
fn trailing_zeros(width: WordWidth, a: u64) -> u64
    requires { a < 2 ^ bits_of width }
    ensures { result ≡ count_trailing_zeros (bits_of width) a }
{
    match width {
        WordWidth::I8 => (a as u8).trailing_zeros() as u64,
        WordWidth::I16 => (a as u16).trailing_zeros() as u64,
        WordWidth::I32 => (a as u32).trailing_zeros() as u64,
        WordWidth::I64 => a.trailing_zeros() as u64,
    }
}

/// The bytes in the other order.
#[tactic(auto, unfolding(crate::specs::WordFunctions::bswap_of))]
fn bswap(width: u8, a: u64) -> u64
    requires some { 8 ≤ width }
    requires few { width ≤ 64 }
    ensures { result ≡ bswap_of width a }
{
    let mut value: u64 = 0;
    for i in 0..width {
        let place = (width - 8).saturating_sub(i / 8 * 8) + i % 8;
        value += ((a >> place) & 1) * (1u64 << i);
    }
    value
}

/// The bits in the other order.
#[tactic(auto, unfolding(crate::specs::WordFunctions::bitreverse_of))]
fn bitreverse(width: u8, a: u64) -> u64
    requires some { 1 ≤ width }
    requires few { width ≤ 64 }
    ensures { result ≡ bitreverse_of width a }
{
    let mut value: u64 = 0;
    for i in 0..width {
        value += ((a >> (width - 1 - i)) & 1) * (1u64 << i);
    }
    value
}

/// The word that begins at bit `k` of two words, of which the first stands above the second.
#[tactic(auto, unfolding(crate::specs::WordFunctions::window))]
fn window(width: u8, k: u8, a: u64, b: u64) -> u64
    requires few { width ≤ 64 }
    requires start { k ≤ 64 }
    ensures { result ≡ window_of width k a b }
{
    let limit = limit(width);
    let both = a as u128 * limit + b as u128;
    ((both >> k) % limit) as u64
}

/// The upper word of two, `a` above `b`, that are shifted to the left by the amount modulo the width.
#[tactic(auto, unfolding(crate::specs::WordFunctions::fshl_of))]
fn fshl(width: u8, a: u64, b: u64, amount: u64) -> u64
    requires some { 1 ≤ width }
    requires few { width ≤ 64 }
    ensures { result ≡ fshl_of width a b amount }
{
    window(width, width - (amount % width as u64) as u8, a, b)
}

/// The lower word of two, `a` above `b`, that are shifted to the right by the amount modulo the width.
#[tactic(auto, unfolding(crate::specs::WordFunctions::fshr_of))]
fn fshr(width: u8, a: u64, b: u64, amount: u64) -> u64
    requires some { 1 ≤ width }
    requires few { width ≤ 64 }
    ensures { result ≡ fshr_of width a b amount }
{
    window(width, (amount % width as u64) as u8, a, b)
}

/// The greater of two unsigned words.
fn greater(a: u64, b: u64) -> u64
    ensures { result ≡ max a b }
{
    if a < b { b } else { a }
}

/// The smaller of two unsigned words.
fn smaller(a: u64, b: u64) -> u64
    ensures { result ≡ min a b }
{
    if a < b { a } else { b }
}

/// The word with its sign bit turned: the order of signed words is the unsigned order of these.
#[tactic(auto, unfolding(crate::specs::Formulas::turned_sign))]
fn turned(width: u8, a: u64) -> u64
    requires some { 1 ≤ width }
    requires few { width ≤ 64 }
    ensures { result ≡ turned_sign width a }
{
    a ^ (1u64 << (width - 1))
}

/// The greater of two signed words.
#[tactic(auto, unfolding(crate::specs::WordFunctions::smax_of))]
fn signed_greater(width: u8, a: u64, b: u64) -> u64
    requires some { 1 ≤ width }
    requires few { width ≤ 64 }
    ensures { result ≡ smax_of width a b }
{
    turned(width, greater(turned(width, a), turned(width, b)))
}

/// The smaller of two signed words.
#[tactic(auto, unfolding(crate::specs::WordFunctions::smin_of))]
fn signed_smaller(width: u8, a: u64, b: u64) -> u64
    requires some { 1 ≤ width }
    requires few { width ≤ 64 }
    ensures { result ≡ smin_of width a b }
{
    turned(width, smaller(turned(width, a), turned(width, b)))
}

/// The absolute value; that of the least number is its own.
#[tactic(auto, unfolding(crate::specs::WordFunctions::abs_of))]
fn absolute(width: u8, a: u64) -> u64
    requires few { width ≤ 64 }
    requires fits { a < 2 ^ width }
    ensures { result ≡ abs_of width a }
{
    let limit = limit(width);
    if limit <= 2 * (a as u128) {
        (limit - a as u128) as u64
    } else {
        a
    }
}

/// Whether a word is the least signed number.
fn is_least(width: u8, a: u64) -> bool
    requires { width ≤ 64 }
    ensures { result ≡ eqb (2 * a) (2 ^ width) }
{
    2 * (a as u128) == limit(width)
}

/// The sum, or the greatest word where that is smaller.
fn unsigned_sum(width: u8, a: u64, b: u64) -> u64
    requires { width ≤ 64 }
    ensures { result ≡ min (a + b) (2 ^ width - 1) }
{
    let sum = a as u128 + b as u128;
    let most = limit(width) - 1;
    if sum < most { sum as u64 } else { most as u64 }
}

/// A number as a signed one of so many bits, for saturated sums; what doesn't fit them counts as -1.
#[tactic(auto, unfolding(crate::specs::Signed::signed))]
fn signed_number(width: u8, a: u64) -> i128
    requires { width ≤ 64 }
    ensures value { result ≡ signed width a }
    ensures small { unsigned_abs result ≤ 2 ^ 64 }
{
    let unsigned = a as u128;
    let limit = limit(width);
    if 2 * unsigned < limit {
        unsigned as i128
    } else if unsigned < limit {
        unsigned as i128 - limit as i128
    } else {
        -1
    }
}

/// The nearest signed word to a whole number.
fn saturated(width: u8, number: i128) -> u64
    requires some { 1 ≤ width }
    requires few { width ≤ 64 }
    ensures { result ≡ saturated_of width number }
{
    let most = limit(width - 1) - 1;
    if number < 0 {
        let below = (-(number + 1)) as u128;
        let kept = if below < most { below } else { most };
        (limit(width) - 1 - kept) as u64
    } else {
        let above = number as u128;
        if above < most {
            above as u64
        } else {
            most as u64
        }
    }
}

/// What a function of whole words returns of three operands, of which it takes as many as it needs. Where a function has a flag,
/// `b` is it. Takes no memory.
///
/// # Errors
///
/// - `ZeroPoison`: a count of zeros of 0, with the flag that this is poison;
/// - `Nsw`: the absolute value of the least number, with the flag that this is poison.
pub fn answer_word(function: WordFn, width: WordWidth, a: u64, b: u64, c: u64) -> Result<u64, Trap>
    requires { a < 2 ^ bits_of width }
    ensures { result ≡ word_answer function (bits_of width) a b c }
{
    let bits = width.bits();
    match function {
        WordFn::Ctpop => Ok(a.count_ones() as u64),
        WordFn::Ctlz => {
            if b == 1 && a == 0 {
                Err(Trap::ZeroPoison)
            } else {
                Ok(leading_zeros(width, a))
            }
        }
        WordFn::Cttz => {
            if b == 1 && a == 0 {
                Err(Trap::ZeroPoison)
            } else {
                Ok(trailing_zeros(width, a))
            }
        }
        WordFn::Bswap => Ok(bswap(bits, a)),
        WordFn::Bitreverse => Ok(bitreverse(bits, a)),
        WordFn::Abs => {
            if b == 1 && is_least(bits, a) {
                Err(Trap::Nsw)
            } else {
                Ok(absolute(bits, a))
            }
        }
        WordFn::Smax => Ok(signed_greater(bits, a, b)),
        WordFn::Smin => Ok(signed_smaller(bits, a, b)),
        WordFn::Umax => Ok(greater(a, b)),
        WordFn::Umin => Ok(smaller(a, b)),
        WordFn::Fshl => Ok(fshl(bits, a, b, c)),
        WordFn::Fshr => Ok(fshr(bits, a, b, c)),
        WordFn::UaddSat => Ok(unsigned_sum(bits, a, b)),
        WordFn::UsubSat => Ok(a.saturating_sub(b)),
        WordFn::SaddSat => Ok(saturated(bits, signed_number(bits, a) + signed_number(bits, b))),
        WordFn::SsubSat => Ok(saturated(bits, signed_number(bits, a) - signed_number(bits, b))),
        WordFn::Expect => Ok(a),
    }
}

/// What a function that moves bits gives of words of so many bits; 0 for every other function.
fn moved_by(function: WordFn, width: u8, a: u64, b: u64, c: u64) -> u64
    requires some { 8 ≤ width }
    requires few { width ≤ 64 }
    ensures { result ≡ moved_by_of function width a b c }
{
    match function {
        WordFn::Bswap => bswap(width, a),
        WordFn::Bitreverse => bitreverse(width, a),
        WordFn::Fshl => fshl(width, a, b, c),
        WordFn::Fshr => fshr(width, a, b, c),
        _ => 0,
    }
}

/// What a function that moves bits gives of three operands, words or their masks, of which it takes as many as it needs. Takes no
/// memory.
pub fn move_bits(kind: BitMove, a: u64, b: u64, c: u64) -> u64
    ensures { result ≡ moved kind a b c }
{
    moved_by(kind.function(), kind.width().bits(), a, b, c)
}
