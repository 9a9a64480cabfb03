//! Masks of functions of whole words. `v`, `u` and `t` are the arguments' words, `m`, `k` and `n` their masks. For traced runs
//! of `explain`.
ghost use Rattle.std.specs.Prelude.{◌≡◌, ◌≤◌, ◌<◌, ◌-◌, ◌^◌, IfOk, eqb, if◌then◌else◌};
ghost use Rattle.ms_bits.specs.Formulas.{greatest as greatest_of, least as least_of};
ghost use Rattle.ms_bits.specs.WordFunctions.{bits_of, word_answer, places as places_of, count_mask as count_mask_of, ctpop_mask as ctpop_mask_of, ctlz_mask as ctlz_mask_of, cttz_mask as cttz_mask_of, abs_mask as abs_mask_of, greater_mask as greater_mask_of, smaller_mask as smaller_mask_of, whole_mask as whole_mask_of, word_mask as word_mask_of};

use crate::mask_formulas::{carry_mask, negated, ones, turned};
use ms_bits::{WordFn, WordWidth, answer_word};

/// The greatest number that a word with a mask may be.
#[tactic(auto, unfolding(ms_bits::specs::Formulas::greatest))]
fn greatest(v: u64, m: u64) -> u64
    ensures { result ≡ greatest_of v m }
{
    v | m
}

/// The least number that a word with a mask may be.
#[tactic(auto, unfolding(ms_bits::specs::Formulas::least))]
fn least(v: u64, m: u64) -> u64
    ensures { result ≡ least_of v m }
{
    (v | m) ^ m
}

/// How many bits a count from 0 to `width` takes.
#[tactic(auto, unfolding(ms_bits::specs::WordFunctions::places))]
fn places(width: u8) -> u8
    ensures is { result ≡ places_of width }
    ensures some { 1 ≤ result }
    ensures few { result ≤ 7 }
{
    if width < 2 {
        1
    } else if width < 4 {
        2
    } else if width < 8 {
        3
    } else if width < 16 {
        4
    } else if width < 32 {
        5
    } else if width < 64 {
        6
    } else {
        7
    }
}

/// The mask of a count of bits: all bits that it takes, unless the count is known.
#[tactic(auto, unfolding(ms_bits::specs::WordFunctions::count_mask))]
fn count_mask(width: u8, known: bool) -> u64
    ensures { result ≡ count_mask_of width known }
{
    if known { 0 } else { ones(places(width)) }
}

/// 'llvm.ctpop': known where no bit is poisoned.
#[tactic(auto, unfolding(ms_bits::specs::WordFunctions::ctpop_mask))]
fn ctpop_mask(width: u8, m: u64) -> u64
    ensures { result ≡ ctpop_mask_of width m }
{
    count_mask(width, m == 0)
}

/// 'llvm.ctlz': known where the highest bit that may be 1 is defined.
#[tactic(auto, unfolding(ms_bits::specs::WordFunctions::ctlz_mask))]
fn ctlz_mask(width: u8, v: u64, m: u64) -> u64
    ensures { result ≡ ctlz_mask_of width v m }
{
    count_mask(width, m <= least(v, m))
}

/// 'llvm.cttz': known where the lowest bit that may be 1 is defined.
#[tactic(auto, unfolding(ms_bits::specs::WordFunctions::cttz_mask))]
fn cttz_mask(width: u8, v: u64, m: u64) -> u64
    requires some { 1 ≤ width }
    requires few { width ≤ 64 }
    requires fits { greatest_of v m < 2 ^ width }
    ensures { result ≡ cttz_mask_of width v m }
{
    let most = greatest(v, m);
    let lowest = most & negated(width, most);
    count_mask(width, lowest & m == 0)
}

/// 'llvm.abs': the mask itself where the word is known not to be negative, that of the difference 0 - a where it is known to be,
/// else from the lowest bit on that may be 1.
#[tactic(auto, unfolding(ms_bits::specs::WordFunctions::abs_mask))]
fn abs_mask(width: u8, v: u64, m: u64) -> u64
    requires some { 1 ≤ width }
    requires few { width ≤ 64 }
    requires fits { greatest_of v m < 2 ^ width }
    requires value { v < 2 ^ width }
    requires mask { m < 2 ^ width }
    ensures { result ≡ abs_mask_of width v m }
{
    let half = ones(width) / 2;
    if half < m {
        carry_mask(width, greatest(v, m))
    } else if half < v {
        carry_mask(width, m)
    } else {
        m
    }
}

/// 'llvm.umax': the operand that is the greater one in all completions has the mask; else each bit in which they may differ.
#[tactic(auto, unfolding(ms_bits::specs::WordFunctions::greater_mask))]
fn greater_mask(v: u64, m: u64, u: u64, k: u64) -> u64
    ensures { result ≡ greater_mask_of v m u k }
{
    if greatest(u, k) <= least(v, m) {
        m
    } else if greatest(v, m) <= least(u, k) {
        k
    } else {
        (v ^ u) | m | k
    }
}

/// 'llvm.umin': as 'llvm.umax', by the smaller operand.
#[tactic(auto, unfolding(ms_bits::specs::WordFunctions::smaller_mask))]
fn smaller_mask(v: u64, m: u64, u: u64, k: u64) -> u64
    ensures { result ≡ smaller_mask_of v m u k }
{
    if greatest(u, k) <= least(v, m) {
        k
    } else if greatest(v, m) <= least(u, k) {
        m
    } else {
        (v ^ u) | m | k
    }
}

/// Every bit, where some bit of a mask is set: the saturating sums and differences.
fn whole_mask(width: u8, m: u64) -> u64
    requires some { 1 ≤ width }
    requires few { width ≤ 64 }
    ensures { result ≡ whole_mask_of width m }
{
    if m == 0 { 0 } else { ones(width) }
}

/// What a function of whole words answers when given the masks of its arguments as words; 0 where it traps.
fn moved_mask(function: WordFn, width: WordWidth, m: u64, k: u64, t: u64) -> u64
    requires { m < 2 ^ bits_of width }
    ensures { IfOk (word_answer function (bits_of width) m k t) (λ moved. result ≡ moved) }
{
    match answer_word(function, width, m, k, t) {
        Ok(moved) => moved,
        Err(_) => 0,
    }
}

/// The mask of 'llvm.fshl' and 'llvm.fshr': the same function of the masks, where the amount `t` is known (its mask `n` is 0), else
/// every bit.
fn shifted_mask(function: WordFn, width: WordWidth, m: u64, k: u64, t: u64, n: u64) -> u64
    requires { m < 2 ^ bits_of width }
    ensures { IfOk (word_answer function (bits_of width) m k t) (λ moved. result ≡ (if eqb n 0 then moved else (2 ^ bits_of width - 1))) }
{
    if n == 0 {
        moved_mask(function, width, m, k, t)
    } else {
        ones(width.bits())
    }
}

/// The mask of what a function answers of words `v`, `u` and `t` with the masks `m`, `k` and `n`.
pub fn word_mask(
    function: WordFn,
    width: WordWidth,
    v: u64,
    m: u64,
    u: u64,
    k: u64,
    t: u64,
    n: u64,
) -> u64
    requires fits { greatest_of v m < 2 ^ bits_of width }
    requires value { v < 2 ^ bits_of width }
    requires mask { m < 2 ^ bits_of width }
    ensures { result ≡ word_mask_of function (bits_of width) v m u k t n }
{
    let bits = width.bits();
    match function {
        WordFn::Ctpop => ctpop_mask(bits, m),
        WordFn::Ctlz => ctlz_mask(bits, v, m),
        WordFn::Cttz => cttz_mask(bits, v, m),
        WordFn::Bswap => moved_mask(WordFn::Bswap, width, m, k, t),
        WordFn::Bitreverse => moved_mask(WordFn::Bitreverse, width, m, k, t),
        WordFn::Abs => abs_mask(bits, v, m),
        WordFn::Smax => greater_mask(turned(bits, v), m, turned(bits, u), k),
        WordFn::Smin => smaller_mask(turned(bits, v), m, turned(bits, u), k),
        WordFn::Umax => greater_mask(v, m, u, k),
        WordFn::Umin => smaller_mask(v, m, u, k),
        WordFn::Fshl => shifted_mask(WordFn::Fshl, width, m, k, t, n),
        WordFn::Fshr => shifted_mask(WordFn::Fshr, width, m, k, t, n),
        WordFn::UaddSat | WordFn::UsubSat | WordFn::SaddSat | WordFn::SsubSat => whole_mask(
            bits,
            m | k,
        ),
        WordFn::Expect => m,
    }
}
