//! Masks of results, by the formulas, as numbers (after Stepanov and Serebryany, CGO 2015). `v` and `u` are the words of the
//! operands, `m` and `k` their masks; `t` is a condition and `n` its mask. For traced runs of `explain`.
ghost use Rattle.std.specs.Prelude.{◌≡◌, ◌≤◌, ◌<◌, ◌+◌, ◌-◌, ◌%◌, ◌^◌, ltb, leb};
ghost use Rattle.ms_bits.specs.{Arithmetic.{binary_of}, Conversions.{Allows, cast_of, select_of}, NoFlags.{no_flags}};
ghost use Rattle.ms_bits.specs.Formulas.{and_mask as and_mask_of, or_mask as or_mask_of, eq_mask as eq_mask_of, order_mask as order_mask_of, turned_sign as turned_sign_of, compare_mask as compare_mask_of, select_mask as select_mask_of, carry_mask as carry_mask_of};

use ms_bits::{BinOp, CastOp, NO_FLAGS, Pred, Trap, Word, binary, cast};

/// The greatest number of a width.
pub fn ones(width: u8) -> u64
    requires some { 1 ≤ width }
    requires few { width ≤ 64 }
    ensures { result ≡ 2 ^ width - 1 }
{
    if width == 64 {
        u64::MAX
    } else {
        (1u64 << width) - 1
    }
}

/// 'and': no defined 0, and some bit poisoned.
#[tactic(auto, unfolding(ms_bits::specs::Formulas::and_mask))]
pub fn and_mask(v: u64, m: u64, u: u64, k: u64) -> u64
    ensures { result ≡ and_mask_of v m u k }
{
    (v | m) & (u | k) & (m | k)
}

/// 'or': no defined 1, and some bit poisoned.
#[tactic(auto, unfolding(ms_bits::specs::Formulas::or_mask))]
pub fn or_mask(width: u8, v: u64, m: u64, u: u64, k: u64) -> u64
    requires some { 1 ≤ width }
    requires few { width ≤ 64 }
    ensures { result ≡ or_mask_of width v m u k }
{
    let all = ones(width);
    ((v ^ all) | m) & ((u ^ all) | k) & (m | k)
}

/// 0 less a number, in `width` bits.
pub(crate) fn negated(width: u8, number: u64) -> u64
    requires some { 1 ≤ width }
    requires few { width ≤ 64 }
    requires fits { number < 2 ^ width }
    ensures { result ≡ (0 + (2 ^ width - number)) % 2 ^ width }
{
    if number == 0 {
        0
    } else {
        ones(width) - number + 1
    }
}

/// 'add', 'sub', 'mul' and 'getelementptr', where carries count: `union`, the poisoned bits of the operands, and all bits above the
/// lowest of them.
#[tactic(auto, unfolding(ms_bits::specs::Formulas::carry_mask))]
pub fn carry_mask(width: u8, union: u64) -> u64
    requires some { 1 ≤ width }
    requires few { width ≤ 64 }
    requires fits { union < 2 ^ width }
    ensures { result ≡ carry_mask_of width union }
{
    union | negated(width, union)
}

/// What an operation without flags gives of two numbers: a mask shifted as its word is.
pub fn combined(op: BinOp, width: u8, a: u64, b: u64) -> Result<u64, Trap>
    requires some { 1 ≤ width }
    requires few { width ≤ 64 }
    requires first { a < 2 ^ width }
    requires second { b < 2 ^ width }
    ensures { result ≡ binary_of op no_flags width a b }
{
    let word = binary(op, NO_FLAGS, Word::new(width, a), Word::new(width, b))?;
    Ok(word.value())
}

/// What a cast without flags gives of a number: a mask cast as its word is.
pub fn converted(op: CastOp, width: u8, a: u64, into: u8) -> Result<u64, Trap>
    requires some { 1 ≤ width }
    requires few { width ≤ 64 }
    requires fits { a < 2 ^ width }
    requires allowed { Allows op width into }
    ensures { result ≡ cast_of op no_flags width a into }
{
    let word = cast(op, NO_FLAGS, Word::new(width, a), into)?;
    Ok(word.value())
}

/// 'icmp eq' and 'icmp ne': no bit that is defined in both differs, and some bit is poisoned.
#[tactic(auto, unfolding(ms_bits::specs::Formulas::eq_mask))]
fn eq_mask(v: u64, m: u64, u: u64, k: u64) -> u64
    ensures { result ≡ eq_mask_of v m u k }
{
    let poisoned = m | k;
    (((v ^ u) | poisoned) == poisoned) as u64 & !(poisoned == 0) as u64
}

/// An ordered comparison by `<`: 1 where its answers differ for the least `v` beside the greatest `u`, and for the greatest `v`
/// beside the least `u`.
#[tactic(auto, unfolding(ms_bits::specs::Formulas::order_mask, ms_bits::specs::Formulas::greatest, ms_bits::specs::Formulas::least))]
fn less_mask(v: u64, m: u64, u: u64, k: u64) -> u64
    ensures { result ≡ order_mask_of ltb v m u k }
{
    ((((v | m) ^ m) < (u | k)) as u64) ^ (((v | m) < ((u | k) ^ k)) as u64)
}

/// An ordered comparison by `<=`, in the same way.
#[tactic(auto, unfolding(ms_bits::specs::Formulas::order_mask, ms_bits::specs::Formulas::greatest, ms_bits::specs::Formulas::least))]
fn at_most_mask(v: u64, m: u64, u: u64, k: u64) -> u64
    ensures { result ≡ order_mask_of leb v m u k }
{
    ((((v | m) ^ m) <= (u | k)) as u64) ^ (((v | m) <= ((u | k) ^ k)) as u64)
}

/// A word with its sign bit turned.
#[tactic(auto, unfolding(ms_bits::specs::Formulas::turned_sign))]
pub(crate) fn turned(width: u8, v: u64) -> u64
    requires some { 1 ≤ width }
    requires few { width ≤ 64 }
    ensures { result ≡ turned_sign_of width v }
{
    v ^ (1u64 << (width - 1))
}

/// The mask of a comparison's result, a bit: which formula the predicate takes. Signed order is that of words whose sign bits are
/// turned.
#[tactic(auto, unfolding(ms_bits::specs::Formulas::compare_mask))]
pub fn compare_mask(pred: Pred, width: u8, v: u64, m: u64, u: u64, k: u64) -> u64
    requires some { 1 ≤ width }
    requires few { width ≤ 64 }
    ensures { result ≡ compare_mask_of pred width v m u k }
{
    match pred {
        Pred::Eq | Pred::Ne => eq_mask(v, m, u, k),
        Pred::Ugt => less_mask(u, k, v, m),
        Pred::Uge => at_most_mask(u, k, v, m),
        Pred::Ult => less_mask(v, m, u, k),
        Pred::Ule => at_most_mask(v, m, u, k),
        Pred::Sgt => less_mask(turned(width, u), k, turned(width, v), m),
        Pred::Sge => at_most_mask(turned(width, u), k, turned(width, v), m),
        Pred::Slt => less_mask(turned(width, v), m, turned(width, u), k),
        Pred::Sle => at_most_mask(turned(width, v), m, turned(width, u), k),
    }
}

/// `a` where the condition `c` isn't 0, else `b`.
#[tactic(auto, unfolding(ms_bits::specs::Conversions::select_of))]
fn chosen(c: u64, a: u64, b: u64) -> u64
    ensures { result ≡ select_of c a b }
{
    if c == 0 { b } else { a }
}

/// 'select': the chosen operand's mask; with a poisoned condition also where the operands differ.
#[tactic(auto, unfolding(ms_bits::specs::Formulas::select_mask))]
pub fn select_mask(t: u64, n: u64, v: u64, m: u64, u: u64, k: u64) -> u64
    ensures { result ≡ select_mask_of t n v m u k }
{
    let either = (v ^ u) | m | k;
    chosen(n, either, chosen(t, m, k))
}
