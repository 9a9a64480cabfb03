//! Which operand the poisoned bits of a result come from, by the operand's place, counted from 0: the one whose origin the result
//! has.
ghost use Rattle.std.specs.Prelude.{◌≡◌, ◌≤◌, ◌<◌, ◌+◌, ◌^◌, length, drop, get_or, eqb, if◌then◌else◌, All};
ghost use Rattle.ms_bits.specs.Conversions.{select_of};
ghost use Rattle.ms_machine_code.specs.{Words.{word_of}, Fits.{IsSource, IsStride}, Reads.{is_integer as is_integer_operand}};
ghost use Rattle.ms_trail_masks.specs.{Shades.{mask_of as mask_read}, Views.{IsView}, Results.{IsComputed}};
ghost use Rattle.ms_trail_uses.specs.Origins.{head_mask, last_masked, last_stride, index_read, place_read};

use crate::checked::typed_at;
use ms_ir::{Op, Operand, Ty};
use ms_machine_code::{Code, Stride, WordSource};
use ms_trail_masks::{View, mask_of, value_of};

/// The place of the last of two operands whose mask isn't 0, given the second: 1 where its mask isn't 0, else 0.
fn last_of_two(view: &View<'_>, second: WordSource) -> usize
    requires view { IsView view.now }
    requires source { IsSource (length view.now.values.now) 64 second }
    ensures { result ≡ (if eqb (mask_read view.now.masks.now second) 0 then 0 else 1) }
{
    let mask = mask_of(view, 64, second);
    if mask != 0 { 1 } else { 0 }
}

/// The first of two places where a word isn't 0, else the second.
#[tactic(auto, using(ms_machine_frames::proofs::Selections::select_zero, ms_machine_frames::proofs::Selections::select_other))]
fn chosen(word: u64, first: usize, second: usize) -> usize
    ensures { result ≡ select_of word first second }
{
    if word == 0 { second } else { first }
}

/// The place of the operand that a `select` takes its origin from: the condition where that is poisoned, else the chosen one.
fn selected(view: &View<'_>, cond: WordSource) -> usize
    requires view { IsView view.now }
    requires source { IsSource (length view.now.values.now) 64 cond }
    ensures { result ≡ select_of (mask_read view.now.masks.now cond) 0 (select_of (word_of view.now.fill.now view.now.values.now cond) 1 2) }
{
    let word = value_of(view, 64, cond);
    let mask = mask_of(view, 64, cond);
    let place = chosen(word, 1, 2);
    chosen(mask, 0, place)
}

/// Whether an operand is an integer: as an index it has no stride in the code.
fn is_integer(typed: &(Ty, Operand)) -> bool
    ensures { result ≡ is_integer_operand typed.now.1 }
{
    match &typed.1 {
        Operand::Int(_) => true,
        _ => false,
    }
}

/// The stride with a number.
fn stride_at(strides: &[Stride], number: usize) -> &Stride
    requires { number < length strides.now }
    ensures { result.now ≡ get_or strides.now number result.now }
{
    &strides[number]
}

/// The mask of the index of stride number `next`; 0 where there is none.
fn index_mask(view: &View<'_>, strides: &[Stride], next: usize) -> u64
    requires view { IsView view.now }
    requires strides { All (IsStride (length view.now.values.now)) strides.now }
    ensures { result ≡ head_mask view.now.masks.now (drop next strides.now) }
{
    let count = strides.len();
    if next < count {
        let stride = stride_at(strides, next);
        mask_of(view, 64, stride.index)
    } else {
        0
    }
}

/// The place found so far, `best`, once operand `k` was looked at: an integer is passed, and so is one whose mask is 0.
fn better(integer: bool, mask: u64, best: usize, k: usize) -> usize
    ensures { result ≡ (if integer then best else (if eqb mask 0 then best else k)) }
{
    if integer || mask == 0 { best } else { k }
}

/// The number of the next stride after an index: an integer has none of its own.
fn place_after(integer: bool, next: usize) -> usize
    requires { next + 1 < 2 ^ 64 }
    ensures is { result ≡ (if integer then next else next + 1) }
    ensures near { result ≤ next + 1 }
{
    if integer { next } else { next + 1 }
}

/// The place of the last poisoned index of a `getelementptr` among its operands; 0, its base, where there is none.
fn last_index(view: &View<'_>, typed: &[(Ty, Operand)], strides: &[Stride]) -> usize
    requires view { IsView view.now }
    requires strides { All (IsStride (length view.now.values.now)) strides.now }
    ensures { result ≡ last_stride view.now.masks.now typed.now strides.now 1 0 }
{
    let mut best = 0;
    let mut next = 0;
    for k in 0..typed.len() {
        let integer = is_integer(typed_at(typed, k));
        let mask = index_mask(view, strides, next);
        best = better(integer, mask, best, k + 1);
        next = place_after(integer, next);
    }
    best
}

/// `last_index` of an operation; 0 where it is no `getelementptr`.
fn index_place(view: &View<'_>, op: &Op, strides: &[Stride]) -> usize
    requires view { IsView view.now }
    requires strides { All (IsStride (length view.now.values.now)) strides.now }
    ensures { result ≡ index_read view.now.masks.now op.now strides.now }
{
    match op {
        Op::Gep { indices, .. } => last_index(view, indices.as_slice(), strides),
        _ => 0,
    }
}

/// The place of the operand whose origin a result has: `op` is the operation that the code stands for.
pub fn result_place(view: &View<'_>, code: &Code, op: &Op) -> usize
    requires view { IsView view.now }
    requires computed { IsComputed (length view.now.values.now) code.now }
    ensures { result ≡ place_read view.now.fill.now view.now.values.now view.now.masks.now op.now code.now }
{
    match code {
        Code::Binary { b, .. } => last_of_two(view, *b),
        Code::Icmp { b, .. } => last_of_two(view, *b),
        Code::Select { cond, .. } => selected(view, *cond),
        Code::Gep { strides, .. } => index_place(view, op, strides.as_slice()),
        _ => 0,
    }
}

/// The place of the last of some masks that isn't 0, those of an external's arguments: the argument whose origin the answer has. 0
/// where there is none.
pub fn last_of(masks: &[u64]) -> usize
    ensures { result ≡ last_masked 0 masks.now 0 }
{
    let mut best = 0;
    for k in 0..masks.len() {
        let mask = masks[k];
        best = better(false, mask, best, k);
    }
    best
}
