//! The bytes of one block, or its shadow bytes: numbers, fills, copies and searches in them.
ghost use Rattle.std.specs.Prelude.{◌≡◌, ◌≢◌, ◌≤◌, ◌<◌, ◌+◌, ◌^◌, ℕ, length, set, IfNone, IfSome, IsTrue};
ghost use Rattle.ms_bits.specs.{Fill.{made_byte}, Maps.{with_range, byte_of, number_at}};
ghost use Rattle.ms_raw.specs.Blocks.{IsLists};
ghost use Rattle.ms_planes.specs.Areas.{held};
ghost use Rattle.ms_planes.specs.Blocks.{bytes_in, with_four, with_eight, KeepsOthers, IsFilled, IsFilledInto};

use ms_raw::Block;

/// One of the two lists of bytes that a block has.
#[derive(Clone, Copy)]
pub(crate) enum Plane {
    /// The bytes of the program.
    Bytes,
    /// Their shadow bytes.
    Shadow,
}

/// The byte at a place of a block.
fn get(block: &Block, part: Plane, at: u64) -> u8
    requires { at < length block.now.bytes }
    ensures { result ≡ held (bytes_in part block.now) at }
{
    match part {
        Plane::Bytes => block.byte(at),
        Plane::Shadow => block.shadow(at),
    }
}

/// Puts a byte at a place of a block.
fn set(block: &mut Block, part: Plane, at: u64, v: u8)
    requires { at < length block.old.bytes }
    ensures shown { bytes_in part block.new ≡ set (bytes_in part block.old) at v }
    ensures others { KeepsOthers part block.old block.new }
{
    match part {
        Plane::Bytes => block.set_byte(at, v),
        Plane::Shadow => block.set_shadow(at, v),
    }
}

/// The number that the `n` bytes from place `at` on are, the least first, byte by byte.
fn number_by_bytes(block: &Block, part: Plane, at: u64, n: u8) -> u64
    requires within { at + n ≤ length block.now.bytes }
    requires short { n ≤ 8 }
    requires small { at < 2 ^ 40 }
    ensures { result ≡ number_at (held (bytes_in part block.now)) at n }
{
    let mut value = 0u64;
    let mut left = u64::from(n);
    while left > 0 {
        left -= 1;
        value = value * 256 + u64::from(get(block, part, at + left));
    }
    value
}

/// The number that the two bytes from place `at` on are, the least first.
fn two_at(block: &Block, part: Plane, at: u64) -> u16
    requires within { at + 2 ≤ length block.now.bytes }
    requires small { at < 2 ^ 40 }
    ensures { result ≡ number_at (held (bytes_in part block.now)) at 2 }
{
    u16::from_le_bytes([get(block, part, at), get(block, part, at + 1)])
}

/// The number that the four bytes from place `at` on are, the least first.
pub(crate) fn four_at(block: &Block, part: Plane, at: u64) -> u32
    requires within { at + 4 ≤ length block.now.bytes }
    requires small { at < 2 ^ 40 }
    ensures { result ≡ number_at (held (bytes_in part block.now)) at 4 }
{
    u32::from_le_bytes([
        get(block, part, at),
        get(block, part, at + 1),
        get(block, part, at + 2),
        get(block, part, at + 3),
    ])
}

/// The number that the eight bytes from place `at` on are, the least first.
fn eight_at(block: &Block, part: Plane, at: u64) -> u64
    requires within { at + 8 ≤ length block.now.bytes }
    requires small { at < 2 ^ 40 }
    ensures { result ≡ number_at (held (bytes_in part block.now)) at 8 }
{
    u64::from_le_bytes([
        get(block, part, at),
        get(block, part, at + 1),
        get(block, part, at + 2),
        get(block, part, at + 3),
        get(block, part, at + 4),
        get(block, part, at + 5),
        get(block, part, at + 6),
        get(block, part, at + 7),
    ])
}

/// The number that the `n` bytes from place `at` on are, the least first, where `n` is no usual one. Cold, and never
/// inlined, so that the usual ones don't save registers for its loop.
#[cold]
#[inline(never)]
fn rare_number(block: &Block, part: Plane, at: u64, n: u8) -> u64
    requires within { at + n ≤ length block.now.bytes }
    requires short { n ≤ 8 }
    requires small { at < 2 ^ 40 }
    ensures { result ≡ number_at (held (bytes_in part block.now)) at n }
{
    match n {
        2 => u64::from(two_at(block, part, at)),
        _ => number_by_bytes(block, part, at, n),
    }
}

/// The number that the `n` bytes from place `at` on are, the least first.
#[inline(always)]
pub(crate) fn number(block: &Block, part: Plane, at: u64, n: u8) -> u64
    requires within { at + n ≤ length block.now.bytes }
    requires short { n ≤ 8 }
    requires small { at < 2 ^ 40 }
    ensures { result ≡ number_at (held (bytes_in part block.now)) at n }
{
    match n {
        1 => u64::from(get(block, part, at)),
        4 => u64::from(four_at(block, part, at)),
        8 => eight_at(block, part, at),
        _ => rare_number(block, part, at, n),
    }
}

/// The numbers that the `n` shadow bytes and the `n` bytes from place `at` on are, the least first.
#[inline(always)]
pub(crate) fn both(block: &Block, at: u64, n: u8) -> (u64, u64)
    requires within { at + n ≤ length block.now.bytes }
    requires short { n ≤ 8 }
    requires small { at < 2 ^ 40 }
    ensures shadow { result.0 ≡ number_at (held block.now.shadow) at n }
    ensures bytes { result.1 ≡ number_at (held block.now.bytes) at n }
{
    (
        number(block, Plane::Shadow, at, n),
        number(block, Plane::Bytes, at, n),
    )
}

/// Puts the `n` low bytes of `v` at the places from `at` on, the least first. Where `n` is known the compiler makes no loop
/// of it.
#[inline(always)]
fn put_bytes(block: &mut Block, part: Plane, at: u64, n: u8, v: u64)
    requires within { at + n ≤ length block.old.bytes }
    requires small { at < 2 ^ 40 }
    requires whole { IsLists (length block.old.bytes) block.old }
    ensures shown { held (bytes_in part block.new) ≡ with_range (held (bytes_in part block.old)) at n (byte_of v) }
    ensures others { KeepsOthers part block.old block.new }
{
    let mut rest = v;
    for i in 0..u64::from(n) {
        set(block, part, at + i, (rest % 256) as u8);
        rest /= 256;
    }
}

/// Puts the four low bytes of `v` at the places from `at` on, the least first.
#[inline(always)]
fn set_four(block: &mut Block, part: Plane, at: u64, v: u64)
    requires { at + 3 < length block.old.bytes }
    ensures shown { bytes_in part block.new ≡ with_four (bytes_in part block.old) at v }
    ensures others { KeepsOthers part block.old block.new }
{
    let a = (v % 256) as u8;
    let b = (v / 256 % 256) as u8;
    let c = (v / 256 / 256 % 256) as u8;
    let d = (v / 256 / 256 / 256 % 256) as u8;
    match part {
        Plane::Bytes => block.set_four(at, a, b, c, d),
        Plane::Shadow => block.set_four_shadow(at, a, b, c, d),
    }
}

/// Puts the eight bytes of `v` at the places from `at` on, the least first.
#[inline(always)]
fn set_eight(block: &mut Block, part: Plane, at: u64, v: u64)
    requires { at + 7 < length block.old.bytes }
    ensures shown { bytes_in part block.new ≡ with_eight (bytes_in part block.old) at v }
    ensures others { KeepsOthers part block.old block.new }
{
    let a = (v % 256) as u8;
    let b = (v / 256 % 256) as u8;
    let c = (v / 256 / 256 % 256) as u8;
    let d = (v / 256 / 256 / 256 % 256) as u8;
    let high = v / 256 / 256 / 256 / 256;
    let e = (high % 256) as u8;
    let f = (high / 256 % 256) as u8;
    let g = (high / 256 / 256 % 256) as u8;
    let h = (high / 256 / 256 / 256 % 256) as u8;
    match part {
        Plane::Bytes => block.set_eight(at, a, b, c, d, e, f, g, h),
        Plane::Shadow => block.set_eight_shadow(at, a, b, c, d, e, f, g, h),
    }
}

/// Puts the four low bytes of `v` at the places from `at` on, as contracts of larger memory see it.
#[inline(always)]
fn put_four(block: &mut Block, part: Plane, at: u64, v: u64)
    requires within { at + 4 ≤ length block.old.bytes }
    requires whole { IsLists (length block.old.bytes) block.old }
    ensures shown { held (bytes_in part block.new) ≡ with_range (held (bytes_in part block.old)) at 4 (byte_of v) }
    ensures others { KeepsOthers part block.old block.new }
{
    set_four(block, part, at, v);
}

/// Puts the eight bytes of `v`, in the same way.
#[inline(always)]
fn put_eight(block: &mut Block, part: Plane, at: u64, v: u64)
    requires within { at + 8 ≤ length block.old.bytes }
    requires whole { IsLists (length block.old.bytes) block.old }
    ensures shown { held (bytes_in part block.new) ≡ with_range (held (bytes_in part block.old)) at 8 (byte_of v) }
    ensures others { KeepsOthers part block.old block.new }
{
    set_eight(block, part, at, v);
}

/// Puts `n` low bytes where `n` is no usual one. Cold, and never inlined, as `rare_number`.
#[cold]
#[inline(never)]
fn put_rare(block: &mut Block, part: Plane, at: u64, n: u8, v: u64)
    requires within { at + n ≤ length block.old.bytes }
    requires small { at < 2 ^ 40 }
    requires whole { IsLists (length block.old.bytes) block.old }
    ensures shown { held (bytes_in part block.new) ≡ with_range (held (bytes_in part block.old)) at n (byte_of v) }
    ensures others { KeepsOthers part block.old block.new }
{
    match n {
        2 => put_bytes(block, part, at, 2, v),
        _ => put_bytes(block, part, at, n, v),
    }
}

/// Puts the `n` low bytes of `v` at the places from `at` on, the least first.
#[inline(always)]
pub(crate) fn put_number(block: &mut Block, part: Plane, at: u64, n: u8, v: u64)
    requires within { at + n ≤ length block.old.bytes }
    requires small { at < 2 ^ 40 }
    requires whole { IsLists (length block.old.bytes) block.old }
    ensures shown { held (bytes_in part block.new) ≡ with_range (held (bytes_in part block.old)) at n (byte_of v) }
    ensures others { KeepsOthers part block.old block.new }
{
    match n {
        1 => put_bytes(block, part, at, 1, v),
        4 => put_four(block, part, at, v),
        8 => put_eight(block, part, at, v),
        _ => put_rare(block, part, at, n, v),
    }
}

/// Writes the bytes of `source` from place `at` on.
pub(crate) fn paste(block: &mut Block, part: Plane, at: u64, source: &[u8])
    requires within { at + length source.now ≤ length block.old.bytes }
    requires small { at < 2 ^ 40 }
    requires whole { IsLists (length block.old.bytes) block.old }
    ensures shown { held (bytes_in part block.new) ≡ with_range (held (bytes_in part block.old)) at (length source.now) (held source.now) }
    ensures others { KeepsOthers part block.old block.new }
{
    for i in 0..source.len() {
        set(block, part, at + i as u64, source[i]);
    }
}

/// Puts `v` at the `n` places from `at` on.
///
/// Takes the block by value: through a reference the compiler has to assume that a byte that is written changes the
/// block's own pointers, and loads them again in each round.
fn fill(block: Block, part: Plane, at: u64, n: u64, v: u8) -> Block
    requires within { at + n ≤ length block.bytes }
    requires small { at + n < 2 ^ 40 }
    requires whole { IsLists (length block.bytes) block }
    ensures { IsFilled part block result at n v }
{
    let mut filled = block;
    for i in 0..n {
        set(&mut filled, part, at + i, v);
    }
    filled
}

/// `fill` for a block that may be missing.
pub(crate) fn fill_into(slot: &mut Option<Block>, part: Plane, at: u64, n: u64, v: u8)
    requires within { IfSome slot.old (λ l. at + n ≤ length l.bytes) }
    requires small { at + n < 2 ^ 40 }
    requires whole { IfSome slot.old (λ l. IsLists (length l.bytes) l) }
    ensures { IsFilledInto part slot.old slot.new at n v }
{
    match slot.take() {
        Some(block) => *slot = Some(fill(block, part, at, n, v)),
        None => {}
    }
}

/// Copies `n` bytes of another block, from place `from` on, to place `at` on. Takes the block by value, as `fill` does.
pub(crate) fn copy(block: Block, part: Plane, at: u64, source: &Block, from: u64, n: u64) -> Block
    requires within { at + n ≤ length block.bytes }
    requires from { from + n ≤ length source.now.bytes }
    requires small { (at + n < 2 ^ 40) × (from + n < 2 ^ 40) }
    requires whole { IsLists (length block.bytes) block }
    ensures shown { held (bytes_in part result) ≡ with_range (held (bytes_in part block)) at n (λ k. held (bytes_in part source.now) (from + k)) }
    ensures others { KeepsOthers part block result }
{
    let mut copied = block;
    for i in 0..n {
        let byte = get(source, part, from + i);
        set(&mut copied, part, at + i, byte);
    }
    copied
}

/// Writes the bytes that a run makes of `fill` after `made` others to the `n` places from `at` on.
pub(crate) fn put_made(block: &mut Block, at: u64, n: u64, fill: &[u8], made: u64)
    requires within { at + n ≤ length block.old.bytes }
    requires filled { 0 < length fill.now }
    requires small { at + n < 2 ^ 40 }
    ensures shown { held block.new.bytes ≡ with_range (held block.old.bytes) at n (λ k. made_byte fill.now (made + k)) }
    ensures others { KeepsOthers Plane.Bytes block.old block.new }
{
    let count = fill.len();
    let mut next = (made % count as u64) as usize;
    for i in 0..n {
        block.set_byte(at + i, fill[next]);
        next = if next + 1 == count { 0 } else { next + 1 };
    }
}

/// Whether all of the `n` shadow bytes from place `at` on are 0. The loop doesn't stop at the first that isn't, so that
/// the compiler can look at many at a time.
pub(crate) fn is_clean(block: &Block, at: u64, n: u64) -> bool
    requires within { at + n ≤ length block.now.bytes }
    requires small { at + n < 2 ^ 40 }
    ensures { IsTrue result → (k : ℕ) → k < n → held block.now.shadow (at + k) ≡ 0 }
{
    let mut clean = true;
    for i in 0..n {
        if block.shadow(at + i) != 0 {
            clean = false;
        }
    }
    clean
}

/// How far from place `at` the first of `n` shadow bytes stands that isn't 0.
pub(crate) fn first_marked(block: &Block, at: u64, n: u64) -> Option<u64>
    requires within { at + n ≤ length block.now.bytes }
    requires small { at + n < 2 ^ 40 }
    ensures none { IfNone result ((k : ℕ) → k < n → held block.now.shadow (at + k) ≡ 0) }
    ensures found { IfSome result (λ i. (i < n) × (held block.now.shadow (at + i) ≢ 0)) }
    ensures first { IfSome result (λ i. (k : ℕ) → k < i → held block.now.shadow (at + k) ≡ 0) }
{
    for i in 0..n {
        if block.shadow(at + i) != 0 {
            return Some(i);
        }
    }
    None
}
