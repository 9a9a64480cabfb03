//! Operations on words against two's complement arithmetic that was worked out by hand.

ghost use Rattle.std.specs.Prelude.{◌≡◌, IfSome, IsTrue};
ghost use Rattle.ms_bits.specs.Conversions.{Allows};

use crate::rows::{fails, is};
use ms_bits::{BinOp, CastOp, Flags, Pred, Trap, Word, binary, cast, compare, undef_word};
use std::test::Fail;

/// The flags that an instruction carries.
#[derive(Clone, Copy, PartialEq)]
enum Marks {
    None,
    Nuw,
    Nsw,
    NuwNsw,
    Exact,
    Disjoint,
    Nneg,
    Samesign,
}

use Marks::{Disjoint, Exact, Nneg, None as Plain, Nsw, Nuw, NuwNsw, Samesign};

/// The number that an operation gives, or why it traps.
#[derive(Clone, Copy, Debug, PartialEq)]
enum Answer {
    Gives(u64),
    Traps(Trap),
}

use Answer::{Gives, Traps};

/// An operation with its flags, the width and the numbers of two words, and the answer.
struct Binary(BinOp, Marks, u8, u64, u64, Answer);

/// A predicate with its flags, the width and the numbers of two words, and the answer.
struct Compared(Pred, Marks, u8, u64, u64, Answer);

/// A cast with its flags, the width and the number of a word, the width that it is cast to, and the answer.
struct Cast(CastOp, Marks, u8, u64, u8, Answer);

/// The bytes of a fill, a width, and the undefined word.
struct Filled(&'static [u8], u8, u64);

/// Operations are modulo two to the width.
static RESULTS: [Binary; 34] = [
    Binary(BinOp::Add, Plain, 1, 1, 1, Gives(0)),
    Binary(BinOp::Add, Plain, 64, 0xffff_ffff_ffff_ffff, 2, Gives(1)),
    Binary(BinOp::Add, NuwNsw, 8, 0x3f, 0x40, Gives(0x7f)),
    Binary(BinOp::Sub, Plain, 7, 3, 5, Gives(0x7e)),
    Binary(BinOp::Sub, NuwNsw, 8, 0x7f, 0x7f, Gives(0)),
    Binary(
        BinOp::Mul,
        Plain,
        33,
        0x1_0000_0001,
        0x1_0000_0001,
        Gives(1),
    ),
    Binary(BinOp::Mul, Nsw, 8, 0xff, 0x7f, Gives(0x81)),
    Binary(
        BinOp::Udiv,
        Plain,
        64,
        0xffff_ffff_ffff_ffff,
        10,
        Gives(0x1999_9999_9999_9999),
    ),
    Binary(BinOp::Udiv, Exact, 8, 0xf0, 0x10, Gives(0xf)),
    Binary(BinOp::Sdiv, Plain, 7, 0x79, 2, Gives(0x7d)),
    Binary(BinOp::Sdiv, Exact, 8, 0xf8, 2, Gives(0xfc)),
    Binary(BinOp::Sdiv, Plain, 8, 0x80, 1, Gives(0x80)),
    Binary(BinOp::Urem, Plain, 33, 0x1_ffff_ffff, 10, Gives(1)),
    Binary(BinOp::Srem, Plain, 8, 0xf9, 3, Gives(0xff)),
    Binary(BinOp::Srem, Plain, 8, 7, 0xfd, Gives(1)),
    Binary(BinOp::Shl, Plain, 63, 0x4000_0000_0000_0003, 1, Gives(6)),
    Binary(BinOp::Shl, Nsw, 8, 0xc0, 1, Gives(0x80)),
    Binary(BinOp::Shl, Nuw, 8, 0x40, 1, Gives(0x80)),
    Binary(BinOp::Shl, NuwNsw, 8, 1, 6, Gives(0x40)),
    Binary(BinOp::Lshr, Plain, 64, 0x8000_0000_0000_0000, 63, Gives(1)),
    Binary(BinOp::Lshr, Exact, 8, 0xf0, 4, Gives(0xf)),
    Binary(
        BinOp::Ashr,
        Plain,
        64,
        0x8000_0000_0000_0000,
        63,
        Gives(0xffff_ffff_ffff_ffff),
    ),
    Binary(BinOp::Ashr, Plain, 7, 0x40, 3, Gives(0x78)),
    Binary(BinOp::Ashr, Exact, 8, 0x40, 6, Gives(1)),
    Binary(BinOp::And, Plain, 8, 0b1100, 0b1010, Gives(0b1000)),
    Binary(BinOp::Or, Plain, 8, 0b1100, 0b1010, Gives(0b1110)),
    Binary(BinOp::Or, Disjoint, 8, 0b1100, 0b0010, Gives(0b1110)),
    Binary(BinOp::Xor, Plain, 8, 0b1100, 0b1010, Gives(0b0110)),
    Binary(
        BinOp::Xor,
        Plain,
        64,
        0xffff_ffff_ffff_ffff,
        1,
        Gives(0xffff_ffff_ffff_fffe),
    ),
    Binary(BinOp::Add, Exact, 8, 0xff, 1, Gives(0)),
    Binary(BinOp::And, NuwNsw, 8, 0xff, 0x80, Gives(0x80)),
    Binary(BinOp::Udiv, Nuw, 8, 7, 2, Gives(3)),
    Binary(BinOp::Xor, Disjoint, 8, 1, 1, Gives(0)),
    Binary(BinOp::Shl, Plain, 1, 1, 0, Gives(1)),
];

/// Operations trap in order.
static TRAPS: [Binary; 27] = [
    Binary(BinOp::Shl, Plain, 8, 1, 8, Traps(Trap::Shift)),
    Binary(BinOp::Shl, NuwNsw, 8, 0xff, 0xff, Traps(Trap::Shift)),
    Binary(
        BinOp::Lshr,
        Exact,
        33,
        0x1_0000_0000,
        33,
        Traps(Trap::Shift),
    ),
    Binary(BinOp::Ashr, Plain, 64, 1, 64, Traps(Trap::Shift)),
    Binary(BinOp::Udiv, Plain, 8, 1, 0, Traps(Trap::ZeroDivisor)),
    Binary(BinOp::Sdiv, Exact, 8, 0x80, 0, Traps(Trap::ZeroDivisor)),
    Binary(BinOp::Urem, Plain, 64, 0, 0, Traps(Trap::ZeroDivisor)),
    Binary(BinOp::Srem, Plain, 1, 1, 0, Traps(Trap::ZeroDivisor)),
    Binary(BinOp::Sdiv, Plain, 8, 0x80, 0xff, Traps(Trap::Overflow)),
    Binary(BinOp::Srem, Plain, 1, 1, 1, Traps(Trap::Overflow)),
    Binary(BinOp::Add, Nuw, 1, 1, 1, Traps(Trap::Nuw)),
    Binary(
        BinOp::Add,
        Nsw,
        63,
        0x3fff_ffff_ffff_ffff,
        1,
        Traps(Trap::Nsw),
    ),
    Binary(BinOp::Sub, Nuw, 7, 3, 5, Traps(Trap::Nuw)),
    Binary(BinOp::Sub, Nsw, 7, 0x40, 1, Traps(Trap::Nsw)),
    Binary(BinOp::Mul, NuwNsw, 8, 16, 16, Traps(Trap::Nuw)),
    Binary(BinOp::Mul, Nsw, 8, 16, 16, Traps(Trap::Nsw)),
    Binary(
        BinOp::Mul,
        Nsw,
        64,
        0xffff_ffff_ffff_ffff,
        0x8000_0000_0000_0000,
        Traps(Trap::Nsw),
    ),
    Binary(BinOp::Shl, Nuw, 8, 0x80, 1, Traps(Trap::Nuw)),
    Binary(BinOp::Shl, NuwNsw, 8, 0x80, 1, Traps(Trap::Nuw)),
    Binary(BinOp::Shl, Nsw, 8, 0x40, 1, Traps(Trap::Nsw)),
    Binary(BinOp::Udiv, Exact, 8, 7, 2, Traps(Trap::Exact)),
    Binary(BinOp::Sdiv, Exact, 8, 0xf9, 2, Traps(Trap::Exact)),
    Binary(BinOp::Lshr, Exact, 8, 0x81, 1, Traps(Trap::Exact)),
    Binary(BinOp::Ashr, Exact, 8, 3, 1, Traps(Trap::Exact)),
    Binary(BinOp::Or, Disjoint, 8, 1, 1, Traps(Trap::Disjoint)),
    Binary(BinOp::Add, NuwNsw, 8, 0x80, 0x80, Traps(Trap::Nuw)),
    Binary(BinOp::Sub, NuwNsw, 8, 0x7f, 0xff, Traps(Trap::Nuw)),
];

/// Comparisons read signs.
static COMPARISONS: [Compared; 25] = [
    Compared(Pred::Eq, Plain, 64, 5, 5, Gives(1)),
    Compared(Pred::Eq, Plain, 8, 0xff, 1, Gives(0)),
    Compared(Pred::Ne, Plain, 64, 0, 0x8000_0000_0000_0000, Gives(1)),
    Compared(Pred::Ne, Plain, 1, 1, 1, Gives(0)),
    Compared(Pred::Ugt, Plain, 8, 0x80, 0x7f, Gives(1)),
    Compared(Pred::Ugt, Plain, 8, 0x80, 0x80, Gives(0)),
    Compared(Pred::Uge, Plain, 8, 0x80, 0x80, Gives(1)),
    Compared(Pred::Uge, Plain, 8, 0x7f, 0x80, Gives(0)),
    Compared(Pred::Ult, Plain, 7, 0x40, 0x3f, Gives(0)),
    Compared(Pred::Ult, Plain, 7, 0x3f, 0x40, Gives(1)),
    Compared(Pred::Ult, Plain, 8, 5, 5, Gives(0)),
    Compared(Pred::Ule, Plain, 33, 0x1_ffff_ffff, 0x1_0000_0000, Gives(0)),
    Compared(Pred::Ule, Plain, 8, 5, 5, Gives(1)),
    Compared(Pred::Sgt, Plain, 1, 0, 1, Gives(1)),
    Compared(Pred::Sgt, Plain, 8, 0x80, 0x7f, Gives(0)),
    Compared(Pred::Sge, Plain, 8, 0xff, 0xff, Gives(1)),
    Compared(Pred::Sge, Plain, 8, 0x80, 0xff, Gives(0)),
    Compared(Pred::Slt, Plain, 7, 0x40, 0x3f, Gives(1)),
    Compared(Pred::Slt, Plain, 8, 0xff, 0xff, Gives(0)),
    Compared(Pred::Sle, Plain, 33, 0x1_0000_0000, 0, Gives(1)),
    Compared(Pred::Sle, Plain, 8, 1, 0, Gives(0)),
    Compared(Pred::Eq, Samesign, 8, 0xff, 1, Traps(Trap::Samesign)),
    Compared(Pred::Slt, Samesign, 8, 0x80, 0xff, Gives(1)),
    Compared(Pred::Ult, Samesign, 8, 0x7f, 0x80, Traps(Trap::Samesign)),
    Compared(Pred::Ult, Nuw, 8, 0x7f, 0x80, Gives(1)),
];

/// Casts keep what their flags ask for.
static CASTS: [Cast; 21] = [
    Cast(CastOp::Trunc, Plain, 16, 0x1ff, 8, Gives(0xff)),
    Cast(CastOp::Trunc, Nuw, 16, 256, 8, Traps(Trap::Nuw)),
    Cast(CastOp::Trunc, Nuw, 16, 255, 8, Gives(255)),
    Cast(CastOp::Trunc, Nsw, 16, 255, 8, Traps(Trap::Nsw)),
    Cast(CastOp::Trunc, Nsw, 16, 0xff80, 8, Gives(0x80)),
    Cast(CastOp::Trunc, Nsw, 8, 0xff, 7, Gives(0x7f)),
    Cast(CastOp::Trunc, NuwNsw, 16, 0xff80, 8, Traps(Trap::Nuw)),
    Cast(CastOp::Trunc, Plain, 64, 0xffff_ffff_ffff_fffe, 1, Gives(0)),
    Cast(CastOp::Zext, Plain, 8, 0xff, 16, Gives(0xff)),
    Cast(CastOp::Zext, Nneg, 8, 0xff, 16, Traps(Trap::Nneg)),
    Cast(CastOp::Zext, Nneg, 8, 0x7f, 64, Gives(0x7f)),
    Cast(CastOp::Sext, Plain, 7, 0x40, 33, Gives(0x1_ffff_ffc0)),
    Cast(CastOp::Sext, Plain, 8, 0x7f, 64, Gives(0x7f)),
    Cast(CastOp::Sext, Plain, 1, 1, 64, Gives(0xffff_ffff_ffff_ffff)),
    Cast(CastOp::Sext, Nneg, 8, 0xff, 16, Gives(0xffff)),
    Cast(
        CastOp::PtrToInt,
        Plain,
        64,
        0x7100_0000_0011,
        32,
        Gives(0x11),
    ),
    Cast(
        CastOp::PtrToInt,
        Plain,
        64,
        0x7100_0000_0011,
        64,
        Gives(0x7100_0000_0011),
    ),
    Cast(
        CastOp::IntToPtr,
        Plain,
        32,
        0xffff_ffff,
        64,
        Gives(0xffff_ffff),
    ),
    Cast(
        CastOp::IntToPtr,
        Plain,
        64,
        0x7100_0000_0011,
        64,
        Gives(0x7100_0000_0011),
    ),
    Cast(CastOp::Bitcast, Plain, 8, 0xa5, 8, Gives(0xa5)),
    Cast(CastOp::Bitcast, Plain, 64, 0xa5, 64, Gives(0xa5)),
];

/// Undefined words go through their fill.
static FILLS: [Filled; 6] = [
    Filled(&[0xa5, 0x01], 12, 0x1a5),
    Filled(&[0xa5, 0x01], 8, 0xa5),
    Filled(&[0xa5], 64, 0xa5a5_a5a5_a5a5_a5a5),
    Filled(&[0xa5], 1, 1),
    Filled(&[1, 2, 3], 32, 0x0103_0201),
    Filled(&[0xff, 0], 64, 0x00ff_00ff_00ff_00ff),
];

fn flags_of(marks: Marks) -> Flags {
    Flags {
        nuw: marks == Nuw || marks == NuwNsw,
        nsw: marks == Nsw || marks == NuwNsw,
        exact: marks == Exact,
        disjoint: marks == Disjoint,
        nneg: marks == Nneg,
        samesign: marks == Samesign,
    }
}

/// The word of this width and number, if there is one.
fn word(width: u8, value: u64) -> Option<Word>
    ensures { IfSome result (λ w. w.width ≡ width) }
{
    if width < 1 || width > 64 || value as u128 >= 1u128 << width {
        return None;
    }
    Some(Word::new(width, value))
}

/// Whether a cast from one width to another is one that the language has.
fn is_allowed(op: CastOp, from: u8, to: u8) -> bool
    ensures { IsTrue result → Allows op from to }
{
    match op {
        CastOp::Trunc => 1 <= to && to < from,
        CastOp::Zext | CastOp::Sext => from < to && to <= 64,
        CastOp::PtrToInt => from == 64 && 1 <= to && to <= 64,
        CastOp::IntToPtr => to == 64,
        CastOp::Bitcast => to == from,
    }
}

/// Whether an operation gave the word of this width that is wanted, or trapped so.
fn is_answer<R: Eprint>(rt: &R, found: Result<Word, Trap>, width: u8, want: Answer) -> bool {
    match found {
        Ok(word) => { is(rt, &word.width(), &width) && is(rt, &Gives(word.value()), &want) }
        Err(trap) => is(rt, &Traps(trap), &want),
    }
}

fn is_computed<R: Eprint>(rt: &R, row: &Binary) -> bool {
    match (word(row.2, row.3), word(row.2, row.4)) {
        (Some(a), Some(b)) => is_answer(rt, binary(row.0, flags_of(row.1), a, b), row.2, row.5),
        _ => false,
    }
}

fn is_compared<R: Eprint>(rt: &R, row: &Compared) -> bool {
    match (word(row.2, row.3), word(row.2, row.4)) {
        (Some(a), Some(b)) => match compare(row.0, flags_of(row.1), a, b) {
            Ok(holds) => is(rt, &Gives(holds as u64), &row.5),
            Err(trap) => is(rt, &Traps(trap), &row.5),
        },
        _ => false,
    }
}

fn is_cast<R: Eprint>(rt: &R, row: &Cast) -> bool {
    match word(row.2, row.3) {
        Some(a) if is_allowed(row.0, row.2, row.4) => {
            is_answer(rt, cast(row.0, flags_of(row.1), a, row.4), row.4, row.5)
        }
        _ => false,
    }
}

fn is_filled<R: Eprint>(rt: &R, row: &Filled) -> bool {
    if row.0.is_empty() || row.1 < 1 || row.1 > 64 {
        return false;
    }
    let found = undef_word(row.0, row.1);
    is(rt, &found.width(), &row.1) && is(rt, &found.value(), &row.2)
}

fn all_computed<R: Eprint>(rt: &R, rows: &[Binary]) -> bool {
    for (number, row) in rows.iter().enumerate() {
        if !is_computed(rt, row) {
            return fails(rt, number);
        }
    }
    true
}

fn all_compared<R: Eprint>(rt: &R, rows: &[Compared]) -> bool {
    for (number, row) in rows.iter().enumerate() {
        if !is_compared(rt, row) {
            return fails(rt, number);
        }
    }
    true
}

fn all_cast<R: Eprint>(rt: &R, rows: &[Cast]) -> bool {
    for (number, row) in rows.iter().enumerate() {
        if !is_cast(rt, row) {
            return fails(rt, number);
        }
    }
    true
}

fn all_filled<R: Eprint>(rt: &R, rows: &[Filled]) -> bool {
    for (number, row) in rows.iter().enumerate() {
        if !is_filled(rt, row) {
            return fails(rt, number);
        }
    }
    true
}

#[test]
fn words_are_computed(rt: HostRuntime) -> Result<(), Fail> {
    assert!(rt;
        all_computed(&rt, &RESULTS)
            && all_computed(&rt, &TRAPS)
            && all_compared(&rt, &COMPARISONS)
            && all_cast(&rt, &CASTS)
            && all_filled(&rt, &FILLS)
    );
    Ok(())
}
