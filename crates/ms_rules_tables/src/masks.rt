//! The rules of masks that are the same for all operands: each is a table of steps (`StackOp`), in which an operation stands after
//! the words that it works on. `Word(k)`, `Bits(k)` and `Mask(k)` put operand k on the stack: its word, as a number, and its mask.
ghost use Rattle.std.specs.Prelude.{◌≡◌, ◌≢◌, ℕ, true, List, [], ◌∷◌, map, reverse, MatchOption};
ghost use Rattle.ms_bits.specs.declared.operations.BinOp.TheVariants as binary;
ghost use Rattle.ms_bits.specs.declared.word_functions.WordFn.TheVariants as word;
ghost use Rattle.ms_bits.specs.WordFunctions.{bits_of as width_bits};
ghost use Rattle.ms_pass_tasks.specs.{Tasks.{Expr}, Environments.{Tracked, tracked_at, bits_of, mask_of, word_of}};
ghost use Rattle.ms_pass_tasks.specs.ResultMasks.{binary_expr, cast_expr, compare_expr, ctpop_expr, ctlz_expr, cttz_expr, word_expr};
ghost use Rattle.ms_rules_builder.specs.Steps.{Inputs as InputsOf, is_operation, stepped, words};
ghost use Rattle.ms_rules_tables.specs.Rules.{is_rule, on_width, args_with};

use ms_bits::{BinOp, CastOp, Pred, WordFn, WordWidth};
use ms_rules_builder::StackOp::{Bits, Constant, Mask, Ones, Sign, Word};
use ms_rules_builder::{Operation, StackOp, Width};

// Operations on the two words on top of the stack, in the width of the rule: up to `SUB` they give a word, up to `PICK` a bit.
const AND: StackOp = StackOp::Two(Operation::And, Width::Own);

const OR: StackOp = StackOp::Two(Operation::Or, Width::Own);

const XOR: StackOp = StackOp::Two(Operation::Xor, Width::Own);

const SUB: StackOp = StackOp::Two(Operation::Sub, Width::Own);

const IS_EQUAL: StackOp = StackOp::Test(Pred::Eq, Width::Own);

const IS_OTHER: StackOp = StackOp::Test(Pred::Ne, Width::Own);

const IS_NOT_GREATER: StackOp = StackOp::Test(Pred::Ule, Width::Own);

const IS_NOT_LESS: StackOp = StackOp::Test(Pred::Uge, Width::Own);

// Of the two words on top, the first where the bit below them is 1, else the second.
const PICK: StackOp = StackOp::Pick(Width::Own);

const AND_OF_BITS: StackOp = StackOp::Two(Operation::And, Width::Bits(1));

const XOR_OF_BITS: StackOp = StackOp::Two(Operation::Xor, Width::Bits(1));

/// Of a result that is clean.
pub const CLEAN: [StackOp; 1] = [Constant(0)];

/// Of a result that has the mask of the first operand, as that of a division.
pub const FIRST: [StackOp; 1] = [Mask(0)];

// A bit is poisoned where it is in either word: of `xor`.
const UNION: [StackOp; 3] = [Mask(0), Mask(1), OR];

// Of `and`: where both bits are poisoned, or one is and the other word has a defined 1.
const BOTH: [StackOp; 11] = [
    // Both may be 1,
    Word(0),
    Mask(0),
    OR,
    Word(1),
    Mask(1),
    OR,
    AND,
    // and one is poisoned.
    Mask(0),
    Mask(1),
    OR,
    AND,
];

// Of `or`: where both bits are poisoned, or one is and the other word has a defined 0.
const EITHER: [StackOp; 15] = [
    // Both may be 0,
    Word(0),
    Ones,
    XOR,
    Mask(0),
    OR,
    Word(1),
    Ones,
    XOR,
    Mask(1),
    OR,
    AND,
    // and one is poisoned.
    Mask(0),
    Mask(1),
    OR,
    AND,
];

// Of `eq` and `ne`: where no bit that is defined in both words differs and some bit is poisoned.
const SAME: [StackOp; 17] = [
    // All bits that differ are poisoned,
    Bits(0),
    Bits(1),
    XOR,
    Mask(0),
    Mask(1),
    OR,
    OR,
    Mask(0),
    Mask(1),
    OR,
    IS_EQUAL,
    // and some are.
    Mask(0),
    Mask(1),
    OR,
    Constant(0),
    IS_OTHER,
    AND_OF_BITS,
];

// Of an ordered comparison of two words with masks: where the least completion of the one and the greatest of the other
// compare otherwise than the greatest of the one and the least of the other. `$a` puts the one on the stack, `$m` its mask, `$b`
// and `$k` the other.
macro_rules! order {
    ([$($a:expr),*], $m:expr, [$($b:expr),*], $k:expr, $pred:expr) => {
        [
            $($a,)* $m, OR, $m, XOR, $($b,)* $k, OR, StackOp::Test($pred, Width::Own),
            $($a,)* $m, OR, $($b,)* $k, OR, $k, XOR, StackOp::Test($pred, Width::Own),
            XOR_OF_BITS,
        ]
    };
}

const UNSIGNED_GREATER: [StackOp; 19] = order!([Bits(1)], Mask(1), [Bits(0)], Mask(0), Pred::Ult);

const UNSIGNED_NOT_LESS: [StackOp; 19] = order!([Bits(1)], Mask(1), [Bits(0)], Mask(0), Pred::Ule);

const UNSIGNED_LESS: [StackOp; 19] = order!([Bits(0)], Mask(0), [Bits(1)], Mask(1), Pred::Ult);

const UNSIGNED_NOT_GREATER: [StackOp; 19] = order!(
    [Bits(0)],
    Mask(0),
    [Bits(1)],
    Mask(1),
    Pred::Ule
);

// The same of signed words: with their sign bits turned they are ordered as unsigned words are.
macro_rules! signed_order {
    ($a:expr, $m:expr, $b:expr, $k:expr, $pred:expr) => {
        order!([$a, Sign, XOR], $m, [$b, Sign, XOR], $k, $pred)
    };
}

const SIGNED_GREATER: [StackOp; 27] = signed_order!(Bits(1), Mask(1), Bits(0), Mask(0), Pred::Ult);

const SIGNED_NOT_LESS: [StackOp; 27] = signed_order!(Bits(1), Mask(1), Bits(0), Mask(0), Pred::Ule);

const SIGNED_LESS: [StackOp; 27] = signed_order!(Bits(0), Mask(0), Bits(1), Mask(1), Pred::Ult);

const SIGNED_NOT_GREATER: [StackOp; 27] = signed_order!(
    Bits(0),
    Mask(0),
    Bits(1),
    Mask(1),
    Pred::Ule
);

/// Of a `select`: with a defined condition the mask of what is chosen, else each bit that differs or is poisoned in one.
pub const CHOICE: [StackOp; 13] = [
    // Where the condition is poisoned, what differs or is poisoned,
    Mask(0),
    Bits(1),
    Bits(2),
    XOR,
    Mask(1),
    OR,
    Mask(2),
    OR,
    // else what is chosen.
    Word(0),
    Mask(1),
    Mask(2),
    PICK,
    PICK,
];

/// The words that a shift of the mask takes: with an amount that is defined these are the mask and the amount, else all bits
/// and 0.
pub const SHIFT: [StackOp; 12] = [
    // Where the amount is poisoned all bits, else the mask;
    Mask(1),
    Constant(0),
    IS_OTHER,
    Ones,
    Mask(0),
    PICK,
    // where it is poisoned 0, else the amount.
    Mask(1),
    Constant(0),
    IS_OTHER,
    Constant(0),
    Word(1),
    PICK,
];

// Every bit, where some bit of the masks of two words is set.
const WHOLE_OF_TWO: [StackOp; 8] = [
    Mask(0),
    Mask(1),
    OR,
    Constant(0),
    IS_EQUAL,
    Constant(0),
    Ones,
    PICK,
];

// What a funnel shift takes to give its mask: the masks of two words, and the amount, which is known here.
const KNOWN_AMOUNT: [StackOp; 3] = [Mask(0), Mask(1), Word(2)];

// The same where the amount may not be known: then all bits of both words.
const ANY_AMOUNT: [StackOp; 13] = [
    // Where the amount is poisoned all bits, else the first mask;
    Mask(2),
    Constant(0),
    IS_OTHER,
    Ones,
    Mask(0),
    PICK,
    // so of the second;
    Mask(2),
    Constant(0),
    IS_OTHER,
    Ones,
    Mask(1),
    PICK,
    // the amount.
    Word(2),
];

// Of `ctpop`: 0 where no bit is poisoned, else all bits that such a count may have, `$places`.
macro_rules! ones {
    ($places:expr) => {
        [Mask(0), Constant(0), IS_EQUAL, Constant(0), Constant($places), PICK]
    };
}

const ONES_OF_8: [StackOp; 6] = ones!(15);

const ONES_OF_16: [StackOp; 6] = ones!(31);

const ONES_OF_32: [StackOp; 6] = ones!(63);

const ONES_OF_64: [StackOp; 6] = ones!(127);

// Of `ctlz`: 0 where the highest bit that may be 1 is defined, else all bits that such a count may have, `$places`.
macro_rules! leading {
    ($places:expr) => {
        [
            Mask(0), Word(0), Mask(0), OR, Mask(0), XOR, IS_NOT_GREATER,
            Constant(0), Constant($places), PICK,
        ]
    };
}

const LEADING_OF_8: [StackOp; 10] = leading!(15);

const LEADING_OF_16: [StackOp; 10] = leading!(31);

const LEADING_OF_32: [StackOp; 10] = leading!(63);

const LEADING_OF_64: [StackOp; 10] = leading!(127);

// Of `cttz`: 0 where the lowest bit that may be 1 is defined, else all bits that such a count may have, `$places`.
macro_rules! trailing {
    ($places:expr) => {
        [
            Word(0), Mask(0), OR, Constant(0), Word(0), Mask(0), OR, SUB, AND, Mask(0), AND,
            Constant(0), IS_EQUAL, Constant(0), Constant($places), PICK,
        ]
    };
}

const TRAILING_OF_8: [StackOp; 16] = trailing!(15);

const TRAILING_OF_16: [StackOp; 16] = trailing!(31);

const TRAILING_OF_32: [StackOp; 16] = trailing!(63);

const TRAILING_OF_64: [StackOp; 16] = trailing!(127);

// Of `abs`: with a poisoned sign bit from the lowest bit on that may be 1, of a negative word that of the difference, else
// the mask itself.
const ABSOLUTE: [StackOp; 23] = [
    // Where the sign bit is poisoned, from the lowest bit on that may be 1;
    Mask(0),
    Sign,
    IS_NOT_LESS,
    Word(0),
    Mask(0),
    OR,
    Constant(0),
    Word(0),
    Mask(0),
    OR,
    SUB,
    OR,
    // where the word is negative, the mask of 0 minus it,
    Word(0),
    Sign,
    IS_NOT_LESS,
    Mask(0),
    Constant(0),
    Mask(0),
    SUB,
    OR,
    // else its own.
    Mask(0),
    PICK,
    PICK,
];

// Of the greater or the smaller of two words: the mask of the one that is chosen in all completions, by which of them is the
// greater one, else each bit in which they may differ. `$a` and `$b` put the words on the stack as they are ordered; `$first` is
// the mask where the second word never is the greater one, `$second` where the first never is.
macro_rules! extreme {
    ([$($a:expr),*], [$($b:expr),*], $first:expr, $second:expr) => {
        [
            $($b,)* Mask(1), OR, $($a,)* Mask(0), OR, Mask(0), XOR, IS_NOT_GREATER, $first,
            $($a,)* Mask(0), OR, $($b,)* Mask(1), OR, Mask(1), XOR, IS_NOT_GREATER, $second,
            $($a,)* $($b,)* XOR, Mask(0), OR, Mask(1), OR, PICK, PICK,
        ]
    };
}

const UNSIGNED_MAXIMUM: [StackOp; 29] = extreme!([Word(0)], [Word(1)], Mask(0), Mask(1));

const UNSIGNED_MINIMUM: [StackOp; 29] = extreme!([Word(0)], [Word(1)], Mask(1), Mask(0));

const SIGNED_MAXIMUM: [StackOp; 41] = extreme!(
    [Word(0), Sign, XOR],
    [Word(1), Sign, XOR],
    Mask(0),
    Mask(1)
);

const SIGNED_MINIMUM: [StackOp; 41] = extreme!(
    [Word(0), Sign, XOR],
    [Word(1), Sign, XOR],
    Mask(1),
    Mask(0)
);

/// The rule of the mask of an operation on two words, but a shift, a sum, a difference or a product.
pub fn binary_rule(op: BinOp) -> &'static [StackOp]
    requires add { op ≢ binary.Add }
    requires sub { op ≢ binary.Sub }
    requires mul { op ≢ binary.Mul }
    ensures rule { is_rule result.now ≡ true }
    ensures mask { (w : ℕ) (ts : List Tracked) → words (on_width w ts) result.now [] ≡ binary_expr op w (tracked_at 0 ts) (tracked_at 1 ts) ∷ [] }
{
    match op {
        BinOp::And => &BOTH,
        BinOp::Or => &EITHER,
        BinOp::Xor => &UNION,
        _ => &FIRST,
    }
}

/// The rule of the mask of a comparison. What it inserts for a comparison with a number is run as one instruction, which
/// `compared_at` of `ms_machine_shorts/src/compared.rt` finds by these very steps: where a rule changes here, nothing is found
/// there, and `check` is slower.
pub fn compare_rule(pred: Pred) -> &'static [StackOp]
    ensures rule { is_rule result.now ≡ true }
    ensures mask { (w : ℕ) (ts : List Tracked) → words (on_width w ts) result.now [] ≡ compare_expr pred w (bits_of (tracked_at 0 ts)) (mask_of (tracked_at 0 ts)) (bits_of (tracked_at 1 ts)) (mask_of (tracked_at 1 ts)) ∷ [] }
{
    match pred {
        Pred::Eq | Pred::Ne => &SAME,
        Pred::Ugt => &UNSIGNED_GREATER,
        Pred::Uge => &UNSIGNED_NOT_LESS,
        Pred::Ult => &UNSIGNED_LESS,
        Pred::Ule => &UNSIGNED_NOT_GREATER,
        Pred::Sgt => &SIGNED_GREATER,
        Pred::Sge => &SIGNED_NOT_LESS,
        Pred::Slt => &SIGNED_LESS,
        Pred::Sle => &SIGNED_NOT_GREATER,
    }
}

/// The step that turns the mask of a cast's operand into that of its result, from one width to another, where these
/// differ: the same cast, where pointers are numbers.
pub fn cast_step(op: CastOp, from: u8, to: u8) -> Option<StackOp>
    ensures { (i : InputsOf) (m : Expr) → MatchOption result (cast_expr op from to m ≡ m) (λ s. (is_operation s ≡ true) × (stepped i s (m ∷ []) ≡ cast_expr op from to m ∷ [])) }
{
    match op {
        CastOp::Trunc | CastOp::Zext | CastOp::Sext => {
            Some(StackOp::Turn(op, Width::Bits(from), Width::Bits(to)))
        }
        CastOp::PtrToInt if to != 64 => {
            Some(StackOp::Turn(CastOp::Trunc, Width::Bits(from), Width::Bits(to)))
        }
        CastOp::IntToPtr if from != 64 => {
            Some(StackOp::Turn(CastOp::Zext, Width::Bits(from), Width::Bits(64)))
        }
        _ => None,
    }
}

/// The rule of the mask of a number of bits that are 1, as `llvm.ctpop` counts them.
#[tactic(auto, unfolding(ms_bits::specs::WordFunctions::places))]
fn ones_rule(width: WordWidth) -> &'static [StackOp]
    ensures rule { is_rule result.now ≡ true }
    ensures mask { (ts : List Tracked) → words (on_width (width_bits width) ts) result.now [] ≡ ctpop_expr (width_bits width) (mask_of (tracked_at 0 ts)) ∷ [] }
{
    match width {
        WordWidth::I8 => &ONES_OF_8,
        WordWidth::I16 => &ONES_OF_16,
        WordWidth::I32 => &ONES_OF_32,
        WordWidth::I64 => &ONES_OF_64,
    }
}

/// The rule of the mask of a number of leading zeros, as `llvm.ctlz` counts them.
#[tactic(auto, unfolding(ms_bits::specs::WordFunctions::places))]
fn leading_rule(width: WordWidth) -> &'static [StackOp]
    ensures rule { is_rule result.now ≡ true }
    ensures mask { (ts : List Tracked) → words (on_width (width_bits width) ts) result.now [] ≡ ctlz_expr (width_bits width) (word_of (tracked_at 0 ts)) (mask_of (tracked_at 0 ts)) ∷ [] }
{
    match width {
        WordWidth::I8 => &LEADING_OF_8,
        WordWidth::I16 => &LEADING_OF_16,
        WordWidth::I32 => &LEADING_OF_32,
        WordWidth::I64 => &LEADING_OF_64,
    }
}

/// The rule of the mask of a number of trailing zeros, as `llvm.cttz` counts them.
#[tactic(auto, unfolding(ms_bits::specs::WordFunctions::places))]
fn trailing_rule(width: WordWidth) -> &'static [StackOp]
    ensures rule { is_rule result.now ≡ true }
    ensures mask { (ts : List Tracked) → words (on_width (width_bits width) ts) result.now [] ≡ cttz_expr (width_bits width) (word_of (tracked_at 0 ts)) (mask_of (tracked_at 0 ts)) ∷ [] }
{
    match width {
        WordWidth::I8 => &TRAILING_OF_8,
        WordWidth::I16 => &TRAILING_OF_16,
        WordWidth::I32 => &TRAILING_OF_32,
        WordWidth::I64 => &TRAILING_OF_64,
    }
}

/// The rule of the mask of what a function of whole words answers, at a width.
pub fn word_rule(function: WordFn, width: WordWidth) -> &'static [StackOp]
    ensures rule { is_rule result.now ≡ true }
    ensures mask { (ts : List Tracked) → words (on_width (width_bits width) ts) result.now [] ≡ word_expr function (width_bits width) (tracked_at 0 ts) (tracked_at 1 ts) (tracked_at 2 ts) ∷ [] }
{
    match function {
        WordFn::Ctpop => ones_rule(width),
        WordFn::Ctlz => leading_rule(width),
        WordFn::Cttz => trailing_rule(width),
        WordFn::Abs => &ABSOLUTE,
        WordFn::Smax => &SIGNED_MAXIMUM,
        WordFn::Smin => &SIGNED_MINIMUM,
        WordFn::Umax => &UNSIGNED_MAXIMUM,
        WordFn::Umin => &UNSIGNED_MINIMUM,
        WordFn::UaddSat | WordFn::UsubSat | WordFn::SaddSat | WordFn::SsubSat => &WHOLE_OF_TWO,
        WordFn::Bswap | WordFn::Bitreverse | WordFn::Fshl | WordFn::Fshr | WordFn::Expect => &FIRST,
    }
}

/// The steps that leave what a funnel shift takes to give its mask, by whether its amount is known.
fn amount_steps(known: bool) -> &'static [StackOp]
    ensures { (w : ℕ) (ts : List Tracked) → map (λ a. a.1) (args_with known word.Fshl w (tracked_at 0 ts) (tracked_at 1 ts) (tracked_at 2 ts)) ≡ reverse (words (on_width w ts) result.now []) }
{
    if known { &KNOWN_AMOUNT } else { &ANY_AMOUNT }
}

/// The steps that leave what a function that moves bits takes to give its mask; those of a funnel shift by whether its amount is
/// known.
pub fn move_steps(function: WordFn, known: bool) -> &'static [StackOp]
    ensures { (w : ℕ) (ts : List Tracked) → map (λ a. a.1) (args_with known function w (tracked_at 0 ts) (tracked_at 1 ts) (tracked_at 2 ts)) ≡ reverse (words (on_width w ts) result.now []) }
{
    match function {
        WordFn::Fshl | WordFn::Fshr => amount_steps(known),
        _ => &FIRST,
    }
}
