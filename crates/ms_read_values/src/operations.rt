//! Operations by their words (LLVM Language Reference, "Binary Operations", "Bitwise Binary Operations", "Conversion
//! Operations").

ghost use Rattle.std.specs.Prelude.{◌≡◌};
ghost use Rattle.ms_text_grammar.specs.Steps as spec;

use ms_bits::{BinOp, CastOp};
use ms_read_cursor::same_symbol;
use ms_text_grammar::Symbol;

/// The binary operation that a word names.
#[tactic(auto, unfolding(ms_text_grammar::specs::Steps::binary_op))]
pub fn binary_op(symbol: Symbol) -> Option<BinOp>
    ensures { result ≡ spec.binary_op symbol }
{
    match symbol {
        Symbol::Add => Some(BinOp::Add),
        Symbol::Sub => Some(BinOp::Sub),
        Symbol::Mul => Some(BinOp::Mul),
        Symbol::Udiv => Some(BinOp::Udiv),
        Symbol::Sdiv => Some(BinOp::Sdiv),
        Symbol::Urem => Some(BinOp::Urem),
        Symbol::Srem => Some(BinOp::Srem),
        Symbol::Shl => Some(BinOp::Shl),
        Symbol::Lshr => Some(BinOp::Lshr),
        Symbol::Ashr => Some(BinOp::Ashr),
        Symbol::And => Some(BinOp::And),
        Symbol::Or => Some(BinOp::Or),
        Symbol::Xor => Some(BinOp::Xor),
        _ => None,
    }
}

/// The cast that a word names.
#[tactic(auto, unfolding(ms_text_grammar::specs::Steps::cast_op))]
pub fn cast_op(symbol: Symbol) -> Option<CastOp>
    ensures { result ≡ spec.cast_op symbol }
{
    match symbol {
        Symbol::Trunc => Some(CastOp::Trunc),
        Symbol::Zext => Some(CastOp::Zext),
        Symbol::Sext => Some(CastOp::Sext),
        Symbol::PtrToInt => Some(CastOp::PtrToInt),
        Symbol::IntToPtr => Some(CastOp::IntToPtr),
        Symbol::Bitcast => Some(CastOp::Bitcast),
        _ => None,
    }
}

/// Whether a word would begin a constant expression other than a `getelementptr`.
pub fn begins_expression(symbol: Symbol) -> bool
    ensures { result ≡ spec.begins_expression symbol }
{
    binary_op(symbol).is_some()
        || cast_op(symbol).is_some()
        || same_symbol(symbol, Symbol::Icmp)
        || same_symbol(symbol, Symbol::Select)
}
