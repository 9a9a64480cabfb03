//! Reads flags between the word of an operation and its types.

ghost use Rattle.std.specs.Prelude.{◌≡◌};
ghost use Rattle.ms_text_grammar.specs.Insts as spec;
ghost use Rattle.ms_read_cursor.specs.Reading.{Gives, run};
ghost use Rattle.ms_read_insts.specs.Carriers.{carries_of};

use ms_bits::{BinOp, CastOp, Flags, NO_FLAGS};
use ms_read_cursor::{Tokens, Turn, repeat, same_symbol};
use ms_text_grammar::{Cause, Symbol};

/// What may carry flags.
#[derive(Clone, Copy, Debug, PartialEq, Eq)]
pub enum Carrier {
    Binary(BinOp),
    Cast(CastOp),
    /// `icmp`.
    Compare,
}

/// Whether a flag was read already.
fn is_set(flags: Flags, symbol: Symbol) -> bool
    ensures { result ≡ spec.is_set flags symbol }
{
    match symbol {
        Symbol::Nuw => flags.nuw,
        Symbol::Nsw => flags.nsw,
        Symbol::Exact => flags.exact,
        Symbol::Disjoint => flags.disjoint,
        Symbol::Nneg => flags.nneg,
        Symbol::SameSign => flags.samesign,
        _ => false,
    }
}

/// The flags with the one that this word names.
fn with_flag(mut flags: Flags, symbol: Symbol) -> Flags
    ensures { result ≡ spec.with_flag flags symbol }
{
    match symbol {
        Symbol::Nuw => flags.nuw = true,
        Symbol::Nsw => flags.nsw = true,
        Symbol::Exact => flags.exact = true,
        Symbol::Disjoint => flags.disjoint = true,
        Symbol::Nneg => flags.nneg = true,
        Symbol::SameSign => flags.samesign = true,
        _ => {}
    }
    flags
}

/// Whether a word is `nuw` or `nsw`.
fn is_wrap_flag(symbol: Symbol) -> bool
    ensures { result ≡ spec.is_wrap_flag symbol }
{
    matches!(symbol, Symbol::Nuw | Symbol::Nsw)
}

/// Whether a binary operation may carry the flag of this word.
#[tactic(auto, unfolding(ms_text_grammar::specs::Insts::binary_carries))]
fn binary_carries(op: BinOp, symbol: Symbol) -> bool
    ensures { result ≡ spec.binary_carries op symbol }
{
    match op {
        BinOp::Add | BinOp::Sub | BinOp::Mul | BinOp::Shl => is_wrap_flag(symbol),
        BinOp::Udiv | BinOp::Sdiv | BinOp::Lshr | BinOp::Ashr => same_symbol(symbol, Symbol::Exact),
        BinOp::Or => same_symbol(symbol, Symbol::Disjoint),
        BinOp::Urem | BinOp::Srem | BinOp::And | BinOp::Xor => false,
    }
}

/// Whether a cast may carry the flag of this word.
#[tactic(auto, unfolding(ms_text_grammar::specs::Insts::cast_carries))]
fn cast_carries(op: CastOp, symbol: Symbol) -> bool
    ensures { result ≡ spec.cast_carries op symbol }
{
    match op {
        CastOp::Trunc => is_wrap_flag(symbol),
        CastOp::Zext => same_symbol(symbol, Symbol::Nneg),
        CastOp::Sext | CastOp::PtrToInt | CastOp::IntToPtr | CastOp::Bitcast => false,
    }
}

impl Carrier {
    /// Whether it may carry the flag of this word.
    fn carries(self, symbol: Symbol) -> bool
        ensures { result ≡ carries_of self symbol }
    {
        match self {
            Carrier::Binary(op) => binary_carries(op, symbol),
            Carrier::Cast(op) => cast_carries(op, symbol),
            Carrier::Compare => same_symbol(symbol, Symbol::SameSign),
        }
    }
}

/// Flag after flag, each once.
#[derive(Clone, Copy)]
struct FlagTurn {
    carrier: Carrier,
}

impl Turn for FlagTurn {
    type State = Flags;

    ghost use Rattle.ms_lex.specs.Grammar.{give};
    ghost use Rattle.ms_text_grammar.specs.Insts.{flag_begins, with_flag};
    ghost use Rattle.ms_read_insts.specs.Carriers.{carries_of};

    ghost begins = { λ rule. flag_begins (carries_of rule.carrier) };

    ghost body = { λ rule flags t. give (with_flag flags t.symbol) };

    fn goes_on(&self, state: &Flags, tokens: &Tokens<'_>) -> Result<bool, Cause> {
        let symbol = tokens.peek();
        Ok(self.carrier.carries(symbol) && !is_set(*state, symbol))
    }

    fn turn(&self, state: Flags, tokens: &mut Tokens<'_>) -> Result<Flags, Cause> {
        let symbol = tokens.peek();
        tokens.advance();
        Ok(with_flag(state, symbol))
    }
}

/// The flags after the word of an operation: those that it may carry, each at most once and in any order. Another word
/// ends them, also a flag that was read.
///
/// # Errors
///
/// None of its own.
#[tactic(auto, unfolding(ms_text_grammar::specs::Insts::flags_of))]
pub fn flags_of(tokens: &mut Tokens<'_>, carrier: Carrier) -> Result<Flags, Cause>
    ensures { Gives (run (spec.flags_of (carries_of carrier)) tokens.old) result tokens.new }
{
    repeat(tokens, &FlagTurn { carrier }, NO_FLAGS)
}
