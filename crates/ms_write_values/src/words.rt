//! The words of operations, and the flags after them.
ghost use Rattle.std.specs.Prelude.{◌≡◌, IfOk, codes};
ghost use Rattle.ms_text_grammar.specs.LayoutInsts.{binary_word as binary_word_of, cast_word as cast_word_of, predicate_text, flag_token, flag_tokens};
ghost use Rattle.ms_write_values.specs.Sheets.{put};

use crate::writer::Writer;
use ms_bits::{BinOp, CastOp, Flags, NoMemory, Pred};

/// The word of a binary operation.
#[tactic(auto, unfolding(ms_text_grammar::specs::LayoutInsts::binary_word))]
pub fn binary_word(op: BinOp) -> &'static [u8]
    ensures { result.now ≡ binary_word_of op }
{
    match op {
        BinOp::Add => b"add",
        BinOp::Sub => b"sub",
        BinOp::Mul => b"mul",
        BinOp::Udiv => b"udiv",
        BinOp::Sdiv => b"sdiv",
        BinOp::Urem => b"urem",
        BinOp::Srem => b"srem",
        BinOp::Shl => b"shl",
        BinOp::Lshr => b"lshr",
        BinOp::Ashr => b"ashr",
        BinOp::And => b"and",
        BinOp::Or => b"or",
        BinOp::Xor => b"xor",
    }
}

/// The word of a cast.
#[tactic(auto, unfolding(ms_text_grammar::specs::LayoutInsts::cast_word))]
pub fn cast_word(op: CastOp) -> &'static [u8]
    ensures { result.now ≡ cast_word_of op }
{
    match op {
        CastOp::Trunc => b"trunc",
        CastOp::Zext => b"zext",
        CastOp::Sext => b"sext",
        CastOp::PtrToInt => b"ptrtoint",
        CastOp::IntToPtr => b"inttoptr",
        CastOp::Bitcast => b"bitcast",
    }
}

/// The word of a predicate.
#[tactic(auto, unfolding(ms_text_grammar::specs::LayoutInsts::predicate_text))]
pub fn predicate_word(pred: Pred) -> &'static [u8]
    ensures { result.now ≡ predicate_text pred }
{
    match pred {
        Pred::Eq => b"eq",
        Pred::Ne => b"ne",
        Pred::Ugt => b"ugt",
        Pred::Uge => b"uge",
        Pred::Ult => b"ult",
        Pred::Ule => b"ule",
        Pred::Sgt => b"sgt",
        Pred::Sge => b"sge",
        Pred::Slt => b"slt",
        Pred::Sle => b"sle",
    }
}

impl Writer {
    /// Writes the word of a flag, if it is set.
    fn flag(&mut self, set: bool, word: &[u8]) -> Result<(), NoMemory>
        ensures { IfOk result (λ _. self.new ≡ put self.old (flag_token set word.now)) }
    {
        if set {
            self.token(word)?;
        }
        Ok(())
    }

    /// Writes the words of the flags that are set, `nuw` before `nsw`.
    #[tactic(auto, using(crate::proofs::Puts::put_append), unfolding(ms_text_grammar::specs::LayoutInsts::flag_tokens))]
    pub fn flags(&mut self, flags: Flags) -> Result<(), NoMemory>
        ensures { IfOk result (λ _. self.new ≡ put self.old (flag_tokens flags)) }
    {
        self.flag(flags.nuw, b"nuw")?;
        self.flag(flags.nsw, b"nsw")?;
        self.flag(flags.exact, b"exact")?;
        self.flag(flags.disjoint, b"disjoint")?;
        self.flag(flags.nneg, b"nneg")?;
        self.flag(flags.samesign, b"samesign")
    }
}
