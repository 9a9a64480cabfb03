//! The functions of whole words that a module may call, with names and types (LLVM Language Reference, "Bit Manipulation
//! Intrinsics", "Standard C/C++ Library Intrinsics", "Saturation Arithmetic Intrinsics" and "'llvm.expect' Intrinsic").
ghost use Rattle.std.specs.Prelude.{◌≡◌};
ghost use Rattle.ms_ir.specs.declared.syntax.Name.TheVariants as spelling;
ghost use Rattle.ms_ir.specs.declared.calls.External.TheVariants as external;
ghost use Rattle.ms_ir.specs.Names.{lookup, word_externals};
ghost use Rattle.ms_ir.specs.{Signatures.{decl_signature, signature_eq, external_signature}, Rows.{word_rows}};

use crate::calls::External;
use crate::rows::{ParamType, are_types};
use crate::syntax::Decl;
use ms_bits::{WordFn, WordWidth};

/// A name, with the function and the width for which it stands.
pub struct WordRow(pub &'static [u8], pub WordFn, pub WordWidth);

/// Each function of whole words at each of its widths.
static WORDS: [WordRow; 67] = [
    WordRow(b"llvm.ctpop.i8", WordFn::Ctpop, WordWidth::I8),
    WordRow(b"llvm.ctpop.i16", WordFn::Ctpop, WordWidth::I16),
    WordRow(b"llvm.ctpop.i32", WordFn::Ctpop, WordWidth::I32),
    WordRow(b"llvm.ctpop.i64", WordFn::Ctpop, WordWidth::I64),
    WordRow(b"llvm.ctlz.i8", WordFn::Ctlz, WordWidth::I8),
    WordRow(b"llvm.ctlz.i16", WordFn::Ctlz, WordWidth::I16),
    WordRow(b"llvm.ctlz.i32", WordFn::Ctlz, WordWidth::I32),
    WordRow(b"llvm.ctlz.i64", WordFn::Ctlz, WordWidth::I64),
    WordRow(b"llvm.cttz.i8", WordFn::Cttz, WordWidth::I8),
    WordRow(b"llvm.cttz.i16", WordFn::Cttz, WordWidth::I16),
    WordRow(b"llvm.cttz.i32", WordFn::Cttz, WordWidth::I32),
    WordRow(b"llvm.cttz.i64", WordFn::Cttz, WordWidth::I64),
    WordRow(b"llvm.bswap.i16", WordFn::Bswap, WordWidth::I16),
    WordRow(b"llvm.bswap.i32", WordFn::Bswap, WordWidth::I32),
    WordRow(b"llvm.bswap.i64", WordFn::Bswap, WordWidth::I64),
    WordRow(b"llvm.bitreverse.i8", WordFn::Bitreverse, WordWidth::I8),
    WordRow(b"llvm.bitreverse.i16", WordFn::Bitreverse, WordWidth::I16),
    WordRow(b"llvm.bitreverse.i32", WordFn::Bitreverse, WordWidth::I32),
    WordRow(b"llvm.bitreverse.i64", WordFn::Bitreverse, WordWidth::I64),
    WordRow(b"llvm.abs.i8", WordFn::Abs, WordWidth::I8),
    WordRow(b"llvm.abs.i16", WordFn::Abs, WordWidth::I16),
    WordRow(b"llvm.abs.i32", WordFn::Abs, WordWidth::I32),
    WordRow(b"llvm.abs.i64", WordFn::Abs, WordWidth::I64),
    WordRow(b"llvm.smax.i8", WordFn::Smax, WordWidth::I8),
    WordRow(b"llvm.smax.i16", WordFn::Smax, WordWidth::I16),
    WordRow(b"llvm.smax.i32", WordFn::Smax, WordWidth::I32),
    WordRow(b"llvm.smax.i64", WordFn::Smax, WordWidth::I64),
    WordRow(b"llvm.smin.i8", WordFn::Smin, WordWidth::I8),
    WordRow(b"llvm.smin.i16", WordFn::Smin, WordWidth::I16),
    WordRow(b"llvm.smin.i32", WordFn::Smin, WordWidth::I32),
    WordRow(b"llvm.smin.i64", WordFn::Smin, WordWidth::I64),
    WordRow(b"llvm.umax.i8", WordFn::Umax, WordWidth::I8),
    WordRow(b"llvm.umax.i16", WordFn::Umax, WordWidth::I16),
    WordRow(b"llvm.umax.i32", WordFn::Umax, WordWidth::I32),
    WordRow(b"llvm.umax.i64", WordFn::Umax, WordWidth::I64),
    WordRow(b"llvm.umin.i8", WordFn::Umin, WordWidth::I8),
    WordRow(b"llvm.umin.i16", WordFn::Umin, WordWidth::I16),
    WordRow(b"llvm.umin.i32", WordFn::Umin, WordWidth::I32),
    WordRow(b"llvm.umin.i64", WordFn::Umin, WordWidth::I64),
    WordRow(b"llvm.fshl.i8", WordFn::Fshl, WordWidth::I8),
    WordRow(b"llvm.fshl.i16", WordFn::Fshl, WordWidth::I16),
    WordRow(b"llvm.fshl.i32", WordFn::Fshl, WordWidth::I32),
    WordRow(b"llvm.fshl.i64", WordFn::Fshl, WordWidth::I64),
    WordRow(b"llvm.fshr.i8", WordFn::Fshr, WordWidth::I8),
    WordRow(b"llvm.fshr.i16", WordFn::Fshr, WordWidth::I16),
    WordRow(b"llvm.fshr.i32", WordFn::Fshr, WordWidth::I32),
    WordRow(b"llvm.fshr.i64", WordFn::Fshr, WordWidth::I64),
    WordRow(b"llvm.uadd.sat.i8", WordFn::UaddSat, WordWidth::I8),
    WordRow(b"llvm.uadd.sat.i16", WordFn::UaddSat, WordWidth::I16),
    WordRow(b"llvm.uadd.sat.i32", WordFn::UaddSat, WordWidth::I32),
    WordRow(b"llvm.uadd.sat.i64", WordFn::UaddSat, WordWidth::I64),
    WordRow(b"llvm.usub.sat.i8", WordFn::UsubSat, WordWidth::I8),
    WordRow(b"llvm.usub.sat.i16", WordFn::UsubSat, WordWidth::I16),
    WordRow(b"llvm.usub.sat.i32", WordFn::UsubSat, WordWidth::I32),
    WordRow(b"llvm.usub.sat.i64", WordFn::UsubSat, WordWidth::I64),
    WordRow(b"llvm.sadd.sat.i8", WordFn::SaddSat, WordWidth::I8),
    WordRow(b"llvm.sadd.sat.i16", WordFn::SaddSat, WordWidth::I16),
    WordRow(b"llvm.sadd.sat.i32", WordFn::SaddSat, WordWidth::I32),
    WordRow(b"llvm.sadd.sat.i64", WordFn::SaddSat, WordWidth::I64),
    WordRow(b"llvm.ssub.sat.i8", WordFn::SsubSat, WordWidth::I8),
    WordRow(b"llvm.ssub.sat.i16", WordFn::SsubSat, WordWidth::I16),
    WordRow(b"llvm.ssub.sat.i32", WordFn::SsubSat, WordWidth::I32),
    WordRow(b"llvm.ssub.sat.i64", WordFn::SsubSat, WordWidth::I64),
    WordRow(b"llvm.expect.i8", WordFn::Expect, WordWidth::I8),
    WordRow(b"llvm.expect.i16", WordFn::Expect, WordWidth::I16),
    WordRow(b"llvm.expect.i32", WordFn::Expect, WordWidth::I32),
    WordRow(b"llvm.expect.i64", WordFn::Expect, WordWidth::I64),
];

/// Which function of whole words has a text as its name, if there is one.
fn find(rows: &[WordRow], text: &[u8]) -> Option<External>
    ensures { result ≡ lookup (word_rows rows.now) (spelling.Text text.now) }
{
    for row in rows {
        if row.0 == text {
            return Some(External::Word(row.1, row.2));
        }
    }
    None
}

/// The function of whole words with a text as its name, if there is one.
#[tactic(auto, unfolding(crate::specs::Names::word_externals))]
pub fn spelled(text: &[u8]) -> Option<External>
    ensures { result ≡ lookup word_externals (spelling.Text text.now) }
{
    find(&WORDS, text)
}

/// Whether a declaration has the types of a function of whole words.
pub fn has_types_of(function: WordFn, width: WordWidth, decl: &Decl) -> bool
    ensures { result ≡ signature_eq (decl_signature decl.now) (external_signature (external.Word function width)) }
{
    let word = ParamType::Int(width.bits());
    match function {
        WordFn::Ctpop | WordFn::Bswap | WordFn::Bitreverse => are_types(word, &[word], decl),
        WordFn::Ctlz | WordFn::Cttz | WordFn::Abs => are_types(
            word,
            &[word, ParamType::Int(1)],
            decl,
        ),
        WordFn::Fshl | WordFn::Fshr => are_types(word, &[word, word, word], decl),
        WordFn::Smax
        | WordFn::Smin
        | WordFn::Umax
        | WordFn::Umin
        | WordFn::UaddSat
        | WordFn::UsubSat
        | WordFn::SaddSat
        | WordFn::SsubSat
        | WordFn::Expect => are_types(word, &[word, word], decl),
    }
}
