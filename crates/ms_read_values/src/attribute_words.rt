//! What begins an attribute (LLVM Language Reference, "Parameter Attributes" and "Function Attributes").

ghost use Rattle.std.specs.Prelude.{◌≡◌};
ghost use Rattle.ms_text_grammar.specs.Skipped as spec;

use ms_text_grammar::Symbol;

/// Whether a symbol is a word that is an attribute wherever one may stand: one without a meaning of its own, `section`, a
/// predicate, a word of `getelementptr`, or a flag other than `samesign`.
pub fn is_attribute_word(symbol: Symbol) -> bool
    ensures { result ≡ spec.is_attribute_word symbol }
{
    matches!(
        symbol,
        Symbol::PlainWord
            | Symbol::Section
            | Symbol::Nuw
            | Symbol::Nsw
            | Symbol::Exact
            | Symbol::Disjoint
            | Symbol::Nneg
            | Symbol::InBounds
            | Symbol::Nusw
            | Symbol::Eq
            | Symbol::Ne
            | Symbol::Ugt
            | Symbol::Uge
            | Symbol::Ult
            | Symbol::Ule
            | Symbol::Sgt
            | Symbol::Sge
            | Symbol::Slt
            | Symbol::Sle
    )
}

/// Whether a symbol begins an attribute.
pub fn is_attribute(symbol: Symbol) -> bool
    ensures { result ≡ spec.is_attribute symbol }
{
    match symbol {
        Symbol::Align | Symbol::Group | Symbol::DebugGroup | Symbol::Str => true,
        _ => is_attribute_word(symbol),
    }
}
