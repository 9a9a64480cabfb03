//! The symbol that a token is to the grammar.

ghost use Rattle.std.specs.{Prelude.{◌≡◌, ◌≢◌, true, false, take, codes}, Str.{bytes_eq}};
ghost use Rattle.ms_lex.specs.Numbers as numbers;
ghost use Rattle.ms_text_grammar.specs.Lexemes.{symbol_in};
ghost use Rattle.ms_text_grammar.specs.Lexemes as spec;
ghost use Rattle.ms_read_cursor.specs.Words.{rows_of};

use crate::decimals::{decimal, is_digits};
use crate::words::{Keyword, PUNCTUATION, words_with};
use ms_lex::Kind;
use ms_text_grammar::Symbol;

/// Whether two symbols are the same.
pub fn same_symbol(a: Symbol, b: Symbol) -> bool
    ensures value { result ≡ spec.same_symbol a b }
    ensures same { result ≡ true → a ≡ b }
    ensures other { result ≡ false → a ≢ b }
{
    a == b
}

/// The symbol beside a word in a table; `other` where the table hasn't the word.
fn lookup(mut table: &[Keyword], word: &[u8], other: Symbol) -> Symbol
    ensures { result ≡ symbol_in (rows_of table.entry.now) other word.now }
{
    while let [row, rest @ ..] = table {
        if row.0 == word {
            return row.1;
        }
        table = rest;
    }
    other
}

/// What the word `i` with these digits is: an integer type, one of more than 64 bits, or, as `i0`, a plain word.
fn int_symbol(digits: &[u8]) -> Symbol
    ensures { result ≡ spec.int_symbol (numbers.decimal digits.now) }
{
    match decimal(digits) {
        None => Symbol::WideIntType,
        Some(width) => {
            if width == 0 {
                Symbol::PlainWord
            } else if width < 65 {
                Symbol::IntType
            } else {
                Symbol::WideIntType
            }
        }
    }
}

/// What a word is that is no keyword.
fn type_or_plain(word: &[u8]) -> Symbol
    ensures { result ≡ spec.type_or_plain word.now }
{
    match word {
        [] => Symbol::PlainWord,
        [first, rest @ ..] => {
            if *first == b'i' && is_digits(rest) {
                int_symbol(rest)
            } else {
                Symbol::PlainWord
            }
        }
    }
}

/// What a word is: a keyword, an integer type or a plain word.
#[tactic(auto, using(crate::proofs::FirstBytes::by_first), unfolding(ms_text_grammar::specs::Lexemes::word_symbol))]
fn word_symbol(word: &[u8]) -> Symbol
    ensures { result ≡ spec.word_symbol word.now }
{
    match word {
        [] => Symbol::PlainWord,
        [first, ..] => lookup(words_with(*first), word, type_or_plain(word)),
    }
}

/// Whether a label is a number or a name.
fn label_symbol(spelling: &[u8]) -> Symbol
    ensures { result ≡ spec.label_symbol spelling.now }
{
    if is_digits(&spelling[..spelling.len().saturating_sub(1)]) {
        Symbol::NumberedLabel
    } else {
        Symbol::Label
    }
}

/// Whether a local is a number or a name.
fn local_symbol(spelling: &[u8]) -> Symbol
    ensures { result ≡ spec.local_symbol spelling.now }
{
    match spelling {
        [] => Symbol::Local,
        [_, rest @ ..] => {
            if is_digits(rest) {
                Symbol::NumberedLocal
            } else {
                Symbol::Local
            }
        }
    }
}

/// Whether a spelling begins with a digit, or with a minus sign and a digit.
fn begins_number(spelling: &[u8]) -> bool
    ensures { result ≡ spec.begins_number spelling.now }
{
    match spelling {
        [] => false,
        [first] => first.is_ascii_digit(),
        [first, second, ..] => {
            if *first == b'-' {
                second.is_ascii_digit()
            } else {
                first.is_ascii_digit()
            }
        }
    }
}

/// Whether a spelling begins with `$`, as the name of a comdat.
fn begins_dollar(spelling: &[u8]) -> bool
    ensures { result ≡ bytes_eq (take 1 spelling.now) (codes "$") }
{
    match spelling {
        [] => false,
        [first, ..] => *first == b'$',
    }
}

/// What a run of name bytes is that is neither a word nor a number.
fn other_symbol(spelling: &[u8]) -> Symbol
    ensures { result ≡ spec.other_symbol spelling.now }
{
    if spelling == b"...".as_slice() {
        Symbol::Dots
    } else if begins_number(spelling) {
        Symbol::FloatLiteral
    } else if begins_dollar(spelling) {
        Symbol::DollarName
    } else {
        Symbol::Other
    }
}

/// Whether a name of metadata is the mark.
fn meta_symbol(spelling: &[u8]) -> Symbol
    ensures { result ≡ spec.meta_symbol spelling.now }
{
    if spelling == b"!nosanitize".as_slice() {
        Symbol::NoSanitize
    } else {
        Symbol::Meta
    }
}

/// Whether a group is one of attributes or begins a debug record.
fn group_symbol(spelling: &[u8]) -> Symbol
    ensures { result ≡ spec.group_symbol spelling.now }
{
    if &spelling[..spelling.len().min(4)] == b"#dbg".as_slice() {
        Symbol::DebugGroup
    } else {
        Symbol::Group
    }
}

/// Which sign of punctuation a token is.
fn punctuation_symbol(spelling: &[u8]) -> Symbol
    ensures { result ≡ symbol_in spec.punctuation_symbols Symbol.Other spelling.now }
{
    lookup(&PUNCTUATION, spelling, Symbol::Other)
}

/// The symbol that a token of this kind is, by how it is spelled. Its time is linear in the spelling: a word is compared
/// with the words of its first letter alone, and only with those of its length byte by byte.
#[tactic(auto, unfolding(ms_text_grammar::specs::Lexemes::symbol_of))]
pub fn symbol_of(kind: Kind, spelling: &[u8]) -> Symbol
    ensures { result ≡ spec.symbol_of kind spelling.now }
{
    match kind {
        Kind::Label => label_symbol(spelling),
        Kind::CText => Symbol::CText,
        Kind::Str => Symbol::Str,
        Kind::Number => Symbol::Number,
        Kind::Word => word_symbol(spelling),
        Kind::Other => other_symbol(spelling),
        Kind::Global => Symbol::Global,
        Kind::Local => local_symbol(spelling),
        Kind::Meta => meta_symbol(spelling),
        Kind::Group => group_symbol(spelling),
        Kind::Punct => punctuation_symbol(spelling),
    }
}
