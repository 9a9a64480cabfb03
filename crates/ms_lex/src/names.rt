//! The name that a token is.

ghost use Rattle.std.specs.Prelude.{◌≡◌, ◌≢◌, ◌≤◌, ◌<◌, ◌+◌, ◌*◌, ◌-◌, ◌∷◌, [], drop, take, length, slice_index, IfSome, IfNone, IfOk, true, false};
ghost use Rattle.std.specs.Char.{digit_value, is_digit};
ghost use Rattle.ms_lex.specs.Names.{decoded, name_part, unescaped};
ghost use Rattle.ms_lex.specs.Names as spec;

use crate::errors::NoMemory;
use crate::kinds::{Kind, Token};
use crate::scan::quote_place;
use crate::spellings::spelling;
use std::alloc::Global;

/// The number that a hexadecimal digit stands for; none for another byte.
fn hexadecimal_digit(b: u8) -> Option<u8>
    ensures some { IfSome result (λ d. (d ≡ digit_value b) × (d < 16)) }
    ensures yes { IfSome result (λ d. is_digit b 16 ≡ true) }
    ensures no { IfNone result (is_digit b 16 ≡ false) }
{
    match char::from(b).to_digit(16) {
        Some(digit) => Some(digit as u8),
        None => None,
    }
}

/// The byte that a backslash and two hexadecimal digits stand for, and the bytes after them. The text
/// begins after the backslash.
#[tactic(auto, using(crate::proofs::Escapes::pair, crate::proofs::Escapes::at_end, crate::proofs::Escapes::before_one, crate::proofs::Escapes::no_high, crate::proofs::Escapes::no_low))]
fn hexadecimal_byte(text: &[u8]) -> Option<(u8, &[u8])>
    requires { slice_index text.now 0 ≢ 92 }
    ensures some { IfSome result (λ p. unescaped (92 ∷ text.now) ≡ p.0 ∷ unescaped p.1.now) }
    ensures less { IfSome result (λ p. length p.1.now < length text.now) }
    ensures none { IfNone result (unescaped (92 ∷ text.now) ≡ 92 ∷ unescaped text.now) }
{
    match text {
        [first, second, after @ ..] => {
            let high = hexadecimal_digit(*first)?;
            let low = hexadecimal_digit(*second)?;
            Some((16 * high + low, after))
        }
        _ => None,
    }
}

/// The first byte that a string's bytes stand for, and the bytes after those that stand for it.
#[tactic(auto, using(crate::proofs::Escapes::plain, crate::proofs::Escapes::double))]
fn first_byte(text: &[u8]) -> Option<(u8, &[u8])>
    ensures some { IfSome result (λ p. unescaped text.now ≡ p.0 ∷ unescaped p.1.now) }
    ensures less { IfSome result (λ p. length p.1.now < length text.now) }
    ensures none { IfNone result (text.now ≡ []) }
{
    match text {
        [] => None,
        [b'\\', b'\\', after @ ..] => Some((b'\\', after)),
        [b'\\', after @ ..] => match hexadecimal_byte(after) {
            Some(found) => Some(found),
            None => Some((b'\\', after)),
        },
        [first, after @ ..] => Some((*first, after)),
    }
}

/// What a string's bytes stand for.
fn unescape(alloc: Global, text: &[u8]) -> Result<Vec<u8>, NoMemory>
    ensures { IfOk result (λ bytes. bytes.items ≡ unescaped text.now) }
{
    let mut bytes: Vec<u8> = Vec::new(alloc);
    let mut rest = text;
    'bytes: while let Some((byte, after)) = first_byte(rest) {
        bytes.push(byte)?;
        rest = after;
    }
    Ok(bytes)
}

/// A spelling without its sigil.
fn without_first(text: &[u8]) -> &[u8]
    ensures { result.now ≡ drop 1 text.now }
{
    match text {
        [] => text,
        [_, rest @ ..] => rest,
    }
}

/// A label's spelling without its colon.
fn without_last(text: &[u8]) -> &[u8]
    ensures { result.now ≡ take (length text.now - 1) text.now }
{
    &text[..text.len().saturating_sub(1)]
}

/// The run or the string that a token of this kind holds.
fn name_part(kind: Kind, spelling: &[u8]) -> &[u8]
    ensures { result.now ≡ spec.name_part kind spelling.now }
{
    match kind {
        Kind::Label => without_last(spelling),
        Kind::CText | Kind::Global | Kind::Local | Kind::Meta | Kind::Group => {
            without_first(spelling)
        }
        Kind::Str | Kind::Number | Kind::Word | Kind::Other | Kind::Punct => spelling,
    }
}

/// The name that a run of name bytes or a string is.
fn decode(alloc: Global, part: &[u8]) -> Result<Vec<u8>, NoMemory>
    ensures { IfOk result (λ name. name.items ≡ decoded part.now) }
{
    match part {
        [b'"', rest @ ..] => unescape(alloc, &rest[..quote_place(rest)]),
        _ => part.to_vec(alloc),
    }
}

/// The name that a token is, where its bytes stand in the text as they are: where the token is no string.
#[tactic(auto, unfolding(crate::specs::Names::name_of))]
pub fn plain_name<'a>(text: &'a [u8], token: &Token) -> Option<&'a [u8]>
    requires ordered { token.now.start ≤ token.now.end }
    requires inside { token.now.end ≤ length text.now }
    ensures { IfSome result (λ name. name.now ≡ spec.name_of text.now token.now) }
{
    let part = name_part(token.kind, spelling(text, token));
    match part {
        [b'"', ..] => None,
        _ => Some(part),
    }
}

/// The name that a token is: without the sigil of a global, a local, a metadata node or an attribute
/// group, without the `c` of a text and without the colon of a label.
///
/// A run of name bytes is its own name. A string's name is what its bytes between the quotes stand for,
/// read from left to right: two backslashes for one backslash, a backslash and two hexadecimal digits
/// for the byte that these name, and any other byte for itself, a backslash too. A token of a kind that
/// has no name gives its own bytes.
///
/// # Errors
///
/// Only where memory ran out.
#[tactic(auto, unfolding(crate::specs::Names::name_of))]
pub fn name_of(alloc: Global, text: &[u8], token: &Token) -> Result<Vec<u8>, NoMemory>
    requires ordered { token.now.start ≤ token.now.end }
    requires inside { token.now.end ≤ length text.now }
    ensures { IfOk result (λ name. name.items ≡ spec.name_of text.now token.now) }
{
    decode(alloc, name_part(token.kind, spelling(text, token)))
}
