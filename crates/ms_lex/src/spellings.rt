//! Parts of a text.

ghost use Rattle.std.specs.Prelude.{◌≡◌, ◌≤◌, ◌∷◌, [], drop, length, IfSome, IfNone};
ghost use Rattle.ms_lex.specs.Names.{spelling_of};

use crate::kinds::Token;

/// The first byte, and the bytes after it.
pub fn front(text: &[u8]) -> Option<(u8, &[u8])>
    ensures some { IfSome result (λ p. text.now ≡ p.0 ∷ p.1.now) }
    ensures none { IfNone result (text.now ≡ []) }
{
    match text {
        [] => None,
        [first, rest @ ..] => Some((*first, rest)),
    }
}

/// The text after so many bytes.
pub fn bytes_after(text: &[u8], n: usize) -> &[u8]
    requires { n ≤ length text.now }
    ensures { result.now ≡ drop n text.now }
{
    &text[n..]
}

/// The bytes of the text that the token takes.
pub fn spelling<'a>(text: &'a [u8], token: &Token) -> &'a [u8]
    requires ordered { token.now.start ≤ token.now.end }
    requires inside { token.now.end ≤ length text.now }
    ensures { result.now ≡ spelling_of text.now token.now }
{
    &text[token.start as usize..token.end as usize]
}
