//! How names are spelled ("Identifiers"), and which are kept for what is inserted.
ghost use Rattle.std.specs.{Prelude.{◌≡◌}, Char.{is_ascii_digit}, List.{list_all}};
ghost use Rattle.ms_ir.specs.declared.syntax.Name.TheVariants as spelling;
ghost use Rattle.ms_ir.specs.Names.{name_eq, is_reserved, is_digits, is_inserted_name};

use crate::syntax::Name;

/// Whether a text begins with `__msan`, as the names do that are kept for what is inserted.
pub fn is_reserved(text: &[u8]) -> bool
    ensures { result ≡ is_reserved (spelling.Text text.now) }
{
    &text[..text.len().min(6)] == b"__msan".as_slice()
}

/// Whether each byte of a text is a decimal digit.
fn are_digits(text: &[u8]) -> bool
    ensures { result ≡ list_all is_ascii_digit text.now }
{
    text.iter().all(|byte| byte.is_ascii_digit())
}

/// Whether a text is a decimal digit or more, and nothing else.
pub fn is_digits(text: &[u8]) -> bool
    ensures { result ≡ is_digits text.now }
{
    match text {
        [] => false,
        [_, ..] => are_digits(text),
    }
}

/// Whether a text is `__msan.` with decimal digits, the name of the result of an inserted instruction.
pub fn is_inserted(text: &[u8]) -> bool
    ensures { result ≡ is_inserted_name (spelling.Text text.now) }
{
    let first = text.len().min(7);
    &text[..first] == b"__msan.".as_slice() && is_digits(&text[first..])
}

impl Name {
    /// Whether it is spelled so. A number is no text.
    pub fn is(&self, text: &[u8]) -> bool
        ensures { result ≡ name_eq self.now (spelling.Text text.now) }
    {
        match self {
            Name::Number(_) => false,
            Name::Text(bytes) => bytes.as_slice() == text,
        }
    }

    /// Whether it begins with `__msan`, and so is kept for what is inserted.
    pub fn is_reserved(&self) -> bool
        ensures { result ≡ is_reserved self.now }
    {
        match self {
            Name::Number(_) => false,
            Name::Text(bytes) => is_reserved(bytes.as_slice()),
        }
    }

    /// Whether it is `__msan.` with decimal digits, the name of the result of an inserted instruction.
    pub fn is_inserted(&self) -> bool
        ensures { result ≡ is_inserted_name self.now }
    {
        match self {
            Name::Number(_) => false,
            Name::Text(bytes) => is_inserted(bytes.as_slice()),
        }
    }
}
