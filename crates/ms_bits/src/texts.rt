//! A text whose value in a contract is the list of its bytes.
ghost use Rattle.std.specs.Prelude.{◌≡◌, string_bytes};

use std::marker::Model;

/// A text over a `String`, in UTF-8, such as a word of the command line. Contracts see the list of its bytes.
#[derive(Debug, Drop)]
pub struct Text {
    text: String,
}

impl Model for Text {
    ghost use Rattle.std.specs.Prelude.{List as ListOf, ℕ, string_bytes};

    ghost Value = { ListOf ℕ };

    ghost view = { λ t. string_bytes t.text };
}

impl Text {
    /// The text of `s`. Takes no memory.
    pub fn from_string(s: String) -> Text
        ensures { result ≡ string_bytes s }
    {
        Text { text: s }
    }

    /// The text.
    pub fn as_str(&self) -> &str
        ensures { result.now ≡ self.now }
    {
        self.text.as_str()
    }
}
