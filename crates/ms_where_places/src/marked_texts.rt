//! A text with its tokens and its marks: what stands at which tokens.

ghost use Rattle.std.specs.Prelude.{◌≡◌, ◌≤◌, IfSome, length, option_copied, slice_get};
ghost use Rattle.std.specs.Str.{bytes_eq};
ghost use Rattle.ms_lex.specs.Tokens.{InOrder};
ghost use Rattle.ms_where_places.specs.Told.{mark_at, spelling_at};

use crate::marks::Mark;
use ms_lex::Token;
use std::marker::Model;

/// A text with its tokens and its marks. Contracts see the three together.
#[derive(Drop)]
pub struct MarkedText<'a> {
    text: &'a [u8],
    tokens: &'a [Token],
    marks: &'a [Mark],
}

impl<'a> Model for MarkedText<'a> {
    ghost use Rattle.ms_where_places.specs.Told.{Told};

    ghost Value = { Told };

    ghost use Rattle.ms_where_places.specs.MarkedTexts.{told, LiesInText};

    ghost view = { told };

    ghost invariant = { LiesInText };
}

impl<'a> MarkedText<'a> {
    /// A text with its tokens and its marks.
    pub fn new(text: &'a [u8], tokens: &'a [Token], marks: &'a [Mark]) -> MarkedText<'a>
        requires in_order { InOrder tokens.now (length text.now) }
        ensures { result ≡ record { text = text.now; tokens = tokens.now; marks = marks.now } }
    {
        MarkedText {
            text,
            tokens,
            marks,
        }
    }

    /// The bytes of the text.
    pub fn text(&self) -> &'a [u8]
        ensures { result.now ≡ self.now.text }
    {
        self.text
    }

    /// The tokens of the text.
    pub fn tokens(&self) -> &'a [Token]
        ensures { result.now ≡ self.now.tokens }
    {
        self.tokens
    }

    /// The marks of the text.
    pub fn marks(&self) -> &'a [Mark]
        ensures { result.now ≡ self.now.marks }
    {
        self.marks
    }

    /// This text with its marks once more: it holds no memory of its own.
    pub fn copy(&self) -> MarkedText<'a>
        ensures { result ≡ self.now }
    {
        MarkedText::new(self.text, self.tokens, self.marks)
    }

    /// The mark at this place, if there is one.
    #[tactic(auto, using(crate::proofs::Spelled::item_is))]
    pub fn mark(&self, place: usize) -> Option<&'a Mark>
        ensures { option_copied result ≡ mark_at self.now place }
    {
        self.marks.get(place)
    }

    /// The token with this number, if the text has such one. It lies in the text.
    #[tactic(auto, using(crate::proofs::Spelled::item_is, crate::proofs::Spelled::item_lies))]
    pub fn token(&self, number: usize) -> Option<&'a Token>
        ensures token { option_copied result ≡ slice_get self.now.tokens number }
        ensures lies { IfSome result (λ token. (token.now.start ≤ token.now.end) × (token.now.end ≤ length self.now.text)) }
    {
        self.tokens.get(number)
    }

    /// The bytes of the token with this number, or none where the text has no such one.
    pub fn spelling(&self, number: usize) -> &'a [u8]
        ensures { result.now ≡ spelling_at self.now number }
    {
        match self.tokens.get(number) {
            None => &[],
            Some(token) => &self.text[token.start as usize..token.end as usize],
        }
    }

    /// Whether the token with this number is spelled so.
    pub fn is_spelled(&self, word: &[u8], number: usize) -> bool
        ensures { result ≡ bytes_eq (spelling_at self.now number) word.now }
    {
        self.spelling(number) == word
    }
}
