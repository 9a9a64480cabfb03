//! A cursor over the tokens of a text, from which every reader takes what comes next.

ghost use Rattle.std.specs.Prelude.{◌≡◌, ◌≢◌, ◌≤◌, drop, length};
ghost use Rattle.ms_lex.specs.{Grammar.{tail}, Tokens.{InOrder}};
ghost use Rattle.ms_text_grammar.specs.Lexemes.{lexemes_of};
ghost use Rattle.ms_text_grammar.specs.Lexemes as lexemes;
ghost use Rattle.ms_text_grammar.specs.Steps as spec;
ghost use Rattle.ms_read_cursor.specs.{Reading.{Gives, front, run}, Places.{LieIn}};

use crate::lexemes::Lexeme;
use crate::symbols::{same_symbol, symbol_of};
use ms_lex::Token;
use ms_text_grammar::{Cause, Symbol};
use std::alloc::Global;
use std::marker::Model;

/// The tokens of a text that are left, and the allocator of what is read from them. Contracts see the list of the tokens.
#[derive(Drop)]
pub struct Tokens<'a> {
    alloc: Global,
    /// The whole text.
    text: &'a [u8],
    /// The tokens that are left.
    rest: &'a [Token],
    /// The symbol of the next token, so that it is found once.
    symbol: Symbol,
}

impl<'a> Model for Tokens<'a> {
    ghost use Rattle.std.specs.Prelude.{List};
    ghost use Rattle.ms_text_grammar.specs.Lexemes.{Lexeme as Seen};

    ghost Value = { List Seen };

    ghost use Rattle.ms_read_cursor.specs.Places.{left_in, IsReady};

    ghost view = { left_in };

    ghost invariant = { IsReady };
}

/// The symbol of the first of these tokens.
fn first_symbol(text: &[u8], rest: &[Token]) -> Symbol
    requires { LieIn text.now rest.now }
    ensures { result ≡ (front (lexemes_of text.now rest.now)).symbol }
{
    match rest {
        [] => Symbol::EndOfText,
        [token, ..] => symbol_of(token.kind, &text[token.start as usize..token.end as usize]),
    }
}

/// The tokens from this place on.
fn tokens_after(tokens: &[Token], place: usize) -> &[Token]
    requires { place ≤ length tokens.now }
    ensures { result.now ≡ drop place tokens.now }
{
    &tokens[place..]
}

impl<'a> Tokens<'a> {
    /// The tokens of a text from token `place` on; so many stand before it.
    #[tactic(auto, using(crate::proofs::Places::lie_in, crate::proofs::Places::after))]
    pub fn at(alloc: Global, text: &'a [u8], tokens: &'a [Token], place: usize) -> Tokens<'a>
        requires in_order { InOrder tokens.now (length text.now) }
        requires inside { place ≤ length tokens.now }
        ensures { result ≡ drop place (lexemes_of text.now tokens.now) }
    {
        let rest = tokens_after(tokens, place);
        let symbol = first_symbol(text, rest);
        Tokens {
            alloc,
            text,
            rest,
            symbol,
        }
    }

    /// These tokens once more, from the same place on.
    pub fn copy(&self) -> Tokens<'a>
        ensures { result ≡ self.now }
    {
        Tokens {
            alloc: self.alloc,
            text: self.text,
            rest: self.rest,
            symbol: self.symbol,
        }
    }

    /// The allocator of what is read from the tokens.
    pub fn alloc(&self) -> Global {
        self.alloc
    }

    /// How many tokens are left. The place of the next one is that many before the end.
    pub fn left(&self) -> usize
        ensures { result ≡ length self.now }
    {
        self.rest.len()
    }

    /// The symbol of the next token.
    pub fn peek(&self) -> Symbol
        ensures { result ≡ (front self.now).symbol }
    {
        self.symbol
    }

    /// The next token, or the end of the text.
    pub fn lexeme(&self) -> Lexeme<'a>
        ensures { result ≡ front self.now }
    {
        match self.rest {
            [] => Lexeme::end_of_text(),
            [token, ..] => Lexeme::of(self.text, *token, self.symbol),
        }
    }

    /// The bytes of the next token.
    pub fn text(&self) -> &'a [u8]
        ensures { result.now ≡ (front self.now).spelling }
    {
        match self.rest {
            [] => &[],
            [token, ..] => &self.text[token.start as usize..token.end as usize],
        }
    }

    /// Goes past the next token. At the end of the text it stays.
    pub fn advance(&mut self)
        ensures { self.new ≡ tail self.old }
    {
        if let [_, rest @ ..] = self.rest {
            self.symbol = first_symbol(self.text, rest);
            self.rest = rest;
        }
    }

    /// Whether the next token is this symbol.
    pub fn sees(&self, symbol: Symbol) -> bool
        ensures { result ≡ lexemes.is symbol (front self.now) }
    {
        same_symbol(self.peek(), symbol)
    }

    /// Why the next token can't stand, where nothing says more of it.
    pub fn refusal(&self) -> Cause
        ensures value { result ≡ spec.refusal (front self.now) }
        ensures real { result ≢ Cause.NoMemory }
    {
        self.lexeme().refusal()
    }

    /// Takes this symbol.
    ///
    /// # Errors
    ///
    /// `Syntax` or `Outside` where another token comes next, at which it stands then.
    #[tactic(auto, unfolding(ms_text_grammar::specs::Steps::word))]
    pub fn word(&mut self, symbol: Symbol) -> Result<(), Cause>
        ensures { Gives (run (spec.word symbol) self.old) result self.new }
    {
        if self.sees(symbol) {
            self.advance();
            Ok(())
        } else {
            Err(self.refusal())
        }
    }
}
