//! A token of a text as the grammar sees it.

ghost use Rattle.std.specs.Prelude.{◌≡◌, ◌≢◌, ◌≤◌, ◌^◌, ◌⊎◌, length, drop, IfOk, IfSome, IfNone, true, false};
ghost use Rattle.ms_lex.specs.{Names.{name_part, spelling_of}, Numbers.{decimal as decimal_of}};
ghost use Rattle.ms_read_cursor.specs.Views.{digits_of};
ghost use Rattle.ms_text_grammar.specs.Lexemes as spec;
ghost use Rattle.ms_text_grammar.specs.Steps as steps;

use crate::decimals::decimal;
use crate::outside::outside_of;
use crate::symbols::same_symbol;
use ms_bits::{Bytes, List, SmallBytes};
use ms_lex::{Kind, NoMemory, Token, name_of, number_of, plain_name};
use ms_text_grammar::{Cause, Outside, Symbol};
use std::alloc::Global;
use std::marker::Model;

/// A token of a text with its symbol, or the end of the text. Contracts see the grammar's lexeme.
#[derive(Drop)]
pub struct Lexeme<'a> {
    /// The whole text.
    text: &'a [u8],
    token: Token,
    symbol: Symbol,
}

impl<'a> Model for Lexeme<'a> {
    ghost use Rattle.ms_text_grammar.specs.Lexemes.{Lexeme as Seen};

    ghost Value = { Seen };

    ghost use Rattle.ms_read_cursor.specs.Views.{lexeme_in, IsLexeme};

    ghost view = { lexeme_in };

    ghost invariant = { IsLexeme };
}

impl<'a> Lexeme<'a> {
    /// The end of a text.
    pub fn end_of_text() -> Lexeme<'a>
        ensures { result ≡ spec.end_of_text }
    {
        Lexeme {
            text: &[],
            token: Token {
                kind: Kind::Punct,
                start: 0,
                end: 0,
            },
            symbol: Symbol::EndOfText,
        }
    }

    /// A token of a text, with its symbol.
    pub fn of(text: &'a [u8], token: Token, symbol: Symbol) -> Lexeme<'a>
        requires ordered { token.start ≤ token.end }
        requires inside { token.end ≤ length text.now }
        requires symbol { symbol ≡ spec.symbol_of token.kind (spelling_of text.now token) }
        ensures { result ≡ spec.lexeme_of text.now token }
    {
        Lexeme {
            text,
            token,
            symbol,
        }
    }

    /// What it is to the grammar.
    pub fn symbol(&self) -> Symbol
        ensures { result ≡ self.now.symbol }
    {
        self.symbol
    }

    /// Its bytes in the text.
    pub fn spelling(&self) -> &'a [u8]
        ensures { result.now ≡ self.now.spelling }
    {
        &self.text[self.token.start as usize..self.token.end as usize]
    }

    /// Whether it is this symbol.
    pub fn is(&self, symbol: Symbol) -> bool
        ensures { result ≡ spec.is symbol self.now }
    {
        same_symbol(self.symbol, symbol)
    }

    /// The name that it spells, decoded and without its sign.
    #[tactic(auto, unfolding(ms_lex::specs::Names::name_of))]
    pub fn name(&self, alloc: Global) -> Result<Bytes, NoMemory>
        ensures { IfOk result (λ name. name ≡ spec.name_in self.now) }
    {
        Ok(List::from_vec(name_of(alloc, self.text, &self.token)?))
    }

    /// The name that it spells, as the module keeps it: in no block of the heap where it is short.
    #[tactic(auto, unfolding(ms_lex::specs::Names::name_of))]
    pub fn small_name(&self, alloc: Global) -> Result<SmallBytes, NoMemory>
        ensures { IfOk result (λ name. name ≡ spec.name_in self.now) }
    {
        match plain_name(self.text, &self.token) {
            Some(name) => SmallBytes::from_slice(alloc, name),
            None => SmallBytes::from_slice(alloc, &name_of(alloc, self.text, &self.token)?),
        }
    }

    /// The number that it spells, where it lies from -2^63 to 2^64 - 1.
    #[tactic(auto, using(crate::proofs::Numbers::outside_is, crate::proofs::Numbers::inside_is), unfolding(ms_lex::specs::Numbers::number_of))]
    pub fn number(&self) -> Option<i128>
        ensures value { IfSome result (λ n. n ≡ spec.number_in self.now) }
        ensures some { IfSome result (λ _. steps.is_givable (spec.number_in self.now) ≡ true) }
        ensures none { IfNone result (steps.is_givable (spec.number_in self.now) ≡ false) }
    {
        number_of(self.text, &self.token)
    }

    /// Why it can't stand, where nothing says more of it.
    #[tactic(auto, unfolding(ms_text_grammar::specs::Steps::refusal))]
    pub fn refusal(&self) -> Cause
        ensures value { result ≡ steps.refusal self.now }
        ensures real { result ≢ Cause.NoMemory }
    {
        if self.is(Symbol::Number) && self.number().is_none() {
            return Cause::Outside(Outside::WideInteger);
        }
        match outside_of(self.symbol) {
            Some(construct) => Cause::Outside(construct),
            None => Cause::Syntax,
        }
    }

    /// Its bytes after the first one.
    fn after_sign(&self) -> &'a [u8]
        ensures { result.now ≡ drop 1 self.now.spelling }
    {
        match self.spelling() {
            [] => &[],
            [_, rest @ ..] => rest,
        }
    }

    /// The digits of a numbered label or a numbered local.
    fn digits(&self) -> &'a [u8]
        ensures { result.now ≡ digits_of self.now.kind self.now.spelling }
    {
        match self.token.kind {
            Kind::Label => {
                let spelling = self.spelling();
                &spelling[..spelling.len().saturating_sub(1)]
            }
            _ => self.after_sign(),
        }
    }

    /// The width of an integer type.
    pub fn width(&self) -> u8
        requires { self.now.symbol ≡ Symbol.IntType }
        ensures value { result ≡ spec.width_in self.now }
        ensures narrow { (1 ≤ result) × (result ≤ 64) }
    {
        // Tells the prover what holds of every lexeme.
        let _ = &self.text;
        match decimal(self.after_sign()) {
            Some(width) => width as u8,
            None => 0,
        }
    }

    /// The number that a numbered local or label is, where 64 bits have it.
    pub fn numeral(&self) -> Option<u64>
        requires { (self.now.symbol ≡ Symbol.NumberedLocal) ⊎ (self.now.symbol ≡ Symbol.NumberedLabel) }
        ensures value { IfSome result (λ n. n ≡ decimal_of (spec.name_in self.now)) }
        ensures none { IfNone result (2 ^ 64 ≤ decimal_of (spec.name_in self.now)) }
    {
        // Tells the prover what holds of every lexeme.
        let _ = &self.text;
        decimal(self.digits())
    }
}
