//! The brackets that are open, each with the one that closes it.

ghost use Rattle.std.specs.Prelude.{◌≡◌, ◌↔◌, IsTrue, OnOk, []};
ghost use Rattle.ms_text_grammar.specs.Skipped as spec;

use ms_read_cursor::same_symbol;
use ms_text_grammar::Symbol;
use std::alloc::{AllocError, Global};
use std::marker::Model;

/// Whether a symbol is a closing bracket.
pub fn is_closer(symbol: Symbol) -> bool
    ensures { result ≡ spec.is_closer symbol }
{
    matches!(
        symbol,
        Symbol::CloseParen | Symbol::CloseBracket | Symbol::CloseBrace
    )
}

/// The closing brackets that are awaited. Contracts see the innermost first.
#[derive(Drop)]
pub struct Awaited {
    /// The innermost last.
    closers: Vec<Symbol>,
}

impl Model for Awaited {
    ghost use Rattle.std.specs.Prelude.{List, reverse};
    ghost use Rattle.ms_text_grammar.specs.declared.symbols.Symbol.{Symbol as Awaiting};

    ghost Value = { List Awaiting };

    ghost view = { λ a. reverse a.closers.items };
}

impl Awaited {
    /// No bracket is open.
    pub fn nothing(alloc: Global) -> Awaited
        ensures { result ≡ [] }
    {
        Awaited {
            closers: Vec::new(alloc),
        }
    }

    /// Whether no bracket is open.
    pub fn is_nothing(&self) -> bool
        ensures { IsTrue result ↔ (self.now ≡ []) }
    {
        self.closers.is_empty()
    }

    /// Whether a symbol is the innermost bracket that is awaited.
    pub fn awaits(&self, symbol: Symbol) -> bool
        ensures { result ≡ spec.is_awaited self.now symbol }
    {
        match self.closers.last() {
            Some(closer) => same_symbol(symbol, *closer),
            None => false,
        }
    }

    /// Goes past a token of this symbol: after an opening bracket its closing one is awaited, and a closing one is awaited no
    /// more.
    pub fn take(&mut self, symbol: Symbol) -> Result<(), AllocError>
        ensures { OnOk result (self.new ≡ spec.awaits self.old symbol) }
    {
        match symbol {
            Symbol::OpenParen => self.closers.push(Symbol::CloseParen)?,
            Symbol::OpenBracket => self.closers.push(Symbol::CloseBracket)?,
            Symbol::OpenBrace => self.closers.push(Symbol::CloseBrace)?,
            _ => {
                if is_closer(symbol) {
                    self.closers.pop();
                }
            }
        }
        Ok(())
    }
}
