//! A text that is written token by token, in one buffer that grows.
ghost use Rattle.std.specs.Prelude.{◌≡◌, ◌++◌, [], ◌∷◌, true, IfOk, Some, decimal};
ghost use Rattle.ms_text_grammar.specs.{LayoutNames.{name_text, quoted as quoted_of}, LayoutInsts.{mark_tokens}};
ghost use Rattle.ms_write_values.specs.Sheets.{empty, first_byte as first_byte_of, are_near as are_near_of, gap, grown, put_text, put, opened, ended};

use crate::spelling::{push_name, push_number, push_quoted};
use itoa::Buffer;
use ms_bits::NoMemory;
use ms_ir::Name;
use std::alloc::Global;
use std::marker::Model;

/// A text as far as it is written. Contracts see its bytes, and the first byte of the token that stands last in the line.
#[derive(Drop)]
pub struct Writer {
    bytes: Vec<u8>,
    /// The first byte of the token that stands last in the line, by which a space stands after it or not; none at the start of a
    /// line.
    last: Option<u8>,
}

impl Model for Writer {
    ghost use Rattle.ms_write_values.specs.Sheets.{Sheet};

    ghost Value = { Sheet };

    ghost view = { λ w. record { bytes = w.bytes.items; last = w.last } };
}

/// The first byte of a token, and 0 of an empty one.
fn first_byte(text: &[u8]) -> u8
    ensures { result ≡ first_byte_of text.now }
{
    match text {
        [] => 0,
        [first, ..] => *first,
    }
}

/// Whether no space stands between tokens that begin with these bytes: none before `,` and `)`, after `(`, and between a global's
/// name and `(`.
fn are_near(before: u8, next: u8) -> bool
    ensures { result ≡ are_near_of before next }
{
    before == b'(' || next == b',' || next == b')' || (before == b'@' && next == b'(')
}

impl Writer {
    /// Nothing is written yet.
    pub fn new(alloc: Global) -> Writer
        ensures { result ≡ empty }
    {
        Writer {
            bytes: Vec::new(alloc),
            last: None,
        }
    }

    /// What is written.
    pub fn into_bytes(self) -> Vec<u8>
        ensures { result.items ≡ self.bytes }
    {
        let Writer { bytes, last: _ } = self;
        bytes
    }

    /// Writes the space in front of a token that begins with this byte, if one stands there.
    #[inline(always)]
    fn space(&mut self, first: u8) -> Result<(), NoMemory>
        ensures { IfOk result (λ _. self.new ≡ record { bytes = self.old.bytes ++ gap self.old.last first; last = Some first }) }
    {
        if let Some(before) = self.last {
            if !are_near(before, first) {
                self.bytes.push(b' ')?;
            }
        }
        self.last = Some(first);
        Ok(())
    }

    /// Writes a token.
    #[inline(always)]
    pub fn token(&mut self, text: &[u8]) -> Result<(), NoMemory>
        ensures { IfOk result (λ _. self.new ≡ put_text self.old text.now) }
    {
        self.space(first_byte(text))?;
        self.bytes.extend_from_slice(text)?;
        Ok(())
    }

    /// Writes the mark of an inserted instruction, `, !nosanitize !0`, at once, since most tokens of such a line are its.
    #[inline(always)]
    #[tactic(auto, using(crate::proofs::Puts::put_mark))]
    pub fn mark(&mut self) -> Result<(), NoMemory>
        ensures { IfOk result (λ _. self.new ≡ put self.old (mark_tokens true)) }
    {
        self.bytes.extend_from_slice(b", !nosanitize !0")?;
        self.last = Some(b'!');
        Ok(())
    }

    /// Writes the first byte of a token.
    #[inline(always)]
    pub fn begin(&mut self, first: u8) -> Result<(), NoMemory>
        ensures { IfOk result (λ _. self.new ≡ put_text self.old (first ∷ [])) }
    {
        self.space(first)?;
        self.bytes.push(first)?;
        Ok(())
    }

    /// Writes further bytes of a token.
    pub fn more(&mut self, text: &[u8]) -> Result<(), NoMemory>
        ensures { IfOk result (λ _. self.new ≡ grown self.old text.now) }
    {
        self.bytes.extend_from_slice(text)?;
        Ok(())
    }

    /// Writes one more byte of a token.
    #[inline(always)]
    pub fn byte(&mut self, byte: u8) -> Result<(), NoMemory>
        ensures { IfOk result (λ _. self.new ≡ grown self.old (byte ∷ [])) }
    {
        self.bytes.push(byte)?;
        Ok(())
    }

    /// Writes the decimal digits of a number, after the bytes of a token.
    pub fn digits(&mut self, number: u64) -> Result<(), NoMemory>
        ensures { IfOk result (λ _. self.new ≡ grown self.old (decimal number)) }
    {
        push_number(&mut self.bytes, number)
    }

    /// Writes a name without its sign, after the bytes of a token.
    pub fn name(&mut self, name: &Name) -> Result<(), NoMemory>
        ensures { IfOk result (λ _. self.new ≡ grown self.old (name_text name.now)) }
    {
        push_name(&mut self.bytes, name)
    }

    /// Writes bytes between quotes, after the bytes of a token.
    pub fn quoted(&mut self, bytes: &[u8]) -> Result<(), NoMemory>
        ensures { IfOk result (λ _. self.new ≡ grown self.old (quoted_of bytes.now)) }
    {
        push_quoted(&mut self.bytes, bytes)
    }

    /// Writes a number in decimal digits, as a token.
    pub fn number_text(&mut self, number: u64) -> Result<(), NoMemory>
        ensures { IfOk result (λ _. self.new ≡ put_text self.old (decimal number)) }
    {
        let mut buffer = Buffer::new();
        self.token(buffer.format(number).as_bytes())
    }

    /// Begins a line with these bytes, an indentation.
    #[inline(always)]
    pub fn start_line(&mut self, indent: &[u8]) -> Result<(), NoMemory>
        ensures { IfOk result (λ _. self.new ≡ opened self.old indent.now) }
    {
        self.bytes.extend_from_slice(indent)?;
        self.last = None;
        Ok(())
    }

    /// Ends a line.
    #[inline(always)]
    pub fn end_line(&mut self) -> Result<(), NoMemory>
        ensures { IfOk result (λ _. self.new ≡ ended self.old) }
    {
        self.bytes.push(b'\n')?;
        self.last = None;
        Ok(())
    }
}
