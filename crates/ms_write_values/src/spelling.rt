//! How names, strings and numbers are spelled (LLVM Language Reference, "Identifiers" and "Simple Constants").
ghost use Rattle.std.specs.{Prelude.{◌≡◌, ◌<◌, ◌++◌, IfOk, decimal}, List.{list_all}};
ghost use Rattle.ms_lex.specs.Tokens.{is_name_byte as is_name_byte_of};
ghost use Rattle.ms_text_grammar.specs.LayoutNames.{is_printed as is_printed_of, hexadecimal_digit as hexadecimal_digit_of, string_byte as string_byte_of, quoted as quoted_of, is_plain as is_plain_of, name_text};

use itoa::Buffer;
use ms_bits::NoMemory;
use ms_ir::Name;
use ms_lex::is_name_byte;

/// Whether a byte stands for itself in a string: a printed one, but neither the quote nor the backslash.
fn is_printed(byte: u8) -> bool
    ensures { result ≡ is_printed_of byte }
{
    byte > 31 && byte < 127 && byte != b'"' && byte != b'\\'
}

/// A hexadecimal digit, in upper case: 48 is `0`, and 55 is `A` less 10.
fn hexadecimal_digit(digit: u8) -> u8
    requires { digit < 16 }
    ensures { result ≡ hexadecimal_digit_of digit }
{
    if digit < 10 { 48 + digit } else { 55 + digit }
}

/// Whether each byte may stand in a name without quotes.
fn are_name_bytes(bytes: &[u8]) -> bool
    ensures { result ≡ list_all is_name_byte_of bytes.now }
{
    bytes.iter().all(|byte| is_name_byte(*byte))
}

/// Whether a name needs no quotes: name bytes, and no digit first.
fn is_plain(bytes: &[u8]) -> bool
    ensures { result ≡ is_plain_of bytes.now }
{
    match bytes {
        [] => false,
        [first, ..] => !first.is_ascii_digit() && are_name_bytes(bytes),
    }
}

/// Adds a byte of a string to a text: itself, or a backslash and two hexadecimal digits.
#[tactic(auto, unfolding(ms_text_grammar::specs::LayoutNames::string_byte))]
fn push_string_byte(text: &mut Vec<u8>, byte: u8) -> Result<(), NoMemory>
    ensures { IfOk result (λ _. text.new.items ≡ text.old.items ++ string_byte_of byte) }
{
    if is_printed(byte) {
        text.push(byte)?;
    } else {
        text.push(b'\\')?;
        text.push(hexadecimal_digit(byte / 16))?;
        text.push(hexadecimal_digit(byte % 16))?;
    }
    Ok(())
}

/// Adds bytes between quotes to a text.
#[tactic(auto, unfolding(ms_text_grammar::specs::LayoutNames::quoted))]
pub fn push_quoted(text: &mut Vec<u8>, bytes: &[u8]) -> Result<(), NoMemory>
    ensures { IfOk result (λ _. text.new.items ≡ text.old.items ++ quoted_of bytes.now) }
{
    text.push(b'"')?;
    for byte in bytes {
        push_string_byte(text, *byte)?;
    }
    text.push(b'"')?;
    Ok(())
}

/// Adds a number in decimal digits to a text.
pub fn push_number(text: &mut Vec<u8>, number: u64) -> Result<(), NoMemory>
    ensures { IfOk result (λ _. text.new.items ≡ text.old.items ++ decimal number) }
{
    let mut buffer = Buffer::new();
    text.extend_from_slice(buffer.format(number).as_bytes())
}

/// Adds a name without its sign to a text: a number, a run of name bytes, or a string.
#[tactic(auto, unfolding(ms_text_grammar::specs::LayoutNames::name_text))]
pub fn push_name(text: &mut Vec<u8>, name: &Name) -> Result<(), NoMemory>
    ensures { IfOk result (λ _. text.new.items ≡ text.old.items ++ name_text name.now) }
{
    match name {
        Name::Number(number) => push_number(text, *number as u64),
        Name::Text(bytes) => {
            let bytes = bytes.as_slice();
            if is_plain(bytes) {
                text.extend_from_slice(bytes)
            } else {
                push_quoted(text, bytes)
            }
        }
    }
}
