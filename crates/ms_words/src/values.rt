//! The values of options.
ghost use Rattle.std.specs.Prelude.{◌≡◌, ◌^◌, ◌<◌, ◌≤◌, true, IsTrue, IfOk, MatchOption};
ghost use Rattle.std.specs.{Char.{digit_value, is_ascii_digit, is_ascii_hexdigit}, List.{list_all}};
ghost use Rattle.ms_words.specs.Values.{is_number as is_number_of, is_hex as is_hex_of, number as number_of, hex_bytes as hex_bytes_of, value_fault as value_fault_of};
ghost use Rattle.ms_words.specs.declared.names.Takes.TheVariants.{Number, Hex};

use crate::commands::WordsError;
use crate::names::Takes;
use ms_bits::NoMemory;
use std::alloc::Global;

/// Whether the word has decimal digits alone.
fn are_digits(word: &[u8]) -> bool
    ensures { result ≡ list_all is_ascii_digit word.now }
{
    word.iter().all(|b| b.is_ascii_digit())
}

/// Whether the word has hexadecimal digits alone.
fn are_hex_digits(word: &[u8]) -> bool
    ensures { result ≡ list_all is_ascii_hexdigit word.now }
{
    word.iter().all(|b| b.is_ascii_hexdigit())
}

/// Whether the word has decimal digits alone, and no zero before another digit.
fn is_number(word: &[u8]) -> bool
    ensures { result ≡ is_number_of word.now }
{
    !word.is_empty() && are_digits(word) && (word.len() == 1 || word[0] != b'0')
}

/// Whether the word has hexadecimal digits alone, two for each byte, and at least one byte.
fn is_hex(word: &[u8]) -> bool
    ensures { result ≡ is_hex_of word.now }
{
    !word.is_empty() && word.len() % 2 == 0 && are_hex_digits(word)
}

/// The number that a word of digits spells, where 64 bits have it.
pub fn number(word: &str) -> Option<u64>
    requires { is_number_of word.now ≡ true }
    ensures { MatchOption result (2 ^ 64 ≤ number_of word.now) (λ n. n ≡ number_of word.now) }
{
    match word.parse::<u64>() {
        Ok(n) => Some(n),
        Err(_) => None,
    }
}

/// The value of a hexadecimal digit.
fn digit(b: u8) -> u8
    requires { IsTrue (is_ascii_hexdigit b) }
    ensures value { result ≡ digit_value b }
    ensures small { result < 16 }
{
    if b < b'A' {
        b - b'0'
    } else if b < b'a' {
        b - (b'A' - 10)
    } else {
        b - (b'a' - 10)
    }
}

/// The bytes that hexadecimal digits spell, two for each.
pub fn hex_bytes(alloc: Global, word: &[u8]) -> Result<Vec<u8>, NoMemory>
    requires { list_all is_ascii_hexdigit word.now ≡ true }
    ensures { IfOk result (λ bytes. bytes.items ≡ hex_bytes_of word.now) }
{
    let mut bytes = Vec::new(alloc);
    let mut rest = word;
    while let [high, low, tail @ ..] = rest {
        bytes.push(digit(*high) * 16 + digit(*low))?;
        rest = tail;
    }
    Ok(bytes)
}

/// What is wrong with a number that is to be from `least` to `most`.
fn number_fault(least: u64, most: u64, place: u32, value: &str) -> Option<WordsError>
    ensures { result ≡ value_fault_of (Number least most) place value.now }
{
    if !is_number(value.as_bytes()) {
        return Some(WordsError::BadNumber { place });
    }
    match number(value) {
        Some(n) => {
            if least <= n && n <= most {
                None
            } else {
                Some(WordsError::OutOfRange { place })
            }
        }
        None => Some(WordsError::OutOfRange { place }),
    }
}

/// What is wrong with hexadecimal digits that are to be at most `most` bytes.
fn hex_fault(most: usize, place: u32, value: &str) -> Option<WordsError>
    ensures { result ≡ value_fault_of (Hex most) place value.now }
{
    if !is_hex(value.as_bytes()) {
        return Some(WordsError::BadHex { place });
    }
    if value.len() / 2 > most {
        return Some(WordsError::OutOfRange { place });
    }
    None
}

/// What is wrong with the value of an option, by what the option takes; the word at `place` has it.
pub fn value_fault(takes: Takes, place: u32, value: &str) -> Option<WordsError>
    ensures { result ≡ value_fault_of takes place value.now }
{
    match takes {
        Takes::Nothing => None,
        Takes::Anything => None,
        Takes::Hex { most } => hex_fault(most, place, value),
        Takes::Number { least, most } => number_fault(least, most, place, value),
    }
}
