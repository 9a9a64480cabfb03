//! The token at the front of a text. Parts of it are told by how many bytes they have; none where the text doesn't begin with
//! such a part.

ghost use Rattle.std.specs.Prelude.{◌≡◌, ◌≢◌, ◌<◌, ◌≤◌, ◌+◌, ◌^◌, ◌∷◌, codes, if◌then◌else◌, drop, length, slice_index, IfSome, true, false};
ghost use Rattle.std.specs.{Char.{is_ascii_digit}, List.{list_all, position_or_len, prefix_len}, Option.{option_map}};
ghost use Rattle.ms_lex.specs.Tokens as spec;

use crate::kinds::Kind;
use crate::spellings::bytes_after;

/// Whether a byte stands between tokens: a space, a tab, a carriage return or a newline.
pub fn is_blank(b: u8) -> bool
    ensures { result ≡ spec.is_blank b }
{
    b == b' ' || b == b'\t' || b == b'\r' || b == b'\n'
}

/// For each byte whether it may stand in a name without quotes: a letter, a digit or one of `-$._`. A table, since
/// cutting a text into tokens spends most of its time on this test.
static NAME_BYTES: [bool; 256] = [
    false, false, false, false, false, false, false, false, false, false, false, false, false,
    false, false, false, false, false, false, false, false, false, false, false, false, false,
    false, false, false, false, false, false, false, false, false, false, true, false, false,
    false, false, false, false, false, false, true, true, false, true, true, true, true, true,
    true, true, true, true, true, false, false, false, false, false, false, false, true, true,
    true, true, true, true, true, true, true, true, true, true, true, true, true, true, true, true,
    true, true, true, true, true, true, true, true, false, false, false, false, true, false, true,
    true, true, true, true, true, true, true, true, true, true, true, true, true, true, true, true,
    true, true, true, true, true, true, true, true, true, false, false, false, false, false, false,
    false, false, false, false, false, false, false, false, false, false, false, false, false,
    false, false, false, false, false, false, false, false, false, false, false, false, false,
    false, false, false, false, false, false, false, false, false, false, false, false, false,
    false, false, false, false, false, false, false, false, false, false, false, false, false,
    false, false, false, false, false, false, false, false, false, false, false, false, false,
    false, false, false, false, false, false, false, false, false, false, false, false, false,
    false, false, false, false, false, false, false, false, false, false, false, false, false,
    false, false, false, false, false, false, false, false, false, false, false, false, false,
    false, false, false, false, false, false, false, false, false, false, false, false, false,
    false, false, false, false, false, false, false, false, false, false,
];

/// Whether a byte may stand in a name without quotes (LLVM Language Reference, "Identifiers").
pub fn is_name_byte(b: u8) -> bool
    ensures { result ≡ spec.is_name_byte b }
{
    NAME_BYTES[b as usize]
}

/// Whether a byte is a token by itself.
fn is_punctuation(b: u8) -> bool
    ensures { result ≡ spec.is_one_of spec.punctuation b }
{
    matches!(
        b,
        b'(' | b')' | b'[' | b']' | b'{' | b'}' | b'<' | b'>' | b',' | b'=' | b'*' | b'!' | b'|'
    )
}

/// How many bytes stand before the end of the line.
pub fn line_length(text: &[u8]) -> usize
    ensures value { result ≡ position_or_len spec.is_newline text.now }
    ensures within { result ≤ length text.now }
{
    let mut n = 0;
    while n < text.len() && text[n] != b'\n' {
        n += 1;
    }
    n
}

/// How many name bytes stand at the front.
fn run_length(text: &[u8]) -> usize
    ensures value { result ≡ prefix_len spec.is_name_byte text.now }
    ensures within { result ≤ length text.now }
{
    let mut n = 0;
    while n < text.len() && is_name_byte(text[n]) {
        n += 1;
    }
    n
}

/// How many bytes stand before the first quote.
pub fn quote_place(text: &[u8]) -> usize
    ensures value { result ≡ position_or_len spec.is_quote text.now }
    ensures within { result ≤ length text.now }
{
    let mut n = 0;
    while n < text.len() && text[n] != b'"' {
        n += 1;
    }
    n
}

/// The byte at this place, and 0 after the end.
fn byte_at(text: &[u8], place: usize) -> u8
    ensures value { result ≡ slice_index text.now place }
    ensures within { result ≢ 0 → place < length text.now }
{
    if place < text.len() { text[place] } else { 0 }
}

/// The name bytes at the front, at least one.
#[tactic(auto, unfolding(crate::specs::Tokens::run))]
fn run(text: &[u8]) -> Option<usize>
    ensures value { result ≡ spec.run text.now }
    ensures within { IfSome result (λ n. (0 < n) × (n ≤ length text.now)) }
{
    let n = run_length(text);
    if n == 0 { None } else { Some(n) }
}

/// The bytes up to the first quote, with that quote.
#[tactic(auto, unfolding(crate::specs::Tokens::up_to_quote))]
fn up_to_quote(text: &[u8]) -> Option<usize>
    ensures value { result ≡ spec.up_to_quote text.now }
    ensures within { IfSome result (λ n. (0 < n) × (n ≤ length text.now)) }
{
    let n = quote_place(text);
    if n < text.len() { Some(n + 1) } else { None }
}

/// The string at the front, with both quotes.
#[tactic(auto, unfolding(crate::specs::Tokens::string, crate::specs::Tokens::followed_by, crate::specs::Tokens::one_of))]
fn string(text: &[u8]) -> Option<usize>
    ensures value { result ≡ spec.string text.now }
    ensures within { IfSome result (λ n. (0 < n) × (n ≤ length text.now)) }
{
    match text {
        [] => None,
        [first, rest @ ..] => {
            if *first != b'"' {
                return None;
            }
            match up_to_quote(rest) {
                Some(n) => Some(1 + n),
                None => None,
            }
        }
    }
}

/// What a name is written as: a run of name bytes or a string.
#[tactic(auto, unfolding(crate::specs::Tokens::name, crate::specs::Tokens::or_else))]
fn name(text: &[u8]) -> Option<usize>
    ensures value { result ≡ spec.name text.now }
    ensures within { IfSome result (λ n. (0 < n) × (n ≤ length text.now)) }
{
    match run(text) {
        Some(n) => Some(n),
        None => string(text),
    }
}

/// Whether a run is `c` alone, which begins the bytes of an array.
fn is_c(run: &[u8]) -> bool
    ensures { result ≡ spec.is_c run.now }
{
    match run {
        [b] => *b == b'c',
        _ => false,
    }
}

/// Whether each byte of a run is a decimal digit.
fn all_digits(run: &[u8]) -> bool
    ensures { result ≡ list_all is_ascii_digit run.now }
{
    run.iter().all(|b| b.is_ascii_digit())
}

/// Whether a run is one decimal digit or more.
fn is_digits(run: &[u8]) -> bool
    ensures { result ≡ spec.is_digits run.now }
{
    match run {
        [] => false,
        [_, ..] => all_digits(run),
    }
}

/// Whether a run is a decimal number, with or without a minus sign.
fn is_number(run: &[u8]) -> bool
    ensures { result ≡ spec.is_number run.now }
{
    match run {
        [] => false,
        [b, rest @ ..] => {
            if *b == b'-' {
                is_digits(rest)
            } else {
                is_digits(run)
            }
        }
    }
}

/// Whether a run begins as a word does.
fn begins_word(run: &[u8]) -> bool
    ensures { result ≡ spec.begins_word run.now }
{
    match run {
        [] => false,
        [b, ..] => b.is_ascii_alphabetic() || *b == b'_',
    }
}

/// What a run is that is no part of a label or of a text after `c`.
fn run_kind(run: &[u8]) -> Kind
    ensures { result ≡ (if spec.is_number run.now then Kind.Number
        else if spec.begins_word run.now then Kind.Word else Kind.Other) }
{
    if is_number(run) {
        Kind::Number
    } else if begins_word(run) {
        Kind::Word
    } else {
        Kind::Other
    }
}

/// The `c` and the string directly after it, where the run at the front is `c` alone.
#[tactic(auto, using(crate::proofs::Forms::no_c, crate::proofs::Forms::c_with_string, crate::proofs::Forms::c_with_none))]
fn c_text(text: &[u8], run: usize) -> Option<usize>
    requires whole { run ≡ prefix_len spec.is_name_byte text.now }
    requires some { 0 < run }
    requires inside { run ≤ length text.now }
    ensures value { result ≡ spec.c_text text.now }
    ensures within { IfSome result (λ n. (0 < n) × (n ≤ length text.now)) }
{
    if !is_c(&text[..run]) {
        return None;
    }
    match string(bytes_after(text, run)) {
        Some(n) => Some(run + n),
        None => None,
    }
}

/// The token at the front of a text that begins with a name byte.
#[tactic(auto, using(crate::proofs::Forms::fits_label, crate::proofs::Forms::fits_c_text, crate::proofs::Forms::fits_run))]
fn run_token(text: &[u8]) -> (Kind, usize)
    requires { 0 < prefix_len spec.is_name_byte text.now }
    ensures value { spec.token_at text.now ≡ Some result }
    ensures within { (0 < result.1) × (result.1 ≤ length text.now) }
{
    let run = run_length(text);
    if byte_at(text, run) == b':' {
        return (Kind::Label, run + 1);
    }
    match c_text(text, run) {
        Some(n) => (Kind::CText, n),
        None => (run_kind(&text[..run]), run),
    }
}

/// The token at the front of a text that begins with a quote.
#[tactic(auto, using(crate::proofs::Forms::no_string_fits, crate::proofs::Forms::fits_string_label, crate::proofs::Forms::fits_string))]
fn string_token(text: &[u8], rest: &[u8]) -> Option<(Kind, usize)>
    requires { text.now ≡ 34 ∷ rest.now }
    ensures value { result ≡ spec.token_at text.now }
    ensures within { IfSome result (λ t. (0 < t.1) × (t.1 ≤ length text.now)) }
{
    match up_to_quote(rest) {
        None => None,
        Some(n) => {
            if byte_at(text, 1 + n) == b':' {
                Some((Kind::Label, 1 + n + 1))
            } else {
                Some((Kind::Str, 1 + n))
            }
        }
    }
}

/// A token of this kind: one byte, as `@`, and the bytes after it that belong to it; none where nothing after it does.
fn after_byte(kind: Kind, length: Option<usize>) -> Option<(Kind, usize)>
    requires { IfSome length (λ n. n < 2 ^ 62) }
    ensures { result ≡ spec.or_next kind (option_map (λ m. 1 + m) length) None }
{
    match length {
        Some(n) => Some((kind, 1 + n)),
        None => None,
    }
}

/// The token at the front of a text that begins with `!`.
#[tactic(auto, using(crate::proofs::Forms::fits_meta, crate::proofs::Forms::fits_bang))]
fn bang_token(rest: &[u8]) -> (Kind, usize)
    requires { length rest.now < 2 ^ 62 }
    ensures value { spec.token_at (33 ∷ rest.now) ≡ Some result }
    ensures within { (0 < result.1) × (result.1 ≤ 1 + length rest.now) }
{
    match run(rest) {
        Some(n) => (Kind::Meta, 1 + n),
        None => (Kind::Punct, 1),
    }
}

/// The token at the front of a text that begins with neither a blank nor a comment.
#[tactic(auto, using(crate::proofs::Forms::named, crate::proofs::Forms::fits_global, crate::proofs::Forms::fits_local, crate::proofs::Forms::fits_group, crate::proofs::Forms::fits_punctuation, crate::proofs::Forms::fits_none))]
pub fn token_at(text: &[u8], first: u8, rest: &[u8]) -> Option<(Kind, usize)>
    requires parts { text.now ≡ first ∷ rest.now }
    requires short { length text.now < 2 ^ 62 }
    ensures value { result ≡ spec.token_at text.now }
    ensures within { IfSome result (λ t. (0 < t.1) × (t.1 ≤ length text.now)) }
{
    if is_name_byte(first) {
        return Some(run_token(text));
    }
    match first {
        b'"' => string_token(text, rest),
        b'@' => after_byte(Kind::Global, name(rest)),
        b'%' => after_byte(Kind::Local, name(rest)),
        b'#' => after_byte(Kind::Group, run(rest)),
        b'!' => Some(bang_token(rest)),
        _ => {
            if is_punctuation(first) {
                Some((Kind::Punct, 1))
            } else {
                None
            }
        }
    }
}
