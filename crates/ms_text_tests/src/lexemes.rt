//! Texts with their tokens, names and numbers, worked out by hand.

ghost use Rattle.std.specs.Prelude.{◌≤◌, ◌^◌, length};

use crate::cases::{differs, fails};
use ms_lex::{Kind, LexError, Token, name_of, number_of, tokens};
use std::alloc::Global;
use std::test::Fail;

/// A kind, and where its token begins and ends.
#[derive(Debug)]
struct Span(Kind, u32, u32);

/// A text, and its tokens.
#[derive(Debug)]
struct Cut(&'static str, &'static [Span]);

/// A text, the limit of its tokens, and why it has none.
#[derive(Debug)]
struct Refused(&'static str, u32, LexError);

/// A text of one token, and its name.
#[derive(Debug)]
struct Named(&'static str, &'static [u8]);

/// A text of one token, and its number, where it is in range.
#[derive(Debug)]
struct Numbered(&'static str, Option<i128>);

/// An error, and what is shown of it.
#[derive(Debug)]
struct Shown(LexError, &'static str);

/// Texts have these tokens.
static CUTS: [Cut; 22] = [
    Cut("", &[]),
    Cut(" \t\r\n; no token ? \"", &[]),
    Cut("c\"x\"", &[Span(Kind::CText, 0, 4)]),
    Cut("cc\"x\"", &[Span(Kind::Word, 0, 2), Span(Kind::Str, 2, 5)]),
    Cut("c \"x\"", &[Span(Kind::Word, 0, 1), Span(Kind::Str, 2, 5)]),
    Cut("!0", &[Span(Kind::Meta, 0, 2)]),
    Cut("!\"x\"", &[Span(Kind::Punct, 0, 1), Span(Kind::Str, 1, 4)]),
    Cut(
        "!{}",
        &[
            Span(Kind::Punct, 0, 1),
            Span(Kind::Punct, 1, 2),
            Span(Kind::Punct, 2, 3),
        ],
    ),
    Cut(
        "#dbg_value(",
        &[Span(Kind::Group, 0, 10), Span(Kind::Punct, 10, 11)],
    ),
    Cut("-5", &[Span(Kind::Number, 0, 2)]),
    Cut(
        "- -x 1.5 ... $a",
        &[
            Span(Kind::Other, 0, 1),
            Span(Kind::Other, 2, 4),
            Span(Kind::Other, 5, 8),
            Span(Kind::Other, 9, 12),
            Span(Kind::Other, 13, 15),
        ],
    ),
    Cut("5x:", &[Span(Kind::Label, 0, 3)]),
    Cut("-5:x", &[Span(Kind::Label, 0, 3), Span(Kind::Word, 3, 4)]),
    Cut("\"a b\":", &[Span(Kind::Label, 0, 6)]),
    Cut("_x i32", &[Span(Kind::Word, 0, 2), Span(Kind::Word, 3, 6)]),
    Cut(
        "@a$b._c-d,%5",
        &[
            Span(Kind::Global, 0, 9),
            Span(Kind::Punct, 9, 10),
            Span(Kind::Local, 10, 12),
        ],
    ),
    Cut(
        "@\"x y\"%\"\"",
        &[Span(Kind::Global, 0, 6), Span(Kind::Local, 6, 9)],
    ),
    Cut(
        "x;y\rz\n1",
        &[Span(Kind::Word, 0, 1), Span(Kind::Number, 6, 7)],
    ),
    Cut("\"a\\\"b", &[Span(Kind::Str, 0, 4), Span(Kind::Word, 4, 5)]),
    Cut("c:", &[Span(Kind::Label, 0, 2)]),
    Cut("@5%x", &[Span(Kind::Global, 0, 2), Span(Kind::Local, 2, 4)]),
    Cut(
        "()[]{}<>,=*!|",
        &[
            Span(Kind::Punct, 0, 1),
            Span(Kind::Punct, 1, 2),
            Span(Kind::Punct, 2, 3),
            Span(Kind::Punct, 3, 4),
            Span(Kind::Punct, 4, 5),
            Span(Kind::Punct, 5, 6),
            Span(Kind::Punct, 6, 7),
            Span(Kind::Punct, 7, 8),
            Span(Kind::Punct, 8, 9),
            Span(Kind::Punct, 9, 10),
            Span(Kind::Punct, 10, 11),
            Span(Kind::Punct, 11, 12),
            Span(Kind::Punct, 12, 13),
        ],
    ),
];

/// Texts are refused there.
static REFUSED: [Refused; 15] = [
    Refused("?", 9, LexError::BadByte { place: 0 }),
    Refused("\"abc", 9, LexError::OpenString { place: 0 }),
    Refused("@\"abc", 9, LexError::BadByte { place: 0 }),
    Refused("x @", 9, LexError::BadByte { place: 2 }),
    Refused("x #", 9, LexError::BadByte { place: 2 }),
    Refused("%\"a b\":", 9, LexError::BadByte { place: 6 }),
    Refused("c\"x\":", 9, LexError::BadByte { place: 4 }),
    Refused("5 :", 9, LexError::BadByte { place: 2 }),
    Refused("c\"x", 9, LexError::OpenString { place: 1 }),
    Refused(";\"\r?\n?", 9, LexError::BadByte { place: 5 }),
    Refused("( ?", 1, LexError::BadByte { place: 2 }),
    Refused("( ?", 0, LexError::TooManyTokens),
    Refused("?", 0, LexError::BadByte { place: 0 }),
    Refused("(((", 2, LexError::TooManyTokens),
    Refused("x", 0, LexError::TooManyTokens),
];

/// Tokens have these names.
static NAMES: [Named; 14] = [
    Named("\"a\\5Cb\\22\"", b"a\\b\""),
    Named("\"\\\\41\"", b"\\41"),
    Named("\"\\\\\\41\"", b"\\A"),
    Named("\"\\4a\\fF\"", b"J\xff"),
    Named("\"\\4\"", b"\\4"),
    Named("\"\\g1\\\"", b"\\g1\\"),
    Named("c\"x\\00\"", b"x\0"),
    Named("%\"a b\"", b"a b"),
    Named("@a$b._c-d", b"a$b._c-d"),
    Named("!dbg", b"dbg"),
    Named("#0", b"0"),
    Named("\"a b\":", b"a b"),
    Named("5x:", b"5x"),
    Named("\"\"", b""),
];

/// Tokens have these numbers.
static NUMBERS: [Numbered; 9] = [
    Numbered("-5", Some(-5)),
    Numbered("-0", Some(0)),
    Numbered("007", Some(7)),
    Numbered("18446744073709551615", Some(18446744073709551615)),
    Numbered("18446744073709551616", None),
    Numbered("-9223372036854775808", Some(-9223372036854775808)),
    Numbered("-9223372036854775809", None),
    Numbered("99999999999999999999999999999999999999999999999999", None),
    Numbered(
        "00000000000000000000000000000000000000000000000001",
        Some(1),
    ),
];

/// Errors are shown.
static SHOWN: [Shown; 4] = [
    Shown(LexError::BadByte { place: 3 }, "bad byte at 3"),
    Shown(LexError::OpenString { place: 0 }, "open string at 0"),
    Shown(LexError::TooManyTokens, "too many tokens"),
    Shown(LexError::NoMemory, "out of memory"),
];

/// The tokens of a text, where it isn't too long.
fn tokens_of(alloc: Global, text: &[u8], limit: u32) -> Result<Vec<Token>, LexError> {
    if text.len() > 1 << 27 {
        return Err(LexError::NoMemory);
    }
    tokens(alloc, text, limit)
}

/// Whether a token is of this kind and stands there.
fn is_token(token: &Token, span: &Span) -> bool {
    token.kind == span.0 && token.start == span.1 && token.end == span.2
}

/// Whether tokens are of these kinds and stand there.
fn are_tokens(found: &[Token], spans: &[Span]) -> bool {
    if found.len() != spans.len() {
        return false;
    }
    for (token, span) in found.iter().zip(spans) {
        if !is_token(token, span) {
            return false;
        }
    }
    true
}

/// Whether a text has its tokens.
fn is_cut<R: Eprint>(rt: &R, alloc: Global, row: &Cut) -> bool {
    match tokens_of(alloc, row.0.as_bytes(), 100) {
        Ok(found) => are_tokens(&found, row.1) || differs(rt, row.0, row, &found),
        Err(error) => differs(rt, row.0, row, &error),
    }
}

/// Whether a text has no tokens, for its reason.
fn is_refused<R: Eprint>(rt: &R, alloc: Global, row: &Refused) -> bool {
    match tokens_of(alloc, row.0.as_bytes(), row.1) {
        Ok(found) => differs(rt, row.0, row, &found),
        Err(error) => error == row.2 || differs(rt, row.0, row, &error),
    }
}

/// Whether the name of a token is this one.
fn is_name(alloc: Global, text: &[u8], token: &Token, want: &[u8]) -> bool {
    if token.start > token.end || token.end as usize > text.len() {
        return false;
    }
    match name_of(alloc, text, token) {
        Ok(name) => name.as_slice() == want,
        Err(_) => false,
    }
}

/// Whether the token of a text has its name.
fn is_named<R: Eprint>(rt: &R, alloc: Global, row: &Named) -> bool {
    match tokens_of(alloc, row.0.as_bytes(), 1) {
        Ok(found) => {
            found.len() == 1 && is_name(alloc, row.0.as_bytes(), &found[0], row.1)
                || differs(rt, row.0, row, &found)
        }
        Err(error) => differs(rt, row.0, row, &error),
    }
}

/// Whether the number of a token is this one.
fn is_number(text: &[u8], token: &Token, want: Option<i128>) -> bool {
    token.start <= token.end && token.end as usize <= text.len() && number_of(text, token) == want
}

/// Whether the token of a text has its number.
fn is_numbered<R: Eprint>(rt: &R, alloc: Global, row: &Numbered) -> bool {
    match tokens_of(alloc, row.0.as_bytes(), 1) {
        Ok(found) => {
            found.len() == 1 && is_number(row.0.as_bytes(), &found[0], row.1)
                || differs(rt, row.0, row, &found)
        }
        Err(error) => differs(rt, row.0, row, &error),
    }
}

/// Whether an error is shown so.
fn is_shown<R: Eprint>(rt: &R, alloc: Global, row: &Shown) -> bool {
    let error = row.0;
    match format!(in alloc; "{error}") {
        Ok(shown) => shown.as_str() == row.1 || differs(rt, row.1, row, &shown.as_str()),
        Err(_) => false,
    }
}

fn all_cut<R: Eprint>(rt: &R, alloc: Global, rows: &[Cut]) -> bool {
    for (number, row) in rows.iter().enumerate() {
        if !is_cut(rt, alloc, row) {
            return fails(rt, "row", number);
        }
    }
    true
}

fn all_refused<R: Eprint>(rt: &R, alloc: Global, rows: &[Refused]) -> bool {
    for (number, row) in rows.iter().enumerate() {
        if !is_refused(rt, alloc, row) {
            return fails(rt, "row", number);
        }
    }
    true
}

fn all_named<R: Eprint>(rt: &R, alloc: Global, rows: &[Named]) -> bool {
    for (number, row) in rows.iter().enumerate() {
        if !is_named(rt, alloc, row) {
            return fails(rt, "row", number);
        }
    }
    true
}

fn all_numbered<R: Eprint>(rt: &R, alloc: Global, rows: &[Numbered]) -> bool {
    for (number, row) in rows.iter().enumerate() {
        if !is_numbered(rt, alloc, row) {
            return fails(rt, "row", number);
        }
    }
    true
}

fn all_shown<R: Eprint>(rt: &R, alloc: Global, rows: &[Shown]) -> bool {
    for (number, row) in rows.iter().enumerate() {
        if !is_shown(rt, alloc, row) {
            return fails(rt, "row", number);
        }
    }
    true
}

#[test]
fn texts_are_cut(rt: HostRuntime) -> Result<(), Fail> {
    assert!(rt;
        all_cut(&rt, rt.alloc(), &CUTS)
            && all_refused(&rt, rt.alloc(), &REFUSED)
            && all_named(&rt, rt.alloc(), &NAMES)
            && all_numbered(&rt, rt.alloc(), &NUMBERS)
            && all_shown(&rt, rt.alloc(), &SHOWN)
    );
    Ok(())
}
