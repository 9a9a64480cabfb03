//! Texts of many like pieces, at a limit and past it, worked out by hand.

use crate::cases::Want::{Kept, Limited, Read, Syntax, TooManyTokens};
use crate::cases::{Want, differs, fails, is_error, rewritten};
use ms_bits::NoMemory;
use ms_ir::Form;
use ms_ir::Form::Plain;
use ms_text_grammar::Limit;
use std::alloc::Global;
use std::test::Fail;

/// A form, a text in front, a piece and how often it stands, a text after, a piece that stands there as often, a text at
/// the end, and what is wanted.
struct Long(
    Form,
    &'static str,
    &'static str,
    u32,
    &'static str,
    &'static str,
    &'static str,
    Want,
);

/// Limits are kept.
/// At the limit and one past it.
static LIMITS: [Long; 26] = [
    Long(Plain, "@", "a", 1024, " = global i8 0\n", "", "", Kept),
    Long(
        Plain,
        "@",
        "a",
        1025,
        " = global i8 0\n",
        "",
        "",
        Limited(Limit::Name, 0, 0),
    ),
    Long(
        Plain,
        "define void @f(i8 %",
        "a",
        1025,
        ")",
        "",
        "",
        Limited(Limit::Name, 5, 18),
    ),
    Long(
        Plain,
        "define void @f(i8 %\"\\61",
        "a",
        1023,
        "\") {\n  ret void\n}\n",
        "",
        "",
        Read,
    ),
    Long(
        Plain,
        "declare void @f() w(%",
        "a",
        1025,
        ")",
        "",
        "",
        Limited(Limit::Name, 7, 20),
    ),
    Long(
        Plain,
        "@g = global ",
        "[1 x ",
        32,
        "i8",
        "]",
        " zeroinitializer",
        Read,
    ),
    Long(
        Plain,
        "@g = global ",
        "[1 x ",
        33,
        "i8",
        "]",
        " zeroinitializer",
        Limited(Limit::Types, 99, 172),
    ),
    Long(Plain, "%t = type ", "{ ", 32, "i8", " }", "\n", Kept),
    Long(
        Plain,
        "%t = type ",
        "{ ",
        33,
        "i8",
        " }",
        "\n",
        Limited(Limit::Types, 35, 74),
    ),
    Long(
        Plain,
        r#"define void @f() {
  %1 = getelementptr i8, ptr %p"#,
        ", i64 0",
        64,
        "\n  ret void\n}\n",
        "",
        "",
        Kept,
    ),
    Long(
        Plain,
        r#"define void @f() {
  %1 = getelementptr i8, ptr %p"#,
        ", i64 0",
        65,
        "\n  ret void\n}\n",
        "",
        "",
        Limited(Limit::Indices, 206, 500),
    ),
    Long(
        Plain,
        "@g = global ptr getelementptr (i8, ptr @h",
        ", i64 0",
        64,
        ")\n",
        "",
        "",
        Kept,
    ),
    Long(
        Plain,
        "@g = global ptr getelementptr (i8, ptr @h",
        ", i64 0",
        65,
        ")\n",
        "",
        "",
        Limited(Limit::Indices, 203, 491),
    ),
    Long(
        Plain,
        "@g = global ptr ",
        "getelementptr (i8, ptr ",
        64,
        "@h",
        ")",
        "\n",
        Kept,
    ),
    Long(
        Plain,
        "@g = global ptr ",
        "getelementptr (i8, ptr ",
        65,
        "@h",
        ")",
        "\n",
        Limited(Limit::Indices, 324, 1488),
    ),
    Long(Plain, "declare void @f(i8", ", i8", 99, ")\n", "", "", Kept),
    Long(
        Plain,
        "declare void @f(i8",
        ", i8",
        100,
        ")\n",
        "",
        "",
        Limited(Limit::Parameters, 204, 416),
    ),
    Long(
        Plain,
        "define void @f(i8",
        ", i8",
        99,
        ") {\n  ret void\n}\n",
        "",
        "",
        Read,
    ),
    Long(
        Plain,
        "define void @f(i8",
        ", i8",
        100,
        ") {\n  ret void\n}\n",
        "",
        "",
        Limited(Limit::Parameters, 204, 415),
    ),
    Long(
        Plain,
        r#"declare i32 @printf(ptr, ...)
define void @f() {
  %1 = call i32 (ptr, ...) @printf(ptr @s"#,
        ", i8 0",
        99,
        ")\n  ret void\n}\n",
        "",
        "",
        Kept,
    ),
    Long(
        Plain,
        r#"declare i32 @printf(ptr, ...)
define void @f() {
  %1 = call i32 (ptr, ...) @printf(ptr @s"#,
        ", i8 0",
        100,
        ")\n  ret void\n}\n",
        "",
        "",
        Limited(Limit::Parameters, 325, 686),
    ),
    Long(
        Plain,
        "",
        r#"@g = global i8 0
"#,
        16384,
        "",
        "",
        "",
        Kept,
    ),
    Long(
        Plain,
        "",
        r#"@g = global i8 0
"#,
        16385,
        "",
        "",
        "",
        Limited(Limit::Globals, 81920, 278528),
    ),
    Long(
        Plain,
        "",
        r#"declare void @f()
"#,
        16384,
        "",
        "",
        "",
        Kept,
    ),
    Long(
        Plain,
        "",
        r#"declare void @f()
"#,
        16385,
        "",
        "",
        "",
        Limited(Limit::Functions, 81920, 294912),
    ),
    Long(
        Plain,
        "",
        r#"declare void @f()
"#,
        16384,
        "define void @f() { ret void }",
        "",
        "",
        Limited(Limit::Functions, 81920, 294912),
    ),
];

/// Brackets nest without limit.
/// Each bracket is open in the one before.
static BRACKETS: [Long; 2] = [
    Long(
        Plain,
        "attributes #0 = { ",
        "(",
        100000,
        "x",
        ")",
        " }",
        Read,
    ),
    Long(
        Plain,
        "attributes #0 = { ",
        "(",
        100000,
        "x",
        ")",
        " ) }",
        Syntax(200005, 200020),
    ),
];

/// Tokens are counted.
/// As many tokens as a text of the plain form may have, and one more.
static TOKENS: [Long; 2] = [
    Long(Plain, "", "((((((((", 131072, "", "", "", Syntax(0, 0)),
    Long(Plain, "", "((((((((", 131072, "(", "", "", TooManyTokens),
];

/// So many times this piece.
fn push_all(text: &mut Vec<u8>, piece: &str, count: u32) -> Result<(), NoMemory> {
    for _ in 0..count {
        text.extend_from_slice(piece.as_bytes())?;
    }
    Ok(())
}

/// The text of a row, put together.
fn text_of(alloc: Global, row: &Long) -> Result<Vec<u8>, NoMemory> {
    let mut text = row.1.as_bytes().to_vec(alloc)?;
    push_all(&mut text, row.2, row.3)?;
    text.extend_from_slice(row.4.as_bytes())?;
    push_all(&mut text, row.5, row.3)?;
    text.extend_from_slice(row.6.as_bytes())?;
    Ok(text)
}

/// Whether the text of a row is answered as is wanted.
fn is_answer<R: Eprint>(rt: &R, alloc: Global, row: &Long, text: &[u8]) -> bool {
    match rewritten(alloc, text, row.0) {
        Ok(found) => match &row.7 {
            Kept => found.as_slice() == text,
            Read => true,
            want => differs(rt, row.2, want, &"a module"),
        },
        Err(error) => { is_error(&error, (0, 0), &row.7) || differs(rt, row.2, &row.7, &error) }
    }
}

/// Whether the text of a row, put together, is answered as is wanted.
fn agrees<R: Eprint>(rt: &R, alloc: Global, row: &Long) -> bool {
    match text_of(alloc, row) {
        Ok(text) => is_answer(rt, alloc, row, &text),
        Err(_) => false,
    }
}

fn all_agree<R: Eprint>(rt: &R, alloc: Global, rows: &[Long]) -> bool {
    for (number, row) in rows.iter().enumerate() {
        if !agrees(rt, alloc, row) {
            return fails(rt, "row", number);
        }
    }
    true
}

#[test]
fn limits_are_kept(rt: HostRuntime) -> Result<(), Fail> {
    assert!(rt;
        all_agree(&rt, rt.alloc(), &LIMITS)
            && all_agree(&rt, rt.alloc(), &BRACKETS)
            && all_agree(&rt, rt.alloc(), &TOKENS)
    );
    Ok(())
}
