//! Parts of texts that are read by calls of their own, worked out by hand.

ghost use Rattle.std.specs.Prelude.{◌≤◌, ◌^◌, length, IfOk};
ghost use Rattle.ms_read_body.specs.Calls.{AreTokens};

use crate::cases::Want::{LeftOut, Limited, Numbering, Reserved, Syntax};
use crate::cases::{Want, differs, fails, is_error};
use ms_ir::Form::{Instrumented, Plain};
use ms_ir::{Form, Ty};
use ms_lex::{LexError, Token, tokens};
use ms_read_body::{ReadError, read_body, read_type, read_value, skip_attributes};
use ms_text_grammar::{Limit, Outside};
use std::alloc::Global;
use std::test::Fail;

/// What is read.
#[derive(Clone, Copy)]
enum Piece {
    Type,
    /// A value after `i1`.
    Bit,
    /// A value after `i8`.
    Byte,
    /// A value after `i64`.
    Word,
    /// A value after `ptr`.
    Pointer,
    Attributes,
    /// A function.
    Function,
    /// A function after so many instructions.
    After(u32),
}

use Piece::{After, Attributes, Bit, Byte, Function, Pointer, Type, Word};

/// The number of the token after the piece, or why it isn't read.
#[derive(Debug)]
enum Answer {
    Next(u32),
    Not(Want),
}

use Answer::{Next, Not};

/// A piece in a form, a text, the token from which it is read, and the answer.
struct Part(Piece, Form, &'static str, u32, Answer);

/// A function of two instructions, at the limit on them and past it.
const MAIN: &str = r#"define i32 @main() {
  %1 = add i32 1, 2
  ret i32 0
}
"#;

/// Types are read.
static TYPES: [Part; 19] = [
    Part(Type, Plain, "[ 2 x { i8, ptr } ] x", 0, Next(9)),
    Part(Type, Plain, "<{ i064 }>", 0, Next(5)),
    Part(Type, Plain, "{ } {", 0, Next(2)),
    Part(Type, Plain, "%7", 0, Next(1)),
    Part(Type, Plain, "[2 x i8] 255 nounwind align 4 {", 0, Next(5)),
    Part(
        Type,
        Plain,
        "i65",
        0,
        Not(LeftOut(Outside::WideInteger, 0, 0)),
    ),
    Part(
        Type,
        Plain,
        "[ 1 x half ]",
        0,
        Not(LeftOut(Outside::FloatingPoint, 3, 6)),
    ),
    Part(
        Type,
        Plain,
        "<4 x i8>",
        0,
        Not(LeftOut(Outside::Vector, 1, 1)),
    ),
    Part(Type, Plain, "i0", 0, Not(Syntax(0, 0))),
    Part(Type, Plain, "[ -1 x i8 ]", 0, Not(Syntax(1, 2))),
    Part(Type, Plain, "{ i8 i8 }", 0, Not(Syntax(2, 5))),
    Part(Type, Plain, "%4294967296", 0, Not(Numbering(0, 0))),
    Part(Type, Plain, "%__msan.1", 0, Not(Reserved(0, 0))),
    Part(Type, Instrumented, "%__msan.x", 0, Not(Reserved(0, 0))),
    Part(Type, Instrumented, "%__msan.1", 0, Next(1)),
    Part(Type, Plain, "void", 0, Not(Syntax(0, 0))),
    Part(Type, Plain, "", 0, Not(Syntax(0, 0))),
    Part(Type, Plain, "i8 ", 1, Not(Syntax(1, 3))),
    Part(
        Type,
        Plain,
        "[1 x [1 x [1 x [1 x [1 x [1 x [1 x [1 x [1 x [1 x [1 x [1 x [1 x [1 x [1 x [1 x [1 x [1 x [1 x [1 x [1 x [1 x [1 x [1 x [1 x [1 x [1 x [1 x [1 x [1 x [1 x [1 x [1 x i8",
        0,
        Not(Limited(Limit::Types, 96, 160)),
    ),
];

/// Values are read.
/// Values after their types.
static VALUES: [Part; 25] = [
    Part(Byte, Plain, "-128", 0, Next(1)),
    Part(Byte, Plain, "255", 0, Next(1)),
    Part(Byte, Plain, "256", 0, Not(Syntax(0, 0))),
    Part(Byte, Plain, "-129", 0, Not(Syntax(0, 0))),
    Part(Byte, Plain, "true", 0, Not(Syntax(0, 0))),
    Part(Byte, Plain, "null", 0, Not(Syntax(0, 0))),
    Part(Byte, Plain, "undef", 0, Next(1)),
    Part(Byte, Plain, "%5", 0, Next(1)),
    Part(
        Byte,
        Plain,
        "add",
        0,
        Not(LeftOut(Outside::ConstantExpression, 0, 0)),
    ),
    Part(Byte, Plain, "[2 x i8] 255 nounwind", 5, Next(6)),
    Part(Word, Plain, "18446744073709551615", 0, Next(1)),
    Part(
        Word,
        Plain,
        "18446744073709551616",
        0,
        Not(LeftOut(Outside::WideInteger, 0, 0)),
    ),
    Part(Bit, Plain, "true", 0, Next(1)),
    Part(Bit, Plain, "-1", 0, Next(1)),
    Part(Bit, Plain, "2", 0, Not(Syntax(0, 0))),
    Part(Pointer, Plain, "null", 0, Next(1)),
    Part(Pointer, Plain, "poison", 0, Next(1)),
    Part(Pointer, Plain, "@f", 0, Next(1)),
    Part(Pointer, Plain, "1", 0, Not(Syntax(0, 0))),
    Part(Pointer, Plain, "%4294967296", 0, Not(Numbering(0, 0))),
    Part(Pointer, Plain, "@__msan_check", 0, Not(Reserved(0, 0))),
    Part(Pointer, Instrumented, "@__msan_check", 0, Next(1)),
    Part(
        Pointer,
        Plain,
        "getelementptr inbounds (i8, ptr @g, i64 1) x",
        0,
        Next(11),
    ),
    Part(
        Pointer,
        Plain,
        "getelementptr (i8, ptr %g)",
        0,
        Not(Syntax(5, 23)),
    ),
    Part(
        Pointer,
        Plain,
        "getelementptr (i8, ptr getelementptr (i8, ptr @g), i64 1) x",
        0,
        Next(16),
    ),
];

/// Attributes are read over.
/// Attributes, as many as come.
static ATTRIBUTES: [Part; 10] = [
    Part(
        Attributes,
        Plain,
        "nounwind range(i8 0, 5) align 4 \"a\"=\"b\" \"c\" #0 #dbg %x",
        0,
        Next(16),
    ),
    Part(Attributes, Plain, "exact section slt byval(i8)", 0, Next(3)),
    Part(Attributes, Plain, "{", 0, Next(0)),
    Part(Attributes, Plain, "", 0, Next(0)),
    Part(
        Attributes,
        Plain,
        "[2 x i8] 255 nounwind align 4 {",
        6,
        Next(9),
    ),
    Part(Attributes, Plain, "align", 0, Not(Syntax(1, 5))),
    Part(
        Attributes,
        Plain,
        "\"a\"=volatile",
        0,
        Not(LeftOut(Outside::Volatile, 2, 4)),
    ),
    Part(
        Attributes,
        Plain,
        "dereferenceable(8",
        0,
        Not(Syntax(3, 17)),
    ),
    Part(Attributes, Plain, "w(%__msan.1)", 0, Not(Reserved(2, 2))),
    Part(Attributes, Instrumented, "w(%__msan.1) )", 0, Next(4)),
];

/// Functions are read.
/// Functions, also after others and up to the limit of instructions.
static FUNCTIONS: [Part; 10] = [
    Part(Function, Plain, MAIN, 0, Next(17)),
    Part(Function, Plain, "declare i32 @main()", 0, Not(Syntax(0, 0))),
    Part(
        Function,
        Plain,
        r#"declare void @f() define i32 @main() {
  %1 = add i32 1, 2
  ret i32 0
}
"#,
        5,
        Next(22),
    ),
    Part(
        Function,
        Plain,
        "define i32 @main() {",
        0,
        Not(Syntax(6, 20)),
    ),
    Part(After(131070), Plain, MAIN, 0, Next(17)),
    Part(
        After(131071),
        Plain,
        MAIN,
        0,
        Not(Limited(Limit::Instructions, 13, 43)),
    ),
    Part(
        After(131072),
        Plain,
        MAIN,
        0,
        Not(Limited(Limit::Instructions, 6, 23)),
    ),
    Part(After(4194302), Instrumented, MAIN, 0, Next(17)),
    Part(
        After(4194303),
        Instrumented,
        MAIN,
        0,
        Not(Limited(Limit::Instructions, 13, 43)),
    ),
    Part(
        After(4294967295),
        Instrumented,
        MAIN,
        0,
        Not(Limited(Limit::Instructions, 6, 23)),
    ),
];

/// The tokens of a text.
fn all_tokens(alloc: Global, text: &[u8]) -> Result<Vec<Token>, LexError>
    requires { length text.now ≤ 2 ^ 27 }
    ensures { IfOk result (λ found. AreTokens text.now found.items) }
{
    tokens(alloc, text, 1000)
}

/// The token after what was read.
fn next_of<A: Drop>(read: Result<(A, u32), ReadError>) -> Result<u32, ReadError> {
    match read {
        Ok((_, next)) => Ok(next),
        Err(error) => Err(error),
    }
}

/// Reads a value after the type that the piece stands for, and gives the number of the token after it.
fn value_after(
    alloc: Global,
    text: &[u8],
    found: &[Token],
    at: u32,
    piece: Piece,
    form: Form,
) -> Result<u32, ReadError>
    requires whole { AreTokens text.now found.now }
    requires inside { at ≤ length found.now }
{
    match piece {
        Bit => next_of(read_value(alloc, text, found, at, &Ty::Int(1), form)),
        Byte => next_of(read_value(alloc, text, found, at, &Ty::Int(8), form)),
        Word => next_of(read_value(alloc, text, found, at, &Ty::Int(64), form)),
        _ => next_of(read_value(alloc, text, found, at, &Ty::Ptr, form)),
    }
}

/// Reads a piece from token `at`, and gives the number of the token after it.
fn read(
    alloc: Global,
    text: &[u8],
    found: &[Token],
    at: u32,
    piece: Piece,
    form: Form,
) -> Result<u32, ReadError>
    requires whole { AreTokens text.now found.now }
    requires inside { at ≤ length found.now }
{
    match piece {
        Type => next_of(read_type(alloc, text, found, at, form)),
        Attributes => skip_attributes(alloc, text, found, at, form),
        Function => next_of(read_body(alloc, text, found, at, 0, form)),
        After(before) => next_of(read_body(alloc, text, found, at, before, form)),
        _ => value_after(alloc, text, found, at, piece, form),
    }
}

/// Whether a piece was read as is wanted.
fn is_answer(found: &Result<u32, ReadError>, want: &Answer) -> bool {
    match (found, want) {
        (Ok(next), Next(wanted)) => *next == *wanted,
        (Err(error), Not(why)) => is_error(error, (0, 0), why),
        _ => false,
    }
}

/// Whether a row has its answer.
fn agrees<R: Eprint>(rt: &R, alloc: Global, part: &Part) -> bool {
    let text = part.2.as_bytes();
    if text.len() > 1 << 27 {
        return false;
    }
    match all_tokens(alloc, text) {
        Ok(found) if part.3 as usize <= found.len() => {
            let got = read(alloc, text, &found, part.3, part.0, part.1);
            is_answer(&got, &part.4) || differs(rt, part.2, &part.4, &got)
        }
        _ => false,
    }
}

fn all_agree<R: Eprint>(rt: &R, alloc: Global, parts: &[Part]) -> bool {
    for (number, part) in parts.iter().enumerate() {
        if !agrees(rt, alloc, part) {
            return fails(rt, "row", number);
        }
    }
    true
}

#[test]
fn parts_are_read(rt: HostRuntime) -> Result<(), Fail> {
    assert!(rt;
        all_agree(&rt, rt.alloc(), &TYPES)
            && all_agree(&rt, rt.alloc(), &VALUES)
            && all_agree(&rt, rt.alloc(), &ATTRIBUTES)
            && all_agree(&rt, rt.alloc(), &FUNCTIONS)
    );
    Ok(())
}
