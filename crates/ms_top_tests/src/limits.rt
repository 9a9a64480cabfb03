//! Limits on what a text may have, which its first token after them passes. Tokens and bytes were counted by hand.

use ms_top_rows::calls::{Call, Row, all_agree, on_text, saying};
use std::test::Fail;

/// The words, the pieces of the file, of which the second stands so many times, what is written to the standard error, and
/// the status.
struct Long(
    &'static str,
    &'static str,
    &'static str,
    u32,
    &'static str,
    &'static str,
    u8,
);

/// Names each limit.
static LIMITS: [Long; 8] = [
    Long(
        "check f",
        r#"define i32 @main() {
"#,
        "ret i32 0\n",
        131073,
        "}\n",
        "refused 6: limit instructions at token 393222, byte 1310741\n",
        5,
    ),
    Long(
        "check f",
        r#"define i32 @main() {
"#,
        "ret i32 0\n",
        131072,
        "}\n",
        "end: exit 0\nreports: 0\nblind: 0\nverdict: clean\n",
        0,
    ),
    Long(
        "check f",
        "",
        r#"declare void @f()
"#,
        16385,
        "",
        "refused 6: limit functions at token 81920, byte 294912\n",
        5,
    ),
    Long(
        "check f",
        "",
        r#"@g = global i8 0
"#,
        16385,
        "",
        "refused 6: limit globals at token 81920, byte 278528\n",
        5,
    ),
    Long(
        "check f",
        "declare void @f(",
        "i8, ",
        101,
        "i8)\n",
        "refused 6: limit parameters at token 204, byte 416\n",
        5,
    ),
    Long(
        "check f",
        "@g = global ",
        "[1 x ",
        33,
        "i8] zeroinitializer\n",
        "refused 6: limit types at token 99, byte 172\n",
        5,
    ),
    Long(
        "check f",
        r#"define i32 @main() {
  %1 = getelementptr i8, ptr null"#,
        ", i64 0",
        65,
        "\n  ret i32 0\n}\n",
        "refused 6: limit indices at token 206, byte 504\n",
        5,
    ),
    Long(
        "check f",
        "@",
        "a",
        1025,
        " = global i8 0\n",
        "refused 6: limit name at token 0, byte 0\n",
        5,
    ),
];

/// The forms have their own limits.
/// The plain form is short, and the instrumented one is long.
static FORMS: [Long; 9] = [
    Long(
        "check f",
        "",
        "(",
        1048577,
        "",
        "refused 3: too many tokens\n",
        5,
    ),
    Long(
        "run f",
        "",
        "(",
        1048577,
        "",
        "refused 4: syntax at token 0, byte 0\n",
        5,
    ),
    Long(
        "instrument f",
        "",
        "(",
        1048577,
        "",
        "refused 3: too many tokens\n",
        5,
    ),
    Long("check f", "", " ", 4194305, "", "file too long: f\n", 9),
    Long(
        "instrument f",
        "",
        " ",
        4194305,
        "",
        "file too long: f\n",
        9,
    ),
    Long("corpus f f", "", " ", 4194305, "", "file too long: f\n", 9),
    // The module is no longer than it may be, and is too long as an input.
    Long("corpus f f", "", " ", 1048577, "", "file too long: f\n", 9),
    Long("run f", "", " ", 4194305, "", "refused 13: no main\n", 5),
    Long("run f", "", " ", 134217729, "", "file too long: f\n", 9),
];

/// The stack ends.
/// 65536 words of 16 bytes fill the stack.
static STACKS: [Long; 2] = [
    Long(
        "run f",
        r#"define i32 @main() {
"#,
        "  alloca i32\n",
        65536,
        "  ret i32 0\n}\n",
        "end: exit 0\nreports: 0\nblind: 0\n",
        0,
    ),
    Long(
        "run f",
        r#"define i32 @main() {
"#,
        "  alloca i32\n",
        65537,
        "  ret i32 0\n}\n",
        "end: trap stack at site 65537 in @main\nreports: 0\nblind: 0\n",
        3,
    ),
];

impl Row for Long {
    fn call(&self) -> Call<'static> {
        Call {
            piece: self.2.as_bytes(),
            times: self.3,
            tail: self.4.as_bytes(),
            ..on_text(self.0, self.1.as_bytes(), saying(b"", self.5, self.6))
        }
    }
}

#[test]
fn limits_are_named(rt: HostRuntime) -> Result<(), Fail> {
    assert!(rt; all_agree(&rt, rt.alloc(), &[&LIMITS, &FORMS, &STACKS]));
    Ok(())
}
