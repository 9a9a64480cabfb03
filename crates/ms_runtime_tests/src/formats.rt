//! What calls of `printf` print, and the traps by which they end. Texts and numbers were worked out by hand.

use crate::format_texts::{NUMBERS, TEXTS};
use ms_top_rows::alike::{CheckedRow, all_agree_twice};
use ms_top_rows::calls::{Call, Case, Desk, Row, Wanted, all_agree, on_text, saying, says};
use ms_top_rows::told::all_told_twice;
use std::test::Fail;

/// Strings, and formats that are no constants.
static STRINGS: &[u8] = br#"# An empty string.
check f~
@f = constant [5 x i8] c"[%s]\00"
@s = constant [1 x i8] c"\00"
define i32 @main() {
  %1 = call i32 (ptr, ...) @printf(ptr @f, ptr @s)
  ret i32 %1
}
declare i32 @printf(ptr, ...)
~
[]~
end: exit 2
reports: 0
blind: 0
verdict: clean
~
0
====
# The same string twice.
check f~
@f = constant [6 x i8] c"%s-%s\00"
@s = constant [3 x i8] c"ab\00"
define i32 @main() {
  %1 = call i32 (ptr, ...) @printf(ptr @f, ptr @s, ptr @s)
  ret i32 %1
}
declare i32 @printf(ptr, ...)
~
ab-ab~
end: exit 5
reports: 0
blind: 0
verdict: clean
~
0
====
# A string is no format.
check f~
@f = constant [3 x i8] c"%s\00"
@s = constant [6 x i8] c"%d%n%\00"
define i32 @main() {
  %1 = call i32 (ptr, ...) @printf(ptr @f, ptr @s)
  ret i32 %1
}
declare i32 @printf(ptr, ...)
~
%d%n%~
end: exit 5
reports: 0
blind: 0
verdict: clean
~
0
====
# From the middle of a string, and of a format.
check f~
@f = constant [6 x i8] c"xx%s!\00"
@s = constant [5 x i8] c"abcd\00"
define i32 @main() {
  %1 = getelementptr i8, ptr @f, i64 2
  %2 = getelementptr i8, ptr @s, i64 3
  %3 = call i32 (ptr, ...) @printf(ptr %1, ptr %2)
  ret i32 %3
}
declare i32 @printf(ptr, ...)
~
d!~
end: exit 2
reports: 0
blind: 0
verdict: clean
~
0
====
# The bytes of the format are %, d, ! and 0.
check f~
define i32 @main() {
  %1 = alloca i32
  store i32 2188325, ptr %1
  %2 = call i32 (ptr, ...) @printf(ptr %1, i32 -7)
  ret i32 %2
}
declare i32 @printf(ptr, ...)
~
-7!~
end: exit 3
reports: 0
blind: 0
verdict: clean
~
0
====
# What stands after the zero byte of a string isn't looked at.
check f~
@f = constant [3 x i8] c"%s\00"
define i32 @main() {
  %1 = alloca [3 x i8]
  store i16 120, ptr %1
  %2 = call i32 (ptr, ...) @printf(ptr @f, ptr %1)
  ret i32 %2
}
declare i32 @printf(ptr, ...)
~
x~
end: exit 1
reports: 0
blind: 0
verdict: clean
~
0
====
# Each argument has its place.
check f~
@f = constant [53 x i8] c"%c%c%c%c%c%c%c%c%c%c%c%c%c%c%c%c%c%c%c%c%c%c%c%c%c%c\00"
define i32 @main() {
  %1 = call i32 (ptr, ...) @printf(ptr @f, i32 97, i32 98, i32 99, i32 100, i32 101, i32 102, i32 103, i32 104, i32 105, i32 106, i32 107, i32 108, i32 109, i32 110, i32 111, i32 112, i32 113, i32 114, i32 115, i32 116, i32 117, i32 118, i32 119, i32 120, i32 121, i32 122)
  ret i32 %1
}
declare i32 @printf(ptr, ...)
~
abcdefghijklmnopqrstuvwxyz~
end: exit 26
reports: 0
blind: 0
verdict: clean
~
0
====
"#;

/// A bad place and a missing argument.
static FORMATS: &[u8] = br#"check f~
@f = constant [4 x i8] c"%5d\00"
define i32 @main() {
  %1 = call i32 (ptr, ...) @printf(ptr @f, i32 1)
  ret i32 %1
}
declare i32 @printf(ptr, ...)
~
~
end: trap format at site 1 in @main
reports: 0
blind: 0
verdict: clean
~
3
====
check f~
@f = constant [3 x i8] c"%d\00"
define i32 @main() {
  %1 = call i32 (ptr, ...) @printf(ptr @f)
  ret i32 %1
}
declare i32 @printf(ptr, ...)
~
~
end: trap format at site 1 in @main
reports: 0
blind: 0
verdict: clean
~
3
====
# Nothing is printed before the trap.
check f~
@f = constant [6 x i8] c"%d %d\00"
define i32 @main() {
  %1 = call i32 (ptr, ...) @printf(ptr @f, i32 1)
  ret i32 %1
}
declare i32 @printf(ptr, ...)
~
~
end: trap format at site 1 in @main
reports: 0
blind: 0
verdict: clean
~
3
====
# What earlier calls printed stands.
check f~
@f = constant [3 x i8] c"ab\00"
@g = constant [3 x i8] c"c%\00"
define i32 @main() {
  %1 = call i32 (ptr, ...) @printf(ptr @f)
  %2 = call i32 (ptr, ...) @printf(ptr @g)
  ret i32 0
}
declare i32 @printf(ptr, ...)
~
ab~
end: trap format at site 2 in @main
reports: 0
blind: 0
verdict: clean
~
3
====
"#;

/// Strings that don't end, and their order among the traps.
static ADDRESSES: &[u8] = br#"# The format has no zero byte.
check f~
@f = constant [2 x i8] c"ab"
define i32 @main() {
  %1 = call i32 (ptr, ...) @printf(ptr @f)
  ret i32 %1
}
declare i32 @printf(ptr, ...)
~
~
end: trap bad-address at site 1 in @main
reports: 0
blind: 0
verdict: clean
~
3
====
check f~
define i32 @main() {
  %1 = call i32 (ptr, ...) @printf(ptr null)
  ret i32 %1
}
declare i32 @printf(ptr, ...)
~
~
end: trap bad-address at site 1 in @main
reports: 0
blind: 0
verdict: clean
~
3
====
# A string without an end, none at all, and one that has been freed.
check f~
@f = constant [4 x i8] c"a%s\00"
@s = constant [1 x i8] c"v"
define i32 @main() {
  %1 = call i32 (ptr, ...) @printf(ptr @f, ptr @s)
  ret i32 %1
}
declare i32 @printf(ptr, ...)
~
~
end: trap bad-address at site 1 in @main
reports: 0
blind: 0
verdict: clean
~
3
====
check f~
@f = constant [4 x i8] c"a%s\00"
define i32 @main() {
  %1 = call i32 (ptr, ...) @printf(ptr @f, ptr null)
  ret i32 %1
}
declare i32 @printf(ptr, ...)
~
~
end: trap bad-address at site 1 in @main
reports: 0
blind: 0
verdict: clean
~
3
====
check f~
@f = constant [3 x i8] c"%s\00"
define i32 @main() {
  %1 = call ptr @malloc(i64 1)
  store i8 0, ptr %1
  call void @free(ptr %1)
  %2 = call i32 (ptr, ...) @printf(ptr @f, ptr %1)
  ret i32 %2
}
declare i32 @printf(ptr, ...)
declare ptr @malloc(i64)
declare void @free(ptr)
~
~
end: trap bad-address at site 4 in @main
reports: 0
blind: 0
verdict: clean
~
3
====
# It comes before a fault of the format: a bad place after it, a directive of another type before it, and a missing argument.
check f~
@f = constant [6 x i8] c"%s%5d\00"
@s = constant [1 x i8] c"v"
define i32 @main() {
  %1 = call i32 (ptr, ...) @printf(ptr @f, ptr @s, i32 1)
  ret i32 %1
}
declare i32 @printf(ptr, ...)
~
~
end: trap bad-address at site 1 in @main
reports: 0
blind: 0
verdict: clean
~
3
====
check f~
@f = constant [7 x i8] c"%d%s%q\00"
@s = constant [1 x i8] c"v"
define i32 @main() {
  %1 = call i32 (ptr, ...) @printf(ptr @f, i64 1, ptr @s)
  ret i32 %1
}
declare i32 @printf(ptr, ...)
~
~
end: trap bad-address at site 1 in @main
reports: 0
blind: 0
verdict: clean
~
3
====
check f~
@f = constant [5 x i8] c"%s%d\00"
@s = constant [1 x i8] c"v"
define i32 @main() {
  %1 = call i32 (ptr, ...) @printf(ptr @f, ptr @s)
  ret i32 %1
}
declare i32 @printf(ptr, ...)
~
~
end: trap bad-address at site 1 in @main
reports: 0
blind: 0
verdict: clean
~
3
====
# Strings after a bad place aren't looked at.
check f~
@f = constant [5 x i8] c"%q%s\00"
@s = constant [1 x i8] c"v"
define i32 @main() {
  %1 = call i32 (ptr, ...) @printf(ptr @f, ptr @s)
  ret i32 %1
}
declare i32 @printf(ptr, ...)
~
~
end: trap format at site 1 in @main
reports: 0
blind: 0
verdict: clean
~
3
====
check f~
@f = constant [6 x i8] c"%5d%s\00"
@s = constant [1 x i8] c"v"
define i32 @main() {
  %1 = call i32 (ptr, ...) @printf(ptr @f, i32 1, ptr @s)
  ret i32 %1
}
declare i32 @printf(ptr, ...)
~
~
end: trap format at site 1 in @main
reports: 0
blind: 0
verdict: clean
~
3
====
# Nor is a surplus one, nor one of another directive.
check f~
@f = constant [3 x i8] c"%d\00"
@s = constant [1 x i8] c"v"
define i32 @main() {
  %1 = call i32 (ptr, ...) @printf(ptr @f, ptr @s)
  ret i32 %1
}
declare i32 @printf(ptr, ...)
~
~
end: trap format at site 1 in @main
reports: 0
blind: 0
verdict: clean
~
3
====
# An argument that is there but is no pointer, and one that isn't there.
check f~
@f = constant [3 x i8] c"%s\00"
define i32 @main() {
  %1 = call i32 (ptr, ...) @printf(ptr @f, i64 1)
  ret i32 %1
}
declare i32 @printf(ptr, ...)
~
~
end: trap format at site 1 in @main
reports: 0
blind: 0
verdict: clean
~
3
====
check f~
@f = constant [5 x i8] c"%d%s\00"
define i32 @main() {
  %1 = call i32 (ptr, ...) @printf(ptr @f, i32 1)
  ret i32 %1
}
declare i32 @printf(ptr, ...)
~
~
end: trap format at site 1 in @main
reports: 0
blind: 0
verdict: clean
~
3
====
"#;

/// The argument that a call of `printf` has beside its format.
#[derive(Clone, Copy)]
enum Given {
    Word,
    Long,
    Pointer,
}

/// A format of five bytes, its zero bytes among them, and an argument.
#[derive(Clone, Copy)]
struct Faulty(&'static str, Given);

/// At some `%` no directive stands: flags, widths, precisions, other letters, or the end.
static BAD_PLACES: [Faulty; 32] = [
    Faulty("%\\00\\00\\00\\00", Given::Word),
    Faulty("a%\\00\\00\\00", Given::Word),
    Faulty("%l\\00\\00\\00", Given::Long),
    Faulty("a%l\\00\\00", Given::Long),
    Faulty("%l%\\00\\00", Given::Long),
    Faulty("%%%\\00\\00", Given::Word),
    Faulty("%5d\\00\\00", Given::Word),
    Faulty("%-d\\00\\00", Given::Word),
    Faulty("%+d\\00\\00", Given::Word),
    Faulty("% d\\00\\00", Given::Word),
    Faulty("%#x\\00\\00", Given::Word),
    Faulty("%05d\\00", Given::Word),
    Faulty("%.1d\\00", Given::Word),
    Faulty("%*d\\00\\00", Given::Word),
    Faulty("%i\\00\\00\\00", Given::Word),
    Faulty("%o\\00\\00\\00", Given::Word),
    Faulty("%X\\00\\00\\00", Given::Word),
    Faulty("%D\\00\\00\\00", Given::Word),
    Faulty("%hd\\00\\00", Given::Word),
    Faulty("%hhd\\00", Given::Word),
    Faulty("%li\\00\\00", Given::Long),
    Faulty("%lX\\00\\00", Given::Long),
    Faulty("%lld\\00", Given::Long),
    Faulty("%zu\\00\\00", Given::Long),
    Faulty("%jd\\00\\00", Given::Long),
    Faulty("%f\\00\\00\\00", Given::Long),
    Faulty("%lc\\00\\00", Given::Word),
    Faulty("%ls\\00\\00", Given::Pointer),
    Faulty("%p\\00\\00\\00", Given::Pointer),
    Faulty("%n\\00\\00\\00", Given::Pointer),
    Faulty("%S\\00\\00\\00", Given::Pointer),
    Faulty("%.1s\\00", Given::Pointer),
];

/// The argument has another type than the directive takes.
static BAD_TYPES: [Faulty; 16] = [
    Faulty("%d\\00\\00\\00", Given::Long),
    Faulty("%d\\00\\00\\00", Given::Pointer),
    Faulty("%u\\00\\00\\00", Given::Long),
    Faulty("%u\\00\\00\\00", Given::Pointer),
    Faulty("%x\\00\\00\\00", Given::Long),
    Faulty("%x\\00\\00\\00", Given::Pointer),
    Faulty("%c\\00\\00\\00", Given::Long),
    Faulty("%c\\00\\00\\00", Given::Pointer),
    Faulty("%s\\00\\00\\00", Given::Word),
    Faulty("%s\\00\\00\\00", Given::Long),
    Faulty("%ld\\00\\00", Given::Word),
    Faulty("%ld\\00\\00", Given::Pointer),
    Faulty("%lu\\00\\00", Given::Word),
    Faulty("%lu\\00\\00", Given::Pointer),
    Faulty("%lx\\00\\00", Given::Word),
    Faulty("%lx\\00\\00", Given::Pointer),
];

/// A module's text, in which an argument stands so many times; how often the letter A is printed, what is said, and the status.
struct Wide(&'static str, u32, &'static str, usize, &'static str, u8);

/// With the format a call has at most 100 arguments. Tokens and bytes were counted by hand.
static WIDE: [Wide; 4] = [
    Wide(
        r#"@f = constant [199 x i8] c"%c%c%c%c%c%c%c%c%c%c%c%c%c%c%c%c%c%c%c%c%c%c%c%c%c%c%c%c%c%c%c%c%c%c%c%c%c%c%c%c%c%c%c%c%c%c%c%c%c%c%c%c%c%c%c%c%c%c%c%c%c%c%c%c%c%c%c%c%c%c%c%c%c%c%c%c%c%c%c%c%c%c%c%c%c%c%c%c%c%c%c%c%c%c%c%c%c%c%c\00"
define i32 @main() {
  %1 = call i32 (ptr, ...) @printf(ptr @f"#,
        99,
        r#")
  ret i32 %1
}
declare i32 @printf(ptr, ...)
"#,
        99,
        "end: exit 99\nreports: 0\nblind: 0\nverdict: clean\n",
        0,
    ),
    // The last argument is the 99th after the format.
    Wide(
        r#"@f = constant [199 x i8] c"%c%c%c%c%c%c%c%c%c%c%c%c%c%c%c%c%c%c%c%c%c%c%c%c%c%c%c%c%c%c%c%c%c%c%c%c%c%c%c%c%c%c%c%c%c%c%c%c%c%c%c%c%c%c%c%c%c%c%c%c%c%c%c%c%c%c%c%c%c%c%c%c%c%c%c%c%c%c%c%c%c%c%c%c%c%c%c%c%c%c%c%c%c%c%c%c%c%c%c\00"
define i32 @main() {
  %1 = call i32 (ptr, ...) @printf(ptr @f"#,
        98,
        r#", i32 undef)
  ret i32 %1
}
declare i32 @printf(ptr, ...)
"#,
        0,
        "report 1: value at site 1 in @main, part 99, bits 0xffffffff of i32\n  origin 1: undef at site 1 in @main\nend: reported\nreports: 1\nblind: 0\nverdict: poisoned\n",
        77,
    ),
    Wide(
        r#"@f = constant [199 x i8] c"%c%c%c%c%c%c%c%c%c%c%c%c%c%c%c%c%c%c%c%c%c%c%c%c%c%c%c%c%c%c%c%c%c%c%c%c%c%c%c%c%c%c%c%c%c%c%c%c%c%c%c%c%c%c%c%c%c%c%c%c%c%c%c%c%c%c%c%c%c%c%c%c%c%c%c%c%c%c%c%c%c%c%c%c%c%c%c%c%c%c%c%c%c%c%c%c%c%c%s\00"
define i32 @main() {
  %1 = alloca i8
  %2 = call i32 (ptr, ...) @printf(ptr @f"#,
        98,
        r#", ptr %1)
  ret i32 %2
}
declare i32 @printf(ptr, ...)
"#,
        0,
        "report 1: string at site 2 in @main, part 0, bits 0xff of i8\n  origin 1: alloca at site 1 in @main\nend: reported\nreports: 1\nblind: 0\nverdict: poisoned\n",
        77,
    ),
    Wide(
        r#"declare i32 @printf(ptr, ...)
define i32 @main() {
  %1 = call i32 (ptr, ...) @printf(ptr null"#,
        100,
        ")\n  ret i32 %1\n}\n",
        0,
        "refused 6: limit parameters at token 325, byte 888\n",
        5,
    ),
];

/// What a row of one faulty format says.
const FAULT: &str = "end: trap format at site 1 in @main\nreports: 0\nblind: 0\nverdict: clean\n";

impl Given {
    /// What stands after the bytes of a format in the text of a module.
    fn tail(self) -> &'static str {
        match self {
            Given::Word => r#""
define i32 @main() {
  %1 = call i32 (ptr, ...) @printf(ptr @f, i32 97)
  ret i32 %1
}
declare i32 @printf(ptr, ...)
"#,
            Given::Long => r#""
define i32 @main() {
  %1 = call i32 (ptr, ...) @printf(ptr @f, i64 97)
  ret i32 %1
}
declare i32 @printf(ptr, ...)
"#,
            Given::Pointer => r#""
define i32 @main() {
  %1 = call i32 (ptr, ...) @printf(ptr @f, ptr @f)
  ret i32 %1
}
declare i32 @printf(ptr, ...)
"#,
        }
    }
}

impl Row for Faulty {
    fn call(&self) -> Call<'static> {
        Call {
            piece: self.0.as_bytes(),
            times: 1,
            tail: self.1.tail().as_bytes(),
            ..on_text(
                "check f",
                b"@f = constant [5 x i8] c\"",
                saying(b"", FAULT, 3),
            )
        }
    }
}

impl CheckedRow for Faulty {
    fn is_shown(&self, checked: &Desk) -> bool {
        says(checked, &self.call().wanted)
    }
}

impl Row for Wide {
    fn call(&self) -> Call<'static> {
        let wanted = Wanted {
            letters: self.3,
            ..saying(b"", self.4, self.5)
        };
        Call {
            piece: b", i32 65",
            times: self.1,
            tail: self.2.as_bytes(),
            ..on_text("check f", self.0.as_bytes(), wanted)
        }
    }
}

#[test]
fn formats_are_followed(rt: HostRuntime) -> Result<(), Fail> {
    assert!(rt;
        all_told_twice::<_, Case>(&rt, rt.alloc(), &[STRINGS, FORMATS, ADDRESSES])
            && all_agree_twice(&rt, rt.alloc(), &[&TEXTS, &NUMBERS])
    );
    Ok(())
}

#[test]
fn other_formats_are_faults(rt: HostRuntime) -> Result<(), Fail> {
    assert!(rt; all_agree_twice(&rt, rt.alloc(), &[&BAD_PLACES, &BAD_TYPES]));
    Ok(())
}

#[test]
fn a_hundred_arguments_are_taken(rt: HostRuntime) -> Result<(), Fail> {
    assert!(rt; all_agree(&rt, rt.alloc(), &[&WIDE]));
    Ok(())
}
