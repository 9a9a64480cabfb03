//! Types without a size, and globals that don't fit into their 16 MiB.

use crate::answers::{Want, agrees, fails};
use std::alloc::{AllocError, Global};
use std::test::Fail;

/// What stands before `main`, an instruction of it, and the answer.
struct Sized(&'static str, &'static str, Want);

/// Globals and instructions whose types have sizes or haven't.
static SIZES: [Sized; 28] = [
    // One type may have 2^26 bytes, and all globals together have 2^24.
    Sized("", "", Want::Valid),
    Sized(
        r#"@a = global [ 67108865 x i8 ] zeroinitializer
"#,
        "",
        Want::BadSize("@a"),
    ),
    Sized(
        r#"@a = global [ 16777216 x i8 ] zeroinitializer
"#,
        "",
        Want::Valid,
    ),
    Sized(
        r#"@a = global [ 16777217 x i8 ] zeroinitializer
"#,
        "",
        Want::BadSize("@a"),
    ),
    Sized(
        r#"@a = global [ 16777200 x i8 ] zeroinitializer
@b = global [ 16 x i8 ] zeroinitializer
"#,
        "",
        Want::Valid,
    ),
    Sized(
        r#"@a = global [ 16777200 x i8 ] zeroinitializer
@b = global [ 17 x i8 ] zeroinitializer
"#,
        "",
        Want::BadSize("@b"),
    ),
    // A global takes at least 16 bytes.
    Sized(
        r#"@a = global [ 16777216 x i8 ] zeroinitializer
@b = global i8 0
"#,
        "",
        Want::BadSize("@b"),
    ),
    Sized(
        r#"@a = global [ 16777216 x i8 ] zeroinitializer
@b = global [ 0 x i8 ] zeroinitializer
@c = global [ 67108865 x i8 ] zeroinitializer
"#,
        "",
        Want::BadSize("@b"),
    ),
    // The slots of the runtime take none.
    Sized(
        r#"@a = global [ 16777216 x i8 ] zeroinitializer
@__msan_param_tls = global [ 100 x i64 ] zeroinitializer
"#,
        "",
        Want::Valid,
    ),
    // A part of a type without a size, and one in an initialiser.
    Sized(
        r#"@a = global [ 0 x [ 67108865 x i8 ] ] zeroinitializer
"#,
        "",
        Want::BadSize("@a"),
    ),
    Sized(
        r#"@a = global ptr getelementptr ([ 67108865 x i8 ], ptr @a, i64 0)
"#,
        "",
        Want::BadSize("@a"),
    ),
    Sized(
        r#"@a = global ptr getelementptr ([ 67108864 x i8 ], ptr @a, i64 0)
"#,
        "",
        Want::Valid,
    ),
    Sized(
        r#"@a = global ptr getelementptr (i8, ptr getelementptr ([ 67108865 x i8 ], ptr @a, i64 0), i64 0)
"#,
        "",
        Want::BadSize("@a"),
    ),
    // A type that holds itself.
    Sized(
        r#"%s = type { ptr }
%t = type { %t }
"#,
        "",
        Want::BadSize("%t"),
    ),
    Sized(
        r#"%s = type { %t }
%t = type { %s }
"#,
        "",
        Want::BadSize("%s"),
    ),
    Sized(
        r#"%t = type { ptr }
"#,
        "  %1 = alloca %t\n",
        Want::Valid,
    ),
    // Types come before globals, and these before functions.
    Sized(
        r#"%t = type { [ 67108865 x i8 ] }
@a = global [ 67108865 x i8 ] zeroinitializer
"#,
        "  %1 = alloca [ 67108865 x i8 ]\n",
        Want::BadSize("%t"),
    ),
    Sized(
        r#"%t = type { [ 1 x i8 ] }
@a = global [ 67108865 x i8 ] zeroinitializer
"#,
        "  %1 = alloca [ 67108865 x i8 ]\n",
        Want::BadSize("@a"),
    ),
    Sized(
        r#"%t = type { [ 1 x i8 ] }
@a = global [ 1 x i8 ] zeroinitializer
"#,
        "  %1 = alloca [ 67108865 x i8 ]\n",
        Want::BadSize("@main"),
    ),
    Sized(
        r#"%t = type { [ 1 x i8 ] }
@a = global [ 1 x i8 ] zeroinitializer
"#,
        "  %1 = alloca [ 67108864 x i8 ]\n",
        Want::Valid,
    ),
    // A count whose bytes pass 2^64.
    Sized(
        "",
        "  %1 = alloca [ 4611686018427387904 x i64 ]\n",
        Want::BadSize("@main"),
    ),
    // With padding there are 67108868 bytes, and without 67108862.
    Sized(
        "",
        "  %1 = alloca { i8, i32, [ 67108857 x i8 ] }\n",
        Want::BadSize("@main"),
    ),
    Sized(
        "",
        "  %1 = alloca < { i8, i32, [ 67108857 x i8 ] } >\n",
        Want::Valid,
    ),
    Sized(
        "",
        "  %1 = alloca { [ 67108859 x i8 ], i32 }\n",
        Want::Valid,
    ),
    // An `i24` has four bytes, and an `i1` has one.
    Sized("", "  %1 = alloca [ 16777216 x i24 ]\n", Want::Valid),
    Sized(
        "",
        "  %1 = alloca [ 16777217 x i24 ]\n",
        Want::BadSize("@main"),
    ),
    Sized("", "  %1 = alloca [ 67108864 x i1 ]\n", Want::Valid),
    Sized(
        "",
        "  %1 = alloca [ 8388609 x ptr ]\n",
        Want::BadSize("@main"),
    ),
];

/// The fields of the first of named types, how many types there are, each of which holds the one before twice or once, and
/// the answer.
struct Chain(&'static str, u32, bool, Want);

/// Named types that hold one another.
static CHAINS: [Chain; 6] = [
    // At most 32 types stand within one another.
    Chain("i64", 32, false, Want::Valid),
    Chain("i64", 33, false, Want::BadSize("%t.32")),
    // With 24 types that are 8 * 2^23 bytes.
    Chain("i64", 24, true, Want::Valid),
    Chain("i64", 25, true, Want::BadSize("%t.24")),
    Chain("i64", 32, true, Want::BadSize("%t.24")),
    Chain("[ 0 x i8 ]", 32, true, Want::Valid),
];

/// Adds the type with a number, which holds the one before.
fn push_type(
    alloc: Global,
    text: &mut Vec<u8>,
    number: u32,
    twice: bool,
) -> Result<(), AllocError> {
    let before = number.saturating_sub(1);
    let line = if twice {
        format!(in alloc; "%t.{number} = type {{ %t.{before}, %t.{before} }}\n")?
    } else {
        format!(in alloc; "%t.{number} = type {{ %t.{before} }}\n")?
    };
    text.extend_from_slice(line.as_bytes())
}

fn push_types(alloc: Global, text: &mut Vec<u8>, len: u32, twice: bool) -> bool {
    for number in 1..len {
        if push_type(alloc, text, number, twice).is_err() {
            return false;
        }
    }
    true
}

fn push_all(text: &mut Vec<u8>, pieces: &[&str]) -> bool {
    for piece in pieces {
        if text.extend_from_slice(piece.as_bytes()).is_err() {
            return false;
        }
    }
    true
}

fn is_sized<R: Eprint>(rt: &R, alloc: Global, case: &Sized) -> bool {
    let mut text = Vec::new(alloc);
    let pieces = [
        case.0,
        r#"define i32 @main() {
"#,
        case.1,
        "  ret i32 0\n}\n",
    ];
    push_all(&mut text, &pieces) && agrees(rt, alloc, &text, &case.2)
}

fn all_are_sized<R: Eprint>(rt: &R, alloc: Global, cases: &[Sized]) -> bool {
    for (number, case) in cases.iter().enumerate() {
        if !is_sized(rt, alloc, case) {
            return fails(rt, "row", number);
        }
    }
    true
}

fn is_chain<R: Eprint>(rt: &R, alloc: Global, case: &Chain) -> bool {
    let mut text = Vec::new(alloc);
    push_all(&mut text, &["%t.0 = type { ", case.0, " }\n"])
        && push_types(alloc, &mut text, case.1, case.2)
        && push_all(
            &mut text,
            &[
                r#"define i32 @main() {
  ret i32 0
}
"#,
            ],
        )
        && agrees(rt, alloc, &text, &case.3)
}

fn all_are_chains<R: Eprint>(rt: &R, alloc: Global, cases: &[Chain]) -> bool {
    for (number, case) in cases.iter().enumerate() {
        if !is_chain(rt, alloc, case) {
            return fails(rt, "row", number);
        }
    }
    true
}

#[test]
fn sizes_and_chains_fit(rt: HostRuntime) -> Result<(), Fail> {
    assert!(rt; all_are_sized(&rt, rt.alloc(), &SIZES) && all_are_chains(&rt, rt.alloc(), &CHAINS));
    Ok(())
}
