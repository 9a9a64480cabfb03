//! Copies of modules, modules that differ in one place, and the order of names.

use crate::answers::{differs, fails};
use ms_bits::{Duplicate, NoMemory};
use ms_ir::{Form, Module, Name, Ty};
use ms_read_body::ReadError;
use ms_read_top::read;
use ms_write::write;
use std::alloc::Global;
use std::cmp::Ordering;
use std::test::Fail;

/// Two texts of modules, and whether the modules are equal.
struct Differing(&'static str, &'static str, bool);

/// Every kind of part of a module.
const PARTS: &str = r#"%pair = type { i32, [ 2 x i8 ] }
@g = constant < { [ 3 x ptr ], %pair, i8 } > < { [ 3 x ptr ] [ ptr null, ptr @h, ptr undef ], %pair zeroinitializer, i8 poison } >
@h = global [ 2 x i8 ] c"a\00"
@o = global ptr getelementptr (%pair, ptr @g, i64 -1, i32 1)
@w = global ptr getelementptr ([ 2 x i8 ], ptr getelementptr (%pair, ptr @g, i32 0, i32 1), i64 0, i64 1)
declare void @free(ptr)
define i32 @f(i8 %x, ptr %p) {
  %1 = xor i8 %x, 5
  %2 = icmp samesign ult i8 %1, 7
  %3 = zext nneg i8 %1 to i32
  %4 = select i1 %2, i32 %3, i32 undef
  %5 = alloca %pair, i64 2
  %6 = getelementptr %pair, ptr %5, i64 0, i32 1
  store i8 %1, ptr %6
  %7 = load i8, ptr %6
  %__msan.1 = freeze i8 %7, !nosanitize !0
  call void @free(ptr %p)
  switch i8 %7, label %b [ i8 1, label %c i8 2, label %d ]
b:
  br label %d
c:
  br i1 %2, label %d, label %b
d:
  %8 = phi i32 [ %4, %b ], [ 9, %c ], [ poison, %0 ]
  unreachable
}
!0 = !{}
"#;

/// Modules are equal to themselves, and each change is seen.
static PAIRS: [Differing; 11] = [
    Differing(PARTS, PARTS, true),
    Differing("", PARTS, false),
    Differing(
        r#"@g = global i8 1
"#,
        r#"@g = global i8 1
"#,
        true,
    ),
    Differing(
        r#"@g = global i8 1
"#,
        r#"@g = global i8 2
"#,
        false,
    ),
    Differing(
        r#"@g = global i8 1
"#,
        r#"@g = constant i8 1
"#,
        false,
    ),
    Differing(
        r#"@g = global i8 undef
"#,
        r#"@g = global i8 poison
"#,
        false,
    ),
    Differing(
        r#"@g = global [ 3 x ptr ] zeroinitializer
"#,
        r#"@g = global [ 4 x ptr ] zeroinitializer
"#,
        false,
    ),
    Differing(
        r#"%t = type { i8 }
"#,
        r#"%t = type < { i8 } >
"#,
        false,
    ),
    Differing(
        r#"@g = global ptr getelementptr (i8, ptr getelementptr (i8, ptr @g, i64 1), i64 2)
"#,
        r#"@g = global ptr getelementptr (i8, ptr getelementptr (i8, ptr @g, i64 2), i64 1)
"#,
        false,
    ),
    Differing(
        r#"define void @f() {
  %x = xor i8 1, 5
  ret void
}
"#,
        r#"define void @f() {
  %x = xor i8 1, 6
  ret void
}
"#,
        false,
    ),
    Differing(
        r#"define void @f() {
  %__msan.1 = xor i8 1, 5
  ret void
}
"#,
        r#"define void @f() {
  %__msan.1 = xor i8 1, 5, !nosanitize !0
  ret void
}
!0 = !{}
"#,
        false,
    ),
];

/// A function whose parameters' names stand in order: numbers by their size, before texts, and these by their bytes.
const ORDERED: &str =
    r#"define void @f(i8 %0, i8 %1, i8 %2, i8 %3, i8 %4, i8 %5, i8 %6, i8 %7, i8 %8, i8 %9, i8 %10, i8 %"", i8 %x, i8 %x10, i8 %x2, i8 %xy) {
  ret void
}
"#;

#[tactic(auto, unfolding(ms_text_grammar::specs::Texts::max_bytes))]
fn module_of(alloc: Global, text: &str) -> Result<Module, ReadError> {
    let bytes = text.as_bytes();
    if bytes.len() > 1 << 20 {
        return Err(ReadError::NoMemory);
    }
    read(alloc, bytes, Form::Instrumented)
}

/// Whether two modules are equal: these alone are written alike.
fn are_equal(alloc: Global, a: &Module, b: &Module) -> Result<bool, NoMemory> {
    let first = write(alloc, a)?;
    let second = write(alloc, b)?;
    Ok(first.as_slice() == second.as_slice())
}

/// Whether a module's copy is equal to it.
fn has_equal_copy(alloc: Global, m: &Module) -> bool {
    match m.copy(alloc) {
        Ok(copy) => are_equal(alloc, &copy, m).ok() == Some(true),
        Err(_) => false,
    }
}

/// Whether the module of this text, which is one, is equal to another.
fn is_equal(alloc: Global, m: &Module, text: &str) -> Option<bool> {
    match module_of(alloc, text) {
        Ok(other) => are_equal(alloc, m, &other).ok(),
        Err(_) => None,
    }
}

fn agrees<R: Eprint>(rt: &R, alloc: Global, case: &Differing) -> bool {
    match module_of(alloc, case.0) {
        Ok(m) => {
            let got = (has_equal_copy(alloc, &m), is_equal(alloc, &m, case.1));
            got == (true, Some(case.2))
                || differs(rt, case.1.as_bytes(), &(true, Some(case.2)), &got)
        }
        Err(error) => differs(rt, case.0.as_bytes(), &"a module", &error),
    }
}

fn all_agree<R: Eprint>(rt: &R, alloc: Global, cases: &[Differing]) -> bool {
    for (number, case) in cases.iter().enumerate() {
        if !agrees(rt, alloc, case) {
            return fails(rt, "row", number);
        }
    }
    true
}

/// Whether a name comes after another in the order of names.
fn comes_after(before: &Name, after: &Name) -> bool {
    before.cmp(after) == Ordering::Less && after.cmp(before) == Ordering::Greater
}

/// Whether each name comes after the one before it.
fn are_in_order(params: &[(Ty, Name)]) -> bool {
    let mut last: Option<&Name> = None;
    for param in params {
        if let Some(before) = last {
            if !comes_after(before, &param.1) {
                return false;
            }
        }
        last = Some(&param.1);
    }
    true
}

fn has_names_in_order(alloc: Global, text: &str) -> bool {
    match module_of(alloc, text) {
        Ok(m) => match m.funcs.as_slice() {
            [func] => func.params.as_slice().len() == 16 && are_in_order(func.params.as_slice()),
            _ => false,
        },
        Err(_) => false,
    }
}

#[test]
fn copies_are_equal_and_names_are_ordered(rt: HostRuntime) -> Result<(), Fail> {
    assert!(rt; all_agree(&rt, rt.alloc(), &PAIRS) && has_names_in_order(rt.alloc(), ORDERED));
    Ok(())
}
