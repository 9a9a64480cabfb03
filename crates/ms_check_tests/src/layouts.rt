//! Types with their sizes, their alignments and the places of their parts.

use crate::answers::{differs, fails};
use ms_ir::{Form, Module, Ty, align_of, offset_of, parts_of, size_of};
use ms_read_top::read;
use std::alloc::Global;
use std::test::Fail;

/// A type that a global has, its size in bytes if it has one, its alignment, and where its parts begin.
#[derive(Debug)]
struct Layout(&'static str, Option<u64>, u64, &'static [u64]);

/// The named types of the cases.
const TYPES: &str = r#"%plain = type { i8, i32, i8 }
%packed = type < { i8, i32, i8 } >
%own = type { %own }
%nested = type { i8, %plain, i64, %packed }
"#;

/// Types by the rules of LLVM's data layout.
static LAYOUTS: [Layout; 18] = [
    Layout("i1", Some(1), 1, &[]),
    Layout("i24", Some(4), 4, &[]),
    Layout("i33", Some(8), 8, &[]),
    Layout("ptr", Some(8), 8, &[]),
    Layout("{ i8, i32, i8 }", Some(12), 4, &[0, 4, 8]),
    Layout("< { i8, i32, i8 } >", Some(6), 1, &[0, 1, 5]),
    Layout("%plain", Some(12), 4, &[0, 4, 8]),
    Layout("%packed", Some(6), 1, &[0, 1, 5]),
    Layout("%nested", Some(32), 8, &[0, 4, 16, 24]),
    Layout("[ 2 x i24 ]", Some(8), 4, &[0, 4]),
    Layout("[ 3 x i1 ]", Some(3), 1, &[0, 1, 2]),
    Layout("[ 3 x %plain ]", Some(36), 4, &[0, 12, 24]),
    Layout("[ 0 x i64 ]", Some(0), 8, &[]),
    Layout("{ [ 67108864 x i8 ] }", Some(67108864), 1, &[0]),
    Layout("{ [ 67108865 x i8 ] }", None, 1, &[]),
    Layout("{ [ 4611686018427387904 x i64 ] }", None, 8, &[]),
    Layout("%own", None, 1, &[]),
    Layout("%unknown", None, 1, &[]),
];

/// Whether a part of a type with a size begins there.
fn begins_at(m: &Module, ty: &Ty, field: u32, offset: u64) -> bool {
    if size_of(m, ty).is_some() && u64::from(field) < parts_of(m, ty) {
        return offset_of(m, ty, field) == offset;
    }
    false
}

fn has_offsets(m: &Module, ty: &Ty, offsets: &[u64]) -> bool {
    if parts_of(m, ty) != offsets.len() as u64 {
        return false;
    }
    for (field, offset) in offsets.iter().enumerate() {
        let begins = match u32::try_from(field) {
            Ok(field) => begins_at(m, ty, field, *offset),
            Err(_) => false,
        };
        if !begins {
            return false;
        }
    }
    true
}

fn has_layout<R: Eprint>(rt: &R, m: &Module, ty: &Ty, case: &Layout) -> bool {
    let got = (size_of(m, ty), align_of(m, ty), parts_of(m, ty));
    got.0 == case.1 && got.1 == case.2 && (case.1.is_none() || has_offsets(m, ty, case.3))
        || differs(rt, case.0.as_bytes(), case, &got)
}

/// Whether the first global of a module has a type with that layout.
fn first_has_layout<R: Eprint>(rt: &R, m: &Module, case: &Layout) -> bool {
    match m.globals.as_slice() {
        [global, ..] => has_layout(rt, m, &global.ty, case),
        [] => false,
    }
}

#[tactic(auto, unfolding(ms_text_grammar::specs::Texts::max_bytes))]
fn is_laid_out<R: Eprint>(rt: &R, alloc: Global, text: &[u8], case: &Layout) -> bool {
    if text.len() > 1 << 20 {
        return false;
    }
    match read(alloc, text, Form::Plain) {
        Ok(m) => first_has_layout(rt, &m, case),
        Err(_) => false,
    }
}

fn agrees<R: Eprint>(rt: &R, alloc: Global, case: &Layout) -> bool {
    let mut text = Vec::new(alloc);
    for piece in [TYPES, "@g = global ", case.0, " zeroinitializer\n"] {
        if text.extend_from_slice(piece.as_bytes()).is_err() {
            return false;
        }
    }
    is_laid_out(rt, alloc, &text, case)
}

fn all_agree<R: Eprint>(rt: &R, alloc: Global, cases: &[Layout]) -> bool {
    for (number, case) in cases.iter().enumerate() {
        if !agrees(rt, alloc, case) {
            return fails(rt, "row", number);
        }
    }
    true
}

#[test]
fn layouts(rt: HostRuntime) -> Result<(), Fail> {
    assert!(rt; all_agree(&rt, rt.alloc(), &LAYOUTS));
    Ok(())
}
