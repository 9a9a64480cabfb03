//! Modules with the places of their sites, their roots, and what is left of them without inserted code.

ghost use Rattle.ms_ir.specs.Places.{HasSmallNumbers};

use crate::answers::{differs, fails, is_written};
use ms_ir::{
    Form, Module, Place, Root, RootKind, has_small_numbers, place_of, roots, site_of, strip,
};
use ms_read_top::read;
use std::alloc::Global;
use std::test::Fail;

/// A text, the numbers of function, block and instruction of each site, the kind and the site of each root, and the text
/// that is left without inserted code.
struct Numbered {
    text: &'static str,
    /// Function, block and instruction of each site, from 0.
    places: &'static [(u32, u32, u32)],
    /// Kind and site of each root.
    roots: &'static [(RootKind, u32)],
    /// What is left when what is inserted is taken away.
    left: &'static str,
}

const BRANCHING: &str = r#"define i32 @main() {
  %1 = alloca i32
  %2 = load i1, ptr %1
  br i1 %2, label %3, label %4
3:
  ret i32 0
4:
  ret i32 1
}
"#;

/// A function `malloc` of the module, which is no external.
const OWN_MALLOC: &str = r#"define ptr @malloc() {
  ret ptr poison
}
define void @main() {
  call void @malloc(i64 undef)
  call void @realloc(i64 undef)
  call void @llvm.lifetime.start.p0(i64 undef)
  %1 = select i1 undef, i8 1, i8 poison
  ret void
}
"#;

const INSERTED: &str = r#"@__msan_param_tls = global [ 100 x i64 ] zeroinitializer
@g = global i8 0
declare void @__msan_check(i64, i32, i32, i32, i32, i32)
declare ptr @malloc(i64)
declare ptr @__msa(i64)
define void @f() {
  %1 = alloca i32
  %__msan.0 = freeze i8 undef, !nosanitize !0
  call void @malloc(i64 undef)
  br label %2
2:
  call void @__msan_check(i64 undef, i32 0, i32 0, i32 0, i32 0, i32 0), !nosanitize !0
  call void @f(i64 undef)
  ret void
}
!0 = !{}
"#;

const STRIPPED: &str = r#"@g = global i8 0
declare ptr @malloc(i64)
declare ptr @__msa(i64)
define void @f() {
  %1 = alloca i32
  call void @malloc(i64 undef)
  br label %2
2:
  call void @f(i64 undef)
  ret void
}
"#;

/// What `instrument` writes of `STORED_UNDEFINED`.
const INSTRUMENTED: &str = r#"@__msan_param_tls = global [ 100 x i64 ] zeroinitializer
@__msan_param_origin_tls = global [ 100 x i32 ] zeroinitializer
@__msan_retval_tls = global i64 0
@__msan_retval_origin_tls = global i32 0
declare void @__msan_check(i64, i32, i32, i32, i32, i32)
declare void @__msan_check_memory(ptr, i64, i32, i32)
declare void @__msan_check_string(ptr, i32)
declare void @__msan_blind(i64)
declare void @__msan_poison(ptr, i64, i64, i32)
declare void @__msan_unpoison(ptr, i64)
declare void @__msan_copy(ptr, ptr, i64)
declare void @__msan_fill(ptr, i64, i64, i32, i32)
declare void @__msan_store_origin(ptr, i64, i32, i32)
declare i32 @__msan_load_origin(ptr, i64)
declare i64 @__msan_size(ptr)
declare void @__msan_thread_result(ptr, i64, i32, i32)
declare void @__msan_check_format(ptr, i32, ptr, i32)
define i32 @main() {
  %__msan.2 = or i32 0, 0, !nosanitize !0
  %__msan.1 = or i64 0, 0, !nosanitize !0
  %1 = alloca i32
  %__msan.5 = zext i32 1 to i64, !nosanitize !0
  %__msan.6 = mul i64 4, %__msan.5, !nosanitize !0
  call void @__msan_poison(ptr %1, i64 0, i64 %__msan.6, i32 1), !nosanitize !0
  call void @__msan_check(i64 %__msan.1, i32 64, i32 %__msan.2, i32 3, i32 1, i32 2), !nosanitize !0
  store i32 undef, ptr %1
  %__msan.7 = ptrtoint ptr %1 to i64, !nosanitize !0
  %__msan.8 = xor i64 %__msan.7, 87960930222080, !nosanitize !0
  %__msan.9 = inttoptr i64 %__msan.8 to ptr, !nosanitize !0
  store i32 -1, ptr %__msan.9, !nosanitize !0
  %__msan.10 = zext i32 -1 to i64, !nosanitize !0
  call void @__msan_store_origin(ptr %1, i64 %__msan.10, i32 2, i32 2), !nosanitize !0
  call void @__msan_check(i64 %__msan.1, i32 64, i32 %__msan.2, i32 3, i32 0, i32 3), !nosanitize !0
  %__msan.11 = ptrtoint ptr %1 to i64, !nosanitize !0
  %__msan.12 = xor i64 %__msan.11, 87960930222080, !nosanitize !0
  %__msan.13 = inttoptr i64 %__msan.12 to ptr, !nosanitize !0
  %__msan.3 = load i32, ptr %__msan.13, !nosanitize !0
  %__msan.14 = zext i32 %__msan.3 to i64, !nosanitize !0
  %__msan.4 = call i32 @__msan_load_origin(ptr %1, i64 %__msan.14), !nosanitize !0
  %2 = load i32, ptr %1
  %__msan.15 = zext i32 %__msan.3 to i64, !nosanitize !0
  call void @__msan_check(i64 %__msan.15, i32 32, i32 %__msan.4, i32 8, i32 0, i32 4), !nosanitize !0
  ret i32 %2
}
!0 = !{}
"#;

const STORED_UNDEFINED: &str = r#"define i32 @main() {
  %1 = alloca i32
  store i32 undef, ptr %1
  %2 = load i32, ptr %1
  ret i32 %2
}
"#;

/// Modules with and without inserted code.
static NUMBERED: [Numbered; 5] = [
    Numbered {
        text: "",
        places: &[],
        roots: &[],
        left: "",
    },
    Numbered {
        text: BRANCHING,
        places: &[(0, 0, 0), (0, 0, 1), (0, 0, 2), (0, 1, 0), (0, 2, 0)],
        roots: &[(RootKind::Alloca, 1)],
        left: BRANCHING,
    },
    Numbered {
        text: OWN_MALLOC,
        places: &[
            (0, 0, 0),
            (1, 0, 0),
            (1, 0, 1),
            (1, 0, 2),
            (1, 0, 3),
            (1, 0, 4),
        ],
        roots: &[
            (RootKind::Undef, 1),
            (RootKind::Undef, 2),
            (RootKind::Undef, 3),
            (RootKind::Realloc, 3),
            (RootKind::Undef, 4),
            (RootKind::Lifetime, 4),
            (RootKind::Undef, 5),
            (RootKind::Undef, 5),
        ],
        left: OWN_MALLOC,
    },
    Numbered {
        text: INSERTED,
        places: &[(0, 0, 0), (0, 0, 2), (0, 0, 3), (0, 1, 1), (0, 1, 2)],
        roots: &[
            (RootKind::Alloca, 1),
            (RootKind::Undef, 2),
            (RootKind::Malloc, 2),
            (RootKind::Undef, 4),
        ],
        left: STRIPPED,
    },
    Numbered {
        text: INSTRUMENTED,
        places: &[(0, 0, 2), (0, 0, 7), (0, 0, 21), (0, 0, 24)],
        roots: &[(RootKind::Alloca, 1), (RootKind::Undef, 2)],
        left: STORED_UNDEFINED,
    },
];

/// Whether a site has this place, and this place has that site.
fn is_at(m: &Module, site: u32, place: &(u32, u32, u32)) -> bool
    requires { HasSmallNumbers m.now }
{
    match place_of(m, site) {
        Some(found) => {
            let wanted = Place {
                func: place.0,
                block: place.1,
                inst: place.2,
            };
            found == wanted && site_of(m, found) == site
        }
        None => false,
    }
}

/// Whether sites, counted from 1, have these places, and no other site has one.
fn has_places(m: &Module, places: &[(u32, u32, u32)]) -> bool
    requires { HasSmallNumbers m.now }
{
    let mut site: u32 = 0;
    if place_of(m, site).is_some() {
        return false;
    }
    for place in places {
        site = site.saturating_add(1);
        if !is_at(m, site, place) {
            return false;
        }
    }
    place_of(m, site.saturating_add(1)).is_none()
}

fn is_root(root: &Root, wanted: Option<&(RootKind, u32)>) -> bool {
    match wanted {
        Some(row) => root.kind == row.0 && root.site == row.1,
        None => false,
    }
}

fn are_roots(found: &[Root], wanted: &[(RootKind, u32)]) -> bool {
    if found.len() != wanted.len() {
        return false;
    }
    for (k, root) in found.iter().enumerate() {
        if !is_root(root, wanted.get(k)) {
            return false;
        }
    }
    true
}

fn has_roots(alloc: Global, m: &Module, wanted: &[(RootKind, u32)]) -> bool
    requires { HasSmallNumbers m.now }
{
    match roots(alloc, m) {
        Ok(found) => are_roots(found.as_slice(), wanted),
        Err(_) => false,
    }
}

fn leaves(alloc: Global, m: &Module, text: &str) -> bool {
    match strip(alloc, m) {
        Ok(left) => is_written(alloc, &left, text.as_bytes()),
        Err(_) => false,
    }
}

fn is_numbered<R: Eprint>(rt: &R, alloc: Global, m: &Module, case: &Numbered) -> bool {
    if !has_small_numbers(m) {
        return false;
    }
    let got = (
        has_places(m, case.places),
        has_roots(alloc, m, case.roots),
        leaves(alloc, m, case.left),
    );
    let wanted = (
        "the places, the roots and the text that is left",
        case.places,
    );
    got == (true, true, true) || differs(rt, case.left.as_bytes(), &wanted, &got)
}

#[tactic(auto, unfolding(ms_text_grammar::specs::Texts::max_bytes))]
fn agrees<R: Eprint>(rt: &R, alloc: Global, case: &Numbered) -> bool {
    let text = case.text.as_bytes();
    if text.len() > 1 << 20 {
        return false;
    }
    match read(alloc, text, Form::Instrumented) {
        Ok(m) => is_numbered(rt, alloc, &m, case),
        Err(_) => false,
    }
}

fn all_agree<R: Eprint>(rt: &R, alloc: Global, cases: &[Numbered]) -> bool {
    for (number, case) in cases.iter().enumerate() {
        if !agrees(rt, alloc, case) {
            return fails(rt, "row", number);
        }
    }
    true
}

#[test]
fn sites_and_roots(rt: HostRuntime) -> Result<(), Fail> {
    assert!(rt; all_agree(&rt, rt.alloc(), &NUMBERED));
    Ok(())
}
