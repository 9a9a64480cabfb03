//! The calls that stand where a run traps: what `--calls` adds below the line of its end. Sites and calls were counted by hand.

use ms_top_rows::calls::{Case, OnInputs};
use ms_top_rows::told::{all_run_alike, all_told};
use std::test::Fail;

/// Calls of `check`, of which `run` says the same where the module is first written with inserted code.
static CHECKED: &[u8] = br#"# Where a run traps, the calls that stand there are told.
check --calls f~
define i32 @d(i32 %n) {
  %q = udiv i32 1, %n
  ret i32 %q
}
define i32 @c(i32 %n) {
  %q = call i32 @d(i32 %n)
  ret i32 %q
}
define i32 @b(i32 %n) {
  %q = call i32 @c(i32 %n)
  ret i32 %q
}
define i32 @a(i32 %n) {
  %q = call i32 @b(i32 %n)
  ret i32 %q
}
define i32 @main() {
  %q = call i32 @a(i32 0)
  ret i32 %q
}
~
~
end: trap zero-divisor at site 1 in @d
  called at site 3 in @c
  called at site 5 in @b
  called at site 7 in @a
  called at site 9 in @main
reports: 0
blind: 0
verdict: clean
~
3
====
# A report has its calls, and so has the trap after it.
check --reports 2 --calls f~
define i32 @d(i32 %n) {
  %c = icmp eq i32 undef, 0
  br i1 %c, label %a, label %a
a:
  %q = udiv i32 1, %n
  ret i32 %q
}
define i32 @main() {
  %q = call i32 @d(i32 0)
  ret i32 %q
}
~
~
report 1: branch at site 2 in @d, part 0, bits 0x1 of i1
  called at site 5 in @main
  origin 1: undef at site 1 in @d
end: trap zero-divisor at site 3 in @d
  called at site 5 in @main
reports: 1
blind: 0
verdict: poisoned
~
77
====
# A trap of `main` itself has no line.
check --calls f~
define i32 @main() {
  %q = udiv i32 1, 0
  ret i32 %q
}
~
~
end: trap zero-divisor at site 1 in @main
reports: 0
blind: 0
verdict: clean
~
3
====
# Where no more calls can stand, all those below the last stand: 1,023.
check --calls f~
define void @f() {
  call void @f()
  ret void
}
define i32 @main() {
  call void @f()
  ret i32 0
}
~
~
end: trap depth at site 1 in @f
  called at site 1 in @f
  called at site 1 in @f
  called at site 1 in @f
  called at site 1 in @f
  called at site 1 in @f
  called at site 1 in @f
  called at site 1 in @f
  called at site 1 in @f
  called at site 1 in @f
  called at site 1 in @f
  called at site 1 in @f
  called at site 1 in @f
  called at site 1 in @f
  called at site 1 in @f
  called at site 1 in @f
  called at site 1 in @f
  called at site 1 in @f
  called at site 1 in @f
  called at site 1 in @f
  called at site 1 in @f
  called at site 1 in @f
  called at site 1 in @f
  called at site 1 in @f
  called at site 1 in @f
  called at site 1 in @f
  called at site 1 in @f
  called at site 1 in @f
  called at site 1 in @f
  called at site 1 in @f
  called at site 1 in @f
  called at site 1 in @f
  called at site 1 in @f
  called at site 1 in @f
  called at site 1 in @f
  called at site 1 in @f
  called at site 1 in @f
  called at site 1 in @f
  called at site 1 in @f
  called at site 1 in @f
  called at site 1 in @f
  called at site 1 in @f
  called at site 1 in @f
  called at site 1 in @f
  called at site 1 in @f
  called at site 1 in @f
  called at site 1 in @f
  called at site 1 in @f
  called at site 1 in @f
  called at site 1 in @f
  called at site 1 in @f
  called at site 1 in @f
  called at site 1 in @f
  called at site 1 in @f
  called at site 1 in @f
  called at site 1 in @f
  called at site 1 in @f
  called at site 1 in @f
  called at site 1 in @f
  called at site 1 in @f
  called at site 1 in @f
  called at site 1 in @f
  called at site 1 in @f
  called at site 1 in @f
  called at site 1 in @f
  more calls: 959
reports: 0
blind: 0
verdict: clean
~
3
====
# Where the steps are spent no calls are told.
check --steps 100 --calls f~
define void @f() {
  br label %on
on:
  br label %on
}
define i32 @main() {
  call void @f()
  ret i32 0
}
~
~
end: spent
reports: 0
blind: 0
verdict: clean
~
4
====
# A call of an external is no frame: its trap stands at it.
check --calls f~
define void @d(ptr %p) {
  call void @free(ptr %p)
  ret void
}
define i32 @main() {
  %p = alloca i32
  call void @d(ptr %p)
  ret i32 0
}
declare void @free(ptr)
~
~
end: trap bad-free at site 1 in @d
  called at site 4 in @main
reports: 0
blind: 0
verdict: clean
~
3
====
# An end that is no trap has no line, wherever it comes.
check --calls f~
define void @d() {
  call void @exit(i32 3)
  unreachable
}
define i32 @main() {
  call void @d()
  ret i32 0
}
declare void @exit(i32)
~
~
end: exit 3
reports: 0
blind: 0
verdict: clean
~
0
====
"#;

static CASES: &[u8] = br#"# `run` tells them too.
run --calls f~
define i32 @d(i32 %n) {
  %q = udiv i32 1, %n
  ret i32 %q
}
define i32 @c(i32 %n) {
  %q = call i32 @d(i32 %n)
  ret i32 %q
}
define i32 @b(i32 %n) {
  %q = call i32 @c(i32 %n)
  ret i32 %q
}
define i32 @a(i32 %n) {
  %q = call i32 @b(i32 %n)
  ret i32 %q
}
define i32 @main() {
  %q = call i32 @a(i32 0)
  ret i32 %q
}
~
~
end: trap zero-divisor at site 1 in @d
  called at site 3 in @c
  called at site 5 in @b
  called at site 7 in @a
  called at site 9 in @main
reports: 0
blind: 0
~
3
====
# With places each line of a trap's calls has its own.
check --where --calls f~
define i32 @d(i32 %n) {
  %q = udiv i32 1, %n
  ret i32 %q
}
define i32 @main() {
  %q = call i32 @d(i32 0)
  ret i32 %q
}
~
~
end: trap zero-divisor at site 1 in @d
    f:2: %q = udiv i32 1, %n
  called at site 3 in @main
    f:6: %q = call i32 @d(i32 0)
reports: 0
blind: 0
verdict: clean
~
3
====
# So it is in a text with inserted code.
run --calls f~
define i32 @d(i32 %n) {
  call void @__msan_blind(i64 1), !nosanitize !0
  %q = udiv i32 1, %n
  ret i32 %q
}
define i32 @main() {
  %q = call i32 @d(i32 0)
  ret i32 %q
}
declare void @__msan_blind(i64)
~
~
end: trap zero-divisor at site 1 in @d
  called at site 3 in @main
reports: 0
blind: 1
~
3
====
"#;

static SECTIONS: &[u8] = br#"# Each section has the calls of its trap.
corpus --calls f a b~
define i32 @d(i32 %n) {
  %q = udiv i32 1, %n
  ret i32 %q
}
define i32 @c(i32 %n) {
  %q = call i32 @d(i32 %n)
  ret i32 %q
}
define i32 @b(i32 %n) {
  %q = call i32 @c(i32 %n)
  ret i32 %q
}
define i32 @a(i32 %n) {
  %q = call i32 @b(i32 %n)
  ret i32 %q
}
define i32 @main() {
  %q = call i32 @a(i32 0)
  ret i32 %q
}
~
input 1, 0 bytes: a

end: trap zero-divisor at site 1 in @d
  called at site 3 in @c
  called at site 5 in @b
  called at site 7 in @a
  called at site 9 in @main
reports: 0
blind: 0
verdict: clean
input 2, 0 bytes: b

end: trap zero-divisor at site 1 in @d
  called at site 3 in @c
  called at site 5 in @b
  called at site 7 in @a
  called at site 9 in @main
reports: 0
blind: 0
verdict: clean
~
~
3
====
"#;

#[test]
fn calls_stand_at_traps(rt: HostRuntime) -> Result<(), Fail> {
    assert!(rt; all_told::<_, Case>(&rt, rt.alloc(), &[CHECKED, CASES]));
    Ok(())
}

#[test]
fn written_modules_end_in_the_same_calls(rt: HostRuntime) -> Result<(), Fail> {
    assert!(rt; all_run_alike(&rt, rt.alloc(), &[CHECKED]));
    Ok(())
}

#[test]
fn sections_end_in_calls(rt: HostRuntime) -> Result<(), Fail> {
    assert!(rt; all_told::<_, OnInputs>(&rt, rt.alloc(), &[SECTIONS]));
    Ok(())
}
