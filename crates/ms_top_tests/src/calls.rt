//! The calls that stand at a report: what `--calls` adds below it. Sites and calls were counted by hand.

use ms_top_rows::calls::{Case, OnInputs};
use ms_top_rows::told::{all_run_alike, all_told};
use std::test::Fail;

/// Calls of `check`, of which `run` says the same where the module is first written with inserted code.
static CHECKED: &[u8] = br#"# Three calls stand, two of them of one site.
check --calls f~
define i32 @f(i32 %n) {
  %c = icmp eq i32 %n, 0
  br i1 %c, label %base, label %more
base:
  %b = icmp eq i32 undef, 0
  br i1 %b, label %yes, label %no
yes:
  ret i32 1
no:
  ret i32 0
more:
  %m = sub i32 %n, 1
  %r = call i32 @f(i32 %m)
  ret i32 %r
}
define i32 @main() {
  %r = call i32 @f(i32 2)
  ret i32 %r
}
~
~
report 1: branch at site 4 in @f, part 0, bits 0x1 of i1
  called at site 8 in @f
  called at site 8 in @f
  called at site 10 in @main
  origin 1: undef at site 3 in @f
end: reported
reports: 1
blind: 0
verdict: poisoned
~
77
====
# The same without the option.
check f~
define i32 @f(i32 %n) {
  %c = icmp eq i32 %n, 0
  br i1 %c, label %base, label %more
base:
  %b = icmp eq i32 undef, 0
  br i1 %b, label %yes, label %no
yes:
  ret i32 1
no:
  ret i32 0
more:
  %m = sub i32 %n, 1
  %r = call i32 @f(i32 %m)
  ret i32 %r
}
define i32 @main() {
  %r = call i32 @f(i32 2)
  ret i32 %r
}
~
~
report 1: branch at site 4 in @f, part 0, bits 0x1 of i1
  origin 1: undef at site 3 in @f
end: reported
reports: 1
blind: 0
verdict: poisoned
~
77
====
# One call stands, and none but that: of the calls before, all but it have returned.
check --calls f~
define i32 @f(i32 %n) {
  %c = icmp eq i32 %n, 0
  br i1 %c, label %base, label %more
base:
  %b = icmp eq i32 undef, 0
  br i1 %b, label %yes, label %no
yes:
  ret i32 1
no:
  ret i32 0
more:
  %m = sub i32 %n, 1
  %r = call i32 @f(i32 %m)
  ret i32 %r
}
define i32 @main() {
  %r = call i32 @g(i32 1)
  %s = call i32 @f(i32 0)
  ret i32 %s
}
define i32 @g(i32 %n) {
  %r = add i32 %n, 1
  ret i32 %r
}
~
~
report 1: branch at site 4 in @f, part 0, bits 0x1 of i1
  called at site 11 in @main
  origin 1: undef at site 3 in @f
end: reported
reports: 1
blind: 0
verdict: poisoned
~
77
====
# At most 64 calls are printed, and how many more there are.
check --calls f~
define i32 @f(i32 %n) {
  %c = icmp eq i32 %n, 0
  br i1 %c, label %base, label %more
base:
  %b = icmp eq i32 undef, 0
  br i1 %b, label %yes, label %no
yes:
  ret i32 1
no:
  ret i32 0
more:
  %m = sub i32 %n, 1
  %r = call i32 @f(i32 %m)
  ret i32 %r
}
define i32 @main() {
  %r = call i32 @f(i32 69)
  ret i32 %r
}
~
~
report 1: branch at site 4 in @f, part 0, bits 0x1 of i1
  called at site 8 in @f
  called at site 8 in @f
  called at site 8 in @f
  called at site 8 in @f
  called at site 8 in @f
  called at site 8 in @f
  called at site 8 in @f
  called at site 8 in @f
  called at site 8 in @f
  called at site 8 in @f
  called at site 8 in @f
  called at site 8 in @f
  called at site 8 in @f
  called at site 8 in @f
  called at site 8 in @f
  called at site 8 in @f
  called at site 8 in @f
  called at site 8 in @f
  called at site 8 in @f
  called at site 8 in @f
  called at site 8 in @f
  called at site 8 in @f
  called at site 8 in @f
  called at site 8 in @f
  called at site 8 in @f
  called at site 8 in @f
  called at site 8 in @f
  called at site 8 in @f
  called at site 8 in @f
  called at site 8 in @f
  called at site 8 in @f
  called at site 8 in @f
  called at site 8 in @f
  called at site 8 in @f
  called at site 8 in @f
  called at site 8 in @f
  called at site 8 in @f
  called at site 8 in @f
  called at site 8 in @f
  called at site 8 in @f
  called at site 8 in @f
  called at site 8 in @f
  called at site 8 in @f
  called at site 8 in @f
  called at site 8 in @f
  called at site 8 in @f
  called at site 8 in @f
  called at site 8 in @f
  called at site 8 in @f
  called at site 8 in @f
  called at site 8 in @f
  called at site 8 in @f
  called at site 8 in @f
  called at site 8 in @f
  called at site 8 in @f
  called at site 8 in @f
  called at site 8 in @f
  called at site 8 in @f
  called at site 8 in @f
  called at site 8 in @f
  called at site 8 in @f
  called at site 8 in @f
  called at site 8 in @f
  called at site 8 in @f
  more calls: 6
  origin 1: undef at site 3 in @f
end: reported
reports: 1
blind: 0
verdict: poisoned
~
77
====
# 64 calls stand, and no more.
check --calls f~
define i32 @f(i32 %n) {
  %c = icmp eq i32 %n, 0
  br i1 %c, label %base, label %more
base:
  %b = icmp eq i32 undef, 0
  br i1 %b, label %yes, label %no
yes:
  ret i32 1
no:
  ret i32 0
more:
  %m = sub i32 %n, 1
  %r = call i32 @f(i32 %m)
  ret i32 %r
}
define i32 @main() {
  %r = call i32 @f(i32 63)
  ret i32 %r
}
~
~
report 1: branch at site 4 in @f, part 0, bits 0x1 of i1
  called at site 8 in @f
  called at site 8 in @f
  called at site 8 in @f
  called at site 8 in @f
  called at site 8 in @f
  called at site 8 in @f
  called at site 8 in @f
  called at site 8 in @f
  called at site 8 in @f
  called at site 8 in @f
  called at site 8 in @f
  called at site 8 in @f
  called at site 8 in @f
  called at site 8 in @f
  called at site 8 in @f
  called at site 8 in @f
  called at site 8 in @f
  called at site 8 in @f
  called at site 8 in @f
  called at site 8 in @f
  called at site 8 in @f
  called at site 8 in @f
  called at site 8 in @f
  called at site 8 in @f
  called at site 8 in @f
  called at site 8 in @f
  called at site 8 in @f
  called at site 8 in @f
  called at site 8 in @f
  called at site 8 in @f
  called at site 8 in @f
  called at site 8 in @f
  called at site 8 in @f
  called at site 8 in @f
  called at site 8 in @f
  called at site 8 in @f
  called at site 8 in @f
  called at site 8 in @f
  called at site 8 in @f
  called at site 8 in @f
  called at site 8 in @f
  called at site 8 in @f
  called at site 8 in @f
  called at site 8 in @f
  called at site 8 in @f
  called at site 8 in @f
  called at site 8 in @f
  called at site 8 in @f
  called at site 8 in @f
  called at site 8 in @f
  called at site 8 in @f
  called at site 8 in @f
  called at site 8 in @f
  called at site 8 in @f
  called at site 8 in @f
  called at site 8 in @f
  called at site 8 in @f
  called at site 8 in @f
  called at site 8 in @f
  called at site 8 in @f
  called at site 8 in @f
  called at site 8 in @f
  called at site 8 in @f
  called at site 10 in @main
  origin 1: undef at site 3 in @f
end: reported
reports: 1
blind: 0
verdict: poisoned
~
77
====
# In the second round and the third the use is what the first one had beside it.
check --reports 9 --calls f~
define void @g(i1 %b) {
  br i1 %b, label %x, label %x
x:
  ret void
}
define i32 @main() {
  br label %loop
loop:
  %i = phi i32 [ 0, %0 ], [ %j, %loop ]
  %b = phi i1 [ false, %0 ], [ %d, %loop ]
  %d = phi i1 [ undef, %0 ], [ %d, %loop ]
  call void @g(i1 %b)
  %j = add i32 %i, 1
  %e = icmp ult i32 %j, 3
  br i1 %e, label %loop, label %out
out:
  ret i32 0
}
~
~
report 1: branch at site 1 in @g, part 0, bits 0x1 of i1
  called at site 7 in @main
  origin 1: undef at site 6 in @main
report 2: branch at site 1 in @g, part 0, bits 0x1 of i1
  called at site 7 in @main
  origin 1: undef at site 6 in @main
end: exit 0
reports: 2
blind: 0
verdict: poisoned
~
77
====
# Each report has the calls that stand at it: a helper is called from three places.
check --calls --reports 3 f~
define void @g(i1 %b) {
  br i1 %b, label %x, label %x
x:
  ret void
}
define void @h(i1 %b) {
  call void @g(i1 %b)
  ret void
}
define i32 @main() {
  call void @g(i1 undef)
  call void @h(i1 undef)
  call void @g(i1 undef)
  ret i32 0
}
~
~
report 1: branch at site 1 in @g, part 0, bits 0x1 of i1
  called at site 5 in @main
  origin 1: undef at site 5 in @main
report 2: branch at site 1 in @g, part 0, bits 0x1 of i1
  called at site 3 in @h
  called at site 6 in @main
  origin 2: undef at site 6 in @main
report 3: branch at site 1 in @g, part 0, bits 0x1 of i1
  called at site 7 in @main
  origin 3: undef at site 7 in @main
end: reported
reports: 3
blind: 0
verdict: poisoned
~
77
====
# A report of `main` itself has no line.
check --calls f~
define i32 @main() {
  ret i32 undef
}
~
~
report 1: exit at site 1 in @main, part 0, bits 0xffffffff of i32
  origin 1: undef at site 1 in @main
end: reported
reports: 1
blind: 0
verdict: poisoned
~
77
====
# An external that is called is no frame: it reports at its call.
check --calls f~
@fmt = private constant [3 x i8] c"%s\00"
declare i32 @printf(ptr, ...)
define void @show(ptr %p) {
  %r = call i32 (ptr, ...) @printf(ptr @fmt, ptr %p)
  ret void
}
define i32 @main() {
  %v = alloca [4 x i8]
  call void @show(ptr %v)
  ret i32 0
}
~
~
report 1: string at site 1 in @show, part 0, bits 0xff of i8
  called at site 4 in @main
  origin 1: alloca at site 3 in @main
end: reported
reports: 1
blind: 0
verdict: poisoned
~
77
====
# No report and no trap, no line.
check --calls f~
define i32 @use(i32 %0) {
  %2 = icmp eq i32 %0, 0
  br i1 %2, label %3, label %4
3:
  ret i32 1
4:
  ret i32 0
}
define i32 @main() {
  %1 = alloca i32
  store i32 0, ptr %1
  %2 = load i32, ptr %1
  %3 = call i32 @use(i32 %2)
  ret i32 %3
}
~
~
end: exit 1
reports: 0
blind: 0
verdict: clean
~
0
====
"#;

static CASES: &[u8] = br#"# With places each of these lines has its own.
check --where --calls f~
@fmt = private constant [3 x i8] c"%s\00"
declare i32 @printf(ptr, ...)
define void @show(ptr %p) {
  %r = call i32 (ptr, ...) @printf(ptr @fmt, ptr %p)
  ret void
}
define i32 @main() {
  %v = alloca [4 x i8]
  call void @show(ptr %v)
  ret i32 0
}
~
~
report 1: string at site 1 in @show, part 0, bits 0xff of i8
    f:4: %r = call i32 (ptr, ...) @printf(ptr @fmt, ptr %p)
  called at site 4 in @main
    f:9: call void @show(ptr %v)
  origin 1: alloca at site 3 in @main
    f:8: %v = alloca [4 x i8]
end: reported
reports: 1
blind: 0
verdict: poisoned
~
77
====
# `run` tells them of what was written by hand.
run --calls f~
define void @show(ptr %0) {
  call void @__msan_check_string(ptr %0, i32 1), !nosanitize !0
  ret void
}
define i32 @main() {
  %1 = alloca i32
  call void @__msan_poison(ptr %1, i64 0, i64 4, i32 1), !nosanitize !0
  call void @show(ptr %1)
  ret i32 0
}
declare void @__msan_check_string(ptr, i32)
declare void @__msan_poison(ptr, i64, i64, i32)
~
~
report 1: string at site 1 in @show, part 0, bits 0xff of i8
  called at site 3 in @main
  origin 1: alloca at site 2 in @main
end: reported
reports: 1
blind: 0
~
77
====
# What isn't valid is refused as without the option.
check --calls f~
define i32 @main() {
  ret i64 0
}
~
~
refused 11: type at site 1, operand 0
~
5
====
# So it is where inserted code reports.
run --calls --reports 3 f~
define void @g(i1 %b) {
  call void @__msan_check(i64 1, i32 1, i32 1, i32 1, i32 0, i32 1), !nosanitize !0
  br i1 %b, label %x, label %x
x:
  ret void
}
define void @h(i1 %b) {
  call void @g(i1 %b)
  ret void
}
define i32 @main() {
  call void @g(i1 undef)
  call void @h(i1 true)
  call void @g(i1 true)
  ret i32 0
}
declare void @__msan_check(i64, i32, i32, i32, i32, i32)
~
~
report 1: branch at site 1 in @g, part 0, bits 0x1 of i1
  called at site 5 in @main
  origin 1: undef at site 5 in @main
report 2: branch at site 1 in @g, part 0, bits 0x1 of i1
  called at site 3 in @h
  called at site 6 in @main
  origin 1: undef at site 5 in @main
report 3: branch at site 1 in @g, part 0, bits 0x1 of i1
  called at site 7 in @main
  origin 1: undef at site 5 in @main
end: reported
reports: 3
blind: 0
~
77
====
"#;

static SECTIONS: &[u8] = br#"# Each section has the calls of its reports.
corpus --calls f a b~
define i32 @use(i32 %0) {
  %2 = icmp eq i32 %0, 0
  br i1 %2, label %3, label %4
3:
  ret i32 1
4:
  ret i32 0
}
define i32 @main() {
  %1 = alloca i32
  %2 = load i32, ptr %1
  %3 = call i32 @use(i32 %2)
  ret i32 %3
}
~
input 1, 0 bytes: a

report 1: branch at site 2 in @use, part 0, bits 0x1 of i1
  called at site 7 in @main
  origin 1: alloca at site 5 in @main
end: reported
reports: 1
blind: 0
verdict: poisoned
input 2, 0 bytes: b

report 1: branch at site 2 in @use, part 0, bits 0x1 of i1
  called at site 7 in @main
  origin 1: alloca at site 5 in @main
end: reported
reports: 1
blind: 0
verdict: poisoned
~
~
77
====
# Of a recursion, and of a string that an external reads in a helper.
corpus --calls --reports 2 f a~
@fmt = private constant [3 x i8] c"%s\00"
declare i32 @printf(ptr, ...)
define void @show(ptr %p, i32 %n) {
  %c = icmp eq i32 %n, 0
  br i1 %c, label %base, label %more
base:
  %r = call i32 (ptr, ...) @printf(ptr @fmt, ptr %p)
  ret void
more:
  %m = sub i32 %n, 1
  call void @show(ptr %p, i32 %m)
  ret void
}
define i32 @main() {
  %v = alloca [4 x i8]
  call void @show(ptr %v, i32 2)
  ret i32 0
}
~
input 1, 0 bytes: a

report 1: string at site 3 in @show, part 0, bits 0xff of i8
  called at site 6 in @show
  called at site 6 in @show
  called at site 9 in @main
  origin 1: alloca at site 8 in @main
end: trap bad-address at site 3 in @show
  called at site 6 in @show
  called at site 6 in @show
  called at site 9 in @main
reports: 1
blind: 0
verdict: poisoned
~
~
77
====
"#;

#[test]
fn calls_stand_at_reports(rt: HostRuntime) -> Result<(), Fail> {
    assert!(rt; all_told::<_, Case>(&rt, rt.alloc(), &[CHECKED, CASES]));
    Ok(())
}

#[test]
fn written_modules_have_the_same_calls(rt: HostRuntime) -> Result<(), Fail> {
    assert!(rt; all_run_alike(&rt, rt.alloc(), &[CHECKED]));
    Ok(())
}

#[test]
fn sections_have_calls(rt: HostRuntime) -> Result<(), Fail> {
    assert!(rt; all_told::<_, OnInputs>(&rt, rt.alloc(), &[SECTIONS]));
    Ok(())
}
