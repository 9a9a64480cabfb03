//! Reports of which each use has one: what `--once` leaves out. A use is a site, a kind and a part. Reports were counted by hand.

use ms_top_rows::calls::{Case, OnInputs};
use ms_top_rows::told::{all_run_alike, all_told};
use std::test::Fail;

/// Calls of `check`, of which `run` says the same where the module is first written with inserted code.
static CHECKED: &[u8] =
    br#"# A use in a loop is reported in its first round alone; another one after the loop is reported too.
check --once --reports 9 f~
define i32 @main() {
  br label %loop
loop:
  %i = phi i32 [ 0, %0 ], [ %j, %on ]
  %c = icmp eq i32 undef, 7
  br i1 %c, label %on, label %on
on:
  %j = add i32 %i, 1
  %e = icmp ult i32 %j, 3
  br i1 %e, label %loop, label %out
out:
  ret i32 undef
}
~
~
report 1: branch at site 4 in @main, part 0, bits 0x1 of i1
  origin 1: undef at site 3 in @main
report 2: exit at site 8 in @main, part 0, bits 0xffffffff of i32
  origin 2: undef at site 8 in @main
end: exit 2779096485
reports: 2
blind: 0
verdict: poisoned
~
77
====
# The same without the option: each round has its report.
check --reports 9 f~
define i32 @main() {
  br label %loop
loop:
  %i = phi i32 [ 0, %0 ], [ %j, %on ]
  %c = icmp eq i32 undef, 7
  br i1 %c, label %on, label %on
on:
  %j = add i32 %i, 1
  %e = icmp ult i32 %j, 3
  br i1 %e, label %loop, label %out
out:
  ret i32 undef
}
~
~
report 1: branch at site 4 in @main, part 0, bits 0x1 of i1
  origin 1: undef at site 3 in @main
report 2: branch at site 4 in @main, part 0, bits 0x1 of i1
  origin 1: undef at site 3 in @main
report 3: branch at site 4 in @main, part 0, bits 0x1 of i1
  origin 1: undef at site 3 in @main
report 4: exit at site 8 in @main, part 0, bits 0xffffffff of i32
  origin 2: undef at site 8 in @main
end: exit 2779096485
reports: 4
blind: 0
verdict: poisoned
~
77
====
# What it hides doesn't count for the limit: the second report is that after the loop.
check --once --reports 2 f~
define i32 @main() {
  br label %loop
loop:
  %i = phi i32 [ 0, %0 ], [ %j, %on ]
  %c = icmp eq i32 undef, 7
  br i1 %c, label %on, label %on
on:
  %j = add i32 %i, 1
  %e = icmp ult i32 %j, 3
  br i1 %e, label %loop, label %out
out:
  ret i32 undef
}
~
~
report 1: branch at site 4 in @main, part 0, bits 0x1 of i1
  origin 1: undef at site 3 in @main
report 2: exit at site 8 in @main, part 0, bits 0xffffffff of i32
  origin 2: undef at site 8 in @main
end: reported
reports: 2
blind: 0
verdict: poisoned
~
77
====
# Without `--reports` a run ends at its first report, as it does without this option.
check --once f~
define i32 @main() {
  br label %loop
loop:
  %i = phi i32 [ 0, %0 ], [ %j, %on ]
  %c = icmp eq i32 undef, 7
  br i1 %c, label %on, label %on
on:
  %j = add i32 %i, 1
  %e = icmp ult i32 %j, 3
  br i1 %e, label %loop, label %out
out:
  ret i32 undef
}
~
~
report 1: branch at site 4 in @main, part 0, bits 0x1 of i1
  origin 1: undef at site 3 in @main
end: reported
reports: 1
blind: 0
verdict: poisoned
~
77
====
# Two arguments of one call are two uses, of one kind.
check --once --reports 9 f~
define i32 @main() {
  br label %loop
loop:
  %i = phi i32 [ 0, %0 ], [ %j, %loop ]
  %p = call ptr @calloc(i64 undef, i64 undef)
  %j = add i32 %i, 1
  %e = icmp ult i32 %j, 3
  br i1 %e, label %loop, label %out
out:
  ret i32 0
}
declare ptr @calloc(i64, i64)
~
~
report 1: size at site 3 in @main, part 0, bits 0xffffffffffffffff of i64
  origin 1: undef at site 3 in @main
report 2: size at site 3 in @main, part 1, bits 0xffffffffffffffff of i64
  origin 2: undef at site 3 in @main
end: exit 0
reports: 2
blind: 0
verdict: poisoned
~
77
====
# Two kinds of bytes of one call are two uses, of one part.
check --once --reports 9 f~
define i32 @main() {
  %p = alloca i8
  %q = alloca i8
  br label %loop
loop:
  %i = phi i32 [ 0, %0 ], [ %j, %loop ]
  %r = call i32 @memcmp(ptr %p, ptr %q, i64 1)
  %j = add i32 %i, 1
  %e = icmp ult i32 %j, 3
  br i1 %e, label %loop, label %out
out:
  ret i32 0
}
declare i32 @memcmp(ptr, ptr, i64)
~
~
report 1: first-bytes at site 5 in @main, part 0, bits 0xff of i8
  origin 1: alloca at site 1 in @main
report 2: second-bytes at site 5 in @main, part 0, bits 0xff of i8
  origin 2: alloca at site 2 in @main
end: exit 0
reports: 2
blind: 0
verdict: poisoned
~
77
====
# Two branches are two uses, of one kind and part.
check --once --reports 9 f~
define i32 @main() {
  br label %loop
loop:
  %i = phi i32 [ 0, %0 ], [ %j, %b ]
  br i1 undef, label %a, label %a
a:
  br i1 undef, label %b, label %b
b:
  %j = add i32 %i, 1
  %e = icmp ult i32 %j, 3
  br i1 %e, label %loop, label %out
out:
  ret i32 0
}
~
~
report 1: branch at site 3 in @main, part 0, bits 0x1 of i1
  origin 1: undef at site 3 in @main
report 2: branch at site 4 in @main, part 0, bits 0x1 of i1
  origin 2: undef at site 4 in @main
end: exit 0
reports: 2
blind: 0
verdict: poisoned
~
77
====
# Other bits, or another origin of them, make no other use.
check --once --reports 9 f~
define void @check(i32 %n) {
  switch i32 %n, label %x [
    i32 1, label %x
  ]
x:
  ret void
}
define i32 @main() {
  %a = and i32 undef, 15
  call void @check(i32 %a)
  call void @check(i32 undef)
  ret i32 0
}
~
~
report 1: switch at site 1 in @check, part 0, bits 0xf of i32
  origin 1: undef at site 3 in @main
end: exit 0
reports: 1
blind: 0
verdict: poisoned
~
77
====
# Each report has the calls that stood at it; nothing is told of those at what is hidden.
check --once --calls --reports 9 f~
define void @g(i1 %b) {
  br i1 %b, label %x, label %x
x:
  ret void
}
define void @h(i1 %b) {
  call void @g(i1 %b)
  br i1 %b, label %x, label %x
x:
  ret void
}
define i32 @main() {
  call void @g(i1 undef)
  call void @g(i1 undef)
  call void @h(i1 undef)
  call void @h(i1 undef)
  ret i32 0
}
~
~
report 1: branch at site 1 in @g, part 0, bits 0x1 of i1
  called at site 6 in @main
  origin 1: undef at site 6 in @main
report 2: branch at site 4 in @h, part 0, bits 0x1 of i1
  called at site 8 in @main
  origin 3: undef at site 8 in @main
end: exit 0
reports: 2
blind: 0
verdict: poisoned
~
77
====
# With threads a use is one too, whichever thread makes it.
check --once --reports 9 f~
declare i32 @pthread_create(ptr, ptr, ptr, ptr)
declare i32 @pthread_join(i64, ptr)
define void @use(i32 %x) {
  %c = icmp eq i32 %x, 0
  br i1 %c, label %a, label %a
a:
  ret void
}
define ptr @work(ptr %p) {
  call void @use(i32 undef)
  ret ptr null
}
define i32 @main() {
  %id = alloca i64
  %c = call i32 @pthread_create(ptr %id, ptr null, ptr @work, ptr null)
  %t = load i64, ptr %id
  %j = call i32 @pthread_join(i64 %t, ptr null)
  call void @use(i32 undef)
  ret i32 undef
}
~
~
report 1: branch at site 2 in @use, part 0, bits 0x1 of i1
  origin 1: undef at site 4 in @work
report 2: exit at site 11 in @main, part 0, bits 0xffffffff of i32
  origin 4: undef at site 11 in @main
end: exit 2779096485
reports: 2
blind: 0
verdict: poisoned
~
77
====
# A run without a use says what it says without the option.
check --once f~
define i32 @main() {
  ret i32 3
}
~
~
end: exit 3
reports: 0
blind: 0
verdict: clean
~
0
====
"#;

static CASES: &[u8] = br#"# So it is where inserted code reports.
run --once --reports 2 f~
define i32 @main() {
  br label %loop
loop:
  %i = phi i32 [ 0, %0 ], [ %j, %on ]
  call void @__msan_check(i64 1, i32 1, i32 1, i32 1, i32 0, i32 3), !nosanitize !0
  br i1 undef, label %on, label %on
on:
  %j = add i32 %i, 1
  %e = icmp ult i32 %j, 3
  br i1 %e, label %loop, label %out
out:
  call void @__msan_check(i64 4294967295, i32 32, i32 2, i32 8, i32 0, i32 7), !nosanitize !0
  ret i32 undef
}
declare void @__msan_check(i64, i32, i32, i32, i32, i32)
~
~
report 1: branch at site 3 in @main, part 0, bits 0x1 of i1
  origin 1: undef at site 3 in @main
report 2: exit at site 7 in @main, part 0, bits 0xffffffff of i32
  origin 2: undef at site 7 in @main
end: reported
reports: 2
blind: 0
~
77
====
# Inserted code may give any site, kind and part: each pair here differs in one of them.
run --once --reports 9 f~
define i32 @main() {
  call void @__msan_check(i64 1, i32 64, i32 0, i32 7, i32 0, i32 1), !nosanitize !0
  call void @__msan_check(i64 1, i32 64, i32 0, i32 7, i32 0, i32 2), !nosanitize !0
  call void @__msan_check(i64 1, i32 64, i32 0, i32 7, i32 1, i32 1), !nosanitize !0
  call void @__msan_check(i64 1, i32 64, i32 0, i32 6, i32 0, i32 1), !nosanitize !0
  call void @__msan_check(i64 2, i32 8, i32 0, i32 7, i32 0, i32 1), !nosanitize !0
  %a = add i32 1, 2
  ret i32 %a
}
declare void @__msan_check(i64, i32, i32, i32, i32, i32)
~
~
report 1: value at site 1 in @main, part 0, bits 0x1 of i64
  origin 0: unknown
report 2: value at site 2 in @main, part 0, bits 0x1 of i64
  origin 0: unknown
report 3: value at site 1 in @main, part 1, bits 0x1 of i64
  origin 0: unknown
report 4: pointer at site 1 in @main, part 0, bits 0x1 of i64
  origin 0: unknown
end: exit 3
reports: 4
blind: 0
~
77
====
# Where schedules are tried, in the run that is told.
check --schedules 1 --once --reports 9 f~
define i32 @main() {
  br label %loop
loop:
  %i = phi i32 [ 0, %0 ], [ %j, %on ]
  br i1 undef, label %on, label %on
on:
  %j = add i32 %i, 1
  %e = icmp ult i32 %j, 3
  br i1 %e, label %loop, label %out
out:
  ret i32 0
}
~
~
report 1: branch at site 3 in @main, part 0, bits 0x1 of i1
  origin 1: undef at site 3 in @main
end: exit 0
reports: 1
blind: 0
verdict: poisoned
schedules: 1, all
outcomes: 1
schedule: 00
~
77
====
"#;

static SECTIONS: &[u8] =
    br#"# Each run has its own reports: what one of them reported is no earlier report of another.
corpus --once --reports 9 f a b~
define i32 @main() {
  br label %loop
loop:
  %i = phi i32 [ 0, %0 ], [ %j, %on ]
  br i1 undef, label %on, label %on
on:
  %j = add i32 %i, 1
  %e = icmp ult i32 %j, 3
  br i1 %e, label %loop, label %out
out:
  ret i32 undef
}
~
input 1, 0 bytes: a

report 1: branch at site 3 in @main, part 0, bits 0x1 of i1
  origin 1: undef at site 3 in @main
report 2: exit at site 7 in @main, part 0, bits 0xffffffff of i32
  origin 2: undef at site 7 in @main
end: exit 2779096485
reports: 2
blind: 0
verdict: poisoned
input 2, 0 bytes: b

report 1: branch at site 3 in @main, part 0, bits 0x1 of i1
  origin 1: undef at site 3 in @main
report 2: exit at site 7 in @main, part 0, bits 0xffffffff of i32
  origin 2: undef at site 7 in @main
end: exit 2779096485
reports: 2
blind: 0
verdict: poisoned
~
~
77
====
# With one worker, two parts of one call, and a limit.
corpus --workers 1 --once --reports 2 f a~
define i32 @main() {
  br label %loop
loop:
  %i = phi i32 [ 0, %0 ], [ %j, %loop ]
  %k = add i32 %i, 1
  %p = call ptr @calloc(i64 undef, i64 8)
  %j = add i32 %k, 1
  %e = icmp ult i32 %j, 9
  br i1 %e, label %loop, label %out
out:
  %q = call ptr @calloc(i64 8, i64 undef)
  ret i32 0
}
declare ptr @calloc(i64, i64)
~
input 1, 0 bytes: a

report 1: size at site 4 in @main, part 0, bits 0xffffffffffffffff of i64
  origin 1: undef at site 4 in @main
report 2: size at site 8 in @main, part 1, bits 0xffffffffffffffff of i64
  origin 2: undef at site 8 in @main
end: reported
reports: 2
blind: 0
verdict: poisoned
~
~
77
====
"#;

#[test]
fn each_use_is_reported_once(rt: HostRuntime) -> Result<(), Fail> {
    assert!(rt; all_told::<_, Case>(&rt, rt.alloc(), &[CHECKED, CASES]));
    Ok(())
}

#[test]
fn written_modules_report_each_use_once(rt: HostRuntime) -> Result<(), Fail> {
    assert!(rt; all_run_alike(&rt, rt.alloc(), &[CHECKED]));
    Ok(())
}

#[test]
fn each_section_reports_its_uses(rt: HostRuntime) -> Result<(), Fail> {
    assert!(rt; all_told::<_, OnInputs>(&rt, rt.alloc(), &[SECTIONS]));
    Ok(())
}
