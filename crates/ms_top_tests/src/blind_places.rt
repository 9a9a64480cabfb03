//! The places of blind uses: what `--where` adds after the closing lines. Sites, lines and uses were counted by hand.

use ms_top_rows::calls::{Case, OnInputs};
use ms_top_rows::told::all_told;
use std::test::Fail;

static CASES: &[u8] = br#"# A division in a helper, which is called three times.
check --where f~
define i32 @scale(i32 %n) {
  %q = udiv i32 %n, 10
  ret i32 %q
}
define i32 @main() {
  %v = alloca i32
  %x = load i32, ptr %v
  %a = call i32 @scale(i32 %x)
  %b = call i32 @scale(i32 %x)
  %c = call i32 @scale(i32 %x)
  ret i32 0
}
~
~
end: exit 0
reports: 0
blind: 3
verdict: unsure
    blind at site 1 in @scale, 3 times
    f:2: %q = udiv i32 %n, 10
~
0
====
# Without the option there is no such line.
check f~
define i32 @scale(i32 %n) {
  %q = udiv i32 %n, 10
  ret i32 %q
}
define i32 @main() {
  %v = alloca i32
  %x = load i32, ptr %v
  %a = call i32 @scale(i32 %x)
  %b = call i32 @scale(i32 %x)
  %c = call i32 @scale(i32 %x)
  ret i32 0
}
~
~
end: exit 0
reports: 0
blind: 3
verdict: unsure
~
0
====
# `--calls` alone tells of none.
check --calls f~
define i32 @scale(i32 %n) {
  %q = udiv i32 %n, 10
  ret i32 %q
}
define i32 @main() {
  %v = alloca i32
  %x = load i32, ptr %v
  %a = call i32 @scale(i32 %x)
  ret i32 0
}
~
~
end: exit 0
reports: 0
blind: 1
verdict: unsure
~
0
====
# `explain` has them after its closing lines.
explain --where f~
define i32 @scale(i32 %n) {
  %q = udiv i32 %n, 10
  ret i32 %q
}
define i32 @main() {
  %v = alloca i32
  %x = load i32, ptr %v
  %a = call i32 @scale(i32 %x)
  %b = call i32 @scale(i32 %x)
  ret i32 0
}
~
no report
~
end: exit 0
reports: 0
blind: 2
verdict: unsure
    blind at site 1 in @scale, 2 times
    f:2: %q = udiv i32 %n, 10
~
0
====
# The place that was used first comes first, wherever it stands.
check --where f~
define i32 @a(i32 %n) {
  %q = udiv i32 %n, 10
  ret i32 %q
}
define i32 @b(i32 %n) {
  %q = freeze i32 %n
  ret i32 %q
}
define i32 @main() {
  %x = call i32 @b(i32 undef)
  %y = call i32 @a(i32 undef)
  %z = call i32 @b(i32 undef)
  %f = shl i32 1, undef
  ret i32 0
}
~
~
end: trap shift at site 8 in @main
    f:13: %f = shl i32 1, undef
reports: 0
blind: 4
verdict: unsure
    blind at site 3 in @b, 2 times
    f:6: %q = freeze i32 %n
    blind at site 1 in @a, once
    f:2: %q = udiv i32 %n, 10
    blind at site 8 in @main, once
    f:13: %f = shl i32 1, undef
~
3
====
# A use that ends the run by a report comes before the blind one of its instruction.
check --where f~
define i32 @main() {
  %q = udiv i32 undef, undef
  ret i32 0
}
~
~
report 1: divisor at site 1 in @main, part 1, bits 0xffffffff of i32
    f:2: %q = udiv i32 undef, undef
  origin 2: undef at site 1 in @main
    f:2: %q = udiv i32 undef, undef
end: reported
reports: 1
blind: 0
verdict: poisoned
~
77
====
# Where the run goes on, both are counted.
check --where --reports 2 f~
define i32 @main() {
  %q = udiv i32 undef, undef
  ret i32 0
}
~
~
report 1: divisor at site 1 in @main, part 1, bits 0xffffffff of i32
    f:2: %q = udiv i32 undef, undef
  origin 2: undef at site 1 in @main
    f:2: %q = udiv i32 undef, undef
end: exit 0
reports: 1
blind: 1
verdict: poisoned
    blind at site 1 in @main, once
    f:2: %q = udiv i32 undef, undef
~
77
====
# A blind use before a report, with the calls of that.
check --where --calls f~
define i32 @scale(i32 %n) {
  %q = udiv i32 %n, 10
  ret i32 %q
}
define void @use(i32 %n) {
  %c = icmp eq i32 %n, 0
  br i1 %c, label %x, label %x
x:
  ret void
}
define i32 @main() {
  %v = alloca i32
  %x = load i32, ptr %v
  %a = call i32 @scale(i32 %x)
  call void @use(i32 %x)
  ret i32 0
}
~
~
report 1: branch at site 4 in @use, part 0, bits 0x1 of i1
    f:7: br i1 %c, label %x, label %x
  called at site 9 in @main
    f:15: call void @use(i32 %x)
  origin 1: alloca at site 6 in @main
    f:12: %v = alloca i32
end: reported
reports: 1
blind: 1
verdict: poisoned
    blind at site 1 in @scale, once
    f:2: %q = udiv i32 %n, 10
~
77
====
# With debug information the place in C stands below that in the text.
check --where f~
define i32 @scale(i32 %n) !dbg !4 {
  %q = udiv i32 %n, 10, !dbg !6
  ret i32 %q, !dbg !7
}
define i32 @main() {
  %v = alloca i32
  %x = load i32, ptr %v
  %a = call i32 @scale(i32 %x)
  ret i32 0
}
!0 = !DIFile(filename: "scale.c", directory: "/home")
!1 = distinct !DICompileUnit(language: DW_LANG_C11, file: !0)
!3 = !DISubroutineType(types: !{})
!4 = distinct !DISubprogram(name: "scale", scope: !0, file: !0, line: 1, type: !3, unit: !1)
!6 = !DILocation(line: 2, column: 12, scope: !4)
!7 = !DILocation(line: 2, column: 3, scope: !4)
~
~
end: exit 0
reports: 0
blind: 1
verdict: unsure
    blind at site 1 in @scale, once
    f:2: %q = udiv i32 %n, 10
    scale.c:2:12
~
0
====
# Those of a thread and of `main` at one place are counted together.
check --where f~
declare i32 @pthread_create(ptr, ptr, ptr, ptr)
declare i32 @pthread_join(i64, ptr)
define i32 @half(i32 %x) {
  %h = sdiv i32 %x, 2
  ret i32 %h
}
define ptr @work(ptr %p) {
  %f = freeze i32 undef
  %r = call i32 @half(i32 undef)
  %s = call i32 @half(i32 undef)
  ret ptr null
}
define i32 @main() {
  %id = alloca i64
  %c = call i32 @pthread_create(ptr %id, ptr null, ptr @work, ptr null)
  %t = load i64, ptr %id
  %j = call i32 @pthread_join(i64 %t, ptr null)
  %z = call i32 @half(i32 undef)
  ret i32 0
}
~
~
end: exit 0
reports: 0
blind: 4
verdict: unsure
    blind at site 3 in @work, once
    f:8: %f = freeze i32 undef
    blind at site 1 in @half, 3 times
    f:4: %h = sdiv i32 %x, 2
~
0
====
# Where schedules are tried they come before the lines on these.
check --schedules 1 --where --fill 00 f~
define i32 @main() {
  %1 = freeze i32 undef
  ret i32 %1
}
~
~
end: exit 0
reports: 0
blind: 1
verdict: unsure
    blind at site 1 in @main, once
    f:2: %1 = freeze i32 undef
schedules: 1, all
outcomes: 1
schedule: 00
~
0
====
# Where the steps are spent, those that came.
check --where --steps 7 f~
define i32 @main() {
  br label %loop
loop:
  %1 = freeze i32 undef
  br label %loop
}
~
~
end: spent
reports: 0
blind: 3
verdict: unsure
    blind at site 2 in @main, 3 times
    f:4: %1 = freeze i32 undef
~
4
====
# `run` of a text without inserted code counts none.
run --where f~
define i32 @main() {
  %1 = freeze i32 undef
  ret i32 0
}
~
~
end: exit 0
reports: 0
blind: 0
~
0
====
# With inserted code it counts those that this says, at the instruction before which it stands.
run --where f~
define i32 @scale(i32 %n) {
  call void @__msan_blind(i64 1), !nosanitize !0
  %q = udiv i32 %n, 10
  ret i32 %q
}
define i32 @main() {
  %a = call i32 @scale(i32 7)
  %b = call i32 @scale(i32 8)
  ret i32 0
}
declare void @__msan_blind(i64)
~
~
end: exit 0
reports: 0
blind: 2
    blind at site 1 in @scale, 2 times
    f:3: %q = udiv i32 %n, 10
~
0
====
# Two before one instruction are two, and one of a mask of 0 is none.
run --where f~
define i32 @main() {
  call void @__msan_blind(i64 0), !nosanitize !0
  %a = add i32 1, 2
  call void @__msan_blind(i64 4), !nosanitize !0
  call void @__msan_blind(i64 0), !nosanitize !0
  call void @__msan_blind(i64 -1), !nosanitize !0
  ret i32 %a
}
declare void @__msan_blind(i64)
~
~
end: exit 3
reports: 0
blind: 2
    blind at site 2 in @main, 2 times
    f:7: ret i32 %a
~
0
====
# A report between two of them, by inserted code.
run --where --calls f~
define i32 @scale(i32 %n) {
  call void @__msan_blind(i64 1), !nosanitize !0
  %q = udiv i32 %n, 10
  ret i32 %q
}
define void @use(i1 %b) {
  call void @__msan_check(i64 1, i32 1, i32 1, i32 1, i32 0, i32 3), !nosanitize !0
  br i1 %b, label %x, label %x
x:
  ret void
}
define i32 @main() {
  %a = call i32 @scale(i32 undef)
  %b = call i32 @scale(i32 8)
  call void @use(i1 true)
  %c = call i32 @scale(i32 9)
  ret i32 0
}
declare void @__msan_blind(i64)
declare void @__msan_check(i64, i32, i32, i32, i32, i32)
~
~
report 1: branch at site 3 in @use, part 0, bits 0x1 of i1
    f:8: br i1 %b, label %x, label %x
  called at site 7 in @main
    f:15: call void @use(i1 true)
  origin 1: undef at site 5 in @main
    f:13: %a = call i32 @scale(i32 undef)
end: reported
reports: 1
blind: 2
    blind at site 1 in @scale, 2 times
    f:3: %q = udiv i32 %n, 10
~
77
====
# Twenty places, and no more.
check --where f~
define i32 @main() {
  %1 = freeze i32 undef
  %2 = freeze i32 undef
  %3 = freeze i32 undef
  %4 = freeze i32 undef
  %5 = freeze i32 undef
  %6 = freeze i32 undef
  %7 = freeze i32 undef
  %8 = freeze i32 undef
  %9 = freeze i32 undef
  %10 = freeze i32 undef
  %11 = freeze i32 undef
  %12 = freeze i32 undef
  %13 = freeze i32 undef
  %14 = freeze i32 undef
  %15 = freeze i32 undef
  %16 = freeze i32 undef
  %17 = freeze i32 undef
  %18 = freeze i32 undef
  %19 = freeze i32 undef
  %20 = freeze i32 undef
  ret i32 0
}
~
~
end: exit 0
reports: 0
blind: 20
verdict: unsure
    blind at site 1 in @main, once
    f:2: %1 = freeze i32 undef
    blind at site 2 in @main, once
    f:3: %2 = freeze i32 undef
    blind at site 3 in @main, once
    f:4: %3 = freeze i32 undef
    blind at site 4 in @main, once
    f:5: %4 = freeze i32 undef
    blind at site 5 in @main, once
    f:6: %5 = freeze i32 undef
    blind at site 6 in @main, once
    f:7: %6 = freeze i32 undef
    blind at site 7 in @main, once
    f:8: %7 = freeze i32 undef
    blind at site 8 in @main, once
    f:9: %8 = freeze i32 undef
    blind at site 9 in @main, once
    f:10: %9 = freeze i32 undef
    blind at site 10 in @main, once
    f:11: %10 = freeze i32 undef
    blind at site 11 in @main, once
    f:12: %11 = freeze i32 undef
    blind at site 12 in @main, once
    f:13: %12 = freeze i32 undef
    blind at site 13 in @main, once
    f:14: %13 = freeze i32 undef
    blind at site 14 in @main, once
    f:15: %14 = freeze i32 undef
    blind at site 15 in @main, once
    f:16: %15 = freeze i32 undef
    blind at site 16 in @main, once
    f:17: %16 = freeze i32 undef
    blind at site 17 in @main, once
    f:18: %17 = freeze i32 undef
    blind at site 18 in @main, once
    f:19: %18 = freeze i32 undef
    blind at site 19 in @main, once
    f:20: %19 = freeze i32 undef
    blind at site 20 in @main, once
    f:21: %20 = freeze i32 undef
~
0
====
# Of more places there are the first twenty, and how many more.
check --where f~
define i32 @main() {
  %1 = freeze i32 undef
  %2 = freeze i32 undef
  %3 = freeze i32 undef
  %4 = freeze i32 undef
  %5 = freeze i32 undef
  %6 = freeze i32 undef
  %7 = freeze i32 undef
  %8 = freeze i32 undef
  %9 = freeze i32 undef
  %10 = freeze i32 undef
  %11 = freeze i32 undef
  %12 = freeze i32 undef
  %13 = freeze i32 undef
  %14 = freeze i32 undef
  %15 = freeze i32 undef
  %16 = freeze i32 undef
  %17 = freeze i32 undef
  %18 = freeze i32 undef
  %19 = freeze i32 undef
  %20 = freeze i32 undef
  %21 = freeze i32 undef
  %22 = freeze i32 undef
  ret i32 0
}
~
~
end: exit 0
reports: 0
blind: 22
verdict: unsure
    blind at site 1 in @main, once
    f:2: %1 = freeze i32 undef
    blind at site 2 in @main, once
    f:3: %2 = freeze i32 undef
    blind at site 3 in @main, once
    f:4: %3 = freeze i32 undef
    blind at site 4 in @main, once
    f:5: %4 = freeze i32 undef
    blind at site 5 in @main, once
    f:6: %5 = freeze i32 undef
    blind at site 6 in @main, once
    f:7: %6 = freeze i32 undef
    blind at site 7 in @main, once
    f:8: %7 = freeze i32 undef
    blind at site 8 in @main, once
    f:9: %8 = freeze i32 undef
    blind at site 9 in @main, once
    f:10: %9 = freeze i32 undef
    blind at site 10 in @main, once
    f:11: %10 = freeze i32 undef
    blind at site 11 in @main, once
    f:12: %11 = freeze i32 undef
    blind at site 12 in @main, once
    f:13: %12 = freeze i32 undef
    blind at site 13 in @main, once
    f:14: %13 = freeze i32 undef
    blind at site 14 in @main, once
    f:15: %14 = freeze i32 undef
    blind at site 15 in @main, once
    f:16: %15 = freeze i32 undef
    blind at site 16 in @main, once
    f:17: %16 = freeze i32 undef
    blind at site 17 in @main, once
    f:18: %17 = freeze i32 undef
    blind at site 18 in @main, once
    f:19: %18 = freeze i32 undef
    blind at site 19 in @main, once
    f:20: %19 = freeze i32 undef
    blind at site 20 in @main, once
    f:21: %20 = freeze i32 undef
    more blind places: 2
~
0
====
"#;

static SECTIONS: &[u8] = br#"# Each section has those of its run.
corpus --where f a b~
define i32 @scale(i32 %n) {
  %q = udiv i32 %n, 10
  ret i32 %q
}
define i32 @main() {
  %v = alloca i32
  %x = load i32, ptr %v
  %a = call i32 @scale(i32 %x)
  %b = call i32 @scale(i32 %x)
  %c = call i32 @scale(i32 %x)
  ret i32 0
}
~
input 1, 0 bytes: a

end: exit 0
reports: 0
blind: 3
verdict: unsure
    blind at site 1 in @scale, 3 times
    f:2: %q = udiv i32 %n, 10
input 2, 0 bytes: b

end: exit 0
reports: 0
blind: 3
verdict: unsure
    blind at site 1 in @scale, 3 times
    f:2: %q = udiv i32 %n, 10
~
~
0
====
"#;

#[test]
fn blind_uses_have_places(rt: HostRuntime) -> Result<(), Fail> {
    assert!(rt; all_told::<_, Case>(&rt, rt.alloc(), &[CASES]));
    Ok(())
}

#[test]
fn sections_have_places_of_blind_uses(rt: HostRuntime) -> Result<(), Fail> {
    assert!(rt; all_told::<_, OnInputs>(&rt, rt.alloc(), &[SECTIONS]));
    Ok(())
}
