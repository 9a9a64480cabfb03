//! What `check` says of modules with branches, memory, calls and externals. Masks, sites and origins were worked out by hand.
//! The same is said by `run` of what `instrument` writes of them.

use crate::memory_checks::{CALLS, HEAP, MEMORY};
use crate::value_checks::{BITS, CARRIES, COMPARISONS, PHIS, SELECTIONS, SHIFTS};
use ms_top_rows::alike::all_agree_twice;
use ms_top_rows::calls::Case;
use ms_top_rows::told::all_told_twice;
use std::alloc::Global;
use std::test::Fail;
use std::thread::Threads;

/// A text as `clang -O0` writes it.
pub const CLANG_UNOPTIMISED: &str = r#"; ModuleID = 'a.c'
source_filename = "a.c"
target triple = "x86_64-unknown-linux-gnu"
@.str = private unnamed_addr constant [3 x i8] c"ok\00", align 1
; Function Attrs: noinline nounwind optnone uwtable
define dso_local i32 @main() #0 {
  %1 = alloca i32, align 4
  %2 = alloca ptr, align 8
  %3 = alloca i32, align 4
  store i32 0, ptr %1, align 4
  %4 = call noalias ptr @malloc(i64 noundef 16) #3
  store ptr %4, ptr %2, align 8
  store i32 0, ptr %3, align 4
  br label %5

5:                                                ; preds = %14, %0
  %6 = load i32, ptr %3, align 4
  %7 = icmp slt i32 %6, 4
  br i1 %7, label %8, label %17

8:                                                ; preds = %5
  %9 = load i32, ptr %3, align 4
  %10 = load ptr, ptr %2, align 8
  %11 = load i32, ptr %3, align 4
  %12 = sext i32 %11 to i64
  %13 = getelementptr inbounds i32, ptr %10, i64 %12
  store i32 %9, ptr %13, align 4
  br label %14

14:                                               ; preds = %8
  %15 = load i32, ptr %3, align 4
  %16 = add nsw i32 %15, 1
  store i32 %16, ptr %3, align 4
  br label %5, !llvm.loop !6

17:                                               ; preds = %5
  %18 = load ptr, ptr %2, align 8
  %19 = getelementptr inbounds i32, ptr %18, i64 3
  %20 = load i32, ptr %19, align 4
  %21 = icmp eq i32 %20, 3
  br i1 %21, label %22, label %24

22:                                               ; preds = %17
  %23 = call i32 @puts(ptr noundef @.str)
  br label %24

24:                                               ; preds = %22, %17
  %25 = load ptr, ptr %2, align 8
  call void @free(ptr noundef %25) #4
  ret i32 0
}
declare noalias ptr @malloc(i64 noundef) #1
declare i32 @puts(ptr noundef) #2
declare void @free(ptr noundef) #1
attributes #0 = { noinline nounwind optnone uwtable "frame-pointer"="all" }
!llvm.module.flags = !{!0}
!0 = !{i32 1, !"wchar_size", i32 4}
!6 = distinct !{!6, !7}
!7 = !{!"llvm.loop.mustprogress"}
"#;

/// Externals check their bytes.
static OUTSIDE: &[u8] = br#"check f~
define i32 @main() {
  %1 = alloca [4 x i8]
  %2 = call i32 @putchar(i32 62)
  %3 = call ptr @memset(ptr %1, i32 65, i64 2)
  %4 = getelementptr i8, ptr %1, i64 3
  store i8 66, ptr %4
  %5 = call i64 @write(i32 1, ptr %1, i64 4)
  ret i32 0
}
declare i32 @putchar(i32)
declare ptr @memset(ptr, i32, i64)
declare i64 @write(i32, ptr, i64)
~
>~
report 1: output at site 6 in @main, part 2, bits 0xff of i8
  origin 1: alloca at site 1 in @main
end: reported
reports: 1
blind: 0
verdict: poisoned
~
77
====
check f~
; ModuleID = 'a.c'
source_filename = "a.c"
target triple = "x86_64-unknown-linux-gnu"
@.str = private unnamed_addr constant [3 x i8] c"ok\00", align 1
; Function Attrs: noinline nounwind optnone uwtable
define dso_local i32 @main() #0 !dbg !6 {
  %1 = alloca i32, align 4
  %2 = alloca ptr, align 8
  %3 = alloca i32, align 4
  store i32 0, ptr %1, align 4
  %4 = call noalias ptr @malloc(i64 noundef 16) #3
  store ptr %4, ptr %2, align 8
  store i32 0, ptr %3, align 4
  br label %5

5:                                                ; preds = %14, %0
  %6 = load i32, ptr %3, align 4
  %7 = icmp slt i32 %6, 4
  br i1 %7, label %8, label %17

8:                                                ; preds = %5
  %9 = load i32, ptr %3, align 4
  %10 = load ptr, ptr %2, align 8
  %11 = load i32, ptr %3, align 4
  %12 = sext i32 %11 to i64
  %13 = getelementptr inbounds i32, ptr %10, i64 %12
  store i32 %9, ptr %13, align 4
  br label %14

14:                                               ; preds = %8
  %15 = load i32, ptr %3, align 4
  %16 = add nsw i32 %15, 1
  store i32 %16, ptr %3, align 4
  br label %5, !llvm.loop !6

17:                                               ; preds = %5
  %18 = load ptr, ptr %2, align 8
  %19 = getelementptr inbounds i32, ptr %18, i64 3
  %20 = load i32, ptr %19, align 4
  %21 = icmp eq i32 %20, 3
  br i1 %21, label %22, label %24

22:                                               ; preds = %17
  %23 = call i32 @puts(ptr noundef @.str)
  br label %24

24:                                               ; preds = %22, %17
  %25 = load ptr, ptr %2, align 8
  call void @free(ptr noundef %25) #4
  ret i32 0
}
declare !dbg !6 noalias ptr @malloc(i64 noundef) #1
declare i32 @puts(ptr noundef) #2
declare void @free(ptr noundef) #1
attributes #0 = { noinline nounwind optnone uwtable "frame-pointer"="all" }
!llvm.module.flags = !{!0}
!0 = !{i32 1, !"wchar_size", i32 4}
!6 = distinct !{!6, !7}
!7 = !{!"llvm.loop.mustprogress"}
~
ok
~
end: exit 0
reports: 0
blind: 0
verdict: clean
~
0
====
check f~
define i32 @main() {
  %1 = call i32 @putchar(i32 65)
  %2 = call i32 @putchar(i32 undef)
  ret i32 0
}
declare i32 @putchar(i32)
~
A~
report 1: value at site 2 in @main, part 0, bits 0xffffffff of i32
  origin 1: undef at site 2 in @main
end: reported
reports: 1
blind: 0
verdict: poisoned
~
77
====
check f~
define i32 @main() {
  %1 = alloca [2 x i8]
  store i8 65, ptr %1
  %2 = call i32 @puts(ptr %1)
  ret i32 0
}
declare i32 @puts(ptr)
~
~
report 1: string at site 3 in @main, part 1, bits 0xff of i8
  origin 1: alloca at site 1 in @main
end: reported
reports: 1
blind: 0
verdict: poisoned
~
77
====
# After a zero byte nothing is read.
check f~
define i32 @main() {
  %1 = alloca [2 x i8]
  store i8 0, ptr %1
  %2 = call i64 @strlen(ptr %1)
  %3 = trunc i64 %2 to i32
  ret i32 %3
}
declare i64 @strlen(ptr)
~
~
end: exit 0
reports: 0
blind: 0
verdict: clean
~
0
====
check f~
@s = global [2 x i8] c"ab"
define i32 @main() {
  %1 = alloca [2 x i8]
  %2 = call i32 @memcmp(ptr %1, ptr @s, i64 2)
  ret i32 %2
}
declare i32 @memcmp(ptr, ptr, i64)
~
~
report 1: first-bytes at site 2 in @main, part 0, bits 0xff of i8
  origin 1: alloca at site 1 in @main
end: reported
reports: 1
blind: 0
verdict: poisoned
~
77
====
check f~
@s = global [2 x i8] c"ab"
define i32 @main() {
  %1 = alloca [2 x i8]
  store i8 97, ptr %1
  %2 = call i32 @memcmp(ptr @s, ptr %1, i64 2)
  ret i32 %2
}
declare i32 @memcmp(ptr, ptr, i64)
~
~
report 1: second-bytes at site 3 in @main, part 1, bits 0xff of i8
  origin 1: alloca at site 1 in @main
end: reported
reports: 1
blind: 0
verdict: poisoned
~
77
====
# Two bytes get the low byte of the mask.
check f~
define i32 @main() {
  %1 = alloca i32
  %2 = and i32 undef, 15
  %3 = call ptr @memset(ptr %1, i32 %2, i64 2)
  %4 = load i32, ptr %1
  ret i32 %4
}
declare ptr @memset(ptr, i32, i64)
~
~
report 1: exit at site 5 in @main, part 0, bits 0xffff0f0f of i32
  origin 3: stored at site 3 in @main
  origin 2: undef at site 2 in @main
end: reported
reports: 1
blind: 0
verdict: poisoned
~
77
====
check f~
define i32 @main() {
  %1 = call i32 @getchar()
  ret i32 %1
}
declare i32 @getchar()
~
~
end: exit 4294967295
reports: 0
blind: 0
verdict: clean
~
0
====
check f~
define i32 @main() {
  call void @exit(i32 undef)
  ret i32 0
}
declare void @exit(i32)
~
~
report 1: exit at site 1 in @main, part 0, bits 0xffffffff of i32
  origin 1: undef at site 1 in @main
end: reported
reports: 1
blind: 0
verdict: poisoned
~
77
====
check f~
define i32 @main() {
  call void @abort()
  ret i32 0
}
declare void @abort()
~
~
end: trap abort at site 1 in @main
reports: 0
blind: 0
verdict: clean
~
3
====
"#;

/// What a compiler writes is checked.
static COMPILED: [Case; 1] = [Case(
    "check f",
    CLANG_UNOPTIMISED,
    "ok\n",
    "end: exit 0\nreports: 0\nblind: 0\nverdict: clean\n",
    0,
)];

/// Each kind of use is checked.
/// Each kind of use of a word is checked, before its instruction.
static KINDS: &[u8] = br#"check f~
define i32 @main() {
  switch i32 undef, label %1 [ i32 0, label %2 ]
1:
  ret i32 0
2:
  ret i32 1
}
~
~
report 1: switch at site 1 in @main, part 0, bits 0xffffffff of i32
  origin 1: undef at site 1 in @main
end: reported
reports: 1
blind: 0
verdict: poisoned
~
77
====
check f~
define i32 @main() {
  %1 = load i32, ptr undef
  ret i32 0
}
~
~
report 1: address at site 1 in @main, part 0, bits 0xffffffffffffffff of i64
  origin 1: undef at site 1 in @main
end: reported
reports: 1
blind: 0
verdict: poisoned
~
77
====
check f~
define i32 @main() {
  store i32 0, ptr undef
  ret i32 0
}
~
~
report 1: address at site 1 in @main, part 1, bits 0xffffffffffffffff of i64
  origin 1: undef at site 1 in @main
end: reported
reports: 1
blind: 0
verdict: poisoned
~
77
====
check f~
define i32 @main() {
  %1 = udiv i32 8, undef
  ret i32 0
}
~
~
report 1: divisor at site 1 in @main, part 1, bits 0xffffffff of i32
  origin 1: undef at site 1 in @main
end: reported
reports: 1
blind: 0
verdict: poisoned
~
77
====
check f~
define i32 @main() {
  %1 = srem i8 undef, undef
  ret i32 0
}
~
~
report 1: divisor at site 1 in @main, part 1, bits 0xff of i8
  origin 2: undef at site 1 in @main
end: reported
reports: 1
blind: 0
verdict: poisoned
~
77
====
check f~
define i32 @main() {
  %1 = alloca i8, i32 undef
  ret i32 0
}
~
~
report 1: size at site 1 in @main, part 0, bits 0xffffffff of i32
  origin 1: undef at site 1 in @main
end: reported
reports: 1
blind: 0
verdict: poisoned
~
77
====
check f~
define i32 @main() {
  %1 = alloca i8
  %2 = call ptr @memcpy(ptr %1, ptr %1, i64 undef)
  ret i32 0
}
declare ptr @memcpy(ptr, ptr, i64)
~
~
report 1: size at site 2 in @main, part 2, bits 0xffffffffffffffff of i64
  origin 2: undef at site 2 in @main
end: reported
reports: 1
blind: 0
verdict: poisoned
~
77
====
check f~
define i32 @main() {
  call void @free(ptr undef)
  ret i32 0
}
declare void @free(ptr)
~
~
report 1: pointer at site 1 in @main, part 0, bits 0xffffffffffffffff of i64
  origin 1: undef at site 1 in @main
end: reported
reports: 1
blind: 0
verdict: poisoned
~
77
====
check f~
define i32 @main() {
  %1 = alloca i8
  %2 = call i64 @write(i32 undef, ptr %1, i64 0)
  ret i32 0
}
declare i64 @write(i32, ptr, i64)
~
~
report 1: value at site 2 in @main, part 0, bits 0xffffffff of i32
  origin 2: undef at site 2 in @main
end: reported
reports: 1
blind: 0
verdict: poisoned
~
77
====
check f~
define i32 @main() {
  ret i32 poison
}
~
~
report 1: exit at site 1 in @main, part 0, bits 0xffffffff of i32
  origin 1: undef at site 1 in @main
end: reported
reports: 1
blind: 0
verdict: poisoned
~
77
====
"#;

/// Blind uses are counted.
/// Uses whose poison is lost are counted once for each instruction that runs.
static BLIND: &[u8] = br#"check f~
define i32 @main() {
  %1 = freeze i32 undef
  ret i32 %1
}
~
~
end: exit 2779096485
reports: 0
blind: 1
verdict: unsure
~
0
====
check f~
define i32 @main() {
  %1 = udiv i32 undef, 2
  %2 = urem i32 2, 2
  ret i32 %2
}
~
~
end: exit 0
reports: 0
blind: 1
verdict: unsure
~
0
====
check f~
define i32 @main() {
  %1 = or disjoint i32 undef, 0
  %2 = icmp samesign eq i32 %1, -1
  %3 = trunc nsw i32 0 to i8
  ret i32 0
}
~
~
end: exit 0
reports: 0
blind: 2
verdict: unsure
~
0
====
# A flag makes a use of a sum blind.
check f~
define i32 @main() {
  %1 = and i32 undef, 16
  %2 = add nsw i32 %1, 3
  ret i32 0
}
~
~
end: exit 0
reports: 0
blind: 1
verdict: unsure
~
0
====
"#;

/// Traps have no report.
static TRAPS: &[u8] = br#"check f~
define i32 @main() {
  %1 = add nsw i32 2147483647, 1
  ret i32 0
}
~
~
end: trap nsw at site 1 in @main
reports: 0
blind: 0
verdict: clean
~
3
====
check f~
define i32 @main() {
  %1 = alloca i32
  %2 = ptrtoint ptr %1 to i64
  %3 = xor i64 %2, 87960930222080
  %4 = inttoptr i64 %3 to ptr
  store i32 1, ptr %4
  ret i32 0
}
~
~
end: trap bad-address at site 5 in @main
reports: 0
blind: 0
verdict: clean
~
3
====
# No slot is reached.
check f~
define i32 @main() {
  %1 = inttoptr i64 114349209288704 to ptr
  %2 = load i64, ptr %1
  ret i32 0
}
~
~
end: trap bad-address at site 2 in @main
reports: 0
blind: 0
verdict: clean
~
3
====
check f~
define i32 @main() {
  %1 = alloca i32
  %2 = call ptr @memset(ptr %1, i32 0, i64 -1)
  ret i32 0
}
declare ptr @memset(ptr, i32, i64)
~
~
end: trap bad-address at site 2 in @main
reports: 0
blind: 0
verdict: clean
~
3
====
check f~
define i32 @main() {
  %1 = alloca i64, i32 -1
  ret i32 0
}
~
~
end: trap stack at site 1 in @main
reports: 0
blind: 0
verdict: clean
~
3
====
check f~
define i32 @main() {
  unreachable
}
~
~
end: trap unreachable at site 1 in @main
reports: 0
blind: 0
verdict: clean
~
3
====
"#;

/// Whether uses of computed values are checked.
fn values_are_checked<R: Threads + Sync + Eprint>(rt: &R, alloc: Global) -> bool {
    all_told_twice::<_, Case>(
        rt,
        alloc,
        &[COMPARISONS, BITS, SELECTIONS, SHIFTS, PHIS, CARRIES],
    )
}

/// Whether uses of what is loaded, and of what calls answer, are checked.
fn memory_is_checked<R: Threads + Sync + Eprint>(rt: &R, alloc: Global) -> bool {
    all_told_twice::<_, Case>(rt, alloc, &[MEMORY, CALLS, HEAP])
}

#[test]
fn uses_are_checked(rt: HostRuntime) -> Result<(), Fail> {
    assert!(rt;
        memory_is_checked(&rt, rt.alloc())
            && values_are_checked(&rt, rt.alloc())
            && all_told_twice::<_, Case>(&rt, rt.alloc(), &[OUTSIDE, KINDS, BLIND, TRAPS])
            && all_agree_twice(&rt, rt.alloc(), &[&COMPILED])
    );
    Ok(())
}
