//! Schedules that are tried one after the other: how many, which run is told, and by which schedule. What is wanted was worked out by
//! hand, from the picks: at each the first of those that can go on is taken first, and then every other one in turn, those runs first
//! that take fewest others.

use ms_top_rows::calls::Case;
use ms_top_rows::told::all_told;
use std::test::Fail;

/// How often threads may go on otherwise, and what they print then. A run is named by the numbers that were picked, but for the last
/// zeros.
///
/// Of three threads, where `a` are those that have begun and not ended, `main` joins them in turn: J(1, a) runs are left where it stands
/// at the first join, J(2, a) and J(3, a) at the others. J(3, -) = J(3, 3) = 1; J(2, -) = J(2, 2) = 1, J(2, 3) = 2, J(2, 23) = 2 + 1 = 3;
/// J(1, -) = J(1, 1) = 1, J(1, 3) = 3, J(1, 2) = 2, J(1, 23) = 3 + 3 + 2 = 8, J(1, 12) = 2 + 1 = 3, J(1, 13) = 3 + 1 = 4,
/// J(1, 123) = 8 + 4 + 3 = 15. At the third creation C(-) = J(1, 3) = 3, C(1) = J(1, 13) + C(-) = 7, C(2) = J(1, 23) + C(-) = 11,
/// C(12) = J(1, 123) + C(2) + C(1) = 33; at the second one C(12) + C(2) = 44.
static ORDERS: &[u8] =
    br#"# A thread that is made and joined leaves no choice: where `main` waits, the thread is alone.
check --schedules 9 f~
define ptr @w(ptr %0) {
  %2 = call i32 @putchar(i32 66)
  ret ptr null
}
define i32 @main() {
  %1 = alloca i64
  %2 = call i32 @pthread_create(ptr %1, ptr null, ptr @w, ptr null)
  %3 = call i32 @pthread_join(i64 1, ptr null)
  ret i32 0
}
declare i32 @putchar(i32)
declare i32 @pthread_create(ptr, ptr, ptr, ptr)
declare i32 @pthread_join(i64, ptr)
~
B~
end: exit 0
reports: 0
blind: 0
verdict: clean
schedules: 1, all
outcomes: 1
~
0
====
# At the yield there are two. First `main` goes on: A, B. By 01, which is the last, the thread does: B, A.
check --schedules 9 f~
define ptr @w(ptr %0) {
  %2 = call i32 @putchar(i32 66)
  ret ptr null
}
define i32 @main() {
  %1 = alloca i64
  %2 = call i32 @pthread_create(ptr %1, ptr null, ptr @w, ptr null)
  %3 = call i32 @sched_yield()
  %4 = call i32 @putchar(i32 65)
  %5 = call i32 @pthread_join(i64 1, ptr null)
  ret i32 0
}
declare i32 @putchar(i32)
declare i32 @pthread_create(ptr, ptr, ptr, ptr)
declare i32 @pthread_join(i64, ptr)
declare i32 @sched_yield()
~
BA~
end: exit 0
reports: 0
blind: 0
verdict: clean
schedules: 2, all
outcomes: 2
~
0
====
# One run was made, and the other one is left.
check --schedules 1 f~
define ptr @w(ptr %0) {
  %2 = call i32 @putchar(i32 66)
  ret ptr null
}
define i32 @main() {
  %1 = alloca i64
  %2 = call i32 @pthread_create(ptr %1, ptr null, ptr @w, ptr null)
  %3 = call i32 @sched_yield()
  %4 = call i32 @putchar(i32 65)
  %5 = call i32 @pthread_join(i64 1, ptr null)
  ret i32 0
}
declare i32 @putchar(i32)
declare i32 @pthread_create(ptr, ptr, ptr, ptr)
declare i32 @pthread_join(i64, ptr)
declare i32 @sched_yield()
~
AB~
end: exit 0
reports: 0
blind: 0
verdict: clean
schedules: 1, more
outcomes: 1
~
0
====
# The bound is met by the last one.
check --schedules 2 f~
define ptr @w(ptr %0) {
  %2 = call i32 @putchar(i32 66)
  ret ptr null
}
define i32 @main() {
  %1 = alloca i64
  %2 = call i32 @pthread_create(ptr %1, ptr null, ptr @w, ptr null)
  %3 = call i32 @sched_yield()
  %4 = call i32 @putchar(i32 65)
  %5 = call i32 @pthread_join(i64 1, ptr null)
  ret i32 0
}
declare i32 @putchar(i32)
declare i32 @pthread_create(ptr, ptr, ptr, ptr)
declare i32 @pthread_join(i64, ptr)
declare i32 @sched_yield()
~
BA~
end: exit 0
reports: 0
blind: 0
verdict: clean
schedules: 2, all
outcomes: 2
~
0
====
# So it is by more workers than there are runs.
check --schedules 2 --workers 8 f~
define ptr @w(ptr %0) {
  %2 = call i32 @putchar(i32 66)
  ret ptr null
}
define i32 @main() {
  %1 = alloca i64
  %2 = call i32 @pthread_create(ptr %1, ptr null, ptr @w, ptr null)
  %3 = call i32 @sched_yield()
  %4 = call i32 @putchar(i32 65)
  %5 = call i32 @pthread_join(i64 1, ptr null)
  ret i32 0
}
declare i32 @putchar(i32)
declare i32 @pthread_create(ptr, ptr, ptr, ptr)
declare i32 @pthread_join(i64, ptr)
declare i32 @sched_yield()
~
BA~
end: exit 0
reports: 0
blind: 0
verdict: clean
schedules: 2, all
outcomes: 2
~
0
====
# Five runs: none, 01, 001, 0001, 0101. By 001 the second thread is picked at the first join, and prints first.
check --schedules 9 f~
define ptr @w(ptr %0) {
  %2 = ptrtoint ptr %0 to i64
  %3 = trunc i64 %2 to i32
  %4 = call i32 @putchar(i32 %3)
  ret ptr null
}
define i32 @main() {
  %1 = alloca i64
  %2 = inttoptr i64 65 to ptr
  %3 = inttoptr i64 66 to ptr
  %4 = call i32 @pthread_create(ptr %1, ptr null, ptr @w, ptr %2)
  %5 = call i32 @pthread_create(ptr %1, ptr null, ptr @w, ptr %3)
  %6 = call i32 @pthread_join(i64 1, ptr null)
  %7 = call i32 @pthread_join(i64 2, ptr null)
  ret i32 0
}
declare i32 @putchar(i32)
declare i32 @pthread_create(ptr, ptr, ptr, ptr)
declare i32 @pthread_join(i64, ptr)
~
AB~
end: exit 0
reports: 0
blind: 0
verdict: clean
schedules: 5, all
outcomes: 2
~
0
====
# The fifth is left.
check --schedules=4 f~
define ptr @w(ptr %0) {
  %2 = ptrtoint ptr %0 to i64
  %3 = trunc i64 %2 to i32
  %4 = call i32 @putchar(i32 %3)
  ret ptr null
}
define i32 @main() {
  %1 = alloca i64
  %2 = inttoptr i64 65 to ptr
  %3 = inttoptr i64 66 to ptr
  %4 = call i32 @pthread_create(ptr %1, ptr null, ptr @w, ptr %2)
  %5 = call i32 @pthread_create(ptr %1, ptr null, ptr @w, ptr %3)
  %6 = call i32 @pthread_join(i64 1, ptr null)
  %7 = call i32 @pthread_join(i64 2, ptr null)
  ret i32 0
}
declare i32 @putchar(i32)
declare i32 @pthread_create(ptr, ptr, ptr, ptr)
declare i32 @pthread_join(i64, ptr)
~
AB~
end: exit 0
reports: 0
blind: 0
verdict: clean
schedules: 4, more
outcomes: 2
~
0
====
# All are made.
check --schedules=5 --workers=1 f~
define ptr @w(ptr %0) {
  %2 = ptrtoint ptr %0 to i64
  %3 = trunc i64 %2 to i32
  %4 = call i32 @putchar(i32 %3)
  ret ptr null
}
define i32 @main() {
  %1 = alloca i64
  %2 = inttoptr i64 65 to ptr
  %3 = inttoptr i64 66 to ptr
  %4 = call i32 @pthread_create(ptr %1, ptr null, ptr @w, ptr %2)
  %5 = call i32 @pthread_create(ptr %1, ptr null, ptr @w, ptr %3)
  %6 = call i32 @pthread_join(i64 1, ptr null)
  %7 = call i32 @pthread_join(i64 2, ptr null)
  ret i32 0
}
declare i32 @putchar(i32)
declare i32 @pthread_create(ptr, ptr, ptr, ptr)
declare i32 @pthread_join(i64, ptr)
~
AB~
end: exit 0
reports: 0
blind: 0
verdict: clean
schedules: 5, all
outcomes: 2
~
0
====
# 44 runs, in all orders of three. The last, 0010101, picks each thread beside `main`: at the third creation, the first join, the second.
check --schedules 1000000 f~
define ptr @w(ptr %0) {
  %2 = ptrtoint ptr %0 to i64
  %3 = trunc i64 %2 to i32
  %4 = call i32 @putchar(i32 %3)
  ret ptr null
}
define i32 @main() {
  %1 = alloca i64
  %2 = inttoptr i64 65 to ptr
  %3 = inttoptr i64 66 to ptr
  %4 = inttoptr i64 67 to ptr
  %5 = call i32 @pthread_create(ptr %1, ptr null, ptr @w, ptr %2)
  %6 = call i32 @pthread_create(ptr %1, ptr null, ptr @w, ptr %3)
  %7 = call i32 @pthread_create(ptr %1, ptr null, ptr @w, ptr %4)
  %8 = call i32 @pthread_join(i64 1, ptr null)
  %9 = call i32 @pthread_join(i64 2, ptr null)
  %10 = call i32 @pthread_join(i64 3, ptr null)
  ret i32 0
}
declare i32 @putchar(i32)
declare i32 @pthread_create(ptr, ptr, ptr, ptr)
declare i32 @pthread_join(i64, ptr)
~
ABC~
end: exit 0
reports: 0
blind: 0
verdict: clean
schedules: 44, all
outcomes: 6
~
0
====
# The one before, 001011, picks the third at the first join too.
check --schedules 43 --workers 3 f~
define ptr @w(ptr %0) {
  %2 = ptrtoint ptr %0 to i64
  %3 = trunc i64 %2 to i32
  %4 = call i32 @putchar(i32 %3)
  ret ptr null
}
define i32 @main() {
  %1 = alloca i64
  %2 = inttoptr i64 65 to ptr
  %3 = inttoptr i64 66 to ptr
  %4 = inttoptr i64 67 to ptr
  %5 = call i32 @pthread_create(ptr %1, ptr null, ptr @w, ptr %2)
  %6 = call i32 @pthread_create(ptr %1, ptr null, ptr @w, ptr %3)
  %7 = call i32 @pthread_create(ptr %1, ptr null, ptr @w, ptr %4)
  %8 = call i32 @pthread_join(i64 1, ptr null)
  %9 = call i32 @pthread_join(i64 2, ptr null)
  %10 = call i32 @pthread_join(i64 3, ptr null)
  ret i32 0
}
declare i32 @putchar(i32)
declare i32 @pthread_create(ptr, ptr, ptr, ptr)
declare i32 @pthread_join(i64, ptr)
~
ABC~
end: exit 0
reports: 0
blind: 0
verdict: clean
schedules: 43, more
outcomes: 6
~
0
====
"#;

/// Two threads that join each other wait forever, unless the first one asks before the second one is made: six runs, of which three end in a deadlock.
static DEADLOCK: &[u8] = br#"# The last one doesn't: its numbers are 011011.
check --schedules 9 f~
define ptr @w(ptr %0) {
  %2 = ptrtoint ptr %0 to i64
  %3 = call i32 @pthread_join(i64 %2, ptr null)
  ret ptr null
}
define i32 @main() {
  %1 = alloca i64
  %2 = inttoptr i64 2 to ptr
  %3 = inttoptr i64 1 to ptr
  %4 = call i32 @pthread_create(ptr %1, ptr null, ptr @w, ptr %2)
  %5 = call i32 @pthread_create(ptr %1, ptr null, ptr @w, ptr %3)
  %6 = call i32 @pthread_join(i64 1, ptr null)
  ret i32 0
}
declare i32 @pthread_create(ptr, ptr, ptr, ptr)
declare i32 @pthread_join(i64, ptr)
~
~
end: exit 0
reports: 0
blind: 0
verdict: clean
schedules: 6, all
outcomes: 2
~
0
====
# The first three do: none, 01, 001.
check --schedules 3 f~
define ptr @w(ptr %0) {
  %2 = ptrtoint ptr %0 to i64
  %3 = call i32 @pthread_join(i64 %2, ptr null)
  ret ptr null
}
define i32 @main() {
  %1 = alloca i64
  %2 = inttoptr i64 2 to ptr
  %3 = inttoptr i64 1 to ptr
  %4 = call i32 @pthread_create(ptr %1, ptr null, ptr @w, ptr %2)
  %5 = call i32 @pthread_create(ptr %1, ptr null, ptr @w, ptr %3)
  %6 = call i32 @pthread_join(i64 1, ptr null)
  ret i32 0
}
declare i32 @pthread_create(ptr, ptr, ptr, ptr)
declare i32 @pthread_join(i64, ptr)
~
~
end: trap deadlock at site 9 in @main
reports: 0
blind: 0
verdict: clean
schedules: 3, more
outcomes: 1
~
3
====
# The fourth, 011, doesn't.
check --schedules 4 f~
define ptr @w(ptr %0) {
  %2 = ptrtoint ptr %0 to i64
  %3 = call i32 @pthread_join(i64 %2, ptr null)
  ret ptr null
}
define i32 @main() {
  %1 = alloca i64
  %2 = inttoptr i64 2 to ptr
  %3 = inttoptr i64 1 to ptr
  %4 = call i32 @pthread_create(ptr %1, ptr null, ptr @w, ptr %2)
  %5 = call i32 @pthread_create(ptr %1, ptr null, ptr @w, ptr %3)
  %6 = call i32 @pthread_join(i64 1, ptr null)
  ret i32 0
}
declare i32 @pthread_create(ptr, ptr, ptr, ptr)
declare i32 @pthread_join(i64, ptr)
~
~
end: exit 0
reports: 0
blind: 0
verdict: clean
schedules: 4, more
outcomes: 2
~
0
====
"#;

/// Where `main` yields until a thread has set a flag, each time there is one more choice.
static ENDLESS: &[u8] =
    br#"# There are picks of two before steps 5, 9, 13 and 17, so 5 runs. In the last one too few steps are left.
check --steps 20 --schedules 9 f~
@g = global i32 0
define ptr @w(ptr %0) {
  store i32 1, ptr @g
  ret ptr null
}
define i32 @main() {
  %1 = alloca i64
  %2 = call i32 @pthread_create(ptr %1, ptr null, ptr @w, ptr null)
  br label %3
3:
  %4 = call i32 @sched_yield()
  %5 = load i32, ptr @g
  %6 = icmp eq i32 %5, 0
  br i1 %6, label %3, label %7
7:
  ret i32 0
}
declare i32 @pthread_create(ptr, ptr, ptr, ptr)
declare i32 @sched_yield()
~
~
end: spent
reports: 0
blind: 0
verdict: clean
schedules: 5, all
outcomes: 2
~
4
====
# In the fourth, 0001, `main` returns in step 18.
check --steps 20 --schedules 4 f~
@g = global i32 0
define ptr @w(ptr %0) {
  store i32 1, ptr @g
  ret ptr null
}
define i32 @main() {
  %1 = alloca i64
  %2 = call i32 @pthread_create(ptr %1, ptr null, ptr @w, ptr null)
  br label %3
3:
  %4 = call i32 @sched_yield()
  %5 = load i32, ptr @g
  %6 = icmp eq i32 %5, 0
  br i1 %6, label %3, label %7
7:
  ret i32 0
}
declare i32 @pthread_create(ptr, ptr, ptr, ptr)
declare i32 @sched_yield()
~
~
end: exit 0
reports: 0
blind: 0
verdict: clean
schedules: 4, more
outcomes: 2
~
0
====
# The first uses up its steps, whatever their number is.
check --steps 20 --schedules 1 f~
@g = global i32 0
define ptr @w(ptr %0) {
  store i32 1, ptr @g
  ret ptr null
}
define i32 @main() {
  %1 = alloca i64
  %2 = call i32 @pthread_create(ptr %1, ptr null, ptr @w, ptr null)
  br label %3
3:
  %4 = call i32 @sched_yield()
  %5 = load i32, ptr @g
  %6 = icmp eq i32 %5, 0
  br i1 %6, label %3, label %7
7:
  ret i32 0
}
declare i32 @pthread_create(ptr, ptr, ptr, ptr)
declare i32 @sched_yield()
~
~
end: spent
reports: 0
blind: 0
verdict: clean
schedules: 1, more
outcomes: 1
~
4
====
# With 9000 steps the first run makes more picks than are varied.
check --steps 9000 --schedules 3 f~
@g = global i32 0
define ptr @w(ptr %0) {
  store i32 1, ptr @g
  ret ptr null
}
define i32 @main() {
  %1 = alloca i64
  %2 = call i32 @pthread_create(ptr %1, ptr null, ptr @w, ptr null)
  br label %3
3:
  %4 = call i32 @sched_yield()
  %5 = load i32, ptr @g
  %6 = icmp eq i32 %5, 0
  br i1 %6, label %3, label %7
7:
  ret i32 0
}
declare i32 @pthread_create(ptr, ptr, ptr, ptr)
declare i32 @sched_yield()
~
~
end: exit 0
reports: 0
blind: 0
verdict: clean
schedules: 3, more
outcomes: 2
~
0
====
# 2048 picks of one thread: no choice, and none is left out.
check --schedules 9 f~
define i32 @main() {
  br label %1
1:
  %2 = phi i32 [ 0, %0 ], [ %4, %1 ]
  %3 = call i32 @sched_yield()
  %4 = add i32 %2, 1
  %5 = icmp ult i32 %4, 2048
  br i1 %5, label %1, label %6
6:
  ret i32 0
}
declare i32 @sched_yield()
~
~
end: exit 0
reports: 0
blind: 0
verdict: clean
schedules: 1, all
outcomes: 1
~
0
====
# One pick more isn't varied.
check --schedules 9 f~
define i32 @main() {
  br label %1
1:
  %2 = phi i32 [ 0, %0 ], [ %4, %1 ]
  %3 = call i32 @sched_yield()
  %4 = add i32 %2, 1
  %5 = icmp ult i32 %4, 2049
  br i1 %5, label %1, label %6
6:
  ret i32 0
}
declare i32 @sched_yield()
~
~
end: exit 0
reports: 0
blind: 0
verdict: clean
schedules: 1, more
outcomes: 1
~
0
====
"#;

/// Without threads there is one run.
static ALONE: &[u8] = br#"check --schedules 5 f~
define i32 @main() {
  ret i32 3
}
~
~
end: exit 3
reports: 0
blind: 0
verdict: clean
schedules: 1, all
outcomes: 1
~
0
====
# Each schedule repeats it.
check --schedules 5 --workers 4 f~
define i32 @main() {
  ret i32 undef
}
~
~
report 1: exit at site 1 in @main, part 0, bits 0xffffffff of i32
  origin 1: undef at site 1 in @main
end: reported
reports: 1
blind: 0
verdict: poisoned
schedules: 1, all
outcomes: 1
schedule: 00
~
77
====
check --schedules 1 --fill 00 f~
define i32 @main() {
  %1 = freeze i32 undef
  ret i32 %1
}
~
~
end: exit 0
reports: 0
blind: 1
verdict: unsure
schedules: 1, all
outcomes: 1
schedule: 00
~
0
====
# What isn't valid is refused.
check --schedules 5 f~
define i32 @main() {
  %1 = call i32 @sched_yield()
  ret i64 0
}
declare i32 @sched_yield()
~
~
refused 11: type at site 2, operand 0
~
5
====
"#;

#[test]
fn schedules_are_tried(rt: HostRuntime) -> Result<(), Fail> {
    assert!(rt; all_told::<_, Case>(&rt, rt.alloc(), &[ORDERS, DEADLOCK, ENDLESS, ALONE]));
    Ok(())
}
