//! Programs with threads.

use ms_top_rows::calls::Case;
use ms_top_rows::told::all_told;
use std::test::Fail;

/// Threads that are made, and their numbers.
static CREATED: &[u8] = br#"# Of 64 threads that of `main` is one: the 64th creation is refused.
check f~
define ptr @w(ptr %0) {
  ret ptr %0
}
define i32 @main() {
  %1 = alloca i64
  br label %2
2:
  %3 = phi i32 [ 0, %0 ], [ %5, %2 ]
  %4 = call i32 @pthread_create(ptr %1, ptr null, ptr @w, ptr null)
  %5 = add i32 %3, 1
  %6 = icmp ult i32 %5, 64
  br i1 %6, label %2, label %7
7:
  ret i32 %4
}
declare i32 @pthread_create(ptr, ptr, ptr, ptr)
~
~
end: exit 11
reports: 0
blind: 0
verdict: clean
~
0
====
# It stores no number.
check f~
define ptr @w(ptr %0) {
  ret ptr %0
}
define i32 @main() {
  %1 = alloca i64
  br label %2
2:
  %3 = phi i32 [ 0, %0 ], [ %5, %2 ]
  %4 = call i32 @pthread_create(ptr %1, ptr null, ptr @w, ptr null)
  %5 = add i32 %3, 1
  %6 = icmp ult i32 %5, 64
  br i1 %6, label %2, label %7
7:
  %8 = load i64, ptr %1
  %9 = trunc i64 %8 to i32
  ret i32 %9
}
declare i32 @pthread_create(ptr, ptr, ptr, ptr)
~
~
end: exit 63
reports: 0
blind: 0
verdict: clean
~
0
====
# The number is stored initialised.
check f~
define ptr @w(ptr %0) {
  ret ptr %0
}
define i32 @main() {
  %1 = alloca i64
  %2 = call i32 @pthread_create(ptr %1, ptr null, ptr @w, ptr null)
  %3 = load i64, ptr %1
  %4 = trunc i64 %3 to i32
  ret i32 %4
}
declare i32 @pthread_create(ptr, ptr, ptr, ptr)
~
~
end: exit 1
reports: 0
blind: 0
verdict: clean
~
0
====
# The number is to be stored at a good address.
check f~
define ptr @w(ptr %0) {
  ret ptr %0
}
define i32 @main() {
  %1 = inttoptr i64 16 to ptr
  %2 = call i32 @pthread_create(ptr %1, ptr null, ptr @w, ptr null)
  ret i32 %2
}
declare i32 @pthread_create(ptr, ptr, ptr, ptr)
~
~
end: trap bad-address at site 3 in @main
reports: 0
blind: 0
verdict: clean
~
3
====
# An argument with uninitialised bits is reported.
check f~
define ptr @w(ptr %0) {
  ret ptr %0
}
define i32 @main() {
  %1 = alloca i64
  %2 = call i32 @pthread_create(ptr %1, ptr null, ptr @w, ptr undef)
  ret i32 %2
}
declare i32 @pthread_create(ptr, ptr, ptr, ptr)
~
~
report 1: pointer at site 3 in @main, part 3, bits 0xffffffffffffffff of i64
  origin 2: undef at site 3 in @main
end: reported
reports: 1
blind: 0
verdict: poisoned
~
77
====
# A function is no value elsewhere.
check f~
define ptr @w(ptr %0) {
  ret ptr %0
}
define i32 @main() {
  %1 = alloca ptr
  store ptr @w, ptr %1
  ret i32 0
}
~
~
refused 11: type at site 3, operand 0
~
5
====
# The function that begins is to be named.
check f~
define ptr @w(ptr %0) {
  ret ptr %0
}
define i32 @main() {
  %1 = alloca i64
  %2 = call i32 @pthread_create(ptr %1, ptr null, ptr null, ptr null)
  ret i32 %2
}
declare i32 @pthread_create(ptr, ptr, ptr, ptr)
~
~
refused 11: type at site 3, operand 2
~
5
====
# It takes a pointer and answers one.
check f~
define i32 @w(ptr %0) {
  ret i32 0
}
define i32 @main() {
  %1 = alloca i64
  %2 = call i32 @pthread_create(ptr %1, ptr null, ptr @w, ptr null)
  ret i32 %2
}
declare i32 @pthread_create(ptr, ptr, ptr, ptr)
~
~
refused 11: type at site 3, operand 2
~
5
====
"#;

/// What joins answer, and the words that threads answer.
static JOINED: &[u8] = br#"# The own number: `main` has 0.
check f~
define i32 @main() {
  %1 = call i32 @pthread_join(i64 0, ptr null)
  ret i32 %1
}
declare i32 @pthread_join(i64, ptr)
~
~
end: exit 35
reports: 0
blind: 0
verdict: clean
~
0
====
# A number that no thread has.
check f~
define i32 @main() {
  %1 = call i32 @pthread_join(i64 1, ptr null)
  ret i32 %1
}
declare i32 @pthread_join(i64, ptr)
~
~
end: exit 3
reports: 0
blind: 0
verdict: clean
~
0
====
# A thread that joins itself.
check f~
define ptr @w(ptr %0) {
  %2 = call i32 @pthread_join(i64 1, ptr null)
  %3 = zext i32 %2 to i64
  %4 = inttoptr i64 %3 to ptr
  ret ptr %4
}
define i32 @main() {
  %1 = alloca i64
  %2 = alloca i64
  %3 = call i32 @pthread_create(ptr %1, ptr null, ptr @w, ptr null)
  %4 = load i64, ptr %1
  %5 = call i32 @pthread_join(i64 %4, ptr %2)
  %6 = load i64, ptr %2
  %7 = trunc i64 %6 to i32
  ret i32 %7
}
declare i32 @pthread_create(ptr, ptr, ptr, ptr)
declare i32 @pthread_join(i64, ptr)
~
~
end: exit 35
reports: 0
blind: 0
verdict: clean
~
0
====
# The number of `main`, in another thread.
check f~
define ptr @w(ptr %0) {
  %2 = call i32 @pthread_join(i64 0, ptr null)
  %3 = zext i32 %2 to i64
  %4 = inttoptr i64 %3 to ptr
  ret ptr %4
}
define i32 @main() {
  %1 = alloca i64
  %2 = alloca i64
  %3 = call i32 @pthread_create(ptr %1, ptr null, ptr @w, ptr null)
  %4 = load i64, ptr %1
  %5 = call i32 @pthread_join(i64 %4, ptr %2)
  %6 = load i64, ptr %2
  %7 = trunc i64 %6 to i32
  ret i32 %7
}
declare i32 @pthread_create(ptr, ptr, ptr, ptr)
declare i32 @pthread_join(i64, ptr)
~
~
end: exit 3
reports: 0
blind: 0
verdict: clean
~
0
====
# A thread is joined once.
check f~
define ptr @w(ptr %0) {
  ret ptr %0
}
define i32 @main() {
  %1 = alloca i64
  %2 = call i32 @pthread_create(ptr %1, ptr null, ptr @w, ptr null)
  %3 = call i32 @pthread_join(i64 1, ptr null)
  %4 = call i32 @pthread_join(i64 1, ptr null)
  %5 = mul i32 %3, 10
  %6 = add i32 %4, %5
  ret i32 %6
}
declare i32 @pthread_create(ptr, ptr, ptr, ptr)
declare i32 @pthread_join(i64, ptr)
~
~
end: exit 3
reports: 0
blind: 0
verdict: clean
~
0
====
# The word that a thread answers, and its argument.
check f~
define ptr @w(ptr %0) {
  ret ptr %0
}
define i32 @main() {
  %1 = alloca i64
  %2 = alloca i64
  %3 = inttoptr i64 42 to ptr
  %4 = call i32 @pthread_create(ptr %1, ptr null, ptr @w, ptr %3)
  %5 = call i32 @pthread_join(i64 1, ptr %2)
  %6 = load i64, ptr %2
  %7 = trunc i64 %6 to i32
  ret i32 %7
}
declare i32 @pthread_create(ptr, ptr, ptr, ptr)
declare i32 @pthread_join(i64, ptr)
~
~
end: exit 42
reports: 0
blind: 0
verdict: clean
~
0
====
# A word with uninitialised bits: the join stores them.
check f~
define ptr @w(ptr %0) {
  %2 = and i64 undef, 255
  %3 = inttoptr i64 %2 to ptr
  ret ptr %3
}
define i32 @main() {
  %1 = alloca i64
  %2 = alloca i64
  %3 = call i32 @pthread_create(ptr %1, ptr null, ptr @w, ptr null)
  %4 = load i64, ptr %1
  %5 = call i32 @pthread_join(i64 %4, ptr %2)
  %6 = load i64, ptr %2
  %7 = trunc i64 %6 to i32
  ret i32 %7
}
declare i32 @pthread_create(ptr, ptr, ptr, ptr)
declare i32 @pthread_join(i64, ptr)
~
~
report 1: exit at site 11 in @main, part 0, bits 0xff of i32
  origin 4: stored at site 8 in @main
  origin 1: undef at site 1 in @w
end: reported
reports: 1
blind: 0
verdict: poisoned
~
77
====
# Nothing is stored at null.
check f~
define ptr @w(ptr %0) {
  %2 = and i64 undef, 255
  %3 = inttoptr i64 %2 to ptr
  ret ptr %3
}
define i32 @main() {
  %1 = alloca i64
  %2 = call i32 @pthread_create(ptr %1, ptr null, ptr @w, ptr null)
  %3 = call i32 @pthread_join(i64 1, ptr null)
  ret i32 %3
}
declare i32 @pthread_create(ptr, ptr, ptr, ptr)
declare i32 @pthread_join(i64, ptr)
~
~
end: exit 0
reports: 0
blind: 0
verdict: clean
~
0
====
# And so is the word.
check f~
define ptr @w(ptr %0) {
  ret ptr %0
}
define i32 @main() {
  %1 = alloca i64
  %2 = call i32 @pthread_create(ptr %1, ptr null, ptr @w, ptr null)
  %3 = inttoptr i64 16 to ptr
  %4 = call i32 @pthread_join(i64 1, ptr %3)
  ret i32 %4
}
declare i32 @pthread_create(ptr, ptr, ptr, ptr)
declare i32 @pthread_join(i64, ptr)
~
~
end: trap bad-address at site 5 in @main
reports: 0
blind: 0
verdict: clean
~
3
====
# So is the number of a join.
check f~
define i32 @main() {
  %1 = call i32 @pthread_join(i64 undef, ptr null)
  ret i32 %1
}
declare i32 @pthread_join(i64, ptr)
~
~
report 1: value at site 1 in @main, part 0, bits 0xffffffffffffffff of i64
  origin 1: undef at site 1 in @main
end: reported
reports: 1
blind: 0
verdict: poisoned
~
77
====
# In a run the word is not reported.
run f~
define ptr @w(ptr %0) {
  %2 = and i64 undef, 255
  %3 = inttoptr i64 %2 to ptr
  ret ptr %3
}
define i32 @main() {
  %1 = alloca i64
  %2 = alloca i64
  %3 = call i32 @pthread_create(ptr %1, ptr null, ptr @w, ptr null)
  %4 = load i64, ptr %1
  %5 = call i32 @pthread_join(i64 %4, ptr %2)
  %6 = load i64, ptr %2
  %7 = trunc i64 %6 to i32
  ret i32 %7
}
declare i32 @pthread_create(ptr, ptr, ptr, ptr)
declare i32 @pthread_join(i64, ptr)
~
~
end: exit 165
reports: 0
blind: 0
~
0
====
"#;

/// How runs of threads end, and under which schedule.
static ENDED: &[u8] = br#"# `exit` in a thread ends the run.
check f~
define ptr @w(ptr %0) {
  call void @exit(i32 7)
  ret ptr null
}
define i32 @main() {
  %1 = alloca i64
  %2 = alloca i64
  %3 = call i32 @pthread_create(ptr %1, ptr null, ptr @w, ptr null)
  %4 = load i64, ptr %1
  %5 = call i32 @pthread_join(i64 %4, ptr %2)
  %6 = load i64, ptr %2
  %7 = trunc i64 %6 to i32
  ret i32 %7
}
declare i32 @pthread_create(ptr, ptr, ptr, ptr)
declare i32 @pthread_join(i64, ptr)
declare void @exit(i32)
~
~
end: exit 7
reports: 0
blind: 0
verdict: clean
~
0
====
# So does a trap.
check f~
define ptr @w(ptr %0) {
  store i8 0, ptr null
  ret ptr null
}
define i32 @main() {
  %1 = alloca i64
  %2 = alloca i64
  %3 = call i32 @pthread_create(ptr %1, ptr null, ptr @w, ptr null)
  %4 = load i64, ptr %1
  %5 = call i32 @pthread_join(i64 %4, ptr %2)
  %6 = load i64, ptr %2
  %7 = trunc i64 %6 to i32
  ret i32 %7
}
declare i32 @pthread_create(ptr, ptr, ptr, ptr)
declare i32 @pthread_join(i64, ptr)
~
~
end: trap bad-address at site 1 in @w
reports: 0
blind: 0
verdict: clean
~
3
====
# And a return from `main`, though another thread has not begun.
check f~
define ptr @w(ptr %0) {
  %2 = call i32 @putchar(i32 66)
  ret ptr null
}
define i32 @main() {
  %1 = alloca i64
  %2 = call i32 @pthread_create(ptr %1, ptr null, ptr @w, ptr null)
  ret i32 %2
}
declare i32 @pthread_create(ptr, ptr, ptr, ptr)
declare i32 @putchar(i32)
~
~
end: exit 0
reports: 0
blind: 0
verdict: clean
~
0
====
# No step is left at a pick: the call is not done.
check --steps 1 f~
define i32 @main() {
  %1 = call i32 @sched_yield()
  ret i32 %1
}
declare i32 @sched_yield()
~
~
end: spent
reports: 0
blind: 0
verdict: clean
~
4
====
# With one step more it is.
check --steps 2 f~
define i32 @main() {
  %1 = call i32 @sched_yield()
  ret i32 %1
}
declare i32 @sched_yield()
~
~
end: exit 0
reports: 0
blind: 0
verdict: clean
~
0
====
# A race: the second thread stores last.
check f~
@g = global i32 0
define ptr @w(ptr %0) {
  %2 = ptrtoint ptr %0 to i64
  %3 = trunc i64 %2 to i32
  store i32 %3, ptr @g
  ret ptr null
}
define i32 @main() {
  %1 = alloca i64
  %2 = inttoptr i64 1 to ptr
  %3 = inttoptr i64 2 to ptr
  %4 = call i32 @pthread_create(ptr %1, ptr null, ptr @w, ptr %2)
  %5 = call i32 @pthread_create(ptr %1, ptr null, ptr @w, ptr %3)
  %6 = call i32 @pthread_join(i64 1, ptr null)
  %7 = call i32 @pthread_join(i64 2, ptr null)
  %8 = load i32, ptr @g
  ret i32 %8
}
declare i32 @pthread_create(ptr, ptr, ptr, ptr)
declare i32 @pthread_join(i64, ptr)
~
~
end: exit 2
reports: 0
blind: 0
verdict: clean
~
0
====
# Under another schedule the first one does.
check --schedule 00000100 f~
@g = global i32 0
define ptr @w(ptr %0) {
  %2 = ptrtoint ptr %0 to i64
  %3 = trunc i64 %2 to i32
  store i32 %3, ptr @g
  ret ptr null
}
define i32 @main() {
  %1 = alloca i64
  %2 = inttoptr i64 1 to ptr
  %3 = inttoptr i64 2 to ptr
  %4 = call i32 @pthread_create(ptr %1, ptr null, ptr @w, ptr %2)
  %5 = call i32 @pthread_create(ptr %1, ptr null, ptr @w, ptr %3)
  %6 = call i32 @pthread_join(i64 1, ptr null)
  %7 = call i32 @pthread_join(i64 2, ptr null)
  %8 = load i32, ptr @g
  ret i32 %8
}
declare i32 @pthread_create(ptr, ptr, ptr, ptr)
declare i32 @pthread_join(i64, ptr)
~
~
end: exit 1
reports: 0
blind: 0
verdict: clean
~
0
====
# Two threads that wait for each other, and `main` for one.
check f~
define ptr @w(ptr %0) {
  %2 = ptrtoint ptr %0 to i64
  %3 = call i32 @pthread_join(i64 %2, ptr null)
  ret ptr null
}
define i32 @main() {
  %1 = alloca i64
  %2 = inttoptr i64 2 to ptr
  %3 = inttoptr i64 1 to ptr
  %4 = call i32 @pthread_create(ptr %1, ptr null, ptr @w, ptr %2)
  %5 = call i32 @pthread_create(ptr %1, ptr null, ptr @w, ptr %3)
  %6 = call i32 @pthread_join(i64 1, ptr null)
  ret i32 0
}
declare i32 @pthread_create(ptr, ptr, ptr, ptr)
declare i32 @pthread_join(i64, ptr)
~
~
end: trap deadlock at site 9 in @main
reports: 0
blind: 0
verdict: clean
~
3
====
"#;

/// What a thread has of memory when it begins, and until it ends.
static STARTED: &[u8] = br#"# A thread's `alloca` ends with its frame.
check f~
define ptr @w(ptr %0) {
  %2 = alloca i64
  ret ptr %2
}
define i32 @main() {
  %1 = alloca i64
  %2 = alloca ptr
  %3 = call i32 @pthread_create(ptr %1, ptr null, ptr @w, ptr null)
  %4 = call i32 @pthread_join(i64 1, ptr %2)
  %5 = load ptr, ptr %2
  %6 = load i8, ptr %5
  ret i32 0
}
declare i32 @pthread_create(ptr, ptr, ptr, ptr)
declare i32 @pthread_join(i64, ptr)
~
~
end: trap bad-address at site 8 in @main
reports: 0
blind: 0
verdict: clean
~
3
====
# Unless it was freed before, which is allowed: it is a block of the heap.
check f~
define ptr @w(ptr %0) {
  %2 = alloca i64
  call void @free(ptr %2)
  ret ptr null
}
define i32 @main() {
  %1 = alloca i64
  %2 = call i32 @pthread_create(ptr %1, ptr null, ptr @w, ptr null)
  %3 = call i32 @pthread_join(i64 1, ptr null)
  ret i32 %3
}
declare i32 @pthread_create(ptr, ptr, ptr, ptr)
declare i32 @pthread_join(i64, ptr)
declare void @free(ptr)
~
~
end: exit 0
reports: 0
blind: 0
verdict: clean
~
0
====
# The first parameter of a thread is initialised, whatever was handed over before.
check f~
define ptr @w(ptr %0) {
  %2 = ptrtoint ptr %0 to i64
  %3 = icmp eq i64 %2, 0
  br i1 %3, label %4, label %5
4:
  ret ptr null
5:
  ret ptr %0
}
define ptr @f(ptr %0) {
  ret ptr %0
}
define i32 @main() {
  %1 = alloca i64
  %2 = call ptr @f(ptr undef)
  %3 = call i32 @pthread_create(ptr %1, ptr null, ptr @w, ptr null)
  %4 = call i32 @pthread_join(i64 1, ptr null)
  ret i32 %4
}
declare i32 @pthread_create(ptr, ptr, ptr, ptr)
declare i32 @pthread_join(i64, ptr)
~
~
end: exit 0
reports: 0
blind: 0
verdict: clean
~
0
====
"#;

#[test]
fn threads_go_on_by_their_schedule(rt: HostRuntime) -> Result<(), Fail> {
    assert!(rt; all_told::<_, Case>(&rt, rt.alloc(), &[CREATED, JOINED, ENDED, STARTED]));
    Ok(())
}
