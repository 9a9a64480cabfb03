//! The calls of threads, at a report and where a run traps: below them stands the call that made the thread. Sites and calls were
//! counted by hand.

use ms_top_rows::calls::Case;
use ms_top_rows::told::{all_run_alike, all_told};
use std::test::Fail;

/// Calls of `check`, of which `run` says the same where the module is first written with inserted code.
static CHECKED: &[u8] = br#"# The calls of a thread stand above the call that made it.
check --calls f~
declare i32 @pthread_create(ptr, ptr, ptr, ptr)
declare i32 @pthread_join(i64, ptr)
define i32 @use(i32 %x) {
  %c = icmp eq i32 %x, 0
  br i1 %c, label %a, label %b
a:
  ret i32 1
b:
  ret i32 0
}
define ptr @work(ptr %p) {
  %v = alloca i32
  %x = load i32, ptr %v
  %r = call i32 @use(i32 %x)
  ret ptr null
}
define i32 @main() {
  %id = alloca i64
  %c = call i32 @pthread_create(ptr %id, ptr null, ptr @work, ptr null)
  %t = load i64, ptr %id
  %j = call i32 @pthread_join(i64 %t, ptr null)
  ret i32 0
}
~
~
report 1: branch at site 2 in @use, part 0, bits 0x1 of i1
  called at site 7 in @work
  started at site 10 in @main
  origin 1: alloca at site 5 in @work
end: reported
reports: 1
blind: 0
verdict: poisoned
~
77
====
# The first function of a thread is called by none.
check --calls f~
declare i32 @pthread_create(ptr, ptr, ptr, ptr)
declare i32 @pthread_join(i64, ptr)
define i32 @use(i32 %x) {
  %c = icmp eq i32 %x, 0
  br i1 %c, label %a, label %b
a:
  ret i32 1
b:
  ret i32 0
}
define ptr @work(ptr %p) {
  %v = alloca i32
  %x = load i32, ptr %v
  %k = icmp eq i32 %x, 0
  br i1 %k, label %done, label %done
done:
  ret ptr null
}
define i32 @main() {
  %id = alloca i64
  %c = call i32 @pthread_create(ptr %id, ptr null, ptr @work, ptr null)
  %t = load i64, ptr %id
  %j = call i32 @pthread_join(i64 %t, ptr null)
  ret i32 0
}
~
~
report 1: branch at site 8 in @work, part 0, bits 0x1 of i1
  started at site 11 in @main
  origin 1: alloca at site 5 in @work
end: reported
reports: 1
blind: 0
verdict: poisoned
~
77
====
# A report of `main` itself has no line, in a program with threads too.
check --calls f~
declare i32 @pthread_create(ptr, ptr, ptr, ptr)
declare i32 @pthread_join(i64, ptr)
define i32 @use(i32 %x) {
  %c = icmp eq i32 %x, 0
  br i1 %c, label %a, label %b
a:
  ret i32 1
b:
  ret i32 0
}
define ptr @work(ptr %p) {
  %v = alloca i32
  %x = load i32, ptr %v
  ret ptr null
}
define i32 @main() {
  %id = alloca i64
  %c = call i32 @pthread_create(ptr %id, ptr null, ptr @work, ptr null)
  %t = load i64, ptr %id
  %j = call i32 @pthread_join(i64 %t, ptr null)
  ret i32 undef
}
~
~
report 1: exit at site 12 in @main, part 0, bits 0xffffffff of i32
  origin 3: undef at site 12 in @main
end: reported
reports: 1
blind: 0
verdict: poisoned
~
77
====
# A trap in a thread has its calls above the call that made it.
check --calls f~
declare i32 @pthread_create(ptr, ptr, ptr, ptr)
declare i32 @pthread_join(i64, ptr)
define i32 @d(i32 %n) {
  %q = udiv i32 1, %n
  ret i32 %q
}
define ptr @work(ptr %p) {
  %r = call i32 @d(i32 0)
  ret ptr null
}
define i32 @main() {
  %id = alloca i64
  %c = call i32 @pthread_create(ptr %id, ptr null, ptr @work, ptr null)
  %t = load i64, ptr %id
  %j = call i32 @pthread_join(i64 %t, ptr null)
  ret i32 0
}
~
~
end: trap zero-divisor at site 1 in @d
  called at site 3 in @work
  started at site 6 in @main
reports: 0
blind: 0
verdict: clean
~
3
====
"#;

static CASES: &[u8] = br#"# Where schedules are tried, those of the run that is told.
check --schedules 1 --calls f~
declare i32 @pthread_create(ptr, ptr, ptr, ptr)
declare i32 @pthread_join(i64, ptr)
define i32 @use(i32 %x) {
  %c = icmp eq i32 %x, 0
  br i1 %c, label %a, label %b
a:
  ret i32 1
b:
  ret i32 0
}
define ptr @work(ptr %p) {
  %v = alloca i32
  %x = load i32, ptr %v
  %r = call i32 @use(i32 %x)
  ret ptr null
}
define i32 @main() {
  %id = alloca i64
  %c = call i32 @pthread_create(ptr %id, ptr null, ptr @work, ptr null)
  %t = load i64, ptr %id
  %j = call i32 @pthread_join(i64 %t, ptr null)
  ret i32 0
}
~
~
report 1: branch at site 2 in @use, part 0, bits 0x1 of i1
  called at site 7 in @work
  started at site 10 in @main
  origin 1: alloca at site 5 in @work
end: reported
reports: 1
blind: 0
verdict: poisoned
schedules: 1, all
outcomes: 1
schedule: 0000
~
77
====
# In a deadlock no thread takes the step, so no call is told.
check --schedules 3 --calls f~
define ptr @w(ptr %0) {
  %2 = ptrtoint ptr %0 to i64
  %3 = call i32 @pthread_join(i64 %2, ptr null)
  ret ptr null
}
define i32 @main() {
  %1 = alloca i64
  %2 = inttoptr i64 2 to ptr
  %3 = inttoptr i64 1 to ptr
  %4 = call i32 @pthread_create(ptr %1, ptr null, ptr @w, ptr %2)
  %5 = call i32 @pthread_create(ptr %1, ptr null, ptr @w, ptr %3)
  %6 = call i32 @pthread_join(i64 1, ptr null)
  ret i32 0
}
declare i32 @pthread_create(ptr, ptr, ptr, ptr)
declare i32 @pthread_join(i64, ptr)
~
~
end: trap deadlock at site 9 in @main
reports: 0
blind: 0
verdict: clean
schedules: 3, more
outcomes: 1
~
3
====
"#;

#[test]
fn threads_have_their_calls(rt: HostRuntime) -> Result<(), Fail> {
    assert!(rt; all_told::<_, Case>(&rt, rt.alloc(), &[CHECKED, CASES]));
    Ok(())
}

#[test]
fn written_threads_have_their_calls(rt: HostRuntime) -> Result<(), Fail> {
    assert!(rt; all_run_alike(&rt, rt.alloc(), &[CHECKED]));
    Ok(())
}
