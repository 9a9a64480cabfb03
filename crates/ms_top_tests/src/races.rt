//! Races on uninitialised memory that are found by trying schedules: which run finds them, and by which schedule that is repeated. What is
//! wanted was worked out by hand.

use ms_top_rows::calls::Case;
use ms_top_rows::told::all_told;
use std::test::Fail;

/// Races on uninitialised memory.
static RACES: &[u8] =
    br#"# The variable is set before the thread reads it, unless that is picked at the yield. The run ends there, after two picks.
check --schedules 9 f~
define ptr @w(ptr %0) {
  %2 = load i32, ptr %0
  %3 = icmp eq i32 %2, 0
  br i1 %3, label %4, label %5
4:
  br label %5
5:
  ret ptr null
}
define i32 @main() {
  %1 = alloca i64
  %2 = alloca i32
  %3 = call i32 @pthread_create(ptr %1, ptr null, ptr @w, ptr %2)
  %4 = call i32 @sched_yield()
  store i32 7, ptr %2
  %5 = call i32 @pthread_join(i64 1, ptr null)
  ret i32 0
}
declare i32 @pthread_create(ptr, ptr, ptr, ptr)
declare i32 @pthread_join(i64, ptr)
declare i32 @sched_yield()
~
~
report 1: branch at site 3 in @w, part 0, bits 0x1 of i1
  origin 2: alloca at site 7 in @main
end: reported
reports: 1
blind: 0
verdict: poisoned
schedules: 2, all
outcomes: 2
schedule: 0001
~
77
====
# The schedule that was told gives the same run.
check --schedule 0001 f~
define ptr @w(ptr %0) {
  %2 = load i32, ptr %0
  %3 = icmp eq i32 %2, 0
  br i1 %3, label %4, label %5
4:
  br label %5
5:
  ret ptr null
}
define i32 @main() {
  %1 = alloca i64
  %2 = alloca i32
  %3 = call i32 @pthread_create(ptr %1, ptr null, ptr @w, ptr %2)
  %4 = call i32 @sched_yield()
  store i32 7, ptr %2
  %5 = call i32 @pthread_join(i64 1, ptr null)
  ret i32 0
}
declare i32 @pthread_create(ptr, ptr, ptr, ptr)
declare i32 @pthread_join(i64, ptr)
declare i32 @sched_yield()
~
~
report 1: branch at site 3 in @w, part 0, bits 0x1 of i1
  origin 2: alloca at site 7 in @main
end: reported
reports: 1
blind: 0
verdict: poisoned
~
77
====
# The first run is clean.
check --schedules 1 f~
define ptr @w(ptr %0) {
  %2 = load i32, ptr %0
  %3 = icmp eq i32 %2, 0
  br i1 %3, label %4, label %5
4:
  br label %5
5:
  ret ptr null
}
define i32 @main() {
  %1 = alloca i64
  %2 = alloca i32
  %3 = call i32 @pthread_create(ptr %1, ptr null, ptr @w, ptr %2)
  %4 = call i32 @sched_yield()
  store i32 7, ptr %2
  %5 = call i32 @pthread_join(i64 1, ptr null)
  ret i32 0
}
declare i32 @pthread_create(ptr, ptr, ptr, ptr)
declare i32 @pthread_join(i64, ptr)
declare i32 @sched_yield()
~
~
end: exit 0
reports: 0
blind: 0
verdict: clean
schedules: 1, more
outcomes: 1
~
0
====
# With lines below each site, and as many workers as there may be.
check --where --workers 8 --schedules 9 f~
define ptr @w(ptr %0) {
  %2 = load i32, ptr %0
  %3 = icmp eq i32 %2, 0
  br i1 %3, label %4, label %5
4:
  br label %5
5:
  ret ptr null
}
define i32 @main() {
  %1 = alloca i64
  %2 = alloca i32
  %3 = call i32 @pthread_create(ptr %1, ptr null, ptr @w, ptr %2)
  %4 = call i32 @sched_yield()
  store i32 7, ptr %2
  %5 = call i32 @pthread_join(i64 1, ptr null)
  ret i32 0
}
declare i32 @pthread_create(ptr, ptr, ptr, ptr)
declare i32 @pthread_join(i64, ptr)
declare i32 @sched_yield()
~
~
report 1: branch at site 3 in @w, part 0, bits 0x1 of i1
    f:4: br i1 %3, label %4, label %5
  origin 2: alloca at site 7 in @main
    f:12: %2 = alloca i32
end: reported
reports: 1
blind: 0
verdict: poisoned
schedules: 2, all
outcomes: 2
schedule: 0001
~
77
====
# The first run has a report, so no other one is made.
check --schedules 9 f~
define ptr @w(ptr %0) {
  store i32 7, ptr %0
  ret ptr null
}
define i32 @main() {
  %1 = alloca i64
  %2 = alloca i32
  %3 = call i32 @pthread_create(ptr %1, ptr null, ptr @w, ptr %2)
  %4 = call i32 @sched_yield()
  %5 = load i32, ptr %2
  ret i32 %5
}
declare i32 @pthread_create(ptr, ptr, ptr, ptr)
declare i32 @sched_yield()
~
~
report 1: exit at site 8 in @main, part 0, bits 0xffffffff of i32
  origin 2: alloca at site 4 in @main
end: reported
reports: 1
blind: 0
verdict: poisoned
schedules: 1, more
outcomes: 1
schedule: 0000
~
77
====
# A blind use ends it too. The thread ends, `main` goes on at the yield and at the join: four picks. Both runs end alike.
check --schedules 9 f~
define ptr @w(ptr %0) {
  %2 = load i32, ptr %0
  %3 = freeze i32 %2
  ret ptr null
}
define i32 @main() {
  %1 = alloca i64
  %2 = alloca i32
  %3 = call i32 @pthread_create(ptr %1, ptr null, ptr @w, ptr %2)
  %4 = call i32 @sched_yield()
  store i32 7, ptr %2
  %5 = call i32 @pthread_join(i64 1, ptr null)
  ret i32 0
}
declare i32 @pthread_create(ptr, ptr, ptr, ptr)
declare i32 @pthread_join(i64, ptr)
declare i32 @sched_yield()
~
~
end: exit 0
reports: 0
blind: 1
verdict: unsure
schedules: 2, all
outcomes: 1
schedule: 00010000
~
0
====
"#;

#[test]
fn races_are_found(rt: HostRuntime) -> Result<(), Fail> {
    assert!(rt; all_told::<_, Case>(&rt, rt.alloc(), &[RACES]));
    Ok(())
}
