//! The calls that `explain` tells: those at its report, and below the first move those at the root. Sites and calls were counted
//! by hand.

use ms_top_rows::calls::Case;
use ms_top_rows::told::all_told;
use std::test::Fail;

static CASES: &[u8] = br#"# `explain` tells them of its report.
explain --calls f~
define i32 @use(i32 %0) {
  %2 = icmp eq i32 %0, 0
  br i1 %2, label %3, label %4
3:
  ret i32 1
4:
  ret i32 0
}
define i32 @main() {
  %1 = alloca i32
  %2 = load i32, ptr %1
  %3 = call i32 @use(i32 %2)
  ret i32 %3
}
~
report 1: branch at site 2 in @use, part 0, bits 0x1 of i1
  called at site 7 in @main
  origin 1: alloca at site 5 in @main
  move 0: site 5 in @main, root 1 to byte 0x720000000000
  move 1: site 6 in @main, byte 0x720000000000 to %2 of frame 0
  move 2: site 7 in @main, %2 of frame 0 to %0 of frame 1
  move 3: site 1 in @use, %0 of frame 1 to %2 of frame 1
  use: %2 of frame 1
~
end: reported
reports: 1
blind: 0
verdict: poisoned
~
77
====
# The calls that stood at the root are below the first move.
explain --calls f~
define ptr @make() {
  %1 = call ptr @malloc(i64 4)
  ret ptr %1
}
define i32 @use(i32 %0) {
  %2 = icmp eq i32 %0, 0
  br i1 %2, label %3, label %4
3:
  ret i32 1
4:
  ret i32 0
}
define i32 @main() {
  %1 = call ptr @make()
  %2 = load i32, ptr %1
  %3 = call i32 @use(i32 %2)
  ret i32 %3
}
declare ptr @malloc(i64)
~
report 1: branch at site 4 in @use, part 0, bits 0x1 of i1
  called at site 9 in @main
  origin 1: malloc at site 1 in @make
  move 0: site 1 in @make, root 1 to byte 0x710000000000
  called at site 7 in @main
  move 1: site 8 in @main, byte 0x710000000000 to %2 of frame 0
  move 2: site 9 in @main, %2 of frame 0 to %0 of frame 2
  move 3: site 3 in @use, %0 of frame 2 to %2 of frame 2
  use: %2 of frame 2
~
end: reported
reports: 1
blind: 0
verdict: poisoned
~
77
====
# `explain` tells them beside.
explain --calls f~
define i32 @d(i32 %n) {
  %q = udiv i32 1, %n
  ret i32 %q
}
define i32 @c(i32 %n) {
  %q = call i32 @d(i32 %n)
  ret i32 %q
}
define i32 @b(i32 %n) {
  %q = call i32 @c(i32 %n)
  ret i32 %q
}
define i32 @a(i32 %n) {
  %q = call i32 @b(i32 %n)
  ret i32 %q
}
define i32 @main() {
  %q = call i32 @a(i32 0)
  ret i32 %q
}
~
no report
~
end: trap zero-divisor at site 1 in @d
  called at site 3 in @c
  called at site 5 in @b
  called at site 7 in @a
  called at site 9 in @main
reports: 0
blind: 0
verdict: clean
~
3
====
# The report's own function is `main`, but two calls stood at the root.
explain --calls f~
define ptr @make() {
  %1 = call ptr @malloc(i64 4)
  ret ptr %1
}
define ptr @outer() {
  %1 = call ptr @make()
  ret ptr %1
}
define i32 @main() {
  %1 = call ptr @outer()
  %2 = load i32, ptr %1
  %3 = icmp eq i32 %2, 0
  br i1 %3, label %4, label %4
4:
  ret i32 0
}
declare ptr @malloc(i64)
~
report 1: branch at site 8 in @main, part 0, bits 0x1 of i1
  origin 1: malloc at site 1 in @make
  move 0: site 1 in @make, root 1 to byte 0x710000000000
  called at site 3 in @outer
  called at site 5 in @main
  move 1: site 6 in @main, byte 0x710000000000 to %2 of frame 0
  move 2: site 7 in @main, %2 of frame 0 to %3 of frame 0
  use: %3 of frame 0
~
end: reported
reports: 1
blind: 0
verdict: poisoned
~
77
====
# With places each of these lines has its own.
explain --where --calls f~
define ptr @make() {
  %1 = call ptr @malloc(i64 4)
  ret ptr %1
}
define ptr @outer() {
  %1 = call ptr @make()
  ret ptr %1
}
define i32 @main() {
  %1 = call ptr @outer()
  %2 = load i32, ptr %1
  %3 = icmp eq i32 %2, 0
  br i1 %3, label %4, label %4
4:
  ret i32 0
}
declare ptr @malloc(i64)
~
report 1: branch at site 8 in @main, part 0, bits 0x1 of i1
    f:13: br i1 %3, label %4, label %4
  origin 1: malloc at site 1 in @make
    f:2: %1 = call ptr @malloc(i64 4)
  move 0: site 1 in @make, root 1 to byte 0x710000000000
    f:2: %1 = call ptr @malloc(i64 4)
  called at site 3 in @outer
    f:6: %1 = call ptr @make()
  called at site 5 in @main
    f:10: %1 = call ptr @outer()
  move 1: site 6 in @main, byte 0x710000000000 to %2 of frame 0
    f:11: %2 = load i32, ptr %1
  move 2: site 7 in @main, %2 of frame 0 to %3 of frame 0
    f:12: %3 = icmp eq i32 %2, 0
  use: %3 of frame 0
~
end: reported
reports: 1
blind: 0
verdict: poisoned
~
77
====
# Where the use reads an undefined operand of its own, no move is made, so no call is told of a root.
explain --calls f~
define void @g() {
  br i1 undef, label %x, label %x
x:
  ret void
}
define i32 @main() {
  call void @g()
  ret i32 0
}
~
report 1: branch at site 1 in @g, part 0, bits 0x1 of i1
  called at site 3 in @main
  origin 1: undef at site 1 in @g
  use: root 1
~
end: reported
reports: 1
blind: 0
verdict: poisoned
~
77
====
"#;

#[test]
fn calls_stand_at_roots(rt: HostRuntime) -> Result<(), Fail> {
    assert!(rt; all_told::<_, Case>(&rt, rt.alloc(), &[CASES]));
    Ok(())
}
