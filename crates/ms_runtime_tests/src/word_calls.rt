//! What `check` says of calls of functions of whole words. Words, masks and origins were worked out by hand.

use crate::word_masks::{BLIND, MASKS, THREE_MASKS};
use ms_top_rows::calls::Case;
use ms_top_rows::told::{all_told, all_told_twice};
use std::alloc::Global;
use std::test::Fail;
use std::thread::Threads;

/// Each function answers.
static ANSWERS: &[u8] = br#"check f~
define i32 @main() {
  %1 = call i32 @llvm.ctpop.i32(i32 240)
  ret i32 %1
}
declare i32 @llvm.ctpop.i32(i32)
~
~
end: exit 4
reports: 0
blind: 0
verdict: clean
~
0
====
check f~
define i32 @main() {
  %1 = call i16 @llvm.ctlz.i16(i16 1, i1 true)
  %2 = zext i16 %1 to i32
  ret i32 %2
}
declare i16 @llvm.ctlz.i16(i16, i1 immarg)
~
~
end: exit 15
reports: 0
blind: 0
verdict: clean
~
0
====
check f~
define i32 @main() {
  %1 = call i64 @llvm.cttz.i64(i64 0, i1 false)
  %2 = trunc i64 %1 to i32
  ret i32 %2
}
declare i64 @llvm.cttz.i64(i64, i1 immarg)
~
~
end: exit 64
reports: 0
blind: 0
verdict: clean
~
0
====
check f~
define i32 @main() {
  %1 = call i8 @llvm.cttz.i8(i8 40, i1 true)
  %2 = zext i8 %1 to i32
  ret i32 %2
}
declare i8 @llvm.cttz.i8(i8, i1 immarg)
~
~
end: exit 3
reports: 0
blind: 0
verdict: clean
~
0
====
check f~
define i32 @main() {
  %1 = call i32 @llvm.bswap.i32(i32 83886080)
  ret i32 %1
}
declare i32 @llvm.bswap.i32(i32)
~
~
end: exit 5
reports: 0
blind: 0
verdict: clean
~
0
====
check f~
define i32 @main() {
  %1 = call i16 @llvm.bswap.i16(i16 258)
  %2 = zext i16 %1 to i32
  ret i32 %2
}
declare i16 @llvm.bswap.i16(i16)
~
~
end: exit 513
reports: 0
blind: 0
verdict: clean
~
0
====
check f~
define i32 @main() {
  %1 = call i8 @llvm.bitreverse.i8(i8 3)
  %2 = zext i8 %1 to i32
  ret i32 %2
}
declare i8 @llvm.bitreverse.i8(i8)
~
~
end: exit 192
reports: 0
blind: 0
verdict: clean
~
0
====
check f~
define i32 @main() {
  %1 = call i32 @llvm.abs.i32(i32 -7, i1 true)
  ret i32 %1
}
declare i32 @llvm.abs.i32(i32, i1 immarg)
~
~
end: exit 7
reports: 0
blind: 0
verdict: clean
~
0
====
check f~
define i32 @main() {
  %1 = call i8 @llvm.abs.i8(i8 -128, i1 false)
  %2 = zext i8 %1 to i32
  ret i32 %2
}
declare i8 @llvm.abs.i8(i8, i1 immarg)
~
~
end: exit 128
reports: 0
blind: 0
verdict: clean
~
0
====
check f~
define i32 @main() {
  %1 = call i32 @llvm.smax.i32(i32 -1, i32 5)
  ret i32 %1
}
declare i32 @llvm.smax.i32(i32, i32)
~
~
end: exit 5
reports: 0
blind: 0
verdict: clean
~
0
====
check f~
define i32 @main() {
  %1 = call i8 @llvm.smin.i8(i8 -1, i8 5)
  %2 = zext i8 %1 to i32
  ret i32 %2
}
declare i8 @llvm.smin.i8(i8, i8)
~
~
end: exit 255
reports: 0
blind: 0
verdict: clean
~
0
====
check f~
define i32 @main() {
  %1 = call i8 @llvm.umax.i8(i8 -1, i8 5)
  %2 = zext i8 %1 to i32
  ret i32 %2
}
declare i8 @llvm.umax.i8(i8, i8)
~
~
end: exit 255
reports: 0
blind: 0
verdict: clean
~
0
====
check f~
define i32 @main() {
  %1 = call i32 @llvm.umin.i32(i32 -1, i32 5)
  ret i32 %1
}
declare i32 @llvm.umin.i32(i32, i32)
~
~
end: exit 5
reports: 0
blind: 0
verdict: clean
~
0
====
check f~
define i32 @main() {
  %1 = call i8 @llvm.fshl.i8(i8 1, i8 128, i8 9)
  %2 = zext i8 %1 to i32
  ret i32 %2
}
declare i8 @llvm.fshl.i8(i8, i8, i8)
~
~
end: exit 3
reports: 0
blind: 0
verdict: clean
~
0
====
check f~
define i32 @main() {
  %1 = call i8 @llvm.fshr.i8(i8 1, i8 128, i8 1)
  %2 = zext i8 %1 to i32
  ret i32 %2
}
declare i8 @llvm.fshr.i8(i8, i8, i8)
~
~
end: exit 192
reports: 0
blind: 0
verdict: clean
~
0
====
check f~
define i32 @main() {
  %1 = call i8 @llvm.fshr.i8(i8 1, i8 128, i8 8)
  %2 = zext i8 %1 to i32
  ret i32 %2
}
declare i8 @llvm.fshr.i8(i8, i8, i8)
~
~
end: exit 128
reports: 0
blind: 0
verdict: clean
~
0
====
check f~
define i32 @main() {
  %1 = call i8 @llvm.uadd.sat.i8(i8 200, i8 100)
  %2 = zext i8 %1 to i32
  ret i32 %2
}
declare i8 @llvm.uadd.sat.i8(i8, i8)
~
~
end: exit 255
reports: 0
blind: 0
verdict: clean
~
0
====
check f~
define i32 @main() {
  %1 = call i8 @llvm.usub.sat.i8(i8 1, i8 2)
  %2 = zext i8 %1 to i32
  ret i32 %2
}
declare i8 @llvm.usub.sat.i8(i8, i8)
~
~
end: exit 0
reports: 0
blind: 0
verdict: clean
~
0
====
check f~
define i32 @main() {
  %1 = call i8 @llvm.sadd.sat.i8(i8 100, i8 100)
  %2 = zext i8 %1 to i32
  ret i32 %2
}
declare i8 @llvm.sadd.sat.i8(i8, i8)
~
~
end: exit 127
reports: 0
blind: 0
verdict: clean
~
0
====
check f~
define i32 @main() {
  %1 = call i8 @llvm.ssub.sat.i8(i8 -100, i8 100)
  %2 = zext i8 %1 to i32
  ret i32 %2
}
declare i8 @llvm.ssub.sat.i8(i8, i8)
~
~
end: exit 128
reports: 0
blind: 0
verdict: clean
~
0
====
check f~
define i32 @main() {
  %1 = call i64 @llvm.expect.i64(i64 6, i64 0)
  %2 = trunc i64 %1 to i32
  ret i32 %2
}
declare i64 @llvm.expect.i64(i64, i64)
~
~
end: exit 6
reports: 0
blind: 0
verdict: clean
~
0
====
"#;

/// Of a flag that is broken there is a trap.
static BROKEN: &[u8] = br#"check f~
define i32 @main() {
  %1 = call i32 @llvm.ctlz.i32(i32 0, i1 true)
  ret i32 %1
}
declare i32 @llvm.ctlz.i32(i32, i1 immarg)
~
~
end: trap zero-poison at site 1 in @main
reports: 0
blind: 0
verdict: clean
~
3
====
check f~
define i32 @main() {
  %1 = call i8 @llvm.cttz.i8(i8 0, i1 true)
  %2 = zext i8 %1 to i32
  ret i32 %2
}
declare i8 @llvm.cttz.i8(i8, i1 immarg)
~
~
end: trap zero-poison at site 1 in @main
reports: 0
blind: 0
verdict: clean
~
3
====
check f~
define i32 @main() {
  %1 = call i8 @llvm.abs.i8(i8 -128, i1 true)
  %2 = zext i8 %1 to i32
  ret i32 %2
}
declare i8 @llvm.abs.i8(i8, i1 immarg)
~
~
end: trap nsw at site 1 in @main
reports: 0
blind: 0
verdict: clean
~
3
====
"#;

/// Neither a call's inserted code nor that of its operands takes a step.
static STEPS: &[u8] = br#"check --steps 3 f~
define i32 @main() { %1 = and i8 undef, 9 %2 = call i8 @llvm.cttz.i8(i8 %1, i1 true) ret i32 6 } declare i8 @llvm.cttz.i8(i8, i1)~
~
end: exit 6
reports: 0
blind: 1
verdict: unsure
~
0
====
check --steps 2 f~
define i32 @main() { %1 = and i8 undef, 9 %2 = call i8 @llvm.cttz.i8(i8 %1, i1 true) ret i32 6 } declare i8 @llvm.cttz.i8(i8, i1)~
~
end: spent
reports: 0
blind: 1
verdict: unsure
~
4
====
"#;

/// Whether three calls of each function show the masks, and inserted code takes no step.
fn masks_are_shown<R: Threads + Sync + Eprint>(rt: &R, alloc: Global) -> bool {
    all_told::<_, Case>(rt, alloc, &[THREE_MASKS, STEPS])
}

#[test]
fn words_are_answered(rt: HostRuntime) -> Result<(), Fail> {
    assert!(rt;
        masks_are_shown(&rt, rt.alloc())
            && all_told_twice::<_, Case>(&rt, rt.alloc(), &[ANSWERS, BROKEN, MASKS, BLIND])
    );
    Ok(())
}
