//! The way of the bits of a report: what `explain` says. The moves were worked out by hand.

use ms_top_rows::calls::{Beside, Call, Case, Row, all_agree, on_text, saying};
use ms_top_rows::told::all_told;
use std::test::Fail;

/// The closing lines of a run with a report.
const POISONED: &str = "end: reported\nreports: 1\nblind: 0\nverdict: poisoned\n";

static CASES: &[u8] = br#"explain f~
define i32 @main() {
  %1 = alloca i32
  %2 = load i32, ptr %1
  %3 = icmp eq i32 %2, 0
  br i1 %3, label %4, label %5
4:
  ret i32 0
5:
  ret i32 1
}
~
report 1: branch at site 4 in @main, part 0, bits 0x1 of i1
  origin 1: alloca at site 1 in @main
  move 0: site 1 in @main, root 1 to byte 0x720000000000
  move 1: site 2 in @main, byte 0x720000000000 to %2 of frame 0
  move 2: site 3 in @main, %2 of frame 0 to %3 of frame 0
  use: %3 of frame 0
~
end: reported
reports: 1
blind: 0
verdict: poisoned
~
77
====
# The chain names a store to a neighbour, with which the byte shares an origin.
explain f~
define i32 @main() {
  %1 = alloca [4 x i8]
  store i8 undef, ptr %1
  %2 = getelementptr i8, ptr %1, i64 1
  %3 = load i8, ptr %2
  %4 = zext i8 %3 to i32
  ret i32 %4
}
~
report 1: exit at site 6 in @main, part 0, bits 0xff of i32
  origin 3: stored at site 2 in @main
  origin 2: undef at site 2 in @main
  move 0: site 1 in @main, root 1 to byte 0x720000000001
  move 2: site 4 in @main, byte 0x720000000001 to %3 of frame 0
  move 3: site 5 in @main, %3 of frame 0 to %4 of frame 0
  use: %4 of frame 0
~
end: reported
reports: 1
blind: 0
verdict: poisoned
~
77
====
# Phis read what stood before the branch: the second one reads what the first one was before.
explain f~
define i32 @main() {
  br label %1
1:
  %2 = phi i32 [ undef, %0 ], [ %3, %1 ]
  %3 = phi i32 [ undef, %0 ], [ %2, %1 ]
  %4 = phi i1 [ true, %0 ], [ false, %1 ]
  br i1 %4, label %1, label %5
5:
  ret i32 %3
}
~
report 1: exit at site 6 in @main, part 0, bits 0xffffffff of i32
  origin 1: undef at site 2 in @main
  move 0: site 2 in @main, root 1 to %2 of frame 0
  move 3: site 3 in @main, %2 of frame 0 to %3 of frame 0
  use: %3 of frame 0
~
end: reported
reports: 1
blind: 0
verdict: poisoned
~
77
====
# Two phis change places, of which one is set: the second one reads the mask that the first one had before.
explain f~
define i32 @main() {
  br label %1
1:
  %2 = phi i32 [ undef, %0 ], [ %3, %1 ]
  %3 = phi i32 [ 0, %0 ], [ %2, %1 ]
  %4 = phi i1 [ true, %0 ], [ false, %1 ]
  br i1 %4, label %1, label %5
5:
  ret i32 %3
}
~
report 1: exit at site 6 in @main, part 0, bits 0xffffffff of i32
  origin 1: undef at site 2 in @main
  move 0: site 2 in @main, root 1 to %2 of frame 0
  move 1: site 3 in @main, %2 of frame 0 to %3 of frame 0
  use: %3 of frame 0
~
end: reported
reports: 1
blind: 0
verdict: poisoned
~
77
====
# The use itself is of a root.
explain f~
define i32 @main() {
  ret i32 undef
}
~
report 1: exit at site 1 in @main, part 0, bits 0xffffffff of i32
  origin 1: undef at site 1 in @main
  use: root 1
~
end: reported
reports: 1
blind: 0
verdict: poisoned
~
77
====
# A call writes a parameter, and a return the call's result.
explain f~
define i32 @main() {
  %1 = call i32 @same(i32 undef)
  ret i32 %1
}
define i32 @same(i32 %0) {
  ret i32 %0
}
~
report 1: exit at site 2 in @main, part 0, bits 0xffffffff of i32
  origin 1: undef at site 1 in @main
  move 0: site 1 in @main, root 1 to %0 of frame 1
  move 1: site 3 in @same, %0 of frame 1 to %1 of frame 0
  use: %1 of frame 0
~
end: reported
reports: 1
blind: 0
verdict: poisoned
~
77
====
# A byte of the first block is copied by `realloc`, and then over the next one.
explain f~
define i32 @main() {
  %1 = call ptr @malloc(i64 2)
  store i8 7, ptr %1
  %2 = call ptr @realloc(ptr %1, i64 4)
  %3 = getelementptr i8, ptr %2, i64 1
  %4 = call ptr @memmove(ptr %3, ptr %2, i64 3)
  %5 = getelementptr i8, ptr %2, i64 2
  %6 = load i8, ptr %5
  %7 = zext i8 %6 to i32
  ret i32 %7
}
declare ptr @malloc(i64)
declare ptr @realloc(ptr, i64)
declare ptr @memmove(ptr, ptr, i64)
~
report 1: exit at site 9 in @main, part 0, bits 0xff of i32
  origin 2: realloc at site 3 in @main
  move 0: site 1 in @main, root 1 to byte 0x710000000001
  move 1: site 3 in @main, byte 0x710000000001 to byte 0x710000000011
  move 3: site 5 in @main, byte 0x710000000011 to byte 0x710000000012
  move 4: site 7 in @main, byte 0x710000000012 to %6 of frame 0
  move 5: site 8 in @main, %6 of frame 0 to %7 of frame 0
  use: %7 of frame 0
~
end: reported
reports: 1
blind: 0
verdict: poisoned
~
77
====
# A word is one place: the way goes by the lower of two poisoned bytes.
explain f~
define i32 @main() {
  %1 = alloca [2 x i8]
  %2 = getelementptr i8, ptr %1, i64 1
  store i8 undef, ptr %2
  %3 = load i16, ptr %1
  %4 = lshr i16 %3, 8
  %5 = zext i16 %4 to i32
  ret i32 %5
}
~
report 1: exit at site 7 in @main, part 0, bits 0xff of i32
  origin 3: stored at site 3 in @main
  origin 2: undef at site 3 in @main
  move 0: site 1 in @main, root 1 to byte 0x720000000000
  move 2: site 4 in @main, byte 0x720000000000 to %3 of frame 0
  move 3: site 5 in @main, %3 of frame 0 to %4 of frame 0
  move 4: site 6 in @main, %4 of frame 0 to %5 of frame 0
  use: %5 of frame 0
~
end: reported
reports: 1
blind: 0
verdict: poisoned
~
77
====
# A result comes from the last poisoned operand, though the first one settles those bits.
explain f~
define i32 @main() {
  %1 = and i32 undef, 255
  %2 = or i32 %1, 65280
  %3 = and i32 undef, 65280
  %4 = or i32 %2, %3
  ret i32 %4
}
~
report 1: exit at site 5 in @main, part 0, bits 0xff of i32
  origin 2: undef at site 3 in @main
  move 2: site 3 in @main, root 2 to %3 of frame 0
  move 3: site 4 in @main, %3 of frame 0 to %4 of frame 0
  use: %4 of frame 0
~
end: reported
reports: 1
blind: 0
verdict: poisoned
~
77
====
# Frames are numbered as calls make them, also where one has returned.
explain f~
define i32 @main() {
  %1 = call i32 @same(i32 undef)
  %2 = call i32 @same(i32 %1)
  ret i32 %2
}
define i32 @same(i32 %0) {
  ret i32 %0
}
~
report 1: exit at site 3 in @main, part 0, bits 0xffffffff of i32
  origin 1: undef at site 1 in @main
  move 0: site 1 in @main, root 1 to %0 of frame 1
  move 1: site 4 in @same, %0 of frame 1 to %1 of frame 0
  move 2: site 2 in @main, %1 of frame 0 to %0 of frame 2
  move 3: site 4 in @same, %0 of frame 2 to %2 of frame 0
  use: %2 of frame 0
~
end: reported
reports: 1
blind: 0
verdict: poisoned
~
77
====
# A store poisons what a store before it had set.
explain f~
define i32 @main() {
  %1 = alloca i32
  store i32 0, ptr %1
  store i32 undef, ptr %1
  %2 = load i32, ptr %1
  ret i32 %2
}
~
report 1: exit at site 5 in @main, part 0, bits 0xffffffff of i32
  origin 3: stored at site 3 in @main
  origin 2: undef at site 3 in @main
  move 1: site 3 in @main, root 2 to byte 0x720000000000
  move 2: site 4 in @main, byte 0x720000000000 to %2 of frame 0
  use: %2 of frame 0
~
end: reported
reports: 1
blind: 0
verdict: poisoned
~
77
====
# A byte that was set parts what is copied into two moves, of which the second has the byte that is read.
explain f~
define i32 @main() {
  %1 = alloca [3 x i8]
  %2 = getelementptr i8, ptr %1, i64 1
  store i8 7, ptr %2
  %3 = call ptr @malloc(i64 3)
  %4 = call ptr @memcpy(ptr %3, ptr %1, i64 3)
  %5 = getelementptr i8, ptr %3, i64 2
  %6 = load i8, ptr %5
  %7 = zext i8 %6 to i32
  ret i32 %7
}
declare ptr @malloc(i64)
declare ptr @memcpy(ptr, ptr, i64)
~
report 1: exit at site 9 in @main, part 0, bits 0xff of i32
  origin 1: alloca at site 1 in @main
  move 0: site 1 in @main, root 1 to byte 0x720000000002
  move 3: site 5 in @main, byte 0x720000000002 to byte 0x710000000002
  move 4: site 7 in @main, byte 0x710000000002 to %6 of frame 0
  move 5: site 8 in @main, %6 of frame 0 to %7 of frame 0
  use: %7 of frame 0
~
end: reported
reports: 1
blind: 0
verdict: poisoned
~
77
====
# `memset` writes its word.
explain f~
define i32 @main() {
  %1 = call ptr @malloc(i64 2)
  %2 = call ptr @memset(ptr %1, i32 undef, i64 2)
  %3 = getelementptr i8, ptr %1, i64 1
  %4 = load i8, ptr %3
  %5 = zext i8 %4 to i32
  ret i32 %5
}
declare ptr @malloc(i64)
declare ptr @memset(ptr, i32, i64)
~
report 1: exit at site 6 in @main, part 0, bits 0xff of i32
  origin 3: stored at site 2 in @main
  origin 2: undef at site 2 in @main
  move 1: site 2 in @main, root 2 to byte 0x710000000001
  move 2: site 4 in @main, byte 0x710000000001 to %4 of frame 0
  move 3: site 5 in @main, %4 of frame 0 to %5 of frame 0
  use: %5 of frame 0
~
end: reported
reports: 1
blind: 0
verdict: poisoned
~
77
====
# Bytes that are printed are used where they stand.
explain f~
define i32 @main() {
  %1 = alloca [2 x i8]
  store i8 65, ptr %1
  %2 = call i64 @write(i32 1, ptr %1, i64 2)
  ret i32 0
}
declare i64 @write(i32, ptr, i64)
~
report 1: output at site 3 in @main, part 1, bits 0xff of i8
  origin 1: alloca at site 1 in @main
  move 0: site 1 in @main, root 1 to byte 0x720000000001
  use: byte 0x720000000001
~
end: reported
reports: 1
blind: 0
verdict: poisoned
~
77
====
# So is a line.
explain f~
define i32 @main() {
  %1 = alloca [2 x i8]
  store i8 65, ptr %1
  %2 = call i32 @puts(ptr %1)
  ret i32 0
}
declare i32 @puts(ptr)
~
report 1: string at site 3 in @main, part 1, bits 0xff of i8
  origin 1: alloca at site 1 in @main
  move 0: site 1 in @main, root 1 to byte 0x720000000001
  use: byte 0x720000000001
~
end: reported
reports: 1
blind: 0
verdict: poisoned
~
77
====
# The high byte of a word is poisoned, so the low one is where its bytes change places.
explain f~
define i32 @main() {
  %1 = alloca i16
  store i8 7, ptr %1
  %2 = load i16, ptr %1
  %3 = call i16 @llvm.bswap.i16(i16 %2)
  %4 = and i16 %3, 255
  %5 = zext i16 %4 to i32
  ret i32 %5
}
declare i16 @llvm.bswap.i16(i16)
~
report 1: exit at site 7 in @main, part 0, bits 0xff of i32
  origin 1: alloca at site 1 in @main
  move 0: site 1 in @main, root 1 to byte 0x720000000001
  move 1: site 3 in @main, byte 0x720000000001 to %2 of frame 0
  move 2: site 4 in @main, %2 of frame 0 to %3 of frame 0
  move 3: site 5 in @main, %3 of frame 0 to %4 of frame 0
  move 4: site 6 in @main, %4 of frame 0 to %5 of frame 0
  use: %5 of frame 0
~
end: reported
reports: 1
blind: 0
verdict: poisoned
~
77
====
# Functions that move bits: the last operand that is poisoned is the first one.
explain f~
define i32 @main() {
  %1 = call i8 @llvm.fshl.i8(i8 undef, i8 1, i8 4)
  %2 = call i8 @llvm.bitreverse.i8(i8 %1)
  %3 = call i8 @llvm.fshr.i8(i8 %2, i8 3, i8 4)
  %4 = zext i8 %3 to i32
  ret i32 %4
}
declare i8 @llvm.fshl.i8(i8, i8, i8)
declare i8 @llvm.bitreverse.i8(i8)
declare i8 @llvm.fshr.i8(i8, i8, i8)
~
report 1: exit at site 5 in @main, part 0, bits 0xf0 of i32
  origin 1: undef at site 1 in @main
  move 0: site 1 in @main, root 1 to %1 of frame 0
  move 1: site 2 in @main, %1 of frame 0 to %2 of frame 0
  move 2: site 3 in @main, %2 of frame 0 to %3 of frame 0
  move 3: site 4 in @main, %3 of frame 0 to %4 of frame 0
  use: %4 of frame 0
~
end: reported
reports: 1
blind: 0
verdict: poisoned
~
77
====
# A half of each of two words is shifted in; where both halves are clean nothing is told.
explain f~
define i32 @main() {
  %1 = and i8 undef, 15
  %2 = and i8 undef, 15
  %3 = call i8 @llvm.fshl.i8(i8 5, i8 %1, i8 4)
  %4 = call i8 @llvm.fshl.i8(i8 %1, i8 %2, i8 4)
  %5 = or i8 %3, %4
  %6 = zext i8 %5 to i32
  ret i32 %6
}
declare i8 @llvm.fshl.i8(i8, i8, i8)
~
report 1: exit at site 7 in @main, part 0, bits 0xa0 of i32
  origin 2: undef at site 2 in @main
  move 1: site 2 in @main, root 2 to %2 of frame 0
  move 2: site 4 in @main, %2 of frame 0 to %4 of frame 0
  move 3: site 5 in @main, %4 of frame 0 to %5 of frame 0
  move 4: site 6 in @main, %5 of frame 0 to %6 of frame 0
  use: %6 of frame 0
~
end: reported
reports: 1
blind: 0
verdict: poisoned
~
77
====
explain f~
define i32 @main() {
  ret i32 0
}
~
no report
~
end: exit 0
reports: 0
blind: 0
verdict: clean
~
0
====
explain --fill 07 f~
define i32 @main() {
  %1 = freeze i8 undef
  %2 = zext i8 %1 to i32
  ret i32 %2
}
~
no report
~
end: exit 7
reports: 0
blind: 1
verdict: unsure
~
0
====
explain f~
define i32 @main() {
  %q = udiv i32 1, 0
  ret i32 %q
}
~
no report
~
end: trap zero-divisor at site 1 in @main
reports: 0
blind: 0
verdict: clean
~
3
====
explain --steps 3 f~
define i32 @main() {
  %1 = alloca i32
  %2 = load i32, ptr %1
  %3 = icmp eq i32 %2, 0
  br i1 %3, label %4, label %5
4:
  ret i32 0
5:
  ret i32 1
}
~
no report
~
end: spent
reports: 0
blind: 0
verdict: clean
~
4
====
explain f~
define i32 @main() {~
~
refused 4: syntax at token 6, byte 20
~
5
====
explain f~
~
~
refused 13: no main
~
5
====
explain f~
define i32 @main() {
  %y = add i32 %x, 1
  %x = add i32 2, 3
  ret i32 %y
}
~
~
refused 15: undefined at site 1, path 0
~
5
====
explain g~
~
~
file fault: g
~
6
====
# Below each move stands its instruction.
explain --where f~
define i32 @main() {
  %1 = alloca i32
  %2 = load i32, ptr %1
  ret i32 %2
}
~
report 1: exit at site 3 in @main, part 0, bits 0xffffffff of i32
    f:4: ret i32 %2
  origin 1: alloca at site 1 in @main
    f:2: %1 = alloca i32
  move 0: site 1 in @main, root 1 to byte 0x720000000000
    f:2: %1 = alloca i32
  move 1: site 2 in @main, byte 0x720000000000 to %2 of frame 0
    f:3: %2 = load i32, ptr %1
  use: %2 of frame 0
~
end: reported
reports: 1
blind: 0
verdict: poisoned
~
77
====
explain --where f~
define i32 @main() {
  %q = udiv i32 1, 0
  ret i32 %q
}
~
no report
~
end: trap zero-divisor at site 1 in @main
    f:2: %q = udiv i32 1, 0
reports: 0
blind: 0
verdict: clean
~
3
====
"#;

/// A byte that is read from the standard input is clean, and one after it is not; an input isn't there without its option.
struct Read(
    &'static str,
    &'static [(&'static str, &'static str)],
    &'static str,
    &'static str,
    u8,
);

const READS: &str = r#"define i32 @main() {
  %1 = alloca [4 x i8]
  %2 = call i64 @read(i32 0, ptr %1, i64 4)
  %3 = getelementptr i8, ptr %1, i64 2
  %4 = load i8, ptr %3
  %5 = zext i8 %4 to i32
  ret i32 %5
}
declare i64 @read(i32, ptr, i64)
"#;

const SHORT: &str =
    "report 1: exit at site 6 in @main, part 0, bits 0xff of i32\n  origin 1: alloca at site 1 in @main\n  move 0: site 1 in @main, root 1 to byte 0x720000000002\n  move 1: site 4 in @main, byte 0x720000000002 to %4 of frame 0\n  move 2: site 5 in @main, %4 of frame 0 to %5 of frame 0\n  use: %5 of frame 0\n";

impl Row for Read {
    fn call(&self) -> Call<'static> {
        Call {
            beside: Beside::These(self.1),
            ..on_text(
                self.0,
                READS.as_bytes(),
                saying(self.2.as_bytes(), self.3, self.4),
            )
        }
    }
}

static READ: [Read; 3] = [
    Read(
        "explain --input i f",
        &[("i", "abc")],
        "no report\n",
        "end: exit 99\nreports: 0\nblind: 0\nverdict: clean\n",
        0,
    ),
    Read("explain --input i f", &[("i", "ab")], SHORT, POISONED, 77),
    Read("explain f", &[("i", "abc")], SHORT, POISONED, 77),
];

#[test]
fn reports_are_explained(rt: HostRuntime) -> Result<(), Fail> {
    assert!(rt;
        all_told::<_, Case>(&rt, rt.alloc(), &[CASES]) && all_agree(&rt, rt.alloc(), &[&READ])
    );
    Ok(())
}
