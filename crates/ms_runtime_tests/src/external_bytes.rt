//! What `check` says of the bytes that externals read, and of shadow and origins after their calls. Masks, sites and origins
//! were worked out by hand.

use crate::block_bytes::{BLOCKS, COPIES, MOVED_BLOCKS};
use crate::read_bytes::{COMPARED, STRINGS};
use ms_top_rows::calls::{Case, Terms, all_agree};
use ms_top_rows::modules::Checked;
use ms_top_rows::told::all_told_twice;
use std::alloc::Global;
use std::test::Fail;
use std::thread::Threads;

/// Bytes that are set have the mask of the value.
static SETS: &[u8] = br#"# Four bytes 5.
check f~
define i32 @main() {
  %1 = alloca i32
  %2 = call ptr @memset(ptr %1, i32 261, i64 4)
  %3 = load i32, ptr %2
  ret i32 %3
}
declare ptr @memset(ptr, i32, i64)
~
~
end: exit 84215045
reports: 0
blind: 0
verdict: clean
~
0
====
check f~
define i32 @main() {
  %1 = alloca i32
  %2 = and i32 undef, 129
  %3 = call ptr @memset(ptr %1, i32 %2, i64 4)
  %4 = load i32, ptr %1
  ret i32 %4
}
declare ptr @memset(ptr, i32, i64)
~
~
report 1: exit at site 5 in @main, part 0, bits 0x81818181 of i32
  origin 3: stored at site 3 in @main
  origin 2: undef at site 2 in @main
end: reported
reports: 1
blind: 0
verdict: poisoned
~
77
====
check f~
define i32 @main() {
  %1 = alloca i32
  %2 = call ptr @memset(ptr %1, i32 undef, i64 4)
  %3 = load i32, ptr %1
  ret i32 %3
}
declare ptr @memset(ptr, i32, i64)
~
~
report 1: exit at site 4 in @main, part 0, bits 0xffffffff of i32
  origin 3: stored at site 2 in @main
  origin 2: undef at site 2 in @main
end: reported
reports: 1
blind: 0
verdict: poisoned
~
77
====
# The low byte of the mask alone counts.
check f~
define i32 @main() {
  %1 = alloca i32
  %2 = and i32 undef, 256
  %3 = call ptr @memset(ptr %1, i32 %2, i64 4)
  %4 = load i32, ptr %1
  ret i32 %4
}
declare ptr @memset(ptr, i32, i64)
~
~
end: exit 0
reports: 0
blind: 0
verdict: clean
~
0
====
# Where it is 0, or there are no bytes, no pair is made, so the next pair is the first.
check f~
define i32 @main() {
  %1 = alloca i32
  %2 = and i32 undef, 256
  %3 = call ptr @memset(ptr %1, i32 %2, i64 4)
  store i32 %2, ptr %1
  %4 = load i32, ptr %1
  ret i32 %4
}
declare ptr @memset(ptr, i32, i64)
~
~
report 1: exit at site 6 in @main, part 0, bits 0x100 of i32
  origin 3: stored at site 4 in @main
  origin 2: undef at site 2 in @main
end: reported
reports: 1
blind: 0
verdict: poisoned
~
77
====
check f~
define i32 @main() {
  %1 = alloca i32
  %2 = call ptr @memset(ptr %1, i32 undef, i64 0)
  store i32 undef, ptr %1
  %3 = load i32, ptr %1
  ret i32 %3
}
declare ptr @memset(ptr, i32, i64)
~
~
report 1: exit at site 5 in @main, part 0, bits 0xffffffff of i32
  origin 4: stored at site 3 in @main
  origin 3: undef at site 3 in @main
end: reported
reports: 1
blind: 0
verdict: poisoned
~
77
====
# A clean value leaves the cells, which hold for the other two bytes.
check f~
define i32 @main() {
  %1 = alloca i32
  store i32 undef, ptr %1
  %2 = call ptr @memset(ptr %1, i32 0, i64 2)
  %3 = load i32, ptr %1
  ret i32 %3
}
declare ptr @memset(ptr, i32, i64)
~
~
report 1: exit at site 5 in @main, part 0, bits 0xffff0000 of i32
  origin 3: stored at site 2 in @main
  origin 2: undef at site 2 in @main
end: reported
reports: 1
blind: 0
verdict: poisoned
~
77
====
# The fifth byte shares its cell with the eighth.
check f~
define i32 @main() {
  %1 = alloca [8 x i8]
  %2 = and i32 undef, 1
  %3 = call ptr @memset(ptr %1, i32 %2, i64 5)
  %4 = getelementptr i8, ptr %1, i64 7
  %5 = load i8, ptr %4
  %6 = zext i8 %5 to i32
  ret i32 %6
}
declare ptr @memset(ptr, i32, i64)
~
~
report 1: exit at site 7 in @main, part 0, bits 0xff of i32
  origin 3: stored at site 3 in @main
  origin 2: undef at site 2 in @main
end: reported
reports: 1
blind: 0
verdict: poisoned
~
77
====
check f~
define i32 @main() {
  %1 = call ptr @memset(ptr null, i32 undef, i64 1)
  ret i32 0
}
declare ptr @memset(ptr, i32, i64)
~
~
end: trap bad-address at site 1 in @main
reports: 0
blind: 0
verdict: clean
~
3
====
check f~
define i32 @main() {
  %1 = alloca i16
  call void @llvm.memset.p0.i64(ptr %1, i8 undef, i64 2, i1 false)
  %2 = load i16, ptr %1
  %3 = zext i16 %2 to i32
  ret i32 %3
}
declare void @llvm.memset.p0.i64(ptr, i8, i64, i1)
~
~
report 1: exit at site 5 in @main, part 0, bits 0xffff of i32
  origin 3: stored at site 2 in @main
  origin 2: undef at site 2 in @main
end: reported
reports: 1
blind: 0
verdict: poisoned
~
77
====
check f~
define i32 @main() {
  %1 = alloca i16
  call void @llvm.memset.p0.i64(ptr %1, i8 1, i64 2, i1 false)
  %2 = load i16, ptr %1
  %3 = zext i16 %2 to i32
  ret i32 %3
}
declare void @llvm.memset.p0.i64(ptr, i8, i64, i1)
~
~
end: exit 257
reports: 0
blind: 0
verdict: clean
~
0
====
check f~
define i32 @main() {
  %1 = alloca i16
  call void @llvm.memset.p0.i64(ptr %1, i8 undef, i64 3, i1 false)
  ret i32 0
}
declare void @llvm.memset.p0.i64(ptr, i8, i64, i1)
~
~
end: trap bad-address at site 2 in @main
reports: 0
blind: 0
verdict: clean
~
3
====
check f~
define i32 @main() {
  %1 = alloca i16
  %2 = call ptr @memset(ptr %1, i32 undef, i64 2)
  %3 = call ptr @memset(ptr %1, i32 0, i64 2)
  %4 = load i16, ptr %1
  %5 = zext i16 %4 to i32
  ret i32 %5
}
declare ptr @memset(ptr, i32, i64)
~
~
end: exit 0
reports: 0
blind: 0
verdict: clean
~
0
====
"#;

/// Bytes that are written are checked.
static WRITTEN: &[u8] = br#"# For any descriptor.
check f~
define i32 @main() {
  %1 = alloca i16
  store i8 65, ptr %1
  %2 = call i64 @write(i32 2, ptr %1, i64 2)
  ret i32 0
}
declare i64 @write(i32, ptr, i64)
~
~
report 1: output at site 3 in @main, part 1, bits 0xff of i8
  origin 1: alloca at site 1 in @main
end: reported
reports: 1
blind: 0
verdict: poisoned
~
77
====
check f~
define i32 @main() {
  %1 = alloca i16
  store i8 65, ptr %1
  %2 = call i64 @write(i32 1, ptr %1, i64 1)
  %3 = trunc i64 %2 to i32
  ret i32 %3
}
declare i64 @write(i32, ptr, i64)
~
A~
end: exit 1
reports: 0
blind: 0
verdict: clean
~
0
====
check f~
@s = global [2 x i8] c"ab"
define i32 @main() {
  %1 = call i64 @write(i32 2, ptr @s, i64 2)
  %2 = trunc i64 %1 to i32
  ret i32 %2
}
declare i64 @write(i32, ptr, i64)
~
~
end: exit 4294967295
reports: 0
blind: 0
verdict: clean
~
0
====
check f~
define i32 @main() {
  %1 = alloca i8
  %2 = call i64 @write(i32 1, ptr %1, i64 2)
  ret i32 0
}
declare i64 @write(i32, ptr, i64)
~
~
end: trap bad-address at site 2 in @main
reports: 0
blind: 0
verdict: clean
~
3
====
"#;

/// Lifetimes begin poisoned.
static LIFETIMES: &[u8] = br#"check f~
define i32 @main() {
  %1 = alloca i32
  store i32 7, ptr %1
  call void @llvm.lifetime.start.p0(i64 2, ptr %1)
  %2 = load i32, ptr %1
  ret i32 %2
}
declare void @llvm.lifetime.start.p0(i64, ptr)
~
~
report 1: exit at site 5 in @main, part 0, bits 0xffff of i32
  origin 2: lifetime at site 3 in @main
end: reported
reports: 1
blind: 0
verdict: poisoned
~
77
====
check f~
define i32 @main() {
  %1 = alloca i32
  call void @llvm.lifetime.start.p0(i64 4, ptr %1)
  store i32 7, ptr %1
  %2 = load i32, ptr %1
  ret i32 %2
}
declare void @llvm.lifetime.start.p0(i64, ptr)
~
~
end: exit 7
reports: 0
blind: 0
verdict: clean
~
0
====
check f~
define i32 @main() {
  %1 = alloca i32
  call void @llvm.lifetime.start.p0(i64 5, ptr %1)
  ret i32 0
}
declare void @llvm.lifetime.start.p0(i64, ptr)
~
~
end: trap bad-address at site 2 in @main
reports: 0
blind: 0
verdict: clean
~
3
====
# An end leaves bytes and shadow.
check f~
define i32 @main() {
  %1 = alloca i32
  store i32 7, ptr %1
  call void @llvm.lifetime.end.p0(i64 4, ptr %1)
  %2 = load i32, ptr %1
  ret i32 %2
}
declare void @llvm.lifetime.end.p0(i64, ptr)
~
~
end: exit 7
reports: 0
blind: 0
verdict: clean
~
0
====
check f~
define i32 @main() {
  %1 = alloca i32
  call void @llvm.lifetime.end.p0(i64 4, ptr %1)
  %2 = load i32, ptr %1
  ret i32 %2
}
declare void @llvm.lifetime.end.p0(i64, ptr)
~
~
report 1: exit at site 4 in @main, part 0, bits 0xffffffff of i32
  origin 1: alloca at site 1 in @main
end: reported
reports: 1
blind: 0
verdict: poisoned
~
77
====
"#;

/// Bytes of the input are clean.
/// Of the input no bit is poisoned, and what is not read stays as it is.
static INPUTS: [Checked; 7] = [
    Checked(
        Terms {
            input: b"a",
            fill: "a5",
            steps: 10000000,
            reports: 1,
        },
        r#"define i32 @main() {
  %1 = alloca i16
  %2 = call i64 @read(i32 0, ptr %1, i64 2)
  %3 = load i16, ptr %1
  %4 = zext i16 %3 to i32
  ret i32 %4
}
declare i64 @read(i32, ptr, i64)
"#,
        b"",
        "report 1: exit at site 5 in @main, part 0, bits 0xff00 of i32\n  origin 1: alloca at site 1 in @main\nend: reported\nreports: 1\nblind: 0\nverdict: poisoned\n",
        77,
    ),
    // 0x6261.
    Checked(
        Terms {
            input: b"abc",
            fill: "a5",
            steps: 10000000,
            reports: 1,
        },
        r#"define i32 @main() {
  %1 = alloca i16
  %2 = call i64 @read(i32 0, ptr %1, i64 2)
  %3 = load i16, ptr %1
  %4 = zext i16 %3 to i32
  ret i32 %4
}
declare i64 @read(i32, ptr, i64)
"#,
        b"",
        "end: exit 25185\nreports: 0\nblind: 0\nverdict: clean\n",
        0,
    ),
    Checked(
        Terms {
            input: b"a",
            fill: "a5",
            steps: 10000000,
            reports: 1,
        },
        r#"define i32 @main() {
  %1 = alloca i8
  %2 = call i64 @read(i32 1, ptr %1, i64 1)
  %3 = load i8, ptr %1
  %4 = zext i8 %3 to i32
  ret i32 %4
}
declare i64 @read(i32, ptr, i64)
"#,
        b"",
        "report 1: exit at site 5 in @main, part 0, bits 0xff of i32\n  origin 1: alloca at site 1 in @main\nend: reported\nreports: 1\nblind: 0\nverdict: poisoned\n",
        77,
    ),
    Checked(
        Terms {
            input: b"a",
            fill: "a5",
            steps: 10000000,
            reports: 1,
        },
        r#"define i32 @main() {
  %1 = alloca i8
  %2 = call i64 @read(i32 1, ptr %1, i64 1)
  %3 = trunc i64 %2 to i32
  ret i32 %3
}
declare i64 @read(i32, ptr, i64)
"#,
        b"",
        "end: exit 4294967295\nreports: 0\nblind: 0\nverdict: clean\n",
        0,
    ),
    // All bytes must be good, however few are read.
    Checked(
        Terms {
            input: b"a",
            fill: "a5",
            steps: 10000000,
            reports: 1,
        },
        r#"define i32 @main() {
  %1 = alloca i8
  %2 = call i64 @read(i32 0, ptr %1, i64 2)
  ret i32 0
}
declare i64 @read(i32, ptr, i64)
"#,
        b"",
        "end: trap bad-address at site 2 in @main\nreports: 0\nblind: 0\nverdict: clean\n",
        3,
    ),
    Checked(
        Terms {
            input: b"",
            fill: "a5",
            steps: 10000000,
            reports: 1,
        },
        r#"define i32 @main() {
  %1 = alloca i8
  %2 = call i64 @read(i32 0, ptr %1, i64 1)
  %3 = load i8, ptr %1
  %4 = zext i8 %3 to i32
  ret i32 %4
}
declare i64 @read(i32, ptr, i64)
"#,
        b"",
        "report 1: exit at site 5 in @main, part 0, bits 0xff of i32\n  origin 1: alloca at site 1 in @main\nend: reported\nreports: 1\nblind: 0\nverdict: poisoned\n",
        77,
    ),
    Checked(
        Terms {
            input: b"ab",
            fill: "a5",
            steps: 10000000,
            reports: 1,
        },
        r#"define i32 @main() {
  %1 = call i32 @getchar()
  %2 = call i32 @getchar()
  ret i32 %2
}
declare i32 @getchar()
"#,
        b"",
        "end: exit 98\nreports: 0\nblind: 0\nverdict: clean\n",
        0,
    ),
];

/// Whether blocks, and copies of their bytes, have the shadow that they should.
fn blocks_move_shadow<R: Threads + Sync + Eprint>(rt: &R, alloc: Global) -> bool {
    all_told_twice::<_, Case>(rt, alloc, &[BLOCKS, MOVED_BLOCKS, COPIES, LIFETIMES])
}

#[test]
fn externals_move_shadow(rt: HostRuntime) -> Result<(), Fail> {
    assert!(rt;
        blocks_move_shadow(&rt, rt.alloc())
            && all_told_twice::<_, Case>(&rt, rt.alloc(), &[SETS, COMPARED, STRINGS, WRITTEN])
            && all_agree(&rt, rt.alloc(), &[&INPUTS])
    );
    Ok(())
}
