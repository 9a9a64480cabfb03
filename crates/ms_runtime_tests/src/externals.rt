//! What `check` says of calls of externals: each argument that is checked, once poisoned and once clean. Masks,
//! sites and origins were worked out by hand.

use crate::stream_arguments::{BYTES, ENDS, STREAMS};
use ms_top_rows::calls::{Case, Terms, all_agree};
use ms_top_rows::modules::Checked;
use ms_top_rows::told::all_told_twice;
use std::test::Fail;

/// Arguments about blocks are checked.
/// The lengths and the pointers of the four externals that make and end blocks of the heap.
static BLOCKS: &[u8] = br#"check f~
define i32 @main() {
  %1 = call ptr @malloc(i64 undef)
  ret i32 0
}
declare ptr @malloc(i64)
~
~
report 1: size at site 1 in @main, part 0, bits 0xffffffffffffffff of i64
  origin 1: undef at site 1 in @main
end: reported
reports: 1
blind: 0
verdict: poisoned
~
77
====
# One bit is enough.
check f~
define i32 @main() {
  %1 = and i64 undef, 8
  %2 = call ptr @malloc(i64 %1)
  ret i32 0
}
declare ptr @malloc(i64)
~
~
report 1: size at site 2 in @main, part 0, bits 0x8 of i64
  origin 1: undef at site 1 in @main
end: reported
reports: 1
blind: 0
verdict: poisoned
~
77
====
check f~
define i32 @main() {
  %1 = call ptr @malloc(i64 5)
  %2 = icmp eq ptr %1, null
  %3 = zext i1 %2 to i32
  ret i32 %3
}
declare ptr @malloc(i64)
~
~
end: exit 0
reports: 0
blind: 0
verdict: clean
~
0
====
check f~
define i32 @main() {
  %1 = call ptr @calloc(i64 undef, i64 1)
  ret i32 0
}
declare ptr @calloc(i64, i64)
~
~
report 1: size at site 1 in @main, part 0, bits 0xffffffffffffffff of i64
  origin 1: undef at site 1 in @main
end: reported
reports: 1
blind: 0
verdict: poisoned
~
77
====
check f~
define i32 @main() {
  %1 = call ptr @calloc(i64 1, i64 undef)
  ret i32 0
}
declare ptr @calloc(i64, i64)
~
~
report 1: size at site 1 in @main, part 1, bits 0xffffffffffffffff of i64
  origin 1: undef at site 1 in @main
end: reported
reports: 1
blind: 0
verdict: poisoned
~
77
====
check f~
define i32 @main() {
  %1 = call ptr @calloc(i64 2, i64 3)
  %2 = icmp eq ptr %1, null
  %3 = zext i1 %2 to i32
  ret i32 %3
}
declare ptr @calloc(i64, i64)
~
~
end: exit 0
reports: 0
blind: 0
verdict: clean
~
0
====
check f~
define i32 @main() {
  %1 = call ptr @realloc(ptr undef, i64 4)
  ret i32 0
}
declare ptr @realloc(ptr, i64)
~
~
report 1: pointer at site 1 in @main, part 0, bits 0xffffffffffffffff of i64
  origin 1: undef at site 1 in @main
end: reported
reports: 1
blind: 0
verdict: poisoned
~
77
====
check f~
define i32 @main() {
  %1 = call ptr @realloc(ptr null, i64 undef)
  ret i32 0
}
declare ptr @realloc(ptr, i64)
~
~
report 1: size at site 1 in @main, part 1, bits 0xffffffffffffffff of i64
  origin 1: undef at site 1 in @main
end: reported
reports: 1
blind: 0
verdict: poisoned
~
77
====
check f~
define i32 @main() {
  %1 = call ptr @realloc(ptr null, i64 4)
  %2 = icmp eq ptr %1, null
  %3 = zext i1 %2 to i32
  ret i32 %3
}
declare ptr @realloc(ptr, i64)
~
~
end: exit 0
reports: 0
blind: 0
verdict: clean
~
0
====
check f~
define i32 @main() {
  %1 = alloca ptr
  %2 = load ptr, ptr %1
  call void @free(ptr %2)
  ret i32 0
}
declare void @free(ptr)
~
~
report 1: pointer at site 3 in @main, part 0, bits 0xffffffffffffffff of i64
  origin 1: alloca at site 1 in @main
end: reported
reports: 1
blind: 0
verdict: poisoned
~
77
====
check f~
define i32 @main() {
  %1 = call ptr @malloc(i64 1)
  call void @free(ptr %1)
  ret i32 0
}
declare ptr @malloc(i64)
declare void @free(ptr)
~
~
end: exit 0
reports: 0
blind: 0
verdict: clean
~
0
====
"#;

/// Arguments of copies are checked.
/// No bytes are good everywhere.
static COPIES: &[u8] = br#"check f~
define i32 @main() {
  %1 = call ptr @memcpy(ptr undef, ptr null, i64 0)
  ret i32 0
}
declare ptr @memcpy(ptr, ptr, i64)
~
~
report 1: pointer at site 1 in @main, part 0, bits 0xffffffffffffffff of i64
  origin 1: undef at site 1 in @main
end: reported
reports: 1
blind: 0
verdict: poisoned
~
77
====
check f~
define i32 @main() {
  %1 = call ptr @memcpy(ptr null, ptr undef, i64 0)
  ret i32 0
}
declare ptr @memcpy(ptr, ptr, i64)
~
~
report 1: pointer at site 1 in @main, part 1, bits 0xffffffffffffffff of i64
  origin 1: undef at site 1 in @main
end: reported
reports: 1
blind: 0
verdict: poisoned
~
77
====
check f~
define i32 @main() {
  %1 = call ptr @memcpy(ptr null, ptr null, i64 undef)
  ret i32 0
}
declare ptr @memcpy(ptr, ptr, i64)
~
~
report 1: size at site 1 in @main, part 2, bits 0xffffffffffffffff of i64
  origin 1: undef at site 1 in @main
end: reported
reports: 1
blind: 0
verdict: poisoned
~
77
====
check f~
define i32 @main() {
  %1 = call ptr @memcpy(ptr null, ptr null, i64 0)
  ret i32 0
}
declare ptr @memcpy(ptr, ptr, i64)
~
~
end: exit 0
reports: 0
blind: 0
verdict: clean
~
0
====
check f~
define i32 @main() {
  %1 = call ptr @memmove(ptr undef, ptr null, i64 0)
  ret i32 0
}
declare ptr @memmove(ptr, ptr, i64)
~
~
report 1: pointer at site 1 in @main, part 0, bits 0xffffffffffffffff of i64
  origin 1: undef at site 1 in @main
end: reported
reports: 1
blind: 0
verdict: poisoned
~
77
====
check f~
define i32 @main() {
  %1 = call ptr @memmove(ptr null, ptr undef, i64 0)
  ret i32 0
}
declare ptr @memmove(ptr, ptr, i64)
~
~
report 1: pointer at site 1 in @main, part 1, bits 0xffffffffffffffff of i64
  origin 1: undef at site 1 in @main
end: reported
reports: 1
blind: 0
verdict: poisoned
~
77
====
check f~
define i32 @main() {
  %1 = call ptr @memmove(ptr null, ptr null, i64 undef)
  ret i32 0
}
declare ptr @memmove(ptr, ptr, i64)
~
~
report 1: size at site 1 in @main, part 2, bits 0xffffffffffffffff of i64
  origin 1: undef at site 1 in @main
end: reported
reports: 1
blind: 0
verdict: poisoned
~
77
====
check f~
define i32 @main() {
  %1 = call ptr @memmove(ptr null, ptr null, i64 0)
  ret i32 0
}
declare ptr @memmove(ptr, ptr, i64)
~
~
end: exit 0
reports: 0
blind: 0
verdict: clean
~
0
====
check f~
define i32 @main() {
  call void @llvm.memcpy.p0.p0.i64(ptr undef, ptr null, i64 0, i1 false)
  ret i32 0
}
declare void @llvm.memcpy.p0.p0.i64(ptr, ptr, i64, i1)
~
~
report 1: pointer at site 1 in @main, part 0, bits 0xffffffffffffffff of i64
  origin 1: undef at site 1 in @main
end: reported
reports: 1
blind: 0
verdict: poisoned
~
77
====
check f~
define i32 @main() {
  call void @llvm.memcpy.p0.p0.i64(ptr null, ptr undef, i64 0, i1 false)
  ret i32 0
}
declare void @llvm.memcpy.p0.p0.i64(ptr, ptr, i64, i1)
~
~
report 1: pointer at site 1 in @main, part 1, bits 0xffffffffffffffff of i64
  origin 1: undef at site 1 in @main
end: reported
reports: 1
blind: 0
verdict: poisoned
~
77
====
check f~
define i32 @main() {
  call void @llvm.memcpy.p0.p0.i64(ptr null, ptr null, i64 undef, i1 false)
  ret i32 0
}
declare void @llvm.memcpy.p0.p0.i64(ptr, ptr, i64, i1)
~
~
report 1: size at site 1 in @main, part 2, bits 0xffffffffffffffff of i64
  origin 1: undef at site 1 in @main
end: reported
reports: 1
blind: 0
verdict: poisoned
~
77
====
check f~
define i32 @main() {
  call void @llvm.memcpy.p0.p0.i64(ptr null, ptr null, i64 0, i1 false)
  ret i32 0
}
declare void @llvm.memcpy.p0.p0.i64(ptr, ptr, i64, i1)
~
~
end: exit 0
reports: 0
blind: 0
verdict: clean
~
0
====
check f~
define i32 @main() {
  call void @llvm.memmove.p0.p0.i64(ptr undef, ptr null, i64 0, i1 false)
  ret i32 0
}
declare void @llvm.memmove.p0.p0.i64(ptr, ptr, i64, i1)
~
~
report 1: pointer at site 1 in @main, part 0, bits 0xffffffffffffffff of i64
  origin 1: undef at site 1 in @main
end: reported
reports: 1
blind: 0
verdict: poisoned
~
77
====
check f~
define i32 @main() {
  call void @llvm.memmove.p0.p0.i64(ptr null, ptr undef, i64 0, i1 false)
  ret i32 0
}
declare void @llvm.memmove.p0.p0.i64(ptr, ptr, i64, i1)
~
~
report 1: pointer at site 1 in @main, part 1, bits 0xffffffffffffffff of i64
  origin 1: undef at site 1 in @main
end: reported
reports: 1
blind: 0
verdict: poisoned
~
77
====
check f~
define i32 @main() {
  call void @llvm.memmove.p0.p0.i64(ptr null, ptr null, i64 undef, i1 false)
  ret i32 0
}
declare void @llvm.memmove.p0.p0.i64(ptr, ptr, i64, i1)
~
~
report 1: size at site 1 in @main, part 2, bits 0xffffffffffffffff of i64
  origin 1: undef at site 1 in @main
end: reported
reports: 1
blind: 0
verdict: poisoned
~
77
====
check f~
define i32 @main() {
  call void @llvm.memmove.p0.p0.i64(ptr null, ptr null, i64 0, i1 false)
  ret i32 0
}
declare void @llvm.memmove.p0.p0.i64(ptr, ptr, i64, i1)
~
~
end: exit 0
reports: 0
blind: 0
verdict: clean
~
0
====
"#;

/// Checks come in their order.
/// Checks come in the order of the arguments, those of bytes last, and what is answered is clean.
static ORDER: [Checked; 8] = [
    Checked(
        Terms {
            input: b"",
            fill: "a5",
            steps: 10000000,
            reports: 2,
        },
        r#"define i32 @main() {
  %1 = call ptr @calloc(i64 undef, i64 undef)
  ret i32 0
}
declare ptr @calloc(i64, i64)
"#,
        b"",
        "report 1: size at site 1 in @main, part 0, bits 0xffffffffffffffff of i64\n  origin 1: undef at site 1 in @main\nreport 2: size at site 1 in @main, part 1, bits 0xffffffffffffffff of i64\n  origin 2: undef at site 1 in @main\nend: reported\nreports: 2\nblind: 0\nverdict: poisoned\n",
        77,
    ),
    Checked(
        Terms {
            input: b"",
            fill: "a5",
            steps: 10000000,
            reports: 4,
        },
        r#"define i32 @main() {
  %1 = call ptr @memcpy(ptr undef, ptr undef, i64 undef)
  ret i32 0
}
declare ptr @memcpy(ptr, ptr, i64)
"#,
        b"",
        "report 1: pointer at site 1 in @main, part 0, bits 0xffffffffffffffff of i64\n  origin 1: undef at site 1 in @main\nreport 2: pointer at site 1 in @main, part 1, bits 0xffffffffffffffff of i64\n  origin 2: undef at site 1 in @main\nreport 3: size at site 1 in @main, part 2, bits 0xffffffffffffffff of i64\n  origin 3: undef at site 1 in @main\nend: trap bad-address at site 1 in @main\nreports: 3\nblind: 0\nverdict: poisoned\n",
        77,
    ),
    Checked(
        Terms {
            input: b"",
            fill: "a5",
            steps: 10000000,
            reports: 3,
        },
        r#"define i32 @main() {
  %1 = alloca i8
  %2 = alloca i8
  %3 = call i32 @memcmp(ptr %1, ptr %2, i64 1)
  ret i32 %3
}
declare i32 @memcmp(ptr, ptr, i64)
"#,
        b"",
        "report 1: first-bytes at site 3 in @main, part 0, bits 0xff of i8\n  origin 1: alloca at site 1 in @main\nreport 2: second-bytes at site 3 in @main, part 0, bits 0xff of i8\n  origin 2: alloca at site 2 in @main\nend: exit 0\nreports: 2\nblind: 0\nverdict: poisoned\n",
        77,
    ),
    Checked(
        Terms {
            input: b"",
            fill: "a5",
            steps: 10000000,
            reports: 2,
        },
        r#"define i32 @main() {
  %1 = alloca i8
  %2 = call i64 @write(i32 undef, ptr %1, i64 1)
  ret i32 0
}
declare i64 @write(i32, ptr, i64)
"#,
        b"",
        "report 1: value at site 2 in @main, part 0, bits 0xffffffff of i32\n  origin 2: undef at site 2 in @main\nreport 2: output at site 2 in @main, part 0, bits 0xff of i8\n  origin 1: alloca at site 1 in @main\nend: reported\nreports: 2\nblind: 0\nverdict: poisoned\n",
        77,
    ),
    Checked(
        Terms {
            input: b"",
            fill: "a5",
            steps: 10000000,
            reports: 2,
        },
        r#"define i32 @main() {
  %1 = call i32 @putchar(i32 undef)
  ret i32 %1
}
declare i32 @putchar(i32)
"#,
        b"\xa5",
        "report 1: value at site 1 in @main, part 0, bits 0xffffffff of i32\n  origin 1: undef at site 1 in @main\nend: exit 165\nreports: 1\nblind: 0\nverdict: poisoned\n",
        77,
    ),
    // So many bytes are refused.
    Checked(
        Terms {
            input: b"",
            fill: "a5",
            steps: 10000000,
            reports: 2,
        },
        r#"define i32 @main() {
  %1 = call ptr @malloc(i64 undef)
  %2 = icmp eq ptr %1, null
  %3 = zext i1 %2 to i32
  ret i32 %3
}
declare ptr @malloc(i64)
"#,
        b"",
        "report 1: size at site 1 in @main, part 0, bits 0xffffffffffffffff of i64\n  origin 1: undef at site 1 in @main\nend: exit 1\nreports: 1\nblind: 0\nverdict: poisoned\n",
        77,
    ),
    Checked(
        Terms {
            input: b"",
            fill: "a5",
            steps: 10000000,
            reports: 2,
        },
        r#"define i32 @main() {
  call void @free(ptr undef)
  ret i32 0
}
declare void @free(ptr)
"#,
        b"",
        "report 1: pointer at site 1 in @main, part 0, bits 0xffffffffffffffff of i64\n  origin 1: undef at site 1 in @main\nend: trap bad-free at site 1 in @main\nreports: 1\nblind: 0\nverdict: poisoned\n",
        77,
    ),
    Checked(
        Terms {
            input: b"",
            fill: "a5",
            steps: 10000000,
            reports: 2,
        },
        r#"define i32 @main() {
  %1 = alloca i16
  store i16 65, ptr %1
  store i8 undef, ptr %1
  %2 = call i64 @strlen(ptr %1)
  %3 = trunc i64 %2 to i32
  ret i32 %3
}
declare i64 @strlen(ptr)
"#,
        b"",
        "report 1: string at site 4 in @main, part 0, bits 0xff of i8\n  origin 3: stored at site 3 in @main\n  origin 2: undef at site 3 in @main\nend: exit 1\nreports: 1\nblind: 0\nverdict: poisoned\n",
        77,
    ),
];

#[test]
fn arguments_are_checked(rt: HostRuntime) -> Result<(), Fail> {
    assert!(rt;
        all_told_twice::<_, Case>(&rt, rt.alloc(), &[BLOCKS, COPIES, BYTES, STREAMS, ENDS])
            && all_agree(&rt, rt.alloc(), &[&ORDER])
    );
    Ok(())
}
