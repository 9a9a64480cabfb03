//! Origins that lead over stores back to a root. Pairs of an origin and a site are numbered after the roots.

use ms_top_rows::calls::Case;
use ms_top_rows::modules::Marked;
use ms_top_rows::told::all_told;
use std::test::Fail;

/// Origins lead back over stores.
static CHAINS: &[u8] =
    br#"# A byte is stored and then copied sixteen times: the last copy makes the way no longer.
check f~
define i32 @main() {
  %1 = alloca i8
  store i8 undef, ptr %1
  %2 = load i8, ptr %1
  store i8 %2, ptr %1
  %3 = load i8, ptr %1
  store i8 %3, ptr %1
  %4 = load i8, ptr %1
  store i8 %4, ptr %1
  %5 = load i8, ptr %1
  store i8 %5, ptr %1
  %6 = load i8, ptr %1
  store i8 %6, ptr %1
  %7 = load i8, ptr %1
  store i8 %7, ptr %1
  %8 = load i8, ptr %1
  store i8 %8, ptr %1
  %9 = load i8, ptr %1
  store i8 %9, ptr %1
  %10 = load i8, ptr %1
  store i8 %10, ptr %1
  %11 = load i8, ptr %1
  store i8 %11, ptr %1
  %12 = load i8, ptr %1
  store i8 %12, ptr %1
  %13 = load i8, ptr %1
  store i8 %13, ptr %1
  %14 = load i8, ptr %1
  store i8 %14, ptr %1
  %15 = load i8, ptr %1
  store i8 %15, ptr %1
  %16 = load i8, ptr %1
  store i8 %16, ptr %1
  %17 = load i8, ptr %1
  store i8 %17, ptr %1
  %18 = load i8, ptr %1
  %19 = zext i8 %18 to i32
  ret i32 %19
}
~
~
report 1: exit at site 37 in @main, part 0, bits 0xff of i32
  origin 18: stored at site 32 in @main
  origin 17: stored at site 30 in @main
  origin 16: stored at site 28 in @main
  origin 15: stored at site 26 in @main
  origin 14: stored at site 24 in @main
  origin 13: stored at site 22 in @main
  origin 12: stored at site 20 in @main
  origin 11: stored at site 18 in @main
  origin 10: stored at site 16 in @main
  origin 9: stored at site 14 in @main
  origin 8: stored at site 12 in @main
  origin 7: stored at site 10 in @main
  origin 6: stored at site 8 in @main
  origin 5: stored at site 6 in @main
  origin 4: stored at site 4 in @main
  origin 3: stored at site 2 in @main
  origin 2: undef at site 2 in @main
end: reported
reports: 1
blind: 0
verdict: poisoned
~
77
====
# The same origin stored twice at one site is one pair.
check f~
define i32 @main() {
  %1 = alloca i8
  %2 = alloca i8
  br label %3
3:
  %4 = phi i1 [ true, %0 ], [ false, %3 ]
  store i8 undef, ptr %1
  br i1 %4, label %3, label %5
5:
  %6 = load i8, ptr %1
  store i8 %6, ptr %2
  %7 = load i8, ptr %2
  %8 = zext i8 %7 to i32
  ret i32 %8
}
~
~
report 1: exit at site 11 in @main, part 0, bits 0xff of i32
  origin 5: stored at site 8 in @main
  origin 4: stored at site 5 in @main
  origin 3: undef at site 5 in @main
end: reported
reports: 1
blind: 0
verdict: poisoned
~
77
====
# A clean store makes no pair.
check f~
define i32 @main() {
  %1 = alloca i8
  store i8 7, ptr %1
  store i8 undef, ptr %1
  %2 = load i8, ptr %1
  %3 = zext i8 %2 to i32
  ret i32 %3
}
~
~
report 1: exit at site 6 in @main, part 0, bits 0xff of i32
  origin 3: stored at site 3 in @main
  origin 2: undef at site 3 in @main
end: reported
reports: 1
blind: 0
verdict: poisoned
~
77
====
# Nor does a store of a word whose mask turns out to be 0, though it has an origin.
check f~
define i32 @main() {
  %1 = and i32 undef, 0
  %2 = alloca i32
  store i32 %1, ptr %2
  store i32 undef, ptr %2
  %3 = load i32, ptr %2
  ret i32 %3
}
~
~
report 1: exit at site 6 in @main, part 0, bits 0xffffffff of i32
  origin 4: stored at site 4 in @main
  origin 3: undef at site 4 in @main
end: reported
reports: 1
blind: 0
verdict: poisoned
~
77
====
# Of a word of two stores the origin is that of the first byte.
check f~
define i32 @main() {
  %1 = alloca i64
  store i32 undef, ptr %1
  %2 = getelementptr i8, ptr %1, i64 4
  store i32 undef, ptr %2
  %3 = load i64, ptr %1
  %4 = icmp eq i64 %3, 0
  br i1 %4, label %5, label %6
5:
  ret i32 0
6:
  ret i32 1
}
~
~
report 1: branch at site 7 in @main, part 0, bits 0x1 of i1
  origin 4: stored at site 2 in @main
  origin 2: undef at site 2 in @main
end: reported
reports: 1
blind: 0
verdict: poisoned
~
77
====
# A store in another function.
check f~
define i32 @f(ptr %0, i32 %1) {
  store i32 %1, ptr %0
  %3 = load i32, ptr %0
  ret i32 %3
}
define i32 @main() {
  %1 = alloca i32
  %2 = load i32, ptr %1
  %3 = call i32 @f(ptr %1, i32 %2)
  ret i32 %3
}
~
~
report 1: exit at site 7 in @main, part 0, bits 0xffffffff of i32
  origin 2: stored at site 1 in @f
  origin 1: alloca at site 4 in @main
end: reported
reports: 1
blind: 0
verdict: poisoned
~
77
====
"#;

/// Equal pairs have one number.
static PAIRS: &[u8] =
    br#"define i32 @main() { %p = alloca [8 x i8] call void @__msan_store_origin(ptr %p, i64 255, i32 1, i32 2), !nosanitize !0 %__msan.8 = call i32 @__msan_load_origin(ptr %p, i64 255), !nosanitize !0 call void @__msan_check(i64 1, i32 64, i32 %__msan.8, i32 7, i32 0, i32 1), !nosanitize !0 ret i32 0 }~
1~
10000000~
~
report 1: value at site 1 in @main, part 0, bits 0x1 of i64
  origin 2: stored at site 2 in @main
  origin 1: alloca at site 1 in @main
end: reported
reports: 1
blind: 0
~
77
====
# The third pair is the first one again.
define i32 @main() { %p = alloca [8 x i8] call void @__msan_store_origin(ptr %p, i64 255, i32 1, i32 1), !nosanitize !0 call void @__msan_store_origin(ptr %p, i64 255, i32 1, i32 2), !nosanitize !0 call void @__msan_store_origin(ptr %p, i64 255, i32 1, i32 1), !nosanitize !0 %__msan.8 = call i32 @__msan_load_origin(ptr %p, i64 255), !nosanitize !0 call void @__msan_check(i64 1, i32 64, i32 %__msan.8, i32 7, i32 0, i32 1), !nosanitize !0 ret i32 0 }~
1~
10000000~
~
report 1: value at site 1 in @main, part 0, bits 0x1 of i64
  origin 2: stored at site 1 in @main
  origin 1: alloca at site 1 in @main
end: reported
reports: 1
blind: 0
~
77
====
# A clean word makes no pair.
define i32 @main() { %p = alloca [8 x i8] call void @__msan_store_origin(ptr %p, i64 0, i32 1, i32 1), !nosanitize !0 call void @__msan_store_origin(ptr %p, i64 255, i32 1, i32 2), !nosanitize !0 %__msan.8 = call i32 @__msan_load_origin(ptr %p, i64 255), !nosanitize !0 call void @__msan_check(i64 1, i32 64, i32 %__msan.8, i32 7, i32 0, i32 1), !nosanitize !0 ret i32 0 }~
1~
10000000~
~
report 1: value at site 1 in @main, part 0, bits 0x1 of i64
  origin 2: stored at site 2 in @main
  origin 1: alloca at site 1 in @main
end: reported
reports: 1
blind: 0
~
77
====
# The second origin is neither root nor pair until the first pair stands.
define i32 @main() { %p = alloca [8 x i8] call void @__msan_store_origin(ptr %p, i64 255, i32 2, i32 1), !nosanitize !0 call void @__msan_store_origin(ptr %p, i64 65280, i32 1, i32 1), !nosanitize !0 call void @__msan_store_origin(ptr %p, i64 255, i32 2, i32 2), !nosanitize !0 %__msan.8 = call i32 @__msan_load_origin(ptr %p, i64 255), !nosanitize !0 call void @__msan_check(i64 1, i32 64, i32 %__msan.8, i32 7, i32 0, i32 1), !nosanitize !0 ret i32 0 }~
1~
10000000~
~
report 1: value at site 1 in @main, part 0, bits 0x1 of i64
  origin 3: stored at site 2 in @main
  origin 2: stored at site 1 in @main
  origin 1: alloca at site 1 in @main
end: reported
reports: 1
blind: 0
~
77
====
# A site that the module doesn't have.
define i32 @main() { %p = alloca [8 x i8] call void @__msan_store_origin(ptr %p, i64 255, i32 1, i32 9), !nosanitize !0 %__msan.8 = call i32 @__msan_load_origin(ptr %p, i64 255), !nosanitize !0 call void @__msan_check(i64 1, i32 64, i32 %__msan.8, i32 7, i32 0, i32 1), !nosanitize !0 ret i32 0 }~
1~
10000000~
~
report 1: value at site 1 in @main, part 0, bits 0x1 of i64
  origin 2: stored at site 9 in ?
  origin 1: alloca at site 1 in @main
end: reported
reports: 1
blind: 0
~
77
====
define i32 @main() { %p = alloca [8 x i8] call void @__msan_fill(ptr %p, i64 8, i64 255, i32 1, i32 2), !nosanitize !0 %__msan.8 = call i32 @__msan_load_origin(ptr %p, i64 255), !nosanitize !0 call void @__msan_check(i64 1, i32 64, i32 %__msan.8, i32 7, i32 0, i32 1), !nosanitize !0 ret i32 0 }~
1~
10000000~
~
report 1: value at site 1 in @main, part 0, bits 0x1 of i64
  origin 2: stored at site 2 in @main
  origin 1: alloca at site 1 in @main
end: reported
reports: 1
blind: 0
~
77
====
"#;

#[test]
fn origins_are_chained(rt: HostRuntime) -> Result<(), Fail> {
    assert!(rt;
        all_told::<_, Case>(&rt, rt.alloc(), &[CHAINS])
            && all_told::<_, Marked>(&rt, rt.alloc(), &[PAIRS])
    );
    Ok(())
}
