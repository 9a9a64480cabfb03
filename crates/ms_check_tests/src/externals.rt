//! Declarations, calls and globals, by the C library's declarations and the LLVM Language Reference.

use crate::answers::{Case, Want};

/// Declarations that are called, and flags of intrinsics.
pub static EXTERNALS: [Case; 32] = [
    Case(
        r#"declare i32 @putchar(i32)
define i32 @main() {
  %1 = call i32 @putchar(i32 65)
  ret i32 0
}
"#,
        Want::Valid,
    ),
    // Another type, which is no fault where the function isn't called.
    Case(
        r#"declare i32 @putchar(i64)
define i32 @main() {
  %1 = call i32 @putchar(i64 65)
  ret i32 0
}
"#,
        Want::BadExternal("@putchar"),
    ),
    Case(
        r#"declare i32 @putchar(i64)
define i32 @main() {
  ret i32 0
}
"#,
        Want::Valid,
    ),
    // A parameter too many, and a result too many.
    Case(
        r#"declare i32 @getchar(i32)
define i32 @main() {
  %1 = call i32 @getchar(i32 0)
  ret i32 0
}
"#,
        Want::BadExternal("@getchar"),
    ),
    Case(
        r#"declare i32 @exit(i32)
define i32 @main() {
  %1 = call i32 @exit(i32 0)
  ret i32 0
}
"#,
        Want::BadExternal("@exit"),
    ),
    // No external has this name.
    Case(
        r#"declare i32 @scanf(ptr)
define i32 @main() {
  %1 = call i32 @scanf(ptr null)
  ret i32 0
}
"#,
        Want::BadExternal("@scanf"),
    ),
    // The first of two declarations, which isn't the first that is called.
    Case(
        r#"declare i32 @rename(ptr)
declare i32 @scanf(ptr)
define i32 @main() {
  %1 = call i32 @scanf(ptr null)
  %2 = call i32 @rename(ptr null)
  ret i32 0
}
"#,
        Want::BadExternal("@rename"),
    ),
    // `printf` as it is declared; with a parameter too many; with another result, also where it isn't called.
    Case(
        r#"declare i32 @printf(ptr, ...)
define i32 @main() {
  %1 = call i32 (ptr, ...) @printf(ptr null, i32 1, i64 2, ptr null)
  ret i32 0
}
"#,
        Want::Valid,
    ),
    Case(
        r#"declare i32 @printf(ptr, i32)
define i32 @main() {
  %1 = call i32 @printf(ptr null, i32 1)
  ret i32 0
}
"#,
        Want::BadExternal("@printf"),
    ),
    Case(
        r#"declare void @printf(ptr)
define i32 @main() {
  call void @printf(ptr null)
  ret i32 0
}
"#,
        Want::BadExternal("@printf"),
    ),
    Case(
        r#"declare void @printf(ptr)
define i32 @main() {
  ret i32 0
}
"#,
        Want::Valid,
    ),
    // The check of a format has its types, called or not.
    Case(
        r#"declare void @__msan_check_format(ptr, i32, ptr, i32)
define i32 @main() {
  ret i32 0
}
"#,
        Want::Valid,
    ),
    Case(
        r#"declare void @__msan_check_format(ptr, i64, ptr, i32)
define i32 @main() {
  ret i32 0
}
"#,
        Want::BadExternal("@__msan_check_format"),
    ),
    // What a join's result becomes has its types, called or not.
    Case(
        r#"declare void @__msan_thread_result(ptr, i64, i32, i32)
define i32 @main() {
  ret i32 0
}
"#,
        Want::Valid,
    ),
    Case(
        r#"declare void @__msan_thread_result(ptr, i64, i32)
define i32 @main() {
  ret i32 0
}
"#,
        Want::BadExternal("@__msan_thread_result"),
    ),
    // A thread call has its types where it is called.
    Case(
        r#"declare i32 @sched_yield(i32)
define i32 @main() {
  %1 = call i32 @sched_yield(i32 0)
  ret i32 %1
}
"#,
        Want::BadExternal("@sched_yield"),
    ),
    // Flags that are numbers, and one that isn't.
    Case(
        r#"declare i64 @llvm.objectsize.i64.p0(ptr, i1, i1, i1)
define i32 @main() {
  %1 = call i64 @llvm.objectsize.i64.p0(ptr null, i1 true, i1 false, i1 true)
  ret i32 0
}
"#,
        Want::Valid,
    ),
    Case(
        r#"declare i64 @llvm.objectsize.i64.p0(ptr, i1, i1, i1)
define i32 @main() {
  %1 = call i64 @llvm.objectsize.i64.p0(ptr null, i1 true, i1 false, i1 undef)
  ret i32 0
}
"#,
        Want::BadExternal("@llvm.objectsize.i64.p0"),
    ),
    // A copy that isn't volatile, one that is, and a function of the module with that name.
    Case(
        r#"declare void @llvm.memcpy.p0.p0.i64(ptr, ptr, i64, i1)
define i32 @main() {
  call void @llvm.memcpy.p0.p0.i64(ptr null, ptr null, i64 1, i1 false)
  ret i32 0
}
"#,
        Want::Valid,
    ),
    Case(
        r#"declare void @llvm.memcpy.p0.p0.i64(ptr, ptr, i64, i1)
define i32 @main() {
  call void @llvm.memcpy.p0.p0.i64(ptr null, ptr null, i64 1, i1 true)
  ret i32 0
}
"#,
        Want::BadExternal("@llvm.memcpy.p0.p0.i64"),
    ),
    Case(
        r#"define void @llvm.memcpy.p0.p0.i64(i1 %0) {
  ret void
}
define i32 @main() {
  call void @llvm.memcpy.p0.p0.i64(i1 true)
  ret i32 0
}
"#,
        Want::Valid,
    ),
    // A function of whole words at a width that it has and at one that it hasn't, and its flag, which is written.
    Case(
        r#"declare i16 @llvm.bswap.i16(i16)
define i32 @main() {
  %1 = call i16 @llvm.bswap.i16(i16 1)
  ret i32 0
}
"#,
        Want::Valid,
    ),
    Case(
        r#"declare i8 @llvm.bswap.i8(i8)
define i32 @main() {
  %1 = call i8 @llvm.bswap.i8(i8 1)
  ret i32 0
}
"#,
        Want::BadExternal("@llvm.bswap.i8"),
    ),
    Case(
        r#"define i16 @llvm.bswap.i16(i16 %0) {
  ret i16 %0
}
define i32 @main() {
  ret i32 0
}
"#,
        Want::BadExternal("@llvm.bswap.i16"),
    ),
    Case(
        r#"declare i32 @llvm.ctlz.i32(i32, i1)
define i32 @main() {
  %1 = call i32 @llvm.ctlz.i32(i32 1, i1 true)
  ret i32 0
}
"#,
        Want::Valid,
    ),
    Case(
        r#"declare i32 @llvm.ctlz.i32(i32, i1)
define i32 @main() {
  %1 = icmp eq i32 1, 1
  %2 = call i32 @llvm.ctlz.i32(i32 1, i1 %1)
  ret i32 0
}
"#,
        Want::BadExternal("@llvm.ctlz.i32"),
    ),
    Case(
        r#"declare i64 @llvm.ctlz.i32(i32, i1)
define i32 @main() {
  %1 = call i64 @llvm.ctlz.i32(i32 1, i1 true)
  ret i32 0
}
"#,
        Want::BadExternal("@llvm.ctlz.i32"),
    ),
    // The runtime's functions have their types, called or not.
    Case(
        r#"declare i64 @__msan_size(ptr)
define i32 @main() {
  ret i32 0
}
"#,
        Want::Valid,
    ),
    Case(
        r#"declare i64 @__msan_size(i64)
define i32 @main() {
  ret i32 0
}
"#,
        Want::BadExternal("@__msan_size"),
    ),
    Case(
        r#"declare void @__msan_check(i64, i32, i32, i32, i32, i32)
define i32 @main() {
  ret i32 0
}
"#,
        Want::Valid,
    ),
    // A function has a name of the runtime; and a declaration comes before it.
    Case(
        r#"define void @__msan_size() {
  ret void
}
define i32 @main() {
  ret i32 0
}
"#,
        Want::BadExternal("@__msan_size"),
    ),
    Case(
        r#"declare i64 @puts(ptr)
define void @__msan_size() {
  ret void
}
define i32 @main() {
  %1 = call i64 @puts(ptr null)
  ret i32 0
}
"#,
        Want::BadExternal("@puts"),
    ),
];

/// Globals with reserved names, of which the slots alone may stand.
pub static SLOTS: [Case; 9] = [
    Case(
        r#"@__msan_param_tls = global [ 100 x i64 ] zeroinitializer
define i32 @main() {
  ret i32 0
}
"#,
        Want::Valid,
    ),
    Case(
        r#"@__msan_param_tls = global [ 100 x i32 ] zeroinitializer
define i32 @main() {
  ret i32 0
}
"#,
        Want::BadExternal("@__msan_param_tls"),
    ),
    Case(
        r#"@__msan_param_tls = global [ 99 x i64 ] zeroinitializer
define i32 @main() {
  ret i32 0
}
"#,
        Want::BadExternal("@__msan_param_tls"),
    ),
    Case(
        r#"@__msan_param_tls = constant [ 100 x i64 ] zeroinitializer
define i32 @main() {
  ret i32 0
}
"#,
        Want::BadExternal("@__msan_param_tls"),
    ),
    Case(
        r#"@__msan_retval_tls = global i64 0
define i32 @main() {
  ret i32 0
}
"#,
        Want::Valid,
    ),
    Case(
        r#"@__msan_retval_tls = global i64 zeroinitializer
define i32 @main() {
  ret i32 0
}
"#,
        Want::BadExternal("@__msan_retval_tls"),
    ),
    Case(
        r#"@__msan_retval_origin_tls = global i32 0
define i32 @main() {
  ret i32 0
}
"#,
        Want::Valid,
    ),
    Case(
        r#"@__msan_check = global i64 0
define i32 @main() {
  ret i32 0
}
"#,
        Want::BadExternal("@__msan_check"),
    ),
    Case(
        r#"@x = constant [ 3 x i8 ] zeroinitializer
define i32 @main() {
  ret i32 0
}
"#,
        Want::Valid,
    ),
];
