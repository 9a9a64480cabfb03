//! What `instrument` writes, byte for byte. What is inserted was worked out by hand.

use ms_top_rows::calls::{Call, Case, Desk, NOTHING, is_joined, on_text, said};
use ms_top_rows::failing::{differs_from, fails};
use ms_top_rows::told::{Told, all_told, fields_of, rows_told};
use std::alloc::Global;
use std::test::Fail;
use std::thread::Threads;

/// A module's types, globals and declarations, its functions, and these with what is inserted.
#[derive(Clone, Copy)]
struct Listing(&'static str, &'static str, &'static str, &'static str);

/// The slots, which stand after the globals of a module.
const SLOTS: &str = r#"@__msan_param_tls = global [ 100 x i64 ] zeroinitializer
@__msan_param_origin_tls = global [ 100 x i32 ] zeroinitializer
@__msan_retval_tls = global i64 0
@__msan_retval_origin_tls = global i32 0
"#;

/// The declarations of the runtime functions, which stand after those of a module.
const RUNTIME: &str = r#"declare void @__msan_check(i64, i32, i32, i32, i32, i32)
declare void @__msan_check_memory(ptr, i64, i32, i32)
declare void @__msan_check_string(ptr, i32)
declare void @__msan_blind(i64)
declare void @__msan_poison(ptr, i64, i64, i32)
declare void @__msan_unpoison(ptr, i64)
declare void @__msan_copy(ptr, ptr, i64)
declare void @__msan_fill(ptr, i64, i64, i32, i32)
declare void @__msan_store_origin(ptr, i64, i32, i32)
declare i32 @__msan_load_origin(ptr, i64)
declare i64 @__msan_size(ptr)
declare void @__msan_thread_result(ptr, i64, i32, i32)
declare void @__msan_check_format(ptr, i32, ptr, i32)
"#;

/// Modules are written with inserted code.
static LISTINGS: &[u8] =
    br#"# Nothing that is known to be defined is checked, and without a mark the last line is missing.
%t = type { i8, ptr }
@g = global i8 7
~
declare void @unused(i1)
~
define i32 @main() {
  ret i32 0
}
~
define i32 @main() {
  ret i32 0
}

====
~
~
define i32 @main() {
  %1 = and i32 undef, 255
  ret i32 %1
}
~
define i32 @main() {
  %__msan.3 = icmp ne i32 0, 0, !nosanitize !0
  %__msan.2 = select i1 %__msan.3, i32 0, i32 1, !nosanitize !0
  %__msan.4 = or i32 undef, -1, !nosanitize !0
  %__msan.5 = or i32 255, 0, !nosanitize !0
  %__msan.6 = and i32 %__msan.4, %__msan.5, !nosanitize !0
  %__msan.7 = or i32 -1, 0, !nosanitize !0
  %__msan.1 = and i32 %__msan.6, %__msan.7, !nosanitize !0
  %1 = and i32 undef, 255
  %__msan.8 = zext i32 %__msan.1 to i64, !nosanitize !0
  call void @__msan_check(i64 %__msan.8, i32 32, i32 %__msan.2, i32 8, i32 0, i32 2), !nosanitize !0
  ret i32 %1
}
!0 = !{}

====
~
~
define i32 @main() {
  %1 = alloca i32
  store i32 undef, ptr %1
  %2 = load i32, ptr %1
  ret i32 %2
}
~
define i32 @main() {
  %1 = alloca i32
  %__msan.5 = zext i32 1 to i64, !nosanitize !0
  %__msan.6 = mul i64 4, %__msan.5, !nosanitize !0
  call void @__msan_poison(ptr %1, i64 0, i64 %__msan.6, i32 1), !nosanitize !0
  store i32 undef, ptr %1
  %__msan.7 = ptrtoint ptr %1 to i64, !nosanitize !0
  %__msan.8 = xor i64 %__msan.7, 87960930222080, !nosanitize !0
  %__msan.9 = inttoptr i64 %__msan.8 to ptr, !nosanitize !0
  store i32 -1, ptr %__msan.9, !nosanitize !0
  %__msan.10 = zext i32 -1 to i64, !nosanitize !0
  call void @__msan_store_origin(ptr %1, i64 %__msan.10, i32 2, i32 2), !nosanitize !0
  %__msan.11 = ptrtoint ptr %1 to i64, !nosanitize !0
  %__msan.12 = xor i64 %__msan.11, 87960930222080, !nosanitize !0
  %__msan.13 = inttoptr i64 %__msan.12 to ptr, !nosanitize !0
  %__msan.3 = load i32, ptr %__msan.13, !nosanitize !0
  %__msan.14 = zext i32 %__msan.3 to i64, !nosanitize !0
  %__msan.4 = call i32 @__msan_load_origin(ptr %1, i64 %__msan.14), !nosanitize !0
  %2 = load i32, ptr %1
  %__msan.15 = zext i32 %__msan.3 to i64, !nosanitize !0
  call void @__msan_check(i64 %__msan.15, i32 32, i32 %__msan.4, i32 8, i32 0, i32 4), !nosanitize !0
  ret i32 %2
}
!0 = !{}

====
# An ordered comparison, and a phi with those of its mask and its origin.
~
~
define i32 @main() {
  %1 = icmp ult i8 undef, 16
  br i1 %1, label %2, label %3
2:
  br label %3
3:
  %4 = phi i32 [ undef, %0 ], [ 4, %2 ]
  ret i32 %4
}
~
define i32 @main() {
  %__msan.5 = icmp ne i8 0, 0, !nosanitize !0
  %__msan.2 = select i1 %__msan.5, i32 0, i32 1, !nosanitize !0
  %__msan.6 = or i8 undef, -1, !nosanitize !0
  %__msan.7 = xor i8 %__msan.6, -1, !nosanitize !0
  %__msan.8 = or i8 16, 0, !nosanitize !0
  %__msan.9 = icmp ult i8 %__msan.7, %__msan.8, !nosanitize !0
  %__msan.10 = or i8 undef, -1, !nosanitize !0
  %__msan.11 = or i8 16, 0, !nosanitize !0
  %__msan.12 = xor i8 %__msan.11, 0, !nosanitize !0
  %__msan.13 = icmp ult i8 %__msan.10, %__msan.12, !nosanitize !0
  %__msan.1 = xor i1 %__msan.9, %__msan.13, !nosanitize !0
  %1 = icmp ult i8 undef, 16
  %__msan.14 = zext i1 %__msan.1 to i64, !nosanitize !0
  call void @__msan_check(i64 %__msan.14, i32 1, i32 %__msan.2, i32 1, i32 0, i32 2), !nosanitize !0
  br i1 %1, label %2, label %3
2:
  br label %3
3:
  %4 = phi i32 [ undef, %0 ], [ 4, %2 ]
  %__msan.3 = phi i32 [ -1, %0 ], [ 0, %2 ], !nosanitize !0
  %__msan.4 = phi i32 [ 2, %0 ], [ 0, %2 ], !nosanitize !0
  %__msan.15 = zext i32 %__msan.3 to i64, !nosanitize !0
  call void @__msan_check(i64 %__msan.15, i32 32, i32 %__msan.4, i32 8, i32 0, i32 5), !nosanitize !0
  ret i32 %4
}
!0 = !{}

====
# What a caller hands over and what it gets back goes through the slots.
~
~
define i8 @f(i8 %0) {
  ret i8 %0
}
define i32 @main() {
  %1 = call i8 @f(i8 undef)
  ret i32 0
}
~
define i8 @f(i8 %0) {
  %__msan.1 = load i8, ptr getelementptr (i64, ptr @__msan_param_tls, i64 0), !nosanitize !0
  %__msan.2 = load i32, ptr getelementptr (i32, ptr @__msan_param_origin_tls, i64 0), !nosanitize !0
  store i8 %__msan.1, ptr @__msan_retval_tls, !nosanitize !0
  store i32 %__msan.2, ptr @__msan_retval_origin_tls, !nosanitize !0
  ret i8 %0
}
define i32 @main() {
  store i8 -1, ptr getelementptr (i64, ptr @__msan_param_tls, i64 0), !nosanitize !0
  store i32 1, ptr getelementptr (i32, ptr @__msan_param_origin_tls, i64 0), !nosanitize !0
  %1 = call i8 @f(i8 undef)
  %__msan.1 = load i8, ptr @__msan_retval_tls, !nosanitize !0
  %__msan.2 = load i32, ptr @__msan_retval_origin_tls, !nosanitize !0
  ret i32 0
}
!0 = !{}

====
# A blind use is counted, and nothing is computed of the result of an external, which is clean.
~
declare i32 @putchar(i32)
~
define i32 @main() {
  %1 = add nsw i32 undef, 1
  %2 = call i32 @putchar(i32 %1)
  ret i32 0
}
~
define i32 @main() {
  %__msan.5 = zext i32 -1 to i64, !nosanitize !0
  call void @__msan_blind(i64 %__msan.5), !nosanitize !0
  %__msan.6 = icmp ne i32 0, 0, !nosanitize !0
  %__msan.2 = select i1 %__msan.6, i32 0, i32 1, !nosanitize !0
  %__msan.7 = sub i32 0, -1, !nosanitize !0
  %__msan.1 = or i32 -1, %__msan.7, !nosanitize !0
  %1 = add nsw i32 undef, 1
  %__msan.8 = zext i32 %__msan.1 to i64, !nosanitize !0
  call void @__msan_check(i64 %__msan.8, i32 32, i32 %__msan.2, i32 7, i32 0, i32 2), !nosanitize !0
  %2 = call i32 @putchar(i32 %1)
  ret i32 0
}
!0 = !{}

====
# Without a flag a product is no blind use: a poisoned bit poisons each bit above it.
~
~
define i8 @f(i8 %0) {
  %2 = mul i8 %0, 3
  ret i8 %2
}
define i32 @main() {
  ret i32 0
}
~
define i8 @f(i8 %0) {
  %__msan.1 = load i8, ptr getelementptr (i64, ptr @__msan_param_tls, i64 0), !nosanitize !0
  %__msan.2 = load i32, ptr getelementptr (i32, ptr @__msan_param_origin_tls, i64 0), !nosanitize !0
  %__msan.5 = icmp ne i8 0, 0, !nosanitize !0
  %__msan.4 = select i1 %__msan.5, i32 0, i32 %__msan.2, !nosanitize !0
  %__msan.6 = sub i8 0, %__msan.1, !nosanitize !0
  %__msan.3 = or i8 %__msan.1, %__msan.6, !nosanitize !0
  %2 = mul i8 %0, 3
  store i8 %__msan.3, ptr @__msan_retval_tls, !nosanitize !0
  store i32 %__msan.4, ptr @__msan_retval_origin_tls, !nosanitize !0
  ret i8 %2
}
define i32 @main() {
  ret i32 0
}
!0 = !{}

====
# Masks that aren't known to be 0 are joined, of a blind use as words of 64 bits.
~
~
define i8 @f(i8 %0, i8 %1) {
  %3 = add nsw i8 %0, %1
  ret i8 %3
}
define i32 @main() {
  ret i32 0
}
~
define i8 @f(i8 %0, i8 %1) {
  %__msan.1 = load i8, ptr getelementptr (i64, ptr @__msan_param_tls, i64 0), !nosanitize !0
  %__msan.2 = load i32, ptr getelementptr (i32, ptr @__msan_param_origin_tls, i64 0), !nosanitize !0
  %__msan.3 = load i8, ptr getelementptr (i64, ptr @__msan_param_tls, i64 1), !nosanitize !0
  %__msan.4 = load i32, ptr getelementptr (i32, ptr @__msan_param_origin_tls, i64 1), !nosanitize !0
  %__msan.7 = zext i8 %__msan.1 to i64, !nosanitize !0
  %__msan.8 = zext i8 %__msan.3 to i64, !nosanitize !0
  %__msan.9 = or i64 %__msan.7, %__msan.8, !nosanitize !0
  call void @__msan_blind(i64 %__msan.9), !nosanitize !0
  %__msan.10 = icmp ne i8 %__msan.3, 0, !nosanitize !0
  %__msan.6 = select i1 %__msan.10, i32 %__msan.4, i32 %__msan.2, !nosanitize !0
  %__msan.11 = or i8 %__msan.1, %__msan.3, !nosanitize !0
  %__msan.12 = or i8 %__msan.1, %__msan.3, !nosanitize !0
  %__msan.13 = sub i8 0, %__msan.12, !nosanitize !0
  %__msan.5 = or i8 %__msan.11, %__msan.13, !nosanitize !0
  %3 = add nsw i8 %0, %1
  store i8 %__msan.5, ptr @__msan_retval_tls, !nosanitize !0
  store i32 %__msan.6, ptr @__msan_retval_origin_tls, !nosanitize !0
  ret i8 %3
}
define i32 @main() {
  ret i32 0
}
!0 = !{}

====
# An address: the masks of its base and of the index that isn't known are joined as words of 64 bits.
~
~
define i32 @main() {
  %1 = getelementptr [2 x i8], ptr undef, i64 0, i8 undef
  ret i32 0
}
~
define i32 @main() {
  %__msan.3 = icmp ne i8 -1, 0, !nosanitize !0
  %__msan.4 = icmp ne i64 0, 0, !nosanitize !0
  %__msan.5 = select i1 %__msan.4, i32 0, i32 1, !nosanitize !0
  %__msan.2 = select i1 %__msan.3, i32 2, i32 %__msan.5, !nosanitize !0
  %__msan.6 = sext i8 -1 to i64, !nosanitize !0
  %__msan.7 = or i64 -1, %__msan.6, !nosanitize !0
  %__msan.8 = sext i8 -1 to i64, !nosanitize !0
  %__msan.9 = or i64 -1, %__msan.8, !nosanitize !0
  %__msan.10 = sub i64 0, %__msan.9, !nosanitize !0
  %__msan.1 = or i64 %__msan.7, %__msan.10, !nosanitize !0
  %1 = getelementptr [ 2 x i8 ], ptr undef, i64 0, i8 undef
  ret i32 0
}
!0 = !{}

====
# Of a word on the stack the address is clean, and what is loaded isn't: the branch alone is checked.
~
~
define i32 @main() {
  %1 = alloca i32
  %2 = load i32, ptr %1
  %3 = icmp eq i32 %2, 0
  br i1 %3, label %4, label %5
4:
  ret i32 0
5:
  ret i32 1
}
~
define i32 @main() {
  %1 = alloca i32
  %__msan.7 = zext i32 1 to i64, !nosanitize !0
  %__msan.8 = mul i64 4, %__msan.7, !nosanitize !0
  call void @__msan_poison(ptr %1, i64 0, i64 %__msan.8, i32 1), !nosanitize !0
  %__msan.9 = ptrtoint ptr %1 to i64, !nosanitize !0
  %__msan.10 = xor i64 %__msan.9, 87960930222080, !nosanitize !0
  %__msan.11 = inttoptr i64 %__msan.10 to ptr, !nosanitize !0
  %__msan.3 = load i32, ptr %__msan.11, !nosanitize !0
  %__msan.12 = zext i32 %__msan.3 to i64, !nosanitize !0
  %__msan.4 = call i32 @__msan_load_origin(ptr %1, i64 %__msan.12), !nosanitize !0
  %2 = load i32, ptr %1
  %__msan.13 = icmp ne i32 0, 0, !nosanitize !0
  %__msan.6 = select i1 %__msan.13, i32 0, i32 %__msan.4, !nosanitize !0
  %__msan.14 = xor i32 %2, 0, !nosanitize !0
  %__msan.15 = or i32 %__msan.3, 0, !nosanitize !0
  %__msan.16 = or i32 %__msan.14, %__msan.15, !nosanitize !0
  %__msan.17 = or i32 %__msan.3, 0, !nosanitize !0
  %__msan.18 = icmp eq i32 %__msan.16, %__msan.17, !nosanitize !0
  %__msan.19 = or i32 %__msan.3, 0, !nosanitize !0
  %__msan.20 = icmp ne i32 %__msan.19, 0, !nosanitize !0
  %__msan.5 = and i1 %__msan.18, %__msan.20, !nosanitize !0
  %3 = icmp eq i32 %2, 0
  %__msan.21 = zext i1 %__msan.5 to i64, !nosanitize !0
  call void @__msan_check(i64 %__msan.21, i32 1, i32 %__msan.6, i32 1, i32 0, i32 4), !nosanitize !0
  br i1 %3, label %4, label %5
4:
  ret i32 0
5:
  ret i32 1
}
!0 = !{}

====
# The count is undefined at its own place, and then comes what the allocation leaves undefined.
~
~
define i32 @main() {
  %1 = alloca i8, i32 undef
  ret i32 0
}
~
define i32 @main() {
  %__msan.3 = zext i32 -1 to i64, !nosanitize !0
  call void @__msan_check(i64 %__msan.3, i32 32, i32 1, i32 5, i32 0, i32 1), !nosanitize !0
  %1 = alloca i8, i32 undef
  %__msan.4 = zext i32 undef to i64, !nosanitize !0
  %__msan.5 = mul i64 1, %__msan.4, !nosanitize !0
  call void @__msan_poison(ptr %1, i64 0, i64 %__msan.5, i32 2), !nosanitize !0
  ret i32 0
}
!0 = !{}

====
# Of a block that is made anew what lies after its old size is undefined; the name of that size isn't taken again.
~
declare ptr @realloc(ptr, i64)
~
define i32 @main() {
  %1 = call ptr @realloc(ptr null, i64 4)
  %2 = load i8, ptr %1
  ret i32 0
}
~
define i32 @main() {
  %__msan.5 = call i64 @__msan_size(ptr null), !nosanitize !0
  %1 = call ptr @realloc(ptr null, i64 4)
  call void @__msan_poison(ptr %1, i64 %__msan.5, i64 4, i32 1), !nosanitize !0
  %__msan.6 = ptrtoint ptr %1 to i64, !nosanitize !0
  %__msan.7 = xor i64 %__msan.6, 87960930222080, !nosanitize !0
  %__msan.8 = inttoptr i64 %__msan.7 to ptr, !nosanitize !0
  %__msan.3 = load i8, ptr %__msan.8, !nosanitize !0
  %__msan.9 = zext i8 %__msan.3 to i64, !nosanitize !0
  %__msan.4 = call i32 @__msan_load_origin(ptr %1, i64 %__msan.9), !nosanitize !0
  %2 = load i8, ptr %1
  ret i32 0
}
!0 = !{}

====
# The text of a format, the words of further arguments, and the string at each pointer among them, if the format asks.
@f = constant [ 3 x i8 ] c"%s\00"
~
declare i32 @printf(ptr, ...)
~
define i32 @main() {
  %1 = alloca i8
  %2 = call i32 (ptr, ...) @printf(ptr @f, i32 undef, ptr %1)
  ret i32 0
}
~
define i32 @main() {
  %1 = alloca i8
  %__msan.5 = zext i32 1 to i64, !nosanitize !0
  %__msan.6 = mul i64 1, %__msan.5, !nosanitize !0
  call void @__msan_poison(ptr %1, i64 0, i64 %__msan.6, i32 1), !nosanitize !0
  call void @__msan_check_string(ptr @f, i32 2), !nosanitize !0
  %__msan.7 = zext i32 -1 to i64, !nosanitize !0
  call void @__msan_check(i64 %__msan.7, i32 32, i32 2, i32 7, i32 1, i32 2), !nosanitize !0
  call void @__msan_check_format(ptr @f, i32 2, ptr %1, i32 2), !nosanitize !0
  %2 = call i32 (ptr, ...) @printf(ptr @f, i32 undef, ptr %1)
  ret i32 0
}
!0 = !{}

====
# A loop over sums, a comparison and a division, of which each is clean where the others are: nothing is inserted.
~
~
define i32 @main() {
  br label %1
1:
  %2 = phi i32 [ 0, %0 ], [ %4, %1 ]
  %3 = udiv i32 %2, 1
  %4 = add i32 %3, 1
  %5 = icmp ult i32 %4, 5
  br i1 %5, label %1, label %6
6:
  ret i32 %4
}
~
define i32 @main() {
  br label %1
1:
  %2 = phi i32 [ 0, %0 ], [ %4, %1 ]
  %3 = udiv i32 %2, 1
  %4 = add i32 %3, 1
  %5 = icmp ult i32 %4, 5
  br i1 %5, label %1, label %6
6:
  ret i32 %4
}

====
"#;

/// Modules that are not instrumented, and words that name no file.
static REFUSALS: &[u8] = br#"instrument~
~
~
words: MissingFile at 1
~
2
====
instrument f f~
~
~
words: Extra at 2
~
2
====
instruments f~
~
~
words: UnknownCommand at 0
~
2
====
instrument g~
~
~
file fault: g
~
6
====
instrument f~
~
~
refused 13: no main
~
5
====
instrument f~
?~
~
refused 1: bad byte at 0
~
5
====
# What was written with inserted code is not instrumented once more.
instrument f~
define i32 @main() {
  ret i32 0, !nosanitize !0
}
~
~
refused 8: reserved at token 10, byte 34
~
5
====
instrument f~
define i32 @main() {
  ret i64 0
}
~
~
refused 11: type at site 1, operand 0
~
5
====
"#;

impl Told for Listing {
    const FIELDS: usize = 4;

    fn told(text: &'static str) -> Option<Listing> {
        let [globals, declarations, before, after, _, _] = fields_of(text);
        Some(Listing(globals, declarations, before, after))
    }
}

/// A call that writes a row's module.
fn call_of(row: &Listing) -> Call<'static> {
    Call {
        piece: row.1.as_bytes(),
        times: 1,
        tail: row.2.as_bytes(),
        ..on_text("instrument f", row.0.as_bytes(), NOTHING)
    }
}

/// Whether a module was written as its row says.
fn is_text(desk: &Desk, row: &Listing) -> bool {
    desk.status == 0
        && desk.err.as_slice().is_empty()
        && is_joined(desk.out.as_slice(), &[row.0, SLOTS, row.1, RUNTIME, row.3])
}

/// Whether `instrument` writes a row's module as the row says.
fn is_listed<R: Threads + Sync + Eprint>(rt: &R, alloc: Global, row: &Listing) -> bool {
    match said(rt, alloc, &call_of(row)) {
        Ok(desk) => is_text(&desk, row) || differs_from(rt, row.3, &desk),
        Err(_) => false,
    }
}

fn all_are_listed<R: Threads + Sync + Eprint>(rt: &R, alloc: Global, rows: &[Listing]) -> bool {
    for (number, row) in rows.iter().enumerate() {
        if !is_listed(rt, alloc, row) {
            return fails(rt, "row", number);
        }
    }
    true
}

/// Whether each module of a table is written as its row says.
fn all_are_told<R: Threads + Sync + Eprint>(rt: &R, alloc: Global, table: &'static [u8]) -> bool {
    match rows_told::<R, Listing>(rt, alloc, table) {
        Some(rows) => all_are_listed(rt, alloc, rows.as_slice()),
        None => false,
    }
}

#[test]
fn modules_are_written_with_inserted_code(rt: HostRuntime) -> Result<(), Fail> {
    assert!(rt;
        all_are_told(&rt, rt.alloc(), LISTINGS) && all_told::<_, Case>(&rt, rt.alloc(), &[REFUSALS])
    );
    Ok(())
}
