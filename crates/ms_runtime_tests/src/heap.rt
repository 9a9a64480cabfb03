//! Runs that take, change and give back blocks of the heap.

use ms_top_rows::told::all_told_runs;
use std::test::Fail;

/// Malloc makes blocks.
/// The heap begins at 124244813938688 and has 67108864 bytes; each block takes a multiple of 16, at least 16.
static MALLOC: &[u8] =
    br#"define i32 @main() { %p = call ptr @malloc(i64 5) %a = ptrtoint ptr %p to i64 %b = sub i64 %a, 124244813938688 %c = trunc i64 %b to i32 ret i32 %c }~
~
exit 0~
0
====
define i32 @main() { %p = call ptr @malloc(i64 17) %q = call ptr @malloc(i64 1) %a = ptrtoint ptr %q to i64 %b = sub i64 %a, 124244813938688 %c = trunc i64 %b to i32 ret i32 %c }~
~
exit 32~
0
====
# Each byte is a5.
define i32 @main() { %p = call ptr @malloc(i64 4) %v = load i32, ptr %p ret i32 %v }~
~
exit 2779096485~
0
====
define i32 @main() { %p = call ptr @malloc(i64 0) %q = call ptr @malloc(i64 0) %a = ptrtoint ptr %q to i64 %b = sub i64 %a, 124244813938688 %c = trunc i64 %b to i32 ret i32 %c }~
~
exit 16~
0
====
define i32 @main() { %p = call ptr @malloc(i64 0) %v = load i8, ptr %p ret i32 0 }~
~
trap bad-address at site 2 in @main~
3
====
define i32 @main() { %p = call ptr @malloc(i64 5) %q = getelementptr i8, ptr %p, i64 4 store i8 9, ptr %q %v = load i8, ptr %q %c = zext i8 %v to i32 ret i32 %c }~
~
exit 9~
0
====
define i32 @main() { %p = call ptr @malloc(i64 5) %q = getelementptr i8, ptr %p, i64 5 store i8 9, ptr %q ret i32 0 }~
~
trap bad-address at site 3 in @main~
3
====
# A block too large is refused and takes nothing. The last 16 bytes are one block, after which there is no room, also once another is given back.
define i32 @main() { %p = call ptr @malloc(i64 67108865) %a = icmp eq ptr %p, null %q = call ptr @calloc(i64 67108833, i64 1) %r = call ptr @malloc(i64 17) %b = icmp eq ptr %r, null %s = call ptr @malloc(i64 16) %u = getelementptr i8, ptr %s, i64 15 store i8 7, ptr %u call void @free(ptr %q) %t = call ptr @malloc(i64 0) %c = icmp eq ptr %t, null %d = and i1 %a, %b %e = and i1 %d, %c %f = zext i1 %e to i32 %v = load i8, ptr %u %w = zext i8 %v to i32 %x = add i32 %f, %w ret i32 %x }~
~
exit 8~
0
====
define i32 @main() { %p = call ptr @malloc(i64 -1) %a = ptrtoint ptr %p to i64 %c = trunc i64 %a to i32 ret i32 %c }~
~
exit 0~
0
====
"#;

/// Calloc makes zero bytes.
static CALLOC: &[u8] =
    br#"define i32 @main() { %p = call ptr @calloc(i64 3, i64 2) %v = load i48, ptr %p %a = icmp eq i48 %v, 0 %b = zext i1 %a to i32 ret i32 %b }~
~
exit 1~
0
====
define i32 @main() { %p = call ptr @calloc(i64 3, i64 2) %q = getelementptr i8, ptr %p, i64 6 %v = load i8, ptr %q ret i32 0 }~
~
trap bad-address at site 3 in @main~
3
====
define i32 @main() { %p = call ptr @calloc(i64 2, i64 8) %q = call ptr @calloc(i64 1, i64 1) %a = ptrtoint ptr %q to i64 %b = sub i64 %a, 124244813938688 %c = trunc i64 %b to i32 ret i32 %c }~
~
exit 16~
0
====
# Products of 2^64 and more are no sizes, and neither is one above the heap.
define i32 @main() { %p = call ptr @calloc(i64 4294967296, i64 4294967296) %a = ptrtoint ptr %p to i64 %q = call ptr @calloc(i64 -1, i64 2) %b = ptrtoint ptr %q to i64 %r = call ptr @calloc(i64 -1, i64 -1) %c = ptrtoint ptr %r to i64 %s = call ptr @calloc(i64 67108865, i64 1) %d = ptrtoint ptr %s to i64 %e = or i64 %a, %b %f = or i64 %c, %d %g = or i64 %e, %f %h = icmp eq i64 %g, 0 %i = zext i1 %h to i32 ret i32 %i }~
~
exit 1~
0
====
# 2^63 * 2 + 16 would be 16, were it cut.
define i32 @main() { %p = call ptr @calloc(i64 9223372036854775816, i64 2) %a = icmp eq ptr %p, null %b = zext i1 %a to i32 ret i32 %b }~
~
exit 1~
0
====
define i32 @main() { %p = call ptr @calloc(i64 0, i64 -1) %a = ptrtoint ptr %p to i64 %b = sub i64 %a, 124244813938688 %c = trunc i64 %b to i32 %q = call ptr @calloc(i64 -1, i64 0) %d = ptrtoint ptr %q to i64 %e = sub i64 %d, 124244813938688 %f = trunc i64 %e to i32 %g = add i32 %c, %f ret i32 %g }~
~
exit 16~
0
====
define i32 @main() { %p = call ptr @calloc(i64 8388608, i64 8) %a = icmp ne ptr %p, null %q = call ptr @calloc(i64 0, i64 0) %b = icmp eq ptr %q, null %c = and i1 %a, %b %d = zext i1 %c to i32 ret i32 %d }~
~
exit 1~
0
====
"#;

/// Realloc moves blocks.
static REALLOC: &[u8] = br#"# Of null it is `malloc`.
define i32 @main() { %p = call ptr @realloc(ptr null, i64 4) %a = ptrtoint ptr %p to i64 %b = sub i64 %a, 124244813938688 %c = trunc i64 %b to i32 %v = load i32, ptr %p %w = add i32 %v, %c ret i32 %w }~
~
exit 2779096485~
0
====
define i32 @main() { %p = call ptr @realloc(ptr null, i64 67108865) %a = icmp eq ptr %p, null %b = zext i1 %a to i32 ret i32 %b }~
~
exit 1~
0
====
# Two old bytes, 01 and 02, before two of a5.
define i32 @main() { %p = call ptr @malloc(i64 2) store i16 513, ptr %p %q = call ptr @realloc(ptr %p, i64 4) %v = load i32, ptr %q ret i32 %v }~
~
exit 2779054593~
0
====
# 01 02 03 04 is cut to 01 02.
define i32 @main() { %p = call ptr @malloc(i64 4) store i32 67305985, ptr %p %q = call ptr @realloc(ptr %p, i64 2) %v = load i16, ptr %q %w = zext i16 %v to i32 ret i32 %w }~
~
exit 513~
0
====
define i32 @main() { %p = call ptr @malloc(i64 4) %q = call ptr @realloc(ptr %p, i64 2) %r = getelementptr i8, ptr %q, i64 2 %v = load i8, ptr %r ret i32 0 }~
~
trap bad-address at site 4 in @main~
3
====
# It always moves, and the old block is ended.
define i32 @main() { %p = call ptr @malloc(i64 4) %q = call ptr @realloc(ptr %p, i64 4) %a = ptrtoint ptr %p to i64 %b = ptrtoint ptr %q to i64 %c = sub i64 %b, %a %d = trunc i64 %c to i32 ret i32 %d }~
~
exit 16~
0
====
define i32 @main() { %p = call ptr @malloc(i64 4) %q = call ptr @realloc(ptr %p, i64 4) %v = load i8, ptr %p ret i32 0 }~
~
trap bad-address at site 3 in @main~
3
====
define i32 @main() { %p = call ptr @malloc(i64 4) %q = call ptr @realloc(ptr %p, i64 4) call void @free(ptr %q) call void @free(ptr %p) ret i32 0 }~
~
trap bad-free at site 4 in @main~
3
====
define i32 @main() { %p = call ptr @malloc(i64 4) call void @free(ptr %p) %q = call ptr @realloc(ptr %p, i64 4) ret i32 0 }~
~
trap bad-free at site 3 in @main~
3
====
define i32 @main() { %p = call ptr @malloc(i64 4) %q = getelementptr i8, ptr %p, i64 1 %r = call ptr @realloc(ptr %q, i64 4) ret i32 0 }~
~
trap bad-free at site 3 in @main~
3
====
define i32 @main() { %p = alloca i32 %q = call ptr @realloc(ptr %p, i64 4) ret i32 0 }~
~
trap bad-free at site 2 in @main~
3
====
# What would pass the limit is null, and the old block stays.
define i32 @main() { %p = call ptr @malloc(i64 4) store i32 7, ptr %p %q = call ptr @realloc(ptr %p, i64 67108864) %a = icmp eq ptr %q, null %b = zext i1 %a to i32 %v = load i32, ptr %p %w = add i32 %v, %b call void @free(ptr %p) ret i32 %w }~
~
exit 8~
0
====
# Whether the block is one is asked before the limit.
define i32 @main() { %p = inttoptr i64 8 to ptr %q = call ptr @realloc(ptr %p, i64 -1) ret i32 0 }~
~
trap bad-free at site 2 in @main~
3
====
define i32 @main() { %p = call ptr @malloc(i64 4) %q = call ptr @realloc(ptr %p, i64 0) %r = call ptr @malloc(i64 0) %a = ptrtoint ptr %r to i64 %b = sub i64 %a, 124244813938688 %c = trunc i64 %b to i32 ret i32 %c }~
~
exit 32~
0
====
define i32 @main() { %p = call ptr @malloc(i64 4) %q = call ptr @realloc(ptr %p, i64 0) %v = load i8, ptr %q ret i32 0 }~
~
trap bad-address at site 3 in @main~
3
====
# A block of no bytes grows.
define i32 @main() { %p = call ptr @malloc(i64 0) %q = call ptr @realloc(ptr %p, i64 1) %v = load i8, ptr %q %w = zext i8 %v to i32 ret i32 %w }~
~
exit 165~
0
====
"#;

/// Free ends blocks.
static FREE: &[u8] =
    br#"define i32 @main() { call void @free(ptr null) call void @free(ptr null) ret i32 0 }~
~
exit 0~
0
====
define i32 @main() { %p = call ptr @malloc(i64 4) call void @free(ptr %p) call void @free(ptr %p) ret i32 0 }~
~
trap bad-free at site 3 in @main~
3
====
define i32 @main() { %p = call ptr @malloc(i64 0) call void @free(ptr %p) ret i32 0 }~
~
exit 0~
0
====
define i32 @main() { %p = call ptr @malloc(i64 4) %q = getelementptr i8, ptr %p, i64 3 call void @free(ptr %q) ret i32 0 }~
~
trap bad-free at site 3 in @main~
3
====
define i32 @main() { %p = alloca i32 call void @free(ptr %p) ret i32 0 }~
~
trap bad-free at site 2 in @main~
3
====
@g = global i32 0 define i32 @main() { call void @free(ptr @g) ret i32 0 }~
~
trap bad-free at site 1 in @main~
3
====
define i32 @main() { %p = call ptr @malloc(i64 4) call void @free(ptr %p) %v = load i32, ptr %p ret i32 0 }~
~
trap bad-address at site 3 in @main~
3
====
define i32 @main() { %p = call ptr @malloc(i64 4) call void @free(ptr %p) store i8 1, ptr %p ret i32 0 }~
~
trap bad-address at site 3 in @main~
3
====
# No address is used again.
define i32 @main() { %p = call ptr @malloc(i64 4) call void @free(ptr %p) %q = call ptr @malloc(i64 4) %a = ptrtoint ptr %q to i64 %b = sub i64 %a, 124244813938688 %c = trunc i64 %b to i32 ret i32 %c }~
~
exit 16~
0
====
# A block is found between others that ended.
define i32 @main() { %p = call ptr @malloc(i64 4) %q = call ptr @malloc(i64 4) %r = call ptr @malloc(i64 4) store i32 5, ptr %q call void @free(ptr %r) call void @free(ptr %p) %v = load i32, ptr %q call void @free(ptr %q) ret i32 %v }~
~
exit 5~
0
====
"#;

#[test]
fn blocks_are_made_and_ended(rt: HostRuntime) -> Result<(), Fail> {
    assert!(rt; all_told_runs(&rt, rt.alloc(), &[MALLOC, CALLOC, REALLOC, FREE]));
    Ok(())
}
