//! Threads under a schedule: which goes on at each pick. What is wanted was worked out by hand, from the definition of a pick: of the
//! runnable threads, in order of number, the one at the schedule's byte modulo how many they are.

use ms_top_rows::calls::{Beside, Call, Case, Row, all_agree, on_text, saying};
use std::test::Fail;

/// A thread prints B; `main` makes it, yields, prints A and joins it.
const BOTH: &str = r#"define ptr @w(ptr %0) {
  %2 = call i32 @putchar(i32 66)
  ret ptr %0
}
define i32 @main() {
  %1 = alloca i64
  %2 = call i32 @pthread_create(ptr %1, ptr null, ptr @w, ptr null)
  %3 = call i32 @sched_yield()
  %4 = call i32 @putchar(i32 65)
  %5 = load i64, ptr %1
  %6 = call i32 @pthread_join(i64 %5, ptr null)
  ret i32 0
}
declare i32 @putchar(i32)
declare i32 @pthread_create(ptr, ptr, ptr, ptr)
declare i32 @pthread_join(i64, ptr)
declare i32 @sched_yield()
"#;

/// Two threads print their letter, yield and print it again; `main` makes both, and joins the first before the second.
const TWO: &str = r#"define ptr @w(ptr %0) {
  %2 = ptrtoint ptr %0 to i64
  %3 = trunc i64 %2 to i32
  %4 = call i32 @putchar(i32 %3)
  %5 = call i32 @sched_yield()
  %6 = call i32 @putchar(i32 %3)
  ret ptr null
}
define i32 @main() {
  %1 = alloca i64
  %2 = inttoptr i64 65 to ptr
  %3 = inttoptr i64 66 to ptr
  %4 = call i32 @pthread_create(ptr %1, ptr null, ptr @w, ptr %2)
  %5 = call i32 @pthread_create(ptr %1, ptr null, ptr @w, ptr %3)
  %6 = call i32 @pthread_join(i64 1, ptr null)
  %7 = call i32 @pthread_join(i64 2, ptr null)
  ret i32 0
}
declare i32 @putchar(i32)
declare i32 @pthread_create(ptr, ptr, ptr, ptr)
declare i32 @pthread_join(i64, ptr)
declare i32 @sched_yield()
"#;

/// Two threads join one another, and `main` joins the first one.
const RING: &str = r#"define ptr @w(ptr %0) {
  %2 = ptrtoint ptr %0 to i64
  %3 = call i32 @pthread_join(i64 %2, ptr null)
  ret ptr null
}
define i32 @main() {
  %1 = alloca i64
  %2 = inttoptr i64 2 to ptr
  %3 = inttoptr i64 1 to ptr
  %4 = call i32 @pthread_create(ptr %1, ptr null, ptr @w, ptr %2)
  %5 = call i32 @pthread_create(ptr %1, ptr null, ptr @w, ptr %3)
  %6 = call i32 @pthread_join(i64 1, ptr null)
  ret i32 0
}
declare i32 @pthread_create(ptr, ptr, ptr, ptr)
declare i32 @pthread_join(i64, ptr)
"#;

/// A thread sets a variable of `main`, which yields once before it reads it.
const CELL: &str = r#"define ptr @w(ptr %0) {
  store i32 7, ptr %0
  ret ptr null
}
define i32 @main() {
  %1 = alloca i64
  %2 = alloca i32
  %3 = call i32 @pthread_create(ptr %1, ptr null, ptr @w, ptr %2)
  %4 = call i32 @sched_yield()
  %5 = load i32, ptr %2
  ret i32 %5
}
declare i32 @pthread_create(ptr, ptr, ptr, ptr)
declare i32 @sched_yield()
"#;

/// Threads are made until the answer isn't 0; it is returned a thousandfold, and how many calls there were.
const FULL: &str = r#"define ptr @w(ptr %0) {
  ret ptr null
}
define i32 @main() {
  %1 = alloca i64
  br label %2
2:
  %3 = phi i32 [ 0, %0 ], [ %5, %2 ]
  %4 = call i32 @pthread_create(ptr %1, ptr null, ptr @w, ptr null)
  %5 = add i32 %3, 1
  %6 = icmp eq i32 %4, 0
  br i1 %6, label %2, label %7
7:
  %8 = mul i32 %4, 1000
  %9 = add i32 %8, %5
  ret i32 %9
}
declare i32 @pthread_create(ptr, ptr, ptr, ptr)
"#;

/// One thread beside `main`.
static PICKED: [Case; 6] = [
    // Pick 0, at the creation, has `main` alone; pick 1, at the yield, takes number 0 of `main` and the thread: A, and at the
    // join the thread is alone.
    Case(
        "check f",
        BOTH,
        "AB",
        "end: exit 0\nreports: 0\nblind: 0\nverdict: clean\n",
        0,
    ),
    // Pick 1 takes number 1 mod 2, the thread, which prints and ends: then `main` is alone.
    Case(
        "check --schedule 0001 f",
        BOTH,
        "BA",
        "end: exit 0\nreports: 0\nblind: 0\nverdict: clean\n",
        0,
    ),
    // The one byte is that of each pick: pick 0 takes number 1 mod 1, pick 1 number 1 mod 2.
    Case(
        "check --schedule 01 f",
        BOTH,
        "BA",
        "end: exit 0\nreports: 0\nblind: 0\nverdict: clean\n",
        0,
    ),
    // 255 mod 2 is 1.
    Case(
        "check --schedule ff f",
        BOTH,
        "BA",
        "end: exit 0\nreports: 0\nblind: 0\nverdict: clean\n",
        0,
    ),
    // 254 mod 2 is 0.
    Case(
        "check --schedule fe f",
        BOTH,
        "AB",
        "end: exit 0\nreports: 0\nblind: 0\nverdict: clean\n",
        0,
    ),
    // `run` picks as `check` does.
    Case(
        "run --schedule 0001 f",
        BOTH,
        "BA",
        "end: exit 0\nreports: 0\nblind: 0\n",
        0,
    ),
];

/// Two threads, and `main`.
static THREE: [Case; 3] = [
    // Number 0 each time: `main` until it waits at the first join, then the first thread at both its picks, `main` to the second
    // join, then the second thread.
    Case(
        "check f",
        TWO,
        "AABB",
        "end: exit 0\nreports: 0\nblind: 0\nverdict: clean\n",
        0,
    ),
    // Picks 0, 1 take `main`, pick 2 number 0 of the threads, pick 3 number 1, pick 4 by byte 0 again number 0, the first thread,
    // which ends; pick 5 takes number 0, `main`, whose join needn't wait, and pick 6 the second thread.
    Case(
        "check --schedule 00000001 f",
        TWO,
        "ABAB",
        "end: exit 0\nreports: 0\nblind: 0\nverdict: clean\n",
        0,
    ),
    // Pick 2 takes number 1 mod 2 of the threads, the second one, and pick 3, by byte 0 again, number 0, the first one; pick 4
    // and 5 take number 0 and 1 mod 2: the first thread ends, then of `main` and the second one this.
    Case(
        "check --schedule 000001 f",
        TWO,
        "BAAB",
        "end: exit 0\nreports: 0\nblind: 0\nverdict: clean\n",
        0,
    ),
];

/// A join waits. `main` takes six steps, each thread two up to its join.
static WAITING: [Case; 4] = [
    // Step 11 begins with a pick from none.
    Case(
        "check --steps 11 f",
        RING,
        "",
        "end: trap deadlock at site 9 in @main\nreports: 0\nblind: 0\nverdict: clean\n",
        3,
    ),
    // With 10 steps none is left at that pick, which isn't made.
    Case(
        "check --steps 10 f",
        RING,
        "",
        "end: spent\nreports: 0\nblind: 0\nverdict: clean\n",
        4,
    ),
    // Nor is pick 2, by which the first thread begins, with 6.
    Case(
        "check --steps 6 f",
        RING,
        "",
        "end: spent\nreports: 0\nblind: 0\nverdict: clean\n",
        4,
    ),
    // In any order they wait.
    Case(
        "run --schedule 0102 f",
        RING,
        "",
        "end: trap deadlock at site 9 in @main\nreports: 0\nblind: 0\n",
        3,
    ),
];

/// Two schedules of one race: what is said may differ.
static RACING: [Case; 4] = [
    // Pick 1 takes `main`, and nothing is set.
    Case(
        "check f",
        CELL,
        "",
        "report 1: exit at site 8 in @main, part 0, bits 0xffffffff of i32\n  origin 2: alloca at site 4 in @main\nend: reported\nreports: 1\nblind: 0\nverdict: poisoned\n",
        77,
    ),
    // Pick 1 takes number 1 mod 2, the thread: all is set.
    Case(
        "check --schedule 01 f",
        CELL,
        "",
        "end: exit 7\nreports: 0\nblind: 0\nverdict: clean\n",
        0,
    ),
    // By the fill it is another number where it isn't set.
    Case(
        "run --fill 00 f",
        CELL,
        "",
        "end: exit 0\nreports: 0\nblind: 0\n",
        0,
    ),
    // And the same under each fill where it is set.
    Case(
        "run --fill 00 --schedule 01 f",
        CELL,
        "",
        "end: exit 7\nreports: 0\nblind: 0\n",
        0,
    ),
];

/// How many threads there may be.
static MADE: [Case; 2] = [
    // `main` is one of 64, so the 64th call answers 11.
    Case(
        "check f",
        FULL,
        "",
        "end: exit 11064\nreports: 0\nblind: 0\nverdict: clean\n",
        0,
    ),
    // Each thread has ended before the next call: they count too.
    Case(
        "check --schedule 01 f",
        FULL,
        "",
        "end: exit 11064\nreports: 0\nblind: 0\nverdict: clean\n",
        0,
    ),
];

/// What joins answer, and the masks of results.
static JOINED: [Case; 5] = [
    // 35 for the caller, 3 for no thread, 0 for one that ends, 3 for it again.
    Case(
        "check f",
        r#"define ptr @w(ptr %0) {
  ret ptr null
}
define i32 @main() {
  %1 = alloca i64
  %2 = call i32 @pthread_create(ptr %1, ptr null, ptr @w, ptr null)
  %3 = call i32 @pthread_join(i64 0, ptr null)
  %4 = call i32 @pthread_join(i64 2, ptr null)
  %5 = call i32 @pthread_join(i64 1, ptr null)
  %6 = call i32 @pthread_join(i64 1, ptr null)
  %7 = mul i32 %3, 1000
  %8 = mul i32 %4, 100
  %9 = mul i32 %5, 10
  %10 = add i32 %7, %8
  %11 = add i32 %10, %9
  %12 = add i32 %11, %6
  ret i32 %12
}
declare i32 @pthread_create(ptr, ptr, ptr, ptr)
declare i32 @pthread_join(i64, ptr)
"#,
        "",
        "end: exit 35303\nreports: 0\nblind: 0\nverdict: clean\n",
        0,
    ),
    // In a thread 0 is no thread that can be joined, and 1 the caller.
    Case(
        "check f",
        r#"define ptr @w(ptr %0) {
  %2 = call i32 @pthread_join(i64 0, ptr null)
  %3 = call i32 @pthread_join(i64 1, ptr null)
  %4 = mul i32 %2, 100
  %5 = add i32 %4, %3
  %6 = zext i32 %5 to i64
  %7 = inttoptr i64 %6 to ptr
  ret ptr %7
}
define i32 @main() {
  %1 = alloca i64
  %2 = call i32 @pthread_create(ptr %1, ptr null, ptr @w, ptr null)
  %3 = call i32 @pthread_join(i64 1, ptr %1)
  %4 = load i64, ptr %1
  %5 = trunc i64 %4 to i32
  ret i32 %5
}
declare i32 @pthread_create(ptr, ptr, ptr, ptr)
declare i32 @pthread_join(i64, ptr)
"#,
        "",
        "end: exit 335\nreports: 0\nblind: 0\nverdict: clean\n",
        0,
    ),
    // Of the result the lowest byte isn't set, which is shifted out.
    Case(
        "check f",
        r#"define ptr @w(ptr %0) {
  %2 = alloca i64
  store i64 0, ptr %2
  store i8 undef, ptr %2
  %3 = load ptr, ptr %2
  ret ptr %3
}
define i32 @main() {
  %1 = alloca i64
  %2 = call i32 @pthread_create(ptr %1, ptr null, ptr @w, ptr null)
  %3 = call i32 @pthread_join(i64 1, ptr %1)
  %4 = load i64, ptr %1
  %5 = lshr i64 %4, 8
  %6 = trunc i64 %5 to i32
  ret i32 %6
}
declare i32 @pthread_create(ptr, ptr, ptr, ptr)
declare i32 @pthread_join(i64, ptr)
"#,
        "",
        "end: exit 0\nreports: 0\nblind: 0\nverdict: clean\n",
        0,
    ),
    // That byte came by a store of the thread, and by the join.
    Case(
        "check f",
        r#"define ptr @w(ptr %0) {
  %2 = alloca i64
  store i64 0, ptr %2
  store i8 undef, ptr %2
  %3 = load ptr, ptr %2
  ret ptr %3
}
define i32 @main() {
  %1 = alloca i64
  %2 = call i32 @pthread_create(ptr %1, ptr null, ptr @w, ptr null)
  %3 = call i32 @pthread_join(i64 1, ptr %1)
  %4 = load i64, ptr %1
  %5 = trunc i64 %4 to i32
  ret i32 %5
}
declare i32 @pthread_create(ptr, ptr, ptr, ptr)
declare i32 @pthread_join(i64, ptr)
"#,
        "",
        "report 1: exit at site 11 in @main, part 0, bits 0xff of i32\n  origin 5: stored at site 8 in @main\n  origin 4: stored at site 3 in @w\n  origin 2: undef at site 3 in @w\nend: reported\nreports: 1\nblind: 0\nverdict: poisoned\n",
        77,
    ),
    // A call in the thread had an unset result, which isn't the thread's.
    Case(
        "check f",
        r#"define ptr @w(ptr %0) {
  %2 = call ptr @g()
  ret ptr null
}
define ptr @g() {
  ret ptr undef
}
define i32 @main() {
  %1 = alloca i64
  %2 = call i32 @pthread_create(ptr %1, ptr null, ptr @w, ptr null)
  %3 = call i32 @pthread_join(i64 1, ptr %1)
  %4 = load i64, ptr %1
  %5 = trunc i64 %4 to i32
  ret i32 %5
}
declare i32 @pthread_create(ptr, ptr, ptr, ptr)
declare i32 @pthread_join(i64, ptr)
"#,
        "",
        "end: exit 0\nreports: 0\nblind: 0\nverdict: clean\n",
        0,
    ),
];

/// Commands that take no schedule.
static REFUSED: [Case; 4] = [
    // So it is by `explain`.
    Case("explain f", BOTH, "", "refused 18: threads\n", 5),
    // A declaration is no call.
    Case(
        "explain f",
        r#"define i32 @main() {
  ret i32 0
}
declare i32 @sched_yield()
"#,
        "no report\n",
        "end: exit 0\nreports: 0\nblind: 0\nverdict: clean\n",
        0,
    ),
    // A function of the module is no thread call.
    Case(
        "explain f",
        r#"define i32 @sched_yield() {
  ret i32 0
}
define i32 @main() {
  %1 = call i32 @sched_yield()
  ret i32 %1
}
"#,
        "no report\n",
        "end: exit 0\nreports: 0\nblind: 0\nverdict: clean\n",
        0,
    ),
    // What isn't valid is refused for that.
    Case(
        "explain f",
        r#"define i32 @main() {
  %1 = call i32 @sched_yield()
  ret i64 0
}
declare i32 @sched_yield()
"#,
        "",
        "refused 11: type at site 2, operand 0\n",
        5,
    ),
];

/// A corpus with two inputs. A valid module with a thread call is refused, before anything runs.
struct Corpus;

impl Row for Corpus {
    fn call(&self) -> Call<'static> {
        Call {
            beside: Beside::Letters(0),
            ..on_text(
                "corpus f a b",
                BOTH.as_bytes(),
                saying(b"", "refused 18: threads\n", 5),
            )
        }
    }
}

static CORPUS: [Corpus; 1] = [Corpus];

#[test]
fn schedules_pick_threads(rt: HostRuntime) -> Result<(), Fail> {
    assert!(rt;
        all_agree(
            &rt,
            rt.alloc(),
            &[
                PICKED.as_slice(),
                THREE.as_slice(),
                WAITING.as_slice(),
                RACING.as_slice(),
                MADE.as_slice(),
                JOINED.as_slice(),
                REFUSED.as_slice()
            ]
        ) && all_agree(&rt, rt.alloc(), &[&CORPUS])
    );
    Ok(())
}
