//! Words that are no command, options that are read, and modules that are generated.

use ms_top_rows::calls::{Case, DEFAULTS, all_agree};
use ms_top_rows::modules::Checked;
use ms_top_rows::told::all_told;
use std::test::Fail;

/// Its word is made of the bytes of the fill.
const FROZEN: &str = r#"define i32 @main() {
  %1 = freeze i32 undef
  ret i32 %1
}
"#;

/// Traps under a fill whose word is the greatest number with a sign.
const SUM: &str = r#"define i32 @main() {
  %1 = add nsw i32 undef, 1
  ret i32 %1
}
"#;

/// Prints `A` where the lowest bit of an undefined word is 0, and `B` where it is 1.
const LOWEST_BIT: &str = r#"declare i32 @putchar(i32)
define i32 @main() {
  %1 = and i32 undef, 1
  %2 = add i32 %1, 1
  %3 = lshr i32 %2, 1
  %4 = icmp eq i32 %3, 0
  br i1 %4, label %5, label %7
5:
  %6 = call i32 @putchar(i32 65)
  ret i32 0
7:
  %8 = call i32 @putchar(i32 66)
  ret i32 0
}
"#;

const DIVIDES: &str = r#"define i32 @main() {
  %1 = udiv i32 8, undef
  ret i32 0
}
"#;

/// Two uses of undefined words.
const TWO_USES: &str = r#"define i32 @main() {
  br i1 undef, label %1, label %1
1:
  ret i32 undef
}
"#;

const RETURNS: &str = r#"define i32 @main() {
  ret i32 0
}
"#;

/// Echoes one byte.
const ECHO: &str = r#"declare i32 @putchar(i32)
declare i32 @getchar()
define i32 @main() {
  %1 = call i32 @getchar()
  %2 = call i32 @putchar(i32 %1)
  ret i32 0
}
"#;

/// A module of one function, from the seed 0.
const FROM_ZERO: &str = r#"declare i32 @putchar(i32)
define i32 @f0(i32 %0) {
  %2 = alloca i32
  store i32 %0, ptr %2
  %3 = load i32, ptr %2
  %4 = add i32 %3, 30472
  %5 = or i32 %4, 3444
  %6 = or i32 %5, 16283
  %7 = and i32 %6, 48071
  %8 = and i32 %7, 29851
  %9 = add i32 %8, 42706
  %10 = xor i32 %9, 34877
  %11 = and i32 %10, 22814
  ret i32 %11
}
define i32 @main() {
  %1 = call i32 @f0(i32 1)
  %2 = call i32 @putchar(i32 %1)
  ret i32 0
}
"#;

/// A module of two functions, from the seed 7.
const FROM_SEVEN: &str = r#"declare i32 @putchar(i32)
define i32 @f0(i32 %0) {
  %2 = alloca i32
  store i32 %0, ptr %2
  %3 = load i32, ptr %2
  %4 = xor i32 %3, 3391
  %5 = or i32 %4, 23441
  %6 = or i32 %5, 51459
  %7 = and i32 %6, 14356
  %8 = add i32 %7, 42614
  %9 = add i32 %8, 2483
  %10 = and i32 %9, 21616
  %11 = or i32 %10, 63906
  ret i32 %11
}
define i32 @f1(i32 %0) {
  %2 = alloca i32
  store i32 %0, ptr %2
  %3 = load i32, ptr %2
  %4 = or i32 %3, 36467
  %5 = and i32 %4, 39071
  %6 = and i32 %5, 31649
  %7 = xor i32 %6, 18226
  %8 = or i32 %7, 49264
  %9 = and i32 %8, 7641
  %10 = or i32 %9, 52080
  %11 = and i32 %10, 61853
  %12 = call i32 @f0(i32 %11)
  ret i32 %12
}
define i32 @main() {
  %1 = call i32 @f1(i32 1)
  %2 = call i32 @putchar(i32 %1)
  ret i32 0
}
"#;

/// The first fault is said.
static FAULTS: &[u8] = br#"~
~
~
words: UnknownCommand at 0
~
2
====
corpora f a~
~
~
words: UnknownCommand at 0
~
2
====
corpus f~
~
~
words: MissingFile at 2
~
2
====
corpus --workers 9 f a~
~
~
words: OutOfRange at 2
~
2
====
corpus --workers=0 f a~
~
~
words: OutOfRange at 1
~
2
====
check --workers=2 f~
~
~
words: MissingOption at 3
~
2
====
explain~
~
~
words: MissingFile at 1
~
2
====
explain f g~
~
~
words: Extra at 2
~
2
====
explain --reports 2 f~
~
~
words: UnknownOption at 1
~
2
====
runs f~
~
~
words: UnknownCommand at 0
~
2
====
checks f~
~
~
words: UnknownCommand at 0
~
2
====
run~
~
~
words: MissingFile at 1
~
2
====
check~
~
~
words: MissingFile at 1
~
2
====
check --steps 01 f~
~
~
words: BadNumber at 2
~
2
====
check --fill a f~
~
~
words: BadHex at 2
~
2
====
check a b~
~
~
words: Extra at 2
~
2
====
run --steps 5 --steps 6 f~
~
~
words: Repeated at 3
~
2
====
run --input~
~
~
words: MissingValue at 2
~
2
====
check --where=yes f~
~
~
words: UnknownOption at 1
~
2
====
check --where --where f~
~
~
words: Repeated at 2
~
2
====
run --schedules 5 f~
~
~
words: UnknownOption at 1
~
2
====
corpus --schedules 5 f a~
~
~
words: UnknownOption at 1
~
2
====
check --schedules 0 f~
~
~
words: OutOfRange at 2
~
2
====
check --schedules=1000001 f~
~
~
words: OutOfRange at 1
~
2
====
check --schedules ff f~
~
~
words: BadNumber at 2
~
2
====
check --schedules~
~
~
words: MissingValue at 2
~
2
====
check --schedules 5 --schedules 5 f~
~
~
words: Repeated at 3
~
2
====
check --schedule 00 --schedules 5 f~
~
~
words: Excluded at 3
~
2
====
check --schedules=5 --schedule=00 f~
~
~
words: Excluded at 2
~
2
====
check --workers 2 f~
~
~
words: MissingOption at 4
~
2
====
check --schedules 5 --workers 9 f~
~
~
words: OutOfRange at 4
~
2
====
check --schedules 5 --workers 2~
~
~
words: MissingFile at 5
~
2
====
run --workers 2 f~
~
~
words: UnknownOption at 1
~
2
====
instrument --where f~
~
~
words: UnknownOption at 1
~
2
====
instrument --calls f~
~
~
words: UnknownOption at 1
~
2
====
explain --once f~
~
~
words: UnknownOption at 1
~
2
====
check --once=1 f~
~
~
words: UnknownOption at 1
~
2
====
run --once --calls --once f~
~
~
words: Repeated at 3
~
2
====
run -x f~
~
~
words: UnknownOption at 1
~
2
====
run --reports 0 f~
~
~
words: OutOfRange at 2
~
2
====
gen --seed 7~
~
~
words: MissingOption at 3
~
2
====
instrument --fill 00 f~
~
~
words: UnknownOption at 1
~
2
====
run --~
~
~
words: MissingFile at 2
~
2
====
run f --steps=5~
~
~
words: Extra at 2
~
2
====
run f --~
~
~
words: Extra at 2
~
2
====
gen --seed=1 f~
~
~
words: Extra at 2
~
2
====
run --steps= f~
~
~
words: BadNumber at 1
~
2
====
run --steps 00 f~
~
~
words: BadNumber at 2
~
2
====
run --steps +1 f~
~
~
words: BadNumber at 2
~
2
====
run --steps 1000000001 f~
~
~
words: OutOfRange at 2
~
2
====
gen --seed 18446744073709551616~
~
~
words: OutOfRange at 2
~
2
====
gen --functions=0~
~
~
words: OutOfRange at 1
~
2
====
gen --functions 1001~
~
~
words: OutOfRange at 2
~
2
====
run --speed~
~
~
words: UnknownOption at 1
~
2
====
run --=5 f~
~
~
words: UnknownOption at 1
~
2
====
run ---steps 5 f~
~
~
words: UnknownOption at 1
~
2
====
gen --run=x~
~
~
words: UnknownOption at 1
~
2
====
gen --run --run=x~
~
~
words: UnknownOption at 2
~
2
====
gen --run --run~
~
~
words: Repeated at 2
~
2
====
run --steps=1 --steps~
~
~
words: Repeated at 2
~
2
====
run --steps=1 --steps=x~
~
~
words: Repeated at 2
~
2
====
run --fill=g --speed~
~
~
words: BadHex at 1
~
2
====
run --step 5 f~
~
~
words: UnknownOption at 1
~
2
====
run --seed 5 f~
~
~
words: UnknownOption at 1
~
2
====
"#;

/// Options are read.
static OPTIONS: [Case; 20] = [
    Case(
        "run --fill 00 f",
        LOWEST_BIT,
        "A",
        "end: exit 0\nreports: 0\nblind: 0\n",
        0,
    ),
    Case(
        "run --fill 01 f",
        LOWEST_BIT,
        "B",
        "end: exit 0\nreports: 0\nblind: 0\n",
        0,
    ),
    Case(
        "run --fill 00 f",
        DIVIDES,
        "",
        "end: trap zero-divisor at site 1 in @main\nreports: 0\nblind: 0\n",
        3,
    ),
    Case(
        "run --fill 02 f",
        DIVIDES,
        "",
        "end: exit 0\nreports: 0\nblind: 0\n",
        0,
    ),
    Case(
        "run --fill=A5 -- f",
        FROZEN,
        "",
        "end: exit 2779096485\nreports: 0\nblind: 0\n",
        0,
    ),
    Case(
        "run --fill 00 f",
        FROZEN,
        "",
        "end: exit 0\nreports: 0\nblind: 0\n",
        0,
    ),
    Case(
        "run --fill 0102 f",
        FROZEN,
        "",
        "end: exit 33620481\nreports: 0\nblind: 0\n",
        0,
    ),
    Case(
        "check f",
        FROZEN,
        "",
        "end: exit 2779096485\nreports: 0\nblind: 1\nverdict: unsure\n",
        0,
    ),
    Case(
        "check --fill=00 f",
        FROZEN,
        "",
        "end: exit 0\nreports: 0\nblind: 1\nverdict: unsure\n",
        0,
    ),
    Case(
        "check --fill ffffff7f f",
        SUM,
        "",
        "end: trap nsw at site 1 in @main\nreports: 0\nblind: 1\nverdict: unsure\n",
        3,
    ),
    Case(
        "check --fill 00 f",
        SUM,
        "",
        "report 1: exit at site 2 in @main, part 0, bits 0xffffffff of i32\n  origin 1: undef at site 1 in @main\nend: reported\nreports: 1\nblind: 1\nverdict: poisoned\n",
        77,
    ),
    Case(
        "check --reports 2 f",
        TWO_USES,
        "",
        "report 1: branch at site 1 in @main, part 0, bits 0x1 of i1\n  origin 1: undef at site 1 in @main\nreport 2: exit at site 2 in @main, part 0, bits 0xffffffff of i32\n  origin 2: undef at site 2 in @main\nend: reported\nreports: 2\nblind: 0\nverdict: poisoned\n",
        77,
    ),
    Case(
        "check --reports=3 --fill=00 f",
        TWO_USES,
        "",
        "report 1: branch at site 1 in @main, part 0, bits 0x1 of i1\n  origin 1: undef at site 1 in @main\nreport 2: exit at site 2 in @main, part 0, bits 0xffffffff of i32\n  origin 2: undef at site 2 in @main\nend: exit 0\nreports: 2\nblind: 0\nverdict: poisoned\n",
        77,
    ),
    Case(
        "run --steps 0 f",
        RETURNS,
        "",
        "end: spent\nreports: 0\nblind: 0\n",
        4,
    ),
    Case(
        "run --steps=1 f",
        RETURNS,
        "",
        "end: exit 0\nreports: 0\nblind: 0\n",
        0,
    ),
    Case(
        "run --steps 1000000000 --reports 1000 f",
        RETURNS,
        "",
        "end: exit 0\nreports: 0\nblind: 0\n",
        0,
    ),
    Case(
        "run --input f f",
        ECHO,
        "d",
        "end: exit 0\nreports: 0\nblind: 0\n",
        0,
    ),
    Case(
        "run --input=f f",
        ECHO,
        "d",
        "end: exit 0\nreports: 0\nblind: 0\n",
        0,
    ),
    Case("instrument -- g", RETURNS, "", "file fault: g\n", 6),
    Case("run - f", RETURNS, "", "words: Extra at 2\n", 2),
];

/// Modules are generated.
static GENERATED: [Case; 4] = [
    Case("gen --seed 0 --functions 1", "", FROM_ZERO, "", 0),
    Case("gen --functions=2 --seed=7", "", FROM_SEVEN, "", 0),
    Case(
        "gen --seed 7 --functions 500 --run",
        "",
        "functions: 501\nsites: 6502\noutput: 1 bytes\nend: exit 0\nreports: 0\nblind: 0\nverdict: clean\n",
        "",
        0,
    ),
    Case(
        "gen --run --seed 18446744073709551615 --functions 3",
        "",
        "functions: 4\nsites: 41\noutput: 1 bytes\nend: exit 0\nreports: 0\nblind: 0\nverdict: clean\n",
        "",
        0,
    ),
];

/// Generated modules are checked.
/// The bytes that these functions put out were computed from the generator's numbers by hand.
static GENERATED_RUNS: [Checked; 2] = [
    Checked(
        DEFAULTS,
        FROM_ZERO,
        b"\x08",
        "end: exit 0\nreports: 0\nblind: 0\nverdict: clean\n",
        0,
    ),
    Checked(
        DEFAULTS,
        FROM_SEVEN,
        b"\xb2",
        "end: exit 0\nreports: 0\nblind: 0\nverdict: clean\n",
        0,
    ),
];

#[test]
fn words_are_read(rt: HostRuntime) -> Result<(), Fail> {
    assert!(rt;
        all_told::<_, Case>(&rt, rt.alloc(), &[FAULTS])
            && all_agree(&rt, rt.alloc(), &[&OPTIONS, &GENERATED])
            && all_agree(&rt, rt.alloc(), &[&GENERATED_RUNS])
    );
    Ok(())
}
