//! What is checked is the module that the pass makes: with a pass that inserts nothing no use is reported.

use ms_top::{OpenGate, PlainPass};
use ms_top_rows::calls::{Case, DEFAULTS, Row, all_agree, said_by, says};
use ms_top_rows::failing::differs;
use ms_top_rows::modules::Checked;
use std::alloc::Global;
use std::test::Fail;
use std::thread::Threads;

/// Compares an unset word with 0, and branches on that.
const BRANCH_ON_UNSET: &str = r#"define i32 @main() {
  %1 = alloca i32
  %2 = load i32, ptr %1
  %3 = icmp eq i32 %2, 0
  br i1 %3, label %4, label %5
4:
  ret i32 0
5:
  ret i32 1
}
"#;

static INSTRUMENTED: [Checked; 1] = [Checked(
    DEFAULTS,
    BRANCH_ON_UNSET,
    b"",
    "report 1: branch at site 4 in @main, part 0, bits 0x1 of i1\n  origin 1: alloca at site 1 in @main\nend: reported\nreports: 1\nblind: 0\nverdict: poisoned\n",
    77,
)];

static PLAIN: [Checked; 1] = [Checked(
    DEFAULTS,
    BRANCH_ON_UNSET,
    b"",
    "end: exit 1\nreports: 0\nblind: 0\nverdict: clean\n",
    0,
)];

static UNEXPLAINED: [Case; 1] = [Case(
    "explain f",
    BRANCH_ON_UNSET,
    "no report\n",
    "end: exit 1\nreports: 0\nblind: 0\nverdict: clean\n",
    0,
)];

/// Whether a row's module is checked so where the pass inserts nothing.
fn agrees_plainly<R: Threads + Sync + Eprint, T: Row>(rt: &R, alloc: Global, row: &T) -> bool {
    let call = row.call();
    match said_by(rt, alloc, &call, &PlainPass, &OpenGate) {
        Ok(desk) => says(&desk, &call.wanted) || differs(rt, &call, &desk),
        Err(_) => false,
    }
}

#[test]
fn the_module_of_the_pass_is_run(rt: HostRuntime) -> Result<(), Fail> {
    assert!(rt;
        all_agree(&rt, rt.alloc(), &[&INSTRUMENTED])
            && agrees_plainly(&rt, rt.alloc(), &PLAIN[0])
            && agrees_plainly(&rt, rt.alloc(), &UNEXPLAINED[0])
    );
    Ok(())
}
