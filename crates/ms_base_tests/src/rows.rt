//! What is printed of a row that fails: its number, what was wanted and what came.

use std::fmt::Debug;

/// Says which row of a table fails, counted from 1. The answer is `false`, with which a runner ends.
pub fn fails<R: Eprint>(rt: &R, index: usize) -> bool {
    let _printed = eprintln!(rt; "row {} fails", index.saturating_add(1));
    false
}

/// Prints what was wanted and what came. The answer is `false`.
pub fn differs<R: Eprint, T: Debug, W: Debug>(rt: &R, got: &T, want: &W) -> bool {
    let _printed = eprintln!(rt; "wanted {want:?}, got {got:?}");
    false
}

/// Whether what came is what was wanted. Where it isn't, both are printed.
pub fn is<R: Eprint, T: PartialEq + Debug>(rt: &R, got: &T, want: &T) -> bool {
    got == want || differs(rt, got, want)
}
