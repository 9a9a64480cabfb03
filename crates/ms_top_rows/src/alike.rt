//! Modules that are instrumented, and then run: `run` says of what `instrument` writes what `check` says of the module, but
//! for the verdict.

use crate::calls::{Call, Case, Desk, NOTHING, Row, after, all_agree, on_text, said, says};
use crate::failing::{differ, differs, fails};
use crate::modules::Run;
use std::alloc::{AllocError, Global};
use std::thread::Threads;

/// A row that tells of a module what `check` says of it.
pub trait CheckedRow: Row {
    /// Whether a call of `check` came to what the row tells.
    fn is_shown(&self, checked: &Desk) -> bool;
}

impl CheckedRow for Case {
    fn is_shown(&self, checked: &Desk) -> bool {
        says(checked, &self.call().wanted)
    }
}

/// A checked run that has no report prints and ends as the module itself does. The number of blind uses may be any.
impl CheckedRow for Run {
    fn is_shown(&self, checked: &Desk) -> bool {
        if checked.status == 77 {
            return true;
        }
        checked.status == self.3
            && checked.out.as_slice() == self.1
            && after(
                checked.err.as_slice(),
                &["end: ", self.2, "\nreports: 0\nblind: "],
            )
            .is_some()
    }
}

/// Whether a line is that of a verdict.
fn is_verdict(line: &[u8]) -> bool {
    line == b"verdict: clean\n".as_slice()
        || line == b"verdict: unsure\n".as_slice()
        || line == b"verdict: poisoned\n".as_slice()
}

/// Whether `said` is what `check` says, but for the verdict, which is its last line.
fn says_all_but_the_verdict(said: &Desk, checked: &Desk) -> bool {
    let same = said.status == checked.status && said.out.as_slice() == checked.out.as_slice();
    match checked.err.as_slice().strip_prefix(said.err.as_slice()) {
        Some(line) => same && is_verdict(line),
        None => false,
    }
}

/// Whether `run`, by these words, says of what `instrument` wrote, if it wrote a module, what `check` says, but for the verdict.
fn runs_alike<'a, R: Threads + Sync + Eprint>(
    rt: &R,
    alloc: Global,
    words: &'a str,
    written: &'a Desk,
    checked: &Desk,
) -> bool {
    if written.status != 0 || !written.err.as_slice().is_empty() {
        return differ(rt, "instrument f", checked, written);
    }
    match said(rt, alloc, &on_text(words, written.out.as_slice(), NOTHING)) {
        Ok(run) => says_all_but_the_verdict(&run, checked) || differ(rt, words, checked, &run),
        Err(_) => false,
    }
}

/// The same call with other words of the command.
fn with_words<'a>(call: &Call<'a>, words: &'a str) -> Call<'a> {
    Call { words, ..*call }
}

/// Whether `run`, by these words, says of what `instrument` writes of the call's module what `check` said of the module.
fn is_written_alike<R: Threads + Sync + Eprint>(
    rt: &R,
    alloc: Global,
    words: &str,
    call: &Call,
    checked: &Desk,
) -> bool {
    match said(rt, alloc, &with_words(call, "instrument f")) {
        Ok(written) => runs_alike(rt, alloc, words, &written, checked),
        Err(_) => false,
    }
}

/// Whether `check` says what a row tells, also where the row's module is first written with inserted code.
fn agrees_twice<R: Threads + Sync + Eprint, T: CheckedRow>(rt: &R, alloc: Global, row: &T) -> bool {
    let call = with_words(&row.call(), "check f");
    match said(rt, alloc, &call) {
        Ok(checked) => {
            (row.is_shown(&checked) || differs(rt, &call, &checked))
                && is_written_alike(rt, alloc, "run f", &call, &checked)
        }
        Err(_) => false,
    }
}

/// Whether `check` says what each row of a table tells, also where its module is first written with inserted code.
pub fn table_agrees_twice<R: Threads + Sync + Eprint, T: CheckedRow>(
    rt: &R,
    alloc: Global,
    rows: &[T],
) -> bool {
    for (number, row) in rows.iter().enumerate() {
        if !agrees_twice(rt, alloc, row) {
            return fails(rt, "row", number);
        }
    }
    true
}

/// Whether `check` says what each row of these tables tells, also where its module is first written with inserted code.
pub fn all_agree_twice<R: Threads + Sync + Eprint, T: CheckedRow>(
    rt: &R,
    alloc: Global,
    tables: &[&[T]],
) -> bool {
    for (number, rows) in tables.iter().enumerate() {
        if !table_agrees_twice(rt, alloc, rows) {
            return fails(rt, "table", number);
        }
    }
    true
}

/// The words of a call with `run` in place of its command.
fn run_words(alloc: Global, words: &str) -> Result<String, AllocError> {
    let (_command, rest) = words.split_once(' ').unwrap_or((words, ""));
    format!(in alloc; "run {rest}")
}

/// Whether `run` with the options of a call of `check` says of what `instrument` writes of its module what `check` says.
fn is_run_alike<R: Threads + Sync + Eprint>(rt: &R, alloc: Global, call: &Call) -> bool {
    match (run_words(alloc, call.words), said(rt, alloc, call)) {
        (Ok(words), Ok(checked)) => is_written_alike(rt, alloc, words.as_str(), call, &checked),
        _ => false,
    }
}

/// Whether `run` with the options of each row of a table, which are calls of `check`, says of what `instrument` writes of the row's
/// module what `check` says of the module, but for the verdict.
pub fn table_runs_alike<R: Threads + Sync + Eprint>(rt: &R, alloc: Global, rows: &[Case]) -> bool {
    for (number, row) in rows.iter().enumerate() {
        if !is_run_alike(rt, alloc, &row.call()) {
            return fails(rt, "row", number);
        }
    }
    true
}

/// Whether each row's module runs as it says, is said the same of by `check`, and by `run` of what `instrument` writes of it;
/// without a report each ends as the row says.
pub fn all_run_and_checked<R: Threads + Sync + Eprint>(
    rt: &R,
    alloc: Global,
    tables: &[&[Run]],
) -> bool {
    all_agree(rt, alloc, tables) && all_agree_twice(rt, alloc, tables)
}
