//! Tables that are texts, and their runner. A row ends with the line `====`; its fields stand in their order, with `~` and
//! the end of a line between two, so that a text which ends with a line has its `~` alone on the next one; a line before a
//! row that begins with `# ` says why the row is there. A row of words, a module, the output, the standard error and the
//! status:
//!
//! ```text
//! # The module is cut off.
//! check f~
//! define i32 @main() {
//! ~
//! ~
//! refused 10: end
//! ~
//! 5
//! ====
//! ```
//!
//! The prover walks through all texts of a static once for each of them, so many texts are cheap only as one.

use crate::alike::{CheckedRow, table_agrees_twice, table_runs_alike};
use crate::calls::{Case, OnInputs, Row, table_agrees};
use crate::failing::fails;
use crate::modules::{Marked, Run};
use std::alloc::Global;
use std::str::from_utf8;
use std::thread::Threads;

/// A row that a text tells.
pub trait Told: Copy {
    /// How many fields a row has.
    const FIELDS: usize;

    /// The row with the fields of this text; none if a number is missing or is none.
    fn told(text: &'static str) -> Option<Self>;
}

/// The first fields of a row's text, with nothing for each that is missing.
pub fn fields_of(text: &'static str) -> [&'static str; 6] {
    let mut fields = text.split("~\n");
    let first = fields.next().unwrap_or("");
    let second = fields.next().unwrap_or("");
    let third = fields.next().unwrap_or("");
    let fourth = fields.next().unwrap_or("");
    let fifth = fields.next().unwrap_or("");
    let sixth = fields.next().unwrap_or("");
    [first, second, third, fourth, fifth, sixth]
}

impl Told for Case {
    const FIELDS: usize = 5;

    fn told(text: &'static str) -> Option<Case> {
        let [words, module, out, err, status, _] = fields_of(text);
        Some(Case(words, module, out, err, status.parse().ok()?))
    }
}

impl Told for OnInputs {
    const FIELDS: usize = 5;

    fn told(text: &'static str) -> Option<OnInputs> {
        Some(OnInputs(Case::told(text)?))
    }
}

impl Told for Run {
    const FIELDS: usize = 4;

    fn told(text: &'static str) -> Option<Run> {
        let [module, out, end, status, _, _] = fields_of(text);
        Some(Run(module, out.as_bytes(), end, status.parse().ok()?))
    }
}

impl Told for Marked {
    const FIELDS: usize = 6;

    fn told(text: &'static str) -> Option<Marked> {
        let [module, reports, steps, out, err, status] = fields_of(text);
        let reports = reports.parse().ok()?;
        let steps = steps.parse().ok()?;
        Some(Marked(
            module,
            reports,
            steps,
            out.as_bytes(),
            err,
            status.parse().ok()?,
        ))
    }
}

/// A row's text without the line that says why the row is there.
fn without_note(row: &'static str) -> &'static str {
    match row.split_once('\n') {
        Some((line, rest)) if line.starts_with("# ") => rest,
        _ => row,
    }
}

/// The row of a text, if it has as many fields as it should and each can be read.
fn row_of<T: Told>(text: &'static str) -> Option<T> {
    if text.split("~\n").count() == T::FIELDS {
        T::told(text)
    } else {
        None
    }
}

/// The row of a text. One that can't be read is printed.
fn read_row<R: Eprint, T: Told>(rt: &R, text: &'static str) -> Option<T> {
    let row = row_of(without_note(text));
    if row.is_none() && eprintln!(rt; "no row of {} fields:\n{text}", T::FIELDS).is_err() {
        return None;
    }
    row
}

/// The rows of a text, if each can be read and there is memory.
fn rows_of<R: Eprint, T: Told>(rt: &R, alloc: Global, text: &'static str) -> Option<Vec<T>> {
    let mut rows = Vec::new(alloc);
    for row in text.split_terminator("\n====\n") {
        rows.push(read_row(rt, row)?).ok()?;
    }
    Some(rows)
}

/// The rows of a table of ASCII signs, if there is one and each can be read.
pub fn rows_told<R: Eprint, T: Told>(
    rt: &R,
    alloc: Global,
    table: &'static [u8],
) -> Option<Vec<T>> {
    match from_utf8(table) {
        Ok(text) if !text.is_empty() => rows_of(rt, alloc, text),
        _ => None,
    }
}

/// Whether the call of each row of this table writes and returns what the row says.
fn table_is_told<R: Threads + Sync + Eprint, T: Row + Told>(
    rt: &R,
    alloc: Global,
    table: &'static [u8],
) -> bool {
    match rows_told::<R, T>(rt, alloc, table) {
        Some(rows) => table_agrees(rt, alloc, rows.as_slice()),
        None => false,
    }
}

/// Whether the call of each row of these tables writes and returns what the row says. Each table has a row.
pub fn all_told<R: Threads + Sync + Eprint, T: Row + Told>(
    rt: &R,
    alloc: Global,
    tables: &[&'static [u8]],
) -> bool {
    for (number, table) in tables.iter().enumerate() {
        if !table_is_told::<R, T>(rt, alloc, table) {
            return fails(rt, "table", number);
        }
    }
    true
}

/// Whether `check` says what each row of this table tells, also where its module is first written with inserted code.
fn table_is_told_twice<R: Threads + Sync + Eprint, T: CheckedRow + Told>(
    rt: &R,
    alloc: Global,
    table: &'static [u8],
) -> bool {
    match rows_told::<R, T>(rt, alloc, table) {
        Some(rows) => table_agrees_twice(rt, alloc, rows.as_slice()),
        None => false,
    }
}

/// Whether `check` says what each row of these tables tells, also where its module is first written with inserted code.
pub fn all_told_twice<R: Threads + Sync + Eprint, T: CheckedRow + Told>(
    rt: &R,
    alloc: Global,
    tables: &[&'static [u8]],
) -> bool {
    for (number, table) in tables.iter().enumerate() {
        if !table_is_told_twice::<R, T>(rt, alloc, table) {
            return fails(rt, "table", number);
        }
    }
    true
}

/// Whether each row's module of these tables runs as it says, is said the same of by `check`, and by `run` of what `instrument`
/// writes of it; without a report each ends as the row says.
pub fn all_told_runs<R: Threads + Sync + Eprint>(
    rt: &R,
    alloc: Global,
    tables: &[&'static [u8]],
) -> bool {
    all_told::<R, Run>(rt, alloc, tables) && all_told_twice::<R, Run>(rt, alloc, tables)
}

/// Whether `run` says of what `instrument` writes of each row's module of this table what the row's call of `check` says.
fn table_is_run_alike<R: Threads + Sync + Eprint>(
    rt: &R,
    alloc: Global,
    table: &'static [u8],
) -> bool {
    match rows_told::<R, Case>(rt, alloc, table) {
        Some(rows) => table_runs_alike(rt, alloc, rows.as_slice()),
        None => false,
    }
}

/// Whether `run` with the options of each row of these tables, which are calls of `check`, says of what `instrument` writes of the
/// row's module what `check` says of the module, but for the verdict.
pub fn all_run_alike<R: Threads + Sync + Eprint>(
    rt: &R,
    alloc: Global,
    tables: &[&'static [u8]],
) -> bool {
    for (number, table) in tables.iter().enumerate() {
        if !table_is_run_alike(rt, alloc, table) {
            return fails(rt, "table", number);
        }
    }
    true
}
