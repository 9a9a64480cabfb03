//! The debug record of each instruction that makes room for a variable or stores to it, found once for all of a text.

ghost use Rattle.std.specs.Prelude.{◌≡◌, ◌+◌, ◌≤◌, ◌<◌, ◌^◌, length, if◌then◌else◌, IfOk, OnOk};
ghost use Rattle.std.specs.Option.{option_and_then};
ghost use Rattle.ms_where.specs.{NotedRecords.{Notes, HasFirst}, VariableViews.{IsTable}};
ghost use Rattle.ms_where.specs.Variables as spec;

use crate::variable_locals::{declared_in, local_of};
use ms_bits::NoMemory;
use ms_where_places::{Mark, MarkKind, MarkedText};
use std::alloc::Global;
use std::collections::HashMap;
use std::marker::Model;

/// The place of the first record of each function that declares a variable at each address: by the function's number and the
/// address, as it is spelled.
type Records<'a> = HashMap<(usize, &'a [u8]), usize>;

/// The number of the function of the marks that follow this one: a function's mark stands after those of its lines.
fn function_after(function: usize, mark: &Mark) -> usize
    requires { function < 2 ^ 63 }
    ensures { result ≡ function + (if spec.is_function mark.now.kind then 1 else 0) }
{
    match mark.kind {
        MarkKind::Function => function + 1,
        _ => function,
    }
}

/// Notes the place of a record, where none is noted yet for its function and address.
fn note<'a>(
    records: &mut Records<'a>,
    function: usize,
    local: &'a [u8],
    place: usize,
) -> Result<(), NoMemory>
    ensures { OnOk result (Notes records.old records.new function (Some local.now) place) }
{
    if !records.contains_key(&(function, local)) {
        records.insert((function, local), place)?;
    }
    Ok(())
}

/// Notes the place of a mark, where it is a record that declares a variable.
fn note_mark<'a>(
    records: &mut Records<'a>,
    marked: &MarkedText<'a>,
    function: usize,
    mark: &Mark,
    place: usize,
) -> Result<(), NoMemory>
    ensures { OnOk result (Notes records.old records.new function (spec.declared_in marked.now mark.now) place) }
{
    match declared_in(marked, mark) {
        None => Ok(()),
        Some(local) => note(records, function, local, place),
    }
}

/// The first record of each function for each address.
fn first_records<'a>(alloc: Global, marked: &MarkedText<'a>) -> Result<Records<'a>, NoMemory>
    ensures { IfOk result (λ records. HasFirst marked.now (length marked.now.marks) records) }
{
    let mut records = HashMap::new(alloc);
    let mut function = 0;
    let marks = marked.marks();
    for (place, mark) in marks.iter().enumerate() {
        note_mark(&mut records, marked, function, mark, place)?;
        function = function_after(function, mark);
    }
    Ok(records)
}

/// The place of the record of the variable that a mark of this function is about.
fn record_for<'a>(
    records: &Records<'a>,
    marked: &MarkedText<'a>,
    function: usize,
    mark: &Mark,
) -> Option<usize>
    requires { HasFirst marked.now (length marked.now.marks) records.now }
    ensures { result ≡ option_and_then (spec.record_in marked.now function) (spec.local_of marked.now mark.now) }
{
    match local_of(marked, mark) {
        None => None,
        Some(local) => records.get(&(function, local)).copied(),
    }
}

/// Of each mark the place of the record of what it is about, if there is one.
fn all_records(alloc: Global, marked: &MarkedText<'_>) -> Result<Vec<Option<usize>>, NoMemory>
    ensures { IfOk result (λ records. IsTable marked.now records.items) }
{
    let first = first_records(alloc, marked)?;
    let marks = marked.marks();
    let mut records = Vec::with_capacity(alloc, marks.len())?;
    let mut function = 0;
    for mark in marks {
        records.push(record_for(&first, marked, function, mark))?;
        function = function_after(function, mark);
    }
    Ok(records)
}

/// A text with its tokens and what stands in it, and with the debug record of each instruction's variable. Contracts see the text
/// with what stands in it.
#[derive(Drop)]
pub struct Variables<'a> {
    marked: MarkedText<'a>,
    /// Of each mark, the place of the record of what it is about.
    records: Vec<Option<usize>>,
}

impl<'a> Model for Variables<'a> {
    ghost use Rattle.ms_where_places.specs.Told.{Told};

    ghost Value = { Told };

    ghost use Rattle.ms_where.specs.VariableViews.{IsTable};

    ghost view = { λ v. v.marked };

    ghost invariant = { λ v. IsTable v.marked v.records.items };
}

impl<'a> Variables<'a> {
    /// Finds the record of each instruction's variable, in a time linear in the text.
    pub fn new(alloc: Global, marked: MarkedText<'a>) -> Result<Variables<'a>, NoMemory>
        ensures { IfOk result (λ variables. variables ≡ marked.entry) }
    {
        let records = all_records(alloc, &marked)?;
        Ok(Variables { marked, records })
    }

    /// The place among the marks of the debug record that declares the variable which the instruction at this place makes room for
    /// or stores to: the first such record of its function. `None` where no record declares it, and where no `alloca` and no
    /// `store` stands at this place.
    pub fn record(&self, place: usize) -> Option<usize>
        ensures { result ≡ spec.record_of self.now place }
    {
        match self.records.get(place) {
            None => None,
            Some(record) => *record,
        }
    }
}
