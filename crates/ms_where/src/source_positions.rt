//! The positions of an instruction in the source: that of its `!dbg`, or else that of its variable's debug record, as
//! `#dbg_declare(ptr %x, !5, !DIExpression(), !9)`.

ghost use Rattle.std.specs.{Prelude.{◌≡◌, ◌++◌, Some, IfOk}, Option.{option_and_then}};
ghost use Rattle.ms_where_places.specs.Told.{mark_at};
ghost use Rattle.ms_where.specs.Lines as spec;

use crate::{Debug, Variables};
use ms_bits::{Bytes, NoMemory};
use ms_where_places::Mark;
use std::alloc::Global;

/// Which token of a debug record names the variable, counted from 0: `!5` above.
const VARIABLE: u32 = 5;

/// The name of the variable that a debug record declares.
fn variable_name(
    alloc: Global,
    debug: &Debug<'_>,
    declaration: &Mark,
) -> Result<Option<Bytes>, NoMemory>
    ensures { IfOk result (λ name. name ≡ spec.variable_name debug.now declaration.now) }
{
    if declaration.first < declaration.after.saturating_sub(VARIABLE) {
        debug.name_of_node(alloc, declaration.first + VARIABLE)
    } else {
        Ok(None)
    }
}

/// Adds the lines of the variable that a record declares.
fn push_variable(out: &mut Vec<u8>, debug: &Debug<'_>, declaration: &Mark) -> Result<(), NoMemory>
    ensures { IfOk result (λ _. out.new.items ≡ out.old.items ++ spec.variable_lines debug.now (Some declaration.now)) }
{
    let alloc = *out.allocator();
    // The last token before the parenthesis: `!9` above.
    let location = declaration.after.saturating_sub(2);
    match variable_name(alloc, debug, declaration)? {
        None => debug.push_location(out, None, location),
        Some(name) => debug.push_location(out, Some(name.as_slice()), location),
    }
}

/// Adds the lines of the variable that the record at this place declares, if there is one.
fn push_declared(out: &mut Vec<u8>, debug: &Debug<'_>, place: Option<usize>) -> Result<(), NoMemory>
    ensures { IfOk result (λ _. out.new.items ≡ out.old.items ++ spec.variable_lines debug.now (option_and_then (mark_at debug.now) place)) }
{
    match place {
        None => Ok(()),
        Some(place) => match debug.marked().mark(place) {
            None => Ok(()),
            Some(declaration) => push_variable(out, debug, declaration),
        },
    }
}

/// Adds the lines of an instruction in the source, whose mark has this place.
#[tactic(auto, unfolding(crate::specs::Lines::source_lines))]
pub fn push_source(
    out: &mut Vec<u8>,
    debug: &Debug<'_>,
    variables: &Variables<'_>,
    place: usize,
    mark: &Mark,
) -> Result<(), NoMemory>
    requires { variables.now ≡ debug.now }
    ensures { IfOk result (λ _. out.new.items ≡ out.old.items ++ spec.source_lines debug.now place mark.now) }
{
    match debug.field(b"!dbg", mark) {
        Some(token) => debug.push_location(out, None, token),
        None => push_declared(out, debug, variables.record(place)),
    }
}
