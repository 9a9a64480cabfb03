//! Texts of modules with what the check returns on them: what a row of the tables is, and what runs it.

ghost use Rattle.std.specs.Prelude.{◌≤◌, ◌^◌, length};
ghost use Rattle.ms_check_valid.specs.Formed.{Formed};

use ms_check::{CheckError, check};
use ms_ir::{Form, Module, Name};
use ms_read_top::read;
use ms_write::write;
use std::alloc::Global;
use std::fmt::Debug;
use std::str::from_utf8;

/// What the check returns, as `CheckError`. Names are spelled with their `@` or `%`.
#[derive(Debug)]
pub enum Want {
    Valid,
    Duplicate(&'static str),
    /// A site and a name.
    Unknown(u32, &'static str),
    /// A site and the number of an operand.
    TypeMismatch(u32, u32),
    /// A site.
    BadPhi(u32),
    NoMain,
    BadExternal(&'static str),
    /// A site, and the blocks of the one path to it.
    Undefined(u32, &'static [u32]),
    /// A site.
    BadMark(u32),
    BadSize(&'static str),
}

/// A text in the writer's layout, and the answer.
pub struct Case(pub &'static str, pub Want);

/// Whether a name has this text. A number has one digit here.
fn is_named(name: &Name, wanted: &[u8]) -> bool {
    match name {
        Name::Text(bytes) => bytes.as_slice() == wanted,
        Name::Number(number) => match wanted {
            [digit] => u64::from(*digit) == 48 + u64::from(*number),
            _ => false,
        },
    }
}

/// Whether a name is spelled so.
fn is_spelled(global: bool, name: &Name, wanted: &str) -> bool {
    match wanted.as_bytes() {
        [b'@', text @ ..] => global && is_named(name, text),
        [b'%', text @ ..] => !global && is_named(name, text),
        _ => false,
    }
}

/// Whether an error is the wanted one.
fn is_error(error: &CheckError, want: &Want) -> bool {
    match (error, want) {
        (CheckError::Duplicate { global, name }, Want::Duplicate(wanted)) => {
            is_spelled(*global, name, wanted)
        }
        (CheckError::Unknown { site, global, name }, Want::Unknown(place, wanted)) => {
            *site == *place && is_spelled(*global, name, wanted)
        }
        (CheckError::TypeMismatch { site, operand }, Want::TypeMismatch(place, number)) => {
            *site == *place && *operand == *number
        }
        (CheckError::BadPhi { site }, Want::BadPhi(place)) => *site == *place,
        (CheckError::NoMain, Want::NoMain) => true,
        (CheckError::BadExternal { name }, Want::BadExternal(wanted)) => {
            is_spelled(true, name, wanted)
        }
        (CheckError::Undefined { site, path }, Want::Undefined(place, blocks)) => {
            *site == *place && path.as_slice() == *blocks
        }
        (CheckError::BadMark { site }, Want::BadMark(place)) => *site == *place,
        (CheckError::BadSize { global, name }, Want::BadSize(wanted)) => {
            is_spelled(*global, name, wanted)
        }
        _ => false,
    }
}

/// Whether a module is wanted to be valid.
fn is_valid(want: &Want) -> bool {
    match want {
        Want::Valid => true,
        _ => false,
    }
}

/// Whether a module is written as this text.
pub fn is_written(alloc: Global, m: &Module, text: &[u8]) -> bool {
    match write(alloc, m) {
        Ok(written) => written.as_slice() == text,
        Err(_) => false,
    }
}

/// Says which row of a table fails, counted from 1. The answer is `false`, with which a runner ends.
pub fn fails<R: Eprint>(rt: &R, what: &str, index: usize) -> bool {
    let _printed = eprintln!(rt; "{what} {} fails", index.saturating_add(1));
    false
}

/// Prints a text, what is wanted of it and what came. The answer is `false`.
pub fn differs<R: Eprint, W: Debug, G: Debug>(rt: &R, text: &[u8], want: &W, got: &G) -> bool {
    let text = from_utf8(text).unwrap_or("a text that isn't ASCII");
    let _printed = eprintln!(rt; "{text}\nwanted {want:?}, got {got:?}");
    false
}

/// Whether the check answers so on a module, and hands the module of this text back.
fn is_answered<R: Eprint>(rt: &R, alloc: Global, m: Module, text: &[u8], want: &Want) -> bool
    requires { Formed m }
{
    match check(alloc, m) {
        Ok(checked) => {
            is_valid(want)
                && is_written(alloc, checked.module(), text)
                && is_written(alloc, &checked.into_module(), text)
                || differs(rt, text, want, &"a valid module, as its text or another")
        }
        Err((error, back)) => {
            is_error(&error, want) && is_written(alloc, &back, text)
                || differs(rt, text, want, &error)
        }
    }
}

/// Whether the check answers so on the module that is read from a text, and hands this module back.
#[tactic(auto, unfolding(ms_text_grammar::specs::Texts::max_bytes))]
pub fn agrees<R: Eprint>(rt: &R, alloc: Global, text: &[u8], want: &Want) -> bool {
    if text.len() > 1 << 20 {
        return false;
    }
    match read(alloc, text, Form::Instrumented) {
        Ok(m) => is_answered(rt, alloc, m, text, want),
        Err(error) => differs(rt, text, want, &error),
    }
}

/// Whether the check answers on each module of a table as it is wanted.
fn table_agrees<R: Eprint>(rt: &R, alloc: Global, cases: &[Case]) -> bool {
    for (number, case) in cases.iter().enumerate() {
        if !agrees(rt, alloc, case.0.as_bytes(), &case.1) {
            return fails(rt, "row", number);
        }
    }
    true
}

/// Whether the check answers on each module of these tables as it is wanted.
pub fn all_agree<R: Eprint>(rt: &R, alloc: Global, tables: &[&[Case]]) -> bool {
    for (number, cases) in tables.iter().enumerate() {
        if !table_agrees(rt, alloc, cases) {
            return fails(rt, "table", number);
        }
    }
    true
}
