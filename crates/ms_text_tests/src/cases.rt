//! What a text is read as or why it is refused, and the one runner that compares it.

ghost use Rattle.std.specs.Prelude.{◌≤◌, ◌^◌, length};

use ms_bits::NoMemory;
use ms_ir::Form;
use ms_lex::LexError;
use ms_read_body::{ReadError, What};
use ms_read_top::read;
use ms_text_grammar::{Limit, Outside};
use ms_write::write;
use std::alloc::Global;
use std::fmt::Debug;
use std::str::from_utf8;

/// What is wanted of a text. Of a refusal: the token, counted from 0, and the byte at which it begins, both from where the
/// text of the case begins.
#[derive(Debug)]
pub enum Want {
    /// It is read and written back as it is.
    Kept,
    /// It is read, and this is written.
    Written(&'static str),
    /// It is read.
    Read,
    /// Refused, 4.
    Syntax(u32, u32),
    /// Refused, 5.
    LeftOut(Outside, u32, u32),
    /// Refused, 6.
    Limited(Limit, u32, u32),
    /// Refused, 7.
    Numbering(u32, u32),
    /// Refused, 8.
    Reserved(u32, u32),
    /// No token begins at this byte.
    BadByte(u32),
    /// The string that begins at this byte doesn't end.
    OpenString(u32),
    /// It has more tokens than its form allows.
    TooManyTokens,
}

/// A form, a text, and what is wanted.
pub struct Case(pub Form, pub &'static str, pub Want);

/// What stands around the texts of cases: in the text that is read, with the numbers of tokens and bytes in front, and
/// in the one that is written.
pub struct Frame {
    head: &'static str,
    tokens: u32,
    bytes: u32,
    tail: &'static str,
    written_head: &'static str,
    written_tail: &'static str,
}

/// The case is a whole text.
pub static WHOLE: Frame = Frame {
    head: "",
    tokens: 0,
    bytes: 0,
    tail: "",
    written_head: "",
    written_tail: "",
};

/// The case is an entity, whose line is written.
pub static ENTITY: Frame = Frame {
    head: "",
    tokens: 0,
    bytes: 0,
    tail: "",
    written_head: "",
    written_tail: "\n",
};

/// The case is an instruction of a function.
pub static LINE: Frame = Frame {
    head: "define void @f() { ",
    tokens: 6,
    bytes: 19,
    tail: " ret void }",
    written_head: r#"define void @f() {
  "#,
    written_tail: "\n  ret void\n}\n",
};

/// The case is the only instruction of a function.
pub static LAST: Frame = Frame {
    head: "define void @f() { ",
    tokens: 6,
    bytes: 19,
    tail: " }",
    written_head: r#"define void @f() {
  "#,
    written_tail: "\n}\n",
};

/// What the module of a text is written as. A text that is too long for any form is none of a case.
#[tactic(auto, using(crate::proofs::Sizes::either_form))]
pub fn rewritten(alloc: Global, text: &[u8], form: Form) -> Result<Vec<u8>, ReadError> {
    if text.len() > 1 << 22 {
        return Err(ReadError::NoMemory);
    }
    let module = read(alloc, text, form)?;
    match write(alloc, &module) {
        Ok(written) => Ok(written),
        Err(_) => Err(ReadError::NoMemory),
    }
}

/// Three pieces after one another.
fn joined(alloc: Global, head: &str, text: &str, tail: &str) -> Result<Vec<u8>, NoMemory> {
    let mut all = head.as_bytes().to_vec(alloc)?;
    all.extend_from_slice(text.as_bytes())?;
    all.extend_from_slice(tail.as_bytes())?;
    Ok(all)
}

/// Whether a text is these three pieces.
fn is_joined(alloc: Global, found: &[u8], head: &str, text: &str, tail: &str) -> bool {
    match joined(alloc, head, text, tail) {
        Ok(want) => want.as_slice() == found,
        Err(_) => false,
    }
}

/// Whether a refusal is this one, where the case begins at this token and byte.
fn is_refused(
    error: &ReadError,
    first: (u32, u32),
    number: u8,
    what: What,
    place: (u32, u32),
) -> bool {
    let (Some(token), Some(byte)) = (first.0.checked_add(place.0), first.1.checked_add(place.1))
    else {
        return false;
    };
    *error
        == ReadError::Refused {
            number,
            what,
            token,
            place: byte,
        }
}

/// Whether an error is the wanted one, where the case begins at this token and byte.
pub fn is_error(error: &ReadError, first: (u32, u32), want: &Want) -> bool {
    match want {
        Want::Syntax(token, byte) => is_refused(error, first, 4, What::Nothing, (*token, *byte)),
        Want::LeftOut(construct, token, byte) => {
            is_refused(error, first, 5, What::Outside(*construct), (*token, *byte))
        }
        Want::Limited(limit, token, byte) => {
            is_refused(error, first, 6, What::Limit(*limit), (*token, *byte))
        }
        Want::Numbering(token, byte) => is_refused(error, first, 7, What::Nothing, (*token, *byte)),
        Want::Reserved(token, byte) => is_refused(error, first, 8, What::Nothing, (*token, *byte)),
        Want::BadByte(place) => *error == ReadError::Lex(LexError::BadByte { place: *place }),
        Want::OpenString(place) => *error == ReadError::Lex(LexError::OpenString { place: *place }),
        Want::TooManyTokens => *error == ReadError::Lex(LexError::TooManyTokens),
        Want::Kept | Want::Written(_) | Want::Read => false,
    }
}

/// Says which row of a table fails, counted from 1. The answer is `false`, with which a runner ends.
pub fn fails<R: Eprint>(rt: &R, what: &str, index: usize) -> bool {
    let _printed = eprintln!(rt; "{what} {} fails", index.saturating_add(1));
    false
}

/// Prints a text, what is wanted of it and what came. The answer is `false`.
pub fn differs<R: Eprint, W: Debug, G: Debug>(rt: &R, text: &str, want: &W, got: &G) -> bool {
    let _printed = eprintln!(rt; "{text}\nwanted {want:?}, got {got:?}");
    false
}

/// Prints the text that was wanted, and the one that came. The answer is `false`.
pub fn is_other<R: Eprint>(rt: &R, wanted: &[u8], got: &[u8]) -> bool {
    let wanted = from_utf8(wanted).unwrap_or("a text that isn't ASCII");
    let got = from_utf8(got).unwrap_or("a text that isn't ASCII");
    let _printed = eprintln!(rt; "wanted\n{wanted}\ngot\n{got}");
    false
}

/// Prints a case's text, what is wanted of it and what was written of it. The answer is `false`.
fn is_otherwise<R: Eprint>(rt: &R, case: &Case, found: &[u8]) -> bool {
    let found = from_utf8(found).unwrap_or("a text that isn't ASCII");
    differs(rt, case.1, &case.2, &found)
}

/// Whether what was written is what is wanted of a case.
fn is_written(alloc: Global, frame: &Frame, case: &Case, found: &[u8]) -> bool {
    match &case.2 {
        Want::Kept => is_joined(alloc, found, frame.written_head, case.1, frame.written_tail),
        Want::Written(text) => {
            is_joined(alloc, found, frame.written_head, text, frame.written_tail)
        }
        Want::Read => true,
        _ => false,
    }
}

/// Whether a case is answered as it is wanted, in the text that is read.
fn is_answer<R: Eprint>(rt: &R, alloc: Global, frame: &Frame, case: &Case, text: &[u8]) -> bool {
    match rewritten(alloc, text, case.0) {
        Ok(found) => { is_written(alloc, frame, case, &found) || is_otherwise(rt, case, &found) }
        Err(error) => {
            is_error(&error, (frame.tokens, frame.bytes), &case.2)
                || differs(rt, case.1, &case.2, &error)
        }
    }
}

/// Whether a case is answered as it is wanted, with its frame around it.
fn agrees<R: Eprint>(rt: &R, alloc: Global, frame: &Frame, case: &Case) -> bool {
    match joined(alloc, frame.head, case.1, frame.tail) {
        Ok(text) => is_answer(rt, alloc, frame, case, &text),
        Err(_) => false,
    }
}

/// Whether each case is answered as it is wanted.
pub fn all_agree<R: Eprint>(rt: &R, alloc: Global, frame: &Frame, cases: &[Case]) -> bool {
    for (number, case) in cases.iter().enumerate() {
        if !agrees(rt, alloc, frame, case) {
            return fails(rt, "row", number);
        }
    }
    true
}

/// Whether that holds of each of these tables.
pub fn all_tables_agree<R: Eprint>(
    rt: &R,
    alloc: Global,
    frame: &Frame,
    tables: &[&[Case]],
) -> bool {
    for (number, cases) in tables.iter().enumerate() {
        if !all_agree(rt, alloc, frame, cases) {
            return fails(rt, "table", number);
        }
    }
    true
}
