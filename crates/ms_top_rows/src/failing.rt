//! What is printed of a row that fails: its number in its table, its words, what was wanted and what came. A failed print
//! changes nothing: the row fails.

use crate::calls::{Call, Desk};
use std::io;
use std::str::from_utf8;

/// Prints bytes after their name, as a text where they are one.
fn print_bytes<R: Eprint>(rt: &R, name: &str, bytes: &[u8]) -> io::Result<()> {
    match from_utf8(bytes) {
        Ok(text) => eprintln!(rt; "{name}:\n{text}"),
        Err(_) => eprintln!(rt; "{name}:\n{bytes:?}"),
    }
}

/// Prints what a call was to write and return.
fn print_wanted<R: Eprint>(rt: &R, call: &Call) -> io::Result<()> {
    let [first, second, third] = call.wanted.err;
    eprintln!(rt;
        "wanted for the words `{}`: status {}",
        call.words, call.wanted.status
    )?;
    print_bytes(rt, "wanted output", call.wanted.out)?;
    eprintln!(rt;
        "and {} letters A; wanted standard error:\n{first}{second}{third}",
        call.wanted.letters
    )
}

/// Prints what a call wrote and returned.
fn print_got<R: Eprint>(rt: &R, desk: &Desk) -> io::Result<()> {
    eprintln!(rt; "got status {}", desk.status)?;
    print_bytes(rt, "got output", desk.out.as_slice())?;
    print_bytes(rt, "got standard error", desk.err.as_slice())
}

/// Says which row, counted from 1, or which table fails. The answer is `false`, with which a runner ends.
pub fn fails<R: Eprint>(rt: &R, what: &str, index: usize) -> bool {
    let _printed = eprintln!(rt; "{what} {} fails", index.saturating_add(1));
    false
}

/// Prints what a call was to write and return, and what it wrote and returned. The answer is `false`.
pub fn differs<R: Eprint>(rt: &R, call: &Call, desk: &Desk) -> bool {
    let _wanted = print_wanted(rt, call);
    let _got = print_got(rt, desk);
    false
}

/// Prints what was wanted, in words or as a text, and what came. The answer is `false`.
pub fn differs_from<R: Eprint>(rt: &R, wanted: &str, desk: &Desk) -> bool {
    let _wanted = eprintln!(rt; "wanted {wanted}");
    let _got = print_got(rt, desk);
    false
}

/// Prints two answers of which the second should say what the first does. The answer is `false`.
pub fn differ<R: Eprint>(rt: &R, words: &str, first: &Desk, second: &Desk) -> bool {
    let _first = print_got(rt, first);
    let _words = eprintln!(rt; "and this for the words `{words}`, which should say the same:");
    let _second = print_got(rt, second);
    false
}

/// Prints the pieces of the text that was wanted, and what came (`found`). The answer is `false`.
pub fn is_other<R: Eprint>(rt: &R, pieces: &[&str], found: &[u8]) -> bool {
    let _wanted = eprintln!(rt; "wanted, in pieces:\n{pieces:?}");
    let _got = print_bytes(rt, "got", found);
    false
}

/// Whether a text is the wanted one. Where it isn't, both are printed.
pub fn is_text<R: Eprint>(rt: &R, wanted: &str, found: &[u8]) -> bool {
    found == wanted.as_bytes() || is_other(rt, &[wanted], found)
}
