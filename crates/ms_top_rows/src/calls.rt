//! Calls of `msan` over files and two sinks in memory, as rows of tables tell them, and the one runner of all tables. The module is
//! the text of the file `f`.

use crate::failing::{differs, fails};
use ms_bits::Text;
use ms_io::{MemFiles, MemSink};
use ms_top::{Gate, Pass, job, msan};
use ms_words::read_words;
use std::alloc::{AllocError, Global};
use std::collections::BTreeMap;
use std::thread::Threads;

/// What a run is given; the digits of the fill are those of the option.
#[derive(Clone, Copy)]
pub struct Terms {
    pub input: &'static [u8],
    pub fill: &'static str,
    pub steps: u64,
    pub reports: u32,
}

/// What a run is given where no option is.
pub const DEFAULTS: Terms = Terms {
    input: b"",
    fill: "a5",
    steps: 10000000,
    reports: 1,
};

/// What stands beside the file `f`.
#[derive(Clone, Copy)]
pub enum Beside<'a> {
    Nothing,
    /// The input of these terms as the file `i`, and the terms as options after the words.
    On(Terms),
    /// So many times the letter x as the file `a`, and nothing as `b`.
    Letters(usize),
    /// These files.
    These(&'a [(&'a str, &'a str)]),
}

/// A sink: the numbers of its puts that fail, and how many bytes fit.
#[derive(Clone, Copy)]
pub struct Taking<'a>(pub &'a [u64], pub usize);

/// Takes all that is put, but for the longest outputs.
pub const ALL: Taking<'static> = Taking(&[], 131072);

/// Takes more than a run may print.
pub const MORE: Taking<'static> = Taking(&[], 1049600);

/// What a call writes and returns: the output, after which the letter A stands so many times, the pieces of the standard
/// error, and the status.
#[derive(Clone, Copy)]
pub struct Wanted<'a> {
    pub out: &'a [u8],
    pub letters: usize,
    pub err: [&'a str; 3],
    pub status: u8,
}

/// What stands as wanted for a call whose answer isn't compared with it, but looked at by the caller.
pub const NOTHING: Wanted<'static> = Wanted {
    out: b"",
    letters: 0,
    err: ["", "", ""],
    status: 0,
};

/// What a call is wanted to write to standard output and standard error, and its status.
pub fn saying<'a>(out: &'a [u8], err: &'a str, status: u8) -> Wanted<'a> {
    Wanted {
        out,
        letters: 0,
        err: [err, "", ""],
        status,
    }
}

/// A call, and what is wanted of it. The text of the file `f` is `head`, then `piece` so many `times`, then `tail`.
#[derive(Clone, Copy)]
pub struct Call<'a> {
    pub words: &'a str,
    pub head: &'a [u8],
    pub piece: &'a [u8],
    pub times: u32,
    pub tail: &'a [u8],
    pub beside: Beside<'a>,
    /// The numbers of the reads of files that fail.
    pub failing_reads: &'a [u64],
    /// The standard output and the standard error.
    pub out: Taking<'a>,
    pub err: Taking<'a>,
    pub wanted: Wanted<'a>,
}

/// A row of a table, which tells a call.
pub trait Row {
    /// What the row has `msan` do, and what it wants of that.
    fn call(&self) -> Call<'static>;
}

/// A row of the words, the text of the file `f`, what is written to the output and to the standard error, and the status.
#[derive(Clone, Copy)]
pub struct Case(
    pub &'static str,
    pub &'static str,
    pub &'static str,
    pub &'static str,
    pub u8,
);

impl Row for Case {
    fn call(&self) -> Call<'static> {
        let wanted = saying(self.2.as_bytes(), self.3, self.4);
        on_text(self.0, self.1.as_bytes(), wanted)
    }
}

/// A row like these, beside two empty inputs, the files `a` and `b`.
#[derive(Clone, Copy)]
pub struct OnInputs(pub Case);

impl Row for OnInputs {
    fn call(&self) -> Call<'static> {
        Call {
            beside: Beside::Letters(0),
            ..self.0.call()
        }
    }
}

/// A call as it is made: its words, the files and the two sinks in memory, and the status that it returned.
#[derive(Drop)]
pub struct Desk {
    words: Vec<Text>,
    files: MemFiles,
    pub out: MemSink,
    pub err: MemSink,
    pub status: u8,
}

/// The status before a call; none answers it.
const NO_STATUS: u8 = 255;

/// A call on this text alone, to sinks that take all.
pub fn on_text<'a>(words: &'a str, text: &'a [u8], wanted: Wanted<'a>) -> Call<'a> {
    Call {
        words,
        head: text,
        piece: b"",
        times: 0,
        tail: b"",
        beside: Beside::Nothing,
        failing_reads: &[],
        out: ALL,
        err: ALL,
        wanted,
    }
}

/// The words of a line, which stand with a space between.
pub fn words_of(alloc: Global, line: &str) -> Result<Vec<Text>, AllocError> {
    let mut texts = Vec::new(alloc);
    for word in line.split_whitespace() {
        texts.push(Text::from_string(String::from_str(alloc, word)?))?;
    }
    Ok(texts)
}

/// The words of a call, with the options and the file of its terms where it has some.
fn words_of_call(alloc: Global, call: &Call) -> Result<Vec<Text>, AllocError> {
    match &call.beside {
        Beside::On(terms) => {
            let line = format!(in alloc;
                "{} --input i --fill {} --steps {} --reports {} f",
                call.words, terms.fill, terms.steps, terms.reports
            )?;
            words_of(alloc, line.as_str())
        }
        _ => words_of(alloc, call.words),
    }
}

/// Adds a piece to a text so many times.
fn push_times(text: &mut Vec<u8>, piece: &[u8], times: u32) -> Result<(), AllocError> {
    for _time in 0..times {
        text.extend_from_slice(piece)?;
    }
    Ok(())
}

/// The text of the file `f`.
fn text_of(alloc: Global, call: &Call) -> Result<Vec<u8>, AllocError> {
    let mut text = Vec::from_slice(alloc, call.head)?;
    push_times(&mut text, call.piece, call.times)?;
    text.extend_from_slice(call.tail)?;
    Ok(text)
}

/// Adds a file with this name and these bytes to those held in memory.
fn hold(
    alloc: Global,
    held: &mut BTreeMap<String, Vec<u8>>,
    name: &str,
    bytes: Vec<u8>,
) -> Result<(), AllocError> {
    held.insert(String::from_str(alloc, name)?, bytes)?;
    Ok(())
}

/// Adds files with these names and texts.
fn hold_all(
    alloc: Global,
    held: &mut BTreeMap<String, Vec<u8>>,
    files: &[(&str, &str)],
) -> Result<(), AllocError> {
    for (name, text) in files {
        hold(alloc, held, name, Vec::from_slice(alloc, text.as_bytes())?)?;
    }
    Ok(())
}

/// Adds the files that stand beside `f`.
fn hold_beside(
    alloc: Global,
    held: &mut BTreeMap<String, Vec<u8>>,
    beside: &Beside,
) -> Result<(), AllocError> {
    match beside {
        Beside::Nothing => Ok(()),
        Beside::On(terms) => hold(alloc, held, "i", Vec::from_slice(alloc, terms.input)?),
        Beside::Letters(count) => {
            hold(alloc, held, "a", vec![in alloc; b'x'; *count]?)?;
            hold(alloc, held, "b", Vec::new(alloc))
        }
        Beside::These(files) => hold_all(alloc, held, files),
    }
}

/// The files of a call, in memory.
fn files_of(alloc: Global, call: &Call) -> Result<MemFiles, AllocError> {
    let mut held = BTreeMap::new(alloc);
    hold(alloc, &mut held, "f", text_of(alloc, call)?)?;
    hold_beside(alloc, &mut held, &call.beside)?;
    Ok(MemFiles::new(held, Vec::from_slice(alloc, call.failing_reads)?))
}

/// A sink in memory as a row tells it.
fn sink_of(alloc: Global, taking: &Taking) -> Result<MemSink, AllocError> {
    let failing = Vec::from_slice(alloc, taking.0)?;
    let room: Vec<u8> = vec![in alloc; 0; taking.1]?;
    Ok(MemSink::new(failing, room))
}

/// A call that is ready to be made, with its words, files and sinks.
fn desk_of(alloc: Global, call: &Call) -> Result<Desk, AllocError> {
    Ok(Desk {
        words: words_of_call(alloc, call)?,
        files: files_of(alloc, call)?,
        out: sink_of(alloc, &call.out)?,
        err: sink_of(alloc, &call.err)?,
        status: NO_STATUS,
    })
}

/// Makes a call of `msan`: the desk then has what it wrote and returned.
pub fn said<R: Threads + Sync>(rt: &R, alloc: Global, call: &Call) -> Result<Desk, AllocError> {
    let mut desk = desk_of(alloc, call)?;
    desk.status = msan(
        rt,
        alloc,
        &desk.words,
        &mut desk.files,
        &mut desk.out,
        &mut desk.err,
    );
    Ok(desk)
}

/// Does what the desk's words ask for, if they are a command, by a pass and a gate.
fn do_job<R: Threads + Sync, P: Pass, G: Gate + Sync>(
    rt: &R,
    alloc: Global,
    desk: &mut Desk,
    pass: &P,
    gate: &G,
) {
    if let Ok(command) = read_words(alloc, &desk.words) {
        desk.status = job(
            rt,
            alloc,
            &command,
            &mut desk.files,
            &mut desk.out,
            &mut desk.err,
            pass,
            gate,
        );
    }
}

/// What a call writes and returns where a pass makes the module that is run, and each run on one of many inputs enters a gate.
pub fn said_by<R: Threads + Sync, P: Pass, G: Gate + Sync>(
    rt: &R,
    alloc: Global,
    call: &Call,
    pass: &P,
    gate: &G,
) -> Result<Desk, AllocError> {
    let mut desk = desk_of(alloc, call)?;
    do_job(rt, alloc, &mut desk, pass, gate);
    Ok(desk)
}

/// What stands after these pieces, if a text begins with them.
pub fn after<'a>(text: &'a [u8], pieces: &[&str]) -> Option<&'a [u8]> {
    let mut rest = text;
    for piece in pieces {
        match rest.strip_prefix(piece.as_bytes()) {
            Some(next) => rest = next,
            None => return None,
        }
    }
    Some(rest)
}

/// Whether a text is these pieces, one after the other.
pub fn is_joined(text: &[u8], pieces: &[&str]) -> bool {
    match after(text, pieces) {
        Some(rest) => rest.is_empty(),
        None => false,
    }
}

/// Whether a text is so many letters A.
fn are_letters(text: &[u8], count: usize) -> bool {
    for byte in text {
        if *byte != b'A' {
            return false;
        }
    }
    text.len() == count
}

/// Whether a text is the output that is wanted.
fn is_output(text: &[u8], wanted: &Wanted) -> bool {
    match text.strip_prefix(wanted.out) {
        Some(rest) => are_letters(rest, wanted.letters),
        None => false,
    }
}

/// Whether the desk has what is wanted.
pub fn says(desk: &Desk, wanted: &Wanted) -> bool {
    desk.status == wanted.status
        && is_output(desk.out.as_slice(), wanted)
        && is_joined(desk.err.as_slice(), &wanted.err)
}

/// Whether a call writes and returns what it wants. Where it doesn't, both are printed.
pub fn agrees<R: Threads + Sync + Eprint>(rt: &R, alloc: Global, call: &Call) -> bool {
    match said(rt, alloc, call) {
        Ok(desk) => says(&desk, &call.wanted) || differs(rt, call, &desk),
        Err(_) => false,
    }
}

/// Whether the call of each row of a table writes and returns what the row says.
pub fn table_agrees<R: Threads + Sync + Eprint, T: Row>(rt: &R, alloc: Global, rows: &[T]) -> bool {
    for (number, row) in rows.iter().enumerate() {
        if !agrees(rt, alloc, &row.call()) {
            return fails(rt, "row", number);
        }
    }
    true
}

/// Whether the call of each row of these tables writes and returns what the row says.
pub fn all_agree<R: Threads + Sync + Eprint, T: Row>(
    rt: &R,
    alloc: Global,
    tables: &[&[T]],
) -> bool {
    for (number, rows) in tables.iter().enumerate() {
        if !table_agrees(rt, alloc, rows) {
            return fails(rt, "table", number);
        }
    }
    true
}
