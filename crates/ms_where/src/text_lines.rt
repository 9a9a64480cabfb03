//! The line of an instruction in its text: the file's name, the number of the line, and the instruction up to what is attached to
//! it.

ghost use Rattle.std.specs.Prelude.{◌≡◌, ◌+◌, ◌<◌, ◌^◌, ◌++◌, IfOk, drop, position, slice_range, take};
ghost use Rattle.ms_where.specs.Shown as spec;

use crate::push_printed;
use ms_bits::NoMemory;
use ms_where_places::{Mark, MarkedText};
use ms_write_values::push_number;

/// How many bytes of an instruction are shown.
const MOST: usize = 100;

/// Whether these bytes begin as metadata does.
fn begins_metadata(bytes: &[u8]) -> bool
    ensures { result ≡ spec.begins_metadata bytes.now }
{
    match bytes {
        [first, ..] => *first == b'!',
        _ => false,
    }
}

/// Whether a token is a comma that metadata follows.
fn begins_attachment(marked: &MarkedText<'_>, token: usize) -> bool
    requires { token + 1 < 2 ^ 64 }
    ensures { result ≡ spec.begins_attachment marked.now token }
{
    marked.is_spelled(b",", token) && begins_metadata(marked.spelling(token + 1))
}

/// The number of the token after those of an instruction without what is attached to it.
#[tactic(auto, using(crate::proofs::Ranges::passed, crate::proofs::Ranges::found, crate::proofs::Ranges::over), unfolding(crate::specs::Shown::shown_end))]
fn shown_end(marked: &MarkedText<'_>, mark: &Mark) -> u32
    ensures { result ≡ spec.shown_end marked.now mark.now }
{
    for token in mark.first..mark.after {
        if begins_attachment(marked, token as usize) {
            return token;
        }
    }
    mark.after
}

/// The bytes of a text from a place on.
fn bytes_from(text: &[u8], start: usize) -> &[u8]
    ensures { result.now ≡ drop start text.now }
{
    if start < text.len() {
        &text[start..]
    } else {
        &[]
    }
}

/// The first bytes of a text, at most so many.
fn first_bytes(text: &[u8], count: usize) -> &[u8]
    ensures { result.now ≡ take count text.now }
{
    if count < text.len() {
        &text[..count]
    } else {
        text
    }
}

/// The bytes of a text from one place up to another.
fn bytes_in(text: &[u8], start: usize, end: usize) -> &[u8]
    ensures { result.now ≡ slice_range text.now start end }
{
    first_bytes(bytes_from(text, start), end.saturating_sub(start))
}

/// The bytes of an instruction without what is attached to it.
#[tactic(auto, unfolding(crate::specs::Shown::instruction_bytes))]
fn instruction_bytes<'a>(marked: &MarkedText<'a>, mark: &Mark) -> &'a [u8]
    ensures { result.now ≡ spec.instruction_bytes marked.now mark.now }
{
    let tokens = marked.tokens();
    let last = shown_end(marked, mark).saturating_sub(1);
    match (tokens.get(mark.first as usize), tokens.get(last as usize)) {
        (Some(first), Some(last)) => {
            bytes_in(marked.text(), first.start as usize, last.end as usize)
        }
        _ => &[],
    }
}

/// Whether a byte ends a line.
fn ends_line(byte: u8) -> bool
    ensures { result ≡ spec.ends_line byte }
{
    byte == b'\n' || byte == b'\r'
}

/// The end of the first line, if bytes have more than one.
fn line_end(bytes: &[u8]) -> Option<usize>
    ensures { result ≡ position spec.ends_line bytes.now }
{
    bytes.iter().position(|byte| ends_line(*byte))
}

/// How many of these bytes are shown: those of the first line, at most 100.
fn shown_length(bytes: &[u8]) -> usize
    ensures { result ≡ spec.shown_length bytes.now }
{
    line_end(bytes).unwrap_or(bytes.len()).min(MOST)
}

/// Adds bytes as they are shown, with dots after them where some are left out.
#[tactic(auto, unfolding(crate::specs::Shown::shown_bytes))]
fn push_shown(out: &mut Vec<u8>, bytes: &[u8]) -> Result<(), NoMemory>
    ensures { IfOk result (λ _. out.new.items ≡ out.old.items ++ spec.shown_bytes bytes.now) }
{
    let shown = shown_length(bytes);
    if shown < bytes.len() {
        push_printed(out, &bytes[..shown])?;
        out.extend_from_slice(b" ..")
    } else {
        push_printed(out, bytes)
    }
}

/// Adds a line of a file with this number, and what is shown of it.
fn push_numbered_line(
    out: &mut Vec<u8>,
    file: &[u8],
    number: u64,
    bytes: &[u8],
) -> Result<(), NoMemory>
    ensures { IfOk result (λ _. out.new.items ≡ out.old.items ++ spec.numbered_line file.now number bytes.now) }
{
    out.extend_from_slice(b"    ")?;
    push_printed(out, file)?;
    out.push(b':')?;
    push_number(out, number)?;
    out.extend_from_slice(b": ")?;
    push_shown(out, bytes)?;
    out.push(b'\n')?;
    Ok(())
}

/// Adds the line of an instruction in its text. `newlines` has for each token how many newlines stand in front of it.
#[tactic(auto, unfolding(crate::specs::Shown::text_line))]
pub fn push_text_line(
    out: &mut Vec<u8>,
    file: &[u8],
    marked: &MarkedText<'_>,
    newlines: &[u32],
    mark: &Mark,
) -> Result<(), NoMemory>
    requires { newlines.now ≡ spec.newlines_before_tokens marked.now.text marked.now.tokens }
    ensures { IfOk result (λ _. out.new.items ≡ out.old.items ++ spec.text_line file.now marked.now mark.now) }
{
    match newlines.get(mark.first as usize) {
        None => Ok(()),
        Some(newlines) => {
            let number = *newlines as u64 + 1;
            push_numbered_line(out, file, number, instruction_bytes(marked, mark))
        }
    }
}
