//! What the top call has to say, and how it is put to its sinks, in pieces.
ghost use Rattle.std.specs.Prelude.{◌≡◌, ◌≢◌, ◌≤◌, ◌⊎◌, [], OnOk, OnErr};
ghost use Rattle.ms_io.specs.{Counts.{Rose}, Writing.{with_appended, AppendsPrefix}};
ghost use Rattle.ms_top.specs.Said.{answer_of, between, says, WritesWhole, WritesPart};
ghost use Rattle.ms_top.specs.Statuses as statuses;

use crate::exit_codes::Status;
use ms_bits::Bytes;
use ms_io::{Sink, SinkFailed};
use std::alloc::Global;

/// A status, and the texts for the standard output and the standard error.
#[derive(Debug, Drop)]
pub struct Output {
    pub status: u8,
    pub out: Bytes,
    pub err: Bytes,
}

impl Output {
    /// That a command is done, with this text on the standard output alone.
    pub fn on_out(alloc: Global, out: Vec<u8>) -> Output
        ensures { result ≡ answer_of statuses.done out.items [] }
    {
        Output {
            status: Status::Done as u8,
            out: Bytes::from_vec(out),
            err: Bytes::from_vec(Vec::new(alloc)),
        }
    }

    /// A status with this text on the standard error alone.
    pub fn on_err(alloc: Global, status: u8, err: Vec<u8>) -> Output
        ensures { result ≡ says status err.items }
    {
        Output {
            status,
            out: Bytes::from_vec(Vec::new(alloc)),
            err: Bytes::from_vec(err),
        }
    }
}

/// The most bytes that one put has.
const PIECE: usize = 65536;

/// Puts all of `text` in pieces of at most 65536 bytes. An empty text is not put.
///
/// # Errors
/// `SinkFailed` where a put failed; then a first part of the text was written, and nothing more is put.
fn put_text<S: Sink>(sink: &mut S, text: &[u8]) -> Result<(), SinkFailed>
    ensures whole { OnOk result (S.written sink.new ≡ with_appended (S.written sink.old) text.now) }
    ensures part { OnErr result (AppendsPrefix (S.written sink.old) (S.written sink.new) text.now) }
    ensures failed { OnErr result (Rose (S.faults sink.old) (S.faults sink.new)) }
    ensures faults_never_fall { S.faults sink.old ≤ S.faults sink.new }
{
    let mut at = 0;
    while at < text.len() {
        let end = at + (text.len() - at).min(PIECE);
        match sink.put(&text[at..end]) {
            Ok(()) => at = end,
            Err(failed) => return Err(failed),
        }
    }
    Ok(())
}

/// Writes two texts, the standard output's first. Returns its status, or 7 where a put failed.
pub(crate) fn write_output<O: Sink, E: Sink>(
    out: &mut O,
    err: &mut E,
    status: u8,
    out_text: &[u8],
    err_text: &[u8],
) -> u8
    requires { status ≢ statuses.failed_put }
    ensures status { result ≢ statuses.failed_put → result ≡ status }
    ensures whole { result ≢ statuses.failed_put → WritesWhole
        (between (O.written out.old) (E.written err.old) (O.written out.new) (E.written err.new)) (answer_of status out_text.now err_text.now) }
    ensures part { result ≡ statuses.failed_put → WritesPart
        (between (O.written out.old) (E.written err.old) (O.written out.new) (E.written err.new)) (answer_of status out_text.now err_text.now) }
    ensures failed { result ≡ statuses.failed_put → Rose (O.faults out.old) (O.faults out.new) ⊎ Rose (E.faults err.old) (E.faults err.new) }
    ensures out_faults_never_fall { O.faults out.old ≤ O.faults out.new }
    ensures err_faults_never_fall { E.faults err.old ≤ E.faults err.new }
{
    if put_text(out, out_text).is_err() {
        return Status::FailedPut as u8;
    }
    if put_text(err, err_text).is_err() {
        return Status::FailedPut as u8;
    }
    status
}
