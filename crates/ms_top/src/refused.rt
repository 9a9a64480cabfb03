//! What a command says of a module that is refused.
ghost use Rattle.std.specs.Prelude.{◌≡◌, false, IfOk};
ghost use Rattle.ms_report.specs.RefusalTexts.{HasLine, threads_text, wants_memory as is_want_of_memory};
ghost use Rattle.ms_report.specs.WithLines.{refusal_text_with};
ghost use Rattle.ms_top.specs.Said.{says};
ghost use Rattle.ms_top.specs.Statuses as statuses;

use crate::exit_codes::Status;
use crate::output::Output;
use ms_bits::{Boxed, NoMemory};
use ms_check::CheckError;
use ms_read_body::ReadError;
use ms_report::{Refusal, SiteLines, refusal_line_with, threads_line};
use std::alloc::{AllocError, Global};

/// Why a module is refused, in its line. Where the cause is that memory ran out, so is the error.
pub fn refused<L: SiteLines>(alloc: Global, cause: Refusal, lines: &L) -> Result<Output, NoMemory>
    requires { is_want_of_memory cause ≡ false → HasLine cause }
    ensures reason { IfOk result (λ a. is_want_of_memory cause ≡ false) }
    ensures line { IfOk result (λ a. a ≡ says statuses.refused (refusal_text_with (L.lines lines.now) cause)) }
{
    let cause = Boxed::new(alloc, cause)?;
    refused_for(alloc, cause.get(), lines)
}

/// Why a module is refused, in its line, for a cause on the heap.
fn refused_for<L: SiteLines>(alloc: Global, cause: &Refusal, lines: &L) -> Result<Output, NoMemory>
    requires { is_want_of_memory cause.now ≡ false → HasLine cause.now }
    ensures reason { IfOk result (λ a. is_want_of_memory cause.now ≡ false) }
    ensures line { IfOk result (λ a. a ≡ says statuses.refused (refusal_text_with (L.lines lines.now) cause.now)) }
{
    if wants_memory(cause) {
        return Err(AllocError);
    }
    let line = refusal_line_with(alloc, cause, lines)?;
    Ok(Output::on_err(alloc, Status::Refused as u8, line))
}

/// Whether a cause is that memory ran out.
fn wants_memory(cause: &Refusal) -> bool
    ensures { result ≡ is_want_of_memory cause.now }
{
    match cause {
        Refusal::Read(ReadError::NoMemory) => true,
        Refusal::Check(CheckError::NoMemory) => true,
        _ => false,
    }
}

/// What a command that takes no schedule says of a module with threads.
pub fn refused_threads(alloc: Global) -> Result<Output, NoMemory>
    ensures { IfOk result (λ a. a ≡ says statuses.refused threads_text) }
{
    let line = threads_line(alloc)?;
    Ok(Output::on_err(alloc, Status::Refused as u8, line))
}
