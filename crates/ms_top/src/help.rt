//! The answers of `help` and `version`.
ghost use Rattle.std.specs.Prelude.{◌≡◌, IfOk};
ghost use Rattle.ms_top.specs.Said.{answer_of_help as help_of, answer_of_version as version_of};

use crate::output::Output;
use ms_bits::NoMemory;
use std::alloc::Global;

/// `help`: the usage.
pub fn help(alloc: Global) -> Result<Output, NoMemory>
    ensures { IfOk result (λ a. a ≡ help_of) }
{
    let text = ms_words::usage(alloc)?;
    Ok(Output::on_out(alloc, text))
}

/// `version`: the line with the version.
pub fn version(alloc: Global) -> Result<Output, NoMemory>
    ensures { IfOk result (λ a. a ≡ version_of) }
{
    let text = ms_words::version(alloc)?;
    Ok(Output::on_out(alloc, text))
}
