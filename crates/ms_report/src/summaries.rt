//! The summary of a run, which `gen` prints of a generated module.
ghost use Rattle.std.specs.Prelude.{◌≡◌, ◌++◌, true, decimal, codes, length, IfOk};
ghost use Rattle.ms_ir.specs.Places.{count_sites};
ghost use Rattle.ms_check_valid.specs.Formed.{Formed};
ghost use Rattle.ms_report.specs.{ReportTexts.{report_text_of}, RunTexts.{line, closing_of}, SummaryTexts.{summary_of}};

use crate::endings::{closing, push_count};
use crate::reports::report_text;
use ms_bits::NoMemory;
use ms_ir::{Module, sites_of_funcs};
use ms_runs::RunResult;
use ms_write_values::push_number;
use std::alloc::Global;

/// The summary of a run of `m`: how many functions and sites `m` has and how many bytes the run put out, and then the lines of its
/// reports and the closing lines. Linear as `report_text` and `closing` are.
pub fn summary_text(alloc: Global, m: &Module, r: &RunResult) -> Result<Vec<u8>, NoMemory>
    requires { Formed m.now }
    ensures { IfOk result (λ text. text.items ≡ summary_of m.now r.now) }
{
    let mut text = lines_of_size(alloc, m, r)?;
    let lines = lines_of(alloc, m, r)?;
    text.extend_from_slice(&lines)?;
    Ok(text)
}

/// The lines of a run's reports, and then the closing lines, with the verdict.
fn lines_of(alloc: Global, m: &Module, r: &RunResult) -> Result<Vec<u8>, NoMemory>
    requires { Formed m.now }
    ensures { IfOk result (λ text. text.items ≡ report_text_of m.now r.now ++ closing_of m.now r.now true) }
{
    let mut text = report_text(alloc, m, r)?;
    let lines = closing(alloc, m, r, true)?;
    text.extend_from_slice(&lines)?;
    Ok(text)
}

/// The lines on the size of a module and of its output.
fn lines_of_size(alloc: Global, m: &Module, r: &RunResult) -> Result<Vec<u8>, NoMemory>
    requires { Formed m.now }
    ensures { IfOk result (λ text. text.items ≡
        line (codes "functions") (decimal (length m.now.funcs)) ++ line (codes "sites") (decimal (count_sites m.now)) ++ line (codes "output") (decimal (length r.now.output) ++ codes " bytes")) }
{
    let mut text = Vec::new(alloc);
    push_count(&mut text, b"functions", m.funcs.as_slice().len() as u64)?;
    push_sites(&mut text, m)?;
    push_output(&mut text, r)?;
    Ok(text)
}

/// Adds the line of a module's number of sites.
fn push_sites(text: &mut Vec<u8>, m: &Module) -> Result<(), NoMemory>
    requires { Formed m.now }
    ensures { IfOk result (λ _. text.new.items ≡ text.old.items ++ line (codes "sites") (decimal (count_sites m.now))) }
{
    let sites = sites_of_funcs(m.funcs.as_slice());
    push_count(text, b"sites", sites as u64)
}

/// Adds the line of how many bytes a run put out.
fn push_output(text: &mut Vec<u8>, r: &RunResult) -> Result<(), NoMemory>
    ensures { IfOk result (λ _. text.new.items ≡ text.old.items ++ line (codes "output") (decimal (length r.now.output) ++ codes " bytes")) }
{
    text.extend_from_slice(b"output: ")?;
    push_number(text, r.output.as_slice().len() as u64)?;
    text.extend_from_slice(b" bytes\n")?;
    Ok(())
}
