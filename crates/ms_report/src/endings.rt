//! The closing lines of a run: how it ended, how many reports and blind uses it has, its verdict.
ghost use Rattle.std.specs.{Prelude.{◌≡◌, ◌++◌, IfOk, codes, decimal}, Option.{option_copied}};
ghost use Rattle.ms_ir.specs.Places.{HasSmallNumbers};
ghost use Rattle.ms_check_valid.specs.Formed.{Formed};
ghost use Rattle.ms_runs.specs.Verdict.{verdict_of};
ghost use Rattle.ms_report.specs.RunTexts.{end_text, verdict_text, verdict_line, line, closing_of};
ghost use Rattle.ms_report.specs.WithLines.{end_site, closing_text_with};
ghost use Rattle.ms_report.specs.CallTexts.{ended_with, closing_calling as closing_calling_of};

use crate::calls::push_calls_if;
use crate::names::name_of_trap;
use crate::site_lines::{NoLines, SiteLines, push_under};
use crate::sites::push_site;
use ms_bits::NoMemory;
use ms_ir::Module;
use ms_runs::{Calls, End, RunResult};
use ms_write_values::push_number;
use std::alloc::Global;

/// Adds how a run ended, in words: `exit`, `trap` with its site, `reported` or `spent`.
fn push_end(text: &mut Vec<u8>, m: &Module, end: End) -> Result<(), NoMemory>
    requires { HasSmallNumbers m.now }
    ensures { IfOk result (λ _. text.new.items ≡ text.old.items ++ end_text m.now end) }
{
    match end {
        End::Exit(value) => {
            text.extend_from_slice(b"exit ")?;
            push_number(text, value as u64)
        }
        End::Trap { kind, site } => {
            text.extend_from_slice(b"trap ")?;
            text.extend_from_slice(name_of_trap(kind))?;
            push_site(text, m, site)
        }
        End::Reported => text.extend_from_slice(b"reported"),
        End::Spent => text.extend_from_slice(b"spent"),
    }
}

/// The site that the line of how a run ended names, where it names one.
fn site_of_end(end: End) -> Option<u32>
    ensures { result ≡ end_site end }
{
    match end {
        End::Trap { site, .. } => Some(site),
        _ => None,
    }
}

/// The printed verdict of a run.
fn name_of_verdict(r: &RunResult) -> &'static [u8]
    ensures { result.now ≡ verdict_text (verdict_of r.now) }
{
    match r.reports.as_slice() {
        [_, ..] => b"poisoned",
        [] => { if r.blind == 0 { b"clean" } else { b"unsure" } }
    }
}

/// Adds the line `name: count`.
pub(crate) fn push_count(text: &mut Vec<u8>, name: &[u8], count: u64) -> Result<(), NoMemory>
    ensures { IfOk result (λ _. text.new.items ≡ text.old.items ++ line name.now (decimal count)) }
{
    text.extend_from_slice(name)?;
    text.extend_from_slice(b": ")?;
    push_number(text, count)?;
    text.push(b'\n')?;
    Ok(())
}

/// Adds the line that says how a run ended.
fn push_end_line(text: &mut Vec<u8>, m: &Module, end: End) -> Result<(), NoMemory>
    requires { HasSmallNumbers m.now }
    ensures { IfOk result (λ _. text.new.items ≡ text.old.items ++ line (codes "end") (end_text m.now end)) }
{
    text.extend_from_slice(b"end: ")?;
    push_end(text, m, end)?;
    text.push(b'\n')?;
    Ok(())
}

/// Adds the line of the verdict, where it is asked for.
fn push_verdict(text: &mut Vec<u8>, r: &RunResult, asked: bool) -> Result<(), NoMemory>
    ensures { IfOk result (λ _. text.new.items ≡ text.old.items ++ verdict_line asked r.now) }
{
    if asked {
        text.extend_from_slice(b"verdict: ")?;
        text.extend_from_slice(name_of_verdict(r))?;
        text.push(b'\n')?;
    }
    Ok(())
}

/// Adds the lines of the calls that stand where a run ended, if it trapped and they are told.
fn push_ended<L: SiteLines>(
    text: &mut Vec<u8>,
    m: &Module,
    end: End,
    calls: Option<&Calls>,
    under: &L,
) -> Result<(), NoMemory>
    requires { HasSmallNumbers m.now }
    ensures { IfOk result (λ _. text.new.items ≡ text.old.items ++ ended_with (L.lines under.now) m.now end (option_copied calls.entry)) }
{
    match end {
        End::Trap { .. } => push_calls_if(text, m, calls, under),
        _ => Ok(()),
    }
}

/// Adds the closing lines of a run, with the verdict where that is asked for, and under those of a trap these lines of its site and
/// those of its calls that are told.
fn push_closing<L: SiteLines>(
    text: &mut Vec<u8>,
    m: &Module,
    r: &RunResult,
    calls: Option<&Calls>,
    verdict: bool,
    under: &L,
) -> Result<(), NoMemory>
    requires { HasSmallNumbers m.now }
    ensures { IfOk result (λ _. text.new.items ≡ text.old.items ++ closing_calling_of (L.lines under.now) m.now r.now (option_copied calls.entry) verdict) }
{
    push_end_line(text, m, r.end)?;
    push_under(text, site_of_end(r.end), under)?;
    push_ended(text, m, r.end, calls, under)?;
    push_count(text, b"reports", r.reports.as_slice().len() as u64)?;
    push_count(text, b"blind", r.blind)?;
    push_verdict(text, r, verdict)
}

/// The closing lines of a run of `m`: how it ended, its number of reports, its number of blind uses, and where `verdict` is
/// set whether it used uninitialised bits.
#[tactic(auto, using(crate::proofs::WithoutLines::closing_alone))]
pub fn closing(alloc: Global, m: &Module, r: &RunResult, verdict: bool) -> Result<Vec<u8>, NoMemory>
    requires { Formed m.now }
    ensures { IfOk result (λ text. text.items ≡ closing_of m.now r.now verdict) }
{
    closing_with(alloc, m, r, verdict, &NoLines)
}

/// The closing lines of a run of `m`, with the lines `under` the site of a trap.
pub fn closing_with<L: SiteLines>(
    alloc: Global,
    m: &Module,
    r: &RunResult,
    verdict: bool,
    under: &L,
) -> Result<Vec<u8>, NoMemory>
    requires { Formed m.now }
    ensures { IfOk result (λ text. text.items ≡ closing_text_with (L.lines under.now) m.now r.now verdict) }
{
    closing_calling(alloc, m, r, None, verdict, under)
}

/// The same, and below the line of a trap those of the calls that stand there, if they are told.
pub fn closing_calling<L: SiteLines>(
    alloc: Global,
    m: &Module,
    r: &RunResult,
    calls: Option<&Calls>,
    verdict: bool,
    under: &L,
) -> Result<Vec<u8>, NoMemory>
    requires { Formed m.now }
    ensures { IfOk result (λ text. text.items ≡ closing_calling_of (L.lines under.now) m.now r.now (option_copied calls.entry) verdict) }
{
    let mut text = Vec::new(alloc);
    push_closing(&mut text, m, r, calls, verdict, under)?;
    Ok(text)
}
