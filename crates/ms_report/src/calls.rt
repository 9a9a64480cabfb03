//! The lines of the calls that stand at a report, or where a run ended.
ghost use Rattle.std.specs.{Prelude.{◌≡◌, ◌++◌, ◌-◌, length, take, slice_get, IfOk, decimal}, Option.{option_copied}};
ghost use Rattle.ms_ir.specs.Places.{HasSmallNumbers};
ghost use Rattle.ms_report.specs.CallTexts.{most_calls, called_line, called_with, further_line, started_line, started_with, calls_with, calls_if};

use crate::site_lines::SiteLines;
use crate::sites::push_site;
use ms_bits::NoMemory;
use ms_ir::Module;
use ms_runs::Calls;
use ms_write_values::push_number;

/// At most so many calls are printed.
const MOST_CALLS: usize = 64;

/// Those of the calls at these sites that are printed.
fn printed(sites: &[u32]) -> &[u32]
    ensures { result.now ≡ take most_calls sites.now }
{
    if sites.len() <= MOST_CALLS {
        return sites;
    }
    &sites[..MOST_CALLS]
}

/// How many calls at these sites aren't printed.
fn unprinted(sites: &[u32]) -> usize
    ensures { result ≡ length sites.now - most_calls }
{
    sites.len().saturating_sub(MOST_CALLS)
}

/// Adds the line of a call at a site.
fn push_called_line(text: &mut Vec<u8>, m: &Module, site: u32) -> Result<(), NoMemory>
    requires { HasSmallNumbers m.now }
    ensures { IfOk result (λ _. text.new.items ≡ text.old.items ++ called_line m.now site) }
{
    text.extend_from_slice(b"  called")?;
    push_site(text, m, site)?;
    text.push(b'\n')?;
    Ok(())
}

/// Adds the line of a call at a site, and the lines under it.
fn push_called<L: SiteLines>(
    text: &mut Vec<u8>,
    m: &Module,
    site: u32,
    under: &L,
) -> Result<(), NoMemory>
    requires { HasSmallNumbers m.now }
    ensures { IfOk result (λ _. text.new.items ≡ text.old.items ++ (called_line m.now site ++ L.lines under.now site)) }
{
    push_called_line(text, m, site)?;
    under.push_lines(text, site)
}

/// Adds the lines of calls at these sites.
fn push_sites<L: SiteLines>(
    text: &mut Vec<u8>,
    m: &Module,
    sites: &[u32],
    under: &L,
) -> Result<(), NoMemory>
    requires { HasSmallNumbers m.now }
    ensures { IfOk result (λ _. text.new.items ≡ text.old.items ++ called_with (L.lines under.now) m.now sites.now) }
{
    for site in sites {
        push_called(text, m, *site, under)?;
    }
    Ok(())
}

/// Adds the line that says how many more calls there are, where there are more.
fn push_further(text: &mut Vec<u8>, count: usize) -> Result<(), NoMemory>
    ensures { IfOk result (λ _. text.new.items ≡ text.old.items ++ further_line count) }
{
    if count == 0 {
        return Ok(());
    }
    text.extend_from_slice(b"  more calls: ")?;
    push_number(text, count as u64)?;
    text.push(b'\n')?;
    Ok(())
}

/// Adds the line of the call that made a thread.
fn push_started_line(text: &mut Vec<u8>, m: &Module, site: u32) -> Result<(), NoMemory>
    requires { HasSmallNumbers m.now }
    ensures { IfOk result (λ _. text.new.items ≡ text.old.items ++ started_line m.now site) }
{
    text.extend_from_slice(b"  started")?;
    push_site(text, m, site)?;
    text.push(b'\n')?;
    Ok(())
}

/// Adds the line of the call that made a thread, where one did, and the lines under it.
fn push_started<L: SiteLines>(
    text: &mut Vec<u8>,
    m: &Module,
    site: u32,
    under: &L,
) -> Result<(), NoMemory>
    requires { HasSmallNumbers m.now }
    ensures { IfOk result (λ _. text.new.items ≡ text.old.items ++ started_with (L.lines under.now) m.now site) }
{
    if site == 0 {
        return Ok(());
    }
    push_started_line(text, m, site)?;
    under.push_lines(text, site)
}

/// Adds the lines of calls, the innermost first: a line for each of the first 64, how many more there are, and for a thread the
/// call that made it, with these lines under each that names a site.
fn push_calls<L: SiteLines>(
    text: &mut Vec<u8>,
    m: &Module,
    calls: &Calls,
    under: &L,
) -> Result<(), NoMemory>
    requires { HasSmallNumbers m.now }
    ensures { IfOk result (λ _. text.new.items ≡ text.old.items ++ calls_with (L.lines under.now) m.now calls.now) }
{
    let sites = calls.sites.as_slice();
    push_sites(text, m, printed(sites), under)?;
    push_further(text, unprinted(sites))?;
    push_started(text, m, calls.started, under)
}

/// Adds the lines of calls, if they are told.
pub(crate) fn push_calls_if<L: SiteLines>(
    text: &mut Vec<u8>,
    m: &Module,
    calls: Option<&Calls>,
    under: &L,
) -> Result<(), NoMemory>
    requires { HasSmallNumbers m.now }
    ensures { IfOk result (λ _. text.new.items ≡ text.old.items ++ calls_if (L.lines under.now) m.now (option_copied calls.entry)) }
{
    match calls {
        Some(calls) => push_calls(text, m, calls, under),
        None => Ok(()),
    }
}

/// Adds the lines of the calls with an index, where there are so many.
pub(crate) fn push_calls_at<L: SiteLines>(
    text: &mut Vec<u8>,
    m: &Module,
    calls: &[Calls],
    index: usize,
    under: &L,
) -> Result<(), NoMemory>
    requires { HasSmallNumbers m.now }
    ensures { IfOk result (λ _. text.new.items ≡ text.old.items ++ calls_if (L.lines under.now) m.now (slice_get calls.now index)) }
{
    match calls.get(index) {
        Some(found) => push_calls(text, m, found, under),
        None => Ok(()),
    }
}
