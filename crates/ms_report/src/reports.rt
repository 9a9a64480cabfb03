//! The lines of a run's reports: each report, and under it the way of its origin back to a root, one line for each origin.
ghost use Rattle.std.specs.Prelude.{◌≡◌, ◌++◌, IfOk, codes, decimal};
ghost use Rattle.ms_ir.specs.{Places.{HasSmallNumbers}, Roots.{roots_of, root_numbered}};
ghost use Rattle.ms_check_valid.specs.Formed.{Formed};
ghost use Rattle.ms_report.specs.ReportTexts.{hexadecimal, kind_text, root_text, origin_text, origin_line, earlier as earlier_of, use_text, bits_text, report_line, report_text_of};
ghost use Rattle.ms_report.specs.WithLines.{origin_site, under_line, chain_with, origins_with, reports_with};
ghost use Rattle.ms_report.specs.CallTexts.{reports_calling};

use crate::calls::push_calls_at;
use crate::names::{name_of_kind, name_of_root};
use crate::site_lines::{NoLines, SiteLines, push_under};
use crate::sites::push_site;
use ms_bits::NoMemory;
use ms_ir::{Module, Root, roots};
use ms_runs::{Calls, Origin, Report, RunResult};
use ms_write_values::push_number;
use std::alloc::Global;

/// What the lines of reports are made with: the module with its roots, and the lines `under` each line that names a site.
#[derive(Drop)]
struct Rooted<'a, L> {
    m: &'a Module,
    roots: &'a [Root],
    under: &'a L,
}

/// Adds a number in lower-case hexadecimal digits.
pub fn push_hexadecimal(text: &mut Vec<u8>, number: u64) -> Result<(), NoMemory>
    ensures { IfOk result (λ _. text.new.items ≡ text.old.items ++ hexadecimal number) }
{
    let alloc = *text.allocator();
    let digits = format!(in alloc; "{number:x}")?;
    text.extend_from_slice(digits.as_bytes())
}

/// Adds the name of a kind of use.
fn push_kind(text: &mut Vec<u8>, kind: u32) -> Result<(), NoMemory>
    ensures { IfOk result (λ _. text.new.items ≡ text.old.items ++ kind_text kind) }
{
    match name_of_kind(kind) {
        Some(name) => text.extend_from_slice(name),
        None => {
            text.extend_from_slice(b"kind ")?;
            push_number(text, kind as u64)
        }
    }
}

/// Adds what made the uninitialised bits of a root: its kind and its site; `unknown` where there is none.
fn push_root(text: &mut Vec<u8>, m: &Module, root: Option<Root>) -> Result<(), NoMemory>
    requires { HasSmallNumbers m.now }
    ensures { IfOk result (λ _. text.new.items ≡ text.old.items ++ root_text m.now root) }
{
    match root {
        None => text.extend_from_slice(b"unknown"),
        Some(root) => {
            text.extend_from_slice(name_of_root(root.kind))?;
            push_site(text, m, root.site)
        }
    }
}

/// The number of the next origin on the way back, after origin `number`.
fn earlier(number: u32, origin: Origin) -> u32
    ensures { result ≡ earlier_of number origin }
{
    match origin {
        Origin::Root { .. } => number,
        Origin::Chain { old, .. } => old,
    }
}

/// Begins the line of origin `number`.
fn begin_origin(text: &mut Vec<u8>, number: u32) -> Result<(), NoMemory>
    ensures { IfOk result (λ _. text.new.items ≡ text.old.items ++ (codes "  origin " ++ decimal number ++ codes ": ")) }
{
    text.extend_from_slice(b"  origin ")?;
    push_number(text, number as u64)?;
    text.extend_from_slice(b": ")
}

/// Adds the number of a report, the kind of its use, and where that stands.
fn push_use(text: &mut Vec<u8>, m: &Module, number: u64, report: &Report) -> Result<(), NoMemory>
    requires { HasSmallNumbers m.now }
    ensures { IfOk result (λ _. text.new.items ≡ text.old.items ++ use_text m.now number report.now) }
{
    text.extend_from_slice(b"report ")?;
    push_number(text, number)?;
    text.extend_from_slice(b": ")?;
    push_kind(text, report.kind)?;
    push_site(text, m, report.site)
}

/// Adds which part of its instruction a report's use reads, and which bits of it are uninitialised.
fn push_bits(text: &mut Vec<u8>, report: &Report) -> Result<(), NoMemory>
    ensures { IfOk result (λ _. text.new.items ≡ text.old.items ++ bits_text report.now) }
{
    text.extend_from_slice(b", part ")?;
    push_number(text, report.part as u64)?;
    text.extend_from_slice(b", bits 0x")?;
    push_hexadecimal(text, report.mask)?;
    text.extend_from_slice(b" of i")?;
    push_number(text, report.width as u64)
}

/// Adds the line of a report with a number.
fn push_line(text: &mut Vec<u8>, m: &Module, number: u64, report: &Report) -> Result<(), NoMemory>
    requires { HasSmallNumbers m.now }
    ensures { IfOk result (λ _. text.new.items ≡ text.old.items ++ report_line m.now number report.now) }
{
    push_use(text, m, number, report)?;
    push_bits(text, report)?;
    text.push(b'\n')?;
    Ok(())
}

impl<L: SiteLines> Rooted<'_, L> {
    /// The root with a number, counted from 1; none for 0 and for numbers that no root has.
    fn root_at(&self, number: u32) -> Option<Root>
        requires { self.now.roots.now ≡ roots_of self.now.m.now }
        ensures { result ≡ root_numbered self.now.m.now number }
    {
        if number == 0 {
            return None;
        }
        self.roots.get(number as usize - 1).copied()
    }

    /// The site that the line of an origin names, where it names one.
    fn site_of(&self, origin: Origin) -> Option<u32>
        requires { self.now.roots.now ≡ roots_of self.now.m.now }
        ensures { result ≡ origin_site self.now.m.now origin }
    {
        match origin {
            Origin::Root { number } => match self.root_at(number) {
                Some(root) => Some(root.site),
                None => None,
            },
            Origin::Chain { site, .. } => Some(site),
        }
    }

    /// Adds what an origin is: a root, or a store at a site.
    fn push_origin(&self, text: &mut Vec<u8>, origin: Origin) -> Result<(), NoMemory>
        requires numbers { HasSmallNumbers self.now.m.now }
        requires roots { self.now.roots.now ≡ roots_of self.now.m.now }
        ensures { IfOk result (λ _. text.new.items ≡ text.old.items ++ origin_text self.now.m.now origin) }
    {
        match origin {
            Origin::Root { number } => push_root(text, self.m, self.root_at(number)),
            Origin::Chain { site, .. } => {
                text.extend_from_slice(b"stored")?;
                push_site(text, self.m, site)
            }
        }
    }

    /// Adds the line of an origin with a number.
    fn push_step(&self, text: &mut Vec<u8>, number: u32, origin: Origin) -> Result<(), NoMemory>
        requires numbers { HasSmallNumbers self.now.m.now }
        requires roots { self.now.roots.now ≡ roots_of self.now.m.now }
        ensures { IfOk result (λ _. text.new.items ≡ text.old.items ++ origin_line number (origin_text self.now.m.now origin)) }
    {
        begin_origin(text, number)?;
        self.push_origin(text, origin)?;
        text.push(b'\n')?;
        Ok(())
    }

    /// Adds the line of an origin with a number, and the lines under it.
    fn push_link(&self, text: &mut Vec<u8>, number: u32, origin: Origin) -> Result<(), NoMemory>
        requires numbers { HasSmallNumbers self.now.m.now }
        requires roots { self.now.roots.now ≡ roots_of self.now.m.now }
        ensures { IfOk result (λ _. text.new.items ≡ text.old.items ++ (origin_line number (origin_text self.now.m.now origin) ++ under_line (L.lines self.now.under.now) (origin_site self.now.m.now origin))) }
    {
        self.push_step(text, number, origin)?;
        push_under(text, self.site_of(origin), self.under)
    }

    /// Adds the lines of a chain of origins, of which the first has the number `number`.
    fn push_chain(&self, text: &mut Vec<u8>, number: u32, chain: &[Origin]) -> Result<(), NoMemory>
        requires numbers { HasSmallNumbers self.now.m.now }
        requires roots { self.now.roots.now ≡ roots_of self.now.m.now }
        ensures { IfOk result (λ _. text.new.items ≡ text.old.items ++ chain_with (L.lines self.now.under.now) self.now.m.now number chain.now) }
    {
        let mut number = number;
        for origin in chain {
            self.push_link(text, number, *origin)?;
            number = earlier(number, *origin);
        }
        Ok(())
    }

    /// Adds the lines of origin `number` with its chain; one line `unknown` where that is empty.
    fn push_way(&self, text: &mut Vec<u8>, number: u32, chain: &[Origin]) -> Result<(), NoMemory>
        requires numbers { HasSmallNumbers self.now.m.now }
        requires roots { self.now.roots.now ≡ roots_of self.now.m.now }
        ensures { IfOk result (λ _. text.new.items ≡ text.old.items ++ origins_with (L.lines self.now.under.now) self.now.m.now number chain.now) }
    {
        if chain.is_empty() {
            begin_origin(text, number)?;
            text.extend_from_slice(b"unknown\n")
        } else {
            self.push_chain(text, number, chain)
        }
    }

    /// Adds the line of a report with a number, and the lines under it.
    fn push_report(&self, text: &mut Vec<u8>, number: u64, report: &Report) -> Result<(), NoMemory>
        requires { HasSmallNumbers self.now.m.now }
        ensures { IfOk result (λ _. text.new.items ≡ text.old.items ++ (report_line self.now.m.now number report.now ++ L.lines self.now.under.now report.now.site)) }
    {
        push_line(text, self.m, number, report)?;
        self.under.push_lines(text, report.site)
    }

    /// Adds the lines of reports, which are counted from 1, each with those of its calls.
    fn push_reports(
        &self,
        text: &mut Vec<u8>,
        reports: &[Report],
        calls: &[Calls],
    ) -> Result<(), NoMemory>
        requires numbers { HasSmallNumbers self.now.m.now }
        requires roots { self.now.roots.now ≡ roots_of self.now.m.now }
        ensures { IfOk result (λ _. text.new.items ≡ text.old.items ++ reports_calling (L.lines self.now.under.now) self.now.m.now calls.now 0 reports.now) }
    {
        let mut index = 0;
        while index < reports.len() {
            let report = &reports[index];
            let chain = report.chain.as_slice();
            self.push_report(text, index as u64 + 1, report)?;
            push_calls_at(text, self.m, calls, index, self.under)?;
            self.push_way(text, report.origin, chain)?;
            index += 1;
        }
        Ok(())
    }

    /// The lines of reports.
    fn text_of(
        &self,
        alloc: Global,
        reports: &[Report],
        calls: &[Calls],
    ) -> Result<Vec<u8>, NoMemory>
        requires numbers { HasSmallNumbers self.now.m.now }
        requires roots { self.now.roots.now ≡ roots_of self.now.m.now }
        ensures { IfOk result (λ text. text.items ≡ reports_calling (L.lines self.now.under.now) self.now.m.now calls.now 0 reports.now) }
    {
        let mut text = Vec::new(alloc);
        self.push_reports(&mut text, reports, calls)?;
        Ok(text)
    }
}

/// The lines of the reports of a run of `m`, with the way of each to its root. Linear in the module, the number of reports
/// and the lengths of their ways.
pub fn report_text(alloc: Global, m: &Module, r: &RunResult) -> Result<Vec<u8>, NoMemory>
    requires { Formed m.now }
    ensures { IfOk result (λ text. text.items ≡ report_text_of m.now r.now) }
{
    report_text_with(alloc, m, r, &NoLines)
}

/// The lines of the reports of a run of `m`, with the way of each to its root, and these lines under each line that names a
/// site. Linear as `report_text` is, beside what adding lines costs.
pub fn report_text_with<L: SiteLines>(
    alloc: Global,
    m: &Module,
    r: &RunResult,
    under: &L,
) -> Result<Vec<u8>, NoMemory>
    requires { Formed m.now }
    ensures { IfOk result (λ text. text.items ≡ reports_with (L.lines under.now) m.now 1 r.now.reports) }
{
    report_text_calling(alloc, m, r, &[], under)
}

/// The same, and below the line of each report those of the calls that stood there, the innermost first: a line for each of the
/// first 64, how many more there are, and for a thread the call that made it. Reports after the last of `calls` have no such
/// lines.
pub fn report_text_calling<L: SiteLines>(
    alloc: Global,
    m: &Module,
    r: &RunResult,
    calls: &[Calls],
    under: &L,
) -> Result<Vec<u8>, NoMemory>
    requires { Formed m.now }
    ensures { IfOk result (λ text. text.items ≡ reports_calling (L.lines under.now) m.now calls.now 0 r.now.reports) }
{
    let reports = r.reports.as_slice();
    if reports.is_empty() {
        return Ok(Vec::new(alloc));
    }
    let roots = roots(alloc, m)?;
    let rooted = Rooted {
        m,
        roots: roots.as_slice(),
        under,
    };
    rooted.text_of(alloc, reports, calls)
}
