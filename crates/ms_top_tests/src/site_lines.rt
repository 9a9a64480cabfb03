//! Texts with lines under each line that names a site.
ghost use Rattle.std.specs.Prelude.{◌≡◌, ◌+◌, ◌%◌, ◌++◌, ◌∷◌, true, is_some, IfOk, codes};
ghost use Rattle.ms_check_valid.specs.Formed.{Formed};
ghost use Rattle.ms_check.specs.Faults.{fault_of};

use crate::texts::{REPORTS, TWO_UNSET, reports_of, result_of};
use ms_bits::{List, NoMemory, Trap};
use ms_check::CheckError;
use ms_ir::{Form, Module};
use ms_read_top::read;
use ms_report::{Refusal, SiteLines, closing_with, refusal_line_with, report_text_with};
use ms_runs::{End, RunResult};
use ms_top_rows::failing::is_text;
use std::alloc::{AllocError, Global};
use std::test::Fail;

/// Says the number of each site below ten under its line.
struct Numbers;

impl SiteLines for Numbers {
    ghost lines = { λ _ site. codes "    number " ++ (48 + site % 10) ∷ codes "\n" };

    fn push_lines(&self, text: &mut Vec<u8>, site: u32) -> Result<(), NoMemory> {
        text.extend_from_slice(b"    number ")?;
        text.push(b'0' + (site % 10) as u8)?;
        text.push(b'\n')?;
        Ok(())
    }
}

/// The lines of three reports; the second has an unknown origin, and neither a kind nor a site of the module.
const REPORTED: &str =
    "report 1: exit at site 6 in @main, part 0, bits 0xff of i32\n    number 6\n  origin 3: stored at site 4 in @main\n    number 4\n  origin 2: alloca at site 2 in @main\n    number 2\nreport 2: kind 13 at site 7 in ?, part 1, bits 0x10 of i64\n    number 7\n  origin 9: unknown\nreport 3: kind 0 at site 1 in @main, part 0, bits 0x1 of i1\n    number 1\n  origin 1: alloca at site 1 in @main\n    number 1\n";

/// How a run ends, and the closing lines.
static ENDS: [(End, &str); 4] = [
    (
        End::Trap {
            kind: Trap::Depth,
            site: 5,
        },
        "end: trap depth at site 5 in @main\n    number 5\nreports: 0\nblind: 0\nverdict: clean\n",
    ),
    (
        End::Exit(6),
        "end: exit 6\nreports: 0\nblind: 0\nverdict: clean\n",
    ),
    (
        End::Reported,
        "end: reported\nreports: 0\nblind: 0\nverdict: clean\n",
    ),
    (
        End::Spent,
        "end: spent\nreports: 0\nblind: 0\nverdict: clean\n",
    ),
];

/// Whether the lines of a run's reports are those of `REPORTED`.
fn are_reported<R: Eprint>(rt: &R, alloc: Global, m: &Module, r: &RunResult) -> bool
    requires { Formed m.now }
{
    match report_text_with(alloc, m, r, &Numbers) {
        Ok(text) => is_text(rt, REPORTED, text.as_slice()),
        Err(_) => false,
    }
}

/// Whether the closing lines of a run are these.
fn is_closed<R: Eprint>(rt: &R, alloc: Global, m: &Module, r: &RunResult, lines: &str) -> bool
    requires { Formed m.now }
{
    match closing_with(alloc, m, r, true, &Numbers) {
        Ok(text) => is_text(rt, lines, text.as_slice()),
        Err(_) => false,
    }
}

/// Whether the closing lines of a run that ends as each row of `ENDS` are those of the row.
fn all_are_closed<R: Eprint>(rt: &R, alloc: Global, m: &Module) -> bool
    requires { Formed m.now }
{
    for (end, lines) in &ENDS {
        let r = result_of(alloc, *end, Vec::new(alloc), 0);
        if !is_closed(rt, alloc, m, &r, lines) {
            return false;
        }
    }
    true
}

/// Whether reports and closing lines of runs of a module have the lines under their sites.
fn are_printed<R: Eprint>(rt: &R, alloc: Global, m: &Module) -> bool
    requires { Formed m.now }
{
    match reports_of(alloc, &REPORTS) {
        Ok(reports) => {
            let r = result_of(alloc, End::Reported, reports, 0);
            are_reported(rt, alloc, m, &r) && all_are_closed(rt, alloc, m)
        }
        Err(_) => false,
    }
}

#[tactic(auto, unfolding(ms_text_grammar::specs::Texts::max_bytes))]
fn agrees<R: Eprint>(rt: &R, alloc: Global, text: &[u8]) -> bool {
    if text.len() > 1 << 20 {
        return false;
    }
    match read(alloc, text, Form::Plain) {
        Ok(m) => are_printed(rt, alloc, &m),
        Err(_) => false,
    }
}

/// Whether a module that isn't valid is refused with these lines.
fn is_refused<R: Eprint>(rt: &R, alloc: Global, cause: CheckError, lines: &str) -> bool
    requires { is_some (fault_of cause) ≡ true }
{
    let cause = Refusal::Check(cause);
    match refusal_line_with(alloc, &cause, &Numbers) {
        Ok(text) => is_text(rt, lines, text.as_slice()),
        Err(_) => false,
    }
}

/// Whether a path from the block 0 over the block 2 is said with the lines of its use.
fn is_path<R: Eprint>(rt: &R, alloc: Global) -> Result<bool, AllocError> {
    let path = List::from_vec(Vec::from_slice(alloc, &[0, 2])?);
    let lines = "refused 15: undefined at site 8, path 0 2\n    number 8\n";
    Ok(is_refused(rt, alloc, CheckError::Undefined { site: 8, path }, lines))
}

/// Whether the line of each other cause that names a site has the lines under it, and the line of one that names none has none.
fn are_refused<R: Eprint>(rt: &R, alloc: Global) -> bool {
    is_refused(
        rt,
        alloc,
        CheckError::TypeMismatch {
            site: 3,
            operand: 1,
        },
        "refused 11: type at site 3, operand 1\n    number 3\n",
    ) && is_refused(
        rt,
        alloc,
        CheckError::BadPhi { site: 4 },
        "refused 12: phi at site 4\n    number 4\n",
    ) && is_refused(
        rt,
        alloc,
        CheckError::BadMark { site: 9 },
        "refused 16: mark at site 9\n    number 9\n",
    ) && is_refused(rt, alloc, CheckError::NoMain, "refused 13: no main\n")
}

#[test]
fn lines_stand_under_their_sites(rt: HostRuntime) -> Result<(), Fail> {
    assert!(rt;
        agrees(&rt, rt.alloc(), TWO_UNSET.as_bytes())
            && are_refused(&rt, rt.alloc())
            && is_path(&rt, rt.alloc()).ok() == Some(true)
    );
    Ok(())
}
