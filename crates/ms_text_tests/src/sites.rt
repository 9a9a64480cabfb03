//! The lines of each site of a text.

ghost use Rattle.std.specs.Prelude.{◌≤◌, length};
ghost use Rattle.ms_lex.specs.Tokens.{InOrder};

use crate::cases::{fails, is_other};
use crate::site_cases::{SITED, Sited};
use ms_ir::Form;
use ms_lex::{Token, tokens};
use ms_read_top::read;
use ms_where::SourceMap;
use ms_where_places::marks_in;
use ms_write_values::push_number;
use std::alloc::Global;
use std::test::Fail;

/// How many bytes and tokens a text has at most.
const MOST: usize = 10_000;

/// Adds the lines of each site from 0 to one more than so many, after its number. Whether there was enough memory.
fn push_sites(out: &mut Vec<u8>, map: &SourceMap<'_>, sites: u32) -> bool {
    for site in 0..sites.saturating_add(2) {
        if push_number(out, site as u64).is_err()
            || out.push(b'\n').is_err()
            || map.push_lines(out, site).is_err()
        {
            return false;
        }
    }
    true
}

/// Whether the lines of a text's sites are those that are wanted.
#[tactic(auto, unfolding(ms_text_grammar::specs::Texts::max_bytes))]
fn lines_agree<R: Eprint>(rt: &R, alloc: Global, case: &Sited, found: &[Token]) -> bool
    requires short { length case.now.0.now ≤ 10000 }
    requires few { length found.now ≤ 10000 }
    requires in_order { InOrder found.now (length case.now.0.now) }
{
    let text = case.0;
    if let Ok(m) = read(alloc, text, Form::Instrumented) {
        if let Ok(marks) = marks_in(alloc, text, found, Form::Instrumented) {
            if let Ok(map) = SourceMap::new(alloc, b"text.ll", text, found, &marks, &m) {
                let mut out = Vec::new(alloc);
                return push_sites(&mut out, &map, case.1)
                    && (out.as_slice() == case.2 || is_other(rt, case.2, &out));
            }
        }
    }
    false
}

/// Whether a text has tokens, and the lines of its sites are those that are wanted.
fn agrees<R: Eprint>(rt: &R, alloc: Global, case: &Sited) -> bool {
    if case.0.len() > MOST {
        return false;
    }
    match tokens(alloc, case.0, 10_000) {
        Ok(found) => found.len() <= MOST && lines_agree(rt, alloc, case, &found),
        Err(_) => false,
    }
}

fn all_agree<R: Eprint>(rt: &R, alloc: Global, cases: &[Sited]) -> bool {
    for (number, case) in cases.iter().enumerate() {
        if !agrees(rt, alloc, case) {
            return fails(rt, "row", number);
        }
    }
    true
}

#[test]
fn where_sites_stand(rt: HostRuntime) -> Result<(), Fail> {
    assert!(rt; all_agree(&rt, rt.alloc(), &SITED));
    Ok(())
}
