//! `SourceMap`: the lines that `--where` shows of a site.

ghost use Rattle.std.specs.Prelude.{◌≡◌, ◌++◌, IfOk, length};
ghost use Rattle.ms_lex.specs.Tokens.{InOrder};
ghost use Rattle.ms_where.specs.Shown.{newlines_before_tokens};
ghost use Rattle.ms_where.specs.Lines as spec;

use crate::lines::newlines_before_tokens;
use crate::sites::site_places;
use crate::source_positions::push_source;
use crate::text_lines::push_text_line;
use crate::{Debug, Variables};
use ms_bits::NoMemory;
use ms_ir::Module;
use ms_lex::Token;
use ms_where_places::{Mark, MarkedText};
use std::alloc::Global;
use std::marker::Model;

/// Where each site of a module stands in its text and in the source. Contracts see the lines that show it, from site 1 on.
#[derive(Drop)]
pub struct SourceMap<'a> {
    /// The name of the text's file.
    file: &'a [u8],
    /// The nodes of the text's metadata.
    debug: Debug<'a>,
    /// The debug record of each instruction's variable.
    variables: Variables<'a>,
    /// Of each site, the place of its mark.
    sites: Vec<usize>,
    /// Of each token, the number of newlines in front of it.
    newlines: Vec<u32>,
}

impl<'a> Model for SourceMap<'a> {
    ghost use Rattle.std.specs.Prelude.{ℕ, List};

    ghost Value = { List (List ℕ) };

    ghost use Rattle.ms_where.specs.SourceMapViews.{lines_in, IsReady};

    ghost view = { lines_in };

    ghost invariant = { IsReady };
}

/// Adds the lines of the instruction whose mark has this place: that of the text, and those of the source.
#[tactic(auto, unfolding(crate::specs::Lines::lines_of_instruction))]
fn push_instruction(
    out: &mut Vec<u8>,
    file: &[u8],
    debug: &Debug<'_>,
    variables: &Variables<'_>,
    newlines: &[u32],
    place: usize,
) -> Result<(), NoMemory>
    requires variables { variables.now ≡ debug.now }
    requires newlines { newlines.now ≡ newlines_before_tokens debug.now.text debug.now.tokens }
    ensures { IfOk result (λ _. out.new.items ≡ out.old.items ++ spec.lines_of_instruction file.now debug.now place) }
{
    let marked = debug.marked();
    match marked.mark(place) {
        None => Ok(()),
        Some(mark) => {
            push_text_line(out, file, marked, newlines, mark)?;
            push_source(out, debug, variables, place, mark)
        }
    }
}

impl<'a> SourceMap<'a> {
    /// Finds where each site of a module stands, whose text this is with its tokens and its marks. The file's name is shown as
    /// it is given. Takes a time linear in the text and the module.
    #[tactic(auto, unfolding(crate::specs::Lines::lines_of_site))]
    pub fn new(
        alloc: Global,
        file: &'a [u8],
        text: &'a [u8],
        tokens: &'a [Token],
        marks: &'a [Mark],
        m: &Module,
    ) -> Result<SourceMap<'a>, NoMemory>
        requires in_order { InOrder tokens.now (length text.now) }
        ensures { IfOk result (λ map. spec.lines_at map
            ≡ spec.lines_of_site file.now (record { text = text.now; tokens = tokens.now; marks = marks.now }) m.now) }
    {
        let marked = MarkedText::new(text, tokens, marks);
        let debug = Debug::new(alloc, marked.copy())?;
        let variables = Variables::new(alloc, marked)?;
        let sites = site_places(alloc, m, marks)?;
        let newlines = newlines_before_tokens(alloc, text, tokens)?;
        Ok(SourceMap {
            file,
            debug,
            variables,
            sites,
            newlines,
        })
    }

    /// Adds the lines of a site, or none where there is no such site.
    pub fn push_lines(&self, out: &mut Vec<u8>, site: u32) -> Result<(), NoMemory>
        ensures { IfOk result (λ _. out.new.items ≡ out.old.items ++ spec.lines_at self.now site) }
    {
        if site == 0 {
            return Ok(());
        }
        match self.sites.get(site as usize - 1) {
            None => Ok(()),
            Some(place) => push_instruction(
                out,
                self.file,
                &self.debug,
                &self.variables,
                &self.newlines,
                *place,
            ),
        }
    }
}
