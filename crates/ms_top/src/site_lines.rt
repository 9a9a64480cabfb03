//! The lines of `--where`, which show where each site stands, found by `ms_where`.
ghost use Rattle.std.specs.Prelude.{◌≡◌, length, IfOk};
ghost use Rattle.ms_lex.specs.Tokens.{InOrder};
ghost use Rattle.ms_text_grammar.specs.Texts.{HasTokens};
ghost use Rattle.ms_where_places.specs.Marks.{AreMarks};
ghost use Rattle.ms_where.specs.Lines.{lines_at, lines_of_site};
ghost use Rattle.ms_top.specs.Parts.{IsModuleText};

use ms_bits::NoMemory;
use ms_ir::{Form, Module};
use ms_lex::{LexError, Token, tokens};
use ms_read_top::max_tokens;
use ms_report::SiteLines;
use ms_text_grammar::Cause;
use ms_where::SourceMap;
use ms_where_places::{Mark, marks_in};
use std::alloc::{AllocError, Global};

/// Where each site of a module stands in its text, and in the source that the text was made of.
#[derive(Drop)]
pub struct Located<'a> {
    pub map: SourceMap<'a>,
}

impl SiteLines for Located<'_> {
    ghost lines = { λ located. lines_at located.map };

    fn push_lines(&self, text: &mut Vec<u8>, site: u32) -> Result<(), NoMemory> {
        self.map.push_lines(text, site)
    }
}

/// The tokens of a text, and what stands in them.
#[derive(Drop)]
pub struct Places {
    pub tokens: Vec<Token>,
    pub marks: Vec<Mark>,
}

impl Places {
    /// The tokens of a text that reads as a module, and what stands in them.
    pub fn of(alloc: Global, text: &[u8], form: Form) -> Result<Places, NoMemory>
        requires { IsModuleText form text.now }
        ensures tokens { IfOk result (λ places. HasTokens form text.now places.tokens.items) }
        ensures in_order { IfOk result (λ places. InOrder places.tokens.items (length text.now)) }
        ensures marks { IfOk result (λ places. AreMarks form text.now places.tokens.items places.marks.items) }
    {
        let tokens = tokens_of(alloc, text, form)?;
        let marks = marks_of(alloc, text, &tokens, form)?;
        Ok(Places { tokens, marks })
    }

    /// Where each site of the module stands in this text, which is that of the file with the name `file`.
    pub fn located<'a>(
        &'a self,
        alloc: Global,
        file: &'a [u8],
        text: &'a [u8],
        m: &Module,
    ) -> Result<Located<'a>, NoMemory>
        requires { InOrder self.now.tokens.items (length text.now) }
        ensures { IfOk result (λ located. lines_at located.map
            ≡ lines_of_site file.now (record { text = text.now; tokens = self.now.tokens.items; marks = self.now.marks.items }) m.now) }
    {
        let map = SourceMap::new(alloc, file, text, &self.tokens, &self.marks, m)?;
        Ok(Located { map })
    }
}

/// The tokens of a text that reads as a module.
#[tactic(auto, using(crate::proofs::Placing::cut_again, crate::proofs::Placing::cut_wants_memory))]
fn tokens_of(alloc: Global, text: &[u8], form: Form) -> Result<Vec<Token>, NoMemory>
    requires { IsModuleText form text.now }
    ensures has { IfOk result (λ found. HasTokens form text.now found.items) }
    ensures in_order { IfOk result (λ found. InOrder found.items (length text.now)) }
{
    match tokens(alloc, text, max_tokens(form)) {
        Ok(found) => Ok(found),
        Err(cause) => {
            prove!(matches!(&cause, LexError::NoMemory));
            Err(AllocError)
        }
    }
}

/// What stands in the tokens of a text that reads as a module.
#[tactic(auto, using(crate::proofs::Placing::few_again, crate::proofs::Placing::marks_want_memory))]
fn marks_of(alloc: Global, text: &[u8], tokens: &[Token], form: Form) -> Result<Vec<Mark>, NoMemory>
    requires reads { IsModuleText form text.now }
    requires has { HasTokens form text.now tokens.now }
    requires in_order { InOrder tokens.now (length text.now) }
    ensures { IfOk result (λ found. AreMarks form text.now tokens.now found.items) }
{
    match marks_in(alloc, text, tokens, form) {
        Ok(found) => Ok(found),
        Err(cause) => {
            prove!(matches!(&cause, Cause::NoMemory));
            Err(AllocError)
        }
    }
}
