//! What is printed under a line that names a site: with `--where` where it stands in the source (`ms_top`), else nothing.
ghost use Rattle.std.specs.Prelude.{◌≡◌, ℕ, List, [], ◌++◌, IfOk};
ghost use Rattle.ms_report.specs.WithLines.{under_line};

use ms_bits::NoMemory;

/// What has the lines that are printed under a line that names a site.
pub trait SiteLines {
    /// The text of the lines under each site.
    ghost lines: { Self → ℕ → List ℕ };

    /// Adds the lines under a site.
    fn push_lines(&self, text: &mut Vec<u8>, site: u32) -> Result<(), NoMemory>
        ensures { IfOk result (λ _. text.new.items ≡ text.old.items ++ lines self.now site) };
}

/// No lines under any site.
#[derive(Drop)]
pub struct NoLines;

impl SiteLines for NoLines {
    ghost lines = { λ none site. [] };

    fn push_lines(&self, _text: &mut Vec<u8>, _site: u32) -> Result<(), NoMemory> {
        Ok(())
    }
}

/// Adds the lines under a line that names this site; nothing under one that names none.
pub fn push_under<L: SiteLines>(
    text: &mut Vec<u8>,
    site: Option<u32>,
    under: &L,
) -> Result<(), NoMemory>
    ensures { IfOk result (λ _. text.new.items ≡ text.old.items ++ under_line (L.lines under.now) site) }
{
    match site {
        Some(site) => under.push_lines(text, site),
        None => Ok(()),
    }
}
