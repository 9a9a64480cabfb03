//! What holds of the lines of sites.

ghost use Rattle.std.specs.Prelude.{◌≡◌, ℕ, false, List, Some, slice_get};
ghost use Rattle.ms_lex.specs.{Tokens.{Text}, declared.kinds.Token.{Token as Taken}};
ghost use Rattle.ms_ir.specs.{declared.forms.Form.{Form as TextForm}, declared.syntax.Inst.{Inst as Instruction}, declared.syntax.Module.{Module as Code}};
ghost use Rattle.ms_ir.specs.Instructions.{insts_at, site_at};
ghost use Rattle.ms_text_grammar.specs.{Lexemes.{lexemes_of}, Texts.{HasTokens, Reads}};
ghost use Rattle.ms_where_places.specs.{declared.marks.Mark.{Mark as TextMark}, Marks.{AreMarks}, Indented.{IsIndented}, Told.{Told}};
ghost use Rattle.ms_where.specs.{Lines.{lines_of_site}, Numbered.{IsNumbered, IsToldOf}};

/// Each line of a site begins with four blanks, and ends in its only newline.
pub fn law_lines_are_indented()
    ensures { (file : Text) (d : Told) (m : Code) (site : ℕ) → IsIndented (lines_of_site file d m site) }
{}

/// The unmarked instructions of a module are numbered in written order: the one that has a site is that of this number among them.
/// So of a text that reads as the module, the mark that is told of a site is the line of the instruction that has the site.
pub fn law_sites_are_numbered()
    ensures numbered { (m : Code) (f b p : ℕ) (inst : Instruction) → slice_get (insts_at m f b) p ≡ Some inst → inst.marked ≡ false → IsNumbered m f b p inst }
    ensures told { (text : Text) (form : TextForm) (m : Code) (tokens : List Taken) (found : List TextMark) → Reads form text m → HasTokens form text tokens → AreMarks form text tokens found
        → (f b p : ℕ) (inst : Instruction) → slice_get (insts_at m f b) p ≡ Some inst → inst.marked ≡ false → IsToldOf form (lexemes_of text tokens) m found (site_at m f b p) inst }
{}
