//! Laws of the layout's bytes: cut into tokens again they are the pieces that were written. A piece is here a token with the
//! bytes from it to the next one.

ghost use Rattle.std.specs.Prelude.{◌≡◌, ◌≤◌, ◌++◌, ℕ, List, IsTrue, length, Ok};
ghost use Rattle.ms_lex.specs.{Names.{decoded}, Tokens.{Text, tokens_of}};
ghost use Rattle.ms_ir.specs.{declared.syntax.Name.TheVariants.{Text as Called}, declared.syntax.Module.{Module}};
ghost use Rattle.ms_text_grammar.specs.Lexemes.{lexemes_of};
ghost use Rattle.ms_text_grammar.specs.{LayoutApart.{AreApart, AreWholeLines, spans}, LayoutModules.{module_pieces, written}};
ghost use Rattle.ms_text_grammar.specs.LayoutNames.{are_bytes, name_text, quoted};
ghost use Rattle.ms_text_grammar.specs.LayoutPieces.{Piece, render, tokens_in, Line, pieces_of};

/// The text of pieces whose tokens stand apart has these tokens, and no others.
pub fn law_pieces_are_cut_back()
    ensures tokens { (pieces : List Piece) (limit : ℕ) → AreApart pieces → length pieces ≤ limit → tokens_of (render pieces) limit ≡ Ok (spans 0 pieces) }
    ensures lexemes { (pieces : List Piece) → AreApart pieces → lexemes_of (render pieces) (spans 0 pieces) ≡ tokens_in pieces }
{}

/// In lines of whole tokens every token stands apart from what follows it, also where other pieces follow the lines.
pub fn law_lines_stand_apart()
    ensures { (lines : List Line) (after : List Piece) → AreWholeLines lines → AreApart after → AreApart (pieces_of lines ++ after) }
{}

/// A string and a name of bytes, whichever they are, stand for the bytes that they were written of.
pub fn law_names_are_spelled_back()
    ensures strings { (bytes : Text) → IsTrue (are_bytes bytes) → decoded (quoted bytes) ≡ bytes }
    ensures names { (bytes : Text) → IsTrue (are_bytes bytes) → decoded (name_text (Called bytes)) ≡ bytes }
{}

/// The text of a module, whichever it is, has the tokens of its layout, and they are the lexemes that were written.
pub fn law_modules_are_cut_back()
    ensures apart { (m : Module) → AreApart (module_pieces m) }
    ensures tokens { (m : Module) (limit : ℕ) → length (module_pieces m) ≤ limit → tokens_of (written m) limit ≡ Ok (spans 0 (module_pieces m)) }
    ensures lexemes { (m : Module) → lexemes_of (written m) (spans 0 (module_pieces m)) ≡ tokens_in (module_pieces m) }
{}
