//! What holds of the marks of a text.

ghost use Rattle.std.specs.{Prelude.{◌≡◌, List}, List.{AllZip}};
ghost use Rattle.ms_lex.specs.declared.kinds.Token.{Token as Taken};
ghost use Rattle.ms_ir.specs.{declared.forms.Form.{Form as TextForm}, declared.syntax.Module.{Module as Found}};
ghost use Rattle.ms_text_grammar.specs.{Bounds.{instructions_among}, Lexemes.{lexemes_of}, Texts.{HasTokens, Reads}};
ghost use Rattle.ms_where_places.specs.declared.marks.Mark.{Mark as TextMark};
ghost use Rattle.ms_where_places.specs.Instructions.{IsLineOf, instruction_marks, instructions_in, module_insts};
ghost use Rattle.ms_where_places.specs.Marks.{AreMarks};

/// A text has one list of marks in a form.
pub fn law_marks_are_one(text: &[u8])
    ensures { (form : TextForm) (tokens : List Taken) (found other : List TextMark) → AreMarks form text.now tokens found
        → AreMarks form text.now tokens other → found ≡ other }
{}

/// Of a text that reads as a module the marks of instructions are the module's instructions in written order, one by one,
/// and so they are as many.
pub fn law_instructions_are_told(text: &[u8])
    ensures one_by_one { (form : TextForm) (m : Found) (tokens : List Taken) (found : List TextMark) → Reads form text.now m
        → HasTokens form text.now tokens → AreMarks form text.now tokens found
        → AllZip (IsLineOf form (lexemes_of text.now tokens)) (instruction_marks found) (module_insts m) }
    ensures counted { (form : TextForm) (m : Found) (tokens : List Taken) (found : List TextMark) → Reads form text.now m
        → HasTokens form text.now tokens → AreMarks form text.now tokens found → instructions_in found ≡ instructions_among m.funcs }
{}
