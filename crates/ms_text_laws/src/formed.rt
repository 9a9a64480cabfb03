//! What holds of every module that is read.

ghost use Rattle.std.specs.Prelude.{IsTrue};
ghost use Rattle.ms_lex.specs.Tokens.{Text};
ghost use Rattle.ms_ir.specs.{declared.syntax.Module.{Module}, declared.forms.Form.{Form}};
ghost use Rattle.ms_text_grammar.specs.Texts.{Reads};
ghost use Rattle.ms_check_valid.specs.{Formed.{Formed}, FormedNames.{are_bytes}};

/// Every module that is read from a text of bytes is formed: each type, number, flag and name stands where one of its form
/// may stand, numbers are in range, and each block is phis, other instructions and one terminator.
pub fn read_modules_are_formed()
    ensures { (form : Form) (text : Text) (m : Module) → IsTrue (are_bytes text) → Reads form text m → Formed m }
{}
