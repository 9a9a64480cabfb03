//! What holds of the size of every module that is read.

ghost use Rattle.ms_lex.specs.Tokens.{Text};
ghost use Rattle.ms_ir.specs.{declared.syntax.Module.{Module}, declared.forms.Form.{Form}};
ghost use Rattle.ms_ir.specs.declared.forms.Form.TheVariants.{Plain};
ghost use Rattle.ms_text_grammar.specs.{Bodies.{max_instructions}, Texts.{Reads}};
ghost use Rattle.ms_check_valid.specs.{ReadLimits.{ReadLimits}, Uninstrumented.{CanInstrument}};
ghost use Rattle.ms_text_laws.specs.Fits.{FitsForm};

/// Every module that is read keeps the limits of the form of its text: on instructions, functions, globals, parameters,
/// nesting, indices and names. So it is one that an instrumented text can hold, with at most 100 arguments of `printf`.
pub fn limits_are_kept()
    ensures limits { (form : Form) (text : Text) (m : Module) → Reads form text m → ReadLimits (max_instructions form) m }
    ensures fits { (form : Form) (text : Text) (m : Module) → Reads form text m → FitsForm m }
{}

/// Every module that is read from a plain text can be instrumented: no instruction is marked, no name is reserved, and it
/// keeps the limits on instructions, operands, parameters and globals.
pub fn plain_modules_can_be_instrumented()
    ensures { (text : Text) (m : Module) → Reads Plain text m → CanInstrument m }
{}
