//! Modules of which the laws speak, computed by the prover.
ghost use Rattle.std.specs.Prelude.{◌≡◌};
ghost use Rattle.ms_ir.specs.declared.forms.Form.TheVariants.{Plain};
ghost use Rattle.ms_text_grammar.specs.Answers.{answer_of, reads};
ghost use Rattle.ms_runs_examples.specs.Faults.{undefined_on_a_path};
ghost use Rattle.ms_check_valid.specs.Formed.{Formed};
ghost use Rattle.ms_runs_examples.specs.WrittenModules.{odd_names, many_parts, marked_parts};
ghost use Rattle.ms_runs_examples.specs.UndefinedTexts.{undefined_on_a_path_text};
ghost use Rattle.ms_text_laws.specs.Fits.{FitsText};

/// Modules with odd names, with all parts of modules, and with marks are formed, and an instrumented text can hold them.
pub fn modules_fit()
    ensures odd_names { Formed odd_names }
    ensures odd_names_fit { FitsText odd_names }
    ensures many_parts { Formed many_parts }
    ensures many_parts_fit { FitsText many_parts }
    ensures marked_parts { Formed marked_parts }
    ensures marked_parts_fit { FitsText marked_parts }
{}

/// A module in which a value isn't defined on one path, which is read all the same.
pub fn undefined_value()
    ensures { answer_of Plain undefined_on_a_path_text ≡ reads undefined_on_a_path }
{}
