//! Laws of the grammar: each text has one reading or one stop, within the limits; a plain text is an instrumented one. j and k
//! are places of tokens, c and d causes.

ghost use Rattle.std.specs.Prelude.{◌≡◌, ◌≤◌, ◌↔◌, ◌⊎◌, ℕ, ◌+◌, List, length};
ghost use Rattle.ms_lex.specs.{declared.kinds.Token.{Token}, Tokens.{Text}};
ghost use Rattle.ms_ir.specs.{declared.syntax.Func.{Func}, declared.syntax.Module.{Module}, declared.forms.Form.{Form}};
ghost use Rattle.ms_ir.specs.declared.forms.Form.TheVariants.{Plain, Instrumented};
ghost use Rattle.ms_text_grammar.specs.{declared.refusals.Cause.{Cause}, Answers.{answer_of, reads, stops}};
ghost use Rattle.ms_text_grammar.specs.{Bodies.{max_instructions}, Bounds.{WithinLimits}, Functions.{function}};
ghost use Rattle.ms_text_grammar.specs.{Lexemes.{Lexeme}, Modules.{instructions_of}};
ghost use Rattle.ms_text_grammar.specs.Texts.{HasTokens, Reads, ReadsUpTo, Stops, max_bytes};

/// A text reads as one module, or stops at one token for one cause, and never both.
pub fn law_one_reading_or_stop()
    ensures one_reading { (form : Form) (text : Text) (m n : Module) → Reads form text m → Reads form text n → m ≡ n }
    ensures one_stop { (form : Form) (text : Text) (j k : ℕ) (c d : Cause)
        → Stops form text j c → Stops form text k d → (j ≡ k) × (c ≡ d) }
    ensures always_either { (form : Form) (text : Text) (tokens : List Token) → HasTokens form text tokens
        → ((m : Module) × Reads form text m) ⊎ ((k : ℕ) × (c : Cause) × Stops form text k c) }
    ensures never_both { (form : Form) (text : Text) (m : Module) (k : ℕ) (c : Cause)
        → Reads form text m → Stops form text k c → ⊥ }
{}

/// The function that finds it out says what the relations say, of every text that isn't too long.
pub fn law_answers_are_exact()
    ensures read { (form : Form) (text : Text) (m : Module)
        → length text ≤ max_bytes form → (answer_of form text ≡ reads m) ↔ Reads form text m }
    ensures stopped { (form : Form) (text : Text) (k : ℕ) (c : Cause)
        → length text ≤ max_bytes form → (answer_of form text ≡ stops k c) ↔ Stops form text k c }
{}

/// What is read keeps the limits on what is counted. `before` is how many instructions stand in front of a function.
pub fn law_limits_are_kept()
    ensures of_a_module { (form : Form) (text : Text) (m : Module) → Reads form text m → WithinLimits form m }
    ensures of_a_function { (form : Form) (before : ℕ) (ts : List Lexeme) (f : Func) (rest : List Lexeme)
        → before ≤ max_instructions form → ReadsUpTo (function form before) ts f rest → before + instructions_of f.blocks ≤ max_instructions form }
{}

/// Every text of the plain form is one of the instrumented form, of the same module.
pub fn law_plain_is_instrumented()
    ensures same_module { (text : Text) (m : Module) → Reads Plain text m → Reads Instrumented text m }
{}
