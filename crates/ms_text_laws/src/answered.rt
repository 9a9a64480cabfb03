//! A law: every text is read, or stops at a token, or has no tokens.

ghost use Rattle.std.specs.Prelude.{◌≡◌, ◌≤◌, ◌⊎◌, ℕ, length, Err, is_some, IsTrue};
ghost use Rattle.ms_lex.specs.{declared.errors.LexError.{LexError}, declared.errors.LexError.TheVariants.{NoMemory}};
ghost use Rattle.ms_lex.specs.Tokens.{Text, tokens_of};
ghost use Rattle.ms_ir.specs.{declared.syntax.Module.{Module}, declared.forms.Form.{Form}};
ghost use Rattle.ms_text_grammar.specs.{declared.refusals.Cause.{Cause}, Causes.{printed_number}};
ghost use Rattle.ms_text_grammar.specs.Texts.{Reads, Stops, max_bytes, max_tokens};

/// Every text that isn't too long reads as a module, or stops at a token for a cause that has a printed number, or has no
/// tokens for a cause other than running out of memory.
pub fn every_text_is_answered()
    ensures answered { (form : Form) (text : Text) → length text ≤ max_bytes form
        → ((m : Module) × Reads form text m) ⊎ (((k : ℕ) × (c : Cause) × Stops form text k c) ⊎ ((e : LexError) × (tokens_of text (max_tokens form) ≡ Err e))) }
    ensures numbered { (form : Form) (text : Text) (k : ℕ) (c : Cause) → Stops form text k c → IsTrue (is_some (printed_number c)) }
    ensures memory_is_no_cause { (text : Text) (most : ℕ) → ¬ (tokens_of text most ≡ Err NoMemory) }
{}
