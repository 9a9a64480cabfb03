//! Laws of the layout: a module's text is read as that module, and no two modules have one text. `tokens_in (module_pieces m)`
//! are the tokens that a module is written as, `written m` is its text.

ghost use Rattle.std.specs.Prelude.{◌≡◌, ◌<◌, ◌≤◌, ◌^◌, ℕ, [], Err, decimal};
ghost use Rattle.ms_bits.specs.Signed.{signed, wrap};
ghost use Rattle.ms_lex.specs.declared.errors.LexError.{LexError};
ghost use Rattle.ms_lex.specs.{declared.errors.LexError.TheVariants.{TooManyTokens}, Grammar.{done, run}};
ghost use Rattle.ms_lex.specs.Tokens.{tokens_of};
ghost use Rattle.ms_lex.specs.Numbers as read;
ghost use Rattle.ms_ir.specs.{declared.syntax.Module.{Module}, declared.forms.Form.TheVariants.{Instrumented}};
ghost use Rattle.ms_text_grammar.specs.{declared.refusals.Cause.{Cause}, Lexemes.{end_of_text}, Modules.{module_rule}};
ghost use Rattle.ms_text_grammar.specs.Texts.{Reads, Stops, max_tokens};
ghost use Rattle.ms_check_valid.specs.Formed.{Formed};
ghost use Rattle.ms_text_grammar.specs.{LayoutModules.{module_pieces, written}, LayoutNames.{signed_text}, LayoutPieces.{tokens_in}};
ghost use Rattle.ms_text_laws.specs.Fits.{FitsForm, FitsText, NamesLimit};

/// Digits of a number below 2^64 are read as that number. So is the signed text of a word of an integer type, modulo 2 to
/// the power of the type's width.
pub fn numbers_are_read_back()
    ensures digits { (n : ℕ) → n < 2 ^ 64 → read.decimal (decimal n) ≡ n }
    ensures words { (width n : ℕ) → 1 ≤ width → width ≤ 64 → n < 2 ^ width → wrap width (read.signed_decimal (signed_text (signed width n))) ≡ n }
{}

/// What is written of a formed module is read as that module where an instrumented text can hold it: its tokens where the
/// module is within the limits of that form, and its text where the text is within them too.
pub fn layouts_are_read_back()
    ensures tokens { (m : Module) → Formed m → FitsForm m → run end_of_text (module_rule Instrumented) (tokens_in (module_pieces m)) ≡ done m [] }
    ensures texts { (m : Module) → Formed m → FitsText m → Reads Instrumented (written m) m }
{}

/// No two formed modules are written alike, whatever their size: neither with the same tokens, nor as the same text.
pub fn layouts_are_injective()
    ensures tokens { (m n : Module) → Formed m → Formed n → tokens_in (module_pieces m) ≡ tokens_in (module_pieces n) → m ≡ n }
    ensures texts { (m n : Module) → Formed m → Formed n → written m ≡ written n → m ≡ n }
{}

/// What is written of a formed module is never misread, whatever its size: an instrumented text reads as that module or as none,
/// and it is refused for a limit or for numbering alone. So it has too many tokens, or it stops at one for such a cause.
pub fn layouts_are_never_misread()
    ensures reads { (m : Module) → Formed m → (k : Module) → Reads Instrumented (written m) k → k ≡ m }
    ensures stops { (m : Module) → Formed m → (token : ℕ) (cause : Cause) → Stops Instrumented (written m) token cause → NamesLimit cause }
    ensures tokens { (m : Module) (error : LexError) → tokens_of (written m) (max_tokens Instrumented) ≡ Err error → error ≡ TooManyTokens }
{}
