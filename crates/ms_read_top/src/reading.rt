//! The public call that reads a whole text, and its contract.

ghost use Rattle.std.specs.Prelude.{◌≡◌, ◌≢◌, ◌≤◌, ℕ, length};
ghost use Rattle.ms_lex.specs.{declared.errors.LexError.{LexError as Cause}, Tokens.{tokens_of}};
ghost use Rattle.ms_ir.specs.declared.syntax.Module.{Module as Found};
ghost use Rattle.ms_text_grammar.specs.Texts.{Reads, max_bytes, max_tokens};
ghost use Rattle.ms_read_body.specs.declared.errors.What.{What};
ghost use Rattle.ms_read_top.specs.Reading.{AnswersExactly, IsTextRefused};

use crate::answers::answer_for;
use ms_ir::{Form, Module};
use ms_lex::LexError;
use ms_read_body::ReadError;
use std::alloc::Global;

/// Reads a module from a text of at most 2^22 bytes in the plain form, and of at most 2^27 in the instrumented one. Its
/// time is linear in the text.
///
/// # Errors
///
/// - `Lex` where the text has no tokens, or more than 2^20 in the plain form and 2^25 in the instrumented one.
/// - `Refused` at the first token that can't stand: 4 where the tokens through it begin no text of the grammar, 5 where it
///   shows a construct that is left out besides, 8 at a name or a mark that the form doesn't have, 7 at a written number
///   that isn't the next one or is above 2^32 - 1, and 6 where it passes a limit. Of two at one token the first of these is
///   answered.
/// - `NoMemory` where memory ran out.
#[tactic(auto, using(crate::proofs::Exactly::module_exactly, crate::proofs::Exactly::lex_exactly, crate::proofs::Exactly::refused_exactly, crate::proofs::Exactly::lexer_has_memory))]
pub fn read(alloc: Global, text: &[u8], form: Form) -> Result<Module, ReadError>
    requires { length text.now ≤ max_bytes form }
    // Each answer comes exactly where it is so, unless memory ran out.
    ensures module { (m : Found) → AnswersExactly result (Ok m) (Reads form text.now m) }
    ensures lex { (cause : Cause) → AnswersExactly result (Err (ReadError.Lex cause)) (tokens_of text.now (max_tokens form) ≡ Err cause) }
    ensures refused { (number : ℕ) (what : What) (token place : ℕ) →
        AnswersExactly result (Err (ReadError.Refused number what token place)) (IsTextRefused form text.now number what token place) }
    ensures wanting { result ≢ Err (ReadError.Lex LexError.NoMemory) }
{
    answer_for(alloc, text, form)
}
