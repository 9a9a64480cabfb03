//! The limit on the tokens of a text, by its form.

ghost use Rattle.std.specs.Prelude.{◌≡◌};
ghost use Rattle.ms_text_grammar.specs.Texts.{max_tokens as most_tokens};

use ms_ir::Form;

/// How many tokens a text may have.
#[tactic(auto, unfolding(ms_text_grammar::specs::Texts::max_tokens))]
pub fn max_tokens(form: Form) -> u32
    ensures { result ≡ most_tokens form }
{
    match form {
        Form::Plain => 1 << 20,
        Form::Instrumented => 1 << 25,
    }
}
