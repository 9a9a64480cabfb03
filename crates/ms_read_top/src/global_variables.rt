//! Reads global variables (LLVM Language Reference, "Global Variables").

ghost use Rattle.std.specs.Prelude.{◌≡◌, IfOk, true};
ghost use Rattle.ms_lex.specs.Grammar.{give, loop};
ghost use Rattle.ms_text_grammar.specs.{Lexemes.{name_in}, Steps.{comma_begins}, Types.{max_depth}};
ghost use Rattle.ms_text_grammar.specs.Values.{init_to as init_piece};
ghost use Rattle.ms_text_grammar.specs.Modules as spec;
ghost use Rattle.ms_read_cursor.specs.Reading.{Gives, Judges, front, run};
ghost use Rattle.ms_read_top.specs.Globals as globals;

use ms_bits::{Boxed, NoMemory};
use ms_ir::{Form, GlobalVar, Init, Name, Ty};
use ms_read_cursor::{Lexeme, Tokens, Turn, repeat};
use ms_read_values::{boxed_type, init_to, is_attribute_word, kind_of, meta};
use ms_text_grammar::{Cause, Outside, Symbol};
use std::alloc::Global;

/// How many arrays and structs may be open at once.
const MAX_DEPTH: u8 = 32;

/// Word of linkage after word of linkage, which are read over.
#[derive(Clone, Copy)]
struct EachLinkageWord {}

impl Turn for EachLinkageWord {
    type State = ();

    ghost use Rattle.ms_lex.specs.Grammar.{give};
    ghost use Rattle.ms_text_grammar.specs.Modules.{linkage_word_begins};

    ghost begins = { λ rule. linkage_word_begins };

    ghost body = { λ rule u t. give tt };

    fn goes_on(&self, _state: &(), tokens: &Tokens<'_>) -> Result<bool, Cause> {
        Ok(is_attribute_word(tokens.peek()))
    }

    fn turn(&self, _state: (), tokens: &mut Tokens<'_>) -> Result<(), Cause> {
        tokens.advance();
        Ok(())
    }
}

/// Whether a global is constant, by the token `global` or `constant`.
fn global_kind_of(token: &Lexeme<'_>) -> Result<bool, Cause>
    ensures { Judges (spec.global_kind_of token.now) result }
{
    match token.symbol() {
        Symbol::GlobalWord => Ok(false),
        Symbol::ConstantWord => Ok(true),
        Symbol::ExternalWord => Err(Cause::Outside(Outside::ExternalGlobal)),
        _ => Err(token.refusal()),
    }
}

/// Reads an alignment, a section or attached metadata, after its comma.
///
/// # Errors
///
/// `Syntax` or `Outside` at a token that is another, and those of `kind_of` at the kind of metadata.
#[tactic(auto, unfolding(ms_text_grammar::specs::Modules::global_suffix))]
pub fn global_suffix(tokens: &mut Tokens<'_>, form: Form) -> Result<(), Cause>
    ensures { Gives (run (spec.global_suffix form) tokens.old) result tokens.new }
{
    match tokens.peek() {
        Symbol::Align => {
            tokens.advance();
            tokens.word(Symbol::Number)
        }
        Symbol::Section => {
            tokens.advance();
            tokens.word(Symbol::Str)
        }
        _ => {
            kind_of(form, &tokens.lexeme())?;
            tokens.advance();
            meta(tokens)
        }
    }
}

/// What may stand after a global, each after its comma.
#[derive(Clone, Copy)]
struct EachSuffix {
    form: Form,
}

impl Turn for EachSuffix {
    type State = ();

    ghost use Rattle.std.specs.Prelude.{◌≡◌, IfOk, true};
    ghost use Rattle.ms_text_grammar.specs.{Modules.{global_suffix}, Steps.{comma_begins}};

    ghost begins = { λ rule. comma_begins (λ u. true) };

    ghost body = { λ rule u comma. global_suffix rule.form };

    fn goes_on(&self, _state: &(), tokens: &Tokens<'_>) -> Result<bool, Cause> {
        Ok(tokens.sees(Symbol::Comma))
    }

    fn turn(&self, _state: (), tokens: &mut Tokens<'_>) -> Result<(), Cause> {
        tokens.advance();
        global_suffix(tokens, self.form)
    }
}

/// Reads the initial value of a global of this type onto the heap.
fn boxed_init(tokens: &mut Tokens<'_>, form: Form, ty: &Ty) -> Result<Boxed<Init>, Cause>
    ensures { Gives (run (init_piece form max_depth ty.now) tokens.old) result tokens.new }
{
    let init = init_to(tokens, form, MAX_DEPTH, ty)?;
    Ok(Boxed::new(tokens.alloc(), init)?)
}

/// The global of the name that a token is.
fn global_of(
    alloc: Global,
    name: &Lexeme<'_>,
    constant: bool,
    ty: Boxed<Ty>,
    init: Boxed<Init>,
) -> Result<Boxed<GlobalVar>, NoMemory>
    ensures { IfOk result (λ g. g ≡ record { name = Name.Text (name_in name.now); constant = constant; ty = ty; init = init }) }
{
    let text = name.small_name(alloc)?;
    let found = GlobalVar {
        name: Name::Text(text),
        constant,
        ty: ty.into_inner(),
        init: init.into_inner(),
    };
    Boxed::new(alloc, found)
}

/// Reads what may stand after the initial value of a global, and gives the global.
fn suffixed_global(
    tokens: &mut Tokens<'_>,
    form: Form,
    name: &Lexeme<'_>,
    constant: bool,
    ty: Boxed<Ty>,
    init: Boxed<Init>,
) -> Result<Boxed<GlobalVar>, Cause>
    ensures { Gives (run (globals.suffixed_global form (Name.Text (name_in name.now)) constant ty init) tokens.old) result tokens.new }
{
    repeat(tokens, &EachSuffix { form }, ())?;
    Ok(global_of(tokens.alloc(), name, constant, ty, init)?)
}

/// Reads a global after `global` or `constant`.
fn typed_global(
    tokens: &mut Tokens<'_>,
    form: Form,
    name: &Lexeme<'_>,
    constant: bool,
) -> Result<Boxed<GlobalVar>, Cause>
    ensures { Gives (run (globals.typed_global form (Name.Text (name_in name.now)) constant) tokens.old) result tokens.new }
{
    let ty = boxed_type(tokens, form, MAX_DEPTH)?;
    let init = boxed_init(tokens, form, ty.get())?;
    suffixed_global(tokens, form, name, constant, ty, init)
}

/// Reads a global after its name, which is a token: words of linkage, `global` or `constant`, its type, its initial value,
/// and what may stand after them.
///
/// # Errors
///
/// `Outside(ExternalGlobal)` at `external` and `extern_weak`, `Syntax` or `Outside` at another token that can't stand, and
/// those of `type_to`, `init_to` and `global_suffix`.
#[tactic(auto, unfolding(ms_text_grammar::specs::Modules::global_variable))]
pub fn global_variable(
    tokens: &mut Tokens<'_>,
    form: Form,
    name: &Lexeme<'_>,
) -> Result<Boxed<GlobalVar>, Cause>
    ensures { Gives (run (spec.global_variable form (Name.Text (name_in name.now))) tokens.old) result tokens.new }
{
    tokens.word(Symbol::Equals)?;
    repeat(tokens, &EachLinkageWord {}, ())?;
    let constant = global_kind_of(&tokens.lexeme())?;
    tokens.advance();
    typed_global(tokens, form, name, constant)
}
