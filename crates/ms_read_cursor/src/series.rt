//! Lists with commas between, each item of which goes on from what was read before it.

ghost use Rattle.std.specs.Prelude.{◌≡◌, false};
ghost use Rattle.ms_text_grammar.specs.Lexemes.{is};
ghost use Rattle.ms_text_grammar.specs.Steps as spec;
ghost use Rattle.ms_read_cursor.specs.Lists as lists;
ghost use Rattle.ms_read_cursor.specs.Reading.{Gives, front, run};

use crate::cursor::Tokens;
use ms_text_grammar::{Cause, Symbol};

/// What reads one item, from the state that the items before it left.
pub trait Series {
    /// What was read so far.
    type State: Drop;

    ghost use Rattle.std.specs.Prelude.{Bool};
    ghost use Rattle.ms_text_grammar.specs.Steps.{Rule as Piece};
    ghost use Rattle.ms_read_cursor.specs.Reading.{Gives, run};

    /// Whether a further item may come after what was read.
    ghost more: { Self → Self.State → Bool };

    /// The piece of the grammar that goes on from what was read by one item.
    ghost item: { Self → Self.State → Piece Self.State };

    /// Whether a further item may come.
    fn has_more(&self, state: &Self::State) -> bool
        ensures { result ≡ more self.now state.now };

    /// Reads one item, and gives the state after it.
    fn read(&self, state: Self::State, tokens: &mut Tokens<'_>) -> Result<Self::State, Cause>
        ensures { Gives (run (item self.now state) tokens.old) result tokens.new };
}

/// Reads further items after commas, as long as one may come.
#[tactic(auto, using(crate::proofs::Further::more_goes, crate::proofs::Further::more_stops, crate::proofs::Further::more_ends, crate::proofs::Further::no_more, crate::proofs::Further::turn_shorter))]
fn further<S: Series>(tokens: &mut Tokens<'_>, rule: &S, start: S::State) -> Result<S::State, Cause>
    ensures { Gives (run (lists.further (S.more rule.now) (S.item rule.now) start) tokens.old) result tokens.new }
{
    let mut state = start;
    'commas: while rule.has_more(&state) && tokens.sees(Symbol::Comma) {
        tokens.advance();
        state = rule.read(state, tokens)?;
    }
    Ok(state)
}

/// Items with commas between, and the closing symbol, which doesn't come first.
#[tactic(auto, using(crate::proofs::Further::listed_whole, crate::proofs::Further::listed_cut, crate::proofs::Further::listed_open, crate::proofs::Further::listed_stops))]
fn filled<S: Series>(
    tokens: &mut Tokens<'_>,
    closing: Symbol,
    rule: &S,
    start: S::State,
) -> Result<S::State, Cause>
    requires { is closing (front tokens.old) ≡ false }
    ensures { Gives (run (spec.listed closing (S.more rule.now) (S.item rule.now) start) tokens.old) result tokens.new }
{
    let first = rule.read(start, tokens)?;
    let all = further(tokens, rule, first)?;
    tokens.word(closing)?;
    Ok(all)
}

/// No item, or items with commas between, and the closing symbol.
#[tactic(auto, using(crate::proofs::Further::listed_empty))]
pub fn listed<S: Series>(
    tokens: &mut Tokens<'_>,
    closing: Symbol,
    rule: &S,
    start: S::State,
) -> Result<S::State, Cause>
    ensures { Gives (run (spec.listed closing (S.more rule.now) (S.item rule.now) start) tokens.old) result tokens.new }
{
    if tokens.sees(closing) {
        tokens.advance();
        Ok(start)
    } else {
        filled(tokens, closing, rule, start)
    }
}
