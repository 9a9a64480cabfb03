//! Turns of one kind after another, each of which takes the token that begins it.

ghost use Rattle.std.specs.Prelude.{◌≡◌, Ok, true, length};
ghost use Rattle.ms_lex.specs.Grammar.{loop, tail};
ghost use Rattle.ms_read_cursor.specs.Reading.{Gives, Judges, front, run};

use crate::cursor::Tokens;
use ms_text_grammar::Cause;

/// What reads a turn. A loop of the grammar goes on from a state as long as the next token begins a turn.
pub trait Turn {
    /// What was read so far.
    type State: Drop;

    ghost use Rattle.std.specs.Prelude.{Bool, Ok, true};
    ghost use Rattle.ms_text_grammar.specs.{Lexemes.{Lexeme as Seen}, Steps.{Rule as Piece, Verdict}};
    ghost use Rattle.ms_read_cursor.specs.Reading.{Gives, Judges, run};

    /// Whether a token begins a turn after what was read, or why it can't stand.
    ghost begins: { Self → Self.State → Seen → Verdict Bool };

    /// The piece of the grammar that goes on from what was read by the turn that a token begins.
    ghost body: { Self → Self.State → Seen → Piece Self.State };

    /// Whether the next token begins a turn, or why it can't stand.
    fn goes_on(&self, state: &Self::State, tokens: &Tokens<'_>) -> Result<bool, Cause>
        ensures { Judges (begins self.now state.now (front tokens.now)) result };

    /// Reads a turn, which the next token begins.
    fn turn(&self, state: Self::State, tokens: &mut Tokens<'_>) -> Result<Self::State, Cause>
        requires { begins self.now state (front tokens.old) ≡ Ok true }
        ensures { Gives (run (body self.now state (front tokens.old)) (tail tokens.old)) result tokens.new };
}

/// Reads turn after turn, from this state on, as long as the next token begins one.
#[tactic(auto, using(ms_lex::proofs::Loops::loop_goes, ms_lex::proofs::Loops::loop_ends, ms_lex::proofs::Loops::loop_stops, ms_lex::proofs::Loops::loop_moves, ms_lex::proofs::Loops::loop_all))]
pub fn repeat<T: Turn>(
    tokens: &mut Tokens<'_>,
    rule: &T,
    state: T::State,
) -> Result<T::State, Cause>
    ensures { Gives (run (loop (T.begins rule.now) (T.body rule.now) state) tokens.old) result tokens.new }
{
    let mut state = state;
    'turns: while tokens.left() > 0 {
        if !rule.goes_on(&state, tokens)? {
            return Ok(state);
        }
        state = rule.turn(state, tokens)?;
    }
    Ok(state)
}
