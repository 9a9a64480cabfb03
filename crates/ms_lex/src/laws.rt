//! Laws of grammars as data, whatever the grammar is.

ghost use Rattle.std.specs.Prelude.{◌≡◌, ◌⊎◌, ◌↔◌, List};
ghost use Rattle.ms_lex.specs.Grammar.{Reads, Stops, done, fails, run};

/// Something that has a grammar: over a type of tokens, with a type of reasons to stop at one and a type
/// of the values that it reads. A token of its own stands for the end of a text.
pub trait HasGrammar {
    /// What texts of the grammar are lists of.
    type Token;

    /// Why reading stops at a token.
    type Reason;

    /// What a text reads as.
    type Value;

    ghost use Rattle.ms_lex.specs.Grammar.{Grammar};

    /// The token that stands for the end of a text.
    ghost end: { Self → Self.Token };

    /// The grammar as data.
    ghost grammar: { Self → Grammar Self.Token Self.Reason Self.Value };
}

/// From a list of tokens every grammar either reads one value, or stops at one token for one reason, and never both. The function
/// `run` of its definition finds out which. ts are the tokens, x and y those that are left; a and b are values, d and e reasons.
#[tactic(auto, using(crate::proofs::Relations::one_reading, crate::proofs::Relations::not_both, crate::proofs::Relations::either))]
pub fn law_reads_or_stops<G: HasGrammar>(grammar: &G)
    ensures one_reading { (ts x y : List G.Token) (a b : G.Value)
        → Reads (G.end grammar.now) (G.grammar grammar.now) ts a x
        → Reads (G.end grammar.now) (G.grammar grammar.now) ts b y → (a ≡ b) × (x ≡ y) }
    ensures one_stop { (ts x y : List G.Token) (d e : G.Reason)
        → Stops (G.end grammar.now) (G.grammar grammar.now) ts d x
        → Stops (G.end grammar.now) (G.grammar grammar.now) ts e y → (d ≡ e) × (x ≡ y) }
    ensures never_both { (ts x y : List G.Token) (a : G.Value) (e : G.Reason)
        → Reads (G.end grammar.now) (G.grammar grammar.now) ts a x
        → Stops (G.end grammar.now) (G.grammar grammar.now) ts e y → ⊥ }
    ensures always_either { (ts : List G.Token)
        → ((a : G.Value) × (x : List G.Token) × Reads (G.end grammar.now) (G.grammar grammar.now) ts a x)
        ⊎ ((e : G.Reason) × (x : List G.Token) × Stops (G.end grammar.now) (G.grammar grammar.now) ts e x) }
    ensures runs_to_value { (ts x : List G.Token) (a : G.Value)
        → (run (G.end grammar.now) (G.grammar grammar.now) ts ≡ done a x)
        ↔ Reads (G.end grammar.now) (G.grammar grammar.now) ts a x }
    ensures runs_to_stop { (ts x : List G.Token) (e : G.Reason)
        → (run (G.end grammar.now) (G.grammar grammar.now) ts ≡ fails e x)
        ↔ Stops (G.end grammar.now) (G.grammar grammar.now) ts e x }
{}
