//! The laws of grammars at a small one.

ghost use Rattle.std.specs.Prelude.{◌≡◌, [], codes};
ghost use Rattle.ms_lex.specs.{Grammar.{done, fails, run}, Sums.{sum}};

use ms_lex::{HasGrammar, law_reads_or_stops};

/// The grammar of sums of digits up to a `;`, at which the laws are tried.
struct Sums;

impl HasGrammar for Sums {
    ghost use Rattle.ms_lex.specs.Sums.{sum};

    type Token = u8;

    type Reason = u8;

    type Value = u32;

    ghost end = { λ _. 0 };

    ghost grammar = { λ _. sum };
}

/// Two sums are read, and two texts stop at a byte.
#[tactic(auto, unfolding(ms_lex::specs::Sums::sum, ms_lex::specs::Lists::expect))]
fn sums_are_read()
    ensures three { run 0 sum (codes "1+2;") ≡ done 3 [] }
    ensures rest { run 0 sum (codes "7;8") ≡ done 7 (codes "8") }
    ensures no_digit { run 0 sum (codes "1+;") ≡ fails 59 (codes ";") }
    ensures no_end { run 0 sum (codes "1+2") ≡ fails 0 [] }
{}

#[test]
fn laws_of_a_small_grammar() {
    law_reads_or_stops(&Sums);
    sums_are_read();
}
