//! The number that a token spells.

ghost use Rattle.std.specs.Prelude.{◌≡◌, ◌≤◌, ◌^◌, ◌↔◌, length, IfSome, IfNone, IsNone};
ghost use Rattle.ms_lex.specs.Numbers.{IsOutside, decimal, signed_decimal};
ghost use Rattle.ms_lex.specs.Numbers as spec;

use crate::kinds::Token;
use crate::spellings::spelling;

/// The number that decimal digits spell, and `None` where 64 bits don't have it.
#[tactic(auto, using(crate::proofs::Decimals::began, crate::proofs::Decimals::ended, crate::proofs::Decimals::one_digit, crate::proofs::Decimals::too_large))]
pub fn decimal(digits: &[u8]) -> Option<u64>
    ensures value { IfSome result (λ n. n ≡ decimal digits.now) }
    ensures none { IfNone result (2 ^ 64 ≤ decimal digits.now) }
{
    let mut n: u64 = 0;
    for b in digits {
        let digit = u64::from(b.saturating_sub(b'0'));
        if n > (u64::MAX - digit) / 10 {
            return None;
        }
        n = 10 * n + digit;
    }
    Some(n)
}

/// The number that digits spell, with or without a minus sign; none below -2^63 and above 2^64 - 1.
fn signed(spelling: &[u8]) -> Option<i128>
    ensures value { IfSome result (λ n. n ≡ signed_decimal spelling.now) }
    ensures none { IfNone result (IsOutside (signed_decimal spelling.now)) }
    ensures some { IfSome result (λ n. IsOutside n → ⊥) }
{
    match spelling {
        [] => Some(0),
        [first, rest @ ..] => {
            if *first != b'-' {
                match decimal(spelling) {
                    Some(n) => Some(i128::from(n)),
                    None => None,
                }
            } else {
                match decimal(rest) {
                    Some(n) => {
                        if n > 1 << 63 {
                            None
                        } else {
                            Some(-i128::from(n))
                        }
                    }
                    None => None,
                }
            }
        }
    }
}

/// The number that a token of kind `Number` spells, and `None` where it is below -2^63 or above 2^64 - 1.
#[tactic(auto, unfolding(crate::specs::Numbers::number_of))]
pub fn number_of(text: &[u8], token: &Token) -> Option<i128>
    requires ordered { token.now.start ≤ token.now.end }
    requires inside { token.now.end ≤ length text.now }
    ensures value { IfSome result (λ n. n ≡ spec.number_of text.now token.now) }
    ensures none { IsNone result ↔ IsOutside (spec.number_of text.now token.now) }
{
    signed(spelling(text, token))
}
