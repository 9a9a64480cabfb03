//! How many lines end before each token of a text, from which the number of its line follows.

ghost use Rattle.std.specs.Prelude.{◌≡◌, ◌≤◌, IfOk, length, count_by};
ghost use Rattle.ms_lex.specs.Tokens.{InOrder, is_newline};
ghost use Rattle.ms_where.specs.Shown.{newlines_before_tokens};

use ms_bits::NoMemory;
use ms_lex::Token;
use std::alloc::Global;

/// The newlines among bytes.
fn newlines(bytes: &[u8]) -> usize
    ensures value { result ≡ count_by is_newline bytes.now }
    ensures few { result ≤ length bytes.now }
{
    bytes.iter().filter(|byte| **byte == b'\n').count()
}

/// The newlines in front of each token of a text. Takes a time linear in the text.
pub fn newlines_before_tokens(
    alloc: Global,
    text: &[u8],
    tokens: &[Token],
) -> Result<Vec<u32>, NoMemory>
    requires { InOrder tokens.now (length text.now) }
    ensures { IfOk result (λ found. found.items ≡ newlines_before_tokens text.now tokens.now) }
{
    let mut found = Vec::with_capacity(alloc, tokens.len())?;
    let mut place = 0;
    let mut count = 0;
    for token in tokens {
        let start = token.start as usize;
        count += newlines(&text[place..start]);
        place = start;
        found.push(count as u32)?;
    }
    Ok(found)
}
