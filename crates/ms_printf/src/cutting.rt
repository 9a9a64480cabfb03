//! The pieces of a format that is given as bytes, for tests, which call `cut`; runs walk along the format in memory (`walks.rt`).
ghost use Rattle.std.specs.Prelude.{true, ◌≡◌, ◌≤◌, ◌<◌, ◌∷◌, length, take, drop, option_map, IfOk, IfSome, MatchOption};
ghost use Rattle.ms_runs.specs.Formats.{directive as directive_of, plain_bytes, no_pieces, with_piece, cut_of};

use crate::directives::{long, short};
use ms_bits::{List, NoMemory};
use ms_runs::{Cut, Piece};
use std::alloc::Global;

/// A piece of bytes that are printed as they stand.
fn text(alloc: Global, bytes: &[u8]) -> Result<Piece, NoMemory>
    ensures { IfOk result (λ p. p ≡ Piece.Text bytes.now) }
{
    Ok(Piece::Text(List::from_vec(Vec::from_slice(alloc, bytes)?)))
}

/// The piece for which the bytes after a `%` stand, and of how many of them it is; none where they begin with no directive.
fn directive(alloc: Global, rest: &[u8]) -> Result<Option<(Piece, usize)>, NoMemory>
    ensures value { IfOk result (λ o. directive_of rest.now ≡ option_map (λ d. (d.0, drop d.1 rest.now)) o) }
    ensures within { IfOk result (λ o. IfSome o (λ d. d.1 ≤ length rest.now)) }
{
    if rest.is_empty() {
        return Ok(None);
    }
    if rest[0] == b'%' {
        return Ok(Some((text(alloc, b"%")?, 1)));
    }
    if rest[0] != b'l' {
        return match short(rest[0]) {
            Some(piece) => Ok(Some((piece, 1))),
            None => Ok(None),
        };
    }
    if rest.len() == 1 {
        return Ok(None);
    }
    match long(rest[1]) {
        Some(piece) => Ok(Some((piece, 2))),
        None => Ok(None),
    }
}

/// How many bytes stand before the first `%`.
fn plain_length(bytes: &[u8]) -> usize
    ensures value { result ≡ plain_bytes bytes.now }
    ensures within { result ≤ length bytes.now }
{
    let mut n = 0;
    while n < bytes.len() && bytes[n] != b'%' {
        n += 1;
    }
    n
}

/// All but the first `n` bytes.
fn bytes_after(bytes: &[u8], n: usize) -> &[u8]
    requires { n ≤ length bytes.now }
    ensures { result.now ≡ drop n bytes.now }
{
    &bytes[n..]
}

/// The first `n` bytes.
fn before(bytes: &[u8], n: usize) -> &[u8]
    requires { n ≤ length bytes.now }
    ensures { result.now ≡ take n bytes.now }
{
    &bytes[..n]
}

/// The first piece of a format, which begins with `first` and goes on with `after`, and of how many bytes it is; none where it is
/// bad there.
#[tactic(auto, using(crate::proofs::Cuts::by_directive, crate::proofs::Cuts::by_none, crate::proofs::Cuts::by_text))]
fn first_piece(
    alloc: Global,
    format: &[u8],
    first: u8,
    after: &[u8],
) -> Result<Option<(Piece, usize)>, NoMemory>
    requires { format.now ≡ first ∷ after.now }
    ensures value { IfOk result (λ o. MatchOption o (cut_of format.now ≡ no_pieces true) (λ d. cut_of format.now ≡ with_piece d.0 (cut_of (drop d.1 format.now)))) }
    ensures within { IfOk result (λ o. IfSome o (λ d. (0 < d.1) × (d.1 ≤ length format.now))) }
{
    if first == b'%' {
        return match directive(alloc, after)? {
            Some((piece, n)) => Ok(Some((piece, 1 + n))),
            None => Ok(None),
        };
    }
    let n = plain_length(format);
    let piece = text(alloc, before(format, n))?;
    Ok(Some((piece, n)))
}

/// Cuts a format, which are the bytes before a zero byte, into its pieces, up to the first place where no directive stands
/// after a `%`.
#[tactic(auto, using(crate::proofs::Cuts::began, crate::proofs::Cuts::more, crate::proofs::Cuts::ended, crate::proofs::Cuts::stopped))]
pub fn cut(alloc: Global, format: &[u8]) -> Result<Cut, NoMemory>
    ensures { IfOk result (λ c. c ≡ cut_of format.now) }
{
    let mut pieces: Vec<Piece> = Vec::new(alloc);
    let mut rest = format;
    'cut: while let [first, after @ ..] = rest {
        let Some((piece, n)) = first_piece(alloc, rest, *first, after)? else {
            return Ok(Cut {
                pieces: List::from_vec(pieces),
                bad: true,
            });
        };
        pieces.push(piece)?;
        rest = bytes_after(rest, n);
    }
    Ok(Cut {
        pieces: List::from_vec(pieces),
        bad: false,
    })
}
