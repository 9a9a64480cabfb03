//! Whether hops are a way over moves, told from what a way is: nothing but the types is shared with how one is found. The way
//! is gone back from its end. What is read is a source and a distance: where the source is a byte, the byte so far after it.
//! `event` is the step that reads it; none at the report's use. `check_trail` is for tests; `explain` doesn't call it.
ghost use Rattle.std.specs.Prelude.{◌≡◌, ◌≤◌, ◌&&◌, MatchBool, eqb, length, slice_get, Some as Held};
ghost use Rattle.ms_ir.specs.Names.{name_eq};
ghost use Rattle.ms_trail_moves.specs.{Leads.{Leads}, Scanned.{is_before}};
ghost use Rattle.ms_trail_moves.specs.Checked.{distance_in, is_reached, is_written, counts_there, NoneAfter, IsNext, is_root_at};

use crate::moves::{Hop, Move, Source, Target};
use ms_ir::Name;

/// Whether two values are the same one: the frame and the name of the one, then those of the other.
fn is_value(frame: u64, name: &Name, other: u64, read: &Name) -> bool
    ensures { result ≡ (eqb frame other && name_eq name.now read.now) }
{
    frame == other && name == read
}

/// Whether byte `byte` of a target is what is read: a source, or the byte at a distance from one.
fn reaches(target: &Target, byte: u64, read: &Source, distance: u64) -> bool
    ensures { result ≡ is_reached target.now byte read.now distance }
{
    match (target, read) {
        (
            Target::Value { frame, name },
            Source::Value {
                frame: other,
                name: read,
            },
        ) => { byte == 0 && is_value(*frame, name, *other, read) }
        (Target::Bytes { addr, len }, Source::Byte { addr: read }) => {
            byte < *len && *addr as u128 + byte as u128 == *read as u128 + distance as u128
        }
        _ => false,
    }
}

/// Whether some byte of a target is what is read.
fn covers(target: &Target, read: &Source, distance: u64) -> bool
    ensures { result ≡ is_written target.now read.now distance }
{
    match (target, read) {
        (
            Target::Value { frame, name },
            Source::Value {
                frame: other,
                name: read,
            },
        ) => { is_value(*frame, name, *other, read) }
        (Target::Bytes { addr, len }, Source::Byte { addr: read }) => {
            let first = *addr as u128;
            let there = *read as u128 + distance as u128;
            first <= there && there < first + *len as u128
        }
        _ => false,
    }
}

/// Whether a move is of a step before step `event`, if that is given.
fn is_earlier(made: &Move, event: Option<u64>) -> bool
    ensures { result ≡ is_before event made.now }
{
    match event {
        Some(event) => made.event < event,
        None => true,
    }
}

/// Whether a move is of a step before step `event` and writes what is read.
fn writes(made: &Move, event: Option<u64>, read: &Source, distance: u64) -> bool
    ensures { result ≡ counts_there event read.now distance made.now }
{
    is_earlier(made, event) && covers(&made.to, read, distance)
}

/// Whether none of the moves from number `first` on is of a step before step `event` and writes what is read.
fn none_writes(
    moves: &[Move],
    first: usize,
    event: Option<u64>,
    read: &Source,
    distance: u64,
) -> bool
    ensures { MatchBool result (NoneAfter moves.now first event read.now distance) (NoneAfter moves.now first event read.now distance → ⊥) }
{
    for number in first..moves.len() {
        if writes(&moves[number], event, read, distance) {
            return false;
        }
    }
    true
}

/// Whether a hop's move is the last one, of the steps before step `event`, that writes what is read.
fn is_next(moves: &[Move], event: Option<u64>, read: &Source, distance: u64, hop: Hop) -> bool
    ensures { MatchBool result (IsNext moves.now event read.now distance hop) (IsNext moves.now event read.now distance hop → ⊥) }
{
    let index = hop.index as usize;
    if moves.len() <= index {
        return false;
    }
    let made = &moves[index];
    is_earlier(made, event)
        && reaches(&made.to, hop.byte, read, distance)
        && none_writes(moves, index + 1, event, read, distance)
}

/// How far after its move's source stands what a byte of a target comes from: a byte comes from that at its own distance.
fn distance_of(target: &Target, byte: u64) -> u64
    ensures { result ≡ distance_in target.now byte }
{
    match target {
        Target::Value { .. } => 0,
        Target::Bytes { .. } => byte,
    }
}

/// Whether a source is a root, at which a way begins.
fn is_root(source: &Source) -> bool
    ensures { result ≡ is_root_at source.now }
{
    matches!(source, Source::Root { .. })
}

/// Whether hops lead to what a use reads: each is the last move, of the steps before the next one's, that wrote what the next one
/// reads, and the first one reads a root. The moves may stand in any order. It takes no memory; each hop takes a pass over the
/// moves after its own.
pub fn check_trail(moves: &[Move], at: &Source, hops: &[Hop]) -> bool
    ensures { MatchBool result (Leads moves.now at.now hops.now) (Leads moves.now at.now hops.now → ⊥) }
{
    let mut read = at;
    let mut distance = 0;
    let mut event = None;
    let mut left = hops.len();
    while 0 < left {
        left -= 1;
        let hop = hops[left];
        if !is_next(moves, event, read, distance, hop) {
            return false;
        }
        let made = &moves[hop.index as usize];
        event = Some(made.event);
        distance = distance_of(&made.to, hop.byte);
        read = &made.from;
    }
    is_root(read)
}
