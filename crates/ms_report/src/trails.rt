//! The lines of the way on which the poisoned bits of a report came, for `explain`: one for each hop.
ghost use Rattle.std.specs.{Prelude.{◌≡◌, ◌+◌, ◌++◌, Some as Held, slice_get, IfOk}, Option.{option_copied}};
ghost use Rattle.ms_ir.specs.Places.{HasSmallNumbers};
ghost use Rattle.ms_trail_moves.specs.Leads.{came_from};
ghost use Rattle.ms_check_valid.specs.Formed.{Formed};
ghost use Rattle.ms_report.specs.TrailTexts.{value_text, byte_text, source_text, target_text, way_text, move_text, move_line, hop_with, hops_with, use_line, trail_calling};

use crate::calls::push_calls_if;
use crate::reports::push_hexadecimal;
use crate::site_lines::SiteLines;
use crate::sites::push_function_of;
use ms_bits::NoMemory;
use ms_ir::{Module, Name};
use ms_runs::Calls;
use ms_trail_moves::moves::{Hop, Move, Source, Target};
use ms_write_values::{push_name, push_number};
use std::alloc::Global;

/// What the lines of a way are made with: the module, the moves of its run, and the lines `under` each line that names a site.
#[derive(Drop)]
struct Moved<'a, L> {
    m: &'a Module,
    moves: &'a [Move],
    under: &'a L,
}

/// Adds the name of a value, and the number of the frame that it is of.
fn push_value(text: &mut Vec<u8>, frame: u64, name: &Name) -> Result<(), NoMemory>
    ensures { IfOk result (λ _. text.new.items ≡ text.old.items ++ value_text frame name.now) }
{
    text.push(b'%')?;
    push_name(text, name)?;
    text.extend_from_slice(b" of frame ")?;
    push_number(text, frame)
}

/// Adds the address of a byte, at a distance from `addr`.
fn push_byte(text: &mut Vec<u8>, addr: u64, distance: u64) -> Result<(), NoMemory>
    ensures { IfOk result (λ _. text.new.items ≡ text.old.items ++ byte_text (addr + distance)) }
{
    text.extend_from_slice(b"byte 0x")?;
    push_hexadecimal(text, addr.wrapping_add(distance))
}

/// Adds a source of a move.
fn push_source(text: &mut Vec<u8>, source: &Source) -> Result<(), NoMemory>
    ensures { IfOk result (λ _. text.new.items ≡ text.old.items ++ source_text source.now) }
{
    match source {
        Source::Root { number } => {
            text.extend_from_slice(b"root ")?;
            push_number(text, *number as u64)
        }
        Source::Value { frame, name } => push_value(text, *frame, name),
        Source::Byte { addr } => push_byte(text, *addr, 0),
    }
}

/// Adds what byte `k` of a move's target came from.
fn push_from(text: &mut Vec<u8>, made: &Move, k: u64) -> Result<(), NoMemory>
    ensures { IfOk result (λ _. text.new.items ≡ text.old.items ++ source_text (came_from made.now.from made.now.to k)) }
{
    match (&made.from, &made.to) {
        (Source::Byte { addr }, Target::Bytes { .. }) => push_byte(text, *addr, k),
        (from, _) => push_source(text, from),
    }
}

/// Adds byte `k` of a target.
fn push_to(text: &mut Vec<u8>, target: &Target, k: u64) -> Result<(), NoMemory>
    ensures { IfOk result (λ _. text.new.items ≡ text.old.items ++ target_text target.now k) }
{
    match target {
        Target::Value { frame, name } => push_value(text, *frame, name),
        Target::Bytes { addr, .. } => push_byte(text, *addr, k),
    }
}

/// Adds what byte `k` of a move's target came from, and that byte.
fn push_way(text: &mut Vec<u8>, made: &Move, k: u64) -> Result<(), NoMemory>
    ensures { IfOk result (λ _. text.new.items ≡ text.old.items ++ way_text made.now k) }
{
    push_from(text, made, k)?;
    text.extend_from_slice(b" to ")?;
    push_to(text, &made.to, k)
}

/// Begins the line of move number `index`, whose instruction has this site.
fn begin_move(text: &mut Vec<u8>, m: &Module, index: u32, site: u32) -> Result<(), NoMemory>
    requires { HasSmallNumbers m.now }
    ensures { IfOk result (λ _. text.new.items ≡ text.old.items ++ move_text m.now index site) }
{
    text.extend_from_slice(b"  move ")?;
    push_number(text, index as u64)?;
    text.extend_from_slice(b": site ")?;
    push_number(text, site as u64)?;
    text.extend_from_slice(b" in ")?;
    push_function_of(text, m, site)?;
    text.extend_from_slice(b", ")
}

/// Adds the line of a hop over a move.
fn push_move_line(text: &mut Vec<u8>, m: &Module, hop: Hop, made: &Move) -> Result<(), NoMemory>
    requires { HasSmallNumbers m.now }
    ensures { IfOk result (λ _. text.new.items ≡ text.old.items ++ move_line m.now hop.index made.now hop.byte) }
{
    begin_move(text, m, hop.index, made.site)?;
    push_way(text, made, hop.byte)?;
    text.push(b'\n')?;
    Ok(())
}

/// Adds the line of what the report's use reads.
fn push_use(text: &mut Vec<u8>, at: &Source) -> Result<(), NoMemory>
    ensures { IfOk result (λ _. text.new.items ≡ text.old.items ++ use_line at.now) }
{
    text.extend_from_slice(b"  use: ")?;
    push_source(text, at)?;
    text.push(b'\n')?;
    Ok(())
}

impl<L: SiteLines> Moved<'_, L> {
    /// Adds the line of a hop over a move, and the lines under it.
    fn push_move(&self, text: &mut Vec<u8>, hop: Hop, made: &Move) -> Result<(), NoMemory>
        requires { HasSmallNumbers self.now.m.now }
        ensures { IfOk result (λ _. text.new.items ≡ text.old.items ++ hop_with (L.lines self.now.under.now) self.now.m.now hop (Held made.now)) }
    {
        push_move_line(text, self.m, hop, made)?;
        self.under.push_lines(text, made.site)
    }

    /// Adds the line of a hop, and the lines under it.
    fn push_hop(&self, text: &mut Vec<u8>, hop: Hop) -> Result<(), NoMemory>
        requires { HasSmallNumbers self.now.m.now }
        ensures { IfOk result (λ _. text.new.items ≡ text.old.items ++ hop_with (L.lines self.now.under.now) self.now.m.now hop (slice_get self.now.moves.now hop.index)) }
    {
        match self.moves.get(hop.index as usize) {
            Some(made) => self.push_move(text, hop, made),
            None => Ok(()),
        }
    }

    /// Adds the lines of hops.
    fn push_hops(&self, text: &mut Vec<u8>, hops: &[Hop]) -> Result<(), NoMemory>
        requires { HasSmallNumbers self.now.m.now }
        ensures { IfOk result (λ _. text.new.items ≡ text.old.items ++ hops_with (L.lines self.now.under.now) self.now.m.now self.now.moves.now hops.now) }
    {
        for hop in hops {
            self.push_hop(text, *hop)?;
        }
        Ok(())
    }

    /// Adds the lines of hops with those of the calls that stood at the first one, if they are told, and the line of what the use
    /// reads to which they lead.
    fn push_trail(
        &self,
        text: &mut Vec<u8>,
        at: &Source,
        hops: &[Hop],
        calls: Option<&Calls>,
    ) -> Result<(), NoMemory>
        requires { HasSmallNumbers self.now.m.now }
        ensures { IfOk result (λ _. text.new.items ≡ text.old.items ++ trail_calling (L.lines self.now.under.now) self.now.m.now self.now.moves.now at.now hops.now (option_copied calls.entry)) }
    {
        match hops {
            [] => push_use(text, at),
            [first, rest @ ..] => {
                self.push_hop(text, *first)?;
                push_calls_if(text, self.m, calls, self.under)?;
                self.push_hops(text, rest)?;
                push_use(text, at)
            }
        }
    }
}

/// The lines of the hops over moves of a run of `m`, with these lines under each and those of the calls that stood at the first
/// one, if they are told, and the line of what the use reads to which they lead. A hop whose index is no move's has no line. Linear in
/// the number of hops, beside what adding lines costs.
pub fn trail_text_calling<L: SiteLines>(
    alloc: Global,
    m: &Module,
    moves: &[Move],
    at: &Source,
    hops: &[Hop],
    calls: Option<&Calls>,
    under: &L,
) -> Result<Vec<u8>, NoMemory>
    requires { Formed m.now }
    ensures { IfOk result (λ text. text.items ≡ trail_calling (L.lines under.now) m.now moves.now at.now hops.now (option_copied calls.entry)) }
{
    let mut text = Vec::new(alloc);
    let moved = Moved { m, moves, under };
    moved.push_trail(&mut text, at, hops, calls)?;
    Ok(text)
}
