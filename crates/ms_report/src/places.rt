//! The lines of the places where uses lost an uninitialised bit without a report.
ghost use Rattle.std.specs.Prelude.{◌≡◌, ◌++◌, ◌-◌, length, take, IfOk};
ghost use Rattle.ms_ir.specs.Places.{HasSmallNumbers};
ghost use Rattle.ms_check_valid.specs.Formed.{Formed};
ghost use Rattle.ms_report.specs.BlindTexts.{most_places, times_text, blind_line, blind_with, more_line, further_places, places_with};

use crate::site_lines::SiteLines;
use crate::sites::push_site;
use ms_bits::NoMemory;
use ms_ir::Module;
use ms_runs::BlindPlace;
use ms_write_values::push_number;
use std::alloc::Global;

/// At most so many places are printed.
const MOST_PLACES: usize = 20;

/// Those of the places that are printed.
#[tactic(auto, using(crate::proofs::FewCalls::all_shown))]
fn shown(places: &[BlindPlace]) -> &[BlindPlace]
    ensures { result.now ≡ take most_places places.now }
{
    if places.len() <= MOST_PLACES {
        return places;
    }
    &places[..MOST_PLACES]
}

/// How many of the places aren't printed.
fn hidden(places: &[BlindPlace]) -> usize
    ensures { result ≡ length places.now - most_places }
{
    places.len().saturating_sub(MOST_PLACES)
}

/// Adds how often something was so: `once`, `2 times`.
fn push_times(text: &mut Vec<u8>, count: u64) -> Result<(), NoMemory>
    ensures { IfOk result (λ _. text.new.items ≡ text.old.items ++ times_text count) }
{
    if count == 1 {
        return text.extend_from_slice(b"once");
    }
    push_number(text, count)?;
    text.extend_from_slice(b" times")
}

/// Adds the line of a place.
fn push_blind_line(text: &mut Vec<u8>, m: &Module, place: BlindPlace) -> Result<(), NoMemory>
    requires { HasSmallNumbers m.now }
    ensures { IfOk result (λ _. text.new.items ≡ text.old.items ++ blind_line m.now place) }
{
    text.extend_from_slice(b"    blind")?;
    push_site(text, m, place.site)?;
    text.extend_from_slice(b", ")?;
    push_times(text, place.count)?;
    text.push(b'\n')?;
    Ok(())
}

/// Adds the line of a place, and the lines under its site.
fn push_blind<L: SiteLines>(
    text: &mut Vec<u8>,
    m: &Module,
    place: BlindPlace,
    under: &L,
) -> Result<(), NoMemory>
    requires { HasSmallNumbers m.now }
    ensures { IfOk result (λ _. text.new.items ≡ text.old.items ++ (blind_line m.now place ++ L.lines under.now place.site)) }
{
    push_blind_line(text, m, place)?;
    under.push_lines(text, place.site)
}

/// Adds the lines of these places.
fn push_each<L: SiteLines>(
    text: &mut Vec<u8>,
    m: &Module,
    places: &[BlindPlace],
    under: &L,
) -> Result<(), NoMemory>
    requires { HasSmallNumbers m.now }
    ensures { IfOk result (λ _. text.new.items ≡ text.old.items ++ blind_with (L.lines under.now) m.now places.now) }
{
    for place in places {
        push_blind(text, m, *place, under)?;
    }
    Ok(())
}

/// Adds the line that says how many more places there are.
fn push_more(text: &mut Vec<u8>, count: usize) -> Result<(), NoMemory>
    ensures { IfOk result (λ _. text.new.items ≡ text.old.items ++ more_line count) }
{
    text.extend_from_slice(b"    more blind places: ")?;
    push_number(text, count as u64)?;
    text.push(b'\n')?;
    Ok(())
}

/// Adds that line where there are more.
fn push_hidden(text: &mut Vec<u8>, count: usize) -> Result<(), NoMemory>
    ensures { IfOk result (λ _. text.new.items ≡ text.old.items ++ further_places count) }
{
    if count == 0 {
        return Ok(());
    }
    push_more(text, count)
}

/// Adds the lines of places: those of the first 20, and how many more there are.
fn push_places<L: SiteLines>(
    text: &mut Vec<u8>,
    m: &Module,
    places: &[BlindPlace],
    under: &L,
) -> Result<(), NoMemory>
    requires { HasSmallNumbers m.now }
    ensures { IfOk result (λ _. text.new.items ≡ text.old.items ++ places_with (L.lines under.now) m.now places.now) }
{
    push_each(text, m, shown(places), under)?;
    push_hidden(text, hidden(places))
}

/// The lines of places of blind uses of a run of `m`, in their order, with the lines `under` each site: one for each of the first 20,
/// and where there are more one that says how many.
pub fn places_text<L: SiteLines>(
    alloc: Global,
    m: &Module,
    places: &[BlindPlace],
    under: &L,
) -> Result<Vec<u8>, NoMemory>
    requires { Formed m.now }
    ensures { IfOk result (λ text. text.items ≡ places_with (L.lines under.now) m.now places.now) }
{
    let mut text = Vec::new(alloc);
    push_places(&mut text, m, places, under)?;
    Ok(text)
}
