//! The first name that parts of a module give twice, for `duplicates.rt`.
ghost use Rattle.std.specs.Prelude.{◌≡◌, ◌++◌, [], ◌∷◌, filter_map, option_to_list, IfOk, IfNone, slice_get};
ghost use Rattle.std.specs.Option.{option_copied};
ghost use Rattle.ms_check_valid.specs.NamesOnce.{repeats};

use ms_bits::NoMemory;
use ms_check_tables::{NameTable, Named};
use ms_ir::Name;

/// Appends the name that a part gives, if it gives one. Returns it where it stands already among those seen.
fn append_given<'m, T: Named>(
    seen: &mut NameTable<'m>,
    part: &'m T,
) -> Result<Option<&'m Name>, NoMemory>
    ensures first { IfOk result (λ r. option_copied r ≡ slice_get (repeats seen.old (option_to_list (T.name_of part.now))) 0) }
    ensures seen { IfOk result (λ _. seen.new ≡ seen.old ++ option_to_list (T.name_of part.now)) }
{
    match part.given_name() {
        Some(name) => append(seen, name),
        None => Ok(None),
    }
}

/// Appends a name. Returns it where it stands already among those seen.
pub fn append<'m>(seen: &mut NameTable<'m>, name: &'m Name) -> Result<Option<&'m Name>, NoMemory>
    ensures first { IfOk result (λ r. option_copied r ≡ slice_get (repeats seen.old (name.now ∷ [])) 0) }
    ensures seen { IfOk result (λ _. seen.new ≡ seen.old ++ name.now ∷ []) }
{
    match seen.push(name)? {
        Some(_) => Ok(Some(name)),
        None => Ok(None),
    }
}

/// Appends the names that parts of one kind give, up to the first that stands already among those seen; this one is
/// answered.
pub fn first_twice<'m, T: Named>(
    seen: &mut NameTable<'m>,
    parts: &'m [T],
) -> Result<Option<&'m Name>, NoMemory>
    ensures first { IfOk result (λ r. option_copied r ≡ slice_get (repeats seen.old (filter_map T.name_of parts.now)) 0) }
    ensures seen { IfOk result (λ r. IfNone r (seen.new ≡ seen.old ++ filter_map T.name_of parts.now)) }
{
    for part in parts {
        if let Some(name) = append_given(seen, part)? {
            return Ok(Some(name));
        }
    }
    Ok(None)
}
