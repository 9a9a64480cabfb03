//! The row of a list that stands at the place of a name in a `NameTable` of the list's names: a type's definition, a function.
ghost use Rattle.std.specs.{Prelude.{◌≡◌}, Option.{option_copied}};
ghost use Rattle.ms_check_tables.specs.FirstPlace.{first_place, at_place};

use ms_check_tables::NameTable;
use ms_ir::Name;

/// The item of `rows` at the first place that a name has among their names; none for a name that isn't there.
pub fn row_of<'a, T>(names: &NameTable<'_>, rows: &'a [T], name: &Name) -> Option<&'a T>
    ensures { option_copied result ≡ at_place rows.now (first_place names.now name.now) }
{
    match names.place(name) {
        Some(place) => rows.get(place),
        None => None,
    }
}
