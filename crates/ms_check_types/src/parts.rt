//! Whether a type has a size in all its parts.
ghost use Rattle.std.specs.{Prelude.{◌≡◌}, List.{list_all}};
ghost use Rattle.ms_check_types.specs.SizedParts.{has_sizes};

use ms_check_tables::Extents;
use ms_ir::Ty;

/// Whether a type and each type within it have sizes. What a named type stands for is looked at where it is defined.
#[cycle(parts)]
pub fn has_sizes(extents: &Extents, ty: &Ty) -> bool
    ensures { result ≡ has_sizes extents.now ty.now }
{
    match ty {
        Ty::Array(_, item) => extents.size_of(ty).is_some() && has_sizes(extents, item.get()),
        Ty::Struct(_, fields) => extents.size_of(ty).is_some()
            && all_have_sizes(extents, fields.as_slice()),
        _ => extents.size_of(ty).is_some(),
    }
}

/// Whether each of the types has a size in all its parts.
#[cycle(parts)]
fn all_have_sizes(extents: &Extents, types: &[Ty]) -> bool
    ensures { result ≡ list_all (has_sizes extents.now) types.now }
{
    for ty in types {
        if !has_sizes(extents, ty) {
            return false;
        }
    }
    true
}
