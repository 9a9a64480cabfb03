//! Sizes and alignments of types, and where their parts begin (LLVM Language Reference, "Data Layout" and "Type System").
//!
//! Nothing here takes memory, so nothing is kept: a named type is laid out again at each mention of it, and its name is looked up
//! by a walk of the named types. What checks and runs modules asks `Extents` of `ms_check_tables`, which keeps the layouts.
ghost use Rattle.std.specs.Prelude.{◌≡◌, ◌+◌, ◌<◌, ◌≤◌, map, option_map, IsSome, IfSome, unwrap_or};
ghost use Rattle.std.specs.Option.{option_copied};
ghost use Rattle.ms_ir.specs.{declared.syntax.Ty.{Ptr}, Names.{lookup}};
ghost use Rattle.ms_ir.specs.Layout.{extent, place_fields, type_extent, named_extent, extent_in, size_of, size_in, align_in, resolved, field_offset, part_offset};
ghost use Rattle.ms_ir.specs.{Extents.{IsLayout, limited, limit_extent, as_extent}, Parts.{count_parts}};

use crate::layouts::{CHAIN, LARGEST, Layout, int_align, pad, place_field, repeat, round_up};
use crate::{Module, Name, Ty};

/// The type that a name stands for, if it is defined.
fn find<'a>(types: &'a [(Name, Ty)], name: &Name) -> Option<&'a Ty>
    ensures { option_copied result ≡ lookup types.now name.now }
{
    for (other, ty) in types {
        if other == name {
            return Some(ty);
        }
    }
    None
}

/// The layout of a type, where chains of named types have at most `chain` links; none where a named type in it has
/// none.
#[cycle(types)]
fn layout_of(types: &[(Name, Ty)], chain: u32, ty: &Ty) -> Option<Layout>
    ensures is { option_map as_extent result ≡ option_map limit_extent (type_extent (named_extent (lookup types.now) chain) ty.now) }
    ensures layout { IfSome result IsLayout }
{
    match ty {
        Ty::Int(width) => {
            let size = int_align(*width);
            Some(Layout { size, align: size })
        }
        Ty::Ptr => Some(Layout { size: 8, align: 8 }),
        Ty::Array(count, item) => repeat(*count, layout_of(types, chain, item.get())),
        Ty::Struct(packed, fields) => struct_layout(types, chain, *packed, fields.as_slice()),
        Ty::Named(name) => named_layout(types, chain, name),
    }
}

/// The layout of a struct, by its fields.
#[cycle(types)]
fn struct_layout(types: &[(Name, Ty)], chain: u32, packed: bool, fields: &[Ty]) -> Option<Layout>
    ensures is { option_map as_extent result ≡ option_map limit_extent (place_fields packed (extent 0 1) (map (type_extent (named_extent (lookup types.now) chain)) fields.now)) }
    ensures layout { IfSome result IsLayout }
{
    let mut so_far = Layout { size: 0, align: 1 };
    for field in fields {
        match layout_of(types, chain, field) {
            None => return None,
            Some(layout) => so_far = place_field(packed, so_far, layout),
        }
    }
    Some(pad(so_far))
}

/// The layout of a named type.
#[cycle(types)]
fn named_layout(types: &[(Name, Ty)], chain: u32, name: &Name) -> Option<Layout>
    ensures is { option_map as_extent result ≡ option_map limit_extent (named_extent (lookup types.now) chain name.now) }
    ensures layout { IfSome result IsLayout }
{
    if chain == 0 {
        return None;
    }
    match find(types, name) {
        None => None,
        Some(ty) => layout_of(types, chain - 1, ty),
    }
}

/// The size of a type in bytes. None exactly where a named type in it is not defined or holds itself, where a
/// chain of more than 32 named types begins in it, each in the definition of the one before, or where the size
/// is above 2 to the 26.
///
/// It takes no memory. Where named types share others the time grows with each mention, doubling at each type
/// that mentions the next one twice: whoever takes modules from outside keeps the sizes of their named types.
pub fn size_of(m: &Module, ty: &Ty) -> Option<u64>
    ensures { result ≡ size_of m.now.types ty.now }
{
    match layout_of(m.types.as_slice(), CHAIN, ty) {
        None => None,
        Some(layout) => {
            if layout.size <= LARGEST {
                Some(layout.size)
            } else {
                None
            }
        }
    }
}

/// The alignment of a type that has a size, in bytes; 1 where a named type in it has none. It takes no memory,
/// and the time of `size_of`.
pub fn align_of(m: &Module, ty: &Ty) -> u64
    ensures { result ≡ align_in m.now.types ty.now }
{
    match layout_of(m.types.as_slice(), CHAIN, ty) {
        None => 1,
        Some(layout) => layout.align,
    }
}

/// The layout of a type, and no bytes where it has none.
fn layout_or_empty(types: &[(Name, Ty)], ty: &Ty) -> Layout
    ensures size { result.size ≡ limited (size_in types.now ty.now) }
    ensures align { result.align ≡ align_in types.now ty.now }
    ensures layout { IsLayout result }
{
    match layout_of(types, CHAIN, ty) {
        None => Layout { size: 0, align: 1 },
        Some(layout) => layout,
    }
}

/// Where the field of a struct with this number begins.
fn field_offset(types: &[(Name, Ty)], packed: bool, fields: &[Ty], number: u32) -> u64
    ensures { limited result ≡ limited (field_offset types.now packed (extent 0 1) fields.now number) }
{
    let mut so_far = Layout { size: 0, align: 1 };
    let mut left = number;
    for field in fields {
        let layout = layout_or_empty(types, field);
        if left == 0 {
            return if packed {
                so_far.size
            } else {
                round_up(so_far.size, layout.align)
            };
        }
        left -= 1;
        so_far = place_field(packed, so_far, layout);
    }
    so_far.size
}

/// Where the item of an array or the field of a struct with this number begins.
fn part_offset(types: &[(Name, Ty)], ty: &Ty, number: u32) -> u64
    ensures { limited result ≡ limited (part_offset types.now ty.now number) }
{
    match ty {
        Ty::Array(_, item) => {
            let layout = layout_or_empty(types, item.get());
            u64::from(number) * layout.size
        }
        Ty::Struct(packed, fields) => field_offset(types, *packed, fields.as_slice(), number),
        _ => 0,
    }
}

/// The number of parts of a type: of an array's items, or a struct's fields.
fn count_parts(ty: &Ty) -> u64
    ensures { result ≡ count_parts ty.now }
{
    match ty {
        Ty::Array(count, _) => *count,
        Ty::Struct(_, fields) => fields.as_slice().len() as u64,
        _ => 0,
    }
}

/// The type that a name stands for, or the type itself; none for a name that is not defined.
fn resolved<'a>(types: &'a [(Name, Ty)], ty: &'a Ty) -> Option<&'a Ty>
    ensures { unwrap_or (option_copied result) Ptr ≡ resolved types.now ty.now }
{
    match ty {
        Ty::Named(name) => find(types, name),
        _ => Some(ty),
    }
}

/// The number of fields of a struct, or of items of an array, by its name too; 0 for another type.
pub fn parts_of(m: &Module, ty: &Ty) -> u64
    ensures { result ≡ count_parts (resolved m.now.types ty.now) }
{
    match resolved(m.types.as_slice(), ty) {
        None => 0,
        Some(whole) => count_parts(whole),
    }
}

/// Where a field of a struct begins, or an item of an array, in bytes from its start; `ty` may be its name. It
/// takes no memory, and the time of `size_of`.
pub fn offset_of(m: &Module, ty: &Ty, field: u32) -> u64
    requires sized { IsSome (size_of m.now.types ty.now) }
    requires in_range { field < count_parts (resolved m.now.types ty.now) }
    ensures { result ≡ part_offset m.now.types (resolved m.now.types ty.now) field }
{
    let types = m.types.as_slice();
    match resolved(types, ty) {
        None => 0,
        Some(whole) => part_offset(types, whole, field),
    }
}
