//! What a type takes in memory, and that of an array or a struct by its parts (LLVM Language Reference, "Data Layout" and "Type
//! System"). A size that is above the greatest is kept as the next number; contracts compare it with one that is limited in the
//! same way.
ghost use Rattle.std.specs.Prelude.{◌≡◌, ◌+◌, ◌*◌, ◌≤◌, ◌^◌, [], ◌∷◌, option_map, IfSome};
ghost use Rattle.ms_ir.specs.Layout.{extent, int_align, round_up, place_field, array_extent};
ghost use Rattle.ms_ir.specs.Extents.{IsLayout, limited, limit_extent, as_extent};

/// The greatest size of a type, in bytes.
pub const LARGEST: u64 = 1 << 26;

/// How many named types, each in the definition of the one before, may follow one another.
pub const CHAIN: u32 = 32;

/// What stands for each size above the greatest.
const TOO_LARGE: u64 = LARGEST + 1;

/// The bytes that something takes, at most `TOO_LARGE`, and its alignment, both in bytes.
#[derive(Clone, Copy)]
pub struct Layout {
    pub size: u64,
    pub align: u64,
}

/// The alignment of an integer type, and its size within others.
pub fn int_align(width: u8) -> u64
    ensures is { result ≡ int_align width }
    ensures positive { 1 ≤ result }
    ensures low { result ≤ 8 }
{
    if width <= 8 {
        1
    } else if width <= 16 {
        2
    } else if width <= 32 {
        4
    } else {
        8
    }
}

/// The least multiple of an alignment that is not below a size.
pub fn round_up(size: u64, align: u64) -> u64
    requires small { size ≤ 2 ^ 26 + 1 }
    requires positive { 1 ≤ align }
    requires low { align ≤ 8 }
    ensures is { result ≡ round_up size align }
    ensures near { result ≤ size + 7 }
{
    (size + (align - 1)) / align * align
}

/// A size, or `TOO_LARGE`.
fn limit(size: u64) -> u64
    ensures is { result ≡ limited size }
    ensures small { result ≤ 2 ^ 26 + 1 }
{
    size.min(TOO_LARGE)
}

/// A struct so far, after one more field.
pub fn place_field(packed: bool, so_far: Layout, field: Layout) -> Layout
    requires so_far { IsLayout so_far }
    requires field { IsLayout field }
    ensures is { as_extent result ≡ limit_extent (place_field packed (as_extent so_far) (as_extent field)) }
    ensures layout { IsLayout result }
{
    if packed {
        let size = limit(so_far.size + field.size);
        Layout { size, align: 1 }
    } else {
        let size = limit(round_up(so_far.size, field.align) + field.size);
        let align = so_far.align.max(field.align);
        Layout { size, align }
    }
}

/// An array, by its item; none where the item has no layout.
pub fn repeat(count: u64, item: Option<Layout>) -> Option<Layout>
    requires { IfSome item IsLayout }
    ensures is { option_map as_extent result ≡ option_map limit_extent (array_extent count (option_map as_extent item ∷ [])) }
    ensures layout { IfSome result IsLayout }
{
    match item {
        None => None,
        Some(item) => Some(Layout {
            size: limit(count.saturating_mul(item.size)),
            align: item.align,
        }),
    }
}

/// A struct, by what its fields take.
pub fn pad(fields: Layout) -> Layout
    requires { IsLayout fields }
    ensures is { as_extent result ≡ limit_extent (extent (round_up fields.size fields.align) fields.align) }
    ensures layout { IsLayout result }
{
    let size = limit(round_up(fields.size, fields.align));
    Layout {
        size,
        align: fields.align,
    }
}
