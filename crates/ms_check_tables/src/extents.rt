//! The sizes of types, by the kept layouts of the named types.
ghost use Rattle.std.specs.Prelude.{◌≡◌, ◌≤◌, Option, option_map, unwrap_or, IfOk, IfSome};
ghost use Rattle.ms_ir.specs.{declared.syntax.Ty.{Named}, Layout.{Extent, size_of, align_in}};
ghost use Rattle.ms_ir.specs.Extents.{IsLayout, limit_extent, as_extent};
ghost use Rattle.ms_check_tables.specs.Kept.{size_within};

use crate::named_layouts::{NamedLayouts, layout_of};
use ms_bits::NoMemory;
use ms_ir::layouts::{CHAIN, LARGEST, Layout};
use ms_ir::{Module, Name, Ty};
use std::alloc::Global;
use std::marker::Model;

/// The size in a layout, where there is one and the size is at most `LARGEST`, the greatest that a type may have.
fn small_size(layout: Option<Layout>) -> Option<u64>
    ensures { (o : Option Extent) → option_map as_extent layout ≡ option_map limit_extent o → result ≡ size_within o }
{
    match layout {
        None => None,
        Some(layout) => {
            if layout.size <= LARGEST {
                Some(layout.size)
            } else {
                None
            }
        }
    }
}

/// The alignment in a layout in bytes, and 1 where there is none.
fn align_in_layout(layout: Option<Layout>) -> u64
    requires { IfSome layout IsLayout }
    ensures positive { 1 ≤ result }
    ensures low { result ≤ 8 }
    ensures is { (o : Option Extent) → option_map as_extent layout ≡ option_map limit_extent o → result ≡ unwrap_or (option_map (λ whole. whole.align) o) 1 }
{
    match layout {
        None => 1,
        Some(layout) => layout.align,
    }
}

/// The extents of a module's named types (LLVM Language Reference, "Data Layout" and "Structure Type"), each laid out
/// once for each link of the longest chain that is allowed. Contracts see the named types.
#[derive(Drop)]
pub struct Extents<'m> {
    /// The layouts of the named types, by chains of up to 32 links.
    kept: NamedLayouts<'m>,
}

impl<'m> Model for Extents<'m> {
    ghost use Rattle.std.specs.{Prelude.{◌≡◌}, Coded.{codes}};
    ghost use Rattle.ms_ir.specs.contracts.syntax.Ty as coded_ty;
    ghost use Rattle.ms_ir.specs.Layout.{Types};

    ghost Value = { Types };

    // By which the prover tells values of the model apart.
    ghost coded = { Prim.hlevel (codes, coded_ty.the_row.coded) };

    ghost view = { λ e. e.kept.types };

    ghost invariant = { λ e. e.kept.links ≡ 32 };
}

impl<'m> Extents<'m> {
    /// The extents of a module's named types, in time linear in what is written in them, but for their names, which
    /// `NameTable` finds.
    pub fn of(alloc: Global, m: &'m Module) -> Result<Extents<'m>, NoMemory>
        ensures { IfOk result (λ extents. extents ≡ m.now.types) }
    {
        let mut kept = NamedLayouts::new(alloc, m.types.as_slice())?;
        for _link in 0..CHAIN {
            kept.lengthen(alloc)?;
        }
        Ok(Extents { kept })
    }

    /// The size of a type in bytes, in time linear in what is written in it. None exactly where a named type in it is
    /// not defined or holds itself, where a chain of more than 32 named types begins in it, each in the definition of
    /// the one before, or where the size is above 2 to the 26. It takes no memory.
    pub fn size_of(&self, ty: &Ty) -> Option<u64>
        ensures { result ≡ size_of self.now ty.now }
    {
        small_size(layout_of(&self.kept, ty))
    }

    /// The alignment of a type that has a size, in bytes; 1 where a named type in it has none. It takes no memory, and
    /// the time of `size_of`.
    pub fn align_of(&self, ty: &Ty) -> u64
        ensures is { result ≡ align_in self.now ty.now }
        ensures positive { 1 ≤ result }
        ensures low { result ≤ 8 }
    {
        align_in_layout(layout_of(&self.kept, ty))
    }

    /// The size of a named type in bytes, or none, as `size_of` gives it for the type that is this name.
    pub fn size_of_named(&self, name: &Name) -> Option<u64>
        ensures { result ≡ size_of self.now (Named name.now) }
    {
        small_size(self.kept.named(name))
    }
}
