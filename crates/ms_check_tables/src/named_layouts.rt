//! The layouts of named types, each kept, where chains of named types are at most so long: under `Extents`.
//!
//! A chain of one more link is laid out from the layouts of those that are shorter, so a named type is looked up
//! at its mention, and not laid out again.
ghost use Rattle.std.specs.Prelude.{◌≡◌, ◌+◌, ◌<◌, ◌-◌, ◌^◌, All, map, None, option_map, IfOk, IfSome, OnOk};
ghost use Rattle.ms_ir.specs.{Names.{lookup}, Layout.{extent, place_fields, type_extent, named_extent}};
ghost use Rattle.ms_ir.specs.Extents.{IsLayout, limit_extent, as_extent};
ghost use Rattle.ms_check_tables.specs.Kept.{Links, links_of, laid_rows};

use crate::NameTable;
use crate::defined::names_of;
use ms_bits::NoMemory;
use ms_ir::layouts::{Layout, int_align, pad, place_field, repeat};
use ms_ir::{Name, Ty};
use std::alloc::Global;
use std::marker::Model;

/// Named types, and the layout of each that has one where a chain of named types, each in the definition of the
/// one before, has at most so many links. Contracts see the types and the number of links.
#[derive(Drop)]
pub struct NamedLayouts<'m> {
    types: &'m [(Name, Ty)],
    names: NameTable<'m>,
    /// The most links that a chain may have.
    links: u32,
    /// In the order of the types; none where a longer chain begins in one, or it holds itself.
    layouts: Vec<Option<Layout>>,
}

impl<'m> Model for NamedLayouts<'m> {
    ghost use Rattle.std.specs.Coded.{codes};
    ghost use Rattle.ms_ir.specs.contracts.syntax.Ty as coded_ty;
    ghost use Rattle.ms_check_tables.specs.Kept.{Links, IsKept};

    ghost Value = { Links };

    // By which the prover tells values of the model apart.
    ghost coded = { Prim.hlevel (codes, coded_ty.the_row.coded) };

    ghost view = { λ k. record { types = k.types.now; links = k.links } };

    ghost invariant = { λ k. IsKept k.types.now k.names k.links k.layouts.items };
}

/// For each of some named types that it has no layout yet.
fn no_layouts(alloc: Global, types: &[(Name, Ty)]) -> Result<Vec<Option<Layout>>, NoMemory>
    ensures { IfOk result (λ rows. rows.items ≡ map (λ t. None) types.now) }
{
    types.iter().map(|_| None).collect(alloc)
}

impl<'m> NamedLayouts<'m> {
    /// Begins with chains of no link, so no named type has a layout.
    pub fn new(alloc: Global, types: &'m [(Name, Ty)]) -> Result<NamedLayouts<'m>, NoMemory>
        ensures { IfOk result (λ k. k ≡ links_of types.now 0) }
    {
        let names = names_of(alloc, types)?;
        let layouts = no_layouts(alloc, types)?;
        Ok(NamedLayouts {
            types,
            names,
            links: 0,
            layouts,
        })
    }

    /// The layout of a named type; none where it has none.
    pub fn named(&self, name: &Name) -> Option<Layout>
        ensures is { option_map as_extent result ≡ option_map limit_extent (named_extent (lookup self.now.types) self.now.links name.now) }
        ensures layout { IfSome result IsLayout }
    {
        match self.names.place(name) {
            None => None,
            Some(place) => match self.layouts.get(place) {
                None => None,
                Some(layout) => *layout,
            },
        }
    }

    /// The layouts of the named types where chains may have one link more.
    fn lay_out(&self, alloc: Global) -> Result<Vec<Option<Layout>>, NoMemory>
        ensures is { IfOk result (λ rows. laid_rows rows.items ≡ map (λ t. option_map limit_extent (type_extent (named_extent (lookup self.now.types) self.now.links) t.1)) self.now.types) }
        ensures layouts { IfOk result (λ rows. All (λ row. IfSome row IsLayout) rows.items) }
    {
        let types = self.types;
        let mut layouts = Vec::with_capacity(alloc, types.len())?;
        for (_, ty) in types {
            layouts.push(layout_of(self, ty))?;
        }
        Ok(layouts)
    }

    /// Lets chains have one link more. Where memory runs out, nothing changes.
    pub fn lengthen(&mut self, alloc: Global) -> Result<(), NoMemory>
        requires { self.old.links < 2 ^ 32 - 1 }
        ensures { OnOk result (self.new ≡ links_of self.old.types (self.old.links + 1)) }
    {
        let layouts = self.lay_out(alloc)?;
        self.layouts = layouts;
        self.links += 1;
        Ok(())
    }
}

/// The layout of a type; none where a named type in it has none.
#[cycle(kept)]
pub fn layout_of(kept: &NamedLayouts, ty: &Ty) -> Option<Layout>
    ensures is { option_map as_extent result ≡ option_map limit_extent (type_extent (named_extent (lookup kept.now.types) kept.now.links) ty.now) }
    ensures layout { IfSome result IsLayout }
{
    match ty {
        Ty::Int(width) => {
            let size = int_align(*width);
            Some(Layout { size, align: size })
        }
        Ty::Ptr => Some(Layout { size: 8, align: 8 }),
        Ty::Array(count, item) => repeat(*count, layout_of(kept, item.get())),
        Ty::Struct(packed, fields) => struct_layout(kept, *packed, fields.as_slice()),
        Ty::Named(name) => kept.named(name),
    }
}

/// The layout of a struct, by its fields.
#[cycle(kept)]
fn struct_layout(kept: &NamedLayouts, packed: bool, fields: &[Ty]) -> Option<Layout>
    ensures is { option_map as_extent result ≡ option_map limit_extent (place_fields packed (extent 0 1) (map (type_extent (named_extent (lookup kept.now.types) kept.now.links)) fields.now)) }
    ensures layout { IfSome result IsLayout }
{
    let mut so_far = Layout { size: 0, align: 1 };
    for field in fields {
        match layout_of(kept, field) {
            None => return None,
            Some(layout) => so_far = place_field(packed, so_far, layout),
        }
    }
    Some(pad(so_far))
}
