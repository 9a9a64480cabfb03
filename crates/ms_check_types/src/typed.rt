//! Names with their types, each found by its name.
ghost use Rattle.std.specs.Prelude.{◌≡◌, ◌++◌, [], ◌∷◌, IfOk, OnErr, option_map};
ghost use Rattle.ms_ir.specs.{Names.{lookup}, ValueTypes.{type_of}};

use crate::rows::row_of;
use ms_bits::NoMemory;
use ms_check_tables::NameTable;
use ms_ir::{Name, ValueType};
use std::alloc::Global;
use std::marker::Model;

/// Names in order, each with a type, where the first of each name is found by its spelling, as `NameTable` finds it.
/// Contracts see it as the list of the pairs. Names and types are borrowed, and not copied.
#[derive(Drop)]
pub struct TypedNames<'m> {
    names: NameTable<'m>,
    rows: Vec<(&'m Name, ValueType<'m>)>,
}

impl<'m> Model for TypedNames<'m> {
    ghost use Rattle.std.specs.{Prelude.{List, map, ◌≡◌}, Coded.{codes}};
    ghost use Rattle.ms_ir.specs.contracts.syntax.Ty as coded_ty;
    ghost use Rattle.ms_ir.specs.{Layout.{Types}, ValueTypes.{type_of}};

    ghost Value = { Types };

    // By which the prover tells values of the model apart.
    ghost coded = { Prim.hlevel (codes, coded_ty.the_row.coded) };

    ghost view = { λ t. map (λ r. (r.0.now, type_of r.1)) t.rows.items };

    ghost invariant = { λ t. t.names ≡ map (λ r. r.0.now) t.rows.items };
}

impl<'m> TypedNames<'m> {
    /// No names. Takes no memory.
    pub fn new(alloc: Global) -> TypedNames<'m>
        ensures { result ≡ [] }
    {
        TypedNames {
            names: NameTable::new(alloc),
            rows: Vec::new(alloc),
        }
    }

    /// The type beside the first name that is equal to this one.
    pub fn get(&self, name: &Name) -> Option<ValueType<'m>>
        ensures { option_map type_of result ≡ lookup self.now name.now }
    {
        match row_of(&self.names, self.rows.as_slice(), name) {
            Some(row) => Some(row.1),
            None => None,
        }
    }

    /// Appends a name with its type. Where memory runs out nothing changes.
    pub fn push(&mut self, name: &'m Name, ty: ValueType<'m>) -> Result<(), NoMemory>
        ensures pushed { IfOk result (λ _. self.new ≡ self.old ++ (name.now, type_of ty.entry) ∷ []) }
        ensures err { OnErr result (self.new ≡ self.old) }
    {
        self.rows.push((name, ty))?;
        if let Err(error) = self.names.push(name) {
            self.rows.pop();
            return Err(error);
        }
        Ok(())
    }
}
