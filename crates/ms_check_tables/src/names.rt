//! `Names`: a `NameTable` whose places fit into 32 bits, for what is numbered so.
ghost use Rattle.std.specs.Prelude.{◌≡◌, ◌++◌, [], ◌∷◌, ◌<◌, ◌-◌, ◌^◌, length, IfOk, OnErr};
ghost use Rattle.ms_ir.specs.Equal.{has_name};
ghost use Rattle.ms_check_tables.specs.FirstPlace.{first_place};

use crate::table::NameTable;
use ms_bits::NoMemory;
use ms_ir::Name;
use std::alloc::Global;
use std::marker::Model;

/// Names as in `NameTable`, fewer than 2 to the 32, so that each place has 32 bits. Contracts see it as the list
/// of the names.
#[derive(Drop)]
pub struct Names<'m> {
    table: NameTable<'m>,
}

impl<'m> Model for Names<'m> {
    ghost use Rattle.std.specs.Prelude.{List, length, ◌<◌, ◌^◌};
    ghost use Rattle.ms_ir.specs.declared.syntax.Name.{Name};

    ghost Value = { List Name };

    ghost view = { λ n. n.table };

    ghost invariant = { λ n. length n.table < 2 ^ 32 };
}

impl<'m> Names<'m> {
    /// No names. Takes no memory.
    pub fn new(alloc: Global) -> Names<'m>
        ensures { result ≡ [] }
    {
        Names {
            table: NameTable::new(alloc),
        }
    }

    /// How many names there are, equal ones among them.
    pub fn len(&self) -> u32
        ensures { result ≡ length self.now }
    {
        self.table.len() as u32
    }

    /// The place, counted from 0, of the first name that is equal to this one.
    pub fn place(&self, name: &Name) -> Option<u32>
        ensures { result ≡ first_place self.now name.now }
    {
        match self.table.place(name) {
            Some(place) => Some(place as u32),
            None => None,
        }
    }

    /// Whether one of the names is equal to this one.
    pub fn contains(&self, name: &Name) -> bool
        ensures { result ≡ has_name self.now name.now }
    {
        self.table.contains(name)
    }

    /// Appends a name. Returns the place of the first equal name before it, if there is one. Where memory
    /// runs out, the names stay as they were.
    pub fn push(&mut self, name: &'m Name) -> Result<Option<u32>, NoMemory>
        requires { length self.old < 2 ^ 32 - 1 }
        ensures names { IfOk result (λ _. self.new ≡ self.old ++ name.now ∷ []) }
        ensures found { IfOk result (λ place. place ≡ first_place self.old name.now) }
        ensures err { OnErr result (self.new ≡ self.old) }
    {
        match self.table.push(name)? {
            Some(place) => Ok(Some(place as u32)),
            None => Ok(None),
        }
    }
}
