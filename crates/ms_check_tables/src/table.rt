//! `NameTable`: names in order, each found by its place and by its name, without a limit on how many. The check, the compiler
//! and the pass look names up in such tables.
ghost use Rattle.std.specs.Prelude.{◌≡◌, ◌++◌, [], ◌∷◌, length, IfOk, OnErr};
ghost use Rattle.ms_ir.specs.Equal.{has_name};
ghost use Rattle.ms_check_tables.specs.FirstPlace.{first_place};

use crate::capacity::make_room;
use crate::index::Index;
use ms_bits::NoMemory;
use ms_ir::Name;
use std::alloc::Global;
use std::marker::Model;

/// Names in order, equal ones among them, where the first place of each is found by its spelling: a text in constant
/// time, as in any hash table, a number in constant time where the numbers ascend and few are missing between two of
/// them, and any other number in logarithmic time.
/// Contracts see it as the list of the names. The names are borrowed, and not copied.
pub struct NameTable<'m> {
    names: Vec<&'m Name>,
    index: Index<'m>,
}

impl<'m> Model for NameTable<'m> {
    ghost use Rattle.std.specs.Prelude.{List, map, ◌≡◌};
    ghost use Rattle.ms_ir.specs.declared.syntax.Name.{Name};
    ghost use Rattle.ms_check_tables.specs.{FirstPlace.{first_place}, Index.{place_in}};

    ghost Value = { List Name };

    ghost view = { λ t. map (λ x. x.now) t.names.items };

    ghost invariant = { λ t. (x : Name) → place_in t.index x ≡ first_place (map (λ y. y.now) t.names.items) x };
}

impl<'m> NameTable<'m> {
    /// No names. Takes no memory.
    pub fn new(alloc: Global) -> NameTable<'m>
        ensures { result ≡ [] }
    {
        NameTable {
            names: Vec::new(alloc),
            index: Index::new(alloc),
        }
    }

    /// How many names there are, equal ones among them.
    pub fn len(&self) -> usize
        ensures { result ≡ length self.now }
    {
        self.names.len()
    }

    /// The place, counted from 0, of the first name that is equal to this one.
    pub fn place(&self, name: &Name) -> Option<usize>
        ensures { result ≡ first_place self.now name.now }
    {
        self.index.get(name)
    }

    /// Whether one of the names is equal to this one.
    pub fn contains(&self, name: &Name) -> bool
        ensures { result ≡ has_name self.now name.now }
    {
        self.place(name).is_some()
    }

    /// Appends a name. Returns the place of the first equal name before it, if there is one. Where memory
    /// runs out, the names stay as they were.
    pub fn push(&mut self, name: &'m Name) -> Result<Option<usize>, NoMemory>
        ensures names { IfOk result (λ _. self.new ≡ self.old ++ name.now ∷ []) }
        ensures found { IfOk result (λ place. place ≡ first_place self.old name.now) }
        ensures err { OnErr result (self.new ≡ self.old) }
    {
        let place = self.names.len();
        make_room(&mut self.names)?;
        self.names.push(name)?;
        match self.index.put(name, place) {
            Ok(first) => Ok(first),
            Err(error) => {
                self.names.pop();
                Err(error)
            }
        }
    }
}

// By hand, as in `ms_ir`: one call for the prover.
impl Drop for NameTable<'_> {
    fn drop(self) {
        let NameTable { names: _, index: _ } = self;
    }
}
